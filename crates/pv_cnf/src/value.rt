//! Whether values make clauses hold.
ghost use Rattle.std.specs.Prelude.{◌≡◌, ◌↔◌, ◌<◌, ◌≤◌, IsTrue, All};
ghost use Rattle.pv_cnf.specs.Literal.{variable_of, literal_value};
ghost use Rattle.pv_cnf.specs.Clause.{clause_value, Holds};

use crate::clauses::{ClauseView, Values};

fn literal_is_true<V: Values>(lit: u32, values: &V) -> bool
    requires from_one { 0 < variable_of lit }
    requires to_last { variable_of lit ≤ V.assigned values.now }
    ensures { result ≡ literal_value (V.truth values.now) lit }
{
    let value = values.value(lit / 2);
    if lit % 2 == 1 { !value } else { value }
}

/// Whether a literal of the clause is true.
fn clause_is_true<V: Values>(lits: &[u32], values: &V) -> bool
    requires { All (λ lit. (0 < variable_of lit) × (variable_of lit ≤ V.assigned values.now)) lits.now }
    ensures { result ≡ clause_value (V.truth values.now) lits.now }
{
    for lit in lits {
        if literal_is_true(*lit, values) {
            return true;
        }
    }
    false
}

/// Whether each clause has a literal that is true under the values.
pub fn holds<F: ClauseView, V: Values>(f: &F, values: &V) -> bool
    requires { F.variables f.now ≤ V.assigned values.now }
    ensures { IsTrue result ↔ Holds (V.truth values.now) (F.clauses f.now) }
{
    for n in 0..f.count() {
        if !clause_is_true(f.clause(n + 1), values) {
            return false;
        }
    }
    true
}
