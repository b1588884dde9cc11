//! The faults of a clause, found by a mark for each variable.
ghost use Rattle.std.specs.Prelude.{◌≡◌, true, false, ◌+◌, ◌<◌, ◌≤◌, nat_lt, length, take, All};
ghost use Rattle.pv_cnf.specs.Literal.{variable_of};
ghost use Rattle.pv_cnf.specs.Clause.{has_outside, has_double, has_variable};
ghost use Rattle.pv_cnf.specs.Fault.{first_fault};
ghost use Rattle.pv_cnf.specs.Layout.{MarksAre, MarksWithin};

use crate::clauses::PushFault;

/// Whether a literal's variable is 0 or past the last.
fn goes_outside(variables: u32, lits: &[u32]) -> bool
    ensures { result ≡ has_outside variables lits.now }
{
    lits.iter().any(|lit| *lit / 2 == 0 || *lit / 2 > variables)
}

/// Marks the variables of the literals up to the first whose variable is marked already. Returns how
/// many literals were gone over.
fn mark(marks: &mut [bool], lits: &[u32]) -> usize
    requires marks { All (λ lit. variable_of lit < length marks.old) lits.now }
    requires clear { All (λ mark. mark ≡ false) marks.old }
    ensures count { result ≤ length lits.now }
    ensures double { nat_lt result (length lits.now) ≡ has_double lits.now }
    ensures distinct { has_double (take result lits.now) ≡ false }
    ensures marked { MarksAre (λ v. has_variable v (take result lits.now)) marks.new }
{
    let mut done = 0;
    for lit in lits {
        let variable = (*lit / 2) as usize;
        if marks[variable] {
            break;
        }
        marks[variable] = true;
        done += 1;
    }
    done
}

/// Takes the marks of the literals' variables away.
fn unmark(marks: &mut [bool], lits: &[u32])
    requires marks { All (λ lit. variable_of lit < length marks.old) lits.now }
    requires marked { MarksWithin (λ v. has_variable v lits.now) marks.old }
    ensures { All (λ mark. mark ≡ false) marks.new }
{
    for lit in lits {
        marks[(*lit / 2) as usize] = false;
    }
}

/// Whether a variable stands twice. No mark is set before and after.
fn repeats(marks: &mut [bool], lits: &[u32]) -> bool
    requires marks { All (λ lit. variable_of lit < length marks.old) lits.now }
    requires clear { All (λ mark. mark ≡ false) marks.old }
    ensures double { result ≡ has_double lits.now }
    ensures clear { All (λ mark. mark ≡ false) marks.new }
{
    let done = mark(marks, lits);
    unmark(marks, &lits[..done]);
    done < lits.len()
}

/// The fault of a clause over the variables 1 to the number given, the first that applies. No mark is
/// set before and after.
pub(crate) fn fault_of(variables: u32, marks: &mut [bool], lits: &[u32]) -> Option<PushFault>
    requires marks { length marks.old ≡ variables + 1 }
    requires clear { All (λ mark. mark ≡ false) marks.old }
    ensures fault { result ≡ first_fault variables lits.now }
    ensures clear { All (λ mark. mark ≡ false) marks.new }
{
    if goes_outside(variables, lits) {
        return Some(PushFault::VariableOutOfRange);
    }
    if repeats(marks, lits) {
        return Some(PushFault::Doubled);
    }
    if lits.is_empty() {
        return Some(PushFault::Empty);
    }
    None
}
