//! The gates of terms and assignments.
ghost use Rattle.std.specs.Prelude.{◌≡◌, ◌<◌, ◌≤◌, length, map, IfOk, OnOk, All};
ghost use Rattle.pv_gate.specs.declared.fault.GateFault.TheVariants.{Limit};
ghost use Rattle.pv_gate.specs.Node.{Names, gate_count};
ghost use Rattle.pv_bool.specs.Tree.{term_tree, assignment_tree, IsTermOver, IsAssignmentOver};
ghost use Rattle.pv_bool.specs.Programs.{program_tree};
ghost use Rattle.pv_step.specs.Circuits.{constant_literal, term_gate, assign_gate, body_gates};
ghost use Rattle.pv_step.specs.Circuits.{scan_gate};
ghost use Rattle.pv_step.specs.Wiring.{wires, Gives};

use pv_bool::{Assignment, Program, Term};
use pv_gate::{FALSE, GateFault, Gates, TRUE};

/// The requirement's literal at the end of a program's scan from these literals of its bits, which
/// then are those at its end. Limit where it needs more gates than the limit allows.
pub(crate) fn scan(
    gates: &mut Gates,
    program: &Program,
    literals: &mut [i32],
) -> Result<i32, GateFault>
    requires bits { length literals.old ≡ length program.now.bits.items }
    requires literals { All (Names (length gates.old.nodes)) literals.old }
    ensures made { Gives gates.old gates.new
        (scan_gate (program_tree program.now).body (wires gates.old literals.old)
        (program_tree program.now).holds) result }
    ensures end { OnOk result (literals.new
        ≡ (body_gates (program_tree program.now).body (wires gates.old literals.old)).literals) }
    ensures names { IfOk result (λ literal. Names (length gates.new.nodes) literal) }
{
    assign_all(gates, &program.body, literals)?;
    literal_of(gates, literals, &program.holds)
}

/// The literal of a term over the literals of the bits. Parts are made from left to right. Limit
/// where it needs more gates than the limit allows.
fn literal_of(gates: &mut Gates, literals: &[i32], term: &Term) -> Result<i32, GateFault>
    requires over { IsTermOver (length literals.now) (term_tree term.now) }
    requires literals { All (Names (length gates.old.nodes)) literals.now }
    ensures made { Gives gates.old gates.new
        (term_gate literals.now gates.old.nodes (term_tree term.now)) result }
    ensures names { IfOk result (λ literal. Names (length gates.new.nodes) literal) }
    ensures longer { length gates.old.nodes ≤ length gates.new.nodes }
{
    match term {
        Term::Constant(value) => Ok(constant(gates, *value)),
        Term::Load(bit) => Ok(literals[*bit as usize]),
        Term::Not(inner) => {
            let inner = literal_of(gates, literals, inner)?;
            Ok(gates.complement(inner))
        }
        Term::And(left, right) => {
            let left = literal_of(gates, literals, left)?;
            let right = literal_of(gates, literals, right)?;
            gates.and(left, right)
        }
        Term::Or(left, right) => {
            let left = literal_of(gates, literals, left)?;
            let right = literal_of(gates, literals, right)?;
            gates.or(left, right)
        }
    }
}

/// The literal of a constant.
fn constant(gates: &Gates, value: bool) -> i32
    ensures literal { result ≡ constant_literal value }
    ensures names { Names (length gates.now.nodes) result }
{
    // Node 1 is there.
    let _count = gates.nodes();
    if value { TRUE } else { FALSE }
}

/// Makes the gates of the assignments in order: each target's literal becomes that of its value.
fn assign_all(gates: &mut Gates, body: &[Assignment], literals: &mut [i32]) -> Result<(), GateFault>
    requires body { All (IsAssignmentOver (length literals.old)) (map assignment_tree body.now) }
    requires literals { All (Names (length gates.old.nodes)) literals.old }
    ensures made { OnOk result
        (body_gates (map assignment_tree body.now) (wires gates.old literals.old)
        ≡ wires gates.new literals.new) }
    ensures same_limit { OnOk result (gates.new.limit ≡ gates.old.limit) }
    ensures limit { result ≡ Err Limit → gates.old.limit
        < gate_count (body_gates (map assignment_tree body.now) (wires gates.old literals.old)).nodes }
    ensures literals { OnOk result (All (Names (length gates.new.nodes)) literals.new) }
    ensures longer { length gates.old.nodes ≤ length gates.new.nodes }
{
    for assignment in body {
        assign(gates, assignment, literals)?;
    }
    Ok(())
}

fn assign(gates: &mut Gates, assignment: &Assignment, literals: &mut [i32]) -> Result<(), GateFault>
    requires over { IsAssignmentOver (length literals.old) (assignment_tree assignment.now) }
    requires literals { All (Names (length gates.old.nodes)) literals.old }
    ensures made { OnOk result
        (assign_gate (wires gates.old literals.old) (assignment_tree assignment.now)
        ≡ wires gates.new literals.new) }
    ensures same_limit { OnOk result (gates.new.limit ≡ gates.old.limit) }
    ensures limit { result ≡ Err Limit → gates.old.limit
        < gate_count (assign_gate (wires gates.old literals.old) (assignment_tree assignment.now)).nodes }
    ensures literals { OnOk result (All (Names (length gates.new.nodes)) literals.new) }
    ensures longer { length gates.old.nodes ≤ length gates.new.nodes }
{
    let literal = literal_of(gates, literals, &assignment.value)?;
    literals[assignment.target as usize] = literal;
    Ok(())
}
