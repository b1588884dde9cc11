//! Scans of a program over a frame of its bits.
ghost use Rattle.std.specs.Prelude.{◌≡◌, All, length, map, slice_index_or, false};
ghost use Rattle.pv_bool.specs.Roles.{is_kept};
ghost use Rattle.pv_bool.specs.Tree.{term_tree, assignment_tree, IsTermOver, IsAssignmentOver};
ghost use Rattle.pv_bool.specs.Programs.{program_tree};
ghost use Rattle.pv_bool.specs.Scans.{value_in, run_body, state_of, next_state, keeps};
ghost use Rattle.pv_bool.specs.Machine.{bits_of, numbers_of, machine_of};
ghost use Rattle.pv_valid.specs.Shown.{IsStretch};
ghost use Rattle.pv_bool_judged.specs.Placing.{takes, placed, IsFitting, begun_bits};

use pv_bool::{Assignment, Bit, BitRole, Program, Term};
use pv_claims::{CellValues, Ending};
use pv_stretch::{Stretch, StretchEnd, StretchStart};

/// The value of a term in a frame.
fn term_value(frame: &[bool], term: &Term) -> bool
    requires { IsTermOver (length frame.now) (term_tree term.now) }
    ensures { result ≡ value_in frame.now (term_tree term.now) }
{
    match term {
        Term::Constant(value) => *value,
        Term::Load(bit) => frame[*bit as usize],
        Term::Not(inner) => !term_value(frame, inner),
        Term::And(left, right) => term_value(frame, left) && term_value(frame, right),
        Term::Or(left, right) => term_value(frame, left) || term_value(frame, right),
    }
}

/// The assignments in order.
fn assign_all(frame: &mut [bool], body: &[Assignment])
    requires { All (IsAssignmentOver (length frame.old)) (map assignment_tree body.now) }
    ensures end { frame.new ≡ run_body (map assignment_tree body.now) frame.old }
    ensures long { length frame.new ≡ length frame.old }
{
    for assignment in body {
        let value = term_value(frame, &assignment.value);
        frame[assignment.target as usize] = value;
    }
}

/// Whether a bit of this role takes one of the values: of those of a state, or of an input.
fn takes(kept: bool, role: BitRole) -> bool
    ensures { result ≡ takes kept role }
{
    if kept {
        role.is_kept()
    } else {
        role.is_input()
    }
}

/// The bit of this number, from 0; false where there is no such one.
fn bit_at(values: &[i128], n: usize) -> bool
    ensures { result ≡ slice_index_or (bits_of values.now) n false }
{
    if n < values.len() {
        values[n] == 1
    } else {
        false
    }
}

/// Puts the values of a state, or of an input, into their bits of the frame.
fn put(bits: &[Bit], kept: bool, values: &[i128], frame: &mut [bool])
    requires { length frame.old ≡ length bits.now }
    ensures placed { frame.new ≡ placed kept bits.now (bits_of values.now) frame.old }
    ensures long { length frame.new ≡ length frame.old }
{
    let mut next = 0;
    for n in 0..bits.len() {
        if takes(kept, bits[n].role) {
            frame[n] = bit_at(values, next);
            next += 1;
        }
    }
}

/// Puts the values before the first scan into the frame.
fn put_starts(bits: &[Bit], frame: &mut [bool])
    requires { length frame.old ≡ length bits.now }
    ensures { frame.new ≡ map (λ b. b.start) bits.now }
{
    for n in 0..bits.len() {
        frame[n] = bits[n].start;
    }
}

/// Puts the values of the kept bits with which a stretch begins into the frame.
fn begin(bits: &[Bit], start: StretchStart<'_>, frame: &mut [bool])
    requires { length frame.old ≡ length bits.now }
    ensures state { IsFitting bits.now start.entry → state_of bits.now frame.new ≡ begun_bits bits.now start.entry }
    ensures long { length frame.new ≡ length frame.old }
{
    match start {
        StretchStart::Params(_) => put_starts(bits, frame),
        StretchStart::Image(image, _) => put(bits, true, image, frame),
    }
}

/// One scan by an input: whether the requirement holds at its end.
fn scan(program: &Program, input: &[i128], frame: &mut [bool]) -> bool
    requires { length frame.old ≡ length program.now.bits.items }
    ensures holds { result ≡ keeps (program_tree program.now) (state_of program.now.bits.items frame.old) (bits_of input.now) }
    ensures state { state_of program.now.bits.items frame.new
        ≡ next_state (program_tree program.now) (state_of program.now.bits.items frame.old) (bits_of input.now) }
    ensures long { length frame.new ≡ length frame.old }
{
    put(&program.bits, false, input, frame);
    assign_all(frame, &program.body);
    term_value(frame, &program.holds)
}

/// Scans from the state in the frame.
fn go_on(program: &Program, inputs: &[CellValues], frame: &mut [bool]) -> Stretch
    requires { length frame.old ≡ length program.now.bits.items }
    ensures stretch { IsStretch (machine_of (program_tree program.now)) (numbers_of (state_of program.now.bits.items frame.old))
        inputs.now result.good result.ending }
    ensures long { length frame.new ≡ length frame.old }
{
    for (n, input) in inputs.iter().enumerate() {
        if !scan(program, input.as_slice(), frame) {
            return Stretch {
                good: n as u64,
                ending: Some(StretchEnd::Fails(Ending::Pattern)),
            };
        }
    }
    Stretch {
        good: inputs.len() as u64,
        ending: None,
    }
}

/// Scans from where they begin.
pub(crate) fn run_scans(
    program: &Program,
    start: StretchStart<'_>,
    inputs: &[CellValues],
    frame: &mut [bool],
) -> Stretch
    requires { length frame.old ≡ length program.now.bits.items }
    ensures stretch { IsFitting program.now.bits.items start.entry
        → IsStretch (machine_of (program_tree program.now)) (numbers_of (begun_bits program.now.bits.items start.entry))
        inputs.now result.good result.ending }
    ensures long { length frame.new ≡ length frame.old }
{
    begin(&program.bits, start, frame);
    go_on(program, inputs, frame)
}
