//! The sizes of instructions.
ghost use Rattle.std.specs.Prelude.{◌≡◌, map};
ghost use Rattle.pv_tree.specs.View.{instr_tree};
ghost use Rattle.pv_names.specs.InScope.{scope_of};
ghost use Rattle.pv_sizes.specs.Counts.{capped};
ghost use Rattle.pv_sizes.specs.InstructionChecks as checks;
ghost use Rattle.pv_sizes.specs.Sizes as sizes;
ghost use Rattle.pv_sizes.specs.Steps.{joined_edges, size_apart, checks_of_load, checks_behind};

use crate::brief::is_brief;
use crate::calls::call_size;
use crate::checks::target_size;
use crate::count::{one_if, sum};
use pv_names::{Scope, how_of};
use pv_tree::{Instr, Op};

/// The edges of AW and the like, which read ACCU2 unless they have a literal.
fn joined_size(instr: &Instr) -> u64
    ensures { result ≡ joined_edges (instr_tree instr.now).literal }
{
    match instr.literal() {
        None => 3,
        Some(_) => 2,
    }
}

/// How many edges an instruction has besides the checks of its operand: those of what else it reads, of its divisor, and its ways.
fn apart_size(instr: &Instr) -> u64
    ensures { result ≡ size_apart (instr_tree instr.now) }
{
    match instr.op {
        Op::A | Op::An | Op::On | Op::X | Op::Xn => 2,
        Op::O => 2,
        Op::AOpen | Op::AnOpen | Op::OOpen | Op::OnOpen | Op::XOpen | Op::XnOpen => 1,
        Op::Close => 3,
        Op::Assign | Op::S | Op::R | Op::Fp | Op::Fn => 2,
        Op::Not => 2,
        Op::Set | Op::Clr | Op::Save | Op::Nop | Op::Bld => 1,
        Op::L => 1,
        Op::T => 2,
        Op::AddI | Op::SubI | Op::MulI => 3,
        Op::AddD | Op::SubD | Op::MulD => 3,
        Op::DivI | Op::DivD | Op::Mod => 4,
        Op::EqI | Op::NeI | Op::GtI | Op::LtI | Op::GeI | Op::LeI => 3,
        Op::EqD | Op::NeD | Op::GtD | Op::LtD | Op::GeD | Op::LeD => 3,
        Op::Aw | Op::Ow | Op::Xow | Op::Ad | Op::Od | Op::Xod => joined_size(instr),
        Op::Slw | Op::Srw | Op::Sld | Op::Srd | Op::Itd => 2,
        Op::Tak | Op::Push | Op::Pop => 1,
        Op::Ju => 1,
        Op::Jc | Op::Jcb | Op::Jcn | Op::Jnb => 3,
        Op::Jz | Op::Jn | Op::Jp | Op::Jm | Op::Jpz | Op::Jmz => 4,
        Op::Jo | Op::Loop | Op::Bec => 3,
        Op::Be | Op::Beu | Op::Call | Op::Uc => 1,
    }
}

/// How many checks finding the operand makes, if there is one.
fn found_size(scope: &Scope, instr: &Instr) -> u64
    ensures { result ≡ capped (checks.checks_of_found (scope_of scope.now) (instr_tree instr.now)) }
{
    match instr.operand() {
        Some(operand) => target_size(scope, operand),
        None => 0,
    }
}

/// How many checks reading the operand makes, if there is one.
fn value_size(scope: &Scope, instr: &Instr) -> u64
    ensures { result ≡ capped (checks.checks_of_value (scope_of scope.now) (instr_tree instr.now)) }
{
    match instr.operand() {
        Some(operand) => {
            let found = target_size(scope, operand);
            sum(found, one_if(is_brief(scope, operand)))
        }
        None => 0,
    }
}

/// How many checks L makes.
fn load_size(scope: &Scope, instr: &Instr) -> u64
    ensures { result ≡ capped (checks_of_load (scope_of scope.now) (instr_tree instr.now)) }
{
    match instr.literal() {
        None => value_size(scope, instr),
        Some(_) => 0,
    }
}

/// How many checks an instruction makes of its operand.
fn behind_size(scope: &Scope, instr: &Instr) -> u64
    ensures { result ≡ capped (checks_behind (scope_of scope.now) (instr_tree instr.now)) }
{
    match instr.op {
        Op::A | Op::An | Op::On | Op::X | Op::Xn => value_size(scope, instr),
        Op::Fp | Op::Fn => value_size(scope, instr),
        Op::O => value_size(scope, instr),
        Op::L => load_size(scope, instr),
        Op::Assign | Op::S | Op::R | Op::T => found_size(scope, instr),
        Op::AOpen | Op::AnOpen | Op::OOpen | Op::OnOpen | Op::XOpen | Op::XnOpen | Op::Close => 0,
        Op::Not | Op::Set | Op::Clr | Op::Save | Op::Nop | Op::Bld => 0,
        Op::AddI | Op::SubI | Op::MulI | Op::DivI => 0,
        Op::AddD | Op::SubD | Op::MulD | Op::DivD | Op::Mod => 0,
        Op::EqI | Op::NeI | Op::GtI | Op::LtI | Op::GeI | Op::LeI => 0,
        Op::EqD | Op::NeD | Op::GtD | Op::LtD | Op::GeD | Op::LeD => 0,
        Op::Aw | Op::Ow | Op::Xow | Op::Ad | Op::Od | Op::Xod => 0,
        Op::Slw | Op::Srw | Op::Sld | Op::Srd | Op::Itd => 0,
        Op::Tak | Op::Push | Op::Pop => 0,
        Op::Ju | Op::Jc | Op::Jcb | Op::Jcn | Op::Jnb => 0,
        Op::Jz | Op::Jn | Op::Jp | Op::Jm | Op::Jpz | Op::Jmz => 0,
        Op::Jo | Op::Loop | Op::Bec | Op::Be | Op::Beu | Op::Call | Op::Uc => 0,
    }
}

/// The size of an instruction.
fn instr_size(scope: &Scope, instr: &Instr) -> u64
    ensures { result ≡ capped (sizes.size_of_instr (scope_of scope.now) (instr_tree instr.now)) }
{
    match instr.call() {
        Some(call) => call_size(scope, how_of(instr.op), call),
        None => {
            let operand = behind_size(scope, instr);
            sum(apart_size(instr), operand)
        }
    }
}

/// The size of a list of instructions.
pub(crate) fn instrs_size(scope: &Scope, list: &[Instr]) -> u64
    ensures { result ≡ capped (sizes.size_of_instrs (scope_of scope.now) (map instr_tree list.now)) }
{
    if list.is_empty() {
        return 1;
    }
    let mut total = 0;
    for instr in list {
        total = sum(total, instr_size(scope, instr));
    }
    total
}
