//! What instructions do: their actions, with the numbers of their targets and calls in the program.
ghost use Rattle.std.specs.Int.{w64};
ghost use Rattle.std.specs.Prelude.{◌≡◌, ◌<◌, ◌^◌, FitsSigned, ℕ, List, None, Some, IfErr, IfOk, IfSome, IsOk, OnOk, false, is_some, length, option_map, pos, true, unsigned_abs, unwrap_or};
ghost use Rattle.pv_word.specs.Types.{pattern_of};
ghost use Rattle.pv_tree.specs.Literals.{type_alone};
ghost use Rattle.pv_tree.specs.InstructionGroups.{calling, group_of, is_jump, jump, label_of_jump};
ghost use Rattle.pv_tree.specs.Tree.{BlockTree, CallPlain, InstrTree, OperandTree, PlacedName};
ghost use Rattle.pv_tree.specs.View.{instr_tree, operand_tree};
ghost use Rattle.pv_mean.specs.Sources.{Source};
ghost use Rattle.pv_eval.specs.declared.target.Target.{Target};
ghost use Rattle.pv_stl_run.specs.Code.{IsTarget, IsAction, HasType};
ghost use Rattle.pv_resolve.specs.Contexts.{IsContext, block_in};
ghost use Rattle.pv_resolve.specs.Rooms.{FitsOperand, HasRoom};
ghost use Rattle.pv_resolve.specs.declared.fault.ResolveFault.TheVariants.{NoMemory};
ghost use Rattle.pv_laws_room.specs.Bodies.{FitsLiteral};
ghost use Rattle.pv_program.specs.Growth.{Extends};
ghost use Rattle.pv_program.specs.Led.{AreLed, HasAllRoom};
ghost use Rattle.pv_program.specs.Ready.{ChangeSuits, FitsCount, IsReady, Suits, changes_alone, is_moved, stands_alone, works_on};
ghost use Rattle.pv_program.specs.Rows.{ChangesBy, WordJumps, is_end, is_shift};
ghost use Rattle.pv_program.specs.Labels.{FindsLabels};
ghost use Rattle.pv_program.specs.Bodies.{LeadsSo, IsMadeAction};

use crate::call::add_placed_call;
use crate::label::{Labels, goal_of, label_of};
use crate::value::add_target;
use crate::word::{changing, combining, edge, end, joined, shifting, when, written};
use pv_eval::pattern;
use pv_names::{how_of, own_type};
use pv_resolve::{Context, ResolveFault, number_of};
use pv_run::Program;
use pv_stl_run::{Action, Change, When};
use pv_tree::{Instr, Op, Operand};
use pv_types::Literal;
use pv_word::Ty;
use std::alloc::Global;

/// The number that an instruction is given, if it is given one.
fn given(instr: &Instr) -> Result<Option<i64>, ResolveFault>
    ensures value { IfOk result
        (λ v. v ≡ option_map (λ l. l.value) (instr_tree instr.now).literal) }
    ensures fits { FitsLiteral (instr_tree instr.now).literal → IsOk result }
{
    match instr.literal() {
        Some(literal) => {
            let v = number_of(&literal.value)?;
            Ok(Some(v))
        }
        None => Ok(None),
    }
}

/// A number of places, where 32 bits hold it.
fn count_of(value: &i128) -> Result<u32, ResolveFault>
    ensures value { IfOk result (λ n. n ≡ unsigned_abs value.now) }
    ensures fits { unsigned_abs value.now < 2 ^ 32 → IsOk result }
{
    match u32::try_from(value.unsigned_abs()) {
        Ok(n) => Ok(n),
        Err(_) => Err(ResolveFault::TooLarge),
    }
}

/// How many places a shift has.
fn places(instr: &Instr) -> Result<u32, ResolveFault>
    ensures value { IfOk result (λ n. n ≡ unsigned_abs
        (unwrap_or (option_map (λ l. l.value) (instr_tree instr.now).literal) (pos 0))) }
    ensures fits { FitsCount (instr_tree instr.now).literal → IsOk result }
{
    match instr.literal() {
        Some(literal) => count_of(&literal.value),
        None => Ok(0),
    }
}

/// The type that a number has alone.
fn type_alone(literal: &Literal) -> Ty
    ensures { result ≡ type_alone literal.now.ty literal.now.value }
{
    match literal.ty {
        Some(ty) => ty,
        None => {
            if -32768 <= literal.value && literal.value <= 32767 {
                Ty::Int
            } else {
                Ty::Dint
            }
        }
    }
}

/// The bits that L of a literal loads.
fn loaded(literal: &Literal) -> Result<i64, ResolveFault>
    ensures value { IfOk result (λ v. v
        ≡ pos (pattern_of (type_alone literal.now.ty literal.now.value) literal.now.value)) }
    ensures fits { FitsSigned w64 literal.now.value → IsOk result }
{
    let v = number_of(&literal.value)?;
    let bits = pattern(type_alone(literal), v);
    Ok(bits as i64)
}

/// An O alone, and L of a literal.
fn alone(instr: &Instr) -> Result<Option<Change>, ResolveFault>
    ensures by { IfOk result (λ o. IfSome o (λ c. ChangesBy (instr_tree instr.now) c)) }
    ensures suits { IfOk result (λ o. IfSome o (λ c. ChangeSuits c (group_of instr.now.op))) }
    ensures each { IfOk result (λ o. is_some o ≡ stands_alone instr.now.op
        (instr_tree instr.now).operand (instr_tree instr.now).literal) }
    ensures fits { FitsLiteral (instr_tree instr.now).literal → IsOk result }
{
    match instr.op {
        Op::O => match instr.operand() {
            None => Ok(Some(Change::KeepOr)),
            Some(_) => Ok(None),
        },
        Op::L => match instr.literal() {
            Some(literal) => {
                let v = loaded(literal)?;
                Ok(Some(Change::Load(v)))
            }
            None => Ok(None),
        },
        _ => Ok(None),
    }
}

/// What changes the registers alone.
fn change_of(instr: &Instr) -> Result<Option<Change>, ResolveFault>
    ensures by { IfOk result (λ o. IfSome o (λ c. ChangesBy (instr_tree instr.now) c)) }
    ensures suits { IfOk result (λ o. IfSome o (λ c. ChangeSuits c (group_of instr.now.op))) }
    ensures each { IfOk result (λ o. is_some o ≡ changes_alone (instr_tree instr.now)) }
    ensures fits { FitsLiteral (instr_tree instr.now).literal
        → (is_shift (group_of instr.now.op) ≡ true → FitsCount (instr_tree instr.now).literal)
        → IsOk result }
{
    if let Some(change) = changing(instr.op) {
        return Ok(Some(change));
    }
    if let Some((how, part)) = combining(instr.op) {
        let literal = given(instr)?;
        return Ok(Some(Change::Combine(how, part, literal)));
    }
    if let Some((way, part)) = shifting(instr.op) {
        let n = places(instr)?;
        return Ok(Some(Change::Shift(way, part, n)));
    }
    alone(instr)
}

/// The type of an operand.
fn operand_type(alloc: Global, context: &Context, operand: &Operand) -> Result<Ty, ResolveFault>
    ensures memory { IfErr result (λ e. e ≡ NoMemory) }
    ensures has { (source : Source) (i : InstrTree) → IsContext context.now source
        → i.operand ≡ Some (operand_tree operand.now)
        → IfOk result (λ ty. HasType source (block_in context.now) i ty) }
{
    let sort = context.scope.sort_of_operand(alloc, operand)?;
    Ok(own_type(sort).unwrap_or(Ty::Dint))
}

/// L or T of an operand, whose target has this number.
fn moved(
    alloc: Global,
    context: &Context,
    instr: &Instr,
    operand: &Operand,
    n: usize,
) -> Result<Action, ResolveFault>
    ensures is { (source : Source) (targets : List Target) (room : ℕ) → IsContext context.now source
        → (instr_tree instr.now).operand ≡ Some (operand_tree operand.now)
        → IsTarget source (block_in context.now) targets room n (operand_tree operand.now)
        → IfOk result
        (λ d. IsAction source (block_in context.now) targets room d (instr_tree instr.now)) }
    ensures leads { (all : List InstrTree) (k : ℕ) (i : InstrTree)
        → IfOk result (λ d. LeadsSo all k i d) }
    ensures suits { IfOk result (λ d. Suits d (group_of instr.now.op)) }
    ensures room { is_moved instr.now.op (instr_tree instr.now).literal ≡ true
        → IfErr result (λ e. e ≡ NoMemory) }
{
    let ty = operand_type(alloc, context, operand)?;
    match instr.op {
        Op::L => match instr.literal() {
            None => Ok(Action::Load(ty, n)),
            Some(_) => Err(ResolveFault::TooLarge),
        },
        Op::T => Ok(Action::Transfer(ty, n)),
        _ => Err(ResolveFault::TooLarge),
    }
}

/// What an instruction does with its operand.
fn on_operand(
    alloc: Global,
    context: &Context,
    program: &mut Program,
    instr: &Instr,
    operand: &Operand,
) -> Result<Action, ResolveFault>
    ensures grows { OnOk result (Extends program.old program.new) }
    ensures is { (source : Source) → IsContext context.now source
        → (instr_tree instr.now).operand ≡ Some (operand_tree operand.now)
        → IfOk result (λ d. IsAction source (block_in context.now) program.new.targets.items
        program.new.scratch d (instr_tree instr.now)) }
    ensures leads { (all : List InstrTree) (k : ℕ) (i : InstrTree)
        → IfOk result (λ d. LeadsSo all k i d) }
    ensures suits { IfOk result (λ d. Suits d (group_of instr.now.op)) }
    ensures calls { OnOk result (program.new.calls ≡ program.old.calls) }
    ensures room { (source : Source) → IsContext context.now source
        → HasRoom source (block_in context.now) → FitsOperand (operand_tree operand.now)
        → works_on (instr_tree instr.now) ≡ true → IfErr result (λ e. e ≡ NoMemory) }
{
    let n = add_target(alloc, context, program, operand)?;
    if let Some(junction) = joined(instr.op) {
        return Ok(Action::Join(junction, n));
    }
    if let Some(what) = written(instr.op) {
        return Ok(Action::Write(what, n));
    }
    if let Some(rising) = edge(instr.op) {
        return Ok(Action::Edge(rising, n));
    }
    let action = moved(alloc, context, instr, operand, n)?;
    Ok(action)
}

/// What an instruction does with its operand, which it has to have.
fn with_operand(
    alloc: Global,
    context: &Context,
    program: &mut Program,
    instr: &Instr,
) -> Result<Action, ResolveFault>
    ensures grows { OnOk result (Extends program.old program.new) }
    ensures is { (source : Source) → IsContext context.now source
        → IfOk result (λ d. IsAction source (block_in context.now) program.new.targets.items
        program.new.scratch d (instr_tree instr.now)) }
    ensures leads { (all : List InstrTree) (k : ℕ) (i : InstrTree)
        → IfOk result (λ d. LeadsSo all k i d) }
    ensures suits { IfOk result (λ d. Suits d (group_of instr.now.op)) }
    ensures calls { OnOk result (program.new.calls ≡ program.old.calls) }
    ensures room { (source : Source) (o : OperandTree) → IsContext context.now source
        → HasRoom source (block_in context.now)
        → (instr_tree instr.now).operand ≡ Some o → FitsOperand o
        → works_on (instr_tree instr.now) ≡ true → IfErr result (λ e. e ≡ NoMemory) }
{
    match instr.operand() {
        Some(operand) => {
            let action = on_operand(alloc, context, program, instr, operand)?;
            Ok(action)
        }
        None => Err(ResolveFault::TooLarge),
    }
}

/// What an instruction does that neither jumps nor ends the block nor calls.
fn other_action(
    alloc: Global,
    context: &Context,
    program: &mut Program,
    instr: &Instr,
) -> Result<Action, ResolveFault>
    ensures grows { OnOk result (Extends program.old program.new) }
    ensures is { (source : Source) → IsContext context.now source
        → IfOk result (λ d. IsAction source (block_in context.now) program.new.targets.items
        program.new.scratch d (instr_tree instr.now)) }
    ensures leads { (all : List InstrTree) (k : ℕ) (i : InstrTree)
        → IfOk result (λ d. LeadsSo all k i d) }
    ensures suits { IfOk result (λ d. Suits d (group_of instr.now.op)) }
    ensures calls { OnOk result (program.new.calls ≡ program.old.calls) }
    ensures room { (source : Source) → IsContext context.now source
        → HasRoom source (block_in context.now)
        → IsReady source (block_in context.now) (instr_tree instr.now)
        → (instr_tree instr.now).call ≡ None → is_jump (group_of instr.now.op) ≡ false
        → is_end (group_of instr.now.op) ≡ false → IfErr result (λ e. e ≡ NoMemory) }
{
    let made = change_of(instr)?;
    match made {
        Some(change) => Ok(Action::Change(change)),
        None => {
            let action = with_operand(alloc, context, program, instr)?;
            Ok(action)
        }
    }
}

/// A jump to the label that it names.
fn jump(labels: &Labels, k: usize, instr: &Instr, test: When) -> Result<Action, ResolveFault>
    ensures is { (source : Source) (block : BlockTree) (targets : List Target) (room : ℕ)
        → WordJumps instr.now.op test
        → IfOk result (λ d. IsAction source block targets room d (instr_tree instr.now)) }
    ensures leads { (all : List InstrTree) → FindsLabels labels.now.at all → length all < 2 ^ 64
        → IfOk result (λ d. LeadsSo all k (instr_tree instr.now) d) }
    ensures suits { group_of instr.now.op ≡ jump → IfOk result (λ d. Suits d (group_of instr.now.op)) }
    ensures room { (l : PlacedName) × (label_of_jump (instr_tree instr.now) ≡ Some l)
        → IfErr result (λ e. e ≡ NoMemory) }
{
    match label_of(instr) {
        Some(label) => {
            let goal = goal_of(labels, k, label.name);
            Ok(Action::Jump(test, goal))
        }
        None => Err(ResolveFault::TooLarge),
    }
}

/// What an instruction does that isn't a call.
fn action_alone(
    alloc: Global,
    context: &Context,
    program: &mut Program,
    labels: &Labels,
    k: usize,
    instr: &Instr,
) -> Result<Action, ResolveFault>
    ensures grows { OnOk result (Extends program.old program.new) }
    ensures is { (source : Source) → IsContext context.now source
        → IfOk result (λ d. IsAction source (block_in context.now) program.new.targets.items
        program.new.scratch d (instr_tree instr.now)) }
    ensures leads { (all : List InstrTree) → FindsLabels labels.now.at all → length all < 2 ^ 64
        → IfOk result (λ d. LeadsSo all k (instr_tree instr.now) d) }
    ensures suits { IfOk result (λ d. Suits d (group_of instr.now.op)) }
    ensures calls { OnOk result (program.new.calls ≡ program.old.calls) }
    ensures room { (source : Source) → IsContext context.now source
        → HasRoom source (block_in context.now)
        → IsReady source (block_in context.now) (instr_tree instr.now)
        → (instr_tree instr.now).call ≡ None → IfErr result (λ e. e ≡ NoMemory) }
{
    if let Some(test) = when(instr.op) {
        let jumping = jump(labels, k, instr, test)?;
        return Ok(jumping);
    }
    if let Some(ending) = end(instr.op) {
        return Ok(ending);
    }
    let action = other_action(alloc, context, program, instr)?;
    Ok(action)
}

/// What an instruction does at a position.
pub(crate) fn action_of(
    alloc: Global,
    context: &Context,
    program: &mut Program,
    labels: &Labels,
    k: usize,
    instr: &Instr,
) -> Result<Action, ResolveFault>
    ensures grows { OnOk result (Extends program.old program.new) }
    ensures made { (source : Source) (all : List InstrTree) → IsContext context.now source
        → FindsLabels labels.now.at all → length all < 2 ^ 64
        → IfOk result (λ d. IsMadeAction source (block_in context.now) program.new all k
        (instr_tree instr.now) d) }
    ensures suits { ((call : CallPlain) → (instr_tree instr.now).call ≡ Some call
        → group_of instr.now.op ≡ calling) → IfOk result (λ d. Suits d (group_of instr.now.op)) }
    ensures room { (source : Source) → IsContext context.now source
        → HasAllRoom source (block_in context.now)
        → IsReady source (block_in context.now) (instr_tree instr.now)
        → IfErr result (λ e. e ≡ NoMemory) }
    ensures led { (source : Source) → IsContext context.now source
        → IsReady source (block_in context.now) (instr_tree instr.now)
        → AreLed source program.old.calls.items
        → OnOk result (AreLed source program.new.calls.items) }
{
    match instr.call() {
        Some(call) => {
            let made = add_placed_call(alloc, context, how_of(instr.op), call, program)?;
            Ok(Action::Call(made))
        }
        None => {
            let action = action_alone(alloc, context, program, labels, k, instr)?;
            Ok(action)
        }
    }
}
