//! Calls: which block one runs, on which instance, and what is handed in and out in the order of the declarations.
//!
//! The arguments of a call are gone along for the variables that they may be for, and for the parameters that they are for; then each
//! parameter that has one finds it by its name.
ghost use Rattle.std.specs.Prelude.{◌≡◌, ◌++◌, ◌∷◌, [], List, slice_get, is_some, IfOk, IfErr, IfSome, OnOk, None, Some, true};
ghost use Rattle.pv_tree.specs.View.{arg_tree, call_tree};
ghost use Rattle.pv_tree.specs.Tree.{BlockTree};
ghost use Rattle.pv_tree.specs.Callees as callees;
ghost use Rattle.pv_tree.specs.Callees.{CallSite};
ghost use Rattle.pv_tree.specs.Scopes as scopes;
ghost use Rattle.pv_tree.specs.Scopes.{value_key};
ghost use Rattle.pv_tree.specs.Parts.{site};
ghost use Rattle.pv_names.specs.Callees.{how_tree};
ghost use Rattle.pv_names.specs.Entries.{block_of};
ghost use Rattle.pv_mean.specs.Calls as calls;
ghost use Rattle.pv_mean.specs.Sources.{Source};
ghost use Rattle.pv_mean.specs.Placed.{call_placed};
ghost use Rattle.pv_run.specs.Code.{AreInward, AreOutward, IsCall};
ghost use Rattle.pv_run.specs.Handing.{Handed, argument_of, handed_in, handed_out};
ghost use Rattle.pv_resolve.specs.Contexts.{IsContext, block_in};
ghost use Rattle.pv_resolve.specs.Rooms.{HasRoom, FitsExpr};
ghost use Rattle.pv_resolve.specs.declared.fault.ResolveFault.TheVariants.{NoMemory};
ghost use Rattle.pv_laws_room.specs.Bodies.{FitsCall};
ghost use Rattle.pv_program.specs.Growth.{Extends};
ghost use Rattle.pv_program.specs.Given.{FindsGiven};
ghost use Rattle.pv_program.specs.Led.{AreLed, HasAllRoom, RunsLed};
ghost use Rattle.pv_program.specs.Handed.{value_params, handed_value, values_handed, AreTaken};

use crate::along::{all_in, all_out};
use crate::argument::argument_for_value;
use crate::block::value_number;
use crate::given::{Given, given_of, number_for};
use crate::grow::{append_inward, append_outward, push_call, see_code};
use crate::handing::add_taker;
use crate::instance::instance_of;
use crate::placed::call_placed;
use pv_names::{Callee, Entry, How, is_by_stl};
use pv_place::Place;
use pv_resolve::{Context, ResolveFault, context_in};
use pv_run::{Called, First, Outward, Program, Slot, Span};
use pv_tree::{Arg, CallTree};
use pv_word::Ty;
use std::alloc::Global;

/// Puts what a call hands in behind that of the program.
fn add_inward(
    alloc: Global,
    context: &Context,
    inner: &Context,
    how: How,
    call: &CallTree,
    given: &Given,
    program: &mut Program,
) -> Result<Span, ResolveFault>
    requires { FindsGiven (how_tree how) (block_in inner.now) (call_tree call.now).args given.now }
    ensures grows { OnOk result (Extends program.old program.new) }
    ensures are { (source : Source) → IsContext context.now source → IsContext inner.now source
        → IfOk result (λ s. AreInward source (block_in context.now) program.new
        (site (how_tree how) (call_tree call.now)) (block_in inner.now) s.first s.end
        (handed_in source (block_in inner.now))) }
    ensures calls { OnOk result (program.new.calls ≡ program.old.calls) }
    ensures room { (source : Source)
        → IsContext context.now source → IsContext inner.now source
        → HasRoom source (block_in context.now) → HasRoom source (block_in inner.now)
        → FitsCall (call_tree call.now) → IfErr result (λ e. e ≡ NoMemory) }
{
    let mut made = Vec::new(alloc);
    all_in(alloc, context, inner, how, call, given, program, &mut made)?;
    let span = append_inward(program, made.as_slice())?;
    Ok(span)
}

/// Whether a variable has the name of a function's value, which this argument is for.
fn names_value(how: How, callee: &Entry, arg: &Arg) -> bool
    requires { calls.is_for (how_tree how) (block_of callee.now) value_key (arg_tree arg.now)
        ≡ true }
    ensures { result ≡ is_some (scopes.first_var (block_of callee.now).vars value_key) }
{
    number_for(callee, arg).is_some()
}

/// The type of a function's value, where a call of STL hands it out to this argument, which is for that name.
fn value_out(how: How, callee: &Entry, arg: &Arg) -> Option<Ty>
    requires stl { callees.is_by_stl (how_tree how) ≡ true }
    requires named { calls.is_for (how_tree how) (block_of callee.now) value_key (arg_tree arg.now)
        ≡ true }
    ensures params { value_params result
        ≡ callees.value_param (how_tree how) (block_of callee.now) }
    ensures is { IfSome result (λ ty. (block_of callee.now).value ≡ Some ty) }
{
    if names_value(how, callee, arg) {
        return None;
    }
    callee.block().interface.value
}

/// Hands the value of a function out to the argument that is for it.
fn hand_value_out(
    alloc: Global,
    context: &Context,
    inner: &Context,
    program: &mut Program,
    made: &mut Vec<Outward>,
    ty: Ty,
    arg: &Arg,
) -> Result<(), ResolveFault>
    ensures grows { OnOk result (Extends program.old program.new) }
    ensures taken { (source : Source) (at : CallSite) (hs : List Handed)
        → IsContext context.now source → IsContext inner.now source
        → (block_in inner.now).value ≡ Some ty
        → argument_of at (block_in inner.now) (handed_value source (block_in inner.now) ty)
        ≡ Some (arg_tree arg.now)
        → AreTaken source (block_in context.now) program.old at (block_in inner.now)
        made.old.items hs
        → OnOk result (AreTaken source (block_in context.now) program.new at (block_in inner.now)
        made.new.items (hs ++ handed_value source (block_in inner.now) ty ∷ [])) }
    ensures calls { OnOk result (program.new.calls ≡ program.old.calls) }
    ensures room { (source : Source)
        → IsContext context.now source → IsContext inner.now source
        → HasRoom source (block_in context.now) → HasRoom source (block_in inner.now)
        → FitsExpr (arg_tree arg.now).value → IfErr result (λ e. e ≡ NoMemory) }
{
    let to = add_taker(alloc, context, program, &arg.value)?;
    let n = value_number(inner)?;
    let from = Slot::Brief(ty, n);
    made.push(Outward { from, to })?;
    Ok(())
}

/// Hands what a function gives out, if a call of STL does.
fn hand_any_value(
    alloc: Global,
    context: &Context,
    inner: &Context,
    how: How,
    call: &CallTree,
    program: &mut Program,
    made: &mut Vec<Outward>,
) -> Result<(), ResolveFault>
    ensures grows { OnOk result (Extends program.old program.new) }
    ensures taken { (source : Source) (hs : List Handed)
        → IsContext context.now source → IsContext inner.now source
        → AreTaken source (block_in context.now) program.old
        (site (how_tree how) (call_tree call.now)) (block_in inner.now) made.old.items hs
        → OnOk result (AreTaken source (block_in context.now) program.new
        (site (how_tree how) (call_tree call.now)) (block_in inner.now) made.new.items
        (hs ++ values_handed source (how_tree how) (block_in inner.now))) }
    ensures calls { OnOk result (program.new.calls ≡ program.old.calls) }
    ensures room { (source : Source)
        → IsContext context.now source → IsContext inner.now source
        → HasRoom source (block_in context.now) → HasRoom source (block_in inner.now)
        → FitsCall (call_tree call.now) → IfErr result (λ e. e ≡ NoMemory) }
{
    if !is_by_stl(how) {
        return Ok(());
    }
    match argument_for_value(how, inner.scope.entry, call) {
        Some(arg) => match value_out(how, inner.scope.entry, arg) {
            Some(ty) => hand_value_out(alloc, context, inner, program, made, ty, arg),
            None => Ok(()),
        },
        None => Ok(()),
    }
}

/// Puts what a call hands out behind that of the program.
fn add_outward(
    alloc: Global,
    context: &Context,
    inner: &Context,
    how: How,
    call: &CallTree,
    given: &Given,
    program: &mut Program,
) -> Result<Span, ResolveFault>
    requires { FindsGiven (how_tree how) (block_in inner.now) (call_tree call.now).args given.now }
    ensures grows { OnOk result (Extends program.old program.new) }
    ensures are { (source : Source) → IsContext context.now source → IsContext inner.now source
        → IfOk result (λ s. AreOutward source (block_in context.now) program.new
        (site (how_tree how) (call_tree call.now)) (block_in inner.now) s.first s.end
        (handed_out source (how_tree how) (block_in inner.now))) }
    ensures calls { OnOk result (program.new.calls ≡ program.old.calls) }
    ensures room { (source : Source)
        → IsContext context.now source → IsContext inner.now source
        → HasRoom source (block_in context.now) → HasRoom source (block_in inner.now)
        → FitsCall (call_tree call.now) → IfErr result (λ e. e ≡ NoMemory) }
{
    let mut made = Vec::new(alloc);
    all_out(alloc, context, inner, how, call, given, program, &mut made)?;
    hand_any_value(alloc, context, inner, how, call, program, &mut made)?;
    let span = append_outward(program, made.as_slice())?;
    Ok(span)
}

/// The number of a block, which is the first of its name, so that the table has it.
fn number_of_block(context: &Context, entry: &Entry) -> usize
    ensures { (source : Source) → IsContext context.now source
        → scopes.first_block source.project.blocks (block_of entry.now).name.key
        ≡ Some (block_of entry.now)
        → slice_get source.project.blocks result ≡ Some (block_of entry.now) }
{
    match context.scope.tables.number_of(&entry.block().name) {
        Some(n) => n,
        None => 0,
    }
}

/// Puts a call that runs a block behind those of the program, and gives its number; this is what its arguments are for.
fn add_named(
    alloc: Global,
    context: &Context,
    inner: &Context,
    how: How,
    call: &CallTree,
    given: &Given,
    program: &mut Program,
) -> Result<usize, ResolveFault>
    requires { FindsGiven (how_tree how) (block_in inner.now) (call_tree call.now).args given.now }
    ensures grows { OnOk result (Extends program.old program.new) }
    ensures means { (source : Source) → IsContext context.now source → IsContext inner.now source
        → callees.callee_of (record { project = source.project; block = block_in context.now })
        (site (how_tree how) (call_tree call.now)) ≡ callees.runs (block_in inner.now)
        → IfOk result (λ c. IsCall source (block_in context.now) program.new c
        (site (how_tree how) (call_tree call.now))) }
    ensures room { (source : Source)
        → IsContext context.now source → IsContext inner.now source
        → HasRoom source (block_in context.now) → HasRoom source (block_in inner.now)
        → FitsCall (call_tree call.now) → IfErr result (λ e. e ≡ NoMemory) }
    ensures led { (source : Source) → IsContext context.now source
        → callees.callee_of (record { project = source.project; block = block_in context.now })
        (site (how_tree how) (call_tree call.now)) ≡ callees.runs (block_in inner.now)
        → RunsLed source (block_in context.now) (site (how_tree how) (call_tree call.now))
        → AreLed source program.old.calls.items
        → OnOk result (AreLed source program.new.calls.items) }
{
    let block = number_of_block(context, inner.scope.entry);
    let first = instance_of(context, call)?;
    let inward = add_inward(alloc, context, inner, how, call, given, program)?;
    let outward = add_outward(alloc, context, inner, how, call, given, program)?;
    let made = push_call(
        program,
        Called {
            block: Some(block),
            first,
            inward,
            outward,
            place: call.place,
        },
    )?;
    see_code(program, block)?;
    Ok(made)
}

/// Puts a call that runs a block behind those of the program, and gives its number.
fn add_running(
    alloc: Global,
    context: &Context,
    inner: &Context,
    how: How,
    call: &CallTree,
    program: &mut Program,
) -> Result<usize, ResolveFault>
    ensures grows { OnOk result (Extends program.old program.new) }
    ensures means { (source : Source) → IsContext context.now source → IsContext inner.now source
        → callees.callee_of (record { project = source.project; block = block_in context.now })
        (site (how_tree how) (call_tree call.now)) ≡ callees.runs (block_in inner.now)
        → IfOk result (λ c. IsCall source (block_in context.now) program.new c
        (site (how_tree how) (call_tree call.now))) }
    ensures room { (source : Source)
        → IsContext context.now source → IsContext inner.now source
        → HasRoom source (block_in context.now) → HasRoom source (block_in inner.now)
        → FitsCall (call_tree call.now) → IfErr result (λ e. e ≡ NoMemory) }
    ensures led { (source : Source) → IsContext context.now source
        → callees.callee_of (record { project = source.project; block = block_in context.now })
        (site (how_tree how) (call_tree call.now)) ≡ callees.runs (block_in inner.now)
        → RunsLed source (block_in context.now) (site (how_tree how) (call_tree call.now))
        → AreLed source program.old.calls.items
        → OnOk result (AreLed source program.new.calls.items) }
{
    let given = given_of(alloc, how, inner.scope.entry, call)?;
    add_named(alloc, context, inner, how, call, &given, program)
}

/// Puts a call that runs no block behind those of the program, and gives its number.
fn add_idle(program: &mut Program, place: Place) -> Result<usize, ResolveFault>
    ensures grows { OnOk result (Extends program.old program.new) }
    ensures means { (source : Source) (block : BlockTree) (at : CallSite)
        → callees.block_of_callee (callees.callee_of
        (record { project = source.project; block = block }) at) ≡ None
        → IfOk result (λ c. IsCall source block program.new c at) }
    ensures memory { IfErr result (λ e. e ≡ NoMemory) }
    ensures led { (source : Source) → AreLed source program.old.calls.items
        → OnOk result (AreLed source program.new.calls.items) }
{
    let nothing = Span { first: 0, end: 0 };
    let made = push_call(
        program,
        Called {
            block: None,
            first: First::At(0),
            inward: nothing,
            outward: nothing,
            place,
        },
    )?;
    Ok(made)
}

/// Puts a call behind those of the program, and gives its number.
pub(crate) fn add_call(
    alloc: Global,
    context: &Context,
    how: How,
    call: &CallTree,
    program: &mut Program,
) -> Result<usize, ResolveFault>
    ensures grows { OnOk result (Extends program.old program.new) }
    ensures means { (source : Source) → IsContext context.now source
        → IfOk result (λ c. IsCall source (block_in context.now) program.new c
        (site (how_tree how) (call_tree call.now))) }
    ensures room { (source : Source) → IsContext context.now source
        → HasAllRoom source (block_in context.now) → FitsCall (call_tree call.now)
        → RunsLed source (block_in context.now) (site (how_tree how) (call_tree call.now))
        → IfErr result (λ e. e ≡ NoMemory) }
    ensures led { (source : Source) → IsContext context.now source
        → RunsLed source (block_in context.now) (site (how_tree how) (call_tree call.now))
        → AreLed source program.old.calls.items
        → OnOk result (AreLed source program.new.calls.items) }
{
    match context.scope.callee_of(how, call) {
        Callee::Runs(entry) => {
            let inner = context_in(*context, entry);
            add_running(alloc, context, &inner, how, call, program)
        }
        Callee::NotDeclared(_) => add_idle(program, call.place),
        Callee::NotCallable(_) => add_idle(program, call.place),
        Callee::Unknown => add_idle(program, call.place),
    }
}

/// Puts a call of STL behind those of the program, and gives its number. What traps in an argument traps at the call.
pub(crate) fn add_placed_call(
    alloc: Global,
    context: &Context,
    how: How,
    call: &CallTree,
    program: &mut Program,
) -> Result<usize, ResolveFault>
    ensures grows { OnOk result (Extends program.old program.new) }
    ensures means { (source : Source) → IsContext context.now source
        → IfOk result (λ c. IsCall source (block_in context.now) program.new c
        (site (how_tree how) (call_placed (call_tree call.now)))) }
    ensures room { (source : Source) → IsContext context.now source
        → HasAllRoom source (block_in context.now) → FitsCall (call_tree call.now)
        → RunsLed source (block_in context.now) (site (how_tree how) (call_tree call.now))
        → IfErr result (λ e. e ≡ NoMemory) }
    ensures led { (source : Source) → IsContext context.now source
        → RunsLed source (block_in context.now) (site (how_tree how) (call_tree call.now))
        → AreLed source program.old.calls.items
        → OnOk result (AreLed source program.new.calls.items) }
{
    let made = call_placed(alloc, call)?;
    add_call(alloc, context, how, &made, program)
}
