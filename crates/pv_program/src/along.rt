//! What a call hands in and out, variable by variable of the called block.
//!
//! Where each variable has its own name, only those are gone along that the arguments may be for: the others have none.
ghost use Rattle.std.specs.Prelude.{◌≡◌, ◌∷◌, [], ℕ, List, take, IfOk, IfErr, OnOk};
ghost use Rattle.std.specs.List.Sorted.{IsNonDecreasing};
ghost use Rattle.pv_tree.specs.View.{call_tree};
ghost use Rattle.pv_tree.specs.Parts.{site};
ghost use Rattle.pv_names.specs.Callees.{how_tree};
ghost use Rattle.pv_mean.specs.Sources.{Source};
ghost use Rattle.pv_resolve.specs.Contexts.{IsContext, block_in};
ghost use Rattle.pv_resolve.specs.Rooms.{HasRoom};
ghost use Rattle.pv_resolve.specs.declared.fault.ResolveFault.TheVariants.{NoMemory};
ghost use Rattle.pv_laws_room.specs.Bodies.{FitsCall};
ghost use Rattle.pv_program.specs.Growth.{Extends};
ghost use Rattle.pv_program.specs.Handed.{goes_in, goes_out, handed_of, FindsArguments, AreGiven, AreTaken};
ghost use Rattle.pv_program.specs.Sought.{HaveAll, AreSought};
ghost use Rattle.pv_program.specs.Given.{FindsGiven};

use crate::given::Given;
use crate::handing::{hand_in, hand_out};
use pv_names::{Firsts, How};
use pv_resolve::{Context, ResolveFault};
use pv_run::{Inward, Outward, Program};
use pv_tree::CallTree;
use std::alloc::Global;

/// Hands in the variable of this number, unless it comes before the next one; gives the number of the next one.
fn next_in(
    alloc: Global,
    context: &Context,
    inner: &Context,
    how: How,
    call: &CallTree,
    named: &Firsts,
    program: &mut Program,
    made: &mut Vec<Inward>,
    next: usize,
    number: usize,
) -> Result<usize, ResolveFault>
    requires { FindsArguments (how_tree how) (block_in inner.now) (call_tree call.now).args named.now }
    ensures grows { OnOk result (Extends program.old program.new) }
    ensures given { (source : Source) (numbers : List ℕ)
        → IsContext context.now source → IsContext inner.now source
        → HaveAll (how_tree how) (block_in inner.now) (call_tree call.now).args next
        (number ∷ numbers) → IsNonDecreasing (number ∷ numbers)
        → AreGiven source (block_in context.now) program.old
        (site (how_tree how) (call_tree call.now)) (block_in inner.now) made.old.items
        (handed_of source (block_in inner.now) goes_in (take next (block_in inner.now).vars))
        → IfOk result (λ n. AreGiven source (block_in context.now) program.new
        (site (how_tree how) (call_tree call.now)) (block_in inner.now) made.new.items
        (handed_of source (block_in inner.now) goes_in (take n (block_in inner.now).vars))) }
    ensures left { (numbers : List ℕ)
        → HaveAll (how_tree how) (block_in inner.now) (call_tree call.now).args next
        (number ∷ numbers)
        → IfOk result (λ n. HaveAll (how_tree how) (block_in inner.now) (call_tree call.now).args n
        numbers) }
    ensures calls { OnOk result (program.new.calls ≡ program.old.calls) }
    ensures room { (source : Source)
        → IsContext context.now source → IsContext inner.now source
        → HasRoom source (block_in context.now) → HasRoom source (block_in inner.now)
        → FitsCall (call_tree call.now) → IfErr result (λ e. e ≡ NoMemory) }
{
    let vars = inner.scope.entry.vars();
    if number < next {
        return Ok(next);
    }
    if number >= vars.len() {
        return Ok(next);
    }
    hand_in(
        alloc,
        context,
        inner,
        how,
        call,
        named,
        program,
        made,
        vars[number],
    )?;
    Ok(number + 1)
}

/// Hands in the variables of these numbers.
fn sought_in(
    alloc: Global,
    context: &Context,
    inner: &Context,
    how: How,
    call: &CallTree,
    named: &Firsts,
    numbers: &[usize],
    program: &mut Program,
    made: &mut Vec<Inward>,
) -> Result<(), ResolveFault>
    requires named { FindsArguments (how_tree how) (block_in inner.now) (call_tree call.now).args named.now }
    requires sought { AreSought (how_tree how) (block_in inner.now) (call_tree call.now).args numbers.now }
    ensures grows { OnOk result (Extends program.old program.new) }
    ensures given { (source : Source)
        → IsContext context.now source → IsContext inner.now source → made.old.items ≡ []
        → OnOk result (AreGiven source (block_in context.now) program.new
        (site (how_tree how) (call_tree call.now)) (block_in inner.now) made.new.items
        (handed_of source (block_in inner.now) goes_in (block_in inner.now).vars)) }
    ensures calls { OnOk result (program.new.calls ≡ program.old.calls) }
    ensures room { (source : Source)
        → IsContext context.now source → IsContext inner.now source
        → HasRoom source (block_in context.now) → HasRoom source (block_in inner.now)
        → FitsCall (call_tree call.now) → IfErr result (λ e. e ≡ NoMemory) }
{
    let mut next = 0;
    for number in numbers {
        next = next_in(
            alloc, context, inner, how, call, named, program, made, next, *number,
        )?;
    }
    Ok(())
}

/// Hands in each variable, where two may have one name.
fn each_in(
    alloc: Global,
    context: &Context,
    inner: &Context,
    how: How,
    call: &CallTree,
    named: &Firsts,
    program: &mut Program,
    made: &mut Vec<Inward>,
) -> Result<(), ResolveFault>
    requires { FindsArguments (how_tree how) (block_in inner.now) (call_tree call.now).args named.now }
    ensures grows { OnOk result (Extends program.old program.new) }
    ensures given { (source : Source)
        → IsContext context.now source → IsContext inner.now source → made.old.items ≡ []
        → OnOk result (AreGiven source (block_in context.now) program.new
        (site (how_tree how) (call_tree call.now)) (block_in inner.now) made.new.items
        (handed_of source (block_in inner.now) goes_in (block_in inner.now).vars)) }
    ensures calls { OnOk result (program.new.calls ≡ program.old.calls) }
    ensures room { (source : Source)
        → IsContext context.now source → IsContext inner.now source
        → HasRoom source (block_in context.now) → HasRoom source (block_in inner.now)
        → FitsCall (call_tree call.now) → IfErr result (λ e. e ≡ NoMemory) }
{
    let vars = inner.scope.entry.vars();
    for var in vars {
        hand_in(alloc, context, inner, how, call, named, program, made, *var)?;
    }
    Ok(())
}

/// Hands in the variables that have an argument.
pub(crate) fn all_in(
    alloc: Global,
    context: &Context,
    inner: &Context,
    how: How,
    call: &CallTree,
    given: &Given,
    program: &mut Program,
    made: &mut Vec<Inward>,
) -> Result<(), ResolveFault>
    requires { FindsGiven (how_tree how) (block_in inner.now) (call_tree call.now).args given.now }
    ensures grows { OnOk result (Extends program.old program.new) }
    ensures given { (source : Source)
        → IsContext context.now source → IsContext inner.now source → made.old.items ≡ []
        → OnOk result (AreGiven source (block_in context.now) program.new
        (site (how_tree how) (call_tree call.now)) (block_in inner.now) made.new.items
        (handed_of source (block_in inner.now) goes_in (block_in inner.now).vars)) }
    ensures calls { OnOk result (program.new.calls ≡ program.old.calls) }
    ensures room { (source : Source)
        → IsContext context.now source → IsContext inner.now source
        → HasRoom source (block_in context.now) → HasRoom source (block_in inner.now)
        → FitsCall (call_tree call.now) → IfErr result (λ e. e ≡ NoMemory) }
{
    let named = &given.named;
    match &given.sought {
        Some(numbers) => sought_in(
            alloc, context, inner, how, call, named, numbers, program, made,
        ),
        None => each_in(alloc, context, inner, how, call, named, program, made),
    }
}

/// Hands out the variable of this number, unless it comes before the next one; gives the number of the next one.
fn next_out(
    alloc: Global,
    context: &Context,
    inner: &Context,
    how: How,
    call: &CallTree,
    named: &Firsts,
    program: &mut Program,
    made: &mut Vec<Outward>,
    next: usize,
    number: usize,
) -> Result<usize, ResolveFault>
    requires { FindsArguments (how_tree how) (block_in inner.now) (call_tree call.now).args named.now }
    ensures grows { OnOk result (Extends program.old program.new) }
    ensures taken { (source : Source) (numbers : List ℕ)
        → IsContext context.now source → IsContext inner.now source
        → HaveAll (how_tree how) (block_in inner.now) (call_tree call.now).args next
        (number ∷ numbers) → IsNonDecreasing (number ∷ numbers)
        → AreTaken source (block_in context.now) program.old
        (site (how_tree how) (call_tree call.now)) (block_in inner.now) made.old.items
        (handed_of source (block_in inner.now) goes_out (take next (block_in inner.now).vars))
        → IfOk result (λ n. AreTaken source (block_in context.now) program.new
        (site (how_tree how) (call_tree call.now)) (block_in inner.now) made.new.items
        (handed_of source (block_in inner.now) goes_out (take n (block_in inner.now).vars))) }
    ensures left { (numbers : List ℕ)
        → HaveAll (how_tree how) (block_in inner.now) (call_tree call.now).args next
        (number ∷ numbers)
        → IfOk result (λ n. HaveAll (how_tree how) (block_in inner.now) (call_tree call.now).args n
        numbers) }
    ensures calls { OnOk result (program.new.calls ≡ program.old.calls) }
    ensures room { (source : Source)
        → IsContext context.now source → IsContext inner.now source
        → HasRoom source (block_in context.now) → HasRoom source (block_in inner.now)
        → FitsCall (call_tree call.now) → IfErr result (λ e. e ≡ NoMemory) }
{
    let vars = inner.scope.entry.vars();
    if number < next {
        return Ok(next);
    }
    if number >= vars.len() {
        return Ok(next);
    }
    hand_out(
        alloc,
        context,
        inner,
        how,
        call,
        named,
        program,
        made,
        vars[number],
    )?;
    Ok(number + 1)
}

/// Hands out the variables of these numbers.
fn sought_out(
    alloc: Global,
    context: &Context,
    inner: &Context,
    how: How,
    call: &CallTree,
    named: &Firsts,
    numbers: &[usize],
    program: &mut Program,
    made: &mut Vec<Outward>,
) -> Result<(), ResolveFault>
    requires named { FindsArguments (how_tree how) (block_in inner.now) (call_tree call.now).args named.now }
    requires sought { AreSought (how_tree how) (block_in inner.now) (call_tree call.now).args numbers.now }
    ensures grows { OnOk result (Extends program.old program.new) }
    ensures taken { (source : Source)
        → IsContext context.now source → IsContext inner.now source → made.old.items ≡ []
        → OnOk result (AreTaken source (block_in context.now) program.new
        (site (how_tree how) (call_tree call.now)) (block_in inner.now) made.new.items
        (handed_of source (block_in inner.now) goes_out (block_in inner.now).vars)) }
    ensures calls { OnOk result (program.new.calls ≡ program.old.calls) }
    ensures room { (source : Source)
        → IsContext context.now source → IsContext inner.now source
        → HasRoom source (block_in context.now) → HasRoom source (block_in inner.now)
        → FitsCall (call_tree call.now) → IfErr result (λ e. e ≡ NoMemory) }
{
    let mut next = 0;
    for number in numbers {
        next = next_out(
            alloc, context, inner, how, call, named, program, made, next, *number,
        )?;
    }
    Ok(())
}

/// Hands out each variable, where two may have one name.
fn each_out(
    alloc: Global,
    context: &Context,
    inner: &Context,
    how: How,
    call: &CallTree,
    named: &Firsts,
    program: &mut Program,
    made: &mut Vec<Outward>,
) -> Result<(), ResolveFault>
    requires { FindsArguments (how_tree how) (block_in inner.now) (call_tree call.now).args named.now }
    ensures grows { OnOk result (Extends program.old program.new) }
    ensures taken { (source : Source)
        → IsContext context.now source → IsContext inner.now source → made.old.items ≡ []
        → OnOk result (AreTaken source (block_in context.now) program.new
        (site (how_tree how) (call_tree call.now)) (block_in inner.now) made.new.items
        (handed_of source (block_in inner.now) goes_out (block_in inner.now).vars)) }
    ensures calls { OnOk result (program.new.calls ≡ program.old.calls) }
    ensures room { (source : Source)
        → IsContext context.now source → IsContext inner.now source
        → HasRoom source (block_in context.now) → HasRoom source (block_in inner.now)
        → FitsCall (call_tree call.now) → IfErr result (λ e. e ≡ NoMemory) }
{
    let vars = inner.scope.entry.vars();
    for var in vars {
        hand_out(alloc, context, inner, how, call, named, program, made, *var)?;
    }
    Ok(())
}

/// Hands out the variables that have an argument.
pub(crate) fn all_out(
    alloc: Global,
    context: &Context,
    inner: &Context,
    how: How,
    call: &CallTree,
    given: &Given,
    program: &mut Program,
    made: &mut Vec<Outward>,
) -> Result<(), ResolveFault>
    requires { FindsGiven (how_tree how) (block_in inner.now) (call_tree call.now).args given.now }
    ensures grows { OnOk result (Extends program.old program.new) }
    ensures taken { (source : Source)
        → IsContext context.now source → IsContext inner.now source → made.old.items ≡ []
        → OnOk result (AreTaken source (block_in context.now) program.new
        (site (how_tree how) (call_tree call.now)) (block_in inner.now) made.new.items
        (handed_of source (block_in inner.now) goes_out (block_in inner.now).vars)) }
    ensures calls { OnOk result (program.new.calls ≡ program.old.calls) }
    ensures room { (source : Source)
        → IsContext context.now source → IsContext inner.now source
        → HasRoom source (block_in context.now) → HasRoom source (block_in inner.now)
        → FitsCall (call_tree call.now) → IfErr result (λ e. e ≡ NoMemory) }
{
    let named = &given.named;
    match &given.sought {
        Some(numbers) => sought_out(
            alloc, context, inner, how, call, named, numbers, program, made,
        ),
        None => each_out(alloc, context, inner, how, call, named, program, made),
    }
}
