//! What a call hands to one parameter or takes from it.
ghost use Rattle.std.specs.Prelude.{◌≡◌, ◌++◌, ◌∷◌, [], List, option_map, IfOk, IfErr, OnOk, None, Some, true, Contains};
ghost use Rattle.pv_types.specs.Tree.{VarTree};
ghost use Rattle.pv_types.specs.View.{var_tree};
ghost use Rattle.pv_tree.specs.View.{call_tree, expr_tree, operand_tree};
ghost use Rattle.pv_tree.specs.Tree.{ArgTree};
ghost use Rattle.pv_tree.specs.Callees.{CallSite};
ghost use Rattle.pv_tree.specs.Parts as parts;
ghost use Rattle.pv_tree.specs.Parts.{site};
ghost use Rattle.pv_names.specs.Callees.{how_tree};
ghost use Rattle.pv_mean.specs.Sources.{Source};
ghost use Rattle.pv_run.specs.Code.{GoesTo};
ghost use Rattle.pv_run.specs.Handing.{Handed, argument_of};
ghost use Rattle.pv_resolve.specs.Contexts.{IsContext, block_in};
ghost use Rattle.pv_resolve.specs.Rooms.{HasRoom, FitsExpr};
ghost use Rattle.pv_resolve.specs.declared.fault.ResolveFault.TheVariants.{NoMemory};
ghost use Rattle.pv_laws_room.specs.Bodies.{FitsCall};
ghost use Rattle.pv_program.specs.Growth.{Extends};
ghost use Rattle.pv_program.specs.Led.{IsVariable};
ghost use Rattle.pv_program.specs.Handed.{goes_in, goes_out, handed_if, FindsArguments, IsSpotOf, AreGiven, AreTaken};

use crate::argument::named_argument;
use crate::slot::slot_of;
use crate::value::{add_target, add_value};
use pv_names::{Firsts, How};
use pv_resolve::{Context, ResolveFault};
use pv_run::{Inward, Outward, Program};
use pv_tree::{CallTree, Expr, Operand};
use pv_types::{Name, Section, Var};
use std::alloc::Global;

/// Whether what is declared in a section is copied in.
fn goes_in(section: Section) -> bool
    ensures { result ≡ goes_in section }
{
    match section {
        Section::Input | Section::InOut => true,
        Section::Output | Section::Static | Section::Temp | Section::Const => false,
    }
}

/// Whether what is declared in a section is copied out.
fn goes_out(section: Section) -> bool
    ensures { result ≡ goes_out section }
{
    match section {
        Section::Output | Section::InOut => true,
        Section::Input | Section::Static | Section::Temp | Section::Const => false,
    }
}

/// The operand that an expression reads.
fn operand_of(e: &Expr) -> Option<&Operand>
    ensures { option_map (λ o. operand_tree o.now) result ≡ parts.operand_of (expr_tree e.now) }
{
    match e {
        Expr::Read(operand) => Some(operand),
        Expr::Lit { .. } => None,
        Expr::Unary { .. } => None,
        Expr::Binary { .. } => None,
        Expr::Std { .. } => None,
        Expr::Paren(..) => None,
    }
}

/// Hands an argument's value to the parameter of this name.
fn give(
    alloc: Global,
    context: &Context,
    inner: &Context,
    program: &mut Program,
    made: &mut Vec<Inward>,
    name: &Name,
    e: &Expr,
) -> Result<(), ResolveFault>
    ensures grows { OnOk result (Extends program.old program.new) }
    ensures given { (source : Source) (at : CallSite) (h : Handed) (hs : List Handed)
        (arg : ArgTree)
        → IsContext context.now source → IsContext inner.now source
        → argument_of at (block_in inner.now) h ≡ Some arg → arg.value ≡ expr_tree e.now
        → IsSpotOf source (block_in inner.now) name.now h
        → AreGiven source (block_in context.now) program.old at (block_in inner.now)
        made.old.items hs
        → OnOk result (AreGiven source (block_in context.now) program.new at (block_in inner.now)
        made.new.items (hs ++ h ∷ [])) }
    ensures calls { OnOk result (program.new.calls ≡ program.old.calls) }
    ensures room { (source : Source)
        → IsContext context.now source → IsContext inner.now source
        → HasRoom source (block_in context.now) → HasRoom source (block_in inner.now)
        → FitsExpr (expr_tree e.now)
        → ((v : VarTree) × IsVariable (block_in inner.now) name.now v)
        → IfErr result (λ e. e ≡ NoMemory) }
{
    let value = add_value(alloc, context, program, e)?;
    let begin = inner.word(name, true)?;
    let to = slot_of(begin)?;
    made.push(Inward { value, to })?;
    Ok(())
}

/// Hands a variable's argument in, if it is a parameter that has one.
pub(crate) fn hand_in(
    alloc: Global,
    context: &Context,
    inner: &Context,
    how: How,
    call: &CallTree,
    named: &Firsts,
    program: &mut Program,
    made: &mut Vec<Inward>,
    var: Var,
) -> Result<(), ResolveFault>
    requires { FindsArguments (how_tree how) (block_in inner.now) (call_tree call.now).args named.now }
    ensures grows { OnOk result (Extends program.old program.new) }
    ensures given { (source : Source) (hs : List Handed)
        → IsContext context.now source → IsContext inner.now source
        → AreGiven source (block_in context.now) program.old
        (site (how_tree how) (call_tree call.now)) (block_in inner.now) made.old.items hs
        → OnOk result (AreGiven source (block_in context.now) program.new
        (site (how_tree how) (call_tree call.now)) (block_in inner.now) made.new.items
        (hs ++ handed_if source (block_in inner.now) goes_in (var_tree var.entry))) }
    ensures calls { OnOk result (program.new.calls ≡ program.old.calls) }
    ensures room { (source : Source)
        → IsContext context.now source → IsContext inner.now source
        → HasRoom source (block_in context.now) → HasRoom source (block_in inner.now)
        → FitsCall (call_tree call.now)
        → Contains (block_in inner.now).vars (var_tree var.entry)
        → IfErr result (λ e. e ≡ NoMemory) }
{
    if !goes_in(var.of.section) {
        return Ok(());
    }
    match named_argument(named, how, inner.scope.entry, var.name, call) {
        Some(arg) => give(alloc, context, inner, program, made, var.name, &arg.value),
        None => Ok(()),
    }
}

/// The target that an argument is, if it is an operand.
pub(crate) fn add_taker(
    alloc: Global,
    context: &Context,
    program: &mut Program,
    e: &Expr,
) -> Result<Option<usize>, ResolveFault>
    ensures grows { OnOk result (Extends program.old program.new) }
    ensures goes { (source : Source) → IsContext context.now source
        → IfOk result (λ to. GoesTo source (block_in context.now) program.new to
        (parts.operand_of (expr_tree e.now))) }
    ensures calls { OnOk result (program.new.calls ≡ program.old.calls) }
    ensures room { (source : Source) → IsContext context.now source
        → HasRoom source (block_in context.now) → FitsExpr (expr_tree e.now)
        → IfErr result (λ e. e ≡ NoMemory) }
{
    match operand_of(e) {
        Some(operand) => {
            let to = add_target(alloc, context, program, operand)?;
            Ok(Some(to))
        }
        None => Ok(None),
    }
}

/// Hands the parameter of this name to its argument.
fn take(
    alloc: Global,
    context: &Context,
    inner: &Context,
    program: &mut Program,
    made: &mut Vec<Outward>,
    name: &Name,
    e: &Expr,
) -> Result<(), ResolveFault>
    ensures grows { OnOk result (Extends program.old program.new) }
    ensures taken { (source : Source) (at : CallSite) (h : Handed) (hs : List Handed)
        (arg : ArgTree)
        → IsContext context.now source → IsContext inner.now source
        → argument_of at (block_in inner.now) h ≡ Some arg → arg.value ≡ expr_tree e.now
        → IsSpotOf source (block_in inner.now) name.now h
        → AreTaken source (block_in context.now) program.old at (block_in inner.now)
        made.old.items hs
        → OnOk result (AreTaken source (block_in context.now) program.new at (block_in inner.now)
        made.new.items (hs ++ h ∷ [])) }
    ensures calls { OnOk result (program.new.calls ≡ program.old.calls) }
    ensures room { (source : Source)
        → IsContext context.now source → IsContext inner.now source
        → HasRoom source (block_in context.now) → HasRoom source (block_in inner.now)
        → FitsExpr (expr_tree e.now)
        → ((v : VarTree) × IsVariable (block_in inner.now) name.now v)
        → IfErr result (λ e. e ≡ NoMemory) }
{
    let to = add_taker(alloc, context, program, e)?;
    let begin = inner.word(name, true)?;
    let from = slot_of(begin)?;
    made.push(Outward { from, to })?;
    Ok(())
}

/// Hands a variable out to its argument, if it is a parameter that has one.
pub(crate) fn hand_out(
    alloc: Global,
    context: &Context,
    inner: &Context,
    how: How,
    call: &CallTree,
    named: &Firsts,
    program: &mut Program,
    made: &mut Vec<Outward>,
    var: Var,
) -> Result<(), ResolveFault>
    requires { FindsArguments (how_tree how) (block_in inner.now) (call_tree call.now).args named.now }
    ensures grows { OnOk result (Extends program.old program.new) }
    ensures taken { (source : Source) (hs : List Handed)
        → IsContext context.now source → IsContext inner.now source
        → AreTaken source (block_in context.now) program.old
        (site (how_tree how) (call_tree call.now)) (block_in inner.now) made.old.items hs
        → OnOk result (AreTaken source (block_in context.now) program.new
        (site (how_tree how) (call_tree call.now)) (block_in inner.now) made.new.items
        (hs ++ handed_if source (block_in inner.now) goes_out (var_tree var.entry))) }
    ensures calls { OnOk result (program.new.calls ≡ program.old.calls) }
    ensures room { (source : Source)
        → IsContext context.now source → IsContext inner.now source
        → HasRoom source (block_in context.now) → HasRoom source (block_in inner.now)
        → FitsCall (call_tree call.now)
        → Contains (block_in inner.now).vars (var_tree var.entry)
        → IfErr result (λ e. e ≡ NoMemory) }
{
    if !goes_out(var.of.section) {
        return Ok(());
    }
    match named_argument(named, how, inner.scope.entry, var.name, call) {
        Some(arg) => take(alloc, context, inner, program, made, var.name, &arg.value),
        None => Ok(()),
    }
}
