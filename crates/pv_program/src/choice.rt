//! The values of a CASE's branches.
ghost use Rattle.std.specs.Prelude.{◌≡◌, ℕ, IsOk, IfOk, IfErr, OnOk};
ghost use Rattle.pv_mean.specs.Sources.{Source};
ghost use Rattle.pv_mean.specs.Statements.{choice_value};
ghost use Rattle.pv_eval.specs.Means.{activation};
ghost use Rattle.pv_run.specs.Code.{IsChoiceTo, AreChoices};
ghost use Rattle.pv_resolve.specs.Contexts.{block_in};
ghost use Rattle.pv_resolve.specs.Rooms.{HasRoom};
ghost use Rattle.pv_resolve.specs.declared.fault.ResolveFault.TheVariants.{NoMemory};
ghost use Rattle.pv_laws_room.specs.Bodies.{FitsChoice, FitsUpper, FitsChoices};
ghost use Rattle.pv_program.specs.Growth.{Extends};

use crate::grow::append_choices;
use pv_resolve::{Context, ResolveFault, number_of, start_of};
use pv_run::{Choice, Program, Span};
use pv_tree::{Choice as ChoiceTree, ChoiceRange};
use std::alloc::Global;

/// The value of a choice that is one.
fn choice_value(context: &Context, choice: &ChoiceTree) -> Result<i64, ResolveFault>
    ensures value { (first : ℕ) → IfOk result (λ v. v ≡ choice_value
        (activation (block_in context.now) first) choice.now) }
    ensures room { (source : Source) → HasRoom source (block_in context.now)
        → FitsChoice choice.now → IsOk result }
{
    match choice {
        ChoiceTree::Lit(literal) => number_of(&literal.value),
        ChoiceTree::Const(name, _) => match context.scope.entry.find(name) {
            Some(var) => start_of(var.of),
            None => Ok(0),
        },
    }
}

/// One value, or a range of them.
fn choice_of(context: &Context, range: &ChoiceRange) -> Result<Choice, ResolveFault>
    ensures is { IfOk result (λ c. IsChoiceTo (block_in context.now) c range.now.0 range.now.1) }
    ensures room { (source : Source) → HasRoom source (block_in context.now)
        → FitsChoice range.now.0 → FitsUpper range.now.1 → IsOk result }
{
    let first = choice_value(context, range.lower())?;
    match range.upper() {
        None => Ok(Choice {
            low: first,
            high: first,
        }),
        Some(end) => {
            let last = choice_value(context, end)?;
            Ok(Choice {
                low: first,
                high: last,
            })
        }
    }
}

/// Puts the values of a branch behind those of the program.
pub(crate) fn add_choices(
    alloc: Global,
    context: &Context,
    program: &mut Program,
    choices: &[ChoiceRange],
) -> Result<Span, ResolveFault>
    ensures grows { OnOk result (Extends program.old program.new) }
    ensures are { IfOk result (λ s. AreChoices (block_in context.now) program.new s.first s.end
        choices.now) }
    ensures room { (source : Source) → HasRoom source (block_in context.now)
        → FitsChoices choices.now → IfErr result (λ e. e ≡ NoMemory) }
    ensures calls { OnOk result (program.new.calls ≡ program.old.calls) }
{
    let mut made = Vec::new(alloc);
    for choice in choices {
        let range = choice_of(context, choice)?;
        made.push(range)?;
    }
    let span = append_choices(program, made.as_slice())?;
    Ok(span)
}
