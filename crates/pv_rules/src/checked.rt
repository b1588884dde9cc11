//! Whether blocks and symbols are a project.
ghost use Rattle.pv_tree.specs.Projects.{project_tree};
ghost use Rattle.pv_rules_decl.specs.Answers.{AnswersProject};

use crate::found::nearest_of;
use pv_rules_decl::{Rule, RuleFault, answered, make_found};
use pv_tree::{Blocks, Operand, Project};
use pv_types::Name;
use pv_word::Ty;
use std::alloc::Global;

/// The project of these blocks, those of all sources in their order, and these symbols; else the first breach of a rule of the
/// language: the least place, in an earlier source before a later one, and of the rules that are broken there the one with the
/// least number.
pub fn check(
    alloc: Global,
    blocks: Blocks,
    symbols: Vec<(Name, Operand, Ty)>,
) -> Result<Project, RuleFault>
    ensures { AnswersProject (project_tree blocks.list.items symbols.items) result }
{
    let near = nearest_of(alloc, blocks.list.as_slice(), symbols.as_slice())?;
    let all = [
        make_found(Rule::DoubledName, near.declared.doubled),
        make_found(Rule::MissingName, near.whole.missing),
        make_found(Rule::MissingType, near.declared.untyped),
        make_found(Rule::Misfit, near.whole.misfit),
        make_found(Rule::WrongCondition, near.code.condition),
        make_found(Rule::OutOfRange, near.whole.outside),
        make_found(Rule::WrongArray, near.declared.array),
        make_found(Rule::BeyondBounds, near.whole.beyond),
        make_found(Rule::FixedTarget, near.code.target),
        make_found(Rule::WrongCounter, near.code.counter),
        make_found(Rule::WrongStep, near.code.step),
        make_found(Rule::OutsideLoop, near.code.leave),
        make_found(Rule::WrongCase, near.code.choice),
        make_found(Rule::Cycle, near.chained.cycle),
        make_found(Rule::TooDeep, near.chained.deep),
        make_found(Rule::NotCallable, near.whole.uncallable),
        make_found(Rule::WrongArgument, near.code.argument),
        make_found(Rule::FixedOutput, near.code.output),
        make_found(Rule::WrongLabel, near.instructed.label),
        make_found(Rule::WrongRange, near.instructed.range),
        make_found(Rule::WrongNesting, near.instructed.nesting),
        make_found(Rule::RefusedOperand, near.instructed.operand),
        make_found(Rule::WrongAddress, near.whole.address),
    ];
    answered(blocks, symbols, all.as_slice())
}
