//! In a project that keeps the rules no number is too large, where its cells are as few as a table may have.
ghost use Rattle.std.specs.Prelude.{Contains};
ghost use Rattle.pv_place.specs.declared.place.Place.{Place};
ghost use Rattle.pv_tree.specs.Tree.{ExprTree, OperandTree, BlockTree};
ghost use Rattle.pv_tree.specs.Scopes.{ProjectTree, Scope};
ghost use Rattle.pv_tree.specs.LiteralTypes.{Want, nothing};
ghost use Rattle.pv_tree.specs.Parts.{parts_of, parts_of_operand, operands_of, reads_of_parts};
ghost use Rattle.pv_tree.specs.Rules.{KeepsRules, Rule, BreaksInPattern};
ghost use Rattle.pv_tree.specs.Rules.Chains.{LeadsTo};
ghost use Rattle.pv_mean.specs.Sources.{Source};
ghost use Rattle.pv_resolve.specs.Rooms.{HasRoom, FitsExpr, FitsOperand};
ghost use Rattle.pv_laws_room.specs.Reached.{IsShortOperand, AreShort, AreParts, IsRun};
ghost use Rattle.pv_laws_room.specs.Bodies.{FitsBody};

use pv_laws_types::laws::{called_blocks_are_at_work, entered_blocks_are_at_work};
use pv_mean::laws::{tables_are_laid_out, views_keep_paths_types_and_starts};
use pv_tree::chains_of_calls_end;

/// Each block to which calls lead from the entered one has room among the cells of the table.
pub fn reached_blocks_have_room()
    ensures { (source : Source) (block : BlockTree) → IsRun source
        → LeadsTo source.project source.entry block → HasRoom source block }
{
    tables_are_laid_out();
    views_keep_paths_types_and_starts();
    entered_blocks_are_at_work();
    called_blocks_are_at_work();
    chains_of_calls_end();
}

/// In a project that keeps the rules 64 bits hold each literal of a block, and each of its addresses is one of a bit or of at most four
/// bytes, where none has more than 32 bits; and so it is of a pattern's expression that breaks no rule.
pub fn literals_and_addresses_fit()
    ensures part { (project : ProjectTree) (block : BlockTree) (want : Want) (e : ExprTree)
        → KeepsRules project → Contains project.blocks block → AreShort project block
        → AreParts project block
        (parts_of (record { project = project; block = block }) want e) → FitsExpr e }
    ensures operand { (project : ProjectTree) (block : BlockTree) (o : OperandTree)
        → KeepsRules project → Contains project.blocks block → AreShort project block
        → Contains (operands_of project block) o → AreParts project block
        (parts_of_operand (record { project = project; block = block }) o) → FitsOperand o }
    ensures pattern { (scope : Scope) (e : ExprTree)
        → ((rule : Rule) (at : Place) → BreaksInPattern rule scope e at → ⊥)
        → ((o : OperandTree) → Contains (reads_of_parts (parts_of scope nothing e)) o
        → IsShortOperand o)
        → FitsExpr e }
{}

/// By the rules each statement and each instruction of a block fits, where none of its addresses has more than 32 bits.
pub fn bodies_fit()
    ensures { (project : ProjectTree) (block : BlockTree) → KeepsRules project
        → Contains project.blocks block → AreShort project block → FitsBody block.body }
{}
