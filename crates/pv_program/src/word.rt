//! What words of STL do, each by its row of the table. The words are those of the reference manual Statement List (STL) for
//! S7-300/S7-400; which of them have a row here is what the groups of `pv_tree` say.
ghost use Rattle.std.specs.Prelude.{◌≡◌, ℕ, List, IfSome, is_some};
ghost use Rattle.pv_tree.specs.Tree.{InstrTree};
ghost use Rattle.pv_program.specs.Bodies.{LeadsSo};
ghost use Rattle.pv_tree.specs.InstructionGroups.{group_of, is_jump};
ghost use Rattle.pv_program.specs.Rows.{is_joined, is_taken, is_edge, is_end, is_change, is_combined, is_shift, WordChanges, WordCombines, WordShifts, WordJumps, WordJoins, WordWrites, WordFindsEdge, WordDoes};
ghost use Rattle.pv_program.specs.Ready.{ChangeSuits, Suits};

use pv_stl_run::{
    Action, Change, Combining, Joining, Junction, Math, Part, Relation, Shifting, Test, When,
    Written,
};
use pv_tree::Op;

/// When a jump is made.
pub(crate) fn when(op: Op) -> Option<When>
    ensures row { IfSome result (λ test. WordJumps op test) }
    ensures each { is_some result ≡ is_jump (group_of op) }
{
    match op {
        Op::Ju => Some(When::Always),
        Op::Jc => Some(When::Result(true)),
        Op::Jcb => Some(When::Result(true)),
        Op::Jcn => Some(When::Result(false)),
        Op::Jnb => Some(When::Result(false)),
        Op::Jz => Some(When::Codes(Test::Zero)),
        Op::Jn => Some(When::Codes(Test::NotZero)),
        Op::Jp => Some(When::Codes(Test::Plus)),
        Op::Jm => Some(When::Codes(Test::Minus)),
        Op::Jpz => Some(When::Codes(Test::NotMinus)),
        Op::Jmz => Some(When::Codes(Test::NotPlus)),
        Op::Jo => Some(When::Overflow),
        Op::Loop => Some(When::Counted),
        _ => None,
    }
}

fn with(joining: Joining, negates: bool) -> Junction
    ensures joining { result.joining ≡ joining }
    ensures negates { result.negates ≡ negates }
{
    Junction { joining, negates }
}

/// How an operand's bit is joined.
pub(crate) fn joined(op: Op) -> Option<Junction>
    ensures row { IfSome result (λ j. WordJoins op j) }
    ensures each { is_some result ≡ is_joined (group_of op) }
{
    match op {
        Op::A => Some(with(Joining::And, false)),
        Op::An => Some(with(Joining::And, true)),
        Op::O => Some(with(Joining::Or, false)),
        Op::On => Some(with(Joining::Or, true)),
        Op::X => Some(with(Joining::Xor, false)),
        Op::Xn => Some(with(Joining::Xor, true)),
        _ => None,
    }
}

/// What an operand takes of the result.
pub(crate) fn written(op: Op) -> Option<Written>
    ensures row { IfSome result (λ w. WordWrites op w) }
    ensures each { is_some result ≡ is_taken op }
{
    match op {
        Op::Assign => Some(Written::Result),
        Op::S => Some(Written::Where(true)),
        Op::R => Some(Written::Where(false)),
        _ => None,
    }
}

/// Which edge is found: a rising one, or a falling one.
pub(crate) fn edge(op: Op) -> Option<bool>
    ensures row { IfSome result (λ rising. WordFindsEdge op rising) }
    ensures each { is_some result ≡ is_edge op }
{
    match op {
        Op::Fp => Some(true),
        Op::Fn => Some(false),
        _ => None,
    }
}

/// What ends the block.
pub(crate) fn end(op: Op) -> Option<Action>
    ensures row { IfSome result (λ d. WordDoes op d) }
    ensures each { is_some result ≡ is_end (group_of op) }
    ensures leads { (all : List InstrTree) (k : ℕ) (i : InstrTree)
        → IfSome result (λ d. LeadsSo all k i d) }
    ensures suits { IfSome result (λ d. Suits d (group_of op)) }
{
    match op {
        Op::Be => Some(Action::End),
        Op::Beu => Some(Action::End),
        Op::Bec => Some(Action::EndWhere),
        _ => None,
    }
}

/// What changes the registers alone, whatever the instruction works on.
pub(crate) fn changing(op: Op) -> Option<Change>
    ensures row { IfSome result (λ c. WordChanges op c) }
    ensures suits { IfSome result (λ c. ChangeSuits c (group_of op)) }
    ensures each { is_some result ≡ is_change (group_of op) }
{
    match op {
        Op::EqI => Some(Change::Compare(Relation::Equal, Part::Low)),
        Op::NeI => Some(Change::Compare(Relation::NotEqual, Part::Low)),
        Op::GtI => Some(Change::Compare(Relation::Greater, Part::Low)),
        Op::LtI => Some(Change::Compare(Relation::Less, Part::Low)),
        Op::GeI => Some(Change::Compare(Relation::GreaterEqual, Part::Low)),
        Op::LeI => Some(Change::Compare(Relation::LessEqual, Part::Low)),
        Op::EqD => Some(Change::Compare(Relation::Equal, Part::Whole)),
        Op::NeD => Some(Change::Compare(Relation::NotEqual, Part::Whole)),
        Op::GtD => Some(Change::Compare(Relation::Greater, Part::Whole)),
        Op::LtD => Some(Change::Compare(Relation::Less, Part::Whole)),
        Op::GeD => Some(Change::Compare(Relation::GreaterEqual, Part::Whole)),
        Op::LeD => Some(Change::Compare(Relation::LessEqual, Part::Whole)),
        Op::AddI => Some(Change::Calculate(Math::Sum(Part::Low))),
        Op::SubI => Some(Change::Calculate(Math::Difference(Part::Low))),
        Op::MulI => Some(Change::Calculate(Math::ProductOfWords)),
        Op::DivI => Some(Change::Calculate(Math::QuotientOfWords)),
        Op::AddD => Some(Change::Calculate(Math::Sum(Part::Whole))),
        Op::SubD => Some(Change::Calculate(Math::Difference(Part::Whole))),
        Op::MulD => Some(Change::Calculate(Math::Product)),
        Op::DivD => Some(Change::Calculate(Math::QuotientOfWholes)),
        Op::Mod => Some(Change::Calculate(Math::RemainderOfWholes)),
        Op::AOpen => Some(Change::Open(with(Joining::And, false))),
        Op::AnOpen => Some(Change::Open(with(Joining::And, true))),
        Op::OOpen => Some(Change::Open(with(Joining::Or, false))),
        Op::OnOpen => Some(Change::Open(with(Joining::Or, true))),
        Op::XOpen => Some(Change::Open(with(Joining::Xor, false))),
        Op::XnOpen => Some(Change::Open(with(Joining::Xor, true))),
        Op::Close => Some(Change::Close),
        Op::Not => Some(Change::Negate),
        Op::Set => Some(Change::Put(true)),
        Op::Clr => Some(Change::Put(false)),
        Op::Save | Op::Nop | Op::Bld => Some(Change::Nothing),
        Op::Itd => Some(Change::Extend),
        Op::Tak => Some(Change::Swap),
        Op::Push => Some(Change::Push),
        Op::Pop => Some(Change::Pop),
        _ => None,
    }
}

/// How words are joined bit by bit.
pub(crate) fn combining(op: Op) -> Option<(Combining, Part)>
    ensures row { IfSome result (λ h. WordCombines op h.0 h.1) }
    ensures each { is_some result ≡ is_combined (group_of op) }
{
    match op {
        Op::Aw => Some((Combining::And, Part::Low)),
        Op::Ow => Some((Combining::Or, Part::Low)),
        Op::Xow => Some((Combining::Xor, Part::Low)),
        Op::Ad => Some((Combining::And, Part::Whole)),
        Op::Od => Some((Combining::Or, Part::Whole)),
        Op::Xod => Some((Combining::Xor, Part::Whole)),
        _ => None,
    }
}

/// Where a shift goes.
pub(crate) fn shifting(op: Op) -> Option<(Shifting, Part)>
    ensures row { IfSome result (λ h. WordShifts op h.0 h.1) }
    ensures each { is_some result ≡ is_shift (group_of op) }
{
    match op {
        Op::Slw => Some((Shifting::Left, Part::Low)),
        Op::Srw => Some((Shifting::Right, Part::Low)),
        Op::Sld => Some((Shifting::Left, Part::Whole)),
        Op::Srd => Some((Shifting::Right, Part::Whole)),
        _ => None,
    }
}
