//! Instructions by what may stand behind them.
ghost use Rattle.std.specs.Prelude.{◌≡◌};
ghost use Rattle.pv_tree.specs.InstructionGroups as groups;
ghost use Rattle.pv_rules_instr.specs.Groups.{group_tree};

use pv_tree::Op;

/// What may stand behind an instruction's word or sign.
#[derive(Clone, Copy)]
pub(crate) enum Group {
    /// A bit is read.
    BitRead,
    /// A bit is written, or read and written.
    BitWritten,
    /// A value is loaded.
    Load,
    /// A value is transferred.
    Transfer,
    /// A literal may be joined to the low word.
    WordLogic,
    /// A literal may be joined to the whole.
    DoubleLogic,
    /// The low word is shifted.
    WordShift,
    /// The whole is shifted.
    DoubleShift,
    /// NOP, which has a 0 or a 1.
    NoOperation,
    /// BLD, which has a number.
    Display,
    /// A jump, LOOP too, which has a label.
    Jump,
    /// A nesting is opened.
    Opening,
    /// A nesting is closed.
    Closing,
    /// The block ends.
    BlockEnd,
    /// A block is called.
    Calling,
    /// What stands alone.
    Alone,
}

/// The group of an instruction.
pub(crate) fn group_of(op: Op) -> Group
    ensures { group_tree result ≡ groups.group_of op }
{
    match op {
        Op::A | Op::An | Op::O | Op::On | Op::X | Op::Xn => Group::BitRead,
        Op::Assign | Op::S | Op::R | Op::Fp | Op::Fn => Group::BitWritten,
        Op::L => Group::Load,
        Op::T => Group::Transfer,
        Op::Aw | Op::Ow | Op::Xow => Group::WordLogic,
        Op::Ad | Op::Od | Op::Xod => Group::DoubleLogic,
        Op::Slw | Op::Srw => Group::WordShift,
        Op::Sld | Op::Srd => Group::DoubleShift,
        Op::Nop => Group::NoOperation,
        Op::Bld => Group::Display,
        Op::Ju
        | Op::Jc
        | Op::Jcb
        | Op::Jcn
        | Op::Jnb
        | Op::Jz
        | Op::Jn
        | Op::Jp
        | Op::Jm
        | Op::Jpz
        | Op::Jmz
        | Op::Jo
        | Op::Loop => Group::Jump,
        Op::AOpen | Op::AnOpen | Op::OOpen | Op::OnOpen | Op::XOpen | Op::XnOpen => Group::Opening,
        Op::Close => Group::Closing,
        Op::Be | Op::Beu | Op::Bec => Group::BlockEnd,
        Op::Call | Op::Uc => Group::Calling,
        Op::Not | Op::Set | Op::Clr | Op::Save => Group::Alone,
        Op::AddI | Op::SubI | Op::MulI | Op::DivI => Group::Alone,
        Op::AddD | Op::SubD | Op::MulD | Op::DivD | Op::Mod => Group::Alone,
        Op::EqI | Op::NeI | Op::GtI | Op::LtI | Op::GeI | Op::LeI => Group::Alone,
        Op::EqD | Op::NeD | Op::GtD | Op::LtD | Op::GeD | Op::LeD => Group::Alone,
        Op::Itd | Op::Tak | Op::Push | Op::Pop => Group::Alone,
    }
}
