//! The words and signs of instructions.
ghost use Rattle.std.specs.Prelude.{◌≡◌, map};
ghost use Rattle.pv_parse.specs.OpTexts.{op_among, known, op_of, opening_of};
ghost use Rattle.pv_parse_instr.specs.Entries.{entry_of};

use pv_parse::is_text;
use pv_tree::Op;

/// An instruction's word or sign, and what it says.
struct Entry {
    spelling: &'static [u8],
    op: Op,
}

/// All that stand without `(` behind them.
static OPS: [Entry; 73] = [
    Entry {
        spelling: b"A",
        op: Op::A,
    },
    Entry {
        spelling: b"AN",
        op: Op::An,
    },
    Entry {
        spelling: b"O",
        op: Op::O,
    },
    Entry {
        spelling: b"ON",
        op: Op::On,
    },
    Entry {
        spelling: b"X",
        op: Op::X,
    },
    Entry {
        spelling: b"XN",
        op: Op::Xn,
    },
    Entry {
        spelling: b")",
        op: Op::Close,
    },
    Entry {
        spelling: b"=",
        op: Op::Assign,
    },
    Entry {
        spelling: b"S",
        op: Op::S,
    },
    Entry {
        spelling: b"R",
        op: Op::R,
    },
    Entry {
        spelling: b"NOT",
        op: Op::Not,
    },
    Entry {
        spelling: b"SET",
        op: Op::Set,
    },
    Entry {
        spelling: b"CLR",
        op: Op::Clr,
    },
    Entry {
        spelling: b"FP",
        op: Op::Fp,
    },
    Entry {
        spelling: b"FN",
        op: Op::Fn,
    },
    Entry {
        spelling: b"SAVE",
        op: Op::Save,
    },
    Entry {
        spelling: b"NOP",
        op: Op::Nop,
    },
    Entry {
        spelling: b"BLD",
        op: Op::Bld,
    },
    Entry {
        spelling: b"L",
        op: Op::L,
    },
    Entry {
        spelling: b"T",
        op: Op::T,
    },
    Entry {
        spelling: b"+I",
        op: Op::AddI,
    },
    Entry {
        spelling: b"-I",
        op: Op::SubI,
    },
    Entry {
        spelling: b"*I",
        op: Op::MulI,
    },
    Entry {
        spelling: b"/I",
        op: Op::DivI,
    },
    Entry {
        spelling: b"+D",
        op: Op::AddD,
    },
    Entry {
        spelling: b"-D",
        op: Op::SubD,
    },
    Entry {
        spelling: b"*D",
        op: Op::MulD,
    },
    Entry {
        spelling: b"/D",
        op: Op::DivD,
    },
    Entry {
        spelling: b"MOD",
        op: Op::Mod,
    },
    Entry {
        spelling: b"==I",
        op: Op::EqI,
    },
    Entry {
        spelling: b"<>I",
        op: Op::NeI,
    },
    Entry {
        spelling: b">I",
        op: Op::GtI,
    },
    Entry {
        spelling: b"<I",
        op: Op::LtI,
    },
    Entry {
        spelling: b">=I",
        op: Op::GeI,
    },
    Entry {
        spelling: b"<=I",
        op: Op::LeI,
    },
    Entry {
        spelling: b"==D",
        op: Op::EqD,
    },
    Entry {
        spelling: b"<>D",
        op: Op::NeD,
    },
    Entry {
        spelling: b">D",
        op: Op::GtD,
    },
    Entry {
        spelling: b"<D",
        op: Op::LtD,
    },
    Entry {
        spelling: b">=D",
        op: Op::GeD,
    },
    Entry {
        spelling: b"<=D",
        op: Op::LeD,
    },
    Entry {
        spelling: b"AW",
        op: Op::Aw,
    },
    Entry {
        spelling: b"OW",
        op: Op::Ow,
    },
    Entry {
        spelling: b"XOW",
        op: Op::Xow,
    },
    Entry {
        spelling: b"AD",
        op: Op::Ad,
    },
    Entry {
        spelling: b"OD",
        op: Op::Od,
    },
    Entry {
        spelling: b"XOD",
        op: Op::Xod,
    },
    Entry {
        spelling: b"SLW",
        op: Op::Slw,
    },
    Entry {
        spelling: b"SRW",
        op: Op::Srw,
    },
    Entry {
        spelling: b"SLD",
        op: Op::Sld,
    },
    Entry {
        spelling: b"SRD",
        op: Op::Srd,
    },
    Entry {
        spelling: b"ITD",
        op: Op::Itd,
    },
    Entry {
        spelling: b"TAK",
        op: Op::Tak,
    },
    Entry {
        spelling: b"PUSH",
        op: Op::Push,
    },
    Entry {
        spelling: b"POP",
        op: Op::Pop,
    },
    Entry {
        spelling: b"JU",
        op: Op::Ju,
    },
    Entry {
        spelling: b"JC",
        op: Op::Jc,
    },
    Entry {
        spelling: b"JCB",
        op: Op::Jcb,
    },
    Entry {
        spelling: b"JCN",
        op: Op::Jcn,
    },
    Entry {
        spelling: b"JNB",
        op: Op::Jnb,
    },
    Entry {
        spelling: b"JZ",
        op: Op::Jz,
    },
    Entry {
        spelling: b"JN",
        op: Op::Jn,
    },
    Entry {
        spelling: b"JP",
        op: Op::Jp,
    },
    Entry {
        spelling: b"JM",
        op: Op::Jm,
    },
    Entry {
        spelling: b"JPZ",
        op: Op::Jpz,
    },
    Entry {
        spelling: b"JMZ",
        op: Op::Jmz,
    },
    Entry {
        spelling: b"JO",
        op: Op::Jo,
    },
    Entry {
        spelling: b"LOOP",
        op: Op::Loop,
    },
    Entry {
        spelling: b"BE",
        op: Op::Be,
    },
    Entry {
        spelling: b"BEU",
        op: Op::Beu,
    },
    Entry {
        spelling: b"BEC",
        op: Op::Bec,
    },
    Entry {
        spelling: b"CALL",
        op: Op::Call,
    },
    Entry {
        spelling: b"UC",
        op: Op::Uc,
    },
];

/// Those that stand with it.
static OPENINGS: [Entry; 6] = [
    Entry {
        spelling: b"A",
        op: Op::AOpen,
    },
    Entry {
        spelling: b"AN",
        op: Op::AnOpen,
    },
    Entry {
        spelling: b"O",
        op: Op::OOpen,
    },
    Entry {
        spelling: b"ON",
        op: Op::OnOpen,
    },
    Entry {
        spelling: b"X",
        op: Op::XOpen,
    },
    Entry {
        spelling: b"XN",
        op: Op::XnOpen,
    },
];

/// The first of these with such a text, in any letter case.
fn op_among(bytes: &[u8], entries: &[Entry]) -> Option<Op>
    ensures { result ≡ op_among (map entry_of entries.now) bytes.now }
{
    for entry in entries {
        if is_text(bytes, entry.spelling) {
            return Some(entry.op);
        }
    }
    None
}

/// What a text is that is among them, and else one instruction for all others, whose texts never come here.
fn known(found: Option<Op>) -> Op
    ensures { result ≡ known found }
{
    match found {
        Some(op) => op,
        None => Op::Bec,
    }
}

/// The instruction of this word or sign, without `(`.
pub fn op_of(bytes: &[u8]) -> Op
    ensures { result ≡ op_of bytes.now }
{
    known(op_among(bytes, &OPS))
}

/// The instruction of this word with `(`.
pub fn opening_of(bytes: &[u8]) -> Op
    ensures { result ≡ opening_of bytes.now }
{
    known(op_among(bytes, &OPENINGS))
}
