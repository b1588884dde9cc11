//! What single tokens say, once the grammar let them stand where they do: operators, functions,
//! truth values, addresses, the types of numbers.
ghost use Rattle.std.specs.Prelude.{◌≡◌, map, IfSome};
ghost use Rattle.pv_parse.specs.TokenTexts.{is_text, times_of, compare_of, truth_of, function_among, function_of, entry_of};

use pv_tree::{BinaryOp, StdFunction};
use pv_word::Ty;

/// A function and its word.
pub struct Entry {
    pub spelling: &'static [u8],
    pub function: StdFunction,
}

/// All functions but ABS.
static FUNCTIONS: [Entry; 33] = [
    Entry {
        spelling: b"MIN",
        function: StdFunction::Min,
    },
    Entry {
        spelling: b"MAX",
        function: StdFunction::Max,
    },
    Entry {
        spelling: b"LIMIT",
        function: StdFunction::Limit,
    },
    Entry {
        spelling: b"SEL",
        function: StdFunction::Sel,
    },
    Entry {
        spelling: b"SHL",
        function: StdFunction::Shl,
    },
    Entry {
        spelling: b"SHR",
        function: StdFunction::Shr,
    },
    Entry {
        spelling: b"BOOL_TO_BYTE",
        function: StdFunction::Convert(Ty::Bool, Ty::Byte),
    },
    Entry {
        spelling: b"BOOL_TO_WORD",
        function: StdFunction::Convert(Ty::Bool, Ty::Word),
    },
    Entry {
        spelling: b"BOOL_TO_DWORD",
        function: StdFunction::Convert(Ty::Bool, Ty::Dword),
    },
    Entry {
        spelling: b"BYTE_TO_BOOL",
        function: StdFunction::Convert(Ty::Byte, Ty::Bool),
    },
    Entry {
        spelling: b"BYTE_TO_WORD",
        function: StdFunction::Convert(Ty::Byte, Ty::Word),
    },
    Entry {
        spelling: b"BYTE_TO_DWORD",
        function: StdFunction::Convert(Ty::Byte, Ty::Dword),
    },
    Entry {
        spelling: b"BYTE_TO_INT",
        function: StdFunction::Convert(Ty::Byte, Ty::Int),
    },
    Entry {
        spelling: b"BYTE_TO_DINT",
        function: StdFunction::Convert(Ty::Byte, Ty::Dint),
    },
    Entry {
        spelling: b"WORD_TO_BOOL",
        function: StdFunction::Convert(Ty::Word, Ty::Bool),
    },
    Entry {
        spelling: b"WORD_TO_BYTE",
        function: StdFunction::Convert(Ty::Word, Ty::Byte),
    },
    Entry {
        spelling: b"WORD_TO_DWORD",
        function: StdFunction::Convert(Ty::Word, Ty::Dword),
    },
    Entry {
        spelling: b"WORD_TO_INT",
        function: StdFunction::Convert(Ty::Word, Ty::Int),
    },
    Entry {
        spelling: b"WORD_TO_DINT",
        function: StdFunction::Convert(Ty::Word, Ty::Dint),
    },
    Entry {
        spelling: b"DWORD_TO_BOOL",
        function: StdFunction::Convert(Ty::Dword, Ty::Bool),
    },
    Entry {
        spelling: b"DWORD_TO_BYTE",
        function: StdFunction::Convert(Ty::Dword, Ty::Byte),
    },
    Entry {
        spelling: b"DWORD_TO_WORD",
        function: StdFunction::Convert(Ty::Dword, Ty::Word),
    },
    Entry {
        spelling: b"DWORD_TO_INT",
        function: StdFunction::Convert(Ty::Dword, Ty::Int),
    },
    Entry {
        spelling: b"DWORD_TO_DINT",
        function: StdFunction::Convert(Ty::Dword, Ty::Dint),
    },
    Entry {
        spelling: b"INT_TO_BYTE",
        function: StdFunction::Convert(Ty::Int, Ty::Byte),
    },
    Entry {
        spelling: b"INT_TO_WORD",
        function: StdFunction::Convert(Ty::Int, Ty::Word),
    },
    Entry {
        spelling: b"INT_TO_DWORD",
        function: StdFunction::Convert(Ty::Int, Ty::Dword),
    },
    Entry {
        spelling: b"INT_TO_DINT",
        function: StdFunction::Convert(Ty::Int, Ty::Dint),
    },
    Entry {
        spelling: b"DINT_TO_INT",
        function: StdFunction::Convert(Ty::Dint, Ty::Int),
    },
    Entry {
        spelling: b"DINT_TO_WORD",
        function: StdFunction::Convert(Ty::Dint, Ty::Word),
    },
    Entry {
        spelling: b"DINT_TO_DWORD",
        function: StdFunction::Convert(Ty::Dint, Ty::Dword),
    },
    Entry {
        spelling: b"DINT_TO_TIME",
        function: StdFunction::Convert(Ty::Dint, Ty::Time),
    },
    Entry {
        spelling: b"TIME_TO_DINT",
        function: StdFunction::Convert(Ty::Time, Ty::Dint),
    },
];

/// Whether the text is this word, whatever the case of its letters.
pub fn is_text(bytes: &[u8], word: &[u8]) -> bool
    ensures { result ≡ is_text word.now bytes.now }
{
    bytes.eq_ignore_ascii_case(word)
}

/// The operator of a product that isn't MOD.
#[tactic(auto, unfolding(crate::specs::TokenTexts::times_of))]
pub fn times_of(bytes: &[u8]) -> BinaryOp
    ensures { result ≡ times_of bytes.now }
{
    if is_text(bytes, b"*") {
        BinaryOp::Mul
    } else {
        BinaryOp::Div
    }
}

/// The operator that compares by order.
#[tactic(auto, unfolding(crate::specs::TokenTexts::compare_of))]
pub fn compare_of(bytes: &[u8]) -> BinaryOp
    ensures { result ≡ compare_of bytes.now }
{
    if is_text(bytes, b"<") {
        BinaryOp::Less
    } else if is_text(bytes, b">") {
        BinaryOp::Greater
    } else if is_text(bytes, b"<=") {
        BinaryOp::LessEqual
    } else {
        BinaryOp::GreaterEqual
    }
}

/// TRUE as 1, any other as 0.
#[tactic(auto, unfolding(crate::specs::TokenTexts::truth_of))]
pub fn truth_of(bytes: &[u8]) -> i128
    ensures { result ≡ truth_of bytes.now }
{
    if is_text(bytes, b"TRUE") { 1 } else { 0 }
}

/// The first of the functions that has this word, or ABS.
fn function_among(bytes: &[u8], entries: &[Entry]) -> StdFunction
    ensures { result ≡ function_among (map entry_of entries.now) bytes.now }
{
    for entry in entries {
        if is_text(bytes, entry.spelling) {
            return entry.function;
        }
    }
    StdFunction::Abs
}

/// The function of this word.
pub fn function_of(bytes: &[u8]) -> StdFunction
    ensures { result ≡ function_of bytes.now }
{
    function_among(bytes, &FUNCTIONS)
}
