//! What words are, as far as it matters for what is outside the profile: by the first letter, as few words share one.
ghost use Rattle.std.specs.Prelude.{◌≡◌, ℕ, map, unwrap_or};
ghost use Rattle.pv_parse.specs.LookUps.{entry_of, entries_with, look_up};
ghost use Rattle.pv_parse.specs.Roles.{role_entries, role_of};

use crate::look_up::{Entry, meaning_of};

/// A word that is none of the following.
pub const NO_ROLE: u8 = 0;
/// A type, a jump or a block type that the profile leaves out.
pub const LEFT_OUT_WORD: u8 = 1;
/// The word of a part of a data block or of a peripheral area, which digits directly behind make outside.
pub const AREA_WORD: u8 = 2;
/// An instruction of STL that the profile leaves out.
pub const LEFT_OUT_INSTRUCTION: u8 = 3;
/// The word of timers and that of counters.
pub const TIMER_WORD: u8 = 4;
/// A word that opens a block with code.
pub const CODE_WORD: u8 = 5;
/// A word that opens another block.
pub const DATA_WORD: u8 = 6;
/// A word that ends a block with code.
pub const END_WORD: u8 = 7;
/// BEGIN.
pub const BEGIN_WORD: u8 = 8;
/// NETWORK.
pub const NETWORK_WORD: u8 = 9;

static ROLES_A: [Entry; 1] = [Entry {
    spelling: b"ANY",
    meaning: LEFT_OUT_WORD,
}];

static ROLES_B: [Entry; 6] = [
    Entry {
        spelling: b"BLOCK_DB",
        meaning: LEFT_OUT_WORD,
    },
    Entry {
        spelling: b"BLOCK_FB",
        meaning: LEFT_OUT_WORD,
    },
    Entry {
        spelling: b"BLOCK_FC",
        meaning: LEFT_OUT_WORD,
    },
    Entry {
        spelling: b"BTI",
        meaning: LEFT_OUT_INSTRUCTION,
    },
    Entry {
        spelling: b"BTD",
        meaning: LEFT_OUT_INSTRUCTION,
    },
    Entry {
        spelling: b"BEGIN",
        meaning: BEGIN_WORD,
    },
];

static ROLES_C: [Entry; 10] = [
    Entry {
        spelling: b"CHAR",
        meaning: LEFT_OUT_WORD,
    },
    Entry {
        spelling: b"COUNTER",
        meaning: LEFT_OUT_WORD,
    },
    Entry {
        spelling: b"CDB",
        meaning: LEFT_OUT_INSTRUCTION,
    },
    Entry {
        spelling: b"CAR",
        meaning: LEFT_OUT_INSTRUCTION,
    },
    Entry {
        spelling: b"CC",
        meaning: LEFT_OUT_INSTRUCTION,
    },
    Entry {
        spelling: b"CAW",
        meaning: LEFT_OUT_INSTRUCTION,
    },
    Entry {
        spelling: b"CAD",
        meaning: LEFT_OUT_INSTRUCTION,
    },
    Entry {
        spelling: b"CU",
        meaning: LEFT_OUT_INSTRUCTION,
    },
    Entry {
        spelling: b"CD",
        meaning: LEFT_OUT_INSTRUCTION,
    },
    Entry {
        spelling: b"C",
        meaning: TIMER_WORD,
    },
];

static ROLES_D: [Entry; 9] = [
    Entry {
        spelling: b"DATE",
        meaning: LEFT_OUT_WORD,
    },
    Entry {
        spelling: b"DT",
        meaning: LEFT_OUT_WORD,
    },
    Entry {
        spelling: b"DBX",
        meaning: AREA_WORD,
    },
    Entry {
        spelling: b"DBB",
        meaning: AREA_WORD,
    },
    Entry {
        spelling: b"DBW",
        meaning: AREA_WORD,
    },
    Entry {
        spelling: b"DBD",
        meaning: AREA_WORD,
    },
    Entry {
        spelling: b"DTB",
        meaning: LEFT_OUT_INSTRUCTION,
    },
    Entry {
        spelling: b"DEC",
        meaning: LEFT_OUT_INSTRUCTION,
    },
    Entry {
        spelling: b"DATA_BLOCK",
        meaning: DATA_WORD,
    },
];

static ROLES_E: [Entry; 3] = [
    Entry {
        spelling: b"END_FUNCTION_BLOCK",
        meaning: END_WORD,
    },
    Entry {
        spelling: b"END_FUNCTION",
        meaning: END_WORD,
    },
    Entry {
        spelling: b"END_ORGANIZATION_BLOCK",
        meaning: END_WORD,
    },
];

static ROLES_F: [Entry; 3] = [
    Entry {
        spelling: b"FR",
        meaning: LEFT_OUT_INSTRUCTION,
    },
    Entry {
        spelling: b"FUNCTION_BLOCK",
        meaning: CODE_WORD,
    },
    Entry {
        spelling: b"FUNCTION",
        meaning: CODE_WORD,
    },
];

static ROLES_G: [Entry; 1] = [Entry {
    spelling: b"GOTO",
    meaning: LEFT_OUT_WORD,
}];

static ROLES_I: [Entry; 4] = [
    Entry {
        spelling: b"ITB",
        meaning: LEFT_OUT_INSTRUCTION,
    },
    Entry {
        spelling: b"INC",
        meaning: LEFT_OUT_INSTRUCTION,
    },
    Entry {
        spelling: b"INVI",
        meaning: LEFT_OUT_INSTRUCTION,
    },
    Entry {
        spelling: b"INVD",
        meaning: LEFT_OUT_INSTRUCTION,
    },
];

static ROLES_J: [Entry; 5] = [
    Entry {
        spelling: b"JOS",
        meaning: LEFT_OUT_INSTRUCTION,
    },
    Entry {
        spelling: b"JUO",
        meaning: LEFT_OUT_INSTRUCTION,
    },
    Entry {
        spelling: b"JBI",
        meaning: LEFT_OUT_INSTRUCTION,
    },
    Entry {
        spelling: b"JNBI",
        meaning: LEFT_OUT_INSTRUCTION,
    },
    Entry {
        spelling: b"JL",
        meaning: LEFT_OUT_INSTRUCTION,
    },
];

static ROLES_L: [Entry; 4] = [
    Entry {
        spelling: b"LREAL",
        meaning: LEFT_OUT_WORD,
    },
    Entry {
        spelling: b"LABEL",
        meaning: LEFT_OUT_WORD,
    },
    Entry {
        spelling: b"LAR1",
        meaning: LEFT_OUT_INSTRUCTION,
    },
    Entry {
        spelling: b"LAR2",
        meaning: LEFT_OUT_INSTRUCTION,
    },
];

static ROLES_M: [Entry; 2] = [
    Entry {
        spelling: b"MCRA",
        meaning: LEFT_OUT_INSTRUCTION,
    },
    Entry {
        spelling: b"MCRD",
        meaning: LEFT_OUT_INSTRUCTION,
    },
];

static ROLES_N: [Entry; 3] = [
    Entry {
        spelling: b"NEGI",
        meaning: LEFT_OUT_INSTRUCTION,
    },
    Entry {
        spelling: b"NEGD",
        meaning: LEFT_OUT_INSTRUCTION,
    },
    Entry {
        spelling: b"NETWORK",
        meaning: NETWORK_WORD,
    },
];

static ROLES_O: [Entry; 2] = [
    Entry {
        spelling: b"OPN",
        meaning: LEFT_OUT_INSTRUCTION,
    },
    Entry {
        spelling: b"ORGANIZATION_BLOCK",
        meaning: CODE_WORD,
    },
];

static ROLES_P: [Entry; 7] = [
    Entry {
        spelling: b"POINTER",
        meaning: LEFT_OUT_WORD,
    },
    Entry {
        spelling: b"PIB",
        meaning: AREA_WORD,
    },
    Entry {
        spelling: b"PIW",
        meaning: AREA_WORD,
    },
    Entry {
        spelling: b"PID",
        meaning: AREA_WORD,
    },
    Entry {
        spelling: b"PQB",
        meaning: AREA_WORD,
    },
    Entry {
        spelling: b"PQW",
        meaning: AREA_WORD,
    },
    Entry {
        spelling: b"PQD",
        meaning: AREA_WORD,
    },
];

static ROLES_R: [Entry; 5] = [
    Entry {
        spelling: b"REAL",
        meaning: LEFT_OUT_WORD,
    },
    Entry {
        spelling: b"RLD",
        meaning: LEFT_OUT_INSTRUCTION,
    },
    Entry {
        spelling: b"RRD",
        meaning: LEFT_OUT_INSTRUCTION,
    },
    Entry {
        spelling: b"RLDA",
        meaning: LEFT_OUT_INSTRUCTION,
    },
    Entry {
        spelling: b"RRDA",
        meaning: LEFT_OUT_INSTRUCTION,
    },
];

static ROLES_S: [Entry; 9] = [
    Entry {
        spelling: b"S5TIME",
        meaning: LEFT_OUT_WORD,
    },
    Entry {
        spelling: b"STRING",
        meaning: LEFT_OUT_WORD,
    },
    Entry {
        spelling: b"SSI",
        meaning: LEFT_OUT_INSTRUCTION,
    },
    Entry {
        spelling: b"SSD",
        meaning: LEFT_OUT_INSTRUCTION,
    },
    Entry {
        spelling: b"SD",
        meaning: LEFT_OUT_INSTRUCTION,
    },
    Entry {
        spelling: b"SE",
        meaning: LEFT_OUT_INSTRUCTION,
    },
    Entry {
        spelling: b"SF",
        meaning: LEFT_OUT_INSTRUCTION,
    },
    Entry {
        spelling: b"SP",
        meaning: LEFT_OUT_INSTRUCTION,
    },
    Entry {
        spelling: b"SS",
        meaning: LEFT_OUT_INSTRUCTION,
    },
];

static ROLES_T: [Entry; 7] = [
    Entry {
        spelling: b"TIME_OF_DAY",
        meaning: LEFT_OUT_WORD,
    },
    Entry {
        spelling: b"TOD",
        meaning: LEFT_OUT_WORD,
    },
    Entry {
        spelling: b"TIMER",
        meaning: LEFT_OUT_WORD,
    },
    Entry {
        spelling: b"TAR1",
        meaning: LEFT_OUT_INSTRUCTION,
    },
    Entry {
        spelling: b"TAR2",
        meaning: LEFT_OUT_INSTRUCTION,
    },
    Entry {
        spelling: b"T",
        meaning: TIMER_WORD,
    },
    Entry {
        spelling: b"TYPE",
        meaning: DATA_WORD,
    },
];

/// What the word is.
pub fn role_of(bytes: &[u8]) -> u8
    ensures { result ≡ role_of bytes.now }
{
    match found(bytes) {
        Some(role) => role,
        None => NO_ROLE,
    }
}

/// What the table says of a word.
fn found(bytes: &[u8]) -> Option<u8>
    ensures { (other : ℕ) → look_up role_entries bytes.now other ≡ unwrap_or result other }
{
    if bytes.is_empty() {
        return None;
    }
    meaning_of(roles_with(bytes[0].to_ascii_lowercase()), bytes)
}

/// The words that begin with this letter, a small one.
fn roles_with(letter: u8) -> &'static [Entry]
    ensures { map entry_of result.now ≡ entries_with letter role_entries }
{
    match letter {
        b'a' => &ROLES_A,
        b'b' => &ROLES_B,
        b'c' => &ROLES_C,
        b'd' => &ROLES_D,
        b'e' => &ROLES_E,
        b'f' => &ROLES_F,
        b'g' => &ROLES_G,
        b'i' => &ROLES_I,
        b'j' => &ROLES_J,
        b'l' => &ROLES_L,
        b'm' => &ROLES_M,
        b'n' => &ROLES_N,
        b'o' => &ROLES_O,
        b'p' => &ROLES_P,
        b'r' => &ROLES_R,
        b's' => &ROLES_S,
        b't' => &ROLES_T,
        _ => &[],
    }
}
