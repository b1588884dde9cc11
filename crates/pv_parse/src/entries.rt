//! The tables of words and signs that have a kind of their own, by the first byte.
//!
//! Few words share a first letter, so a look-up compares few, most of them by their length alone.
ghost use Rattle.std.specs.Prelude.{◌≡◌, map};
ghost use Rattle.pv_parse.specs.LookUps.{entry_of, entries_with};
ghost use Rattle.pv_parse.specs.Kinds.{word_entries, sign_entries};

use crate::kind::{
    AND_WORD, ARRAY_WORD, ARROW, ASSIGN, BEGIN_WORD, BIT_OP, BRACKET_CLOSE, BRACKET_OPEN, BY_WORD,
    CALL_WORD, CASE_WORD, COLON, COMMA, COMPARE_SIGN, CONST_WORD, DATA_BLOCK, DATE_AND_TIME,
    DO_WORD, DOT, DOTS, ELSE_WORD, ELSIF_WORD, END_CASE, END_CONST, END_DATA_BLOCK, END_FOR,
    END_FUNCTION, END_FUNCTION_BLOCK, END_IF, END_ORGANIZATION_BLOCK, END_REPEAT, END_STRUCT,
    END_TYPE, END_VAR, END_WHILE, EQUALS, FOR_WORD, FREE_OP, FUNCTION_BLOCK, FUNCTION_WORD, G_WORD,
    HASH, IF_WORD, IN_WORD, IN0_WORD, IN1_WORD, IN2_WORD, LIMIT_FUNCTION, MINUS, MN_WORD, MOD_WORD,
    MX_WORD, N_WORD, NETWORK_WORD, NOT_WORD, NUMBER_PREFIX, OF_WORD, ONE_FUNCTION, OR_OP, OR_WORD,
    ORGANIZATION_BLOCK, PAREN_CLOSE, PAREN_OPEN, PLUS, REPEAT_WORD, SECTION_WORD, SEL_FUNCTION,
    SEMICOLON, SHIFT_FUNCTION, SIMPLE_TYPE, SINGLE_WORD, STL_SIGN, STRUCT_WORD, THEN_WORD, TIMES,
    TO_WORD, TRUTH, TWO_FUNCTION, TYPE_WORD, UC_WORD, UNEQUAL, UNTIL_WORD, VALUE_OP, VOID_WORD,
    WHILE_WORD, XOR_WORD,
};
use crate::look_up::Entry;

static WORDS_A: [Entry; 7] = [
    Entry {
        spelling: b"A",
        meaning: BIT_OP,
    },
    Entry {
        spelling: b"AN",
        meaning: BIT_OP,
    },
    Entry {
        spelling: b"AW",
        meaning: FREE_OP,
    },
    Entry {
        spelling: b"AD",
        meaning: FREE_OP,
    },
    Entry {
        spelling: b"AND",
        meaning: AND_WORD,
    },
    Entry {
        spelling: b"ABS",
        meaning: ONE_FUNCTION,
    },
    Entry {
        spelling: b"ARRAY",
        meaning: ARRAY_WORD,
    },
];

static WORDS_B: [Entry; 16] = [
    Entry {
        spelling: b"BLD",
        meaning: VALUE_OP,
    },
    Entry {
        spelling: b"BE",
        meaning: FREE_OP,
    },
    Entry {
        spelling: b"BEU",
        meaning: FREE_OP,
    },
    Entry {
        spelling: b"BEC",
        meaning: FREE_OP,
    },
    Entry {
        spelling: b"BOOL_TO_BYTE",
        meaning: ONE_FUNCTION,
    },
    Entry {
        spelling: b"BOOL_TO_WORD",
        meaning: ONE_FUNCTION,
    },
    Entry {
        spelling: b"BOOL_TO_DWORD",
        meaning: ONE_FUNCTION,
    },
    Entry {
        spelling: b"BYTE_TO_BOOL",
        meaning: ONE_FUNCTION,
    },
    Entry {
        spelling: b"BYTE_TO_WORD",
        meaning: ONE_FUNCTION,
    },
    Entry {
        spelling: b"BYTE_TO_DWORD",
        meaning: ONE_FUNCTION,
    },
    Entry {
        spelling: b"BYTE_TO_INT",
        meaning: ONE_FUNCTION,
    },
    Entry {
        spelling: b"BYTE_TO_DINT",
        meaning: ONE_FUNCTION,
    },
    Entry {
        spelling: b"BOOL",
        meaning: SIMPLE_TYPE,
    },
    Entry {
        spelling: b"BYTE",
        meaning: SIMPLE_TYPE,
    },
    Entry {
        spelling: b"BEGIN",
        meaning: BEGIN_WORD,
    },
    Entry {
        spelling: b"BY",
        meaning: BY_WORD,
    },
];

static WORDS_C: [Entry; 5] = [
    Entry {
        spelling: b"CLR",
        meaning: FREE_OP,
    },
    Entry {
        spelling: b"CONST",
        meaning: CONST_WORD,
    },
    Entry {
        spelling: b"CASE",
        meaning: CASE_WORD,
    },
    Entry {
        spelling: b"CONTINUE",
        meaning: SINGLE_WORD,
    },
    Entry {
        spelling: b"CALL",
        meaning: CALL_WORD,
    },
];

static WORDS_D: [Entry; 16] = [
    Entry {
        spelling: b"DIV",
        meaning: TIMES,
    },
    Entry {
        spelling: b"DWORD_TO_BOOL",
        meaning: ONE_FUNCTION,
    },
    Entry {
        spelling: b"DWORD_TO_BYTE",
        meaning: ONE_FUNCTION,
    },
    Entry {
        spelling: b"DWORD_TO_WORD",
        meaning: ONE_FUNCTION,
    },
    Entry {
        spelling: b"DWORD_TO_INT",
        meaning: ONE_FUNCTION,
    },
    Entry {
        spelling: b"DWORD_TO_DINT",
        meaning: ONE_FUNCTION,
    },
    Entry {
        spelling: b"DINT_TO_INT",
        meaning: ONE_FUNCTION,
    },
    Entry {
        spelling: b"DINT_TO_WORD",
        meaning: ONE_FUNCTION,
    },
    Entry {
        spelling: b"DINT_TO_DWORD",
        meaning: ONE_FUNCTION,
    },
    Entry {
        spelling: b"DINT_TO_TIME",
        meaning: ONE_FUNCTION,
    },
    Entry {
        spelling: b"DB",
        meaning: NUMBER_PREFIX,
    },
    Entry {
        spelling: b"DWORD",
        meaning: SIMPLE_TYPE,
    },
    Entry {
        spelling: b"DINT",
        meaning: SIMPLE_TYPE,
    },
    Entry {
        spelling: b"DATE_AND_TIME",
        meaning: DATE_AND_TIME,
    },
    Entry {
        spelling: b"DATA_BLOCK",
        meaning: DATA_BLOCK,
    },
    Entry {
        spelling: b"DO",
        meaning: DO_WORD,
    },
];

static WORDS_E: [Entry; 16] = [
    Entry {
        spelling: b"END_STRUCT",
        meaning: END_STRUCT,
    },
    Entry {
        spelling: b"END_VAR",
        meaning: END_VAR,
    },
    Entry {
        spelling: b"END_CONST",
        meaning: END_CONST,
    },
    Entry {
        spelling: b"END_FUNCTION_BLOCK",
        meaning: END_FUNCTION_BLOCK,
    },
    Entry {
        spelling: b"END_FUNCTION",
        meaning: END_FUNCTION,
    },
    Entry {
        spelling: b"END_ORGANIZATION_BLOCK",
        meaning: END_ORGANIZATION_BLOCK,
    },
    Entry {
        spelling: b"END_DATA_BLOCK",
        meaning: END_DATA_BLOCK,
    },
    Entry {
        spelling: b"END_TYPE",
        meaning: END_TYPE,
    },
    Entry {
        spelling: b"ELSIF",
        meaning: ELSIF_WORD,
    },
    Entry {
        spelling: b"ELSE",
        meaning: ELSE_WORD,
    },
    Entry {
        spelling: b"END_IF",
        meaning: END_IF,
    },
    Entry {
        spelling: b"END_CASE",
        meaning: END_CASE,
    },
    Entry {
        spelling: b"END_FOR",
        meaning: END_FOR,
    },
    Entry {
        spelling: b"END_WHILE",
        meaning: END_WHILE,
    },
    Entry {
        spelling: b"END_REPEAT",
        meaning: END_REPEAT,
    },
    Entry {
        spelling: b"EXIT",
        meaning: SINGLE_WORD,
    },
];

static WORDS_F: [Entry; 8] = [
    Entry {
        spelling: b"FP",
        meaning: VALUE_OP,
    },
    Entry {
        spelling: b"FN",
        meaning: VALUE_OP,
    },
    Entry {
        spelling: b"FALSE",
        meaning: TRUTH,
    },
    Entry {
        spelling: b"FB",
        meaning: NUMBER_PREFIX,
    },
    Entry {
        spelling: b"FC",
        meaning: NUMBER_PREFIX,
    },
    Entry {
        spelling: b"FUNCTION_BLOCK",
        meaning: FUNCTION_BLOCK,
    },
    Entry {
        spelling: b"FUNCTION",
        meaning: FUNCTION_WORD,
    },
    Entry {
        spelling: b"FOR",
        meaning: FOR_WORD,
    },
];

static WORDS_G: [Entry; 1] = [Entry {
    spelling: b"G",
    meaning: G_WORD,
}];

static WORDS_I: [Entry; 11] = [
    Entry {
        spelling: b"IN",
        meaning: IN_WORD,
    },
    Entry {
        spelling: b"IN0",
        meaning: IN0_WORD,
    },
    Entry {
        spelling: b"IN1",
        meaning: IN1_WORD,
    },
    Entry {
        spelling: b"IN2",
        meaning: IN2_WORD,
    },
    Entry {
        spelling: b"ITD",
        meaning: FREE_OP,
    },
    Entry {
        spelling: b"INT_TO_BYTE",
        meaning: ONE_FUNCTION,
    },
    Entry {
        spelling: b"INT_TO_WORD",
        meaning: ONE_FUNCTION,
    },
    Entry {
        spelling: b"INT_TO_DWORD",
        meaning: ONE_FUNCTION,
    },
    Entry {
        spelling: b"INT_TO_DINT",
        meaning: ONE_FUNCTION,
    },
    Entry {
        spelling: b"INT",
        meaning: SIMPLE_TYPE,
    },
    Entry {
        spelling: b"IF",
        meaning: IF_WORD,
    },
];

static WORDS_J: [Entry; 12] = [
    Entry {
        spelling: b"JU",
        meaning: VALUE_OP,
    },
    Entry {
        spelling: b"JC",
        meaning: VALUE_OP,
    },
    Entry {
        spelling: b"JCB",
        meaning: VALUE_OP,
    },
    Entry {
        spelling: b"JCN",
        meaning: VALUE_OP,
    },
    Entry {
        spelling: b"JNB",
        meaning: VALUE_OP,
    },
    Entry {
        spelling: b"JZ",
        meaning: VALUE_OP,
    },
    Entry {
        spelling: b"JN",
        meaning: VALUE_OP,
    },
    Entry {
        spelling: b"JP",
        meaning: VALUE_OP,
    },
    Entry {
        spelling: b"JM",
        meaning: VALUE_OP,
    },
    Entry {
        spelling: b"JPZ",
        meaning: VALUE_OP,
    },
    Entry {
        spelling: b"JMZ",
        meaning: VALUE_OP,
    },
    Entry {
        spelling: b"JO",
        meaning: VALUE_OP,
    },
];

static WORDS_L: [Entry; 3] = [
    Entry {
        spelling: b"L",
        meaning: VALUE_OP,
    },
    Entry {
        spelling: b"LOOP",
        meaning: VALUE_OP,
    },
    Entry {
        spelling: b"LIMIT",
        meaning: LIMIT_FUNCTION,
    },
];

static WORDS_M: [Entry; 5] = [
    Entry {
        spelling: b"MN",
        meaning: MN_WORD,
    },
    Entry {
        spelling: b"MX",
        meaning: MX_WORD,
    },
    Entry {
        spelling: b"MOD",
        meaning: MOD_WORD,
    },
    Entry {
        spelling: b"MIN",
        meaning: TWO_FUNCTION,
    },
    Entry {
        spelling: b"MAX",
        meaning: TWO_FUNCTION,
    },
];

static WORDS_N: [Entry; 4] = [
    Entry {
        spelling: b"N",
        meaning: N_WORD,
    },
    Entry {
        spelling: b"NOP",
        meaning: VALUE_OP,
    },
    Entry {
        spelling: b"NOT",
        meaning: NOT_WORD,
    },
    Entry {
        spelling: b"NETWORK",
        meaning: NETWORK_WORD,
    },
];

static WORDS_O: [Entry; 8] = [
    Entry {
        spelling: b"ON",
        meaning: BIT_OP,
    },
    Entry {
        spelling: b"O",
        meaning: OR_OP,
    },
    Entry {
        spelling: b"OW",
        meaning: FREE_OP,
    },
    Entry {
        spelling: b"OD",
        meaning: FREE_OP,
    },
    Entry {
        spelling: b"OR",
        meaning: OR_WORD,
    },
    Entry {
        spelling: b"OB",
        meaning: NUMBER_PREFIX,
    },
    Entry {
        spelling: b"OF",
        meaning: OF_WORD,
    },
    Entry {
        spelling: b"ORGANIZATION_BLOCK",
        meaning: ORGANIZATION_BLOCK,
    },
];

static WORDS_P: [Entry; 2] = [
    Entry {
        spelling: b"PUSH",
        meaning: FREE_OP,
    },
    Entry {
        spelling: b"POP",
        meaning: FREE_OP,
    },
];

static WORDS_R: [Entry; 3] = [
    Entry {
        spelling: b"R",
        meaning: VALUE_OP,
    },
    Entry {
        spelling: b"REPEAT",
        meaning: REPEAT_WORD,
    },
    Entry {
        spelling: b"RETURN",
        meaning: SINGLE_WORD,
    },
];

static WORDS_S: [Entry; 11] = [
    Entry {
        spelling: b"S",
        meaning: VALUE_OP,
    },
    Entry {
        spelling: b"SLW",
        meaning: VALUE_OP,
    },
    Entry {
        spelling: b"SRW",
        meaning: VALUE_OP,
    },
    Entry {
        spelling: b"SLD",
        meaning: VALUE_OP,
    },
    Entry {
        spelling: b"SRD",
        meaning: VALUE_OP,
    },
    Entry {
        spelling: b"SET",
        meaning: FREE_OP,
    },
    Entry {
        spelling: b"SAVE",
        meaning: FREE_OP,
    },
    Entry {
        spelling: b"SEL",
        meaning: SEL_FUNCTION,
    },
    Entry {
        spelling: b"SHL",
        meaning: SHIFT_FUNCTION,
    },
    Entry {
        spelling: b"SHR",
        meaning: SHIFT_FUNCTION,
    },
    Entry {
        spelling: b"STRUCT",
        meaning: STRUCT_WORD,
    },
];

static WORDS_T: [Entry; 8] = [
    Entry {
        spelling: b"T",
        meaning: VALUE_OP,
    },
    Entry {
        spelling: b"TAK",
        meaning: FREE_OP,
    },
    Entry {
        spelling: b"TRUE",
        meaning: TRUTH,
    },
    Entry {
        spelling: b"TIME_TO_DINT",
        meaning: ONE_FUNCTION,
    },
    Entry {
        spelling: b"TIME",
        meaning: SIMPLE_TYPE,
    },
    Entry {
        spelling: b"TYPE",
        meaning: TYPE_WORD,
    },
    Entry {
        spelling: b"THEN",
        meaning: THEN_WORD,
    },
    Entry {
        spelling: b"TO",
        meaning: TO_WORD,
    },
];

static WORDS_U: [Entry; 3] = [
    Entry {
        spelling: b"UDT",
        meaning: NUMBER_PREFIX,
    },
    Entry {
        spelling: b"UNTIL",
        meaning: UNTIL_WORD,
    },
    Entry {
        spelling: b"UC",
        meaning: UC_WORD,
    },
];

static WORDS_V: [Entry; 6] = [
    Entry {
        spelling: b"VAR_INPUT",
        meaning: SECTION_WORD,
    },
    Entry {
        spelling: b"VAR_OUTPUT",
        meaning: SECTION_WORD,
    },
    Entry {
        spelling: b"VAR_IN_OUT",
        meaning: SECTION_WORD,
    },
    Entry {
        spelling: b"VAR",
        meaning: SECTION_WORD,
    },
    Entry {
        spelling: b"VAR_TEMP",
        meaning: SECTION_WORD,
    },
    Entry {
        spelling: b"VOID",
        meaning: VOID_WORD,
    },
];

static WORDS_W: [Entry; 7] = [
    Entry {
        spelling: b"WORD_TO_BOOL",
        meaning: ONE_FUNCTION,
    },
    Entry {
        spelling: b"WORD_TO_BYTE",
        meaning: ONE_FUNCTION,
    },
    Entry {
        spelling: b"WORD_TO_DWORD",
        meaning: ONE_FUNCTION,
    },
    Entry {
        spelling: b"WORD_TO_INT",
        meaning: ONE_FUNCTION,
    },
    Entry {
        spelling: b"WORD_TO_DINT",
        meaning: ONE_FUNCTION,
    },
    Entry {
        spelling: b"WORD",
        meaning: SIMPLE_TYPE,
    },
    Entry {
        spelling: b"WHILE",
        meaning: WHILE_WORD,
    },
];

static WORDS_X: [Entry; 5] = [
    Entry {
        spelling: b"X",
        meaning: BIT_OP,
    },
    Entry {
        spelling: b"XN",
        meaning: BIT_OP,
    },
    Entry {
        spelling: b"XOW",
        meaning: FREE_OP,
    },
    Entry {
        spelling: b"XOD",
        meaning: FREE_OP,
    },
    Entry {
        spelling: b"XOR",
        meaning: XOR_WORD,
    },
];

static SIGNS_COLON: [Entry; 2] = [
    Entry {
        spelling: b":=",
        meaning: ASSIGN,
    },
    Entry {
        spelling: b":",
        meaning: COLON,
    },
];

static SIGNS_EQUALS: [Entry; 4] = [
    Entry {
        spelling: b"=>",
        meaning: ARROW,
    },
    Entry {
        spelling: b"=",
        meaning: EQUALS,
    },
    Entry {
        spelling: b"==I",
        meaning: STL_SIGN,
    },
    Entry {
        spelling: b"==D",
        meaning: STL_SIGN,
    },
];

static SIGNS_DOT: [Entry; 2] = [
    Entry {
        spelling: b"..",
        meaning: DOTS,
    },
    Entry {
        spelling: b".",
        meaning: DOT,
    },
];

static SIGNS_PAREN_OPEN: [Entry; 1] = [Entry {
    spelling: b"(",
    meaning: PAREN_OPEN,
}];

static SIGNS_PAREN_CLOSE: [Entry; 1] = [Entry {
    spelling: b")",
    meaning: PAREN_CLOSE,
}];

static SIGNS_BRACKET_OPEN: [Entry; 1] = [Entry {
    spelling: b"[",
    meaning: BRACKET_OPEN,
}];

static SIGNS_BRACKET_CLOSE: [Entry; 1] = [Entry {
    spelling: b"]",
    meaning: BRACKET_CLOSE,
}];

static SIGNS_SEMICOLON: [Entry; 1] = [Entry {
    spelling: b";",
    meaning: SEMICOLON,
}];

static SIGNS_COMMA: [Entry; 1] = [Entry {
    spelling: b",",
    meaning: COMMA,
}];

static SIGNS_HASH: [Entry; 1] = [Entry {
    spelling: b"#",
    meaning: HASH,
}];

static SIGNS_PLUS: [Entry; 3] = [
    Entry {
        spelling: b"+",
        meaning: PLUS,
    },
    Entry {
        spelling: b"+I",
        meaning: STL_SIGN,
    },
    Entry {
        spelling: b"+D",
        meaning: STL_SIGN,
    },
];

static SIGNS_MINUS: [Entry; 3] = [
    Entry {
        spelling: b"-",
        meaning: MINUS,
    },
    Entry {
        spelling: b"-I",
        meaning: STL_SIGN,
    },
    Entry {
        spelling: b"-D",
        meaning: STL_SIGN,
    },
];

static SIGNS_STAR: [Entry; 3] = [
    Entry {
        spelling: b"*",
        meaning: TIMES,
    },
    Entry {
        spelling: b"*I",
        meaning: STL_SIGN,
    },
    Entry {
        spelling: b"*D",
        meaning: STL_SIGN,
    },
];

static SIGNS_SLASH: [Entry; 3] = [
    Entry {
        spelling: b"/",
        meaning: TIMES,
    },
    Entry {
        spelling: b"/I",
        meaning: STL_SIGN,
    },
    Entry {
        spelling: b"/D",
        meaning: STL_SIGN,
    },
];

static SIGNS_LESS: [Entry; 9] = [
    Entry {
        spelling: b"<>",
        meaning: UNEQUAL,
    },
    Entry {
        spelling: b"<",
        meaning: COMPARE_SIGN,
    },
    Entry {
        spelling: b"<=",
        meaning: COMPARE_SIGN,
    },
    Entry {
        spelling: b"<>I",
        meaning: STL_SIGN,
    },
    Entry {
        spelling: b"<I",
        meaning: STL_SIGN,
    },
    Entry {
        spelling: b"<=I",
        meaning: STL_SIGN,
    },
    Entry {
        spelling: b"<>D",
        meaning: STL_SIGN,
    },
    Entry {
        spelling: b"<D",
        meaning: STL_SIGN,
    },
    Entry {
        spelling: b"<=D",
        meaning: STL_SIGN,
    },
];

static SIGNS_GREATER: [Entry; 6] = [
    Entry {
        spelling: b">",
        meaning: COMPARE_SIGN,
    },
    Entry {
        spelling: b">=",
        meaning: COMPARE_SIGN,
    },
    Entry {
        spelling: b">I",
        meaning: STL_SIGN,
    },
    Entry {
        spelling: b">=I",
        meaning: STL_SIGN,
    },
    Entry {
        spelling: b">D",
        meaning: STL_SIGN,
    },
    Entry {
        spelling: b">=D",
        meaning: STL_SIGN,
    },
];

static SIGNS_AND: [Entry; 1] = [Entry {
    spelling: b"&",
    meaning: AND_WORD,
}];

/// The words that begin with this letter, a small one.
pub fn words_with(letter: u8) -> &'static [Entry]
    ensures { map entry_of result.now ≡ entries_with letter word_entries }
{
    match letter {
        b'a' => &WORDS_A,
        b'b' => &WORDS_B,
        b'c' => &WORDS_C,
        b'd' => &WORDS_D,
        b'e' => &WORDS_E,
        b'f' => &WORDS_F,
        b'g' => &WORDS_G,
        b'i' => &WORDS_I,
        b'j' => &WORDS_J,
        b'l' => &WORDS_L,
        b'm' => &WORDS_M,
        b'n' => &WORDS_N,
        b'o' => &WORDS_O,
        b'p' => &WORDS_P,
        b'r' => &WORDS_R,
        b's' => &WORDS_S,
        b't' => &WORDS_T,
        b'u' => &WORDS_U,
        b'v' => &WORDS_V,
        b'w' => &WORDS_W,
        b'x' => &WORDS_X,
        _ => &[],
    }
}

/// The signs that begin with this byte.
pub fn signs_with(byte: u8) -> &'static [Entry]
    ensures { map entry_of result.now ≡ entries_with byte sign_entries }
{
    match byte {
        b':' => &SIGNS_COLON,
        b'=' => &SIGNS_EQUALS,
        b'.' => &SIGNS_DOT,
        b'(' => &SIGNS_PAREN_OPEN,
        b')' => &SIGNS_PAREN_CLOSE,
        b'[' => &SIGNS_BRACKET_OPEN,
        b']' => &SIGNS_BRACKET_CLOSE,
        b';' => &SIGNS_SEMICOLON,
        b',' => &SIGNS_COMMA,
        b'#' => &SIGNS_HASH,
        b'+' => &SIGNS_PLUS,
        b'-' => &SIGNS_MINUS,
        b'*' => &SIGNS_STAR,
        b'/' => &SIGNS_SLASH,
        b'<' => &SIGNS_LESS,
        b'>' => &SIGNS_GREATER,
        b'&' => &SIGNS_AND,
        _ => &[],
    }
}
