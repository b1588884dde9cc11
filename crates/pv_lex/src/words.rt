//! The words that tokens, header lines and contexts go by.
//!
//! Upper and lower case don't differ in a word.
ghost use Rattle.std.specs.Prelude.{◌≡◌};
ghost use Rattle.std.specs.List.{list_any};
ghost use Rattle.std.specs.Str.{str_eq_ignore_ascii_case};
ghost use Rattle.pv_lex.specs.Shapes.{is_one_of, decimal_prefixes, hex_prefixes, time_prefixes};
ghost use Rattle.pv_lex.specs.Tokens.{header_words, title_words, opening_words, closing_words};

static DECIMAL_PREFIXES: [&[u8]; 3] = [b"INT", b"DINT", b"L"];

static HEX_PREFIXES: [&[u8]; 6] = [b"B", b"BYTE", b"W", b"WORD", b"DW", b"DWORD"];

static TIME_PREFIXES: [&[u8]; 2] = [b"T", b"TIME"];

static HEADER_WORDS: [&[u8]; 6] = [
    b"TITLE",
    b"AUTHOR",
    b"FAMILY",
    b"NAME",
    b"VERSION",
    b"KNOW_HOW_PROTECT",
];

static TITLE_WORDS: [&[u8]; 1] = [b"TITLE"];

static OPENING_WORDS: [&[u8]; 5] = [
    b"FUNCTION_BLOCK",
    b"FUNCTION",
    b"ORGANIZATION_BLOCK",
    b"DATA_BLOCK",
    b"TYPE",
];

static CLOSING_WORDS: [&[u8]; 8] = [
    b"VAR",
    b"VAR_INPUT",
    b"VAR_OUTPUT",
    b"VAR_IN_OUT",
    b"VAR_TEMP",
    b"CONST",
    b"STRUCT",
    b"BEGIN",
];

/// Whether the word begins a decimal number.
pub fn is_decimal_prefix(word: &[u8]) -> bool
    ensures { result ≡ is_one_of decimal_prefixes word.now }
{
    is_among(word, &DECIMAL_PREFIXES)
}

/// Whether the word begins a hexadecimal number.
pub fn is_hex_prefix(word: &[u8]) -> bool
    ensures { result ≡ is_one_of hex_prefixes word.now }
{
    is_among(word, &HEX_PREFIXES)
}

/// Whether the word begins a duration.
pub fn is_time_prefix(word: &[u8]) -> bool
    ensures { result ≡ is_one_of time_prefixes word.now }
{
    is_among(word, &TIME_PREFIXES)
}

/// Whether the word begins a header line in a block's head.
pub fn is_header_word(word: &[u8]) -> bool
    ensures { result ≡ is_one_of header_words word.now }
{
    is_among(word, &HEADER_WORDS)
}

/// Whether the word is TITLE.
pub fn is_title(word: &[u8]) -> bool
    ensures { result ≡ is_one_of title_words word.now }
{
    is_among(word, &TITLE_WORDS)
}

/// Whether the word opens a block's head.
pub fn is_opening(word: &[u8]) -> bool
    ensures { result ≡ is_one_of opening_words word.now }
{
    is_among(word, &OPENING_WORDS)
}

/// Whether the word closes a block's head.
pub fn is_closing(word: &[u8]) -> bool
    ensures { result ≡ is_one_of closing_words word.now }
{
    is_among(word, &CLOSING_WORDS)
}

/// Whether the text is one of the words.
fn is_among(text: &[u8], words: &[&[u8]]) -> bool
    ensures { result ≡ list_any (λ word. str_eq_ignore_ascii_case text.now word.now) words.now }
{
    words.iter().any(|word| is_same(text, word))
}

/// Whether the text is this word, whatever the case of its letters.
#[inline(always)]
fn is_same(text: &[u8], word: &[u8]) -> bool
    ensures { result ≡ str_eq_ignore_ascii_case text.now word.now }
{
    text.eq_ignore_ascii_case(word)
}
