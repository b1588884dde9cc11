//! Tables of words and of signs, and what a text is by them, whatever the case of its letters.
ghost use Rattle.std.specs.Prelude.{◌≡◌, ◌<◌, ℕ, [], ◌∷◌, map, unwrap_or};
ghost use Rattle.std.specs.Str.{str_eq_ignore_ascii_case};
ghost use Rattle.pv_parse.specs.LookUps.{entry_of, look_up};

/// A word or a sign, and what it is.
#[derive(Clone, Copy)]
pub struct Entry {
    pub spelling: &'static [u8],
    pub meaning: u8,
}

/// What the first of the entries that is the text says.
pub fn meaning_of(entries: &[Entry], text: &[u8]) -> Option<u8>
    ensures { (other : ℕ) → look_up (map entry_of entries.now) text.now other ≡ unwrap_or result other }
{
    for entry in entries {
        if is_same(text, entry.spelling) {
            return Some(entry.meaning);
        }
    }
    None
}

/// Whether the text is this word, whatever the case of its letters.
#[inline(always)]
pub fn is_same(text: &[u8], word: &[u8]) -> bool
    ensures { result ≡ str_eq_ignore_ascii_case text.now word.now }
{
    text.eq_ignore_ascii_case(word)
}

/// Whether the text is this sign, which is no letter.
#[inline(always)]
pub fn is_sign(text: &[u8], sign: u8) -> bool
    requires { sign < 65 }
    ensures { result ≡ str_eq_ignore_ascii_case text.now (sign ∷ []) }
{
    text.len() == 1 && text[0] == sign
}
