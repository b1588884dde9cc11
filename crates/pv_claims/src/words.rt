//! Words between blanks.
ghost use Rattle.std.specs.Prelude.{◌≡◌, ◌++◌};
ghost use Rattle.pv_claims.specs.Words.{NoBlank, EndsWord};

/// The bytes before the first blank, and the others.
pub fn cut_word(text: &[u8]) -> (&[u8], &[u8])
    ensures word { NoBlank result.0.now }
    ensures ends { EndsWord result.1.now }
    ensures cut { text.now ≡ result.0.now ++ result.1.now }
{
    for (at, byte) in text.iter().enumerate() {
        if *byte == b' ' {
            return text.split_at(at);
        }
    }
    text.split_at(text.len())
}
