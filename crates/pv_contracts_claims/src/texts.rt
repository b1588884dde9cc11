//! Calls that read pieces of texts.
ghost use Rattle.std.specs.Prelude.{◌≡◌, ℕ, ◌^◌, ◌<◌, List, ◌∷◌, ◌++◌, IfSome, IfNone};
ghost use Rattle.std.specs.Fmt.{decimal};
ghost use Rattle.pv_claims.specs.Lines.{NoFeed};
ghost use Rattle.pv_claims.specs.Words.{NoBlank, EndsWord};

/// [`pv_claims::cut_line`].
pub fn cut_line(text: &[u8]) -> Option<(&[u8], &[u8])>
    ensures found { IfSome result (λ cut. NoFeed cut.0.now
        × (text.now ≡ cut.0.now ++ 10 ∷ cut.1.now)) }
    ensures none { IfNone result (NoFeed text.now) }
{
    pv_claims::cut_line(text)
}

/// [`pv_claims::strip`].
pub fn strip<'a>(text: &'a [u8], prefix: &[u8]) -> Option<&'a [u8]>
    ensures found { IfSome result (λ rest. text.now ≡ prefix.now ++ rest.now) }
    ensures none { IfNone result ((rest : List ℕ) → text.now ≡ prefix.now ++ rest → ⊥) }
{
    pv_claims::strip(text, prefix)
}

/// [`pv_claims::cut_word`].
pub fn cut_word(text: &[u8]) -> (&[u8], &[u8])
    ensures word { NoBlank result.0.now }
    ensures ends { EndsWord result.1.now }
    ensures cut { text.now ≡ result.0.now ++ result.1.now }
{
    pv_claims::cut_word(text)
}

/// [`pv_claims::number`].
pub fn number(text: &[u8]) -> Option<u32>
    ensures found { IfSome result (λ n. text.now ≡ decimal n) }
    ensures none { IfNone result ((n : ℕ) → n < 2 ^ 32 → text.now ≡ decimal n → ⊥) }
{
    pv_claims::number(text)
}

/// [`pv_claims::number_behind`].
pub fn number_behind(text: &[u8], prefix: &[u8]) -> Option<u32>
    ensures found { IfSome result (λ n. text.now ≡ prefix.now ++ decimal n) }
    ensures none { IfNone result ((n : ℕ) → n < 2 ^ 32 → text.now ≡ prefix.now ++ decimal n → ⊥) }
{
    pv_claims::number_behind(text, prefix)
}
