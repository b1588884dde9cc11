//! Lines of a text.
ghost use Rattle.std.specs.Prelude.{◌≡◌, ℕ, List, ◌∷◌, ◌++◌, IfSome, IfNone};
ghost use Rattle.pv_claims.specs.Lines.{NoFeed};

/// The first whole line of a text without its line feed, and what follows that.
pub fn cut_line(text: &[u8]) -> Option<(&[u8], &[u8])>
    ensures found { IfSome result (λ cut. NoFeed cut.0.now
        × (text.now ≡ cut.0.now ++ 10 ∷ cut.1.now)) }
    ensures none { IfNone result (NoFeed text.now) }
{
    for (at, byte) in text.iter().enumerate() {
        if *byte == b'\n' {
            return Some((text.split_at(at).0, text.split_at(at + 1).1));
        }
    }
    None
}

/// What follows the prefix, where the text begins with it.
pub fn strip<'a>(text: &'a [u8], prefix: &[u8]) -> Option<&'a [u8]>
    ensures found { IfSome result (λ rest. text.now ≡ prefix.now ++ rest.now) }
    ensures none { IfNone result ((rest : List ℕ) → text.now ≡ prefix.now ++ rest → ⊥) }
{
    text.strip_prefix(prefix)
}
