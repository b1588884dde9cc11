//! Laws of tokens.
ghost use Rattle.std.specs.Prelude.{◌≡◌, ◌⊎◌, ◌+◌, ℕ, IsTrue, List, [], ◌∷◌, ◌++◌, length, Option};
ghost use Rattle.pv_place.specs.declared.place.Place.{Place};
ghost use Rattle.pv_lex.specs.declared.context.Context.{Context};
ghost use Rattle.pv_lex.specs.declared.fault.FaultKind.{FaultKind};
ghost use Rattle.pv_lex.specs.declared.token.Kind.{Kind};
ghost use Rattle.pv_lex.specs.declared.token.Kind.TheVariants.{End};
ghost use Rattle.pv_lex.specs.declared.token.Language.{Language};
ghost use Rattle.pv_lex.specs.declared.token.Token.{Token};
ghost use Rattle.pv_lex.specs.declared.fault.FaultKind.TheVariants.{OpenComment};
ghost use Rattle.pv_lex.specs.Tokens.{IsNext, NoneIsNext, AreTokens, IsFault, LieFrom, token_at};
ghost use Rattle.pv_lex.specs.Lines.{CutFrom, on_next_line, is_outside, moved};

/// A law: the stretch that is next in a text is one.
pub fn next_stretch_is_one()
    ensures { (language : Language) (context : Context) (kind other : Option Kind)
        (bytes more rest left : List ℕ) → bytes ++ rest ≡ more ++ left
        → IsNext language context kind bytes rest → IsNext language context other more left
        → (kind ≡ other) × (bytes ≡ more) × (rest ≡ left) }
{}

/// A law: a text has at most one list of tokens.
pub fn text_determines_tokens()
    ensures { (language : Language) (file : ℕ) (text : List ℕ) (tokens others : List Token)
        → AreTokens language file text tokens → AreTokens language file text others
        → tokens ≡ others }
{}

/// A law: a text has tokens or a first fault, never both, and its first fault is one.
pub fn text_has_tokens_or_a_fault()
    ensures some { (language : Language) (file : ℕ) (text : List ℕ)
        → ((tokens : List Token) × AreTokens language file text tokens)
        ⊎ ((kind : FaultKind) × (place : Place) × IsFault language file text kind place) }
    ensures apart { (language : Language) (file : ℕ) (text : List ℕ) (tokens : List Token)
        (kind : FaultKind) (place : Place) → AreTokens language file text tokens
        → IsFault language file text kind place → ⊥ }
    ensures one { (language : Language) (file : ℕ) (text : List ℕ) (kind other : FaultKind)
        (place there : Place)
        → IsFault language file text kind place → IsFault language file text other there
        → (kind ≡ other) × (place ≡ there) }
{}

/// A law: the tokens of a text lie in it one behind the other, and the last of them is `End` at the
/// text's length.
pub fn tokens_lie_in_their_text()
    ensures order { (language : Language) (file : ℕ) (text : List ℕ) (tokens : List Token)
        → AreTokens language file text tokens → LieFrom file 0 (length text) tokens }
    ensures last { (language : Language) (file : ℕ) (text : List ℕ) (tokens : List Token)
        → AreTokens language file text tokens
        → (front : List Token) × (tokens ≡ front ++ token_at file (length text) End [] ∷ []) }
{}

/// A law: with a line feed between them, two texts are cut as the one and then the other.
///
/// `anywhere` says it of any context: the second text is cut in the context that the first one
/// leaves, on a new line. Where that is as at a text's begin, `tokens` and `behind` say it of
/// tokens and of a fault of the second text. `before` says that a fault of the first text stays,
/// but for a comment or an attribute that is open, since the second text may close it. With a blank
/// in the place of the line feed it isn't so: `I` and `0.0` are then one address.
pub fn line_feed_parts_tokens()
    ensures anywhere { (language : Language) (file at : ℕ) (context middle last : Context)
        (one other rest : List ℕ) (front back : List Token)
        → CutFrom language file at context one [] front middle
        → CutFrom language file (at + (length one + 1)) (on_next_line middle) other rest back last
        → NoneIsNext language last rest
        → CutFrom language file at context (one ++ 10 ∷ other) rest (front ++ back) last }
    ensures tokens { (language : Language) (file : ℕ) (one other : List ℕ)
        (tokens others : List Token) (x : AreTokens language file one tokens)
        → IsTrue (is_outside x.context) → AreTokens language file other others
        → AreTokens language file (one ++ 10 ∷ other) (x.front ++ moved (length one + 1) others) }
    ensures behind { (language : Language) (file : ℕ) (one other : List ℕ) (tokens : List Token)
        (kind : FaultKind) (place : Place) (x : AreTokens language file one tokens)
        → IsTrue (is_outside x.context) → IsFault language file other kind place
        → IsFault language file (one ++ 10 ∷ other) kind
        (record { file = file; offset = length one + 1 + place.offset }) }
    ensures before { (language : Language) (file : ℕ) (one other : List ℕ) (kind : FaultKind)
        (place : Place) → (kind ≡ OpenComment → ⊥) → IsFault language file one kind place
        → IsFault language file (one ++ 10 ∷ other) kind place }
{}
