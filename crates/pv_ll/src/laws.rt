//! Laws of grammars, for readers that make something of what a text derives.
ghost use Rattle.std.specs.Prelude.{◌≡◌, ◌∷◌, [], ℕ, Bool, IsTrue, List, map, Some};
ghost use Rattle.pv_ll.specs.declared.table.Symbol.{Symbol};
ghost use Rattle.pv_ll.specs.declared.table.Language.{Language};
ghost use Rattle.pv_ll.specs.Check.{is_ll1};
ghost use Rattle.pv_ll.specs.Table.{grammar_of};
ghost use Rattle.pv_ll.specs.declared.turn.Turn.{Turn};
ghost use Rattle.pv_ll.specs.Walk.{Step, Walks, tokens_of};
ghost use Rattle.pv_ll.specs.Turns.{IsTold};
ghost use Rattle.pv_ll.specs.Grammar.{Grammar, Derives, Leftmost};
ghost use Rattle.pv_ll.specs.Making.{Making, Runs, run, play, Idles, Follows};

/// What a trace tells is derived, and it tells it of one list of tokens alone.
pub fn traces_tell_one_text()
    ensures derived { (g : Grammar) (trace : List ℕ) (ss : List Symbol) (w : List ℕ) → Leftmost g trace ss w → Derives g ss w }
    ensures one { (g : Grammar) (trace : List ℕ) (ss : List Symbol) (v w : List ℕ) → Leftmost g trace ss v → Leftmost g trace ss w → v ≡ w }
{}

/// A trace has one walk.
pub fn traces_have_one_walk()
    ensures { (g : Grammar) (trace : List ℕ) (ss : List Symbol) (steps others : List Step) → Walks g trace ss steps → Walks g trace ss others → steps ≡ others }
{}

/// A walk's trace is the leftmost derivation of the tokens on its way.
pub fn walks_pass_what_they_derive()
    ensures { (g : Grammar) (trace : List ℕ) (ss : List Symbol) (steps : List Step) → Walks g trace ss steps → Leftmost g trace ss (tokens_of steps) }
{}

/// In a language that passes the test a text has one trace.
pub fn texts_have_one_trace()
    ensures { (l : Language) (trace other w : List ℕ) → IsTrue (is_ll1 l) → Leftmost (grammar_of l) trace (Symbol.Name l.start ∷ []) w
        → Leftmost (grammar_of l) other (Symbol.Name l.start ∷ []) w → trace ≡ other }
{}

/// In a language that passes the test the steps of any walk through a text do to a stack what the text's symbols do to it,
/// and that is one thing.
pub fn walks_do_what_texts_do<T, V>()
    ensures steps { (l : Language) (m : Making T V) (ts : List T) (s behind : List V) (trace : List ℕ) (steps : List Step) → IsTrue (is_ll1 l)
        → Walks (grammar_of l) trace (Symbol.Name l.start ∷ []) steps → tokens_of steps ≡ map m.kind ts
        → Runs (grammar_of l) m (Symbol.Name l.start ∷ []) ts s behind → run m steps ts s ≡ Some behind }
    ensures one { (l : Language) (m : Making T V) (ts : List T) (s left right : List V) → IsTrue (is_ll1 l)
        → Runs (grammar_of l) m (Symbol.Name l.start ∷ []) ts s left → Runs (grammar_of l) m (Symbol.Name l.start ∷ []) ts s right → left ≡ right }
{}

/// In a language that passes the test the turns of a text do to a stack what the text's symbols do to it, where alternatives that
/// don't act leave the stack as it is.
pub fn turns_do_what_texts_do<T, V>()
    ensures { (l : Language) (m : Making T V) (acts : List Bool) (turns : List Turn) (ts : List T) (s behind : List V) → IsTrue (is_ll1 l) → Idles acts m
        → IsTold (grammar_of l) l.start acts (map m.kind ts) turns → Runs (grammar_of l) m (Symbol.Name l.start ∷ []) ts s behind
        → play m turns ts s ≡ Some behind }
{}

/// Where one making follows another step by step, so it does along a whole walk, and over all its turns.
pub fn makings_follow_along_walks<T, V, W>()
    ensures steps { (f : V → W) (m : Making T V) (n : Making T W) (steps : List Step) (ts : List T) (s behind : List V) → Follows f m n
        → run m steps ts s ≡ Some behind → run n steps ts (map f s) ≡ Some (map f behind) }
    ensures turns { (f : V → W) (m : Making T V) (n : Making T W) (turns : List Turn) (ts : List T) (s behind : List V) → Follows f m n
        → play m turns ts s ≡ Some behind → play n turns ts (map f s) ≡ Some (map f behind) }
{}
