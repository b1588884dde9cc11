//! Blocks by their numbers.
ghost use Rattle.std.specs.Prelude.{◌≡◌, MatchOption, None, Some, length, slice_index_or};
ghost use Rattle.pv_inline.specs.Blocks.{code_in, code_at, codes_in};

use pv_flow::{Automaton, Parts};

/// Blocks, of which some have no code: automata, or parts of which nothing is known.
#[derive(Clone, Copy)]
pub(crate) enum Blocks<'a> {
    Automata(&'a [Option<Automaton>]),
    Codes(&'a [Option<Parts>]),
}

/// The parts of the automaton of this number, if there is one.
fn automaton_at(blocks: &[Option<Automaton>], block: u32) -> Option<&Parts>
    ensures { MatchOption result (code_in (slice_index_or blocks.now block None) ≡ None)
        (λ p. code_in (slice_index_or blocks.now block None) ≡ Some p.now) }
{
    match blocks.get(block as usize) {
        Some(Some(automaton)) => Some(automaton.parts()),
        _ => None,
    }
}

/// The parts of this number, if there are some.
fn parts_at(codes: &[Option<Parts>], block: u32) -> Option<&Parts>
    ensures { MatchOption result (code_at codes.now block ≡ None) (λ p. code_at codes.now block ≡ Some p.now) }
{
    match codes.get(block as usize) {
        Some(Some(parts)) => Some(parts),
        _ => None,
    }
}

impl<'a> Blocks<'a> {
    /// How many blocks there are.
    #[tactic(auto, using(crate::proofs::Seeing::long))]
    pub fn count(&self) -> usize
        ensures { result ≡ length (codes_in self.now) }
    {
        match *self {
            Blocks::Automata(blocks) => blocks.len(),
            Blocks::Codes(codes) => codes.len(),
        }
    }

    /// The parts of the block of this number, if it has code.
    #[tactic(auto, using(crate::proofs::Seeing::at_codes))]
    pub fn at(&self, block: u32) -> Option<&'a Parts>
        ensures { MatchOption result (code_at (codes_in self.now) block ≡ None) (λ p. code_at (codes_in self.now) block ≡ Some p.now) }
    {
        match *self {
            Blocks::Automata(blocks) => automaton_at(blocks, block),
            Blocks::Codes(codes) => parts_at(codes, block),
        }
    }
}
