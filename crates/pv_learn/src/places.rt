//! Sets of places of a trail, by a bit for each. Nothing is claimed of them.
ghost use Rattle.std.specs.Prelude.{◌^◌, ◌<◌};

use std::alloc::{AllocError, Global};

/// A set of places of a trail. The memory is taken when it is made.
#[derive(Drop)]
pub(crate) struct Places {
    words: Vec<u64>,
}

/// The word in which the bit of a place stands.
fn word_of(place: usize) -> usize {
    place / 64
}

/// The bit of a place, in its word.
fn bit_of(place: usize) -> u64 {
    1 << (place % 64)
}

/// The place of the last bit of a word.
fn last_in(word: usize, bits: u64) -> usize {
    word.wrapping_mul(64)
        .wrapping_add(63)
        .wrapping_sub(bits.leading_zeros() as usize)
}

/// The place of the first bit of a word.
fn first_in(word: usize, bits: u64) -> usize {
    word.wrapping_mul(64)
        .wrapping_add(bits.trailing_zeros() as usize)
}

impl Places {
    /// No places, of those below `end`.
    pub(crate) fn new(alloc: Global, end: u32) -> Result<Self, AllocError>
        requires { end < 2 ^ 31 }
    {
        Ok(Places {
            words: vec![in alloc; 0; end as usize / 64 + 1]?,
        })
    }

    /// Takes all places out.
    pub(crate) fn clear(&mut self) {
        for word in self.words.iter_mut() {
            *word = 0;
        }
    }

    /// Whether a place is in the set.
    pub(crate) fn has(&self, place: usize) -> bool {
        let at = word_of(place);
        at < self.words.len() && self.words[at] & bit_of(place) != 0
    }

    /// Puts a place in.
    pub(crate) fn put(&mut self, place: usize) {
        let at = word_of(place);
        if at < self.words.len() {
            self.words[at] |= bit_of(place);
        }
    }

    /// The bits of a word, or none.
    fn bits(&self, word: usize) -> u64 {
        if word < self.words.len() {
            self.words[word]
        } else {
            0
        }
    }

    /// The last place before `end`.
    pub(crate) fn last_before(&self, end: usize) -> Option<usize> {
        let word = word_of(end);
        let part = self.bits(word) & bit_of(end).wrapping_sub(1);
        if part != 0 {
            return Some(last_in(word, part));
        }
        for n in 0..word {
            let earlier = word - 1 - n;
            let bits = self.bits(earlier);
            if bits != 0 {
                return Some(last_in(earlier, bits));
            }
        }
        None
    }

    /// The first place from `start` on.
    pub(crate) fn first_from(&self, start: usize) -> Option<usize> {
        let word = word_of(start);
        let part = self.bits(word) & !bit_of(start).wrapping_sub(1);
        if part != 0 {
            return Some(first_in(word, part));
        }
        for later in word..self.words.len() {
            let bits = self.words[later];
            if bits != 0 && later != word {
                return Some(first_in(later, bits));
            }
        }
        None
    }
}
