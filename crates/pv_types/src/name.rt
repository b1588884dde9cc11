//! Names of blocks and variables.
//!
//! Two names are the same where their keys are: letter case and quotes play no part, and neither do
//! they in the order of names or in their hashes.
ghost use Rattle.std.specs.Prelude.{◌≡◌, ◌↔◌, IfOk, IsTrue, true, false};
ghost use Rattle.std.specs.Str.{str_to_ascii_lowercase};
ghost use Rattle.pv_types.specs.Names.{between_quotes};

use crate::written::{Written, copy, is_pair, spelled_by, written_of};
use pv_edge::Text;
use std::alloc::{AllocError, Global};
use std::cmp::Ordering;
use std::hash::{Hash, Hasher};
use std::marker::Model;

/// A name, which contracts see as its key, its text as it was written, and whether that was in two
/// words. Two names are the same where their keys are.
#[derive(Drop)]
pub struct Name {
    key: Text,
    written: Written,
}

impl Model for Name {
    ghost use Rattle.pv_types.specs.Names.{NameText};

    ghost Value = { NameText };

    ghost use Rattle.pv_types.specs.Written.{spelled_by, is_pair};

    ghost view = { λ n. record {
      key = n.key;
      spelled = spelled_by n.key n.written;
      paired = is_pair n.written;
    } };
}

impl Name {
    /// The name that is written as this one word.
    pub fn plain(alloc: Global, text: &[u8]) -> Result<Name, AllocError>
        ensures key { IfOk result (λ name. name.key ≡ str_to_ascii_lowercase text.now) }
        ensures spelled { IfOk result (λ name. name.spelled ≡ text.now) }
        ensures paired { IfOk result (λ name. name.paired ≡ false) }
    {
        name_of(alloc, text, text, false)
    }

    /// The numbered name that is written as the two words which this text joins.
    pub fn pair(alloc: Global, text: &[u8]) -> Result<Name, AllocError>
        ensures key { IfOk result (λ name. name.key ≡ str_to_ascii_lowercase text.now) }
        ensures spelled { IfOk result (λ name. name.spelled ≡ text.now) }
        ensures paired { IfOk result (λ name. name.paired ≡ true) }
    {
        name_of(alloc, text, text, true)
    }

    /// The name that is written as this text, whose first and last byte are its quotes.
    pub fn quoted(alloc: Global, text: &[u8]) -> Result<Name, AllocError>
        ensures key { IfOk result (λ name. name.key
            ≡ str_to_ascii_lowercase (between_quotes text.now)) }
        ensures spelled { IfOk result (λ name. name.spelled ≡ text.now) }
        ensures paired { IfOk result (λ name. name.paired ≡ false) }
    {
        name_of(alloc, within_quotes(text), text, false)
    }

    /// The name's text with ASCII letters in lower case, and all other bytes as they stand.
    pub fn key(&self) -> &Text
        ensures { result.now ≡ self.now.key }
    {
        &self.key
    }

    /// The name as it was written: a quoted one with its quotes, a numbered one without the blank
    /// in it.
    pub fn spelled(&self) -> &[u8]
        ensures { result.now ≡ self.now.spelled }
    {
        spelled_by(self.key.bytes(), &self.written)
    }

    /// Whether the name was written as two words, a letter of a kind of block and a number behind
    /// it (`FB 1_0`). Such a name is that block's, whatever its number looks like; names are the
    /// same without a look at this.
    pub fn paired(&self) -> bool
        ensures { result ≡ self.now.paired }
    {
        is_pair(&self.written)
    }

    /// Whether the two names are the same.
    pub fn same(&self, other: &Name) -> bool
        ensures { IsTrue result ↔ (self.now.key ≡ other.now.key) }
    {
        self.key() == other.key()
    }
}

/// The text without its first and its last byte.
fn within_quotes(text: &[u8]) -> &[u8]
    ensures { result.now ≡ between_quotes text.now }
{
    if text.len() < 2 {
        return &text[..0];
    }
    &text[1..text.len() - 1]
}

/// The name of this key that is written as `spelled`, in two words where it is paired.
fn name_of_key(alloc: Global, key: Text, spelled: &[u8], paired: bool) -> Result<Name, AllocError>
    ensures key { IfOk result (λ name. name.key ≡ key) }
    ensures spelled { IfOk result (λ name. name.spelled ≡ spelled.now) }
    ensures paired { IfOk result (λ name. name.paired ≡ paired) }
{
    let written = written_of(alloc, key.bytes(), spelled, paired)?;
    Ok(Name { key, written })
}

/// The name of this text that is written as `spelled`, in two words where it is paired.
fn name_of(alloc: Global, text: &[u8], spelled: &[u8], paired: bool) -> Result<Name, AllocError>
    ensures key { IfOk result (λ name. name.key ≡ str_to_ascii_lowercase text.now) }
    ensures spelled { IfOk result (λ name. name.spelled ≡ spelled.now) }
    ensures paired { IfOk result (λ name. name.paired ≡ paired) }
{
    let mut key = Text::of(alloc, text)?;
    key.make_ascii_lowercase();
    name_of_key(alloc, key, spelled, paired)
}

impl Clone for Name {
    ghost is_clone = { λ name copy. copy ≡ name };

    fn clone(&self) -> Result<Name, AllocError> {
        let key = self.key.clone()?;
        let written = copy(&self.written)?;
        Ok(Name { key, written })
    }
}

impl PartialEq for Name {
    ghost use Rattle.std.specs.Prelude.{bytes_eq};
    ghost use Rattle.std.specs.Cmp.{partial_equiv_from_equiv};
    ghost use Rattle.std.specs.Cmp.Lexicographic.{on_texts_equal};

    ghost eq = { λ a b. bytes_eq a.key b.key };

    ghost laws = { partial_equiv_from_equiv (on_texts_equal (λ name. name.key)) };

    fn eq(&self, other: &Name) -> bool {
        self.key() == other.key()
    }
}

impl Eq for Name {
    ghost use Rattle.std.specs.Cmp.Lexicographic.{on_texts_equal};

    ghost laws = { on_texts_equal (λ name. name.key) };
}

impl PartialOrd for Name {
    ghost use Rattle.std.specs.Prelude.{Some};
    ghost use Rattle.std.specs.Ordering.{nat_cmp};
    ghost use Rattle.std.specs.Cmp.Lexicographic.{slice_cmp, texts_po};

    ghost partial_cmp = { λ a b. Some (slice_cmp nat_cmp a.key b.key) };

    ghost laws = { record {
      antisymm = λ a b. texts_po.antisymm a.key b.key;
      trans = λ a b c. texts_po.trans a.key b.key c.key;
      matches_eq = λ a b. texts_po.matches_eq a.key b.key;
      congr = λ a b c. texts_po.congr a.key b.key c.key;
    } };

    fn partial_cmp(&self, other: &Name) -> Option<Ordering> {
        Some(self.cmp(other))
    }
}

impl Ord for Name {
    ghost use Rattle.std.specs.Prelude.{refl};
    ghost use Rattle.std.specs.Ordering.{nat_cmp};
    ghost use Rattle.std.specs.Cmp.Lexicographic.{slice_cmp, texts_ties, on_texts};

    ghost cmp = { λ a b. slice_cmp nat_cmp a.key b.key };

    ghost total = { on_texts (λ name. name.key) };

    ghost matches_partial_cmp = { λ a b. refl };

    ghost matches_eq = { λ a b. texts_ties a.key b.key };

    fn cmp(&self, other: &Name) -> Ordering {
        self.key().cmp(other.key())
    }
}

impl Hash for Name {
    ghost use Rattle.std.specs.Hash as fed;
    ghost use Rattle.std.proofs.Common.{ap};
    ghost use Rattle.std.proofs.lemmas.Slice.Eq.{bytes_eq-Decides};

    ghost hash_input = { λ name. fed.slice fed.u8 name.key };

    ghost respects_eq = { λ x y same. ap (fed.slice fed.u8)
        ((bytes_eq-Decides x.key y.key).0 same) };

    fn hash<H: Hasher>(&self, state: &mut H) {
        self.key().hash(state);
    }
}
