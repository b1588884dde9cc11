//! How a region lies in its words: the first links of the literals' lists; the literals of the clauses; for each
//! lemma the number of its literals, these and its hints; words that aren't in use; and from the back three words
//! for each clause and lemma, the place at which it begins and the links of its two slots.
ghost use Rattle.std.specs.Prelude.{◌≡◌, ℕ, ◌+◌, ◌-◌, ◌*◌, ◌<◌, ◌≤◌, ◌⊎◌, length, slice_index, IfSome};
ghost use Rattle.std.specs.List.{between};
ghost use Rattle.pv_region.specs.Links.{record_at, link_at, link_before, watch_of};
ghost use Rattle.pv_region.specs.Layout.{lemma_in, start_in, end_at, FitsLemma};
ghost use Rattle.pv_region.specs.Writes.{Writes, Puts, HasLink, linked, unlinked};

use crate::watch::{Watch, code_of, watch_at};

/// Where the record of a clause or lemma begins.
fn record_at(words: &[u32], id: u32) -> usize
    requires { 3 * id ≤ length words.now }
    ensures { result ≡ record_at words.now id }
{
    words.len() - 3 * id as usize
}

/// Where the link of a slot stands.
pub(crate) fn link_at(words: &[u32], watch: Watch) -> usize
    requires id { 3 * watch.id ≤ length words.now }
    ensures { result ≡ link_at words.now watch }
{
    record_at(words, watch.id) + 1 + watch.slot as usize
}

/// Where the link stands that leads to the entry behind this one, or to the first one, in the list of a literal.
pub(crate) fn link_before(words: &[u32], lit: u32, before: Option<Watch>) -> usize
    requires lit { 2 ≤ lit }
    requires inside { IfSome before (λ watch. 3 * watch.id ≤ length words.now) }
    ensures { result ≡ link_before words.now lit before }
{
    match before {
        None => lit as usize - 2,
        Some(watch) => link_at(words, watch),
    }
}

/// Where a clause or lemma begins.
fn start_of(words: &[u32], id: u32) -> usize
    requires from_one { 0 < id }
    requires id { 3 * id ≤ length words.now }
    ensures { result ≡ start_in words.now id }
{
    words[record_at(words, id)] as usize
}

/// Where a clause or lemma ends: where the next one begins, or at `end` where it is the last.
fn end_of(words: &[u32], id: u32, last: u32, end: usize) -> usize
    requires id { id ≤ last }
    requires last { 3 * last ≤ length words.now }
    ensures { result ≡ end_at words.now end last id }
{
    if id == last {
        return end;
    }
    start_of(words, id + 1)
}

/// The literals of a clause, of which the last one has the number `last` and ends at `end`.
pub(crate) fn clause_at(words: &[u32], id: u32, last: u32, end: usize) -> &[u32]
    requires from_one { 0 < id }
    requires id { id ≤ last }
    requires last { 3 * last ≤ length words.now }
    requires fits { start_in words.now id ≤ end_at words.now end last id }
    requires inside { end_at words.now end last id ≤ length words.now }
    ensures { result.now ≡ between (start_in words.now id) (end_at words.now end last id) words.now }
{
    let start = start_of(words, id);
    let end = end_of(words, id, last, end);
    &words[start..end]
}

/// The literals of a lemma.
pub(crate) fn lits_at(words: &[u32], id: u32) -> &[u32]
    requires from_one { 0 < id }
    requires id { 3 * id ≤ length words.now }
    requires fits { FitsLemma words.now (start_in words.now id) (length words.now) }
    ensures { (end : ℕ) → result.now ≡ (lemma_in words.now (start_in words.now id) end).lits }
{
    let start = start_of(words, id);
    let count = words[start] as usize;
    &words[start + 1..start + 1 + count]
}

/// The hints of a lemma, of which the last one has the number `last` and ends at `end`.
pub(crate) fn hints_at(words: &[u32], id: u32, last: u32, end: usize) -> &[u32]
    requires from_one { 0 < id }
    requires id { id ≤ last }
    requires last { 3 * last ≤ length words.now }
    requires fits { FitsLemma words.now (start_in words.now id) (end_at words.now end last id) }
    requires inside { end_at words.now end last id ≤ length words.now }
    ensures { result.now ≡ (lemma_in words.now (start_in words.now id) (end_at words.now end last id)).hints }
{
    let start = start_of(words, id);
    let count = words[start] as usize;
    let end = end_of(words, id, last, end);
    &words[start + 1 + count..end]
}

/// Copies words to a place.
fn copy_to(words: &mut [u32], at: usize, part: &[u32])
    requires { at + length part.now ≤ length words.old }
    ensures { Writes at part.now words.old words.new }
{
    words[at..at + part.len()].copy_from_slice(part);
}

/// Puts a clause at `end`, as number `id`.
pub(crate) fn write_clause(words: &mut [u32], end: usize, id: u32, lits: &[u32])
    requires from_one { 0 < id }
    requires room { end + length lits.now + 3 * id ≤ length words.old }
    requires small { length words.old ≤ 250000000 }
    ensures put { Puts end id words.old words.new }
    ensures lits { between end (end + length lits.now) words.new ≡ lits.now }
{
    copy_to(words, end, lits);
    let record = record_at(words, id);
    words[record] = end as u32;
}

/// Puts a lemma at `end`, as number `id`.
pub(crate) fn write_lemma(words: &mut [u32], end: usize, id: u32, lits: &[u32], hints: &[u32])
    requires from_one { 0 < id }
    requires room { end + 1 + length lits.now + length hints.now + 3 * id ≤ length words.old }
    requires small { length words.old ≤ 250000000 }
    ensures put { Puts end id words.old words.new }
    ensures lemma { lemma_in words.new end (end + 1 + length lits.now + length hints.now)
        ≡ record { lits = lits.now; hints = hints.now } }
    ensures fits { slice_index words.new end ≡ length lits.now }
{
    words[end] = lits.len() as u32;
    copy_to(words, end + 1, lits);
    copy_to(words, end + 1 + lits.len(), hints);
    let record = record_at(words, id);
    words[record] = end as u32;
}

/// Puts a watch in front of the list whose first link stands at `head`.
pub(crate) fn link_in(words: &mut [u32], head: usize, watch: Watch)
    requires head { head < length words.old }
    requires from_one { 0 < watch.id }
    requires id { 3 * watch.id ≤ length words.old }
    requires slot { watch.slot < 2 }
    requires small { length words.old ≤ 250000000 }
    ensures { words.new ≡ linked words.old head watch }
{
    let link = link_at(words, watch);
    words[link] = words[head];
    words[head] = code_of(watch);
}

/// Takes out the watch to which the link at a place leads.
pub(crate) fn take_out(words: &mut [u32], at: usize)
    requires at { at < length words.old }
    requires some { 0 < slice_index words.old at }
    requires slot { HasLink words.old (watch_of (slice_index words.old at)) }
    ensures { words.new ≡ unlinked words.old at }
{
    if let Some(gone) = watch_at(words[at]) {
        words[at] = words[link_at(words, gone)];
    }
}
