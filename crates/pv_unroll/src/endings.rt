//! What each location ends, and what it takes in the text.
ghost use Rattle.std.specs.Prelude.{◌≡◌, IfOk};
ghost use Rattle.pv_unroll.specs.Endings.{ending_at, with_ending, with_traps, with_overs, endings_of, weight_of, weights_of};
ghost use Rattle.pv_unroll.specs.declared.endings.Ending.TheVariants as ending;

use pv_flow::{OverEnd, Parts, TrapEnd};
use pv_place::{Place, TrapKind};
use std::alloc::{AllocError, Global};

/// What a location ends.
#[derive(Clone, Copy)]
pub(crate) enum Ending {
    /// Nothing: a run goes on there.
    Goes,
    Done,
    Trapped(TrapKind, Place),
    Gone(Place),
}

/// What the location ends; a number that names none ends nothing.
pub(crate) fn ending_at(endings: &[Ending], at: u32) -> Ending
    ensures { result ≡ ending_at endings.now at }
{
    let at = at as usize;
    if at < endings.len() {
        endings[at]
    } else {
        Ending::Goes
    }
}

/// Marks the location, if there is one.
fn set_ending(endings: &mut [Ending], at: u32, ending: Ending)
    ensures { endings.new ≡ with_ending endings.old at ending }
{
    let at = at as usize;
    if at < endings.len() {
        endings[at] = ending;
    }
}

/// The first of several traps of one location counts.
fn set_traps(endings: &mut [Ending], traps: &[TrapEnd])
    ensures { endings.new ≡ with_traps endings.old traps.now }
{
    let mut number = traps.len();
    while number > 0 {
        number -= 1;
        let trap = &traps[number];
        set_ending(
            endings,
            trap.location,
            Ending::Trapped(trap.kind, trap.place),
        );
    }
}

fn set_overs(endings: &mut [Ending], overs: &[OverEnd])
    ensures { endings.new ≡ with_overs endings.old overs.now }
{
    let mut number = overs.len();
    while number > 0 {
        number -= 1;
        let over = &overs[number];
        set_ending(endings, over.location, Ending::Gone(over.place));
    }
}

fn set_all(endings: &mut [Ending], parts: &Parts)
    ensures { endings.new ≡ with_ending (with_traps (with_overs endings.old parts.now.overs.items) parts.now.traps.items) parts.now.done ending.Done }
{
    set_overs(endings, parts.overs.as_slice());
    set_traps(endings, parts.traps.as_slice());
    set_ending(endings, parts.done, Ending::Done);
}

/// What each location ends.
pub(crate) fn endings(alloc: Global, parts: &Parts) -> Result<Vec<Ending>, AllocError>
    ensures { IfOk result (λ found. found.items ≡ endings_of parts.now) }
{
    let mut found = vec![in alloc; Ending::Goes; parts.locations as usize]?;
    set_all(&mut found, parts);
    Ok(found)
}

/// 1 for a location that stands in the text.
fn weight(ending: Ending) -> u64
    ensures { result ≡ weight_of ending }
{
    match ending {
        Ending::Goes => 1,
        Ending::Done => 0,
        Ending::Trapped(_, _) => 0,
        Ending::Gone(_) => 1,
    }
}

/// What each location takes in the text.
pub(crate) fn weights(alloc: Global, endings: &[Ending]) -> Result<Vec<u64>, AllocError>
    ensures { IfOk result (λ found. found.items ≡ weights_of endings.now) }
{
    let mut found = Vec::new(alloc);
    for ending in endings {
        found.push(weight(*ending))?;
    }
    Ok(found)
}
