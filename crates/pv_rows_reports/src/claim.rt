//! What a row claims, and the verdict that it is.
use pv_cert::Query;
use pv_claims::{Claim, Ending, Trace};
use pv_report::Verdict;
use pv_stretch::{Stretch, StretchEnd};

/// The first word of a text, and what follows it.
fn cut(text: &str) -> (&str, &str) {
    text.split_once(' ').unwrap_or((text, ""))
}

fn number(text: &str) -> u32 {
    text.parse::<u32>().unwrap_or(0)
}

/// The claim that a word and a number say; none where the row claims nothing.
fn claim_of(word: &str, n: u32) -> Option<Claim> {
    match word {
        "satisfied" => Some(Claim::Satisfied(n)),
        "unreachable" => Some(Claim::Unreachable(n)),
        "violated" => Some(Claim::Violated(n)),
        "trapped" => Some(Claim::Trapped(n)),
        "reached" => Some(Claim::Reached(n)),
        "depth" => Some(Claim::Depth(n)),
        "loop" => Some(Claim::Loop(n)),
        "lemmas" => Some(Claim::Lemmas(n)),
        "region" => Some(Claim::Region(u64::from(n))),
        _ => None,
    }
}

/// The query of a word and a number, which lemmas and region name.
fn query_of(text: &str) -> Option<Query> {
    let (word, n) = cut(text);
    match word {
        "base" => Some(Query::Base(number(n))),
        "step" => Some(Query::Step(number(n))),
        _ => None,
    }
}

/// How the stretch's last scan fails.
fn ending_of(stretch: &Stretch) -> Option<Ending> {
    match stretch.ending {
        Some(StretchEnd::Fails(ending)) => Some(ending),
        Some(StretchEnd::Stopped(_, _)) | None => None,
    }
}

/// The verdict that these words claim of the trace and its stretch.
pub fn verdict_of(words: &str, trace: Trace, stretch: &Stretch) -> Option<Verdict> {
    let (word, more) = cut(words);
    let (n, query) = cut(more);
    match claim_of(word, number(n)) {
        Some(claim) => Some(Verdict {
            claim,
            trace: Some(trace),
            ending: ending_of(stretch),
            query: query_of(query),
        }),
        None => None,
    }
}
