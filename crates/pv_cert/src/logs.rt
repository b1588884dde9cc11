//! The lines of a log.
ghost use Rattle.std.specs.Prelude.{◌≡◌, ℕ, List, ◌∷◌, ◌++◌, map, IfOk, IfErr, MatchOption};
ghost use Rattle.pv_log.specs.declared.line.Line.{Line};
ghost use Rattle.pv_log.specs.LineText.{line_text, HasText, Spells};
ghost use Rattle.pv_claims.specs.Lines.{HasMany, StopsAt, text_of_lines};

use pv_claims::{Stop, cut_line};
use pv_log::{Line, Log, LratFault, read_line};
use std::alloc::{AllocError, Global};

/// The line of a log, if this is one.
fn line_in(alloc: Global, text: &[u8]) -> Result<Option<Line>, AllocError>
    ensures { IfOk result (λ line. MatchOption line
        ((l : Line) → Spells text.now l → ⊥) (λ l. Spells text.now l)) }
{
    match read_line(alloc, text) {
        Ok(line) => Ok(Some(line)),
        Err(LratFault::NotLrat { .. }) => Ok(None),
        Err(LratFault::NoMemory) => Err(AllocError),
    }
}

/// The line of a log that comes first, and what follows that.
pub(crate) fn lemma_line(alloc: Global, text: &[u8]) -> Result<Option<(Line, &[u8])>, AllocError>
    ensures { IfOk result (λ found. MatchOption found
        ((other : Line) (after : List ℕ) → HasText other
        → text.now ≡ line_text other ++ 10 ∷ after → ⊥)
        (λ cut. HasText cut.0 × (text.now ≡ line_text cut.0 ++ 10 ∷ cut.1.now))) }
{
    let Some((line, after)) = cut_line(text) else {
        return Ok(None);
    };
    match line_in(alloc, line)? {
        Some(lemma) => Ok(Some((lemma, after))),
        None => Ok(None),
    }
}

/// So many lines of a log, and what follows them.
pub(crate) fn log_lines(alloc: Global, count: u32, text: &[u8]) -> Result<(Log, &[u8]), Stop>
    ensures ok { IfOk result (λ cut. HasMany Line HasText count cut.0
        × (text.now ≡ text_of_lines (map line_text cut.0) ++ cut.1.now)) }
    ensures stuck { IfErr result
        (StopsAt (List Line) (HasMany Line HasText count) (map line_text) text.now) }
{
    let mut log = Log::new(alloc);
    let mut rest = text;
    let mut left = count;
    while left > 0 {
        let Some((line, after)) = lemma_line(alloc, rest)? else {
            return Err(Stop::Left(rest.len()));
        };
        log.push(line)?;
        rest = after;
        left -= 1;
    }
    Ok((log, rest))
}
