//! Requirements at a scan with given values.
ghost use Rattle.std.specs.Prelude.{All, IsTrue};
ghost use Rattle.pv_pattern.specs.Terms.{IsStored};

use crate::trace::{said, values_of};
use pv_pattern::Pattern;
use pv_rows_form::{Row, Told};

/// Whether 64 bits hold each of the values.
fn are_stored(values: &[i128]) -> bool
    ensures { IsTrue result → All IsStored values.now }
{
    values.iter().all(|v| *v >= -9_223_372_036_854_775_808 && *v < 9_223_372_036_854_775_808)
}

/// Whether a requirement holds at a scan with these values, where the scan before left a mark, and which of the first cells it reads.
fn tell_scan(pattern: &Pattern, begin: &[i128], end: &[i128], told: &mut Told) {
    if !are_stored(begin) || !are_stored(end) {
        return;
    }
    told.words(&pattern.judge(Some(true), begin, end));
    for cell in 0..29 {
        if pattern.reads(cell) {
            told.text(" ");
            told.number(i128::from(cell));
        }
    }
}

/// The same with the row's values at the scan's beginning and its end.
pub fn tell_judged(pattern: &Pattern, row: Row<'_>, told: &mut Told) {
    let begin = said(row, "begin", told);
    let end = said(row, "end", told);
    let first = values_of(begin.as_str(), told);
    let last = values_of(end.as_str(), told);
    tell_scan(pattern, first.as_slice(), last.as_slice(), told);
}
