//! What answers a row.
use crate::formulas::tell_formula;
use pv_rows_form::{Calls, Row, Told};

/// What may stand at the beginning of a line that is no row.
pub const NAMES: [&str; 2] = ["#", "source"];

/// Formulas of patterns over the source's first block.
pub struct Formulas;

impl Calls for Formulas {
    fn answer(&self, row: Row<'_>, told: &mut Told) {
        tell_formula(row, told);
    }
}
