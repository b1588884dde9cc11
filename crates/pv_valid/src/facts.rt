//! What is known of a case when certificates are judged.
ghost use Rattle.std.specs.Prelude.{◌≡◌, ℤ, List};

use std::marker::Model;

/// The least and the greatest value of each of some cells, in the order of the cells.
#[derive(Drop)]
pub struct CellRanges {
    items: Vec<(i128, i128)>,
}

impl Model for CellRanges {
    ghost Value = { List (ℤ × ℤ) };

    ghost view = { λ r. r.items.items };
}

impl CellRanges {
    /// These ranges, in the memory that they lie in.
    pub fn from_vec(items: Vec<(i128, i128)>) -> Self
        ensures { result ≡ items.items }
    {
        CellRanges { items }
    }

    /// The ranges in order.
    pub fn as_slice(&self) -> &[(i128, i128)]
        ensures { result.now ≡ self.now }
    {
        self.items.as_slice()
    }
}

/// What is known of a case when certificates are judged. A range is the least and the greatest value of a cell.
#[derive(Drop)]
pub struct Facts {
    /// Whether the pattern asks for a goal that is to be reached.
    pub goal: bool,
    /// Whether the pattern is one over two scans, which leave a mark for each other.
    pub looks_back: bool,
    /// The number of the last base and the last step query, at most 64.
    pub depth: u32,
    /// How many lemmas may be learned for a query.
    pub lemmas: u32,
    /// The words that a query's variables, clauses and lemmas may take.
    pub words: u64,
    /// The ranges of the parameters that no binding gives a value, in the order of the table.
    pub params: CellRanges,
    /// The ranges of the input cells, in the order of the table.
    pub input: CellRanges,
    /// The ranges of the kept cells and the parameters, in the order of the table; that of a bound parameter is its value alone.
    pub image: CellRanges,
}
