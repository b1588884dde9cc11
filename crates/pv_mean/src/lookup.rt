//! Cells by their paths.
ghost use Rattle.std.specs.Prelude.{◌≡◌, ◌≤◌, length};
ghost use Rattle.pv_mean.specs.Paths.{has_path, most_numbers, number_of_path};

use crate::cell::Cell;

/// The number of the first cell that has this path, without regard to the case of ASCII letters.
/// A table has at most 20,000 cells; of a list with more than 2^32 a number past 32 bits is none.
pub fn find(cells: &[Cell], path: &[u8]) -> Option<u32>
    ensures { length cells.now ≤ most_numbers → result ≡ number_of_path cells.now path.now }
{
    for (n, cell) in cells.iter().enumerate() {
        if is_at(cell, path) {
            return u32::try_from(n).ok();
        }
    }
    None
}

fn is_at(cell: &Cell, path: &[u8]) -> bool
    ensures { result ≡ has_path path.now cell.now }
{
    cell.path.bytes().eq_ignore_ascii_case(path)
}
