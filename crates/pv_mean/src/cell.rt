//! Cells: places for values.

use pv_edge::Text;
use pv_place::Role;
use pv_word::Ty;

/// A place for one value.
#[derive(Drop)]
pub struct Cell {
    /// The path as it is declared; empty where nothing names the cell.
    pub path: Text,
    pub ty: Ty,
    /// The value before the first scan, in the type's range.
    pub start: i128,
    pub role: Role,
    /// The one value that the case allows a parameter, if it binds it.
    pub bound: Option<i128>,
}
