//! What an operand names.

use pv_access::Move;
use pv_resolve::Begin;

/// Where it begins with the lowest indexes, and the indexes that move it, the outermost first.
#[derive(Drop)]
pub struct Access<'p> {
    pub begin: Begin<'p>,
    pub moves: Vec<Move>,
}
