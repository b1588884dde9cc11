//! Places in sources.

/// A place in a source. A place comes before another where its source does, and in one source
/// where fewer bytes stand before it.
#[derive(Clone, Copy, PartialEq, Eq, PartialOrd, Ord, Debug)]
pub struct Place {
    /// The number of the source, from 0 in the order of the case.
    pub file: u32,
    /// The number of bytes of the source before the place.
    pub offset: u32,
}
