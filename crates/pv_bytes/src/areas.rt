//! The bytes of the areas that have cells, lent.

/// The numbers of the bytes of each area that have cells, in the order of the table.
#[derive(Clone, Copy)]
pub struct AreaBytes<'p> {
    pub inputs: &'p [u64],
    pub outputs: &'p [u64],
    pub flags: &'p [u64],
}
