//! A block at work, as nodes see it.

/// A block at work: the first visible cell of its instance, the values of all visible cells, and of each brief cell of the
/// activation a value or none.
#[derive(Drop)]
pub struct Room<'a> {
    pub first: u32,
    pub visible: &'a [i64],
    pub brief: &'a [Option<i64>],
}
