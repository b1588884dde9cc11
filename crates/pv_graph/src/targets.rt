//! The nodes to which nodes lead at once.
ghost use Rattle.std.specs.Prelude.{◌≡◌, slice_index_or};
ghost use Rattle.pv_graph.specs.Graphs.{lists_of, next_of};

/// The nodes to which a node leads at once, by their numbers. A number that is no node leads nowhere.
#[derive(Drop)]
pub struct Targets {
    pub list: Vec<usize>,
}

/// The number at an index, and 0 past the end.
pub(crate) fn number_at(numbers: &[usize], index: usize) -> usize
    ensures { result ≡ slice_index_or numbers.now index 0 }
{
    if index < numbers.len() {
        numbers[index]
    } else {
        0
    }
}

/// The nodes to which a node leads at once.
pub(crate) fn targets_of(next: &[Targets], node: usize) -> &[usize]
    ensures { result.now ≡ next_of (lists_of next.now) node }
{
    match next.get(node) {
        Some(targets) => targets.list.as_slice(),
        None => &[],
    }
}
