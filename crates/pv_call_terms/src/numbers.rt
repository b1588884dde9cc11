//! Numbers of 32 bits: exact up to the greatest, which stands for all above it.
ghost use Rattle.std.specs.Prelude.{◌≡◌, ◌+◌, slice_index_or};
ghost use Rattle.pv_call_terms.specs.Numbers.{narrow};

/// The greatest number, which stands for all above it.
pub(crate) const MOST: u64 = 4_294_967_295;

/// The number, or the greatest.
pub(crate) fn narrow(n: u64) -> u32
    ensures { result ≡ narrow n }
{
    n.min(MOST) as u32
}

/// The sum, or the greatest number.
pub(crate) fn sum(a: u32, b: u32) -> u32
    ensures { result ≡ narrow (a + b) }
{
    narrow(a as u64 + b as u64)
}

/// The number at an index, and 0 past the end.
pub(crate) fn number_at(numbers: &[u32], index: usize) -> u32
    ensures { result ≡ slice_index_or numbers.now index 0 }
{
    if index < numbers.len() {
        numbers[index]
    } else {
        0
    }
}
