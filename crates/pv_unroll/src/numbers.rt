//! Numbers that never overflow: exact up to a greatest one, which stands for all above it.
ghost use Rattle.std.specs.Prelude.{◌≡◌, suc, ◌+◌, ◌*◌, ◌-◌, min, slice_index_or, slice_set};
ghost use Rattle.pv_unroll.specs.Counts.{capped, raised};

/// The greatest number, which stands for all above it.
pub(crate) const MOST: u64 = 18_446_744_073_709_551_615;

/// The sum.
pub(crate) fn plus(a: u64, b: u64) -> u64
    ensures { result ≡ capped (a + b) }
{
    a.saturating_add(b).min(MOST)
}

/// The product.
pub(crate) fn times(a: u64, b: u64) -> u64
    ensures { result ≡ capped (a * b) }
{
    a.saturating_mul(b).min(MOST)
}

/// The location behind this one; behind the greatest number stands none.
pub(crate) fn after(at: u32) -> u32
    ensures { result ≡ min (suc at) 4294967295 }
{
    at.saturating_add(1)
}

/// The difference, or 0.
pub(crate) fn minus(a: u64, b: u64) -> u64
    ensures { result ≡ a - b }
{
    a.saturating_sub(b)
}

/// The number in 32 bits.
pub(crate) fn narrow(n: u64) -> u32
    ensures { result ≡ min n 4294967295 }
{
    n.min(4_294_967_295) as u32
}

/// The number at an index, and 0 past the end.
pub(crate) fn number_at(numbers: &[u64], index: usize) -> u64
    ensures { result ≡ slice_index_or numbers.now index 0 }
{
    if index < numbers.len() {
        numbers[index]
    } else {
        0
    }
}

/// Sets the number at an index, if there is one.
pub(crate) fn set_at(numbers: &mut [u64], index: usize, n: u64)
    ensures { numbers.new ≡ slice_set numbers.old index n }
{
    if index < numbers.len() {
        numbers[index] = n;
    }
}

/// One more at an index, if there is one.
pub(crate) fn raise_at(numbers: &mut [u64], index: usize)
    ensures { numbers.new ≡ raised numbers.old index }
{
    let n = plus(number_at(numbers, index), 1);
    set_at(numbers, index, n);
}
