//! Numbers of 32 bits.
ghost use Rattle.std.specs.Prelude.{◌≡◌, ◌+◌, ◌≤◌, slice_index_or, slice_set, IfOk, OnOk, IfErr};
ghost use Rattle.pv_call_tables.specs.Numbers.{raised};
ghost use Rattle.pv_call_tables.specs.Wanted.{MOST, IsBeyond, IsMemory};

use crate::fault::Wanting;

/// The greatest number.
const GREATEST: usize = 4_294_967_295;

/// The sum; [`Wanting::Numbers`] exactly where it has more than 32 bits.
pub fn add(a: u32, b: u32) -> Result<u32, Wanting>
    ensures sum { IfOk result (λ n. n ≡ a + b) }
    ensures large { IfErr result (IsBeyond (a + b)) }
{
    match a.checked_add(b) {
        Some(n) => Ok(n),
        None => Err(Wanting::Numbers),
    }
}

/// The number; [`Wanting::Numbers`] exactly where it has more than 32 bits.
pub fn number_of(n: usize) -> Result<u32, Wanting>
    ensures number { IfOk result (λ m. m ≡ n) }
    ensures fits { OnOk result (n ≤ 4294967295) }
    ensures large { IfErr result (IsBeyond n) }
{
    if n > GREATEST {
        Err(Wanting::Numbers)
    } else {
        Ok(n as u32)
    }
}

/// The number at an index, and 0 past the end.
pub fn number_at(numbers: &[u32], index: usize) -> u32
    ensures { result ≡ slice_index_or numbers.now index 0 }
{
    if index < numbers.len() {
        numbers[index]
    } else {
        0
    }
}

/// Sets the number at an index, if there is one.
fn set_at(numbers: &mut [u32], index: usize, n: u32)
    ensures { numbers.new ≡ slice_set numbers.old index n }
{
    if index < numbers.len() {
        numbers[index] = n;
    }
}

/// One more at an index, if there is one.
pub(crate) fn raise_at(numbers: &mut [u32], index: usize) -> Result<(), Wanting>
    ensures raised { IfOk result (λ _. numbers.new ≡ raised numbers.old index) }
    ensures short { slice_index_or numbers.old index 0 + 1 ≤ MOST → IfErr result IsMemory }
{
    let n = add(number_at(numbers, index), 1)?;
    set_at(numbers, index, n);
    Ok(())
}
