//! Numbers of cells, which never overflow: exact up to the greatest number of cells that a table may have, and one more for any
//! greater number.
ghost use Rattle.std.specs.Prelude.{◌≡◌, ◌+◌, ◌*◌, length};
ghost use Rattle.pv_types.specs.Leaves as leaves;
ghost use Rattle.pv_mean.specs.Counts.{capped};

use pv_types::{MAX_LEAVES, Vars};

/// What stands for any number of cells above [`MAX_LEAVES`], which is the greatest that a table may have.
pub const BEYOND: u32 = 20_001;

const _: () = prove!(BEYOND as usize == MAX_LEAVES + 1);

/// The sum of two numbers of cells.
pub fn sum(a: u32, b: u32) -> u32
    ensures { result ≡ capped (a + b) }
{
    a.saturating_add(b).min(BEYOND)
}

/// The product of two numbers of cells.
pub fn product(a: u32, b: u32) -> u32
    ensures { result ≡ capped (a * b) }
{
    a.saturating_mul(b).min(BEYOND)
}

/// How many whole numbers there are from `low` to `high`.
pub fn count_between(low: &i128, high: &i128) -> u32
    ensures { result ≡ capped (leaves.count_between low.now high.now) }
{
    if *high < *low {
        return 0;
    }
    let Some(span) = high.checked_sub(*low) else {
        return BEYOND;
    };
    if span >= MAX_LEAVES as i128 {
        return BEYOND;
    }
    span as u32 + 1
}

/// How many variables are declared at once.
pub fn count_of(of: &Vars) -> u32
    ensures { result ≡ capped (length of.now.names.items) }
{
    let count = of.names.len();
    if count > MAX_LEAVES {
        return BEYOND;
    }
    count as u32
}
