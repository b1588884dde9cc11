//! Values in their ranges.
ghost use Rattle.std.specs.Prelude.{◌≡◌, int_le, ◌&&◌};
ghost use Rattle.pv_valid.specs.Walk.{are_between};

fn is_between(value: i128, bounds: &(i128, i128)) -> bool
    ensures { result ≡ (int_le bounds.now.0 value && int_le value bounds.now.1) }
{
    bounds.0 <= value && value <= bounds.1
}

/// Whether there is one value for each range, in it.
pub(crate) fn are_between(ranges: &[(i128, i128)], values: &[i128]) -> bool
    ensures { result ≡ are_between ranges.now values.now }
{
    if ranges.len() != values.len() {
        return false;
    }
    for n in 0..values.len() {
        if !is_between(values[n], &ranges[n]) {
            return false;
        }
    }
    true
}
