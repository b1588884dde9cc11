//! Toggles with inputs that they ignore, one and two of which are left out.
use crate::without::without_input;
use pv_machine::{Machine, Reduction, then};
use std::test::Fail;

#[test]
fn inputs_are_left_out(rt: HostRuntime) -> Result<(), Fail> {
    let alloc = rt.alloc();
    let one = without_input(alloc, 0, 0);
    assert_eq!(rt; one.pull(&[])?.as_slice(), [0].as_slice());
    assert_eq!(rt; one.embed(&[1])?.as_slice(), [1].as_slice());
    // of three inputs that of number 1, and then of the two that are left that of number 0
    let both = then(without_input(alloc, 2, 1), without_input(alloc, 1, 0));
    assert_eq!(rt; both.pull(&[7])?.as_slice(), [0, 0, 7].as_slice());
    assert_eq!(rt; both.source().input_len(), 3);
    assert!(rt; both.exact());
    Ok(())
}
