//! A trace, made and taken apart.
use pv_claims::{CellValues, ScanInputs, Trace};
use std::test::Fail;

#[test]
fn a_trace_has_its_parts(rt: HostRuntime) -> Result<(), Fail> {
    let mut inputs = ScanInputs::new(rt.alloc());
    for value in [-1, 1] {
        let mut scan = CellValues::new(rt.alloc());
        scan.push(0)?;
        scan.push(value)?;
        inputs.push(scan)?;
    }
    let trace = Trace {
        image: None,
        prev: Some(true),
        params: CellValues::new(rt.alloc()),
        inputs,
    };
    let first = match trace.inputs.as_slice().split_first() {
        Some((first, _)) => first.as_slice() == [0, -1].as_slice(),
        None => false,
    };
    let rest = trace.image.is_none() && trace.prev == Some(true);
    let counts = (trace.params.as_slice().len(), trace.inputs.as_slice().len());
    assert_eq!(rt; (first, rest, counts), (true, true, (0, 2)));
    Ok(())
}
