//! Tests of texts, and of the host's files and output.
use crate::slow::Slow;
use pv_edge::{FileFault, Files, HostFiles, HostOut, Sink, SinkFault, Text, text, write_all};
use std::alloc::Global;
use std::cell::{Cell, RefCell};
use std::collections::HashMap;
use std::fs;
use std::test::Fail;

#[test]
fn texts_compare_by_bytes(rt: HostRuntime) -> Result<(), Fail> {
    let alloc = rt.alloc();
    let short = text(alloc, b"ab")?;
    let long = Text::from(vec![in alloc; 97u8, 98, 0]?);
    let same = short.clone()? == short;
    assert!(rt; short < long && same && long.bytes() == b"ab\0".as_slice());
    let mut counts = HashMap::new(alloc);
    counts.insert(short, 1u8)?;
    let found = (
        counts.get(&text(alloc, b"ab")?).copied(),
        counts.get(&long).copied(),
    );
    assert_eq!(rt; found, (Some(1), None));
    Ok(())
}

#[test]
fn long_texts_are_copied(rt: HostRuntime) -> Result<(), Fail> {
    let mut name = text(rt.alloc(), b"More than 30 bytes, in A vector.")?;
    name.make_ascii_lowercase();
    let copy = name.clone()?;
    assert!(rt; copy.bytes() == b"more than 30 bytes, in a vector.".as_slice());
    Ok(())
}

#[test]
fn the_host_keeps_files(rt: HostRuntime) -> Result<(), Fail> {
    let alloc = rt.alloc();
    let mut files = HostFiles {
        rt: &rt,
        read_faults: 0,
        unread: None,
        write_faults: 0,
    };
    let name = "pv_rows_tests-file";
    let bytes = vec![in alloc; 7u8; 40_000]?;
    files.write(alloc, name, bytes.as_slice())?;
    let same = files.read(alloc, name)? == bytes;
    fs::remove_file(&rt, name)?;
    let missing = matches!(files.read(alloc, name), Err(FileFault::Failed));
    let unwritten = matches!(
        files.write(alloc, "pv_rows_tests-no-folder/file", b""),
        Err(FileFault::Failed)
    );
    let counts = (files.read_faults, files.write_faults);
    assert_eq!(rt;
        (same, missing, unwritten, counts),
        (true, true, true, (1, 1))
    );
    Ok(())
}

#[test]
fn the_host_writes_nothing(rt: HostRuntime) -> Result<(), Fail> {
    let mut out = HostOut { rt: &rt, faults: 0 };
    let taken = out.write(b"")?;
    assert_eq!(rt; (taken, out.faults), (0, 0));
    Ok(())
}

/// A runtime through whose files and output so many bytes go.
fn slow<R>(alloc: Global, rt: R, good: usize) -> Slow<R> {
    Slow {
        rt,
        good,
        calls: Cell::new(0),
        out: RefCell::new(Vec::new(alloc)),
    }
}

// Reading six bytes takes a seventh call, which finds the end.
#[test]
fn files_of_one_byte_a_call(rt: HostRuntime) -> Result<(), Fail> {
    let alloc = rt.alloc();
    let name = "pv_rows_tests-slow-file";
    let mut files = HostFiles {
        rt: slow(alloc, &rt, 7),
        read_faults: 0,
        unread: None,
        write_faults: 0,
    };
    files.write(alloc, name, b"sixsix")?;
    let six = files.read(alloc, name)?.as_slice() == b"sixsix".as_slice();
    files.write(alloc, name, b"seven77")?;
    let unread = matches!(files.read(alloc, name), Err(FileFault::Failed));
    let unwritten = matches!(
        files.write(alloc, name, b"eightttt"),
        Err(FileFault::Failed)
    );
    let left = fs::read(&rt, name)?.as_slice() == b"eighttt".as_slice();
    fs::remove_file(&rt, name)?;
    assert!(rt; six && unread && unwritten && left);
    assert_eq!(rt; (files.read_faults, files.write_faults), (1, 1));
    Ok(())
}

#[test]
fn an_output_of_one_byte_a_call(rt: HostRuntime) -> Result<(), Fail> {
    let mut out = HostOut {
        rt: slow(rt.alloc(), &rt, 4),
        faults: 0,
    };
    let taken = out.write(b"abc")?;
    write_all(&mut out, b"bcd")?;
    assert_eq!(rt; (taken, out.rt.calls.get(), out.faults), (1, 4, 0));
    let failed = matches!(write_all(&mut out, b"ef"), Err(SinkFault::Failed));
    assert_eq!(rt; (failed, out.rt.calls.get(), out.faults), (true, 5, 1));
    assert!(rt; out.rt.out.into_inner().as_slice() == b"abcd".as_slice());
    Ok(())
}
