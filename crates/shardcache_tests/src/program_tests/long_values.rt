//! Long values, which are put, replaced and read.
use super::says;
use shardcache::Status;
use std::alloc::{AllocError, Global};
use std::test::Fail;

/// Appends a line that ends with 200 of a letter.
fn add_line(
    alloc: Global,
    lines: &mut Vec<u8>,
    front: &[u8],
    letter: u8,
) -> Result<(), AllocError> {
    lines.extend_from_slice(front)?;
    lines.extend_from_slice(vec![in alloc; letter; 200]?.as_slice())?;
    lines.push(b'\n')?;
    Ok(())
}

#[test]
fn a_get_reads_the_value_that_was_put_last(rt: HostRuntime) -> Result<(), Fail> {
    let mut input = Vec::new(rt.alloc());
    add_line(rt.alloc(), &mut input, b"put a ", b'x')?;
    add_line(rt.alloc(), &mut input, b"put a ", b'y')?;
    add_line(rt.alloc(), &mut input, b"get a\nput b ", b'x')?;
    input.extend_from_slice(b"get b\nget a\n")?;
    let mut report = Vec::new(rt.alloc());
    add_line(
        rt.alloc(),
        &mut report,
        b"1 stored\n2 replaced\n3 value ",
        b'y',
    )?;
    add_line(rt.alloc(), &mut report, b"4 stored\n5 value ", b'x')?;
    add_line(rt.alloc(), &mut report, b"6 value ", b'y')?;
    report.extend_from_slice(b"journal 0 1 2 3 4 5 6\nshard 0 rows 2 live 496 lent 0 back 0\n")?;
    let words = ["run", "--pages", "1280"];
    assert!(rt; says(&rt, rt.alloc(), &words, &input, Status::Done, &report)?);
    Ok(())
}
