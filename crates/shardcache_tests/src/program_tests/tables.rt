//! Traces of version 2, whose commands name tables.
use super::{Row, first_other, first_unlike, says};
use shardcache::Status;
use std::alloc::{AllocError, Global};
use std::sync::Wait;
use std::test::Fail;
use std::thread::Threads;

const TWO_TABLES: &[u8] = b"version 2\nput 3 a 1\nput 4 a 2\nget 3 a\nscan 4 a 2\n";

const TWO_TABLES_REPORT: &str = "1 stored\n2 stored\n3 value 1\n4 keys a\njournal 0 1 2 3 4\n\
shard 0 rows 2 live 96 lent 0 back 0\n";

const TOO_FEW: &str = "refused line 1 PagesTooFew\n";

const NOT_THIS_VERSION: &str = "refused line 1 Version\n";

#[test]
fn a_key_is_of_its_table_alone(rt: HostRuntime) -> Result<(), Fail> {
    let rows: [(&[u8], &[u8]); 5] = [
        (TWO_TABLES, TWO_TABLES_REPORT.as_bytes()),
        (
            b"version 2\r\nput 3 a 1\r\nput 4 a 2\r\nget 3 a\r\nscan 4 a 2",
            TWO_TABLES_REPORT.as_bytes(),
        ),
        (
            b"version 2\nput 3 a 1\nput 3 b 2\nput 4 c 3\nscan 3 a 5\nscan 4 a 5\nscan 5 a 5\n",
            b"1 stored\n2 stored\n3 stored\n4 keys a b\n5 keys c\n6 keys\njournal 0 1 2 3 4 5 6\n\
            shard 0 rows 3 live 144 lent 0 back 0\n",
        ),
        (
            b"version 2\n# a\n\nput 0 a 1\nerase 7 a\nget 0 a\nput 0 a 2\nerase 0 a\nget 0 a\n",
            b"1 stored\n2 missing\n3 value 1\n4 replaced\n5 erased\n6 missing\njournal 0 1 2 3 4 5 6\n\
            shard 0 rows 0 live 0 lent 0 back 0\n",
        ),
        (
            b"version 2",
            b"journal 0\nshard 0 rows 0 live 0 lent 0 back 0\n",
        ),
    ];
    let words = ["run", "--pages", "1536"];
    let unlike = first_unlike(&rt, rt.alloc(), &words, Status::Done, rows.as_slice())?;
    assert_eq!(rt; unlike, None);
    Ok(())
}

#[test]
fn what_is_no_trace_of_version_2_is_refused(rt: HostRuntime) -> Result<(), Fail> {
    let rows: [(&[u8], &[u8]); 14] = [
        (b"version 2\nput 8 a 1\n", b"refused line 2 Table\n"),
        (b"version 2\nget a\n", b"refused line 2 Table\n"),
        (b"version 2\nget \n", b"refused line 2 Table\n"),
        (b"version 2\nget  a\n", b"refused line 2 Table\n"),
        (b"version 2\nget 12 a\n", b"refused line 2 Table\n"),
        (b"version 2\nget 3\n", b"refused line 2 MissingField\n"),
        (b"version 2\nget\n", b"refused line 2 MissingField\n"),
        (b"version 2\nget 3 \n", b"refused line 2 KeyLength\n"),
        (b"version 2\nget 3 a b\n", b"refused line 2 ExtraField\n"),
        (b"put a 1\nversion 2\n", b"refused line 2 UnknownWord\n"),
        (b"# a\nversion 2\n", b"refused line 2 UnknownWord\n"),
        (b"version 2 \nget 3 a\n", b"refused line 1 UnknownWord\n"),
        (b"version 3\nget 3 a\n", b"refused line 1 UnknownWord\n"),
        (b"version 2\nversion 2\n", b"refused line 2 UnknownWord\n"),
    ];
    let unlike = first_unlike(&rt, rt.alloc(), &["run"], Status::Refused, rows.as_slice())?;
    assert_eq!(rt; unlike, None);
    Ok(())
}

#[test]
fn tables_need_pages_and_shards(rt: HostRuntime) -> Result<(), Fail> {
    let rows: [Row<'_>; 9] = [
        (
            &["run", "--pages", "1536"],
            &[],
            4096,
            Status::Done,
            TWO_TABLES_REPORT,
        ),
        (&["run"], &[], 4096, Status::Done, TWO_TABLES_REPORT),
        (
            &["sim", "--pages", "1536", "--number", "7"],
            &[],
            4096,
            Status::Done,
            TWO_TABLES_REPORT,
        ),
        (
            &["run", "--pages", "1280"],
            &[],
            4096,
            Status::Refused,
            TOO_FEW,
        ),
        (
            &["run", "--pages", "1504"],
            &[],
            4096,
            Status::Refused,
            TOO_FEW,
        ),
        (
            &["sim", "--pages", "1280", "--shards", "2"],
            &[],
            4096,
            Status::Refused,
            TOO_FEW,
        ),
        (&["index"], &[], 4096, Status::Refused, NOT_THIS_VERSION),
        (
            &["dirty", "--pages", "1280"],
            &[],
            4096,
            Status::Refused,
            NOT_THIS_VERSION,
        ),
        (&["dirty"], &[], 10, Status::WriteFault, "refused li"),
    ];
    assert_eq!(rt;
        first_other(&rt, rt.alloc(), TWO_TABLES, rows.as_slice())?,
        None
    );
    Ok(())
}

/// The first of these modes in which a refusal of the trace's own does not come before the others.
fn first_in_other_order<'a, R: Threads + Wait + Sync>(
    rt: &R,
    alloc: Global,
    modes: &[&'a str],
) -> Result<Option<&'a str>, AllocError> {
    for mode in modes {
        let words = [*mode, "--pages", "1280"];
        let refusal = b"refused line 2 Table\n";
        if !says(
            rt,
            alloc,
            &words,
            b"version 2\nput 8 a 1\n",
            Status::Refused,
            refusal,
        )? {
            return Ok(Some(*mode));
        }
    }
    Ok(None)
}

#[test]
fn refusals_of_the_trace_come_first(rt: HostRuntime) -> Result<(), Fail> {
    let modes = ["run", "sim", "index", "dirty"];
    assert_eq!(rt; first_in_other_order(&rt, rt.alloc(), &modes)?, None);
    Ok(())
}

/// A script has no version.
#[test]
fn a_script_of_a_version_is_refused_as_a_word(rt: HostRuntime) -> Result<(), Fail> {
    let refusal = b"refused line 1 UnknownWord\n";
    let input = b"version 2\nset 1 a\n";
    assert!(rt;
        says(
            &rt,
            rt.alloc(),
            &["values"],
            input,
            Status::Refused,
            refusal
        )?
    );
    Ok(())
}
