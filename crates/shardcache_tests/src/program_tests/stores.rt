//! The modes that keep a store of their own: puts that stay until they are flushed, numbered keys, and long values.
use super::evictions::{Part, says_with_few_pages};
use super::{answer, first_unlike, says};
use shardcache::Status;
use std::test::Fail;

#[test]
fn puts_stay_until_they_are_flushed(rt: HostRuntime) -> Result<(), Fail> {
    let rows: [(&[u8], &[u8]); 4] = [
        (b"", b"dirty 0\n"),
        (
            b"put a 1\nget a\nput a 2\nget a\n",
            b"2 dirty 1\n4 dirty 2\nput a 1\nput a 2\ndirty 2\n",
        ),
        (
            b"get a\nput a \nget a\nerase a\nscan a 1\nget a\n",
            b"1 clean\n3 dirty \n4 passed\n5 passed\n6 dirty \nput a \ndirty 1\n",
        ),
        (
            b"# t\r\n\r\nput b 2\r\nput a 1\r\nget b",
            b"3 dirty 2\nput b 2\nput a 1\ndirty 2\n",
        ),
    ];
    let unlike = first_unlike(&rt, rt.alloc(), &["dirty"], Status::Done, rows.as_slice())?;
    assert_eq!(rt; unlike, None);
    Ok(())
}

#[test]
fn a_front_of_the_text_is_written_to_a_sink_that_fails(rt: HostRuntime) -> Result<(), Fail> {
    let rows: [(&str, &[u8], &[u8]); 3] = [
        (
            "dirty",
            b"put a 1\nget a\nput a 2\n",
            b"2 dirty 1\nput a 1\nput a 2\ndirty 2\n",
        ),
        (
            "index",
            b"put b 1\nget b\nscan a 2\n",
            b"1 stored\n2 at 1\n3 keys b\nindex 1\n",
        ),
        (
            "values",
            b"set 1 a\nread 1 0 1\n",
            b"1 set\n2 value 1 a\nvalues 1 live 40\n",
        ),
    ];
    for (mode, input, text) in rows {
        for room in 0..text.len() {
            let (status, front) = answer(&rt, rt.alloc(), &[mode], input, &[], room)?;
            assert!(rt; status == Status::WriteFault && Some(front.as_slice()) == text.get(..room));
        }
    }
    Ok(())
}

/// A put of these letters has 12,048 bytes; 374 of them are live at once, and the next one is a flush of the oldest.
#[test]
fn the_oldest_put_is_flushed_for_the_375th(rt: HostRuntime) -> Result<(), Fail> {
    let lines = [Part::Puts(1, 375), Part::Text(b"get k001\nget k375\n")];
    let text = [
        Part::Puts(1, 1),
        Part::Text(b"376 clean\n377 dirty "),
        Part::Letters,
        Part::Text(b"\n"),
        Part::Puts(2, 375),
        Part::Text(b"dirty 375\n"),
    ];
    assert!(rt; says_with_few_pages(&rt, rt.alloc(), "dirty", &lines, &text)?);
    Ok(())
}

#[test]
fn keys_are_numbered_in_an_index(rt: HostRuntime) -> Result<(), Fail> {
    let rows: [(&[u8], &[u8]); 3] = [
        (b"", b"index 0\n"),
        (
            b"put b 1\nput a 2\nget b\nscan a 5\nerase a\nget a\n",
            b"1 stored\n2 stored\n3 at 1\n4 keys a b\n5 erased\n6 missing\nindex 1\n",
        ),
        (
            b"get a\nerase a\nscan a 1\nput a x\nput a y\nget a\nput \xff 1\nput aa 2\nscan a 1\nscan b 32",
            b"1 missing\n2 missing\n3 keys\n4 stored\n5 replaced\n6 at 5\n7 stored\n8 stored\n9 keys a\n10 keys \xff\nindex 3\n",
        ),
    ];
    let unlike = first_unlike(&rt, rt.alloc(), &["index"], Status::Done, rows.as_slice())?;
    assert_eq!(rt; unlike, None);
    Ok(())
}

/// Of 40 segments 38 are dense, which hold 1,027 nodes: nine fewer, each with seven keys, are 7,126.
#[test]
fn the_7127th_key_finds_no_room(rt: HostRuntime) -> Result<(), Fail> {
    let text = [
        Part::Answers(1, 7126, "stored"),
        Part::Answers(7127, 7127, "full"),
        Part::Text(b"index 7126\n"),
    ];
    assert!(rt; says_with_few_pages(&rt, rt.alloc(), "index", &[Part::Keys(1, 7127)], &text)?);
    Ok(())
}

#[test]
fn a_script_is_run_on_long_values(rt: HostRuntime) -> Result<(), Fail> {
    let rows: [(&[u8], &[u8]); 3] = [
        (b"", b"values 0 live 0\n"),
        (
            b"set 1 hello\nread 1 1 3\ndrop 1\nread 1 0 4\n",
            b"1 set\n2 value 5 ell\n3 dropped\n4 missing\nvalues 0 live 0\n",
        ),
        (
            b"set 0 \nread 0 0 64\nread 0 7 1\nset 0 abc\nread 0 1 64\ndrop 7\n",
            b"1 set\n2 value 0 \n3 value 0 \n4 set\n5 value 3 bc\n6 missing\nvalues 1 live 40\n",
        ),
    ];
    let unlike = first_unlike(&rt, rt.alloc(), &["values"], Status::Done, rows.as_slice())?;
    assert_eq!(rt; unlike, None);
    Ok(())
}

/// A value of 1,048,576 bytes has 1,051,328 in segments, of which 40 surely hold four.
#[test]
fn the_fifth_long_value_finds_no_room(rt: HostRuntime) -> Result<(), Fail> {
    let lines = [
        Part::Long(1),
        Part::Long(2),
        Part::Long(3),
        Part::Long(4),
        Part::Long(5),
    ];
    let text = [Part::Text(b"1 set\n2 set\n3 set\n4 set\n5 full\nvalues 4 live 4205312\n")];
    assert!(rt; says_with_few_pages(&rt, rt.alloc(), "values", &lines, &text)?);
    Ok(())
}

#[test]
fn what_a_store_does_not_read_is_refused(rt: HostRuntime) -> Result<(), Fail> {
    let rows: [(&str, &[u8], Status, &[u8]); 5] = [
        (
            "dirty",
            b"put a 1\nset 1 a\n",
            Status::Refused,
            b"refused line 2 UnknownWord\n",
        ),
        (
            "index",
            b"put a 1\nget\n",
            Status::Refused,
            b"refused line 2 MissingField\n",
        ),
        (
            "values",
            b"set 1 a\nput a 1\n",
            Status::Refused,
            b"refused line 2 UnknownWord\n",
        ),
        (
            "values",
            b"set 1000 a\n",
            Status::Refused,
            b"refused line 1 Number\n",
        ),
        (
            "values",
            b"read 1 0\n",
            Status::Refused,
            b"refused line 1 MissingField\n",
        ),
    ];
    for (mode, input, status, text) in rows {
        assert!(rt; says(&rt, rt.alloc(), &[mode], input, status, text)?);
    }
    Ok(())
}
