//! Tests of `row_bytes`: a row's bytes field by field, rows read again, and sizes.
ghost use Rattle.std.specs.Prelude.{◌≡◌, length};
ghost use Rattle.layout.specs.Sizes as sizes;
ghost use Rattle.object_log.specs.Objects.{content_at};
ghost use Rattle.row_bytes.specs.Rows.{IsRow};

use object_log::{NewContent, append_with};
use row_bytes::{
    Links, NO_LINK, key_in, key_of_row, newer_in, number_in, older_in, put_in, row_header,
    row_size, table_in, value_in,
};
use rows::Key;
use std::test::Fail;

#[test]
fn a_header_is_laid_out_field_by_field(rt: HostRuntime) -> Result<(), Fail> {
    let links = Links {
        newer: 0x0000_0002_0000_0030,
        older: NO_LINK,
    };
    let header = row_header(0, 1, links, 5, b"a", b"abc");
    let wanted = [
        0, 0, 0, 0, 1, 0, 0, 0, 1, 0, 3, 0, 5, 0, 0, 0, 0x30, 0, 0, 0, 2, 0, 0, 0, 0xff, 0xff,
        0xff, 0xff, 0xff, 0xff, 0xff, 0xff,
    ];
    assert!(rt; header == wanted);
    Ok(())
}

// A row of 48 bytes as the first object of a segment.
fn lay(segment: &mut [u8])
    requires { length segment.old ≡ sizes.segment }
    ensures row { IsRow (content_at 0 48 segment.new) }
    ensures length { length segment.new ≡ sizes.segment }
{
    let links = Links { newer: 1, older: 2 };
    let header = row_header(7, 300, links, 7, b"key", b"v");
    let content = NewContent {
        header: header.as_slice(),
        first: b"key",
        second: b"v",
    };
    let _used = append_with(segment, 0, 1, 48, content);
}

#[test]
fn a_row_is_read_again(rt: HostRuntime) -> Result<(), Fail> {
    let mut segment = Vec::from_elem(rt.alloc(), 255u8, 131_072)?;
    let segment = segment.as_mut_slice();
    lay(segment);
    let content = &segment[8..48];
    assert_eq!(rt; (number_in(content), put_in(content)), (7, 300));
    assert!(rt; key_in(content) == b"key".as_slice());
    assert_eq!(rt; table_in(content), 7);
    let key = Key {
        table: 7,
        bytes: b"key",
    };
    assert!(rt; key_of_row(content).is_same_as(&key));
    assert!(rt; value_in(content) == b"v".as_slice());
    assert_eq!(rt; (newer_in(content), older_in(content)), (1, 2));
    assert!(rt; content[36..] == [0; 4]);
    Ok(())
}

#[test]
fn sizes_are_whole_multiples_of_eight(rt: HostRuntime) -> Result<(), Fail> {
    let sizes = [
        row_size(b"a", b""),
        row_size(b"a", b"1234567"),
        row_size(b"a", b"12345678"),
    ];
    assert_eq!(rt; sizes, [48, 48, 56]);
    Ok(())
}
