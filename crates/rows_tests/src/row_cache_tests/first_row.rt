// The bytes of the first row of an empty cache, in the piece of its segment.
use super::trial::Trial;
use raw_range::Piece;
use row_cache::Put;
use std::alloc::{AllocError, Global};
use std::test::Fail;

// The descriptor, the header with no links, the key `a`, the value `abc`, and zeros up to the size.
const OBJECT: [u8; 48] = [
    1, 1, 0, 0, 0x30, 0, 0, 0, 0, 0, 0, 0, 1, 0, 0, 0, 1, 0, 3, 0, 0, 0, 0, 0, 0xff, 0xff, 0xff,
    0xff, 0xff, 0xff, 0xff, 0xff, 0xff, 0xff, 0xff, 0xff, 0xff, 0xff, 0xff, 0xff, 0x61, 0x61, 0x62,
    0x63, 0, 0, 0, 0,
];

// Whether the piece begins with the object. A cache that gives a piece up writes nothing in it.
fn begins_with_object(piece: &Piece) -> bool {
    piece.bytes().starts_with(OBJECT.as_slice())
}

// Whether the first segment's piece, the last one that the cache gives up, begins with the object.
fn gives_object(trial: &mut Trial) -> bool {
    for _ in 0..4 {
        let Some(piece) = trial.give_up() else {
            return false;
        };
        if piece.owner() == 0 {
            return begins_with_object(&piece);
        }
    }
    false
}

// What the put of the first row answers, whether its value is read as it was put, and whether the piece of its segment
// begins with the object.
fn put_first(trial: &mut Trial) -> (Option<Put>, bool, bool) {
    let put = trial.put(b"a", b"abc", 1);
    let value = trial.value_of(b"a") == Some(b"abc");
    (put, value, gives_object(trial))
}

fn first_row(alloc: Global) -> Result<(Option<Put>, bool, bool), AllocError> {
    let mut trial = Trial::new(alloc, 11)?;
    let first = put_first(&mut trial);
    drop(trial);
    Ok(first)
}

#[test]
fn the_first_row_has_48_bytes(rt: HostRuntime) -> Result<(), Fail> {
    assert_eq!(rt; first_row(rt.alloc())?, (Some(Put::Stored), true, true));
    Ok(())
}
