// The links of three rows, written out: of a dead row they stay as they were when it was erased.
use super::moved::{erase_row, fill};
use super::trial::Trial;
use raw_range::Piece;
use row_cache::{Compacted, Put};
use std::alloc::{AllocError, Global};
use std::test::Fail;

// What is done with the rows of `a`, `b` and `c`, which were put in this order.
#[derive(Clone, Copy)]
enum Deed {
    // The row of `a` is got.
    Get,
    // So it is, and the row of `c` is erased.
    Erase,
    // Compaction moves the three to another segment.
    Move,
}

// A row, the segment in which it stands then, the offset of its object there, and its links: to the next more recently
// used row, and to the next less recently used one.
#[derive(Clone, Copy)]
struct Wanted {
    deed: Deed,
    key: [u8; 1],
    segment: u32,
    at: usize,
    links: [u8; 16],
}

const NONE: u8 = 0xff;

const WANTED: [Wanted; 8] = [
    Wanted {
        deed: Deed::Get,
        key: *b"a",
        segment: 0,
        at: 0,
        links: [
            NONE, NONE, NONE, NONE, NONE, NONE, NONE, NONE, 96, 0, 0, 0, 0, 0, 0, 0,
        ],
    },
    Wanted {
        deed: Deed::Get,
        key: *b"c",
        segment: 0,
        at: 96,
        links: [0, 0, 0, 0, 0, 0, 0, 0, 48, 0, 0, 0, 0, 0, 0, 0],
    },
    Wanted {
        deed: Deed::Get,
        key: *b"b",
        segment: 0,
        at: 48,
        links: [
            96, 0, 0, 0, 0, 0, 0, 0, NONE, NONE, NONE, NONE, NONE, NONE, NONE, NONE,
        ],
    },
    Wanted {
        deed: Deed::Erase,
        key: *b"a",
        segment: 0,
        at: 0,
        links: [
            NONE, NONE, NONE, NONE, NONE, NONE, NONE, NONE, 48, 0, 0, 0, 0, 0, 0, 0,
        ],
    },
    Wanted {
        deed: Deed::Erase,
        key: *b"b",
        segment: 0,
        at: 48,
        links: [
            0, 0, 0, 0, 0, 0, 0, 0, NONE, NONE, NONE, NONE, NONE, NONE, NONE, NONE,
        ],
    },
    Wanted {
        deed: Deed::Move,
        key: *b"a",
        segment: 2,
        at: 0,
        links: [
            48, 0, 0, 0, 2, 0, 0, 0, NONE, NONE, NONE, NONE, NONE, NONE, NONE, NONE,
        ],
    },
    Wanted {
        deed: Deed::Move,
        key: *b"b",
        segment: 2,
        at: 48,
        links: [96, 0, 0, 0, 2, 0, 0, 0, 0, 0, 0, 0, 2, 0, 0, 0],
    },
    Wanted {
        deed: Deed::Move,
        key: *b"c",
        segment: 2,
        at: 96,
        links: [0, 0, 0, 0, 1, 0, 0, 0, 48, 0, 0, 0, 2, 0, 0, 0],
    },
];

fn put_three(trial: &mut Trial) -> bool {
    trial.put(b"a", b"", 1) == Some(Put::Stored)
        && trial.put(b"b", b"", 2) == Some(Put::Stored)
        && trial.put(b"c", b"", 3) == Some(Put::Stored)
}

// Ten rows of the greatest size fill the segment of the three and go, ten others fill the next one, and the three are moved
// to the segment behind it.
fn move_three(alloc: Global, trial: &mut Trial) -> Result<bool, AllocError> {
    if !fill(alloc, trial, 0)? || !fill(alloc, trial, 10)? {
        return Ok(false);
    }
    for byte in 0..10u8 {
        if !erase_row(alloc, trial, byte)? {
            return Ok(false);
        }
    }
    Ok(trial.compact() == Some(Compacted::Freed))
}

fn do_deed(alloc: Global, trial: &mut Trial, deed: Deed) -> Result<bool, AllocError> {
    match deed {
        Deed::Get => Ok(trial.gets(b"a", Some(b""))),
        Deed::Erase => Ok(trial.gets(b"a", Some(b"")) && trial.erase(b"c")),
        Deed::Move => move_three(alloc, trial),
    }
}

// Whether the object at an offset of the piece has these links.
fn has_links(piece: &Piece, at: usize, links: &[u8]) -> bool {
    match piece.bytes().get(at..) {
        Some(object) => object.get(24..40) == Some(links),
        None => false,
    }
}

// Whether the object of the row that was erased has the links, in the piece of its segment.
fn gives_links(trial: &mut Trial, wanted: &Wanted) -> bool {
    for _ in 0..4 {
        let Some(piece) = trial.give_up() else {
            return false;
        };
        if piece.owner() == wanted.segment {
            return has_links(&piece, wanted.at, &wanted.links);
        }
    }
    false
}

fn try_deed(alloc: Global, trial: &mut Trial, wanted: &Wanted) -> Result<bool, AllocError> {
    Ok(
        put_three(trial)
            && do_deed(alloc, trial, wanted.deed)?
            && trial.erase(&wanted.key)
            && gives_links(trial, wanted),
    )
}

fn is_linked(alloc: Global, wanted: &Wanted) -> Result<bool, AllocError> {
    let mut trial = Trial::new(alloc, 23)?;
    let linked = try_deed(alloc, &mut trial, wanted);
    drop(trial);
    linked
}

// The number of the first of the rows that has other links.
fn first_unlinked(alloc: Global) -> Result<Option<usize>, AllocError> {
    for number in 0..WANTED.len() {
        if !is_linked(alloc, &WANTED[number])? {
            return Ok(Some(number));
        }
    }
    Ok(None)
}

#[test]
fn rows_are_linked_after_a_get_an_erase_and_a_move(rt: HostRuntime) -> Result<(), Fail> {
    assert_eq!(rt; first_unlinked(rt.alloc())?, None);
    Ok(())
}
