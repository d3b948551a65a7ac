//! Driving what only counts.
ghost use Rattle.std.specs.Prelude.{◌≡◌, [], length, IfOk};

use crate::by_words::finish_numbered;
use crate::driven::Driven;
use crate::scheduled::follow;
use crate::threads::finish_all;
use shard_node::Turn;
use std::alloc::{AllocError, Global};
use std::test::Fail;

/// Counts its turns, and is done after some of them.
#[derive(Drop)]
struct Counter {
    left: u32,
    turns: u64,
}

impl Driven for Counter {
    ghost stands = { λ _. Unit {0} };

    ghost is_done = { λ counter. counter.left ≡ 0 };

    ghost lasting = { λ _. record {
      shard = 0;
      shards = 1;
      pages = 0;
      trace = record { version = 1; operations = [] };
      list = record { id = record { words = 0; slots = 0; views_name = 0; atom = 0; block = 0; offset = 0; slot_names = [] }; owner = 0 };
      ends = [];
    } };

    ghost turns = { λ counter. counter.turns };

    fn step(&mut self) -> Turn {
        self.turns = self.turns.saturating_add(1);
        if self.left > 0 {
            self.left -= 1;
        }
        match self.left {
            0 => Turn::Done,
            left if left % 2 == 0 => Turn::Idle,
            _ => Turn::Moved,
        }
    }

    fn has_finished(&self) -> bool {
        self.left == 0
    }

    fn turns_made(&self) -> u64 {
        self.turns
    }
}

/// Three that are done after 3 turns, 5 turns and one.
fn three(alloc: Global) -> Result<Vec<Counter>, AllocError>
    ensures { IfOk result (λ row. length row.items ≡ 3) }
{
    let mut row = Vec::new(alloc);
    row.push(Counter { left: 3, turns: 0 })?;
    row.push(Counter { left: 5, turns: 0 })?;
    row.push(Counter { left: 1, turns: 0 })?;
    Ok(row)
}

/// Whether they made these turns.
fn made(row: &[Counter], turns: &[u64]) -> bool {
    row.iter()
        .map(|counter| counter.turns)
        .eq(turns.iter().copied())
}

#[test]
fn a_schedule_gives_a_turn_for_each_entry(rt: HostRuntime) -> Result<(), Fail> {
    let mut row = three(rt.alloc())?;
    follow(row.as_mut_slice(), &[0, 2, 2, 1, 2, 0]);
    assert!(rt; made(row.as_slice(), &[2, 1, 3]));
    assert!(rt; row[0].left == 1 && row[1].left == 4 && row[2].left == 0);
    Ok(())
}

// Counted in the words modulo 3 up to the one by which all are done, by a generator of its own (that of `bench/traces.py`):
// of 0 they are 2 2 2 2 0 1 2 1 0 0 0 0 2 1 1 1, of 7 they are 2 1 1 0 0 0 0 0 1 2 1 2 0 0 1, and of the greatest number
// 0 1 1 1 2 2 2 2 0 0 2 0 1 2 0 0 2 2 0 2 2 0 1.
#[test]
fn the_words_of_a_number_give_these_turns(rt: HostRuntime) -> Result<(), Fail> {
    for (number, turns) in [
        (0, [5, 5, 6]),
        (7, [7, 5, 3]),
        (7, [7, 5, 3]),
        (u32::MAX, [8, 5, 10]),
    ] {
        let mut row = three(rt.alloc())?;
        finish_numbered(&rt, row.as_mut_slice(), number);
        assert!(rt; made(row.as_slice(), &turns), "at {number}");
    }
    Ok(())
}

#[test]
fn threads_stop_each_at_its_last_turn(rt: HostRuntime) -> Result<(), Fail> {
    let mut row = three(rt.alloc())?;
    finish_all(&rt, row.as_mut_slice(), 3);
    assert!(rt; made(row.as_slice(), &[3, 5, 1]));
    let mut none: Vec<Counter> = Vec::new(rt.alloc());
    finish_all(&rt, none.as_mut_slice(), 1);
    assert!(rt; none.is_empty());
    Ok(())
}
