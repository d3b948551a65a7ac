//! Shards that wait at their gates.
ghost use Rattle.std.specs.Prelude.{⊤, ◌<◌, ◌≤◌};

use super::answer_through;
use shard_node::{Gate, Gates};
use shardcache::Status;
use std::alloc::{AllocError, Global};
use std::sync::Wait;
use std::sync::atomic::{AtomicU64, Ordering};
use std::test::Fail;
use std::thread::{self, Threads};

/// How often a gate looks whether the other shard came to its own.
const LOOKS: u64 = 200_000_000;

/// Which of two shards came to its gate, and how many gates waited in vain.
#[derive(Drop)]
struct Meeting {
    first: AtomicU64,
    second: AtomicU64,
    vain: AtomicU64,
}

/// A gate that opens once the other shard came to its own, or was long waited for. It makes gates like itself.
#[derive(Drop)]
struct Door<'a> {
    meeting: &'a Meeting,
}

impl<'a> Gates for Door<'a> {
    type Made = Door<'a>;

    fn gate(&self, _shard: u32) -> Door<'a> {
        Door {
            meeting: self.meeting,
        }
    }
}

impl<'a> Gate for Door<'a> {
    ghost holds = { λ _. 0 };

    ghost lets = { λ _ _ _ _. ⊤ };

    fn open(&mut self, shard: u32, _number: u32) -> bool {
        let meeting = self.meeting;
        let (own, other) = if shard == 0 {
            (&meeting.first, &meeting.second)
        } else {
            (&meeting.second, &meeting.first)
        };
        own.store(1, Ordering::SeqCst);
        for look in 0..LOOKS {
            if other.load(Ordering::SeqCst) == 1 {
                return true;
            }
            if look % 1000 == 0 {
                thread::yield_now();
            }
        }
        meeting.vain.fetch_add(1, Ordering::SeqCst);
        true
    }
}

#[test]
fn all_on_one_thread_would_not_meet(rt: HostRuntime) -> Result<(), Fail> {
    let meeting = Meeting {
        first: AtomicU64::new(0),
        second: AtomicU64::new(0),
        vain: AtomicU64::new(0),
    };
    let words = ["run", "--shards", "2"];
    let input = b"put a 1\nput b 2\n";
    let door = Door { meeting: &meeting };
    let (status, text) = answer_through(
        &rt,
        rt.alloc(),
        words.as_slice(),
        input,
        &[],
        4096,
        &door,
    )?;
    let report =
        b"1 stored\n2 stored\njournal 0 1\njournal 1 2\nshard 0 rows 1 live 48 lent 0 back 0\n\
        shard 1 rows 1 live 48 lent 0 back 0\n"
            .as_slice();
    assert!(rt; status == Status::Done && text.as_slice() == report);
    let asked = (
        meeting.first.load(Ordering::SeqCst),
        meeting.second.load(Ordering::SeqCst),
    );
    assert!(rt; asked == (1, 1) && meeting.vain.load(Ordering::SeqCst) == 0);
    Ok(())
}

/// How many asks a gate holds before it opens.
const HOLDS: u64 = 3;

/// Makes gates that hold their first asks, and counts what they held.
#[derive(Drop)]
struct Slow<'a> {
    held: &'a AtomicU64,
}

/// A gate that holds its first asks and is open from then on.
#[derive(Drop)]
struct Holding<'a> {
    holds: u64,
    held: &'a AtomicU64,
}

impl<'a> Gates for Slow<'a> {
    type Made = Holding<'a>;

    fn gate(&self, _shard: u32) -> Holding<'a> {
        Holding {
            holds: 0,
            held: self.held,
        }
    }
}

impl<'a> Gate for Holding<'a> {
    ghost holds = { λ gate. gate.holds };

    // It held its first asks.
    ghost lets = { λ _ _ _ gate. 3 ≤ gate.holds };

    fn open(&mut self, _shard: u32, _number: u32) -> bool {
        if self.holds < HOLDS {
            self.holds += 1;
            self.held.fetch_add(1, Ordering::SeqCst);
            return false;
        }
        true
    }
}

/// Whether a run with such gates writes this report, where each of so many shards has a command of its own.
fn reports_once_held<R: Threads + Wait + Sync>(
    rt: &R,
    alloc: Global,
    words: &[&str],
    input: &[u8],
    shards: u64,
    report: &[u8],
) -> Result<bool, AllocError>
    requires { shards < 17 }
{
    let held = AtomicU64::new(0);
    let slow = Slow { held: &held };
    let (status, text) = answer_through(rt, alloc, words, input, &[], 4096, &slow)?;
    let all_held = held.load(Ordering::SeqCst) == HOLDS * shards;
    Ok(all_held && status == Status::Done && text.as_slice() == report)
}

#[test]
fn gates_that_hold_at_first_change_no_report(rt: HostRuntime) -> Result<(), Fail> {
    let alone = b"1 stored\n2 value abc\njournal 0 1 2\nshard 0 rows 1 live 48 lent 0 back 0\n";
    let two =
        b"1 stored\n2 stored\njournal 0 1\njournal 1 2\nshard 0 rows 1 live 48 lent 0 back 0\nshard 1 rows 1 live 48 lent 0 back 0\n";
    let rows: [(&[&str], &[u8], u64, &[u8]); 4] = [
        (&["run"], b"put a abc\nget a\n", 1, alone),
        (&["sim"], b"put a abc\nget a\n", 1, alone),
        (&["run", "--shards", "2"], b"put a 1\nput b 2\n", 2, two),
        (&["sim", "--shards", "2"], b"put a 1\nput b 2\n", 2, two),
    ];
    for (words, input, shards, report) in rows {
        let reported = reports_once_held(&rt, rt.alloc(), words, input, shards, report)?;
        assert!(rt; reported, "{words:?}");
    }
    Ok(())
}
