// Blocks that are lent from a full store: each row that goes for one is judged by the plain cache, and by what is live then.
use super::{Trial, value_in};
use cache_model::{Entry, ReplyKind};
use foreign_list::{Foreign, ForeignBlock};
use layout::{DENSE, REQUEST_TICKETS, TICKETS};
use plain_cache::Plain;
use run_log::Journal;
use shard_store::{Put, Share};
use std::alloc::{AllocError, Global};
use std::test::Fail;
use trace_text::{Trace, parse};

// The rows that fill 1,280 pages, and the bytes of their values.
const FULL: u32 = 390;

const VALUE: usize = 12_000;

// The bytes of the request of a put of such a value under a key of one letter.
const REQUEST: u32 = 12_017;

// Puts of so many letters under k001 and so on.
fn lines_of_full(alloc: Global) -> Result<Vec<u8>, AllocError> {
    let value = b"x".repeat(alloc, VALUE)?;
    let mut lines = Vec::new(alloc);
    for number in 1..=FULL {
        lines.extend_from_slice(format!(in alloc; "put k{number:03} ")?.as_bytes())?;
        lines.extend_from_slice(value.as_slice())?;
        lines.push(b'\n')?;
    }
    Ok(lines)
}

fn trace_of_full(alloc: Global) -> Result<Trace, Fail> {
    let lines = lines_of_full(alloc)?;
    if lines.len() > 67_108_864 {
        return Err(Fail::new("the lines are too long"));
    }
    Ok(parse(alloc, lines, 1)?)
}

// What the live bytes exceed where a row goes while so many tickets are out. Of the 40 segments of 1,280 pages one is free and one
// is active, and each ticket may take one; the others are dense.
fn floor_with(out: u32) -> u64 {
    u64::from(38u32.saturating_sub(out)) * u64::from(DENSE)
}

// Whether the plain cache may evict each of these rows in turn, while more is live than what the tickets that are out leave.
fn may_go(plain: &mut Plain, entries: &[Entry], out: u32) -> bool {
    for entry in entries {
        let may = match entry {
            Entry::Evicted(put) => plain.live() > floor_with(out) && plain.evict(*put),
            Entry::Done(_) => false,
        };
        if !may {
            return false;
        }
    }
    true
}

// The same of the rows that went since there were so many entries.
fn went_rightly(plain: &mut Plain, journal: &Journal, before: usize, out: u32) -> bool {
    match journal.entries().get(before..) {
        Some(entries) => may_go(plain, entries, out),
        None => false,
    }
}

// Whether a block has the whole value behind its head.
fn is_whole(bytes: &[u8], found: Option<u32>) -> bool {
    match value_in(bytes, found) {
        Some(value) => value.len() == VALUE && value.iter().all(|byte| *byte == b'x'),
        None => false,
    }
}

impl<'f> Trial<'f> {
    // Whether each put of the trace stores a row, here and in the plain cache, and no row goes.
    fn puts_all(
        &mut self,
        alloc: Global,
        plain: &mut Plain,
        trace: &Trace,
    ) -> Result<bool, AllocError> {
        let mut body = Vec::new(alloc);
        for command in trace.commands() {
            if plain.rows() == u32::MAX {
                return Ok(false);
            }
            let kind = plain.apply(alloc, trace, command, &mut body)?;
            let put = self.put(trace.key(command), trace.value(command), command.number);
            if kind != ReplyKind::Stored || put != Some(Put::Stored) {
                return Ok(false);
            }
        }
        Ok(self.journal.entries().is_empty())
    }

    // A block with the value of the row that was put last. It is the row used last, so that the plain cache need not be asked for it.
    fn lend_last(&mut self) -> Option<ForeignBlock<'f>> {
        let (block, found) = self.lend_value(b"k390")?;
        if !is_whole(block.bytes(), found) {
            return None;
        }
        Some(block)
    }

    // A block of a share. None where a row went for it wrongly.
    fn lend_judged(&mut self, plain: &mut Plain, share: Share) -> Option<ForeignBlock<'f>> {
        let (before, out) = (self.journal.entries().len(), self.store.tickets_out());
        let block = match share {
            Share::Request => self.lend(REQUEST)?,
            Share::Reply => self.lend_last()?,
        };
        if !went_rightly(plain, &self.journal, before, out) {
            return None;
        }
        Some(block)
    }

    // A block for each ticket, those for requests first.
    fn lend_all_judged(
        &mut self,
        alloc: Global,
        plain: &mut Plain,
    ) -> Result<Vec<ForeignBlock<'f>>, AllocError> {
        let mut blocks = Vec::new(alloc);
        for ticket in 0..TICKETS {
            let share = if ticket < REQUEST_TICKETS {
                Share::Request
            } else {
                Share::Reply
            };
            if let Some(block) = self.lend_judged(plain, share) {
                blocks.push(block)?;
            }
        }
        Ok(blocks)
    }

    // Whether the puts all store a row, rows go for blocks, and the plain cache has as many rows and live bytes then. How many blocks
    // come home.
    fn press(
        &mut self,
        alloc: Global,
        plain: &mut Plain,
        trace: &Trace,
    ) -> Result<([bool; 3], u32), AllocError> {
        let stored = self.puts_all(alloc, plain, trace)?;
        let blocks = self.lend_all_judged(alloc, plain)?;
        let right = [
            stored,
            !self.journal.entries().is_empty(),
            self.size() == (plain.rows(), plain.live()),
        ];
        Ok((right, self.take_back(blocks)))
    }
}

// The same of a new store, and whether no block is out then.
fn pressed(alloc: Global) -> Result<([bool; 3], u32, bool), Fail> {
    let trace = trace_of_full(alloc)?;
    let mut plain = Plain::new(alloc, 1280, 1)?;
    let (home, seat) = Foreign::new(alloc, 0)?;
    let mut trial = Trial::new(alloc, &home, seat)?;
    let found = trial.press(alloc, &mut plain, &trace);
    let is_whole = trial.finish();
    let (right, count) = found?;
    Ok((right, count, is_whole))
}

#[test]
fn rows_go_for_blocks_as_they_may(rt: HostRuntime) -> Result<(), Fail> {
    assert_eq!(rt; pressed(rt.alloc())?, ([true; 3], 32, true));
    Ok(())
}
