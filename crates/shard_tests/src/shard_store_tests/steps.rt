// What a test does to a store and looks at, step by step.
use super::Trial;
use cache_model::Entry;
use foreign_list::Foreign;
use shard_store::Put;
use std::alloc::Global;
use std::test::Fail;

// A call with what it answers, or what is so then.
#[derive(Clone, Copy)]
pub(super) enum Step<'a> {
    // The next calls are of this table.
    In(u8),
    // A row is put: key, value, tag.
    Puts(&'a [u8], &'a [u8], u32, Put),
    // So many of the large rows of these numbers, the last one left out, have new keys.
    PutsLarge(u32, u32, u32),
    // So many puts of one key, and how many of them replace a row.
    PutsAgain(u32, u32),
    Has(&'a [u8], Option<&'a [u8]>),
    // Whether the key had a row.
    Erases(&'a [u8], bool),
    // The first keys from one on: at most so many, spelled like this.
    Scans(&'a [u8], u32, &'a [u8]),
    // A block is lent with the value of a key behind a head: the value, or none, and the length of the block.
    LendsValue(&'a [u8], Option<&'a [u8]>, usize),
    // The row of a key stays under a guard while so many blocks are lent.
    Keeps(&'a [u8], &'a [u8], u32),
    // All blocks are lent while rows fill the store, and so many come home.
    Lends(u32),
    // How many blocks were lent, and came home.
    Counts(u64, u64),
    // How many rows there are, and the live bytes.
    Size(u32, u64),
    // There are no more rows than this.
    AtMost(u32),
    // The large rows of the highest numbers below this are there, and no others.
    Latest(u32),
    // The rows that went so far, as they were told.
    Told(&'a [Entry]),
}

impl<'f> Trial<'f> {
    fn does(&mut self, alloc: Global, step: Step<'_>) -> bool {
        match step {
            Step::In(table) => self.turn_to(table),
            Step::Puts(key, value, number, answer) => self.put(key, value, number) == Some(answer),
            Step::PutsLarge(from, to, stored) => self.put_large(alloc, from, to) == stored,
            Step::PutsAgain(times, replaced) => self.put_again(alloc, times) == replaced,
            Step::Has(key, value) => self.has(key, value),
            Step::Erases(key, found) => self.erase(key) == found,
            Step::Scans(key, count, body) => self.scans(key, count, body),
            Step::LendsValue(key, value, len) => self.lends_value(key, value, len),
            Step::Keeps(key, value, blocks) => self.keeps(key, value, blocks),
            Step::Lends(home) => self.fill_and_lend(alloc) == home,
            Step::Latest(end) => self.has_latest(alloc, end),
            _ => self.stands(step),
        }
    }

    fn stands(&self, step: Step<'_>) -> bool {
        match step {
            Step::Counts(lent, back) => (self.store.lent(), self.store.back()) == (lent, back),
            Step::Size(rows, live) => self.size() == (rows, live),
            Step::AtMost(rows) => self.store.rows() <= rows,
            Step::Told(entries) => self.journal.entries() == entries,
            _ => false,
        }
    }

    // How many steps go as they should, up to the first that does not.
    fn play(&mut self, alloc: Global, steps: &[Step<'_>]) -> usize {
        let mut done = 0usize;
        for step in steps {
            if !self.does(alloc, *step) {
                return done;
            }
            done = done.saturating_add(1);
        }
        done
    }
}

// How many steps go as they should on a store of 1,280 pages, whose segments are in one group.
pub(super) fn done(alloc: Global, steps: &[Step<'_>]) -> Result<usize, Fail> {
    let (home, seat) = Foreign::new(alloc, 0)?;
    done_by(alloc, Trial::new(alloc, &home, seat)?, steps)
}

// The same on a store of 1,536 pages, with a group for each table.
pub(super) fn done_in_tables(alloc: Global, steps: &[Step<'_>]) -> Result<usize, Fail> {
    let (home, seat) = Foreign::new(alloc, 0)?;
    done_by(alloc, Trial::in_tables(alloc, &home, seat)?, steps)
}

fn done_by(alloc: Global, trial: Trial<'_>, steps: &[Step<'_>]) -> Result<usize, Fail> {
    let mut trial = trial;
    let done = trial.play(alloc, steps);
    if !trial.finish() {
        return Err(Fail::new("a block is out"));
    }
    Ok(done)
}
