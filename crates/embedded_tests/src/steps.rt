// What a test does to a cache and looks at, step by step. All rows are of table 0.
ghost use Rattle.std.specs.Prelude.{◌-◌, ◌^◌, ◌<◌, ◌≤◌};
ghost use Rattle.embedded_cache.specs.States.{most_bound};

use crate::trial::{SCAN_BYTES, Trial, value_in};
use embedded_cache::{Foreign, Lent, Patch, Put, PutAnswer, ScannedRows};
use std::alloc::{AllocError, Global};
use std::test::Fail;

// The most rows that go in one step.
const MOST: usize = 8;

// A call with what it answers, or what is so then.
#[derive(Clone, Copy)]
pub(crate) enum Step<'a> {
    // A row is put: key, value, tag, and the tags of the rows that went for it.
    Puts(&'a [u8], &'a [u8], u32, Put, &'a [u32]),
    // A row is put with a value of so many bytes.
    PutsLong(&'a [u8], usize, u32, &'a [u32]),
    // A row is put with a value in two pieces.
    PutsPieces(&'a [u8], &'a [u8], &'a [u8], u32),
    // The same with pieces of so many bytes, which are read again.
    PutsLongPieces(&'a [u8], usize, usize, u32),
    // A row is put where there is a place for one tag: the tag that is told, and how many rows went.
    PutsTold(&'a [u8], u32, u32, u64),
    // The value and the tag of a key, by a get.
    Has(&'a [u8], &'a [u8], u32),
    // The same, by a call that does not use the row.
    Shows(&'a [u8], &'a [u8], u32),
    Lacks(&'a [u8]),
    // Bytes are written over those of a key's value from a place on.
    Patches(&'a [u8], usize, &'a [u8], Patch),
    // Whether the key had a row.
    Erases(&'a [u8], bool),
    // The first keys from one on: at most so many, spelled like this.
    Scans(&'a [u8], u32, &'a [u8]),
    // The first rows from a key on, into so many bytes: at most so many, how many there are, spelled like this, and how many bytes the
    // next takes where it does not fit.
    ScansRows(&'a [u8], u32, usize, u32, &'a [u8], u32),
    // The same, where only the numbers are looked at: of the rows, of their bytes, and of the bytes of the next.
    ScansLong(&'a [u8], u32, usize, u32, u32, u32),
    // A block is lent with the value of a key, or with none, and comes home.
    Lends(&'a [u8], Option<&'a [u8]>),
    // How many rows there are, and the live bytes.
    Size(u32, u64),
    // How many rows went, how many gets there were, and how many of them found a row.
    Counts(u64, u64, u64),
}

// Two pieces of so many bytes, and both one behind the other.
fn pieces(
    alloc: Global,
    first: usize,
    second: usize,
) -> Result<(Vec<u8>, Vec<u8>, Vec<u8>), AllocError> {
    let first = Vec::from_elem(alloc, b'x', first)?;
    let second = Vec::from_elem(alloc, b'y', second)?;
    let mut whole = first.as_slice().to_vec(alloc)?;
    whole.extend_from_slice(&second)?;
    Ok((first, second, whole))
}

impl<'f> Trial<'f> {
    // Whether a row is put with this answer, and these are the tags of the rows that went.
    fn puts(&mut self, key: &[u8], value: &[u8], tag: u32, put: Put, tags: &[u32]) -> bool {
        let mut evicted = [0u32; MOST];
        let answer = PutAnswer {
            put,
            evicted: tags.len() as u64,
        };
        self.put(0, key, value, tag, &mut evicted) == Some(answer)
            && evicted.get(..tags.len()) == Some(tags)
    }

    fn puts_long(&mut self, alloc: Global, key: &[u8], len: usize, tag: u32, tags: &[u32]) -> bool {
        let Ok(value) = Vec::from_elem(alloc, b'x', len) else {
            return false;
        };
        self.puts(key, &value, tag, Put::Stored, tags)
    }

    fn puts_pieces(&mut self, key: &[u8], first: &[u8], second: &[u8], tag: u32) -> bool {
        let mut evicted = [0u32; MOST];
        self.put_pieces(0, key, first, second, tag, &mut evicted)
            .is_some()
    }

    fn puts_long_pieces(
        &mut self,
        alloc: Global,
        key: &[u8],
        first: usize,
        second: usize,
        tag: u32,
    ) -> bool {
        let Ok((first, second, whole)) = pieces(alloc, first, second) else {
            return false;
        };
        self.puts_pieces(key, &first, &second, tag) && self.has(0, key, &whole, tag)
    }

    fn puts_told(&mut self, key: &[u8], tag: u32, told: u32, count: u64) -> bool {
        let mut evicted = [0u32; 1];
        let answer = PutAnswer {
            put: Put::Stored,
            evicted: count,
        };
        self.put(0, key, b"", tag, &mut evicted) == Some(answer) && evicted == [told]
    }

    fn scans(&mut self, key: &[u8], count: u32, body: &[u8]) -> bool {
        let mut into = [0u8; SCAN_BYTES];
        let Some(scanned) = self.scan(0, key, count, &mut into) else {
            return false;
        };
        into.get(..scanned.bytes as usize) == Some(body)
    }

    fn scans_rows(
        &mut self,
        key: &[u8],
        count: u32,
        into: &mut [u8],
        body: &[u8],
        did: ScannedRows,
    ) -> bool {
        self.scan_rows(0, key, count, into) == Some(did) && into.get(..body.len()) == Some(body)
    }

    fn scans_into(
        &mut self,
        alloc: Global,
        key: &[u8],
        count: u32,
        room: usize,
        body: &[u8],
        did: ScannedRows,
    ) -> bool {
        let Ok(mut into) = Vec::from_elem(alloc, b'-', room) else {
            return false;
        };
        self.scans_rows(key, count, into.as_mut_slice(), body, did)
    }

    // Whether a block is lent with this value of a key behind its head, or with none, and comes home once it is released.
    pub(crate) fn lends(&mut self, table: u8, key: &[u8], value: Option<&[u8]>) -> bool {
        let mut tags = [0u32; MOST];
        let Some(lent) = self.lend(table, key, &mut tags) else {
            return false;
        };
        let Lent {
            block,
            len,
            evicted,
        } = lent;
        let right = len.is_some() == value.is_some() && value_in(block.bytes(), len) == value;
        let released = block.release().is_ok();
        (right, evicted, released, self.take_back()) == (true, 0, true, 1)
    }

    fn counts(&self) -> (u64, u64, u64) {
        let stats = self.stats();
        (stats.evictions, stats.gets, stats.hits)
    }

    fn does(&mut self, alloc: Global, step: Step<'_>) -> bool {
        match step {
            Step::Puts(key, value, tag, put, tags) => self.puts(key, value, tag, put, tags),
            Step::PutsLong(key, len, tag, tags) => self.puts_long(alloc, key, len, tag, tags),
            Step::PutsPieces(key, first, second, tag) => self.puts_pieces(key, first, second, tag),
            Step::PutsTold(key, tag, told, count) => self.puts_told(key, tag, told, count),
            Step::PutsLongPieces(key, first, second, tag) => {
                self.puts_long_pieces(alloc, key, first, second, tag)
            }
            Step::Has(key, value, tag) => self.has(0, key, value, tag),
            Step::Shows(key, value, tag) => self.shows(0, key, value, tag),
            Step::Lacks(key) => self.lacks(0, key),
            Step::Patches(key, at, bytes, patch) => self.patch(0, key, at, bytes) == Some(patch),
            Step::Erases(key, found) => self.erase(0, key) == Some(found),
            Step::Scans(key, count, body) => self.scans(key, count, body),
            Step::ScansRows(key, count, room, rows, body, wanted) => {
                let Ok(bytes) = u32::try_from(body.len()) else {
                    return false;
                };
                let did = ScannedRows {
                    rows,
                    bytes,
                    wanted,
                };
                self.scans_into(alloc, key, count, room, body, did)
            }
            Step::ScansLong(key, count, room, rows, bytes, wanted) => {
                let did = ScannedRows {
                    rows,
                    bytes,
                    wanted,
                };
                self.scans_into(alloc, key, count, room, b"", did)
            }
            Step::Lends(key, value) => self.lends(0, key, value),
            _ => self.stands(step),
        }
    }

    fn stands(&self, step: Step<'_>) -> bool {
        match step {
            Step::Size(rows, live) => (self.stats().rows, self.stats().live) == (rows, live),
            Step::Counts(evictions, gets, hits) => self.counts() == (evictions, gets, hits),
            _ => false,
        }
    }

    // How many steps go as they should, up to the first that does not.
    fn play(&mut self, alloc: Global, steps: &[Step<'_>]) -> usize {
        let mut done = 0usize;
        for step in steps {
            if !self.does(alloc, *step) {
                return done;
            }
            done = done.saturating_add(1);
        }
        done
    }
}

// How many steps go as they should on a cache of 1,280 pages with room for so many rows and with this bound.
pub(crate) fn done(alloc: Global, rows: u32, bound: u64, steps: &[Step<'_>]) -> Result<usize, Fail>
    requires rows { (1 ≤ rows) × (rows < 2 ^ 32 - 1) }
    requires bound { bound ≤ most_bound 1280 1 }
{
    let (home, seat) = Foreign::new(alloc, 0)?;
    done_by(alloc, Trial::new(alloc, rows, bound, &home, seat)?, steps)
}

fn done_by(alloc: Global, trial: Trial<'_>, steps: &[Step<'_>]) -> Result<usize, Fail> {
    let mut trial = trial;
    let done = trial.play(alloc, steps);
    if !trial.finish() {
        return Err(Fail::new("a block is out"));
    }
    Ok(done)
}
