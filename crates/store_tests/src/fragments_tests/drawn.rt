//! Calls drawn at random, on a store that is nearly full, beside a plain map.
ghost use Rattle.std.specs.Prelude.{◌≤◌};

use super::trial::{Trial, letters};
use fragments::{SetRefusal, value_size};
use rand_core::utils::NextWord;
use rand_pcg::Lcg64Xsh32;
use segmented_store::room;
use std::alloc::{AllocError, Global};

const NAMES: u32 = 200;

const SEGMENTS: u32 = 5;

const LONGEST: usize = 40_000;

// The least live bytes from some call on: 95 of 100 that have room.
const FULL: u64 = 338_512;

// What a name should have: a length, and the number that its letters are made of.
#[derive(Clone, Copy)]
struct Expected {
    len: usize,
    seed: usize,
}

#[derive(Drop)]
struct Both {
    trial: Trial,
    text: Vec<u8>,
    map: Vec<Option<Expected>>,
    live: u64,
}

fn length_of(draw: u32) -> usize
    ensures { result ≤ 40000 }
{
    match draw % 16 {
        0 => draw as usize / 16 % LONGEST,
        1 => draw as usize / 16 % 3 * 12_264,
        2 => draw as usize / 16 % 13_000,
        _ => draw as usize / 16 % 2000,
    }
}

impl Both {
    fn expected(&self, name: u32) -> Option<Expected> {
        *self.map.get(name as usize)?
    }

    fn note(&mut self, name: u32, value: Option<Expected>) {
        if let Some(noted) = self.map.get_mut(name as usize) {
            *noted = value;
        }
    }

    fn size(&self, name: u32) -> u64 {
        match self.expected(name) {
            Some(value) if value.len <= LONGEST => value_size(value.len),
            _ => 0,
        }
    }

    fn text_of(&self, value: Expected) -> &[u8] {
        let from = self.text.get(value.seed..).unwrap_or(&[]);
        from.get(..value.len).unwrap_or(&[])
    }

    // Whether the store answers as it should.
    fn put(&mut self, name: u32, len: usize, seed: usize) -> bool
        requires { len ≤ 40000 }
    {
        let value = Expected { len, seed };
        let live = self.live.saturating_add(value_size(len));
        let text = self.text.get(seed..).unwrap_or(&[]);
        let answer = self.trial.put(name, text.get(..len).unwrap_or(&[]));
        if live > room(SEGMENTS) {
            return answer == Some(Err(SetRefusal::NoRoom));
        }
        self.live = live.saturating_sub(self.size(name));
        self.note(name, Some(value));
        answer == Some(Ok(()))
    }

    // Whether the store stays full where a value of so many bytes comes for that of the name.
    fn stays_full(&self, name: u32, size: u64) -> bool {
        let live = self.live.saturating_add(size);
        self.live < FULL || live.saturating_sub(self.size(name)) >= FULL
    }

    fn erase(&mut self, name: u32) -> bool {
        self.live = self.live.saturating_sub(self.size(name));
        let some = self.expected(name).is_some();
        self.note(name, None);
        self.trial.erase(name) == some
    }

    fn agrees(&self, name: u32) -> bool {
        match self.expected(name) {
            Some(value) => self.trial.holds(name, Some(self.text_of(value))),
            None => self.trial.holds(name, None),
        }
    }

    fn all_agree(&self) -> bool {
        for name in 0..NAMES {
            if !self.agrees(name) {
                return false;
            }
        }
        self.trial.live() == self.live
    }
}

// One call that is drawn: a read where another one would leave the store less than full.
fn does_well(both: &mut Both, numbers: &mut Lcg64Xsh32, call: u32) -> bool {
    let name = numbers.next_word() % NAMES;
    let draw = numbers.next_word();
    let len = length_of(draw / 16);
    match draw % 16 {
        0 if both.stays_full(name, 0) => both.erase(name),
        1..=5 if both.stays_full(name, value_size(len)) => {
            both.put(name, len, call as usize % 251)
        }
        _ => both.agrees(name),
    }
}

// The first of so many calls that answers otherwise than the map, or leaves the store less than full.
pub(super) fn first_wrong(alloc: Global, calls: u32) -> Result<Option<u32>, AllocError> {
    let mut both = Both {
        trial: Trial::new(alloc, NAMES, SEGMENTS)?,
        text: letters(alloc, LONGEST + 251, 0)?,
        map: Vec::from_elem(alloc, None, NAMES as usize)?,
        live: 0,
    };
    let mut numbers = Lcg64Xsh32::new(7, 1);
    for call in 0..calls {
        if !does_well(&mut both, &mut numbers, call) {
            return Ok(Some(call));
        }
        if call > 2000 && both.live < FULL {
            return Ok(Some(call));
        }
        if call % 500 == 499 && !both.all_agree() {
            return Ok(Some(call));
        }
    }
    Ok(None)
}
