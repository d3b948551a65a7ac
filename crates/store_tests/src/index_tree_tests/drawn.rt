//! Calls drawn at random, on an index that is often full, beside the standard library's ordered map.
use super::keys::Keys;
use super::trial::Trial;
use index_tree::Full;
use rand_core::utils::NextWord;
use rand_pcg::Lcg64Xsh32;
use segmented_store::room;
use std::alloc::{AllocError, Global};
use std::collections::BTreeMap;

/// What is drawn, and on how many segments.
#[derive(Clone, Copy)]
pub(super) struct Calls {
    pub(super) keys: Keys,
    pub(super) segments: u32,
    pub(super) calls: u32,
}

#[derive(Drop)]
struct Both {
    trial: Trial,
    map: BTreeMap<u32, u32>,
    most: u32,
    text: Vec<u8>,
}

/// How many keys an index of so many segments takes.
fn most_of(segments: u32) -> u32 {
    let nodes = room(segments) / 4392;
    nodes.saturating_sub(9).saturating_mul(7).min(1_000_000) as u32
}

impl Both {
    /// Whether the index answers as it should, here and below.
    fn insert(&mut self, keys: Keys, number: u32, value: u32) -> Result<bool, AllocError> {
        let had = self.map.get(&number).copied();
        let answer = self.trial.insert(&keys.key(number), value);
        if had.is_none() && self.map.len() >= self.most as usize {
            return Ok(answer == Some(Err(Full)));
        }
        self.map.insert(number, value)?;
        Ok(answer == Some(Ok(had)))
    }

    fn remove(&mut self, keys: Keys, number: u32) -> bool {
        self.map.remove(&number) == self.trial.remove(&keys.key(number))
    }

    fn get(&self, keys: Keys, number: u32) -> bool {
        self.map.get(&number).copied() == self.trial.get(&keys.key(number))
    }

    /// Whether a scan gives the keys that the map has.
    fn scan(&mut self, keys: Keys, from: u32, count: u32) -> Result<bool, AllocError> {
        self.text.clear();
        let mut found = 0u32;
        for (number, _) in self.map.range(from..) {
            if found == count {
                break;
            }
            let key = keys.key(*number);
            self.text
                .extend_from_slice((key.len() as u16).to_le_bytes().as_slice())?;
            self.text.extend_from_slice(&key)?;
            found = found.saturating_add(1);
        }
        Ok(
            self.trial
                .reads(&keys.key(from), count, self.text.as_slice(), found),
        )
    }
}

/// One call that is drawn.
fn does_well(
    both: &mut Both,
    calls: &Calls,
    numbers: &mut Lcg64Xsh32,
    call: u32,
) -> Result<bool, AllocError> {
    let draw = numbers.next_word();
    let number = calls
        .keys
        .number(draw / 16 % both.most.saturating_mul(2).max(1));
    // in turn more keys come than go, and more go than come
    let comes = if call / 5000 % 2 == 0 { 8 } else { 3 };
    match draw % 16 {
        kind if kind < comes => both.insert(calls.keys, number, call),
        kind if kind < 11 => Ok(both.remove(calls.keys, number)),
        kind if kind < 14 => Ok(both.get(calls.keys, number)),
        _ => both.scan(calls.keys, number, 1 + draw / 16 % 32),
    }
}

/// The first of so many calls that answers otherwise than the map.
pub(super) fn first_wrong(alloc: Global, calls: &Calls) -> Result<Option<u32>, AllocError> {
    if calls.segments > 64 {
        return Ok(None);
    }
    let mut both = Both {
        trial: Trial::new(alloc, calls.segments)?,
        map: BTreeMap::new(alloc),
        most: most_of(calls.segments),
        text: Vec::new(alloc),
    };
    let mut numbers = Lcg64Xsh32::new(7, 1);
    for call in 0..calls.calls {
        if !does_well(&mut both, calls, &mut numbers, call)? {
            return Ok(Some(call));
        }
        if both.trial.len() as usize != both.map.len() {
            return Ok(Some(call));
        }
    }
    Ok(None)
}
