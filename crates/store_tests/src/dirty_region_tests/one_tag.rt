//! Keys that are made to have one tag: the index takes some of them into its table, and the others are strays.
use super::trial::{Answer, Trial};
use outside::MemorySink;
use rand_core::utils::NextWord;
use rand_pcg::Lcg64Xsh32;
use std::alloc::{AllocError, Global};
use std::test::Fail;

// A hash of a key that is mixed with a word, as a table of keys has it.
fn mix(hash: u64, word: u64) -> u64 {
    let product = (hash ^ word).wrapping_mul(0x9E37_79B9_7F4A_7C15);
    product ^ (product >> 32)
}

// A key of 16 bytes: any eight, and the eight with which all such keys have one hash.
fn key_of(number: u32) -> [u8; 16] {
    let first = u64::from(number);
    let last = mix(16, first) ^ 7;
    let mut key = [0u8; 16];
    let (front, back) = key.split_at_mut(8);
    front.copy_from_slice(first.to_le_bytes().as_slice());
    back.copy_from_slice(last.to_le_bytes().as_slice());
    key
}

// A put of the plain queue: the number of its key, and its own, whose bytes are its value.
#[derive(Clone, Copy)]
struct Plain {
    key: u32,
    number: u32,
}

// All puts that ever came, how many are gone, and how many keys the held ones had at most.
#[derive(Drop)]
struct Queue {
    puts: Vec<Plain>,
    gone: usize,
    most: usize,
}

impl Queue {
    fn held(&self) -> &[Plain] {
        self.puts.get(self.gone..).unwrap_or(&[])
    }

    fn newest(&self, key: u32) -> Option<u32> {
        let mut found = None;
        for put in self.held().iter() {
            if put.key == key {
                found = Some(put.number);
            }
        }
        found
    }

    // How many keys of 150 the held puts have.
    fn keys(&self) -> usize {
        let mut count = 0usize;
        for key in 0..150u32 {
            if self.newest(key).is_some() {
                count = count.saturating_add(1);
            }
        }
        count
    }
}

fn puts_well(trial: &mut Trial, queue: &mut Queue, put: Plain) -> Result<bool, AllocError> {
    let is_full = queue.held().len() == 200;
    let answer = trial.put(
        &key_of(put.key),
        put.number.to_le_bytes().as_slice(),
        put.number,
    );
    if answer == Answer::Taken {
        queue.puts.push(put)?;
        return Ok(!is_full);
    }
    Ok(answer == Answer::TooMany && is_full)
}

fn flushes_well(alloc: Global, trial: &mut Trial, queue: &mut Queue) -> Result<bool, AllocError> {
    let mut sink = MemorySink::new(alloc, 100)?;
    let answer = trial.flush_one(&mut sink);
    let Some(oldest) = queue.held().first() else {
        return Ok(answer == Ok(None));
    };
    let want = Ok(Some(oldest.number));
    queue.gone = queue.gone.saturating_add(1);
    Ok(answer == want)
}

fn reads_well(trial: &Trial, queue: &Queue, key: u32) -> bool {
    match (trial.newest(&key_of(key)), queue.newest(key)) {
        (None, None) => true,
        (Some(value), Some(number)) => value == number.to_le_bytes().as_slice(),
        _ => false,
    }
}

// One call that is drawn. For a thousand calls most are puts, and for the next thousand most are flushes.
fn does_well(
    alloc: Global,
    trial: &mut Trial,
    queue: &mut Queue,
    random: &mut Lcg64Xsh32,
    number: u32,
) -> Result<bool, AllocError> {
    let key = random.next_word() % 150;
    let puts = if number / 1000 % 2 == 0 { 10 } else { 2 };
    let draw = random.next_word() % 16;
    if draw < 4 {
        return Ok(reads_well(trial, queue, key));
    }
    if draw < 4 + puts {
        return puts_well(trial, queue, Plain { key, number });
    }
    flushes_well(alloc, trial, queue)
}

// Which of so many calls is the first that does not do as the plain queue.
fn first_unlike(
    alloc: Global,
    trial: &mut Trial,
    queue: &mut Queue,
    random: &mut Lcg64Xsh32,
    calls: u32,
) -> Result<Option<u32>, AllocError> {
    for number in 0..calls {
        if !does_well(alloc, trial, queue, random, number)? {
            return Ok(Some(number));
        }
        if number % 100 == 0 {
            queue.most = queue.most.max(queue.keys());
        }
    }
    Ok(None)
}

// The first call that does not do as the plain queue, and whether there were more keys than a table takes of one tag.
fn does(alloc: Global, calls: u32) -> Result<(Option<u32>, bool), AllocError> {
    let mut trial = Trial::new(alloc, 200, 3)?;
    let mut queue = Queue {
        puts: Vec::new(alloc),
        gone: 0,
        most: 0,
    };
    let mut random = Lcg64Xsh32::new(56, 1);
    let unlike = first_unlike(alloc, &mut trial, &mut queue, &mut random, calls)?;
    Ok((unlike, queue.most > 63))
}

#[test]
fn puts_of_keys_of_one_tag_do_as_a_plain_queue(rt: HostRuntime) -> Result<(), Fail> {
    assert_eq!(rt; does(rt.alloc(), 20_000)?, (None, true));
    Ok(())
}
