//! Puts, flushes, failures and reads that are drawn at random, beside a plain queue.
use super::trial::{Answer, Trial};
use outside::MemorySink;
use rand_core::utils::NextWord;
use rand_pcg::Lcg64Xsh32;
use std::alloc::{AllocError, Global};
use std::test::Fail;

// A put of the plain queue: its key is one byte, and its value is so many of another.
#[derive(Clone, Copy)]
struct Plain {
    key: u8,
    fill: u8,
    len: usize,
    number: u32,
}

// All puts that ever came, how many are gone, and how many bytes of the oldest line are out.
#[derive(Drop)]
struct Queue {
    puts: Vec<Plain>,
    gone: usize,
    out: usize,
    // how many puts were too many, and how many had no room
    too_many: u32,
    no_room: u32,
}

// The bytes that a put of the length has live in a segment.
fn size_of(len: usize) -> u64 {
    (len as u64).saturating_add(48) / 8 * 8
}

// The byte of a put's line at an index.
fn line_byte(put: Plain, at: usize) -> u8 {
    match at {
        0 => b'p',
        1 => b'u',
        2 => b't',
        3 | 5 => b' ',
        4 => put.key,
        _ => {
            if at < put.len.saturating_add(6) {
                put.fill
            } else {
                b'\n'
            }
        }
    }
}

// Whether the bytes are those of the put's line from an index on.
fn is_of_line(put: Plain, from: usize, bytes: &[u8]) -> bool {
    for (at, byte) in bytes.iter().enumerate() {
        if *byte != line_byte(put, from.saturating_add(at)) {
            return false;
        }
    }
    true
}

impl Queue {
    fn held(&self) -> &[Plain] {
        self.puts.get(self.gone..).unwrap_or(&[])
    }

    fn live(&self) -> u64 {
        let mut live = 0u64;
        for put in self.held().iter() {
            live = live.saturating_add(size_of(put.len));
        }
        live
    }

    fn newest(&self, key: u8) -> Option<Plain> {
        let mut found = None;
        for put in self.held().iter() {
            if put.key == key {
                found = Some(*put);
            }
        }
        found
    }
}

// Whether a put is taken or refused as it should be.
fn puts_well(
    trial: &mut Trial,
    queue: &mut Queue,
    value: &[u8],
    put: Plain,
) -> Result<bool, AllocError> {
    let held = queue.held().len();
    let want = if held == 100 {
        Answer::TooMany
    } else if queue.live().saturating_add(size_of(put.len)) > 356_328 {
        Answer::NoRoom
    } else {
        Answer::Taken
    };
    let answer = trial.put(&[put.key], value.get(..put.len).unwrap_or(&[]), put.number);
    match answer {
        Answer::Taken => queue.puts.push(put)?,
        Answer::TooMany => queue.too_many = queue.too_many.saturating_add(1),
        _ => queue.no_room = queue.no_room.saturating_add(1),
    }
    Ok(answer == want)
}

// Whether a flush into a sink of the room goes on as it should.
fn flushes_well(
    alloc: Global,
    trial: &mut Trial,
    queue: &mut Queue,
    room: usize,
) -> Result<bool, AllocError> {
    let mut sink = MemorySink::new(alloc, room)?;
    let answer = trial.flush_one(&mut sink);
    let Some(oldest) = queue.held().first() else {
        return Ok(answer == Ok(None) && sink.bytes().is_empty());
    };
    let put = *oldest;
    let left = put.len.saturating_add(7).saturating_sub(queue.out);
    let well = is_of_line(put, queue.out, sink.bytes()) && sink.bytes().len() == left.min(room);
    if left <= room {
        queue.gone = queue.gone.saturating_add(1);
        queue.out = 0;
        return Ok(well && answer == Ok(Some(put.number)));
    }
    queue.out = queue.out.saturating_add(room);
    Ok(well && answer.is_err())
}

// Whether the newest value of a key is found.
fn reads_well(trial: &Trial, queue: &Queue, key: u8) -> bool {
    match (trial.newest(&[key]), queue.newest(key)) {
        (None, None) => true,
        (Some(value), Some(put)) => {
            value.len() == put.len && value.iter().all(|byte| *byte == put.fill)
        }
        _ => false,
    }
}

// A length, of which every other is great.
fn length_of(draw: u32) -> usize {
    if draw % 2 == 0 {
        (draw / 8 % 12_001) as usize
    } else {
        (draw / 8 % 300) as usize
    }
}

// One call that is drawn.
fn does_well(
    alloc: Global,
    trial: &mut Trial,
    queue: &mut Queue,
    random: &mut Lcg64Xsh32,
    number: u32,
) -> Result<bool, AllocError> {
    let draw = random.next_word();
    let key = b'a' + (random.next_word() % 20) as u8;
    match draw % 16 {
        0..=6 => {
            let put = Plain {
                key,
                fill: b'A' + (draw / 16 % 26) as u8,
                len: length_of(random.next_word()),
                number,
            };
            let value = Vec::from_elem(alloc, put.fill, put.len)?;
            puts_well(trial, queue, &value, put)
        }
        7..=9 => flushes_well(alloc, trial, queue, 12_100),
        10..=12 => flushes_well(alloc, trial, queue, (draw / 16 % 400) as usize),
        _ => Ok(reads_well(trial, queue, key)),
    }
}

// Which of so many calls is the first that does not do as the plain queue.
fn first_unlike(
    alloc: Global,
    trial: &mut Trial,
    queue: &mut Queue,
    random: &mut Lcg64Xsh32,
    calls: u32,
) -> Result<Option<u32>, AllocError> {
    for number in 0..calls {
        if !does_well(alloc, trial, queue, random, number)? {
            return Ok(Some(number));
        }
    }
    Ok(None)
}

// The first call that does not do as the plain queue, whether the same is held then, and whether refusals of both kinds came
// often.
fn does(alloc: Global, calls: u32) -> Result<(Option<u32>, bool, bool), AllocError> {
    let mut trial = Trial::new(alloc, 100, 5)?;
    let mut queue = Queue {
        puts: Vec::new(alloc),
        gone: 0,
        out: 0,
        too_many: 0,
        no_room: 0,
    };
    let mut random = Lcg64Xsh32::new(34, 1);
    let unlike = first_unlike(alloc, &mut trial, &mut queue, &mut random, calls)?;
    let (puts, live) = trial.size();
    let same = puts as usize == queue.held().len() && live == queue.live();
    let often = queue.no_room > 10 && queue.too_many > 10;
    Ok((unlike, same, often))
}

#[test]
fn calls_that_are_drawn_do_as_a_plain_queue(rt: HostRuntime) -> Result<(), Fail> {
    assert_eq!(rt; does(rt.alloc(), 50_000)?, (None, true, true));
    Ok(())
}
