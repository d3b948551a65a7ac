//! Keys that are made to have one tag: a table takes some of their rows, and the replies of a row cache are those of a
//! list of rows.
ghost use Rattle.std.specs.Prelude.{◌<◌};

use super::calls::{Both, all_go, one_call_of};
use key_table::{KeyTable, Spot};
use rand_core::utils::NextWord;
use rand_pcg::Lcg64Xsh32;
use rows::Key;
use std::alloc::{AllocError, Global};
use std::test::Fail;

/// A hash of a key of table 0 that is mixed with a word, as a table of keys has it.
fn mix(hash: u64, word: u64) -> u64 {
    let product = (hash ^ word).wrapping_mul(0x9E37_79B9_7F4A_7C15);
    product ^ (product >> 32)
}

/// A key of 16 bytes: any eight, and the eight with which all such keys have one hash.
fn key_of(number: u32) -> [u8; 16] {
    let first = u64::from(number);
    let last = mix(16, first) ^ 7;
    let mut key = [0u8; 16];
    let (front, back) = key.split_at_mut(8);
    front.copy_from_slice(first.to_le_bytes().as_slice());
    back.copy_from_slice(last.to_le_bytes().as_slice());
    key
}

/// Takes a row of the key, where there is room and the table takes it.
fn insert(table: &mut KeyTable, key: &[u8], row: u32)
    requires { row < 5000 }
{
    if table.len() < table.room() {
        let key = Key {
            table: 0,
            bytes: key,
        };
        let _taken = table.insert(Spot::new(&key), row);
    }
}

/// Of how many keys of one tag a table takes the rows, and of how many of the numbers alone.
fn taken(alloc: Global) -> Result<(u32, u32), AllocError> {
    let mut colliding = KeyTable::new(alloc, 200)?;
    let mut others = KeyTable::new(alloc, 200)?;
    for row in 0..200u32 {
        insert(&mut colliding, &key_of(row), row);
        insert(&mut others, row.to_le_bytes().as_slice(), row);
    }
    Ok((colliding.len(), others.len()))
}

#[test]
fn a_table_takes_few_rows_of_one_tag(rt: HostRuntime) -> Result<(), Fail> {
    assert_eq!(rt; taken(rt.alloc())?, (63, 200));
    Ok(())
}

/// How many of 5,000 rows a table takes that was widened before them, and how many it has once it is widened behind them.
fn taken_wide(alloc: Global) -> Result<(u32, u32), AllocError> {
    let mut table = KeyTable::new(alloc, 5_000)?;
    table.widen();
    for row in 0..5_000u32 {
        insert(&mut table, row.to_le_bytes().as_slice(), row);
    }
    let taken = table.len();
    table.widen();
    Ok((taken, table.len()))
}

#[test]
fn a_wide_table_takes_as_many_rows(rt: HostRuntime) -> Result<(), Fail> {
    assert_eq!(rt; taken_wide(rt.alloc())?, (5_000, 5_000));
    Ok(())
}

/// One call of a key, drawn at random, of which each tenth is a compaction, and whether both reply alike.
fn one_call(
    alloc: Global,
    both: &mut Both,
    random: &mut Lcg64Xsh32,
    number: u32,
) -> Result<bool, AllocError> {
    let draw = random.next_word();
    let key = key_of(draw / 16 % 200);
    let call = if number % 10 == 0 { 14 } else { draw % 16 };
    one_call_of(alloc, both, random, number, call, &key)
}

/// Which of the calls is the first whose replies are not alike.
fn first_unlike(
    alloc: Global,
    both: &mut Both,
    random: &mut Lcg64Xsh32,
) -> Result<Option<u32>, AllocError> {
    for number in 0..200_000u32 {
        if !one_call(alloc, both, random, number)? {
            return Ok(Some(number));
        }
        if number % 64 == 0 && !both.are_alike() {
            return Ok(Some(number));
        }
    }
    Ok(None)
}

/// The first call whose replies are not alike, and whether all rows go then.
fn replies(alloc: Global) -> Result<(Option<u32>, bool), AllocError> {
    let mut both = Both::new(alloc)?;
    let mut random = Lcg64Xsh32::new(12, 1);
    let unlike = first_unlike(alloc, &mut both, &mut random);
    let all = all_go(&mut both);
    drop(both);
    Ok((unlike?, all))
}

#[test]
fn replies_for_keys_of_one_tag_are_those_of_a_list(rt: HostRuntime) -> Result<(), Fail> {
    assert_eq!(rt; replies(rt.alloc())?, (None, true));
    Ok(())
}
