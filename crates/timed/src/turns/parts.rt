//! Parts without a node.
ghost use Rattle.std.specs.Prelude.{◌≡◌, Contains, IfSome};
ghost use Rattle.foreign_list.specs.OwnerSeats.{IsAtRest};
ghost use Rattle.shard_store.specs.Stores.{IsUnguarded};

use cache_model::Entry;
use foreign_list::{Foreign, OwnerSeat};
use layout::FEWEST_PAGES;
use run_log::Journal;
use shard_rings::{Operation, operation_of};
use shard_store::ShardStore;
use std::alloc::Global;
use trace_text::{Command, Trace};

/// Does the commands of a trace on a store, at most so many reads, and answers how many rows were read.
pub fn read_rows(alloc: Global, trace: &Trace, reads: u32) -> Option<u64> {
    let (home, seat) = Foreign::new(alloc, 0).ok()?;
    let mut journal = Journal::new(alloc, trace.commands().len() as u32).ok()?;
    let mut values = Vec::with_capacity(alloc, 8 * reads as usize).ok()?;
    let mut store = open_store(alloc, &home, seat)?;
    let read = do_parts(&mut store, trace, reads, &mut journal, &mut values);
    drop(store);
    Some(read)
}

fn open_store<'f>(alloc: Global, home: &'f Foreign, seat: OwnerSeat) -> Option<ShardStore<'f>>
    requires owner { home.now.owner ≡ 0 }
    requires seat { IsAtRest home.now seat }
    ensures unguarded { IfSome result IsUnguarded }
    ensures room { IfSome result (λ store. store.room ≡ 1) }
{
    match ShardStore::open(alloc, 0, FEWEST_PAGES, 1, 1, home, seat) {
        Ok(store) => Some(store),
        Err(_) => None,
    }
}

/// Does the commands, at most so many reads, and answers how many rows were read.
fn do_parts(
    store: &mut ShardStore<'_>,
    trace: &Trace,
    reads: u32,
    journal: &mut Journal,
    values: &mut Vec<u8>,
) -> u64
    requires unguarded { IsUnguarded store.old }
    requires room { store.old.room ≡ 1 }
{
    let mut read = 0u64;
    for command in trace.commands() {
        if read == u64::from(reads) {
            break;
        }
        if do_part(store, trace, command, journal, values) {
            read = read.saturating_add(1);
        }
    }
    read
}

/// Does a command: the first put stores its row, and each get reads one. Answers whether a row was read.
fn do_part(
    store: &mut ShardStore<'_>,
    trace: &Trace,
    command: &Command,
    journal: &mut Journal,
    values: &mut Vec<u8>,
) -> bool
    requires command { Contains trace.now.commands command.now }
    requires unguarded { IsUnguarded store.old }
    requires room { store.old.room ≡ 1 }
    ensures unguarded { IsUnguarded store.new }
    ensures room { store.new.room ≡ 1 }
{
    if journal.spare() == 0 {
        return false;
    }
    match operation_of(trace, command) {
        Operation::Put { key, value } if store.rows() == 0 => {
            store.put(key.table, key.bytes, value, command.number, journal);
            false
        }
        Operation::Get { key } => {
            journal.add(Entry::Done(command.number));
            match store.get(key.table, key.bytes) {
                Some((value, _)) => values.extend_from_slice(value).is_ok(),
                None => false,
            }
        }
        _ => false,
    }
}
