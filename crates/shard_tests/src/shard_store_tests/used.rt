// How a store is used by itself.
ghost use Rattle.shard_store.specs.Stores.{IsUnguarded};

use foreign_list::Foreign;
use shard_store::{EvictionCount, Put, ShardStore, Share};
use std::alloc::AllocError;
use std::test::Fail;

// Whether the row of a key is of this put, and has this value.
fn holds(store: &mut ShardStore<'_>, key: &[u8], put: u32, value: &[u8]) -> bool
    requires unguarded { IsUnguarded store.old }
    ensures unguarded { IsUnguarded store.new }
{
    store.get(0, key) == Some((value, put))
}

#[test]
fn a_store_is_opened_and_used(rt: HostRuntime) -> Result<(), Fail> {
    let (home, seat) = Foreign::new(rt.alloc(), 0)?;
    let Ok(mut store) = ShardStore::open(rt.alloc(), 0, 1280, 1000, 1, &home, seat) else {
        return Err(AllocError.into());
    };
    let mut gone = EvictionCount::default();
    let stored = store.put(0, b"apple", b"red", 1, &mut gone) == Put::Stored;
    let is_red = holds(&mut store, b"apple", 1, b"red");
    assert_eq!(rt; (stored, is_red, gone.count), (true, true, 0));
    assert_eq!(rt; store.rows(), 1);
    assert!(rt; store.is_idle(Share::Reply));
    let (block, found) = store.lend_value(0, b"apple", 16, Share::Reply, &mut gone);
    assert_eq!(rt; (found, block.bytes().ends_with(b"red")), (Some(3), true));
    assert_eq!(rt; (block.release().is_ok(), store.take_back()), (true, 1));
    assert!(rt; store.erase(0, b"apple"));
    assert_eq!(rt; store.tickets_out(), 0);
    let _seat = store.finish();
    Ok(())
}
