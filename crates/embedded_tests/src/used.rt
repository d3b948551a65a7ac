// How a cache is used by itself.
ghost use Rattle.std.specs.Prelude.{◌≡◌, IfOk};
ghost use Rattle.foreign_list.specs.OwnerSeats.{IsAtRest};
ghost use Rattle.shard_memory.specs.Tickets.{tickets_out};
ghost use Rattle.embedded_cache.specs.States.{IsUnguarded};

use embedded_cache::{Cache, Foreign, Opening, OwnerSeat, Put};
use std::alloc::Global;
use std::test::Fail;

// A cache of 1,280 pages with room for a thousand rows.
pub(crate) fn small<'f>(
    alloc: Global,
    home: &'f Foreign,
    seat: OwnerSeat,
) -> Result<Cache<'f>, Fail>
    requires owner { home.now.owner ≡ 0 }
    requires seat { IsAtRest home.now seat }
    ensures list { IfOk result (λ c. c.store.list ≡ home.now) }
    ensures idle { IfOk result (λ c. tickets_out c.store.lent ≡ 0) }
    ensures unguarded { IfOk result IsUnguarded }
{
    let opening = Opening::of_pages(0, 1280, 1000);
    let cache = Cache::open(alloc, opening, home, seat)?;
    Ok(cache)
}

// Ends a cache. False where a guard stands, or a block is out.
pub(crate) fn finish(cache: Cache<'_>) -> bool {
    if cache.is_guarded() || cache.blocks_out() != 0 {
        return false;
    }
    let _seat = cache.close();
    true
}

// Puts a row and reads it. How many rows went for it, and whether it reads as it was put.
fn put_and_get(cache: &mut Cache<'_>) -> (u64, bool)
    requires unguarded { IsUnguarded cache.old }
{
    let mut tags = [0u32; 4];
    let answer = cache.put(3, b"apple", b"red", 7, &mut tags);
    let Some((value, tag)) = cache.get(3, b"apple") else {
        return (answer.evicted, false);
    };
    let same = value == b"red".as_slice() && tag == 7;
    (answer.evicted, same && answer.put == Put::Stored)
}

#[test]
fn a_cache_is_opened_used_and_closed(rt: HostRuntime) -> Result<(), Fail> {
    let (home, seat) = Foreign::new(rt.alloc(), 0)?;
    let mut cache = small(rt.alloc(), &home, seat)?;
    assert_eq!(rt; put_and_get(&mut cache), (0, true));
    let stats = cache.stats();
    let text = format!(in rt.alloc(); "{stats}")?;
    assert_eq!(rt;
        text.as_str(),
        "rows 1 of 1000 live 48 of 4632264 evictions 0 gets 1 hits 1 blocks 0"
    );
    assert!(rt; finish(cache));
    Ok(())
}

#[test]
fn a_seat_that_came_back_opens_a_cache_again(rt: HostRuntime) -> Result<(), Fail> {
    let (home, seat) = Foreign::new(rt.alloc(), 0)?;
    let first = small(rt.alloc(), &home, seat)?;
    let seat = first.close();
    let second = small(rt.alloc(), &home, seat)?;
    assert!(rt; finish(second));
    Ok(())
}
