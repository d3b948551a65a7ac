//! A shard as a handle keeps it: open, or closed with all that the next opening can use again.
ghost use Rattle.std.specs.Prelude.{◌≡◌, [], IfOk};
ghost use Rattle.foreign_list.specs.OwnerSeats.{IsAtRest};
ghost use Rattle.shard_memory.specs.Tickets.{tickets_out};
ghost use Rattle.embedded_cache.specs.States.{CanOpen, IsUnguarded};

use embedded_cache::{Cache, Foreign, Opening, OwnerSeat};
use std::alloc::Global;

/// A cache, and the list over which its blocks come home. A list stays for as long as the program runs, since a block may be out
/// whenever; so the next cache of the handle is opened over the same one.
#[derive(Drop)]
pub struct Opened {
    list: &'static Foreign,
    pub(crate) cache: Cache<'static>,
    ghost over: { cache.store.list ≡ list.now },
    ghost owner: { list.now.owner ≡ 0 },
}

impl Opened {
    /// Gives the memory of the cache back.
    pub(crate) fn close(self) -> Home
        requires idle { tickets_out self.cache.store.lent ≡ 0 }
        requires unguarded { IsUnguarded self.cache }
    {
        let Opened { list, cache } = self;
        let seat = cache.close();
        Home { list, seat }
    }
}

/// A list without a cache, and its owner's seat.
#[derive(Drop)]
pub struct Home {
    list: &'static Foreign,
    seat: OwnerSeat,
    ghost rest: { IsAtRest list.now seat },
    ghost owner: { list.now.owner ≡ 0 },
}

impl Home {
    /// A new one. None where there is no memory for it.
    pub(crate) fn new(alloc: Global) -> Option<Home> {
        let Ok((list, seat)) = Foreign::new(alloc, 0) else {
            return None;
        };
        let Ok(list) = Box::new(alloc, list) else {
            return None;
        };
        let list: &'static Foreign = Box::leak(list);
        Some(Home { list, seat })
    }

    /// A cache over the list. Without memory the list comes back.
    pub(crate) fn open(self, alloc: Global, opening: Opening) -> Result<Opened, Home>
        requires opening { CanOpen opening }
        requires shard { opening.shard ≡ 0 }
        ensures numbers { IfOk result (λ o. (o.cache.store.pages ≡ opening.pages) × (o.cache.store.regions ≡ opening.regions)
            × (o.cache.store.room ≡ opening.rows) × (o.cache.bound ≡ opening.bound)) }
        ensures rows { IfOk result (λ o. o.cache.store.rows ≡ []) }
    {
        let Home { list, seat } = self;
        match Cache::open(alloc, opening, list, seat) {
            Ok(cache) => Ok(Opened { list, cache }),
            Err(refusal) => {
                let seat = refusal.seat;
                Err(Home { list, seat })
            }
        }
    }
}

/// What a handle keeps. It has one of the two, but while it is opened or closed.
#[derive(Drop)]
pub struct Shard {
    // None where it is closed.
    pub(crate) opened: Option<Opened>,
    // None where it is open.
    pub(crate) home: Option<Home>,
}
