//! A caller of `small_pools`: pools over pages of their own, and an object that is taken and put back.
ghost use Rattle.std.specs.Prelude.{◌≡◌};
ghost use Rattle.small_pools.specs.Objects.{AreHeldIn};
ghost use Rattle.small_pools.specs.Sizes.{ArePages};

use small_pools::{Pools, Spans, class_of};
use std::alloc::{AllocError, Global};

/// Takes an object of so many bytes, puts it back, and gives the pages back that no object needs. False where there is no such
/// object.
pub fn borrow_once(pools: &mut Pools, spans: &mut Spans, size: u32) -> bool
    requires { AreHeldIn pools.old spans.old }
    ensures allocated { pools.new.allocated ≡ pools.old.allocated }
    ensures held { AreHeldIn pools.new spans.new }
{
    let Some(class) = class_of(size) else {
        return false;
    };
    let Some(place) = pools.take(spans, class) else {
        return false;
    };
    pools.put(place);
    pools.trim(spans);
    true
}

/// Whether pools over so many pages have an object of so many bytes. Pools and pages are dropped: they hold numbers and no bytes.
///
/// # Errors
/// Want of memory.
pub fn has_object(alloc: Global, pages: u32, size: u32) -> Result<bool, AllocError>
    requires { ArePages pages }
{
    let mut spans = Spans::new(alloc, pages)?;
    let mut pools = Pools::new(alloc, pages)?;
    Ok(borrow_once(&mut pools, &mut spans, size))
}
