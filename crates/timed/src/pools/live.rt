//! Rounds that replace objects among many live ones.
ghost use Rattle.std.specs.Prelude.{◌<◌, ◌≡◌, vec_len, OnOk};
ghost use Rattle.small_pools.specs.Objects.{AreHeldIn};
ghost use Rattle.timed.specs.Live.{AreLive};

use super::rounds::{Drawn, draw};
use small_pools::Pools;
use span_lists::Spans;
use std::alloc::{AllocError, Global};

/// The classes of these objects, all of them of at most 1,024 bytes.
const CLASSES: u32 = 21;

/// Takes objects until there are so many.
fn fill(
    pools: &mut Pools,
    spans: &mut Spans,
    live: &mut Vec<u32>,
    count: u32,
    drawn: Drawn,
) -> Result<Drawn, AllocError>
    requires held { AreHeldIn pools.old spans.old }
    requires live { AreLive pools.old.allocated live.old.items }
    ensures held { AreHeldIn pools.new spans.new }
    ensures live { OnOk result (AreLive pools.new.allocated live.new.items) }
{
    let mut drawn = drawn;
    for _ in 0..count {
        let (class, next) = draw(drawn, CLASSES);
        drawn = next;
        let Some(place) = pools.take(spans, class) else {
            return Ok(drawn);
        };
        live.push(place)?;
    }
    Ok(drawn)
}

/// Takes an object, and puts back the one in whose place it lives from then on.
fn replace(pools: &mut Pools, spans: &mut Spans, live: &mut Vec<u32>, index: usize, class: u8)
    requires class { class < 37 }
    requires index { index < vec_len live.old }
    requires held { AreHeldIn pools.old spans.old }
    requires live { AreLive pools.old.allocated live.old.items }
    ensures held { AreHeldIn pools.new spans.new }
    ensures live { AreLive pools.new.allocated live.new.items }
    ensures len { vec_len live.new ≡ vec_len live.old }
{
    let Some(place) = pools.take(spans, class) else {
        return;
    };
    let old = live[index];
    pools.put(old);
    live[index] = place;
}

/// Replaces objects at random so many times.
fn replace_many(
    pools: &mut Pools,
    spans: &mut Spans,
    live: &mut Vec<u32>,
    count: u32,
    drawn: Drawn,
) -> Drawn
    requires held { AreHeldIn pools.old spans.old }
    requires live { AreLive pools.old.allocated live.old.items }
{
    let mut drawn = drawn;
    let len = live.len();
    if len == 0 {
        return drawn;
    }
    for _ in 0..count {
        let (class, next) = draw(drawn, CLASSES);
        let index = (next.number() >> 20) as usize % len;
        drawn = next;
        replace(pools, spans, live, index, class);
    }
    drawn
}

/// Takes so many objects, and then replaces some of them at random so many times.
pub fn fill_and_replace(
    alloc: Global,
    pools: &mut Pools,
    spans: &mut Spans,
    objects: u32,
    replacements: u32,
    drawn: Drawn,
) -> Result<Drawn, AllocError>
    requires held { AreHeldIn pools.old spans.old }
{
    let mut live = Vec::with_capacity(alloc, objects as usize)?;
    let drawn = fill(pools, spans, &mut live, objects, drawn)?;
    Ok(replace_many(pools, spans, &mut live, replacements, drawn))
}
