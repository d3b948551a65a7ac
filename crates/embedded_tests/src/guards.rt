// Guards, which nest, and compaction, which waits for them.
ghost use Rattle.std.specs.Prelude.{◌<◌};
ghost use Rattle.layout.specs.Sizes.{tables};

use crate::used::{finish, small};
use embedded_cache::{Cache, Compacted, Foreign};
use std::test::Fail;

// One guard more. False where there are many.
fn guard(cache: &mut Cache<'_>, table: u8) -> bool
    requires table { table < tables }
{
    if cache.guards(table) > 9 {
        return false;
    }
    cache.guard(table);
    true
}

// One guard less. False where there is none.
fn unguard(cache: &mut Cache<'_>, table: u8) -> bool
    requires table { table < tables }
{
    if cache.guards(table) == 0 {
        return false;
    }
    cache.unguard(table);
    true
}

// How many guards stand on the segments of a table's rows, whether one stands on any, and what compaction answers.
fn look(cache: &mut Cache<'_>, table: u8) -> (u32, bool, Compacted) {
    (cache.guards(table), cache.is_guarded(), cache.compact())
}

// Whether the row of a table's key has this value where it stands.
fn shows(cache: &Cache<'_>, table: u8, key: &[u8], value: &[u8]) -> bool
    requires table { table < tables }
{
    match cache.peek(table, key) {
        Some((found, _)) => found == value,
        None => false,
    }
}

#[test]
fn a_row_is_read_under_a_guard(rt: HostRuntime) -> Result<(), Fail> {
    let (home, seat) = Foreign::new(rt.alloc(), 0)?;
    let mut cache = small(rt.alloc(), &home, seat)?;
    let mut tags = [0u32; 1];
    let answer = cache.put(2, b"a", b"abc", 1, &mut tags);
    assert_eq!(rt; answer.evicted, 0);
    assert!(rt; guard(&mut cache, 2));
    assert!(rt; shows(&cache, 2, b"a", b"abc"));
    assert!(rt; unguard(&mut cache, 2));
    assert!(rt; finish(cache));
    Ok(())
}

#[test]
fn guards_nest_and_compaction_waits_for_them(rt: HostRuntime) -> Result<(), Fail> {
    let (home, seat) = Foreign::new(rt.alloc(), 0)?;
    let mut cache = small(rt.alloc(), &home, seat)?;
    let guarded = (guard(&mut cache, 2), guard(&mut cache, 2));
    assert_eq!(rt; guarded, (true, true));
    assert_eq!(rt; look(&mut cache, 2), (2, true, Compacted::Guarded));
    assert!(rt; unguard(&mut cache, 2));
    assert_eq!(rt; look(&mut cache, 2), (1, true, Compacted::Guarded));
    assert!(rt; unguard(&mut cache, 2));
    assert_eq!(rt; look(&mut cache, 2), (0, false, Compacted::NoneSparse));
    assert!(rt; finish(cache));
    Ok(())
}
