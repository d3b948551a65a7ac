// Values that are lent to other threads, which read each where it stands and give it back.
ghost use Rattle.embedded_cache.specs.States.{IsUnguarded};

use crate::used::{finish, small};
use embedded_cache::{Cache, Foreign, ForeignBlock, Share};
use std::sync::Wait;
use std::test::Fail;
use std::thread;

const HEAD: u32 = 8;

// Two values, each behind a head. None where no ticket is idle.
fn lend_two<'f>(cache: &mut Cache<'f>) -> Option<(ForeignBlock<'f>, ForeignBlock<'f>)>
    requires unguarded { IsUnguarded cache.old }
{
    let mut tags = [0u32; 4];
    cache.put(0, b"apple", b"red", 1, &mut tags);
    cache.put(0, b"pear", b"green", 2, &mut tags);
    let apple = cache.lend(0, b"apple", HEAD, Share::Reply, &mut tags)?;
    let pear = cache.lend(0, b"pear", HEAD, Share::Reply, &mut tags)?;
    Some((apple.block, pear.block))
}

// Whether this value stands behind the head. The block is released.
fn read_and_release<R: Wait>(rt: &R, block: ForeignBlock<'_>, value: &[u8]) -> bool {
    let found = match block.bytes().get(HEAD as usize..) {
        Some(behind) => behind == value,
        None => false,
    };
    release(rt, block);
    found
}

fn release<R: Wait>(rt: &R, block: ForeignBlock<'_>) {
    let mut block = block;
    for _ in rt.forever() {
        match block.release() {
            Ok(_) => return,
            Err(raced) => block = raced.block,
        }
    }
    unreachable!()
}

#[test]
fn other_threads_read_and_release_what_a_cache_lends(rt: HostRuntime) -> Result<(), Fail> {
    let (home, seat) = Foreign::new(rt.alloc(), 0)?;
    let mut cache = small(rt.alloc(), &home, seat)?;
    let (apple, pear) = lend_two(&mut cache).expect(&rt, "no ticket is idle");
    assert_eq!(rt; cache.blocks_out(), 2);
    let read = thread::join(
        &rt,
        || read_and_release(&rt, apple, b"red"),
        || read_and_release(&rt, pear, b"green"),
    );
    assert_eq!(rt; read, (true, true));
    assert_eq!(rt; cache.blocks_out(), 2);
    assert_eq!(rt; cache.take_back(), 2);
    assert!(rt; finish(cache));
    Ok(())
}
