//! What no clause says: that memory is found, what fixed numbers give, and that blocks come home in any order.
ghost use Rattle.std.specs.Prelude.{◌≡◌, ◌+◌, ◌≤◌, [], length};
ghost use Rattle.layout.specs.Sizes.{ArePages};
ghost use Rattle.shard_memory.specs.Shards.{most_blocks};

use foreign_list::{Foreign, ForeignBlock};
use layout::MOST_PAGES;
use shard_memory::{GiveRefusal, ShardMemory, Share};
use std::alloc::{AllocError, Global};
use std::process::Abort;
use std::test::Fail;

const OWNER: u32 = 3;

const PAGES: u32 = 1280;

// Whether no block of so many bytes is lent, for this reason.
fn refuses(memory: &mut ShardMemory<'_>, size: u32, share: Share, refusal: GiveRefusal) -> bool
    requires { 1 ≤ size }
{
    memory.give(size, share).err() == Some(refusal)
}

// Whether blocks are lent with these tickets, in this order. They are not released.
fn lends(memory: &mut ShardMemory<'_>, share: Share, from: u32, to: u32) -> bool {
    for ticket in from..to {
        let given = memory.give(16, share).map(|block| block.ticket()).ok();
        if given != Some(ticket) {
            return false;
        }
    }
    true
}

// Whether the requests' tickets are lent and no others of theirs, and one of the replies'.
fn lends_shares(memory: &mut ShardMemory<'_>) -> [bool; 6] {
    [
        refuses(memory, 16_385, Share::Request, GiveRefusal::TooLarge),
        lends(memory, Share::Request, 0, 8),
        refuses(memory, 16, Share::Request, GiveRefusal::NoTicket),
        !memory.is_idle(Share::Request),
        memory.is_idle(Share::Reply),
        lends(memory, Share::Reply, 8, 9),
    ]
}

#[test]
fn each_share_has_tickets_of_its_own(rt: HostRuntime) -> Result<(), Fail> {
    let (home, seat) = Foreign::new(rt.alloc(), OWNER)?;
    let Ok(mut memory) = ShardMemory::open(rt.alloc(), OWNER, PAGES, &home, seat) else {
        return Err(AllocError.into());
    };
    assert_eq!(rt; lends_shares(&mut memory), [true; 6]);
    assert_eq!(rt;
        (memory.lent(), memory.back(), memory.pages_out()),
        (9, 0, 1)
    );
    Ok(())
}

// How many segments are given until none is left, up to a hundred.
fn segments(memory: &mut ShardMemory<'_>) -> u32 {
    for given in 0..100 {
        if memory.give_segment().is_none() {
            return given;
        }
    }
    100
}

#[test]
fn where_segments_fill_the_pages_no_block_is_lent(rt: HostRuntime) -> Result<(), Fail> {
    let (home, seat) = Foreign::new(rt.alloc(), OWNER)?;
    let Ok(mut memory) = ShardMemory::open(rt.alloc(), OWNER, PAGES, &home, seat) else {
        return Err(AllocError.into());
    };
    assert_eq!(rt; segments(&mut memory), 40);
    assert!(rt; refuses(&mut memory, 16, Share::Reply, GiveRefusal::NoSpan));
    assert_eq!(rt; memory.pages_out(), PAGES);
    Ok(())
}

// Lends a block with each idle ticket of the share.
fn lend_all<'f>(
    memory: &mut ShardMemory<'f>,
    share: Share,
    blocks: &mut Vec<ForeignBlock<'f>>,
) -> Result<(), AllocError>
    ensures kept { (memory.new.blocks ≡ memory.old.blocks)
        × (memory.new.segments ≡ memory.old.segments)
        × (memory.new.list ≡ memory.old.list) }
{
    for n in 1..33 {
        let Ok(block) = memory.give(500 * n, share) else {
            return Ok(());
        };
        blocks.push(block)?;
    }
    Ok(())
}

// Releases 16 blocks, those in the middle first.
fn release_half(blocks: &mut Vec<ForeignBlock<'_>>) {
    for _ in 0..16 {
        if blocks.is_empty() {
            return;
        }
        let middle = blocks.len() / 2;
        let _ = blocks.swap_remove(middle).release();
    }
}

// Lends all blocks, and takes back one half and then the other. False where there is no memory, or a number is not right.
fn come_home(memory: &mut ShardMemory<'_>, alloc: Global) -> bool
    ensures kept { (memory.new.blocks ≡ memory.old.blocks)
        × (memory.new.segments ≡ memory.old.segments)
        × (memory.new.list ≡ memory.old.list) }
{
    let mut blocks = Vec::new(alloc);
    if lend_all(memory, Share::Request, &mut blocks).is_err()
        || lend_all(memory, Share::Reply, &mut blocks).is_err()
    {
        return false;
    }
    let lent = (blocks.len(), memory.tickets_out());
    release_half(&mut blocks);
    let half = (memory.lent(), memory.back(), memory.take_back());
    let rest = (memory.back(), memory.tickets_out(), memory.take_back());
    release_half(&mut blocks);
    drop(blocks);
    let all = (memory.take_back(), memory.lent(), memory.back());
    memory.trim();
    let counts = (lent, half, rest, all);
    counts == ((32, 32), (32, 0, 16), (16, 16, 0), (16, 32, 32)) && memory.pages_out() == 0
}

#[test]
fn all_blocks_come_home_in_any_order(rt: HostRuntime) -> Result<(), Fail> {
    let (home, seat) = Foreign::new(rt.alloc(), OWNER)?;
    let Ok(mut memory) = ShardMemory::open(rt.alloc(), OWNER, PAGES, &home, seat) else {
        return Err(AllocError.into());
    };
    let right = come_home(&mut memory, rt.alloc());
    assert_eq!(rt; (right, memory.tickets_out()), (true, 0));
    let seat = memory.finish();
    home.close(seat);
    Ok(())
}

// Whether a block that was given and came back leaves its page to trim.
fn leaves_a_page(memory: &mut ShardMemory<'_>) -> bool
    requires none { memory.old.blocks ≡ [] }
    ensures kept { (memory.new.blocks ≡ []) × (memory.new.segments ≡ memory.old.segments) × (memory.new.list ≡ memory.old.list) }
{
    let Ok(block) = memory.give_here(100) else {
        return false;
    };
    let given = (block.len(), block.owner(), memory.blocks_here());
    memory.back_here(block);
    let held = (memory.pages_out(), memory.blocks_here());
    memory.trim();
    (given, held, memory.pages_out()) == ((100, OWNER, 1), (1, 0), 0)
}

// Whether a segment that was given and came back leaves no page.
fn leaves_no_page(memory: &mut ShardMemory<'_>) -> bool
    requires none { memory.old.segments ≡ [] }
    ensures kept { (memory.new.blocks ≡ memory.old.blocks) × (memory.new.segments ≡ []) × (memory.new.list ≡ memory.old.list) }
{
    let Some(segment) = memory.give_segment() else {
        return false;
    };
    let given = (segment.len(), memory.pages_out());
    memory.segment_back(segment);
    (given, memory.pages_out()) == ((131_072, 32), 0)
}

// A block and a segment are given of so many pages and come back, and the memory ends.
fn expect_pages_left(rt: &impl Abort, alloc: Global, pages: u32) -> Result<(), Fail>
    requires { ArePages pages }
{
    let (home, seat) = Foreign::new(alloc, OWNER)?;
    let mut memory = match ShardMemory::open(alloc, OWNER, pages, &home, seat) {
        Ok(memory) => memory,
        Err(seat) => {
            home.close(seat);
            return Err(AllocError.into());
        }
    };
    let right = [leaves_a_page(&mut memory), leaves_no_page(&mut memory)];
    assert_eq!(rt; (right, memory.tickets_out()), ([true; 2], 0));
    let seat = memory.finish();
    home.close(seat);
    Ok(())
}

#[test]
fn what_stays_leaves_its_pages_to_trim(rt: HostRuntime) -> Result<(), Fail> {
    expect_pages_left(&rt, rt.alloc(), PAGES)
}

// Of 2 GiB that are reserved a segment and a block are written.
#[test]
fn the_most_pages_are_opened_give_and_end(rt: HostRuntime) -> Result<(), Fail> {
    expect_pages_left(&rt, rt.alloc(), MOST_PAGES)
}

// Whether no ticket is idle, and a block that stays is given all the same.
fn has_blocks_without_tickets(memory: &mut ShardMemory<'_>) -> bool
    requires none { memory.old.blocks ≡ [] }
{
    let Ok(block) = memory.give_here(100) else {
        return false;
    };
    let given = (block.len(), block.owner());
    memory.back_here(block);
    let idle = (memory.is_idle(Share::Request), memory.is_idle(Share::Reply));
    (given, idle) == ((100, OWNER), (false, false))
        && refuses(memory, 100, Share::Reply, GiveRefusal::NoTicket)
}

// Lends all blocks, takes all back but those with the last ticket of each share, and then these. False where a number is
// not right.
fn last_tickets_come_home(memory: &mut ShardMemory<'_>, alloc: Global) -> bool
    requires none { memory.old.blocks ≡ [] }
{
    let mut blocks = Vec::new(alloc);
    if lend_all(memory, Share::Request, &mut blocks).is_err()
        || lend_all(memory, Share::Reply, &mut blocks).is_err()
        || !has_blocks_without_tickets(memory)
        || blocks.len() != 32
    {
        return false;
    }
    let request = blocks.swap_remove(7);
    let reply = blocks.swap_remove(7);
    let tickets = (request.ticket(), reply.ticket());
    release_half(&mut blocks);
    release_half(&mut blocks);
    drop(blocks);
    let home = (memory.take_back(), memory.tickets_out());
    let idle = (memory.is_idle(Share::Request), memory.is_idle(Share::Reply));
    let released = (request.release().is_ok(), reply.release().is_ok());
    let all = (memory.take_back(), memory.tickets_out());
    (tickets, home, idle, released) == ((7, 31), (30, 2), (true, true), (true, true))
        && all == (2, 0)
}

#[test]
fn the_last_ticket_of_each_share_goes_out_and_comes_home(rt: HostRuntime) -> Result<(), Fail> {
    let (home, seat) = Foreign::new(rt.alloc(), OWNER)?;
    let Ok(mut memory) = ShardMemory::open(rt.alloc(), OWNER, PAGES, &home, seat) else {
        return Err(AllocError.into());
    };
    assert!(rt; last_tickets_come_home(&mut memory, rt.alloc()));
    Ok(())
}

// Gives a block of the greatest size that stays, gives others behind it likewise, at most so many in all, and takes it
// back. Answers how many there was room for, and how many pages were out then.
fn fill_and_empty(memory: &mut ShardMemory<'_>, most: u32) -> (u32, u32)
    requires few { length memory.old.blocks + most ≤ most_blocks }
    ensures blocks { memory.new.blocks ≡ memory.old.blocks }
    ensures home { memory.new.home ≡ memory.old.home }
{
    if most == 0 {
        return (0, memory.pages_out());
    }
    let Ok(block) = memory.give_here(16_384) else {
        return (0, memory.pages_out());
    };
    let (behind, out) = fill_and_empty(memory, most - 1);
    memory.back_here(block);
    (behind.wrapping_add(1), out)
}

// A pool's span of 16 pages has four such blocks, and 1,280 pages have 80 of these spans.
#[test]
fn blocks_that_stay_fill_the_pages_and_leave_them(rt: HostRuntime) -> Result<(), Fail> {
    let (home, seat) = Foreign::new(rt.alloc(), OWNER)?;
    let Ok(mut memory) = ShardMemory::open(rt.alloc(), OWNER, PAGES, &home, seat) else {
        return Err(AllocError.into());
    };
    assert_eq!(rt; fill_and_empty(&mut memory, 400), (320, PAGES));
    memory.trim();
    assert_eq!(rt; memory.pages_out(), 0);
    assert_eq!(rt; fill_and_empty(&mut memory, 400), (320, PAGES));
    memory.trim();
    assert_eq!(rt; segments(&mut memory), 40);
    Ok(())
}
