//! What no clause says: that memory is found, who wins a race, and in which order blocks come home.
ghost use Rattle.std.specs.Prelude.{◌≡◌, ◌≤◌, [], IfOk};
ghost use Rattle.foreign_list.specs.OwnerSeats.{IsSeatOf};

use foreign_list::{
    Foreign, ForeignBlock, LinkedBlock, OwnerSeat, Released, Tally, law_of_the_list,
};
use raw_range::{Piece, Range};
use std::alloc::{AllocError, Global};
use std::process::Abort;
use std::sync::Wait;
use std::test::Fail;
use std::thread;

const OWNER: u32 = 3;

// A piece of a range of its own.
fn piece_of(alloc: Global, owner: u32) -> Result<Piece, AllocError>
    ensures { IfOk result (λ piece. piece.owner ≡ owner) }
{
    let mut range = Range::new(alloc, owner, 1)?;
    Ok(range.take(16, 64))
}

// Lends two tickets that are idle.
fn lend_two<'f>(
    rt: &impl Abort,
    alloc: Global,
    list: &'f Foreign,
    seat: &mut OwnerSeat,
    tickets: (u32, u32),
) -> Result<(ForeignBlock<'f>, ForeignBlock<'f>), AllocError>
    requires seat { IsSeatOf list.now seat.old × (seat.old.walk ≡ []) }
    requires owner { list.now.owner ≡ 3 }
    ensures { IsSeatOf list.now seat.new × (seat.new.walk ≡ []) }
{
    let (first, second) = tickets;
    assert!(rt; seat.is_idle(first));
    let a = list.lend(seat, first, piece_of(alloc, OWNER)?);
    assert!(rt; seat.is_idle(second));
    let b = list.lend(seat, second, piece_of(alloc, OWNER)?);
    Ok((a, b))
}

// The second of these tickets comes home, then the first, and then none.
fn expect_two(rt: &impl Abort, list: &Foreign, seat: &mut OwnerSeat, tickets: (u32, u32))
    requires { IsSeatOf list.now seat.old }
    ensures { IsSeatOf list.now seat.new }
{
    let newest = list.next_back(seat).expect(rt, "none came home");
    let oldest = list.next_back(seat).expect(rt, "one came home");
    assert_eq!(rt; (oldest.ticket, newest.ticket), tickets);
    assert!(rt; list.next_back(seat).is_none());
}

fn release<'f>(rt: &impl Abort, block: ForeignBlock<'f>) -> Released<'f> {
    let Ok(released) = block.release() else {
        panic!(rt; "another came between")
    };
    released
}

fn swing<'f>(rt: &impl Abort, block: LinkedBlock<'f>) -> Released<'f> {
    let Ok(released) = block.swing() else {
        panic!(rt; "another came between")
    };
    released
}

// The swing races with this head expected and that found.
fn race<'f>(
    rt: &impl Abort,
    block: LinkedBlock<'f>,
    expected: Option<u32>,
    found: Option<u32>,
) -> ForeignBlock<'f> {
    let Err(raced) = block.swing() else {
        panic!(rt; "nobody came between")
    };
    assert_eq!(rt; (raced.expected, raced.found), (expected, found));
    raced.block
}

// Looks at each ticket, and then ends the list.
fn close_idle(rt: &impl Abort, list: Foreign, seat: OwnerSeat)
    requires { IsSeatOf list seat }
{
    for ticket in 0..32 {
        assert!(rt; seat.is_idle(ticket));
    }
    seat.facts();
    list.close(seat);
}

// Which of these tickets are idle: 0, 1, 8, and 32, which no list has.
fn idle_of(seat: &OwnerSeat) -> [bool; 4] {
    [
        seat.is_idle(0),
        seat.is_idle(1),
        seat.is_idle(8),
        seat.is_idle(32),
    ]
}

#[test]
fn the_newest_comes_home_first(rt: HostRuntime) -> Result<(), Fail> {
    let alloc = rt.alloc();
    let (list, mut seat) = Foreign::new(alloc, OWNER)?;
    let (a, b) = lend_two(&rt, alloc, &list, &mut seat, (0, 8))?;
    assert_eq!(rt; (a.home(), a.ticket(), b.ticket()), (OWNER, 0, 8));
    assert_eq!(rt; idle_of(&seat), [false, true, false, false]);
    let mut tally = Tally::new();
    tally.add(release(&rt, a));
    tally.add(release(&rt, b));
    assert_eq!(rt;
        (idle_of(&seat), tally.count()),
        ([false, true, false, false], 2)
    );
    list.take_whole(&mut seat);
    assert_eq!(rt; idle_of(&seat), [false, true, false, false]);
    expect_two(&rt, &list, &mut seat, (0, 8));
    assert_eq!(rt; idle_of(&seat), [true, true, true, false]);
    close_idle(&rt, list, seat);
    law_of_the_list();
    Ok(())
}

// The swing of the second ticket races with that of the first, and is tried again.
fn race_with_another(rt: &impl Abort, alloc: Global, tickets: (u32, u32)) -> Result<(), Fail> {
    let (list, mut seat) = Foreign::new(alloc, OWNER)?;
    let (a, b) = lend_two(rt, alloc, &list, &mut seat, tickets)?;
    let a = a.begin();
    let b = b.begin();
    drop(swing(rt, a));
    let b = race(rt, b, None, Some(tickets.0));
    drop(release(rt, b));
    list.take_whole(&mut seat);
    expect_two(rt, &list, &mut seat, tickets);
    Ok(())
}

// It races with a take-whole.
fn race_with_a_take_whole(rt: &impl Abort, alloc: Global, tickets: (u32, u32)) -> Result<(), Fail> {
    let (list, mut seat) = Foreign::new(alloc, OWNER)?;
    let (a, b) = lend_two(rt, alloc, &list, &mut seat, tickets)?;
    drop(release(rt, a));
    let b = b.begin();
    list.take_whole(&mut seat);
    drop(race(rt, b, Some(tickets.0), None));
    Ok(())
}

// The head is again the ticket that the block saw, lent anew meanwhile. The link to it is as good as ever.
fn meet_the_same_head(rt: &impl Abort, alloc: Global, tickets: (u32, u32)) -> Result<(), Fail> {
    let (list, mut seat) = Foreign::new(alloc, OWNER)?;
    let (a, b) = lend_two(rt, alloc, &list, &mut seat, tickets)?;
    drop(release(rt, a));
    let b = b.begin();
    list.take_whole(&mut seat);
    let back = list.next_back(&mut seat).expect(rt, "none came home");
    assert_eq!(rt; back.ticket, tickets.0);
    assert!(rt; list.next_back(&mut seat).is_none());
    assert!(rt; seat.is_idle(tickets.0) && back.piece.owner() == OWNER);
    drop(release(rt, list.lend(&mut seat, tickets.0, back.piece)));
    drop(swing(rt, b));
    list.take_whole(&mut seat);
    expect_two(rt, &list, &mut seat, tickets);
    Ok(())
}

#[test]
fn a_swing_may_race(rt: HostRuntime) -> Result<(), Fail> {
    for tickets in [(0, 8), (30, 31)] {
        race_with_another(&rt, rt.alloc(), tickets)?;
        race_with_a_take_whole(&rt, rt.alloc(), tickets)?;
        meet_the_same_head(&rt, rt.alloc(), tickets)?;
    }
    Ok(())
}

// Lends 16 of the 32 tickets, each ten behind the one before.
fn lend_half<'f>(
    rt: &impl Abort,
    alloc: Global,
    list: &'f Foreign,
    seat: &mut OwnerSeat,
    first: u32,
) -> Result<Vec<ForeignBlock<'f>>, Fail>
    requires seat { IsSeatOf list.now seat.old × (seat.old.walk ≡ []) }
    requires owner { list.now.owner ≡ 3 }
    requires first { first ≤ 1 }
    ensures { IsSeatOf list.now seat.new × (seat.new.walk ≡ []) }
{
    let mut blocks = Vec::with_capacity(alloc, 16)?;
    for i in 0..16u32 {
        let ticket = (first + 10 * i) % 32;
        assert!(rt; seat.is_idle(ticket));
        let _ = blocks.push(list.lend(seat, ticket, piece_of(alloc, OWNER)?));
    }
    Ok(blocks)
}

// Releases the last first.
fn release_all<'f>(rt: &impl Abort, blocks: Vec<ForeignBlock<'f>>) {
    let mut blocks = blocks;
    while let Some(block) = blocks.pop() {
        drop(release(rt, block));
    }
}

// The next 16 come home in the order in which they were lent.
fn expect_half(rt: &impl Abort, list: &Foreign, seat: &mut OwnerSeat, first: u32)
    requires { IsSeatOf list.now seat.old × (first ≤ 1) }
    ensures { IsSeatOf list.now seat.new }
{
    for i in 0..16u32 {
        let ticket = (first + 10 * i) % 32;
        let back = list.next_back(seat).expect(rt, "too few came home");
        assert_eq!(rt; back.ticket, ticket);
        assert!(rt; seat.is_idle(ticket));
    }
}

#[test]
fn all_tickets_come_home_in_a_mixed_order(rt: HostRuntime) -> Result<(), Fail> {
    let alloc = rt.alloc();
    let (list, mut seat) = Foreign::new(alloc, OWNER)?;
    let even = lend_half(&rt, alloc, &list, &mut seat, 0)?;
    let odd = lend_half(&rt, alloc, &list, &mut seat, 1)?;
    for ticket in 0..33 {
        assert!(rt; !seat.is_idle(ticket));
    }
    release_all(&rt, even);
    release_all(&rt, odd);
    list.take_whole(&mut seat);
    expect_half(&rt, &list, &mut seat, 1);
    expect_half(&rt, &list, &mut seat, 0);
    assert!(rt; list.next_back(&mut seat).is_none());
    Ok(())
}

fn give_back<'f, R: Wait>(rt: &R, block: ForeignBlock<'f>) -> Released<'f> {
    let mut block = block;
    for _ in rt.forever() {
        match block.release() {
            Ok(released) => return released,
            Err(raced) => block = raced.block,
        }
    }
    unreachable!()
}

#[test]
fn two_threads_give_back_at_once(rt: HostRuntime) -> Result<(), Fail> {
    let alloc = rt.alloc();
    let pieces = (piece_of(alloc, OWNER)?, piece_of(alloc, OWNER)?);
    let (list, mut seat) = Foreign::new(alloc, OWNER)?;
    let mut a = list.lend(&mut seat, 0, pieces.0);
    let b = list.lend(&mut seat, 8, pieces.1);
    a.bytes_mut().fill(7);
    let (a, b) = thread::join(&rt, || give_back(&rt, a), || give_back(&rt, b));
    let mut tally = Tally::new();
    tally.add(a);
    tally.add(b);
    list.take_whole(&mut seat);
    let first = list.next_back(&mut seat).expect(&rt, "none came home");
    let second = list.next_back(&mut seat).expect(&rt, "one came home");
    assert!(rt; seat.is_idle(0) && seat.is_idle(8) && tally.count() == 2);
    let written = if first.ticket == 0 {
        first.piece
    } else {
        second.piece
    };
    assert!(rt; written.bytes() == [7; 64].as_slice());
    Ok(())
}
