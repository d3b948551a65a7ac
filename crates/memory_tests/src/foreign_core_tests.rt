//! Fixed histories of events, and each event in each state of a ticket.
use foreign_core::Event::{self, Back, Lend, Link, Look, Swing, TakeWhole};
use foreign_core::TicketState::{self, Carried, Idle, Linked, Listed, Looked, Walked};
use foreign_core::{Core, law_of_histories, replay};
use std::alloc::Global;
use std::process::Abort;
use std::test::Fail;

// The events are possible, and leave these states and this head.
fn expect_after(
    rt: &impl Abort,
    alloc: Global,
    events: &[Event],
    states: &[TicketState],
    head: Option<u32>,
) -> Result<(), Fail> {
    assert!(rt; states.len() <= 32);
    let tickets = states.len() as u32;
    let core = replay(alloc, tickets, events)?.ok_or("an event is not possible")?;
    for ticket in 0..tickets {
        assert_eq!(rt;
            core.state(ticket),
            states[ticket as usize],
            "ticket {ticket}"
        );
    }
    assert_eq!(rt; core.head(), head);
    Ok(())
}

#[test]
fn the_newest_comes_back_first(rt: HostRuntime) -> Result<(), Fail> {
    let events = [
        Lend(0),
        Lend(1),
        Look(0),
        Look(1),
        Link(0),
        Link(1),
        Swing(0),
        Swing(1),
        Look(1),
        Link(1),
        Swing(1),
        TakeWhole,
        Back,
        Back,
    ];
    // The second swing expected the empty list, and loses.
    expect_after(&rt, rt.alloc(), &events[..8], &[Listed, Carried], Some(0))?;
    expect_after(&rt, rt.alloc(), &events[..11], &[Listed, Listed], Some(1))?;
    expect_after(&rt, rt.alloc(), &events[..13], &[Walked, Idle], None)?;
    expect_after(&rt, rt.alloc(), &events, &[Idle, Idle], None)
}

#[test]
fn a_swing_loses_once_the_list_is_taken(rt: HostRuntime) -> Result<(), Fail> {
    let events = [
        Lend(0),
        Lend(1),
        Look(0),
        Link(0),
        Swing(0),
        Look(1),
        TakeWhole,
        Link(1),
        Swing(1),
    ];
    expect_after(
        &rt,
        rt.alloc(),
        &events[..6],
        &[Listed, Looked(Some(0))],
        Some(0),
    )?;
    expect_after(
        &rt,
        rt.alloc(),
        &events[..8],
        &[Walked, Linked(Some(0))],
        None,
    )?;
    expect_after(&rt, rt.alloc(), &events, &[Walked, Carried], None)
}

#[test]
fn a_walked_ticket_is_not_lent(rt: HostRuntime) -> Result<(), Fail> {
    let back = [
        Lend(0),
        Look(0),
        Link(0),
        Swing(0),
        TakeWhole,
        Back,
        Lend(0),
    ];
    expect_after(&rt, rt.alloc(), &back, &[Carried], None)?;
    let walked = [Lend(0), Look(0), Link(0), Swing(0), TakeWhole, Lend(0)];
    assert!(rt; replay(rt.alloc(), 1, &walked)?.is_none());
    let mut no_tickets = Core::new(rt.alloc(), 0)?;
    assert!(rt; !no_tickets.step(&Back));
    law_of_histories();
    Ok(())
}

// Whether an event is possible behind these, and the state after it. No event of a ticket that the core does not have is.
fn state_after(
    alloc: Global,
    events: &[Event],
    event: &Event,
) -> Result<(bool, TicketState), Fail> {
    let mut core = replay(alloc, 1, events)?.ok_or("not possible")?;
    let possible = core.step(event);
    let after = core.state(0);
    for other in [Lend(1), Look(1), Link(1), Swing(1)] {
        if core.step(&other) {
            return Err(Fail::new("there is no ticket 1"));
        }
    }
    Ok((possible, after))
}

// The state behind these events, and those after each event, or None where it is not possible.
fn expect_row(
    rt: &impl Abort,
    alloc: Global,
    events: &[Event],
    before: TicketState,
    row: &[Option<TicketState>; 6],
) -> Result<(), Fail> {
    let core = replay(alloc, 1, events)?.ok_or("not possible")?;
    assert_eq!(rt; core.state(0), before);
    let each = [Lend(0), Look(0), Link(0), Swing(0), TakeWhole, Back];
    for (event, after) in each.iter().zip(row) {
        let wanted = (after.is_some(), after.unwrap_or(before));
        assert_eq!(rt; state_after(alloc, events, event)?, wanted);
    }
    Ok(())
}

// One ticket in each state, and each event: the state after it, or None where it is not possible.
#[test]
fn each_event_in_each_state(rt: HostRuntime) -> Result<(), Fail> {
    let history = [Lend(0), Look(0), Link(0), Swing(0), TakeWhole];
    let looked = Looked(None);
    let linked = Linked(None);
    let table = [
        (Idle, [Some(Carried), None, None, None, Some(Idle), None]),
        (
            Carried,
            [None, Some(looked), None, None, Some(Carried), None],
        ),
        (looked, [None, None, Some(linked), None, Some(looked), None]),
        (linked, [None, None, None, Some(Listed), Some(linked), None]),
        (Listed, [None, None, None, None, Some(Walked), None]),
        (Walked, [None, None, None, None, None, Some(Idle)]),
    ];
    for length in 0..6 {
        let (before, row) = table[length];
        expect_row(&rt, rt.alloc(), &history[..length], before, &row)?;
    }
    Ok(())
}
