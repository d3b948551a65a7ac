//! The state of a foreign free list, and its steps.
ghost use Rattle.std.specs.Prelude.{◌≡◌, ◌<◌, ◌≤◌, ◌↔◌, [], length, IsTrue, IsSome, IfOk, Some, unwrap_or, map, slice_set, vec_capacity};
ghost use Rattle.foreign_core.specs.declared.ticket_state.TicketState.TheVariants.{Idle};
ghost use Rattle.foreign_core.specs.Tickets.{start, state_of, head_of, step, becomes, listed_first, taken};
ghost use Rattle.foreign_core.specs.Places.{IsOff};

use crate::event::Event;
use crate::ticket_state::TicketState;
use std::alloc::{AllocError, Global};
use std::marker::Model;
use std::mem;

/// The foreign free list of one owner: the state of each ticket, the list, newest first, and the walk,
/// which is what the last take-whole took and is not yet back. Contracts see these three.
#[derive(Debug, Drop)]
pub struct Core {
    states: Vec<TicketState>,
    // The tickets on the list, and those taken and not yet back, newest last.
    list: Vec<u32>,
    walk: Vec<u32>,
}

impl Model for Core {
    ghost use Rattle.foreign_core.specs.Tickets.{Tickets};
    ghost use Rattle.std.specs.Prelude.{reverse, length, vec_capacity, ◌≤◌};
    ghost use Rattle.foreign_core.specs.Places.{InOnePlace};

    ghost Value = { Tickets };

    ghost view = { λ c. record { states = c.states.items; listed = reverse c.list.items; walk = reverse c.walk.items } };

    // Each ticket is in one place, and both lists have room for all tickets.
    ghost invariant = { λ c. record {
      place : InOnePlace (record { states = c.states.items; listed = reverse c.list.items; walk = reverse c.walk.items });
      list_room : length c.states.items ≤ vec_capacity c.list;
      walk_room : length c.states.items ≤ vec_capacity c.walk;
    } };
}

impl Core {
    /// A core with this many tickets, all of them idle. It takes all of its memory here.
    pub fn new(alloc: Global, tickets: u32) -> Result<Self, AllocError>
        ensures { IfOk result (λ core. core ≡ start tickets) }
    {
        let count = tickets as usize;
        Ok(Core {
            states: vec![in alloc; TicketState::Idle; count]?,
            list: Vec::with_capacity(alloc, count)?,
            walk: Vec::with_capacity(alloc, count)?,
        })
    }

    /// The state of the ticket.
    pub fn state(&self, ticket: u32) -> TicketState
        requires { ticket < length self.now.states }
        ensures { state_of self.now ticket ≡ Some result }
    {
        self.states[ticket as usize]
    }

    /// The ticket at the head of the list, the newest.
    pub fn head(&self) -> Option<u32>
        ensures { result ≡ head_of self.now }
    {
        self.list.last().copied()
    }

    /// Makes one event. False exactly where it is not possible, and then nothing changes. An event of a
    /// ticket that is not below the number of tickets is not possible.
    #[tactic(auto, using(crate::proofs::StepLemmas::step_number))]
    pub fn step(&mut self, event: &Event) -> bool
        ensures possible { IsTrue result ↔ IsSome (step self.old event.now) }
        ensures after { self.new ≡ unwrap_or (step self.old event.now) self.old }
        ensures tickets { length self.new.states ≡ length self.old.states }
    {
        match *event {
            Event::Lend(ticket) => self.lend(ticket),
            Event::Look(ticket) => self.look(ticket),
            Event::Link(ticket) => self.link(ticket),
            Event::Swing(ticket) => self.swing(ticket),
            Event::TakeWhole => self.take_whole(),
            Event::Back => self.back(),
        }
    }

    fn lend(&mut self, ticket: u32) -> bool
        ensures possible { IsTrue result ↔ IsSome (step self.old (Event.Lend ticket)) }
        ensures after { self.new ≡ unwrap_or (step self.old (Event.Lend ticket)) self.old }
    {
        let Some(TicketState::Idle) = self.get(ticket) else {
            return false;
        };
        self.set(ticket, TicketState::Carried);
        true
    }

    fn look(&mut self, ticket: u32) -> bool
        ensures possible { IsTrue result ↔ IsSome (step self.old (Event.Look ticket)) }
        ensures after { self.new ≡ unwrap_or (step self.old (Event.Look ticket)) self.old }
    {
        let Some(TicketState::Carried) = self.get(ticket) else {
            return false;
        };
        let head = self.head();
        self.set(ticket, TicketState::Looked(head));
        true
    }

    fn link(&mut self, ticket: u32) -> bool
        ensures possible { IsTrue result ↔ IsSome (step self.old (Event.Link ticket)) }
        ensures after { self.new ≡ unwrap_or (step self.old (Event.Link ticket)) self.old }
    {
        let Some(TicketState::Looked(expected)) = self.get(ticket) else {
            return false;
        };
        self.set(ticket, TicketState::Linked(expected));
        true
    }

    fn swing(&mut self, ticket: u32) -> bool
        ensures possible { IsTrue result ↔ IsSome (step self.old (Event.Swing ticket)) }
        ensures after { self.new ≡ unwrap_or (step self.old (Event.Swing ticket)) self.old }
    {
        let Some(TicketState::Linked(expected)) = self.get(ticket) else {
            return false;
        };
        if self.head() == expected {
            self.put_at_head(ticket);
        } else {
            self.set(ticket, TicketState::Carried);
        }
        true
    }

    fn take_whole(&mut self) -> bool
        ensures possible { IsTrue result ↔ IsSome (step self.old Event.TakeWhole) }
        ensures after { self.new ≡ unwrap_or (step self.old Event.TakeWhole) self.old }
    {
        if !self.walk.is_empty() {
            return false;
        }
        move_whole(&mut self.list, &mut self.walk);
        take_listed(&mut self.states);
        true
    }

    fn back(&mut self) -> bool
        ensures possible { IsTrue result ↔ IsSome (step self.old Event.Back) }
        ensures after { self.new ≡ unwrap_or (step self.old Event.Back) self.old }
    {
        let Some(ticket) = self.walk.pop() else {
            return false;
        };
        make_idle(&mut self.states, ticket);
        true
    }

    fn get(&self, ticket: u32) -> Option<TicketState>
        ensures { result ≡ state_of self.now ticket }
    {
        self.states.get(ticket as usize).copied()
    }

    // A ticket that is neither listed nor walked changes its state, and still is neither.
    fn set(&mut self, ticket: u32, state: TicketState)
        requires from { IsOff (state_of self.old ticket) }
        requires to { IsOff (Some state) }
        ensures { self.new ≡ becomes self.old ticket state }
    {
        self.states[ticket as usize] = state;
    }

    // Such a ticket comes on the list.
    fn put_at_head(&mut self, ticket: u32)
        requires { IsOff (state_of self.old ticket) }
        ensures { self.new ≡ listed_first self.old ticket }
    {
        self.states[ticket as usize] = TicketState::Listed;
        let _ = self.list.push(ticket);
    }
}

// The list becomes the walk, by the empty walk that there is.
fn move_whole(list: &mut Vec<u32>, walk: &mut Vec<u32>)
    requires { walk.old.items ≡ [] }
    ensures walk { (walk.new.items ≡ list.old.items) × (vec_capacity walk.new ≡ vec_capacity list.old) }
    ensures list { (list.new.items ≡ []) × (vec_capacity list.new ≡ vec_capacity walk.old) }
{
    mem::swap(list, walk);
}

// The ticket came back.
fn make_idle(states: &mut Vec<TicketState>, ticket: u32)
    requires { ticket < length states.old.items }
    ensures { states.new.items ≡ slice_set states.old.items ticket Idle }
{
    states[ticket as usize] = TicketState::Idle;
}

// Each ticket that is listed is walked now.
fn take_listed(states: &mut [TicketState])
    ensures { states.new ≡ map taken states.old }
{
    for state in states.iter_mut() {
        *state = state.taken();
    }
}
