//! One thread's mailbox.
ghost use Rattle.std.specs.Prelude.{◌≡◌, ◌≢◌, [], ◌<◌, ℕ, IfOk};
ghost use Rattle.mailbox.specs.Messages.{unused, with_pushed, with_popped};
ghost use Rattle.mailbox.specs.declared.answers.Push.TheVariants.{Pushed};
ghost use Rattle.mailbox.specs.declared.answers.Pop.TheVariants.{Popped};

use crate::answers::{Pop, Push};
use crate::rule::{Conserved, Hand, Looks, Pops, Pushes, Shares};
use crossbeam_queue::{Pass, RuledArrayQueue};
use std::alloc::{AllocError, Global};
use std::marker::Model;
use std::sync::Arc;

type Queue = RuledArrayQueue<u64, Hand, Conserved>;

/// A mailbox, which one thread at a time uses. Each thread has its own. The queue goes with the last of them, and what is left in it.
#[derive(Drop)]
pub struct Mailbox {
    queue: Arc<Queue, Global>,
    pass: Pass<u64, Hand>,
}

impl Model for Mailbox {
    ghost use Rattle.std.specs.Arc.{arc_value};
    ghost use Rattle.crossbeam_queue.specs.Passes.{IsPassOf};
    ghost use Rattle.mailbox.specs.Messages.{Messages, messages_code, messages_of};

    ghost Value = { Messages };

    ghost coded = { messages_code };

    ghost view = { λ m. messages_of m.pass };

    ghost invariant = { λ m. IsPassOf (arc_value m.queue) m.pass };
}

impl Mailbox {
    /// Of a new queue with so many places.
    ///
    /// # Errors
    /// There is no memory.
    pub fn new(alloc: Global, places: usize) -> Result<Mailbox, AllocError>
        requires { 0 < places }
        ensures { IfOk result (λ m. m ≡ unused m.queue) }
    {
        let (queue, pass) = Queue::ruled(alloc, places)?;
        let queue = Arc::new(alloc, queue)?;
        Ok(Mailbox { queue, pass })
    }

    /// Another of the same queue, for another thread.
    ///
    /// # Errors
    /// There are as many as can be.
    pub fn share(&mut self) -> Result<Mailbox, AllocError>
        ensures unchanged { self.new ≡ self.old }
        ensures other { IfOk result (λ m. m ≡ unused self.old.queue) }
    {
        let queue = Arc::try_clone(&self.queue)?;
        let pass = self.queue.another::<Shares>(&mut self.pass);
        Ok(Mailbox { queue, pass })
    }

    /// Pushes a message, in one try.
    pub fn try_push(&mut self, message: u64) -> Push
        ensures pushed { result ≡ Pushed → self.new ≡ with_pushed self.old message }
        ensures refused { result ≢ Pushed → self.new ≡ self.old }
    {
        match self.queue.try_push_as::<Pushes>(&mut self.pass, message) {
            Ok(()) => Push::Pushed,
            Err(_) => self.why_not_pushed(),
        }
    }

    // Why a push was refused.
    fn why_not_pushed(&mut self) -> Push
        ensures refused { result ≢ Pushed }
        ensures unchanged { self.new ≡ self.old }
    {
        if self.queue.is_full_as::<Looks>(&mut self.pass) {
            Push::Full
        } else {
            Push::Raced
        }
    }

    /// Pops the message that was pushed first, in one try.
    pub fn try_pop(&mut self) -> Pop
        ensures popped { (message : ℕ) → result ≡ Popped message → self.new ≡ with_popped self.old message }
        ensures refused { ((message : ℕ) → result ≢ Popped message) → self.new ≡ self.old }
    {
        match self.queue.try_pop_as::<Pops>(&mut self.pass) {
            Some(message) => Pop::Popped(message),
            None => self.why_not_popped(),
        }
    }

    // Why nothing was popped.
    fn why_not_popped(&mut self) -> Pop
        ensures refused { (message : ℕ) → result ≢ Popped message }
        ensures unchanged { self.new ≡ self.old }
    {
        if self.queue.is_empty_as::<Looks>(&mut self.pass) {
            Pop::Empty
        } else {
            Pop::Raced
        }
    }
}
