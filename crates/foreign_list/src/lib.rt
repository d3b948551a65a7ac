//! The list over which the blocks of one owner come home, from any thread: the foreign free list of Seastar's
//! `core/memory.cc`, a remote free list as others call it, on atomic words.
//!
//! The owner lends a piece of its memory with one of [`layout::TICKETS`] tickets, as a [`ForeignBlock`]. Whoever has the block,
//! on any thread, reads and writes its bytes, and gives it back by [`ForeignBlock::release`]: a look at the list's head, a store
//! of the link to it, and a compare-and-exchange of the head. The owner looks whether the list is empty, takes the whole of it by
//! one exchange where it is not ([`Foreign::take_whole`]), and then gives itself one block after the other, the newest first
//! ([`Foreign::next_back`]). It is a Treiber stack that is drained whole.
//!
//! # When a block comes home
//! A won swing puts the block on the list, and its ticket is still not idle. It is idle once `next_back` gave the block to the
//! owner: so between two lends of a ticket stand one won swing, then one take-whole, then its coming home.
//!
//! # A block that is dropped
//! It is lost: no other can release it, so its ticket is not idle for good, and its piece stays out of its range. The same holds
//! of a [`LinkedBlock`]. A [`Released`] may be dropped: its block is on the list, or home.
//!
//! # Why there is no ABA
//! Nobody takes a single block off the list. So a swing that finds the head that its block saw links to a head, whatever came
//! between: be it the same ticket lent, released and taken since, that block is on the list now, as the link says.
//!
//! # What a release costs
//! One that wins at once makes one load, one store and one compare-and-exchange. It waits for nobody, and may lose: then
//! [`Raced`] gives the block back. Taking an empty list is one load. The words of two lists never share a cache line, since
//! behind those of each lie 64 bytes that nobody writes.
//!
//! # Definitions
//! - A lent block (`specs/Blocks.antt`) has its list, its pass, its ticket, its piece, how many changes of the head its lost
//!   tries have seen, and the head that the last of them found.
//! - The owner's seat (`specs/OwnerSeats.antt`) knows which piece is lent with which ticket, the walk, which are the tickets
//!   that were taken and have not come back, and how many lends and take-wholes there were.
//! - How the words of the running list show a state of the core stands in `specs/inside/`.
//!
//! # Choices
//! - The list stands on atomic words from the start, not on a queue, so no call takes a handle of the runtime.
//! - The owner's view holds the walk as a list; the running seat keeps only the word that leads to its first. A pass's view
//!   records the head that its last lost swing found.
//! - The step by which a ticket becomes idle again is a load of any word, whose value is not used. It loads the ticket's own
//!   word, which nobody writes then, and not the head, which other threads write.
//! - The owner looks at the head before it takes the list, since most turns find it empty and an exchange would take the head's
//!   cache line from who releases next. The look is a step of its own at the table, and none of the core: where the head is
//!   none it is the take-whole of an empty list, which changes no ticket's state, and else it is no event. So what is counted,
//!   and what an idle turn owes, is a look, be it followed by an exchange or not.
//! - The table has 41 words, of which 8 at the end stay 0: these keep two lists apart by a cache line.
//! - Which piece is lent is said by range, owner, place and length, whatever its bytes are.
//! - A slot of the table holds no piece but the right to one's bytes (`Deposit`), which takes no memory: so a release writes no
//!   slot and a taking back reads none, and no cache line of theirs goes from one processor to another. The owner keeps the
//!   place and the length of each ticket's piece (`Site`) in a vector of its own, and makes the piece of these and of the right
//!   that came home. That the two belong together is the invariant of its seat.
//!
//! # Promises
//! - Over all interleavings of the steps of any number of threads, at every moment the list's words and views show a state of
//!   the core (`law_of_the_list`). The tickets on the list are the chain from the head, each ticket is in one state, and
//!   possible events led there. Each atomic step is one event: lend, link, a swing won or lost, take-whole, back, and a block's
//!   look. The owner's step along the walk is none, and its look at the head is a take-whole where the list is empty and else
//!   none. A pass is spent only where its block came on the list.
//! - A lent block is the only one with its ticket and its bytes (`Foreign::lend`, `law_of_the_list`).
//! - A release is lost only where the head was changed after the block looked: the changes that it has seen rose, and the head
//!   found differs from the one expected (`ForeignBlock::release`, `LinkedBlock::swing`: `raced`, `found`).
//! - What comes back is the piece that was lent with that ticket, and only then the ticket is idle (`Foreign::next_back`).
//! - The kit's table contributes that the rule holds between any two steps, and that no slot is read or written by two threads
//!   at once. Every step is sequentially consistent. Not promised: that a release ever wins, that the owner ever takes the
//!   list, that a dropped block comes home.
#![tactic(auto)]

mod block;
mod foreign;
mod idle_tickets;
mod law;
mod linked_block;
mod list_table;
mod owner;
mod owner_seat;
mod piece_id;
mod plays;
mod released;
mod slots;
mod steps;
mod taking;
mod tally;
mod views;

pub use block::ForeignBlock;
pub use foreign::Foreign;
pub use law::law_of_the_list;
pub use linked_block::LinkedBlock;
pub use owner::Returned;
pub use owner_seat::OwnerSeat;
pub use raw_range::{Piece, Range};
pub use released::{Raced, Released};
pub use tally::Tally;
