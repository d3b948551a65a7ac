//! What stores in segments share: the room that segments of one group surely have, how an object comes to room there,
//! and how a store gains its segments from a range and gives them back.
//!
//! A store that may not lose an object holds at most [`room`] live bytes: those that its segments surely hold, however
//! the objects stand in them ([`specs/Room.antt`]). Below that bound [`make_room`] always finds room. What a store does
//! with the pieces of its segments is [`Segmented`], by the words of [`specs/Segments.antt`]; a [`Ranged`] store has all
//! segments of one range: it takes the memory, hands them over one after the other, and gives them and the range back when it
//! is closed.
//!
//! # Definitions
//! - `HoldsSegments` (`specs/Segments.antt`): the same segments are held, each with its piece, under the same guards.
//!   `AddsSegment`: one more is held, on the piece, with the least number that no segment had. `GivesUp`: the piece of the
//!   segment with the greatest number is given, and one fewer is held.
//! - `IsInRange` (`specs/Ranged.antt`): the segments of a store are all those of a range, and none of them is guarded.
//!
//! # Choices
//! - `Segmented` says of a store its region, what it holds apart from where (`content`), and the two calls by which pieces come
//!   and go. A store implements it by its own `add_segment` and `give_up`, whose clauses say more of each.
//! - `Ranged` has public fields, since a mode lends its store and a block at once. Its invariant is what the closing needs:
//!   every segment of the range is the store's, with its own number, and none is guarded.
//! - `give_piece` asks that no guard stands, though a dirty region, on which none ever does, could do without.
//! - `make_room` also begins the first segment, so a store whose group has no active one needs no call of its own before a put.
//! - Labels say which room is meant: `room` is for how many rows or puts there is memory, `left` what the active segment has
//!   left, `within` that the live bytes are no more than the segments surely hold; `capacity` and `memory` are the bytes of a
//!   vector and of a slice.
//! - Storage of this kind is called log-structured or segmented. The crate has the second word, since it knows nothing of the
//!   order in which objects came.
//!
//! # Promises
//! - In a region of one group without a guard, of at least three segments, one of them free, there is room for an object as
//!   long as the live bytes with it are at most `room`; compaction alone makes it, no live object goes, and nothing changes
//!   where there was room (`make_room`).
//! - A store on a range holds as many segments as its pages make, none of them guarded, and what it held before they came; it
//!   ends with every piece back in the range, and the range freed (`Ranged::open`: `content`, `held`; `Ranged::facts`;
//!   `Ranged::close`).
#![tactic(auto)]

mod bound;
mod making;
mod ranged;
mod segmented;

pub use bound::room;
pub use making::make_room;
pub use ranged::Ranged;
pub use raw_range::Piece;
pub use segmented::Segmented;
