//! Puts that stay until they are flushed, in segments that compaction moves: the dirty memory of a database, its
//! memtable or write-back buffer, from which nothing is evicted.
//!
//! A put is an object of a [`regions::Region`] of one group, with the bytes of `row_bytes`, and of table 0. What a
//! [`Dirty`] means is a queue ([`specs/Queues.antt`]): a list of puts, the oldest first, and how many bytes of the oldest
//! one's line are out. What the sink has got, followed by what is still due, is the lines of all puts in order, whatever
//! failed in between and whatever compaction moved.
//!
//! # Definitions
//! - A dirty queue (`Queue` of `specs/Queues.antt`) is a list of puts, each with its key, its value and its number, oldest
//!   first, and how many bytes of the oldest one's line are out: fewer than the line has, and none where there is no put
//!   (`IsQueue`).
//! - The line of a put is `put`, a space, the key, a space, the value, and LF. What is due (`rest`) is the lines of all puts in
//!   order, without the bytes that are out. `newest` is the value of the newest put of a key.
//! - `FlushesOldest`: what was left of the oldest line was appended, and its put is out. `BreaksOff`: a front of it was
//!   appended, and the put stays. `GoesOn`: what was due is what was appended, followed by what is due.
//! - `Stand` (`specs/Puts.antt`): the puts of a queue are what is live in its segments.
//!
//! # Choices
//! - There are no calls for guards: none stands on the region, so no put asks for that, and `give_up` asks nothing. What
//!   `newest` answers borrows the queue, so nothing moves while it is held. The number of segments, on which a refusal depends,
//!   is the region's to tell.
//! - A put's position is how many puts came before it since the region was made. The ring holds the places in slots; the index
//!   names a put by its slot, since its numbers have to be below its room and positions are not. So `Dirty::new` takes any
//!   number of puts, also the greatest one.
//! - The mover is the ring alone. The index keeps no places, and stays the index of the same keys wherever the puts are moved:
//!   that is a lemma, for what it keeps beside a row is of the row's key alone.
//! - The index is a `key_table`, and beside it a `key_index` of the puts that the table refuses, which is asked only while it
//!   has any. It is no `LazyIndex`: order is never asked for here, so no put waits for a place in it, and none has to be taken
//!   off such a list.
//! - The index has of each key the newest put alone. A put takes the older one of its key out; a flush takes the oldest put out
//!   only where that is the newest of its key: it looks for that put's number among those of its tag, and reads the key of no
//!   other put that the table has.
//! - Each put that there is room for has a mark, whether the index has it. A flush looks there first, so it does not seek a put
//!   that left when a newer one came; the marks are read in the order of the puts. Places and marks are filled ahead: eight
//!   bytes and one for each put.
//! - A line is made anew in each flush, in one piece, from where the put stands then, in memory that was reserved. The sink is
//!   given what is left of it, and only then the put is taken out. So one write carries a whole line, and a move in between
//!   changes nothing.
//!
//! # Promises
//! - Whatever fails in between and whatever compaction moves, what the sink has got, followed by what is still due, is the
//!   lines of all puts in their order: a flush appends the front of what is due, and a put adds its line behind (`flush_one`,
//!   `put`: `rest`).
//! - A flush takes the oldest put out exactly where its line is whole on the sink then; where the sink fails it stays, and no
//!   byte is written twice or left out (`flush_one`: `flushed`, `stopped`, `none`). A flush into a writer adds what is left of
//!   the line to the writer's text, and takes the put out; where the writer's sink fails the put stays (`flush_into`:
//!   `written`, `queue`, `stays`).
//! - A put is refused exactly where as many are held as there is room for, or where its bytes beside the live ones exceed
//!   `room`; then nothing changed (`put`: `too_many`, `no_room`, `unchanged`).
//! - The puts are what is live in the segments: put k stands at a place of its own as an object of the dirty kind with its
//!   bytes, its position among all puts that ever came and no links; no other object is live, and the live bytes are theirs
//!   (`facts`: `stand`, `live`; `new`, `put`, `flush_one`, `add_segment`, `give_up`: `first`).
//! - The newest value of a key is found exactly where there is one (`newest`).
//! - The calls on segments change no put, but for `give_up`, which empties the queue (`add_segment`, `give_up`: `queue`).
#![tactic(auto)]

mod dirty;
mod line;
mod objects;
mod put_index;
mod put_keys;
mod refusal;
mod ring;
mod seeking;

pub use dirty::Dirty;
pub use outside::{Failed, Sink};
pub use raw_range::Piece;
pub use refusal::DirtyRefusal;
pub use segmented_store::Ranged;
pub use text_out::Writer;
