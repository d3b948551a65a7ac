//! A trace whose puts stay in memory until they are flushed, as in a memtable, and what is written of it.
//!
//! The definition is `specs/DirtyText.antt`: a put waits in a queue. Where the segments would hold too many bytes with the next
//! put, the oldest ones are flushed before, each as its line; what is left is flushed at the end. A get is answered by the
//! newest put of its key in the queue. Keys are their bytes: whoever runs a trace here refuses one that names tables before,
//! as a trace of another version.
//!
//! # Definitions
//! - `lines` (`specs/DirtyText.antt`, checked by computing `specs/Examples.antt`) is what a trace makes of a queue, line by
//!   line. Before a put the oldest puts go (`going`; `staying` are the others) while the live bytes with the new one's are more
//!   than `room` of the segments, each as a line of its own. A get makes a line with `newest`, or one that says that there is
//!   none. An erase or a scan makes a line that says it was passed over. At the end all puts that are left go.
//! - `dirty_text` is these lines and the number of puts. How the puts of a queue stand in its segments is `Stand`
//!   (`dirty_region/specs/Puts.antt`).
//! - Below `write_dirty` each function says of the writer that a text was added, or that the sink failed with a front of it
//!   (`Writes`).
//!
//! # Choices
//! - The text is defined by way of its lines, each a put or an answer, so that a law can say which puts are flushed, and in
//!   which order, without cutting bytes into lines again.
//! - The room of the queue is for all puts of the trace, though the segments hold fewer of them at a time: so no put is
//!   refused for their number.
//! - A put that comes is never written at once, also where it alone fills the segments: these hold the greatest put many
//!   times over.
//! - The range is made last, behind all else that may lack memory, since a range that is dropped is not freed.
//! - A line does not cross the end of the block: the sink is given the block first. A put's line is made in one piece, so the
//!   block takes it whole or refuses it; for an answer its longest length is asked before, with ten digits for each number. A
//!   text longer than a block would go to the sink itself, but a put's line has at most 12,262 bytes. That each line goes to
//!   the sink in one write, no clause says.
//! - After a failed write `run_dirty` drops the queue, and the segments go back as after the last line; `write_dirty` does
//!   not say which puts are held then.
//!
//! # Promises
//! - What is written of a trace is its text, or a front of it where the sink failed, and it fails only there; behind the
//!   whole text the store is empty, with the segments that it had (`write_dirty`: `sent`, `empty`, `kept`).
//! - The puts that are flushed are those of the trace, in order, each once (`puts_are_flushed_in_order`).
//! - The range is freed whether the sink failed or not: `Range::finish`, which frees it, asks that each segment came back,
//!   and that `run_dirty` closes its store on each way is read, not stated.
#![tactic(auto)]

mod answers;
mod commands;
mod flushes;
mod law;
mod store;
mod text;

pub use law::puts_are_flushed_in_order;
pub use store::{DirtyStore, open_dirty};
pub use text::{run_dirty, write_dirty};
