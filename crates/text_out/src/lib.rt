//! Text on its way to a sink, in a block, so that many short lines go out in one write.
//!
//! What contracts see of a writer is which sink it is, what this was given, its faults, and the text that waits; each call says
//! that it `Writes` a text.
//!
//! # Choices
//! - Text is laid into a block on the stack and handed over when it is full; what is left is handed over at the end. So a
//!   writer takes no memory, a store keeps none for text, and no text waits between two calls.
//! - The block has 64 KiB, and is a type of its own, since a sink in memory of `outside` cannot be emptied. A text of more
//!   than a page that `hand_over` is given goes to the sink from where it stands, behind what waits, so that it is not copied
//!   once more; `put` copies what fits, since a line that was begun with room for it goes out in one write.
//! - A writer is ended by `into_sink`. Of a sink whose writer was dropped nothing is known, so no `?` leaves a function while
//!   a writer lives in it: what is written stands in an inner function.
#![tactic(auto)]

mod block;
mod writer;

pub use writer::Writer;
