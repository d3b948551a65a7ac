//! The objects of a segment of a log-structured allocator (LSA), after ScyllaDB's `utils/logalloc`.
//!
//! A segment has 131,072 bytes. Objects stand in it from offset 0 on without gaps, each behind a
//! descriptor of 8 bytes, little endian: the state (0 end, 1 live, 2 dead), the kind, two zero bytes and
//! the size of the whole object. A size is a multiple of 8 from 16 to 12,296. Behind the last object stands an end
//! descriptor of 8 zero bytes where it has room. A dead object stays until its segment is emptied. The crate owns no memory.
//!
//! # Definitions
//! - The objects of a segment (`specs/Objects.antt`) are read from the descriptor at 0 on, the next one at its offset plus its
//!   size, up to `used`. The list counts (`IsSegment`) where it ends exactly at `used`, each descriptor is legal, and an end
//!   descriptor follows where there is room.
//!
//! # Choices
//! - A new object's content is runs of bytes and zeros behind them (`NewContent`), so that its clause says all of its bytes,
//!   the padding among them. Whether a header stands in front of a key and a value or of one text is the caller's.
//! - `objects` is total: it reads at most `used` descriptors. `IsSegment` says where it is the true list.
//! - A descriptor is read with its state as an enum; the objects of the definitions have the byte, so that a segment is told by
//!   its bytes alone.
//! - `kill` and `read_descriptor` take no `used`: they ask for some `used` at which the object stands, and promise for every
//!   such `used`.
//!
//! # Promises
//! - An object appended is the only change to a segment's objects, has the content that it was given, and zeros behind it
//!   (`append`, `append_with`). An object killed changes its state alone (`kill`). A walk gives each object, dead ones too
//!   (`Walk::new`).
#![tactic(auto)]

mod descriptor;
mod log;
mod new_content;
mod walking;

pub use descriptor::{Descriptor, State, content_extent, read_descriptor};
pub use log::{append, append_with, kill};
pub use new_content::NewContent;
pub use walking::Walk;
