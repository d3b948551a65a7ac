//! The trace: its bytes, the commands that they spell, and where the parts of a command are done.
//!
//! It is of version 1 or, where its first line says so, of version 2, in which each command names a table.
//!
//! A trace is read once, by [`parse`], or on threads by [`parse_on`]. A [`Trace`] keeps its bytes, and each [`Command`]
//! says where its key and its value stand in them; no text is copied. The bytes may have other owners too ([`TraceBytes`]).
//!
//! On threads, one of them cuts a stretch of lines, all read it, and the commands that its lines are go behind those before.
//! A line that is cut or read takes 36 bytes, and 65,536 of them are on the way at most: 2.4 MB beside the commands.
//!
//! # Choices
//! - An operation has no line. Which command stands on which line is a clause of its own (`Trace::commands`: `lines`), so
//!   that the contract of a trace pins it too.
//! - The text of a cause is the name that is printed, from one table; that of a refusal is the line that is printed.
//! - The refusal of a trace in the definitions is too long as a whole, or a line with its cause. `parse` is never given more
//!   bytes than a trace may have, so it has no answer for the first.
//! - The reading of a trace is told for a number of shards, since the room of the replies depends on it. A trace says for how
//!   many it was parsed (`Trace::shards`), and what goes over it asks the trace; `Trace::needs` takes the number beside and
//!   wants it to be the same.
//! - The version is read off the first line before any line is cut, and again where `Trace::version` is asked, so a trace
//!   keeps no field for it. A line's reader takes the version, and what reads fields is inlined once for each. The line
//!   behind the one that says the version has the number of the version, which is where the loops begin to count.
//! - The bytes have several owners, counted by the kit's `ArcSlice`: the trace, and each log of its run, which may refer to
//!   values in them. So a log names no lifetime, and neither do the record of a run and the outcome of the top call, which
//!   outlive the trace. When that call ends the bytes are the record's, by its logs, and are freed with it. A share takes no
//!   memory; it is refused where the count is full, which is answered as want of memory.
//! - `Trace::value_start` is exact for each number that a command has, and asks for nothing, since a row's number is of the
//!   trace by what the node did, which no type says: of another number it answers any place.
//! - The table of a command is defined as the number from 0 to 7 whose decimal spelling the field is, and the count of a scan
//!   as the one from 1 to 32. The reader takes one byte of the digits 0 to 7 for the one, and for the other the one number
//!   that the digits can mean, whose spelling it compares with the field.
//! - The piece behind the last LF is a line, and an empty line is passed over, so the reader may stop at the end of the
//!   bytes.
//! - `parse` goes over the bytes once, and counts on the way what the room of the replies needs.
//! - On threads a line has a type of its own (`Line`): it is first cut, which is a place, and a thread then puts there the
//!   command that it is, or that it is refused. The commands of a stretch are added behind the others before the next one is
//!   cut, so they are written where they stay. Which refusal comes first `parse` says, which then reads the whole again: a
//!   refused trace takes twice the time, and no order among threads is needed.
//! - The owner of each command's key is written down as the command is read, in a byte beside one of its kind: the command's
//!   route (`route.rt`). So a key is hashed once, with one shard never, and no later look at a trace hashes one; whoever looks
//!   for the commands of a shard (`Trace::has_part`, `owner`, `is_scan`) reads two bytes a command, and neither the command nor
//!   its key. Contracts see no routes: that they are the owners by definition is the trace's invariant.
//! - What `needs` says is read off counts of commands by shard and kind, 64 by the owner of the key and 64 by the origin
//!   (`shard_counts.rt`). One pass over the routes makes them as the trace is finished, and divides nothing. That they are the
//!   counts by definition is an invariant too.
//!
//! # Promises
//! - What is parsed is what the bytes mean, and a refusal is the first line with a cause; on threads as on one (`parse`,
//!   `parse_on`: `read`, `refused`).
//! - A command's key and value are its bytes (`Trace::key`, `Trace::value`).
//! - The version is what the first line says, and the regions are those of the version: 1 or 8 (`Trace::version`,
//!   `Trace::regions`).
//! - Commands are numbered from 1, each stands on its line, and is well formed: its table is below 8, a key has 1 to 256
//!   bytes, a value at most 12,000 (`Trace::commands`: `numbered`, `lines`, `well_formed`).
//! - An accepted trace has at most 1,048,576 commands, and its replies have room (`Trace::commands`: `few`, `room`).
//! - Owner and origin are the definitions, for 1 to 16 shards; a table plays no part in them (`owner_of`, `origin_of`). What
//!   a trace says of a command by its place is the definition too (`Trace::owner`, `Trace::is_scan`, `Trace::has_part`).
//! - What a shard needs: as many parts as the lists of parts name, its puts, and its share of the replies' room
//!   (`Trace::needs`).
#![tactic(auto)]

mod command;
mod command_list;
mod cutting;
mod line;
mod line_end;
mod parts;
mod plain;
mod reading;
mod reading_on;
mod refusal;
mod route;
mod shard_counts;
mod trace;
mod trace_bytes;
mod version;

pub use command::{Command, Span};
pub use parts::{MOST_SHARDS, Needs, origin_of, owner_of};
pub use reading::parse;
pub use reading_on::parse_on;
pub use refusal::{Cause, ParseRefusal};
pub use rows::Kind;
pub use trace::Trace;
pub use trace_bytes::TraceBytes;
