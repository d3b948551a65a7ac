//! The memory in which a report is made on threads, reserved before the run.
ghost use Rattle.std.specs.Prelude.{◌^◌, ◌<◌, ◌≤◌, length};

use crate::held::Held;
use crate::journal_texts::empty_texts;
use crate::pieces::{PIECE, Piece, empty_pieces};
use layout::{GREATEST_KEY, MOST_KEYS};
use std::alloc::{AllocError, Global};
use trace_text::{MOST_SHARDS, Trace};

/// A report of no more answers is not worth the threads.
const FEW: usize = 8_192;

/// The most bytes of an answer's line that are neither a value nor keys.
const FRAME: usize = 32;

/// The most bytes of the keys in a line, each behind a space.
const KEYS: usize = MOST_KEYS as usize * (GREATEST_KEY + 1);

/// The most bytes of one thread in a round, but for a single piece that needs more.
const MOST_BYTES: usize = 8 * 1024 * 1024;

/// The most pieces of one thread in a round.
const MOST_PIECES: usize = 64;

/// The memory in which the text of a report is made on threads. All of it is reserved by [`Texts::new`], and none is touched
/// before it is used.
///
/// - A piece has room for the lines of 1,024 commands: for each 32 bytes, the trace's longest value, and an even share of the keys
///   that scans may find, 32 of 256 bytes for each part of a scan but the first. A thread has as many pieces in a round as fit
///   into 8 MiB, 1 to 64 of them. One that would not fit there alone has room for 8 MiB, or for 1,024 of the longest values.
/// - The line of a shard's journal has room for 12 bytes for each part that is done there and for each put whose key it owns.
///
/// So only lines of scans may lack room, as where many stand together. Their piece is written without its text.
#[derive(Drop)]
pub struct Texts {
    pub(crate) pieces: Vec<Piece>,
    /// One for each shard.
    pub(crate) journals: Vec<Held>,
}

impl Texts {
    /// Texts for the report of this trace, made on at most `threads` threads. For one thread, or no more than 8,192 commands, there
    /// are none.
    ///
    /// # Errors
    ///
    /// [`AllocError`] where there is no memory. No other call takes any for a report.
    pub fn new(alloc: Global, threads: usize, trace: &Trace) -> Result<Texts, AllocError> {
        if threads == 1 || trace.commands().len() <= FEW {
            return Ok(Texts {
                pieces: Vec::new(alloc),
                journals: Vec::new(alloc),
            });
        }
        let room = thread_room(trace);
        Ok(Texts {
            pieces: empty_pieces(
                alloc,
                threads.min(MOST_SHARDS as usize) * room.pieces,
                room.bytes,
            )?,
            journals: empty_texts(alloc, trace)?,
        })
    }
}

/// What one thread has in a round.
#[derive(Clone, Copy)]
struct Room {
    pieces: usize,
    /// The bytes of one piece's text.
    bytes: usize,
}

/// As many pieces as have room, but one at least.
fn thread_room(trace: &Trace) -> Room
    requires some { 0 < length trace.now.commands }
    ensures few { result.pieces ≤ 64 }
{
    let values = PIECE * (FRAME + trace.longest_value() as usize);
    let lines = values + PIECE * keys_share(trace);
    Room {
        pieces: (MOST_BYTES / lines).clamp(1, MOST_PIECES),
        bytes: lines.min(values.max(MOST_BYTES)),
    }
}

/// An even share of the keys that scans may find, in bytes: [`KEYS`] for each of their parts but the first, of which each scan has
/// one at least where there are several shards.
fn keys_share(trace: &Trace) -> usize
    requires some { 0 < length trace.now.commands }
    ensures { result ≤ KEYS }
{
    let commands = trace.commands().len();
    let beside = parts_in(trace).saturating_sub(commands);
    (beside * KEYS / commands).min(KEYS)
}

/// How many parts the commands have together.
fn parts_in(trace: &Trace) -> usize
    ensures { result < 2 ^ 37 }
{
    let shards = trace.shards();
    let mut parts = 0;
    for shard in 0..shards {
        parts += trace.needs(shard, shards).own_parts as usize;
    }
    parts
}
