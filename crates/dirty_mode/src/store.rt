//! A dirty region and the memory in which it stands.
ghost use Rattle.std.specs.Prelude.{◌≡◌, ◌/◌, count_by, IfOk};
ghost use Rattle.layout.specs.Sizes.{segment_pages, ArePages};
ghost use Rattle.trace_text.specs.Parsed.{trace_in};
ghost use Rattle.rows.specs.Operation.{is_put};
ghost use Rattle.regions.specs.Shapes.{held_count};
ghost use Rattle.dirty_mode.specs.DirtyText.{put_count};
ghost use Rattle.dirty_mode.specs.Stores.{IsEmpty};

use dirty_region::Dirty;
use layout::SEGMENT_PAGES;
use segmented_store::Ranged;
use std::alloc::{AllocError, Global};
use std::marker::Model;
use trace_text::{Command, Kind, Trace};

/// A queue of puts with its memory, opened for a trace. Contracts see its pages, and the queue with the segments in which
/// the puts stand.
#[derive(Drop)]
pub struct DirtyStore {
    pub(crate) ranged: Ranged<Dirty>,
}

impl Model for DirtyStore {
    ghost use Rattle.dirty_mode.specs.Stores.{StoreState};

    ghost Value = { StoreState };

    ghost view = { λ s. record { pages = s.ranged.pages; dirty = s.ranged.store } };
}

impl DirtyStore {
    /// Gives the memory back.
    pub fn close(self) {
        let DirtyStore { ranged } = self;
        ranged.close();
    }
}

/// How many of some commands are puts.
fn puts_among(commands: &[Command]) -> usize
    ensures { result ≡ count_by (λ command. is_put command.kind) commands.now }
{
    commands
        .iter()
        .filter(|command| matches!(command.kind, Kind::Put))
        .count()
}

/// How many puts a trace has.
pub(crate) fn put_count(trace: &Trace) -> u32
    ensures { result ≡ put_count (trace_in trace.now) }
{
    puts_among(trace.commands()) as u32
}

/// Opens an empty queue with room for the puts of a trace, and with so many pages of memory.
///
/// # Errors
/// `AllocError` where memory is not found.
pub fn open_dirty(alloc: Global, trace: &Trace, pages: u32) -> Result<DirtyStore, AllocError>
    requires { ArePages pages }
    ensures pages { IfOk result (λ store. store.pages ≡ pages) }
    ensures room { IfOk result (λ store. store.dirty.room ≡ put_count (trace_in trace.now)) }
    ensures empty { IfOk result (λ store. IsEmpty store) }
    ensures held { IfOk result (λ store. held_count store.dirty.region ≡ pages / segment_pages) }
{
    let dirty = Dirty::new(alloc, put_count(trace), pages / SEGMENT_PAGES)?;
    // Last, since only `close` gives its memory back.
    let ranged = Ranged::open(alloc, dirty, pages)?;
    Ok(DirtyStore { ranged })
}
