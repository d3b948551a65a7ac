//! The segments of a dirty region.
ghost use Rattle.std.specs.Prelude.{◌≡◌, ◌+◌, ◌%◌, ◌^◌, ◌<◌, length, IsNone};
ghost use Rattle.layout.specs.Sizes as sizes;
ghost use Rattle.regions.specs.Shapes.{shape, pieces, held_count};
ghost use Rattle.segmented_store.specs.Segments.{AddsSegment, GivesUp};
ghost use Rattle.dirty_region.specs.State.{empty};

use super::Dirty;
use super::storing::drop_all;
use raw_range::Piece;

impl Dirty {
    /// The piece becomes a segment, with the least number that no segment has. The first one becomes active.
    pub fn add_segment(&mut self, piece: Piece)
        requires room { held_count self.old.region < (shape self.old.region).most }
        requires segment { length piece.bytes ≡ sizes.segment }

        // The queue is as it was.
        ensures queue { self.new.queue ≡ self.old.queue }
        ensures first { self.new.first ≡ self.old.first }
        ensures room { self.new.room ≡ self.old.room }

        // One segment more is held.
        ensures adds { AddsSegment self.old.region self.new.region piece }
    {
        self.region.add_segment(piece);
        if self.region.active(0).is_none() {
            self.region.next_active(0);
        }
    }

    /// Removes all puts, makes every segment free, and takes the one with the greatest number out. None where no segment is
    /// held.
    pub fn give_up(&mut self) -> Option<Piece>
        // None where no segment is held; else its piece, and one segment fewer is held.
        ensures gives { GivesUp self.old.region self.new.region result }
        ensures kept { IsNone result → pieces self.new.region ≡ pieces self.old.region }

        // The queue is empty, and the next put comes behind those that it had.
        ensures queue { self.new.queue ≡ empty }
        ensures first { self.new.first ≡ (self.old.first + length self.old.queue.puts) % 2 ^ 32 }
        ensures room { self.new.room ≡ self.old.room }
    {
        drop_all(&mut self.region, &mut self.ring, &mut self.index);
        self.out = 0;
        self.region.give_up()
    }
}
