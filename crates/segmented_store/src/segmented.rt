//! A store whose objects stand in segments.
ghost use Rattle.std.specs.Prelude.{◌≡◌, ◌<◌, length};
ghost use Rattle.layout.specs.Sizes as sizes;
ghost use Rattle.regions.specs.Segments.{RegionState};
ghost use Rattle.regions.specs.Shapes.{shape, guards_of, held_count};
ghost use Rattle.segmented_store.specs.Segments.{AddsSegment, GivesUp};

use raw_range::Piece;

/// A store whose objects stand in the segments of a region of one group. It may be given more of them.
pub trait Segmented {
    ghost region: { Self → RegionState };

    // What it holds, apart from where.
    ghost Content: { Type 0 };

    ghost content: { Self → Self.Content };

    /// The piece becomes a segment, with the least number that no segment has. What the store holds is as it was.
    fn take_piece(&mut self, piece: Piece)
        requires room { held_count (region self.old) < (shape (region self.old)).most }
        requires segment { length piece.bytes ≡ sizes.segment }
        ensures content { Self.content self.new ≡ Self.content self.old }
        ensures adds { AddsSegment (region self.old) (region self.new) piece };

    /// Drops all objects, and gives the piece of the segment with the greatest number. None where no segment is held.
    fn give_piece(&mut self) -> Option<Piece>
        requires guards { guards_of (region self.old) 0 ≡ 0 }
        ensures gives { GivesUp (region self.old) (region self.new) result };
}
