//! A law of the definitions.
ghost use Rattle.std.specs.Prelude.{◌≡◌, ℕ, ◌/◌, ◌≤◌, ◌↔◌};
ghost use Rattle.layout.specs.Sizes.{segment_pages, ArePages};
ghost use Rattle.shard_memory.specs.Room.{Room, IsAllFree, IsRoomOf, LacksSegment, TakesSegments};

/// Where so many pages were all free, and segments were taken since and nothing else, they are at most a 32nd of the pages, and no
/// further one can be given exactly where they are as many: of 1,280 pages 40.
///
/// # Examples
/// A caller that took nothing but segments since the opening cites `segments_fill_the_pages();` for how many it has once
/// `give_segment` answers None.
pub fn segments_fill_the_pages()
    ensures most { (pages count : ℕ) (start now : Room) → ArePages pages → IsRoomOf pages start → IsAllFree pages start
        → TakesSegments count start now → IsRoomOf pages now → count ≤ pages / segment_pages }
    ensures none { (pages count : ℕ) (start now : Room) → ArePages pages → IsRoomOf pages start → IsAllFree pages start
        → TakesSegments count start now → IsRoomOf pages now → (LacksSegment now ↔ (count ≡ pages / segment_pages)) }
{}
