// One place of a region's table of segments, and the table.
ghost use Rattle.std.specs.Prelude.{◌≡◌, ◌≢◌, ℕ, ◌+◌, ◌<◌, ◌≤◌, true, Some, None, length, option_map, slice_index_or, IsSome, IfSome, map};
ghost use Rattle.std.specs.Borrow.{Lends, sem};
ghost use Rattle.std.specs.contracts.option.Option.{the_row as OptionOf};
ghost use Rattle.layout.specs.Sizes as sizes;
ghost use Rattle.object_log.specs.Objects.{IsSize};
ghost use Rattle.regions.specs.contracts.segment.Segment.{the_row};
ghost use Rattle.regions.specs.Segments.{fresh, emptied};
ghost use Rattle.regions.specs.Counts.{live_in};
ghost use Rattle.regions.specs.Contents.{item_if_live, standing_in, size_of, holding, with_bytes, ChangesIn};
ghost use Rattle.regions.specs.Shapes.{slot_of, group_in, is_free, is_begun};
ghost use Rattle.regions.specs.inside.Tables.{standing_with, HasCopy};

use crate::place::Place;
use crate::segment::Segment;
use raw_range::Piece;
use std::mem;

// The segment that is there, for reading.
pub(crate) fn segment_in(slot: &Option<Segment>) -> &Segment
    requires { IsSome slot.now }
    ensures { slot.now ≡ Some result.now }
{
    let Some(segment) = slot else { unreachable!() };
    segment
}

// The segment that is there, for writing.
pub(crate) fn segment_mut(slot: &mut Option<Segment>) -> &mut Segment
    requires { IsSome slot.old }
    ensures* lends { sem 𝓛 (Lends (OptionOf the_row) the_row slot.entry result (λ h. Some h)) }
    ensures value { slot.old ≡ Some result.now }
{
    let Some(segment) = slot else { unreachable!() };
    segment
}

// Writes the content of the live object at `from` over that of the live object at `to`, which has the same size.
// `target` is the segment of the second, which was taken out of the table.
pub(crate) fn copy_into(target: &mut Segment, slots: &[Option<Segment>], from: Place, to: Place)
    requires inside { to.segment < length slots.now }
    requires from { IsSome (item_if_live (standing_with slots.now to.segment target.old from)) }
    requires to { IsSome (item_if_live (standing_in (Some target.old) to.at)) }
    requires size { option_map size_of (item_if_live (standing_with slots.now to.segment target.old from))
        ≡ option_map size_of (item_if_live (standing_in (Some target.old) to.at)) }

    // The segment is as full as it was.
    ensures slot { slot_of target.new ≡ slot_of target.old }
    ensures used { target.new.used ≡ target.old.used }
    ensures live { live_in (Some target.new) ≡ live_in (Some target.old) }

    // Only the object at `to` changes.
    ensures copied { IfSome (item_if_live (standing_with slots.now to.segment target.old from))
        (λ i. ChangesIn to.at (option_map (with_bytes i.content) (standing_in (Some target.old) to.at)) (Some target.old)
        (Some target.new)) }
{
    if from.segment == to.segment {
        target.copy_within(from.at, to.at);
    } else {
        target.copy_from(segment_in(&slots[from.segment as usize]), from.at, to.at);
    }
}

// Appends a copy of the live object at `from` to a segment that was taken out of the table, and answers where it stands.
fn copy_onto(
    target: &mut Segment,
    slots: &[Option<Segment>],
    from: Place,
    kind: u8,
    size: u32,
) -> u32
    requires inside { from.segment < length slots.now }
    requires live { IsSome (item_if_live (standing_in (slice_index_or slots.now from.segment None) from.at)) }
    requires whole { option_map size_of (item_if_live (standing_in (slice_index_or slots.now from.segment None) from.at)) ≡ Some size }
    requires begun { IsSome target.old.group }
    requires kind { 1 ≤ kind }
    requires size { IsSize size }
    requires fits { target.old.used + size ≤ sizes.segment }

    // So many bytes more are used and live.
    ensures at { result ≡ target.old.used }
    ensures slot { slot_of target.new ≡ slot_of target.old }
    ensures used { target.new.used ≡ target.old.used + size }
    ensures live { live_in (Some target.new) ≡ live_in (Some target.old) + size }
    ensures inside { live_in (Some target.new) ≤ sizes.segment }

    // It stands where nothing stood, and is the only change.
    ensures unused { standing_in (Some target.old) result ≡ None }
    ensures added { IfSome (item_if_live (standing_in (slice_index_or slots.now from.segment None) from.at))
        (λ i. ChangesIn result (Some (holding target.old.group kind i.content)) (Some target.old) (Some target.new)) }
{
    target.append_copy(
        segment_in(&slots[from.segment as usize]),
        from.at,
        kind,
        size,
    )
}

// Appends a copy of the live object at `from` to another segment of the table, and answers where it stands. That segment is
// out of the table while the copy is written.
pub(crate) fn append_copy(
    slots: &mut Vec<Option<Segment>>,
    number: u32,
    from: Place,
    kind: u8,
    size: u32,
) -> u32
    requires inside { (number < length slots.old.items) × (from.segment < length slots.old.items) }
    requires apart { from.segment ≢ number }
    requires live { IsSome (item_if_live (standing_in (slice_index_or slots.old.items from.segment None) from.at)) }
    requires whole { option_map size_of (item_if_live (standing_in (slice_index_or slots.old.items from.segment None) from.at))
        ≡ Some size }
    requires held { IsSome (slice_index_or slots.old.items number None) }
    requires room { IfSome (slice_index_or slots.old.items number None)
        (λ h. IsSome h.group × (h.used + size ≤ sizes.segment)) }
    requires kind { 1 ≤ kind }
    requires size { IsSize size }
    ensures { HasCopy slots.old.items slots.new.items number result
        (item_if_live (standing_in (slice_index_or slots.old.items from.segment None) from.at)) kind size }
{
    let mut target = mem::replace(&mut slots[number as usize], None);
    let at = copy_onto(segment_mut(&mut target), slots.as_slice(), from, kind, size);
    slots[number as usize] = target;
    at
}

// The piece of a free segment.
pub(crate) fn piece_of(slot: Option<Segment>) -> Piece
    requires { is_free (option_map slot_of slot) ≡ true }
    ensures { slot ≡ Some (fresh result) }
{
    let Some(segment) = slot else { unreachable!() };
    segment.into_piece()
}

// The group of the segment, if one is there that is not free.
pub(crate) fn group_in(slot: &Option<Segment>) -> Option<u32>
    ensures { result ≡ group_in (option_map slot_of slot.now) }
{
    match slot {
        Some(segment) => segment.group(),
        None => None,
    }
}

// The group of a segment that is there and not free.
pub(crate) fn group_begun(slot: &Option<Segment>) -> u32
    requires { is_begun (option_map slot_of slot.now) ≡ true }
    ensures { group_in (option_map slot_of slot.now) ≡ Some result }
{
    let Some(group) = group_in(slot) else {
        unreachable!()
    };
    group
}

pub(crate) fn clear(slot: &mut Option<Segment>)
    ensures cleared { slot.new ≡ option_map emptied slot.old }
    ensures dead { live_in slot.old ≡ 0 → (at : ℕ) → item_if_live (standing_in slot.old at) ≡ None }
{
    match slot {
        Some(segment) => segment.clear(),
        None => {}
    }
}

pub(crate) fn clear_all(slots: &mut [Option<Segment>])
    ensures { slots.new ≡ map (λ s. option_map emptied s) slots.old }
{
    for number in 0..slots.len() {
        clear(&mut slots[number]);
    }
}
