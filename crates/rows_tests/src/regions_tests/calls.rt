//! Calls of a region: one that does not fit what stands changes nothing.
ghost use Rattle.std.specs.Prelude.{◌≡◌, ◌≤◌, false, true, length, IfSome, IsSome, option_map};
ghost use Rattle.object_log.specs.Objects.{IsSize};
ghost use Rattle.regions.specs.Shapes.{guards_at, HasGroup, IsClosed, IsUnguarded};
ghost use Rattle.regions.specs.Contents.{standing_at, live_at, with_bytes, ChangesAt, IsLiveAt};

use raw_range::Piece;
use regions::{LiveObject, Place, Region};

// Whether the region has the group.
fn has_group(region: &Region, group: u32) -> bool
    ensures { result ≡ true → HasGroup region.now group }
{
    group < region.groups()
}

pub(super) fn go_on(region: &mut Region, group: u32) -> Option<u32> {
    if !has_group(region, group) {
        return None;
    }
    begin(region, group);
    active(region, group)
}

fn begin(region: &mut Region, group: u32)
    requires { HasGroup region.old group }
{
    if region.free_segments() > 0
        && (region.active(group).is_none() || region.left(group) < 12_296)
    {
        region.next_active(group);
    }
}

pub(super) fn active(region: &Region, group: u32) -> Option<u32> {
    if !has_group(region, group) {
        return None;
    }
    region.active(group)
}

// The segment of the new object, and where it begins there.
pub(super) fn put(region: &mut Region, group: u32, kind: u8, size: u32) -> Option<(u32, u32)>
    requires kind { 1 ≤ kind }
    requires size { IsSize size }
{
    if !has_group(region, group) {
        return None;
    }
    let Ok(place) = region.place(group, kind, size) else {
        return None;
    };
    Some((place.segment, place.at))
}

// Ten of the greatest objects.
pub(super) fn put_ten(region: &mut Region, group: u32) {
    for _ in 0..10 {
        let _placed = put(region, group, 1, 12_296);
    }
}

// What a caller can say of a content that it writes.
fn overwrite(region: &mut Region, place: Place, from: &[u8])
    requires live { IsSome (live_at region.old place) }
    requires fits { IfSome (standing_at region.old place) (λ s. length s.item.content ≡ length from.now) }
    ensures { ChangesAt place (option_map (with_bytes from.now) (standing_at region.old place)) region.old region.new }
{
    region.bytes_mut(place).copy_from_slice(from);
}

// Whether two objects side by side, of which each is written through, have their contents then.
pub(super) fn write_both(region: &mut Region) -> bool {
    if !has_group(region, 0) {
        return false;
    }
    let Ok(first) = region.place(0, 1, 48) else {
        return false;
    };
    let Ok(second) = region.place(0, 2, 16) else {
        return false;
    };
    region.bytes_mut(second).fill(9);
    overwrite(region, first, &[7; 40]);
    let sevens = has_sevens(region.bytes(first));
    sevens & (region.bytes(second) == [9u8; 8].as_slice())
}

fn has_sevens(content: &[u8]) -> bool {
    content == [7u8; 40].as_slice()
}

// An object that dies at once.
fn spend(region: &mut Region, group: u32, size: u32)
    requires { IsSize size }
{
    if !has_group(region, group) {
        return;
    }
    if let Ok(place) = region.place(group, 1, size) {
        region.kill(place);
    }
}

// Ten of the greatest objects, dead.
pub(super) fn spend_ten(region: &mut Region, group: u32) {
    for _ in 0..10 {
        spend(region, group, 12_296);
    }
}

// Where the objects of a closed segment end, and its live bytes.
pub(super) fn counts(region: &Region, segment: u32) -> Option<(u32, u32)> {
    if !region.is_closed(segment) {
        return None;
    }
    Some((region.used(segment), region.live_in(segment)))
}

pub(super) type Live = Option<LiveObject>;

// Where the objects of a closed segment end, its first live one, and the next one behind that.
pub(super) fn two_live(region: &Region, segment: u32) -> Option<(u32, Live, Live)> {
    if !region.is_closed(segment) {
        return None;
    }
    let used = region.used(segment);
    let Some(first) = region.next_live(segment, 0) else {
        return Some((used, None, None));
    };
    let Some(behind) = first.at.checked_add(first.size) else {
        return Some((used, Some(first), None));
    };
    Some((used, Some(first), region.next_live(segment, behind)))
}

pub(super) fn has(region: &Region, segment: u32, from: usize, bytes: &[u8]) -> bool {
    if !region.is_closed(segment) {
        return false;
    }
    let all = region.segment_bytes(segment);
    from <= all.len() && all[from..].starts_with(bytes)
}

// Whether a segment's group has no guard.
fn is_unguarded_at(region: &Region, segment: u32) -> bool
    requires { IsClosed region.now segment }
    ensures { result ≡ true → guards_at region.now segment ≡ 0 }
{
    match region.group_of(segment) {
        Some(group) => region.guards(group) == 0,
        None => false,
    }
}

pub(super) fn free(region: &mut Region, segment: u32) -> bool {
    if !region.is_closed(segment) || !is_unguarded_at(region, segment) {
        return false;
    }
    if region.live_in(segment) > 0 {
        return false;
    }
    region.free_closed(segment);
    true
}

// Whether a dead object is served under three guards, under two and under one. None where a guard stands.
pub(super) fn serves_dead(region: &mut Region) -> Option<bool> {
    if !has_group(region, 0) || region.guards(0) > 0 {
        return None;
    }
    let Ok(place) = region.place(0, 1, 48) else {
        return None;
    };
    region.bytes_mut(place).fill(7);
    region.guard(0);
    region.guard(0);
    region.guard(0);
    region.kill(place);
    let three = has_sevens(region.bytes(place));
    region.unguard(0);
    let two = has_sevens(region.bytes(place));
    region.unguard(0);
    Some(three & two & has_sevens(region.bytes(place)))
}

// A copy of the live object behind those of the active segment, and where it stands.
fn append_copy(region: &mut Region, from: Place, kind: u8, size: u32) -> Option<Place>
    requires group { HasGroup region.old 0 }
    requires closed { IsClosed region.old from.segment }
    requires live { IsLiveAt (live_at region.old from) kind size }
    requires kind { 1 ≤ kind }
    requires size { IsSize size }
{
    let Ok(to) = region.place(0, kind, size) else {
        return None;
    };
    region.copy(from, to);
    Some(to)
}

// The first live object of a closed segment is copied: the segment of the copy, and where it begins there.
pub(super) fn copy_first(region: &mut Region, segment: u32) -> Option<(u32, u32)> {
    if !region.is_closed(segment) || !has_group(region, 0) {
        return None;
    }
    let LiveObject { at, kind, size } = region.next_live(segment, 0)?;
    let copy = append_copy(region, Place { segment, at }, kind, size)?;
    Some((copy.segment, copy.at))
}

// A content is copied over another in the same segment. Whether the two are alike then.
pub(super) fn copy_beside(region: &mut Region) -> bool {
    if !has_group(region, 0) {
        return false;
    }
    let Ok(first) = region.place(0, 1, 48) else {
        return false;
    };
    let Ok(second) = region.place(0, 2, 48) else {
        return false;
    };
    overwrite(region, first, &[7; 40]);
    region.copy(first, second);
    has_sevens(region.bytes(first)) & has_sevens(region.bytes(second))
}

// The owner of a piece.
fn owner(piece: Option<Piece>) -> Option<u32> {
    match piece {
        Some(piece) => Some(piece.owner()),
        None => None,
    }
}

pub(super) fn take_free(region: &mut Region) -> Option<u32> {
    owner(region.take_free())
}

fn is_guarded(region: &Region) -> bool
    ensures { result ≡ false → IsUnguarded region.now }
{
    for group in 0..region.groups() {
        if region.guards(group) > 0 {
            return true;
        }
    }
    false
}

pub(super) fn give_up(region: &mut Region) -> Option<u32> {
    if is_guarded(region) {
        return None;
    }
    owner(region.give_up())
}

pub(super) fn guard(region: &mut Region, group: u32) -> bool {
    if !has_group(region, group) || region.guards(group) > 9 {
        return false;
    }
    region.guard(group);
    true
}

pub(super) fn unguard(region: &mut Region, group: u32) -> bool {
    if !has_group(region, group) || region.guards(group) == 0 {
        return false;
    }
    region.unguard(group);
    true
}

pub(super) fn guards(region: &Region, group: u32) -> Option<u32> {
    if !has_group(region, group) {
        return None;
    }
    Some(region.guards(group))
}

pub(super) fn left(region: &Region, group: u32) -> Option<u32> {
    if !has_group(region, group) {
        return None;
    }
    Some(region.left(group))
}

pub(super) fn is_closed_live(region: &Region, group: u32, live: &[u32]) -> bool {
    has_group(region, group) && region.closed_live(group) == live
}

pub(super) fn sparse(region: &Region, group: u32) -> Option<u32> {
    if !has_group(region, group) {
        return None;
    }
    Some(region.sparse_segments(group))
}

// The group of a segment that is closed, or active in one of the groups. None where it is free.
pub(super) fn group_of(region: &Region, segment: u32) -> Option<u32> {
    for group in 0..region.groups() {
        if region.active(group) == Some(segment) {
            return region.group_of(segment);
        }
    }
    if region.is_closed(segment) {
        region.group_of(segment)
    } else {
        None
    }
}
