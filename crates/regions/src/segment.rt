//! A segment that a region holds.
ghost use Rattle.std.specs.Prelude.{◌≡◌, ◌⊎◌, ℕ, ◌+◌, ◌-◌, ◌<◌, ◌≤◌, List, length, take, drop, Some, None, option_map, IsSome, IsNone, IfSome};
ghost use Rattle.std.specs.Borrow.{Array, Lends, sem, u8 as byte};
ghost use Rattle.layout.specs.Sizes as sizes;
ghost use Rattle.object_log.specs.Objects.{IsSize, IsSegment};
ghost use Rattle.object_log.specs.Contents.{bytes_of, length_of, padded};
ghost use Rattle.raw_range.specs.Memory.{written};
ghost use Rattle.regions.specs.Segments.{fresh, emptied};
ghost use Rattle.regions.specs.Shapes.{slot_of};
ghost use Rattle.regions.specs.Counts.{live_in};
ghost use Rattle.regions.specs.Contents.{standing_in, item_if_live, size_of, holding, dead, rewritten, with_bytes, starts_in, none_lives_in, ChangesIn, IsLiveAt};

use crate::place::LiveObject;
use layout::DESCRIPTOR;
use object_log::{NewContent, append_with, content_extent, kill, read_descriptor};
use raw_range::Piece;
use std::marker::Model;

// A piece of the size of a segment, with its objects.
#[derive(Drop)]
pub(crate) struct Segment {
    piece: Piece,
    used: u32,
    group: Option<u32>,
}

impl Model for Segment {
    ghost use Rattle.std.specs.Prelude.{◌≡◌, None, IsSome, length};
    ghost use Rattle.layout.specs.Sizes as sizes;
    ghost use Rattle.object_log.specs.Objects.{IsSegment};
    ghost use Rattle.regions.specs.Segments.{SegmentState, segment_code};

    ghost Value = { SegmentState };

    ghost coded = { segment_code };

    ghost view = { λ s. record { piece = s.piece; used = s.used; group = s.group } };

    ghost invariant = { λ s. (length s.piece.bytes ≡ sizes.segment) × (s.group ≡ None → s.used ≡ 0)
        × (IsSome s.group → IsSegment s.piece.bytes s.used) };
}

impl Segment {
    ghost use Rattle.regions.specs.Lends.{segment_with};
    ghost use Rattle.regions.specs.contracts.segment.Segment.{the_row};

    pub(crate) fn new(piece: Piece) -> Segment
        requires { length piece.bytes ≡ sizes.segment }
        ensures { result ≡ fresh piece }
    {
        Segment {
            piece,
            used: 0,
            group: None,
        }
    }

    pub(crate) fn into_piece(self) -> Piece
        ensures piece { result ≡ self.piece }
        ensures long { length self.piece.bytes ≡ sizes.segment }
        ensures unused { self.group ≡ None → self.used ≡ 0 }
    {
        let Segment {
            piece,
            used: _,
            group: _,
        } = self;
        piece
    }

    // The group in which it is closed or active. None where it is free.
    pub(crate) fn group(&self) -> Option<u32>
        ensures group { result ≡ self.now.group }
        ensures unused { IsNone result → self.now.used ≡ 0 }
    {
        self.group
    }

    pub(crate) fn used(&self) -> u32
        ensures used { result ≡ self.now.used }
        ensures inside { self.now.used ≤ sizes.segment }
        ensures start { IsSome self.now.group → starts_in (Some self.now) 0 }
    {
        self.used
    }

    pub(crate) fn bytes(&self) -> &[u8]
        ensures bytes { result.now ≡ self.now.piece.bytes }
        ensures segment { IsSome self.now.group → IsSegment result.now self.now.used }
    {
        self.piece.bytes()
    }

    // A free segment becomes active in the group.
    pub(crate) fn begin(&mut self, group: u32)
        requires { self.old.group ≡ None }
        ensures slot { slot_of self.new ≡ record (slot_of self.old) { group = Some group } }
        ensures unused { (self.old.used ≡ 0) × (self.new.used ≡ 0) }
    {
        write_end(self.piece.bytes_mut());
        self.group = Some(group);
    }

    // Answers where the object stands.
    pub(crate) fn append(&mut self, kind: u8, size: u32, content: NewContent<'_>) -> u32
        requires begun { IsSome self.old.group }
        requires kind { 1 ≤ kind }
        requires size { IsSize size }
        requires content { sizes.descriptor + length_of content ≤ size }
        requires fits { self.old.used + size ≤ sizes.segment }

        // So many bytes more are used and live.
        ensures at { result ≡ self.old.used }
        ensures slot { slot_of self.new ≡ slot_of self.old }
        ensures used { self.new.used ≡ self.old.used + size }
        ensures live { live_in (Some self.new) ≡ live_in (Some self.old) + size }
        ensures inside { live_in (Some self.new) ≤ sizes.segment }

        // It stands where nothing stood, and is the only change.
        ensures unused { standing_in (Some self.old) result ≡ None }
        ensures added { ChangesIn result (Some (holding self.old.group kind
            (padded (size - sizes.descriptor) (bytes_of content.entry)))) (Some self.old) (Some self.new) }
    {
        let at = self.used;
        self.used = append_with(self.piece.bytes_mut(), at, kind, size, content);
        at
    }

    // The same with the content of a live object of another segment.
    pub(crate) fn append_copy(&mut self, source: &Segment, from: u32, kind: u8, size: u32) -> u32
        requires live { IsSome (item_if_live (standing_in (Some source.now) from)) }
        requires whole { option_map size_of (item_if_live (standing_in (Some source.now) from)) ≡ Some size }
        requires begun { IsSome self.old.group }
        requires kind { 1 ≤ kind }
        requires size { IsSize size }
        requires fits { self.old.used + size ≤ sizes.segment }

        // So many bytes more are used and live.
        ensures at { result ≡ self.old.used }
        ensures slot { slot_of self.new ≡ slot_of self.old }
        ensures used { self.new.used ≡ self.old.used + size }
        ensures live { live_in (Some self.new) ≡ live_in (Some self.old) + size }
        ensures inside { live_in (Some self.new) ≤ sizes.segment }

        // It stands where nothing stood, and is the only change.
        ensures unused { standing_in (Some self.old) result ≡ None }
        ensures added { IfSome (item_if_live (standing_in (Some source.now) from))
            (λ i. ChangesIn result (Some (holding self.old.group kind i.content)) (Some self.old) (Some self.new)) }
    {
        self.append(kind, size, NewContent::whole(source.content(from)))
    }

    // Answers the object's size.
    pub(crate) fn kill(&mut self, at: u32) -> u32
        requires { IsSome (item_if_live (standing_in (Some self.old) at)) }
        ensures size { IfSome (standing_in (Some self.old) at) (λ s. result ≡ size_of s.item) }
        ensures begun { IsSome self.old.group }
        ensures slot { slot_of self.new ≡ slot_of self.old }
        ensures used { self.new.used ≡ self.old.used }
        ensures live { live_in (Some self.old) ≡ live_in (Some self.new) + result }
        ensures killed { ChangesIn at (option_map dead (standing_in (Some self.old) at)) (Some self.old) (Some self.new) }
    {
        let size = read_descriptor(self.piece.bytes(), at).size;
        kill(self.piece.bytes_mut(), at);
        size
    }

    // What the object's descriptor stands in front of.
    pub(crate) fn content(&self, at: u32) -> &[u8]
        requires { IsSome (standing_in (Some self.now) at) }
        ensures content { option_map (λ s. s.item.content) (standing_in (Some self.now) at) ≡ Some result.now }
        ensures inside { at < sizes.segment }
    {
        let bytes = self.piece.bytes();
        let (start, len) = content_extent(bytes, at);
        part(bytes, start, len)
    }

    // The content of a live object, for writing.
    pub(crate) fn content_mut(&mut self, at: u32) -> &mut [u8]
        requires { IsSome (item_if_live (standing_in (Some self.old) at)) }
        ensures* lends { sem 𝓛 (Lends the_row (Array byte 0) self.entry result (λ ws. segment_with at ws self.old)) }
        ensures value { option_map (λ s. s.item.content) (standing_in (Some self.old) at) ≡ Some result.now }
        ensures slot { (ws : List ℕ) → slot_of (segment_with at ws self.old) ≡ slot_of self.old }
        ensures live { (ws : List ℕ) → live_in (Some (segment_with at ws self.old)) ≡ live_in (Some self.old) }
        ensures written { (ws : List ℕ) → ChangesIn at (option_map (rewritten ws) (standing_in (Some self.old) at)) (Some self.old)
            (Some (segment_with at ws self.old)) }
    {
        let (start, len) = content_extent(self.piece.bytes(), at);
        self.piece.part_mut(start, len)
    }

    // Writes the content of a live object over that of another of its size.
    pub(crate) fn copy_within(&mut self, from: u32, to: u32)
        requires from { IsSome (item_if_live (standing_in (Some self.old) from)) }
        requires to { IsSome (item_if_live (standing_in (Some self.old) to)) }
        requires size { option_map size_of (item_if_live (standing_in (Some self.old) from))
            ≡ option_map size_of (item_if_live (standing_in (Some self.old) to)) }
        ensures slot { slot_of self.new ≡ slot_of self.old }
        ensures used { self.new.used ≡ self.old.used }
        ensures live { live_in (Some self.new) ≡ live_in (Some self.old) }
        ensures copied { IfSome (item_if_live (standing_in (Some self.old) from))
            (λ i. ChangesIn to (option_map (with_bytes i.content) (standing_in (Some self.old) to)) (Some self.old) (Some self.new)) }
    {
        let (start, len) = content_extent(self.piece.bytes(), from);
        let (target, _len) = content_extent(self.piece.bytes(), to);
        copy_run(self.piece.bytes_mut(), start, len, target);
    }

    // The same, from a live object of another segment.
    pub(crate) fn copy_from(&mut self, source: &Segment, from: u32, to: u32)
        requires from { IsSome (item_if_live (standing_in (Some source.now) from)) }
        requires to { IsSome (item_if_live (standing_in (Some self.old) to)) }
        requires size { option_map size_of (item_if_live (standing_in (Some source.now) from))
            ≡ option_map size_of (item_if_live (standing_in (Some self.old) to)) }
        ensures slot { slot_of self.new ≡ slot_of self.old }
        ensures used { self.new.used ≡ self.old.used }
        ensures live { live_in (Some self.new) ≡ live_in (Some self.old) }
        ensures copied { IfSome (item_if_live (standing_in (Some source.now) from))
            (λ i. ChangesIn to (option_map (with_bytes i.content) (standing_in (Some self.old) to)) (Some self.old) (Some self.new)) }
    {
        overwrite(self.content_mut(to), source.content(from));
    }

    // The first live object from the offset on.
    pub(crate) fn next_live(&self, from: u32) -> Option<LiveObject>
        requires begun { IsSome self.now.group }
        requires start { (from ≡ 0) ⊎ starts_in (Some self.now) from }

        // Nothing lives before the object that is found, or up to the end where none is.
        ensures none { IsNone result → none_lives_in (Some self.now) from self.now.used }
        ensures skipped { IfSome result (λ f. (from ≤ f.at) × none_lives_in (Some self.now) from f.at) }

        // The object.
        ensures found { IfSome result (λ f. IsLiveAt (item_if_live (standing_in (Some self.now) f.at)) f.kind f.size) }
        ensures size { IfSome result (λ f. (1 ≤ f.kind) × IsSize f.size) }
        ensures within { IfSome result (λ f. f.at + f.size ≤ self.now.used) }
        ensures inside { IfSome result (λ f. f.at + f.size ≤ sizes.segment) }

        // Where the search goes on: nothing stands between.
        ensures next { IfSome result (λ f. starts_in (Some self.now) (f.at + f.size)) }
        ensures between { IfSome result (λ f. (a : ℕ) → f.at < a → a < f.at + f.size → standing_in (Some self.now) a ≡ None) }

        // What the search says of the live bytes.
        ensures counted { IfSome result (λ f. f.size ≤ live_in (Some self.now)) }
        ensures dead { IsNone result → none_lives_in (Some self.now) 0 from → live_in (Some self.now) ≡ 0 }
    {
        let bytes = self.piece.bytes();
        let mut at = from;
        while at < self.used {
            let found = read_descriptor(bytes, at);
            if found.is_live() {
                return Some(LiveObject {
                    at,
                    kind: found.kind,
                    size: found.size,
                });
            }
            at += found.size;
        }
        None
    }

    // Where no byte is live no object is lost.
    pub(crate) fn clear(&mut self)
        ensures cleared { self.new ≡ emptied self.old }
        ensures dead { live_in (Some self.old) ≡ 0 → (at : ℕ) → item_if_live (standing_in (Some self.old) at) ≡ None }
    {
        self.used = 0;
        self.group = None;
    }
}

// `len` bytes from `at` on.
fn part(bytes: &[u8], at: usize, len: usize) -> &[u8]
    requires { at + len ≤ length bytes.now }
    ensures { result.now ≡ take len (drop at bytes.now) }
{
    &bytes[at..at + len]
}

// The bytes are the content from now on.
fn overwrite(content: &mut [u8], bytes: &[u8])
    requires { length content.old ≡ length bytes.now }
    ensures { content.new ≡ bytes.now }
{
    content.copy_from_slice(bytes);
}

// Writes `len` bytes from `from` on over as many from `to` on.
fn copy_run(bytes: &mut [u8], from: usize, len: usize, to: usize)
    requires from { from + len ≤ length bytes.old }
    requires to { to + len ≤ length bytes.old }
    ensures { bytes.new ≡ written bytes.old to (take len (drop from bytes.old)) }
{
    bytes.copy_within(from..from + len, to);
}

// The bytes are a segment without objects from now on.
fn write_end(segment: &mut [u8])
    requires { length segment.old ≡ sizes.segment }
    ensures { IsSegment segment.new 0 }
{
    segment[..DESCRIPTOR as usize].fill(0);
}
