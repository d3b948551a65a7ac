//! Objects appended to a segment, marked dead, and read.
ghost use Rattle.std.specs.Prelude.{◌≡◌, ℕ, ◌+◌, ◌-◌, ◌<◌, ◌≤◌, ◌⊎◌, ◌++◌, [], ◌∷◌, length, take, drop, replicate, slice_set};
ghost use Rattle.object_log.specs.inside.Made.{descriptor_bytes, object_bytes};
ghost use Rattle.object_log.specs.Contents.{bytes_of, length_of, padded};
ghost use Rattle.layout.specs.Sizes as sizes;
ghost use Rattle.object_log.specs.Objects.{objects, live, killed, content_at, IsSize, IsSegment, IsEnd, LivesAt};

use crate::descriptor::{DEAD, LIVE};
use crate::new_content::NewContent;
use byteorder::{ByteOrder, LittleEndian};
use layout::{DESCRIPTOR, SEGMENT};

/// Puts a live object of `size` bytes behind the others, which end at the byte `used`, and answers where the objects
/// end now. Its content is zero. An end descriptor follows where it has room. With a `used` of 0 the bytes before do
/// not matter.
pub fn append(segment: &mut [u8], used: u32, kind: u8, size: u32) -> u32
    // An object that has room behind the others.
    requires segment { length segment.old ≡ sizes.segment }
    requires objects { (used ≡ 0) ⊎ IsSegment segment.old used }
    requires kind { 1 ≤ kind }
    requires size { IsSize size }
    requires fits { used + size ≤ sizes.segment }

    // Behind the others stands one more.
    ensures used { result ≡ used + size }
    ensures added { objects segment.new result ≡ objects segment.old used ++ live used kind size ∷ [] }
    ensures segment { IsSegment segment.new result }

    // Its bytes are zero, the others stay.
    ensures content { content_at used size segment.new ≡ replicate (size - sizes.descriptor) 0 }
    ensures below { take used segment.new ≡ take used segment.old }
{
    append_with(segment, used, kind, size, NewContent::zeros())
}

/// The same with a content, which may have fewer bytes than the object has room for: those behind it are zero. No byte of
/// the object is written twice.
pub fn append_with(
    segment: &mut [u8],
    used: u32,
    kind: u8,
    size: u32,
    content: NewContent<'_>,
) -> u32
    // An object that has room behind the others.
    requires segment { length segment.old ≡ sizes.segment }
    requires objects { (used ≡ 0) ⊎ IsSegment segment.old used }
    requires kind { 1 ≤ kind }
    requires size { IsSize size }
    requires content { sizes.descriptor + length_of content ≤ size }
    requires fits { used + size ≤ sizes.segment }

    // Behind the others stands one more.
    ensures used { result ≡ used + size }
    ensures added { objects segment.new result ≡ objects segment.old used ++ live used kind size ∷ [] }
    ensures segment { IsSegment segment.new result }

    // It has the content, the other bytes stay.
    ensures content { content_at used size segment.new ≡ padded (size - sizes.descriptor) (bytes_of content.entry) }
    ensures below { take used segment.new ≡ take used segment.old }
{
    write_object(segment, used as usize, kind, size, content);
    write_end(segment, (used + size) as usize);
    used + size
}

fn write_object(segment: &mut [u8], at: usize, kind: u8, size: u32, content: NewContent<'_>)
    requires { (at + size ≤ length segment.old) × (sizes.descriptor + length_of content ≤ size) }
    ensures { segment.new ≡ take at segment.old
        ++ (object_bytes kind size (padded (size - sizes.descriptor) (bytes_of content.entry)) ++ drop (at + size) segment.old) }
{
    make_object(&mut segment[at..at + size as usize], kind, size, content);
}

fn make_object(object: &mut [u8], kind: u8, size: u32, content: NewContent<'_>)
    requires size { length object.old ≡ size }
    requires content { sizes.descriptor + length_of content ≤ size }
    ensures { object.new ≡ object_bytes kind size (padded (size - sizes.descriptor) (bytes_of content.entry)) }
{
    let (descriptor, behind) = object.split_at_mut(DESCRIPTOR as usize);
    descriptor.copy_from_slice(descriptor_of(kind, size).as_slice());
    make_content(behind, content);
}

// The descriptor of a live object.
fn descriptor_of(kind: u8, size: u32) -> [u8; 8]
    ensures { result ≡ descriptor_bytes kind size }
{
    let mut descriptor = [LIVE, kind, 0, 0, 0, 0, 0, 0];
    LittleEndian::write_u32(&mut descriptor[4..], size);
    descriptor
}

fn make_content(bytes: &mut [u8], content: NewContent<'_>)
    requires { length_of content ≤ length bytes.old }
    ensures { bytes.new ≡ padded (length bytes.old) (bytes_of content.entry) }
{
    let (header, behind) = bytes.split_at_mut(content.header.len());
    header.copy_from_slice(content.header);
    let (first, behind) = behind.split_at_mut(content.first.len());
    first.copy_from_slice(content.first);
    make_last(behind, content.second);
}

// The bytes in front, and zeros behind them.
fn make_last(bytes: &mut [u8], last: &[u8])
    requires { length last.now ≤ length bytes.old }
    ensures { bytes.new ≡ padded (length bytes.old) last.now }
{
    let (front, padding) = bytes.split_at_mut(last.len());
    front.copy_from_slice(last);
    clear(padding);
}

fn clear(bytes: &mut [u8])
    ensures { bytes.new ≡ replicate (length bytes.old) 0 }
{
    bytes.fill(0);
}

fn write_end(segment: &mut [u8], at: usize)
    requires { (length segment.old ≡ sizes.segment) × (at ≤ sizes.segment) }
    ensures end { at + sizes.descriptor ≤ sizes.segment → IsEnd segment.new at }
    ensures below { take at segment.new ≡ take at segment.old }
{
    if at <= (SEGMENT - DESCRIPTOR) as usize {
        segment[at..at + DESCRIPTOR as usize].fill(0);
    }
}

/// The live object at the offset is dead from now on. It keeps its place and its content.
pub fn kill(segment: &mut [u8], at: u32)
    requires { (used : ℕ) × IsSegment segment.old used × LivesAt at (objects segment.old used) }
    ensures dead { (used : ℕ) → IsSegment segment.old used → LivesAt at (objects segment.old used)
        → objects segment.new used ≡ killed at (objects segment.old used) }
    ensures segment { (used : ℕ) → IsSegment segment.old used → LivesAt at (objects segment.old used) → IsSegment segment.new used }
    ensures state { segment.new ≡ slice_set segment.old at 2 }
{
    mark_dead(segment, at as usize);
}

fn mark_dead(segment: &mut [u8], at: usize)
    requires { at < length segment.old }
    ensures { segment.new ≡ slice_set segment.old at 2 }
{
    segment[at] = DEAD;
}
