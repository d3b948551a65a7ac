//! The sizes of a shard's memory and of what stands in it, each once, the kinds of its objects, and extents of memory.
//!
//! Pages and orders are Seastar's; segments, density and the greatest object follow ScyllaDB's logalloc; the numbers
//! themselves are this project's. Each constant has a word of its own in `specs/Sizes.antt`, which contracts cite.
//!
//! # Choices
//! - A size is a constant of the code and a word of the specifications, under one name; what one says of another is a law.
//! - An extent is its start and its length, in bytes or in pages, as its user says.
//! - The kinds of objects are one enum, since no two stores may have one; `object_log` and `regions` take a kind as a number,
//!   and stand for objects of any kinds.
//! - Counts that stand still at the greatest u64, and when one rose, are defined here once, for devices, blocks, links and
//!   turns.
#![tactic(auto)]

ghost use Rattle.std.specs.Prelude.{◌≡◌, ℕ, ◌+◌, ◌*◌, ◌^◌, ◌<◌, ◌≤◌};
ghost use Rattle.layout.specs.Sizes as sizes;

mod object_kind;

pub use object_kind::ObjectKind;

/// The bytes of a page.
pub const PAGE: u32 = 4096;

/// The pages of a segment.
pub const SEGMENT_PAGES: u32 = 32;

/// A segment is a span of 2 to the power of this many pages.
pub const SEGMENT_ORDER: u8 = 5;

/// The bytes of a segment.
pub const SEGMENT: u32 = PAGE * SEGMENT_PAGES;

/// The greatest order of a span.
pub const GREATEST_ORDER: u8 = 19;

/// The fewest pages of a shard; they are always a multiple of [`SEGMENT_PAGES`].
pub const FEWEST_PAGES: u32 = 1280;

/// The most pages of a shard: 2 GiB.
pub const MOST_PAGES: u32 = 524_288;

/// The most pages of a shard that the program's words can ask for: 256 MiB.
pub const MOST_RUN_PAGES: u32 = 65_536;

/// The most segments of a shard.
pub const MOST_SEGMENTS: u32 = MOST_PAGES / SEGMENT_PAGES;

/// The bytes of a descriptor, which stands in front of each object of a segment.
pub const DESCRIPTOR: u32 = 8;

/// The bytes of the least object of a segment, its descriptor included.
pub const LEAST_OBJECT: u32 = 16;

/// The bytes of the greatest object of a segment, its descriptor included.
pub const GREATEST_OBJECT: u32 = 12_296;

/// A segment with more live bytes than this is dense: a segment less the greatest object.
pub const DENSE: u32 = SEGMENT - GREATEST_OBJECT;

/// The bytes of the greatest block of the small pools.
pub const GREATEST_BLOCK: u32 = 16_384;

/// The most bytes of a key.
pub const GREATEST_KEY: usize = 256;

/// The most bytes of a value.
pub const GREATEST_VALUE: usize = 12_000;

/// The tables of a shard, numbered from 0.
pub const TABLES: u32 = 8;

/// The fewest pages of a shard whose rows are of tables.
pub const FEWEST_TABLE_PAGES: u32 = 1536;

/// The most keys that a scan gives.
pub const MOST_KEYS: u32 = 32;

/// The bytes in front of the body of a message.
pub const MESSAGE_HEADER: u32 = 16;

/// The most bytes of a key in a body of keys, behind its length in two bytes.
pub const KEY_ROOM: u32 = 258;

/// The most bytes of a shard's reply to a scan, header included.
pub const SCAN_ROOM: u32 = MESSAGE_HEADER + MOST_KEYS * KEY_ROOM;

/// The bytes of the greatest request, that of a put.
pub const GREATEST_REQUEST: u32 = MESSAGE_HEADER + GREATEST_KEY as u32 + GREATEST_VALUE as u32;

/// The blocks that a shard may have lent at once.
pub const TICKETS: u32 = 32;

/// Those among them that are lent for requests; the others are lent for replies.
pub const REQUEST_TICKETS: u32 = 8;

/// The words of a cache line, of 64 bits each.
pub const LINE_WORDS: usize = 8;

/// The words of a list over which blocks come home: its head, a link for each ticket, and a line of words that stay 0.
pub const LIST_WORDS: usize = 1 + TICKETS as usize + LINE_WORDS;

/// The packets that the ring of a lane of requests holds.
pub const REQUEST_SLOTS: usize = 4;

/// The packets that the ring of a lane of replies holds.
pub const REPLY_SLOTS: usize = 8;

/// The most bytes of a trace, and of a script.
pub const MOST_TRACE_BYTES: u32 = 67_108_864;

/// The sizes hang together: what one of them says of another.
pub fn sizes_hang_together()
    ensures segment { sizes.segment ≡ sizes.page * sizes.segment_pages }
    ensures most { sizes.most_segments * sizes.segment_pages ≡ sizes.most_pages }
    ensures order { sizes.segment_pages ≡ 2 ^ sizes.segment_order }
    ensures longest { sizes.most_pages ≡ 2 ^ sizes.greatest_order }
    ensures orders { sizes.span_orders ≡ sizes.greatest_order + 1 }
    ensures runs { (sizes.fewest_pages ≤ sizes.most_run_pages) × (sizes.most_run_pages ≤ sizes.most_pages) }
    ensures dense { sizes.dense + sizes.greatest_object ≡ sizes.segment }
    ensures scan { sizes.scan_room ≡ sizes.message_header + sizes.most_keys * sizes.key_room }
    ensures request { sizes.greatest_request ≡ sizes.message_header + sizes.greatest_key + sizes.greatest_value }
    ensures shares { sizes.request_tickets < sizes.tickets }
    ensures fewest { sizes.segment_pages * (sizes.tickets + 2) < sizes.fewest_pages }
    ensures fewest_tables { sizes.segment_pages * (sizes.tickets + 1 + sizes.tables) < sizes.fewest_table_pages }
    ensures list { sizes.list_words ≡ 1 + sizes.tickets + sizes.line_words }
    ensures row { sizes.greatest_object ≡ sizes.row_overhead + sizes.greatest_key + sizes.greatest_value }
{}
