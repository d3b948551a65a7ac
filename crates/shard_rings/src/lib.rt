//! The messages of shards: what a shard asks of another, and what it is answered.
//!
//! A request is the bytes of an operation; a reply is a message that bytes begin with, whatever stands behind it.
//! `specs/Request.antt` and `specs/Reply.antt` say so. Both are written and read here: what is asked is an [`Operation`], and what
//! is answered a [`Reply`].
//!
//! They go over links. A [`Link`] is one shard's end toward one other, with a lane for requests and one for replies
//! each way, and waits for nobody. [`ring_links`] gives the ends of all shards, over rings between threads, each of one
//! producer and one consumer (SPSC); [`MemoryLink`] has the other end beside it, for one thread. `specs/Lanes.antt`,
//! `specs/Links.antt` and `specs/Mesh.antt` say what a link is.
//!
//! # Definitions
//! - A request's bytes are a function of the operation. `IsRequest` says that bytes are the request of one that can be asked,
//!   neither more nor fewer.
//! - A reply is a relation: `HoldsReply` says that bytes begin with a reply to the command of a number; what stands behind has
//!   no meaning.
//! - What is expected of a peer (`part_lemmas/specs/Due.antt`): of its requests the bytes of the next one that is `due`, which
//!   are read as that operation and as no other; of its replies one that `Answers` the next operation, a block that holds a
//!   reply to it which fits it.
//! - What went over a link is, on each lane, a list of packets sent and one of packets received. A pair is two ends that send
//!   on each other's receiving rings. In a mesh every two shards have a pair, and each shard's ends are in rising order.
//!
//! # Choices
//! - `read_request` is exact and stands beside `write_request`: whoever gets a block knows what it asks by its bytes alone.
//!   `read_expected` is the same against the operation that is due, and `is_request` the same without what was read.
//! - `operation_of(trace, command)` is a function: the type `Operation` is of `rows`, which knows of no trace, and a type of
//!   another crate takes no methods here.
//! - A reply and a request go with their number apart: `read_reply` gives both, and `write_reply(number, reply, into)`,
//!   `write_request(number, operation, into)` and `is_request(number, operation, bytes)` take both. `request_size(operation)`
//!   needs no number.
//! - `write_reply` copies a body; `write_reply_header` finishes one that was made in place, as a scan's.
//! - The fields of a header are read and written by `byteorder`. It has no law that bytes which were read are written as they
//!   were; those for two and four bytes stand in `proofs/`.
//! - A body of keys is read key by key, without a copy.
//! - A link's end is a record of its rings' identities, so that whoever holds links can carry what `close_pair` asks for.
//! - `RingLink` has the clauses of the trait alone; `MemoryLink` has exact ones beside them, and its counts can be read.
//! - `ring_links` joins each new shard to those before it, which gives the rising order.
//!
//! # Promises
//! - The request of what is asked is written, and nothing else (`write_request`). Bytes are the request of at most one
//!   operation, with one number (`a_message_is_one_request`): these are read, whoever wrote them, and None comes exactly where
//!   the bytes are the request of none (`read_request`). Whether they are the request of what is expected is told of all bytes,
//!   and exactly (`read_expected`, `is_request`).
//! - What a command of a trace asks is the command, and it can be asked (`operation_of`); what a part replies can be sent
//!   (`replies_can_be_sent`).
//! - Bytes begin with at most one reply, with one number (`a_message_is_one_reply`): it is read, whoever wrote it, and None
//!   comes exactly where they begin with none (`read_reply`).
//! - What one end of a pair received is, on each lane, a prefix of what the other sent (`close_pair`).
//! - A refused send hands the packet back, and comes only where `full` rose; None comes only where `empty` rose; in one thread
//!   None comes exactly where the lane holds nothing (`Link`, `MemoryLink`).
//! - Every two shards get a pair of ends, in rising order, on which nothing was sent (`ring_links`).
#![tactic(auto)]

mod asking;
mod body;
mod head;
mod lane_ends;
mod law;
mod link;
mod memory_link;
mod mesh;
mod replying;
mod request;
mod request_head;
mod ring_end;
mod ring_link;
mod writing;

pub use asking::operation_of;
pub use head::message_number;
pub use law::{
    a_message_is_one_reply, a_message_is_one_request, commands_can_be_asked, replies_can_be_sent,
};
pub use link::{Lane, Link, Packet};
pub use memory_link::MemoryLink;
pub use mesh::ring_links;
pub use replying::{read_reply, write_reply, write_reply_header};
pub use request::{is_request, read_expected, read_request, request_size, write_request};
pub use ring_link::{RingLink, close_pair};
pub use rows::{Key, Operation, Reply};
