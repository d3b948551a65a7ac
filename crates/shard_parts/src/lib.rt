//! What a trace makes a shard do, and how it deals with the other shards: the parts that it issues ([`Own`]), the commands that one
//! shard issues to another ([`Rest`]), the reply that is expected to one ([`expected_reply`]), and another shard, with the link toward
//! it, what waits, and what is expected of it ([`Peer`]). Nothing here speaks of a store.
//!
//! # Choices
//! - `Peer`, `Room` and `StrayPacket` have public fields, since a node borrows several of them at once; `shard_node` exports
//!   none of the three. Serving a peer needs the store, so it stands in `shard_node`, as functions, since a type of another
//!   crate takes no methods there.
//! - Of a peer no lists of packets are kept but numbers and two cursors into the trace. That these tell how far the two are is
//!   a fact of the node's standing, since no type can say it: what went over a link is known by the members of the links' trait
//!   alone.
//! - The part of a command stands in the log behind those of the commands before it: a cursor counts the parts that it passes,
//!   and nothing is searched.
//! - A reply is taken where one is owed; what comes where nothing is owed is not received, and waits on its lane.
#![tactic(auto)]

mod ending;
mod expected;
mod fitting;
mod opening;
mod own;
mod peer;
mod peer_steps;
mod place;
mod releasing;
mod replies;
mod requests;
mod rest;
mod rising;
mod sending;
mod stray_packet;
mod waiting;

pub use ending::all_ended;
pub use expected::expected_reply;
pub use opening::{Room, peers_over};
pub use own::Own;
pub use peer::Peer;
pub use peer_steps::{release_all, say_byes, send_replies};
pub use releasing::release;
pub use rest::Rest;
pub use sending::send;
pub use stray_packet::{StrayPacket, Tried};
pub use waiting::none_waits;
