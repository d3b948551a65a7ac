//! What rows mean: a row, an operation on rows, one part of it done, and its reply; the bytes that rows count, the
//! floors, evictions in turn, the row used longest ago (LRU) first, and which replies fit an operation.
//!
//! The definitions in `specs/` know of no trace, no journal and no message. No type here runs anything: [`Kind`] and
//! [`ReplyKind`] are the two enums that the definitions name. A [`Key`] is bytes in a table; an [`Operation`] and a [`Reply`]
//! carry what is asked and what is replied. The laws of the definitions stand in `row_lemmas`. Whoever is told of the rows
//! that go is an [`Evictions`].
//!
//! # Choices
//! - What speaks of rows, operations and replies alone stands here, and on `layout` alone, so that a store of rows stands on no
//!   trace.
//! - An [`Operation`] is an enum, each kind with its own fields: one record of all fields would have each call ask for its
//!   kind. It has no number, which a store does not need; a call that needs one takes it beside (`number: u32, operation:
//!   &Operation`), and what the two mean is `numbered`. So is a [`Reply`], with its body where it stands.
//! - [`Evictions`], who is told of the rows that go, says itself what being told of one does to it (`tells`), and for how
//!   many it has room. A list of tags would not do: a journal has other entries too, and that nothing else happened to it
//!   could not be said. The trait stands here, since an implementation stands with the trait or with the type: what a journal
//!   does stands in `run_log`, so the store needs no journal.
//! - [`Kind::parts`], how many shards do a part of an operation, stands with the enum, since a method has to; of shards this
//!   crate says no more.
//!
//! # Promises
//! - Two operations of the code are the same exactly where they mean the same (`Operation::is_same_as`).
#![tactic(auto)]

mod evictions;
mod key;
mod kind;
mod operation;
mod reply;
mod reply_kind;

pub use evictions::Evictions;
pub use key::Key;
pub use kind::Kind;
pub use operation::Operation;
pub use reply::Reply;
pub use reply_kind::ReplyKind;
