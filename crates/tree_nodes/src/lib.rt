//! A node of a B+ tree in the content of a segment's object: a header, 16 entries with their keys, and the places of 17
//! children.
//!
//! The layout is this project's. What the bytes mean is `specs/Nodes.antt`, in both directions: the bytes of a node, and
//! the node that bytes are read as. Each call reads or changes exactly what it names, so that a tree above sees nodes and
//! no byte.
//!
//! # Definitions
//! - A node is a record (`TreeNode` of `specs/Nodes.antt`): the place of its parent, its level, the place of the next leaf, its
//!   entries, each a key with a number, and the places of its 17 children. `node_bytes` writes it, and `node_in` reads a
//!   content as a node.
//! - A content is a node's (`IsNode`) where it is the bytes of the node that it is read as, and that node can stand
//!   (`CanStand`): at most 16 entries, with keys of 1 to 256 bytes.
//! - `specs/Order.antt` has keys in the order of their bytes, and how many of a node's are below a key.
//!
//! # Choices
//! - A contract says of a node which record it is, never which bytes: `IsNode` says that all bytes are those of the record, so
//!   an equation of records pins the bytes too. How many children a node has, and how few keys, is the tree's to say.
//! - A node's content has zeros in its four and two spare bytes and behind each key. Each call keeps them so, and could not be
//!   proved without.
//! - A search looks at the first eight bytes of every key of the node, as a number, and compares whole keys only where these
//!   are the same, at most five. Halving would also read at most five keys, but each stands in a line of memory of its own, and
//!   none could be fetched before the last was compared; the numbers are all fetched at once.
//! - Entries and places move by `copy_within`.
//!
//! # Promises
//! - A node is read as it is written (`a_node_is_read_as_it_is_written`), and each call on its bytes reads or changes exactly
//!   what it names: an entry that comes moves the later ones up, one that goes leaves zeros behind the last (`start`,
//!   `set_parent`, `add`, `cut`, `add_child`, `cut_child` and the others: `node`, `holds`).
//! - A search tells how many of a node's keys are below a key (`find`).
#![tactic(auto)]

mod bytes;
mod child_places;
mod entries;
mod law;
mod leads;
mod links;
mod reading;
mod search;

pub use child_places::{add_child, cut_child, cut_children, set_child};
pub use entries::{add, cut, cut_run, set_number};
pub use law::a_node_is_read_as_it_is_written;
pub use links::{NO_PLACE, set_next_leaf, set_parent, start};
pub use reading::{HALF, MOST_ENTRIES, child, count, key, level, next_leaf, number, parent};
pub use search::find;
