//! A tree index whose nodes move: an ordered map from keys to numbers, a B+ tree whose nodes are objects of a
//! [`regions::Region`] that compaction moves.
//!
//! What an index means is `specs/Indexes.antt`: a list of keys with their numbers, in rising order. What it means that a
//! tree of nodes stands for it is `specs/Trees.antt`, what a move of one node makes of them `specs/Moves.antt`, and what
//! the insertion and the removal of a key make of them `specs/Inserts.antt` and `specs/Removes.antt`.
//!
//! # Where
//! Below the public calls (`tree.rt`) no code sees bytes but `fields.rt`, `search.rt` and `writing.rt`, and `leaves.rt` and
//! `pairs.rt`, which mend two nodes side by side as contents, with the helpers of `copying.rt`. What is above works on a map
//! from place to node, and so do all lemmas. `inserting.rt` and `removing.rt` go down by levels, `splitting.rt` cuts a full
//! node in two, and `adopting.rt` makes a node the parent of its children; `planting.rt` and `pruning.rt` do the same of a
//! whole tree, whose root may rise or go. The root, its level and the spare nodes are the mover of the region (`roots.rt`);
//! what a move breaks is mended in `mending.rt`. `filling.rt` places spare nodes ahead.
//!
//! # Definitions
//! - `specs/Indexes.antt` has `number_of` a key, the index `with_number` for a key and `without` one, and what a scan writes.
//! - `IsSubtree` (`specs/Trees.antt`, checked by computing `specs/Examples.antt`) says by levels what is a tree below a place,
//!   between two keys: the node and its parent, its keys between those bounds, at least 8 of them but at the root, and a tree
//!   of the level below for each child, between the keys beside it.
//! - `IsTree`: so it is from the root, the leaves are linked in order, the spare nodes have no place in it, and each node is in
//!   it once. `index_of` is what the leaves hold from left to right.
//! - `specs/Moves.antt`: what the nodes are once one of them stands elsewhere, each place that named the old one naming the new
//!   one; a law says that this is a tree again, of the same index.
//!
//! # Choices
//! - A tree is a map from place to node and the place of its root. What it holds is read from it by levels, so no list of keys
//!   is kept beside the nodes. Bounds go down with the levels: a key is at or above the one on its left and below the one on
//!   its right.
//! - That no node is in the tree twice is said, though it follows from the bounds: the mover needs it at once.
//! - A move is a renaming of places. What it makes of all nodes is one map (`moved`), and one law carries tree and index over
//!   it, whatever fields the mover had to write.
//! - New nodes are placed before a key is sought: as many spare ones as a split of every level and a new root can want. Making
//!   room for them may move any node; from then on nothing moves. At most eight spare nodes stay from one call to the next, so
//!   most insertions place none. A merge keeps the node that it frees while there are fewer than eight, else it kills it.
//! - With no more keys than `most` there is always room: a tree of K keys has at most 9K/64 + 1 nodes.
//! - What an insertion and a removal make of a subtree is said by levels and by how often a place is among the nodes. So that
//!   no node is there twice, lost or left over is arithmetic, and no list is cut.
//! - A removal goes down once and looks its key up in the leaf: where it is not there nothing has changed on the way. Two
//!   neighbours, one an entry short, are mended as contents, leaves and inner nodes alike: they and their parent are copied out
//!   of the segments and written back, 26 KiB in all. So one layer of helpers serves both, and their proofs see no region.
//! - Nodes that a removal frees are spare at once; those above eight die before it returns.
//!
//! # Promises
//! - An index is the list of keys with their numbers that the leaves of its tree hold from left to right, in rising order. The
//!   live objects of its segments, all of the kind of nodes, are the nodes of the tree and at most eight spare ones. Each node
//!   but the root has 8 to 16 keys, every child names its parent, and the leaves are linked in order (`facts`: `nodes`,
//!   `index`, `entries`, `kinds`, `spares`).
//! - A key's number is found exactly where it has one (`get`). An insertion sets it and gives the one that was there (`insert`:
//!   `had`, `index`); it is refused exactly where the key is not there and as many keys are held as the segments surely have
//!   room for, and then nothing changed (`full`, `unchanged`).
//! - A removal takes that key away and no other, and none where it is not there (`remove`: `had`, `unchanged`, `index`). It
//!   places no object and moves no node: where one stands afterwards one stood before, and each level is what it was but for
//!   the freed ones, in order (`stay`).
//! - A scan writes the first keys at or above one, through every leaf, and no byte behind them (`range`: `keys`, `bytes`,
//!   `behind`).
//! - A guard and a segment that comes change no key (`add_segment`: `tree`, `objects`; `guard`, `unguard`). Through each move
//!   of compaction the tree is of the same index: the moved node's children, the leaf in front of it and its parent name its
//!   new place, and no other link changed (the law of `Movers`: `moved`).
//! - The tree has at most 7 levels, at most 6 in segments of 65,536 pages, and none exactly where there is no key (`facts`:
//!   `levels`, `run_levels`; `height`). What is given up leaves no key and no node, and every segment free (`give_up`).
//! - Read in the code, in no clause: a find reads the first eight bytes of the keys of each node on its way, and at most six of
//!   its keys whole; it takes no memory; at most 20 links are mended for a move.
#![tactic(auto)]

mod adopting;
mod carrying;
mod climbing;
mod copying;
mod fields;
mod filling;
mod inserting;
mod law;
mod leaves;
mod mending;
mod moved_entry;
mod pairs;
mod placing;
mod planting;
mod pruning;
mod removing;
mod roots;
mod roster;
mod scanning;
mod search;
mod spares;
mod split;
mod splitting;
mod tree;
mod writing;

pub use law::{
    a_move_keeps_the_index, a_subtree_holds_what_lies_between, a_tree_is_as_worked,
    an_index_is_as_worked, sizes_are_as_worked,
};
pub use raw_range::Piece;
pub use row_bytes::Scanned;
pub use segmented_store::Ranged;
pub use tree::{Full, IndexTree};
