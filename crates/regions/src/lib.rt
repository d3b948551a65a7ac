//! Segments of one shard and the objects in them: a log-structured allocator (LSA), after ScyllaDB's `utils/logalloc`.
//!
//! A region holds pieces of 131,072 bytes, its segments, and its groups share the free ones. Each segment is free, or closed
//! or active in one group. Objects are appended to the active segment of their group, and move within their group alone. An
//! object that was killed stays until its segment is freed.
//!
//! # Definitions
//! - A region (`specs/Segments.antt`, `specs/Contents.antt`) is its segments and its groups, both by number; each group has
//!   guards of its own. What stands at a place is read off the segment's bytes: live or dead, a kind, a content, and the
//!   segment's group. What a caller leaves through a `&mut` to a content is that content from then on.
//! - A region's shape (`specs/Shapes.antt`) is which piece each segment is and of which group, and what each group's active
//!   segment and guards are; its counts (`specs/Counts.antt`) are the used and the live bytes of each segment.
//! - A store (`specs/Stores.antt`) is a map from name to group, kind and content, in which nothing has a place. Live objects
//!   and a naming of places stand for a store where each name's place, in a segment of that group, has such a live object, its
//!   reference fields taken away, different names have different places, and every live object is some name's.
//! - A mover is told when an object moves, and names the places anew. What ScyllaDB promises of a migrator in a comment is the
//!   law of the trait `Movers`: the region stands for the same store afterwards.
//! - How one object names another in its content is said once (`specs/Places.antt`): `link_to` writes a place as a number of
//!   eight bytes, the greatest one for none, and `led_to` reads it.
//!
//! # Choices
//! - `bytes_mut` and `bytes` take the place by value. What a caller left in the content is said in the contract as cut or
//!   filled up to the content's length, which changes nothing in a run: a slice keeps its length.
//! - A segment is closed where it is of a group and not the group's active one: the mark that is kept is the group, and none
//!   where the segment is free, so that making another one active does not touch the old one.
//! - An item, which is what a store has under a name, says in which group it stands. So the law of movers and the store that
//!   compaction keeps say by themselves that an object stays in its group, and a mover's reference fields leave group and kind
//!   alone.
//! - A segment that becomes active gets an end descriptor at offset 0, so that every segment that is not free can be read at
//!   any moment.
//! - Each group has its own array with the live bytes of its closed segments, by number, and a count of the sparse ones; the
//!   active segment's are a number beside it. So whether a group has a sparse segment is known without a walk, and finding its
//!   sparsest looks at one array.
//! - A region keeps the sum of all live bytes (`live`), so that no store counts them beside it: a store's own sizes are that
//!   sum by its invariant.
//! - `place_with` takes the content as three runs of bytes from where these stand (`NewContent`), a header and two more, and
//!   writes zeros behind them alone. Two calls, one that leaves the bytes and one that writes them, would hand out what stood
//!   there before; a function that is given would need a law of its own at each caller. `place` is the same with no run.
//! - `place_copy` copies out of a closed segment into the active one, and `copy` takes the target's segment out of the table
//!   for the time: what is taken out is never what is read. `copy` goes from slice to slice, or by `copy_within`, so no buffer
//!   is needed.
//! - `place` refuses exactly where less than the size is left, which is 0 where the group has no active segment; an object has
//!   at least 16 bytes.
//! - The segments that are held and those that are free are two sets of numbers, one bit each, so the least and the greatest
//!   are found in at most 32 words.
//! - A mover's names are numbers, and it names its reference fields by the function that takes them away. A move is from one
//!   place to another: without that the law cannot hold.
//!
//! # Promises
//! - A call changes the one object that it names: `place` adds one whose content is 0, `place_with` one with a content and
//!   zeros behind it, `place_copy` one with the content of another, `kill` marks one dead, through `bytes_mut` only the content
//!   of one changes, `copy` makes one content another's, `free_closed` removes the dead ones of a segment, `give_up` removes
//!   all, the others none (the clauses of `Region`).
//! - Under a guard of a group no object of the group moves or goes, dead ones neither, and no byte of one is used for another
//!   (`free_closed`, which asks that its group has no guard: `stay`; `give_up` asks that none stands). `bytes_mut` and `copy`
//!   write the content of a live object, guarded or not, as their caller asks; no other call does.
//! - An object is placed in the active segment of its group, and refused exactly where that has too little left or there is
//!   none (`place`, `place_with`: `full`, `none`, `segment`, `group`; `place_copy`: `full`, `segment`, `group`). Each group has
//!   at most one active segment, and each object, live or dead, stands in a segment of its group (`next_active`: `activated`;
//!   `facts`: `grouped`, `stands`, `of`, `active`).
//! - A closed segment was full when it was closed (`used`: `full`); whether some closed segment of a group is sparse is told
//!   (`sparse_segments`).
//! - A region by itself stands for the store in which each live object is named by its place (`facts`: `store`). Each call says
//!   what it does to the sum of all live bytes (`live_total`), which `live` answers.
//! - The pieces of a region change by `add_segment`, `take_free` and `give_up` alone (`shape` or `pieces` on each other call).
//! - A mover that is told of a move has the new place for the old one, in its tables and in reference fields, and fits the live
//!   objects less the old one; nothing else changed (the law of `Movers`).
#![tactic(auto)]

mod group;
mod link;
mod live_table;
mod movers;
mod place;
mod region;
mod segment;
mod slots;

pub use link::{led_to, link_to, place_of};
pub use movers::Movers;
pub use object_log::NewContent;
pub use place::{LiveObject, NeedSegment, Place};
pub use raw_range::{Piece, Range};
pub use region::Region;
