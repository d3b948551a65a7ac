//! Compaction of a region, after ScyllaDB's `utils/logalloc`: what other allocators call defragmentation, and logs
//! cleaning.
//!
//! A closed segment with few live bytes is emptied: its live objects are appended to the active segment of its group one by
//! one, the lowest offset first, their mover is told of each, and then the segment is free. [`compact_one`] empties the
//! sparsest segment of all groups without a guard, [`compact_in`] that of one group, and [`pass`] goes on until two segments
//! are free or no closed one is sparse. The choice of the segment is exact here.
//!
//! What ScyllaDB calls a migrator is our mover, `regions::Movers`. What they promise in a comment stands here as clauses,
//! for every mover that keeps its law. References are mended: the mover fits the live objects afterwards (`fits`). Nothing
//! is lost: under each name is the group, the kind and the content that were there (`store`). Nothing of a group moves under
//! a guard of it (`stay`). No clause of a caller needs to know that something moved.
//!
//! All three return: a closed segment was full, so a sparse one has dead bytes, and these are used no more once it is
//! emptied (`lower`).
//!
//! # Definitions
//! - A segment is dense where more than 118,776 of its bytes are live, and sparse otherwise (`specs/Sparse.antt`). Emptied
//!   first is the sparsest (`IsSparsest`): of the closed ones that are sparse, of one group or of all that have no guard, the
//!   one with the fewest live bytes, of equals the one with the least number.
//! - Nothing is left to compact (`IsCompacted`) where every closed segment is dense, each active one is dense or has room for
//!   an object of any size, and at most one is free.
//! - `Passes` (`specs/Passes.antt`) is a pass, step by step: while one segment is free, the lowest group whose active segment
//!   is sparse and full begins the next one, and its sparsest is emptied; where there is no such group, the sparsest of all is.
//! - `specs/Emptied.antt` has what stays as a segment is emptied (`GuardedStay`: what stands in the segments of a group with a
//!   guard), and what each step lowers (`HasFewerDead`: the bytes of dead objects).
//!
//! # Choices
//! - The sparsest of all groups without a guard is the sparsest of the groups' sparsest ones, the lower number of equals. A
//!   group without a sparse segment costs a look at one number.
//! - What a pass does is a clause of its own (`steps`): the list of the regions after each segment that was freed, by the three
//!   rules in their order.
//! - A pass whose second rule applied goes on with the first: the group's sparsest segment was freed, since the one that was
//!   closed is sparse itself.
//! - A pass ends since each segment that is emptied lowers the bytes in use.
//! - A move is told to the mover by one small function, after the copy and before the old object is killed: the mover's law
//!   speaks of that moment.
//! - What a mover keeps beside its places is its `rest`, which no move changes. So whoever owns tables knows them whole after a
//!   pass.
//! - That two places are one or told apart, and what is live once an object died, is proved here and once more in `rows_tests`;
//!   `place_lemmas` has the first for the stores.
//! - `is_guarded`, which a pass asks first, is public, so that a cache can tell it.
//!
//! # Promises
//! - Exactly the sparsest closed segment of the groups without a guard, or of one group, is emptied and freed. Nothing changes
//!   exactly where every closed segment is dense, or each sparse one is of a group with a guard; of one group exactly where
//!   that has a guard, or each of its closed segments is dense (`compact_one`, `compact_in`).
//! - A pass ends with two segments free, or with nothing left to compact, and a segment is free afterwards; it is its three
//!   rules step by step; under a guard of any group it changes nothing (`pass`).
//! - Each name keeps its group, kind and content, reference fields apart, the mover fits the live objects, and the live bytes
//!   are the same (`compact_one`, `compact_in`, `pass`: `store`, `fits`, `holds`).
//! - What stands in the segments of a group with a guard stays, live or dead, reference fields apart, whatever is compacted in
//!   the other groups (`compact_one`, `compact_in`: `stay`).
//! - A compacted region is dense but for one segment for each group and one more; where one group's active segment is full, or
//!   it has none, but for one segment for each group (`a_compacted_region_is_full`).
//! - Whether a guard stands on any group is answered exactly (`is_guarded`).
#![tactic(auto)]

mod choice;
mod compact;
mod draining;
mod law;
mod moving;
mod whole;

pub use compact::{Compacted, compact_in, compact_one};
pub use law::a_compacted_region_is_full;
pub use regions::{Movers, Region};
pub use whole::{is_guarded, pass};
