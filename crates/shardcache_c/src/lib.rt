//! A row cache for programs in C and C++: `include/shardcache.h` says what each function does.
//!
//! What C holds is a number and a pointer without a type (`Handle`, `Kept`). That they own a boxed `Shard`, and that nothing
//! else reaches it, is proved by hand, in `bare.rt` and the three files `kept.rt`, `kept_lease.rt` and `kept_mailbox.rt` alone.
//! A `Shard` is a cache that is open, or the list with which the next one is opened (`shard.rt`). Each of the twenty-five
//! exports takes what its handle keeps out, does its call and puts it back, unless it closes a block or a mailbox.
//!
//! A lent block has a handle of its own (`lease.rt`, `LeaseHandle`), by which any thread reads its bytes and releases it, and
//! so has each thread's mailbox (`MailboxHandle`).
//!
//! # Definitions
//! - A handle keeps a shard, or none (`specs/Handles.antt`); `cache_of` is the cache of a shard that is open.
//! - `keeps` (`specs/Keeping.antt`) is what a pointer without a type owns: a shard on the heap, and the right to free its
//!   block.
//! - `specs/Refusals.antt` says what stands where each code is answered, and which codes each export has.
//! - A block's handle keeps a lease (`specs/Leases.antt`): a block that is out, what is left of one that came on its list, or
//!   neither. `Lends` is what a caller is told of a block that is lent.
//!
//! # Choices
//! - What C holds is a pointer without a type, since a struct that names a type with a vector in it does not cross to C. What
//!   it owns stands beside it as a ghost value.
//! - Each kind of handle has a `Kept` of its own, with the same three proofs by hand: a struct that takes the kind as a
//!   parameter, and has no field of it, is refused.
//! - The list over which blocks come home stands for as long as the program runs, as a block may be out whenever: it is leaked
//!   once a handle, and used again when the handle is opened again. A `Shard` keeps it with its seat while the handle is
//!   closed.
//! - The shard is taken out of its handle for each call and put back, which costs two stores: no borrow goes through a raw
//!   pointer, and the three functions that touch one are proved by hand once.
//! - Each bad argument has a code of its own. A null pointer is told by the header, which tests for it in C, as an export that
//!   takes a reference can't.
//! - A handle that is closed answers `CLOSED`, and a zeroed one too. One that was copied is neither: the header says so, and no
//!   check can.
//! - A block has a handle of its own, opened once, with room for any block, one at a time: no lend takes memory, no release
//!   gives any back, and a thread that holds a block never touches the shard. A block of C's own form would need a proof by
//!   hand of how it is taken apart into a list's address, numbers and the right to its bytes, and made again; a block in a box
//!   needs none but that of the box, which handles have.
//! - What is left of a released block is kept in its handle (`Lease::Home`) until the next lend: only the step that puts a
//!   block on its owner's list makes it. So the clause on a release can't be met by a body that drops the block, or answers
//!   twice for one.
//! - A release is one try, and so are a push and a pop: an export may neither wait nor loop without an end. `RACED` says that
//!   another thread's call came between; the header's own functions try again.
//! - A lend takes any ticket that is idle: those for replies first, then those for requests.
//!
//! # Promises
//! - Each export answers any argument that its types allow (none has a `requires`), and where it refuses one the handle keeps
//!   what it kept (`refused`, `unchanged`).
//! - An opening is of a handle that was closed, and closing leaves none open (`shardcache_open`: `closed`; `shardcache_close`:
//!   `done`).
//! - A read writes no more than the buffer has room for (`shardcache_read`: `done`, `short`, and the code is proved to stay
//!   within its slices).
//! - A block that C releases came on its owner's list, once: what is no block, or was released, answers a code and changes
//!   nothing; a try that was raced leaves the block with its holder (`shardcache_release`: `done`, `raced`, `refused`).
//! - A lend takes a handle whose last block was released (`shardcache_lend`: `free`). That no export but those that open takes
//!   memory is tested.
//! - A push that answers `DONE` pushed this message, and a pop popped it; where either refuses, nothing changed
//!   (`shardcache_queue_push`, `shardcache_queue_try_pop`: `done`, `refused`).
//! - Each export refuses for one of its causes alone, with the code of that cause (`why`, by `specs/Refusals.antt`): so an
//!   argument that is good in a cache that is open and unguarded is never refused. Want of memory, a full or empty queue and a
//!   race have codes and no cause that a clause could say.
//! - In no clause: where the pointer that `shardcache_get` and `shardcache_peek` answer points (the length and the tag are the
//!   row's by a clause, the bytes by tests); that no put doubles a table of keys which was written whole
//!   (`examples/embed/newcomers.c` times each put); that a C caller keeps to the header, and that an archive linked into a program
//!   behaves as the proved code does (tried by `make -C examples/embed check`).
#![tactic(auto)]

mod bare;
mod codes;
mod exports;
mod handle;
mod kept;
mod kept_lease;
mod kept_mailbox;
mod lease;
mod lease_handle;
mod mailbox_handle;
mod opening;
mod shard;
