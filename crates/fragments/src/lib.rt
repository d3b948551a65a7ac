//! Values of up to a mebibyte, in fragments that compaction moves: what ScyllaDB calls managed bytes, and others blobs
//! in chunks.
//!
//! A value is a chain of objects of a [`regions::Region`] of one group, linked both ways. What a store means is a map from name
//! to bytes ([`specs/Values.antt`]), read off the bytes of its segments; no clause on the map speaks of places. The tables of a
//! store tell where the first fragment of each value stands, and are the mover of its region. Nothing is evicted: a value is
//! refused where it might find no room, however the objects stand.
//!
//! # Definitions
//! - A value store (`specs/Values.antt`) is a map from name to bytes: a list with what each name has, by number. `live` is the
//!   sum of the sizes of all values, where the size of a value is that of its objects (`specs/Sizes.antt`).
//! - A store of fragments (`specs/Store.antt`) has the place of the first fragment of each name's value, and a region.
//!   `values_of` reads each value from there on: the bytes of each fragment, one behind the other, along the links to the next
//!   one, up to 86 fragments. How a fragment's bytes say what it is stands in `specs/Fragment.antt`.
//! - Each entry, which is a name or the value that is being written, has a list of places, its chain (`AreChains` of
//!   `specs/Chains.antt`): the first fragment is where the tables say, each is linked to the one before it and to the one
//!   behind it and says whose it is, no place is there twice, and every live object is in one chain.
//! - `HoldParts`: the parts into which an entry's value is cut, each but the last of 12,264 bytes, stand in its chain in order,
//!   one in each fragment. `StandsFor` says both of a store and its values.
//! - A fragment's name in the store that compaction keeps is the number of its entry times 86, and its own number. Its links
//!   are its reference fields, so what a move leaves says that each part is still in its chain.
//!
//! # Choices
//! - A value is written beside the old one, which is dropped only then, so a refusal leaves it. The bound counts both: a value
//!   that replaces one as long may be refused where it would fit in its stead.
//! - That the old value goes last shows in no later state, so `put` says it by a state in between (`IsSetBeside`), and
//!   `set_value` by its two steps (`Sets`).
//! - The last fragment is written first. So a new fragment's link on is known as it is written, of those that are there only
//!   the one behind it is mended, and the chain is whole at every moment, also while making room for the next fragment moves
//!   those before.
//! - The value that is being written has an entry of its own, behind those of the names, though its fragments bear the name
//!   already. A first fragment that moves is told by its place: where the name's first fragment stood there it is the name's,
//!   else that entry's. Once the value is written the chain is handed over, and no byte of it changes.
//! - An empty value has one fragment of no bytes: a name with a value has a first fragment, and one without has no chain.
//! - A fragment is as long as the greatest object, 12,296 bytes with its descriptor, or as it has to be: fewer fragments are
//!   fewer links, and a segment holds ten.
//! - Links are places, as in rows, and not numbers in a table: no table grows with the fragments, and no call after `new` takes
//!   memory.
//! - The places of all fragments, entry by entry, stand in a value that takes no memory (`Chains`), which contracts alone read.
//!   `values_of` follows the links instead.
//! - The length of each value is kept beside its first place: `len` reads no fragment, and `get` tells how many bytes will
//!   come.
//! - Names are numbers below a bound that `new` is told; what they stand for is the caller's.
//! - That each entry has a first fragment and a chain is a part of the store's invariant, told by the calls that read or change
//!   the tables.
//! - `put` asks for no guard and for three segments. `get` borrows the store, so no fragment moves while pieces are read, and
//!   it needs no guard.
//!
//! # Promises
//! - The store is the map that its segments' bytes spell: a put gives the name that value, an erase gives it none, and no other
//!   name's value changes; segments that come and guards change none (`put`, `erase`, `add_segment`, `guard`, `unguard`:
//!   `values`).
//! - A put is refused exactly where the value has more than 1,048,576 bytes, or else where the live bytes, with the name's old
//!   value, and those of the new one are more than the segments surely hold; then nothing changed (`put`: `long`, `full`,
//!   `unchanged`).
//! - At some time, in the same segments and with one of them free, the new value stood beside all old ones, its own name's too,
//!   and nothing else was live; since then fragments died, and none moved (`put`: `beside`).
//! - What is read is the value: its pieces one behind the other are it, and what is left of them is known by its length. None
//!   comes exactly where the name has none (`get`, `len`; `Pieces::next`, `bytes_left`).
//! - An erase moves no fragment, and says whether there was a value; where there was none nothing changed (`erase`: `stay`,
//!   `found`, `unchanged`).
//! - The live bytes are the sizes of all values together, so no fragment outlives its value. They are never more than the
//!   segments surely hold, and no value has more than 1,048,576 bytes (`facts`: `live`, `within`, `values`; `live`).
//! - Each live object is in one chain, each link leads to the neighbour in it, and compaction keeps both (`facts`: `stands`;
//!   the law of `Movers`).
//! - A segment that comes keeps the values, the guards, the objects and the most segments, and is held from then on
//!   (`add_segment`: `values`, `guards`, `objects`, `most`, `added`, `held`). What is given up leaves no value, no fragment,
//!   and every segment free (`give_up`).
//! - A fragment is at most the greatest object, and each has a size that an object can have (`sizes_hang_together`).
#![tactic(auto)]

mod bytes;
mod chains;
mod law;
mod links;
mod pieces;
mod store;
mod tables;

pub use bytes::{FRAGMENT_BYTES, GREATEST_VALUE, MOST_FRAGMENTS, value_size};
pub use law::sizes_hang_together;
pub use pieces::Pieces;
pub use raw_range::Piece;
pub use segmented_store::Ranged;
pub use store::{Fragments, SetRefusal};
