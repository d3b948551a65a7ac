//! One shard at work on its parts of a trace: a node.
//!
//! A node does the parts that other shards ask of it, and issues its own, turn by turn. A turn waits for nobody: it is
//! one poll of an event loop. Here stand what holds of a node between turns and what a turn may answer
//! ([`specs/Standing.antt`], [`specs/Turns.antt`]), the gate that an own command waits for, the record of a run, the
//! turn (`src/shard/turning.rt`), and the node itself ([`Node`], `src/node.rt`): it is opened with all the memory that
//! it takes, turned until it is done, and finished into the record of the run. What it does without its store stands in
//! `shard_parts`: the cursors over the trace, and how it deals with another shard. What it does on its store, with its
//! journal (`src/doing.rt`), and in blocks that go to other shards (`src/messages.rt`) is its own: the store knows of
//! neither.
//!
//! What a node that is done says, over any links, is a law: [`a_done_node_is_complete`]. What the nodes of a run say together,
//! once all of them are done, is another: [`done_nodes_agree`].
//!
//! The steps of a turn are seven, and `src/shard/turning.rt` is the list of them: blocks are taken back and released, replies
//! are sent, the replies of others are taken into the log, what others ask is done and answered, own parts are begun, and Bye
//! is said. Each is a function of `src/shard/` whose contract says that the shard is consistent again, and in standing where it
//! was. The lemmas stand in six groups: `OwnParts` (what a shard issues), `Requests`, `Replies`, `Standing` (a node with its
//! peers, and what keeps it so), `Turning` (the steps, and what a turn answers) and `Together` (the nodes once all are done).
//!
//! # Definitions
//! - `AreTogether` (`specs/Together.antt`): node s of a list is that of shard s, in standing and done, and between each two of
//!   them what one received is, on each lane, a prefix of what the other sent.
//! - `Agree` is what they say then: each journal is legal and has the parts of its shard, neither more nor fewer; the logs hold
//!   the replies that stand in the journals; each shard lent as many blocks as the report says, and all came back; all that was
//!   sent was received; and each cache is the one that its journal leads to.
//!
//! # Choices
//! - What the steps need to be safe (room in the journal, the log and the tables, and that the log has no reply yet to what
//!   will be answered) is said without the links, as `IsConsistent`, with what always holds of the trace and of the store's
//!   counts, so that no step asks for it. What the links tell is the standing, which a step keeps where it was.
//! - A node marks whether it is calm: that no block waits to be released and no reply to be sent. Then the two steps for what
//!   waits are passed over. The mark stands beside the shard, so that no fact of the shard speaks of it, and is made anew by
//!   one look at the peers in each turn in which something moved; in another nothing waits that did not before. It begins
//!   unmarked.
//! - Where another shard does the next own part, a ticket is looked for before the gate is asked, so a gate that opens is asked
//!   once for a command.
//! - Parts that a shard asks of others are counted by what is lent, a count that stands still at the greatest u64, as the
//!   store's own.
//! - What a peer asks is read off its block, compared with the command that the trace makes it ask next, and done as it was
//!   read. Where they are the same no clause tells which of the two was done.
//! - The entries of commands and the headers of messages are written here (`doing.rt`, `messages.rt`): a call on the store
//!   tells the journal of the rows that go, and the command's entry stands behind them.
//! - Where the trace has the value that a get found follows from the row's number, which is that of its put: the store tells it
//!   with the value. The node asks the trace for the place of long values alone, since each look at a command waits for memory.
//!   The log compares the bytes, so a wrong place would only cost a copy.
//! - Blocks may come home under the pressure of a request too, so a turn looks once, at its end, whether the count of blocks at
//!   home rose. A request that was made in a turn and met a full lane moves nothing by itself: the turn is Idle, and that
//!   request is what the next own part waits for.
//! - The first step of a turn, by which blocks come home, is joined with those behind it by a function of a few calls, whose
//!   contracts speak of any shard as which the turn may have begun. So its proof needs no answers, and a body that takes blocks
//!   back last is refused at its clause.
//! - `Ran::new` takes the trace and the number of pages, and `Node::finish` asks that they are the node's own: else a run of
//!   another trace, or on other pages, would leave a record like this one. The trace takes no memory there: contracts alone
//!   know it. A shard's line of a report goes into the record with its journal and its log, so what is printed is what the
//!   nodes held that were finished.
//!
//! # Promises
//! The four answers of a turn are defined in `specs/Turns.antt`. Nothing is promised of time.
//! - A node is in standing as it is opened, and after each turn that found it so, whatever its links and its gate answer
//!   (`Node::open`, `Node::turn`: `standing`). A turn changes neither whose node it is, nor its pages, trace and list, nor
//!   which ends its links are, and it is counted (`same`, `turns`).
//! - A part that is done for another shard has the reply of its command on the rows that the evictions before it left, in a
//!   block of its own; each of these rows went while more bytes were live than the tight floor with the tickets that were not
//!   idle. The journal has each eviction and then the command (`reply` in `src/messages.rt`: `replied`, `lends`, `size`). An
//!   own part has its reply in the log, and its evictions and then the command in the journal (`do_part` in `src/parts.rt`).
//! - A request to another shard is the bytes of its command, in a block of its own; rows go for it as above, and nothing is
//!   done (`request` in `src/messages.rt`: `bytes`, `lends`, `evicted`).
//! - A request is done only where its bytes are those of the command that the trace makes the node expect, and that command is
//!   done; any other packet changes neither rows nor journal (`answer` in `src/shard/requests.rt`: `ends`).
//! - A turn begins at most one own part. Where it is the first of its command, the gate let that command through in this turn;
//!   where no first part is next, the gate is left alone (`turn`: `gate`).
//! - Done is answered exactly where the node is done: all own parts are answered, each Bye came and went, nothing waits, and
//!   all tickets are idle. A turn of such a node changes nothing but the count (`done`, `rests`).
//! - Stray is answered exactly where the node is not done and a packet of the turn was not the one expected once those before
//!   it on its lane were gone through, however many came: the first such packet, lanes of replies before lanes of requests,
//!   peers in rising order, those of one lane as they came, by its peer, the number that was expected and its own (`answer`).
//! - Moved is answered only where the node is not done, each packet that came was expected, and the count of blocks at home
//!   rose, a packet was sent or received, a part was done, or a block that waited was released and counted (`answer`).
//! - Idle is answered exactly where none of this happened. Then each block that waits to be released was raced; each reply and
//!   request that waits, and each Bye that is due, met a full lane; each lane that could have brought a reply or a request was
//!   empty, or no ticket for the reply was idle; the next own part waits for the gate, whose holds rose, or for a ticket; and
//!   where a ticket was out the list was looked at: exactly once where the turn made no request, and at least once where it
//!   made one, which may look again for its room (`answer`).
//! - A node that is done, whatever its links brought, has a legal and complete journal, and sent each peer the journal's
//!   replies to all parts of that peer's shard that it does (`a_done_node_is_complete`).
//! - Nodes that are done, each in standing, and each of whose links received a prefix of what its other end sent, have legal
//!   and complete journals, and logs that hold their replies; each shard lent as many blocks as the report says, and got them
//!   back; nothing that was sent was left on its way (`done_nodes_agree`).
//! - A node that could not be opened hands its seat and its links back, and so does one that is abandoned before its first turn
//!   (`Node::open`, `Node::abandon`).
//! - A node that is done adds its journal, its log and the line of its store to the record of its run, which is of its trace,
//!   as many shards and as many pages, and hands back its store, with all tickets idle, and its links (`Node::finish`, `Ran`).
//!   That no other call adds to a record rests on its fields being private, and on no clause.
#![tactic(auto)]

mod doing;
mod gate;
mod law;
mod messages;
mod node;
mod parts;
mod ran;
mod refusal;
mod seen;
mod shard;
mod trace_mark;
mod turn;
mod waiting;

pub use gate::{Gate, Gates, OpenGate, OpenGates};
pub use law::{a_done_node_is_complete, done_nodes_agree};
pub use node::{Finished, Node};
pub use ran::Ran;
pub use refusal::NodeRefusal;
pub use turn::Turn;
