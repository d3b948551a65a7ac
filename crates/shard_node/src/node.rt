//! A node: one shard at work, from its opening to its end.
ghost use Rattle.std.specs.Prelude.{◌≡◌, ◌↔◌, ◌+◌, ◌^◌, ◌<◌, ◌≤◌, [], ◌∷◌, ◌++◌, length, map, vec_capacity, All, IfOk, IfErr, IsTrue};
ghost use Rattle.layout.specs.Sizes.{ArePages};
ghost use Rattle.trace_text.specs.Parsed.{trace_in};
ghost use Rattle.foreign_list.specs.OwnerSeats.{IsAtRest};
ghost use Rattle.shard_memory.specs.Tickets.{tickets_out};
ghost use Rattle.layout.specs.Counts.{counted};
ghost use Rattle.shard_store.specs.Stores.{IsUnguarded};
ghost use Rattle.shard_node.specs.Nodes.{others, HasTablePages};
ghost use Rattle.shard_node.specs.Standing.{InStanding};
ghost use Rattle.shard_node.specs.Links.{IsUnused};
ghost use Rattle.shard_node.specs.Lines.{line_of};
ghost use Rattle.shard_node.specs.Turns.{GoesThroughGate, IsAnswer, IsDone, IsSameNode};
ghost use Rattle.shard_node.specs.declared.turn.Turn.{Turn as Turns};

use crate::gate::Gate;
use crate::ran::Ran;
use crate::refusal::NodeRefusal;
use crate::shard::Shard;
use crate::turn::Turn;
use foreign_list::{Foreign, OwnerSeat};
use layout::LINE_WORDS;
use run_log::ShardLine;
use shard_parts::Peer;
use shard_rings::Link;
use shard_store::ShardStore;
use std::alloc::Global;
use std::marker::Model;
use trace_text::Trace;

/// How many words nodes stand apart: more than a line of the cache.
const APART: usize = 2 * LINE_WORDS;

/// One shard at work on its parts of a trace. All its memory is taken as it is opened.
#[derive(Drop)]
pub struct Node<'f, L: Drop, G: Drop> {
    shard: Shard<'f, L, G>,
    // Empty until the links are handed back.
    links: Vec<L>,
    // Where it is true, no block and no reply waits.
    calm: bool,
    // Nodes stand side by side, and each is written by a thread of its own: so none shares a line of the cache with the next.
    _apart: [u64; APART],
}

impl<'f, L: Drop, G: Drop> Model for Node<'f, L, G> {
    ghost use Rattle.std.specs.Coded.{codes};
    ghost use Rattle.shard_memory.specs.Room.{room_code};
    ghost use Rattle.shard_node.specs.Nodes.{NodeState};

    ghost Value = { NodeState L G };

    ghost coded = { Prim.hlevel (codes, room_code, L.code, G.code) };

    ghost use Rattle.shard_node.specs.inside.Shards.{node_state};
    ghost use Rattle.shard_node.specs.inside.Nodes.{IsConsistentNode};

    ghost view = { λ n. node_state n.shard };

    ghost invariant = { λ n. IsConsistentNode n.shard n.links n.calm };
}

/// What a node leaves that has finished, beside its journal and its log.
#[derive(Drop)]
pub struct Finished<'f, L: Drop> {
    pub store: ShardStore<'f>,
    pub links: Vec<L>,
}

impl<'f, L: Link<'f> + Drop, G: Gate + Drop> Node<'f, L, G> {
    /// The node of a shard, of a trace that was parsed for so many shards, with so many pages and a link to each other shard, in
    /// the order of their numbers. The pages are at least 1,536 where the trace is of version 2. The blocks that it lends come home
    /// over `home`. No other call takes memory.
    ///
    /// # Errors
    /// Want of memory; then the seat and the links are handed back.
    pub fn open(
        alloc: Global,
        shard: u32,
        shards: u32,
        pages: u32,
        trace: &'f Trace,
        home: &'f Foreign,
        seat: OwnerSeat,
        links: Vec<L>,
        gate: G,
    ) -> Result<Node<'f, L, G>, NodeRefusal<L>>
        // What it is opened with.
        requires pages { ArePages pages }
        requires tables { HasTablePages (trace_in trace.now) pages }
        requires owner { home.now.owner ≡ shard }
        requires seat { IsAtRest home.now seat }
        requires parsed_for { shards ≡ trace.now.shards }
        requires within { shard < shards }
        requires links { length links.items + 1 ≡ shards }
        requires unused { All (IsUnused L.traffic) links.items }

        // Without memory, seat and links come back.
        ensures refused { IfErr result (λ refusal. (refusal.seat ≡ seat) × (refusal.links ≡ links)) }

        // Which node it is.
        ensures standing { IfOk result (λ node. InStanding L.traffic node) }
        ensures numbers { IfOk result (λ node. (node.shard ≡ shard) × (node.shards ≡ shards) × (node.pages ≡ pages)) }
        ensures trace { IfOk result (λ node. node.trace ≡ trace_in trace.now) }

        // No block is out.
        ensures list { IfOk result (λ node. node.store.list ≡ home.now) }
        ensures lent { IfOk result (λ node. tickets_out node.store.lent ≡ 0) }

        // How it stands before the first turn.
        ensures links { IfOk result (λ node. map (λ peer. peer.link) node.peers ≡ links.items) }
        ensures peers { IfOk result (λ node. map (λ peer. peer.shard) node.peers ≡ others shards shard) }
        ensures gate { IfOk result (λ node. node.gate ≡ gate) }
        ensures turns { IfOk result (λ node. node.turns ≡ 0) }
    {
        let Ok(room) = Vec::with_capacity(alloc, links.len()) else {
            return Err(NodeRefusal { seat, links });
        };
        match Shard::open(alloc, shard, pages, trace, home, seat, links, gate) {
            Ok(shard) => Ok(Node {
                shard,
                links: room,
                calm: false,
                _apart: [0; APART],
            }),
            Err(refusal) => Err(refusal),
        }
    }

    /// One turn. It waits for nobody, and takes no memory. At most one own part is begun, a command's first one only where the
    /// gate lets the command through. A node that is done makes no step.
    pub fn turn(&mut self) -> Turn
        ensures standing { InStanding L.traffic self.old → InStanding L.traffic self.new }
        ensures same { IsSameNode L.end self.old self.new }
        ensures turns { self.new.turns ≡ counted self.old.turns }
        ensures gate { GoesThroughGate G.lets self.old self.new }
        ensures done { InStanding L.traffic self.old → ((result ≡ Turns.Done) ↔ IsDone L.traffic G.holds self.new) }
        ensures rests { InStanding L.traffic self.old
            → IsDone L.traffic G.holds self.old
            → self.new ≡ record self.old { turns = self.new.turns } }
        ensures answer { InStanding L.traffic self.old → IsAnswer L.traffic G.holds result self.old self.new }
    {
        self.shard.turn(&mut self.calm)
    }

    /// Whether it is done, so that a turn would make no step.
    pub fn is_done(&self) -> bool
        ensures { InStanding L.traffic self.now → (IsTrue result ↔ IsDone L.traffic G.holds self.now) }
    {
        self.shard.is_done()
    }

    /// How many turns it made, up to the greatest u64.
    pub fn turns(&self) -> u64
        ensures { result ≡ self.now.turns }
    {
        self.shard.turns
    }

    /// How many blocks it lent, up to the greatest u64.
    pub fn lent(&self) -> u64
        ensures { result ≡ self.now.store.lends }
    {
        self.shard.store.lent()
    }

    /// What holds of a node at each time.
    pub fn facts(&self)
        ensures within { self.now.shard < self.now.shards }
        ensures peers { map (λ peer. peer.shard) self.now.peers ≡ others self.now.shards self.now.shard }
        ensures pages { self.now.store.pages ≡ self.now.pages }
        ensures owner { self.now.store.shard ≡ self.now.shard }
        ensures counted { self.now.store.backs < 2 ^ 64 }
    {
        let _ = &self.shard;
    }

    /// Ends a node that is done: its journal, its log and the line of its store go to the record of its run, which has those of all
    /// shards below its own.
    pub fn finish(self, into: &mut Ran) -> Finished<'f, L>
        // It is the next one of its run.
        requires done { IsDone L.traffic G.holds self }
        requires trace { into.old.trace ≡ self.trace }
        requires shards { into.old.shards ≡ self.shards }
        requires pages { into.old.pages ≡ self.pages }
        requires place { length into.old.journals ≡ self.shard }

        // What it adds to the record.
        ensures journals { into.new.journals ≡ into.old.journals ++ self.entry.journal ∷ [] }
        ensures logs { into.new.logs ≡ into.old.logs ++ self.entry.log ∷ [] }
        ensures lines { into.new.lines ≡ into.old.lines ++ line_of self.entry.store ∷ [] }

        // The record is of the same run.
        ensures trace { into.new.trace ≡ into.old.trace }
        ensures shards { into.new.shards ≡ into.old.shards }
        ensures pages { into.new.pages ≡ into.old.pages }

        // What is left of the node.
        ensures store { result.store ≡ self.entry.store }
        ensures links { result.links.items ≡ map (λ peer. peer.link) self.entry.peers }
        ensures idle { tickets_out result.store.lent ≡ 0 }
        ensures unguarded { IsUnguarded result.store }

        // What held of it at each time.
        ensures peers { map (λ peer. peer.shard) self.entry.peers ≡ others self.entry.shards self.entry.shard }
        ensures counted { self.entry.store.backs < 2 ^ 64 }
    {
        let Node {
            shard,
            links,
            calm: _,
            _apart: _,
        } = self;
        let Shard {
            store,
            journal,
            log,
            peers,
            ..
        } = shard;
        into.add(journal, log, line_of(&store));
        Finished {
            store,
            links: links_of(peers, links),
        }
    }

    /// Ends a node that made no turn: its seat and its links are handed back.
    pub fn abandon(self) -> NodeRefusal<L>
        requires new { self.turns ≡ 0 }
        ensures seat { IsAtRest self.entry.store.list result.seat }
        ensures links { result.links.items ≡ map (λ peer. peer.link) self.entry.peers }
    {
        let Node {
            shard,
            links,
            calm: _,
            _apart: _,
        } = self;
        let Shard { store, peers, .. } = shard;
        NodeRefusal {
            seat: store.finish(),
            links: links_of(peers, links),
        }
    }
}

/// The line that says what a store came to.
fn line_of(store: &ShardStore<'_>) -> ShardLine
    ensures { result ≡ line_of store.now }
{
    ShardLine {
        rows: store.rows(),
        live: store.live(),
        lent: store.lent(),
        back: store.back(),
    }
}

/// The links toward the peers, in their order. There is room for them.
fn links_of<'f, L: Drop>(peers: Vec<Peer<'f, L>>, mut links: Vec<L>) -> Vec<L>
    requires none { links.items ≡ [] }
    requires room { length peers.items ≤ vec_capacity links }
    ensures { result.items ≡ map (λ peer. peer.link) peers.entry.items }
{
    for peer in peers {
        links.push_reserved(peer.link);
    }
    links
}
