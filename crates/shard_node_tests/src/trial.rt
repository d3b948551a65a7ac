//! What the tests of nodes share: traces, a node of two shards with the peer's end of its link, and another shard's memory.
ghost use Rattle.std.specs.Prelude.{◌≡◌, ◌<◌, IfOk, IfSome};
ghost use Rattle.trace_text.specs.Parsed.{trace_in};
ghost use Rattle.foreign_list.specs.OwnerSeats.{IsAtRest};
ghost use Rattle.shard_rings.specs.Links.{traffic_of};
ghost use Rattle.shard_store.specs.Stores.{IsUnguarded};
ghost use Rattle.shard_rings.specs.Mesh.{IsMesh};
ghost use Rattle.shard_node.specs.Links.{IsUnused};
ghost use Rattle.run_log.specs.Runs.{IsOfRun};

use foreign_list::{Foreign, ForeignBlock, OwnerSeat};
use layout::GREATEST_BLOCK;
use rows::Key;
use run_log::Journal;
use shard_node::{Node, OpenGate, Ran, Turn};
use shard_rings::{
    Lane, Link, Operation, Packet, RingLink, request_size, ring_links, write_request,
};
use shard_store::{ShardStore, Share};
use std::alloc::Global;
use std::marker::Model;
use std::process::Abort;
use std::test::Fail;
use trace_text::{Trace, parse};

/// The trace of these lines, for one shard or two.
pub(super) fn parsed(
    rt: &impl Abort,
    alloc: Global,
    lines: &[u8],
    shards: u32,
) -> Result<Trace, Fail>
    ensures { IfOk result (λ trace. trace.shards ≡ shards) }
{
    assert!(rt; lines.len() <= 1000 && 1 <= shards && shards <= 2);
    Ok(parse(alloc, Vec::from_slice(alloc, lines)?, shards)?)
}

/// The last end of the last shard that is left.
fn last_end<'f>(shards: &mut Vec<Vec<RingLink<'f>>>) -> Option<RingLink<'f>>
    ensures { IsMesh shards.old.items → IfSome result (λ end. IsUnused traffic_of end) }
{
    let Some(mut ends) = shards.pop() else {
        return None;
    };
    let end = ends.pop();
    drop(ends);
    end
}

/// The two ends of a link, on which nothing was sent.
fn both_ends<'f>(alloc: Global) -> Result<(RingLink<'f>, RingLink<'f>), Fail>
    ensures { IfOk result (λ ends. IsUnused traffic_of ends.0) }
{
    let mut shards = ring_links(alloc, 2)?;
    match (last_end(&mut shards), last_end(&mut shards)) {
        (Some(end), Some(other)) => Ok((end, other)),
        _ => Err(Fail::new("a link has no end")),
    }
}

/// The node of one of two shards, with the peer's end of its link.
#[derive(Drop)]
pub(super) struct Trial<'f> {
    node: Node<'f, RingLink<'f>, OpenGate>,
    peer: RingLink<'f>,
    shard: u32,
}

impl<'f> Model for Trial<'f> {
    ghost use Rattle.std.specs.Prelude.{◌≡◌};
    ghost use Rattle.trace_text.specs.Trace.{Trace as Asked};
    ghost use Rattle.shard_rings.specs.Links.{traffic_of};
    ghost use Rattle.shard_node.specs.Standing.{InStanding};

    // the trace that it works on
    ghost Value = { Asked };

    ghost view = { λ t. t.node.trace };

    ghost invariant = { λ t. InStanding traffic_of t.node × (t.node.shard ≡ t.shard) × (t.node.shards ≡ 2)
        × (t.node.pages ≡ 1536) };
}

impl<'f> Trial<'f> {
    pub(super) fn open(
        alloc: Global,
        shard: u32,
        trace: &'f Trace,
        home: &'f Foreign,
        seat: OwnerSeat,
    ) -> Result<Trial<'f>, Fail>
        requires owner { home.now.owner ≡ shard }
        requires seat { IsAtRest home.now seat }
        requires two { trace.now.shards ≡ 2 }
        requires within { shard < 2 }
        ensures { IfOk result (λ trial. trial ≡ trace_in trace.now) }
    {
        let (link, peer) = both_ends(alloc)?;
        let mut links = Vec::with_capacity(alloc, 1)?;
        links.push(link).unwrap();
        match Node::open(alloc, shard, 2, 1536, trace, home, seat, links, OpenGate) {
            Ok(node) => Ok(Trial { node, peer, shard }),
            Err(_) => Err(Fail::new("there is no memory")),
        }
    }

    pub(super) fn turn(&mut self) -> Turn
        ensures { self.new ≡ self.old }
    {
        self.node.turn()
    }

    /// How many blocks the node lent.
    pub(super) fn lent(&self) -> u64 {
        self.node.lent()
    }

    /// Sends a packet to the node. False where the lane is full.
    pub(super) fn offer(&mut self, lane: Lane, packet: Packet<'f>) -> bool
        ensures { self.new ≡ self.old }
    {
        self.peer.send(lane, packet).is_ok()
    }

    /// The next packet that the node sent.
    pub(super) fn taken(&mut self, lane: Lane) -> Option<Packet<'f>>
        ensures { self.new ≡ self.old }
    {
        self.peer.receive(lane)
    }

    /// Finishes the node into the record of a run. False where it is not done, a block is not at home, or the record has not those
    /// of the shards below it.
    pub(super) fn finish(self, ran: &mut Ran) -> bool
        requires { IsOfRun self 2 1536 ran.old }
        ensures { IsOfRun self.entry 2 1536 ran.new }
    {
        self.node.facts();
        if !self.node.is_done() || ran.journals().len() != self.shard as usize {
            drop(self);
            return false;
        }
        let store = self.node.finish(ran).store;
        let is_whole = store.tickets_out() == 0 && store.lent() == store.back();
        let _seat = store.finish();
        is_whole
    }
}

/// Another shard, as far as it lends blocks.
#[derive(Drop)]
pub(super) struct Lender<'f> {
    store: ShardStore<'f>,
    journal: Journal,
    ghost unguarded: { IsUnguarded store },
}

impl<'f> Lender<'f> {
    pub(super) fn open(
        alloc: Global,
        shard: u32,
        home: &'f Foreign,
        seat: OwnerSeat,
    ) -> Result<Lender<'f>, Fail>
        requires owner { home.now.owner ≡ shard }
        requires seat { IsAtRest home.now seat }
    {
        let journal = Journal::new(alloc, 0)?;
        let Ok(store) = ShardStore::open(alloc, shard, 1536, 0, 1, home, seat) else {
            return Err(Fail::new("there is no memory"));
        };
        Ok(Lender { store, journal })
    }

    /// The request of `put b 1`, as the command of this number.
    pub(super) fn request(&mut self, number: u32) -> Option<ForeignBlock<'f>> {
        if self.store.rows() > self.journal.spare() {
            return None;
        }
        let put = Operation::Put {
            key: Key {
                table: 0,
                bytes: b"b",
            },
            value: b"1",
        };
        let size = request_size(&put);
        let mut block = self
            .store
            .try_lend(size, Share::Request, &mut self.journal)?;
        write_request(number, &put, block.bytes_mut());
        Some(block)
    }

    /// A block of these bytes. None where there are none or too many, and where no ticket is idle.
    pub(super) fn block(&mut self, bytes: &[u8]) -> Option<ForeignBlock<'f>> {
        let Ok(size) = u32::try_from(bytes.len()) else {
            return None;
        };
        if size == 0 || size > GREATEST_BLOCK {
            return None;
        }
        if self.store.rows() > self.journal.spare() {
            return None;
        }
        let mut block = self
            .store
            .try_lend(size, Share::Request, &mut self.journal)?;
        if let Some(into) = block.bytes_mut().get_mut(..bytes.len()) {
            into.copy_from_slice(bytes);
        }
        Some(block)
    }

    /// Whether one block came home.
    pub(super) fn takes_one(&mut self) -> bool {
        self.store.take_back() == 1
    }
}
