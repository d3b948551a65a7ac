//! Another shard, as a node deals with it.
ghost use Rattle.std.specs.Prelude.{◌≡◌, ◌<◌};
ghost use Rattle.shard_parts.specs.Opening.{IsNewPeer};

use crate::rest::Rest;
use foreign_list::ForeignBlock;
use trace_text::Trace;

/// Another shard: the link toward it, what waits, and what is expected of it.
#[derive(Drop)]
pub struct Peer<'f, L: Drop> {
    /// Its number.
    pub shard: u32,
    pub link: L,
    /// The blocks that came over the lanes of requests and of replies, and wait to be released.
    pub held_request: Option<ForeignBlock<'f>>,
    pub held_reply: Option<ForeignBlock<'f>>,
    /// The reply that waits to be sent.
    pub reply: Option<ForeignBlock<'f>>,
    /// The commands that it still will ask, and whether Bye came behind them.
    pub asks: Rest<'f>,
    pub has_heard_bye: bool,
    /// The commands that it still will answer, and how many of them it was asked.
    pub answers: Rest<'f>,
    pub owed: u32,
    /// Whether Bye went to it.
    pub has_sent_bye: bool,
}

impl<'f, L: Drop> Peer<'f, L> {
    /// Another shard, before anything went over the link toward it.
    pub(crate) fn new(trace: &'f Trace, shard: u32, number: u32, link: L) -> Peer<'f, L>
        requires within { shard < trace.now.shards }
        requires number { number < trace.now.shards }
        ensures number { result.shard ≡ number }
        ensures link { result.link ≡ link }
        ensures new { IsNewPeer trace.now trace.now.shards shard result }
    {
        Peer {
            shard: number,
            link,
            held_request: None,
            held_reply: None,
            reply: None,
            asks: Rest::of(trace, number, shard),
            has_heard_bye: false,
            answers: Rest::of(trace, shard, number),
            owed: 0,
            has_sent_bye: false,
        }
    }
}
