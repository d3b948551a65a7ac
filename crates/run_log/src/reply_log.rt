//! The replies to the parts that a shard issued.
ghost use Rattle.std.specs.Prelude.{◌≡◌, ◌+◌, ◌^◌, ◌<◌, ◌≤◌, length, replicate, slice_set, unwrap_or, None, Some, IfOk, IfSome};
ghost use Rattle.std.specs.List.{slice_get};
ghost use Rattle.std.specs.Option.{option_map};
ghost use Rattle.rows.specs.declared.reply_kind.ReplyKind.TheVariants as kinds;

use crate::bodies::{Bodies, Holder};
use cache_model::ReplyKind;
use std::alloc::{AllocError, Global};
use std::marker::Model;
use trace_text::TraceBytes;

/// A reply that was recorded, and where its body stands.
#[derive(Clone, Copy)]
struct Recorded {
    kind: ReplyKind,
    holder: Holder,
    start: u32,
    len: u32,
}

/// The replies to the parts that a shard issued, numbered from 0. It grows within the room that is reserved when it is made.
#[derive(Drop)]
pub struct ReplyLog {
    recorded: Vec<Option<Recorded>>,
    bodies: Bodies,
}

impl Model for ReplyLog {
    ghost use Rattle.run_log.specs.Replies.{Replies};

    ghost Value = { Replies };

    ghost use Rattle.std.specs.Prelude.{map, All};
    ghost use Rattle.run_log.specs.inside.Recorded.{reply_in, LiesIn};

    ghost view = { λ l. record { replies = map (reply_in l.bodies) l.recorded.items; room = l.bodies.room } };

    ghost invariant = { λ l. All (LiesIn l.bodies) l.recorded.items };
}

impl ReplyLog {
    /// A log of so many parts, none of them answered, with room for so many bytes of replies.
    pub fn new(alloc: Global, parts: u32, bytes: u32) -> Result<ReplyLog, AllocError>
        ensures { IfOk result (λ log. log ≡ record { replies = replicate parts None; room = bytes }) }
    {
        ReplyLog::over(alloc, TraceBytes::new(Vec::new(alloc))?, parts, bytes)
    }

    /// The same over the bytes of a trace, for values that stand there.
    ///
    /// # Errors
    /// `AllocError` where memory is not found; the share of the trace's bytes is given up.
    pub fn over(
        alloc: Global,
        trace: TraceBytes,
        parts: u32,
        bytes: u32,
    ) -> Result<ReplyLog, AllocError>
        ensures { IfOk result (λ log. log ≡ record { replies = replicate parts None; room = bytes }) }
    {
        let mut recorded = Vec::with_capacity(alloc, parts as usize)?;
        for _ in 0..parts {
            recorded.push(None)?;
        }
        Ok(ReplyLog {
            recorded,
            bodies: Bodies::new(alloc, trace, bytes)?,
        })
    }

    /// How many bytes of bodies may be recorded still.
    pub fn room(&self) -> u32
        ensures { result ≡ self.now.room }
    {
        self.bodies.room()
    }

    /// Records the reply to a part that has none yet.
    pub fn record(&mut self, part: u32, kind: ReplyKind, body: &[u8])
        requires part { slice_get self.old.replies part ≡ Some None }
        requires fits { length body.now ≤ self.old.room }
        ensures replies { self.new.replies ≡ slice_set self.old.replies part (Some (kind, body.now)) }
        ensures room { self.new.room + length body.now ≡ self.old.room }
    {
        self.put(part, kind, body, None);
    }

    /// Records a value as the reply to a part that has none yet. Where it has [`LONG_BODY`](crate::LONG_BODY) bytes or more, and the
    /// same ones stand at `at` in the trace, they are not copied; they use room as if they were.
    pub fn record_value(&mut self, part: u32, value: &[u8], at: u32)
        requires part { slice_get self.old.replies part ≡ Some None }
        requires fits { length value.now ≤ self.old.room }
        ensures replies { self.new.replies ≡ slice_set self.old.replies part (Some (kinds.Value, value.now)) }
        ensures room { self.new.room + length value.now ≡ self.old.room }
    {
        self.put(part, ReplyKind::Value, value, Some(at));
    }

    /// Records a reply, whose body may stand in the trace at the place that is told.
    fn put(&mut self, part: u32, kind: ReplyKind, body: &[u8], told: Option<u32>)
        requires part { slice_get self.old.replies part ≡ Some None }
        requires fits { length body.now ≤ self.old.room }
        ensures replies { self.new.replies ≡ slice_set self.old.replies part (Some (kind, body.now)) }
        ensures room { self.new.room + length body.now ≡ self.old.room }
    {
        let kept = self.bodies.keep(body, told);
        self.recorded[part as usize] = Some(Recorded {
            kind,
            holder: kept.holder,
            start: kept.start,
            len: body.len() as u32,
        });
    }

    /// The reply to a part; None where none was recorded.
    pub fn reply(&self, part: u32) -> Option<(ReplyKind, &[u8])>
        ensures reply { option_map (λ reply. (reply.0, reply.1.now)) result ≡ unwrap_or (slice_get self.now.replies part) None }
        ensures short { IfSome result (λ reply. length reply.1.now < 2 ^ 32) }
    {
        let recorded = self.recorded.get(part as usize).copied()??;
        Some((
            recorded.kind,
            self.bodies
                .body(recorded.holder, recorded.start, recorded.len),
        ))
    }
}
