//! How a call of the program ended, and what it left.
ghost use Rattle.std.specs.Prelude.{◌≡◌, None};

use crate::status::Status;
use shard_node::Ran;

/// The status of a call, and the record that the finished nodes left where a trace was run.
#[derive(Drop)]
pub struct Outcome {
    pub status: Status,
    pub ran: Option<Ran>,
}

impl Outcome {
    /// A call in which no trace was run.
    pub(crate) fn without_run(status: Status) -> Outcome
        ensures status { result.status ≡ status }
        ensures ran { result.ran ≡ None }
    {
        Outcome { status, ran: None }
    }
}
