//! A journal is told of the rows that go.
ghost use Rattle.run_log.specs.Recorded.{RecordsEviction};

use crate::journal::Journal;
use cache_model::Entry;
use rows::Evictions;

impl Evictions for Journal {
    ghost use Rattle.std.proofs.Common.{rules};

    ghost room = { λ journal. journal.spare };

    ghost tells = { RecordsEviction };

    fn evicted(&mut self, tag: u32) {
        self.add(Entry::Evicted(tag));
    }

    ghost takes_one = { Prim.search rules };
}
