//! The lines of what the shards hold.
ghost use Rattle.std.specs.Prelude.{flat_map};
ghost use Rattle.std.specs.List.{enumerate_from};
ghost use Rattle.outside.specs.Moves.{Sends};
ghost use Rattle.cache_model.specs.Report.{line, occupancy_text};
ghost use Rattle.report_text.specs.Views.{occupancies_in};

use crate::ShardLine;
use crate::lines::finish;
use outside::{Failed, Sink};
use text_out::Writer;

/// Writes the last lines of a report: for each shard, `shard`, its number, and `rows`, `live`, `lent` and `back`, each with its
/// number.
///
/// # Errors
///
/// [`Failed`] where the sink failed. A front of the lines was written then.
pub fn write_shard_lines<K: Sink>(sink: &mut K, lines: &[ShardLine]) -> Result<(), Failed>
    ensures { Sends K.written K.faults sink.old sink.new result
        (flat_map (λ occupancy. line (occupancy_text occupancy)) (enumerate_from 0 (occupancies_in lines.now))) }
{
    let mut writer = Writer::new(sink);
    let written = finish(&mut writer, lines);
    writer.into_sink();
    written
}
