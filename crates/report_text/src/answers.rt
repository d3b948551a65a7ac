//! The lines of the answers, as they are read from the logs.
ghost use Rattle.std.specs.Prelude.{◌≡◌, ◌⊎◌, ◌+◌, ◌^◌, ◌<◌, ◌≤◌, ℕ, true, false, List, ◌∷◌, map, flat_map, Some};
ghost use Rattle.std.specs.List.{slice_get};
ghost use Rattle.layout.specs.Sizes.{most_keys};
ghost use Rattle.trace_text.specs.Operation.{operation};
ghost use Rattle.rows.specs.Operation.{is_scan};
ghost use Rattle.cache_model.specs.Answer.{join};
ghost use Rattle.rows.specs.Apply.{Reply, Keys};
ghost use Rattle.cache_model.specs.ReadOff.{IsRead};
ghost use Rattle.cache_model.specs.Report.{line, answer_text};
ghost use Rattle.rows.specs.Spelled.{spelled};
ghost use Rattle.report_text.specs.inside.Found.{HasFound};
ghost use Rattle.text_lemmas.specs.Writing.{Writes};
ghost use Rattle.report_text.specs.inside.Spells.{HasLegalKeys};

use crate::found::joined_keys;
use crate::lines::put_reply_line;
use outside::{Failed, Sink};
use run_log::ReplyLog;
use text_out::Writer;
use trace_text::{Command, Kind};

/// The line of an answer that is one reply of a log.
fn put_one<K: Sink>(
    writer: &mut Writer<'_, K>,
    number: u32,
    log: &ReplyLog,
    part: u32,
) -> Result<(), Failed>
    requires answered { (reply : Reply) × HasLegalKeys reply × (slice_get log.now.replies part ≡ Some (Some (spelled reply))) }
    ensures { (reply : Reply) → slice_get log.now.replies part ≡ Some (Some (spelled reply)) → HasLegalKeys reply →
        Writes result writer.old writer.new (line (answer_text (number, reply))) }
{
    let (kind, body) = log.reply(part).unwrap();
    put_reply_line(writer, number, kind, body)
}

/// The words, each behind a space.
fn put_words<K: Sink>(writer: &mut Writer<'_, K>, words: &[&[u8]]) -> Result<(), Failed>
    ensures { Writes result writer.old writer.new
        (flat_map (λ word. 32 ∷ word) (map (λ word. word.now) words.now)) }
{
    for word in words {
        writer.put_word(word)?;
    }
    Ok(())
}

/// The line of an answer of these keys.
fn put_keys_line<K: Sink>(
    writer: &mut Writer<'_, K>,
    number: u32,
    keys: &[&[u8]],
) -> Result<(), Failed>
    ensures { Writes result writer.old writer.new
        (line (answer_text (number, Keys (map (λ key. key.now) keys.now)))) }
{
    writer.put_number(u64::from(number))?;
    writer.put(b" keys")?;
    put_words(writer, keys)?;
    writer.end_line()
}

/// The line of the answer to a scan: the first keys in byte order of those that `shards` shards found.
fn put_scan<K: Sink>(
    writer: &mut Writer<'_, K>,
    command: &Command,
    shards: u32,
    log: &ReplyLog,
    first: u32,
) -> Result<(), Failed>
    requires few { command.now.count ≤ most_keys }
    requires small { first + shards < 2 ^ 32 }
    requires replied { (lists : List (List (List ℕ))) × HasFound log.now.replies first shards lists }
    ensures { (lists : List (List (List ℕ))) → HasFound log.now.replies first shards lists →
        Writes result writer.old writer.new (line
        (answer_text (command.now.number, Keys (join command.now.count lists)))) }
{
    let keys = joined_keys(log, first, shards, command.count);
    put_keys_line(writer, command.number, keys.as_slice())
}

/// Whether the answer is joined from the replies of several shards.
fn is_joined(kind: Kind, shards: u32) -> bool
    requires { 1 ≤ shards }
    ensures joined { result ≡ true → is_scan kind ≡ true }
    ensures alone { result ≡ false → (is_scan kind ≡ false) ⊎ (shards ≡ 1) }
{
    kind.is_scan() && shards > 1
}

/// The line of the answer to a command whose replies stand in a log from part `first` on.
pub(crate) fn put_answer<K: Sink>(
    writer: &mut Writer<'_, K>,
    command: &Command,
    shards: u32,
    log: &ReplyLog,
    first: u32,
) -> Result<(), Failed>
    requires some { 1 ≤ shards }
    requires few { command.now.count ≤ most_keys }
    requires small { first + shards < 2 ^ 32 }
    requires read { (bytes : List ℕ) × (longest : ℕ) × (answer : ℕ × Reply)
        × IsRead longest shards (operation bytes command.now) log.now.replies first answer }
    ensures { (bytes : List ℕ) (longest : ℕ) (answer : ℕ × Reply)
        → IsRead longest shards (operation bytes command.now) log.now.replies first answer →
        Writes result writer.old writer.new (line (answer_text answer)) }
{
    if is_joined(command.kind, shards) {
        put_scan(writer, command, shards, log, first)
    } else {
        put_one(writer, command.number, log, first)
    }
}
