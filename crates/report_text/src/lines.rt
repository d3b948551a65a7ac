//! The lines of a report.
ghost use Rattle.std.specs.Prelude.{◌≡◌, ℕ, ◌^◌, ◌<◌, length, List, [], ◌∷◌, ◌++◌, codes, decimal, flat_map, OnOk};
ghost use Rattle.std.specs.List.{enumerate_from};
ghost use Rattle.rows.specs.Apply.{Reply};
ghost use Rattle.rows.specs.KeyBody.{AreKeys};
ghost use Rattle.cache_model.specs.Report.{line, answer_text, reply_text, entry_text, journal_text, occupancy_text};
ghost use Rattle.report_text.specs.inside.Spells.{Spells};
ghost use Rattle.report_text.specs.Views.{occupancies_in, occupancy_in};
ghost use Rattle.text_lemmas.specs.Writing.{Writes};
ghost use Rattle.report_text.specs.inside.Words.{word};

use crate::ShardLine;
use cache_model::{Entry, ReplyKind};
use outside::{Failed, Sink};
use run_log::{Journal, next_key};
use text_out::Writer;

fn word(kind: ReplyKind) -> &'static [u8]
    ensures { result.now ≡ word kind }
{
    match kind {
        ReplyKind::Stored => b"stored",
        ReplyKind::Replaced => b"replaced",
        ReplyKind::Value => b"value ",
        ReplyKind::Missing => b"missing",
        ReplyKind::Erased => b"erased",
        ReplyKind::Keys => b"keys",
    }
}

/// The keys of a body, each behind a space.
fn put_keys<K: Sink>(writer: &mut Writer<'_, K>, body: &[u8]) -> Result<(), Failed>
    requires keys { (keys : List (List ℕ)) × AreKeys body.now keys }
    requires short { length body.now < 2 ^ 32 }
    ensures { (keys : List (List ℕ)) → AreKeys body.now keys
        → Writes result writer.old writer.new
        (flat_map (λ key. 32 ∷ key) keys) }
{
    let mut at = 0;
    while let Some(span) = next_key(body, at) {
        let end = span.start + span.len;
        writer.put_word(&body[span.start as usize..end as usize])?;
        at = end;
    }
    Ok(())
}

/// A reply: a word, and the value or the keys behind it.
fn put_reply<K: Sink>(
    writer: &mut Writer<'_, K>,
    kind: ReplyKind,
    body: &[u8],
) -> Result<(), Failed>
    requires reply { (reply : Reply) × Spells kind body.now reply }
    requires short { length body.now < 2 ^ 32 }
    ensures { (reply : Reply) → Spells kind body.now reply
        → Writes result writer.old writer.new (reply_text reply) }
{
    writer.put(word(kind))?;
    match kind {
        ReplyKind::Keys => put_keys(writer, body),
        _ => writer.hand_over(body),
    }
}

/// The line of an answer.
pub(crate) fn put_reply_line<K: Sink>(
    writer: &mut Writer<'_, K>,
    number: u32,
    kind: ReplyKind,
    body: &[u8],
) -> Result<(), Failed>
    requires reply { (reply : Reply) × Spells kind body.now reply }
    requires short { length body.now < 2 ^ 32 }
    ensures { (reply : Reply) → Spells kind body.now reply
        → Writes result writer.old writer.new
        (line (answer_text (number, reply))) }
{
    writer.put_number(u64::from(number))?;
    writer.put(b" ")?;
    put_reply(writer, kind, body)?;
    writer.end_line()
}

fn put_entry<K: Sink>(writer: &mut Writer<'_, K>, entry: Entry) -> Result<(), Failed>
    ensures { Writes result writer.old writer.new (32 ∷ entry_text entry) }
{
    match entry {
        Entry::Done(number) => writer.put_field(b" ", u64::from(number)),
        Entry::Evicted(number) => writer.put_field(b" !", u64::from(number)),
    }
}

fn put_entries<K: Sink>(writer: &mut Writer<'_, K>, entries: &[Entry]) -> Result<(), Failed>
    ensures { Writes result writer.old writer.new
        (flat_map (λ entry. 32 ∷ entry_text entry) entries.now) }
{
    for entry in entries {
        put_entry(writer, *entry)?;
    }
    Ok(())
}

/// The line of a shard's journal.
pub(crate) fn put_journal<K: Sink>(
    writer: &mut Writer<'_, K>,
    shard: u64,
    journal: &Journal,
) -> Result<(), Failed>
    ensures { Writes result writer.old writer.new
        (line (journal_text (shard, journal.now.entries))) }
{
    writer.put_field(b"journal ", shard)?;
    put_entries(writer, journal.entries())?;
    writer.end_line()
}

/// Fields, each a name and a number.
fn put_fields<K: Sink>(writer: &mut Writer<'_, K>, fields: &[(&[u8], u64)]) -> Result<(), Failed>
    ensures { Writes result writer.old writer.new
        (flat_map (λ field. field.0.now ++ decimal field.1) fields.now) }
{
    for (name, number) in fields {
        writer.put_field(name, *number)?;
    }
    Ok(())
}

/// A line of fields.
pub(crate) fn put_field_line<K: Sink>(
    writer: &mut Writer<'_, K>,
    fields: &[(&[u8], u64)],
) -> Result<(), Failed>
    ensures { Writes result writer.old writer.new
        (line (flat_map (λ field. field.0.now ++ decimal field.1) fields.now)) }
{
    put_fields(writer, fields)?;
    writer.end_line()
}

/// The line of what a shard holds.
fn put_shard_line<K: Sink>(
    writer: &mut Writer<'_, K>,
    shard: u64,
    occupancy: &ShardLine,
) -> Result<(), Failed>
    ensures { Writes result writer.old writer.new
        (line (occupancy_text (shard, occupancy_in occupancy.now))) }
{
    put_field_line(
        writer,
        &[
            (b"shard ", shard),
            (b" rows ", u64::from(occupancy.rows)),
            (b" live ", occupancy.live),
            (b" lent ", occupancy.lent),
            (b" back ", occupancy.back),
        ],
    )
}

/// The lines of what the shards hold.
fn put_shard_lines<K: Sink>(writer: &mut Writer<'_, K>, lines: &[ShardLine]) -> Result<(), Failed>
    ensures { Writes result writer.old writer.new
        (flat_map (λ occupancy. line (occupancy_text occupancy)) (enumerate_from 0 (occupancies_in lines.now))) }
{
    for (shard, line) in lines.iter().enumerate() {
        put_shard_line(writer, shard as u64, line)?;
    }
    Ok(())
}

/// The last lines, of what the shards hold. The sink has the whole text then.
pub(crate) fn finish<K: Sink>(writer: &mut Writer<'_, K>, lines: &[ShardLine]) -> Result<(), Failed>
    ensures wrote { Writes result writer.old writer.new
        (flat_map (λ occupancy. line (occupancy_text occupancy)) (enumerate_from 0 (occupancies_in lines.now))) }
    ensures empty { OnOk result (writer.new.block ≡ []) }
{
    put_shard_lines(writer, lines)?;
    writer.flush()
}
