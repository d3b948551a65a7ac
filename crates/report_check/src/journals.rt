//! The journals that the lines of a report spell.
ghost use Rattle.std.specs.Prelude.{◌≡◌, ◌==◌, ◌&&◌, ◌^◌, ◌<◌, ◌≤◌, ◌∷◌, ℕ, codes, length, position, decimal, vec_len, IfOk, None, Some};
ghost use Rattle.std.specs.Option.{option_map, IfNone, IfSome};
ghost use Rattle.std.specs.Str.{bytes_eq};
ghost use Rattle.cache_model.specs.declared.entry.Entry.TheVariants.{Done, Evicted};
ghost use Rattle.numerals.specs.Numeral.{greatest_read};
ghost use Rattle.trace_text.specs.Parts.{most_shards};
ghost use Rattle.trace_text.specs.Reading.{most_commands};
ghost use Rattle.report_check.specs.Lines.{lines_of};
ghost use Rattle.report_check.specs.Spelled.{command_in, entries_of, entry_of, journal_in, journal_of};
ghost use Rattle.report_check.specs.inside.Spells.{AreRead, fields_of, room_of};

use crate::line::{Line, cut_line};
use cache_model::Entry;
use itoa::Buffer;
use numerals::number_of;
use run_log::Journal;
use std::alloc::{AllocError, Global};

/// The journals that lines spell, and what stands behind these lines.
#[derive(Drop)]
pub(crate) struct Read<'r> {
    pub(crate) journals: Vec<Journal>,
    pub(crate) behind: &'r [u8],
}

/// The number of a command that a field spells, of so many.
fn command_in(field: &[u8], count: u32) -> Option<u32>
    requires { count ≤ greatest_read }
    ensures { result ≡ command_in count field.now }
{
    let number = number_of(field, count)?;
    if number > 0 { Some(number) } else { None }
}

fn evicted_in(digits: &[u8], count: u32) -> Option<Entry>
    requires { count ≤ greatest_read }
    ensures { result ≡ option_map (λ q. Evicted q) (command_in count digits.now) }
{
    Some(Entry::Evicted(command_in(digits, count)?))
}

fn done_in(field: &[u8], count: u32) -> Option<Entry>
    requires { count ≤ greatest_read }
    ensures { result ≡ option_map (λ i. Done i) (command_in count field.now) }
{
    Some(Entry::Done(command_in(field, count)?))
}

/// The entry that a field spells.
fn entry_of(field: &[u8], count: u32) -> Option<Entry>
    requires { count ≤ greatest_read }
    ensures { result ≡ entry_of count field.now }
{
    let [first, digits @ ..] = field else {
        return None;
    };
    if *first == b'!' {
        evicted_in(digits, count)
    } else {
        done_in(field, count)
    }
}

fn position_of_space(text: &[u8]) -> Option<usize>
    ensures { result ≡ position (λ b. b == 32) text.now }
{
    text.iter().position(|b| *b == b' ')
}

/// What stands before the first space, and what stands behind it.
fn cut_field(text: &[u8]) -> (&[u8], Option<&[u8]>)
    ensures fields { fields_of (Some text.now) ≡ result.0.now ∷ fields_of (option_map (λ behind. behind.now) result.1) }
    ensures shorter { IfSome result.1 (λ behind. length behind.now < length text.now) }
{
    match position_of_space(text) {
        None => (text, None),
        Some(at) => (&text[..at], Some(&text[at + 1..])),
    }
}

/// The entries that fields spell, each of which stands behind a space.
fn entries_of(
    alloc: Global,
    fields: Option<&[u8]>,
    count: u32,
) -> Result<Option<Vec<Entry>>, AllocError>
    requires { count ≤ greatest_read }
    ensures entries { IfOk result (λ read. option_map (λ entries. entries.items) read
        ≡ entries_of count (fields_of (option_map (λ text. text.now) fields.entry))) }
    ensures few { IfOk result (λ read. IfSome read (λ entries.
        vec_len entries ≤ room_of (option_map (λ text. text.now) fields.entry))) }
{
    let mut entries = Vec::new(alloc);
    let mut rest = fields;
    while let Some(text) = rest {
        let (field, behind) = cut_field(text);
        let Some(entry) = entry_of(field, count) else {
            return Ok(None);
        };
        entries.push(entry)?;
        rest = behind;
    }
    Ok(Some(entries))
}

/// Whether a field is a number in decimal.
fn is_decimal(field: &[u8], number: u32) -> bool
    ensures { result ≡ bytes_eq (decimal number) field.now }
{
    let mut digits = Buffer::new();
    digits.format(number).as_bytes() == field
}

/// Whether two fields are `journal` and the number of a shard.
fn is_named(word: &[u8], number: &[u8], shard: u32) -> bool
    ensures { result ≡ (bytes_eq word.now (codes "journal") && bytes_eq (decimal shard) number.now) }
{
    word == b"journal".as_slice() && is_decimal(number, shard)
}

/// The fields behind `journal` and the number of a shard, if a text begins with these.
fn behind_shard(text: &[u8], shard: u32) -> Option<Option<&[u8]>>
    ensures found { (count : ℕ) → IfSome result (λ fields. journal_in count shard text.now
        ≡ entries_of count (fields_of (option_map (λ text. text.now) fields))) }
    ensures other { (count : ℕ) → IfNone result (journal_in count shard text.now ≡ None) }
    ensures shorter { IfSome result (λ fields. room_of (option_map (λ text. text.now) fields) ≤ length text.now) }
{
    let (word, behind) = cut_field(text);
    let (number, fields) = cut_field(behind?);
    if is_named(word, number, shard) {
        Some(fields)
    } else {
        None
    }
}

/// The journal of a shard that a line spells.
fn journal_of(
    alloc: Global,
    line: Option<Line<'_>>,
    shard: u32,
    count: u32,
) -> Result<Option<Journal>, AllocError>
    requires count { count ≤ greatest_read }
    requires short { IfSome line (λ found. IfSome found (λ text. length text.now < 2 ^ 30)) }
    ensures { IfOk result (λ read. option_map (λ journal. journal.entries) read
        ≡ journal_of count shard (option_map (option_map (λ text. text.now)) line.entry)) }
{
    let Some(line) = line else {
        return Ok(None);
    };
    let Some(text) = line else {
        return Ok(None);
    };
    let Some(fields) = behind_shard(text, shard) else {
        return Ok(None);
    };
    let Some(entries) = entries_of(alloc, fields, count)? else {
        return Ok(None);
    };
    Ok(Some(Journal::of(entries)))
}

/// The journals of all shards, which the lines spell that `bytes` begins with; or the number of the first line that is missing or
/// other. Behind so many answers the lines of journals begin.
pub(crate) fn read_journals(
    alloc: Global,
    bytes: &[u8],
    shards: u32,
    count: u32,
) -> Result<Result<Read<'_>, u32>, AllocError>
    requires count { count ≤ most_commands }
    requires shards { shards ≤ most_shards }
    requires short { length bytes.now < 2 ^ 30 }
    ensures read { IfOk result (λ read. AreRead count shards (lines_of bytes.now) read) }
    ensures shorter { IfOk result (λ read. IfOk read (λ found. length found.behind.now ≤ length bytes.now)) }
{
    let mut journals = Vec::new(alloc);
    let mut rest = bytes;
    for shard in 0..shards {
        let (line, behind) = cut_line(rest);
        let Some(journal) = journal_of(alloc, line, shard, count)? else {
            return Ok(Err(count + shard + 1));
        };
        journals.push(journal)?;
        rest = behind;
    }
    Ok(Ok(Read {
        journals,
        behind: rest,
    }))
}
