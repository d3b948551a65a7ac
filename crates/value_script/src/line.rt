//! One line of a script.
ghost use Rattle.std.specs.Prelude.{◌≡◌, ◌≤◌, ◌-◌, length, true, None, Some, IfSome, IfOk, IfErr};
ghost use Rattle.std.specs.List.{list_all};
ghost use Rattle.std.specs.Option.{option_map};
ghost use Rattle.trace_text.specs.Line.{cut_at, is_value_byte};
ghost use Rattle.value_script.specs.Line.{fields_of, number_of, order_of, value_fault, word_of};
ghost use Rattle.value_script.specs.Order.{Order};
ghost use Rattle.value_script.specs.inside.Found.{reading_of, EndsIn, IsRestOf};

use crate::lines::cut_at_space;
use crate::refusal::Cause;
use numerals::number_of;

/// The greatest name.
const GREATEST_NAME: u32 = 999;

/// The most bytes of a value.
const GREATEST_VALUE: usize = 1_048_576;

/// The most of the place from which a value is read, and the most bytes that are read.
const GREATEST_AT: u32 = 1_048_576;

const GREATEST_COUNT: u32 = 64;

/// The word of a command.
#[derive(Clone, Copy, Debug)]
pub enum Word {
    Set,
    Read,
    Drop,
}

/// What a line asks. A value is an end of the line.
#[derive(Clone, Copy, Debug)]
pub enum Found<'a> {
    Set(u32, &'a [u8]),
    Read(u32, u32, u32),
    Drop(u32),
}

// No early exit in this loop, so that it tests many bytes at a time.
fn are_value_bytes(value: &[u8]) -> bool
    ensures { result ≡ list_all is_value_byte value.now }
{
    let mut are = true;
    for b in value {
        are &= (*b > 31) & (*b != 127);
    }
    are
}

/// What is wrong with a value.
fn value_fault(value: &[u8]) -> Option<Cause>
    ensures { result ≡ value_fault value.now }
{
    if value.len() > GREATEST_VALUE {
        Some(Cause::ValueLength)
    } else if are_value_bytes(value) {
        None
    } else {
        Some(Cause::ValueByte)
    }
}

/// The number with which the fields begin, and what stands behind the space after it.
fn number_in(fields: &[u8], greatest: u32) -> Result<(u32, Option<&[u8]>), Cause>
    requires { greatest ≤ 1048576 }
    ensures number { IfOk result (λ found. number_of greatest (cut_at 32 fields.now).0 ≡ Some found.0) }
    ensures behind { IfOk result (λ found. option_map (λ behind. behind.now) found.1 ≡ (cut_at 32 fields.now).1) }
    ensures rest { IfOk result (λ found. IfSome found.1 (λ behind. IsRestOf fields.now behind.now)) }
    ensures refused { IfErr result (λ cause. (cause ≡ Cause.Number) × (number_of greatest (cut_at 32 fields.now).0 ≡ None)) }
{
    let (field, behind) = cut_at_space(fields);
    let number = number_of(field, greatest).ok_or(Cause::Number)?;
    Ok((number, behind))
}

/// A name, a space, and the value, which is all that follows.
fn set_in(fields: &[u8]) -> Result<Found<'_>, Cause>
    ensures fields { reading_of result ≡ fields_of Word.Set fields.now }
    ensures value { IfOk result (EndsIn fields.now) }
{
    let (name, behind) = number_in(fields, GREATEST_NAME)?;
    let value = behind.ok_or(Cause::MissingField)?;
    match value_fault(value) {
        Some(cause) => Err(cause),
        None => Ok(Found::Set(name, value)),
    }
}

/// A name, a space, a number, a space, and a number.
fn read_in(fields: &[u8]) -> Result<Found<'_>, Cause>
    ensures fields { reading_of result ≡ fields_of Word.Read fields.now }
    ensures value { IfOk result (EndsIn fields.now) }
{
    let (name, behind) = number_in(fields, GREATEST_NAME)?;
    let (at, behind) = number_in(behind.ok_or(Cause::MissingField)?, GREATEST_AT)?;
    let (count, behind) = number_in(behind.ok_or(Cause::MissingField)?, GREATEST_COUNT)?;
    if behind.is_some() {
        return Err(Cause::ExtraField);
    }
    Ok(Found::Read(name, at, count))
}

/// A name.
fn drop_in(fields: &[u8]) -> Result<Found<'_>, Cause>
    ensures fields { reading_of result ≡ fields_of Word.Drop fields.now }
    ensures value { IfOk result (EndsIn fields.now) }
{
    let (name, behind) = number_in(fields, GREATEST_NAME)?;
    if behind.is_some() {
        return Err(Cause::ExtraField);
    }
    Ok(Found::Drop(name))
}

/// The word of a command.
fn word_of(word: &[u8]) -> Option<Word>
    ensures { result ≡ word_of word.now }
{
    match word {
        b"set" => Some(Word::Set),
        b"read" => Some(Word::Read),
        b"drop" => Some(Word::Drop),
        _ => None,
    }
}

fn fields_of(word: Word, fields: &[u8]) -> Result<Found<'_>, Cause>
    ensures fields { reading_of result ≡ fields_of word fields.now }
    ensures value { IfOk result (EndsIn fields.now) }
{
    match word {
        Word::Set => set_in(fields),
        Word::Read => read_in(fields),
        Word::Drop => drop_in(fields),
    }
}

/// What a line asks, or the first thing that is wrong with it.
pub(crate) fn order_of(line: &[u8]) -> Result<Found<'_>, Cause>
    ensures order { reading_of result ≡ order_of line.now }
    ensures value { IfOk result (EndsIn line.now) }
{
    let (word, fields) = cut_at_space(line);
    let word = word_of(word).ok_or(Cause::UnknownWord)?;
    let fields = fields.ok_or(Cause::MissingField)?;
    fields_of(word, fields)
}
