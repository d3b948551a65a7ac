//! The lines of what commands are answered.
ghost use Rattle.std.specs.Prelude.{◌≡◌, ◌++◌, codes, decimal, option_map};
ghost use Rattle.dirty_mode.specs.DirtyText.{line_text, get_line, Passed, Unflushed};
ghost use Rattle.text_lemmas.specs.Writing.{Writes};

use outside::{Failed, Sink};
use text_out::Writer;

// The most digits of a number.
const DIGITS: usize = 10;

/// A number and a word.
fn write_word<K: Sink>(out: &mut Writer<'_, K>, number: u32, word: &[u8]) -> Result<(), Failed>
    ensures { Writes result out.old out.new (decimal number ++ word.now) }
{
    out.begin_line(DIGITS + word.len())?;
    out.put_numbered(number, word)
}

/// A value and the end of its line.
fn write_value<K: Sink>(out: &mut Writer<'_, K>, value: &[u8]) -> Result<(), Failed>
    ensures { Writes result out.old out.new (value.now ++ codes "\n") }
{
    out.put(value)?;
    out.end_line()
}

/// The line of a get that finds a value.
fn write_found<K: Sink>(out: &mut Writer<'_, K>, number: u32, value: &[u8]) -> Result<(), Failed>
    ensures { Writes result out.old out.new
        (line_text (Unflushed number value.now)) }
{
    out.begin_line(DIGITS + b" dirty \n".len() + value.len())?;
    write_word(out, number, b" dirty ")?;
    write_value(out, value)
}

/// The line of a get.
pub(crate) fn write_get<K: Sink>(
    out: &mut Writer<'_, K>,
    number: u32,
    found: Option<&[u8]>,
) -> Result<(), Failed>
    ensures { Writes result out.old out.new
        (line_text (get_line number (option_map (λ value. value.now) found.entry))) }
{
    match found {
        Some(value) => write_found(out, number, value),
        None => write_word(out, number, b" clean\n"),
    }
}

/// The line of a command that is passed over.
pub(crate) fn write_passed<K: Sink>(out: &mut Writer<'_, K>, number: u32) -> Result<(), Failed>
    ensures { Writes result out.old out.new (line_text (Passed number)) }
{
    write_word(out, number, b" passed\n")
}

/// The last line, of how many puts there were.
pub(crate) fn write_count<K: Sink>(out: &mut Writer<'_, K>, puts: u32) -> Result<(), Failed>
    ensures { Writes result out.old out.new
        (codes "dirty " ++ decimal puts ++ codes "\n") }
{
    out.begin_line(b"dirty \n".len() + DIGITS)?;
    out.put(b"dirty ")?;
    write_word(out, puts, b"\n")
}
