//! The lines of what commands are answered.
ghost use Rattle.std.specs.Prelude.{◌≡◌, ◌++◌, codes, decimal, Option};
ghost use Rattle.index_mode.specs.IndexText as text;
ghost use Rattle.text_lemmas.specs.Writing.{Writes};

use outside::{Failed, Sink};
use text_out::Writer;

/// The line of a put: what the key had before, or that there is no room for it.
pub(crate) fn write_put<K: Sink, F: Drop>(
    out: &mut Writer<'_, K>,
    number: u32,
    had: Result<Option<u32>, F>,
) -> Result<(), Failed>
    ensures { Writes result out.old out.new
        (text.answer_line number (text.put_answer had)) }
{
    match had {
        Ok(None) => out.put_numbered(number, b" stored\n"),
        Ok(Some(_)) => out.put_numbered(number, b" replaced\n"),
        Err(_) => out.put_numbered(number, b" full\n"),
    }
}

/// The line of a get.
pub(crate) fn write_get<K: Sink>(
    out: &mut Writer<'_, K>,
    number: u32,
    found: Option<u32>,
) -> Result<(), Failed>
    ensures { Writes result out.old out.new
        (text.answer_line number (text.found found)) }
{
    match found {
        Some(at) => write_at(out, number, at),
        None => out.put_numbered(number, b" missing\n"),
    }
}

/// The line of a get that finds a number.
fn write_at<K: Sink>(out: &mut Writer<'_, K>, number: u32, at: u32) -> Result<(), Failed>
    ensures { Writes result out.old out.new
        (text.answer_line number (text.At at)) }
{
    out.put_numbered(number, b" at ")?;
    out.put_numbered(at, b"\n")
}

/// The line of an erase.
pub(crate) fn write_erase<K: Sink>(
    out: &mut Writer<'_, K>,
    number: u32,
    had: Option<u32>,
) -> Result<(), Failed>
    ensures { Writes result out.old out.new
        (text.answer_line number (text.erased had)) }
{
    match had {
        Some(_) => out.put_numbered(number, b" erased\n"),
        None => out.put_numbered(number, b" missing\n"),
    }
}

/// The last line, of how many keys are held.
pub(crate) fn write_count<K: Sink>(out: &mut Writer<'_, K>, keys: u32) -> Result<(), Failed>
    ensures { Writes result out.old out.new
        (codes "index " ++ decimal keys ++ codes "\n") }
{
    out.put(b"index ")?;
    out.put_numbered(keys, b"\n")
}
