//! One command, and its answer.
ghost use Rattle.std.specs.Prelude.{◌≡◌, ◌<◌, ◌≤◌, ◌++◌, codes, decimal, length, take, drop, count_by, is_some, option_map};
ghost use Rattle.std.specs.List.{concat};
ghost use Rattle.segmented_store.specs.Segments.{HoldsSegments};
ghost use Rattle.fragments.specs.Store.{values_of};
ghost use Rattle.regions.specs.Shapes.{held_count};
ghost use Rattle.segmented_store.specs.Room.{room};
ghost use Rattle.fragments.specs.Values.{value_of};
ghost use Rattle.value_script.specs.Order as orders;
ghost use Rattle.value_script.specs.Order.{names, greatest_value};
ghost use Rattle.value_script.specs.Commands.{order};
ghost use Rattle.value_script.specs.Script.{IsSound};
ghost use Rattle.values_mode.specs.Text as text;
ghost use Rattle.values_mode.specs.Text.{answer_line, answer_text, done, last_line, line};
ghost use Rattle.values_mode.specs.inside.Steps.{IsServing};
ghost use Rattle.text_lemmas.specs.Writing.{Writes};

use fragments::{Fragments, Pieces};
use outside::{Failed, Sink};
use text_out::Writer;
use value_script::{Command, Script};

/// The line of an answer that is a word.
fn put_word<K: Sink>(out: &mut Writer<'_, K>, number: u32, word: &[u8]) -> Result<(), Failed>
    ensures { Writes result out.old out.new (line (decimal number ++ codes " " ++ word.now)) }
{
    out.put_numbered(number, b" ")?;
    out.put(word)?;
    out.end_line()
}

/// What is behind so many bytes.
fn end_of(bytes: &[u8], at: usize) -> &[u8]
    ensures { result.now ≡ drop at bytes.now }
{
    if at < bytes.len() { &bytes[at..] } else { &[] }
}

/// At most so many bytes in front.
fn front_of(bytes: &[u8], count: usize) -> &[u8]
    ensures { result.now ≡ take count bytes.now }
{
    if count < bytes.len() {
        &bytes[..count]
    } else {
        bytes
    }
}

/// At most `count` of the bytes of these pieces, from `at` on.
fn put_part<K: Sink>(
    out: &mut Writer<'_, K>,
    pieces: Pieces<'_>,
    at: u32,
    count: u32,
) -> Result<(), Failed>
    ensures { Writes result out.old out.new (take count (drop at (concat pieces.entry))) }
{
    let mut rest = pieces;
    let mut skip = at as usize;
    let mut left = count as usize;
    while let Some(piece) = rest.next() {
        let part = front_of(end_of(piece, skip), left);
        out.put(part)?;
        skip = skip.saturating_sub(piece.len());
        left -= part.len();
    }
    Ok(())
}

/// The line of an answer that is a value: its length, and some of its bytes.
fn put_value<K: Sink>(
    out: &mut Writer<'_, K>,
    number: u32,
    pieces: Pieces<'_>,
    at: u32,
    count: u32,
) -> Result<(), Failed>
    ensures { Writes result out.old out.new
        (answer_line number (text.Value (length (concat pieces.entry)) (take count (drop at (concat pieces.entry))))) }
{
    out.put_numbered(number, b" value ")?;
    out.put_number(u64::from(pieces.bytes_left()))?;
    out.put(b" ")?;
    put_part(out, pieces, at, count)?;
    out.end_line()
}

/// The line of a read, which found these pieces.
fn put_read<K: Sink>(
    out: &mut Writer<'_, K>,
    number: u32,
    found: Option<Pieces<'_>>,
    at: u32,
    count: u32,
) -> Result<(), Failed>
    ensures { Writes result out.old out.new
        (answer_line number (text.read at count (option_map (λ pieces. concat pieces) found.entry))) }
{
    match found {
        Some(pieces) => put_value(out, number, pieces, at, count),
        None => put_word(out, number, b"missing"),
    }
}

/// Sets a value, and gives the word that says whether it was set.
fn set(store: &mut Fragments, name: u32, value: &[u8]) -> &'static [u8]
    requires serving { IsServing store.old }
    requires name { name < names }
    requires short { length value.now ≤ greatest_value }
    ensures values { values_of store.new
        ≡ (done (room (held_count store.old.region)) (values_of store.old) (orders.Set name value.now)).0 }
    ensures word { result.now ≡ answer_text (done (room (held_count store.old.region)) (values_of store.old)
        (orders.Set name value.now)).1 }
    ensures segments { HoldsSegments store.old.region store.new.region }
{
    match store.put(name, value) {
        Ok(()) => b"set",
        Err(_) => b"full",
    }
}

/// Drops a value, and gives the word that says whether there was one.
fn drop_value(store: &mut Fragments, name: u32) -> &'static [u8]
    ensures values { values_of store.new
        ≡ (done (room (held_count store.old.region)) (values_of store.old) (orders.Drop name)).0 }
    ensures word { result.now ≡ answer_text (done (room (held_count store.old.region)) (values_of store.old)
        (orders.Drop name)).1 }
    ensures segments { HoldsSegments store.old.region store.new.region }
{
    if store.erase(name) {
        b"dropped"
    } else {
        b"missing"
    }
}

/// Sets a value, and writes the answer.
fn answer_set<K: Sink>(
    store: &mut Fragments,
    out: &mut Writer<'_, K>,
    number: u32,
    name: u32,
    value: &[u8],
) -> Result<(), Failed>
    requires serving { IsServing store.old }
    requires name { name < names }
    requires short { length value.now ≤ greatest_value }
    ensures values { values_of store.new
        ≡ (done (room (held_count store.old.region)) (values_of store.old) (orders.Set name value.now)).0 }
    ensures written { Writes result out.old out.new (answer_line number
        (done (room (held_count store.old.region)) (values_of store.old) (orders.Set name value.now)).1) }
    ensures segments { HoldsSegments store.old.region store.new.region }
{
    put_word(out, number, set(store, name, value))
}

/// Reads a part of a value, and writes it.
fn answer_read<K: Sink>(
    store: &Fragments,
    out: &mut Writer<'_, K>,
    number: u32,
    name: u32,
    at: u32,
    count: u32,
) -> Result<(), Failed>
    ensures { Writes result out.old out.new (answer_line number (text.read at count (value_of (values_of store.now) name))) }
{
    put_read(out, number, store.get(name), at, count)
}

/// Drops a value, and writes the answer.
fn answer_drop<K: Sink>(
    store: &mut Fragments,
    out: &mut Writer<'_, K>,
    number: u32,
    name: u32,
) -> Result<(), Failed>
    ensures values { values_of store.new
        ≡ (done (room (held_count store.old.region)) (values_of store.old) (orders.Drop name)).0 }
    ensures written { Writes result out.old out.new (answer_line number
        (done (room (held_count store.old.region)) (values_of store.old) (orders.Drop name)).1) }
    ensures segments { HoldsSegments store.old.region store.new.region }
{
    put_word(out, number, drop_value(store, name))
}

/// Does the command with a number, and writes its answer.
pub(crate) fn answer<K: Sink>(
    store: &mut Fragments,
    out: &mut Writer<'_, K>,
    script: &Script,
    number: u32,
    command: Command,
) -> Result<(), Failed>
    requires serving { IsServing store.old }
    requires sound { IsSound script.now.bytes command }
    ensures values { values_of store.new
        ≡ (done (room (held_count store.old.region)) (values_of store.old) (order script.now.bytes command)).0 }
    ensures written { Writes result out.old out.new (answer_line number
        (done (room (held_count store.old.region)) (values_of store.old) (order script.now.bytes command)).1) }
    ensures segments { HoldsSegments store.old.region store.new.region }
{
    match command {
        Command::Set { name, value } => answer_set(store, out, number, name, script.value(value)),
        Command::Read { name, at, count } => answer_read(store, out, number, name, at, count),
        Command::Drop { name } => answer_drop(store, out, number, name),
    }
}

/// How many names have a value.
fn count_values(store: &Fragments) -> u32
    requires { length store.now.firsts ≡ names }
    ensures { result ≡ count_by is_some (values_of store.now) }
{
    let mut count = 0;
    for name in 0..1000 {
        if store.len(name).is_some() {
            count += 1;
        }
    }
    count
}

/// The last line.
pub(crate) fn put_last<K: Sink>(store: &Fragments, out: &mut Writer<'_, K>) -> Result<(), Failed>
    requires names { length store.now.firsts ≡ names }
    ensures { Writes result out.old out.new (last_line (values_of store.now)) }
{
    out.put_field(b"values ", u64::from(count_values(store)))?;
    out.put(b" live ")?;
    out.put_number(store.live())?;
    out.end_line()
}
