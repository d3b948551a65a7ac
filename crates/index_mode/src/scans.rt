//! The line of a scan.
ghost use Rattle.std.specs.Prelude.{◌≡◌, ◌^◌, ◌<◌, ◌∷◌, ◌++◌, ℕ, List, flat_map, length, codes, decimal};
ghost use Rattle.rows.specs.KeyBody.{AreKeys};
ghost use Rattle.index_mode.specs.IndexText as text;
ghost use Rattle.text_lemmas.specs.Writing.{Writes};

use outside::{Failed, Sink};
use run_log::next_key;
use text_out::Writer;

/// The keys of a body of keys, each behind a space.
fn write_each<K: Sink>(out: &mut Writer<'_, K>, body: &[u8]) -> Result<(), Failed>
    requires keys { (keys : List (List ℕ)) × AreKeys body.now keys }
    requires short { length body.now < 2 ^ 32 }
    ensures { (keys : List (List ℕ)) → AreKeys body.now keys
        → Writes result out.old out.new (flat_map (λ key. 32 ∷ key) keys) }
{
    let mut at = 0;
    while let Some(span) = next_key(body, at) {
        let end = span.start + span.len;
        out.put_word(&body[span.start as usize..end as usize])?;
        at = end;
    }
    Ok(())
}

/// The line of a scan whose keys stand in the body.
pub(crate) fn write_scan<K: Sink>(
    out: &mut Writer<'_, K>,
    number: u32,
    body: &[u8],
) -> Result<(), Failed>
    requires keys { (keys : List (List ℕ)) × AreKeys body.now keys }
    requires short { length body.now < 2 ^ 32 }
    ensures { (keys : List (List ℕ)) → AreKeys body.now keys
        → Writes result out.old out.new
        (text.answer_line number (text.Keys keys)) }
{
    out.put_numbered(number, b" keys")?;
    write_each(out, body)?;
    out.put(b"\n")
}
