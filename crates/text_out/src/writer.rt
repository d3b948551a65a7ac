//! A writer over a sink.
ghost use Rattle.std.specs.Prelude.{◌≡◌, ◌≤◌, [], ◌∷◌, ◌++◌, codes, decimal, OnOk, OnErr};
ghost use Rattle.layout.specs.Counts.{Rose};
ghost use Rattle.text_lemmas.specs.Writing.{Writes};

use crate::block::Block;
use itoa::Buffer as Digits;
use layout::PAGE;
use outside::{Failed, Sink, write_all};
use std::marker::Model;

/// Adds text into a block, and gives the sink the block where it is full. Contracts see which sink it is, what this was
/// given, its faults, and the text that waits.
///
/// A writer is ended by [`into_sink`](Writer::into_sink): of a sink whose writer was dropped nothing is known.
#[derive(Drop)]
pub struct Writer<'s, K: Sink> {
    sink: &'s mut K,
    block: Block,
}

impl<'s, K: Sink> Model for Writer<'s, K> {
    ghost use Rattle.text_lemmas.specs.Writing.{Output};

    ghost Value = { Output };

    ghost view = { λ w. record {
      sink = w.sink.ghost_name;
      written = K.written w.sink.now;
      faults = K.faults w.sink.now;
      block = w.block;
    } };
}

impl<'s, K: Sink> Writer<'s, K> {
    /// With no text yet.
    pub fn new(sink: &'s mut K) -> Writer<'s, K>
        ensures { result ≡ record {
          sink = sink.entry.ghost_name;
          written = K.written sink.old;
          faults = K.faults sink.old;
          block = [];
        } }
    {
        Writer {
            sink,
            block: Block::new(),
        }
    }

    /// Gives back the sink. It is not given what waits; see [`flush`](Writer::flush).
    pub fn into_sink(self) -> &'s mut K
        ensures same { result.ghost_name ≡ self.entry.sink }
        ensures written { K.written result.now ≡ self.entry.written }
        ensures faults { K.faults result.now ≡ self.entry.faults }
    {
        let Writer { sink, block: _ } = self;
        sink
    }

    /// Gives the sink what waits.
    ///
    /// # Errors
    /// [`Failed`] where the sink failed, as in all calls here. A front of what waited and of the text was written then.
    pub fn flush(&mut self) -> Result<(), Failed>
        ensures wrote { Writes result self.old self.new [] }
        ensures empty { OnOk result (self.new.block ≡ []) }
    {
        write_all(self.sink, self.block.bytes())?;
        self.block.clear();
        Ok(())
    }

    /// A line of at most so many bytes begins, and goes to the sink in one write: where the block has no room for it, the
    /// sink is given the block first.
    pub fn begin_line(&mut self, len: usize) -> Result<(), Failed>
        ensures { Writes result self.old self.new [] }
    {
        if self.block.has_room(len) {
            return Ok(());
        }
        self.flush()
    }

    /// Adds `text`. Where it does not fit into the block, the sink is given the block first.
    pub fn put(&mut self, text: &[u8]) -> Result<(), Failed>
        ensures { Writes result self.old self.new text.now }
    {
        if self.block.try_add(text) {
            return Ok(());
        }
        self.flush()?;
        if self.block.try_add(text) {
            return Ok(());
        }
        write_all(self.sink, text)
    }

    /// Adds `text`, which may be long. Where it has more bytes than a page, the sink is given what waits, and then the text
    /// from where it stands.
    pub fn hand_over(&mut self, text: &[u8]) -> Result<(), Failed>
        ensures { Writes result self.old self.new text.now }
    {
        if text.len() <= PAGE as usize {
            return self.put(text);
        }
        self.flush()?;
        write_all(self.sink, text)
    }

    /// A number in decimal.
    pub fn put_number(&mut self, number: u64) -> Result<(), Failed>
        ensures { Writes result self.old self.new (decimal number) }
    {
        let mut digits = Digits::new();
        self.put(digits.format(number).as_bytes())
    }

    /// Some text and a number.
    pub fn put_field(&mut self, name: &[u8], number: u64) -> Result<(), Failed>
        ensures { Writes result self.old self.new (name.now ++ decimal number) }
    {
        self.put(name)?;
        self.put_number(number)
    }

    /// A space and some text.
    pub fn put_word(&mut self, text: &[u8]) -> Result<(), Failed>
        ensures { Writes result self.old self.new (32 ∷ text.now) }
    {
        self.put(b" ")?;
        self.put(text)
    }

    /// A number, and some text behind it.
    pub fn put_numbered(&mut self, number: u32, text: &[u8]) -> Result<(), Failed>
        ensures { Writes result self.old self.new (decimal number ++ text.now) }
    {
        self.put_number(u64::from(number))?;
        self.put(text)
    }

    /// The end of a line.
    pub fn end_line(&mut self) -> Result<(), Failed>
        ensures { Writes result self.old self.new (codes "\n") }
    {
        self.put(b"\n")
    }
}
