//! What no contract says: that memory is there, and that the devices of std are read and written.
ghost use Rattle.std.specs.Prelude.{◌≤◌};

use outside::{
    Failed, MemorySink, MemorySource, ReadSource, ReadStop, Source, WriteSink, read_all, write_all,
};
use std::alloc::Global;
use std::io::{BufWriter, Error, ErrorKind, Read, Write};
use std::process::Abort;
use std::test::Fail;

// Reads a source that gives one byte a call, and of which the call that is named fails.
fn expect_read(
    rt: &impl Abort,
    alloc: Global,
    input: &str,
    limit: u32,
    failing: u64,
    want: Result<&str, ReadStop>,
) -> Result<(), Fail>
    requires { limit ≤ 4 }
{
    let bytes = input.as_bytes().to_vec(alloc)?;
    let mut source = MemorySource::new(bytes, 1, vec![in alloc; failing]?);
    let got = read_all(alloc, &mut source, limit);
    match want {
        Ok(text) => assert_eq!(rt; got?.as_slice(), text.as_bytes(), "{input:?}"),
        Err(stop) => assert!(rt; got.is_err_and(|met| met == stop), "{input:?}"),
    }
    Ok(())
}

#[test]
fn reading_ends_at_the_end_or_the_limit_or_a_fault(rt: HostRuntime) -> Result<(), Fail> {
    for (input, limit, failing, want) in [
        ("", 0, 9, Ok("")),
        ("abcd", 4, 9, Ok("abcd")),
        ("abcde", 4, 9, Err(ReadStop::TooLong)),
        ("a", 0, 9, Err(ReadStop::TooLong)),
        ("abcd", 4, 1, Err(ReadStop::Fault)),
        ("abcd", 4, 3, Err(ReadStop::Fault)),
        ("abcd", 4, 5, Err(ReadStop::Fault)),
        ("abcd", 4, 6, Ok("abcd")),
        ("abcde", 4, 6, Err(ReadStop::TooLong)),
    ] {
        expect_read(&rt, rt.alloc(), input, limit, failing, want)?;
    }
    Ok(())
}

// Writes a piece into a sink with so much room.
fn expect_written(
    rt: &impl Abort,
    alloc: Global,
    (room, piece): (usize, &str),
    want: Result<(), Failed>,
    bytes: &str,
) -> Result<(), Fail> {
    let mut sink = MemorySink::new(alloc, room)?;
    let wrote = write_all(&mut sink, piece.as_bytes());
    assert!(rt; wrote == want, "{piece:?} in {room}");
    assert_eq!(rt; sink.bytes(), bytes.as_bytes(), "{piece:?} in {room}");
    Ok(())
}

#[test]
fn a_full_sink_keeps_the_front_of_a_piece(rt: HostRuntime) -> Result<(), Fail> {
    for (room, piece, want, bytes) in [
        (0, "", Ok(()), ""),
        (0, "a", Err(Failed), ""),
        (3, "abc", Ok(()), "abc"),
        (3, "abcde", Err(Failed), "abc"),
    ] {
        expect_written(&rt, rt.alloc(), (room, piece), want, bytes)?;
    }
    Ok(())
}

#[test]
fn readers_and_writers_of_std_serve(rt: HostRuntime) -> Result<(), Fail> {
    let input = vec![in rt.alloc(); 7u8; 200_000]?;
    let mut source = ReadSource::new(input.as_slice());
    let bytes = read_all(rt.alloc(), &mut source, 200_000)?;
    assert!(rt; bytes.as_slice() == input.as_slice());

    let mut output = Vec::new(rt.alloc());
    let mut sink = WriteSink::new(&mut output);
    write_all(&mut sink, bytes.as_slice())?;
    assert!(rt; output.as_slice() == input.as_slice());
    Ok(())
}

#[test]
fn each_piece_goes_through_a_buffer(rt: HostRuntime) -> Result<(), Fail> {
    let mut writer = BufWriter::with_capacity(rt.alloc(), 64, Vec::new(rt.alloc()))?;
    writer.write(b"a")?;
    assert!(rt; writer.get_ref().is_empty());

    let mut sink = WriteSink::new(&mut writer);
    write_all(&mut sink, b"bc")?;
    write_all(&mut sink, b"d")?;
    assert!(rt; writer.get_ref().as_slice() == b"abcd".as_slice());
    Ok(())
}

// A reader and a writer that the system interrupts once, and that then serves one byte and fails.
#[derive(Drop)]
struct Unsteady {
    calls: u32,
}

impl Unsteady {
    fn answer(&mut self) -> Result<usize, Error> {
        self.calls = self.calls.saturating_add(1);
        match self.calls {
            1 => Err(Error::from(ErrorKind::Interrupted)),
            2 => Ok(1),
            _ => Err(Error::from(ErrorKind::BrokenPipe)),
        }
    }
}

impl Read for Unsteady {
    fn read(&mut self, into: &mut [u8]) -> Result<usize, Error> {
        let count = self.answer()?;
        Ok(count.min(into.len()))
    }
}

impl Write for Unsteady {
    fn write(&mut self, from: &[u8]) -> Result<usize, Error> {
        let count = self.answer()?;
        Ok(count.min(from.len()))
    }

    fn flush(&mut self) -> Result<(), Error> {
        Ok(())
    }
}

#[test]
fn an_interruption_is_no_fault(rt: HostRuntime) -> Result<(), Fail> {
    let mut source = ReadSource::new(Unsteady { calls: 0 });
    let mut into = [0; 9];
    let read = [source.read(&mut into), source.read(&mut into)];
    assert!(rt; read == [Ok(1), Err(Failed)]);

    let mut sink = WriteSink::new(Unsteady { calls: 0 });
    let wrote = [write_all(&mut sink, b"a"), write_all(&mut sink, b"b")];
    assert!(rt; wrote == [Ok(()), Err(Failed)]);
    Ok(())
}
