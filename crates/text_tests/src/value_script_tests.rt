//! Lines of scripts, and the first cause of each that is no command.
use outside::{MemorySource, ReadStop, read_all};
use std::alloc::{AllocError, Global};
use std::process::Abort;
use std::test::Fail;
use value_script::{Cause, ScriptRefusal, parse_script};

/// The line and the cause for which a script is refused. None where it is read.
fn refusal_of(
    rt: &impl Abort,
    alloc: Global,
    script: Vec<u8>,
) -> Result<Option<(u32, Cause)>, AllocError> {
    assert!(rt; script.len() <= 10_000_000);
    match parse_script(alloc, script) {
        Ok(_) => Ok(None),
        Err(ScriptRefusal::Script { line, cause }) => Ok(Some((line, cause))),
        Err(ScriptRefusal::Memory) => Err(AllocError),
    }
}

#[test]
fn these_scripts_are_read(rt: HostRuntime) -> Result<(), Fail> {
    let rows: [&[u8]; 6] = [
        b"",
        b"# put\n\n\r\n#\nset 0 \nread 0 0 0\ndrop 0",
        b"set 999 a\nread 999 1048576 64\ndrop 999\n",
        b"set 1 a\r\nread 1 0 1\r\n",
        b"set 1  a b \nset 10 # no comment\n",
        b"set 1 \xff\x80 ~\n",
    ];
    for script in rows {
        let script = Vec::from_slice(rt.alloc(), script)?;
        assert!(rt; refusal_of(&rt, rt.alloc(), script)?.is_none());
    }
    Ok(())
}

#[test]
fn a_line_is_refused_for_its_first_cause(rt: HostRuntime) -> Result<(), Fail> {
    let rows: [(&[u8], Cause); 34] = [
        (b"put 1 a", Cause::UnknownWord),
        (b"se", Cause::UnknownWord),
        (b"sets 1 a", Cause::UnknownWord),
        (b"Set 1 a", Cause::UnknownWord),
        (b" set 1 a", Cause::UnknownWord),
        (b"set", Cause::MissingField),
        (b"read", Cause::MissingField),
        (b"drop", Cause::MissingField),
        (b"set 1", Cause::MissingField),
        (b"read 1", Cause::MissingField),
        (b"read 1 0", Cause::MissingField),
        (b"set 1000 a", Cause::Number),
        (b"set 1000", Cause::Number),
        (b"set 01 a", Cause::Number),
        (b"set -1 a", Cause::Number),
        (b"set  a", Cause::Number),
        (b"set 1a a", Cause::Number),
        (b"read 1 1048577 0", Cause::Number),
        (b"read 1 1048577", Cause::Number),
        (b"read 1 00 1", Cause::Number),
        (b"read 1 0 65", Cause::Number),
        (b"read 1 0 ", Cause::Number),
        (b"read 1 0 65 ", Cause::Number),
        (b"drop ", Cause::Number),
        (b"drop 1000", Cause::Number),
        (b"drop 99999999999999999999", Cause::Number),
        (b"drop 1 ", Cause::ExtraField),
        (b"drop 1 2", Cause::ExtraField),
        (b"read 1 0 1 ", Cause::ExtraField),
        (b"set 1 \x1fa", Cause::ValueByte),
        (b"set 1 a\x1f", Cause::ValueByte),
        (b"set 1 \x7fa", Cause::ValueByte),
        (b"set 1 a\x7f", Cause::ValueByte),
        (b"set 1 a\r\r", Cause::ValueByte),
    ];
    for (line, cause) in rows {
        let mut script = Vec::from_slice(rt.alloc(), b"# first\nset 1 a\n".as_slice())?;
        script.extend_from_slice(line)?;
        script.extend_from_slice(b"\nfetch\n")?;
        assert!(rt; refusal_of(&rt, rt.alloc(), script)? == Some((3, cause)));
    }
    Ok(())
}

/// A script that sets a name to so many letters and a last byte.
fn set_long(alloc: Global, letters: usize, last: u8) -> Result<Vec<u8>, AllocError> {
    let mut script = Vec::from_slice(alloc, b"set 7 ".as_slice())?;
    script.extend_from_slice(vec![in alloc; b'x'; letters]?.as_slice())?;
    script.push(last)?;
    Ok(script)
}

#[test]
fn a_value_has_a_mebibyte_at_most(rt: HostRuntime) -> Result<(), Fail> {
    let rows: [(usize, u8, Option<(u32, Cause)>); 4] = [
        (1_048_575, b'x', None),
        (1_048_576, b'x', Some((1, Cause::ValueLength))),
        (1_048_576, 127, Some((1, Cause::ValueLength))),
        (1_048_575, 127, Some((1, Cause::ValueByte))),
    ];
    for (letters, last, refused) in rows {
        let script = set_long(rt.alloc(), letters, last)?;
        assert!(rt; refusal_of(&rt, rt.alloc(), script)? == refused);
    }
    Ok(())
}

#[test]
fn a_script_has_so_many_commands_at_most(rt: HostRuntime) -> Result<(), Fail> {
    let mut script = Vec::new(rt.alloc());
    for _ in 0..1_048_576u32 {
        script.extend_from_slice(b"drop 0\n")?;
    }
    let most = Vec::from_slice(rt.alloc(), script.as_slice())?;
    assert!(rt; refusal_of(&rt, rt.alloc(), most)?.is_none());
    script.extend_from_slice(b"\nfetch")?;
    assert!(rt; refusal_of(&rt, rt.alloc(), script)? == Some((1_048_578, Cause::TooManyCommands)));
    Ok(())
}

#[test]
fn a_script_comes_byte_by_byte_or_not(rt: HostRuntime) -> Result<(), Fail> {
    let bytes = b"set 1 hello\nread 1 1 3\ndrop\n".as_slice();
    let script = Vec::from_slice(rt.alloc(), bytes)?;
    let mut source = MemorySource::new(script, 1, Vec::new(rt.alloc()));
    let read = read_all(rt.alloc(), &mut source, 1000)
        .ok()
        .ok_or("not read")?;
    assert!(rt; refusal_of(&rt, rt.alloc(), read)? == Some((3, Cause::MissingField)));
    let script = Vec::from_slice(rt.alloc(), bytes)?;
    let failing = Vec::from_slice(rt.alloc(), [9u64].as_slice())?;
    let mut failing = MemorySource::new(script, 1, failing);
    let stopped = read_all(rt.alloc(), &mut failing, 1000).err();
    assert!(rt; matches!(stopped, Some(ReadStop::Fault)));
    Ok(())
}
