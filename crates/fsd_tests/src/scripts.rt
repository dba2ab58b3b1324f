//! Scripts that are read from a machine in memory.
use crate::machines::calm;
use fsd_bytes::Key;
use fsd_texts::{BadLine, Bytes, Cause, Command, Line, Part, ScriptCommand};
use memory_machine::{Event, MemoryMachine};
use script_text::{Maker, Reader, ScriptFault, say_line, say_parts};
use std::alloc::{AllocError, Global};
use std::test::Fail;

/// A machine without an image that gives this input, in a run with these events.
pub(crate) fn giving(
    alloc: Global,
    events: &[Event],
    input: &[u8],
) -> Result<MemoryMachine, AllocError> {
    let m = calm(alloc, Vec::new(alloc));
    Ok(m.again(events.to_vec(alloc)?, input.to_vec(alloc)?))
}

// Whether what was read is a command that reads the version with this key.
fn is_get(read: &Option<ScriptCommand>, text: &[u8]) -> bool {
    match read {
        Some(ScriptCommand::Plain(command)) => gets(command, text),
        _ => false,
    }
}

// Whether the command reads the version with this key.
fn gets(command: &Command, text: &[u8]) -> bool {
    match command {
        Command::Get(key) => match Key::parse(text) {
            Some(want) => *key == want,
            None => false,
        },
        _ => false,
    }
}

#[test]
fn goes_on_after_a_failure(rt: HostRuntime) -> Result<(), Fail> {
    let alloc = rt.alloc();
    let events = [
        Event::Pieces { most: 2 },
        Event::FailCall { call: 2, stand: 0 },
    ];
    let mut m = giving(alloc, &events, b"get a!1\n")?;
    let mut reader = Reader::new(alloc);
    let failed = reader.next_command(alloc, &mut m).err();
    assert_eq!(rt; failed, Some(ScriptFault::Input));
    let read = reader.next_command(alloc, &mut m).unwrap_or_default();
    assert!(rt; is_get(&read, b"a!1"));
    Ok(())
}

#[test]
fn says_lines_one_behind_another(rt: HostRuntime) -> Result<(), Fail> {
    let alloc = rt.alloc();
    let mut out = Bytes::new(alloc);
    let key = Key::parse(b"a/b!12").unwrap_or_default();
    say_parts(
        &[Part::Word("made"), Part::Key(&key), Part::Number(2)],
        &mut out,
    )?;
    say_line(&Line::Forced, &mut out)?;
    let bad = BadLine {
        line: 2,
        cause: Cause::ShortBytes,
    };
    say_line(&Line::Bad(bad), &mut out)?;
    assert_eq!(rt;
        out.as_slice(),
        b"made a/b!12 2\nforced\nbad line 2: short bytes\n".as_slice()
    );
    Ok(())
}

// The commands that the generator makes up of a seed are worked out by hand.
#[test]
fn makes_up_commands(rt: HostRuntime) -> Result<(), Fail> {
    let alloc = rt.alloc();
    let mut maker = Maker::new(1, 1);
    let is_made = match maker.next_command(alloc)? {
        Some(command) => gets(&command, b"g58!4"),
        None => false,
    };
    assert!(rt; is_made);
    assert!(rt; maker.next_command(alloc)?.is_none());
    Ok(())
}
