//! Reads the commands of a script from the input.
ghost use Rattle.std.specs.Prelude.{◌≡◌, ◌<◌, ◌≤◌, ◌+◌, ◌^◌, IfOk, IfErr, IfSome, OnOk, OnErr, Err, None, drop, true, false, vec_len};
ghost use Rattle.sector_disk.specs.Calls.{LeavesDisk};
ghost use Rattle.sector_disk.specs.Machine.{Wears};
ghost use Rattle.fsd_texts.specs.Script.{command_at, ends_early};
ghost use Rattle.script_text.specs.Reading.{AnswersAgain, AnswersScript, CountsOn, GivesFirst, GivesWhole, ReadsFurther, TakesNoBytes, end_answer, end_after, end_by, fresh, script_left};
ghost use Rattle.script_text.specs.Taking.{ComesIn, TakesBytes, IsUntaken, MovesInput, input_in};

use crate::command::command_of;
use crate::fault::{BodyFault, ScriptFault};
use fsd_texts::{BadLine, Cause, End, ScriptCommand};
use sector_disk::Machine;
use std::alloc::Global;
use std::marker::Model;

/// The most bytes of a script: 2^24.
const MOST_INPUT: usize = 1 << 24;

/// The most bytes that one call of the machine takes.
const PIECE: usize = 4096;

/// Reads a script from the input, a command at a time.
#[derive(Drop)]
pub struct Reader {
    // What was taken and is kept. The bytes before `start` are given.
    bytes: Vec<u8>,
    start: usize,
    // How many bytes were taken in all, and how many commands were given.
    taken: usize,
    given: u32,
    end: Option<End>,
}

impl Model for Reader {
    ghost use Rattle.std.specs.Prelude.{drop};
    ghost use Rattle.script_text.specs.Reading.{Reading, IsReading};

    ghost Value = { Reading };

    ghost view = { λ r. record { waiting = drop r.start r.bytes.items; taken = r.taken; given = r.given; end = r.end } };

    ghost invariant = { λ r. IsReading r.bytes.items r.start r.taken r.given r.end };
}

impl Reader {
    /// Nothing is taken yet.
    pub fn new(alloc: Global) -> Reader
        ensures { result ≡ fresh }
    {
        Reader {
            bytes: Vec::new(alloc),
            start: 0,
            taken: 0,
            given: 0,
            end: None,
        }
    }

    /// The next command of the script, or None at its end. Once it has ended, in whatever way, the same is answered
    /// again; after a failure of the input or of memory the next call goes on.
    pub fn next_command<M: Machine>(
        &mut self,
        alloc: Global,
        m: &mut M,
    ) -> Result<Option<ScriptCommand>, ScriptFault>
        ensures script { M.tells m.new → AnswersScript result (script_left self.old (M.ledger m.old).input) (script_left self.new (M.ledger m.new).input) }
        ensures counts { CountsOn result self.old self.new }
        ensures again { IfSome self.old.end (λ end. AnswersAgain result end self.old self.new m.old m.new) }
        ensures moves { M.tells m.new → MovesInput result self.old self.new (M.ledger m.old) (M.ledger m.new) }
        ensures whole { GivesWhole result self.new.waiting }
        ensures calls { LeavesDisk M.Machine (input_in result) false Wears m.old m.new }
    {
        while self.end.is_none() {
            match self.front(alloc) {
                Ok(command) => return Ok(Some(command)),
                Err(BodyFault::Memory) => return Err(ScriptFault::Memory),
                Err(BodyFault::Bad(cause)) => self.go_on(m, cause)?,
            }
        }
        answer(self.end)
    }

    // The command that the waiting bytes begin with, which is given.
    fn front(&mut self, alloc: Global) -> Result<ScriptCommand, BodyFault>
        requires { self.old.end ≡ None }
        ensures { GivesFirst self.old result self.new }
    {
        let (command, used) = command_of(alloc, &self.bytes[self.start..])?;
        self.start += used;
        self.given += 1;
        Ok(command)
    }

    // Takes more bytes where these begin with no command for want of more, or ends.
    fn go_on<M: Machine>(&mut self, m: &mut M, cause: Cause) -> Result<(), ScriptFault>
        requires open { self.old.end ≡ None }
        requires no_command { command_at self.old.waiting ≡ Err cause }
        ensures script { M.tells m.new → script_left self.new (M.ledger m.new).input ≡ script_left self.old (M.ledger m.old).input }
        ensures on { OnOk result (ReadsFurther self.old self.new) }
        ensures none { OnErr result (TakesNoBytes self.old self.new) }
        ensures grows { M.tells m.new → TakesBytes self.old self.new (M.ledger m.old) (M.ledger m.new) }
        ensures cause { IfErr result IsUntaken }
        ensures calls { LeavesDisk M.Machine (input_in result) false Wears m.old m.new }
    {
        if needs_more(cause) {
            self.take_more(m, cause)
        } else {
            self.end = Some(self.end_by(cause));
            Ok(())
        }
    }

    // Takes bytes of the input, as many as come and may be read. Where all that may be read were taken, it takes one
    // more.
    fn take_more<M: Machine>(&mut self, m: &mut M, cause: Cause) -> Result<(), ScriptFault>
        requires open { self.old.end ≡ None }
        requires no_command { command_at self.old.waiting ≡ Err cause }
        requires early { ends_early cause ≡ true }
        ensures script { M.tells m.new → script_left self.new (M.ledger m.new).input ≡ script_left self.old (M.ledger m.old).input }
        ensures on { OnOk result (ReadsFurther self.old self.new) }
        ensures none { OnErr result (TakesNoBytes self.old self.new) }
        ensures grows { M.tells m.new → TakesBytes self.old self.new (M.ledger m.old) (M.ledger m.new) }
        ensures cause { IfErr result IsUntaken }
        ensures calls { LeavesDisk M.Machine (input_in result) false Wears m.old m.new }
    {
        let end = self.end_by(cause);
        close_up(&mut self.bytes, self.start);
        self.start = 0;
        let room = (MOST_INPUT - self.taken).min(PIECE).max(1);
        let count = take_behind(&mut self.bytes, room, m)?;
        self.taken += count;
        self.end = end_after(end, count, self.taken);
        Ok(())
    }

    // The end, where no more bytes come.
    fn end_by(&self, cause: Cause) -> End
        ensures { result ≡ end_by self.now cause }
    {
        if self.start == self.bytes.len() {
            End::Done
        } else {
            End::Bad(BadLine {
                line: self.given + 1,
                cause,
            })
        }
    }
}

// The end, if it is known after so many more bytes came, of so many in all.
fn end_after(end: End, count: usize, taken: usize) -> Option<End>
    ensures { result ≡ end_after end count taken }
{
    if count == 0 {
        Some(end)
    } else if taken > MOST_INPUT {
        Some(End::TooLong)
    } else {
        None
    }
}

// Drops so many first bytes.
fn close_up(bytes: &mut Vec<u8>, start: usize)
    requires { start ≤ vec_len bytes.old }
    ensures { bytes.new.items ≡ drop start bytes.old.items }
{
    if start > 0 {
        let left = bytes.len() - start;
        bytes.copy_within(start.., 0);
        bytes.truncate(left);
    }
}

// Takes at most so many bytes of the input behind the others, and answers how many.
fn take_behind<M: Machine>(
    bytes: &mut Vec<u8>,
    room: usize,
    m: &mut M,
) -> Result<usize, ScriptFault>
    requires some { 0 < room }
    requires fits { vec_len bytes.old + room < 2 ^ 32 }
    ensures comes { IfOk result (λ count. M.tells m.new → ComesIn bytes.old.items bytes.new.items count (M.ledger m.old) (M.ledger m.new)) }
    ensures len { IfOk result (λ count. (count ≤ room) × (vec_len bytes.new ≡ vec_len bytes.old + count)) }
    ensures kept { OnErr result (bytes.new.items ≡ bytes.old.items) }
    ensures ledger { OnErr result (M.tells m.new → M.ledger m.new ≡ M.ledger m.old) }
    ensures cause { IfErr result IsUntaken }
    ensures calls { LeavesDisk M.Machine (input_in result) false Wears m.old m.new }
{
    let held = bytes.len();
    if bytes.resize(held + room, 0).is_err() {
        return Err(ScriptFault::Memory);
    }
    let came = m.take(bytes.slice_mut(held..));
    let Ok(count) = came else {
        bytes.truncate(held);
        return Err(ScriptFault::Input);
    };
    bytes.truncate(held + count);
    Ok(count)
}

// Whether more bytes may make a command of bytes that are none for this cause.
fn needs_more(cause: Cause) -> bool
    ensures { result ≡ ends_early cause }
{
    matches!(cause, Cause::NoNewline | Cause::ShortBytes)
}

// What is answered where the script has ended.
fn answer(end: Option<End>) -> Result<Option<ScriptCommand>, ScriptFault>
    ensures { IfSome end (λ end. result ≡ end_answer end) }
{
    match end {
        None | Some(End::Done) => Ok(None),
        Some(End::Bad(bad)) => Err(ScriptFault::Bad(bad)),
        Some(End::TooLong) => Err(ScriptFault::TooLong),
    }
}
