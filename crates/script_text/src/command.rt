//! The command that bytes begin with.
ghost use Rattle.std.specs.Prelude.{◌≡◌, ◌<◌, IfOk, MatchResult, Ok, Err, length};
ghost use Rattle.script_text.specs.Front.{BeginsWithCommand, BehindLine, bytes_in};

use crate::fault::BodyFault;
use crate::line::{asking_of, line_of};
use fsd_texts::{Asking, Bytes, Call, Cause, Command, ScriptCommand};
use std::alloc::Global;

/// The command that the bytes begin with, and how many of them it takes.
pub fn command_of(alloc: Global, body: &[u8]) -> Result<(ScriptCommand, usize), BodyFault>
    ensures begins { BeginsWithCommand body.now result }
    ensures some { IfOk result (λ x. 0 < x.1) }
{
    let line = line_of(body)?;
    let asking = asking_of(alloc, line)?;
    let behind = line.len() + 1;
    let (command, used) = whole_command(alloc, asking, &body[behind..])?;
    Ok((command, behind + used))
}

// The command that is asked for, and how many of the bytes behind its line it takes.
fn whole_command(
    alloc: Global,
    asking: Asking,
    rest: &[u8],
) -> Result<(ScriptCommand, usize), BodyFault>
    ensures { BehindLine asking rest.now result }
{
    match asking {
        Asking::Plainly(command) => Ok((ScriptCommand::Plain(command), 0)),
        Asking::Put { name, length, keep } => {
            let length = length as usize;
            let bytes = Bytes::copied(alloc, bytes_of(rest, length)?)?;
            let command = Command::Put { name, bytes, keep };
            Ok((ScriptCommand::Plain(command), length + 1))
        }
        Asking::OfClient { client, call } => Ok((ScriptCommand::OfClient { client, call }, 0)),
        Asking::Piece { client, length } => {
            let length = length as usize;
            let bytes = Bytes::copied(alloc, bytes_of(rest, length)?)?;
            let call = Call::Piece(bytes);
            Ok((ScriptCommand::OfClient { client, call }, length + 1))
        }
    }
}

// So many bytes, with a newline behind them.
fn bytes_of(rest: &[u8], count: usize) -> Result<&[u8], Cause>
    ensures bytes { MatchResult result (λ bytes. bytes_in rest.now count ≡ Ok bytes.now) (λ cause. bytes_in rest.now count ≡ Err cause) }
    ensures within { IfOk result (λ _. count < length rest.now) }
{
    if rest.len() <= count {
        return Err(Cause::ShortBytes);
    }
    if rest[count] != b'\n' {
        return Err(Cause::NoNewlineAfterBytes);
    }
    Ok(&rest[..count])
}
