//! What came of commands, counted as they are done.
ghost use Rattle.std.specs.Prelude.{◌≡◌, ◌<◌, ◌≤◌, ◌^◌, ◌-◌, IfErr, IfOk};
ghost use Rattle.fsd_texts.specs.declared.fault.Fault.TheVariants as Ends;
ghost use Rattle.fsd_texts.specs.declared.line.Line.TheVariants as Says;
ghost use Rattle.fsd_texts.specs.declared.script_command.ScriptCommand.TheVariants.{Plain};
ghost use Rattle.fsd_runs.specs.Errands.{bytes_moved, bytes_read, is_deleted, is_kept, is_made, is_read, is_refused};
ghost use Rattle.volume_turns.specs.Tally.{counted, nothing_done};

use fsd_files::Reply;
use fsd_texts::{Command, Counts, Fault, Line};
use std::marker::Model;

/// Counts in which no way of answering has more than were done.
#[derive(Drop)]
pub(crate) struct Tally {
    counts: Counts,
}

impl Model for Tally {
    ghost use Rattle.fsd_texts.specs.declared.counts.Counts.{Counts};
    ghost use Rattle.volume_turns.specs.Tally.{IsTally};

    ghost Value = { Counts };

    ghost view = { λ t. t.counts };

    ghost invariant = { λ t. IsTally t.counts };
}

impl Tally {
    /// Nothing was done yet.
    pub(crate) fn new() -> Tally
        ensures { result ≡ nothing_done }
    {
        let counts = Counts {
            count: 0,
            made: 0,
            deleted: 0,
            kept: 0,
            read: 0,
            bytes: 0,
            refused: 0,
        };
        Tally { counts }
    }

    /// Counts one more. Where the bytes are 2^64 or more there is no memory for their sum.
    pub(crate) fn count(&self, c: &Command, answer: &Reply) -> Result<Tally, Fault>
        requires { self.now.count < 2 ^ 32 - 1 }
        ensures ok { IfOk result (λ t. t ≡ counted self.now (Plain c.now) answer.now) }
        ensures err { IfErr result (λ fault. fault ≡ Ends.Memory) }
    {
        let so_far = self.counts;
        let Some(bytes) = so_far.bytes.checked_add(bytes_moved(c, answer)) else {
            return Err(Fault::Memory);
        };
        let counts = Counts {
            count: so_far.count + 1,
            made: so_far.made + is_made(answer),
            deleted: so_far.deleted + is_deleted(answer),
            kept: so_far.kept + is_kept(answer),
            read: so_far.read + is_read(answer),
            bytes,
            refused: so_far.refused + is_refused(answer),
        };
        Ok(Tally { counts })
    }

    /// The line that tells it.
    pub(crate) fn line(&self) -> Line
        ensures { result ≡ Says.Generated self.now }
    {
        Line::Generated(self.counts)
    }
}

fn is_made(answer: &Reply) -> u32
    ensures is { result ≡ is_made answer.now }
    ensures one { result ≤ 1 }
{
    match answer {
        Reply::Made { .. } => 1,
        _ => 0,
    }
}

fn is_deleted(answer: &Reply) -> u32
    ensures is { result ≡ is_deleted answer.now }
    ensures one { result ≤ 1 }
{
    match answer {
        Reply::Deleted(_) => 1,
        _ => 0,
    }
}

fn is_kept(answer: &Reply) -> u32
    ensures is { result ≡ is_kept answer.now }
    ensures one { result ≤ 1 }
{
    match answer {
        Reply::Kept { .. } => 1,
        _ => 0,
    }
}

fn is_read(answer: &Reply) -> u32
    ensures is { result ≡ is_read answer.now }
    ensures one { result ≤ 1 }
{
    match answer {
        Reply::Bytes { .. } => 1,
        _ => 0,
    }
}

fn is_refused(answer: &Reply) -> u32
    ensures is { result ≡ is_refused answer.now }
    ensures one { result ≤ 1 }
{
    match answer {
        Reply::Refused(_) | Reply::DamagedAt { .. } => 1,
        _ => 0,
    }
}

// The bytes of a version that was read.
fn bytes_read(answer: &Reply) -> u64
    ensures { result ≡ bytes_read answer.now }
{
    match answer {
        Reply::Bytes { bytes, .. } => bytes.as_slice().len() as u64,
        _ => 0,
    }
}

// The bytes of a version that was made or read.
fn bytes_moved(c: &Command, answer: &Reply) -> u64
    ensures { result ≡ bytes_moved c.now answer.now }
{
    match c {
        Command::Put { bytes, .. } => match answer {
            Reply::Made { .. } => bytes.as_slice().len() as u64,
            _ => bytes_read(answer),
        },
        _ => bytes_read(answer),
    }
}
