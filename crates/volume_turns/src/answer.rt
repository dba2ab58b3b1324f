//! How a refusal is answered.
ghost use Rattle.std.specs.Prelude.{◌≡◌, IfErr, IfOk};
ghost use Rattle.fsd_files.specs.declared.reply.Reply.TheVariants as Said;
ghost use Rattle.volume_turns.specs.Steps.{IsOfCall, ended_by, read_ended_by};

use fsd_bytes::{Key, Refusal};
use fsd_files::Reply;
use fsd_texts::Fault;

// A refusal is said, or ends the run.
pub(crate) fn ended_by(why: Refusal) -> Result<Reply, Fault>
    ensures is { result ≡ ended_by why }
    ensures said { IfOk result (λ a. a ≡ Said.Refused why) }
    ensures fault { IfErr result IsOfCall }
{
    match why {
        Refusal::Device(s) => Err(Fault::Device(s)),
        Refusal::Down(s) => Err(Fault::Device(s)),
        Refusal::Lost { a, b } => Err(Fault::Lost { a, b }),
        Refusal::Unsound(s) => Err(Fault::Unsound(s)),
        Refusal::WornOut => Err(Fault::WornOut),
        Refusal::Memory => Err(Fault::Memory),
        other => Ok(Reply::Refused(other)),
    }
}

// So it is of a read, whose damaged sector is said.
pub(crate) fn read_ended_by(key: &Key, why: Refusal) -> Result<Reply, Fault>
    ensures is { result ≡ read_ended_by key.now why }
    ensures fault { IfErr result IsOfCall }
{
    match why {
        Refusal::Damaged(sector) => Ok(Reply::DamagedAt {
            key: key.copied(),
            sector,
        }),
        other => ended_by(other),
    }
}
