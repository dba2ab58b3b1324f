//! Why a dump is not said, or not to its end.
ghost use Rattle.std.specs.Prelude.{◌≡◌};
ghost use Rattle.volume_dump.specs.Told.{told_as};

use fsd_bytes::{Key, Refusal};
use thiserror::Error;

/// Why a dump is not said, or not to its end.
#[derive(Debug, Drop, Error)]
pub enum DumpFault {
    /// The volume is down, the device has failed, both copies of what stands twice are damaged (the root's, the anchor's,
    /// or a name page's), or a page breaks the name table: Down, Device, Lost or Unsound, and no other. A volume that
    /// stands gives Device alone.
    #[error("{0}")]
    Refused(Refusal),
    /// These data sectors are damaged, by key and then by place in the file. Nothing was said.
    #[error("data sectors are damaged")]
    Found(Vec<(Key, u32)>),
    /// This data sector was whole at the first reading and is damaged at the second. The versions in front of its own
    /// were said.
    #[error("sector {0} is damaged")]
    Cut(u32),
    /// The output has failed.
    #[error("the output has failed")]
    Output,
    /// Memory was refused.
    #[error("memory was refused")]
    Memory,
}

/// What a refusal is told as.
pub(crate) fn fault_of(why: Refusal) -> DumpFault
    ensures { result ≡ told_as why }
{
    match why {
        Refusal::Memory => DumpFault::Memory,
        Refusal::Damaged(s) => DumpFault::Cut(s),
        other => DumpFault::Refused(other),
    }
}
