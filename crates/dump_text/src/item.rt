//! The versions of a dump.
ghost use Rattle.std.specs.Prelude.{◌≡◌};
ghost use Rattle.dump_text.specs.declared.item.DumpRead.TheVariants.{Memory};

use fsd_bytes::Key;
use std::alloc::{AllocError, AllocFailed};
use thiserror::Error;

/// A version in a dump, and where its bytes lie in that.
#[derive(Debug, Drop)]
pub struct Item {
    pub key: Key,
    pub keep: u32,
    /// 0: a version that was put.
    pub kind: u8,
    pub start: usize,
    pub length: u32,
}

/// Why bytes are not read as a dump.
#[derive(Clone, Copy, Debug, PartialEq, Eq, Error)]
pub enum DumpRead {
    /// They are none: so many of them, from the front, begin one.
    #[error("no dump from {0} on")]
    Bad(usize),
    /// Memory was refused.
    #[error("memory was refused")]
    Memory,
}

impl From<AllocError> for DumpRead {
    ghost from_gives = { λ _ e. e ≡ Memory };

    fn from(_: AllocError) -> DumpRead {
        DumpRead::Memory
    }
}

impl<T: Drop> From<AllocFailed<T>> for DumpRead {
    ghost from_gives = { λ _ e. e ≡ Memory };

    fn from(_: AllocFailed<T>) -> DumpRead {
        DumpRead::Memory
    }
}
