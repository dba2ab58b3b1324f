//! Why a page can't be brought into memory.
ghost use Rattle.std.specs.Prelude.{◌≡◌};

use sector_disk::LoadFault;
use std::alloc::AllocError;

/// Why a page can't be brought into memory.
#[derive(Clone, Copy, Debug)]
pub enum CacheFault {
    /// It can't be loaded.
    Load(LoadFault),
    /// There is too little memory.
    Memory,
}

impl From<LoadFault> for CacheFault {
    ghost use Rattle.page_cache.specs.declared.fault.CacheFault.TheVariants.{Load};

    ghost from_gives = { λ fault result. result ≡ Load fault };

    fn from(fault: LoadFault) -> CacheFault {
        CacheFault::Load(fault)
    }
}

impl From<AllocError> for CacheFault {
    ghost use Rattle.page_cache.specs.declared.fault.CacheFault.TheVariants.{Memory};

    ghost from_gives = { λ fault result. result ≡ Memory };

    fn from(_fault: AllocError) -> CacheFault {
        CacheFault::Memory
    }
}
