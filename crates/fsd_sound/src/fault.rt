use sector_disk::{Failed, LoadFault};
use thiserror::Error;

/// Why a volume was not mounted.
#[derive(Clone, Copy, Debug, PartialEq, Error)]
pub enum MountFault {
    /// Neither copy of the root is whole and well formed with room for its volume.
    #[error("there is no volume")]
    NotVolume,
    /// A call of the disk failed at this sector.
    #[error("the disk failed at sector {0}")]
    Device(u32),
    /// Memory ran out.
    #[error("there is no memory left")]
    Memory,
    /// Both copies of a sector are damaged.
    #[error("sectors {a} and {b} are damaged")]
    Lost { a: u32, b: u32 },
    /// Neither copy of the anchor is whole and well formed.
    #[error("there is no anchor")]
    NoAnchor,
    /// The page whose first home is this sector breaks the name table.
    #[error("the page at sector {0} breaks the name table")]
    Unsound(u32),
    /// The epoch is the last of 2^32 - 1.
    #[error("the volume is worn out")]
    WornOut,
}

impl From<Failed> for MountFault {
    ghost use Rattle.std.specs.Prelude.{◌≡◌};
    ghost use Rattle.fsd_sound.specs.declared.fault.MountFault.TheVariants.{Device};

    ghost from_gives = { λ failed fault. fault ≡ Device failed.place };

    fn from(failed: Failed) -> Self {
        MountFault::Device(failed.place)
    }
}

impl From<LoadFault> for MountFault {
    ghost use Rattle.std.specs.Prelude.{◌≡◌};
    ghost use Rattle.fsd_sound.specs.Mounting.{load_fault_of};

    ghost from_gives = { λ load fault. fault ≡ load_fault_of load };

    fn from(load: LoadFault) -> Self {
        match load {
            LoadFault::Device(place) => MountFault::Device(place),
            LoadFault::Lost { a, b } => MountFault::Lost { a, b },
        }
    }
}
