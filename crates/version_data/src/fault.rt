//! Why a version's data can't be read.
ghost use Rattle.std.specs.Prelude.{◌≡◌};

use fsd_bytes::Refusal;
use sector_disk::Failed;

/// Why bytes of a version can't be read.
#[derive(Clone, Copy)]
pub enum DataFault {
    /// A call of the disk failed at this place.
    Device(u32),
    /// This sector is damaged, and none of the range before it is.
    Damaged(u32),
}

impl From<Failed> for DataFault {
    ghost use Rattle.version_data.specs.declared.fault.DataFault.TheVariants.{Device};

    ghost from_gives = { λ failed fault. fault ≡ Device failed.place };

    fn from(failed: Failed) -> DataFault {
        DataFault::Device(failed.place)
    }
}

impl From<DataFault> for Refusal {
    ghost use Rattle.version_data.specs.Reading.{refusal_of};

    ghost from_gives = { λ fault refusal. refusal ≡ refusal_of fault };

    fn from(fault: DataFault) -> Refusal {
        match fault {
            DataFault::Device(place) => Refusal::Device(place),
            DataFault::Damaged(sector) => Refusal::Damaged(sector),
        }
    }
}
