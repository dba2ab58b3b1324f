//! One read of a sector, one write of whole sectors and one growth of the image, which say what any call keeps.
ghost use Rattle.std.specs.Prelude.{◌≡◌, ◌<◌, ◌≤◌, ◌+◌, ◌/◌, ◌%◌, length, Ok, IfErr, IfOk, OnOk, OnErr};
ghost use Rattle.sector_disk.specs.Image.{sector_at, stand};
ghost use Rattle.sector_disk.specs.Machine.{Extends, Grows, Holds, IsSynced, Shows, Tears, Writes, wrote};
ghost use Rattle.sector_disk.specs.Calls.{GrowsDisk, OnlyReads, WritesDisk, as_sector, device_in, failed_at, told_behind};

use crate::{Failed, Machine, Seen};

/// Reads one sector into `buf`, which stays as it was where the sector is damaged.
pub fn read_into<M: Machine>(m: &mut M, place: u32, buf: &mut [u8; 512]) -> Result<Seen, Failed>
    requires { place < (M.report m.old).sectors }

    ensures reads { OnlyReads M.Machine (device_in failed_at result) m.old m.new }
    ensures shown { IfOk result (λ seen. M.honest m.new → Shows seen (sector_at (M.now m.new).image place) buf.new) }
    ensures kept { result ≡ Ok Seen.Damaged → buf.new ≡ buf.old }
{
    m.read(place, buf)
}

/// The bytes of a sector, if it is whole.
pub fn read_sector<M: Machine>(m: &mut M, place: u32) -> Result<Option<[u8; 512]>, Failed>
    requires { place < (M.report m.old).sectors }

    ensures reads { OnlyReads M.Machine (device_in failed_at result) m.old m.new }
    ensures shown { IfOk result (λ bytes. M.honest m.new → sector_at (M.now m.new).image place ≡ as_sector bytes) }
{
    let mut buf = [0; 512];
    match read_into(m, place, &mut buf)? {
        Seen::Whole => Ok(Some(buf)),
        Seen::Damaged => Ok(None),
    }
}

/// Writes one or more whole sectors, ascending, from `place` on, by one write.
pub fn write_sectors<M: Machine>(m: &mut M, place: u32, bytes: &[u8]) -> Result<(), Failed>
    requires whole { length bytes.now % 512 ≡ 0 }
    requires some { 0 < length bytes.now }
    requires in_range { place + length bytes.now / 512 ≤ (M.report m.old).sectors }

    ensures writes { WritesDisk M.Machine (device_in failed_at result) (Tears place bytes.now) m.old m.new }
    ensures place { IfErr result (λ failed. failed.place ≡ place) }
    ensures counted { OnOk result (M.tells m.new → M.ledger m.new ≡ wrote (M.ledger m.old) (length bytes.now / 512)) }
    ensures counted_err { OnErr result (M.tells m.new → M.ledger m.new ≡ M.ledger m.old) }
    ensures written { OnOk result (M.honest m.new → Writes place bytes.now (M.now m.old) (M.now m.new)) }
    ensures done { OnOk result (M.honest m.new → Holds (M.now m.old) (stand (M.now m.old).image place bytes.now (length bytes.now / 512)) (M.now m.new)) }
{
    m.write(place, bytes)
}

/// Gives the image so many sectors at least, behind a sync.
pub fn extend_image<M: Machine>(m: &mut M, sectors: u32) -> Result<(), Failed>
    requires { 0 < (M.report m.old).sectors }

    ensures grows { GrowsDisk M.Machine (device_in failed_at result) (Grows sectors) m.old m.new }
    ensures place { IfErr result (λ failed. failed.place ≡ 0) }
    ensures sectors { (M.report m.new).sectors ≡ told_behind result (M.report m.old).sectors sectors }
    ensures ledger { M.tells m.new → M.ledger m.new ≡ M.ledger m.old }
    ensures synced { OnOk result (M.honest m.new → IsSynced (M.now m.new)) }
    ensures done { OnOk result (M.honest m.new → Extends sectors (M.now m.old) (M.now m.new)) }
{
    m.extend(sectors)
}
