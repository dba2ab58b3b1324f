//! One sector of a version: its leader, or one of its data.
ghost use Rattle.std.specs.Prelude.{◌≡◌, ◌↔◌, Some, ◌+◌, ◌^◌, ◌<◌, ◌≤◌, All, length, true, IfErr, IfOk, OnErr, OnOk};
ghost use Rattle.run_table.specs.RunTable.{sectors_of};
ghost use Rattle.fsd_formats.specs.NamePage.{is_entry};
ghost use Rattle.fsd_files.specs.Answers.{HasLeader};
ghost use Rattle.fsd_files.specs.Kept.{data_sectors};
ghost use Rattle.fsd_files.specs.Scrub.{leader_place, FindsLeader, Sees, leader_count, slice_place};
ghost use Rattle.sector_disk.specs.Calls.{OnlyReads, WritesDisk, device_in, failed_at};
ghost use Rattle.sector_disk.specs.Image.{open_damage, stand};
ghost use Rattle.sector_disk.specs.Machine.{Holds, Tears, wrote};
ghost use Rattle.version_data.specs.Single.{WritesLeader};

use crate::leader::leader_bytes;
use fsd_formats::{Entry, Leader};
use sector_disk::{Failed, Machine, Seen, read_sector, write_sectors};

/// How one of the data sectors of a version reads.
pub fn read_slice<M: Machine>(m: &mut M, entry: &Entry, slice: u32) -> Result<Seen, Failed>
    requires entry { is_entry entry.now ≡ true }
    requires runs { All (λ r. r.start + r.length ≤ 2 ^ 32) entry.now.runs }
    requires slice { slice < length (data_sectors entry.now.runs) }
    requires in_range { All (λ s. s < (M.report m.old).sectors) (sectors_of entry.now.runs) }

    ensures disk { OnlyReads M.Machine (device_in failed_at result) m.old m.new }
    ensures sees { IfOk result (λ seen. M.honest m.new → Sees (slice_place entry.now slice) (M.now m.old).image (M.now m.new).image seen) }
{
    let place = entry.runs.sector(slice + 1).unwrap();
    match read_sector(m, place)? {
        Some(_) => Ok(Seen::Whole),
        None => Ok(Seen::Damaged),
    }
}

/// Writes the leader of a version, where it is damaged or differs from the version's entry, and answers whether it did.
pub fn heal_leader<M: Machine>(m: &mut M, entry: &Entry) -> Result<bool, Failed>
    requires entry { is_entry entry.now ≡ true }
    requires runs { All (λ r. r.start + r.length ≤ 2 ^ 32) entry.now.runs }
    requires in_range { All (λ s. s < (M.report m.old).sectors) (sectors_of entry.now.runs) }

    ensures disk { WritesDisk M.Machine (device_in failed_at result) (WritesLeader entry.now) m.old m.new }
    ensures counted { IfOk result (λ written. M.tells m.new → M.ledger m.new ≡ wrote (M.ledger m.old) (leader_count written)) }
    ensures healed { IfOk result (λ written. M.honest m.new → FindsLeader entry.now (M.now m.old) written) }
    ensures led { OnOk result (M.honest m.new → HasLeader (open_damage (M.now m.new).windows) (M.now m.new).image entry.now) }
{
    let place = entry.runs.sector(0).unwrap();
    let bytes = leader_bytes(&Leader {
        serial: entry.serial,
        length: entry.length,
        runs: entry.runs.copied(),
    });
    let read = read_sector(m, place)?;
    if reads_as(read, &bytes) {
        return Ok(false);
    }
    write_one(m, place, &bytes)?;
    Ok(true)
}

/// Writes one sector.
pub(crate) fn write_one<M: Machine>(m: &mut M, place: u32, b: &[u8; 512]) -> Result<(), Failed>
    requires { place < (M.report m.old).sectors }

    ensures writes { WritesDisk M.Machine (device_in failed_at result) (Tears place b.now) m.old m.new }
    ensures place { IfErr result (λ failed. failed.place ≡ place) }
    ensures counted { OnOk result (M.tells m.new → M.ledger m.new ≡ wrote (M.ledger m.old) 1) }
    ensures counted_err { OnErr result (M.tells m.new → M.ledger m.new ≡ M.ledger m.old) }
    ensures long { length b.now ≡ 512 }
    ensures done { OnOk result (M.honest m.new → Holds (M.now m.old) (stand (M.now m.old).image place b.now 1) (M.now m.new)) }
{
    write_sectors(m, place, b)
}

// Whether a sector was read as these bytes.
fn reads_as(read: Option<[u8; 512]>, b: &[u8; 512]) -> bool
    ensures { (result ≡ true) ↔ (read ≡ Some b.now) }
{
    match read {
        Some(bytes) => bytes == *b,
        None => false,
    }
}
