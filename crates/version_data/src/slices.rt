//! A version that is written in parts: slices of its bytes, and its leader.
ghost use Rattle.std.specs.Prelude.{◌≡◌, ◌+◌, ◌-◌, ◌^◌, ◌≤◌, ◌<◌, All, IsTrue, length, take, true, IfErr, OnErr, OnOk};
ghost use Rattle.std.specs.List.{AllZip};
ghost use Rattle.run_table.specs.RunTable.{sectors_of};
ghost use Rattle.run_table.specs.Space.{all_differ, contains};
ghost use Rattle.fsd_formats.specs.NamePage.{is_entry, sectors_for};
ghost use Rattle.fsd_files.specs.Answers.{HasLeader};
ghost use Rattle.fsd_files.specs.Disk.{Has};
ghost use Rattle.fsd_files.specs.Kept.{data_sectors, filled_slices};
ghost use Rattle.sector_disk.specs.Calls.{WritesDisk, device_in, failed_at};
ghost use Rattle.sector_disk.specs.Image.{open_damage};
ghost use Rattle.sector_disk.specs.Machine.{wrote};
ghost use Rattle.sector_disk.specs.Written.{WroteMost};
ghost use Rattle.version_data.specs.Writing.{WritesIn, slices_at};

use crate::leader::leader_bytes;
use crate::single::write_one;
use crate::writing::slice_at;
use fsd_formats::{Entry, Leader};
use run_table::Runs;
use sector_disk::{Failed, Machine};

/// Writes bytes of a version into its data sectors, from one of its slices on, the last sector filled up with zeros. It
/// takes no memory.
pub fn write_slices<M: Machine>(
    m: &mut M,
    runs: &Runs,
    first: u32,
    bytes: &[u8],
) -> Result<(), Failed>
    requires runs { All (λ r. r.start + r.length ≤ 2 ^ 32) runs.now }
    requires differ { IsTrue (all_differ (sectors_of runs.now)) }
    requires in_range { All (λ s. s < (M.report m.old).sectors) (sectors_of runs.now) }
    requires small { length (sectors_of runs.now) < 2 ^ 32 }
    requires fits { first + (sectors_for (length bytes.now) - 1) ≤ length (data_sectors runs.now) }

    ensures disk { WritesDisk M.Machine (device_in failed_at result) (WritesIn (contains (slices_at runs.now first (length bytes.now)))) m.old m.new }
    ensures place { IfErr result (λ failed. IsTrue (contains (slices_at runs.now first (length bytes.now)) failed.place)) }
    ensures counted { OnOk result (M.tells m.new → M.ledger m.new ≡ wrote (M.ledger m.old) (sectors_for (length bytes.now) - 1)) }
    ensures counted_err { OnErr result (M.tells m.new → WroteMost (sectors_for (length bytes.now) - 1) (M.ledger m.old) (M.ledger m.new)) }
    ensures done { OnOk result (M.honest m.new → AllZip (Has (open_damage (M.now m.new).windows) (M.now m.new).image) (filled_slices bytes.now) (slices_at runs.now first (length bytes.now))) }
{
    let count = bytes.len().div_ceil(512) as u32;
    let mut done = 0;
    while done < count {
        let place = runs.sector(first + done + 1).unwrap();
        let slice = slice_at(bytes, done);
        write_one(m, place, &slice)?;
        done += 1;
    }
    Ok(())
}

/// Writes the leader of a version.
pub fn write_leader<M: Machine>(m: &mut M, entry: &Entry) -> Result<(), Failed>
    requires entry { is_entry entry.now ≡ true }
    requires runs { All (λ r. r.start + r.length ≤ 2 ^ 32) entry.now.runs }
    requires in_range { All (λ s. s < (M.report m.old).sectors) (sectors_of entry.now.runs) }

    ensures disk { WritesDisk M.Machine (device_in failed_at result) (WritesIn (contains (take 1 (sectors_of entry.now.runs)))) m.old m.new }
    ensures place { IfErr result (λ failed. IsTrue (contains (take 1 (sectors_of entry.now.runs)) failed.place)) }
    ensures counted { OnOk result (M.tells m.new → M.ledger m.new ≡ wrote (M.ledger m.old) 1) }
    ensures counted_err { OnErr result (M.tells m.new → WroteMost 1 (M.ledger m.old) (M.ledger m.new)) }
    ensures led { OnOk result (M.honest m.new → HasLeader (open_damage (M.now m.new).windows) (M.now m.new).image entry.now) }
{
    let place = entry.runs.sector(0).unwrap();
    let bytes = leader_bytes(&Leader {
        serial: entry.serial,
        length: entry.length,
        runs: entry.runs.copied(),
    });
    write_one(m, place, &bytes)
}
