//! A version's leader and its data, written in the order of its runs.
ghost use Rattle.std.specs.Prelude.{◌≡◌, ◌+◌, ◌*◌, ◌≤◌, ◌<◌, ◌^◌, ℕ, All, IsTrue, length, IfErr, OnErr, OnOk};
ghost use Rattle.run_table.specs.RunTable.{sectors_of};
ghost use Rattle.run_table.specs.Space.{all_differ, contains};
ghost use Rattle.fsd_formats.specs.NamePage.{is_entry, sectors_for};
ghost use Rattle.fsd_files.specs.Answers.{HasVersion};
ghost use Rattle.fsd_files.specs.Kept.{filled_slice as slice_of_version};
ghost use Rattle.sector_disk.specs.Calls.{WritesDisk, device_in, failed_at};
ghost use Rattle.sector_disk.specs.Image.{in_weak_run, lay, open_damage, slice_of};
ghost use Rattle.sector_disk.specs.Machine.{Holds, wrote};
ghost use Rattle.sector_disk.specs.Written.{WroteMost};
ghost use Rattle.sector_disk.specs.declared.sector.Sector.TheVariants.{Whole};
ghost use Rattle.version_data.specs.Writing.{WritesIn, part_of};

use crate::leader::leader_bytes;
use fsd_formats::{Entry, Leader};
use run_table::Run;
use sector_disk::{Failed, Machine, SECTOR_BYTES, write_sectors};

/// The most sectors that one write lays side by side.
const MOST_IN_ROW: u32 = 64;

/// Writes a version's leader and then its bytes, the last sector filled up with zeros, in the order of the entry's
/// runs. It takes no memory: up to 64 sectors that follow each other on the disk are one write.
pub fn write_version<M: Machine>(m: &mut M, entry: &Entry, bytes: &[u8]) -> Result<(), Failed>
    requires entry { IsTrue (is_entry entry.now) }
    requires len { entry.now.length ≡ length bytes.now }
    requires differ { IsTrue (all_differ (sectors_of entry.now.runs)) }
    requires in_range { All (λ s. s < (M.report m.old).sectors) (sectors_of entry.now.runs) }

    ensures disk { WritesDisk M.Machine (device_in failed_at result) (WritesIn (contains (sectors_of entry.now.runs))) m.old m.new }
    ensures place { IfErr result (λ failed. IsTrue (contains (sectors_of entry.now.runs) failed.place)) }
    ensures counted { OnOk result (M.tells m.new → M.ledger m.new ≡ wrote (M.ledger m.old) (sectors_for (length bytes.now))) }
    ensures counted_err { OnErr result (M.tells m.new → WroteMost (sectors_for (length bytes.now)) (M.ledger m.old) (M.ledger m.new)) }
    ensures done { OnOk result (M.honest m.new → HasVersion (open_damage (M.now m.new).windows) (M.now m.new).image bytes.now entry.now) }
{
    let leader = leader_bytes(&Leader {
        serial: entry.serial,
        length: entry.length,
        runs: entry.runs.copied(),
    });
    let mut before = 0;
    for run in entry.runs.as_slice() {
        write_run(m, *run, before, &leader, bytes)?;
        before += run.length;
    }
    Ok(())
}

// Writes the sectors of a version that lie in one run, behind so many before it.
fn write_run<M: Machine>(
    m: &mut M,
    run: Run,
    before: u32,
    leader: &[u8; 512],
    bytes: &[u8],
) -> Result<(), Failed>
    requires in_range { run.start + run.length ≤ (M.report m.old).sectors }
    requires small { before + run.length < 2 ^ 32 }

    ensures disk { WritesDisk M.Machine (device_in failed_at result) (WritesIn (in_weak_run record { first = run.start; count = run.length })) m.old m.new }
    ensures place { IfErr result (λ failed. IsTrue (in_weak_run record { first = run.start; count = run.length } failed.place)) }
    ensures counted { OnOk result (M.tells m.new → M.ledger m.new ≡ wrote (M.ledger m.old) run.length) }
    ensures counted_err { OnErr result (M.tells m.new → WroteMost run.length (M.ledger m.old) (M.ledger m.new)) }
    ensures done { OnOk result (M.honest m.new → Holds (M.now m.old) (lay (M.now m.old).image run.start (λ j. Whole (part_of leader.now bytes.now (before + j))) run.length) (M.now m.new)) }
{
    let mut row = [0; SECTOR_BYTES * MOST_IN_ROW as usize];
    let mut done = 0;
    while done < run.length {
        let count = (run.length - done).min(MOST_IN_ROW);
        lay_row(leader, bytes, before + done, count, &mut row);
        write_sectors(m, run.start + done, &row[..512 * count as usize])?;
        done += count;
    }
    Ok(())
}

// Lays sectors of a version side by side.
fn lay_row(leader: &[u8; 512], bytes: &[u8], first: u32, count: u32, row: &mut [u8])
    requires room { 512 * count ≤ length row.old }
    requires small { first + count < 2 ^ 32 }

    ensures size { length row.new ≡ length row.old }
    ensures laid { (j : ℕ) → j < count → slice_of row.new j ≡ part_of leader.now bytes.now (first + j) }
{
    for j in 0..count {
        let at = 512 * j as usize;
        row[at..at + 512].copy_from_slice(&part_at(leader, bytes, first + j));
    }
}

// The bytes of a version's sector.
fn part_at(leader: &[u8; 512], bytes: &[u8], k: u32) -> [u8; 512]
    ensures { result ≡ part_of leader.now bytes.now k }
{
    if k == 0 {
        *leader
    } else {
        slice_at(bytes, k - 1)
    }
}

/// A slice of the bytes, filled up with zeros.
pub(crate) fn slice_at(bytes: &[u8], k: u32) -> [u8; 512]
    ensures { result ≡ slice_of_version bytes.now k }
{
    let mut b = [0; 512];
    let (_, rest) = bytes.split_at(bytes.len().min(512 * k as usize));
    let n = rest.len().min(512);
    let (slice, _) = rest.split_at(n);
    b[..n].copy_from_slice(slice);
    b
}
