//! The bytes of a version out of its sectors.
ghost use Rattle.std.specs.Prelude.{◌≡◌, ◌+◌, ◌-◌, ◌*◌, ◌^◌, ◌≤◌, ◌<◌, All, drop, length, IfErr, OnOk};
ghost use Rattle.run_table.specs.RunTable.{sectors_of};
ghost use Rattle.sector_disk.specs.Calls.{OnlyReads, device_in};
ghost use Rattle.version_data.specs.Reading.{GivesRange, NamesFirst, data_failed_at};

use crate::DataFault;
use run_table::Runs;
use sector_disk::{Machine, read_sector};

/// Reads `n` bytes of a version, from byte `from` of it on, into the front of `buf`. The first sector of `runs` is the
/// leader's. Where it fails `buf` may have changed.
pub fn read_range<M: Machine>(
    m: &mut M,
    runs: &Runs,
    from: u32,
    n: u32,
    buf: &mut [u8],
) -> Result<(), DataFault>
    requires runs { All (λ r. r.start + r.length ≤ 2 ^ 32) runs.now }
    requires in_range { All (λ s. s < (M.report m.old).sectors) (sectors_of runs.now) }
    requires room { n ≤ length buf.old }
    requires end { from + n ≤ 512 * (length (sectors_of runs.now) - 1) }
    requires small { from + n < 2 ^ 32 }

    ensures disk { OnlyReads M.Machine (device_in data_failed_at result) m.old m.new }
    ensures gives { OnOk result (M.honest m.new → GivesRange (M.now m.old).image runs.now from n buf.old buf.new) }
    ensures damaged { IfErr result (λ fault. M.honest m.new → NamesFirst (M.now m.old).image (M.now m.new).image runs.now from n fault) }
    ensures behind { drop n buf.new ≡ drop n buf.old }
    ensures size { length buf.new ≡ length buf.old }
{
    let mut done = 0;
    while done < n {
        let place = runs.sector((from + done) / 512 + 1).unwrap();
        let Some(sector) = read_sector(m, place)? else {
            return Err(DataFault::Damaged(place));
        };
        let at = ((from + done) % 512) as usize;
        let to = done as usize;
        let len = (512 - at).min(n as usize - to);
        buf[to..to + len].copy_from_slice(&sector[at..at + len]);
        done += len as u32;
    }
    Ok(())
}
