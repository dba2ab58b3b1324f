//! Bytes of versions.
ghost use Rattle.std.specs.Prelude.{◌≡◌, ◌+◌, ◌^◌, ◌<◌, ◌≤◌, ℕ, All, Some, Err, IfErr, length, true};
ghost use Rattle.run_table.specs.RunTable.{sectors_of};
ghost use Rattle.fsd_bytes.specs.declared.refusal.Refusal.TheVariants as Why;
ghost use Rattle.sector_disk.specs.Calls.{OnlyReads, device_in};
ghost use Rattle.fsd_formats.specs.NamePage.{is_entry};
ghost use Rattle.fsd_files.specs.Answers.{entry_reply};
ghost use Rattle.fsd_files.specs.Disk.{Sectors};
ghost use Rattle.fsd_files.specs.Files.{File};
ghost use Rattle.fsd_files.specs.Kept.{KeptIn};
ghost use Rattle.volume_contract.specs.Ends.{LooksUp, ReadsRange, device_of, found_one};
ghost use Rattle.volume_contract.specs.Order.{InOrder, IsData, entry_steps};
ghost use Rattle.volume_contract.specs.State.{Known, Stands, volume_of};
ghost use Rattle.volume_laws.specs.State.{IsMemoryOf, state};
ghost use Rattle.table_volume.specs.Looks.{CountsRange, GivesEntry, IsDamagedOf};

use crate::Volume;
use fsd_bytes::{Key, Refusal};
use fsd_formats::Entry;
use sector_disk::Machine;
use version_data::read_range;

impl Volume {
    /// The entry of a version, whose sectors are taken.
    pub(crate) fn version<M: Machine>(&mut self, m: &mut M, key: &Key) -> Result<Entry, Refusal>
        requires { (state self.old).layout.sectors ≤ (M.report m.old).sectors }
        ensures order { InOrder (entry_steps (state self.old)) m.old m.new result }
        ensures disk { OnlyReads M.Machine (device_in device_of result) m.old m.new }
        ensures state { state self.new ≡ state self.old }
        ensures stands { M.honest m.new → (k : Known) → Stands state IsMemoryOf self.old k (M.now m.old) → Stands state IsMemoryOf self.new k (M.now m.new) }
        ensures gives { GivesEntry M.Machine self.old self.new m.old m.new key.now result }
        ensures done { M.honest m.new → (k : Known) → Stands state IsMemoryOf self.old k (M.now m.old) → LooksUp (entry_reply (volume_of k) key.now) (found_one result) }
    {
        self.attest();
        self.is_up()?;
        match self.find(m, key)? {
            Some(found) => self.met_entry(found.entry, found.page),
            None => Err(Refusal::NoSuch),
        }
    }
}

/// Reads bytes of a version from a place on, as many as there are and the buffer has room for, and answers how many.
pub(crate) fn read_version<M: Machine>(
    m: &mut M,
    e: &Entry,
    from: u32,
    buf: &mut [u8],
) -> Result<u32, Refusal>
    requires good { is_entry e.now ≡ true }
    requires runs { All (λ r. r.start + r.length ≤ 2 ^ 32) e.now.runs }
    requires within { All (λ s. s < (M.report m.old).sectors) (sectors_of e.now.runs) }
    ensures disk { OnlyReads M.Machine (device_in device_of result) m.old m.new }
    ensures cause { IfErr result IsData }
    ensures damaged { (s : ℕ) → result ≡ Err (Why.Damaged s) → M.honest m.new → IsDamagedOf e.now.runs (M.now m.new).image s }
    ensures range { CountsRange M.Machine e.now from (length buf.old) m.old m.new result }
    ensures gives { M.honest m.new → (file : File) (hurt : Sectors) → e.now.length ≡ length file.bytes → KeptIn (M.now m.old).image hurt file.bytes e.now.runs →
        ReadsRange (M.now m.old).image (M.now m.new).image (Some file) (Some e.now) from buf.old buf.new result }
{
    if from >= e.length {
        return Ok(0);
    }
    let room = buf.len().min(e.length as usize) as u32;
    let n = (e.length - from).min(room);
    read_range(m, &e.runs, from, n, buf)?;
    Ok(n)
}
