//! The making of versions.
ghost use Rattle.std.specs.Prelude.{◌≡◌, ◌≤◌, ◌<◌, ◌+◌, ◌^◌, ◌||◌, IfErr, IsTrue, MatchResult, None, Some, length};
ghost use Rattle.run_table.specs.RunTable.{sectors_of};
ghost use Rattle.run_table.specs.Space.{contains};
ghost use Rattle.sector_disk.specs.Calls.{WritesDisk, device_in};
ghost use Rattle.sector_set.specs.Area.{AreIn};
ghost use Rattle.fsd_formats.specs.NamePage.{is_entry, max_length, sectors_for};
ghost use Rattle.fsd_bytes.specs.Keys.{is_key};
ghost use Rattle.fsd_files.specs.Answers.{keep_given, size_fault};
ghost use Rattle.volume_contract.specs.Ends.{device_of};
ghost use Rattle.volume_contract.specs.Order.{Follows, IsDeviceIn};
ghost use Rattle.volume_contract.specs.State.{Leaves, WritesWithin, is_worn};
ghost use Rattle.volume_laws.specs.Placing.{IsPlace, drawn_volume, test_steps};
ghost use Rattle.volume_laws.specs.State.{IsMemoryOf, state};
ghost use Rattle.table_volume.specs.Puts.{WritesVersion};

use crate::Volume;
use fsd_bytes::{FileName, Key, Refusal};
use fsd_formats::{Entry, MOST_KEEP, MOST_LENGTH};
use run_table::Runs;
use sector_disk::Machine;
use version_data::write_version;

// From here on no record and no serial is numbered by this mount.
const FIRST_WORN: u32 = 4_294_967_280;

/// The key of a name's first version.
pub(crate) fn first_key(name: &FileName) -> Key
    ensures { IsTrue (is_key result) }
{
    // For the proof alone: its own call tells what a name keeps.
    let _ = name.as_bytes();
    Key {
        name: name.copied(),
        version: 1,
    }
}

// That a version may have these sizes.
fn sizes_fit(keep: Option<u32>, length: usize) -> Result<(), Refusal>
    ensures { MatchResult result (λ x. size_fault (keep_given keep) length ≡ None) (λ why. size_fault (keep_given keep) length ≡ Some why) }
{
    if let Some(keep) = keep {
        if keep > MOST_KEEP {
            return Err(Refusal::KeepTooLarge(keep));
        }
    }
    if length > MOST_LENGTH as usize {
        return Err(Refusal::TooLong(length as u64));
    }
    Ok(())
}

impl Volume {
    /// Whether this mount has used up its serials or its record numbers.
    pub(crate) fn is_worn(&self) -> bool
        ensures { result ≡ is_worn (state self.now) }
    {
        self.serial.count >= FIRST_WORN || self.log.next_number() >= FIRST_WORN
    }

    /// That a put of these sizes may begin.
    pub(crate) fn may_put(&self, keep: Option<u32>, length: usize) -> Result<(), Refusal>
        ensures { Follows (test_steps (state self.now) keep length) result }
    {
        self.is_up()?;
        sizes_fit(keep, length)?;
        if self.is_worn() {
            return Err(Refusal::WornOut);
        }
        Ok(())
    }

    // A new version as it is written: its number and its keep come with the look-up.
    pub(crate) fn draft(&self, name: &FileName, length: u32, runs: Runs) -> Entry
        requires most { length ≤ max_length }
        requires place { IsPlace self.now.map (sectors_for length) runs }
        ensures good { IsTrue (is_entry result) }
        ensures serial { result.serial ≡ self.now.serial }
        ensures length { result.length ≡ length }
        ensures runs { result.runs ≡ runs }
    {
        Entry {
            key: first_key(name),
            keep: 0,
            serial: self.serial,
            length,
            runs,
        }
    }

    /// The next serial is drawn.
    pub(crate) fn draw(&mut self)
        requires { self.old.serial.count + 1 < 2 ^ 32 }
        ensures { self.new ≡ drawn_volume self.old }
    {
        self.serial.count += 1;
    }

    /// Draws the serial of a new version and writes its leader and its data into free sectors, which stay free.
    pub(crate) fn written<M: Machine>(
        &mut self,
        m: &mut M,
        draft: &Entry,
        bytes: &[u8],
    ) -> Result<(), Refusal>
        requires room { (state self.old).layout.sectors ≤ (M.report m.old).sectors }
        requires draft { IsTrue (is_entry draft.now) }
        requires length { draft.now.length ≡ length bytes.now }
        requires free { AreIn self.old.map draft.now.runs }
        requires serials { self.old.serial.count + 1 < 2 ^ 32 }
        ensures place { IfErr result (IsDeviceIn (contains (sectors_of draft.now.runs))) }
        ensures disk { WritesDisk M.Machine (device_in device_of result) (Leaves state IsMemoryOf self.old (contains (sectors_of draft.now.runs))) m.old m.new }
        ensures writes { WritesWithin M.Machine (contains (sectors_of draft.now.runs)) (sectors_for (length bytes.now)) m.old m.new result }
        ensures volume { self.new ≡ drawn_volume self.old }
        ensures done { M.honest m.new → WritesVersion self.old self.new draft.now bytes.now (M.now m.old) (M.now m.new) result }
    {
        self.attest();
        self.draw();
        match write_version(m, draft, bytes) {
            Ok(()) => Ok(()),
            Err(failed) => Err(Refusal::Device(failed.place)),
        }
    }
}
