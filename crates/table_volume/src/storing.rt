//! What a put does before it looks its name up.
ghost use Rattle.std.specs.Prelude.{◌≡◌, ◌≤◌, ◌<◌, ◌+◌, ◌^◌, ◌∷◌, [], None, length};
ghost use Rattle.sector_disk.specs.Calls.{WritesDisk, device_in};
ghost use Rattle.fsd_formats.specs.NamePage.{max_length, sectors_for};
ghost use Rattle.fsd_sound.specs.Writes.{force_writes};
ghost use Rattle.volume_contract.specs.Ends.{device_of};
ghost use Rattle.volume_contract.specs.Order.{by_itself};
ghost use Rattle.volume_contract.specs.State.{Known, Leaves, Stands, WritesWithin, change_len, forces_first, put_len, put_writes};
ghost use Rattle.volume_laws.specs.Placing.{EndsStore, store_len, store_steps};
ghost use Rattle.volume_laws.specs.Preparing.{EndsForced, EndsPrepare, prepare_steps};
ghost use Rattle.volume_laws.specs.State.{IsMemoryOf, state};
ghost use Rattle.table_volume.specs.Forces.{ForcesFirst, TellsBehind};
ghost use Rattle.table_volume.specs.Puts.{PreparesVersion, StoresVersion};

use crate::Volume;
use fsd_bytes::{FileName, Refusal};
use fsd_formats::Entry;
use sector_disk::Machine;

// So many pages may wait as a change begins; where more do, it forces first.
const MOST_WAITING: usize = 56;

impl Volume {
    // Finds a place for a new version, and writes it there with the next serial: its sectors stay free.
    fn stored<M: Machine>(
        &mut self,
        m: &mut M,
        name: &FileName,
        bytes: &[u8],
    ) -> Result<Entry, Refusal>
        requires room { (state self.old).layout.sectors ≤ (M.report m.old).sectors }
        requires most { length bytes.now ≤ max_length }
        requires up { self.old.down ≡ None }
        requires serials { self.old.serial.count + 1 < 2 ^ 32 }
        ensures keeps { StoresVersion (length bytes.now) self.old self.new result }
        ensures disk { WritesDisk M.Machine (device_in device_of result) (Leaves state IsMemoryOf self.old (put_writes (state self.old) (sectors_for (length bytes.now)))) m.old m.new }
        ensures writes { WritesWithin M.Machine (put_writes (state self.old) (sectors_for (length bytes.now))) (store_len (state self.old) (sectors_for (length bytes.now))) m.old m.new result }
        ensures tells { TellsBehind M.Machine (store_steps (state self.old) (sectors_for (length bytes.now))) self.old self.new m.old m.new result }
        ensures done { M.honest m.new → (k : Known) → Stands state IsMemoryOf self.old k (M.now m.old) → EndsStore (sectors_for (length bytes.now)) bytes.now k self.new (M.now m.new) result }
    {
        let length = bytes.len() as u32;
        let runs = self.placed(m, 1 + length.div_ceil(512))?;
        let draft = self.draft(name, length, runs);
        self.written(m, &draft, bytes)?;
        Ok(draft)
    }

    // Whether many pages wait for a force.
    fn many_wait(&self) -> bool
        ensures { result ≡ forces_first (state self.now) }
    {
        self.table.cache.dirty_list().len() > MOST_WAITING
    }

    /// A force, where many pages wait for one.
    pub(crate) fn force_first<M: Machine>(&mut self, m: &mut M) -> Result<(), Refusal>
        requires room { (state self.old).layout.sectors ≤ (M.report m.old).sectors }
        requires up { self.old.down ≡ None }
        ensures keeps { ForcesFirst self.old self.new result }
        ensures disk { WritesDisk M.Machine (device_in device_of result) (Leaves state IsMemoryOf self.old (force_writes (state self.old).layout)) m.old m.new }
        ensures writes { WritesWithin M.Machine (force_writes (state self.old).layout) (change_len (state self.old)) m.old m.new result }
        ensures tells { TellsBehind M.Machine (by_itself (state self.old) ∷ []) self.old self.new m.old m.new result }
        ensures done { M.honest m.new → (k : Known) → Stands state IsMemoryOf self.old k (M.now m.old) → EndsForced k self.new (M.now m.new) result }
    {
        self.attest();
        if !self.many_wait() {
            return Ok(());
        }
        match self.force_all(m) {
            Ok(_) => Ok(()),
            Err(refusal) => Err(refusal),
        }
    }

    /// Writes a new version into free sectors, with the next serial, and forces where a force comes before a put's
    /// look-up. Its sectors stay free.
    pub(crate) fn prepared<M: Machine>(
        &mut self,
        m: &mut M,
        name: &FileName,
        bytes: &[u8],
    ) -> Result<Entry, Refusal>
        requires room { (state self.old).layout.sectors ≤ (M.report m.old).sectors }
        requires most { length bytes.now ≤ max_length }
        requires up { self.old.down ≡ None }
        requires serials { self.old.serial.count + 1 < 2 ^ 32 }
        ensures keeps { PreparesVersion (length bytes.now) self.old self.new result }
        ensures disk { WritesDisk M.Machine (device_in device_of result) (Leaves state IsMemoryOf self.old (put_writes (state self.old) (sectors_for (length bytes.now)))) m.old m.new }
        ensures writes { WritesWithin M.Machine (put_writes (state self.old) (sectors_for (length bytes.now))) (put_len (state self.old) (sectors_for (length bytes.now))) m.old m.new result }
        ensures tells { TellsBehind M.Machine (prepare_steps (state self.old) (sectors_for (length bytes.now))) self.old self.new m.old m.new result }
        ensures done { M.honest m.new → (k : Known) → Stands state IsMemoryOf self.old k (M.now m.old) → EndsPrepare (sectors_for (length bytes.now)) bytes.now k self.new (M.now m.new) result }
    {
        let draft = self.stored(m, name, bytes)?;
        self.force_first(m)?;
        Ok(draft)
    }
}
