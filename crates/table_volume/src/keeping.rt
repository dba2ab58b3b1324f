//! Another keep of a name's highest version.
ghost use Rattle.std.specs.Prelude.{◌≡◌, ◌<◌, ◌≤◌, ◌-◌, ◌^◌, None, length};
ghost use Rattle.sector_disk.specs.Calls.{OnlyReads, device_in};
ghost use Rattle.fsd_files.specs.Answers.{keep_outcome};
ghost use Rattle.fsd_files.specs.Files.{Change};
ghost use Rattle.volume_contract.specs.Ends.{device_of, kept_key};
ghost use Rattle.volume_contract.specs.Order.{Follows};
ghost use Rattle.volume_contract.specs.State.{Known, Stands, volume_of};
ghost use Rattle.volume_contract.specs.Telling.{TellsKept};
ghost use Rattle.volume_laws.specs.Ending.{Edits, EndsEdit, edit_refusal, edit_steps, keep_tests, kept_told, look_steps};
ghost use Rattle.volume_laws.specs.State.{IsMemoryOf, resident, state};

use crate::Volume;
use fsd_bytes::{FileName, Key, Refusal};
use fsd_formats::MOST_KEEP;
use group_commit::Newest;
use name_btree::TreeFault;
use sector_disk::Machine;
use version_table::VersionFault;

/// What a fault of an edit is told as. An edit comes behind a look-up: pages that differ since have no such version.
pub(crate) fn edit_refusal(fault: TreeFault) -> Refusal
    ensures { result ≡ edit_refusal fault }
{
    match fault {
        TreeFault::Pages(Refusal::Device(place)) => Refusal::Device(place),
        TreeFault::Pages(Refusal::Lost { a, b }) => Refusal::Lost { a, b },
        TreeFault::Pages(Refusal::Memory) => Refusal::Memory,
        _ => Refusal::NoSuch,
    }
}

fn kept_told(done: Result<Key, VersionFault>) -> Result<Key, Refusal>
    ensures { result ≡ kept_told done }
{
    match done {
        Ok(key) => Ok(key),
        Err(VersionFault::Table(fault)) => Err(edit_refusal(fault)),
        Err(_) => Err(Refusal::NoSuch),
    }
}

impl Volume {
    /// That a keep may be set.
    pub(crate) fn may_keep(&self, keep: u32) -> Result<(), Refusal>
        ensures { Follows (keep_tests (state self.now) keep) result }
    {
        self.is_up()?;
        if keep > MOST_KEEP {
            return Err(Refusal::KeepTooLarge(keep));
        }
        if self.is_worn() {
            return Err(Refusal::WornOut);
        }
        Ok(())
    }

    // Gives the highest version of a name, which a look-up has found, another keep.
    fn keep_found<M: Machine>(
        &mut self,
        m: &mut M,
        name: &FileName,
        keep: u32,
    ) -> Result<Key, Refusal>
        requires room { self.old.layout.sectors ≤ (M.report m.old).sectors }
        requires up { self.old.down ≡ None }
        requires few { length self.old.cache.dirty ≤ 56 }
        requires numbered { self.old.log.head.number < 2 ^ 32 - 1 }
        requires keep { keep ≤ 999 }
        ensures order { Follows edit_steps result }
        ensures disk { OnlyReads M.Machine (device_in device_of result) m.old m.new }
        ensures edited { Edits (state self.old) (state self.new) result }
        ensures tells { TellsKept M.Machine (resident self.old) (state self.old) (state self.new) m.old m.new name.now result }
        ensures done { M.honest m.new → (k : Known) → Stands state IsMemoryOf self.old k (M.now m.old) →
            EndsEdit (λ met. keep_outcome met (volume_of k) name.now keep) (kept_key keep) (Change.SetKeep name.now keep) k self.new (M.now m.new) result }
    {
        self.table.cache.attest();
        let home_a = self.layout.home_a(0);
        let source = Newest::over(&self.log, &self.layout);
        let done = self.table.set_keep(m, &source, home_a, name, keep);
        self.table.cache.attest();
        kept_told(done)
    }

    /// Gives the highest version of a name another keep.
    pub(crate) fn keep_now<M: Machine>(
        &mut self,
        m: &mut M,
        name: &FileName,
        keep: u32,
    ) -> Result<Key, Refusal>
        requires room { self.old.layout.sectors ≤ (M.report m.old).sectors }
        requires up { self.old.down ≡ None }
        requires few { length self.old.cache.dirty ≤ 56 }
        requires numbered { self.old.log.head.number < 2 ^ 32 - 1 }
        requires keep { keep ≤ 999 }
        ensures order { Follows look_steps result }
        ensures disk { OnlyReads M.Machine (device_in device_of result) m.old m.new }
        ensures edited { Edits (state self.old) (state self.new) result }
        ensures tells { TellsKept M.Machine (resident self.old) (state self.old) (state self.new) m.old m.new name.now result }
        ensures done { M.honest m.new → (k : Known) → Stands state IsMemoryOf self.old k (M.now m.old) →
            EndsEdit (λ met. keep_outcome met (volume_of k) name.now keep) (kept_key keep) (Change.SetKeep name.now keep) k self.new (M.now m.new) result }
    {
        let found = self.find_highest(m, name)?;
        match found {
            Some(_) => self.keep_found(m, name, keep),
            None => Err(Refusal::NoSuch),
        }
    }
}
