//! Taking a version out.
ghost use Rattle.std.specs.Prelude.{◌≡◌, ◌<◌, ◌≤◌, ◌-◌, ◌^◌, All, IsTrue, None, Some, length};
ghost use Rattle.sector_disk.specs.Calls.{OnlyReads, device_in};
ghost use Rattle.shadow_frees.specs.Readers.{IsSameOrApart};
ghost use Rattle.shadow_frees.specs.Waits.{AreIdle};
ghost use Rattle.fsd_files.specs.Answers.{delete_outcome, entry_of};
ghost use Rattle.fsd_files.specs.Files.{Change};
ghost use Rattle.fsd_files.specs.declared.reply.Reply.TheVariants.{Deleted};
ghost use Rattle.volume_contract.specs.Causes.{Causes};
ghost use Rattle.volume_contract.specs.Ends.{device_of};
ghost use Rattle.volume_contract.specs.Order.{Follows};
ghost use Rattle.volume_contract.specs.State.{Known, Stands, volume_of};
ghost use Rattle.volume_contract.specs.Telling.{TellsGone};
ghost use Rattle.volume_laws.specs.Ending.{Edits, EndsEdit, GivesUp, delete_tests, edit_steps, look_steps};
ghost use Rattle.volume_laws.specs.State.{IsMemoryOf, resident, state};
ghost use Rattle.volume_laws.specs.Taken.{are_taken};

use crate::Volume;
use crate::keeping::edit_refusal;
use fsd_bytes::{Key, Refusal};
use fsd_formats::Entry;
use group_commit::Newest;
use page_cache::Cache;
use run_table::Runs;
use sector_disk::Machine;
use shadow_frees::Shadow;

/// The sectors of a version that was taken out wait for the next force, and one version less is counted. Where no page
/// waits for a force nothing was taken out.
fn give_up(shadow: &mut Shadow, versions: &mut u32, cache: &Cache, runs: &Runs)
    requires idle { AreIdle shadow.old runs.now }
    requires agree { All (IsSameOrApart runs.now) shadow.old.held }
    ensures { GivesUp cache.now.dirty runs.now shadow.old versions.old shadow.new versions.new }
{
    if cache.dirty_list().len() == 0 || *versions == 0 {
        return;
    }
    shadow.freed(runs);
    *versions -= 1;
}

impl Volume {
    /// That a version may be taken out, or moved.
    pub(crate) fn may_change(&self) -> Result<(), Refusal>
        ensures { Follows (delete_tests (state self.now)) result }
    {
        self.is_up()?;
        if self.is_worn() {
            return Err(Refusal::WornOut);
        }
        Ok(())
    }

    // Takes out a version, which a look-up has found.
    fn take_found<M: Machine>(&mut self, m: &mut M, entry: &Entry) -> Result<(), Refusal>
        requires room { self.old.layout.sectors ≤ (M.report m.old).sectors }
        requires up { self.old.down ≡ None }
        requires few { length self.old.cache.dirty ≤ 56 }
        requires numbered { self.old.log.head.number < 2 ^ 32 - 1 }
        requires taken { IsTrue (are_taken self.old entry.now.runs) }
        ensures order { Follows edit_steps result }
        ensures disk { OnlyReads M.Machine (device_in device_of result) m.old m.new }
        ensures edited { Edits (state self.old) (state self.new) result }
        ensures causes { Causes M.Machine (resident self.old) (state self.old) (state self.new) m.old m.new result }
        ensures done { M.honest m.new → (k : Known) → Stands state IsMemoryOf self.old k (M.now m.old) → entry_of entry.now.key (volume_of k).entries ≡ Some entry.now →
            EndsEdit (λ met. delete_outcome met (volume_of k) entry.now.key) (λ x. Deleted entry.now.key) (Change.Delete entry.now.key) k self.new (M.now m.new) result }
    {
        self.table.cache.attest();
        let home_a = self.layout.home_a(0);
        let source = Newest::over(&self.log, &self.layout);
        let done = self.table.take_out(m, &source, home_a, &entry.key);
        self.table.cache.attest();
        match done {
            Ok(()) => {
                give_up(
                    &mut self.shadow,
                    &mut self.versions,
                    &self.table.cache,
                    &entry.runs,
                );
                Ok(())
            }
            Err(fault) => Err(edit_refusal(fault)),
        }
    }

    /// Takes the version with a key out.
    pub(crate) fn delete_now<M: Machine>(&mut self, m: &mut M, key: &Key) -> Result<(), Refusal>
        requires room { self.old.layout.sectors ≤ (M.report m.old).sectors }
        requires up { self.old.down ≡ None }
        requires few { length self.old.cache.dirty ≤ 56 }
        requires numbered { self.old.log.head.number < 2 ^ 32 - 1 }
        ensures order { Follows look_steps result }
        ensures disk { OnlyReads M.Machine (device_in device_of result) m.old m.new }
        ensures edited { Edits (state self.old) (state self.new) result }
        ensures tells { TellsGone M.Machine (resident self.old) (state self.old) (state self.new) m.old m.new key.now result }
        ensures done { M.honest m.new → (k : Known) → Stands state IsMemoryOf self.old k (M.now m.old) →
            EndsEdit (λ met. delete_outcome met (volume_of k) key.now) (λ x. Deleted key.now) (Change.Delete key.now) k self.new (M.now m.new) result }
    {
        match self.find(m, key)? {
            Some(found) => {
                let entry = self.met_entry(found.entry, found.page)?;
                self.take_found(m, &entry)
            }
            None => Err(Refusal::NoSuch),
        }
    }
}
