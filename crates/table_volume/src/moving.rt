//! A version that moves to another name.
ghost use Rattle.std.specs.Prelude.{◌≡◌, ◌<◌, ◌≤◌, ◌-◌, ◌^◌, IfOk, None, Some, drop, length};
ghost use Rattle.sector_disk.specs.Calls.{OnlyReads, device_in};
ghost use Rattle.fsd_formats.specs.declared.entry.Entry.{Entry};
ghost use Rattle.fsd_files.specs.Answers.{entry_of};
ghost use Rattle.volume_contract.specs.Causes.{Causes};
ghost use Rattle.volume_contract.specs.Ends.{device_of};
ghost use Rattle.volume_contract.specs.Order.{Follows};
ghost use Rattle.volume_contract.specs.State.{Known, Stands, volume_of};
ghost use Rattle.volume_contract.specs.Telling.{TellsMoved};
ghost use Rattle.volume_laws.specs.Ending.{Edits, EndsMove, moving_steps};
ghost use Rattle.volume_laws.specs.Entered.{entering_steps};
ghost use Rattle.volume_laws.specs.State.{IsMemoryOf, resident, state};

use crate::Volume;
use crate::freeing::free_gone_if;
use fsd_bytes::{FileName, Key, Refusal};
use group_commit::Newest;
use sector_disk::Machine;
use version_table::Leaving;

// Those that go beside the version that moves, which goes first.
fn others(gone: &[Leaving]) -> &[Leaving]
    requires { 1 ≤ length gone.now }
    ensures { result.now ≡ drop 1 gone.now }
{
    &gone[1..]
}

// So many versions once some have gone.
fn versions_without(versions: u32, gone: usize) -> u32
    requires { gone ≤ 2 }
    ensures { result ≡ versions - gone }
{
    versions.saturating_sub(gone as u32)
}

impl Volume {
    // Moves a version, which a look-up has found. Its sectors stay its own, and those of the versions that go by the keep
    // wait for the next force.
    fn move_found<M: Machine>(
        &mut self,
        m: &mut M,
        key: &Key,
        name: &FileName,
    ) -> Result<Key, Refusal>
        requires room { self.old.layout.sectors ≤ (M.report m.old).sectors }
        requires up { self.old.down ≡ None }
        requires few { length self.old.cache.dirty ≤ 56 }
        requires numbered { self.old.log.head.number < 2 ^ 32 - 1 }
        ensures order { Follows (entering_steps (state self.old)) result }
        ensures disk { OnlyReads M.Machine (device_in device_of result) m.old m.new }
        ensures name { IfOk result (λ to. to.name ≡ name.now) }
        ensures edited { Edits (state self.old) (state self.new) result }
        ensures causes { Causes M.Machine (resident self.old) (state self.old) (state self.new) m.old m.new result }
        ensures done { M.honest m.new → (k : Known) → Stands state IsMemoryOf self.old k (M.now m.old) → (e : Entry) → entry_of key.now (volume_of k).entries ≡ Some e →
            EndsMove key.now name.now k self.new (M.now m.new) result }
    {
        self.table.cache.attest();
        let home_a = self.layout.home_a(0);
        let source = Newest::over(&self.log, &self.layout);
        let done = self.table.move_to(
            m,
            &source,
            home_a,
            &self.map,
            &self.layout,
            &self.shadow,
            key,
            name,
        );
        let waits = !self.table.cache.dirty_list().is_empty();
        let plan = done?;
        let gone = others(plan.gone.as_slice());
        free_gone_if(waits, &mut self.shadow, gone);
        self.versions = versions_without(self.versions, gone.len());
        Ok(plan.key)
    }

    /// Makes the version with a key the next one of a name.
    pub(crate) fn move_now<M: Machine>(
        &mut self,
        m: &mut M,
        key: &Key,
        name: &FileName,
    ) -> Result<Key, Refusal>
        requires room { self.old.layout.sectors ≤ (M.report m.old).sectors }
        requires up { self.old.down ≡ None }
        requires few { length self.old.cache.dirty ≤ 56 }
        requires numbered { self.old.log.head.number < 2 ^ 32 - 1 }
        ensures order { Follows (moving_steps (state self.old)) result }
        ensures disk { OnlyReads M.Machine (device_in device_of result) m.old m.new }
        ensures edited { Edits (state self.old) (state self.new) result }
        ensures tells { TellsMoved M.Machine (resident self.old) (state self.old) (state self.new) m.old m.new key.now name.now result }
        ensures done { M.honest m.new → (k : Known) → Stands state IsMemoryOf self.old k (M.now m.old) → EndsMove key.now name.now k self.new (M.now m.new) result }
    {
        match self.find(m, key)? {
            Some(found) => {
                self.met_entry(found.entry, found.page)?;
                self.move_found(m, key, name)
            }
            None => Err(Refusal::NoSuch),
        }
    }
}
