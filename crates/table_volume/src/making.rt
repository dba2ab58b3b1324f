//! A version that is written already comes into the table.
ghost use Rattle.std.specs.Prelude.{◌≡◌, ◌≤◌, ◌<◌, ◌+◌, ◌-◌, ◌^◌, IfOk, ℕ, List, IfSome, IsTrue, MatchResult, None, length, min};
ghost use Rattle.sector_disk.specs.Calls.{OnlyReads, device_in};
ghost use Rattle.sector_disk.specs.Image.{open_damage};
ghost use Rattle.fsd_formats.specs.NamePage.{is_entry, sectors_for};
ghost use Rattle.fsd_files.specs.Answers.{HasVersion};
ghost use Rattle.volume_contract.specs.Causes.{Causes};
ghost use Rattle.volume_contract.specs.Ends.{device_of};
ghost use Rattle.volume_contract.specs.Order.{Follows};
ghost use Rattle.volume_contract.specs.State.{Known, Stands};
ghost use Rattle.volume_laws.specs.Entered.{EndsEntered, KeepsOnEnter, entering_steps};
ghost use Rattle.volume_laws.specs.Placing.{IsPlace};
ghost use Rattle.volume_laws.specs.State.{IsMemoryOf, resident, state};

use crate::Volume;
use crate::freeing::free_gone_if;
use fsd_bytes::{FileName, Key, Refusal};
use fsd_formats::Entry;
use group_commit::Newest;
use sector_disk::Machine;

/// So many versions once one has come and some have gone.
pub(crate) fn versions_with_one(versions: u32, gone: usize) -> u32
    requires { gone ≤ 2 }
    ensures { result ≡ min (versions - gone + 1) 4294967295 }
{
    versions.saturating_sub(gone as u32).saturating_add(1)
}

impl Volume {
    /// Enters a version, whose bytes and leader lie in free sectors by its draft, as the next of its name, and answers
    /// its key. Its sectors are taken then, and those of the versions that go wait for the next force.
    /// Where it fails the table stays.
    pub(crate) fn entered<M: Machine>(
        &mut self,
        m: &mut M,
        name: &FileName,
        keep: Option<u32>,
        draft: Entry,
    ) -> Result<Key, Refusal>
        requires room { self.old.layout.sectors ≤ (M.report m.old).sectors }
        requires up { self.old.down ≡ None }
        requires few { length self.old.cache.dirty ≤ 56 }
        requires numbered { self.old.log.head.number < 2 ^ 32 - 1 }
        requires keep { IfSome keep (λ most. most ≤ 999) }
        requires good { IsTrue (is_entry draft) }
        requires place { IsPlace self.old.map (sectors_for draft.length) draft.runs }
        ensures order { Follows (entering_steps (state self.old)) result }
        ensures disk { OnlyReads M.Machine (device_in device_of result) m.old m.new }
        ensures name { IfOk result (λ key. key.name ≡ name.now) }
        ensures enters { MatchResult result (λ key. KeepsOnEnter (state self.old) (state self.new)) (λ why. state self.new ≡ state self.old) }
        ensures causes { Causes M.Machine (resident self.old) (state self.old) (state self.new) m.old m.new result }
        ensures done { M.honest m.new → (bytes : List ℕ) (k : Known) → Stands state IsMemoryOf self.old k (M.now m.old) → draft.length ≡ length bytes → HasVersion (open_damage (M.now m.old).windows) (M.now m.old).image bytes draft →
            EndsEntered name.now keep bytes draft k self.new (M.now m.new) result }
    {
        self.table.cache.attest();
        let home_a = self.layout.home_a(0);
        let source = Newest::over(&self.log, &self.layout);
        let done = self.table.enter(
            m,
            &source,
            home_a,
            &self.map,
            &self.layout,
            &self.shadow,
            name,
            keep,
            &draft,
        );
        let waits = !self.table.cache.dirty_list().is_empty();
        let plan = done?;
        self.map.take(&draft.runs);
        free_gone_if(waits, &mut self.shadow, plan.gone.as_slice());
        self.versions = versions_with_one(self.versions, plan.gone.len());
        Ok(plan.key)
    }
}
