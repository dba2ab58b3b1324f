//! A version that is written already comes into the table under a key of its own.
ghost use Rattle.std.specs.Prelude.{◌≡◌, ◌≤◌, ◌<◌, ◌-◌, ◌^◌, ℕ, List, IsTrue, MatchResult, None, length};
ghost use Rattle.sector_disk.specs.Calls.{OnlyReads, device_in};
ghost use Rattle.sector_disk.specs.Image.{open_damage};
ghost use Rattle.fsd_bytes.specs.Keys.{is_key};
ghost use Rattle.fsd_formats.specs.NamePage.{is_entry, sectors_for};
ghost use Rattle.fsd_files.specs.Answers.{HasVersion};
ghost use Rattle.volume_contract.specs.Ends.{device_of};
ghost use Rattle.volume_contract.specs.Order.{Follows};
ghost use Rattle.volume_contract.specs.State.{Known, Stands};
ghost use Rattle.volume_contract.specs.Telling.{TellsLoad};
ghost use Rattle.volume_laws.specs.Entered.{EndsLoaded, KeepsOnEnter, loading_steps};
ghost use Rattle.volume_laws.specs.Placing.{IsPlace};
ghost use Rattle.volume_laws.specs.State.{IsMemoryOf, resident, state};

use crate::Volume;
use crate::making::versions_with_one;
use fsd_bytes::{Key, Refusal};
use fsd_formats::Entry;
use group_commit::Newest;
use sector_disk::Machine;

impl Volume {
    /// Enters a version under this key and keep, whose bytes and leader lie in free sectors by its draft. Its sectors are
    /// taken then. Where it does not come the table stays.
    pub(crate) fn loaded<M: Machine>(
        &mut self,
        m: &mut M,
        key: &Key,
        keep: u32,
        draft: Entry,
    ) -> Result<(), Refusal>
        requires room { self.old.layout.sectors ≤ (M.report m.old).sectors }
        requires up { self.old.down ≡ None }
        requires few { length self.old.cache.dirty ≤ 56 }
        requires numbered { self.old.log.head.number < 2 ^ 32 - 1 }
        requires key { IsTrue (is_key key.now) }
        requires keep { keep ≤ 999 }
        requires good { IsTrue (is_entry draft) }
        requires place { IsPlace self.old.map (sectors_for draft.length) draft.runs }
        ensures order { Follows (loading_steps (state self.old)) result }
        ensures disk { OnlyReads M.Machine (device_in device_of result) m.old m.new }
        ensures enters { MatchResult result (λ x. KeepsOnEnter (state self.old) (state self.new)) (λ why. state self.new ≡ state self.old) }
        ensures tells { TellsLoad M.Machine (resident self.old) (state self.old) (state self.new) m.old m.new key.now result }
        ensures done { M.honest m.new → (bytes : List ℕ) (k : Known) → Stands state IsMemoryOf self.old k (M.now m.old) → draft.length ≡ length bytes → HasVersion (open_damage (M.now m.old).windows) (M.now m.old).image bytes draft →
            EndsLoaded key.now keep bytes draft k self.new (M.now m.new) result }
    {
        self.table.cache.attest();
        let home_a = self.layout.home_a(0);
        let source = Newest::over(&self.log, &self.layout);
        let done = self.table.load(
            m,
            &source,
            home_a,
            &self.map,
            &self.layout,
            &self.shadow,
            key,
            keep,
            &draft,
        );
        self.table.cache.attest();
        if !done? {
            return Err(Refusal::Exists);
        }
        self.map.take(&draft.runs);
        self.versions = versions_with_one(self.versions, 0);
        Ok(())
    }
}
