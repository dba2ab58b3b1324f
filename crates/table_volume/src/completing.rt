//! Creations that become versions.
ghost use Rattle.std.specs.Prelude.{◌≡◌, ◌≤◌, ◌<◌, ◌+◌, ◌-◌, ◌^◌, ◌||◌, ℕ, IfErr, IfOk, IfSome, IsTrue, List, MatchResult, None, OnOk, Option, Some, length, true};
ghost use Rattle.sector_disk.specs.Calls.{OnlyReads, WritesDisk, device_in};
ghost use Rattle.sector_disk.specs.Image.{open_damage};
ghost use Rattle.fsd_files.specs.Answers.{HasLeader, HasVersion};
ghost use Rattle.fsd_formats.specs.NamePage.{is_entry, sectors_for};
ghost use Rattle.fsd_sound.specs.Writes.{force_writes};
ghost use Rattle.version_data.specs.Writing.{WritesIn};
ghost use Rattle.volume_contract.specs.Causes.{Causes};
ghost use Rattle.volume_contract.specs.Ends.{device_of};
ghost use Rattle.volume_contract.specs.Order.{Follows, InOrder, IsDeviceIn, enter_steps};
ghost use Rattle.volume_contract.specs.Pieces.{EndsEnter, IsDraft, in_leader, slices_if, slices_in};
ghost use Rattle.volume_contract.specs.State.{Counted, Known, Leaves, Stands, WritesWithin, change_len};
ghost use Rattle.volume_contract.specs.Telling.{TellsKey};
ghost use Rattle.volume_laws.specs.Completed.{Completes, EndsComplete, draft_of};
ghost use Rattle.volume_laws.specs.Entered.{entering_steps as look_steps};
ghost use Rattle.volume_laws.specs.Placing.{IsPlace};
ghost use Rattle.volume_laws.specs.State.{IsMemoryOf, resident, state};
ghost use Rattle.table_volume.specs.Puts.{KeepsFinish};

use crate::Volume;
use crate::freeing::free_gone_if;
use crate::making::versions_with_one;
use crate::putting::first_key;
use fsd_bytes::{FileName, Key, Refusal};
use fsd_formats::Entry;
use group_commit::Newest;
use sector_disk::Machine;
use version_data::write_leader;
use volume_contract::Draft;

impl Volume {
    /// The entry of a creation: its number and its keep come with the look-up.
    pub(crate) fn creation(&self, name: &FileName, draft: &Draft) -> Entry
        requires draft { IsDraft (state self.now) draft.now }
        ensures good { IsTrue (is_entry result) }
        ensures same { draft.now ≡ draft_of result }
    {
        self.attest();
        Entry {
            key: first_key(name),
            keep: 0,
            serial: draft.serial,
            length: draft.length,
            runs: draft.runs.copied(),
        }
    }

    // Writes the leader of a creation.
    fn led<M: Machine>(&self, m: &mut M, entry: &Entry) -> Result<(), Refusal>
        requires room { (state self.now).layout.sectors ≤ (M.report m.old).sectors }
        requires good { IsTrue (is_entry entry.now) }
        requires draft { IsDraft (state self.now) (draft_of entry.now) }
        ensures place { IfErr result (IsDeviceIn (in_leader entry.now.runs)) }
        ensures disk { WritesDisk M.Machine (device_in device_of result) (Leaves state IsMemoryOf self.now (in_leader entry.now.runs)) m.old m.new }
        ensures writes { M.honest m.new → WritesIn (in_leader entry.now.runs) (M.now m.old) (M.now m.new) }
        ensures counted { M.tells m.new → Counted result 1 (M.ledger m.old) (M.ledger m.new) }
        ensures done { OnOk result (M.honest m.new → HasLeader (open_damage (M.now m.new).windows) (M.now m.new).image entry.now) }
    {
        self.attest();
        match write_leader(m, entry) {
            Ok(()) => Ok(()),
            Err(failed) => Err(Refusal::Device(failed.place)),
        }
    }

    // Enters a creation, whose bytes and leader are written, as the next version of a name, and answers its key. Its
    // sectors are the version's then, and those of the versions that go wait for the next force. Where it fails the
    // table stays, and so does the creation.
    fn completed<M: Machine>(
        &mut self,
        m: &mut M,
        name: &FileName,
        keep: Option<u32>,
        entry: Entry,
    ) -> Result<Key, Refusal>
        requires room { self.old.layout.sectors ≤ (M.report m.old).sectors }
        requires up { self.old.down ≡ None }
        requires few { length self.old.cache.dirty ≤ 56 }
        requires numbered { self.old.log.head.number < 2 ^ 32 - 1 }
        requires keep { IfSome keep (λ most. most ≤ 999) }
        requires good { IsTrue (is_entry entry) }
        requires place { IsPlace self.old.shadow.unfinished (sectors_for entry.length) entry.runs }
        ensures order { Follows (look_steps (state self.old)) result }
        ensures disk { OnlyReads M.Machine (device_in device_of result) m.old m.new }
        ensures name { IfOk result (λ key. key.name ≡ name.now) }
        ensures completes { MatchResult result (λ key. Completes entry.runs (state self.old) (state self.new)) (λ why. state self.new ≡ state self.old) }
        ensures causes { Causes M.Machine (resident self.old) (state self.old) (state self.new) m.old m.new result }
        ensures done { M.honest m.new → (bytes : List ℕ) (k : Known) → Stands state IsMemoryOf self.old k (M.now m.old) → (before : List (Option (List ℕ))) → slices_in k.opened.drafts entry.runs ≡ Some before →
            entry.length ≡ length bytes → HasVersion (open_damage (M.now m.old).windows) (M.now m.old).image bytes entry → EndsComplete name.now keep bytes entry k self.new (M.now m.new) result }
    {
        self.table.cache.attest();
        let home_a = self.layout.home_a(0);
        let source = Newest::over(&self.log, &self.layout);
        let done = self.table.enter(
            m,
            &source,
            home_a,
            &self.map,
            &self.layout,
            &self.shadow,
            name,
            keep,
            &entry,
        );
        let waits = !self.table.cache.dirty_list().is_empty();
        let plan = done?;
        free_gone_if(waits, &mut self.shadow, plan.gone.as_slice());
        self.shadow.ended(&entry.runs);
        self.versions = versions_with_one(self.versions, plan.gone.len());
        Ok(plan.key)
    }

    /// Makes a version of a creation with this entry, whose slices are all written, its leader first.
    pub(crate) fn finished<M: Machine>(
        &mut self,
        m: &mut M,
        name: &FileName,
        keep: Option<u32>,
        entry: Entry,
    ) -> Result<Key, Refusal>
        requires room { (state self.old).layout.sectors ≤ (M.report m.old).sectors }
        requires good { IsTrue (is_entry entry) }
        requires draft { IsDraft (state self.old) (draft_of entry) }
        ensures order { InOrder (enter_steps (state self.old) keep (in_leader entry.runs)) m.old m.new result }
        ensures disk { WritesDisk M.Machine (device_in device_of result) (Leaves state IsMemoryOf self.old (λ t. force_writes (state self.old).layout t || in_leader entry.runs t)) m.old m.new }
        ensures writes { WritesWithin M.Machine (λ t. force_writes (state self.old).layout t || in_leader entry.runs t) (1 + change_len (state self.old)) m.old m.new result }
        ensures keeps { KeepsFinish entry.runs keep (state self.old) (state self.new) result }
        ensures tells { TellsKey M.Machine (resident self.old) (state self.old) (state self.new) m.old m.new name.now result }
        ensures done { M.honest m.new → (k : Known) → Stands state IsMemoryOf self.old k (M.now m.old) →
            (bytes : List ℕ) → length bytes ≡ entry.length → slices_in k.opened.drafts entry.runs ≡ Some (slices_if true bytes) →
            EndsEnter state IsMemoryOf (draft_of entry) name.now bytes keep k self.new (M.now m.new) result }
    {
        self.attest();
        self.may_put(keep, 0)?;
        self.led(m, &entry)?;
        self.force_first(m)?;
        self.completed(m, name, keep, entry)
    }
}
