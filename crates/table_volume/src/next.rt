//! Entries by their order in the table.
ghost use Rattle.std.specs.Prelude.{◌≡◌, ◌<◌, ◌≤◌, Err, IfOk, IfNone, IfSome, true};
ghost use Rattle.std.specs.Option.{option_copied};
ghost use Rattle.fsd_bytes.specs.declared.refusal.Refusal.TheVariants as Why;
ghost use Rattle.fsd_files.specs.Answers.{entry_after, highest_entry};
ghost use Rattle.name_page.specs.Lookups.{is_after};
ghost use Rattle.fsd_sound.specs.Lookups.{LacksLater};
ghost use Rattle.volume_contract.specs.Found.{ShowsReached, ShowsReachedNext};
ghost use Rattle.volume_contract.specs.State.{Known, Stands, volume_of};
ghost use Rattle.cached_table.specs.Looking.{FindsEntry};
ghost use Rattle.volume_laws.specs.Meeting.{met_found};
ghost use Rattle.volume_laws.specs.State.{HasEnoughFor, IsMemoryOf, resident, state};
ghost use Rattle.table_volume.specs.Looks.{LooksInto};

use crate::Volume;
use cached_table::told;
use fsd_bytes::{FileName, Key, Refusal};
use fsd_formats::Entry;
use group_commit::Newest;
use name_btree::FoundEntry;
use sector_disk::Machine;

impl Volume {
    /// The entry with the least later key, with the page of its leaf.
    pub(crate) fn find_next<M: Machine>(
        &mut self,
        m: &mut M,
        after: Option<&Key>,
    ) -> Result<Option<FoundEntry>, Refusal>
        requires { self.old.layout.sectors ≤ (M.report m.old).sectors }
        ensures looks { LooksInto M.Machine self.old self.new m.old m.new result }
        ensures later { IfOk result (λ found. IfSome found (λ f. is_after (option_copied after.entry) f.entry.key ≡ true)) }
        ensures found { M.honest m.new → (k : Known) → Stands state IsMemoryOf self.old k (M.now m.old) → FindsEntry (entry_after (option_copied after.entry) (volume_of k).entries) result }
        ensures absent { IfOk result (λ found. IfNone found (ShowsReached M.Machine (resident self.old) (state self.old) (state self.new) m.old m.new (LacksLater (option_copied after.entry)))) }
        ensures next { IfOk result (λ found. IfSome found (λ f. ShowsReachedNext M.Machine (resident self.old) (state self.old) (state self.new) m.old m.new (option_copied after.entry) f.entry)) }
    {
        self.table.cache.attest();
        let home_a = self.layout.home_a(0);
        let source = Newest::over(&self.log, &self.layout);
        let found = self.table.next_after(m, &source, home_a, after);
        told(found, home_a)
    }

    /// The entry with the highest version of a name, with the page of its leaf.
    pub(crate) fn find_highest<M: Machine>(
        &mut self,
        m: &mut M,
        name: &FileName,
    ) -> Result<Option<FoundEntry>, Refusal>
        requires { self.old.layout.sectors ≤ (M.report m.old).sectors }
        ensures looks { LooksInto M.Machine self.old self.new m.old m.new result }
        ensures name { IfOk result (λ found. IfSome found (λ f. f.entry.key.name ≡ name.now)) }
        ensures memory { HasEnoughFor self.old name.now → result ≡ Err Why.Memory → ⊥ }
        ensures stays { HasEnoughFor self.old name.now → HasEnoughFor self.new name.now }
        ensures found { M.honest m.new → (k : Known) → Stands state IsMemoryOf self.old k (M.now m.old) → FindsEntry (highest_entry name.now (volume_of k).entries) result }
    {
        self.table.cache.attest();
        let home_a = self.layout.home_a(0);
        let source = Newest::over(&self.log, &self.layout);
        let found = self.table.highest(m, &source, home_a, name);
        told(found, home_a)
    }

    /// What was found, which is the table's only where its sectors are taken.
    pub(crate) fn met_found(&self, found: Option<FoundEntry>) -> Result<Option<Entry>, Refusal>
        requires { IfSome found (λ f. f.page < self.now.layout.pages) }
        ensures { result ≡ met_found self.now found }
    {
        match found {
            Some(found) => Ok(Some(self.met_entry(found.entry, found.page)?)),
            None => Ok(None),
        }
    }
}
