//! Entries that are found in the table.
ghost use Rattle.std.specs.Prelude.{◌≡◌, ◌≤◌, IfOk, IfNone, IfSome};
ghost use Rattle.fsd_files.specs.Answers.{entry_of};
ghost use Rattle.fsd_sound.specs.Lookups.{LacksKey};
ghost use Rattle.volume_contract.specs.Found.{ShowsReached};
ghost use Rattle.fsd_table.specs.Reached.{HasEntry};
ghost use Rattle.volume_contract.specs.State.{Known, Stands, volume_of};
ghost use Rattle.cached_table.specs.Looking.{FindsEntry};
ghost use Rattle.volume_laws.specs.State.{IsMemoryOf, resident, state};
ghost use Rattle.table_volume.specs.Looks.{LooksInto};

use crate::Volume;
use cached_table::told;
use fsd_bytes::{Key, Refusal};
use group_commit::Newest;
use name_btree::FoundEntry;
use sector_disk::Machine;

impl Volume {
    /// The entry with this key in the table, with the page of its leaf.
    pub(crate) fn find<M: Machine>(
        &mut self,
        m: &mut M,
        key: &Key,
    ) -> Result<Option<FoundEntry>, Refusal>
        requires { self.old.layout.sectors ≤ (M.report m.old).sectors }
        ensures looks { LooksInto M.Machine self.old self.new m.old m.new result }
        ensures key { IfOk result (λ found. IfSome found (λ f. f.entry.key ≡ key.now)) }
        ensures found { M.honest m.new → (k : Known) → Stands state IsMemoryOf self.old k (M.now m.old) → FindsEntry (entry_of key.now (volume_of k).entries) result }
        ensures absent { IfOk result (λ found. IfNone found (ShowsReached M.Machine (resident self.old) (state self.old) (state self.new) m.old m.new (LacksKey key.now))) }
        ensures there { IfOk result (λ found. IfSome found (λ f. ShowsReached M.Machine (resident self.old) (state self.old) (state self.new) m.old m.new (HasEntry f.entry))) }
    {
        self.table.cache.attest();
        let home_a = self.layout.home_a(0);
        let source = Newest::over(&self.log, &self.layout);
        let found = self.table.find(m, &source, home_a, key);
        told(found, home_a)
    }
}
