//! Edits of a table over a cache.
ghost use Rattle.std.specs.Prelude.{◌≤◌, ◌∷◌, [], ◌≡◌, ◌⊎◌, ℕ, List, Err, IfOk, IfErr, OnErr, OnOk, Some, length};
ghost use Rattle.fsd_bytes.specs.declared.refusal.Refusal.TheVariants.{Memory};
ghost use Rattle.fsd_files.specs.Volume.{entries_without};
ghost use Rattle.name_btree.specs.Fault.{outer_told};
ghost use Rattle.group_commit.specs.Cached.{AreWaiting};
ghost use Rattle.name_btree.specs.Lookup.{ShowsNoVersion};
ghost use Rattle.name_btree.specs.Path.{HasPath};
ghost use Rattle.name_page.specs.declared.pages.TheConstants.{MOST_CHANGED, MOST_REACHED};
ghost use Rattle.name_page.specs.Looks.{ChangesPages, HasAllIn, OnlyEdits};
ghost use Rattle.name_page.specs.Pages.{changes};
ghost use Rattle.version_table.specs.Fault.{outer_met};
ghost use Rattle.table_pages.specs.Kept.{IsReady};
ghost use Rattle.fsd_table.specs.Reached.{ReachesPage};
ghost use Rattle.cached_table.specs.Absent.{LacksName};
ghost use Rattle.cached_table.specs.Looking.{HasEnoughIn, HavePages};
ghost use Rattle.cached_table.specs.Editing.{FaultsEdit, DirtiesAtMost, EditsOnly, EditsTable, GivesKeep, GivesKeepIn, KeepsNone, KeepsNoneIn, StaysInCache};

use crate::CachedTable;
use fsd_bytes::{FileName, Key};
use name_btree::TreeFault;
use name_page::Pages;
use page_cache::PageSource;
use sector_disk::Machine;
use table_pages::Table;
use version_table::{VersionFault, newest, set_keep, take_out};

impl CachedTable {
    /// Takes the version with a key out of the table. `home_a` is the first sector of the homes A.
    /// Where it fails the table stays.
    pub fn take_out<M: Machine, S: PageSource>(
        &mut self,
        m: &mut M,
        source: &S,
        home_a: u32,
        key: &Key,
    ) -> Result<(), TreeFault>
        requires ready { IsReady M.Machine S.PageSource m.old self.old.cache source.now self.old.free_pages }
        requires room { length self.old.cache.dirty ≤ 56 }
        ensures edits { EditsOnly M.Machine S.PageSource source.now (outer_told result) m.old m.new self.old.cache self.new.cache self.old.free_pages self.new.free_pages }
        ensures kept { OnErr result (StaysInCache M.Machine S.PageSource source.now m.old m.new self.old.cache self.new.cache self.old.free_pages self.new.free_pages) }
        ensures waiting { AreWaiting (length self.old.free_pages) self.old.cache → AreWaiting (length self.old.free_pages) self.new.cache }
        ensures changes { DirtiesAtMost 8 self.old.cache self.new.cache }
        ensures fault { IfErr result (FaultsEdit M.Machine S.PageSource source.now m.old m.new self.old.cache self.new.cache self.new.free_pages home_a) }
        ensures made { OnOk result (EditsTable M.Machine S.PageSource source.now m.old m.new self.old.cache self.new.cache self.old.free_pages self.new.free_pages (entries_without (key.now ∷ []))) }
    {
        let mut table = Table::new(m, &mut self.cache, source, home_a, &mut self.free_pages);
        let done = take_out(&mut table, key);
        table.rest();
        done
    }
}

// Gives the highest version of a name another keep of at most 999, and answers its key.
fn keep_at<T: Pages>(t: &mut T, name: &FileName, keep: u32) -> Result<Key, VersionFault>
    requires more { MOST_REACHED ≤ (T.step t.old).most_reached }
    requires changes { MOST_CHANGED ≤ changes (T.step t.old) }
    requires keep { keep ≤ 999 }
    ensures calls { OnlyEdits T.Pages (outer_met result) t.old t.new }
    ensures pages { ChangesPages (T.step t.old) (T.step t.new) }
    ensures memory { HasPath T.Pages name.now t.old ⊎ HasAllIn T.Pages t.old → outer_met result ≡ Some Memory → ⊥ }
    ensures absent { result ≡ Err VersionFault.NoSuch → ShowsNoVersion (T.step t.new) name.now }
    ensures set { IfOk result (GivesKeep (T.trusted t.new) (T.step t.old) (T.step t.new) name.now keep) }
    ensures failed { IfErr result (KeepsNone (T.trusted t.new) (T.step t.old) (T.step t.new) name.now) }
{
    let found = newest(t, name)?;
    match set_keep(t, &found.entry, keep) {
        Ok(()) => Ok(found.entry.key),
        Err(fault) => Err(VersionFault::Table(fault)),
    }
}

impl CachedTable {
    /// Gives the highest version of a name another keep of at most 999 in the table, and answers its key. `home_a` is
    /// the first sector of the homes A.
    pub fn set_keep<M: Machine, S: PageSource>(
        &mut self,
        m: &mut M,
        source: &S,
        home_a: u32,
        name: &FileName,
        keep: u32,
    ) -> Result<Key, VersionFault>
        requires ready { IsReady M.Machine S.PageSource m.old self.old.cache source.now self.old.free_pages }
        requires room { length self.old.cache.dirty ≤ 56 }
        requires keep { keep ≤ 999 }
        ensures edits { EditsOnly M.Machine S.PageSource source.now (outer_met result) m.old m.new self.old.cache self.new.cache self.old.free_pages self.new.free_pages }
        ensures waiting { AreWaiting (length self.old.free_pages) self.old.cache → AreWaiting (length self.old.free_pages) self.new.cache }
        ensures memory { HasEnoughIn self.old.free_pages name.now self.old.cache → outer_met result ≡ Some Memory → ⊥ }
        ensures absent { result ≡ Err VersionFault.NoSuch → (pages : List (List ℕ)) → HavePages self.new.cache (length self.old.free_pages) pages → ReachesPage (LacksName name.now pages) pages }
        ensures set { IfOk result (GivesKeepIn M.Machine S.PageSource source.now m.old m.new self.old.cache self.new.cache self.old.free_pages self.new.free_pages name.now keep) }
        ensures failed { IfErr result (KeepsNoneIn M.Machine S.PageSource source.now m.old m.new self.old.cache self.new.cache self.old.free_pages self.new.free_pages home_a name.now) }
    {
        let mut table = Table::new(m, &mut self.cache, source, home_a, &mut self.free_pages);
        let done = keep_at(&mut table, name, keep);
        table.rest();
        done
    }
}
