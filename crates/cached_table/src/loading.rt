//! Versions that are loaded into a table over a cache, under keys of their own.
ghost use Rattle.std.specs.Prelude.{◌≡◌, ◌+◌, ◌<◌, ◌≤◌, ◌^◌, [], IfErr, IsTrue, None, Ok, false, length, true};
ghost use Rattle.std.specs.List.{AllByRecursion};
ghost use Rattle.fsd_bytes.specs.Keys.{is_key};
ghost use Rattle.fsd_files.specs.Answers.{entry_of, entry_put};
ghost use Rattle.fsd_formats.specs.NamePage.{is_entry};
ghost use Rattle.group_commit.specs.Cached.{AreWaiting};
ghost use Rattle.name_page.specs.declared.pages.TheConstants.{MOST_CHANGED, MOST_REACHED};
ghost use Rattle.name_page.specs.Looks.{ChangesPages, OnlyEdits, OnlyWalks};
ghost use Rattle.name_page.specs.Pages.{changes, outer_in};
ghost use Rattle.run_table.specs.RunTable.{FitsRun};
ghost use Rattle.table_pages.specs.Kept.{IsReady};
ghost use Rattle.version_table.specs.Loading.{IsThere};
ghost use Rattle.cached_table.specs.Editing.{DirtiesAtMost, EditsOnly};
ghost use Rattle.cached_table.specs.Entering.{up_to};
ghost use Rattle.cached_table.specs.Loading.{LoadsAt, LoadsIn, LoadsNone, LoadsThere, RefusesLoad, entry_drafted};

use crate::CachedTable;
use crate::entering::{enter_planned, plan_refusal};
use alloc_map::Map;
use fsd_bytes::{Key, Refusal};
use fsd_formats::Entry;
use name_page::Pages;
use page_cache::PageSource;
use sector_disk::Machine;
use shadow_frees::Shadow;
use table_pages::Table;
use version_table::plan_load;
use volume_layout::Layout;

// Plans a load, and enters the version with the bytes and the runs of a draft, where none of its key is there.
fn load_at<T: Pages>(
    t: &mut T,
    home_a: u32,
    map: &Map,
    l: &Layout,
    shadow: &Shadow,
    key: &Key,
    keep: u32,
    draft: &Entry,
) -> Result<bool, Refusal>
    requires more { MOST_REACHED ≤ (T.step t.old).most_reached }
    requires changes { MOST_CHANGED ≤ changes (T.step t.old) }
    requires key { IsTrue (is_key key.now) }
    requires keep { keep ≤ 999 }
    requires draft { IsTrue (is_entry draft.now) }
    requires runs { AllByRecursion FitsRun draft.now.runs }
    requires epoch { draft.now.serial.epoch < 2 ^ 32 }
    requires count { draft.now.serial.count < 2 ^ 32 }
    ensures calls { OnlyEdits T.Pages (outer_in result) t.old t.new }
    ensures pages { ChangesPages (T.step t.old) (T.step t.new) }
    ensures changes { changes (T.step t.old) ≤ changes (T.step t.new) + 36 }
    ensures loaded { result ≡ Ok true → LoadsAt T.Pages key.now keep draft.now t.old t.new }
    ensures walks { result ≡ Ok false → OnlyWalks T.Pages None t.old t.new }
    ensures there { result ≡ Ok false → IsThere T.Pages key.now t.old t.new }
    ensures refused { IfErr result (RefusesLoad T.Pages key.now (up_to l.now.sectors map.now) shadow.now home_a t.old t.new) }
{
    let plan = match plan_load(t, key, keep) {
        Ok(Some(plan)) => plan,
        Ok(None) => return Ok(false),
        Err(fault) => return Err(plan_refusal(fault, home_a)),
    };
    match enter_planned(t, home_a, map, l, shadow, &plan, &[], draft) {
        Ok(()) => Ok(true),
        Err(refusal) => Err(refusal),
    }
}

impl CachedTable {
    /// Enters a version under this key and keep, of the bytes and in the runs of a draft, into the table, and answers
    /// whether it came: false where a version of the key is there. No version goes. `home_a` is the first sector of the
    /// homes A. Where it does not come the table stays.
    pub fn load<M: Machine, S: PageSource>(
        &mut self,
        m: &mut M,
        source: &S,
        home_a: u32,
        map: &Map,
        l: &Layout,
        shadow: &Shadow,
        key: &Key,
        keep: u32,
        draft: &Entry,
    ) -> Result<bool, Refusal>
        requires ready { IsReady M.Machine S.PageSource m.old self.old.cache source.now self.old.free_pages }
        requires room { length self.old.cache.dirty ≤ 56 }
        requires key { IsTrue (is_key key.now) }
        requires keep { keep ≤ 999 }
        requires draft { IsTrue (is_entry draft.now) }
        requires runs { AllByRecursion FitsRun draft.now.runs }
        requires epoch { draft.now.serial.epoch < 2 ^ 32 }
        requires count { draft.now.serial.count < 2 ^ 32 }
        ensures edits { EditsOnly M.Machine S.PageSource source.now (outer_in result) m.old m.new self.old.cache self.new.cache self.old.free_pages self.new.free_pages }
        ensures waiting { AreWaiting (length self.old.free_pages) self.old.cache → AreWaiting (length self.old.free_pages) self.new.cache }
        ensures changes { DirtiesAtMost 36 self.old.cache self.new.cache }
        ensures loaded { result ≡ Ok true → LoadsIn M.Machine S.PageSource source.now key.now keep draft.now m.old m.new self.old.cache self.new.cache self.old.free_pages self.new.free_pages }
        ensures there { result ≡ Ok false → LoadsThere M.Machine S.PageSource source.now key.now m.old m.new self.old.cache self.new.cache self.old.free_pages self.new.free_pages }
        ensures refused { IfErr result (LoadsNone M.Machine S.PageSource source.now key.now (up_to l.now.sectors map.now) shadow.now m.old m.new self.old.cache self.new.cache self.old.free_pages self.new.free_pages home_a) }
    {
        let mut table = Table::new(m, &mut self.cache, source, home_a, &mut self.free_pages);
        let done = load_at(&mut table, home_a, map, l, shadow, key, keep, draft);
        table.rest();
        done
    }
}
