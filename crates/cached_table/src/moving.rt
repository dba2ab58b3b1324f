//! Versions that move to another name in a table over a cache.
ghost use Rattle.std.specs.Prelude.{◌≡◌, ◌+◌, ◌≤◌, IfErr, IfOk, length};
ghost use Rattle.group_commit.specs.Cached.{AreWaiting};
ghost use Rattle.name_page.specs.declared.pages.TheConstants.{MOST_CHANGED, MOST_REACHED};
ghost use Rattle.name_page.specs.Looks.{ChangesPages, OnlyEdits};
ghost use Rattle.name_page.specs.Pages.{changes, outer_in};
ghost use Rattle.table_pages.specs.Kept.{IsReady};
ghost use Rattle.cached_table.specs.Editing.{DirtiesAtMost, EditsOnly};
ghost use Rattle.cached_table.specs.Entering.{RefusesAt, up_to};
ghost use Rattle.cached_table.specs.Moving.{LacksNumber, MovesAt, MovesIn, MovesNone};

use crate::CachedTable;
use crate::entering::{enter_planned, plan_refusal};
use alloc_map::Map;
use fsd_bytes::{FileName, Key, Refusal};
use name_page::Pages;
use page_cache::PageSource;
use sector_disk::Machine;
use shadow_frees::Shadow;
use table_pages::Table;
use version_table::{Plan, plan_move};
use volume_layout::Layout;

// Plans a move, and enters the version under its new key, with the serial, the bytes and the runs that it has. Its
// sectors stay taken: only what else goes is tested.
fn move_at<T: Pages>(
    t: &mut T,
    home_a: u32,
    map: &Map,
    l: &Layout,
    shadow: &Shadow,
    key: &Key,
    name: &FileName,
) -> Result<Plan, Refusal>
    requires more { MOST_REACHED ≤ (T.step t.old).most_reached }
    requires changes { MOST_CHANGED ≤ changes (T.step t.old) }
    ensures calls { OnlyEdits T.Pages (outer_in result) t.old t.new }
    ensures pages { ChangesPages (T.step t.old) (T.step t.new) }
    ensures changes { changes (T.step t.old) ≤ changes (T.step t.new) + 36 }
    ensures moved { IfOk result (MovesAt T.Pages (up_to l.now.sectors map.now) shadow.now key.now name.now t.old t.new) }
    ensures refused { IfErr result (RefusesAt T.Pages (up_to l.now.sectors map.now) shadow.now name.now (LacksNumber key.now name.now) home_a t.old t.new) }
{
    // For the proof alone: its own call tells what a name keeps.
    let _name = name.as_bytes();
    let plan = match plan_move(t, key, name) {
        Ok(plan) => plan,
        Err(fault) => return Err(plan_refusal(fault, home_a)),
    };
    let gone = plan.gone.as_slice();
    match enter_planned(t, home_a, map, l, shadow, &plan, &gone[1..], &gone[0].entry) {
        Ok(()) => Ok(plan),
        Err(refusal) => Err(refusal),
    }
}

impl CachedTable {
    /// Makes the version of a key the next one of a name in the table, and answers the plan: first the version itself
    /// goes, under its key, then what goes by the keep, which is tested against the map and the shadow first. `home_a`
    /// is the first sector of the homes A. It comes behind a look-up that has found the version. Where it fails the
    /// table stays.
    pub fn move_to<M: Machine, S: PageSource>(
        &mut self,
        m: &mut M,
        source: &S,
        home_a: u32,
        map: &Map,
        l: &Layout,
        shadow: &Shadow,
        key: &Key,
        name: &FileName,
    ) -> Result<Plan, Refusal>
        requires ready { IsReady M.Machine S.PageSource m.old self.old.cache source.now self.old.free_pages }
        requires room { length self.old.cache.dirty ≤ 56 }
        ensures edits { EditsOnly M.Machine S.PageSource source.now (outer_in result) m.old m.new self.old.cache self.new.cache self.old.free_pages self.new.free_pages }
        ensures waiting { AreWaiting (length self.old.free_pages) self.old.cache → AreWaiting (length self.old.free_pages) self.new.cache }
        ensures changes { DirtiesAtMost 36 self.old.cache self.new.cache }
        ensures moved { IfOk result (MovesIn M.Machine S.PageSource source.now (up_to l.now.sectors map.now) shadow.now key.now name.now m.old m.new self.old.cache self.new.cache self.old.free_pages self.new.free_pages) }
        ensures refused { IfErr result (MovesNone M.Machine S.PageSource source.now (up_to l.now.sectors map.now) shadow.now key.now name.now m.old m.new self.old.cache self.new.cache self.old.free_pages self.new.free_pages home_a) }
    {
        let mut table = Table::new(m, &mut self.cache, source, home_a, &mut self.free_pages);
        let done = move_at(&mut table, home_a, map, l, shadow, key, name);
        table.rest();
        done
    }
}
