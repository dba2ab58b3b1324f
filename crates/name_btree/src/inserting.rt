//! Putting entries in.
ghost use Rattle.std.specs.Prelude.{◌≡◌, ◌+◌, ◌*◌, ◌<◌, ◌≤◌, ℕ, ◌↔◌, IsTrue, IfOk, IfErr, OnOk, OnErr, Err, Some, None, [], length, take, drop, true, false};
ghost use Rattle.fsd_bytes.specs.declared.refusal.Refusal.TheVariants.{NameTableFull};
ghost use Rattle.fsd_formats.specs.NamePage.{Leaf, Interior, is_page, is_entry, FitsEntry};
ghost use Rattle.fsd_forest.specs.Parts.{is_inside};
ghost use Rattle.fsd_forest.specs.Ways.{child_between};
ghost use Rattle.fsd_table.specs.Pages.{page_at, keys_fit, entry_keys};
ghost use Rattle.fsd_table.specs.Tree.{IsTree, table_of};
ghost use Rattle.name_btree.specs.Change.{ChangesTable, FailsInsert, SpendsAtMost};
ghost use Rattle.name_btree.specs.Draft.{drafted, AreSheets, IsTreeDraft, TakesSheets};
ghost use Rattle.name_btree.specs.Fault.{outer_told, FailsBy, IsNoTree};
ghost use Rattle.name_btree.specs.Grown.{Over, most_parted, most_taken, IsGrown, IsAboveGrown, IsParted, IsDivided, Grows, GrowsBelow, GrowsLeaf, GrowsTree, Inserts, BreaksGrowth, BreaksNew, RefusesEntry, TakesAtMost};
ghost use Rattle.name_btree.specs.Map.{IsTable, HasTable, LeavesTree, without_all};
ghost use Rattle.name_page.specs.Edits.{with_entry};
ghost use Rattle.name_page.specs.Lookups.{entry_with};
ghost use Rattle.name_page.specs.declared.pages.TheConstants.{MOST_CHANGED, MOST_REACHED};
ghost use Rattle.name_page.specs.Looks.{OnlyReaches, OnlyTakes, ShowsEach};
ghost use Rattle.name_page.specs.Pages.{with_images, reaches, changes, spare_count, is_spare, IsReached};

use crate::draft::Draft;
use crate::fault::TreeFault;
use crate::growing::{Grown, grow_leaf_with, grow_ways};
use crate::lookup::{entry_in, top};
use crate::removing::remove_in;
use crate::searching::fault_of;
use crate::walking::child_at;
use arrayvec::ArrayVec;
use fsd_bytes::Key;
use fsd_formats::Entry;
use fsd_table::Child;
use name_page::{Cut, Entries, Node, Pages, Ways, ways_before, ways_with};

/// Puts an entry in, whose key no entry has, and takes those with two keys at most out. Of the pages that are spare it
/// takes 7 at most, whatever it makes spare. Where it answers Broken it has walked all pages up to that one,
/// and the step has ended.
pub fn insert<T: Pages>(t: &mut T, entry: &Entry, gone: &ArrayVec<Key, 2>) -> Result<(), TreeFault>
    requires more { MOST_REACHED ≤ reaches (T.step t.old) }
    requires changes { MOST_CHANGED ≤ changes (T.step t.old) }
    requires entry { IsTrue (is_entry entry.now) }
    requires fits { FitsEntry entry.now }
    requires new { T.trusted t.old → (height : ℕ) → IsTree (T.step t.old).images height → entry_with entry.now.key (without_all gone.now.items (table_of (T.step t.old).images height)) ≡ None }
    ensures edits { ChangesTable T.Pages t.old t.new result }
    ensures spent { SpendsAtMost 30 36 (T.step t.old) (T.step t.new) }
    ensures taken { TakesAtMost 7 (T.step t.old).spares (T.step t.new).spares }
    ensures inserted { OnOk result (T.trusted t.new → (height : ℕ) → IsTable (T.step t.old) height → HasTable (T.step t.new) (with_entry entry.now (without_all gone.now.items (table_of (T.step t.old).images height)))) }
    ensures full { let free = spare_count (T.step t.old) in (result ≡ Err (TreeFault.Pages (NameTableFull free))) ↔ (free < 8) }
    ensures failed { IfErr result (FailsInsert T.Pages t.old t.new) }
{
    if let Err(refusal) = t.spare(8) {
        return Err(TreeFault::Pages(refusal));
    }
    let mut draft = Draft::new();
    if let Err(fault) = remove_all(t, &mut draft, gone.as_slice()) {
        return Err(fault_of(t, fault));
    }
    if let Err(fault) = insert_in(t, &mut draft, entry) {
        return Err(fault_of(t, fault));
    }
    draft.commit(t);
    Ok(())
}

// Takes the entries with some keys out of the pages.
fn remove_all<T: Pages>(t: &mut T, draft: &mut Draft, gone: &[Key]) -> Result<(), TreeFault>
    requires more { 24 ≤ reaches (T.step t.old) }
    requires few { length gone.now ≤ 2 }
    requires sheets { draft.old.sheets.items ≡ [] }
    requires freed { draft.old.freed.items ≡ [] }
    ensures calls { OnlyReaches T.Pages (outer_told result) t.old t.new }
    ensures reaches { reaches (T.step t.old) ≤ reaches (T.step t.new) + 24 }
    ensures draft { OnOk result (IsTreeDraft (T.step t.new) draft.new) }
    ensures room { OnOk result (length draft.new.sheets.items ≤ 16) }
    ensures left { OnOk result (ShowsEach (T.step t.new) (λ pages. LeavesTree pages draft.new gone.now)) }
    ensures fault { IfErr result (FailsBy (T.step t.new) (λ pages page. IsNoTree pages)) }
{
    for key in gone {
        remove_in(t, draft, key)?;
    }
    Ok(())
}

// Puts an entry into the drafted pages.
fn insert_in<T: Pages>(t: &mut T, draft: &mut Draft, entry: &Entry) -> Result<(), TreeFault>
    requires more { 6 ≤ reaches (T.step t.old) }
    requires promised { 7 ≤ (T.step t.old).promised }
    requires changes { 7 ≤ changes (T.step t.old) }
    requires room { length draft.old.sheets.items ≤ 26 }
    requires draft { IsTreeDraft (T.step t.old) draft.old }
    requires entry { is_entry entry.now ≡ true }
    requires fits { FitsEntry entry.now }
    ensures calls { OnlyTakes T.Pages (outer_told result) t.old t.new }
    ensures failed { OnErr result (OnlyReaches T.Pages (outer_told result) t.old t.new) }
    ensures reaches { reaches (T.step t.old) ≤ reaches (T.step t.new) + 6 }
    ensures drafted { OnOk result (GrowsTree (T.step t.old) (T.step t.new) draft.old draft.new 13) }
    ensures inserted { OnOk result (ShowsEach (T.step t.new) (λ pages. Inserts entry.now (with_images pages (T.step t.old)) (with_images pages (T.step t.new)) (drafted draft.old.sheets.items pages) (drafted draft.new.sheets.items pages))) }
    ensures fault { IfErr result (FailsBy (T.step t.new) (λ pages. BreaksNew entry.now (drafted draft.old.sheets.items pages))) }
{
    match insert_below(t, draft, &top(), entry, 5)? {
        Grown::Whole => Ok(()),
        Grown::Parted(left, separator) => {
            draft.put_ways(t, 0, left, &[separator]);
            Ok(())
        }
    }
}

// Puts an entry in below a child, so many levels at most above the leaves.
fn insert_below<T: Pages>(
    t: &mut T,
    draft: &mut Draft,
    child: &Child,
    entry: &Entry,
    levels: u32,
) -> Result<Grown, TreeFault>
    requires more { levels < reaches (T.step t.old) }
    requires levels { levels ≤ 5 }
    requires promised { most_taken child.now.page levels ≤ (T.step t.old).promised }
    requires changes { most_taken child.now.page levels ≤ changes (T.step t.old) }
    requires room { length draft.old.sheets.items + 2 * levels + 2 ≤ MOST_CHANGED }
    requires sheets { AreSheets (T.step t.old) draft.old.sheets.items }
    requires inside { is_inside child.now entry.now.key ≡ true }
    requires entry { is_entry entry.now ≡ true }
    requires fits { FitsEntry entry.now }
    ensures calls { OnlyTakes T.Pages (outer_told result) t.old t.new }
    ensures failed { OnErr result (OnlyReaches T.Pages (outer_told result) t.old t.new) }
    ensures reaches { reaches (T.step t.old) ≤ reaches (T.step t.new) + levels + 1 }
    ensures drafted { OnOk result (GrowsBelow (T.step t.old) (T.step t.new) draft.old draft.new (2 * levels + 2) child.now) }
    ensures grown { IfOk result (λ grown. ShowsEach (T.step t.new) (λ pages. Grows entry.now (with_images pages (T.step t.old)) (with_images pages (T.step t.new)) (drafted draft.old.sheets.items pages) (drafted draft.new.sheets.items pages) levels child.now grown)) }
    ensures fault { IfErr result (FailsBy (T.step t.new) (λ pages. BreaksGrowth entry.now (drafted draft.old.sheets.items pages) levels child.now)) }
{
    match draft.child_node(t, child)? {
        Node::Leaf(entries) => insert_here(t, draft, child, &entries, entry),
        Node::Interior(ways) if levels > 0 => {
            let i = ways_before(&ways, &Cut::UpTo(entry.key.copied()));
            let below = child_at(&ways, i, child);
            // Page 0 stands below no other, and may take two pages where it is parted.
            if below.page == 0 {
                return Err(TreeFault::Broken(below.page));
            }
            let grown = insert_below(t, draft, &below, entry, levels - 1)?;
            Ok(grow_above(t, draft, child, &ways, i, grown))
        }
        _ => Err(TreeFault::Broken(child.page)),
    }
}

// What becomes of a page, once its child `i` has grown.
fn grow_above<T: Pages>(
    t: &mut T,
    draft: &mut Draft,
    above: &Child,
    ways: &Ways,
    i: u32,
    below: Grown,
) -> Grown
    requires promised { most_parted above.now.page ≤ (T.step t.old).promised }
    requires more { most_parted above.now.page ≤ changes (T.step t.old) }
    requires room { length draft.old.sheets.items + 2 ≤ MOST_CHANGED }
    requires sheets { AreSheets (T.step t.old) draft.old.sheets.items }
    requires reached { IsReached (T.step t.old) above.now.page }
    requires used { is_spare (T.step t.old).spares above.now.page ≡ false }
    requires ways { is_page above.now.page (length (T.step t.old).images) (Interior ways.now.0 ways.now.1) ≡ true }
    requires place { i ≤ length ways.now.1 }
    requires sound { IsParted (T.step t.old) below }
    requires divided { IsDivided (child_between ways.now.0 above.now.low above.now.high (take i ways.now.1) (drop i ways.now.1)) below }
    ensures calls { OnlyTakes T.Pages None t.old t.new }
    ensures grown { Over (T.step t.old) (λ pages. IsGrown (with_images pages (T.step t.old)) (with_images pages (T.step t.new)) draft.old.sheets.items draft.new.sheets.items above.now.page result) }
    ensures above { Over (T.step t.old) (λ pages. IsAboveGrown (drafted draft.old.sheets.items pages) (drafted draft.new.sheets.items pages) above.now.page ways.now.0 ways.now.1 i below result) }
    ensures freed { draft.new.freed.items ≡ draft.old.freed.items }
    ensures drawn { TakesSheets (T.step t.old) (T.step t.new) draft.old.sheets.items draft.new.sheets.items }
    ensures reached { (T.step t.new).reached ≡ (T.step t.old).reached }
{
    match below {
        Grown::Whole => Grown::Whole,
        Grown::Parted(_, separator) => {
            let separators = ways_with(ways, i, separator);
            grow_ways(t, draft, above.page, ways.first(), &separators, i)
        }
    }
}

// Puts an entry into a leaf.
fn insert_here<T: Pages>(
    t: &mut T,
    draft: &mut Draft,
    child: &Child,
    entries: &Entries,
    entry: &Entry,
) -> Result<Grown, TreeFault>
    requires promised { most_parted child.now.page ≤ (T.step t.old).promised }
    requires more { most_parted child.now.page ≤ changes (T.step t.old) }
    requires room { length draft.old.sheets.items + 2 ≤ MOST_CHANGED }
    requires sheets { AreSheets (T.step t.old) draft.old.sheets.items }
    requires reached { IsReached (T.step t.old) child.now.page }
    requires used { is_spare (T.step t.old).spares child.now.page ≡ false }
    requires leaf { ShowsEach (T.step t.old) (λ pages. page_at (drafted draft.old.sheets.items pages) child.now.page ≡ Some (Leaf entries.now)) }
    requires keys { keys_fit child.now.low child.now.high (entry_keys entries.now) ≡ true }
    requires inside { is_inside child.now entry.now.key ≡ true }
    requires entry { is_entry entry.now ≡ true }
    requires fits { FitsEntry entry.now }
    ensures untold { outer_told result ≡ None }
    ensures calls { OnlyTakes T.Pages (outer_told result) t.old t.new }
    ensures grown { IfOk result (GrowsLeaf entry.now (T.step t.old) (T.step t.new) draft.old.sheets.items draft.new.sheets.items child.now) }
    ensures freed { draft.new.freed.items ≡ draft.old.freed.items }
    ensures reached { (T.step t.new).reached ≡ (T.step t.old).reached }
    ensures failed { IfErr result (RefusesEntry T.Pages entry.now t.old t.new draft.old.sheets.items child.now) }
{
    if entry_in(entries, &entry.key).is_some() {
        return Err(TreeFault::Broken(child.page));
    }
    Ok(grow_leaf_with(t, draft, child.page, entries, entry))
}
