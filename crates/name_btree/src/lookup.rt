//! Looking up entries.
ghost use Rattle.std.specs.Prelude.{◌≡◌, ◌+◌, ◌<◌, ◌≤◌, ℕ, IfOk, IfErr, IfSome, Some, None, find, length, not, slice_get, if◌then◌else◌};
ghost use Rattle.std.specs.Option.{option_copied};
ghost use Rattle.fsd_formats.specs.NamePage.{FitsEntry};
ghost use Rattle.fsd_formats.specs.declared.entry.Entry.{Entry};
ghost use Rattle.fsd_table.specs.Pages.{page_at};
ghost use Rattle.fsd_table.specs.Table.{top};
ghost use Rattle.fsd_table.specs.Tree.{IsTree, table_of};
ghost use Rattle.name_page.specs.Cut.{after_cut, is_before};
ghost use Rattle.name_btree.specs.Fault.{outer_told, FailsBeside, FailsLookup};
ghost use Rattle.name_btree.specs.Path.{HasAll, HasPath, StaysBeside, StaysOnPath, met_beside};
ghost use Rattle.name_page.specs.Lookups.{entry_with, first_after, highest_of, last_that, same_name};
ghost use Rattle.name_btree.specs.Lookup.{found_entry, IsFirstBelow, IsLastBelow, TellsAt, TellsNewest, TellsLater};
ghost use Rattle.name_page.specs.declared.pages.TheConstants.{MOST_REACHED};
ghost use Rattle.name_page.specs.Looks.{OnlyReaches};
ghost use Rattle.name_page.specs.Pages.{reaches};

use crate::descent::{Neighbour, leaf_at, leaf_below, way_again};
use crate::fault::TreeFault;
use fsd_bytes::{FileName, Key};
use fsd_formats::Entry;
use fsd_table::Child;
use name_page::{Cut, Entries, Pages};

/// An entry, and the leaf that it was found in.
#[derive(Drop)]
pub struct FoundEntry {
    pub entry: Entry,
    pub page: u32,
}

// Page 0, below which all pages stand.
pub(crate) fn top() -> Child
    ensures { result ≡ top }
{
    Child {
        page: 0,
        low: None,
        high: None,
    }
}

pub(crate) fn entry_in(entries: &Entries, key: &Key) -> Option<Entry>
    ensures with { result ≡ entry_with key.now entries.now }
    ensures fits { IfSome result FitsEntry }
{
    for i in 0..entries.len() {
        if entries.compare(i, key).is_eq() {
            return Some(entries.get(i));
        }
    }
    None
}

/// The entry with this key. None is told where the leaf at the key has no such entry.
pub fn find<T: Pages>(t: &mut T, key: &Key) -> Result<Option<FoundEntry>, TreeFault>
    requires { MOST_REACHED ≤ reaches (T.step t.old) }
    ensures calls { OnlyReaches T.Pages (outer_told result) t.old t.new }
    ensures reaches { reaches (T.step t.old) ≤ reaches (T.step t.new) + 6 }
    ensures told { IfOk result (TellsAt (T.step t.new) key.now) }
    ensures found { IfOk result (λ found. T.trusted t.new → (height : ℕ) → IsTree (T.step t.old).images height → found_entry found ≡ entry_with key.now (table_of (T.step t.old).images height)) }
    ensures failed { IfErr result (FailsLookup T.Pages t.old t.new) }
{
    let found = leaf_at(t, key)?;
    match entry_in(&found.entries, key) {
        Some(entry) => Ok(Some(FoundEntry {
            entry,
            page: found.page,
        })),
        None => Ok(None),
    }
}

// Whether entry `i` stands before a place.
fn stands_before(entries: &Entries, i: u32, cut: &Cut) -> bool
    requires { i < length entries.now }
    ensures { (e : Entry) × (slice_get entries.now i ≡ Some e) × (result ≡ is_before cut.now e.key) }
{
    match cut {
        Cut::UpTo(last) => !entries.compare(i, last).is_gt(),
        other => other.is_before(&entries.get(i).key),
    }
}

// The first entry behind a place between keys.
fn first_behind(entries: &Entries, cut: &Cut) -> Option<Entry>
    ensures first { result ≡ find (λ e. not (is_before cut.now e.key)) entries.now }
    ensures fits { IfSome result FitsEntry }
{
    for i in 0..entries.len() {
        if !stands_before(entries, i, cut) {
            return Some(entries.get(i));
        }
    }
    None
}

// The last entry before a place between keys.
fn last_before(entries: &Entries, cut: &Cut) -> Option<Entry>
    ensures last { result ≡ last_that (λ e. is_before cut.now e.key) entries.now }
    ensures fits { IfSome result FitsEntry }
{
    for i in (0..entries.len()).rev() {
        let entry = entries.get(i);
        if cut.is_before(&entry.key) {
            return Some(entry);
        }
    }
    None
}

/// What was found, if it has the name.
pub fn named(found: FoundEntry, name: &FileName) -> Option<FoundEntry>
    ensures { result ≡ (if same_name found.entry.key.name name.now then Some found else None) }
{
    if found.entry.key.name.cmp(name).is_eq() {
        Some(found)
    } else {
        None
    }
}

// The first entry below a child beside the way.
fn first_below<T: Pages>(t: &mut T, next: Neighbour) -> Result<FoundEntry, TreeFault>
    requires { 6 ≤ reaches (T.step t.old) }
    ensures calls { OnlyReaches T.Pages (outer_told result) t.old t.new }
    ensures reaches { reaches (T.step t.old) ≤ reaches (T.step t.new) + 6 }
    ensures found { IfOk result (IsFirstBelow (T.step t.new) next) }
    ensures failed { IfErr result (FailsBeside (T.step t.new) next) }
{
    let found = leaf_below(t, next.child, next.above, &Cut::Start)?;
    if found.entries.len() == 0 {
        return Err(TreeFault::Broken(found.page));
    }
    Ok(FoundEntry {
        entry: found.entries.get(0),
        page: found.page,
    })
}

// The last entry below a child beside the way.
fn last_below<T: Pages>(t: &mut T, previous: Neighbour) -> Result<FoundEntry, TreeFault>
    requires { 6 ≤ reaches (T.step t.old) }
    ensures calls { OnlyReaches T.Pages (outer_told result) t.old t.new }
    ensures reaches { reaches (T.step t.old) ≤ reaches (T.step t.new) + 6 }
    ensures found { IfOk result (IsLastBelow (T.step t.new) previous) }
    ensures memory { HasAll T.Pages t.old (met_beside (page_at (T.step t.old).images) (Some previous)) → StaysBeside T.Pages previous t.old t.new result }
    ensures failed { IfErr result (FailsBeside (T.step t.new) previous) }
{
    let found = leaf_below(t, previous.child, previous.above, &Cut::End)?;
    let count = found.entries.len();
    if count == 0 {
        return Err(TreeFault::Broken(found.page));
    }
    Ok(FoundEntry {
        entry: found.entries.get(count - 1),
        page: found.page,
    })
}

// The place behind a key, or before all.
fn cut_after(after: Option<&Key>) -> Cut
    ensures { result ≡ after_cut (option_copied after.entry) }
{
    match after {
        Some(key) => Cut::UpTo(key.copied()),
        None => Cut::Start,
    }
}

/// The entry with the least later key. Any key is later than none.
/// None is told where the leaf at the key has no later entry, and no leaf stands behind it.
pub fn next_after<T: Pages>(t: &mut T, after: Option<&Key>) -> Result<Option<FoundEntry>, TreeFault>
    requires { MOST_REACHED ≤ reaches (T.step t.old) }
    ensures calls { OnlyReaches T.Pages (outer_told result) t.old t.new }
    ensures reaches { reaches (T.step t.old) ≤ reaches (T.step t.new) + 12 }
    ensures told { IfOk result (TellsLater (T.step t.new) (option_copied after.entry)) }
    ensures found { IfOk result (λ found. T.trusted t.new → (height : ℕ) → IsTree (T.step t.old).images height
        → found_entry found ≡ first_after (option_copied after.entry) (table_of (T.step t.old).images height)) }
    ensures failed { IfErr result (FailsLookup T.Pages t.old t.new) }
{
    let cut = cut_after(after);
    let found = leaf_below(t, top(), 0, &cut)?;
    if let Some(entry) = first_behind(&found.entries, &cut) {
        let page = found.page;
        return Ok(Some(FoundEntry { entry, page }));
    }
    let way = way_again(t, found.levels, &cut);
    match way.next {
        Some(next) => Ok(Some(first_below(t, next)?)),
        None => Ok(None),
    }
}

/// The entry with the highest version of a name. None is told where the last entry up to the name, in the leaf at the
/// name or the one before it, has another name, or there is none.
pub fn highest<T: Pages>(t: &mut T, name: &FileName) -> Result<Option<FoundEntry>, TreeFault>
    requires { MOST_REACHED ≤ reaches (T.step t.old) }
    ensures calls { OnlyReaches T.Pages (outer_told result) t.old t.new }
    ensures reaches { reaches (T.step t.old) ≤ reaches (T.step t.new) + 12 }
    ensures memory { HasPath T.Pages name.now t.old → StaysOnPath T.Pages t.old t.new result }
    ensures told { IfOk result (TellsNewest (T.step t.new) name.now) }
    ensures found { IfOk result (λ found. T.trusted t.new → (height : ℕ) → IsTree (T.step t.old).images height → found_entry found ≡ highest_of name.now (table_of (T.step t.old).images height)) }
    ensures failed { IfErr result (FailsLookup T.Pages t.old t.new) }
{
    let cut = Cut::Named(name.copied());
    let found = leaf_below(t, top(), 0, &cut)?;
    if let Some(entry) = last_before(&found.entries, &cut) {
        let page = found.page;
        return Ok(named(FoundEntry { entry, page }, name));
    }
    let way = way_again(t, found.levels, &cut);
    match way.previous {
        Some(previous) => Ok(named(last_below(t, previous)?, name)),
        None => Ok(None),
    }
}
