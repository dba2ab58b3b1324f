//! What is put into a page, which is parted where it is too much for one.
ghost use Rattle.std.specs.Prelude.{◌≡◌, ◌+◌, ◌<◌, ◌≤◌, None, length, true, false};
ghost use Rattle.std.specs.List.{AllByRecursion, flat_map};
ghost use Rattle.fsd_formats.specs.NamePage.{FitsEntry, FitsSeparator, entry_bytes, is_entry, room};
ghost use Rattle.name_btree.specs.Draft.{drafted, AreSheets, TakesSheets};
ghost use Rattle.name_btree.specs.Grown.{TakesSpare, Over, most_parted, front_came, FitsTwoLeaves, FitsTwoInteriors, IsFront, IsGrown, OnlyDraws, AreLeavesOf, AreInteriorsOf};
ghost use Rattle.name_page.specs.Edits.{with_entry};
ghost use Rattle.name_page.specs.declared.pages.TheConstants.{MOST_CHANGED};
ghost use Rattle.name_page.specs.Pages.{changes, is_spare, with_images, IsReached};

use crate::draft::{Draft, take_page};
use fsd_formats::{Entry, Separator};
use name_page::{
    Entries, EntryList, Fuller, PAGE_ROOM, Pages, SeparatorList, entries_with, fuller_with,
    leaf_cut, middle, text_with, used,
};

/// What became of a page: it has all, or there are two with a separator between them.
#[derive(Drop)]
pub(crate) enum Grown {
    Whole,
    Parted(u32, Separator),
}

// Where the front of a page that is parted goes: page 0 keeps its place above both parts.
fn front_page<T: Pages>(t: &mut T, page: u32) -> u32
    requires promised { most_parted page ≤ (T.step t.old).promised }
    requires more { most_parted page ≤ changes (T.step t.old) }
    requires reached { IsReached (T.step t.old) page }
    requires used { is_spare (T.step t.old).spares page ≡ false }
    ensures outside { T.outside None t.old t.new }
    ensures takes { TakesSpare (T.step t.old) (T.step t.new) (front_came page result) }
    ensures promised { 0 < (T.step t.new).promised }
    ensures more { 0 < changes (T.step t.new) }
    ensures stays { OnlyDraws (T.step t.old) (T.step t.new) }
    ensures front { IsFront (T.step t.new) page result }
{
    if page == 0 { take_page(t) } else { page }
}

// The page is to be a leaf of these entries, or two are where they are too many for one.
fn grow_leaf<T: Pages>(
    t: &mut T,
    draft: &mut Draft,
    page: u32,
    entries: &EntryList,
    fuller: Fuller,
) -> Grown
    requires promised { most_parted page ≤ (T.step t.old).promised }
    requires more { most_parted page ≤ changes (T.step t.old) }
    requires room { length draft.old.sheets.items + 2 ≤ MOST_CHANGED }
    requires sheets { AreSheets (T.step t.old) draft.old.sheets.items }
    requires reached { IsReached (T.step t.old) page }
    requires used { is_spare (T.step t.old).spares page ≡ false }
    requires entries { FitsTwoLeaves page entries.now.items }
    requires fits { AllByRecursion FitsEntry entries.now.items }
    ensures outside { T.outside None t.old t.new }
    ensures grown { Over (T.step t.old) (λ pages. IsGrown (with_images pages (T.step t.old)) (with_images pages (T.step t.new)) draft.old.sheets.items draft.new.sheets.items page result) }
    ensures leaves { Over (T.step t.old) (λ pages. AreLeavesOf (drafted draft.new.sheets.items pages) page entries.now.items result) }
    ensures freed { draft.new.freed.items ≡ draft.old.freed.items }
    ensures drawn { TakesSheets (T.step t.old) (T.step t.new) draft.old.sheets.items draft.new.sheets.items }
    ensures stays { OnlyDraws (T.step t.old) (T.step t.new) }
{
    let entries = entries.as_slice();
    let whole = used(entries);
    if whole <= PAGE_ROOM {
        draft.put_leaf(t, page, entries);
        return Grown::Whole;
    }
    let (front, behind) = entries.split_at(leaf_cut(entries, whole, fuller));
    let left = front_page(t, page);
    let right = take_page(t);
    draft.put_leaf(t, left, front);
    draft.put_leaf(t, right, behind);
    let separator = Separator {
        key: behind[0].key.copied(),
        child: right,
    };
    Grown::Parted(left, separator)
}

// The same by a list of the entries. It has a frame of its own, since most leaves have room and need no list.
#[inline(never)]
fn grow_leaf_listed<T: Pages>(
    t: &mut T,
    draft: &mut Draft,
    page: u32,
    entries: &Entries,
    entry: &Entry,
) -> Grown
    requires promised { most_parted page ≤ (T.step t.old).promised }
    requires more { most_parted page ≤ changes (T.step t.old) }
    requires room { length draft.old.sheets.items + 2 ≤ MOST_CHANGED }
    requires sheets { AreSheets (T.step t.old) draft.old.sheets.items }
    requires reached { IsReached (T.step t.old) page }
    requires used { is_spare (T.step t.old).spares page ≡ false }
    requires few { length entries.now ≤ 18 }
    requires entries { FitsTwoLeaves page (with_entry entry.now entries.now) }
    requires fits { FitsEntry entry.now }
    ensures outside { T.outside None t.old t.new }
    ensures grown { Over (T.step t.old) (λ pages. IsGrown (with_images pages (T.step t.old)) (with_images pages (T.step t.new)) draft.old.sheets.items draft.new.sheets.items page result) }
    ensures leaves { Over (T.step t.old) (λ pages. AreLeavesOf (drafted draft.new.sheets.items pages) page (with_entry entry.now entries.now) result) }
    ensures freed { draft.new.freed.items ≡ draft.old.freed.items }
    ensures drawn { TakesSheets (T.step t.old) (T.step t.new) draft.old.sheets.items draft.new.sheets.items }
    ensures stays { OnlyDraws (T.step t.old) (T.step t.new) }
{
    let list = entries_with(entries, entry);
    grow_leaf(t, draft, page, &list, fuller_with(entries, &entry.key))
}

/// The page is to be a leaf of these entries and one more, or two are where they are too many for one.
pub(crate) fn grow_leaf_with<T: Pages>(
    t: &mut T,
    draft: &mut Draft,
    page: u32,
    entries: &Entries,
    entry: &Entry,
) -> Grown
    requires promised { most_parted page ≤ (T.step t.old).promised }
    requires more { most_parted page ≤ changes (T.step t.old) }
    requires room { length draft.old.sheets.items + 2 ≤ MOST_CHANGED }
    requires sheets { AreSheets (T.step t.old) draft.old.sheets.items }
    requires reached { IsReached (T.step t.old) page }
    requires used { is_spare (T.step t.old).spares page ≡ false }
    requires few { length entries.now ≤ 18 }
    requires most { length (flat_map entry_bytes entries.now) ≤ room }
    requires entries { FitsTwoLeaves page (with_entry entry.now entries.now) }
    requires entry { is_entry entry.now ≡ true }
    requires fits { FitsEntry entry.now }
    ensures outside { T.outside None t.old t.new }
    ensures grown { Over (T.step t.old) (λ pages. IsGrown (with_images pages (T.step t.old)) (with_images pages (T.step t.new)) draft.old.sheets.items draft.new.sheets.items page result) }
    ensures leaves { Over (T.step t.old) (λ pages. AreLeavesOf (drafted draft.new.sheets.items pages) page (with_entry entry.now entries.now) result) }
    ensures freed { draft.new.freed.items ≡ draft.old.freed.items }
    ensures drawn { TakesSheets (T.step t.old) (T.step t.new) draft.old.sheets.items draft.new.sheets.items }
    ensures stays { OnlyDraws (T.step t.old) (T.step t.new) }
{
    let text = text_with(entries, entry);
    if text.bytes.len() <= PAGE_ROOM {
        draft.put_text(t, page, &text);
        return Grown::Whole;
    }
    grow_leaf_listed(t, draft, page, entries, entry)
}

// Where ten separators are parted, of which this one is new: it comes to the fewer, as the next ones do where keys come
// in order.
fn ways_cut(new: u32) -> usize
    ensures least { 4 ≤ result }
    ensures most { result ≤ 5 }
{
    if new < 5 { 4 } else { 5 }
}

/// The page is to lead to a first child, and behind each separator, of which this one is new, to another,
/// or two are where they are too many for one.
pub(crate) fn grow_ways<T: Pages>(
    t: &mut T,
    draft: &mut Draft,
    page: u32,
    first: u32,
    separators: &SeparatorList,
    new: u32,
) -> Grown
    requires promised { most_parted page ≤ (T.step t.old).promised }
    requires more { most_parted page ≤ changes (T.step t.old) }
    requires room { length draft.old.sheets.items + 2 ≤ MOST_CHANGED }
    requires sheets { AreSheets (T.step t.old) draft.old.sheets.items }
    requires reached { IsReached (T.step t.old) page }
    requires used { is_spare (T.step t.old).spares page ≡ false }
    requires separators { FitsTwoInteriors (length (T.step t.old).images) page first separators.now.items }
    requires fits { AllByRecursion FitsSeparator separators.now.items }
    ensures outside { T.outside None t.old t.new }
    ensures grown { Over (T.step t.old) (λ pages. IsGrown (with_images pages (T.step t.old)) (with_images pages (T.step t.new)) draft.old.sheets.items draft.new.sheets.items page result) }
    ensures interiors { Over (T.step t.old) (λ pages. AreInteriorsOf (drafted draft.new.sheets.items pages) page first separators.now.items result) }
    ensures freed { draft.new.freed.items ≡ draft.old.freed.items }
    ensures drawn { TakesSheets (T.step t.old) (T.step t.new) draft.old.sheets.items draft.new.sheets.items }
    ensures stays { OnlyDraws (T.step t.old) (T.step t.new) }
{
    let separators = separators.as_slice();
    if separators.len() <= 9 {
        draft.put_ways(t, page, first, separators);
        return Grown::Whole;
    }
    let cut = ways_cut(new);
    let middle = middle(separators, cut);
    let left = front_page(t, page);
    let right = take_page(t);
    draft.put_ways(t, left, first, &separators[..cut]);
    draft.put_ways(t, right, middle.child, &separators[cut + 1..]);
    let separator = Separator {
        key: middle.key,
        child: right,
    };
    Grown::Parted(left, separator)
}
