//! Lists of entries, to be written into a leaf.
ghost use Rattle.std.specs.Prelude.{◌≡◌, ◌≤◌, ◌+◌, ◌++◌, length, map};
ghost use Rattle.std.specs.List.{AllByRecursion, flat_map};
ghost use Rattle.fsd_formats.specs.NamePage.{FitsEntry, entry_bytes};
ghost use Rattle.name_page.specs.Edits.{beside, has_order, with_entry, without};
ghost use Rattle.name_page.specs.Edits.{put};

use crate::node::Entries;
use crate::writing::entry_len;
use arrayvec::ArrayVec;
use fsd_bytes::Key;
use fsd_formats::Entry;
use std::cmp::Ordering;

/// One entry more than a leaf has room for.
pub type EntryList = ArrayVec<Entry, 19>;

/// The entry, in place of one with its key.
fn put(entry: &Entry, old: Entry) -> Entry
    ensures { result ≡ put entry.now old }
{
    if old.key.cmp(&entry.key).is_eq() {
        entry.copied()
    } else {
        old
    }
}

/// The entries, with this one in place of that with its key.
pub fn put_among(entries: &Entries, entry: &Entry) -> EntryList
    requires few { length entries.now ≤ 18 }
    requires fits { FitsEntry entry.now }
    ensures put { result.items ≡ map (put entry.now) entries.now }
    ensures fits { AllByRecursion FitsEntry result.items }
{
    let mut list = ArrayVec::new();
    for i in 0..entries.len() {
        list.push(put(entry, entries.get(i)));
    }
    list
}

/// The entries of a leaf, as a list.
pub fn listed(entries: &Entries) -> EntryList
    requires { length entries.now ≤ 18 }
    ensures entries { result.items ≡ entries.now }
    ensures fits { AllByRecursion FitsEntry result.items }
{
    let mut list = ArrayVec::new();
    for i in 0..entries.len() {
        list.push(entries.get(i));
    }
    list
}

/// A side of a key.
#[derive(Clone, Copy)]
pub enum Side {
    Lesser,
    Greater,
}

impl Side {
    // Whether what compares so with a key stands on this side of it.
    pub(crate) fn has(self, order: Ordering) -> bool
        ensures { result ≡ has_order self order }
    {
        match self {
            Side::Lesser => order.is_lt(),
            Side::Greater => order.is_gt(),
        }
    }
}

// Appends the entries on one side of a key.
fn put_side(list: &mut EntryList, entries: &Entries, key: &Key, side: Side)
    requires room { length list.old.items + length (beside side key.now entries.now) ≤ 19 }
    requires fits { AllByRecursion FitsEntry list.old.items }
    ensures entries { list.new.items ≡ list.old.items ++ beside side key.now entries.now }
    ensures fits { AllByRecursion FitsEntry list.new.items }
{
    for i in 0..entries.len() {
        if side.has(entries.compare(i, key)) {
            list.push(entries.get(i));
        }
    }
}

/// The entries without a key.
pub fn entries_without(entries: &Entries, key: &Key) -> EntryList
    requires { length entries.now ≤ 18 }
    ensures entries { result.items ≡ without key.now entries.now }
    ensures fits { AllByRecursion FitsEntry result.items }
{
    let mut list = ArrayVec::new();
    put_side(&mut list, entries, key, Side::Lesser);
    put_side(&mut list, entries, key, Side::Greater);
    list
}

/// The entries with this one, in place of that with its key.
pub fn entries_with(entries: &Entries, entry: &Entry) -> EntryList
    requires few { length entries.now ≤ 18 }
    requires fits { FitsEntry entry.now }
    ensures entries { result.items ≡ with_entry entry.now entries.now }
    ensures fits { AllByRecursion FitsEntry result.items }
{
    let mut list = ArrayVec::new();
    put_side(&mut list, entries, &entry.key, Side::Lesser);
    list.push(entry.copied());
    put_side(&mut list, entries, &entry.key, Side::Greater);
    list
}

/// How many bytes the entries take.
pub fn used(entries: &[Entry]) -> usize
    requires { length entries.now ≤ 38 }
    ensures { result ≡ length (flat_map entry_bytes entries.now) }
{
    let mut used = 0;
    for entry in entries {
        used += entry_len(entry);
    }
    used
}

/// The entries of two leaves.
pub type JoinedList = ArrayVec<Entry, 38>;

// Appends entries.
fn put_all(list: &mut JoinedList, entries: &[Entry])
    requires room { length list.old.items + length entries.now ≤ 38 }
    requires old { AllByRecursion FitsEntry list.old.items }
    requires fits { AllByRecursion FitsEntry entries.now }
    ensures entries { list.new.items ≡ list.old.items ++ entries.now }
    ensures fits { AllByRecursion FitsEntry list.new.items }
{
    for entry in entries {
        list.push(entry.copied());
    }
}

/// The entries of two lists, one behind the other.
pub fn joined(left: &[Entry], right: &[Entry]) -> JoinedList
    requires room { length left.now + length right.now ≤ 38 }
    requires left { AllByRecursion FitsEntry left.now }
    requires right { AllByRecursion FitsEntry right.now }
    ensures entries { result.items ≡ left.now ++ right.now }
    ensures fits { AllByRecursion FitsEntry result.items }
{
    let mut list = ArrayVec::new();
    put_all(&mut list, left);
    put_all(&mut list, right);
    list
}
