//! What is too much for one page, in two.
ghost use Rattle.std.specs.Prelude.{◌≡◌, ◌<◌, ◌≤◌, ◌+◌, ◌-◌, ◌&&◌, ℕ, Some, true, false, length, take, drop, nat_lt, slice_get};
ghost use Rattle.std.specs.List.{flat_map, list_all};
ghost use Rattle.fsd_bytes.specs.Keys.{is_key};
ghost use Rattle.fsd_formats.specs.NamePage.{is_entry, are_ascending, entry_bytes, room};
ghost use Rattle.fsd_table.specs.Pages.{entry_keys, separator_keys};
ghost use Rattle.fsd_formats.specs.declared.entry.Entry.{Entry};
ghost use Rattle.name_page.specs.declared.parting.Fuller.TheVariants.{Neither};
ghost use Rattle.name_page.specs.Parting.{AreLeaves, AreInteriors, fuller_by};
ghost use Rattle.name_page.specs.declared.writing.TheConstants.{LEAST_USED, PAGE_ROOM};

use crate::node::Entries;
use crate::writing::{LEAST_USED, PAGE_ROOM, entry_len};
use fsd_bytes::Key;
use fsd_formats::{Entry, Separator};

/// The part that is to have the most, of what is too much for one page.
#[derive(Drop)]
pub enum Fuller {
    Front,
    Behind,
    Neither,
}

/// The part that is to be the fuller one, once an entry comes to those of a leaf: one that comes last begins the part
/// that is to grow, as the next ones do where keys come in order.
pub fn fuller_with(entries: &Entries, key: &Key) -> Fuller
    ensures ends { (first last : Entry) → slice_get entries.now 0 ≡ Some first → slice_get entries.now (length entries.now - 1) ≡ Some last → result ≡ fuller_by first last key.now }
    ensures none { length entries.now ≡ 0 → result ≡ Neither }
{
    let count = entries.len();
    if count == 0 {
        return Fuller::Neither;
    }
    if entries.compare(count - 1, key).is_lt() {
        Fuller::Front
    } else if entries.compare(0, key).is_gt() {
        Fuller::Behind
    } else {
        Fuller::Neither
    }
}

// How many of the bytes the front part is to have.
fn wish_of(whole: usize, fuller: Fuller) -> usize
    ensures { result ≤ whole }
{
    match fuller {
        Fuller::Front => whole,
        Fuller::Behind => 0,
        Fuller::Neither => whole / 2,
    }
}

// Whether the front of so many bytes is to end before the next entry, with which it would have more: it has enough for a
// leaf, and the entry would be too much for it or is missed behind it, or leads it further away from what is wished for.
fn is_enough(used: usize, next: usize, whole: usize, wish: usize) -> bool
    requires used { used ≤ room }
    requires next { next ≤ used + 108 }
    requires whole { whole ≤ room + LEAST_USED }
    requires wish { wish ≤ whole }
    ensures least { result ≡ true → LEAST_USED ≤ used }
    ensures goes_on { result ≡ false → LEAST_USED ≤ used → next ≤ room }
    ensures left { result ≡ false → LEAST_USED ≤ used → next + LEAST_USED ≤ whole }
{
    used >= LEAST_USED && (next > PAGE_ROOM || next + LEAST_USED > whole || used + next >= 2 * wish)
}

/// Where entries that are too many for one leaf, and take so many bytes, are parted in two: the fuller part has as much
/// as it may, and where neither is to be it the parts are as equal as they may be.
pub fn leaf_cut(entries: &[Entry], whole: usize, fuller: Fuller) -> usize
    requires entries { list_all is_entry entries.now ≡ true }
    requires order { are_ascending (entry_keys entries.now) ≡ true }
    requires used { whole ≡ length (flat_map entry_bytes entries.now) }
    requires many { room < length (flat_map entry_bytes entries.now) }
    requires few { length (flat_map entry_bytes entries.now) ≤ room + LEAST_USED }
    ensures front { 0 < result }
    ensures behind { result < length entries.now }
    ensures leaves { AreLeaves (take result entries.now) (drop result entries.now) }
{
    let wish = wish_of(whole, fuller);
    let mut used = 0;
    for (i, entry) in entries.iter().enumerate() {
        let next = used + entry_len(entry);
        if is_enough(used, next, whole, wish) {
            return i;
        }
        used = next;
    }
    entries.len()
}

/// One of ten separators, between those of two pages.
pub fn middle(separators: &[Separator], at: usize) -> Separator
    requires ten { length separators.now ≡ 10 }
    requires least { 4 ≤ at }
    requires most { at ≤ 5 }
    ensures there { slice_get separators.now at ≡ Some result }
    ensures interiors { (p first : ℕ) → list_all (λ s. is_key s.key && nat_lt s.child p) separators.now ≡ true → are_ascending (separator_keys separators.now) ≡ true
        → first < p → AreInteriors p first (take at separators.now) result.child (drop (at + 1) separators.now) }
{
    let middle = &separators[at];
    Separator {
        key: middle.key.copied(),
        child: middle.child,
    }
}
