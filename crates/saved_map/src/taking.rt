//! The marks of a saved map that are taken in, a run of set bits at a time.
ghost use Rattle.std.specs.Prelude.{◌≡◌, ◌↔◌, ◌+◌, ◌<◌, ◌≤◌, ◌&&◌, ◌||◌, ◌^◌, ◌∷◌, [], ℕ, false, length, nat_le, slice_index_or, IsTrue, IsFalse};
ghost use Rattle.volume_layout.specs.Layout.{IsPlanned};
ghost use Rattle.run_table.specs.Space.{contains};
ghost use Rattle.sector_set.specs.Area.{IsOwn};
ghost use Rattle.sector_set.specs.Bits.{in_range};
ghost use Rattle.saved_map.specs.Taking.{AreAdded, AreKept, AreNewFrom, HavePlaces, IsClear, is_set_at, marks};

use crate::bits::first_bit;
use crate::marks::first_home;
use alloc_map::Map;
use run_table::{Run, Runs};
use volume_layout::Layout;

// A run table of one run.
fn one_run(start: u32, length: u32) -> Runs
    ensures { result ≡ record { start = start; length = length } ∷ [] }
{
    let mut runs = Runs::new();
    runs.push(Run { start, length });
    runs
}

// Gives the sectors of a run back.
fn release_run(map: &mut Map, start: u32, stop: u32)
    requires own { IsOwn map.old }
    requires some { start < stop }
    requires from { map.old.from ≤ start }
    requires to { stop ≤ map.old.to }
    requires new { (s : ℕ) → start ≤ s → s < stop → IsFalse (contains map.old.sectors s) }
    ensures from { map.new.from ≡ map.old.from }
    ensures to { map.new.to ≡ map.old.to }
    ensures own { IsOwn map.new }
    ensures each { (s : ℕ) → contains map.new.sectors s ≡ (contains map.old.sectors s || in_range start stop s) }
{
    map.release(&one_run(start, stop - start));
}

// Marks adjacent pages as free.
fn free_run(free_pages: &mut [bool], from: usize, to: usize)
    requires order { from ≤ to }
    requires room { to ≤ length free_pages.old }
    ensures size { length free_pages.new ≡ length free_pages.old }
    ensures each { (page : ℕ) → slice_index_or free_pages.new page false ≡ (slice_index_or free_pages.old page false || in_range from to page) }
{
    for page in from..to {
        free_pages[page] = true;
    }
}

// Whether a run lies in an interval.
fn is_within(from: u32, to: u32, start: u32, stop: u32) -> bool
    ensures { result ≡ (nat_le from start && nat_le stop to) }
{
    from <= start && stop <= to
}

// Marks the sectors of a run, if it lies in the data area or in the first homes.
fn take_run(l: &Layout, map: &mut Map, free_pages: &mut [bool], start: u32, stop: u32) -> bool
    requires planned { IsPlanned l.now }
    requires kept { AreKept l.now map.old free_pages.old }
    requires some { start < stop }
    requires new { AreNewFrom l.now map.old free_pages.old start }
    ensures taken { IsTrue result → AreAdded l.now (in_range start stop) map.old free_pages.old map.new free_pages.new }
    ensures placed { IsTrue result ↔ HavePlaces l.now start stop }
{
    if is_within(l.data_start(), l.sectors(), start, stop) {
        release_run(map, start, stop);
        return true;
    }
    let home = first_home(l);
    if is_within(home, home + l.pages(), start, stop) {
        free_run(free_pages, (start - home) as usize, (stop - home) as usize);
        return true;
    }
    false
}

/// Marks each sector whose bit is set in a map's sector, the first bit of which is that of the sector `at`; or ends where
/// one is neither of the data area nor a first home.
pub(crate) fn take_in(
    l: &Layout,
    map: &mut Map,
    free_pages: &mut [bool],
    at: u32,
    b: &[u8; 512],
) -> bool
    requires planned { IsPlanned l.now }
    requires kept { AreKept l.now map.old free_pages.old }
    requires room { at + 3968 < 2 ^ 32 }
    requires new { AreNewFrom l.now map.old free_pages.old at }
    ensures taken { IsTrue result → AreAdded l.now (is_set_at b.now at) map.old free_pages.old map.new free_pages.new }
    ensures clear { IsTrue result ↔ IsClear l.now at b.now }
{
    let mut start = first_bit(b, 0, true);
    while start < 3968 {
        let stop = first_bit(b, start, false);
        if !take_run(l, map, free_pages, at + start, at + stop) {
            return false;
        }
        start = first_bit(b, stop, true);
    }
    true
}
