//! The versions that open readers hold, each in a slot.
ghost use Rattle.std.specs.Prelude.{◌≡◌, ◌<◌, ◌↔◌, not, All, IsTrue, length, get_or, None};
ghost use Rattle.std.specs.List.{list_any};
ghost use Rattle.sector_set.specs.Area.{IsOwn};
ghost use Rattle.sector_set.specs.Meet.{meets};
ghost use Rattle.shadow_frees.specs.Waits.{AreDisjoint};
ghost use Rattle.shadow_frees.specs.Readers.{is_empty, IsSameOrApart, AreSlots, AreTogether, AreWithin, has_same, unheld, with_held};

use run_table::{Run, Runs};
use sector_set::{SectorArea, overlap};

/// Whether each slot holds something.
pub(crate) fn are_all_taken(held: &[Option<Runs>]) -> bool
    ensures { result ≡ not (list_any is_empty held.now) }
{
    for slot in held {
        if slot.is_none() {
            return false;
        }
    }
    true
}

/// The first slot that holds nothing.
pub(crate) fn empty_slot(held: &[Option<Runs>]) -> usize
    requires { IsTrue (list_any is_empty held.now) }
    ensures inside { result < length held.now }
    ensures empty { IsTrue (is_empty (get_or held.now result None)) }
{
    let mut slot = 0;
    while held[slot].is_some() {
        slot += 1;
    }
    slot
}

/// Whether each slot has the very same runs or none of their sectors.
pub(crate) fn agree(held: &[Option<Runs>], runs: &Runs) -> bool
    ensures { IsTrue result ↔ All (IsSameOrApart runs.now) held.now }
{
    for slot in held {
        if let Some(other) = slot {
            if other != runs && overlap(other.as_slice(), runs.as_slice()) {
                return false;
            }
        }
    }
    true
}

/// Whether a slot has the very same runs.
pub(crate) fn have(held: &[Option<Runs>], runs: &Runs) -> bool
    ensures { result ≡ list_any (has_same runs.now) held.now }
{
    for slot in held {
        if let Some(other) = slot {
            if other == runs {
                return true;
            }
        }
    }
    false
}

/// Whether the runs' sectors are in a set, where all of them are or none.
pub(crate) fn are_in(area: &SectorArea, runs: &[Run]) -> bool
    requires within { AreWithin area.now runs.now }
    requires together { AreTogether area.now runs.now }
    ensures { result ≡ meets area.now.sectors runs.now }
{
    for run in runs {
        if run.length > 0 {
            return area.contains(run.start);
        }
    }
    false
}

/// The removed sectors that readers hold are kept for them.
pub(crate) fn keep_held(held: &[Option<Runs>], removed: &mut SectorArea, kept: &mut SectorArea)
    requires apart { AreDisjoint removed.old kept.old }
    requires own { IsOwn removed.old }
    requires own_kept { IsOwn kept.old }
    requires slots { AreSlots removed.old kept.old held.now }
    ensures removed { removed.new ≡ unheld held.now removed.old }
    ensures kept { kept.new ≡ with_held held.now kept.old removed.old }
{
    for slot in held {
        if let Some(runs) = slot {
            if are_in(removed, runs.as_slice()) {
                removed.remove(runs);
                kept.insert(runs);
            }
        }
    }
}
