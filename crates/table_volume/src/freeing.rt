//! What a force makes free.
ghost use Rattle.std.specs.Prelude.{◌≡◌, ◌<◌, ◌||◌, ◌∷◌, [], ℕ, IsFalse, IsTrue, if◌then◌else◌};
ghost use Rattle.run_table.specs.Space.{contains};
ghost use Rattle.sector_set.specs.Area.{AreOut, IsOwn, area, together};
ghost use Rattle.shadow_frees.specs.Readers.{unheld, with_held};
ghost use Rattle.shadow_frees.specs.Waits.{run_between};
ghost use Rattle.cached_table.specs.Entering.{AreIdleInTurn, with_gone};

use alloc_map::Map;
use run_table::{Run, Runs};
use shadow_frees::Shadow;
use version_table::Leaving;

/// The run from a sector to another is free.
pub(crate) fn release_between(map: &mut Map, start: u32, end: u32)
    requires order { start < end }
    requires out { AreOut map.old (run_between (start, end) ∷ []) }
    ensures { map.new ≡ together map.old (run_between (start, end) ∷ []) }
{
    let mut runs = Runs::new();
    runs.push(Run {
        start,
        length: end - start,
    });
    map.release(&runs);
}

/// Behind a force: what waited for it and nobody holds is free, and no more of it waits.
pub(crate) fn free_committed(map: &mut Map, shadow: &mut Shadow)
    requires own { IsOwn map.old }
    requires from { shadow.old.removed.from ≡ map.old.from }
    requires to { shadow.old.removed.to ≡ map.old.to }
    requires apart { (s : ℕ) → IsTrue (contains map.old.sectors s) → IsFalse (contains shadow.old.removed.sectors s) }
    ensures map { map.new ≡ area map.old.from map.old.to (λ s. contains map.old.sectors s || contains (unheld shadow.old.held shadow.old.removed).sectors s) }
    ensures removed { shadow.new.removed ≡ record { from = map.old.from; to = map.old.to; sectors = [] } }
    ensures kept { shadow.new.kept ≡ with_held shadow.old.held shadow.old.kept shadow.old.removed }
    ensures unfinished { shadow.new.unfinished ≡ shadow.old.unfinished }
    ensures held { shadow.new.held ≡ shadow.old.held }
{
    while let Some((start, end)) = shadow.committed() {
        release_between(map, start, end);
    }
}

// The sectors of versions that go wait for a force.
fn free_gone(shadow: &mut Shadow, gone: &[Leaving])
    requires { AreIdleInTurn shadow.old gone.now }
    ensures removed { shadow.new.removed ≡ with_gone shadow.old.removed gone.now }
    ensures kept { shadow.new.kept ≡ shadow.old.kept }
    ensures unfinished { shadow.new.unfinished ≡ shadow.old.unfinished }
    ensures held { shadow.new.held ≡ shadow.old.held }
{
    for one in gone {
        shadow.freed(&one.entry.runs);
    }
}

/// The sectors of versions that went wait for a force, if a page waits for one.
pub(crate) fn free_gone_if(waits: bool, shadow: &mut Shadow, gone: &[Leaving])
    requires { AreIdleInTurn shadow.old gone.now }
    ensures removed { shadow.new.removed ≡ (if waits then with_gone shadow.old.removed gone.now else shadow.old.removed) }
    ensures kept { shadow.new.kept ≡ shadow.old.kept }
    ensures unfinished { shadow.new.unfinished ≡ shadow.old.unfinished }
    ensures held { shadow.new.held ≡ shadow.old.held }
{
    if waits {
        free_gone(shadow, gone);
    }
}
