//! A mount from `healing` on: of the pages that the log has the first homes are written, and then the second, each in
//! ascending order, and of all else that stands twice what is damaged is written from its twin.
ghost use Rattle.std.specs.Prelude.{◌≡◌, ◌+◌, ◌*◌, ◌<◌, ◌≤◌, ℕ, List, Ok, Some, None, IfErr, MatchResult, OnOk, slice_index_or};
ghost use Rattle.volume_layout.specs.Layout.{home_a, home_b, IsPlanned};
ghost use Rattle.sector_disk.specs.declared.sector.WeakRun.{WeakRun};
ghost use Rattle.sector_disk.specs.Machine.{Moment as At};
ghost use Rattle.fsd_log.specs.Images.{last_image};
ghost use Rattle.fsd_log.specs.Scan.{Placed};
ghost use Rattle.fsd_files.specs.Disk.{Image};
ghost use Rattle.fsd_sound.specs.Homes.{home_of};
ghost use Rattle.fsd_sound.specs.Shown.{records_by};
ghost use Rattle.log_thirds.specs.Append.{IsCalmNow};
ghost use Rattle.log_thirds.specs.LogValue.{LogValue};
ghost use Rattle.mount_recover.specs.Finding.{IsExcuse};
ghost use Rattle.fsd_sound.specs.Lost.{AreHomes};
ghost use Rattle.mount_recover.specs.Mending.{AreOfVolume, AreOfAll, AreRoots, IsHomeOf, IsCompleted, IsMending, IsMended, AreHomed, KeepsUnwritten, KeepsBut, logged_count, one_if_some};
ghost use Rattle.fsd_sound.specs.Homes.{HasBothHomes, HasSome};
ghost use Rattle.mount_recover.specs.Steps.{GoesHome, MendsCopies, MendsFrom, MendsOn, ShowOrAreLost, ShowsFrom, WritesUpTo};
ghost use Rattle.mount_recover.specs.Showing.{GivesPages, ChangesHome, HasNoRoot, IsShowing, LosesNone, LosesHome};

use fsd_sound::MountFault;
use log_thirds::Log;
use sector_disk::{Machine, write_sectors};
use twin_home::{heal_page, heal_root};
use volume_layout::Layout;

// Writes the last image of a page to this home of it, when the homes before that are written.
fn put_home<M: Machine>(
    m: &mut M,
    l: &Layout,
    page: u32,
    place: u32,
    b: &[u8; 512],
) -> Result<(), MountFault>
    requires planned { IsPlanned l.now }
    requires page { page < l.now.pages }
    requires home { IsHomeOf l.now page place }
    requires room { l.now.sectors ≤ (M.report m.old).sectors }

    ensures writes { GoesHome M.Machine m.old m.new result }
    ensures counts { WritesUpTo M.Machine 1 m.old m.new result }
    ensures keeps { M.honest m.new → KeepsBut place place (M.now m.old) (M.now m.new) }
    ensures home { OnOk result (M.honest m.new → HasSome (M.now m.new) place) }
    ensures goes_on { (windows : List WeakRun) (choices : List (List (List ℕ))) (log : LogValue) (first : At) (c : IsCompleted l.now windows choices log first) → M.honest m.new →
        (last_image page (records_by l.now c.clean log.anchor) ≡ None → ⊥) → IsMending l.now windows choices log first c place 0 (M.now m.old) →
        MendsOn M.Machine l.now windows choices first
        (last_image page (records_by l.now c.clean log.anchor) ≡ Some b.now → IsMending l.now windows choices log first c (place + 1) 0 (M.now m.new)) m.old m.new result }
    ensures shown { OnOk result ((records : List Placed) (first : Image) → M.honest m.new → IsCalmNow (M.now m.old) → last_image page records ≡ Some b.now →
        IsShowing l.now records first place (M.now m.old).image → IsShowing l.now records first (place + 1) (M.now m.new).image) }
{
    match write_sectors(m, place, b) {
        Ok(()) => Ok(()),
        Err(failed) => Err(MountFault::Device(failed.place)),
    }
}

// Writes the last image of a page, where the log has one, to this home of it, when the homes before that are written.
fn write_logged<M: Machine>(
    m: &mut M,
    l: &Layout,
    log: &Log,
    page: u32,
    place: u32,
) -> Result<(), MountFault>
    requires layout { log.now.layout ≡ l.now }
    requires planned { IsPlanned l.now }
    requires page { page < l.now.pages }
    requires home { IsHomeOf l.now page place }
    requires room { l.now.sectors ≤ (M.report m.old).sectors }

    ensures mends { MendsCopies M.Machine (AreOfVolume l.now log.now) m.old m.new result }
    ensures most { M.tells m.new → (M.ledger m.new).written ≤ (M.ledger m.old).written + one_if_some (slice_index_or log.now.slots page None) }
    ensures keeps { M.honest m.new → KeepsBut place place (M.now m.old) (M.now m.new) }
    ensures homes { OnOk result (M.honest m.new → AreHomed l.now log.now place 0 (M.now m.old) → AreHomed l.now log.now (place + 1) 0 (M.now m.new)) }
    ensures goes_on { MendsFrom M.Machine l.now log.now place 0 (place + 1) 0 m.old m.new result }
    ensures shown { ShowsFrom M.Machine l.now log.now place (place + 1) m.old m.new result }
{
    let mut image = [0; 512];
    match log.image_of(m, page, &mut image) {
        Ok(true) => put_home(m, l, page, place, &image),
        Ok(false) => Ok(()),
        Err(fault) => Err(MountFault::from(fault)),
    }
}

// Writes the last image of each page that the log has to its first home, or to its second, in ascending order,
// by where these homes begin, when all before that are written.
fn write_homes<M: Machine>(m: &mut M, l: &Layout, log: &Log, start: u32) -> Result<(), MountFault>
    requires layout { log.now.layout ≡ l.now }
    requires planned { IsPlanned l.now }
    requires start { IsHomeOf l.now 0 start }
    requires room { l.now.sectors ≤ (M.report m.old).sectors }

    ensures mends { MendsCopies M.Machine (AreOfVolume l.now log.now) m.old m.new result }
    ensures most { M.tells m.new → (M.ledger m.new).written ≤ (M.ledger m.old).written + logged_count log.now l.now.pages }
    ensures keeps { M.honest m.new → KeepsUnwritten l.now (M.now m.old) (M.now m.new) }
    ensures homes { OnOk result (M.honest m.new → AreHomed l.now log.now start 0 (M.now m.old) → AreHomed l.now log.now (start + l.now.pages) 0 (M.now m.new)) }
    ensures goes_on { MendsFrom M.Machine l.now log.now start 0 (start + l.now.pages) 0 m.old m.new result }
    ensures shown { ShowsFrom M.Machine l.now log.now start (start + l.now.pages) m.old m.new result }
{
    for page in 0..l.pages() {
        write_logged(m, l, log, page, start + page)?;
    }
    Ok(())
}

// Writes the one of a page's homes that is damaged from the other, when the pages that the log has are written home,
// and the others before it are healed.
fn heal_home<M: Machine>(m: &mut M, l: &Layout, page: u32) -> Result<(), MountFault>
    requires planned { IsPlanned l.now }
    requires page { page < l.now.pages }
    requires room { l.now.sectors ≤ (M.report m.old).sectors }

    ensures mends { MendsCopies M.Machine (AreHomes l.now) m.old m.new result }
    ensures most { M.tells m.new → (M.ledger m.new).written ≤ (M.ledger m.old).written + 1 }
    ensures keeps { M.honest m.new → KeepsBut (home_a l.now page) (home_b l.now page) (M.now m.old) (M.now m.new) }
    ensures homes { OnOk result (M.honest m.new → HasBothHomes l.now (M.now m.new) page) }
    ensures goes_on { (windows : List WeakRun) (choices : List (List (List ℕ))) (log : LogValue) (first : At) (c : IsCompleted l.now windows choices log first) → M.honest m.new →
        IsMending l.now windows choices log first c (home_b l.now l.now.pages) page (M.now m.old) →
        MendsOn M.Machine l.now windows choices first
        (last_image page (records_by l.now c.clean log.anchor) ≡ None → IsMending l.now windows choices log first c (home_b l.now l.now.pages) (page + 1) (M.now m.new)) m.old m.new result }
    ensures shown { M.honest m.new → IsCalmNow (M.now m.old) →
        MatchResult result (λ _. ChangesHome l.now page (M.now m.old).image (M.now m.new).image (home_of l.now (M.now m.old).image page)) (LosesHome l.now page (M.now m.old).image) }
{
    match heal_page(m, l, page) {
        Ok(_) => Ok(()),
        Err(fault) => Err(MountFault::from(fault)),
    }
}

// Writes the one of a page's homes that is damaged from the other, where the log does not have the page.
fn heal_other<M: Machine>(m: &mut M, l: &Layout, log: &Log, page: u32) -> Result<(), MountFault>
    requires layout { log.now.layout ≡ l.now }
    requires planned { IsPlanned l.now }
    requires page { page < l.now.pages }
    requires room { l.now.sectors ≤ (M.report m.old).sectors }

    ensures mends { MendsCopies M.Machine (AreHomes l.now) m.old m.new result }
    ensures most { M.tells m.new → (M.ledger m.new).written + one_if_some (slice_index_or log.now.slots page None) ≤ (M.ledger m.old).written + 1 }
    ensures keeps { M.honest m.new → KeepsUnwritten l.now (M.now m.old) (M.now m.new) }
    ensures homes { OnOk result (M.honest m.new → AreHomed l.now log.now (home_b l.now l.now.pages) page (M.now m.old) → AreHomed l.now log.now (home_b l.now l.now.pages) (page + 1) (M.now m.new)) }
    ensures goes_on { MendsFrom M.Machine l.now log.now (home_b l.now l.now.pages) page (home_b l.now l.now.pages) (page + 1) m.old m.new result }
    ensures shown { ShowsFrom M.Machine l.now log.now (home_b l.now l.now.pages) (home_b l.now l.now.pages) m.old m.new result }
{
    if log.has(page) {
        Ok(())
    } else {
        heal_home(m, l, page)
    }
}

// Heals the homes of each page that the log does not have, in ascending order, when the pages that it has are written
// home.
fn heal_others<M: Machine>(m: &mut M, l: &Layout, log: &Log) -> Result<(), MountFault>
    requires layout { log.now.layout ≡ l.now }
    requires planned { IsPlanned l.now }
    requires room { l.now.sectors ≤ (M.report m.old).sectors }

    ensures mends { MendsCopies M.Machine (AreHomes l.now) m.old m.new result }
    ensures most { M.tells m.new → (M.ledger m.new).written + logged_count log.now l.now.pages ≤ (M.ledger m.old).written + l.now.pages }
    ensures keeps { M.honest m.new → KeepsUnwritten l.now (M.now m.old) (M.now m.new) }
    ensures homes { OnOk result (M.honest m.new → AreHomed l.now log.now (home_b l.now l.now.pages) 0 (M.now m.old) → AreHomed l.now log.now (home_b l.now l.now.pages) l.now.pages (M.now m.new)) }
    ensures goes_on { MendsFrom M.Machine l.now log.now (home_b l.now l.now.pages) 0 (home_b l.now l.now.pages) l.now.pages m.old m.new result }
    ensures shown { ShowsFrom M.Machine l.now log.now (home_b l.now l.now.pages) (home_b l.now l.now.pages) m.old m.new result }
{
    for page in 0..l.pages() {
        heal_other(m, l, log, page)?;
    }
    Ok(())
}

// Writes the pages that the log has to their first homes, and then to their second, and heals the homes of the others.
fn mend_pages<M: Machine>(m: &mut M, l: &Layout, log: &Log) -> Result<(), MountFault>
    requires layout { log.now.layout ≡ l.now }
    requires planned { IsPlanned l.now }
    requires room { l.now.sectors ≤ (M.report m.old).sectors }

    ensures mends { MendsCopies M.Machine (AreOfVolume l.now log.now) m.old m.new result }
    ensures most { M.tells m.new → (M.ledger m.new).written ≤ (M.ledger m.old).written + 2 * l.now.pages }
    ensures keeps { M.honest m.new → KeepsUnwritten l.now (M.now m.old) (M.now m.new) }
    ensures homes { OnOk result (M.honest m.new → (page : ℕ) → page < l.now.pages → HasBothHomes l.now (M.now m.new) page) }
    ensures goes_on { (windows : List WeakRun) (choices : List (List (List ℕ))) (c : IsCompleted l.now windows choices log.now (M.now m.old)) → M.honest m.new →
        MendsOn M.Machine l.now windows choices (M.now m.old) (IsMending l.now windows choices log.now (M.now m.old) c (home_b l.now l.now.pages) l.now.pages (M.now m.new)) m.old m.new result }
    ensures shown { (records : List Placed) → M.honest m.new → IsCalmNow (M.now m.old) → GivesPages log.now records (M.now m.old).image →
        MatchResult result (λ _. IsShowing l.now records (M.now m.old).image (home_b l.now l.now.pages) (M.now m.new).image) (LosesNone l.now records (M.now m.old).image) }
{
    write_homes(m, l, log, l.home_a(0))?;
    write_homes(m, l, log, l.home_b(0))?;
    heal_others(m, l, log)
}

// Writes each root that is damaged or differs, when the pages are mended.
fn mend_roots<M: Machine>(m: &mut M, l: &Layout) -> Result<(), MountFault>
    requires planned { IsPlanned l.now }
    requires room { l.now.sectors ≤ (M.report m.old).sectors }

    ensures mends { MendsCopies M.Machine AreRoots m.old m.new result }
    ensures most { M.tells m.new → (M.ledger m.new).written ≤ (M.ledger m.old).written + 2 }
    ensures keeps { M.honest m.new → KeepsBut 0 4 (M.now m.old) (M.now m.new) }
    ensures goes_on { (windows : List WeakRun) (choices : List (List (List ℕ))) (log : LogValue) (first : At) (c : IsCompleted l.now windows choices log first) → M.honest m.new →
        IsMending l.now windows choices log first c (home_b l.now l.now.pages) l.now.pages (M.now m.old) →
        MendsOn M.Machine l.now windows choices first (IsMended l.now windows choices log first c (M.now m.new)) m.old m.new result }
    ensures not_shown { IfErr result (λ fault. M.honest m.new → IsCalmNow (M.now m.old) → (HasNoRoot (M.now m.old).image → ⊥) → IsExcuse fault) }
{
    match heal_root(m, l) {
        Ok(_) => Ok(()),
        Err(fault) => Err(MountFault::from(fault)),
    }
}

/// Mends the pages, and then the roots.
pub(crate) fn mend<M: Machine>(m: &mut M, l: &Layout, log: &Log) -> Result<(), MountFault>
    requires layout { log.now.layout ≡ l.now }
    requires planned { IsPlanned l.now }
    requires room { l.now.sectors ≤ (M.report m.old).sectors }

    ensures mends { MendsCopies M.Machine (AreOfAll l.now log.now) m.old m.new result }
    ensures most { M.tells m.new → (M.ledger m.new).written ≤ (M.ledger m.old).written + (2 * l.now.pages + 2) }
    ensures keeps { M.honest m.new → KeepsUnwritten l.now (M.now m.old) (M.now m.new) }
    ensures homes { OnOk result (M.honest m.new → (page : ℕ) → page < l.now.pages → HasBothHomes l.now (M.now m.new) page) }

    // Of an image that shows a volume, and on which each record of the log is whole.
    ensures goes_on { (windows : List WeakRun) (choices : List (List (List ℕ))) (c : IsCompleted l.now windows choices log.now (M.now m.old)) → M.honest m.new →
        MendsOn M.Machine l.now windows choices (M.now m.old) (IsMended l.now windows choices log.now (M.now m.old) c (M.now m.new)) m.old m.new result }

    // Of any image on which nothing wears.
    ensures shown { (records : List Placed) → M.honest m.new → IsCalmNow (M.now m.old) → GivesPages log.now records (M.now m.old).image →
        ShowOrAreLost l.now records (M.now m.old).image (M.now m.new).image result }
{
    mend_pages(m, l, log)?;
    mend_roots(m, l)
}
