//! Copies that are healed from their twins.
ghost use Rattle.std.specs.Prelude.{◌≡◌, ◌↔◌, ◌<◌, ◌≤◌, ◌+◌, length, true, Some, IfOk, IfErr, OnOk};
ghost use Rattle.sector_disk.specs.Damage.{IsDevice, LostCause};
ghost use Rattle.sector_disk.specs.Calls.{OnlyReads, WritesDisk, device_in, failed_at, load_failed_at};
ghost use Rattle.sector_disk.specs.Image.{stand};
ghost use Rattle.sector_disk.specs.Machine.{Holds};
ghost use Rattle.volume_layout.specs.Layout.{home_a, home_b};
ghost use Rattle.volume_layout.specs.Root.{root_bytes};
ghost use Rattle.twin_home.specs.Home.{WritesPart};
ghost use Rattle.twin_home.specs.Heal.{AreThese, HealsOne, LosesBoth, ReadsBoth, Heals, TellsCopies, SetsRoot, SetsRoots, HealsRoots, RootsHealed, WritesOnce};

use sector_disk::{Failed, LoadFault, Machine, read_sector, write_sectors};
use volume_layout::{Layout, root_bytes};

// Reads two copies, and gives the bytes of each that is whole.
fn read_both<M: Machine>(
    m: &mut M,
    a: u32,
    b: u32,
) -> Result<(Option<[u8; 512]>, Option<[u8; 512]>), Failed>
    requires first { a < (M.report m.old).sectors }
    requires second { b < (M.report m.old).sectors }

    ensures reads { OnlyReads M.Machine (device_in failed_at result) m.old m.new }
    ensures read { IfOk result (λ read. M.honest m.new → ReadsBoth a b read.0 read.1 (M.now m.old) (M.now m.new)) }
{
    let first = read_sector(m, a)?;
    let second = read_sector(m, b)?;
    Ok((first, second))
}

// Writes one copy, and answers that it was one.
fn set_copy<M: Machine>(m: &mut M, place: u32, b: &[u8; 512]) -> Result<u32, LoadFault>
    requires { place < (M.report m.old).sectors }

    ensures writes { WritesDisk M.Machine (device_in load_failed_at result) (WritesPart place b.now) m.old m.new }
    ensures device { IfErr result IsDevice }
    ensures one { IfOk result (λ count. count ≡ 1) }
    ensures long { length b.now ≡ 512 }
    ensures counts { WritesOnce M.Machine m.old m.new result }
    ensures done { OnOk result (M.honest m.new → Holds (M.now m.old) (stand (M.now m.old).image place b.now 1) (M.now m.new)) }
{
    write_sectors(m, place, b)?;
    Ok(1)
}

// Reads two copies, and writes the one that alone is damaged from the other. It answers how many it wrote.
fn heal_copies<M: Machine>(m: &mut M, a: u32, b: u32) -> Result<u32, LoadFault>
    requires first { a < (M.report m.old).sectors }
    requires second { b < (M.report m.old).sectors }

    ensures writes { WritesDisk M.Machine (device_in load_failed_at result) (Heals a b) m.old m.new }
    ensures most { M.tells m.new → (M.ledger m.new).written ≤ (M.ledger m.old).written + 1 }
    ensures healed { IfOk result (HealsOne M.Machine a b m.old m.new) }
    ensures failed { IfErr result (LosesBoth M.Machine a b m.new) }
{
    match read_both(m, a, b)? {
        (Some(_), Some(_)) => Ok(0),
        (None, Some(bytes)) => set_copy(m, a, &bytes),
        (Some(bytes), None) => set_copy(m, b, &bytes),
        (None, None) => Err(LoadFault::Lost { a, b }),
    }
}

/// Writes the one of a page's two homes that alone is damaged from the other, and answers how many it wrote. The page
/// is lost where both are damaged.
pub fn heal_page<M: Machine>(m: &mut M, l: &Layout, page: u32) -> Result<u32, LoadFault>
    requires page { page < l.now.pages }
    requires room { l.now.sectors ≤ (M.report m.old).sectors }

    ensures writes { WritesDisk M.Machine (device_in load_failed_at result) (Heals (home_a l.now page) (home_b l.now page)) m.old m.new }
    ensures most { M.tells m.new → (M.ledger m.new).written ≤ (M.ledger m.old).written + 1 }
    ensures healed { IfOk result (HealsOne M.Machine (home_a l.now page) (home_b l.now page) m.old m.new) }
    ensures failed { IfErr result (LosesBoth M.Machine (home_a l.now page) (home_b l.now page) m.new) }
{
    heal_copies(m, l.home_a(page), l.home_b(page))
}

/// Writes the one of the two roots that alone is damaged from the other, and answers how many it wrote.
/// The root is lost where both are damaged.
pub fn heal_roots<M: Machine>(m: &mut M) -> Result<u32, LoadFault>
    requires room { 4 < (M.report m.old).sectors }

    ensures writes { WritesDisk M.Machine (device_in load_failed_at result) (Heals 0 4) m.old m.new }
    ensures most { M.tells m.new → (M.ledger m.new).written ≤ (M.ledger m.old).written + 1 }
    ensures healed { IfOk result (HealsOne M.Machine 0 4 m.old m.new) }
    ensures failed { IfErr result (LosesBoth M.Machine 0 4 m.new) }
{
    heal_copies(m, 0, 4)
}

/// Writes the one of the two anchors that alone is damaged from the other, and answers how many it wrote.
/// The anchor is lost where both are damaged.
pub fn heal_anchor<M: Machine>(m: &mut M) -> Result<u32, LoadFault>
    requires room { 12 < (M.report m.old).sectors }

    ensures writes { WritesDisk M.Machine (device_in load_failed_at result) (Heals 8 12) m.old m.new }
    ensures most { M.tells m.new → (M.ledger m.new).written ≤ (M.ledger m.old).written + 1 }
    ensures healed { IfOk result (HealsOne M.Machine 8 12 m.old m.new) }
    ensures failed { IfErr result (LosesBoth M.Machine 8 12 m.new) }
{
    heal_copies(m, 8, 12)
}

// Whether a root was read as these bytes.
fn is_root(read: Option<[u8; 512]>, b: &[u8; 512]) -> bool
    ensures { (result ≡ true) ↔ (read ≡ Some b.now) }
{
    match read {
        Some(bytes) => bytes == *b,
        None => false,
    }
}

// Writes a root where it was read otherwise, and answers how many that was.
fn set_root<M: Machine>(
    m: &mut M,
    place: u32,
    read: Option<[u8; 512]>,
    b: &[u8; 512],
) -> Result<u32, LoadFault>
    requires { place < (M.report m.old).sectors }

    ensures writes { WritesDisk M.Machine (device_in load_failed_at result) (WritesPart place b.now) m.old m.new }
    ensures device { IfErr result IsDevice }
    ensures few { IfOk result (λ count. count ≤ 1) }
    ensures counted { IfOk result (λ count. M.tells m.new → (M.ledger m.new).written ≡ (M.ledger m.old).written + count) }
    ensures most { M.tells m.new → (M.ledger m.new).written ≤ (M.ledger m.old).written + 1 }
    ensures done { IfOk result (λ count. M.honest m.new → SetsRoot place read b.now count (M.now m.old) (M.now m.new)) }
{
    if is_root(read, b) {
        Ok(0)
    } else {
        set_copy(m, place, b)
    }
}

// Writes each of the two roots where it was read otherwise, and answers how many those are.
fn set_roots<M: Machine>(
    m: &mut M,
    first: Option<[u8; 512]>,
    second: Option<[u8; 512]>,
    b: &[u8; 512],
) -> Result<u32, LoadFault>
    requires { 4 < (M.report m.old).sectors }

    ensures writes { WritesDisk M.Machine (device_in load_failed_at result) (HealsRoots b.now) m.old m.new }
    ensures device { IfErr result IsDevice }
    ensures counted { IfOk result (λ count. M.tells m.new → (M.ledger m.new).written ≡ (M.ledger m.old).written + count) }
    ensures most { M.tells m.new → (M.ledger m.new).written ≤ (M.ledger m.old).written + 2 }
    ensures done { IfOk result (λ count. M.honest m.new → SetsRoots first second b.now count (M.now m.old) (M.now m.new)) }
{
    let one = set_root(m, 0, first, b)?;
    let two = set_root(m, 4, second, b)?;
    Ok(one + two)
}

/// Writes each copy of the root that is damaged or differs from the layout's, with its bytes, and no other sector. It
/// answers how many it wrote. The root is lost where both copies are damaged.
pub fn heal_root<M: Machine>(m: &mut M, l: &Layout) -> Result<u32, LoadFault>
    requires room { 4 < (M.report m.old).sectors }

    ensures writes { WritesDisk M.Machine (device_in load_failed_at result) (HealsRoots (root_bytes l.now)) m.old m.new }
    ensures copies { IfErr result (TellsCopies 0 4) }
    ensures counted { IfOk result (λ count. M.tells m.new → (M.ledger m.new).written ≡ (M.ledger m.old).written + count) }
    ensures most { M.tells m.new → (M.ledger m.new).written ≤ (M.ledger m.old).written + 2 }
    ensures done { IfOk result (λ count. M.honest m.new → RootsHealed (root_bytes l.now) count (M.now m.old) (M.now m.new)) }
    ensures lost { IfErr result (λ fault. M.honest m.new → LostCause (AreThese 0 4) (M.now m.new).image fault) }
{
    let (first, second) = read_both(m, 0, 4)?;
    if first.is_none() && second.is_none() {
        return Err(LoadFault::Lost { a: 0, b: 4 });
    }
    set_roots(m, first, second, &root_bytes(l))
}
