//! All that stands twice outside the log, healed.
ghost use Rattle.std.specs.Prelude.{◌≡◌, ◌≤◌, Ok, IfOk, IfErr, OnOk};
ghost use Rattle.volume_layout.specs.Layout.{IsPlanned};
ghost use Rattle.sector_disk.specs.Calls.{WritesDisk, device_in, load_failed_at};
ghost use Rattle.sector_disk.specs.Damage.{LostCause};
ghost use Rattle.sector_disk.specs.Machine.{wrote};
ghost use Rattle.fsd_files.specs.Scrub.{CountsTwins};
ghost use Rattle.fsd_sound.specs.Lost.{AreHomes, AreTwinCopies};
ghost use Rattle.twin_home.specs.Twins.{CountsHomes, HealsPages, HealsTwins, HomesStand, TwinsHaveSome};

use crate::heal::{heal_anchor, heal_page, heal_roots};
use sector_disk::{LoadFault, Machine};
use volume_layout::Layout;

/// Writes the one of each page's two homes that alone is damaged from the other, and answers how many it wrote. It stops
/// at the first page that is lost.
pub fn heal_pages<M: Machine>(m: &mut M, l: &Layout) -> Result<u32, LoadFault>
    requires room { l.now.sectors ≤ (M.report m.old).sectors }

    ensures writes { WritesDisk M.Machine (device_in load_failed_at result) (HealsPages l.now l.now.pages) m.old m.new }
    ensures few { IfOk result (λ count. count ≤ l.now.pages) }
    ensures counted { IfOk result (λ count. M.tells m.new → M.ledger m.new ≡ wrote (M.ledger m.old) count) }
    ensures healed { IfOk result (λ count. M.honest m.new → CountsHomes l.now l.now.pages (M.now m.old) count) }
    ensures mended { OnOk result (M.honest m.new → HomesStand l.now l.now.pages (M.now m.new)) }
    ensures lost { IfErr result (λ fault. M.honest m.new → LostCause (AreHomes l.now) (M.now m.new).image fault) }
{
    let mut count = 0;
    for page in 0..l.pages() {
        count += heal_page(m, l, page)?;
    }
    Ok(count)
}

/// Writes each copy of the root, of the anchor and of the pages at home that alone is damaged, from its twin, and answers
/// how many it wrote. It stops at the first two copies that are both damaged.
pub fn heal_twins<M: Machine>(m: &mut M, l: &Layout) -> Result<u32, LoadFault>
    requires planned { IsPlanned l.now }
    requires room { l.now.sectors ≤ (M.report m.old).sectors }

    ensures writes { WritesDisk M.Machine (device_in load_failed_at result) (HealsTwins l.now) m.old m.new }
    ensures counted { IfOk result (λ count. M.tells m.new → M.ledger m.new ≡ wrote (M.ledger m.old) count) }
    ensures healed { IfOk result (λ count. M.honest m.new → CountsTwins l.now (M.now m.old) count) }
    ensures mended { OnOk result (M.honest m.new → TwinsHaveSome l.now (M.now m.new)) }
    ensures lost { IfErr result (λ fault. M.honest m.new → LostCause (AreTwinCopies l.now) (M.now m.new).image fault) }
{
    let roots = heal_roots(m)?;
    let anchors = heal_anchor(m)?;
    let pages = heal_pages(m, l)?;
    Ok(roots + anchors + pages)
}
