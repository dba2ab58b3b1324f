//! The making of an empty volume.
ghost use Rattle.std.specs.Prelude.{◌≡◌, ◌+◌, ◌≤◌, ◌<◌, Ok, OnOk, OnErr};
ghost use Rattle.sector_disk.specs.Calls.{HealsDisk, WritesDisk, device_in, failed_at};
ghost use Rattle.sector_disk.specs.Image.{with_sector};
ghost use Rattle.sector_disk.specs.Machine.{Holds, IsSynced, wrote};
ghost use Rattle.sector_disk.specs.Written.{WroteMost};
ghost use Rattle.volume_layout.specs.Layout.{IsPlanned};
ghost use Rattle.version_data.specs.Writing.{WritesIn};
ghost use Rattle.volume_format.specs.Formatting.{Formats, IsNewImage, KeepsOthers, format_count, format_writes, head_sector, row, with_head, with_pages, with_volume};

use crate::pages::format_page;
use fsd_formats::Anchor;
use log_record::anchor_bytes;
use sector_disk::{Failed, Machine, write_sectors};
use volume_layout::{Layout, root_bytes};

// The places in front of the log, in the order in which they are written.
const HEAD: [u32; 16] = [1, 2, 3, 5, 6, 7, 9, 10, 11, 13, 14, 15, 8, 12, 4, 0];

// The log of a new volume begins in its first third, with record 1 of epoch 1.
const FIRST_ANCHOR: Anchor = Anchor {
    epoch: 1,
    third: 0,
    first: 1,
};

/// Makes an empty volume, in a window of its own (docs/FORMAT.md has its sectors). Until the call answers Ok the image
/// holds none: the roots are written last. It takes no memory.
pub fn format<M: Machine>(m: &mut M, l: &Layout) -> Result<(), Failed>
    requires { l.now.sectors ≤ (M.report m.old).sectors }

    ensures disk { HealsDisk M.Machine (device_in failed_at result) m.old m.new }
    ensures counted { OnOk result (M.tells m.new → M.ledger m.new ≡ wrote (M.ledger m.old) (format_count l.now)) }
    ensures counted_err { OnErr result (M.tells m.new → WroteMost (format_count l.now) (M.ledger m.old) (M.ledger m.new)) }
    ensures rest { M.honest m.new → KeepsOthers (format_writes l.now) (M.now m.old) (M.now m.new) }

    // On a new image an empty volume stands then, also as the window of the format has worn it.
    ensures done { OnOk result (M.honest m.new → IsNewImage (M.now m.old) → Formats l.now (M.now m.old) (M.now m.new)) }

    // All of it is on the disk then: to settle is a sync.
    ensures synced { OnOk result (M.honest m.new → IsSynced (M.now m.new)) }
{
    m.healing(l.kind().longest())?;
    write_volume(m, l)?;
    m.settle()
}

// Writes the name pages, then the head.
fn write_volume<M: Machine>(m: &mut M, l: &Layout) -> Result<(), Failed>
    requires { l.now.sectors ≤ (M.report m.old).sectors }
    ensures disk { WritesDisk M.Machine (device_in failed_at result) (WritesIn (format_writes l.now)) m.old m.new }
    ensures counted { OnOk result (M.tells m.new → M.ledger m.new ≡ wrote (M.ledger m.old) (format_count l.now)) }
    ensures counted_err { OnErr result (M.tells m.new → WroteMost (format_count l.now) (M.ledger m.old) (M.ledger m.new)) }
    ensures done { OnOk result (M.honest m.new → Holds (M.now m.old) (with_volume l.now (M.now m.old).image) (M.now m.new)) }
    ensures planned { IsPlanned l.now }
{
    let pages = l.pages();
    write_pages(m, l.home_a(0), pages)?;
    write_pages(m, l.home_b(0), pages)?;
    write_head(m, l)
}

// Writes each name page once, from a place on.
fn write_pages<M: Machine>(m: &mut M, first: u32, pages: u32) -> Result<(), Failed>
    requires { first + pages ≤ (M.report m.old).sectors }
    ensures disk { WritesDisk M.Machine (device_in failed_at result) (WritesIn (row first pages)) m.old m.new }
    ensures counted { OnOk result (M.tells m.new → M.ledger m.new ≡ wrote (M.ledger m.old) pages) }
    ensures counted_err { OnErr result (M.tells m.new → WroteMost pages (M.ledger m.old) (M.ledger m.new)) }
    ensures done { OnOk result (M.honest m.new → Holds (M.now m.old) (with_pages (M.now m.old).image first pages) (M.now m.new)) }
{
    for page in 0..pages {
        write_one(m, first + page, &format_page(page))?;
    }
    Ok(())
}

// Writes the sectors in front of the log, the roots last.
fn write_head<M: Machine>(m: &mut M, l: &Layout) -> Result<(), Failed>
    requires { 16 ≤ (M.report m.old).sectors }
    ensures disk { WritesDisk M.Machine (device_in failed_at result) (WritesIn (row 0 16)) m.old m.new }
    ensures counted { OnOk result (M.tells m.new → M.ledger m.new ≡ wrote (M.ledger m.old) 16) }
    ensures counted_err { OnErr result (M.tells m.new → WroteMost 16 (M.ledger m.old) (M.ledger m.new)) }
    ensures done { OnOk result (M.honest m.new → Holds (M.now m.old) (with_head l.now (M.now m.old).image) (M.now m.new)) }
{
    for place in HEAD.as_slice() {
        write_one(m, *place, &head_sector(l, *place))?;
    }
    Ok(())
}

// What stands at a place in front of the log: a root, an anchor, or zeros.
fn head_sector(l: &Layout, place: u32) -> [u8; 512]
    ensures { result ≡ head_sector l.now place }
{
    match place {
        0 | 4 => root_bytes(l),
        8 | 12 => anchor_bytes(&FIRST_ANCHOR),
        _ => [0; 512],
    }
}

// Writes one sector.
fn write_one<M: Machine>(m: &mut M, place: u32, bytes: &[u8; 512]) -> Result<(), Failed>
    requires { place < (M.report m.old).sectors }
    ensures disk { WritesDisk M.Machine (device_in failed_at result) (WritesIn (row place 1)) m.old m.new }
    ensures counted { OnOk result (M.tells m.new → M.ledger m.new ≡ wrote (M.ledger m.old) 1) }
    ensures counted_err { OnErr result (M.tells m.new → M.ledger m.new ≡ M.ledger m.old) }
    ensures done { OnOk result (M.honest m.new → Holds (M.now m.old) (with_sector (M.now m.old).image place bytes.now) (M.now m.new)) }
{
    write_sectors(m, place, bytes)
}
