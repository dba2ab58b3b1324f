//! The writing of a whole map.
ghost use Rattle.std.specs.Prelude.{◌≡◌, ◌<◌, ◌≤◌, ◌^◌, length, not, count_by, IfErr, IsTrue, OnOk};
ghost use Rattle.volume_layout.specs.Layout.{map_sectors, IsPlanned};
ghost use Rattle.sector_disk.specs.Calls.{WritesDisk, device_in, failed_at};
ghost use Rattle.sector_disk.specs.Machine.{Holds, wrote};
ghost use Rattle.sector_disk.specs.Written.{WroteMost};
ghost use Rattle.fsd_sound.specs.Writes.{in_map};
ghost use Rattle.saved_map.specs.Marks.{AreOf};
ghost use Rattle.saved_map.specs.Saving.{SavesIn, saved, with_map};

use crate::saving::save_sector;
use alloc_map::Map;
use fsd_formats::MapHead;
use sector_disk::{Failed, Machine, write_sectors};
use volume_layout::Layout;

// How many pages aren't free.
fn pages_in_use(free_pages: &[bool]) -> u32
    requires { length free_pages.now < 2 ^ 32 }
    ensures { result ≡ count_by not free_pages.now }
{
    free_pages.iter().filter(|free| !**free).count() as u32
}

/// Saves a map in its area, from the first sector to the last. It takes no memory.
pub fn save_map<M: Machine>(
    m: &mut M,
    l: &Layout,
    map: &Map,
    free_pages: &[bool],
    epoch: u32,
    versions: u32,
) -> Result<(), Failed>
    requires of { AreOf l.now map.now free_pages.now }
    requires planned { IsPlanned l.now }
    requires room { l.now.sectors ≤ (M.report m.old).sectors }

    ensures writes { WritesDisk M.Machine (device_in failed_at result) (SavesIn l.now (saved l.now map.now free_pages.now epoch versions)) m.old m.new }
    ensures place { IfErr result (λ failed. IsTrue (in_map l.now failed.place)) }
    ensures counted { OnOk result (M.tells m.new → M.ledger m.new ≡ wrote (M.ledger m.old) (map_sectors l.now)) }
    ensures most { M.tells m.new → WroteMost (map_sectors l.now) (M.ledger m.old) (M.ledger m.new) }
    ensures done { OnOk result (M.honest m.new → Holds (M.now m.old)
        (with_map l.now (saved l.now map.now free_pages.now epoch versions) (M.now m.old).image (map_sectors l.now)) (M.now m.new)) }
{
    let pages = pages_in_use(free_pages);
    for k in 0..l.map_sectors() {
        let head = MapHead {
            epoch,
            index: k,
            pages,
            versions,
        };
        let sector = save_sector(l, map, free_pages, &head);
        write_sectors(m, l.map_start() + k, &sector)?;
    }
    Ok(())
}
