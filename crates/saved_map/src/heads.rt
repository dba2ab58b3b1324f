//! A map's sector as it is read.
ghost use Rattle.std.specs.Prelude.{◌≡◌, ◌↔◌, ◌<◌, ◌≤◌, ◌*◌, Some, Ok, true, false, IsTrue};
ghost use Rattle.volume_layout.specs.Layout.{map_bits, map_sectors, IsPlanned};
ghost use Rattle.fsd_formats.specs.MapSector.{read_map_head};
ghost use Rattle.sector_disk.specs.Calls.{OnlyReads, device_in, failed_at};
ghost use Rattle.saved_map.specs.Reading.{IsNoPart, TakesPart};
ghost use Rattle.saved_map.specs.Taking.{AreAdded, AreKept, AreNewFrom, IsPart, is_set_at};

use crate::saving::head_alone;
use crate::taking::take_in;
use alloc_map::Map;
use fsd_bytes::{u16_at, u32_at};
use fsd_formats::MapHead;
use sector_disk::{Failed, Machine, read_sector};
use volume_layout::Layout;

/// The head of a map's sector, if these bytes are one's.
pub(crate) fn read_map_head(b: &[u8; 512]) -> Option<MapHead>
    ensures { result ≡ read_map_head b.now }
{
    let head = MapHead {
        epoch: u32_at(b, 4),
        index: u32::from(u16_at(b, 8)),
        pages: u32::from(u16_at(b, 10)),
        versions: u32_at(b, 12),
    };
    if head_alone(&head)[..16] == b[..16] {
        Some(head)
    } else {
        None
    }
}

// Whether a map's sector has this head.
fn has_head(b: &[u8; 512], head: &MapHead) -> bool
    ensures { IsTrue result ↔ (read_map_head b.now ≡ Some head.now) }
{
    match read_map_head(b) {
        Some(found) => found == *head,
        None => false,
    }
}

/// Takes the marks of a map's sector in, if it has this head and all its marks are of the data area and of first homes.
pub(crate) fn take_part(
    l: &Layout,
    map: &mut Map,
    free_pages: &mut [bool],
    head: &MapHead,
    b: &[u8; 512],
) -> bool
    requires planned { IsPlanned l.now }
    requires kept { AreKept l.now map.old free_pages.old }
    requires index { head.now.index < map_sectors l.now }
    requires new { AreNewFrom l.now map.old free_pages.old (map_bits * head.now.index) }
    ensures taken { IsTrue result → AreAdded l.now (is_set_at b.now (map_bits * head.now.index)) map.old free_pages.old map.new free_pages.new }
    ensures part { IsTrue result ↔ IsPart l.now head.now b.now }
{
    has_head(b, head) && take_in(l, map, free_pages, 3968 * head.index, b)
}

/// Takes the marks of the map's sector with this head in, if it is one.
pub(crate) fn read_part<M: Machine>(
    m: &mut M,
    l: &Layout,
    map: &mut Map,
    free_pages: &mut [bool],
    head: &MapHead,
) -> Result<bool, Failed>
    requires planned { IsPlanned l.now }
    requires sectors { l.now.sectors ≤ (M.report m.old).sectors }
    requires kept { AreKept l.now map.old free_pages.old }
    requires index { head.now.index < map_sectors l.now }
    requires new { AreNewFrom l.now map.old free_pages.old (map_bits * head.now.index) }
    ensures reads { OnlyReads M.Machine (device_in failed_at result) m.old m.new }
    ensures took { result ≡ Ok true → TakesPart M.Machine l.now head.now m.new map.old free_pages.old map.new free_pages.new }
    ensures not { result ≡ Ok false → M.honest m.new → IsNoPart l.now head.now (M.now m.new).image }
{
    match read_sector(m, l.map_start() + head.index)? {
        Some(b) => Ok(take_part(l, map, free_pages, head, &b)),
        None => Ok(false),
    }
}
