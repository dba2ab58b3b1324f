//! A saved map as it is read.
ghost use Rattle.std.specs.Prelude.{◌≡◌, ◌↔◌, ◌<◌, ◌≤◌, ◌∷◌, [], ℕ, List, Ok, None, Some, IfOk, IfSome, IsTrue, true, false};
ghost use Rattle.volume_layout.specs.Layout.{map_sectors, map_start, IsPlanned};
ghost use Rattle.fsd_formats.specs.declared.map_head.MapHead.{MapHead};
ghost use Rattle.fsd_formats.specs.SavedMap.{is_set_in};
ghost use Rattle.fsd_files.specs.Disk.{bytes_at};
ghost use Rattle.fsd_sound.specs.Saved.{IsBelieved};
ghost use Rattle.sector_disk.specs.declared.sector.Sector.TheVariants.{Whole};
ghost use Rattle.sector_disk.specs.Calls.{OnlyReads, device_in, failed_at};
ghost use Rattle.sector_disk.specs.Image.{sector_at};
ghost use Rattle.saved_map.specs.Taking.{AreMarked, IsPart};
ghost use Rattle.saved_map.specs.Reading.{BeginsMap, Believes, IsClosedIn, IsFirstPart, IsWorth, LacksPart, TakesMap, TakesRest, device_of_map};

use crate::closed::is_closed;
use crate::heads::{read_map_head, read_part, take_part};
use alloc_map::Map;
use fsd_formats::MapHead;
use run_table::Run;
use sector_disk::{Failed, Machine, read_sector};
use std::alloc::{AllocError, Global};
use volume_layout::Layout;

/// What a saved map marks: the free sectors of the data area, and of each page whether it is free. And how many versions
/// there were.
#[derive(Drop)]
pub struct SavedMap {
    pub map: Map,
    pub free_pages: Vec<bool>,
    pub versions: u32,
}

/// Why a saved map isn't read.
#[derive(Drop)]
pub enum MapFault {
    /// The device failed at this sector.
    Device(u32),
    /// There is no room for it.
    Memory,
}

// The first sector of a map, and its head.
#[derive(Drop)]
pub(crate) struct FirstPart {
    head: MapHead,
    bytes: [u8; 512],
}

// Whether a map with this first head is of the epoch, and worth its reading.
fn is_worth(l: &Layout, epoch: u32, head: &MapHead) -> bool
    ensures { IsTrue result ↔ IsWorth l.now epoch head.now }
{
    head.epoch == epoch && head.index == 0 && l.map_sectors() <= head.pages
}

// A map's first sector, if these bytes are one.
fn first_part(l: &Layout, epoch: u32, bytes: [u8; 512]) -> Option<FirstPart>
    ensures found { IfSome result (λ part. (part.bytes ≡ bytes) × IsFirstPart l.now epoch bytes part.head) }
    ensures none { result ≡ None → (head : MapHead) → IsFirstPart l.now epoch bytes head → ⊥ }
{
    match read_map_head(&bytes) {
        Some(head) if is_worth(l, epoch, &head) => Some(FirstPart { head, bytes }),
        _ => None,
    }
}

// The first sector of a map, if it is one.
fn read_first<M: Machine>(m: &mut M, l: &Layout, epoch: u32) -> Result<Option<FirstPart>, Failed>
    requires planned { IsPlanned l.now }
    requires sectors { l.now.sectors ≤ (M.report m.old).sectors }
    ensures reads { OnlyReads M.Machine (device_in failed_at result) m.old m.new }
    ensures is { IfOk result (λ o. IfSome o (λ part. IsFirstPart l.now epoch part.bytes part.head)) }
    ensures whole { IfOk result (λ o. IfSome o (λ part. M.honest m.new → sector_at (M.now m.new).image (map_start l.now) ≡ Whole part.bytes)) }
    ensures none { result ≡ Ok None → M.honest m.new → (bytes : List ℕ) (head : MapHead) → bytes_at (M.now m.new).image (map_start l.now) ≡ Some bytes → IsFirstPart l.now epoch bytes head → ⊥ }
{
    match read_sector(m, l.map_start())? {
        Some(bytes) => Ok(first_part(l, epoch, bytes)),
        None => Ok(None),
    }
}

// The same, where the volume was closed in the epoch.
fn find_first<M: Machine>(m: &mut M, l: &Layout, epoch: u32) -> Result<Option<FirstPart>, Failed>
    requires planned { IsPlanned l.now }
    requires sectors { l.now.sectors ≤ (M.report m.old).sectors }
    ensures reads { OnlyReads M.Machine (device_in failed_at result) m.old m.new }
    ensures begins { IfOk result (λ o. IfSome o (BeginsMap M.Machine l.now epoch m.old m.new)) }
    ensures none { result ≡ Ok None → M.honest m.new → IsBelieved l.now epoch (M.now m.new).image → ⊥ }
{
    if is_closed(m, epoch)? {
        read_first(m, l, epoch)
    } else {
        Ok(None)
    }
}

// Takes the marks of the map's sectors behind the first in, as long as each is one.
fn read_rest<M: Machine>(
    m: &mut M,
    l: &Layout,
    map: &mut Map,
    free_pages: &mut [bool],
    first: &FirstPart,
) -> Result<bool, Failed>
    requires planned { IsPlanned l.now }
    requires sectors { l.now.sectors ≤ (M.report m.old).sectors }
    requires part { IsPart l.now first.now.head first.now.bytes }
    requires index { first.now.head.index ≡ 0 }
    requires marked { AreMarked l.now (is_set_in (first.now.bytes ∷ [])) map.old free_pages.old }
    requires whole { M.honest m.old → sector_at (M.now m.old).image (map_start l.now) ≡ Whole first.now.bytes }
    ensures reads { OnlyReads M.Machine (device_in failed_at result) m.old m.new }
    ensures took { result ≡ Ok true → TakesRest M.Machine l.now first.now m.old m.new (map_sectors l.now) map.new free_pages.new }
    ensures not { result ≡ Ok false → M.honest m.new → LacksPart l.now first.now.head (M.now m.new).image }
{
    for k in 1..l.map_sectors() {
        let head = MapHead {
            index: k,
            ..first.head
        };
        if !read_part(m, l, map, free_pages, &head)? {
            return Ok(false);
        }
    }
    Ok(true)
}

// Takes the marks of all sectors in.
fn take_parts<M: Machine>(
    m: &mut M,
    l: &Layout,
    map: &mut Map,
    free_pages: &mut [bool],
    first: &FirstPart,
) -> Result<bool, Failed>
    requires planned { IsPlanned l.now }
    requires sectors { l.now.sectors ≤ (M.report m.old).sectors }
    requires is { IsFirstPart l.now first.now.head.epoch first.now.bytes first.now.head }
    requires none { AreMarked l.now (λ _. false) map.old free_pages.old }
    requires whole { M.honest m.old → sector_at (M.now m.old).image (map_start l.now) ≡ Whole first.now.bytes }
    ensures reads { OnlyReads M.Machine (device_in failed_at result) m.old m.new }
    ensures took { result ≡ Ok true → TakesRest M.Machine l.now first.now m.old m.new (map_sectors l.now) map.new free_pages.new }
    ensures not { result ≡ Ok false → M.honest m.new → LacksPart l.now first.now.head (M.now m.new).image }
{
    if take_part(l, map, free_pages, &first.head, &first.bytes) {
        read_rest(m, l, map, free_pages, first)
    } else {
        Ok(false)
    }
}

// No free sector and no free page, with room for all that may be.
fn nothing_free(alloc: Global, l: &Layout) -> Result<(Map, Vec<bool>), AllocError>
    requires { IsPlanned l.now }
    ensures { IfOk result (λ made. AreMarked l.now (λ _. false) made.0 made.1.items) }
{
    let from = l.data_start();
    let to = l.most_sectors();
    let all = Run {
        start: from,
        length: to - from,
    };
    let map = Map::from_runs(alloc, from, to, &[all])?;
    let free_pages = vec![in alloc; false; l.pages() as usize]?;
    Ok((map, free_pages))
}

// The map that begins so, if each of its sectors is one.
fn read_map<M: Machine>(
    alloc: Global,
    m: &mut M,
    l: &Layout,
    first: &FirstPart,
) -> Result<Option<SavedMap>, MapFault>
    requires planned { IsPlanned l.now }
    requires sectors { l.now.sectors ≤ (M.report m.old).sectors }
    requires is { IsFirstPart l.now first.now.head.epoch first.now.bytes first.now.head }
    requires whole { M.honest m.old → sector_at (M.now m.old).image (map_start l.now) ≡ Whole first.now.bytes }
    ensures reads { OnlyReads M.Machine (device_in device_of_map result) m.old m.new }
    ensures takes { IfOk result (λ o. IfSome o (TakesMap M.Machine l.now first.now.head m.old m.new)) }
    ensures none { result ≡ Ok None → M.honest m.new → LacksPart l.now first.now.head (M.now m.new).image }
{
    let Ok((mut map, mut free_pages)) = nothing_free(alloc, l) else {
        return Err(MapFault::Memory);
    };
    match take_parts(m, l, &mut map, &mut free_pages, first) {
        Ok(true) => Ok(Some(SavedMap {
            map,
            free_pages,
            versions: first.head.versions,
        })),
        Ok(false) => Ok(None),
        Err(failed) => Err(MapFault::Device(failed.place)),
    }
}

/// The map that was saved in an epoch, if the volume was closed in it, all of the map is whole, and it has no more sectors
/// than the table had pages in use. Room for it is asked for once its first sector says so; no sector of it is read twice.
pub fn read_saved<M: Machine>(
    alloc: Global,
    m: &mut M,
    l: &Layout,
    epoch: u32,
) -> Result<Option<SavedMap>, MapFault>
    requires planned { IsPlanned l.now }
    requires sectors { l.now.sectors ≤ (M.report m.old).sectors }
    ensures reads { OnlyReads M.Machine (device_in device_of_map result) m.old m.new }
    ensures believes { IfOk result (λ o. IfSome o (Believes M.Machine l.now epoch m.old m.new)) }
    ensures none { result ≡ Ok None → M.honest m.new → IsBelieved l.now epoch (M.now m.new).image → ⊥ }
{
    match find_first(m, l, epoch) {
        Ok(Some(first)) => read_map(alloc, m, l, &first),
        Ok(None) => Ok(None),
        Err(failed) => Err(MapFault::Device(failed.place)),
    }
}
