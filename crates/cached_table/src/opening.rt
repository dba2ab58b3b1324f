//! The opening of a name table: by its saved map, or it is surveyed as it stands at home.
ghost use Rattle.std.specs.Prelude.{◌≡◌, ◌≤◌, ◌<◌, ◌^◌, ℕ, Ok, IfOk, IfErr, false, length, not, replicate, slice_index_or};
ghost use Rattle.volume_layout.specs.Layout.{IsPlanned};
ghost use Rattle.sector_disk.specs.Calls.{OnlyReads, device_in};
ghost use Rattle.fsd_sound.specs.Lost.{AreHomes, LostIn};
ghost use Rattle.fsd_sound.specs.Mounting.{device_of_mount};
ghost use Rattle.fsd_sound.specs.declared.fault.MountFault.TheVariants.{Memory};
ghost use Rattle.saved_map.specs.Reading.{IsSavedMap};
ghost use Rattle.cached_table.specs.Homes.{KnowsHomes};
ghost use Rattle.cached_table.specs.Opening.{IsNoTable, IsOpenFault, IsOpened, IsRoomFor, IsTableOf, home_pages, opened_by};

use crate::homes::Homes;
use crate::surveying::{survey_fault, survey_in};
use alloc_map::Map;
use fsd_sound::MountFault;
use page_cache::Cache;
use run_table::Run;
use saved_map::SavedMap;
use sector_disk::Machine;
use std::alloc::{AllocError, Global};
use table_pages::FreePages;
use volume_layout::Layout;

// So many pages are in memory at most.
const FRAMES: usize = 256;

/// What a mount has of a name table once it is opened.
#[derive(Drop)]
pub struct Opened {
    pub cache: Cache,
    pub free_pages: FreePages,
    pub map: Map,
    pub versions: u32,
}

// What a survey needs in memory.
#[derive(Drop)]
struct Room {
    cache: Cache,
    free_pages: FreePages,
    map: Map,
    marks: Vec<bool>,
}

// So many marks, none of which is set.
fn no_marks(alloc: Global, pages: u32) -> Result<Vec<bool>, AllocError>
    ensures { IfOk result (λ marks. marks.items ≡ replicate pages false) }
{
    let marks = vec![in alloc; false; pages as usize]?;
    Ok(marks)
}

// The memory for the survey of a table.
fn room_for(alloc: Global, l: &Layout) -> Result<Room, AllocError>
    requires { IsPlanned l.now }
    ensures { IfOk result (IsRoomFor l.now) }
{
    let cache = Cache::new(alloc, FRAMES)?;
    let free_pages = FreePages::new(alloc, l.pages())?;
    let most = l.most_sectors();
    let behind = Run {
        start: l.sectors(),
        length: most - l.sectors(),
    };
    let map = Map::from_runs(alloc, l.data_start(), most, &[behind])?;
    let marks = no_marks(alloc, l.pages())?;
    Ok(Room {
        cache,
        free_pages,
        map,
        marks,
    })
}

// Makes each page free that is not marked, where none is.
fn free_unmarked(free: &mut FreePages, marks: &[bool])
    requires none { free.old ≡ replicate (length marks.now) false }
    requires few { length marks.now < 2 ^ 32 }
    ensures count { length free.new ≡ length marks.now }
    ensures free { (page : ℕ) → page < length marks.now → slice_index_or free.new page false ≡ not (slice_index_or marks.now page false) }
{
    for page in 0..marks.len() {
        if !marks[page] {
            free.add(page as u32);
        }
    }
}

// Surveys a table in this room.
fn survey_room<M: Machine>(m: &mut M, l: &Layout, room: Room) -> Result<Opened, MountFault>
    requires planned { IsPlanned l.now }
    requires sectors { l.now.sectors ≤ (M.report m.old).sectors }
    requires room { IsRoomFor l.now room }
    ensures reads { OnlyReads M.Machine (device_in device_of_mount result) m.old m.new }
    ensures opened { IfOk result (IsOpened l.now) }
    ensures cause { IfErr result IsOpenFault }
    ensures lost { IfErr result (λ fault. M.honest m.new → LostIn (AreHomes l.now) (M.now m.new).image fault) }
    ensures table { IfOk result (λ o. M.honest m.new → KnowsHomes l.now (M.now m.old) → IsTableOf l.now (home_pages l.now (M.now m.old).image) o) }
    ensures no_table { IfErr result (λ fault. M.honest m.new → KnowsHomes l.now (M.now m.old) → IsNoTable l.now (home_pages l.now (M.now m.old).image) fault) }
{
    let Room {
        mut cache,
        mut free_pages,
        mut map,
        mut marks,
    } = room;
    let source = Homes::by(l);
    let home_a = l.home_a(0);
    let counts = survey_in(
        m,
        &mut cache,
        &source,
        home_a,
        &mut free_pages,
        l,
        &mut map,
        marks.as_mut_slice(),
    );
    match counts {
        Ok(counts) => {
            free_unmarked(&mut free_pages, marks.as_slice());
            Ok(Opened {
                cache,
                free_pages,
                map,
                versions: counts.versions,
            })
        }
        Err(fault) => Err(survey_fault(fault, home_a)),
    }
}

/// Opens the name table of a layout by its saved map: no page of it is read. Needs room for 256 pages.
pub fn open_saved(alloc: Global, l: &Layout, saved: SavedMap) -> Result<Opened, MountFault>
    requires planned { IsPlanned l.now }
    requires of { IsSavedMap l.now saved }
    ensures opened { IfOk result (IsOpened l.now) }
    ensures is { IfOk result (λ o. o ≡ opened_by saved) }
    ensures memory { IfErr result (λ fault. fault ≡ Memory) }
{
    let SavedMap {
        map,
        free_pages,
        versions,
    } = saved;
    match Cache::new(alloc, FRAMES) {
        Ok(cache) => Ok(Opened {
            cache,
            free_pages: FreePages::of(free_pages),
            map,
            versions,
        }),
        Err(_) => Err(MountFault::Memory),
    }
}

/// Surveys the name table of a layout as it stands at home.
/// Needs room for 256 pages, a bit for each sector that the volume may grow to, and two bytes for each page.
pub fn open_table<M: Machine>(alloc: Global, m: &mut M, l: &Layout) -> Result<Opened, MountFault>
    requires planned { IsPlanned l.now }
    requires sectors { l.now.sectors ≤ (M.report m.old).sectors }
    ensures reads { OnlyReads M.Machine (device_in device_of_mount result) m.old m.new }
    ensures opened { IfOk result (IsOpened l.now) }
    ensures cause { IfErr result IsOpenFault }
    ensures lost { IfErr result (λ fault. M.honest m.new → LostIn (AreHomes l.now) (M.now m.new).image fault) }
    ensures table { IfOk result (λ o. M.honest m.new → KnowsHomes l.now (M.now m.old) → IsTableOf l.now (home_pages l.now (M.now m.old).image) o) }
    ensures no_table { IfErr result (λ fault. M.honest m.new → KnowsHomes l.now (M.now m.old) → IsNoTable l.now (home_pages l.now (M.now m.old).image) fault) }
{
    match room_for(alloc, l) {
        Ok(room) => survey_room(m, l, room),
        Err(_) => Err(MountFault::Memory),
    }
}
