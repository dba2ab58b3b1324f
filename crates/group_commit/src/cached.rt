//! The force of the dirty pages of a cache.
ghost use Rattle.std.specs.Prelude.{◌≡◌, ◌<◌, ◌≤◌, ◌^◌, ◌-◌, ℕ, true, List, [], length, take, slice_index, Some, ◌*◌, IsTrue, EachIndex, IfSome, IfOk, IfErr, OnOk};
ghost use Rattle.sector_disk.specs.Calls.{WritesDisk, device_in, load_failed_at};
ghost use Rattle.fsd_log.specs.Judged.{sector_in};
ghost use Rattle.run_table.specs.Space.{contains};
ghost use Rattle.fsd_formats.specs.Record.{max_pages, AreStamped, are_pages};
ghost use Rattle.fsd_log.specs.Laid.{slices};
ghost use Rattle.log_thirds.specs.Append.{stamp_now};
ghost use Rattle.page_cache.specs.Cache.{IsCache, IsResident, cached_bytes};
ghost use Rattle.group_commit.specs.Resident.{IsImageOf};
ghost use Rattle.group_commit.specs.Commit.{ForceFails, Forces, LogsNoPages, LogsPages};
ghost use Rattle.group_commit.specs.Force.{KeepsOutside};
ghost use Rattle.fsd_sound.specs.Logged.{StandsLogged};
ghost use Rattle.group_commit.specs.Cached.{AgreesWith, AreWaiting, CacheLeaves, FramesLeave, HasImages, ascending_of, stamped_frames};

use crate::force::{ForcedPages, Group};
use crate::frames::{lay_frames, stamp_frames};
use crate::record::write_record;
use crate::room::RecordRoom;
use crate::waiting::ascending;
use log_thirds::Log;
use page_cache::Cache;
use sector_disk::{LoadFault, Machine};

// Stamps the frames of these pages for the log's next record, and lays their images.
fn lay_record(log: &Log, cache: &mut Cache, waiting: &[u32], room: &mut RecordRoom)
    requires valid { IsCache cache.old }
    requires accepted { IsTrue (are_pages log.now.layout.pages waiting.now) }
    requires images { (page : ℕ) → contains waiting.now page ≡ true → IfSome (cached_bytes cache.old page) (IsImageOf page) }
    requires inside { (page : ℕ) → contains waiting.now page ≡ true → IsResident cache.old page }
    ensures cache { cache.new ≡ stamped_frames (stamp_now log.now) waiting.now cache.old }
    ensures stamped { AreStamped (stamp_now log.now) waiting.now (slices (length waiting.now) (take (512 * length waiting.now) room.new)) }
    ensures laid { (pages : List (List ℕ)) → AgreesWith log.now.layout cache.old pages → HasImages log.now waiting.now room.new pages }
    ensures frames { EachIndex waiting.now (λ k. cached_bytes cache.new (slice_index waiting.now k) ≡ Some (sector_in room.new k)) }
{
    stamp_frames(cache, waiting, log.epoch(), log.next_number());
    lay_frames(cache, waiting, room.images.as_mut_slice());
}

// Writes the record of these pages from the frames of the cache, which are stamped first.
fn write_frames<M: Machine>(
    m: &mut M,
    log: &mut Log,
    cache: &mut Cache,
    waiting: &[u32],
    room: &mut RecordRoom,
) -> Result<(), LoadFault>
    requires valid { IsCache cache.old }
    requires accepted { IsTrue (are_pages log.old.layout.pages waiting.now) }
    requires images { (page : ℕ) → contains waiting.now page ≡ true → IfSome (cached_bytes cache.old page) (IsImageOf page) }
    requires inside { (page : ℕ) → contains waiting.now page ≡ true → IsResident cache.old page }
    requires numbered { log.old.head.number < 2 ^ 32 - 1 }
    requires sectors { log.old.layout.sectors ≤ (M.report m.old).sectors }
    ensures disk { WritesDisk M.Machine (device_in load_failed_at result) (FramesLeave log.old cache.old waiting.now) m.old m.new }
    ensures rest { M.honest m.new → KeepsOutside log.old.layout (M.now m.old) (M.now m.new) }
    ensures cache { cache.new ≡ stamped_frames (stamp_now log.old) waiting.now cache.old }
    ensures done { OnOk result (LogsPages M.Machine log.old log.new (AgreesWith log.old.layout cache.old) waiting.now m.old m.new) }
    ensures failed { IfErr result (LogsNoPages M.Machine log.old log.new (AgreesWith log.old.layout cache.old) waiting.now m.old m.new) }
    ensures logged { OnOk result (M.honest m.new → (page : ℕ) (bytes : List ℕ) → IsTrue (contains waiting.now page) → cached_bytes cache.new page ≡ Some bytes → StandsLogged log.new.layout log.new.slots (M.now m.new) page bytes) }
{
    lay_record(log, cache, waiting, room);
    write_record(m, log, waiting, room.images.as_slice())
}

// The same of all that are dirty, where these are they; where none is, nothing.
fn force_waiting<M: Machine>(
    m: &mut M,
    log: &mut Log,
    cache: &mut Cache,
    waiting: &[u32],
    room: &mut RecordRoom,
) -> Result<ForcedPages, LoadFault>
    requires valid { IsCache cache.old }
    requires are { waiting.now ≡ ascending_of cache.old.dirty }
    requires few { length waiting.now ≤ max_pages }
    requires waiting { AreWaiting log.old.layout.pages cache.old }
    requires numbered { log.old.head.number < 2 ^ 32 - 1 }
    requires sectors { log.old.layout.sectors ≤ (M.report m.old).sectors }
    ensures disk { WritesDisk M.Machine (device_in load_failed_at result) (CacheLeaves log.old cache.old) m.old m.new }
    ensures rest { M.honest m.new → KeepsOutside log.old.layout (M.now m.old) (M.now m.new) }
    ensures idle { cache.old.dirty ≡ [] → m.new ≡ m.old }
    ensures layout { log.new.layout ≡ log.old.layout }
    ensures done { IfOk result (Forces M.Machine log.old log.new cache.old cache.new m.old m.new) }
    ensures failed { IfErr result (ForceFails M.Machine log.old log.new cache.old cache.new m.old m.new) }
{
    let count = waiting.len();
    if count == 0 {
        return Ok(ForcedPages { pages: 0 });
    }
    match write_frames(m, log, cache, waiting, room) {
        Ok(()) => {
            cache.cleaned();
            Ok(ForcedPages {
                pages: count as u32,
            })
        }
        Err(fault) => Err(fault),
    }
}

impl Group {
    /// Writes one record of all dirty pages of the cache, ascending, each stamped with the log's epoch and the record's
    /// number; where none is dirty, nothing. Where the record would enter the log's first third, the pages of that
    /// third are written home first, and the anchor moves on. It takes no memory. Where it fails the pages stay dirty,
    /// and only a mount says whether the record stands.
    pub fn force_cached<M: Machine>(
        m: &mut M,
        log: &mut Log,
        cache: &mut Cache,
        room: &mut RecordRoom,
    ) -> Result<ForcedPages, LoadFault>
        requires waiting { AreWaiting log.old.layout.pages cache.old }
        requires numbered { log.old.head.number < 2 ^ 32 - 1 }
        requires sectors { log.old.layout.sectors ≤ (M.report m.old).sectors }

        // At each moment the disk shows the pages as they were or as they are now,
        // whichever pages the cache has a part of.
        ensures disk { WritesDisk M.Machine (device_in load_failed_at result) (CacheLeaves log.old cache.old) m.old m.new }

        // Whatever the disk shows, the roots, the map and the data stay but for wear.
        ensures rest { M.honest m.new → KeepsOutside log.old.layout (M.now m.old) (M.now m.new) }
        ensures idle { cache.old.dirty ≡ [] → m.new ≡ m.old }
        ensures layout { log.new.layout ≡ log.old.layout }
        ensures done { IfOk result (Forces M.Machine log.old log.new cache.old cache.new m.old m.new) }
        ensures failed { IfErr result (ForceFails M.Machine log.old log.new cache.old cache.new m.old m.new) }
    {
        let waiting = ascending(cache.dirty_list().as_slice());
        force_waiting(m, log, cache, waiting.as_slice(), room)
    }
}
