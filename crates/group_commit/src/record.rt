//! The record of the images that are laid.
ghost use Rattle.std.specs.Prelude.{◌<◌, ◌≤◌, ◌^◌, ◌-◌, ◌*◌, length, take, slice_index, IsTrue, EachIndex, IfErr, OnOk};
ghost use Rattle.sector_disk.specs.Calls.{WritesDisk, device_in, load_failed_at};
ghost use Rattle.fsd_formats.specs.Record.{AreStamped, are_pages};
ghost use Rattle.fsd_log.specs.Judged.{sector_in};
ghost use Rattle.fsd_log.specs.Laid.{slices};
ghost use Rattle.log_thirds.specs.Append.{stamp_now};
ghost use Rattle.group_commit.specs.Commit.{LogsNoPages, LogsPages};
ghost use Rattle.group_commit.specs.Force.{KeepsOutside};
ghost use Rattle.fsd_sound.specs.Logged.{StandsLogged};
ghost use Rattle.group_commit.specs.Cached.{HasImages, RecordLeaves};

use crate::entering::make_room;
use log_thirds::Log;
use sector_disk::{LoadFault, Machine};

/// Makes room in the log for the record of these pages, whose stamped images are laid, and writes it.
pub(crate) fn write_record<M: Machine>(
    m: &mut M,
    log: &mut Log,
    dirty: &[u32],
    room: &[u8],
) -> Result<(), LoadFault>
    requires accepted { IsTrue (are_pages log.old.layout.pages dirty.now) }
    requires stamped { AreStamped (stamp_now log.old) dirty.now (slices (length dirty.now) (take (512 * length dirty.now) room.now)) }
    requires numbered { log.old.head.number < 2 ^ 32 - 1 }
    requires sectors { log.old.layout.sectors ≤ (M.report m.old).sectors }
    requires long { 512 * length dirty.now ≤ length room.now }
    ensures disk { WritesDisk M.Machine (device_in load_failed_at result) (RecordLeaves log.old dirty.now room.now) m.old m.new }
    ensures rest { M.honest m.new → KeepsOutside log.old.layout (M.now m.old) (M.now m.new) }
    ensures done { OnOk result (LogsPages M.Machine log.old log.new (HasImages log.old dirty.now room.now) dirty.now m.old m.new) }
    ensures failed { IfErr result (LogsNoPages M.Machine log.old log.new (HasImages log.old dirty.now room.now) dirty.now m.old m.new) }
    ensures logged { OnOk result (M.honest m.new → EachIndex dirty.now (λ k. StandsLogged log.new.layout log.new.slots (M.now m.new) (slice_index dirty.now k) (sector_in room.now k))) }
{
    let layout = log.layout();
    // For the proof alone: its own call tells that a layout is planned.
    let _pages = layout.pages();
    make_room(m, log, dirty.len() as u32)?;
    log.append(m, dirty, &room[..512 * dirty.len()])?;
    Ok(())
}
