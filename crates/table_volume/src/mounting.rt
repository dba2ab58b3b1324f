//! The mount of a volume.
ghost use Rattle.std.specs.Prelude.{◌≡◌, ◌≤◌, ◌<◌, Ok, None, IfOk, IfErr, IfSome};
ghost use Rattle.volume_layout.specs.Layout.{IsPlanned};
ghost use Rattle.sector_disk.specs.Calls.{OnlyReads, device_in};
ghost use Rattle.fsd_sound.specs.Lost.{AreHomes, LostIn};
ghost use Rattle.fsd_sound.specs.Mounting.{device_of_mount};
ghost use Rattle.fsd_sound.specs.declared.fault.MountFault.TheVariants.{Memory};
ghost use Rattle.mount_recover.specs.Recover.{IsFreshLog};
ghost use Rattle.saved_map.specs.Reading.{IsSavedMap};
ghost use Rattle.cached_table.specs.Homes.{KnowsHomes};
ghost use Rattle.table_volume.specs.Mounting.{IsAssembled, OpensBy, OpensKnown, OpensSaved, OpensTable, opened_of};
ghost use Rattle.cached_table.specs.Opening.{IsOpenFault, IsOpened};

use crate::Volume;
use cached_table::{CachedTable, Opened, open_saved, open_table};
use fsd_bytes::Serial;
use fsd_sound::MountFault;
use group_commit::RecordRoom;
use log_thirds::Log;
use mount_recover::SettledVolume;
use saved_map::SavedMap;
use sector_disk::Machine;
use shadow_frees::Shadow;
use std::alloc::Global;
use volume_layout::Layout;

// Opens the name table of a layout: by its saved map, if there is one, else it is surveyed.
fn open_by<M: Machine>(
    alloc: Global,
    m: &mut M,
    l: &Layout,
    saved: Option<SavedMap>,
) -> Result<Opened, MountFault>
    requires planned { IsPlanned l.now }
    requires sectors { l.now.sectors ≤ (M.report m.old).sectors }
    requires of { IfSome saved (IsSavedMap l.now) }
    ensures reads { OnlyReads M.Machine (device_in device_of_mount result) m.old m.new }
    ensures opened { IfOk result (IsOpened l.now) }
    ensures cause { IfErr result IsOpenFault }
    ensures lost { IfErr result (λ fault. M.honest m.new → LostIn (AreHomes l.now) (M.now m.new).image fault) }
    ensures walked { saved ≡ None → M.honest m.new → KnowsHomes l.now (M.now m.old) → OpensTable l.now (M.now m.old) result }
    ensures by { IfSome saved (λ s. OpensBy s result) }
{
    match saved {
        Some(saved) => open_saved(alloc, l, saved),
        None => open_table(alloc, m, l),
    }
}

/// The volume that has settled, once its table is opened.
pub(crate) fn open_settled<M: Machine>(
    alloc: Global,
    m: &mut M,
    settled: SettledVolume,
) -> Result<Volume, MountFault>
    requires planned { IsPlanned settled.layout }
    requires sectors { settled.layout.sectors ≤ (M.report m.old).sectors }
    requires log { IsFreshLog settled.layout settled.log }
    requires saved { IfSome settled.saved (IsSavedMap settled.layout) }
    ensures reads { OnlyReads M.Machine (device_in device_of_mount result) m.old m.new }
    ensures assembled { IfOk result (IsAssembled settled.layout settled.log) }
    ensures cause { IfErr result IsOpenFault }
    ensures lost { IfErr result (λ fault. M.honest m.new → LostIn (AreHomes settled.layout) (M.now m.new).image fault) }
    ensures known { settled.saved ≡ None → M.honest m.new → KnowsHomes settled.layout (M.now m.old) → OpensKnown settled.layout (M.now m.old) result }
    ensures by { IfSome settled.saved (λ s. OpensSaved s result) }
{
    let SettledVolume { layout, log, saved } = settled;
    let opened = open_by(alloc, m, &layout, saved)?;
    assemble(alloc, layout, log, opened)
}

// The volume with what was opened; nothing waits.
fn assemble(alloc: Global, layout: Layout, log: Log, opened: Opened) -> Result<Volume, MountFault>
    requires planned { IsPlanned layout }
    requires log { IsFreshLog layout log }
    requires opened { IsOpened layout opened }
    ensures assembled { IfOk result (IsAssembled layout log) }
    ensures is { IfOk result (λ volume. opened_of volume ≡ opened) }
    ensures memory { IfErr result (λ fault. fault ≡ Memory) }
{
    let Opened {
        cache,
        free_pages,
        map,
        versions,
    } = opened;
    let Ok(shadow) = Shadow::new(alloc, layout.data_start(), layout.most_sectors()) else {
        return Err(MountFault::Memory);
    };
    let Ok(room) = RecordRoom::new(alloc) else {
        return Err(MountFault::Memory);
    };
    log.attest();
    let serial = Serial {
        epoch: log.epoch(),
        count: 1,
    };
    Ok(Volume {
        layout,
        map,
        shadow,
        log,
        table: CachedTable { cache, free_pages },
        room,
        serial,
        versions,
        down: None,
    })
}
