//! The mount of a volume, up to its name table.
ghost use Rattle.std.specs.Prelude.{◌≡◌, ℕ, List, IfOk, IfErr};
ghost use Rattle.volume_layout.specs.declared.layout.Layout.{Layout as Plan};
ghost use Rattle.sector_disk.specs.declared.sector.WeakRun.{WeakRun};
ghost use Rattle.sector_disk.specs.Calls.{HealsDisk, device_in};
ghost use Rattle.fsd_sound.specs.Mounting.{device_of_mount};
ghost use Rattle.mount_recover.specs.Recover.{ShowsVolume};
ghost use Rattle.mount_recover.specs.Told.{FailsMount, Recovers, SettlesVolume};

use crate::completing::complete;
use crate::epoch::begin_epoch;
use crate::finding::{FoundVolume, find_volume};
use crate::mending::mend;
use fsd_sound::MountFault;
use log_thirds::Log;
use saved_map::SavedMap;
use sector_disk::Machine;
use std::alloc::Global;
use volume_layout::Layout;

/// A volume whose log was replayed, and whose anchors name a new epoch in which nothing is logged yet. It has the map that
/// was saved in the epoch before, if that is believed.
#[derive(Drop)]
pub struct SettledVolume {
    pub layout: Layout,
    pub log: Log,
    pub saved: Option<SavedMap>,
}

/// Finds the volume of an image with so many sectors, brings every page that its log has home, and begins its next
/// epoch (Hagmann 1987). What stands twice and is damaged is written from its twin. Needs room for the log and its
/// table of the pages. The volume shows the same pages also where the disk fails, so it can be called again.
pub fn recover<M: Machine>(
    alloc: Global,
    m: &mut M,
    sectors: u32,
) -> Result<SettledVolume, MountFault>
    requires { sectors ≡ (M.report m.old).sectors }

    ensures disk { HealsDisk M.Machine (device_in device_of_mount result) m.old m.new }
    ensures settled { IfOk result (SettlesVolume M.Machine sectors m.old m.new) }
    ensures failed { IfErr result (FailsMount M.Machine sectors m.old m.new) }

    // Of an image that shows the pages of a volume.
    ensures shows { (l : Plan) (windows : List WeakRun) (choices : List (List (List ℕ))) → M.honest m.new → ShowsVolume sectors l windows choices (M.now m.old) →
        Recovers M.Machine sectors m.old m.new l windows choices result }
{
    let FoundVolume {
        layout,
        mut log,
        longest,
        saved,
    } = find_volume(alloc, m, sectors)?;
    complete(m, &log, longest)?;
    mend(m, &layout, &log)?;
    begin_epoch(m, &mut log)?;
    Ok(SettledVolume { layout, log, saved })
}
