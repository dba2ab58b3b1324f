//! What a mount finds before it writes: the roots, and the log behind the newer anchor.
ghost use Rattle.std.specs.Prelude.{◌≡◌, None, IfOk, IfErr, IfSome};
ghost use Rattle.sector_disk.specs.Calls.{OnlyReads, device_in};
ghost use Rattle.fsd_sound.specs.Mounting.{HasRoot};
ghost use Rattle.mount_recover.specs.Finding.{mount_fault_of, map_fault_of, IsBorneFound, IsMountable, IsNotFound};
ghost use Rattle.fsd_sound.specs.Saved.{SeesNone};
ghost use Rattle.mount_recover.specs.Recover.{IsNotUnsound};
ghost use Rattle.fsd_sound.specs.Mounting.{device_of_mount};
ghost use Rattle.saved_map.specs.Reading.{Believes};

use crate::root::find_roots;
use fsd_sound::MountFault;
use log_thirds::{Log, LogFault, ReadFault};
use saved_map::{MapFault, SavedMap, read_saved};
use sector_disk::Machine;
use std::alloc::Global;
use volume_layout::Layout;

// A volume that was found, its log, and the sectors that the next window's run may have.
#[derive(Drop)]
struct FoundLog {
    layout: Layout,
    log: Log,
    longest: u32,
}

/// A volume that was found, its log, the sectors that the next window's run may have, and the map that was saved in the
/// epoch, if it has one.
#[derive(Drop)]
pub(crate) struct FoundVolume {
    pub layout: Layout,
    pub log: Log,
    pub longest: u32,
    pub saved: Option<SavedMap>,
}

fn mount_fault(fault: LogFault) -> MountFault
    ensures { result ≡ mount_fault_of fault }
{
    match fault {
        LogFault::Read(ReadFault::Device(place)) => MountFault::Device(place),
        LogFault::Read(ReadFault::Memory) => MountFault::Memory,
        LogFault::NoAnchor => MountFault::NoAnchor,
        LogFault::WornOut => MountFault::WornOut,
    }
}

fn map_fault(fault: MapFault) -> MountFault
    ensures { result ≡ map_fault_of fault }
{
    match fault {
        MapFault::Device(place) => MountFault::Device(place),
        MapFault::Memory => MountFault::Memory,
    }
}

// Finds the root of an image with so many sectors, and its log.
fn find_log<M: Machine>(alloc: Global, m: &mut M, sectors: u32) -> Result<FoundLog, MountFault>
    requires { sectors ≡ (M.report m.old).sectors }

    ensures reads { OnlyReads M.Machine (device_in device_of_mount result) m.old m.new }
    ensures sound { IfErr result IsNotUnsound }
    ensures found { IfOk result (λ found. IsMountable sectors found.layout found.log found.longest) }

    // The layout is that of a root of the image, also where sectors wear.
    ensures root { IfOk result (λ found. M.honest m.new → HasRoot sectors (M.now m.old).image found.layout) }

    // Also where sectors wear, each answer but a fault of the disk and want of memory says what the image was,
    // as it was seen.
    ensures seen { IfOk result (λ found. M.honest m.new → IsBorneFound sectors found.layout found.log found.longest (M.now m.old) (M.now m.new)) }
    ensures refused { IfErr result (λ fault. M.honest m.new → IsNotFound sectors fault (M.now m.old)) }
{
    match find_roots(m, sectors) {
        Ok(roots) => match roots.taken() {
            Some(layout) => match Log::scan(alloc, m, &layout) {
                Ok(log) => Ok(FoundLog {
                    layout,
                    log,
                    longest: roots.longest(),
                }),
                Err(fault) => Err(mount_fault(fault)),
            },
            None => Err(MountFault::NotVolume),
        },
        Err(failed) => Err(MountFault::Device(failed.place)),
    }
}

/// Finds the volume of an image with so many sectors, its log and its saved map. It writes nothing.
pub(crate) fn find_volume<M: Machine>(
    alloc: Global,
    m: &mut M,
    sectors: u32,
) -> Result<FoundVolume, MountFault>
    requires { sectors ≡ (M.report m.old).sectors }

    ensures reads { OnlyReads M.Machine (device_in device_of_mount result) m.old m.new }
    ensures sound { IfErr result IsNotUnsound }
    ensures found { IfOk result (λ found. IsMountable sectors found.layout found.log found.longest) }

    // The layout is that of a root of the image, also where sectors wear.
    ensures root { IfOk result (λ found. M.honest m.new → HasRoot sectors (M.now m.old).image found.layout) }

    // Also where sectors wear, each answer but a fault of the disk and want of memory says what the image was,
    // as it was seen.
    ensures seen { IfOk result (λ found. M.honest m.new → IsBorneFound sectors found.layout found.log found.longest (M.now m.old) (M.now m.new)) }
    ensures refused { IfErr result (λ fault. M.honest m.new → IsNotFound sectors fault (M.now m.old)) }

    // The saved map is one of the epoch, and where there is none, none was seen that is believed.
    ensures believes { IfOk result (λ found. IfSome found.saved (Believes M.Machine found.layout found.log.anchor.epoch m.old m.new)) }
    ensures none { IfOk result (λ found. found.saved ≡ None → M.honest m.new → SeesNone found.layout found.log.anchor.epoch (M.now m.old)) }
{
    let FoundLog {
        layout,
        log,
        longest,
    } = find_log(alloc, m, sectors)?;
    match read_saved(alloc, m, &layout, log.epoch()) {
        Ok(saved) => Ok(FoundVolume {
            layout,
            log,
            longest,
            saved,
        }),
        Err(fault) => Err(map_fault(fault)),
    }
}
