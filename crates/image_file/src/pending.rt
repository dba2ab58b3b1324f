//! The slots at the end of a run that wait in memory until the system is given them.
ghost use Rattle.std.specs.Prelude.{◌≡◌, ◌⊎◌, ◌+◌, ◌<◌, ◌/◌, ◌^◌, length, OnOk};
ghost use Rattle.fsd_formats.specs.Slot.{slot_of};
ghost use Rattle.image_file.specs.Stretch.{AddsOnly, HoldsSector, IsBehind, Spells, slot_at};

use crate::image::ImageFile;
use crate::slot::slot_of;
use crate::stretch::Stretch;
use sector_disk::SECTOR_BYTES;
use std::io;

/// Puts the slots of sectors from one on behind those that wait. Where these are the most, or memory is refused, the
/// system is given them first; where none fits, each slot at once.
pub(crate) fn extend(
    pending: &mut Stretch,
    image: &ImageFile,
    first: u32,
    bytes: &[u8],
) -> io::Result<()>
    requires behind { IsBehind first pending.old }
    requires fits { first + length bytes.now / 512 < 2 ^ 32 }
    ensures behind { OnOk result (IsBehind (first + length bytes.now / 512) pending.new) }
    ensures there { OnOk result (Spells first bytes.now (length bytes.now / 512) pending.new) }
    ensures only { AddsOnly first (length bytes.now / 512) pending.old pending.new }
{
    for i in 0..bytes.len() / SECTOR_BYTES {
        let from = i * SECTOR_BYTES;
        put(
            pending,
            image,
            first + i as u32,
            &bytes[from..from + SECTOR_BYTES],
        )?;
    }
    Ok(())
}

// Puts the slot of a sector behind those that wait, unless the system was given it.
fn put(pending: &mut Stretch, image: &ImageFile, sector: u32, bytes: &[u8]) -> io::Result<()>
    requires whole { length bytes.now ≡ 512 }
    requires behind { IsBehind sector pending.old }
    ensures behind { OnOk result (IsBehind (sector + 1) pending.new) }
    ensures there { OnOk result ((pending.new.count ≡ 0) ⊎ (HoldsSector pending.new sector × (slot_at pending.new sector ≡ slot_of sector bytes.now))) }
    ensures only { AddsOnly sector 1 pending.old pending.new }
{
    let mut whole = [0; 512];
    whole.copy_from_slice(bytes);
    let slot = slot_of(sector, &whole);
    if pending.push(sector, &slot) {
        return Ok(());
    }
    pending.write_out(image)?;
    if pending.push(sector, &slot) {
        return Ok(());
    }
    image.write(sector, &slot)
}
