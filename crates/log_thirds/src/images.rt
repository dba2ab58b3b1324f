//! Reading a page's image in a record.
ghost use Rattle.std.specs.Prelude.{◌≡◌, ◌<◌, Some, None, Ok, IfOk};
ghost use Rattle.sector_disk.specs.Calls.{OnlyReads, device_in, failed_at};
ghost use Rattle.sector_disk.specs.Damage.{AreLost};
ghost use Rattle.fsd_formats.specs.Record.{bears};
ghost use Rattle.fsd_log.specs.Plain.{served};
ghost use Rattle.log_thirds.specs.Images.{best_copy, SeesSlot};
ghost use Rattle.fsd_log.specs.Slots.{LiesAt};

use fsd_bytes::u32_at;
use fsd_log::Slot;
use sector_disk::{Failed, Machine, read_sector};

// Whether a sector is the page's image in a record.
fn bears(b: &[u8; 512], page: u32, epoch: u32, number: u32) -> bool
    ensures { result ≡ bears page (record { epoch = epoch; number = number }) b.now }
{
    [b[0], b[1], b[2], b[3]] == *b"CNPG"
        && u32_at(b, 12) == page
        && (u32_at(b, 16) == epoch && u32_at(b, 20) == number)
}

// What was read, if it is the page's image in a record.
fn serve(sector: Option<[u8; 512]>, page: u32, epoch: u32, number: u32) -> Option<[u8; 512]>
    ensures { result ≡ served (bears page (record { epoch = epoch; number = number })) sector }
{
    match sector {
        Some(b) => {
            if bears(&b, page, epoch, number) {
                Some(b)
            } else {
                None
            }
        }
        None => None,
    }
}

// Of a page's two copies, as they could be read, the one that is its image in a record, the first where both are; where
// neither is, one that is whole.
fn choose(
    first: Option<[u8; 512]>,
    copy: Option<[u8; 512]>,
    page: u32,
    epoch: u32,
    number: u32,
) -> Option<[u8; 512]>
    ensures { result ≡ best_copy (bears page (record { epoch = epoch; number = number })) first copy }
{
    serve(first, page, epoch, number)
        .or(serve(copy, page, epoch, number))
        .or(first)
        .or(copy)
}

/// Reads the page's image at its slot, and where it doesn't stand there, at the copy. Where it stands at neither, it
/// gives one of the two that is whole; none where both are damaged.
pub(crate) fn read_slot<M: Machine>(
    m: &mut M,
    slot: Slot,
    page: u32,
    epoch: u32,
) -> Result<Option<[u8; 512]>, Failed>
    requires place { slot.place < (M.report m.old).sectors }
    requires copy { slot.copy < (M.report m.old).sectors }
    ensures reads { OnlyReads M.Machine (device_in failed_at result) m.old m.new }
    ensures sees { IfOk result (λ o. M.honest m.new → SeesSlot (M.now m.old) slot page epoch o) }
    ensures lost { result ≡ Ok None → M.honest m.new → AreLost (LiesAt (Some slot)) (M.now m.new).image slot.place slot.copy }
{
    let first = read_sector(m, slot.place)?;
    if let Some(image) = serve(first, page, epoch, slot.number) {
        return Ok(Some(image));
    }
    let copy = read_sector(m, slot.copy)?;
    Ok(choose(first, copy, page, epoch, slot.number))
}
