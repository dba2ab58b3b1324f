//! Writing a record at a place.
ghost use Rattle.std.specs.Prelude.{◌≡◌, ◌≤◌, ◌+◌, ◌*◌, length, OnOk, OnErr};
ghost use Rattle.sector_disk.specs.Calls.{WritesDisk, device_in, failed_at};
ghost use Rattle.sector_disk.specs.Image.{stand};
ghost use Rattle.sector_disk.specs.Machine.{Holds, wrote};
ghost use Rattle.volume_layout.specs.Kinds.{gap_of};
ghost use Rattle.fsd_formats.specs.Record.{max_pages};
ghost use Rattle.fsd_log.specs.Laid.{laid_bytes};
ghost use Rattle.log_record.specs.declared.judging.TheConstants.{RECORD_BYTES};
ghost use Rattle.log_thirds.specs.Append.{StandsInPart};

use log_record::lay;
use sector_disk::{Failed, Machine, write_sectors};
use volume_layout::Layout;

/// Writes a record at a place, by one write.
pub(crate) fn write_record<M: Machine>(
    m: &mut M,
    layout: &Layout,
    place: u32,
    epoch: u32,
    number: u32,
    pages: &[u32],
    images: &[u8],
    buffer: &mut [u8],
) -> Result<(), Failed>
    requires few { length pages.now ≤ max_pages }
    requires long { length images.now ≡ 512 * length pages.now }
    requires room { length buffer.old ≡ RECORD_BYTES }
    requires in_range { place + (2 * length pages.now + (5 + 2 * gap_of layout.now)) ≤ (M.report m.old).sectors }
    ensures writes { WritesDisk M.Machine (device_in failed_at result)
        (StandsInPart place (laid_bytes (gap_of layout.now) (record { epoch = epoch; number = number }) pages.now images.now) (2 * length pages.now + (5 + 2 * gap_of layout.now))) m.old m.new }
    ensures counted { OnOk result (M.tells m.new → M.ledger m.new ≡ wrote (M.ledger m.old) (2 * length pages.now + (5 + 2 * gap_of layout.now))) }
    ensures counted_err { OnErr result (M.tells m.new → M.ledger m.new ≡ M.ledger m.old) }
    ensures done { OnOk result (M.honest m.new → Holds (M.now m.old)
        (stand (M.now m.old).image place (laid_bytes (gap_of layout.now) (record { epoch = epoch; number = number }) pages.now images.now) (2 * length pages.now + (5 + 2 * gap_of layout.now))) (M.now m.new)) }
{
    let kind = layout.kind();
    lay(kind, epoch, number, pages, images, buffer);
    let gap = kind.more() as usize;
    let long = 512 * (2 * pages.len() + (5 + 2 * gap));
    write_sectors(m, place, &buffer[..long])
}
