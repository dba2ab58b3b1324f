//! The anchor of a volume that is closed.
ghost use Rattle.std.specs.Prelude.{◌≡◌, ◌⊎◌, ◌<◌, ◌≤◌, ◌+◌, IfErr, OnOk, OnErr};
ghost use Rattle.sector_disk.specs.Calls.{WritesDisk, device_in, failed_at};
ghost use Rattle.sector_disk.specs.Image.{stand};
ghost use Rattle.sector_disk.specs.Machine.{Holds, wrote};
ghost use Rattle.fsd_formats.specs.Anchors.{closed_bytes};
ghost use Rattle.log_thirds.specs.Append.{StandsInPart};
ghost use Rattle.log_thirds.specs.Anchoring.{ClosesIn, with_closed};

use fsd_formats::Anchor;
use log_record::closed_bytes;
use sector_disk::{Failed, Machine, write_sectors};

// Writes an anchor that says that its volume was closed to one of its places.
fn close_copy<M: Machine>(m: &mut M, place: u32, anchor: &Anchor) -> Result<(), Failed>
    requires epoch { 1 ≤ anchor.now.epoch }
    requires third { anchor.now.third ≤ 2 }
    requires first { 1 ≤ anchor.now.first }
    requires in_range { place < (M.report m.old).sectors }
    ensures writes { WritesDisk M.Machine (device_in failed_at result) (StandsInPart place (closed_bytes anchor.now) 1) m.old m.new }
    ensures place { IfErr result (λ failed. failed.place ≡ place) }
    ensures counted { OnOk result (M.tells m.new → M.ledger m.new ≡ wrote (M.ledger m.old) 1) }
    ensures counted_err { OnErr result (M.tells m.new → M.ledger m.new ≡ M.ledger m.old) }
    ensures done { OnOk result (M.honest m.new → Holds (M.now m.old) (stand (M.now m.old).image place (closed_bytes anchor.now) 1) (M.now m.new)) }
{
    write_sectors(m, place, &closed_bytes(anchor))
}

/// Writes an anchor that says that its volume was closed to its first place, and then to its second.
pub(crate) fn close_both<M: Machine>(m: &mut M, anchor: &Anchor) -> Result<(), Failed>
    requires epoch { 1 ≤ anchor.now.epoch }
    requires third { anchor.now.third ≤ 2 }
    requires first { 1 ≤ anchor.now.first }
    requires in_range { 12 < (M.report m.old).sectors }
    ensures writes { WritesDisk M.Machine (device_in failed_at result) (ClosesIn anchor.now) m.old m.new }
    ensures place { IfErr result (λ failed. (failed.place ≡ 8) ⊎ (failed.place ≡ 12)) }
    ensures counted { OnOk result (M.tells m.new → M.ledger m.new ≡ wrote (M.ledger m.old) 2) }
    ensures least { M.tells m.new → (M.ledger m.old).written ≤ (M.ledger m.new).written }
    ensures most { M.tells m.new → (M.ledger m.new).written ≤ (M.ledger m.old).written + 2 }
    ensures done { OnOk result (M.honest m.new → Holds (M.now m.old) (with_closed anchor.now (M.now m.old).image 1 1) (M.now m.new)) }
{
    close_copy(m, 8, anchor)?;
    close_copy(m, 12, anchor)?;
    Ok(())
}
