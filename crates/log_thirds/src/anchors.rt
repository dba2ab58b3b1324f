//! Which anchor the disk gives.
ghost use Rattle.std.specs.Prelude.{◌≡◌, ◌<◌, ◌≤◌, ◌+◌, List, IfSome, IfOk, OnOk, OnErr};
ghost use Rattle.sector_disk.specs.Calls.{OnlyReads, WritesDisk, device_in, failed_at};
ghost use Rattle.sector_disk.specs.declared.sector.Sector.{Sector};
ghost use Rattle.sector_disk.specs.Image.{stand, IsWorn, open_damage};
ghost use Rattle.log_thirds.specs.Seen.{AnchorsOn, ReadsAnchor};
ghost use Rattle.sector_disk.specs.Machine.{Holds, wrote};
ghost use Rattle.fsd_formats.specs.Anchors.{anchor_bytes};
ghost use Rattle.fsd_log.specs.Scan.{is_newer, newer_of};
ghost use Rattle.log_thirds.specs.Append.{StandsInPart};
ghost use Rattle.log_thirds.specs.Anchoring.{AnchorsIn, with_anchors};
ghost use Rattle.log_thirds.specs.Reading.{SeesCopy, SeesAnchor, read_failed_at};

use crate::reading::ReadFault;
use fsd_formats::Anchor;
use log_record::{anchor_bytes, read_anchor};
use sector_disk::{Failed, Machine, read_sector, write_sectors};

// Whether an anchor is newer than another: by epoch, and then by the first number.
fn is_newer(a: &Anchor, b: &Anchor) -> bool
    ensures { result ≡ is_newer a.now b.now }
{
    b.epoch < a.epoch || a.epoch == b.epoch && b.first < a.first
}

// The newer of two, on a tie the first.
fn newer_of(first: Option<Anchor>, copy: Option<Anchor>) -> Option<Anchor>
    ensures { result ≡ newer_of first copy }
{
    match (first, copy) {
        (Some(a), Some(b)) => Some(if is_newer(&b, &a) { b } else { a }),
        (Some(a), None) => Some(a),
        (None, copy) => copy,
    }
}

// The anchor at a place, if one stands there.
fn read_copy<M: Machine>(m: &mut M, place: u32) -> Result<Option<Anchor>, ReadFault>
    requires { place < (M.report m.old).sectors }
    ensures reads { OnlyReads M.Machine (device_in read_failed_at result) m.old m.new }
    ensures third { IfOk result (λ o. IfSome o (λ a. a.third ≤ 2)) }
    ensures first { IfOk result (λ o. IfSome o (λ a. 1 ≤ a.first)) }
    ensures epoch { IfOk result (λ o. IfSome o (λ a. 1 ≤ a.epoch)) }
    ensures sees { IfOk result (λ o. M.honest m.new → SeesCopy (M.now m.old) place o) }
    ensures seen { IfOk result (λ o. M.honest m.new → ReadsAnchor (M.now m.old) (M.now m.new) place o) }
{
    match read_sector(m, place)? {
        Some(sector) => Ok(read_anchor(&sector)),
        None => Ok(None),
    }
}

/// The newer of the two copies of the anchor.
pub(crate) fn find_anchor<M: Machine>(m: &mut M) -> Result<Option<Anchor>, ReadFault>
    requires { 12 < (M.report m.old).sectors }
    ensures reads { OnlyReads M.Machine (device_in read_failed_at result) m.old m.new }
    ensures third { IfOk result (λ o. IfSome o (λ a. a.third ≤ 2)) }
    ensures first { IfOk result (λ o. IfSome o (λ a. 1 ≤ a.first)) }
    ensures epoch { IfOk result (λ o. IfSome o (λ a. 1 ≤ a.epoch)) }
    ensures sees { IfOk result (λ o. M.honest m.new → SeesAnchor (M.now m.old) o) }
    ensures seen { IfOk result (λ o. (j : List Sector) → M.honest m.new → IsWorn (open_damage (M.now m.old).windows) j (M.now m.old).image → AnchorsOn (open_damage (M.now m.old).windows) j (M.now m.new).image o) }
{
    let first = read_copy(m, 8)?;
    let copy = read_copy(m, 12)?;
    Ok(newer_of(first, copy))
}

// Writes an anchor to one of its places.
fn write_copy<M: Machine>(m: &mut M, place: u32, anchor: &Anchor) -> Result<(), Failed>
    requires epoch { 1 ≤ anchor.now.epoch }
    requires third { anchor.now.third ≤ 2 }
    requires first { 1 ≤ anchor.now.first }
    requires in_range { place < (M.report m.old).sectors }
    ensures writes { WritesDisk M.Machine (device_in failed_at result) (StandsInPart place (anchor_bytes anchor.now) 1) m.old m.new }
    ensures counted { OnOk result (M.tells m.new → M.ledger m.new ≡ wrote (M.ledger m.old) 1) }
    ensures counted_err { OnErr result (M.tells m.new → M.ledger m.new ≡ M.ledger m.old) }
    ensures done { OnOk result (M.honest m.new → Holds (M.now m.old) (stand (M.now m.old).image place (anchor_bytes anchor.now) 1) (M.now m.new)) }
{
    write_sectors(m, place, &anchor_bytes(anchor))
}

/// Writes an anchor to its first place, and then to its second.
pub(crate) fn write_anchor<M: Machine>(m: &mut M, anchor: &Anchor) -> Result<(), Failed>
    requires epoch { 1 ≤ anchor.now.epoch }
    requires third { anchor.now.third ≤ 2 }
    requires first { 1 ≤ anchor.now.first }
    requires in_range { 12 < (M.report m.old).sectors }
    ensures writes { WritesDisk M.Machine (device_in failed_at result) (AnchorsIn anchor.now) m.old m.new }
    ensures counted { OnOk result (M.tells m.new → M.ledger m.new ≡ wrote (M.ledger m.old) 2) }
    ensures least { M.tells m.new → (M.ledger m.old).written ≤ (M.ledger m.new).written }
    ensures most { M.tells m.new → (M.ledger m.new).written ≤ (M.ledger m.old).written + 2 }
    ensures done { OnOk result (M.honest m.new → Holds (M.now m.old) (with_anchors anchor.now (M.now m.old).image 1 1) (M.now m.new)) }
{
    write_copy(m, 8, anchor)?;
    write_copy(m, 12, anchor)?;
    Ok(())
}
