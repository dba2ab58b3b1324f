//! Whether a volume was closed in an epoch.
ghost use Rattle.std.specs.Prelude.{◌≡◌, ◌↔◌, ◌<◌, Ok, Some, true, false, IfOk, IsTrue};
ghost use Rattle.sector_disk.specs.Calls.{OnlyReads, device_in, failed_at};
ghost use Rattle.fsd_formats.specs.Anchors.{read_closed};
ghost use Rattle.fsd_sound.specs.Saved.{IsClosedAt};
ghost use Rattle.saved_map.specs.Reading.{IsClosedIn, SaysClosed};

use log_record::read_closed;
use sector_disk::{Failed, Machine, read_sector};

// Whether a sector is an anchor's that says that its volume was closed in this epoch.
fn says_closed(b: &[u8; 512], epoch: u32) -> bool
    ensures { IsTrue result ↔ SaysClosed epoch b.now }
{
    match read_closed(b) {
        Some(anchor) => anchor.epoch == epoch,
        None => false,
    }
}

// Whether the copy of the anchor at a place says so.
fn is_closed_at<M: Machine>(m: &mut M, place: u32, epoch: u32) -> Result<bool, Failed>
    requires { place < (M.report m.old).sectors }
    ensures reads { OnlyReads M.Machine (device_in failed_at result) m.old m.new }
    ensures is { IfOk result (λ closed. M.honest m.new → (IsTrue closed ↔ IsClosedAt epoch (M.now m.new).image place)) }
{
    match read_sector(m, place)? {
        Some(b) => Ok(says_closed(&b, epoch)),
        None => Ok(false),
    }
}

/// Whether a copy of the anchor says that the volume was closed in this epoch.
pub(crate) fn is_closed<M: Machine>(m: &mut M, epoch: u32) -> Result<bool, Failed>
    requires { 12 < (M.report m.old).sectors }
    ensures reads { OnlyReads M.Machine (device_in failed_at result) m.old m.new }
    ensures yes { result ≡ Ok true → M.honest m.new → IsClosedIn epoch (M.now m.old).image }
    ensures no { result ≡ Ok false → M.honest m.new → IsClosedIn epoch (M.now m.new).image → ⊥ }
{
    if is_closed_at(m, 8, epoch)? {
        return Ok(true);
    }
    is_closed_at(m, 12, epoch)
}
