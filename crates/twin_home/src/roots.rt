//! The roots, written with a layout.
ghost use Rattle.std.specs.Prelude.{◌≡◌, ◌⊎◌, ◌<◌, ◌≤◌, ◌+◌, IfErr, OnOk};
ghost use Rattle.sector_disk.specs.Calls.{WritesDisk, device_in, failed_at};
ghost use Rattle.sector_disk.specs.Image.{stand};
ghost use Rattle.sector_disk.specs.Machine.{Holds, wrote};
ghost use Rattle.volume_layout.specs.Root.{root_bytes};
ghost use Rattle.twin_home.specs.Heal.{RootsIn};

use sector_disk::{Failed, Machine, write_sectors};
use volume_layout::{Layout, root_bytes};

/// Writes the root at 0 with the layout's bytes, and then that at 4, and no other sector. A call that fails at the one
/// may have written it.
pub fn write_roots<M: Machine>(m: &mut M, l: &Layout) -> Result<(), Failed>
    requires room { 4 < (M.report m.old).sectors }

    ensures writes { WritesDisk M.Machine (device_in failed_at result) (RootsIn (root_bytes l.now)) m.old m.new }
    ensures place { IfErr result (λ failed. (failed.place ≡ 0) ⊎ (failed.place ≡ 4)) }
    ensures counted { OnOk result (M.tells m.new → M.ledger m.new ≡ wrote (M.ledger m.old) 2) }
    ensures least { M.tells m.new → (M.ledger m.old).written ≤ (M.ledger m.new).written }
    ensures most { M.tells m.new → (M.ledger m.new).written ≤ (M.ledger m.old).written + 2 }
    ensures done { OnOk result (M.honest m.new → Holds (M.now m.old) (stand (stand (M.now m.old).image 0 (root_bytes l.now) 1) 4 (root_bytes l.now) 1) (M.now m.new)) }
{
    let bytes = root_bytes(l);
    write_sectors(m, 0, &bytes)?;
    write_sectors(m, 4, &bytes)
}
