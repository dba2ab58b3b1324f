//! The beginning of a new epoch, when all that stands twice is mended.
ghost use Rattle.std.specs.Prelude.{◌≡◌, ◌+◌, ◌-◌, ◌<◌, ◌≤◌, ◌^◌, ℕ, List, Ok, IsSome, OnOk};
ghost use Rattle.volume_layout.specs.declared.layout.Layout.{Layout as Plan};
ghost use Rattle.volume_layout.specs.Layout.{IsPlanned};
ghost use Rattle.sector_disk.specs.declared.sector.WeakRun.{WeakRun};
ghost use Rattle.sector_disk.specs.Calls.{HealsDisk, device_in, failed_at};
ghost use Rattle.sector_disk.specs.Machine.{Moment as At};
ghost use Rattle.log_thirds.specs.Anchoring.{in_next_epoch};
ghost use Rattle.mount_recover.specs.Mending.{IsCompleted, IsMended};
ghost use Rattle.mount_recover.specs.Steps.{BeginsEpoch, TurnsEpoch, WritesUpTo};

use log_thirds::Log;
use sector_disk::{Failed, Machine};

/// Writes the anchors of the next epoch, and settles. It is called once the next window's run is named and all that
/// stands twice is whole. Where the disk fails the image shows the same pages.
pub(crate) fn begin_epoch<M: Machine>(m: &mut M, log: &mut Log) -> Result<(), Failed>
    requires epoch { log.old.anchor.epoch < 2 ^ 32 - 1 }
    requires sectors { log.old.layout.sectors ≤ (M.report m.old).sectors }

    ensures disk { HealsDisk M.Machine (device_in failed_at result) m.old m.new }
    ensures counted { WritesUpTo M.Machine 2 m.old m.new result }
    ensures past { OnOk result (log.new ≡ in_next_epoch log.old) }
    ensures turns { M.honest m.new → TurnsEpoch M.Machine log.new m.old m.new result }

    // Of an image that shows a volume, on which all is mended.
    ensures begins { (l : Plan) (windows : List WeakRun) (choices : List (List (List ℕ))) (first : At) (c : IsCompleted l windows choices log.old first) → M.honest m.new →
        IsPlanned l → IsSome first.windows.next → IsMended l windows choices log.old first c (M.now m.old) →
        BeginsEpoch M.Machine l windows choices first (log.old.anchor.epoch + 1) m.old m.new result }
{
    log.new_epoch(m)?;
    m.settle()?;
    Ok(())
}
