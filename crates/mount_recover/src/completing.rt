//! A mount up to `healing`: the last record is completed before anything is written behind the log.
ghost use Rattle.std.specs.Prelude.{◌≡◌, ◌≤◌, ℕ, List, Ok, OnOk};
ghost use Rattle.volume_layout.specs.Kinds.{longest_of};
ghost use Rattle.volume_layout.specs.Layout.{IsPlanned};
ghost use Rattle.volume_layout.specs.declared.layout.Layout.{Layout as Plan};
ghost use Rattle.sector_disk.specs.declared.sector.WeakRun.{WeakRun};
ghost use Rattle.sector_disk.specs.Calls.{HealsDisk, device_in, failed_at};
ghost use Rattle.fsd_files.specs.Disk.{Image};
ghost use Rattle.mount_recover.specs.Mending.{IsSeen, KnowsLog, StaysElsewhere};
ghost use Rattle.mount_recover.specs.Showing.{IsLaidAgain};
ghost use Rattle.mount_recover.specs.Steps.{CompletesLog, NamesRun, WritesUpTo};
ghost use Rattle.log_thirds.specs.Append.{IsCalmNow};

use log_thirds::Log;
use sector_disk::{Failed, Machine};

/// Writes the last record's copies again, and names the next window's run, of at most so many sectors.
pub(crate) fn complete<M: Machine>(m: &mut M, log: &Log, longest: u32) -> Result<(), Failed>
    requires least { 2 ≤ longest }
    requires borne { longest ≤ longest_of log.now.layout.kind }
    requires sectors { log.now.layout.sectors ≤ (M.report m.old).sectors }

    ensures disk { HealsDisk M.Machine (device_in failed_at result) m.old m.new }
    ensures counted { WritesUpTo M.Machine 97 m.old m.new result }
    ensures names { M.honest m.new → NamesRun M.Machine longest m.old m.new result }
    ensures rest { (l : Plan) (j : Image) → M.honest m.new → IsPlanned l → log.now.layout ≡ l → KnowsLog l log.now j → StaysElsewhere l (M.now m.old) (M.now m.new) }

    // Of an image that was seen and shows the pages of a volume.
    ensures completes { (l : Plan) (windows : List WeakRun) (choices : List (List (List ℕ))) → M.honest m.new → IsPlanned l → log.now.layout ≡ l →
        (seen : IsSeen l windows choices log.now (M.now m.old)) → CompletesLog M.Machine l windows choices log.now m.old m.new seen result }

    // Of any image on which nothing wears.
    ensures given { OnOk result ((l : Plan) → M.honest m.new → IsCalmNow (M.now m.old) → IsPlanned l → log.now.layout ≡ l → KnowsLog l log.now (M.now m.old).image →
        IsLaidAgain l log.now (M.now m.old).image (M.now m.new).image) }
{
    log.complete_last(m)?;
    m.healing(longest)?;
    Ok(())
}
