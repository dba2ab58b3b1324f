//! The entries of a volume in the order of their keys.
ghost use Rattle.std.specs.Prelude.{◌≤◌};
ghost use Rattle.fsd_files.specs.Answers.{next_reply};
ghost use Rattle.sector_disk.specs.Calls.{device_in};
ghost use Rattle.volume_contract.specs.Ends.{LooksUp, device_of};
ghost use Rattle.volume_contract.specs.Order.{Follows, next_steps};
ghost use Rattle.volume_contract.specs.State.{Known, Stands, volume_of};
ghost use Rattle.volume_contract.specs.Telling.{TellsNext};
ghost use Rattle.scrub.specs.Reading.{ReadsVolume};

use fsd_bytes::{Key, Refusal};
use fsd_formats::Entry;
use sector_disk::Machine;
use volume_contract::Files;

/// The entry behind this key, or the first one.
pub fn next_one<M: Machine, V: Files<M>>(
    v: &mut V,
    m: &mut M,
    last: &Option<Key>,
) -> Result<Option<Entry>, Refusal>
    requires room { (V.state v.old).layout.sectors ≤ (M.report m.old).sectors }
    ensures order { Follows (next_steps (V.state v.old)) result }
    ensures reads { ReadsVolume M.Machine V.state V.holds (device_in device_of result) v.old v.new m.old m.new }
    ensures tells { TellsNext M.Machine (V.resident v.old) (V.state v.old) (V.state v.new) m.old m.new last.now result }
    ensures done { M.honest m.new → (k : Known) → Stands V.state V.holds v.old k (M.now m.old) → LooksUp (next_reply (volume_of k) last.now) result }
{
    match last {
        Some(key) => v.next_after(m, Some(key)),
        None => v.next_after(m, None),
    }
}
