//! Leaders that are damaged or differ from their entries.
ghost use Rattle.std.specs.Prelude.{◌≡◌, ◌≤◌, ◌+◌, None, Contains, IfErr};
ghost use Rattle.sector_disk.specs.Calls.{WritesDisk, device_in};
ghost use Rattle.volume_layout.specs.Layout.{is_data};
ghost use Rattle.fsd_files.specs.Scrub.{leader_count};
ghost use Rattle.volume_contract.specs.Ends.{device_of};
ghost use Rattle.volume_contract.specs.Order.{IsLookUp};
ghost use Rattle.volume_contract.specs.State.{Known, Stands, WritesTold};
ghost use Rattle.scrub.specs.Leading.{EndsLed, LeavesLed};
ghost use Rattle.scrub.specs.Telling.{TellsOn};

use crate::walk::next_one;
use fsd_bytes::Refusal;
use sector_disk::Machine;
use volume_contract::Files;

// How many leaders were written.
fn count_of(written: bool) -> u32
    ensures { result ≡ leader_count written }
{
    if written { 1 } else { 0 }
}

/// Writes the leaders of all versions that are damaged or differ from their entries, and answers how many those are.
pub(crate) fn heal_leaders<M: Machine, V: Files<M>>(v: &mut V, m: &mut M) -> Result<u32, Refusal>
    requires room { (V.state v.old).layout.sectors ≤ (M.report m.old).sectors }
    requires up { (V.state v.old).down ≡ None }
    ensures refusal { IfErr result IsLookUp }
    ensures disk { WritesDisk M.Machine (device_in device_of result) (LeavesLed V.state V.holds v.old) m.old m.new }
    ensures writes { WritesTold M.Machine (is_data (V.state v.old).layout) (λ count. count) m.old m.new result }
    ensures state { V.state v.new ≡ V.state v.old }
    ensures told { IfErr result (λ why. M.honest m.new → TellsOn (V.state v.old).layout (M.now m.new).image why) }
    ensures done { M.honest m.new → (k : Known) → Stands V.state V.holds v.old k (M.now m.old) → EndsLed V.state V.holds k v.new (M.now m.old) (M.now m.new) result }
{
    let mut count = 0;
    let mut last = None;
    for _ in 0..v.stat().versions {
        match next_one(v, m, &last) {
            Ok(Some(e)) => match v.heal_leader(m, &e) {
                Ok(written) => {
                    count += count_of(written);
                    last = Some(e.key);
                }
                Err(why) => return Err(why),
            },
            Ok(None) => return Ok(count),
            Err(why) => return Err(why),
        }
    }
    Ok(count)
}
