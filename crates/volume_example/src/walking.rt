//! A walk through the versions of a volume.
ghost use Rattle.std.specs.Prelude.{◌≡◌, ◌≤◌, length, MatchResult};
ghost use Rattle.scrub.specs.Walk.{IsFromOutside};
ghost use Rattle.sector_disk.specs.Calls.{OnlyReads, device_in};
ghost use Rattle.volume_contract.specs.Ends.{device_of};
ghost use Rattle.volume_contract.specs.State.{Known, Stands, volume_of};

use fsd_bytes::Refusal;
use sector_disk::Machine;
use volume_contract::Files;

/// How many versions there are, as a walk through them meets them.
pub fn count<M: Machine, V: Files<M>>(v: &mut V, m: &mut M) -> Result<u32, Refusal>
    requires { (V.state v.old).layout.sectors ≤ (M.report m.old).sectors }
    ensures state { V.state v.new ≡ V.state v.old }
    ensures disk { OnlyReads M.Machine (device_in device_of result) m.old m.new }
    ensures stands { M.honest m.new → (k : Known) → Stands V.state V.holds v.old k (M.now m.old) → Stands V.state V.holds v.new k (M.now m.new) }
    ensures done { M.honest m.new → (k : Known) → Stands V.state V.holds v.old k (M.now m.old) → MatchResult result (λ n. n ≡ length (volume_of k).files) IsFromOutside }
{
    let mut last = None;
    let most = v.stat().versions;
    for count in 0..most {
        match v.next_after(m, last.as_ref()) {
            Ok(Some(entry)) => last = Some(entry.key),
            Ok(None) => return Ok(count),
            Err(why) => return Err(why),
        }
    }
    Ok(most)
}
