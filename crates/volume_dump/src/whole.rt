//! A whole dump.
ghost use Rattle.std.specs.Prelude.{◌≡◌, ◌≤◌};
ghost use Rattle.volume_contract.specs.State.{Known, Stands, volume_of};
ghost use Rattle.volume_dump.specs.Dump.{EndsDump, FollowsDump, LeavesDumped, ReadsAndSays, TellsDump, device_in_dump, is_unsaid_dump};

use crate::fault::{DumpFault, fault_of};
use crate::saying::say_all;
use crate::survey::survey;
use fsd_runs::Span;
use sector_disk::Machine;
use std::alloc::Global;
use volume_contract::Files;

/// Says a dump of the versions whose serial is in the span, and answers how many they are. It reads all their
/// data sectors first and tells the damaged ones; then it says the head, and reads and says each version, and the end.
/// It holds one version's bytes at most.
pub fn dump<M: Machine, V: Files<M>>(
    alloc: Global,
    v: &mut V,
    m: &mut M,
    span: Span,
) -> Result<u32, DumpFault>
    requires { (V.state v.old).layout.sectors ≤ (M.report m.old).sectors }
    ensures order { FollowsDump (V.state v.old) result }
    ensures disk { ReadsAndSays M.Machine (device_in_dump result) (is_unsaid_dump result) (LeavesDumped V.state V.holds v.old span) m.old m.new }
    ensures state { V.state v.new ≡ V.state v.old }
    ensures stands { M.honest m.new → (k : Known) → Stands V.state V.holds v.old k (M.now m.old) → Stands V.state V.holds v.new k (M.now m.new) }
    ensures tells { M.honest m.new → TellsDump (V.state v.old).layout (M.now m.new).image result }
    ensures done { M.honest m.new → (k : Known) → Stands V.state V.holds v.old k (M.now m.old) → EndsDump span (volume_of k) (M.now m.old) (M.now m.new) result }
{
    let mut found = Vec::new(alloc);
    match survey(v, m, span, &mut found) {
        Ok(surveyed) => {
            if found.is_empty() {
                say_all(alloc, v, m, span, surveyed)
            } else {
                Err(DumpFault::Found(found))
            }
        }
        Err(why) => Err(fault_of(why)),
    }
}
