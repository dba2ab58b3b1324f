//! A whole scrub.
ghost use Rattle.std.specs.Prelude.{◌≡◌, ◌≤◌, [], None, IfErr};
ghost use Rattle.sector_disk.specs.Calls.{WritesDisk, device_in};
ghost use Rattle.volume_contract.specs.Ends.{device_of};
ghost use Rattle.volume_contract.specs.Order.{Follows, IsLookUp};
ghost use Rattle.volume_contract.specs.State.{Known, Stands};
ghost use Rattle.scrub.specs.Scrub.{EndsHealed, EndsLooked, EndsScrub, KeepsScrub, LeavesScrubbed, TellsHealing, TellsScrub, WritesHealing, WritesScrub, scrub_steps};

use crate::data::look;
use crate::leaders::heal_leaders;
use fsd_bytes::{Key, Refusal};
use sector_disk::Machine;
use volume_contract::Files;

/// How many sectors a scrub has written for healing.
#[derive(Clone, Copy)]
pub struct Healed {
    pub sectors: u32,
}

// Heals what stands twice, and the leaders of all versions.
fn heal_all<M: Machine, V: Files<M>>(v: &mut V, m: &mut M) -> Result<Healed, Refusal>
    requires room { (V.state v.old).layout.sectors ≤ (M.report m.old).sectors }
    requires up { (V.state v.old).down ≡ None }
    ensures refusal { IfErr result IsLookUp }
    ensures disk { WritesDisk M.Machine (device_in device_of result) (LeavesScrubbed V.state V.holds v.old) m.old m.new }
    ensures writes { WritesHealing M.Machine (V.state v.old).layout m.old m.new result }
    ensures state { V.state v.new ≡ V.state v.old }
    ensures tells { M.honest m.new → TellsHealing (V.state v.old).layout (M.now m.new) result }
    ensures done { M.honest m.new → (k : Known) → Stands V.state V.holds v.old k (M.now m.old) → EndsHealed V.state V.holds k v.new (M.now m.old) (M.now m.new) result }
{
    match v.heal(m) {
        Ok(twins) => match heal_leaders(v, m) {
            Ok(leaders) => Ok(Healed {
                sectors: twins.saturating_add(leaders),
            }),
            Err(why) => Err(why),
        },
        Err(why) => Err(why),
    }
}

// The same, and then lists the damaged data sectors.
fn heal_and_look<M: Machine, V: Files<M>>(
    v: &mut V,
    m: &mut M,
    found: &mut Vec<(Key, u32)>,
) -> Result<Healed, Refusal>
    requires room { (V.state v.old).layout.sectors ≤ (M.report m.old).sectors }
    requires up { (V.state v.old).down ≡ None }
    requires none { found.old.items ≡ [] }
    ensures refusal { IfErr result IsLookUp }
    ensures disk { WritesDisk M.Machine (device_in device_of result) (LeavesScrubbed V.state V.holds v.old) m.old m.new }
    ensures writes { WritesHealing M.Machine (V.state v.old).layout m.old m.new result }
    ensures state { V.state v.new ≡ V.state v.old }
    ensures tells { M.honest m.new → TellsScrub (V.state v.old).layout (M.now m.new) found.new.items result }
    ensures done { M.honest m.new → (k : Known) → Stands V.state V.holds v.old k (M.now m.old) → EndsLooked V.state V.holds k v.new (M.now m.old) (M.now m.new) found.new.items result }
{
    match heal_all(v, m) {
        Ok(healed) => match look(v, m, found) {
            Ok(()) => Ok(healed),
            Err(why) => Err(why),
        },
        Err(why) => Err(why),
    }
}

/// Forces all changes; heals the copies of the root, of the anchor and of the name pages at home, and the leaders of all
/// versions; and lists the damaged data sectors by key and then by place in the file. Where it is refused, `found` has
/// the first ones of that list, and what was forced and healed stands.
pub fn scrub<M: Machine, V: Files<M>>(
    v: &mut V,
    m: &mut M,
    found: &mut Vec<(Key, u32)>,
) -> Result<Healed, Refusal>
    requires { (V.state v.old).layout.sectors ≤ (M.report m.old).sectors }
    ensures order { Follows (scrub_steps (V.state v.old)) result }
    ensures disk { WritesDisk M.Machine (device_in device_of result) (LeavesScrubbed V.state V.holds v.old) m.old m.new }
    ensures writes { WritesScrub M.Machine (V.state v.old) m.old m.new result }
    ensures state { KeepsScrub (V.state v.old) (V.state v.new) result }
    ensures tells { M.honest m.new → TellsScrub (V.state v.old).layout (M.now m.new) found.new.items result }
    ensures done { M.honest m.new → (k : Known) → Stands V.state V.holds v.old k (M.now m.old) → EndsScrub V.state V.holds k v.new (M.now m.old) (M.now m.new) found.new.items result }
{
    found.clear();
    match v.force(m) {
        Ok(_) => heal_and_look(v, m, found),
        Err(why) => Err(why),
    }
}
