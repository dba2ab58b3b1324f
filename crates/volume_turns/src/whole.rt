//! One command, from the mount to its reply or to the line of the fault that ended it.
ghost use Rattle.std.specs.Prelude.{◌≡◌, ◌≤◌, ℕ, List, [], None, false, IsTrue};
ghost use Rattle.volume_turns.specs.Turns.{OnDisk};
ghost use Rattle.sector_disk.specs.Calls.{Since};
ghost use Rattle.fsd_runs.specs.Commands.{reply_alone};
ghost use Rattle.fsd_runs.specs.declared.request.Request.TheVariants.{One};
ghost use Rattle.volume_turns.specs.Answering.{RunsOne};
ghost use Rattle.volume_turns.specs.Causes.{Nothing, TellsImage};
ghost use Rattle.volume_turns.specs.Healing.{EndsHealed, HealsOver, IfScrub, is_of_answer};
ghost use Rattle.volume_turns.specs.Running.{EndsRun, LeavesOver, TakesNothingBy, TellsMounted};
ghost use Rattle.volume_turns.specs.Status.{IsOneStatus};
ghost use Rattle.volume_turns.specs.Commands.{MayLose};
ghost use Rattle.volume_turns.specs.Steps.{may_grow};
ghost use Rattle.volume_contract.specs.State.{Known, Stands, is_worn, none_open, volume_of, forced_of};
ghost use Rattle.volume_contract.specs.Upgrade.{is_fresh};
ghost use Rattle.volume_turns.specs.Whole.{RunsOut};

use crate::line::end_with;
use crate::once::{alone, fault_of};
use crate::turns::{Halt, Says};
use fsd_texts::Command;
use sector_disk::Machine;
use std::alloc::Global;
use volume_contract::Files;

/// Does one command over a volume that was just mounted, to the last line. It gives the status.
pub(crate) fn one_on<M: Machine, V: Files<M> + Drop, T: Says>(
    alloc: Global,
    v: V,
    m: &mut M,
    c: &Command,
) -> u8
    requires room { (V.state v).layout.sectors ≤ (M.report m.old).sectors }
    requires up { (V.state v).down ≡ None }
    requires unworn { is_worn (V.state v) ≡ false }
    requires fresh { IsTrue (is_fresh (V.state v)) }
    requires says { T.errand.says ≡ reply_alone }
    ensures ends { EndsRun M.Machine (IsOneStatus c.now) m.old m.new result }
    ensures takes { TakesNothingBy (may_grow c.now) M.Machine m.old m.new result }
    ensures since { M.honest m.new → Since M.Machine m.old m.new }
    ensures tells { M.honest m.new → TellsMounted Nothing (MayLose c.now) (V.state v).layout ⊥ (M.now m.old) (M.now m.new) result }
    ensures one { M.honest m.new → (V.state v).dirty ≡ [] → EndsHealed M.Machine V.state V.holds c.now v m.old m.new result }
    ensures runs { M.honest m.new → (rest : List ℕ) (k : Known) → (volume_of k).unforced ≡ 0 → k.opened ≡ none_open → Stands V.state V.holds v k (M.now m.old) → OnDisk M.Machine k (forced_of k) m.old → RunsOut M.Machine (One c.now) [] rest (M.report m.old) k m.old m.new result }
{
    match alone::<M, V, T>(alloc, v, m, c) {
        Ok(status) => status,
        Err(Halt::Fault(why)) => end_with(m, why),
        Err(Halt::Output) => 6,
    }
}

/// Mounts a volume, does one command, forces all and says its reply; or says the fault that has ended it.
/// It gives the status.
pub fn run_one<M: Machine, V: Files<M> + Drop, T: Says>(
    alloc: Global,
    m: &mut M,
    sectors: u32,
    c: &Command,
) -> u8
    requires sectors { sectors ≡ (M.report m.old).sectors }
    requires says { T.errand.says ≡ reply_alone }
    ensures ends { EndsRun M.Machine (IsOneStatus c.now) m.old m.new result }
    ensures takes { TakesNothingBy (may_grow c.now) M.Machine m.old m.new result }
    ensures image { M.honest m.new → TellsImage Nothing (MayLose c.now) None sectors (M.now m.old) (M.now m.new) result }
    ensures one { M.honest m.new → RunsOne c.now sectors (M.now m.old) (M.now m.new) result }
    ensures healed { M.honest m.new → IsTrue (is_of_answer result) → IfScrub c.now (HealsOver M.Machine sectors m.old m.new) }
    ensures leaves { M.honest m.new → (rest : List ℕ) → LeavesOver M.Machine (One c.now) [] rest sectors m.old m.new result }
{
    match V::mount(alloc, m, sectors) {
        Ok(v) => one_on::<M, V, T>(alloc, v, m, c),
        Err(fault) => end_with(m, fault_of(fault)),
    }
}
