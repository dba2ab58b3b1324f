//! An upgrade of a volume that was just mounted, to its reply.
ghost use Rattle.std.specs.Prelude.{◌≡◌, ◌≤◌, None, Err, IfErr, IfOk, IsTrue};
ghost use Rattle.volume_layout.specs.declared.kind.Kind.TheVariants.{Three};
ghost use Rattle.volume_layout.specs.Layout.{with_kind};
ghost use Rattle.fsd_texts.specs.declared.command.Command.TheVariants as Word;
ghost use Rattle.fsd_texts.specs.declared.fault.Fault.TheVariants as Ends;
ghost use Rattle.fsd_runs.specs.Commands.{reply_alone};
ghost use Rattle.sector_disk.specs.Calls.{WritesDisk};
ghost use Rattle.volume_contract.specs.Order.{is_idle, upgrade_steps};
ghost use Rattle.volume_contract.specs.State.{Known, Stands, none_open, volume_of, forced_of};
ghost use Rattle.volume_contract.specs.Upgrade.{is_fresh};
ghost use Rattle.volume_turns.specs.declared.turns.Halt.TheVariants.{Fault as Stopped};
ghost use Rattle.volume_turns.specs.Answering.{AnswersAlone};
ghost use Rattle.volume_turns.specs.Once.{IsAlone};
ghost use Rattle.volume_turns.specs.Commands.{IsStatusFrom};
ghost use Rattle.volume_turns.specs.Steps.{Does, IsOfCall, StaysBy, device_by};
ghost use Rattle.volume_turns.specs.Turns.{OnDisk, Speaks};
ghost use Rattle.volume_turns.specs.Upgrade.{EndsState, TellsUpgrade, is_upgraded};

use crate::answer::ended_by;
use crate::line::say_forced;
use crate::once::close_as;
use crate::turns::{Halt, Says};
use fsd_files::Reply;
use fsd_texts::Fault;
use sector_disk::Machine;
use std::alloc::Global;
use volume_contract::Files;

// Gives the volume layout 2.
fn upgrade<M: Machine, V: Files<M>>(v: &mut V, m: &mut M) -> Result<Reply, Fault>
    requires room { (V.state v.old).layout.sectors ≤ (M.report m.old).sectors }
    requires up { (V.state v.old).down ≡ None }
    requires fresh { IsTrue (is_fresh (V.state v.old)) }
    ensures disk { WritesDisk M.Machine (device_by result) (StaysBy (with_kind Three) V.state V.holds v.old) m.old m.new }
    ensures fault { IfErr result IsOfCall }
    ensures idle { IsTrue (is_idle (upgrade_steps (V.state v.old))) → m.new ≡ m.old }
    ensures ends { EndsState (V.state v.old) (V.state v.new) result }
    ensures tells { TellsUpgrade M.Machine V.state V.resident v.old v.new m.old m.new result }
    ensures done { M.honest m.new → (k : Known) → Stands V.state V.holds v.old k (M.now m.old) →
        Does V.state V.holds Word.Upgrade v.old v.new k (M.now m.old) (M.now m.new) result }
{
    match v.upgrade(m) {
        Ok(()) => Ok(Reply::Upgraded),
        Err(why) => ended_by(why),
    }
}

// Whether it was given.
fn is_upgraded(answer: &Reply) -> bool
    ensures { result ≡ is_upgraded answer.now }
{
    matches!(answer, Reply::Upgraded)
}

/// Gives a volume that was just mounted layout 2, and says so, or that it has it already. The text that says it is made
/// first: where memory is refused for it nothing is written.
pub(crate) fn upgrade_alone<M: Machine, V: Files<M> + Drop, T: Says>(
    alloc: Global,
    v: V,
    m: &mut M,
) -> Result<u8, Halt>
    requires room { (V.state v).layout.sectors ≤ (M.report m.old).sectors }
    requires up { (V.state v).down ≡ None }
    requires fresh { IsTrue (is_fresh (V.state v)) }
    requires says { T.errand.says ≡ reply_alone }
    ensures undone { result ≡ Err (Stopped Ends.Memory) → m.new ≡ m.old }
    ensures speaks { Speaks M.Machine 1 m.old m.new result }
    ensures status { IfOk result (IsStatusFrom Word.Upgrade) }
    ensures answers { M.honest m.new → AnswersAlone Word.Upgrade (V.state v) (M.now m.old) (M.now m.new) result }
    ensures does { M.honest m.new → (k : Known) → (volume_of k).unforced ≡ 0 → k.opened ≡ none_open → Stands V.state V.holds v k (M.now m.old) → OnDisk M.Machine k (forced_of k) m.old → IsAlone M.Machine Word.Upgrade k m.old m.new result }
{
    let Ok(text) = T::text(alloc, &Reply::Upgraded) else {
        return Err(Halt::Fault(Fault::Memory));
    };
    let mut v = v;
    match upgrade(&mut v, m) {
        Ok(answer) => {
            if is_upgraded(&answer) {
                match say_forced(m, text.as_slice()) {
                    Ok(()) => Ok(0),
                    Err(end) => Err(end),
                }
            } else {
                close_as::<M, V, T>(alloc, v, m, &answer)
            }
        }
        Err(fault) => Err(Halt::Fault(fault)),
    }
}
