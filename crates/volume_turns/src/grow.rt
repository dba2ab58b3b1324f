//! Growth of a volume that was just mounted, to its reply.
ghost use Rattle.std.specs.Prelude.{◌≡◌, ◌≤◌, ◌+◌, ◌-◌, ◌^◌, ◌<◌, min, true, None, Err, IfErr, IfOk, IsTrue};
ghost use Rattle.fsd_files.specs.declared.reply.Reply.TheVariants as Said;
ghost use Rattle.fsd_texts.specs.declared.command.Command.TheVariants as Word;
ghost use Rattle.fsd_texts.specs.declared.fault.Fault.TheVariants as Ends;
ghost use Rattle.fsd_runs.specs.Commands.{reply_alone};
ghost use Rattle.sector_disk.specs.Calls.{GrowsDisk};
ghost use Rattle.volume_layout.specs.Layout.{with_sectors};
ghost use Rattle.run_table.specs.RunTable.{total};
ghost use Rattle.volume_contract.specs.Order.{is_idle, grow_steps};
ghost use Rattle.volume_contract.specs.State.{Known, Stands, none_open, volume_of, forced_of};
ghost use Rattle.volume_turns.specs.declared.turns.Halt.TheVariants.{Fault as Stopped};
ghost use Rattle.volume_turns.specs.Answering.{AnswersAlone};
ghost use Rattle.volume_turns.specs.Once.{IsAlone};
ghost use Rattle.volume_turns.specs.Commands.{IsStatusFrom};
ghost use Rattle.volume_turns.specs.Grow.{EndsGrown, TellsGrown, is_grown};
ghost use Rattle.volume_turns.specs.Steps.{Does, IsOfCall, StaysBy, device_by};
ghost use Rattle.volume_turns.specs.Turns.{OnDisk, SpeaksBy};

use crate::answer::ended_by;
use crate::line::say_forced;
use crate::once::close_as;
use crate::turns::{Halt, Says};
use fsd_files::Reply;
use fsd_texts::Fault;
use sector_disk::Machine;
use std::alloc::Global;
use volume_contract::Files;

// Gives the volume so many sectors in all.
fn grow<M: Machine, V: Files<M>>(v: &mut V, m: &mut M, sectors: u32) -> Result<Reply, Fault>
    requires room { (V.state v.old).layout.sectors ≤ (M.report m.old).sectors }
    requires up { (V.state v.old).down ≡ None }
    ensures disk { GrowsDisk M.Machine (device_by result) (StaysBy (with_sectors sectors) V.state V.holds v.old) m.old m.new }
    ensures fault { IfErr result IsOfCall }
    ensures idle { IsTrue (is_idle (grow_steps (V.state v.old) sectors)) → m.new ≡ m.old }
    ensures ends { EndsGrown sectors (V.state v.old) (V.state v.new) result }
    ensures tells { TellsGrown M.Machine V.state V.resident sectors v.old v.new m.old m.new result }
    ensures done { M.honest m.new → (k : Known) → Stands V.state V.holds v.old k (M.now m.old) →
        Does V.state V.holds (Word.Grow sectors) v.old v.new k (M.now m.old) (M.now m.new) result }
{
    match v.grow(m, sectors) {
        Ok(free) => Ok(grown(sectors, free)),
        Err(why) => ended_by(why),
    }
}

// The reply to a growth that is done.
fn grown(sectors: u32, free: u32) -> Reply
    ensures is { result ≡ Said.Grown sectors free }
    ensures few { free < 2 ^ 32 }
{
    Reply::Grown { sectors, free }
}

// Whether it has grown.
fn is_grown(answer: &Reply) -> bool
    ensures { result ≡ is_grown answer.now }
{
    matches!(answer, Reply::Grown { .. })
}

// How many sectors are free where the volume has so many in all.
fn free_with<M: Machine, V: Files<M>>(v: &V, sectors: u32) -> u32
    ensures { result ≡ min (total (V.state v.now).free + (sectors - (V.state v.now).layout.sectors)) (2 ^ 32 - 1) }
{
    let counts = v.stat();
    counts
        .free
        .saturating_add(sectors.saturating_sub(counts.sectors))
}

/// Gives a volume that was just mounted so many sectors in all, and says how many are free then, or why it doesn't grow.
/// The text that says it is made first: where memory is refused for it nothing is written.
pub(crate) fn grow_alone<M: Machine, V: Files<M> + Drop, T: Says>(
    alloc: Global,
    v: V,
    m: &mut M,
    sectors: u32,
) -> Result<u8, Halt>
    requires room { (V.state v).layout.sectors ≤ (M.report m.old).sectors }
    requires up { (V.state v).down ≡ None }
    requires says { T.errand.says ≡ reply_alone }
    ensures undone { result ≡ Err (Stopped Ends.Memory) → m.new ≡ m.old }
    ensures speaks { SpeaksBy true M.Machine 1 m.old m.new result }
    ensures status { IfOk result (IsStatusFrom (Word.Grow sectors)) }
    ensures answers { M.honest m.new → AnswersAlone (Word.Grow sectors) (V.state v) (M.now m.old) (M.now m.new) result }
    ensures does { M.honest m.new → (k : Known) → (volume_of k).unforced ≡ 0 → k.opened ≡ none_open → Stands V.state V.holds v k (M.now m.old) → OnDisk M.Machine k (forced_of k) m.old → IsAlone M.Machine (Word.Grow sectors) k m.old m.new result }
{
    let free = free_with::<M, V>(&v, sectors);
    let Ok(text) = T::text(alloc, &Reply::Grown { sectors, free }) else {
        return Err(Halt::Fault(Fault::Memory));
    };
    let mut v = v;
    match grow(&mut v, m, sectors) {
        Ok(answer) => {
            if is_grown(&answer) {
                match say_forced(m, text.as_slice()) {
                    Ok(()) => Ok(0),
                    Err(end) => Err(end),
                }
            } else {
                close_as::<M, V, T>(alloc, v, m, &answer)
            }
        }
        Err(fault) => Err(Halt::Fault(fault)),
    }
}
