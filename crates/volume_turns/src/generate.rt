//! Commands that are made up, from the mount to the line that tells what came of them.
ghost use Rattle.std.specs.Prelude.{◌≡◌, ◌≤◌, ◌<◌, ◌+◌, ◌^◌, ◌-◌, ℕ, List, None, Some, Ok, Err, false, IfErr, IfOk, IfSome};
ghost use Rattle.fsd_texts.specs.Generator.{made_up};
ghost use Rattle.fsd_texts.specs.declared.fault.Fault.TheVariants as Ends;
ghost use Rattle.volume_turns.specs.declared.turns.Halt.TheVariants.{Fault as Stopped};
ghost use Rattle.fsd_runs.specs.Errands.{forced_turn};
ghost use Rattle.fsd_runs.specs.declared.request.Request.TheVariants.{Generate};
ghost use Rattle.client_desk.specs.Clients.{IsDesk, no_desk};
ghost use Rattle.volume_contract.specs.State.{Known, Stands, none_open, forced_of};
ghost use Rattle.scrub.specs.Telling.{AreOfPage};
ghost use Rattle.volume_turns.specs.Causes.{Nothing, SaysMade, TellsImage};
ghost use Rattle.volume_turns.specs.Generate.{CountedGroup, Draws, RunsCounted, SaysNothing, StepsCounted};
ghost use Rattle.volume_turns.specs.Numbers.{MayWear, UsesNumbers};
ghost use Rattle.volume_turns.specs.Once.{ClosesAndSays, SaysForcedOver, unit_of};
ghost use Rattle.volume_turns.specs.Running.{EndsMounted, EndsRun, LeavesOver, TakesNothing, TellsMounted};
ghost use Rattle.volume_turns.specs.Seats.{KeepsSeat};
ghost use Rattle.volume_turns.specs.Status.{IsMadeStatus};
ghost use Rattle.volume_turns.specs.Steps.{is_alone};
ghost use Rattle.volume_turns.specs.Commands.{MayLose};
ghost use Rattle.volume_turns.specs.Tally.{nothing_done};
ghost use Rattle.volume_turns.specs.Turns.{OnDisk, Speaks, WantsNone};
ghost use Rattle.volume_turns.specs.Whole.{RunsOut};

use crate::commands;
use crate::line::{end_with, last_line, say_forced};
use crate::once::{close_fault, fault_of};
use crate::tally::Tally;
use crate::turns::{Halt, is_worn_end};
use fsd_texts::{Command, Fault, Line};
use script_text::{Maker, lay_line};
use sector_disk::Machine;
use std::alloc::Global;
use volume_contract::Files;

// Does one command, says nothing, and counts it.
fn do_counted<M: Machine, V: Files<M>>(
    alloc: Global,
    v: &mut V,
    m: &mut M,
    c: &Command,
    tally: &Tally,
) -> Result<Tally, Halt>
    requires room { (V.state v.old).layout.sectors ≤ (M.report m.old).sectors }
    requires up { (V.state v.old).down ≡ None }
    requires idle { IsDesk (V.state v.old) no_desk }
    requires other { is_alone c.now ≡ false }
    requires few { tally.now.count < 2 ^ 32 - 1 }
    ensures keeps { KeepsSeat (V.state v.old) (V.state v.new) no_desk result }
    ensures speaks { Speaks M.Machine 0 m.old m.new result }
    ensures says { SaysNothing M.Machine (MayLose c.now) (V.state v.old).layout m.old m.new result }
    ensures numbers { UsesNumbers M.Machine 1 (V.state v.old) (V.state v.new) m.new result }
    ensures counts { IfOk result (λ t. t.count ≡ tally.now.count + 1) }
    ensures steps { StepsCounted V.state V.holds M.Machine c.now v.old m.old v.new m.new tally.now result }
{
    match commands::answer(alloc, v, m, c) {
        Ok(answer) => match tally.count(c, &answer) {
            Ok(tally) => Ok(tally),
            Err(fault) => Err(Halt::Fault(fault)),
        },
        Err(fault) => Err(Halt::Fault(fault)),
    }
}

// Makes up the next command and does it, or tells that there is none.
fn draw<M: Machine, V: Files<M>>(
    alloc: Global,
    v: &mut V,
    m: &mut M,
    maker: &mut Maker,
    tally: &Tally,
) -> Result<Option<Tally>, Halt>
    requires room { (V.state v.old).layout.sectors ≤ (M.report m.old).sectors }
    requires up { (V.state v.old).down ≡ None }
    requires idle { IsDesk (V.state v.old) no_desk }
    requires few { tally.now.count < 2 ^ 32 - 1 }
    ensures keeps { KeepsSeat (V.state v.old) (V.state v.new) no_desk result }
    ensures speaks { Speaks M.Machine 0 m.old m.new result }
    ensures says { SaysNothing M.Machine AreOfPage (V.state v.old).layout m.old m.new result }
    ensures numbers { UsesNumbers M.Machine 1 (V.state v.old) (V.state v.new) m.new result }
    ensures counts { IfOk result (λ o. IfSome o (λ t. t.count ≡ tally.now.count + 1)) }
    ensures draws { Draws V.state V.holds M.Machine maker.old maker.new v.old m.old v.new m.new tally.now result }
{
    match maker.next_command(alloc) {
        Ok(Some(c)) => match do_counted(alloc, v, m, &c, tally) {
            Ok(tally) => Ok(Some(tally)),
            Err(end) => Err(end),
        },
        Ok(None) => Ok(None),
        Err(_) => Err(Halt::Fault(Fault::Memory)),
    }
}

// Makes up so many commands and does them one after another.
fn make_up<M: Machine, V: Files<M>>(
    alloc: Global,
    v: &mut V,
    m: &mut M,
    seed: u64,
    count: u32,
) -> Result<Tally, Halt>
    requires room { (V.state v.old).layout.sectors ≤ (M.report m.old).sectors }
    requires up { (V.state v.old).down ≡ None }
    requires idle { IsDesk (V.state v.old) no_desk }
    ensures layout { (V.state v.new).layout ≡ (V.state v.old).layout }
    ensures speaks { Speaks M.Machine 0 m.old m.new result }
    ensures says { SaysNothing M.Machine AreOfPage (V.state v.old).layout m.old m.new result }
    ensures used { result ≡ Err (Stopped Ends.WornOut) → M.honest m.new → MayWear count (V.state v.old) }
    ensures counts { IfOk result (λ t. t.count ≡ count) }
    ensures runs { RunsCounted V.state V.holds M.Machine (made_up seed count) v.old m.old v.new m.new nothing_done result }
{
    let mut maker = Maker::new(seed, count);
    let mut tally = Tally::new();
    for _ in 0..count {
        match draw(alloc, v, m, &mut maker, &tally) {
            Ok(Some(more)) => tally = more,
            Ok(None) => return Ok(tally),
            Err(end) => return Err(end),
        }
    }
    Ok(tally)
}

/// Ends the use of a volume, and says that all is forced.
pub(crate) fn close_forced<M: Machine, V: Files<M>>(v: V, m: &mut M) -> Result<(), Halt>
    requires room { (V.state v).layout.sectors ≤ (M.report m.old).sectors }
    ensures speaks { Speaks M.Machine 1 m.old m.new result }
    ensures forces { SaysForcedOver M.Machine (V.state v).layout m.old m.new result }
    ensures wants { (V.state v).down ≡ None → IfErr result WantsNone }
    ensures closes { M.honest m.new → (k : Known) (f : ℕ) → Stands V.state V.holds v k (M.now m.old) → OnDisk M.Machine k f m.old → ClosesAndSays M.Machine k f forced_turn.said m.old m.new result }
{
    match v.close(m) {
        Ok(()) => {
            let said = lay_line(&Line::Forced);
            say_forced(m, said.as_slice())
        }
        Err(why) => Err(Halt::Fault(close_fault(why))),
    }
}

// The same, and passes on what came of the commands.
fn force_behind<M: Machine, V: Files<M>>(
    v: V,
    m: &mut M,
    tally: Option<Tally>,
) -> Result<Option<Tally>, Halt>
    requires room { (V.state v).layout.sectors ≤ (M.report m.old).sectors }
    ensures speaks { Speaks M.Machine 1 m.old m.new result }
    ensures forces { SaysForcedOver M.Machine (V.state v).layout m.old m.new result }
    ensures wants { (V.state v).down ≡ None → IfErr result WantsNone }
    ensures same { IfOk result (λ x. x ≡ tally) }
    ensures closes { M.honest m.new → (k : Known) (f : ℕ) → Stands V.state V.holds v k (M.now m.old) → OnDisk M.Machine k f m.old → ClosesAndSays M.Machine k f forced_turn.said m.old m.new (unit_of result) }
{
    match close_forced(v, m) {
        Ok(()) => Ok(tally),
        Err(end) => Err(end),
    }
}

// Makes up commands and does them; then all is forced, and that is said.
// Nothing is counted where the mount is worn out.
fn make_group<M: Machine, V: Files<M> + Drop>(
    alloc: Global,
    v: V,
    m: &mut M,
    seed: u64,
    count: u32,
) -> Result<Option<Tally>, Halt>
    requires room { (V.state v).layout.sectors ≤ (M.report m.old).sectors }
    requires up { (V.state v).down ≡ None }
    requires idle { IsDesk (V.state v) no_desk }
    ensures speaks { Speaks M.Machine 1 m.old m.new result }
    ensures forces { SaysForcedOver M.Machine (V.state v).layout m.old m.new result }
    ensures used { result ≡ Ok None → M.honest m.new → MayWear count (V.state v) }
    ensures counts { IfOk result (λ o. IfSome o (λ t. t.count ≡ count)) }
    ensures group { M.honest m.new → (k : Known) → k.opened ≡ none_open → Stands V.state V.holds v k (M.now m.old) → OnDisk M.Machine k (forced_of k) m.old → CountedGroup M.Machine k (made_up seed count) m.old m.new result }
{
    let mut v = v;
    match make_up(alloc, &mut v, m, seed, count) {
        Ok(tally) => force_behind(v, m, Some(tally)),
        Err(end) => {
            if is_worn_end(&end) {
                force_behind(v, m, None)
            } else {
                Err(end)
            }
        }
    }
}

// Makes up commands over a mounted volume and does them, to the last line. It gives the status.
fn generate_on<M: Machine, V: Files<M> + Drop>(
    alloc: Global,
    v: V,
    m: &mut M,
    seed: u64,
    count: u32,
) -> u8
    requires room { (V.state v).layout.sectors ≤ (M.report m.old).sectors }
    requires up { (V.state v).down ≡ None }
    requires idle { IsDesk (V.state v) no_desk }
    ensures ends { EndsMounted M.Machine IsMadeStatus m.old m.new result }
    ensures takes { TakesNothing M.Machine m.old m.new result }
    ensures tells { M.honest m.new → TellsMounted Nothing AreOfPage (V.state v).layout (MayWear count (V.state v)) (M.now m.old) (M.now m.new) result }
    ensures all { result ≡ 0 → M.honest m.new → SaysMade count (M.now m.old).said (M.now m.new) }
    ensures runs { M.honest m.new → (input rest : List ℕ) (k : Known) → k.opened ≡ none_open → Stands V.state V.holds v k (M.now m.old) → OnDisk M.Machine k (forced_of k) m.old → RunsOut M.Machine (Generate seed count) input rest (M.report m.old) k m.old m.new result }
{
    match make_group(alloc, v, m, seed, count) {
        Ok(Some(tally)) => last_line(m, &tally.line(), 0),
        Ok(None) => last_line(m, &Line::Ended(Fault::WornOut), 9),
        Err(Halt::Fault(why)) => end_with(m, why),
        Err(Halt::Output) => 6,
    }
}

/// Mounts a volume, makes up so many commands from a seed and does them, forces all, and says no more than that and
/// what came of them; or says the fault that has ended it. It gives the status.
pub fn run_generate<M: Machine, V: Files<M> + Drop>(
    alloc: Global,
    m: &mut M,
    sectors: u32,
    seed: u64,
    count: u32,
) -> u8
    requires sectors { sectors ≡ (M.report m.old).sectors }
    ensures ends { EndsRun M.Machine IsMadeStatus m.old m.new result }
    ensures takes { TakesNothing M.Machine m.old m.new result }
    ensures image { M.honest m.new → TellsImage Nothing AreOfPage (Some count) sectors (M.now m.old) (M.now m.new) result }
    ensures all { result ≡ 0 → M.honest m.new → SaysMade count (M.now m.old).said (M.now m.new) }
    ensures leaves { M.honest m.new → (input rest : List ℕ) → LeavesOver M.Machine (Generate seed count) input rest sectors m.old m.new result }
{
    match V::mount(alloc, m, sectors) {
        Ok(v) => generate_on(alloc, v, m, seed, count),
        Err(fault) => end_with(m, fault_of(fault)),
    }
}
