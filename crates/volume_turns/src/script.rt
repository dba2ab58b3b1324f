//! A script, from the mount to the last line.
ghost use Rattle.std.specs.Prelude.{◌≡◌, ◌≤◌, ◌+◌, ℕ, None, true, Ok, Err, IfErr, IfOk, IsTrue};
ghost use Rattle.sector_disk.specs.Calls.{Since};
ghost use Rattle.sector_disk.specs.Machine.{Trusts};
ghost use Rattle.fsd_runs.specs.declared.request.Request.TheVariants.{Script};
ghost use Rattle.scrub.specs.Telling.{AreOfPage};
ghost use Rattle.volume_turns.specs.Whole.{RunsOut};
ghost use Rattle.fsd_files.specs.Desk.{Session};
ghost use Rattle.fsd_texts.specs.declared.script_command.ScriptCommand.{ScriptCommand as Word};
ghost use Rattle.fsd_texts.specs.Script.{max_input};
ghost use Rattle.fsd_runs.specs.Commands.{reply_text};
ghost use Rattle.fsd_runs.specs.Errands.{forced_turn, is_forced};
ghost use Rattle.fsd_runs.specs.Sessions.{Meeting, answer_in};
ghost use Rattle.client_desk.specs.Clients.{IsDesk, no_desk};
ghost use Rattle.volume_contract.specs.State.{Known, Stands, none_open, forced_of};
ghost use Rattle.volume_turns.specs.Causes.{Replies, TellsImage};
ghost use Rattle.volume_turns.specs.Last.{EndsSo, ending_line, ending_status};
ghost use Rattle.volume_turns.specs.Numbers.{MayWear, UsesNumbers};
ghost use Rattle.volume_turns.specs.Once.{ClosesAndSays, SaysForcedOver, unit_of};
ghost use Rattle.volume_turns.specs.Running.{EndsMounted, EndsRun, LeavesOver, ReadsAll, SaysScript, TakesInput, TellsMounted};
ghost use Rattle.volume_turns.specs.Seats.{KeepsSeat, Seated, SitsAt, known_of};
ghost use Rattle.volume_turns.specs.Status.{IsScriptStatus};
ghost use Rattle.volume_turns.specs.Syncs.{most_in_script};
ghost use Rattle.volume_turns.specs.declared.script.Stop.TheVariants.{WornOut};
ghost use Rattle.volume_turns.specs.declared.turns.Halt.TheVariants.{Fault as Stopped};
ghost use Rattle.fsd_texts.specs.declared.fault.Fault.TheVariants as Ends;
ghost use Rattle.volume_turns.specs.Turns.{OnDisk, Speaks, WantsNone};
ghost use Rattle.volume_turns.specs.Script.{BreaksRead, EndsScript, GroupsBy, HearsInput, ReadsInput, ReadsNext, ReadsScript, SaysAllRead, SaysRead, SpeaksReading, WholeRead};

use crate::generate::close_forced;
use crate::line::{end_with, fault_status, last_line};
use crate::once::fault_of;
use crate::turns::{Halt, Says, is_worn_end, step};
use client_desk::Desk;
use fsd_texts::{End as ScriptEnd, Fault, Line};
use script_text::{Reader, ScriptFault};
use sector_disk::Machine;
use std::alloc::Global;
use volume_contract::Files;

/// What the commands of a script have come to, where no fault has ended them.
#[derive(Clone, Copy)]
pub(crate) enum Stop {
    /// The script has ended.
    Ended(ScriptEnd),
    /// The input has failed.
    Input,
    /// The mount is worn out.
    WornOut,
}

// Reads the next command, does it and says its reply; or tells that there is none.
fn read_on<M: Machine, V: Files<M>, T: Says>(
    alloc: Global,
    v: &mut V,
    desk: &mut Desk,
    m: &mut M,
    reader: &mut Reader,
) -> Result<Option<Stop>, Halt>
    requires room { (V.state v.old).layout.sectors ≤ (M.report m.old).sectors }
    requires up { (V.state v.old).down ≡ None }
    requires desk { IsDesk (V.state v.old) desk.old }
    requires lazily { (x : Meeting) (s : Session) (w : Word) → IsTrue (T.errand.forces (answer_in x s w).0) → (answer_in x s w).1.volume.unforced ≡ 0 }
    ensures keeps { KeepsSeat (V.state v.old) (V.state v.new) desk.new result }
    ensures speaks { SpeaksReading M.Machine m.old m.new result }
    ensures says { SaysRead M.Machine T.errand.says (V.state v.old).layout m.old m.new result }
    ensures numbers { UsesNumbers M.Machine 1 (V.state v.old) (V.state v.new) m.new result }
    ensures input { ReadsNext M.Machine T.errand.forces reader.old reader.new m.old m.new result }
    ensures reads { M.tells m.new → ReadsScript V.state V.holds M.Machine T.errand reader.old reader.new (v.old, desk.old) m.old (v.new, desk.new) m.new result }
{
    match reader.next_command(alloc, m) {
        Ok(Some(c)) => match step::<M, V, T>(alloc, v, desk, m, &c) {
            Ok(()) => Ok(None),
            Err(end) => Err(end),
        },
        Ok(None) => Ok(Some(Stop::Ended(ScriptEnd::Done))),
        Err(ScriptFault::Bad(bad)) => Ok(Some(Stop::Ended(ScriptEnd::Bad(bad)))),
        Err(ScriptFault::TooLong) => Ok(Some(Stop::Ended(ScriptEnd::TooLong))),
        Err(ScriptFault::Input) => Ok(Some(Stop::Input)),
        Err(ScriptFault::Memory) => Err(Halt::Fault(Fault::Memory)),
    }
}

// Reads the commands of the input and does them one after another.
fn read_all<M: Machine, V: Files<M>, T: Says>(
    alloc: Global,
    v: &mut V,
    desk: &mut Desk,
    m: &mut M,
) -> Result<Stop, Halt>
    requires room { (V.state v.old).layout.sectors ≤ (M.report m.old).sectors }
    requires up { (V.state v.old).down ≡ None }
    requires desk { IsDesk (V.state v.old) desk.old }
    requires lazily { (x : Meeting) (s : Session) (w : Word) → IsTrue (T.errand.forces (answer_in x s w).0) → (answer_in x s w).1.volume.unforced ≡ 0 }
    ensures keeps { KeepsSeat (V.state v.old) (V.state v.new) desk.new result }
    ensures speaks { SpeaksReading M.Machine m.old m.new result }
    ensures says { SaysAllRead M.Machine T.errand.says (V.state v.old).layout m.old m.new result }
    ensures input { ReadsInput M.Machine T.errand.forces m.old m.new result }
    ensures used { result ≡ Err (Stopped Ends.WornOut) → M.honest m.new → MayWear (max_input + 1) (V.state v.old) }
    ensures reads { M.tells m.new → WholeRead V.state V.holds M.Machine T.errand (v.old, desk.old) m.old (v.new, desk.new) m.new result }
{
    let mut reader = Reader::new(alloc);
    loop {
        match read_on::<M, V, T>(alloc, v, desk, m, &mut reader) {
            Ok(None) => {}
            Ok(Some(stop)) => return Ok(stop),
            Err(end) => return Err(end),
        }
    }
}

// Reads the commands of the input and does them; then all is forced, and that is said. It tells what they have come to.
fn group_read<M: Machine, V: Files<M> + Drop, T: Says>(
    alloc: Global,
    v: V,
    m: &mut M,
) -> Result<Stop, Halt>
    requires room { (V.state v).layout.sectors ≤ (M.report m.old).sectors }
    requires up { (V.state v).down ≡ None }
    requires idle { IsDesk (V.state v) no_desk }
    requires lazily { (x : Meeting) (s : Session) (w : Word) → IsTrue (T.errand.forces (answer_in x s w).0) → (answer_in x s w).1.volume.unforced ≡ 0 }
    ensures speaks { SpeaksReading M.Machine m.old m.new result }
    ensures breaks { BreaksRead M.Machine T.errand.says (V.state v).layout m.old m.new result }
    ensures input { HearsInput (M.report m.old) (M.report m.new) result }
    ensures script { EndsScript M.Machine T.errand m.old m.new result }
    ensures used { result ≡ Ok WornOut → M.honest m.new → MayWear (max_input + 1) (V.state v) }
    ensures group { M.honest m.new → (k : Known) → k.opened ≡ none_open → Stands V.state V.holds v k (M.now m.old) → OnDisk M.Machine k (forced_of k) m.old → GroupsBy M.Machine T.errand k (M.ledger m.old).input (M.ledger m.new).input m.old m.new result }
{
    let mut v = v;
    let mut desk = Desk::new();
    match read_all::<M, V, T>(alloc, &mut v, &mut desk, m) {
        Ok(stop) => force_read(v, desk, m, stop),
        Err(end) => {
            if is_worn_end(&end) {
                force_read(v, desk, m, Stop::WornOut)
            } else {
                desk.finish(&mut v);
                Err(end)
            }
        }
    }
}

// What clients have open is dropped, or done; then it ends the use of the volume, says that all is forced, and passes on
// what the commands have come to.
fn force_read<M: Machine, V: Files<M>>(
    v: V,
    desk: Desk,
    m: &mut M,
    stop: Stop,
) -> Result<Stop, Halt>
    requires room { (V.state v).layout.sectors ≤ (M.report m.old).sectors }
    requires desk { IsDesk (V.state v) desk }
    ensures speaks { Speaks M.Machine 1 m.old m.new result }
    ensures forces { SaysForcedOver M.Machine (V.state v).layout m.old m.new result }
    ensures wants { (V.state v).down ≡ None → IfErr result WantsNone }
    ensures same { IfOk result (λ x. x ≡ stop) }
    ensures closes { M.honest m.new → (k : Seated) (f : ℕ) → SitsAt V.state V.holds (v, desk) k (M.now m.old) → OnDisk M.Machine (known_of k) f m.old → ClosesAndSays M.Machine (known_of k) f forced_turn.said m.old m.new (unit_of result) }
{
    let mut v = v;
    desk.finish(&mut v);
    match close_forced(v, m) {
        Ok(()) => Ok(stop),
        Err(end) => Err(end),
    }
}

// The line that is said last, if one is.
fn ending_line(ended: Result<Stop, Halt>) -> Option<Line>
    ensures { result ≡ ending_line ended }
{
    match ended {
        Ok(Stop::Ended(ScriptEnd::Done)) | Err(Halt::Output) => None,
        Ok(Stop::Ended(ScriptEnd::Bad(bad))) => Some(Line::Bad(bad)),
        Ok(Stop::Ended(ScriptEnd::TooLong)) => Some(Line::Ended(Fault::InputTooLong)),
        Ok(Stop::Input) => Some(Line::Ended(Fault::Input)),
        Ok(Stop::WornOut) => Some(Line::Ended(Fault::WornOut)),
        Err(Halt::Fault(why)) => Some(Line::Ended(why)),
    }
}

// And the status behind it.
fn ending_status(ended: Result<Stop, Halt>) -> u8
    ensures { result ≡ ending_status ended }
{
    match ended {
        Ok(Stop::Ended(ScriptEnd::Done)) => 0,
        Ok(Stop::Ended(ScriptEnd::Bad(_))) => 2,
        Ok(Stop::Ended(ScriptEnd::TooLong)) | Ok(Stop::Input) => 5,
        Ok(Stop::WornOut) => 9,
        Err(Halt::Fault(why)) => fault_status(why),
        Err(Halt::Output) => 6,
    }
}

// Says the last line of a script, if there is one, and gives its status.
fn say_last<M: Machine>(m: &mut M, ended: Result<Stop, Halt>) -> u8
    ensures trust { Trusts (M.tells m.old) (M.tells m.new) (M.honest m.old) (M.honest m.new) }
    ensures since { M.honest m.new → Since M.Machine m.old m.new }
    ensures ledger { M.tells m.new → M.ledger m.new ≡ M.ledger m.old }
    ensures last { EndsSo M.Machine (ending_line ended) (ending_status ended) m.old m.new result }
{
    let gives = ending_status(ended);
    match ending_line(ended) {
        Some(line) => last_line(m, &line, gives),
        None => gives,
    }
}

// Reads the commands of the input over a mounted volume and does them, to the last line. It gives the status.
fn script_on<M: Machine, V: Files<M> + Drop, T: Says>(alloc: Global, v: V, m: &mut M) -> u8
    requires room { (V.state v).layout.sectors ≤ (M.report m.old).sectors }
    requires up { (V.state v).down ≡ None }
    requires idle { IsDesk (V.state v) no_desk }
    requires lazily { (x : Meeting) (s : Session) (w : Word) → IsTrue (T.errand.forces (answer_in x s w).0) → (answer_in x s w).1.volume.unforced ≡ 0 }
    requires says { T.errand.says ≡ reply_text }
    requires forces { T.errand.forces ≡ is_forced }
    ensures ends { EndsMounted M.Machine IsScriptStatus m.old m.new result }
    ensures takes { TakesInput M.Machine M.honest (most_in_script (M.ledger m.old).input) m.old m.new result }
    ensures whole { result ≡ 0 → M.tells m.new → ReadsAll (M.ledger m.old).input (M.ledger m.new).input }
    ensures tells { M.honest m.new → TellsMounted Replies AreOfPage (V.state v).layout (MayWear (max_input + 1) (V.state v)) (M.now m.old) (M.now m.new) result }
    ensures says { M.honest m.new → SaysScript M.Machine m.old m.new result }
    ensures runs { M.honest m.new → (k : Known) → k.opened ≡ none_open → Stands V.state V.holds v k (M.now m.old) → OnDisk M.Machine k (forced_of k) m.old → RunsOut M.Machine Script (M.ledger m.old).input (M.ledger m.new).input (M.report m.old) k m.old m.new result }
{
    let ended = group_read::<M, V, T>(alloc, v, m);
    say_last(m, ended)
}

/// Mounts a volume, reads the commands of the input and does them one after another, each with its reply said, and
/// forces all; or says the fault that has ended it. It gives the status.
pub fn run_script<M: Machine, V: Files<M> + Drop, T: Says>(
    alloc: Global,
    m: &mut M,
    sectors: u32,
) -> u8
    requires sectors { sectors ≡ (M.report m.old).sectors }
    requires lazily { (x : Meeting) (s : Session) (w : Word) → IsTrue (T.errand.forces (answer_in x s w).0) → (answer_in x s w).1.volume.unforced ≡ 0 }
    requires says { T.errand.says ≡ reply_text }
    requires forces { T.errand.forces ≡ is_forced }
    ensures ends { EndsRun M.Machine IsScriptStatus m.old m.new result }
    ensures takes { TakesInput M.Machine M.honest (most_in_script (M.ledger m.old).input) m.old m.new result }
    ensures whole { result ≡ 0 → M.tells m.new → ReadsAll (M.ledger m.old).input (M.ledger m.new).input }
    ensures image { M.honest m.new → TellsImage Replies AreOfPage None sectors (M.now m.old) (M.now m.new) result }
    ensures says { M.honest m.new → SaysScript M.Machine m.old m.new result }
    ensures leaves { M.honest m.new → LeavesOver M.Machine Script (M.ledger m.old).input (M.ledger m.new).input sectors m.old m.new result }
{
    match V::mount(alloc, m, sectors) {
        Ok(v) => script_on::<M, V, T>(alloc, v, m),
        Err(fault) => end_with(m, fault_of(fault)),
    }
}
