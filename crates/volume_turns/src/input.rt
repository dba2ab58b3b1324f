//! A version of the input's bytes, from the mount to its reply.
ghost use Rattle.std.specs.Prelude.{[], ◌≡◌, ◌≤◌, ◌<◌, ℕ, List, None, Option, false, length, IsTrue};
ghost use Rattle.volume_turns.specs.Turns.{OnDisk};
ghost use Rattle.sector_disk.specs.Machine.{Report};
ghost use Rattle.fsd_texts.specs.declared.command.Command.TheVariants as Word;
ghost use Rattle.fsd_texts.specs.Script.{max_input};
ghost use Rattle.fsd_runs.specs.Commands.{reply_alone};
ghost use Rattle.fsd_runs.specs.declared.request.Request.TheVariants.{Put};
ghost use Rattle.volume_contract.specs.State.{Known, Stands, is_worn, none_open, volume_of, forced_of};
ghost use Rattle.volume_contract.specs.Upgrade.{is_fresh};
ghost use Rattle.scrub.specs.Telling.{AreOfPage};
ghost use Rattle.volume_turns.specs.Answering.{SaysNoReply, SaysOne};
ghost use Rattle.volume_turns.specs.Causes.{Nothing, SaysOfCall, SaysOfInput, TellsImage};
ghost use Rattle.volume_turns.specs.Running.{EndsMounted, EndsRun, LeavesOver, TakesToEnd, TakesInput, TakesNothing, TellsMounted};
ghost use Rattle.volume_turns.specs.Status.{IsPutStatus, IsStatusOfLong};
ghost use Rattle.volume_turns.specs.Whole.{RunsOut};

use crate::line::{end_with, last_line};
use crate::once::fault_of;
use crate::taking::{InputFault, read_input};
use crate::turns::Says;
use crate::whole::one_on;
use fsd_bytes::FileName;
use fsd_texts::{Command, Fault, Line};
use sector_disk::Machine;
use std::alloc::Global;
use volume_contract::Files;

// Says that the input is too long, and gives the status. Nothing was changed, so there is nothing to force; what the
// mount wrote is brought to the disk.
pub(crate) fn refuse_input<M: Machine, V: Files<M> + Drop>(v: V, m: &mut M) -> u8
    ensures ends { EndsMounted M.Machine IsStatusOfLong m.old m.new result }
    ensures takes { TakesNothing M.Machine m.old m.new result }
    ensures says { result ≡ 3 → M.honest m.new → SaysOfCall Nothing AreOfPage (V.state v).layout (M.now m.old).said (M.now m.new) }
    ensures fault { M.honest m.new → SaysNoReply (M.now m.old) (M.now m.new) result }
    ensures long { result ≡ 5 → M.honest m.new → (input : List ℕ) (old new : Report) → max_input < length input → SaysOfInput input old new (M.now m.new) }
    ensures runs { M.honest m.new → (name : List ℕ) (keep : Option ℕ) (input rest : List ℕ) (k : Known) → max_input < length input → (volume_of k).unforced ≡ 0 → Stands V.state V.holds v k (M.now m.old) → OnDisk M.Machine k (forced_of k) m.old → RunsOut M.Machine (Put name keep) input rest (M.report m.old) k m.old m.new result }
{
    match m.sync() {
        Ok(()) => last_line(m, &Line::Ended(Fault::InputTooLong), 5),
        Err(failed) => end_with(m, Fault::Device(failed.place)),
    }
}

// Takes the input, and makes a version of it over a volume that was just mounted, to the last line.
// It gives the status.
fn put_on<M: Machine, V: Files<M> + Drop, T: Says>(
    alloc: Global,
    v: V,
    m: &mut M,
    name: FileName,
    keep: Option<u32>,
) -> u8
    requires room { (V.state v).layout.sectors ≤ (M.report m.old).sectors }
    requires up { (V.state v).down ≡ None }
    requires unworn { is_worn (V.state v) ≡ false }
    requires fresh { IsTrue (is_fresh (V.state v)) }
    requires says { T.errand.says ≡ reply_alone }
    ensures ends { EndsMounted M.Machine IsPutStatus m.old m.new result }
    ensures takes { TakesInput M.Machine M.tells 1 m.old m.new result }
    ensures whole { result ≤ 1 → M.tells m.new → TakesToEnd (M.ledger m.old).input (M.ledger m.new).input }
    ensures tells { M.honest m.new → TellsMounted Nothing AreOfPage (V.state v).layout ⊥ (M.now m.old) (M.now m.new) result }
    ensures one { M.honest m.new → (V.state v).dirty ≡ [] → SaysOne (Word.Put name (M.ledger m.old).input keep) (M.now m.old) (M.now m.new) result }
    ensures runs { M.honest m.new → (k : Known) → (volume_of k).unforced ≡ 0 → k.opened ≡ none_open → Stands V.state V.holds v k (M.now m.old) → OnDisk M.Machine k (forced_of k) m.old → RunsOut M.Machine (Put name keep) (M.ledger m.old).input (M.ledger m.new).input (M.report m.old) k m.old m.new result }
{
    match read_input(alloc, m) {
        Ok(bytes) => one_on::<M, V, T>(alloc, v, m, &Command::Put { name, bytes, keep }),
        Err(InputFault::TooLong) => refuse_input(v, m),
        Err(InputFault::Failed) => end_with(m, Fault::Input),
        Err(InputFault::Memory) => end_with(m, Fault::Memory),
    }
}

/// Mounts a volume, takes the input to its end, makes a version of it, forces all and says its reply; or says that the
/// input is too long, where it has more than 2^24 bytes, or the fault that has ended it. It gives the status.
pub fn run_put<M: Machine, V: Files<M> + Drop, T: Says>(
    alloc: Global,
    m: &mut M,
    sectors: u32,
    name: FileName,
    keep: Option<u32>,
) -> u8
    requires sectors { sectors ≡ (M.report m.old).sectors }
    requires says { T.errand.says ≡ reply_alone }
    ensures ends { EndsRun M.Machine IsPutStatus m.old m.new result }
    ensures takes { TakesInput M.Machine M.tells 1 m.old m.new result }
    ensures whole { result ≤ 1 → M.tells m.new → TakesToEnd (M.ledger m.old).input (M.ledger m.new).input }
    ensures image { M.honest m.new → TellsImage Nothing AreOfPage None sectors (M.now m.old) (M.now m.new) result }
    ensures one { M.honest m.new → SaysOne (Word.Put name (M.ledger m.old).input keep) (M.now m.old) (M.now m.new) result }
    ensures leaves { M.honest m.new → LeavesOver M.Machine (Put name keep) (M.ledger m.old).input (M.ledger m.new).input sectors m.old m.new result }
{
    match V::mount(alloc, m, sectors) {
        Ok(v) => put_on::<M, V, T>(alloc, v, m, name, keep),
        Err(fault) => end_with(m, fault_of(fault)),
    }
}
