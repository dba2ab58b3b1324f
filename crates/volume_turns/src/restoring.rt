//! A restore, from the mount to its last line.
ghost use Rattle.std.specs.Prelude.{◌≡◌, ◌≤◌, ℕ, List, None, Option, Some, All, IsTrue, is_some, length, map};
ghost use Rattle.fsd_bytes.specs.Keys.{is_key};
ghost use Rattle.fsd_files.specs.Answers.{entry_of};
ghost use Rattle.fsd_texts.specs.Script.{max_input};
ghost use Rattle.fsd_texts.specs.Text.{text};
ghost use Rattle.fsd_dumps.specs.Front.{dumped_in};
ghost use Rattle.dump_text.specs.Items.{dumped};
ghost use Rattle.fsd_runs.specs.Dumps.{first_there as first_of};
ghost use Rattle.fsd_runs.specs.Errands.{restore_of, restoring, restoring_unless};
ghost use Rattle.fsd_runs.specs.declared.request.Request.TheVariants.{Restore};
ghost use Rattle.volume_contract.specs.State.{IsNew, Known, Stands, forced_of, none_open, volume_of};
ghost use Rattle.scrub.specs.Telling.{AreOfPage};
ghost use Rattle.volume_turns.specs.Causes.{Nothing, TellsImage};
ghost use Rattle.volume_turns.specs.Line.{is_unsaid};
ghost use Rattle.volume_turns.specs.Restore.{EndsSaying, IsRestoreStatus, LooksFor, Restores, none_unless};
ghost use Rattle.volume_turns.specs.Steps.{ended_by};
ghost use Rattle.volume_turns.specs.Running.{EndsMounted, EndsRun, LeavesOver, TakesInput, TakesNothing, TakesToEnd, TellsMounted};
ghost use Rattle.volume_turns.specs.Status.{IsPutStatus};
ghost use Rattle.volume_turns.specs.Turns.{OnDisk};
ghost use Rattle.volume_turns.specs.Whole.{RunsOut};

use crate::answer::ended_by;
use crate::input::refuse_input;
use crate::line::end_with;
use crate::loading::load_all;
use crate::once::{close_and_say, fault_of};
use crate::taking::{InputFault, read_input};
use crate::turns::Halt;
use dump_text::{DumpRead, Item, read_dump};
use fsd_bytes::{Key, Refusal};
use fsd_texts::{Fault, Line};
use script_text::lay_line;
use sector_disk::Machine;
use std::alloc::Global;
use volume_contract::Files;

// By the refusal of a look-up: that there is none, or the fault that has ended it.
fn unfound(why: Refusal) -> Result<bool, Fault>
    ensures { result ≡ none_unless (ended_by why) }
{
    match ended_by(why) {
        Ok(_) => Ok(false),
        Err(fault) => Err(fault),
    }
}

// Whether there is a version of this key.
fn is_there<M: Machine, V: Files<M>>(v: &mut V, m: &mut M, key: &Key) -> Result<bool, Fault>
    requires room { (V.state v.old).layout.sectors ≤ (M.report m.old).sectors }
    requires up { (V.state v.old).down ≡ None }
    ensures { LooksFor M.Machine V.state V.holds (λ x there. there ≡ is_some (entry_of key.now x.entries)) v.old v.new m.old m.new result }
{
    match v.entry(m, key) {
        Ok(_) => Ok(true),
        Err(why) => unfound(why),
    }
}

// The first key of these of which there is a version.
fn first_there<M: Machine, V: Files<M>>(
    v: &mut V,
    m: &mut M,
    items: &[Item],
) -> Result<Option<Key>, Fault>
    requires room { (V.state v.old).layout.sectors ≤ (M.report m.old).sectors }
    requires up { (V.state v.old).down ≡ None }
    ensures { (bytes : List ℕ) → LooksFor M.Machine V.state V.holds (λ x key. key ≡ first_of (map (dumped bytes) items.now) x.entries) v.old v.new m.old m.new result }
{
    for place in 0..items.len() {
        let key = &items[place].key;
        match is_there(v, m, key) {
            Ok(true) => return Ok(Some(key.copied())),
            Ok(false) => {}
            Err(fault) => return Err(fault),
        }
    }
    Ok(None)
}

// Forces all, says a last line behind that, and gives this status.
fn close_with<M: Machine, V: Files<M>>(v: V, m: &mut M, line: &Line, gives: u8) -> Result<u8, Halt>
    requires room { (V.state v).layout.sectors ≤ (M.report m.old).sectors }
    requires up { (V.state v).down ≡ None }
    ensures { EndsSaying M.Machine V.state V.holds (text line.now) gives v m.old m.new result }
{
    let said = lay_line(line);
    match close_and_say(v, m, said.as_slice()) {
        Ok(()) => Ok(gives),
        Err(end) => Err(end),
    }
}

// Makes the versions again and says how many they are, or why one of them was refused. A mount that was just made has
// more numbers than an input can ask for.
fn make_again<M: Machine, V: Files<M> + Drop>(
    v: V,
    m: &mut M,
    input: &[u8],
    items: &[Item],
) -> Result<u8, Halt>
    requires room { (V.state v).layout.sectors ≤ (M.report m.old).sectors }
    requires new { IsNew (V.state v) }
    requires keys { All (λ x. IsTrue (is_key x.key)) items.now }
    requires few { length items.now ≤ max_input }
    ensures { Restores M.Machine V.state V.holds (λ x. restoring (map (dumped input.now) items.now)) v m.old m.new result }
{
    let mut v = v;
    match load_all(&mut v, m, input, items) {
        Ok(None) => close_with(v, m, &Line::Restored(items.len() as u32), 0),
        Ok(Some(why)) => close_with(v, m, &Line::Refused(why), 1),
        Err(end) => Err(end),
    }
}

// So it is where there is no version of these keys; or it says the first key of which there is one.
fn restore_items<M: Machine, V: Files<M> + Drop>(
    v: V,
    m: &mut M,
    input: &[u8],
    items: &[Item],
) -> Result<u8, Halt>
    requires room { (V.state v).layout.sectors ≤ (M.report m.old).sectors }
    requires new { IsNew (V.state v) }
    requires keys { All (λ x. IsTrue (is_key x.key)) items.now }
    requires few { length items.now ≤ max_input }
    ensures { let all = map (dumped input.now) items.now in Restores M.Machine V.state V.holds (λ x. restoring_unless (first_of all x.entries) all) v m.old m.new result }
{
    let mut v = v;
    match first_there(&mut v, m, items) {
        Ok(None) => make_again(v, m, input, items),
        Ok(Some(key)) => close_with(v, m, &Line::Exists(key), 1),
        Err(fault) => Err(Halt::Fault(fault)),
    }
}

// Does what a dump asks for, or says where the input stops to be one.
fn restore_input<M: Machine, V: Files<M> + Drop>(
    alloc: Global,
    v: V,
    m: &mut M,
    input: &[u8],
) -> Result<u8, Halt>
    requires room { (V.state v).layout.sectors ≤ (M.report m.old).sectors }
    requires new { IsNew (V.state v) }
    requires few { length input.now ≤ max_input }
    ensures { Restores M.Machine V.state V.holds (λ x. restore_of (dumped_in input.now) x) v m.old m.new result }
{
    match read_dump(alloc, input) {
        Ok(items) => restore_items(v, m, input, items.as_slice()),
        Err(DumpRead::Bad(place)) => close_with(v, m, &Line::NoDump(place as u32), 1),
        Err(DumpRead::Memory) => Err(Halt::Fault(Fault::Memory)),
    }
}

// The same to the last line. It gives the status.
fn restore_taken<M: Machine, V: Files<M> + Drop>(alloc: Global, v: V, m: &mut M, input: &[u8]) -> u8
    requires room { (V.state v).layout.sectors ≤ (M.report m.old).sectors }
    requires new { IsNew (V.state v) }
    requires few { length input.now ≤ max_input }
    ensures ends { EndsMounted M.Machine IsRestoreStatus m.old m.new result }
    ensures takes { TakesNothing M.Machine m.old m.new result }
    ensures tells { M.honest m.new → TellsMounted Nothing AreOfPage (V.state v).layout ⊥ (M.now m.old) (M.now m.new) result }
    ensures runs { M.honest m.new → (rest : List ℕ) (k : Known) → k.opened ≡ none_open → Stands V.state V.holds v k (M.now m.old) → OnDisk M.Machine k (forced_of k) m.old → RunsOut M.Machine Restore input.now rest (M.report m.old) k m.old m.new result }
{
    match restore_input(alloc, v, m, input) {
        Ok(status) => status,
        Err(Halt::Fault(why)) => end_with(m, why),
        Err(Halt::Output) => 6,
    }
}

// Takes the input and restores it over a volume that was just mounted, to the last line. It gives the status.
fn restore_on<M: Machine, V: Files<M> + Drop>(alloc: Global, v: V, m: &mut M) -> u8
    requires room { (V.state v).layout.sectors ≤ (M.report m.old).sectors }
    requires new { IsNew (V.state v) }
    ensures ends { EndsMounted M.Machine IsPutStatus m.old m.new result }
    ensures takes { TakesInput M.Machine M.tells 1 m.old m.new result }
    ensures whole { result ≤ 1 → M.tells m.new → TakesToEnd (M.ledger m.old).input (M.ledger m.new).input }
    ensures tells { M.honest m.new → TellsMounted Nothing AreOfPage (V.state v).layout ⊥ (M.now m.old) (M.now m.new) result }
    ensures runs { M.honest m.new → (k : Known) → (volume_of k).unforced ≡ 0 → k.opened ≡ none_open → Stands V.state V.holds v k (M.now m.old) → OnDisk M.Machine k (forced_of k) m.old → RunsOut M.Machine Restore (M.ledger m.old).input (M.ledger m.new).input (M.report m.old) k m.old m.new result }
{
    match read_input(alloc, m) {
        Ok(bytes) => restore_taken(alloc, v, m, bytes.as_slice()),
        Err(InputFault::TooLong) => refuse_input(v, m),
        Err(InputFault::Failed) => end_with(m, Fault::Input),
        Err(InputFault::Memory) => end_with(m, Fault::Memory),
    }
}

/// Mounts a volume, takes the input to its end, and makes the versions of the dump that it is again, each under its key
/// and keep; or says that the input is no dump, or which version is there already, and changes nothing; or the first
/// refusal, behind which the loads before it stand. It gives the status.
pub fn run_restore<M: Machine, V: Files<M> + Drop>(alloc: Global, m: &mut M, sectors: u32) -> u8
    requires sectors { sectors ≡ (M.report m.old).sectors }
    ensures ends { EndsRun M.Machine IsPutStatus m.old m.new result }
    ensures takes { TakesInput M.Machine M.tells 1 m.old m.new result }
    ensures whole { result ≤ 1 → M.tells m.new → TakesToEnd (M.ledger m.old).input (M.ledger m.new).input }
    ensures image { M.honest m.new → TellsImage Nothing AreOfPage (Some max_input) sectors (M.now m.old) (M.now m.new) result }
    ensures leaves { M.honest m.new → LeavesOver M.Machine Restore (M.ledger m.old).input (M.ledger m.new).input sectors m.old m.new result }
{
    match V::mount(alloc, m, sectors) {
        Ok(v) => restore_on(alloc, v, m),
        Err(fault) => end_with(m, fault_of(fault)),
    }
}
