//! One command by itself over a mounted volume, to its reply.
ghost use Rattle.std.specs.Prelude.{◌≡◌, ◌≤◌, ◌+◌, [], None, Err, IfErr, IfOk, OnOk, IsTrue, false, ℕ};
ghost use Rattle.fsd_runs.specs.Commands.{reply_alone, reply_status};
ghost use Rattle.volume_turns.specs.Answering.{AnswersAlone, ClosesBy};
ghost use Rattle.volume_turns.specs.Once.{ClosesAndSays, HasClosed, IsAlone, close_fault, end_by_mount, unit_of};
ghost use Rattle.volume_turns.specs.Commands.{IsStatusFrom};
ghost use Rattle.volume_turns.specs.Healing.{HealsAlone, IfScrub};
ghost use Rattle.volume_contract.specs.Closing.{saving_len};
ghost use Rattle.volume_contract.specs.State.{Known, Stands, is_worn, none_open, volume_of, forced_of};
ghost use Rattle.volume_contract.specs.Upgrade.{is_fresh};
ghost use Rattle.volume_turns.specs.Steps.{is_alone, may_grow};
ghost use Rattle.fsd_texts.specs.declared.fault.Fault.TheVariants as Ends;
ghost use Rattle.volume_turns.specs.declared.turns.Halt.TheVariants.{Fault as Stopped};
ghost use Rattle.volume_turns.specs.Turns.{OnDisk, Speaks, SpeaksBy, WantsNone};

use crate::commands;
use crate::grow::grow_alone;
use crate::line::say_forced;
use crate::turns::{Halt, Says};
use crate::upgrade::upgrade_alone;
use fsd_bytes::Refusal;
use fsd_files::Reply;
use fsd_sound::MountFault;
use fsd_texts::{Command, Fault};
use sector_disk::Machine;
use std::alloc::Global;
use volume_contract::Files;

// Why a close has failed.
pub(crate) fn close_fault(why: Refusal) -> Fault
    ensures { result ≡ close_fault why }
{
    match why {
        Refusal::Device(s) => Fault::Device(s),
        Refusal::Lost { a, b } => Fault::Lost { a, b },
        _ => Fault::Memory,
    }
}

// Ends the use of a volume, and says a text. It wants no memory.
pub(crate) fn close_and_say<M: Machine, V: Files<M>>(
    v: V,
    m: &mut M,
    text: &[u8],
) -> Result<(), Halt>
    requires room { (V.state v).layout.sectors ≤ (M.report m.old).sectors }
    ensures speaks { Speaks M.Machine 1 m.old m.new result }
    ensures closing { M.honest m.new → ClosesBy (V.state v) text.now (M.now m.old) (M.now m.new) result }
    ensures closed { M.honest m.new → OnOk result (HasClosed V.state V.holds v (M.now m.old) (M.now m.new)) }
    ensures wants { (V.state v).down ≡ None → IfErr result WantsNone }
    ensures written { (V.state v).dirty ≡ [] → OnOk result (M.tells m.new → (M.ledger m.new).written ≡ (M.ledger m.old).written + saving_len (V.state v)) }
    ensures closes { M.honest m.new → (k : Known) (f : ℕ) → Stands V.state V.holds v k (M.now m.old) → OnDisk M.Machine k f m.old → ClosesAndSays M.Machine k f text.now m.old m.new result }
{
    match v.close(m) {
        Ok(()) => say_forced(m, text),
        Err(why) => Err(Halt::Fault(close_fault(why))),
    }
}

// The status of a reply.
fn status_of(answer: &Reply) -> u8
    ensures { result ≡ reply_status answer.now }
{
    match answer {
        Reply::Refused(_) => 1,
        Reply::DamagedAt { .. } => 8,
        Reply::Scrubbed { found, .. } if found.as_slice().len() > 0 => 8,
        _ => 0,
    }
}

// Ends the use of a volume, says a reply, and gives its status. The reply's text is made first:
// where memory is refused for it nothing is forced.
pub(crate) fn close_as<M: Machine, V: Files<M> + Drop, T: Says>(
    alloc: Global,
    v: V,
    m: &mut M,
    answer: &Reply,
) -> Result<u8, Halt>
    requires room { (V.state v).layout.sectors ≤ (M.report m.old).sectors }
    requires up { (V.state v).down ≡ None }
    ensures undone { result ≡ Err (Stopped Ends.Memory) → m.new ≡ m.old }
    ensures status { IfOk result (λ status. status ≡ reply_status answer.now) }
    ensures speaks { Speaks M.Machine 1 m.old m.new result }
    ensures written { (V.state v).dirty ≡ [] → OnOk result (M.tells m.new → (M.ledger m.new).written ≡ (M.ledger m.old).written + saving_len (V.state v)) }
    ensures closing { M.honest m.new → ClosesBy (V.state v) (T.errand.says answer.now) (M.now m.old) (M.now m.new) (unit_of result) }
    ensures closed { M.honest m.new → OnOk result (HasClosed V.state V.holds v (M.now m.old) (M.now m.new)) }
    ensures closes { M.honest m.new → (k : Known) (f : ℕ) → Stands V.state V.holds v k (M.now m.old) → OnDisk M.Machine k f m.old → ClosesAndSays M.Machine k f (T.errand.says answer.now) m.old m.new (unit_of result) }
{
    let Ok(text) = T::text(alloc, answer) else {
        return Err(Halt::Fault(Fault::Memory));
    };
    match close_and_say(v, m, text.as_slice()) {
        Ok(()) => Ok(status_of(answer)),
        Err(end) => Err(end),
    }
}

/// Does one command over a volume that was just mounted, forces all, says its reply, and gives the reply's status.
pub fn alone<M: Machine, V: Files<M> + Drop, T: Says>(
    alloc: Global,
    v: V,
    m: &mut M,
    c: &Command,
) -> Result<u8, Halt>
    requires room { (V.state v).layout.sectors ≤ (M.report m.old).sectors }
    requires up { (V.state v).down ≡ None }
    requires unworn { is_worn (V.state v) ≡ false }
    requires fresh { IsTrue (is_fresh (V.state v)) }
    requires says { T.errand.says ≡ reply_alone }
    ensures speaks { SpeaksBy (may_grow c.now) M.Machine 1 m.old m.new result }
    ensures status { IfOk result (IsStatusFrom c.now) }
    ensures answers { M.honest m.new → AnswersAlone c.now (V.state v) (M.now m.old) (M.now m.new) result }
    ensures heals { M.honest m.new → (V.state v).dirty ≡ [] → IfOk result (λ status. IfScrub c.now (HealsAlone M.Machine V.state V.holds v m.old m.new)) }
    ensures does { M.honest m.new → (k : Known) → (volume_of k).unforced ≡ 0 → k.opened ≡ none_open → Stands V.state V.holds v k (M.now m.old) → OnDisk M.Machine k (forced_of k) m.old → IsAlone M.Machine c.now k m.old m.new result }
{
    match c {
        Command::Upgrade => upgrade_alone::<M, V, T>(alloc, v, m),
        Command::Grow(sectors) => grow_alone::<M, V, T>(alloc, v, m, *sectors),
        _ => answer_alone::<M, V, T>(alloc, v, m, c),
    }
}

// So it is of a command that is no upgrade and no growth.
fn answer_alone<M: Machine, V: Files<M> + Drop, T: Says>(
    alloc: Global,
    v: V,
    m: &mut M,
    c: &Command,
) -> Result<u8, Halt>
    requires room { (V.state v).layout.sectors ≤ (M.report m.old).sectors }
    requires up { (V.state v).down ≡ None }
    requires unworn { is_worn (V.state v) ≡ false }
    requires other { is_alone c.now ≡ false }
    requires says { T.errand.says ≡ reply_alone }
    ensures speaks { Speaks M.Machine 1 m.old m.new result }
    ensures status { IfOk result (IsStatusFrom c.now) }
    ensures answers { M.honest m.new → AnswersAlone c.now (V.state v) (M.now m.old) (M.now m.new) result }
    ensures heals { M.honest m.new → (V.state v).dirty ≡ [] → IfOk result (λ status. IfScrub c.now (HealsAlone M.Machine V.state V.holds v m.old m.new)) }
    ensures does { M.honest m.new → (k : Known) → (volume_of k).unforced ≡ 0 → k.opened ≡ none_open → Stands V.state V.holds v k (M.now m.old) → OnDisk M.Machine k (forced_of k) m.old → IsAlone M.Machine c.now k m.old m.new result }
{
    let mut v = v;
    match commands::answer(alloc, &mut v, m, c) {
        Ok(answer) => close_as::<M, V, T>(alloc, v, m, &answer),
        Err(fault) => Err(Halt::Fault(fault)),
    }
}

// What a refused mount says.
pub(crate) fn fault_of(fault: MountFault) -> Fault
    ensures { result ≡ end_by_mount fault }
{
    match fault {
        MountFault::NotVolume => Fault::NotVolume,
        MountFault::Device(sector) => Fault::Device(sector),
        MountFault::Memory => Fault::Memory,
        MountFault::Lost { a, b } => Fault::Lost { a, b },
        MountFault::NoAnchor => Fault::NoAnchor,
        MountFault::Unsound(sector) => Fault::Unsound(sector),
        MountFault::WornOut => Fault::WornOut,
    }
}
