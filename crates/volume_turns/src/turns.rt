//! One command with its reply, and why commands were not all done.
ghost use Rattle.std.specs.Prelude.{◌≡◌, ◌≤◌, false, None, OnOk, IfOk, IfErr, IsTrue};
ghost use Rattle.sector_disk.specs.Machine.{LeavesOnly};
ghost use Rattle.fsd_files.specs.Desk.{Session};
ghost use Rattle.fsd_texts.specs.declared.script_command.ScriptCommand.{ScriptCommand as Word};
ghost use Rattle.fsd_runs.specs.Errands.{Errand};
ghost use Rattle.fsd_runs.specs.Sessions.{Meeting, answer_in};
ghost use Rattle.client_desk.specs.Clients.{IsDesk};
ghost use Rattle.volume_turns.specs.Calls.{MayLoseIn};
ghost use Rattle.volume_turns.specs.Each.{SaysStep};
ghost use Rattle.volume_turns.specs.Group.{is_worn_end};
ghost use Rattle.volume_turns.specs.Numbers.{UsesNumbers};
ghost use Rattle.volume_turns.specs.Seats.{KeepsSeat};
ghost use Rattle.volume_turns.specs.Steps.{is_alone_in};
ghost use Rattle.volume_turns.specs.Turns.{IsEndOn, Speaks, Steps, SaysAll, SaysText, Unsaid, UttersBehind};

use crate::line::{say_bytes, say_forced};
use crate::session;
use client_desk::Desk;
use fsd_files::Reply;
use fsd_texts::{Fault, ScriptCommand};
use sector_disk::Machine;
use std::alloc::{AllocError, Global};
use volume_contract::Files;

/// Why commands were not all done.
#[derive(Clone, Copy)]
pub enum Halt {
    /// A fault, which is to be said.
    Fault(Fault),
    /// The output has failed.
    Output,
}

// Whether a run ended since the mount is worn out.
pub(crate) fn is_worn_end(end: &Halt) -> bool
    ensures { result ≡ is_worn_end end.now }
{
    matches!(end, Halt::Fault(Fault::WornOut))
}

/// How replies are said.
pub trait Says {
    /// The text of a reply, and whether all is forced once it is said.
    ghost errand: { Errand };

    /// Whether an answer tells that all is forced.
    fn forces(answer: &Reply) -> bool
        ensures { result ≡ errand.forces answer.now };

    /// The text of an answer.
    fn text(alloc: Global, answer: &Reply) -> Result<Vec<u8>, AllocError>
        ensures { IfOk result (λ text. text.items ≡ errand.says answer.now) };
}

// Says a reply; one that tells as forced behind a sync.
pub(crate) fn say<M: Machine, T: Says>(alloc: Global, m: &mut M, answer: &Reply) -> Result<(), Halt>
    ensures says { SaysText M.Machine (T.errand.forces answer.now) m.old m.new result }
    ensures moments { M.honest m.new → LeavesOnly M.moment M.left_since m.old m.new (UttersBehind (T.errand.forces answer.now) (T.errand.says answer.now) (M.now m.old)) }
    ensures synced { OnOk result (IsTrue (T.errand.forces answer.now) → M.honest m.new → (M.now m.old).time ≤ (M.now m.new).synced) }
    ensures said { OnOk result (M.honest m.new → SaysAll (T.errand.says answer.now) (M.now m.old) (M.now m.new)) }
    ensures unsaid { IfErr result (λ end. M.honest m.new → Unsaid (M.now m.old) (M.now m.new) end) }
{
    let Ok(text) = T::text(alloc, answer) else {
        return Err(Halt::Fault(Fault::Memory));
    };
    if T::forces(answer) {
        say_forced(m, text.as_slice())
    } else {
        say_bytes(m, text.as_slice())
    }
}

/// Does one command and says its reply.
pub(crate) fn step<M: Machine, V: Files<M>, T: Says>(
    alloc: Global,
    v: &mut V,
    desk: &mut Desk,
    m: &mut M,
    c: &ScriptCommand,
) -> Result<(), Halt>
    requires room { (V.state v.old).layout.sectors ≤ (M.report m.old).sectors }
    requires up { (V.state v.old).down ≡ None }
    requires desk { IsDesk (V.state v.old) desk.old }
    requires other { is_alone_in c.now ≡ false }
    requires lazily { (x : Meeting) (s : Session) (w : Word) → IsTrue (T.errand.forces (answer_in x s w).0) → (answer_in x s w).1.volume.unforced ≡ 0 }
    ensures keeps { KeepsSeat (V.state v.old) (V.state v.new) desk.new result }
    ensures speaks { Speaks M.Machine 1 m.old m.new result }
    ensures steps { Steps V.state V.holds M.Machine T.errand c.now (v.old, desk.old) m.old (v.new, desk.new) m.new result }
    ensures says { SaysStep M.Machine T.errand c.now m.old m.new result }
    ensures image { IfErr result (λ end. M.honest m.new → IsEndOn (MayLoseIn c.now) (V.state v.old).layout (M.now m.new).image end) }
    ensures numbers { UsesNumbers M.Machine 1 (V.state v.old) (V.state v.new) m.new result }
{
    match session::answer_in(alloc, v, desk, m, c) {
        Ok(answer) => say::<M, T>(alloc, m, &answer),
        Err(fault) => Err(Halt::Fault(fault)),
    }
}
