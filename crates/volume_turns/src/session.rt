//! One command of a script over a mounted volume and its desk, to its reply.
ghost use Rattle.std.specs.Prelude.{◌≡◌, ◌≤◌, false, None, IfErr, IfOk};
ghost use Rattle.sector_disk.specs.Calls.{WritesDisk};
ghost use Rattle.client_desk.specs.Clients.{IsDesk};
ghost use Rattle.volume_turns.specs.Calls.{AnswersIn};
ghost use Rattle.volume_turns.specs.Commands.{BecauseIn};
ghost use Rattle.volume_turns.specs.Seats.{DoesIn, KeepsSeat, Seated, SitsAt, StaysIn};
ghost use Rattle.volume_turns.specs.Steps.{IsOfCall, device_by, is_alone_in};

use crate::calls::call;
use crate::commands;
use client_desk::Desk;
use fsd_files::Reply;
use fsd_texts::{Fault, ScriptCommand};
use sector_disk::Machine;
use std::alloc::Global;
use volume_contract::Files;

/// Does one command of a script, which is no upgrade and no growth.
pub(crate) fn answer_in<M: Machine, V: Files<M>>(
    alloc: Global,
    v: &mut V,
    desk: &mut Desk,
    m: &mut M,
    c: &ScriptCommand,
) -> Result<Reply, Fault>
    requires room { (V.state v.old).layout.sectors ≤ (M.report m.old).sectors }
    requires up { (V.state v.old).down ≡ None }
    requires desk { IsDesk (V.state v.old) desk.old }
    requires other { is_alone_in c.now ≡ false }
    ensures keeps { KeepsSeat (V.state v.old) (V.state v.new) desk.new result }
    ensures disk { WritesDisk M.Machine (device_by result) (StaysIn V.state V.holds (v.old, desk.old)) m.old m.new }
    ensures fault { IfErr result IsOfCall }
    ensures answers { M.honest m.new → AnswersIn c.now (V.state v.old) (V.state v.new) (M.now m.old) (M.now m.new) result }
    ensures because { M.honest m.new → IfOk result (λ a. BecauseIn V.state V.resident c.now (V.state v.old) (V.state v.new) (M.now m.old) (M.now m.new) a) }
    ensures done { M.honest m.new → (k : Seated) → SitsAt V.state V.holds (v.old, desk.old) k (M.now m.old) →
        DoesIn V.state V.holds c.now (v.old, desk.old) (v.new, desk.new) k (M.now m.old) (M.now m.new) result }
{
    match c {
        ScriptCommand::Plain(command) => commands::answer(alloc, v, m, command),
        ScriptCommand::OfClient {
            client,
            call: asked,
        } => call(alloc, v, desk, m, *client, asked),
    }
}
