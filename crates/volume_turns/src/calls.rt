//! One call of a client, over a mounted volume and its desk.
ghost use Rattle.std.specs.Prelude.{◌≡◌, ◌≤◌, None, Err, IfOk, IfErr, length};
ghost use Rattle.fsd_formats.specs.NamePage.{sectors_for};
ghost use Rattle.fsd_texts.specs.declared.call.Call.TheVariants as Calls;
ghost use Rattle.fsd_texts.specs.declared.fault.Fault.TheVariants as Ends;
ghost use Rattle.fsd_texts.specs.declared.script_command.ScriptCommand.TheVariants.{OfClient};
ghost use Rattle.sector_disk.specs.Calls.{WritesDisk};
ghost use Rattle.client_desk.specs.Clients.{IsDesk};
ghost use Rattle.volume_turns.specs.Calls.{AnswersIn, next_ended_by, room_for, sectors_made};
ghost use Rattle.volume_turns.specs.Reasons.{BecauseCalled, BecauseOpened};
ghost use Rattle.volume_turns.specs.Seats.{DoesIn, KeepsSeat, Seated, SitsAt, StaysIn};
ghost use Rattle.volume_turns.specs.Steps.{IsOfCall, device_by};

use crate::answer::{ended_by, read_ended_by};
use client_desk::Desk;
use fsd_bytes::{FileName, Key, Refusal};
use fsd_files::{Items, Reply};
use fsd_texts::{Call, Fault};
use sector_disk::Machine;
use std::alloc::Global;
use volume_contract::Files;

// A client begins a version. It takes no memory.
fn begin<M: Machine, V: Files<M>>(
    v: &mut V,
    desk: &mut Desk,
    m: &mut M,
    client: u32,
    name: &FileName,
    length: u32,
) -> Result<Reply, Fault>
    requires room { (V.state v.old).layout.sectors ≤ (M.report m.old).sectors }
    requires up { (V.state v.old).down ≡ None }
    requires desk { IsDesk (V.state v.old) desk.old }
    ensures keeps { KeepsSeat (V.state v.old) (V.state v.new) desk.new result }
    ensures disk { WritesDisk M.Machine (device_by result) (StaysIn V.state V.holds (v.old, desk.old)) m.old m.new }
    ensures fault { IfErr result IsOfCall }
    ensures spares { result ≡ Err Ends.Memory → ⊥ }
    ensures answers { M.honest m.new → AnswersIn (OfClient client (Calls.Begin name.now length)) (V.state v.old) (V.state v.new) (M.now m.old) (M.now m.new) result }
    ensures done { M.honest m.new → (k : Seated) → SitsAt V.state V.holds (v.old, desk.old) k (M.now m.old) →
        DoesIn V.state V.holds (OfClient client (Calls.Begin name.now length)) (v.old, desk.old) (v.new, desk.new) k (M.now m.old) (M.now m.new) result }
{
    match desk.begin(v, m, client, name, length as u64) {
        Ok(()) => Ok(Reply::Begun(client)),
        Err(why) => ended_by(why),
    }
}

// It has more bytes of it, and takes no memory. Where the disk fails the version is given up, and the run ends.
fn piece<M: Machine, V: Files<M>>(
    v: &mut V,
    desk: &mut Desk,
    m: &mut M,
    client: u32,
    bytes: &[u8],
) -> Result<Reply, Fault>
    requires room { (V.state v.old).layout.sectors ≤ (M.report m.old).sectors }
    requires up { (V.state v.old).down ≡ None }
    requires desk { IsDesk (V.state v.old) desk.old }
    ensures keeps { KeepsSeat (V.state v.old) (V.state v.new) desk.new result }
    ensures disk { WritesDisk M.Machine (device_by result) (StaysIn V.state V.holds (v.old, desk.old)) m.old m.new }
    ensures fault { IfErr result IsOfCall }
    ensures spares { result ≡ Err Ends.Memory → ⊥ }
    ensures answers { M.honest m.new → AnswersIn (OfClient client (Calls.Piece bytes.now)) (V.state v.old) (V.state v.new) (M.now m.old) (M.now m.new) result }
    ensures done { M.honest m.new → (k : Seated) → SitsAt V.state V.holds (v.old, desk.old) k (M.now m.old) →
        DoesIn V.state V.holds (OfClient client (Calls.Piece bytes.now)) (v.old, desk.old) (v.new, desk.new) k (M.now m.old) (M.now m.new) result }
{
    match desk.piece(v, m, client, bytes) {
        Ok(sum) => Ok(Reply::Took { client, sum }),
        Err(why) => ended_by(why),
    }
}

// It has all of them.
fn close<M: Machine, V: Files<M>>(
    v: &mut V,
    desk: &mut Desk,
    m: &mut M,
    client: u32,
) -> Result<Reply, Fault>
    requires room { (V.state v.old).layout.sectors ≤ (M.report m.old).sectors }
    requires up { (V.state v.old).down ≡ None }
    requires desk { IsDesk (V.state v.old) desk.old }
    ensures keeps { KeepsSeat (V.state v.old) (V.state v.new) desk.new result }
    ensures disk { WritesDisk M.Machine (device_by result) (StaysIn V.state V.holds (v.old, desk.old)) m.old m.new }
    ensures fault { IfErr result IsOfCall }
    ensures answers { M.honest m.new → AnswersIn (OfClient client Calls.Close) (V.state v.old) (V.state v.new) (M.now m.old) (M.now m.new) result }
    ensures done { M.honest m.new → (k : Seated) → SitsAt V.state V.holds (v.old, desk.old) k (M.now m.old) →
        DoesIn V.state V.holds (OfClient client Calls.Close) (v.old, desk.old) (v.new, desk.new) k (M.now m.old) (M.now m.new) result }
{
    let sectors = sectors_made(desk.declared(client));
    match desk.close(v, m, client) {
        Ok(key) => Ok(Reply::Made { key, sectors }),
        Err(why) => ended_by(why),
    }
}

// It gives the version up, and takes no memory.
fn drop_draft<M: Machine, V: Files<M>>(
    v: &mut V,
    desk: &mut Desk,
    m: &mut M,
    client: u32,
) -> Result<Reply, Fault>
    requires room { (V.state v.old).layout.sectors ≤ (M.report m.old).sectors }
    requires up { (V.state v.old).down ≡ None }
    requires desk { IsDesk (V.state v.old) desk.old }
    ensures keeps { KeepsSeat (V.state v.old) (V.state v.new) desk.new result }
    ensures disk { WritesDisk M.Machine (device_by result) (StaysIn V.state V.holds (v.old, desk.old)) m.old m.new }
    ensures fault { IfErr result IsOfCall }
    ensures spares { result ≡ Err Ends.Memory → ⊥ }
    ensures answers { M.honest m.new → AnswersIn (OfClient client Calls.Drop) (V.state v.old) (V.state v.new) (M.now m.old) (M.now m.new) result }
    ensures done { M.honest m.new → (k : Seated) → SitsAt V.state V.holds (v.old, desk.old) k (M.now m.old) →
        DoesIn V.state V.holds (OfClient client Calls.Drop) (v.old, desk.old) (v.new, desk.new) k (M.now m.old) (M.now m.new) result }
{
    match desk.drop_draft(v, client) {
        Ok(()) => Ok(Reply::Dropped(client)),
        Err(why) => ended_by(why),
    }
}

// It opens a version.
fn open<M: Machine, V: Files<M>>(
    v: &mut V,
    desk: &mut Desk,
    m: &mut M,
    client: u32,
    key: &Key,
) -> Result<Reply, Fault>
    requires room { (V.state v.old).layout.sectors ≤ (M.report m.old).sectors }
    requires up { (V.state v.old).down ≡ None }
    requires desk { IsDesk (V.state v.old) desk.old }
    ensures keeps { KeepsSeat (V.state v.old) (V.state v.new) desk.new result }
    ensures disk { WritesDisk M.Machine (device_by result) (StaysIn V.state V.holds (v.old, desk.old)) m.old m.new }
    ensures fault { IfErr result IsOfCall }
    ensures answers { M.honest m.new → AnswersIn (OfClient client (Calls.Open key.now)) (V.state v.old) (V.state v.new) (M.now m.old) (M.now m.new) result }
    ensures because { M.honest m.new → IfOk result (λ a. BecauseOpened V.state V.resident key.now (V.state v.old) (V.state v.new) (M.now m.old) (M.now m.new) a) }
    ensures done { M.honest m.new → (k : Seated) → SitsAt V.state V.holds (v.old, desk.old) k (M.now m.old) →
        DoesIn V.state V.holds (OfClient client (Calls.Open key.now)) (v.old, desk.old) (v.new, desk.new) k (M.now m.old) (M.now m.new) result }
{
    match desk.open_key(v, m, client, key) {
        Ok(length) => Ok(Reply::Opened { client, length }),
        Err(why) => ended_by(why),
    }
}

// It reads the next bytes of it.
fn next<M: Machine, V: Files<M>>(
    alloc: Global,
    v: &mut V,
    desk: &mut Desk,
    m: &mut M,
    client: u32,
    len: u32,
) -> Result<Reply, Fault>
    requires room { (V.state v.old).layout.sectors ≤ (M.report m.old).sectors }
    requires up { (V.state v.old).down ≡ None }
    requires desk { IsDesk (V.state v.old) desk.old }
    ensures keeps { KeepsSeat (V.state v.old) (V.state v.new) desk.new result }
    ensures disk { WritesDisk M.Machine (device_by result) (StaysIn V.state V.holds (v.old, desk.old)) m.old m.new }
    ensures fault { IfErr result IsOfCall }
    ensures answers { M.honest m.new → AnswersIn (OfClient client (Calls.Next len)) (V.state v.old) (V.state v.new) (M.now m.old) (M.now m.new) result }
    ensures done { M.honest m.new → (k : Seated) → SitsAt V.state V.holds (v.old, desk.old) k (M.now m.old) →
        DoesIn V.state V.holds (OfClient client (Calls.Next len)) (v.old, desk.old) (v.new, desk.new) k (M.now m.old) (M.now m.new) result }
{
    let room = room_for(desk.left(client), len);
    let Ok(mut bytes) = vec![in alloc; 0u8; room as usize] else {
        return Err(Fault::Memory);
    };
    match desk.next(v, m, client, bytes.as_mut_slice()) {
        Ok(_) => Ok(Reply::Given {
            client,
            bytes: Items::from(bytes),
        }),
        Err(why) => next_ended_by(desk.key(client), why),
    }
}

// It is done with it, and takes no memory.
fn done<M: Machine, V: Files<M>>(
    v: &mut V,
    desk: &mut Desk,
    m: &mut M,
    client: u32,
) -> Result<Reply, Fault>
    requires room { (V.state v.old).layout.sectors ≤ (M.report m.old).sectors }
    requires up { (V.state v.old).down ≡ None }
    requires desk { IsDesk (V.state v.old) desk.old }
    ensures keeps { KeepsSeat (V.state v.old) (V.state v.new) desk.new result }
    ensures disk { WritesDisk M.Machine (device_by result) (StaysIn V.state V.holds (v.old, desk.old)) m.old m.new }
    ensures fault { IfErr result IsOfCall }
    ensures spares { result ≡ Err Ends.Memory → ⊥ }
    ensures answers { M.honest m.new → AnswersIn (OfClient client Calls.Done) (V.state v.old) (V.state v.new) (M.now m.old) (M.now m.new) result }
    ensures done { M.honest m.new → (k : Seated) → SitsAt V.state V.holds (v.old, desk.old) k (M.now m.old) →
        DoesIn V.state V.holds (OfClient client Calls.Done) (v.old, desk.old) (v.new, desk.new) k (M.now m.old) (M.now m.new) result }
{
    match desk.done(v, client) {
        Ok(()) => Ok(Reply::Done(client)),
        Err(why) => ended_by(why),
    }
}

/// Does one call of a client.
pub(crate) fn call<M: Machine, V: Files<M>>(
    alloc: Global,
    v: &mut V,
    desk: &mut Desk,
    m: &mut M,
    client: u32,
    call: &Call,
) -> Result<Reply, Fault>
    requires room { (V.state v.old).layout.sectors ≤ (M.report m.old).sectors }
    requires up { (V.state v.old).down ≡ None }
    requires desk { IsDesk (V.state v.old) desk.old }
    ensures keeps { KeepsSeat (V.state v.old) (V.state v.new) desk.new result }
    ensures disk { WritesDisk M.Machine (device_by result) (StaysIn V.state V.holds (v.old, desk.old)) m.old m.new }
    ensures fault { IfErr result IsOfCall }
    ensures answers { M.honest m.new → AnswersIn (OfClient client call.now) (V.state v.old) (V.state v.new) (M.now m.old) (M.now m.new) result }
    ensures because { M.honest m.new → IfOk result (λ a. BecauseCalled V.state V.resident call.now (V.state v.old) (V.state v.new) (M.now m.old) (M.now m.new) a) }
    ensures done { M.honest m.new → (k : Seated) → SitsAt V.state V.holds (v.old, desk.old) k (M.now m.old) →
        DoesIn V.state V.holds (OfClient client call.now) (v.old, desk.old) (v.new, desk.new) k (M.now m.old) (M.now m.new) result }
{
    match call {
        Call::Begin { name, length } => begin(v, desk, m, client, name, *length),
        Call::Piece(bytes) => piece(v, desk, m, client, bytes.as_slice()),
        Call::Close => close(v, desk, m, client),
        Call::Drop => drop_draft(v, desk, m, client),
        Call::Open(key) => open(v, desk, m, client, key),
        Call::Next(len) => next(alloc, v, desk, m, client, *len),
        Call::Done => done(v, desk, m, client),
    }
}

// How many sectors a version of so many bytes takes, where one was declared.
fn sectors_made(declared: Option<u32>) -> u32
    ensures { result ≡ sectors_made declared }
{
    match declared {
        Some(length) => 1 + length.div_ceil(512),
        None => 0,
    }
}

// How many bytes a client that has so many left is given at most.
fn room_for(left: Option<u32>, len: u32) -> u32
    ensures { result ≡ room_for left len }
{
    match left {
        Some(left) => left.min(len),
        None => 0,
    }
}

// A refusal of a read is said with the version's key, or ends the run.
fn next_ended_by(key: Option<Key>, why: Refusal) -> Result<Reply, Fault>
    ensures is { result ≡ next_ended_by key why }
    ensures fault { IfErr result IsOfCall }
{
    match key {
        Some(key) => read_ended_by(&key, why),
        None => ended_by(why),
    }
}
