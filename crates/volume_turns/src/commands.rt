//! One command over a mounted volume.
ghost use Rattle.std.specs.Prelude.{◌≡◌, ◌⊎◌, ◌<◌, ◌≤◌, false, None, IfSome, IsTrue, take};
ghost use Rattle.std.specs.Bool.{MatchBool};
ghost use Rattle.fsd_bytes.specs.Keys.{is_key};
ghost use Rattle.fsd_formats.specs.NamePage.{max_length, sectors_for};
ghost use Rattle.fsd_files.specs.Answers.{entry_of};
ghost use Rattle.fsd_files.specs.declared.reply.Reply.TheVariants as Said;
ghost use Rattle.fsd_texts.specs.declared.command.Command.TheVariants as Word;
ghost use Rattle.sector_disk.specs.Calls.{OnlyReads};
ghost use Rattle.volume_contract.specs.State.{Known, Stands, volume_of};
ghost use Rattle.volume_turns.specs.Did.{Did, TellsAnswer};
ghost use Rattle.volume_turns.specs.Steps.{Does, device_by, is_alone};

use crate::answer::{ended_by, read_ended_by};
use crate::listing::list;
use fsd_bytes::{FileName, Key};
use fsd_files::{Items, Reply};
use fsd_formats::MOST_LENGTH;
use fsd_texts::{Command, Fault};
use scrub::scrub;
use sector_disk::Machine;
use std::alloc::Global;
use volume_contract::Files;

// Makes a version.
pub(crate) fn put<M: Machine, V: Files<M>>(
    v: &mut V,
    m: &mut M,
    name: &FileName,
    keep: Option<u32>,
    bytes: &[u8],
) -> Result<Reply, Fault>
    requires room { (V.state v.old).layout.sectors ≤ (M.report m.old).sectors }
    requires up { (V.state v.old).down ≡ None }
    ensures { Did M.Machine V.state V.holds V.resident (Word.Put name.now bytes.now keep) v.old v.new m.old m.new result }
{
    match v.put(m, name, keep, bytes) {
        Ok(key) => Ok(Reply::Made {
            key,
            sectors: sectors_of(bytes.len()),
        }),
        Err(why) => ended_by(why),
    }
}

// Makes a version under a key of its own.
pub(crate) fn load<M: Machine, V: Files<M>>(
    v: &mut V,
    m: &mut M,
    key: &Key,
    keep: u32,
    bytes: &[u8],
) -> Result<Reply, Fault>
    requires room { (V.state v.old).layout.sectors ≤ (M.report m.old).sectors }
    requires up { (V.state v.old).down ≡ None }
    requires key { IsTrue (is_key key.now) }
    ensures { Did M.Machine V.state V.holds V.resident (Word.Load key.now keep bytes.now) v.old v.new m.old m.new result }
{
    match v.load(m, key, keep, bytes) {
        Ok(()) => Ok(Reply::Loaded(key.copied())),
        Err(why) => ended_by(why),
    }
}

// Takes a version out.
pub(crate) fn delete<M: Machine, V: Files<M>>(
    v: &mut V,
    m: &mut M,
    key: &Key,
) -> Result<Reply, Fault>
    requires room { (V.state v.old).layout.sectors ≤ (M.report m.old).sectors }
    requires up { (V.state v.old).down ≡ None }
    ensures { Did M.Machine V.state V.holds V.resident (Word.Delete key.now) v.old v.new m.old m.new result }
{
    match v.delete(m, key) {
        Ok(()) => Ok(Reply::Deleted(key.copied())),
        Err(why) => ended_by(why),
    }
}

// Sets a keep.
pub(crate) fn set_keep<M: Machine, V: Files<M>>(
    v: &mut V,
    m: &mut M,
    name: &FileName,
    keep: u32,
) -> Result<Reply, Fault>
    requires room { (V.state v.old).layout.sectors ≤ (M.report m.old).sectors }
    requires up { (V.state v.old).down ≡ None }
    ensures { Did M.Machine V.state V.holds V.resident (Word.Keep name.now keep) v.old v.new m.old m.new result }
{
    match v.set_keep(m, name, keep) {
        Ok(key) => Ok(Reply::Kept { key, keep }),
        Err(why) => ended_by(why),
    }
}

// Moves a version to another name.
pub(crate) fn move_version<M: Machine, V: Files<M>>(
    v: &mut V,
    m: &mut M,
    key: &Key,
    name: &FileName,
) -> Result<Reply, Fault>
    requires room { (V.state v.old).layout.sectors ≤ (M.report m.old).sectors }
    requires up { (V.state v.old).down ≡ None }
    ensures { Did M.Machine V.state V.holds V.resident (Word.Move key.now name.now) v.old v.new m.old m.new result }
{
    match v.move_to(m, key, name) {
        Ok(to) => Ok(Reply::Moved {
            from: key.copied(),
            to,
        }),
        Err(why) => ended_by(why),
    }
}

// Forces all.
pub(crate) fn force<M: Machine, V: Files<M>>(v: &mut V, m: &mut M) -> Result<Reply, Fault>
    requires room { (V.state v.old).layout.sectors ≤ (M.report m.old).sectors }
    requires up { (V.state v.old).down ≡ None }
    ensures { Did M.Machine V.state V.holds V.resident Word.Force v.old v.new m.old m.new result }
{
    match v.force(m) {
        Ok(_) => Ok(Reply::Forced),
        Err(why) => ended_by(why),
    }
}

// Forces all, as time goes on.
pub(crate) fn tick<M: Machine, V: Files<M>>(v: &mut V, m: &mut M) -> Result<Reply, Fault>
    requires room { (V.state v.old).layout.sectors ≤ (M.report m.old).sectors }
    requires up { (V.state v.old).down ≡ None }
    ensures { Did M.Machine V.state V.holds V.resident Word.Tick v.old v.new m.old m.new result }
{
    match v.tick(m) {
        Ok(_) => Ok(Reply::Forced),
        Err(why) => ended_by(why),
    }
}

// Reads a whole version.
pub(crate) fn get<M: Machine, V: Files<M>>(
    alloc: Global,
    v: &mut V,
    m: &mut M,
    key: &Key,
) -> Result<Reply, Fault>
    requires room { (V.state v.old).layout.sectors ≤ (M.report m.old).sectors }
    requires up { (V.state v.old).down ≡ None }
    ensures { Did M.Machine V.state V.holds V.resident (Word.Get key.now) v.old v.new m.old m.new result }
{
    match v.entry(m, key) {
        Ok(entry) => read_whole(alloc, v, m, key, entry.length),
        Err(why) => ended_by(why),
    }
}

// Reads a version of no more bytes than this. One that is longer than its look-up told is read with room for the longest.
fn read_whole<M: Machine, V: Files<M>>(
    alloc: Global,
    v: &mut V,
    m: &mut M,
    key: &Key,
    most: u32,
) -> Result<Reply, Fault>
    requires room { (V.state v.old).layout.sectors ≤ (M.report m.old).sectors }
    requires up { (V.state v.old).down ≡ None }
    ensures state { V.state v.new ≡ V.state v.old }
    ensures disk { OnlyReads M.Machine (device_by result) m.old m.new }
    ensures tells { TellsAnswer M.Machine V.state V.resident (Word.Get key.now) v.old v.new m.old m.new result }
    ensures done { M.honest m.new → (k : Known) → Stands V.state V.holds v.old k (M.now m.old) → IfSome (entry_of key.now (volume_of k).entries) (λ e. e.length ≤ most) →
        Does V.state V.holds (Word.Get key.now) v.old v.new k (M.now m.old) (M.now m.new) result }
{
    let Ok(mut bytes) = vec![in alloc; 0u8; most as usize + 1] else {
        return Err(Fault::Memory);
    };
    match v.read(m, key, 0, bytes.as_mut_slice()) {
        Ok(count) if are_all(count, most) => Ok(first_bytes(key, bytes, count)),
        Ok(_) => read_whole(alloc, v, m, key, MOST_LENGTH),
        Err(why) => read_ended_by(key, why),
    }
}

// Whether so many bytes are all that a version has, where they were read into room for one more than the most.
fn are_all(count: u32, most: u32) -> bool
    ensures { MatchBool result ((count ≤ most) ⊎ (max_length ≤ most)) (most < max_length) }
{
    count <= most || most >= MOST_LENGTH
}

// The reply with so many first ones of these bytes.
fn first_bytes(key: &Key, mut bytes: Vec<u8>, count: u32) -> Reply
    ensures { result ≡ Said.Bytes key.now (take count bytes.items) }
{
    bytes.truncate(count as usize);
    Reply::Bytes {
        key: key.copied(),
        bytes: Items::from(bytes),
    }
}

/// Does one command that is no upgrade and no growth.
pub(crate) fn answer<M: Machine, V: Files<M>>(
    alloc: Global,
    v: &mut V,
    m: &mut M,
    c: &Command,
) -> Result<Reply, Fault>
    requires room { (V.state v.old).layout.sectors ≤ (M.report m.old).sectors }
    requires up { (V.state v.old).down ≡ None }
    requires other { is_alone c.now ≡ false }
    ensures { Did M.Machine V.state V.holds V.resident c.now v.old v.new m.old m.new result }
{
    match c {
        Command::Put { name, bytes, keep } => put(v, m, name, *keep, bytes.as_slice()),
        Command::Delete(key) => delete(v, m, key),
        Command::Keep { name, keep } => set_keep(v, m, name, *keep),
        Command::Move { key, name } => move_version(v, m, key, name),
        Command::Load { key, keep, bytes } => load(v, m, key.as_key(), *keep, bytes.as_slice()),
        Command::Get(key) => get(alloc, v, m, key),
        Command::Force => force(v, m),
        Command::Tick => tick(v, m),
        Command::List(pattern) => list(alloc, v, m, pattern),
        Command::Stat => count(v, m),
        Command::Scrub => scrub_all(alloc, v, m),
        Command::Upgrade | Command::Grow(_) => unreachable!(),
    }
}

// Scrubs the volume.
fn scrub_all<M: Machine, V: Files<M>>(alloc: Global, v: &mut V, m: &mut M) -> Result<Reply, Fault>
    requires room { (V.state v.old).layout.sectors ≤ (M.report m.old).sectors }
    requires up { (V.state v.old).down ≡ None }
    ensures { Did M.Machine V.state V.holds V.resident Word.Scrub v.old v.new m.old m.new result }
{
    let mut found = Vec::new(alloc);
    match scrub(v, m, &mut found) {
        Ok(healed) => Ok(Reply::Scrubbed {
            found: Items::from(found),
            healed: healed.sectors,
        }),
        Err(why) => ended_by(why),
    }
}

// What it counts.
fn count<M: Machine, V: Files<M>>(v: &mut V, m: &mut M) -> Result<Reply, Fault>
    requires up { (V.state v.old).down ≡ None }
    ensures { Did M.Machine V.state V.holds V.resident Word.Stat v.old v.new m.old m.new result }
{
    let counts = v.stat();
    Ok(Reply::Counts {
        free: counts.free,
        waiting: counts.waiting,
        pages: counts.pages_free,
        versions: counts.versions,
    })
}

// How many sectors a version of so many bytes takes.
fn sectors_of(len: usize) -> u32
    requires { len ≤ max_length }
    ensures { result ≡ sectors_for len }
{
    1 + (len as u32).div_ceil(512)
}
