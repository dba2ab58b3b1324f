//! The list of the versions that fit a pattern.
ghost use Rattle.std.specs.Prelude.{◌≡◌, ◌≤◌, ◌++◌, [], ◌∷◌, None, OnOk, IfOk, IfErr, MatchResult};
ghost use Rattle.fsd_texts.specs.declared.command.Command.TheVariants as Word;
ghost use Rattle.sector_disk.specs.Calls.{device_in};
ghost use Rattle.volume_contract.specs.Ends.{device_of};
ghost use Rattle.volume_contract.specs.Order.{IsLookUp};
ghost use Rattle.volume_contract.specs.State.{Known, Stands, volume_of};
ghost use Rattle.scrub.specs.Reading.{ReadsVolume};
ghost use Rattle.scrub.specs.Telling.{AreOfPage};
ghost use Rattle.scrub.specs.Walk.{IsFromOutside};
ghost use Rattle.volume_turns.specs.Did.{Did};
ghost use Rattle.volume_turns.specs.Listing.{fitting};
ghost use Rattle.volume_turns.specs.Reasons.{ListsAll};
ghost use Rattle.volume_turns.specs.Steps.{IsRefusedOn};

use crate::answer::ended_by;
use fsd_bytes::{Key, Pattern, Refusal};
use fsd_files::{Items, Reply};
use fsd_formats::Entry;
use fsd_texts::Fault;
use scrub::next_one;
use sector_disk::Machine;
use std::alloc::{AllocError, Global};
use volume_contract::Files;

// Puts an entry behind the others where it fits, and gives its key.
fn take_fitting(pattern: &Pattern, e: Entry, entries: &mut Vec<Entry>) -> Result<Key, AllocError>
    ensures ok { OnOk result (entries.new.items ≡ entries.old.items ++ fitting pattern.now (e ∷ [])) }
    ensures key { IfOk result (λ key. key ≡ e.key) }
{
    let key = e.key.copied();
    if pattern.fits(&e.key.name) {
        entries.push(e)?;
    }
    Ok(key)
}

// All entries whose names fit, in the order of their keys.
fn collect<M: Machine, V: Files<M>>(
    alloc: Global,
    v: &mut V,
    m: &mut M,
    pattern: &Pattern,
) -> Result<Vec<Entry>, Refusal>
    requires room { (V.state v.old).layout.sectors ≤ (M.report m.old).sectors }
    requires up { (V.state v.old).down ≡ None }
    ensures refusal { IfErr result IsLookUp }
    ensures reads { ReadsVolume M.Machine V.state V.holds (device_in device_of result) v.old v.new m.old m.new }
    ensures told { IfErr result (λ why. M.honest m.new → IsRefusedOn AreOfPage (V.state v.old).layout (M.now m.new).image why) }
    ensures done { M.honest m.new → (k : Known) → Stands V.state V.holds v.old k (M.now m.old) →
        MatchResult result (λ entries. entries.items ≡ fitting pattern.now (volume_of k).entries) IsFromOutside }
    ensures because { M.honest m.new → IfOk result (λ entries. ListsAll V.state V.resident pattern.now (V.state v.old) (V.state v.new) (M.now m.old) (M.now m.new) entries.items) }
{
    let mut entries = Vec::new(alloc);
    let mut last = None;
    for _ in 0..v.stat().versions {
        match next_one(v, m, &last) {
            Ok(Some(e)) => match take_fitting(pattern, e, &mut entries) {
                Ok(key) => last = Some(key),
                Err(_) => return Err(Refusal::Memory),
            },
            Ok(None) => return Ok(entries),
            Err(why) => return Err(why),
        }
    }
    Ok(entries)
}

// Lists all versions that fit.
pub(crate) fn list<M: Machine, V: Files<M>>(
    alloc: Global,
    v: &mut V,
    m: &mut M,
    pattern: &Pattern,
) -> Result<Reply, Fault>
    requires room { (V.state v.old).layout.sectors ≤ (M.report m.old).sectors }
    requires up { (V.state v.old).down ≡ None }
    ensures { Did M.Machine V.state V.holds V.resident (Word.List pattern.now) v.old v.new m.old m.new result }
{
    match collect(alloc, v, m, pattern) {
        Ok(entries) => Ok(Reply::Listed(Items::from(entries))),
        Err(why) => ended_by(why),
    }
}
