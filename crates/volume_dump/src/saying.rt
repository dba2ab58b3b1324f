//! A second reading of the versions, which says each one once it is read.
ghost use Rattle.std.specs.Prelude.{◌≡◌, ◌≤◌, ◌<◌, ◌^◌, ◌∷◌, ⊤, [], length, None, false, true, IfErr, IfOk, MatchResult, OnOk};
ghost use Rattle.sector_disk.specs.Machine.{Says, Utters};
ghost use Rattle.fsd_dumps.specs.Dump.{item_bytes};
ghost use Rattle.fsd_formats.specs.NamePage.{is_entry};
ghost use Rattle.fsd_runs.specs.Dumps.{dump_of, dumped_of};
ghost use Rattle.std.specs.List.{concat};
ghost use Rattle.volume_contract.specs.Healing.{IsMet};
ghost use Rattle.volume_contract.specs.State.{Known, Stands, volume_of};
ghost use Rattle.scrub.specs.Reading.{ReadsVolume};
ghost use Rattle.volume_dump.specs.Dump.{FollowsDump, ReadsAndSays, TellsDump, device_in_dump, is_unsaid_dump};
ghost use Rattle.volume_dump.specs.Saying.{EndsEntries, EndsEntry, EndsSaying, IsEntered, IsHeaded, IsUnread, LeavesSaying, SaysVolume, said_of, with_bytes};
ghost use Rattle.volume_dump.specs.declared.fault.DumpFault.TheVariants.{Output};

use crate::fault::{DumpFault, fault_of};
use crate::serials::is_in_span;
use crate::survey::Tally;
use dump_text::{end_of, front_of, head_of};
use fsd_formats::Entry;
use fsd_runs::Span;
use scrub::next_one;
use sector_disk::Machine;
use std::alloc::Global;
use volume_contract::Files;

fn say_part<M: Machine>(m: &mut M, bytes: &[u8]) -> Result<(), DumpFault>
    ensures fault { IfErr result (λ fault. fault ≡ Output) }
    ensures disk { ReadsAndSays M.Machine None (is_unsaid_dump result) (Utters bytes.now) m.old m.new }
    ensures said { OnOk result (M.honest m.new → Says bytes.now (M.now m.old) (M.now m.new)) }
{
    match m.say(bytes) {
        Ok(()) => Ok(()),
        Err(_) => Err(DumpFault::Output),
    }
}

// Says a version with these bytes.
fn say_item<M: Machine>(m: &mut M, e: &Entry, bytes: &[u8]) -> Result<(), DumpFault>
    requires entry { is_entry e.now ≡ true }
    requires long { length bytes.now < 2 ^ 32 }
    ensures fault { IfErr result (λ fault. fault ≡ Output) }
    ensures disk { ReadsAndSays M.Machine None (is_unsaid_dump result) (Utters (item_bytes (with_bytes e.now bytes.now))) m.old m.new }
    ensures said { OnOk result (M.honest m.new → Says (item_bytes (with_bytes e.now bytes.now)) (M.now m.old) (M.now m.new)) }
{
    let front = front_of(&e.key, e.keep as u16, bytes.len() as u32);
    match say_part(m, front.as_slice()) {
        Ok(()) => say_part(m, bytes),
        Err(fault) => Err(fault),
    }
}

// Reads all bytes of a version by its entry.
fn read_version<M: Machine, V: Files<M>>(
    alloc: Global,
    v: &mut V,
    m: &mut M,
    e: &Entry,
) -> Result<Vec<u8>, DumpFault>
    requires room { (V.state v.old).layout.sectors ≤ (M.report m.old).sectors }
    requires up { (V.state v.old).down ≡ None }
    requires met { IsMet (V.state v.old) e.now }
    ensures order { FollowsDump (V.state v.old) result }
    ensures reads { ReadsVolume M.Machine V.state V.holds (device_in_dump result) v.old v.new m.old m.new }
    ensures unsaid { is_unsaid_dump result ≡ false }
    ensures tells { M.honest m.new → TellsDump (V.state v.old).layout (M.now m.new).image result }
    ensures long { IfOk result (λ bytes. length bytes.items < 2 ^ 32) }
    ensures done { M.honest m.new → (k : Known) → Stands V.state V.holds v.old k (M.now m.old) → IsEntered e.now k → MatchResult result (λ bytes. bytes.items ≡ (dumped_of (volume_of k).files e.now).bytes) (IsUnread e.now (M.now m.new).image) }
{
    let Ok(mut bytes) = vec![in alloc; 0u8; e.length as usize] else {
        return Err(DumpFault::Memory);
    };
    match v.read_entry(m, e, 0, &mut bytes) {
        Ok(count) => {
            bytes.truncate(count as usize);
            Ok(bytes)
        }
        Err(why) => Err(fault_of(why)),
    }
}

// Says a version, where it is chosen: it is read whole before its first byte is said.
fn say_chosen<M: Machine, V: Files<M>>(
    alloc: Global,
    v: &mut V,
    m: &mut M,
    e: &Entry,
    span: Span,
) -> Result<(), DumpFault>
    requires room { (V.state v.old).layout.sectors ≤ (M.report m.old).sectors }
    requires up { (V.state v.old).down ≡ None }
    requires met { IsMet (V.state v.old) e.now }
    ensures order { FollowsDump (V.state v.old) result }
    ensures says { SaysVolume M.Machine V.state V.holds (device_in_dump result) (is_unsaid_dump result) (LeavesSaying V.state V.holds v.old (IsEntered e.now) (λ k. said_of span (volume_of k).files (e.now ∷ []))) v.old v.new m.old m.new }
    ensures tells { M.honest m.new → TellsDump (V.state v.old).layout (M.now m.new).image result }
    ensures done { M.honest m.new → (k : Known) → Stands V.state V.holds v.old k (M.now m.old) → IsEntered e.now k → EndsEntry span (volume_of k) e.now (M.now m.old) (M.now m.new) result }
{
    if !is_in_span(span, e.serial) {
        return Ok(());
    }
    match read_version(alloc, v, m, e) {
        Ok(bytes) => say_item(m, e, &bytes),
        Err(fault) => Err(fault),
    }
}

// Says all chosen versions.
fn say_versions<M: Machine, V: Files<M>>(
    alloc: Global,
    v: &mut V,
    m: &mut M,
    span: Span,
) -> Result<(), DumpFault>
    requires room { (V.state v.old).layout.sectors ≤ (M.report m.old).sectors }
    requires up { (V.state v.old).down ≡ None }
    ensures order { FollowsDump (V.state v.old) result }
    ensures says { SaysVolume M.Machine V.state V.holds (device_in_dump result) (is_unsaid_dump result) (LeavesSaying V.state V.holds v.old (λ k. ⊤) (λ k. said_of span (volume_of k).files (volume_of k).entries)) v.old v.new m.old m.new }
    ensures tells { M.honest m.new → TellsDump (V.state v.old).layout (M.now m.new).image result }
    ensures done { M.honest m.new → (k : Known) → Stands V.state V.holds v.old k (M.now m.old) → EndsEntries span (volume_of k) (M.now m.old) (M.now m.new) result }
{
    let mut last = None;
    for _ in 0..v.stat().versions {
        match next_one(v, m, &last) {
            Ok(Some(e)) => match say_chosen(alloc, v, m, &e, span) {
                Ok(()) => last = Some(e.key),
                Err(fault) => return Err(fault),
            },
            Ok(None) => return Ok(()),
            Err(why) => return Err(fault_of(why)),
        }
    }
    Ok(())
}

/// Says the dump of the versions that were surveyed, and answers how many they are.
pub(crate) fn say_all<M: Machine, V: Files<M>>(
    alloc: Global,
    v: &mut V,
    m: &mut M,
    span: Span,
    tally: Tally,
) -> Result<u32, DumpFault>
    requires room { (V.state v.old).layout.sectors ≤ (M.report m.old).sectors }
    requires up { (V.state v.old).down ≡ None }
    ensures order { FollowsDump (V.state v.old) result }
    ensures says { SaysVolume M.Machine V.state V.holds (device_in_dump result) (is_unsaid_dump result) (LeavesSaying V.state V.holds v.old (IsHeaded span tally) (λ k. concat (dump_of span (volume_of k)))) v.old v.new m.old m.new }
    ensures tells { M.honest m.new → TellsDump (V.state v.old).layout (M.now m.new).image result }
    ensures done { M.honest m.new → (k : Known) → Stands V.state V.holds v.old k (M.now m.old) → IsHeaded span tally k → EndsSaying span (volume_of k) (M.now m.old) (M.now m.new) tally.chosen result }
{
    match say_part(m, &head_of(tally.chosen, tally.latest)) {
        Ok(()) => match say_versions(alloc, v, m, span) {
            Ok(()) => match say_part(m, &end_of(tally.chosen)) {
                Ok(()) => Ok(tally.chosen),
                Err(fault) => Err(fault),
            },
            Err(fault) => Err(fault),
        },
        Err(fault) => Err(fault),
    }
}
