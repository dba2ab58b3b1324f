//! The span of a dump that has so many bytes at most.
ghost use Rattle.std.specs.Prelude.{◌≡◌, ◌≤◌, ◌<◌, ◌^◌, ◌++◌, ◌∷◌, [], All, None, true, IfErr, IfOk, OnErr, OnOk};
ghost use Rattle.sector_disk.specs.Calls.{device_in};
ghost use Rattle.fsd_formats.specs.NamePage.{is_entry};
ghost use Rattle.fsd_runs.specs.Dumps.{weights_since};
ghost use Rattle.volume_contract.specs.Ends.{device_of};
ghost use Rattle.volume_contract.specs.Order.{Follows, IsLookUp, next_steps};
ghost use Rattle.volume_contract.specs.State.{Known, Stands, volume_of};
ghost use Rattle.scrub.specs.Reading.{ReadsVolume};
ghost use Rattle.scrub.specs.Telling.{TellsOn};
ghost use Rattle.volume_dump.specs.Spanning.{EndsSpan, FollowsSpan};
ghost use Rattle.volume_dump.specs.Weighing.{AreFew, EndsWeighing};

use crate::serials::serial_lt;
use crate::weights::{span_over, weight_of};
use fsd_bytes::{Refusal, Serial};
use fsd_formats::Entry;
use fsd_runs::{Span, Weight};
use scrub::next_one;
use sector_disk::Machine;
use std::alloc::{AllocError, Global};
use volume_contract::Files;

// Weighs one version more, where it is behind the serial.
fn weigh_one(e: &Entry, since: Serial, weights: &mut Vec<Weight>) -> Result<(), AllocError>
    requires { is_entry e.now ≡ true }
    ensures small { All (λ w. w.bytes < 2 ^ 22) weights.old.items → All (λ w. w.bytes < 2 ^ 22) weights.new.items }
    ensures ok { OnOk result (weights.new.items ≡ weights.old.items ++ weights_since since (e.now ∷ [])) }
{
    if serial_lt(since, e.serial) {
        weights.push(weight_of(e))?;
    }
    Ok(())
}

// Weighs all versions behind the serial, of a volume that is up.
fn weigh_all<M: Machine, V: Files<M>>(
    v: &mut V,
    m: &mut M,
    since: Serial,
    weights: &mut Vec<Weight>,
) -> Result<(), Refusal>
    requires room { (V.state v.old).layout.sectors ≤ (M.report m.old).sectors }
    requires up { (V.state v.old).down ≡ None }
    requires none { weights.old.items ≡ [] }
    ensures refusal { IfErr result IsLookUp }
    ensures reads { ReadsVolume M.Machine V.state V.holds (device_in device_of result) v.old v.new m.old m.new }
    ensures tells { IfErr result (λ why. M.honest m.new → TellsOn (V.state v.old).layout (M.now m.new).image why) }
    ensures few { OnOk result (AreFew weights.new.items) }
    ensures done { M.honest m.new → (k : Known) → Stands V.state V.holds v.old k (M.now m.old) → EndsWeighing since (volume_of k).entries weights.new.items result }
{
    let mut last = None;
    for _ in 0..v.stat().versions {
        match next_one(v, m, &last) {
            Ok(Some(e)) => match weigh_one(&e, since, weights) {
                Ok(()) => last = Some(e.key),
                Err(_) => return Err(Refusal::Memory),
            },
            Ok(None) => return Ok(()),
            Err(why) => return Err(why),
        }
    }
    Ok(())
}

// Weighs all versions behind the serial. The first look-up alone tells that a volume without versions is down.
fn weigh<M: Machine, V: Files<M>>(
    v: &mut V,
    m: &mut M,
    since: Serial,
    weights: &mut Vec<Weight>,
) -> Result<(), Refusal>
    requires room { (V.state v.old).layout.sectors ≤ (M.report m.old).sectors }
    requires none { weights.old.items ≡ [] }
    ensures order { Follows (next_steps (V.state v.old)) result }
    ensures reads { ReadsVolume M.Machine V.state V.holds (device_in device_of result) v.old v.new m.old m.new }
    ensures tells { IfErr result (λ why. M.honest m.new → TellsOn (V.state v.old).layout (M.now m.new).image why) }
    ensures few { OnOk result (AreFew weights.new.items) }
    ensures done { M.honest m.new → (k : Known) → Stands V.state V.holds v.old k (M.now m.old) → EndsWeighing since (volume_of k).entries weights.new.items result }
{
    match next_one(v, m, &None) {
        Ok(_) => weigh_all(v, m, since, weights),
        Err(why) => Err(why),
    }
}

/// The span behind a serial whose dump has `most` bytes at most: of the versions those that were made first. TooLong tells
/// how many bytes the dump of the first one has, where that is more. It holds 16 bytes for each version behind it.
pub fn span_in<M: Machine, V: Files<M>>(
    alloc: Global,
    v: &mut V,
    m: &mut M,
    since: Serial,
    most: u32,
) -> Result<Span, Refusal>
    requires { (V.state v.old).layout.sectors ≤ (M.report m.old).sectors }
    ensures order { FollowsSpan (V.state v.old) most result }
    ensures behind { IfOk result (λ span. span.since ≡ since) }
    ensures reads { ReadsVolume M.Machine V.state V.holds (device_in device_of result) v.old v.new m.old m.new }
    ensures tells { IfErr result (λ why. M.honest m.new → TellsOn (V.state v.old).layout (M.now m.new).image why) }
    ensures done { M.honest m.new → (k : Known) → Stands V.state V.holds v.old k (M.now m.old) → EndsSpan since most (volume_of k).entries result }
{
    let mut weights = Vec::new(alloc);
    match weigh(v, m, since, &mut weights) {
        Ok(()) => match span_over(&mut weights, since, most as u64) {
            Ok(span) => Ok(span),
            Err(need) => Err(Refusal::TooLong(need)),
        },
        Err(why) => Err(why),
    }
}
