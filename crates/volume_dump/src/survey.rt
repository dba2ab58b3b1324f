//! A first reading of the versions: how many are chosen, the greatest serial, and what is damaged.
ghost use Rattle.std.specs.Prelude.{◌≡◌, ◌+◌, ◌^◌, ◌<◌, ◌≤◌, ◌∷◌, [], None, IfErr, IfOk};
ghost use Rattle.sector_disk.specs.Calls.{device_in};
ghost use Rattle.fsd_files.specs.Scrub.{all_data};
ghost use Rattle.fsd_runs.specs.Dumps.{chosen};
ghost use Rattle.volume_contract.specs.Ends.{device_of};
ghost use Rattle.volume_contract.specs.Healing.{IsMet};
ghost use Rattle.volume_contract.specs.Order.{Follows, IsFetch, IsLookUp, next_steps};
ghost use Rattle.volume_contract.specs.State.{Known, Stands, volume_of};
ghost use Rattle.scrub.specs.Looking.{Adds, AreDamaged};
ghost use Rattle.scrub.specs.Reading.{ReadsVolume};
ghost use Rattle.scrub.specs.Telling.{TellsOn};
ghost use Rattle.scrub.specs.Walk.{IsFromOutside};
ghost use Rattle.volume_dump.specs.Surveying.{CountsOne, EndsSurvey};

use crate::serials::{is_before, later_of, serial_lt};
use fsd_bytes::{Key, Refusal, Serial};
use fsd_formats::Entry;
use fsd_runs::Span;
use scrub::{look_through, next_one};
use sector_disk::Machine;
use volume_contract::Files;

/// How many versions are chosen, and the greatest serial of all in front of the end of the span.
#[derive(Clone, Copy)]
pub(crate) struct Tally {
    pub chosen: u32,
    pub latest: Serial,
}

// Surveys one version more.
fn survey_one<M: Machine, V: Files<M>>(
    v: &mut V,
    m: &mut M,
    e: &Entry,
    span: Span,
    so_far: Tally,
    found: &mut Vec<(Key, u32)>,
) -> Result<Tally, Refusal>
    requires room { (V.state v.old).layout.sectors ≤ (M.report m.old).sectors }
    requires up { (V.state v.old).down ≡ None }
    requires met { IsMet (V.state v.old) e.now }
    requires few { so_far.chosen + 1 < 2 ^ 32 }
    ensures refusal { IfErr result IsFetch }
    ensures outside { IfErr result IsFromOutside }
    ensures reads { ReadsVolume M.Machine V.state V.holds (device_in device_of result) v.old v.new m.old m.new }
    ensures counts { IfOk result (CountsOne span e.now so_far) }
    ensures damaged { M.honest m.new → AreDamaged (V.state v.old).layout (M.now m.old).image found.old.items → AreDamaged (V.state v.old).layout (M.now m.new).image found.new.items }
    ensures adds { M.honest m.new → Adds (M.now m.old).image (M.now m.new).image (all_data (chosen span (e.now ∷ []))) found.old.items found.new.items result }
{
    if !is_before(span.before, e.serial) {
        return Ok(so_far);
    }
    let latest = later_of(so_far.latest, e.serial);
    if !serial_lt(span.since, e.serial) {
        return Ok(Tally {
            chosen: so_far.chosen,
            latest,
        });
    }
    match look_through(v, m, e, found) {
        Ok(()) => Ok(Tally {
            chosen: so_far.chosen + 1,
            latest,
        }),
        Err(why) => Err(why),
    }
}

// Surveys all versions of a volume that is up.
fn survey_all<M: Machine, V: Files<M>>(
    v: &mut V,
    m: &mut M,
    span: Span,
    found: &mut Vec<(Key, u32)>,
) -> Result<Tally, Refusal>
    requires room { (V.state v.old).layout.sectors ≤ (M.report m.old).sectors }
    requires up { (V.state v.old).down ≡ None }
    requires none { found.old.items ≡ [] }
    ensures refusal { IfErr result IsLookUp }
    ensures reads { ReadsVolume M.Machine V.state V.holds (device_in device_of result) v.old v.new m.old m.new }
    ensures told { IfErr result (λ why. M.honest m.new → TellsOn (V.state v.old).layout (M.now m.new).image why) }
    ensures damaged { M.honest m.new → AreDamaged (V.state v.old).layout (M.now m.new).image found.new.items }
    ensures done { M.honest m.new → (k : Known) → Stands V.state V.holds v.old k (M.now m.old) → EndsSurvey span (volume_of k).entries (M.now m.old).image (M.now m.new).image found.new.items result }
{
    let mut so_far = Tally {
        chosen: 0,
        latest: Serial { epoch: 0, count: 0 },
    };
    let mut last = None;
    for _ in 0..v.stat().versions {
        match next_one(v, m, &last) {
            Ok(Some(e)) => match survey_one(v, m, &e, span, so_far, found) {
                Ok(more) => {
                    so_far = more;
                    last = Some(e.key);
                }
                Err(why) => return Err(why),
            },
            Ok(None) => return Ok(so_far),
            Err(why) => return Err(why),
        }
    }
    Ok(so_far)
}

/// Surveys all versions, and lists what is damaged of the chosen ones by key and then by place in the file. The first
/// look-up alone tells that a volume without versions is down.
pub(crate) fn survey<M: Machine, V: Files<M>>(
    v: &mut V,
    m: &mut M,
    span: Span,
    found: &mut Vec<(Key, u32)>,
) -> Result<Tally, Refusal>
    requires room { (V.state v.old).layout.sectors ≤ (M.report m.old).sectors }
    requires none { found.old.items ≡ [] }
    ensures order { Follows (next_steps (V.state v.old)) result }
    ensures reads { ReadsVolume M.Machine V.state V.holds (device_in device_of result) v.old v.new m.old m.new }
    ensures told { IfErr result (λ why. M.honest m.new → TellsOn (V.state v.old).layout (M.now m.new).image why) }
    ensures damaged { M.honest m.new → AreDamaged (V.state v.old).layout (M.now m.new).image found.new.items }
    ensures done { M.honest m.new → (k : Known) → Stands V.state V.holds v.old k (M.now m.old) → EndsSurvey span (volume_of k).entries (M.now m.old).image (M.now m.new).image found.new.items result }
{
    match next_one(v, m, &None) {
        Ok(_) => survey_all(v, m, span, found),
        Err(why) => Err(why),
    }
}
