//! Damaged data sectors of versions.
ghost use Rattle.std.specs.Prelude.{◌≡◌, ◌+◌, ◌^◌, ◌≤◌, ◌<◌, ◌++◌, ◌∷◌, [], None, All, length, true, IfErr, OnErr, OnOk};
ghost use Rattle.sector_disk.specs.Calls.{device_in};
ghost use Rattle.fsd_formats.specs.NamePage.{is_entry};
ghost use Rattle.fsd_files.specs.Kept.{data_sectors};
ghost use Rattle.fsd_files.specs.Scrub.{all_data, data_of, slice_place};
ghost use Rattle.volume_contract.specs.Ends.{device_of};
ghost use Rattle.volume_contract.specs.Healing.{IsMet};
ghost use Rattle.volume_contract.specs.Order.{IsFetch, IsLookUp};
ghost use Rattle.volume_contract.specs.State.{Known, Stands, volume_of};
ghost use Rattle.scrub.specs.Looking.{Adds, AreDamaged, FindsIn};
ghost use Rattle.scrub.specs.Reading.{ReadsVolume};
ghost use Rattle.scrub.specs.Telling.{TellsOn};
ghost use Rattle.scrub.specs.Walk.{IsFromOutside};

use crate::walk::next_one;
use fsd_bytes::{Key, Refusal};
use fsd_formats::Entry;
use sector_disk::{Machine, Seen};
use std::alloc::AllocError;
use volume_contract::Files;

// Puts a data sector of a version behind those that were found.
fn put_found(e: &Entry, slice: u32, found: &mut Vec<(Key, u32)>) -> Result<(), AllocError>
    requires entry { is_entry e.now ≡ true }
    requires runs { All (λ r. r.start + r.length ≤ 2 ^ 32) e.now.runs }
    requires slice { slice < length (data_sectors e.now.runs) }
    ensures ok { OnOk result (found.new.items ≡ found.old.items ++ (e.now.key, slice_place e.now slice) ∷ []) }
    ensures err { OnErr result (found.new.items ≡ found.old.items) }
{
    let sector = e.runs.sector(slice + 1).unwrap();
    found.push((e.key.copied(), sector))?;
    Ok(())
}

// Looks at one data sector of a version.
fn look_at<M: Machine, V: Files<M>>(
    v: &mut V,
    m: &mut M,
    e: &Entry,
    slice: u32,
    found: &mut Vec<(Key, u32)>,
) -> Result<(), Refusal>
    requires room { (V.state v.old).layout.sectors ≤ (M.report m.old).sectors }
    requires up { (V.state v.old).down ≡ None }
    requires met { IsMet (V.state v.old) e.now }
    requires slice { slice < length (data_sectors e.now.runs) }
    ensures refusal { IfErr result IsFetch }
    ensures outside { IfErr result IsFromOutside }
    ensures reads { ReadsVolume M.Machine V.state V.holds (device_in device_of result) v.old v.new m.old m.new }
    ensures adds { M.honest m.new → Adds (M.now m.old).image (M.now m.new).image ((e.now.key, slice_place e.now slice) ∷ []) found.old.items found.new.items result }
{
    match v.probe(m, e, slice) {
        Ok(Seen::Whole) => Ok(()),
        Ok(Seen::Damaged) => match put_found(e, slice, found) {
            Ok(()) => Ok(()),
            Err(_) => Err(Refusal::Memory),
        },
        Err(why) => Err(why),
    }
}

/// Looks at the data of a version, and puts what is damaged behind what was found before, in order. Where it is refused,
/// what it has found up to there is put.
pub fn look_through<M: Machine, V: Files<M>>(
    v: &mut V,
    m: &mut M,
    e: &Entry,
    found: &mut Vec<(Key, u32)>,
) -> Result<(), Refusal>
    requires room { (V.state v.old).layout.sectors ≤ (M.report m.old).sectors }
    requires up { (V.state v.old).down ≡ None }
    requires met { IsMet (V.state v.old) e.now }
    ensures refusal { IfErr result IsFetch }
    ensures outside { IfErr result IsFromOutside }
    ensures reads { ReadsVolume M.Machine V.state V.holds (device_in device_of result) v.old v.new m.old m.new }
    ensures adds { M.honest m.new → Adds (M.now m.old).image (M.now m.new).image (data_of e.now) found.old.items found.new.items result }
{
    for slice in 0..e.runs.total() - 1 {
        look_at(v, m, e, slice, found)?;
    }
    Ok(())
}

/// Looks at the data of all versions, and lists what is damaged by key and then by place in the file.
pub(crate) fn look<M: Machine, V: Files<M>>(
    v: &mut V,
    m: &mut M,
    found: &mut Vec<(Key, u32)>,
) -> Result<(), Refusal>
    requires room { (V.state v.old).layout.sectors ≤ (M.report m.old).sectors }
    requires up { (V.state v.old).down ≡ None }
    requires none { found.old.items ≡ [] }
    ensures refusal { IfErr result IsLookUp }
    ensures reads { ReadsVolume M.Machine V.state V.holds (device_in device_of result) v.old v.new m.old m.new }
    ensures told { IfErr result (λ why. M.honest m.new → TellsOn (V.state v.old).layout (M.now m.new).image why) }
    ensures damaged { M.honest m.new → AreDamaged (V.state v.old).layout (M.now m.new).image found.new.items }
    ensures outside { M.honest m.new → (k : Known) → Stands V.state V.holds v.old k (M.now m.old) → IfErr result IsFromOutside }
    ensures done { M.honest m.new → (k : Known) → Stands V.state V.holds v.old k (M.now m.old) → FindsIn (M.now m.old).image (M.now m.new).image (all_data (volume_of k).entries) found.new.items result }
{
    let mut last = None;
    for _ in 0..v.stat().versions {
        match next_one(v, m, &last) {
            Ok(Some(e)) => match look_through(v, m, &e, found) {
                Ok(()) => last = Some(e.key),
                Err(why) => return Err(why),
            },
            Ok(None) => return Ok(()),
            Err(why) => return Err(why),
        }
    }
    Ok(())
}
