//! Looking for the next record.
ghost use Rattle.std.specs.Prelude.{◌≡◌, ◌≤◌, ◌<◌, ◌+◌, ◌-◌, ◌*◌, List, length, IfOk, IfSome, IfNone, option_map};
ghost use Rattle.sector_disk.specs.Calls.{OnlyReads, device_in};
ghost use Rattle.volume_layout.specs.Kinds.{gap_of};
ghost use Rattle.fsd_log.specs.Scan.{IsEnd, place_of, tape, room_at, last_number, record_here, entered, next};
ghost use Rattle.log_thirds.specs.Copies.{AreCopies, entry_in};
ghost use Rattle.log_thirds.specs.Disk.{reads};
ghost use Rattle.log_thirds.specs.Seen.{SeesOn};
ghost use Rattle.sector_disk.specs.declared.sector.Sector.{Sector};
ghost use Rattle.sector_disk.specs.Image.{IsWorn, open_damage};
ghost use Rattle.log_thirds.specs.Reading.{FitsThere, StepsOn, read_failed_at, stepped_in, stepped_of};

use crate::copies::copies_in;
use crate::form::{judge, record_sectors};
use crate::reading::{ReadFault, Reading, read_record};
use fsd_formats::Anchor;
use log_record::{Found, Judged, RECORD_SECTORS};
use sector_disk::Machine;
use std::alloc::{AllocError, Global};
use volume_layout::Layout;

/// No record is ever given this number, and none is looked for.
const LAST_NUMBER: u32 = u32::MAX;

/// As many bytes as the copies of a record's images and of its end may have.
const COPIES_BYTES: usize = 49_664;

/// A place on the tape, and where its third ends.
#[derive(Clone, Copy)]
pub(crate) struct Spot {
    pub at: u32,
    pub end: u32,
}

/// A record that was found, where on the tape it begins, and where the head goes behind it.
#[derive(Drop)]
pub(crate) struct ScanStep {
    pub from: u32,
    pub found: Found,
    pub past: Spot,
}

impl ScanStep {
    ghost use Rattle.std.specs.Prelude.{◌≡◌, ◌+◌, ◌*◌, ◌≤◌};

    // The step to a record that was found at this place, in a third that ends there.
    fn over(layout: &Layout, found: Found, from: u32, end: u32) -> ScanStep
        requires { from + (2 * found.n + (5 + 2 * gap_of layout.now)) ≤ end }
        ensures { result ≡ record { from = from; found = found; past = record { at = from + (2 * found.n + (5 + 2 * gap_of layout.now)); end = end } } }
    {
        let at = from + record_sectors(layout, found.n);
        let past = Spot { at, end };
        ScanStep { from, found, past }
    }
}

/// What a scan reads into, made once: sectors, and of the record that was found last
/// the copies of its images and its end.
#[derive(Drop)]
pub(crate) struct Scratch {
    pub reading: Reading,
    pub copies: Vec<u8>,
}

impl Scratch {
    ghost use Rattle.std.specs.Prelude.{◌≡◌, [], IfOk};

    /// Room for the longest record.
    pub fn new(alloc: Global) -> Result<Scratch, AllocError>
        ensures { IfOk result (λ scratch. scratch.copies.items ≡ []) }
    {
        let reading = Reading::new(alloc)?;
        let copies = Vec::with_capacity(alloc, COPIES_BYTES)?;
        Ok(Scratch { reading, copies })
    }
}

/// Where a place on the tape lies on the disk.
pub(crate) fn place_of(layout: &Layout, first: u32, at: u32) -> u32
    requires first { first ≤ 2 }
    requires at { at ≤ 3 * layout.now.third }
    ensures { result ≡ place_of layout.now first at }
{
    let third = layout.third();
    let whole = 3 * third;
    let from = first * third + at;
    if from < whole {
        16 + from
    } else {
        16 + (from - whole)
    }
}

// As many sectors as a record may have, as far as the third goes.
fn room_at(at: u32, end: u32) -> u32
    requires { at ≤ end }
    ensures { result ≡ room_at at end }
{
    let left = end - at;
    left.min(RECORD_SECTORS)
}

// The record of this number that begins here.
fn find<M: Machine>(
    m: &mut M,
    layout: &Layout,
    anchor: &Anchor,
    number: u32,
    at: u32,
    end: u32,
    scratch: &mut Scratch,
) -> Result<Option<Found>, ReadFault>
    requires first { anchor.now.third ≤ 2 }
    requires before { at ≤ end }
    requires from { end ≤ at + layout.now.third }
    requires ends { IsEnd layout.now end }
    requires sectors { layout.now.sectors ≤ (M.report m.old).sectors }
    ensures reads { OnlyReads M.Machine (device_in read_failed_at result) m.old m.new }
    ensures found { IfOk result (λ o. IfSome o (FitsThere layout.now (record { epoch = anchor.now.epoch; number = number }) at end scratch.new.copies.items)) }
    ensures numbered { IfOk result (λ o. IfSome o (λ _. number < last_number)) }
    ensures kept { IfOk result (λ o. IfNone o (scratch.new.copies ≡ scratch.old.copies)) }
    ensures seen { IfOk result (λ o. (j : List Sector) → M.honest m.new → IsWorn (open_damage (M.now m.old).windows) j (M.now m.old).image
        → SeesOn layout.now anchor.now.third at (open_damage (M.now m.old).windows) j (M.now m.new).image
        (λ i. option_map (λ found. entry_in number found scratch.new.copies.items) o ≡ (record_here layout.now anchor.now.epoch (tape layout.now anchor.now.third (reads i)) number at end))) }
{
    if number == LAST_NUMBER {
        return Ok(None);
    }
    let room = room_at(at, end);
    let place = place_of(layout, anchor.third, at);
    let (p, epoch) = (layout.pages(), anchor.epoch);
    match read_record(
        m,
        layout,
        p,
        epoch,
        number,
        place,
        room,
        &mut scratch.reading,
    ) {
        Ok(()) => {}
        Err(fault) => return Err(fault),
    }
    let bytes = scratch.reading.bytes.as_slice();
    match judge(
        layout,
        scratch.reading.whole.as_slice(),
        bytes,
        p,
        epoch,
        number,
    ) {
        Judged::Good(found) => match copies_in(layout, &found, bytes, &mut scratch.copies) {
            Ok(()) => Ok(Some(found)),
            Err(_) => Err(ReadFault::Memory),
        },
        Judged::NotThere => Ok(None),
    }
}

// The next record, if it begins the next third.
fn enter<M: Machine>(
    m: &mut M,
    layout: &Layout,
    anchor: &Anchor,
    number: u32,
    at: u32,
    end: u32,
    scratch: &mut Scratch,
) -> Result<Option<ScanStep>, ReadFault>
    requires first { anchor.now.third ≤ 2 }
    requires before { at ≤ end }
    requires from { end ≤ at + layout.now.third }
    requires ends { IsEnd layout.now end }
    requires sectors { layout.now.sectors ≤ (M.report m.old).sectors }
    ensures reads { OnlyReads M.Machine (device_in read_failed_at result) m.old m.new }
    ensures goes { IfOk result (λ o. IfSome o (StepsOn layout.now at)) }
    ensures numbered { IfOk result (λ o. IfSome o (λ _. number < last_number)) }
    ensures copied { IfOk result (λ o. IfSome o (λ s. AreCopies (record { epoch = anchor.now.epoch; number = number }) (length s.found.pages.items) scratch.new.copies.items)) }
    ensures kept { IfOk result (λ o. IfNone o (scratch.new.copies ≡ scratch.old.copies)) }
    ensures seen { IfOk result (λ o. (j : List Sector) → M.honest m.new → IsWorn (open_damage (M.now m.old).windows) j (M.now m.old).image
        → SeesOn layout.now anchor.now.third end (open_damage (M.now m.old).windows) j (M.now m.new).image
        (λ i. option_map (stepped_in number scratch.new.copies.items) o ≡ option_map stepped_of
        (entered layout.now anchor.now.epoch (tape layout.now anchor.now.third (reads i)) (record { number = number; at = at; end = end })))) }
{
    let third = layout.third();
    if at == 0 || end >= 3 * third {
        return Ok(None);
    }
    match find(m, layout, anchor, number, end, end + third, scratch) {
        Ok(Some(found)) => Ok(Some(ScanStep::over(layout, found, end, end + third))),
        Ok(None) => Ok(None),
        Err(fault) => Err(fault),
    }
}

/// The next record.
pub(crate) fn next<M: Machine>(
    m: &mut M,
    layout: &Layout,
    anchor: &Anchor,
    number: u32,
    at: u32,
    end: u32,
    scratch: &mut Scratch,
) -> Result<Option<ScanStep>, ReadFault>
    requires first { anchor.now.third ≤ 2 }
    requires before { at ≤ end }
    requires from { end ≤ at + layout.now.third }
    requires ends { IsEnd layout.now end }
    requires sectors { layout.now.sectors ≤ (M.report m.old).sectors }
    ensures reads { OnlyReads M.Machine (device_in read_failed_at result) m.old m.new }
    ensures goes { IfOk result (λ o. IfSome o (StepsOn layout.now at)) }
    ensures numbered { IfOk result (λ o. IfSome o (λ _. number < last_number)) }
    ensures copied { IfOk result (λ o. IfSome o (λ s. AreCopies (record { epoch = anchor.now.epoch; number = number }) (length s.found.pages.items) scratch.new.copies.items)) }
    ensures kept { IfOk result (λ o. IfNone o (scratch.new.copies ≡ scratch.old.copies)) }
    ensures seen { IfOk result (λ o. (j : List Sector) → M.honest m.new → IsWorn (open_damage (M.now m.old).windows) j (M.now m.old).image
        → SeesOn layout.now anchor.now.third at (open_damage (M.now m.old).windows) j (M.now m.new).image
        (λ i. option_map (stepped_in number scratch.new.copies.items) o ≡ option_map stepped_of
        (next layout.now anchor.now.epoch (tape layout.now anchor.now.third (reads i)) (record { number = number; at = at; end = end })))) }
{
    match find(m, layout, anchor, number, at, end, scratch) {
        Ok(Some(found)) => Ok(Some(ScanStep::over(layout, found, at, end))),
        Ok(None) => enter(m, layout, anchor, number, at, end, scratch),
        Err(fault) => Err(fault),
    }
}
