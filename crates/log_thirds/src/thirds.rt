//! The log, and where its next record goes.
use crate::anchors::{find_anchor, write_anchor};
use crate::closing::close_both;
use crate::fault::LogFault;
use crate::find::{ScanStep, Scratch, next, place_of};
use crate::firsts::Firsts;
use crate::form::{copies_place, record_sectors};
use crate::images::read_slot;
use crate::moving::next_third;
use crate::reading::ReadFault;
use crate::slots::{clear, drop_in, has_some, least_in, no_slots, note};
use crate::write::write_record;
use fsd_formats::Anchor;
use fsd_log::Slot;
use log_record::RECORD_BYTES;
use sector_disk::{Failed, LoadFault, Machine, write_sectors};
use std::alloc::Global;
use std::marker::Model;
use volume_layout::{Kind, Layout};

/// Where a record of some pages goes.
#[derive(Clone, Copy, Debug, PartialEq)]
pub enum Place {
    /// Behind the last record, in the same third.
    Here,
    /// At the start of the next third.
    NextThird,
    /// The anchor's first third would be entered, which is this one.
    FirstThird(u32),
}

/// The last record that the scan found: where on the disk its pages' copies begin, and how many pages it has.
#[derive(Clone, Copy, Debug, PartialEq)]
pub struct LastRecord {
    pub copies_at: u32,
    pub pages: u32,
}

/// The log of a volume, as far as its end is known: where the next record goes, and which number it bears. It knows
/// where each page's last image lies, keeps the last record's images and end as the scan read them, and holds room for
/// one record, so that only `scan` takes memory.
#[derive(Drop)]
pub struct Log {
    layout: Layout,
    anchor: Anchor,
    number: u32,
    at: u32,
    end: u32,
    firsts: Firsts,
    slots: Vec<Option<Slot>>,
    copies_at: u32,
    copies: Vec<u8>,
    buffer: Vec<u8>,
}

impl Model for Log {
    ghost use Rattle.log_thirds.specs.LogValue.{LogValue, IsShaped};

    ghost Value = { LogValue };

    ghost view = { λ s. record { layout = s.layout; anchor = s.anchor; head = record { number = s.number; at = s.at; end = s.end }; firsts = s.firsts; slots = s.slots.items; copies = record { place = s.copies_at; bytes = s.copies.items } } };

    ghost invariant = { λ s. IsShaped s.layout s.anchor (record { number = s.number; at = s.at; end = s.end }) s.firsts s.slots.items (record { place = s.copies_at; bytes = s.copies.items }) s.buffer.items };
}

impl Log {
    ghost use Rattle.std.specs.List.{list_any};
    ghost use Rattle.std.specs.Prelude.{◌≡◌, ◌⊎◌, ◌≤◌, ◌<◌, ◌↔◌, ◌+◌, ◌-◌, ◌*◌, ◌^◌, [], List, is_some, length, Some, None, Ok, Err, true, false, replicate, slice_index_or, IsTrue, IfErr, IfOk, IfSome, IfNone, OnOk, OnErr};
    ghost use Rattle.sector_disk.specs.Calls.{OnlyReads, WritesDisk, device_in, failed_at, load_failed_at};
    ghost use Rattle.sector_disk.specs.declared.sector.Sector.{Sector};
    ghost use Rattle.sector_disk.specs.Image.{stand, IsWorn, open_damage};
    ghost use Rattle.log_thirds.specs.Seen.{ScansOn};
    ghost use Rattle.sector_disk.specs.Machine.{Holds, wrote};
    ghost use Rattle.sector_disk.specs.Written.{WroteMost};
    ghost use Rattle.fsd_formats.specs.Record.{max_pages, are_pages, AreStamped};
    ghost use Rattle.log_record.specs.declared.judging.TheConstants.{RECORD_BYTES};
    ghost use Rattle.fsd_log.specs.Laid.{slices};
    ghost use Rattle.fsd_log.specs.Scan.{Placed, HasRoom, spot_for, place_of};
    ghost use Rattle.log_thirds.specs.LogValue.{FitsLayout};
    ghost use Rattle.fsd_log.specs.Slots.{IsLeastIn, NoneLiesIn};
    ghost use Rattle.volume_layout.specs.Layout.{third_start, with_sectors};
    ghost use Rattle.log_thirds.specs.Images.{StandsInSlot};
    ghost use Rattle.log_thirds.specs.Giving.{GivesImage, LacksImage, LosesImage, Scans};
    ghost use Rattle.fsd_log.specs.Images.{last_image};
    ghost use Rattle.log_thirds.specs.Copies.{copies_count, IsLast};
    ghost use Rattle.log_thirds.specs.Append.{Appends, AppendsNone, GoesAt, HasNoPages, IsIndexed, IsLeastOfThird, LeavesLog, NoneOfThird, StandsInPart, WritesRecord, of_kind, of_layout, stamp_now};
    ghost use Rattle.log_thirds.specs.Anchoring.{AnchorsIn, ClosesIn, with_anchors, with_closed, next_epoch, in_next_epoch};
    ghost use Rattle.log_thirds.specs.Moving.{EndsInLastThird, LeavesMoved, Moves, moved_anchor};
    ghost use Rattle.log_thirds.specs.Reading.{SeesAnchor, SeesLastEpoch, log_failed_at, read_failed_at};

    /// The form of the next records. The log holds no record yet.
    pub fn set_kind(&mut self, kind: Kind)
        requires { HasNoPages self.old }
        ensures { self.new ≡ of_kind kind self.old }
    {
        self.layout = self.layout.with_kind(kind);
    }

    /// The volume has this layout, that of more sectors; the log lies where it did.
    pub fn set_layout(&mut self, layout: Layout)
        requires form { layout ≡ with_sectors layout.sectors self.old.layout }
        requires longer { self.old.layout.sectors ≤ layout.sectors }
        ensures { self.new ≡ of_layout layout self.old }
    {
        self.layout = layout;
    }

    // Finds the end of the log that begins with this anchor's first record.
    fn scan_by<M: Machine>(
        alloc: Global,
        m: &mut M,
        layout: &Layout,
        anchor: &Anchor,
    ) -> Result<Log, ReadFault>
        requires third { anchor.now.third ≤ 2 }
        requires first { 1 ≤ anchor.now.first }
        requires epoch { 1 ≤ anchor.now.epoch }
        requires sectors { layout.now.sectors ≤ (M.report m.old).sectors }
        ensures reads { OnlyReads M.Machine (device_in read_failed_at result) m.old m.new }
        ensures layout { IfOk result (λ log. log.layout ≡ layout.now) }
        ensures anchor { IfOk result (λ log. log.anchor ≡ anchor.now) }
        ensures seen { IfOk result (λ log. (j : List Sector) → M.honest m.new → IsWorn (open_damage (M.now m.old).windows) j (M.now m.old).image → ScansOn log (open_damage (M.now m.old).windows) j (M.now m.new).image) }
    {
        let buffer = match vec![in alloc; 0u8; RECORD_BYTES] {
            Ok(buffer) => buffer,
            Err(_) => return Err(ReadFault::Memory),
        };
        let slots = match no_slots(alloc, layout.pages()) {
            Ok(slots) => slots,
            Err(_) => return Err(ReadFault::Memory),
        };
        let scratch = match Scratch::new(alloc) {
            Ok(scratch) => scratch,
            Err(_) => return Err(ReadFault::Memory),
        };
        Log::scan_into(m, layout, anchor, buffer, slots, scratch)
    }

    // The same into a table of no slots, by a scratch that has no copies yet.
    fn scan_into<M: Machine>(
        m: &mut M,
        layout: &Layout,
        anchor: &Anchor,
        buffer: Vec<u8>,
        mut slots: Vec<Option<Slot>>,
        mut scratch: Scratch,
    ) -> Result<Log, ReadFault>
        requires third { anchor.now.third ≤ 2 }
        requires first { 1 ≤ anchor.now.first }
        requires epoch { 1 ≤ anchor.now.epoch }
        requires sectors { layout.now.sectors ≤ (M.report m.old).sectors }
        requires long { length buffer.items ≡ RECORD_BYTES }
        requires slots { slots.items ≡ replicate layout.now.pages None }
        requires copies { scratch.copies.items ≡ [] }
        ensures reads { OnlyReads M.Machine (device_in read_failed_at result) m.old m.new }
        ensures layout { IfOk result (λ log. log.layout ≡ layout.now) }
        ensures anchor { IfOk result (λ log. log.anchor ≡ anchor.now) }
        ensures seen { IfOk result (λ log. (j : List Sector) → M.honest m.new → IsWorn (open_damage (M.now m.old).windows) j (M.now m.old).image → ScansOn log (open_damage (M.now m.old).windows) j (M.now m.new).image) }
    {
        let third = layout.third();
        let mut copies_at = 0;
        let mut number = anchor.first;
        let mut at = 0;
        let mut end = third;
        let mut firsts = Firsts::of(number);
        loop {
            match next(m, layout, anchor, number, at, end, &mut scratch) {
                Ok(Some(ScanStep { from, found, past })) => {
                    let place = place_of(layout, anchor.third, from);
                    let pages = found.pages.as_slice();
                    note(slots.as_mut_slice(), layout, number, place, pages);
                    copies_at = copies_place(layout, place, found.pages.len() as u32);
                    firsts = firsts.with(third, from);
                    number += 1;
                    at = past.at;
                    end = past.end;
                }
                Ok(None) => {
                    return Ok(Log {
                        layout: *layout,
                        anchor: *anchor,
                        number,
                        at,
                        end,
                        firsts,
                        slots,
                        copies_at,
                        copies: scratch.copies,
                        buffer,
                    });
                }
                Err(fault) => return Err(fault),
            }
        }
    }

    /// Finds the end of the log that the newer copy of the anchor begins. A number of 2^32 - 1 is never looked for,
    /// since no record bears it. Reads the headers of each record and then its own sectors alone, each once. Needs room
    /// for three records, and for a table of the pages; it is made before the first record is looked for.
    pub fn scan<M: Machine>(alloc: Global, m: &mut M, layout: &Layout) -> Result<Log, LogFault>
        requires sectors { layout.now.sectors ≤ (M.report m.old).sectors }
        ensures reads { OnlyReads M.Machine (device_in log_failed_at result) m.old m.new }
        ensures no_anchor { result ≡ Err LogFault.NoAnchor → M.honest m.new → SeesAnchor (M.now m.old) None }
        ensures worn_out { result ≡ Err LogFault.WornOut → M.honest m.new → SeesLastEpoch (M.now m.old) }
        ensures found { IfOk result (Scans M.Machine layout.now m.old m.new) }
    {
        // For the proof alone: its own call tells how long a layout is at least.
        let _sectors = layout.sectors();
        let anchor = match find_anchor(m) {
            Ok(Some(anchor)) => anchor,
            Ok(None) => return Err(LogFault::NoAnchor),
            Err(fault) => return Err(LogFault::Read(fault)),
        };
        if anchor.epoch == u32::MAX {
            return Err(LogFault::WornOut);
        }
        match Log::scan_by(alloc, m, layout, &anchor) {
            Ok(log) => Ok(log),
            Err(fault) => Err(LogFault::Read(fault)),
        }
    }

    /// For the proof alone: it gives what a log keeps.
    pub fn attest(&self)
        ensures { FitsLayout self.now }
    {
        let _epoch = self.anchor.epoch;
        let _number = self.number;
        let _pages = self.layout.pages();
    }

    /// The layout of the volume.
    pub fn layout(&self) -> &Layout
        ensures value { result.now ≡ self.now.layout }
        ensures shape { FitsLayout self.now }
    {
        self.attest();
        &self.layout
    }

    /// The epoch of the next record.
    pub fn epoch(&self) -> u32
        ensures { result ≡ self.now.anchor.epoch }
    {
        self.anchor.epoch
    }

    /// The number of the next record.
    pub fn next_number(&self) -> u32
        ensures { result ≡ self.now.head.number }
    {
        self.number
    }

    /// Where a record of `n` pages goes.
    pub fn room(&self, n: u32) -> Place
        requires { n ≤ max_pages }
        ensures { GoesAt self.now n result }
    {
        let third = self.layout.third();
        if self.at + (2 * n + (5 + 2 * self.layout.kind().more())) <= self.end {
            Place::Here
        } else if self.end < 3 * third {
            Place::NextThird
        } else {
            Place::FirstThird(self.anchor.third)
        }
    }

    // Where a record of n pages goes on the tape.
    fn spot(&self, n: u32) -> (u32, u32)
        requires few { n ≤ max_pages }
        requires room { HasRoom self.now.layout n self.now.head }
        ensures at { result.0 ≡ (spot_for self.now.layout n self.now.head).at }
        ensures end { result.1 ≡ (spot_for self.now.layout n self.now.head).end }
    {
        let third = self.layout.third();
        if self.at + (2 * n + (5 + 2 * self.layout.kind().more())) <= self.end {
            (self.at, self.end)
        } else {
            (self.end, self.end + third)
        }
    }

    /// The least page from `first` on whose last image lies in this third of the disk.
    pub fn pages_of_third(&self, t: u32, first: u32) -> Option<u32>
        requires { t < 3 }
        ensures least { (records : List Placed) → IsIndexed self.now records → IfSome result (IsLeastOfThird self.now records t first) }
        ensures none { (records : List Placed) → IsIndexed self.now records → IfNone result (NoneOfThird self.now records t first) }
        ensures slot { IfSome result (IsLeastIn self.now.slots first (third_start self.now.layout t) self.now.layout.third) }
        ensures no_slot { IfNone result (NoneLiesIn self.now.slots first (third_start self.now.layout t) self.now.layout.third) }
    {
        let third = self.layout.third();
        // For the proof alone: its own call tells that a layout is planned.
        let _pages = self.layout.pages();
        let start = self.layout.third_start(t);
        least_in(self.slots.as_slice(), first, start, third)
    }

    /// Whether the log has a page.
    pub fn has_pages(&self) -> bool
        ensures { result ≡ list_any is_some self.now.slots }
    {
        has_some(self.slots.as_slice())
    }

    /// Whether the log has this page.
    pub fn has(&self, page: u32) -> bool
        requires { page < self.now.layout.pages }
        ensures slot { (result ≡ false) ↔ (slice_index_or self.now.slots page None ≡ None) }
        ensures nowhere { result ≡ false → (records : List Placed) → IsIndexed self.now records → last_image page records ≡ None }
    {
        self.slots[page as usize].is_some()
    }

    /// Reads a page's last image, and answers false where the log has none. Its sector is taken where that bears the
    /// page and the stamp of its record, else the copy where that does. It is lost exactly where both read damaged.
    /// Where the disk no longer is what the log was found on, one of them may be whole and bear something else: then
    /// that is what it gives. Where nothing wears and a scan still gives the log's records, none is lost.
    pub fn image_of<M: Machine>(
        &self,
        m: &mut M,
        page: u32,
        buf: &mut [u8; 512],
    ) -> Result<bool, LoadFault>
        requires page { page < self.now.layout.pages }
        requires sectors { self.now.layout.sectors ≤ (M.report m.old).sectors }
        ensures reads { OnlyReads M.Machine (device_in load_failed_at result) m.old m.new }
        ensures absent { (result ≡ Ok false) ↔ (slice_index_or self.now.slots page None ≡ None) }
        ensures whole { result ≡ Ok true → M.honest m.new → StandsInSlot (slice_index_or self.now.slots page None) (M.now m.old).image buf.new }
        ensures gives { IfOk result (GivesImage M.Machine self.now page m.old m.new buf.new) }
        ensures lacks { result ≡ Ok false → LacksImage self.now page buf.old buf.new }
        ensures failed { IfErr result (LosesImage M.Machine self.now page m.old m.new buf.old buf.new) }
    {
        match self.slots[page as usize] {
            Some(slot) => match read_slot(m, slot, page, self.anchor.epoch) {
                Ok(Some(image)) => {
                    *buf = image;
                    Ok(true)
                }
                Ok(None) => Err(LoadFault::Lost {
                    a: slot.place,
                    b: slot.copy,
                }),
                Err(failed) => Err(LoadFault::Device(failed.place)),
            },
            None => Ok(false),
        }
    }

    /// The last record that the scan found, if it found one.
    pub fn last(&self) -> Option<LastRecord>
        ensures none { IfNone result (self.now.copies.bytes ≡ []) }
        ensures some { IfSome result (IsLast self.now.copies) }
    {
        let count = self.copies.len() / 512;
        if count == 0 {
            return None;
        }
        Some(LastRecord {
            copies_at: self.copies_at,
            pages: (count - 1) as u32,
        })
    }

    /// Writes the last record that the scan found again, from its page copies to its end copy, by one write; nothing
    /// where it found none. Where it fails, some first ones of these sectors may stand.
    pub fn complete_last<M: Machine>(&self, m: &mut M) -> Result<(), Failed>
        requires sectors { self.now.layout.sectors ≤ (M.report m.old).sectors }
        ensures writes { WritesDisk M.Machine (device_in failed_at result) (StandsInPart self.now.copies.place self.now.copies.bytes (copies_count self.now.copies)) m.old m.new }
        ensures counted { OnOk result (M.tells m.new → M.ledger m.new ≡ wrote (M.ledger m.old) (copies_count self.now.copies)) }
        ensures counted_err { OnErr result (M.tells m.new → M.ledger m.new ≡ M.ledger m.old) }
        ensures few { copies_count self.now.copies ≤ 97 }
        ensures done { OnOk result (M.honest m.new → Holds (M.now m.old) (stand (M.now m.old).image self.now.copies.place self.now.copies.bytes (copies_count self.now.copies)) (M.now m.new)) }
    {
        if self.copies.is_empty() {
            return Ok(());
        }
        write_sectors(m, self.copies_at, self.copies.as_slice())
    }

    // Where a place on the tape lies on the disk.
    fn place(&self, at: u32) -> u32
        requires { at ≤ 3 * self.now.layout.third }
        ensures { result ≡ place_of self.now.layout self.now.anchor.third at }
    {
        place_of(&self.layout, self.anchor.third, at)
    }

    /// Writes a record behind the last one, by one write: in the same third where it fits, else at the start of the
    /// next. The images bear the log's epoch and next number. Where it fails, some first sectors of the record may
    /// stand, and only a new scan says whether the record does.
    pub fn append<M: Machine>(
        &mut self,
        m: &mut M,
        pages: &[u32],
        images: &[u8],
    ) -> Result<(), Failed>
        requires pages { IsTrue (are_pages self.old.layout.pages pages.now) }
        requires images { length images.now ≡ 512 * length pages.now }
        requires stamped { AreStamped (stamp_now self.old) pages.now (slices (length pages.now) images.now) }
        requires room { HasRoom self.old.layout (length pages.now) self.old.head }
        requires numbered { self.old.head.number < 2 ^ 32 - 1 }
        requires sectors { self.old.layout.sectors ≤ (M.report m.old).sectors }
        ensures writes { WritesDisk M.Machine (device_in failed_at result) (WritesRecord self.old pages.now images.now) m.old m.new }
        ensures worn_moment { LeavesLog M.Machine self.old pages.now images.now m.old m.new }
        ensures shape { FitsLayout self.old }
        ensures done { OnOk result (Appends M.Machine self.old self.new pages.now images.now m.old m.new) }
        ensures failed { OnErr result (AppendsNone M.Machine self.old self.new m.old m.new) }
    {
        let (at, end) = self.spot(pages.len() as u32);
        let place = self.place(at);
        write_record(
            m,
            &self.layout,
            place,
            self.anchor.epoch,
            self.number,
            pages,
            images,
            self.buffer.as_mut_slice(),
        )?;
        let layout = self.layout;
        note(
            self.slots.as_mut_slice(),
            &layout,
            self.number,
            place,
            pages,
        );
        self.firsts = self.firsts.with(self.layout.third(), at);
        self.number += 1;
        self.at = at + record_sectors(&layout, pages.len() as u32);
        self.end = end;
        Ok(())
    }

    /// Writes the anchor of the next epoch, whose log is empty, to its first place and then to its second. Where it
    /// fails the log is as it was, and either anchor may stand.
    pub fn new_epoch<M: Machine>(&mut self, m: &mut M) -> Result<(), Failed>
        requires epoch { self.old.anchor.epoch < 2 ^ 32 - 1 }
        requires sectors { self.old.layout.sectors ≤ (M.report m.old).sectors }
        ensures writes { WritesDisk M.Machine (device_in failed_at result) (AnchorsIn (next_epoch self.old)) m.old m.new }
        ensures counted { OnOk result (M.tells m.new → M.ledger m.new ≡ wrote (M.ledger m.old) 2) }
        ensures most { M.tells m.new → (M.ledger m.new).written ≤ (M.ledger m.old).written + 2 }
        ensures done { OnOk result (M.honest m.new → Holds (M.now m.old) (with_anchors (next_epoch self.old) (M.now m.old).image 1 1) (M.now m.new)) }
        ensures past { OnOk result (self.new ≡ in_next_epoch self.old) }
        ensures kept { OnErr result (self.new ≡ self.old) }
    {
        // For the proof alone: its own call tells how long a layout is at least.
        let _sectors = self.layout.sectors();
        let third = self.layout.third();
        let anchor = Anchor {
            epoch: self.anchor.epoch + 1,
            third: 0,
            first: 1,
        };
        write_anchor(m, &anchor)?;
        clear(self.slots.as_mut_slice());
        self.copies.clear();
        self.anchor = anchor;
        self.firsts = Firsts::of(1);
        self.number = 1;
        self.at = 0;
        self.end = third;
        Ok(())
    }

    /// Writes the log's anchor once more, to its first place and then to its second: it says there that the volume was
    /// closed. Where it fails either may stand.
    pub fn close_anchor<M: Machine>(&self, m: &mut M) -> Result<(), Failed>
        requires sectors { self.now.layout.sectors ≤ (M.report m.old).sectors }
        ensures writes { WritesDisk M.Machine (device_in failed_at result) (ClosesIn self.now.anchor) m.old m.new }
        ensures place { IfErr result (λ failed. (failed.place ≡ 8) ⊎ (failed.place ≡ 12)) }
        ensures counted { OnOk result (M.tells m.new → M.ledger m.new ≡ wrote (M.ledger m.old) 2) }
        ensures least { M.tells m.new → (M.ledger m.old).written ≤ (M.ledger m.new).written }
        ensures most { M.tells m.new → (M.ledger m.new).written ≤ (M.ledger m.old).written + 2 }
        ensures done { OnOk result (M.honest m.new → Holds (M.now m.old) (with_closed self.now.anchor (M.now m.old).image 1 1) (M.now m.new)) }
    {
        close_both(m, &self.anchor)
    }

    /// Writes the anchor that names the third behind the first one, to its first place and then to its second; the log
    /// is then what lies behind the first third, which may be written over. The log's last record lies in its last
    /// third. Where it fails the log is as it was, and either anchor may stand.
    pub fn move_anchor<M: Machine>(&mut self, m: &mut M) -> Result<(), Failed>
        requires ends { EndsInLastThird self.old }
        requires sectors { self.old.layout.sectors ≤ (M.report m.old).sectors }
        ensures writes { WritesDisk M.Machine (device_in failed_at result) (AnchorsIn (moved_anchor self.old)) m.old m.new }
        ensures counted { M.tells m.new → WroteMost 2 (M.ledger m.old) (M.ledger m.new) }
        ensures worn_moment { LeavesMoved M.Machine self.old m.old m.new }
        ensures done { OnOk result (Moves M.Machine self.old self.new m.old m.new) }
        ensures kept { OnErr result (self.new ≡ self.old) }
    {
        let third = self.layout.third();
        let start = self.layout.third_start(self.anchor.third);
        let anchor = Anchor {
            epoch: self.anchor.epoch,
            third: next_third(self.anchor.third),
            first: self.firsts.second,
        };
        write_anchor(m, &anchor)?;
        drop_in(self.slots.as_mut_slice(), start, third);
        self.firsts = Firsts {
            second: self.firsts.last,
            last: self.number,
        };
        self.anchor = anchor;
        self.at -= third;
        self.end -= third;
        Ok(())
    }
}
