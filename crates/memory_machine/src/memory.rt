//! The outside in memory. It keeps a record of its calls, from which the moments since an earlier one are read.
ghost use Rattle.std.specs.Prelude.{◌≡◌, true, false, is_ok, is_some, slice_index, slice_get, map, replicate, if◌then◌else◌, ◌+◌, ◌-◌, ◌/◌, ◌^◌, ◌<◌, ◌≤◌, ◌++◌, min, IsTrue, ◌&&◌, length, IfOk, IfSome, IfNone, OnOk, OnErr};
ghost use Rattle.std.specs.List.{list_any};
ghost use Rattle.std.specs.Vec.{vec_len, vec_capacity};
ghost use Rattle.sector_disk.specs.Machine.{GivesAsked, Wears};
ghost use Rattle.memory_machine.specs.Events.{counts_at};
ghost use Rattle.memory_machine.specs.Past.{due};
ghost use Rattle.memory_machine.specs.Windows.{all_weak, is_short};
ghost use Rattle.memory_machine.specs.State.{Exactly, Calls, Attached, Enlarged, write_verdict, next_verdict, call_goes, put_sectors, waits_behind, noted, flushed, same, spoken, from_first, one_more};
ghost use Rattle.memory_machine.specs.Memory.{memory_now, memory_report, memory_state, memory_begun, IsWriting, IsAttaching, IsFresh, Notes, Refuses, Fails, Passes, Reached, Spoken, Flushed, Stood, Widened, Opened, NotOpened, IsMade, pair_at, first_window, has_stopped, memory_honest, IsHonest, memory_starved, memory_line, has_short_runs};

mod calls;
mod left;

use crate::event::{Event, Verdict, Write, call_verdict_of, counts_at, verdict_of};
use crate::past::{Hurt, Step, Work, begun_at, due_hurts, hurt_all, stand};
use crate::windows::{are_weak, is_short};
use sector_disk::{Attach, Failed, Sector, WeakRun};
use std::alloc::{AllocError, Global};

/// The disk, the input and the console in memory, with a list of events that are to happen to them.
///
/// It holds one image under every path, so `attach` finds it whatever the path is, and `Attach::New` makes a new one in
/// its place. It keeps a record of its calls, from which its moments are told: a call that an event fails or stops is
/// recorded, one that comes after a stop or is refused memory is not, and does nothing but count its fault. Room for the record
/// and for what the call keeps is asked for before anything is done. After a stop every call fails, until `again`.
///
/// Sectors that are hurt before a call are hurt whatever becomes of it. A hurt that the open windows don't allow, and a
/// window whose run is too long, cost the machine its honesty for good; it goes on all the same.
#[derive(Drop)]
pub struct MemoryMachine {
    alloc: Global,
    image: Vec<Sector>,
    present: Option<WeakRun>,
    next: Option<WeakRun>,
    // the runs of the windows, the first present one first, and how many healings have named
    runs: Vec<WeakRun>,
    named: usize,
    events: Vec<Event>,
    input: Vec<u8>,
    taken: usize,
    said: Vec<u8>,
    past: Vec<Step>,
    // how many calls were noted as all that was written was on the disk
    synced: usize,
    // the first sector of the first write since then
    waiting: Option<u32>,
    // the number of sectors that is told, where there are so many
    told: u32,
    // of the calls before: their hurts lay in the windows, whose runs were short
    honest: bool,
    stopped: bool,
    written: u64,
    fault_place: u32,
    disk_faults: u64,
    input_faults: u64,
    output_faults: u64,
    starved: u64,
}

impl MemoryMachine {
    /// A machine over an image, an input and a list of what is to happen. Each weak run is a pair of adjacent sectors,
    /// given by its first one: `pairs` has the present one first, each `healing` that answers Ok names the next one,
    /// and the last one again when all are used up. Only memory can fail.
    pub fn new(
        alloc: Global,
        image: Vec<Sector>,
        pairs: Vec<u32>,
        events: Vec<Event>,
        input: Vec<u8>,
    ) -> Result<Self, AllocError>
        requires { 0 < length pairs.items }
        ensures made { IfOk result (IsMade image.items (first_window (Some (pair_at (slice_index pairs.items 0)))) (from_first (map pair_at pairs.items)) events.items input.items) }
        ensures honest { IfOk result IsHonest }
    {
        let mut runs = Vec::new(alloc);
        for pair in &pairs {
            runs.push(WeakRun {
                first: *pair,
                count: 2,
            })?;
        }
        Ok(Self::with_runs(alloc, image, runs, events, input))
    }

    /// A machine whose weak runs may have any length, and with none of them no window is open before the first
    /// `healing`, which then names a run of no sectors. Where the first run is too long, the machine is not honest.
    pub fn with_runs(
        alloc: Global,
        image: Vec<Sector>,
        runs: Vec<WeakRun>,
        events: Vec<Event>,
        input: Vec<u8>,
    ) -> Self
        ensures made { IsMade image.items (first_window (slice_get runs.items 0)) (from_first runs.items) events.items input.items result }
        ensures honest { memory_honest result ≡ is_short (slice_get runs.items 0) }
    {
        let present = runs.first().copied();
        MemoryMachine {
            alloc,
            image,
            present,
            next: None,
            runs,
            named: 0,
            events,
            input,
            taken: 0,
            said: Vec::new(alloc),
            past: Vec::new(alloc),
            synced: 0,
            waiting: None,
            told: 0,
            honest: true,
            stopped: false,
            written: 0,
            fault_place: 0,
            disk_faults: 0,
            input_faults: 0,
            output_faults: 0,
            starved: 0,
        }
    }

    /// Another run over what a stop has left: the same image and windows, and the same weak runs, of which the next
    /// `healing` names the one that was to come. Events, calls and written sectors are counted from the start again, a
    /// stop is over, and honesty that was lost stays lost.
    pub fn again(self, events: Vec<Event>, input: Vec<u8>) -> Self
        ensures made { IsMade (memory_now self).image (memory_now self).windows (memory_line self) events.items input.items result }
        ensures honest { memory_honest result ≡ memory_honest self }
    {
        MemoryMachine {
            present: self.present,
            next: self.next,
            named: self.named,
            honest: self.honest,
            ..Self::with_runs(self.alloc, self.image, self.runs, events, input)
        }
    }

    /// The sectors as they stand now.
    pub fn image(&self) -> &[Sector]
        ensures { result.now ≡ (memory_now self.now).image }
    {
        &self.image
    }

    /// The bytes said since the run began.
    pub fn said(&self) -> &[u8]
        ensures { result.now ≡ (memory_now self.now).said }
    {
        &self.said
    }

    /// Whether each hurt so far lay in sectors that the open windows allowed, and their runs were short.
    pub fn honest(&self) -> bool
        ensures { result ≡ memory_honest self.now }
    {
        self.honest && self.has_short_runs()
    }

    fn has_short_runs(&self) -> bool
        ensures { result ≡ has_short_runs self.now }
    {
        is_short(self.present) && is_short(self.next)
    }

    /// How often a call failed because memory was refused inside it. A call fails for this reason, by an event or by a
    /// stop, and for no other.
    pub fn starved(&self) -> u64
        ensures { result ≡ memory_starved self.now }
    {
        self.starved
    }

    // Counts and tells a fault of the disk at this place.
    fn disk_fault(&mut self, place: u32) -> Failed
        ensures place { result.place ≡ place }
        ensures later { self.old.disk_faults ≤ self.new.disk_faults }
        ensures told { self.new ≡ record self.old { fault_place = place; disk_faults = one_more self.old.disk_faults } }
    {
        self.disk_faults = self.disk_faults.saturating_add(1);
        self.fault_place = place;
        Failed { place }
    }

    // Notes a call, and hurts the sectors that are due before it. Refused where the machine has stopped or memory is
    // refused; nothing is done then.
    fn note(&mut self, settle: bool, work: Work) -> Result<(), Failed>
        ensures ok { OnOk result (Notes settle work self.old self.new) }
        ensures err { OnErr result (Refuses self.old self.new) }
        ensures room { vec_capacity self.new.image ≡ vec_capacity self.old.image }
    {
        if self.stopped {
            return Err(Failed { place: 0 });
        }
        let Ok((hurts, copy)) = self.due_twice(settle) else {
            self.starved = self.starved.saturating_add(1);
            return Err(Failed { place: 0 });
        };
        let honest = self.stays_honest(&copy);
        // no sync is to come
        let synced = self.synced.min(self.past.len());
        let step = Step {
            hurts,
            present: self.present,
            next: self.next,
            said: self.said.len(),
            synced,
            work,
        };
        if self.past.push(step).is_err() {
            self.starved = self.starved.saturating_add(1);
            return Err(Failed { place: 0 });
        }
        hurt_all(&mut self.image, &copy);
        self.honest = honest;
        self.synced = synced;
        Ok(())
    }

    // Notes a call that isn't a write, and fails or stops where an event says so.
    fn call(&mut self, settle: bool, work: Work) -> Result<(), Failed>
        ensures ok { OnOk result (Notes settle work self.old self.new) }
        ensures err { OnErr result (Fails settle work self.old self.new) }
        ensures goes { OnOk result (call_goes (memory_state self.old) ≡ true) }
        ensures running { OnOk result (has_stopped self.new ≡ false) }
    {
        let verdict = self.next_verdict();
        self.note(settle, work)?;
        self.stopped = verdict.stops();
        if verdict.goes() {
            Ok(())
        } else {
            Err(Failed { place: 0 })
        }
    }

    // A call that changes no sector, window or byte by its own work. Its caller counts its fault.
    fn pass(&mut self, settle: bool) -> Result<(), Failed>
        ensures passes { Passes Wears self.old self.new }
        ensures noted { OnOk result (Notes settle Work.Quiet self.old self.new) }
        ensures reached { OnOk result (Reached Wears self.old self.new) }
        ensures exact { Calls settle same same (memory_state self.old) (memory_state self.new) (is_ok result) }
        ensures rest { self.new ≡ record self.old { image = self.new.image; past = self.new.past; honest = self.new.honest; synced = self.new.synced; starved = self.new.starved; stopped = self.new.stopped } }
    {
        self.call(settle, Work::Quiet)
    }

    // Brings all that was written to the disk, and tells whether it is done. Its caller counts its fault.
    fn flush(&mut self) -> bool
        ensures flushed { Flushed result self.old self.new }
        ensures exact { Calls false flushed same (memory_state self.old) (memory_state self.new) result }
        ensures rest { self.new ≡ record self.old { image = self.new.image; past = self.new.past; honest = self.new.honest; synced = self.new.synced; waiting = self.new.waiting; starved = self.new.starved; stopped = self.new.stopped } }
    {
        let verdict = self.next_verdict();
        let done = verdict.goes();
        if self.note(false, Work::Syncing { done }).is_err() {
            return false;
        }
        self.stopped = verdict.stops();
        if done {
            self.synced = self.past.len();
            self.waiting = None;
        }
        done
    }

    // Says bytes. Its caller counts its fault.
    fn speak(&mut self, bytes: &[u8]) -> bool
        ensures spoken { Spoken bytes.now result self.old self.new }
        ensures exact { Calls false (spoken bytes.now) same (memory_state self.old) (memory_state self.new) result }
        ensures rest { self.new ≡ record self.old { image = self.new.image; past = self.new.past; honest = self.new.honest; synced = self.new.synced; starved = self.new.starved; stopped = self.new.stopped; said = self.new.said } }
    {
        if self.stopped {
            return false;
        }
        let Ok(copy) = bytes.to_vec(self.alloc) else {
            self.starved = self.starved.saturating_add(1);
            return false;
        };
        if self.said.reserve(bytes.len()).is_err() {
            self.starved = self.starved.saturating_add(1);
            return false;
        }
        if self.call(false, Work::Saying { bytes: copy }).is_err() {
            return false;
        }
        append(&mut self.said, bytes);
        true
    }

    // Writes the first sectors of a write, so many of them, and tells whether it is done. The machine may stop in it.
    // Its caller counts its fault.
    fn put(&mut self, sector: u32, bytes: &[u8], stood: usize, done: bool, stops: bool) -> bool
        requires room { sector + length bytes.now / 512 ≤ length self.old.image.items }
        requires some { stood ≤ length bytes.now / 512 }
        requires all { IsTrue done → stood ≡ length bytes.now / 512 }
        ensures stood { Stood sector bytes.now result self.old self.new }
        ensures exact { Exactly done (put_sectors sector bytes.now stood done stops (noted false (memory_state self.old))) (put_sectors sector bytes.now stood done stops (noted false (memory_state self.old))) same (memory_state self.old) (memory_state self.new) result }
        ensures rest { self.new ≡ record self.old { image = self.new.image; past = self.new.past; honest = self.new.honest; synced = self.new.synced; starved = self.new.starved; written = self.new.written; waiting = self.new.waiting; stopped = self.new.stopped } }
    {
        if self.stopped {
            return false;
        }
        let Ok(work) = self.writing(sector, bytes, stood, done) else {
            self.starved = self.starved.saturating_add(1);
            return false;
        };
        if self.note(false, work).is_err() {
            return false;
        }
        stand(&mut self.image, sector as usize, bytes, stood);
        self.written = self.written.saturating_add(stood as u64);
        self.waiting = waits_behind(self.waiting, sector);
        self.stopped = stops;
        done
    }

    // Gives the image so many sectors at least, behind a sync, and tells whether it is done. Its caller counts its fault.
    fn widen(&mut self, count: u32) -> bool
        ensures widened { Widened count result self.old self.new }
        ensures exact { Enlarged count same (memory_state self.old) (memory_state self.new) result }
        ensures rest { self.new ≡ record self.old { image = self.new.image; past = self.new.past; honest = self.new.honest; synced = self.new.synced; waiting = self.new.waiting; starved = self.new.starved; told = self.new.told; stopped = self.new.stopped } }
    {
        if self.stopped {
            return false;
        }
        let more = (count as usize).saturating_sub(self.image.len());
        if self.image.reserve(more).is_err() {
            self.starved = self.starved.saturating_add(1);
            return false;
        }
        self.enlarge(count, more)
    }

    // So it is where there is room for so many more sectors. The machine may stop in it.
    fn enlarge(&mut self, count: u32, more: usize) -> bool
        requires more { more ≡ count - length self.old.image.items }
        requires room { vec_len self.old.image + more ≤ vec_capacity self.old.image }
        ensures widened { Widened count result self.old self.new }
        ensures exact { Enlarged count same (memory_state self.old) (memory_state self.new) result }
        ensures rest { self.new ≡ record self.old { image = self.new.image; past = self.new.past; honest = self.new.honest; synced = self.new.synced; waiting = self.new.waiting; starved = self.new.starved; told = self.new.told; stopped = self.new.stopped } }
    {
        let had = self.image.len();
        let told = self.sectors();
        let verdict = self.next_verdict();
        if self.note(false, Work::Extending { had, count }).is_err() {
            return false;
        }
        put_behind(&mut self.image, verdict.coming(more));
        self.stopped = verdict.stops();
        if !verdict.goes() {
            self.told = told;
            return false;
        }
        self.told = told.max(count);
        self.synced = self.past.len();
        self.waiting = None;
        true
    }

    // The number of sectors that is told.
    fn sectors(&self) -> u32
        ensures { result ≡ (memory_report self.now).sectors }
    {
        self.told.min(count_of(self.image.len()))
    }

    // Finds or makes an image, and tells its number of sectors. Its caller counts its fault.
    fn open(&mut self, path: &str, how: Attach) -> Option<u32>
        ensures opened { IfSome result (λ count. Opened path.now how count self.old self.new) }
        ensures asked { IfSome result (λ count. GivesAsked how count) }
        ensures unopened { IfNone result (NotOpened path.now how self.old self.new) }
        ensures exact { Attached path.now how same (memory_state self.old) (memory_state self.new) (is_some result) }
        ensures rest { self.new ≡ record self.old { image = self.new.image; past = self.new.past; honest = self.new.honest; starved = self.new.starved; present = self.new.present; next = self.new.next; told = self.new.told; synced = self.new.synced; waiting = self.new.waiting; stopped = self.new.stopped } }
    {
        if self.stopped {
            return None;
        }
        let Ok((work, fresh)) = self.attaching(path, how) else {
            self.starved = self.starved.saturating_add(1);
            return None;
        };
        if self.call(false, work).is_err() {
            return None;
        }
        self.synced = self.past.len();
        self.waiting = None;
        self.next = None;
        match how {
            Attach::Old => {
                self.told = count_of(self.image.len());
                Some(self.told)
            }
            Attach::New(count) => {
                self.image = fresh;
                self.present = None;
                self.told = count;
                Some(count)
            }
        }
    }

    // What becomes of the next call, which isn't a write.
    fn next_verdict(&self) -> Verdict
        ensures { result ≡ next_verdict (memory_state self.now) }
    {
        call_verdict_of(&self.events, self.past.len() as u64)
    }

    // What becomes of a write of so many sectors.
    fn verdict(&self, first: u32, count: usize) -> Verdict
        ensures { result ≡ write_verdict first count (memory_state self.now) }
    {
        let write = Write {
            calls: self.past.len() as u64,
            written: self.written,
            first,
            begun: self.begun_at(first),
            count: count as u64,
        };
        verdict_of(&self.events, write)
    }

    // How many writes have begun at a sector, where an event counts them.
    fn begun_at(&self, first: u32) -> u64
        ensures { result ≡ (if list_any (counts_at first) self.now.events.items then memory_begun self.now first else 0) }
    {
        if counts_at(&self.events, first) {
            begun_at(&self.past, first) as u64
        } else {
            0
        }
    }

    // The work of a write, with the sectors that it is written over.
    fn writing(
        &self,
        sector: u32,
        bytes: &[u8],
        stood: usize,
        done: bool,
    ) -> Result<Work, AllocError>
        requires { sector + stood ≤ length self.now.image.items }
        ensures { IfOk result (IsWriting self.now.image.items sector bytes.now stood done) }
    {
        let from = sector as usize;
        let old = self.image[from..from + stood].to_vec(self.alloc)?;
        let bytes = bytes.to_vec(self.alloc)?;
        Ok(Work::Writing {
            first: sector,
            bytes,
            old,
            done,
        })
    }

    // The work of an attach, with the image that there was where a new one is made, and the new one.
    fn attaching(&self, path: &str, how: Attach) -> Result<(Work, Vec<Sector>), AllocError>
        ensures work { IfOk result (λ made. IsAttaching self.now.image.items path.now how made.0) }
        ensures fresh { IfOk result (λ made. IsFresh how made.1.items) }
    {
        let path = path.as_bytes().to_vec(self.alloc)?;
        match how {
            Attach::Old => {
                let kept = Vec::new(self.alloc);
                Ok((Work::Attaching { path, how, kept }, Vec::new(self.alloc)))
            }
            Attach::New(count) => {
                let kept = self.image.to_vec(self.alloc)?;
                let fresh = vec![in self.alloc; Sector::Damaged; count as usize]?;
                Ok((Work::Attaching { path, how, kept }, fresh))
            }
        }
    }

    fn stays_honest(&self, hurts: &[Hurt]) -> bool
        ensures { result ≡ (memory_honest self.now && all_weak self.now.present self.now.next hurts.now) }
    {
        self.honest() && are_weak(self.present, self.next, hurts)
    }

    fn due_twice(&self, settle: bool) -> Result<(Vec<Hurt>, Vec<Hurt>), AllocError>
        ensures { IfOk result (λ both. (both.0.items ≡ due self.now.image.items (length self.now.past.items) settle self.now.events.items) × (both.1.items ≡ both.0.items)) }
    {
        let calls = self.past.len() as u64;
        let hurts = due_hurts(self.alloc, &self.events, &self.image, calls, settle)?;
        let copy = hurts.to_vec(self.alloc)?;
        Ok((hurts, copy))
    }
}

// The first write that waits where a write begins at this sector.
fn waits_behind(waiting: Option<u32>, first: u32) -> Option<u32>
    ensures { result ≡ waits_behind waiting first }
{
    Some(waiting.unwrap_or(first))
}

// The number of sectors that an image of so many counts.
fn count_of(len: usize) -> u32
    ensures { result ≡ min len (2 ^ 32 - 1) }
{
    len.min(u32::MAX as usize) as u32
}

// Puts so many damaged sectors behind the others, for which there is room.
fn put_behind(image: &mut Vec<Sector>, more: usize)
    requires { vec_len image.old + more ≤ vec_capacity image.old }
    ensures { image.new.items ≡ image.old.items ++ replicate more Sector.Damaged }
{
    for _ in 0..more {
        image.push_reserved(Sector::Damaged);
    }
}

// Appends bytes, for which there is room.
fn append(said: &mut Vec<u8>, bytes: &[u8])
    requires { vec_len said.old + length bytes.now ≤ vec_capacity said.old }
    ensures { said.new.items ≡ said.old.items ++ bytes.now }
{
    for byte in bytes {
        said.push_reserved(*byte);
    }
}
