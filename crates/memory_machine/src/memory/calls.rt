//! The calls of the outside in memory.
ghost use Rattle.std.specs.Prelude.{◌≡◌, false, true, ◌⊎◌, ◌+◌, ◌-◌, ◌/◌, ◌%◌, ◌^◌, ◌<◌, ◌≤◌, ◌++◌, min, max, drop, refl, length, is_ok, IfOk, IfErr, OnOk, OnErr};
ghost use Rattle.std.proofs.Common.{inl};
ghost use Rattle.sector_disk.specs.Image.{longest_run, sector_at};
ghost use Rattle.memory_machine.specs.State.{Calls, Attached, Written, Enlarged, same, first_waiting, flushed, healed, closed, given, taken, spoken, disk_failed, input_failed, output_failed};
ghost use Rattle.sector_disk.specs.Machine.{Takes, Wears, Utters, Says, OutputCause, Attaches, GivesAsked, asked_for, Writes, Tears, Extends, Grows, DiskCause, InputCause, Names, Settles, Shows, Before, IsSynced, took, wrote, synced_once, place_told};
ghost use Rattle.memory_machine.specs.Past.{only_at_end};
ghost use Rattle.memory_machine.specs.Memory.{memory_report, memory_now, memory_ledger, memory_sized, memory_small, memory_state, MemoryTrusts, MemoryElapses, MemoryReaches, IsHonest, memory_calls, memory_left, memory_short};
ghost use Rattle.memory_machine.specs.History.{memory_history};

use super::MemoryMachine;
use crate::event::{piece_of, stood_of};
use crate::windows::run_at;
use sector_disk::{Attach, Failed, Machine, Sector, Seen};

impl Machine for MemoryMachine {
    ghost report = { memory_report };

    ghost tells = { λ _. Unit {0} };

    ghost honest = { IsHonest };

    ghost now = { memory_now };

    ghost ledger = { memory_ledger };

    ghost moment = { memory_calls };

    ghost left_since = { memory_left };

    ghost honest_tells = { λ m honest. tt };

    ghost counts_now = { λ m t honest le. (le, inl refl) };

    ghost dated = { λ m honest. refl };

    ghost history = { memory_history };

    ghost only_now = { λ m left honest since. only_at_end m.past.items (memory_now m) left since };

    ghost short = { memory_short };

    ghost small = { memory_small };

    ghost sized = { λ m honest. memory_sized m };

    fn read(&mut self, sector: u32, buf: &mut [u8; 512]) -> Result<Seen, Failed>
        requires { sector < (memory_report self.old).sectors }
        ensures cause { DiskCause (memory_report self.old) (memory_report self.new) sector result }
        ensures sectors { (memory_report self.new).sectors ≡ (memory_report self.old).sectors }
        ensures trust { MemoryTrusts self.old self.new }
        ensures worn { IsHonest self.new → Wears (memory_now self.old) (memory_now self.new) }
        ensures shown { IfOk result (λ seen. Shows seen (sector_at (memory_now self.new).image sector) buf.new) }
        ensures kept { result ≡ Ok Seen.Damaged → buf.new ≡ buf.old }
        ensures time { MemoryElapses self.old self.new (Wears (memory_now self.old)) }
        ensures reached { OnOk result (MemoryReaches self.old self.new (Wears (memory_now self.old))) }
        ensures ledger { Unit {0} → memory_ledger self.new ≡ memory_ledger self.old }
        ensures exact { Calls false same (disk_failed sector) (memory_state self.old) (memory_state self.new) (is_ok result) }
    {
        if self.pass(false).is_err() {
            return Err(self.disk_fault(sector));
        }
        match self.image[sector as usize] {
            Sector::Whole(bytes) => {
                *buf = bytes;
                Ok(Seen::Whole)
            }
            Sector::Damaged => Ok(Seen::Damaged),
        }
    }

    fn attach(&mut self, path: &str, how: Attach) -> Result<u32, Failed>
        ensures cause { DiskCause (memory_report self.old) (memory_report self.new) 0 result }
        ensures sectors { IfOk result (λ count. (memory_report self.new).sectors ≡ count) }
        ensures sectors_err { OnErr result ((memory_report self.new).sectors ≡ (memory_report self.old).sectors) }
        ensures trust { MemoryTrusts self.old self.new }
        ensures made { IfOk result (λ count. GivesAsked how count) }
        ensures attached { OnOk result (IsHonest self.new → Attaches how (memory_now self.old) (memory_now self.new)) }
        ensures synced { OnOk result (IsHonest self.new → IsSynced (memory_now self.new)) }
        ensures size { IfOk result (λ count. count ≡ min (length (memory_now self.new).image) (2 ^ 32 - 1)) }
        ensures failed { OnErr result (IsHonest self.new → Wears (memory_now self.old) (memory_now self.new)) }
        ensures time { MemoryElapses self.old self.new (Before (memory_now self.old) (memory_now self.new)) }
        ensures reached { OnOk result (MemoryReaches self.old self.new (Wears (memory_now self.old))) }
        ensures asked { OnOk result (Unit {0} → memory_ledger self.new ≡ asked_for (memory_ledger self.old) path.now how) }
        ensures asked_err { OnErr result (Unit {0} → (memory_ledger self.new ≡ memory_ledger self.old) ⊎ (memory_ledger self.new ≡ asked_for (memory_ledger self.old) path.now how)) }
        ensures exact { Attached path.now how (disk_failed 0) (memory_state self.old) (memory_state self.new) (is_ok result) }
    {
        match self.open(path, how) {
            Some(count) => Ok(count),
            None => Err(self.disk_fault(0)),
        }
    }

    fn write(&mut self, sector: u32, bytes: &[u8]) -> Result<(), Failed>
        requires whole { length bytes.now % 512 ≡ 0 }
        requires some { 0 < length bytes.now }
        requires in_range { sector + length bytes.now / 512 ≤ (memory_report self.old).sectors }
        ensures cause { DiskCause (memory_report self.old) (memory_report self.new) sector result }
        ensures sectors { (memory_report self.new).sectors ≡ (memory_report self.old).sectors }
        ensures trust { MemoryTrusts self.old self.new }
        ensures written { OnOk result (IsHonest self.new → Writes sector bytes.now (memory_now self.old) (memory_now self.new)) }
        ensures cut { IsHonest self.new → Tears sector bytes.now (memory_now self.old) (memory_now self.new) }
        ensures time { MemoryElapses self.old self.new (Tears sector bytes.now (memory_now self.old)) }
        ensures reached { OnOk result (MemoryReaches self.old self.new (Tears sector bytes.now (memory_now self.old))) }
        ensures counted { OnOk result (Unit {0} → memory_ledger self.new ≡ wrote (memory_ledger self.old) (length bytes.now / 512)) }
        ensures counted_err { OnErr result (Unit {0} → memory_ledger self.new ≡ memory_ledger self.old) }
        ensures exact { Written sector bytes.now (disk_failed sector) (memory_state self.old) (memory_state self.new) (is_ok result) }
    {
        let count = bytes.len() / 512;
        let verdict = self.verdict(sector, count);
        let stood = stood_of(verdict, count);
        let done = self.put(sector, bytes, stood, verdict.goes(), verdict.stops());
        if !done {
            return Err(self.disk_fault(sector));
        }
        Ok(())
    }

    fn extend(&mut self, sectors: u32) -> Result<(), Failed>
        requires attached { 0 < (memory_report self.old).sectors }
        ensures cause { DiskCause (memory_report self.old) (memory_report self.new) 0 result }
        ensures sectors { OnOk result ((memory_report self.new).sectors ≡ max (memory_report self.old).sectors sectors) }
        ensures sectors_err { OnErr result ((memory_report self.new).sectors ≡ (memory_report self.old).sectors) }
        ensures trust { MemoryTrusts self.old self.new }
        ensures extended { OnOk result (IsHonest self.new → Extends sectors (memory_now self.old) (memory_now self.new)) }
        ensures synced { OnOk result (IsHonest self.new → IsSynced (memory_now self.new)) }
        ensures failed { OnErr result (IsHonest self.new → Grows sectors (memory_now self.old) (memory_now self.new)) }
        ensures time { MemoryElapses self.old self.new (Grows sectors (memory_now self.old)) }
        ensures reached { OnOk result (MemoryReaches self.old self.new (Grows sectors (memory_now self.old))) }
        ensures ledger { Unit {0} → memory_ledger self.new ≡ memory_ledger self.old }
        ensures exact { Enlarged sectors (disk_failed 0) (memory_state self.old) (memory_state self.new) (is_ok result) }
    {
        if !self.widen(sectors) {
            return Err(self.disk_fault(0));
        }
        Ok(())
    }

    fn healing(&mut self, longest: u32) -> Result<(), Failed>
        requires least { 2 ≤ longest }
        requires most { longest ≤ longest_run }
        ensures cause { DiskCause (memory_report self.old) (memory_report self.new) 0 result }
        ensures sectors { (memory_report self.new).sectors ≡ (memory_report self.old).sectors }
        ensures trust { MemoryTrusts self.old self.new }
        ensures named { OnOk result (IsHonest self.new → Names longest (memory_now self.old) (memory_now self.new)) }
        ensures synced { OnOk result (IsHonest self.new → IsSynced (memory_now self.new)) }
        ensures failed { OnErr result (IsHonest self.new → Wears (memory_now self.old) (memory_now self.new)) }
        ensures time { MemoryElapses self.old self.new (Before (memory_now self.old) (memory_now self.new)) }
        ensures reached { OnOk result (MemoryReaches self.old self.new (Wears (memory_now self.old))) }
        ensures ledger { Unit {0} → memory_ledger self.new ≡ memory_ledger self.old }
        ensures exact { Calls false (healed longest) (disk_failed 0) (memory_state self.old) (memory_state self.new) (is_ok result) }
    {
        if self.pass(false).is_err() {
            return Err(self.disk_fault(0));
        }
        self.synced = self.past.len();
        self.waiting = None;
        self.named = self.named.saturating_add(1);
        self.next = Some(run_at(&self.runs, self.named, longest));
        Ok(())
    }

    fn settle(&mut self) -> Result<(), Failed>
        ensures cause { DiskCause (memory_report self.old) (memory_report self.new) 0 result }
        ensures sectors { (memory_report self.new).sectors ≡ (memory_report self.old).sectors }
        ensures trust { MemoryTrusts self.old self.new }
        ensures settled { OnOk result (IsHonest self.new → Settles (memory_now self.old) (memory_now self.new)) }
        ensures synced { OnOk result (IsHonest self.new → IsSynced (memory_now self.new)) }
        ensures failed { OnErr result (IsHonest self.new → Wears (memory_now self.old) (memory_now self.new)) }
        ensures time { MemoryElapses self.old self.new (Before (memory_now self.old) (memory_now self.new)) }
        ensures reached { OnOk result (MemoryReaches self.old self.new (Wears (memory_now self.old))) }
        ensures ledger { Unit {0} → memory_ledger self.new ≡ memory_ledger self.old }
        ensures exact { Calls true closed (disk_failed 0) (memory_state self.old) (memory_state self.new) (is_ok result) }
    {
        if self.pass(true).is_err() {
            return Err(self.disk_fault(0));
        }
        self.synced = self.past.len();
        self.waiting = None;
        match self.next {
            None => Ok(()),
            Some(run) => {
                self.present = Some(run);
                self.next = None;
                Ok(())
            }
        }
    }

    fn sync(&mut self) -> Result<(), Failed>
        ensures cause { DiskCause (memory_report self.old) (memory_report self.new) (place_told result) result }
        ensures sectors { (memory_report self.new).sectors ≡ (memory_report self.old).sectors }
        ensures trust { MemoryTrusts self.old self.new }
        ensures worn { IsHonest self.new → Wears (memory_now self.old) (memory_now self.new) }
        ensures synced { OnOk result (IsHonest self.new → IsSynced (memory_now self.new)) }
        ensures time { MemoryElapses self.old self.new (Wears (memory_now self.old)) }
        ensures reached { OnOk result (MemoryReaches self.old self.new (Wears (memory_now self.old))) }
        ensures counted { OnOk result (Unit {0} → memory_ledger self.new ≡ synced_once (memory_ledger self.old)) }
        ensures counted_err { OnErr result (Unit {0} → memory_ledger self.new ≡ memory_ledger self.old) }
        ensures exact { Calls false flushed (disk_failed (first_waiting (memory_state self.old))) (memory_state self.old) (memory_state self.new) (is_ok result) }
    {
        let place = self.waiting.unwrap_or(0);
        if !self.flush() {
            return Err(self.disk_fault(place));
        }
        Ok(())
    }

    fn take(&mut self, buf: &mut [u8]) -> Result<usize, Failed>
        requires { 0 < length buf.old }
        ensures cause { InputCause (memory_report self.old) (memory_report self.new) result }
        ensures place { IfErr result (λ failed. failed.place ≡ 0) }
        ensures room { IfOk result (λ count. count ≤ length buf.old) }
        ensures count { IfOk result (λ count. count ≡ given (memory_state self.old) (length buf.old)) }
        ensures trust { MemoryTrusts self.old self.new }
        ensures worn { IsHonest self.new → Wears (memory_now self.old) (memory_now self.new) }
        ensures time { MemoryElapses self.old self.new (Wears (memory_now self.old)) }
        ensures reached { OnOk result (MemoryReaches self.old self.new (Wears (memory_now self.old))) }
        ensures taken { IfOk result (λ count. Unit {0} → Takes (memory_ledger self.old).input count buf.new) }
        ensures left { IfOk result (λ count. Unit {0} → memory_ledger self.new ≡ took (memory_ledger self.old) count) }
        ensures left_err { OnErr result (Unit {0} → memory_ledger self.new ≡ memory_ledger self.old) }
        ensures exact { Calls false (taken (length buf.old)) input_failed (memory_state self.old) (memory_state self.new) (is_ok result) }
    {
        if self.pass(false).is_err() {
            self.input_faults = self.input_faults.saturating_add(1);
            return Err(Failed { place: 0 });
        }
        let room = piece_of(&self.events, buf.len());
        let count = take_from(&self.input, self.taken, room, buf);
        self.taken += count;
        Ok(count)
    }

    fn say(&mut self, bytes: &[u8]) -> Result<(), Failed>
        ensures cause { OutputCause (memory_report self.old) (memory_report self.new) result }
        ensures place { IfErr result (λ failed. failed.place ≡ 0) }
        ensures trust { MemoryTrusts self.old self.new }
        ensures said { OnOk result (IsHonest self.new → Says bytes.now (memory_now self.old) (memory_now self.new)) }
        ensures cut { IsHonest self.new → Utters bytes.now (memory_now self.old) (memory_now self.new) }
        ensures time { MemoryElapses self.old self.new (Utters bytes.now (memory_now self.old)) }
        ensures reached { OnOk result (MemoryReaches self.old self.new (Utters bytes.now (memory_now self.old))) }
        ensures ledger { Unit {0} → memory_ledger self.new ≡ memory_ledger self.old }
        ensures exact { Calls false (spoken bytes.now) output_failed (memory_state self.old) (memory_state self.new) (is_ok result) }
    {
        if !self.speak(bytes) {
            self.output_faults = self.output_faults.saturating_add(1);
            return Err(Failed { place: 0 });
        }
        Ok(())
    }
}

// Takes bytes of the input that is left.
fn take_from(input: &[u8], taken: usize, room: usize, buf: &mut [u8]) -> usize
    requires some { 0 < room }
    requires room { room ≤ length buf.old }
    ensures takes { Takes (drop taken input.now) result buf.new }
    ensures room { result ≤ room }
    ensures exact { result ≡ min room (length input.now - taken) }
{
    let count = room.min(input.len().saturating_sub(taken));
    if count > 0 {
        buf[..count].copy_from_slice(&input[taken..taken + count]);
    }
    count
}
