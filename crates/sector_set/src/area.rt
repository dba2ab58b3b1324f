//! Sets of sectors of an interval that know their number.
ghost use Rattle.std.specs.Prelude.{◌≡◌, ◌+◌, ◌≤◌, ◌<◌, ◌^◌, ◌||◌, ◌&&◌, ◌↔◌, ℕ, not, false, length, IfOk, IfSome, IsTrue};
ghost use Rattle.run_table.specs.RunTable.{sectors_of};
ghost use Rattle.run_table.specs.Space.{contains, where_free, runs_of};
ghost use Rattle.sector_set.specs.Area.{IsThere};

use crate::meet::differ;
use crate::set::SectorSet;
use run_table::{Run, Runs};
use std::alloc::{AllocError, Global};
use std::marker::Model;

/// A set of sectors of an interval `from..to`, with their number.
#[derive(Drop)]
pub struct SectorArea {
    from: u32,
    count: u32,
    set: SectorSet,
}

impl Model for SectorArea {
    ghost use Rattle.run_table.specs.Space.{contains};
    ghost use Rattle.sector_set.specs.Area.{Area, area, CountsFree};

    ghost Value = { Area };

    ghost view = { λ a. area a.from a.set.end (contains a.set.sectors) };

    ghost invariant = { λ a. CountsFree a.from a.set a.count };
}

impl SectorArea {
    ghost use Rattle.sector_set.specs.Area.{area, without_sectors, together, AreIn, AreOut, IsOwn, left_of, IsFirstOf};
    ghost use Rattle.sector_set.specs.SectorSet.{IsFirst};

    /// The sectors of `from..to` that are in none of the runs. It takes a bit for each sector below `to`.
    pub fn without_runs(
        alloc: Global,
        from: u32,
        to: u32,
        runs: &[Run],
    ) -> Result<SectorArea, AllocError>
        requires { from ≤ to }
        ensures { IfOk result (λ m. m ≡ area from to (λ s. not (contains (sectors_of runs.now) s))) }
    {
        let mut set = SectorSet::new(alloc, to)?;
        set.insert(Run {
            start: from,
            length: to - from,
        });
        remove_all(&mut set, runs);
        let count = count(&set, from);
        Ok(SectorArea { from, count, set })
    }

    /// No sector of `from..to`. It takes a bit for each sector below `to`.
    pub fn new(alloc: Global, from: u32, to: u32) -> Result<SectorArea, AllocError>
        requires { from ≤ to }
        ensures { IfOk result (λ m. m ≡ area from to (λ _. false)) }
    {
        let set = SectorSet::new(alloc, to)?;
        Ok(SectorArea {
            from,
            count: 0,
            set,
        })
    }

    /// The start of the interval: all its runs lie from there on.
    pub fn from(&self) -> u32
        ensures value { result ≡ self.now.from }
        ensures order { self.now.from ≤ self.now.to }
        ensures all { left_of self.now self.now.from ≡ runs_of self.now.sectors }
        ensures own { IsOwn self.now }
    {
        self.from
    }

    /// How many sectors are in it.
    pub fn count(&self) -> u32
        ensures value { result ≡ length self.now.sectors }
        ensures own { IsOwn self.now }
        ensures fits { self.now.to < 2 ^ 32 }
    {
        self.count
    }

    /// Whether a sector is in it.
    pub fn contains(&self, s: u32) -> bool
        requires from { self.now.from ≤ s }
        requires to { s < self.now.to }
        ensures { result ≡ contains self.now.sectors s }
    {
        self.set.contains(s)
    }

    /// Whether the sectors of runs are in it, each named once.
    pub fn are_in(&self, runs: &Runs) -> bool
        ensures { IsTrue result ↔ AreIn self.now runs.now }
    {
        let runs = runs.as_slice();
        all_are(&self.set, self.from, runs, true) && differ(runs)
    }

    /// Whether the sectors of runs are of the interval and not in it, each named once.
    pub fn are_out(&self, runs: &Runs) -> bool
        ensures { IsTrue result ↔ AreOut self.now runs.now }
    {
        let runs = runs.as_slice();
        all_are(&self.set, self.from, runs, false) && differ(runs)
    }

    /// The first run of its sectors from `at` on: adjacent sectors, as many as there are.
    pub fn next_run(&self, at: u32) -> Option<Run>
        requires from { self.now.from ≤ at }
        requires to { at ≤ self.now.to }
        ensures first { IsFirstOf self.now at result }
        ensures within { IfSome result (λ r. (at ≤ r.start) × (1 ≤ r.length) × (r.start + r.length ≤ self.now.to)) }
        ensures fits { self.now.to < 2 ^ 32 }
    {
        self.set.next_run(at)
    }

    /// The first sector from `at` on below `end` that is in it, or that is not where `wanted` is false; else `end`.
    pub fn first(&self, at: u32, end: u32, wanted: bool) -> u32
        requires from { self.now.from ≤ at }
        requires order { at ≤ end }
        requires to { end ≤ self.now.to }
        ensures { IsFirst end (contains self.now.sectors) at wanted result }
    {
        self.set.first(at, end, wanted)
    }

    /// Takes sectors out.
    pub fn remove(&mut self, runs: &Runs)
        requires { AreIn self.old runs.now }
        ensures { self.new ≡ without_sectors self.old runs.now }
    {
        remove_all(&mut self.set, runs.as_slice());
        self.count -= runs.total();
    }

    /// Puts sectors in.
    pub fn insert(&mut self, runs: &Runs)
        requires { AreOut self.old runs.now }
        ensures { self.new ≡ together self.old runs.now }
    {
        insert_all(&mut self.set, runs.as_slice());
        self.count += runs.total();
    }
}

// Whether each sector of runs is one from a place on up to the end, in the set or not as is wanted.
fn all_are(set: &SectorSet, from: u32, runs: &[Run], wanted: bool) -> bool
    ensures { IsTrue result ↔ ((s : ℕ) → IsTrue (contains (sectors_of runs.now) s) → IsThere from set.now wanted s) }
{
    for run in runs {
        if !is_all(set, from, *run, wanted) {
            return false;
        }
    }
    true
}

fn is_all(set: &SectorSet, from: u32, run: Run, wanted: bool) -> bool
    ensures { IsTrue result ↔ ((s : ℕ) → run.start ≤ s → s < run.start + run.length → IsThere from set.now wanted s) }
{
    if run.length == 0 {
        return true;
    }
    let end = run.start as u64 + run.length as u64;
    if run.start < from || end > set.end() as u64 {
        return false;
    }
    let end = end as u32;
    set.first(run.start, end, !wanted) == end
}

// Takes the sectors of runs out of a set.
fn remove_all(set: &mut SectorSet, runs: &[Run])
    ensures end { set.new.end ≡ set.old.end }
    ensures sectors { (s : ℕ) → s < set.old.end → contains set.new.sectors s ≡ (contains set.old.sectors s && not (contains (sectors_of runs.now) s)) }
{
    for run in runs {
        set.remove(*run);
    }
}

// Puts the sectors of runs into a set.
fn insert_all(set: &mut SectorSet, runs: &[Run])
    ensures end { set.new.end ≡ set.old.end }
    ensures sectors { (s : ℕ) → s < set.old.end → contains set.new.sectors s ≡ (contains set.old.sectors s || contains (sectors_of runs.now) s) }
{
    for run in runs {
        set.insert(*run);
    }
}

// How many sectors from a place on are in a set.
fn count(set: &SectorSet, from: u32) -> u32
    requires from { from ≤ set.now.end }
    requires end { set.now.end < 2 ^ 32 }
    ensures { result ≡ length (where_free (contains set.now.sectors) from set.now.end) }
{
    let mut count = 0;
    let mut at = from;
    while let Some(run) = set.next_run(at) {
        count += run.length;
        at = run.start + run.length;
    }
    count
}
