//! Sets of sectors below an end.
ghost use Rattle.std.specs.Prelude.{◌≡◌, ◌+◌, ◌≤◌, ◌<◌, ◌||◌, ◌&&◌, not, min, false, IfOk, IfSome};

use crate::bits;
use run_table::Run;
use std::alloc::{AllocError, Global};
use std::marker::Model;

/// A set of sectors, each below an end.
#[derive(Drop)]
pub struct SectorSet {
    end: u32,
    words: Vec<u64>,
}

impl Model for SectorSet {
    ghost use Rattle.std.specs.Prelude.{◌≡◌, ◌+◌, ◌/◌, ◌<◌, ◌^◌, vec_len};
    ghost use Rattle.sector_set.specs.Bits.{is_set};
    ghost use Rattle.sector_set.specs.SectorSet.{SectorsBelow, set_of};

    ghost Value = { SectorsBelow };

    ghost view = { λ a. set_of a.end (is_set a.words.items) };

    ghost invariant = { λ a. (vec_len a.words ≡ a.end / 64 + 1) × (a.end < 2 ^ 32) };
}

impl SectorSet {
    ghost use Rattle.run_table.specs.Space.{contains};
    ghost use Rattle.sector_set.specs.SectorSet.{set_of, in_run, IsFirstRun, IsFirst};

    /// No sector of those below `end`. It takes a bit for each of them.
    pub fn new(alloc: Global, end: u32) -> Result<SectorSet, AllocError>
        ensures { IfOk result (λ set. set ≡ set_of end (λ _. false)) }
    {
        let words = vec![in alloc; 0; end as usize / 64 + 1]?;
        Ok(SectorSet { end, words })
    }

    /// The end: all its sectors are below.
    pub fn end(&self) -> u32
        ensures { result ≡ self.now.end }
    {
        self.end
    }

    /// Whether a sector is in it.
    pub fn contains(&self, s: u32) -> bool
        requires { s < self.now.end }
        ensures { result ≡ contains self.now.sectors s }
    {
        (self.words[s as usize / 64] >> (s % 64)) & 1 == 1
    }

    /// Adds the sectors of a run, but for those from the end on.
    pub fn insert(&mut self, run: Run)
        ensures { self.new ≡ set_of self.old.end (λ s. contains self.old.sectors s || in_run run s) }
    {
        let stop = self.stop_of(run);
        bits::insert(&mut self.words, run.start as usize, stop as usize);
    }

    /// Removes the sectors of a run, as far as they are in it.
    pub fn remove(&mut self, run: Run)
        ensures { self.new ≡ set_of self.old.end (λ s. contains self.old.sectors s && not (in_run run s)) }
    {
        let stop = self.stop_of(run);
        bits::remove(&mut self.words, run.start as usize, stop as usize);
    }

    /// The first run of its sectors from `at` on: adjacent sectors, as many as there are.
    pub fn next_run(&self, at: u32) -> Option<Run>
        requires { at ≤ self.now.end }
        ensures first { IsFirstRun self.now at result }
        ensures within { IfSome result (λ r. (at ≤ r.start) × (1 ≤ r.length) × (r.start + r.length ≤ self.now.end)) }
    {
        let start = self.first(at, self.end, true);
        if start == self.end {
            return None;
        }
        let stop = self.first(start, self.end, false);
        Some(Run {
            start,
            length: stop - start,
        })
    }

    // The end of a run, or that of all sectors where the run goes on.
    fn stop_of(&self, run: Run) -> u32
        ensures { result ≡ min (run.start + run.length) self.now.end }
    {
        run.start.saturating_add(run.length).min(self.end)
    }

    /// The first sector from `at` on below `end` that is in it, or that is not, else `end`.
    pub(crate) fn first(&self, at: u32, end: u32, wanted: bool) -> u32
        requires order { at ≤ end }
        requires within { end ≤ self.now.end }
        ensures { IsFirst end (contains self.now.sectors) at wanted result }
    {
        let words = &self.words[..end as usize / 64 + 1];
        bits::first(words, at as usize, wanted).min(end as usize) as u32
    }
}
