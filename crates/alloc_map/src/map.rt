//! The map of the data area.
ghost use Rattle.std.specs.Prelude.{◌≡◌, ◌≤◌, ◌<◌, ◌↔◌, not, [], ◌∷◌, length, IfOk, IsTrue};
ghost use Rattle.run_table.specs.RunTable.{sectors_of};
ghost use Rattle.run_table.specs.Space.{contains};

use crate::longest::Longest;
use crate::no_place::NoPlace;
use run_table::{Run, Runs};
use sector_set::SectorArea;
use std::alloc::{AllocError, Global};
use std::marker::Model;

/// The free sectors of the data area `from..to`.
#[derive(Drop)]
pub struct Map {
    free: SectorArea,
}

impl Model for Map {
    ghost use Rattle.sector_set.specs.Area.{Area};

    ghost Value = { Area };

    ghost view = { λ a. a.free };
}

impl Map {
    ghost use Rattle.sector_set.specs.Area.{area, without_sectors, together, AreIn, AreOut};
    ghost use Rattle.sector_set.specs.SectorSet.{IsFirst};
    ghost use Rattle.alloc_map.specs.NoPlace.{choice};

    /// The sectors of `from..to` that are in none of the runs. It takes a bit for each sector below `to`.
    pub fn from_runs(alloc: Global, from: u32, to: u32, taken: &[Run]) -> Result<Map, AllocError>
        requires { from ≤ to }
        ensures { IfOk result (λ map. map ≡ area from to (λ s. not (contains (sectors_of taken.now) s))) }
    {
        let free = SectorArea::without_runs(alloc, from, to, taken)?;
        Ok(Map { free })
    }

    /// How many sectors are free.
    pub fn free_count(&self) -> u32
        ensures { result ≡ length self.now.sectors }
    {
        self.free.count()
    }

    /// Whether a sector is free.
    pub fn is_free(&self, s: u32) -> bool
        requires from { self.now.from ≤ s }
        requires to { s < self.now.to }
        ensures { result ≡ contains self.now.sectors s }
    {
        self.free.contains(s)
    }

    /// The first sector from `at` on below `end` that is free, or that is not where `free` is false; else `end`.
    pub fn first(&self, at: u32, end: u32, free: bool) -> u32
        requires from { self.now.from ≤ at }
        requires order { at ≤ end }
        requires to { end ≤ self.now.to }
        ensures { IsFirst end (contains self.now.sectors) at free result }
    {
        self.free.first(at, end, free)
    }

    /// Whether the sectors of runs are free, each named once.
    pub fn are_free(&self, runs: &Runs) -> bool
        ensures { IsTrue result ↔ AreIn self.now runs.now }
    {
        self.free.are_in(runs)
    }

    /// Whether the sectors of runs are of the data area and none is free, each named once.
    pub fn are_taken(&self, runs: &Runs) -> bool
        ensures { IsTrue result ↔ AreOut self.now runs.now }
    {
        self.free.are_out(runs)
    }

    /// Where so many sectors go: from the start of the lowest free run that holds them, else in the longest free runs,
    /// the lower of two as long first, eight at most and the last in part. They stay free. It takes no memory.
    pub fn choose(&self, need: u32) -> Result<Runs, NoPlace>
        ensures { result ≡ choice self.now.sectors need }
    {
        let free = self.free.count();
        if free < need {
            return Err(NoPlace::NoSpace { need, free });
        }
        let mut longest = Longest::new();
        let mut at = self.free.from();
        while let Some(run) = self.free.next_run(at) {
            if need <= run.length {
                return Ok(one_run(run.start, need));
            }
            longest.keep(run);
            at = run.start + run.length;
        }
        let best = longest.total();
        if best < need {
            return Err(NoPlace::TooFragmented { need, best });
        }
        Ok(longest.cut_to(need))
    }

    /// Takes free sectors. It takes no memory.
    pub fn take(&mut self, runs: &Runs)
        requires { AreIn self.old runs.now }
        ensures { self.new ≡ without_sectors self.old runs.now }
    {
        self.free.remove(runs);
    }

    /// Gives taken sectors back. It takes no memory.
    pub fn release(&mut self, runs: &Runs)
        requires { AreOut self.old runs.now }
        ensures { self.new ≡ together self.old runs.now }
    {
        self.free.insert(runs);
    }
}

// A run table of one run.
fn one_run(start: u32, length: u32) -> Runs
    ensures { result ≡ record { start = start; length = length } ∷ [] }
{
    let mut runs = Runs::new();
    runs.push(Run { start, length });
    runs
}
