//! The sectors that wait.
ghost use Rattle.std.specs.Prelude.{◌≡◌, ◌+◌, ◌<◌, ◌≤◌, ◌||◌, ◌↔◌, not, false, [], ◌∷◌, length, replicate, set, get_or, None, Some, All, IsTrue, IsNone, IsSome, IfOk, IfSome, OnSome};
ghost use Rattle.std.specs.List.{list_any};
ghost use Rattle.sector_set.specs.Area.{area, without_sectors, together, AreIn};
ghost use Rattle.shadow_frees.specs.Readers.{is_empty, IsSameOrApart, AreUnheld, unheld, given_back};
ghost use Rattle.shadow_frees.specs.Waits.{AreIdle, AreSound, EmptiesSlot, GivesRun, run_between, waiting_sectors, waits_in};

use crate::readers;
use run_table::Runs;
use sector_set::SectorArea;
use std::alloc::{AllocError, Global};
use std::marker::Model;

/// How many sectors wait, and how many of these for the next force.
#[derive(Clone, Copy, Debug, PartialEq)]
pub struct Waiting {
    pub all: u32,
    pub removed: u32,
}

/// The sectors of the data area that belong to no version and are not free yet, and the versions that up to eight
/// readers hold.
#[derive(Drop)]
pub struct Shadow {
    removed: SectorArea,
    kept: SectorArea,
    unfinished: SectorArea,
    held: [Option<Runs>; 8],
}

impl Model for Shadow {
    ghost use Rattle.shadow_frees.specs.Waits.{Waits, AreSound};

    ghost Value = { Waits };

    ghost view = { λ a. record { removed = a.removed; kept = a.kept; unfinished = a.unfinished; held = a.held } };

    ghost invariant = { λ a. AreSound a.removed a.kept a.unfinished a.held };
}

impl Shadow {
    /// No sector of `from..to` waits and no reader holds one. It takes three bits for each sector below `to`.
    pub fn new(alloc: Global, from: u32, to: u32) -> Result<Shadow, AllocError>
        requires { from ≤ to }
        ensures removed { IfOk result (λ w. w.removed ≡ area from to (λ _. false)) }
        ensures kept { IfOk result (λ w. w.kept ≡ area from to (λ _. false)) }
        ensures unfinished { IfOk result (λ w. w.unfinished ≡ area from to (λ _. false)) }
        ensures held { IfOk result (λ w. w.held ≡ replicate 8 None) }
    {
        let removed = SectorArea::new(alloc, from, to)?;
        let kept = SectorArea::new(alloc, from, to)?;
        let unfinished = SectorArea::new(alloc, from, to)?;
        Ok(Shadow {
            removed,
            kept,
            unfinished,
            held: [None, None, None, None, None, None, None, None],
        })
    }

    /// Whether the runs' sectors are of the area and do not wait, each named once.
    pub fn are_idle(&self, runs: &Runs) -> bool
        ensures { IsTrue result ↔ AreIdle self.now runs.now }
    {
        self.removed.are_out(runs) && self.kept.are_out(runs) && self.unfinished.are_out(runs)
    }

    /// Whether the runs' sectors are of unfinished creations, each named once.
    pub fn are_unfinished(&self, runs: &Runs) -> bool
        ensures { IsTrue result ↔ AreIn self.now.unfinished runs.now }
    {
        self.unfinished.are_in(runs)
    }

    /// Whether eight readers hold a version each.
    pub fn is_full(&self) -> bool
        ensures { result ≡ not (list_any is_empty self.now.held) }
    {
        readers::are_all_taken(&self.held)
    }

    /// Whether a reader holds a version by this slot.
    pub fn holds(&self, slot: u32) -> bool
        requires { slot < 8 }
        ensures { IsTrue result ↔ IsSome (get_or self.now.held slot None) }
    {
        self.held[slot as usize].is_some()
    }

    /// The sectors of a version that is removed wait for the next force, and then for the last reader that holds it.
    pub fn freed(&mut self, runs: &Runs)
        requires idle { AreIdle self.old runs.now }
        requires agree { All (IsSameOrApart runs.now) self.old.held }
        ensures removed { self.new.removed ≡ together self.old.removed runs.now }
        ensures kept { self.new.kept ≡ self.old.kept }
        ensures unfinished { self.new.unfinished ≡ self.old.unfinished }
        ensures held { self.new.held ≡ self.old.held }
    {
        self.removed.insert(runs);
    }

    /// A reader holds a version that stands: the slot, by which it is given up again.
    pub fn hold(&mut self, runs: &Runs) -> u32
        requires room { IsTrue (list_any is_empty self.old.held) }
        requires idle { AreIdle self.old runs.now }
        requires agree { All (IsSameOrApart runs.now) self.old.held }
        ensures inside { result < 8 }
        ensures empty { get_or self.old.held result None ≡ None }
        ensures held { self.new.held ≡ set self.old.held result (Some runs.now) }
        ensures removed { self.new.removed ≡ self.old.removed }
        ensures kept { self.new.kept ≡ self.old.kept }
        ensures unfinished { self.new.unfinished ≡ self.old.unfinished }
    {
        let slot = readers::empty_slot(&self.held);
        self.held[slot] = Some(runs.copied());
        slot as u32
    }

    /// A reader gives its slot up: the runs that become free, if any.
    pub fn unhold(&mut self, slot: u32) -> Option<Runs>
        requires inside { slot < 8 }
        requires held { IsSome (get_or self.old.held slot None) }
        ensures result { result ≡ given_back self.old.kept (set self.old.held slot None) (get_or self.old.held slot None) }
        ensures given { IfSome result (λ runs. AreIn self.old.kept runs) }
        ensures left { IfSome result (λ runs. AreUnheld self.new.held runs) }
        ensures waits { EmptiesSlot self.old self.new slot result }
    {
        let runs = self.held[slot as usize].take()?;
        if !readers::are_in(&self.kept, runs.as_slice()) || readers::have(&self.held, &runs) {
            return None;
        }
        self.kept.remove(&runs);
        Some(runs)
    }

    /// Whether each reader holds the very same runs or none of their sectors.
    pub fn agrees(&self, runs: &Runs) -> bool
        ensures { IsTrue result ↔ All (IsSameOrApart runs.now) self.now.held }
    {
        readers::agree(&self.held, runs)
    }

    /// The sectors of a creation wait until it ends.
    pub fn unfinished(&mut self, runs: &Runs)
        requires { AreIdle self.old runs.now }
        ensures removed { self.new.removed ≡ self.old.removed }
        ensures kept { self.new.kept ≡ self.old.kept }
        ensures unfinished { self.new.unfinished ≡ together self.old.unfinished runs.now }
        ensures held { self.new.held ≡ self.old.held }
    {
        self.unfinished.insert(runs);
    }

    /// The creation ended: its sectors are a version's, or free.
    pub fn ended(&mut self, runs: &Runs)
        requires { AreIn self.old.unfinished runs.now }
        ensures removed { self.new.removed ≡ self.old.removed }
        ensures kept { self.new.kept ≡ self.old.kept }
        ensures unfinished { self.new.unfinished ≡ without_sectors self.old.unfinished runs.now }
        ensures held { self.new.held ≡ self.old.held }
    {
        self.unfinished.remove(runs);
    }

    /// After a force: the start and the end of some removed sectors, which wait no more. Called until None. Those that
    /// a reader holds are kept for it.
    pub fn committed(&mut self) -> Option<(u32, u32)>
        ensures none { IsNone result ↔ ((unheld self.old.held self.old.removed).sectors ≡ []) }
        ensures some { IfSome result (λ p. p.0 < p.1) }
        ensures given { IfSome result (λ p. AreIn (unheld self.old.held self.old.removed) (run_between p ∷ [])) }
        ensures waits { GivesRun self.old self.new result }
        ensures fewer { OnSome result (length self.new.removed.sectors < length self.old.removed.sectors) }
    {
        let from = self.removed.from();
        readers::keep_held(&self.held, &mut self.removed, &mut self.kept);
        let run = self.removed.next_run(from)?;
        let mut runs = Runs::new();
        runs.push(run);
        self.removed.remove(&runs);
        Some((run.start, run.start + run.length))
    }

    /// How many sectors wait.
    pub fn waiting(&self) -> Waiting
        ensures all { result.all ≡ length (waiting_sectors self.now) }
        ensures removed { result.removed ≡ length self.now.removed.sectors }
        ensures once { AreSound self.now.removed self.now.kept self.now.unfinished self.now.held }
    {
        let removed = self.removed.count();
        let earlier = removed + self.kept.count();
        Waiting {
            all: earlier + self.unfinished.count(),
            removed,
        }
    }

    /// Whether a sector waits.
    pub fn waits(&self, s: u32) -> bool
        requires from { self.now.removed.from ≤ s }
        requires to { s < self.now.removed.to }
        ensures { result ≡ waits_in self.now s }
    {
        self.removed.contains(s) || self.kept.contains(s) || self.unfinished.contains(s)
    }
}
