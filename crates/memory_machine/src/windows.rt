//! The weak runs of a machine in memory: which sectors they allow to be hurt, and which of them comes next.
ghost use Rattle.std.specs.Prelude.{◌≡◌};
ghost use Rattle.sector_disk.specs.Image.{in_weak_run, weak};
ghost use Rattle.memory_machine.specs.Windows.{all_weak, is_short, weak_run_at, shorter};

use crate::past::Hurt;
use sector_disk::{LONGEST_RUN, WeakRun};

fn is_in_run(run: WeakRun, place: u32) -> bool
    ensures { result ≡ in_weak_run run place }
{
    run.first <= place && place - run.first < run.count
}

fn is_weak(present: Option<WeakRun>, next: Option<WeakRun>, place: u32) -> bool
    ensures { result ≡ weak present next place }
{
    match (present, next) {
        (None, None) => false,
        (Some(run), None) => is_in_run(run, place),
        (None, Some(run)) => is_in_run(run, place),
        (Some(run), Some(next)) => is_in_run(run, place) && is_in_run(next, place),
    }
}

// Whether the windows allow each of these hurts.
pub(crate) fn are_weak(present: Option<WeakRun>, next: Option<WeakRun>, hurts: &[Hurt]) -> bool
    ensures { result ≡ all_weak present next hurts.now }
{
    hurts.iter().all(|hurt| is_weak(present, next, hurt.sector))
}

// Whether there is no run, or a short one.
pub(crate) fn is_short(run: Option<WeakRun>) -> bool
    ensures { result ≡ is_short run }
{
    match run {
        None => true,
        Some(run) => run.count <= LONGEST_RUN,
    }
}

// The first sectors of a run, at most so many.
fn shorter(run: WeakRun, longest: u32) -> WeakRun
    ensures { result ≡ shorter longest run }
{
    WeakRun {
        first: run.first,
        count: run.count.min(longest),
    }
}

// The run that the healing after so many names, where it may have so many sectors; the last one again when all are used
// up.
pub(crate) fn run_at(runs: &[WeakRun], named: usize, longest: u32) -> WeakRun
    ensures { result ≡ weak_run_at longest runs.now named }
{
    if named < runs.len() {
        return shorter(runs[named], longest);
    }
    match runs.last() {
        Some(run) => shorter(*run, longest),
        None => WeakRun { first: 0, count: 0 },
    }
}
