//! Runs that share a sector.
ghost use Rattle.std.specs.Prelude.{◌≡◌};
ghost use Rattle.std.specs.List.{list_any, range_with_len};
ghost use Rattle.run_table.specs.RunTable.{sectors_of};
ghost use Rattle.run_table.specs.Space.{contains, all_differ};
ghost use Rattle.sector_set.specs.Meet.{meets};

use run_table::Run;

/// Whether a sector of some runs is one of other runs.
pub fn overlap(runs: &[Run], others: &[Run]) -> bool
    ensures { result ≡ meets (sectors_of others.now) runs.now }
{
    for run in runs {
        if run_overlaps(*run, others) {
            return true;
        }
    }
    false
}

fn run_overlaps(run: Run, others: &[Run]) -> bool
    ensures { result ≡ list_any (contains (sectors_of others.now)) (range_with_len run.start run.length) }
{
    for other in others {
        if run_overlaps_run(run, *other) {
            return true;
        }
    }
    false
}

fn run_overlaps_run(run: Run, other: Run) -> bool
    ensures { result ≡ list_any (contains (range_with_len other.start other.length)) (range_with_len run.start run.length) }
{
    let first = run.start.max(other.start) as u64;
    let end = run.start as u64 + run.length as u64;
    let other_end = other.start as u64 + other.length as u64;
    first < end && first < other_end
}

/// Whether the runs name each sector once.
pub fn differ(runs: &[Run]) -> bool
    ensures { result ≡ all_differ (sectors_of runs.now) }
{
    for (i, run) in runs.iter().enumerate() {
        if run_overlaps(*run, &runs[i + 1..]) {
            return false;
        }
    }
    true
}
