//! Where the allocation map places versions, as worked out on paper.
ghost use Rattle.std.specs.Prelude.{◌≡◌, ◌≤◌, IfOk};

use alloc_map::{Map, NoPlace};
use run_table::{Run, Runs};
use std::alloc::{AllocError, Global};
use std::test::Fail;

/// The map of an area.
pub(crate) fn map_of(alloc: Global, from: u32, to: u32, taken: &[Run]) -> Result<Map, AllocError>
    requires { from ≤ to }
    ensures from { IfOk result (λ map. map.from ≡ from) }
    ensures to { IfOk result (λ map. map.to ≡ to) }
{
    Map::from_runs(alloc, from, to, taken)
}

// How many sectors are wanted, and the start and the length of each run that they go to.
type Choice = (u32, &'static [(u32, u32)]);

/// Between these of 100 to 110 lie free runs of two, three and three sectors.
pub(crate) const TAKEN: [Run; 2] = [
    Run {
        start: 102,
        length: 1,
    },
    Run {
        start: 106,
        length: 1,
    },
];

// Of two runs as long the lower comes first.
const LONGEST_FIRST: [Choice; 4] = [
    (2, &[(100, 2)]),
    (3, &[(103, 3)]),
    (4, &[(103, 3), (107, 1)]),
    (8, &[(103, 3), (107, 3), (100, 2)]),
];

// Whether these are the runs.
fn are_so(runs: &Runs, want: &[(u32, u32)]) -> bool {
    let runs = runs.as_slice();
    runs.len() == want.len()
        && runs
            .iter()
            .zip(want)
            .all(|(r, w)| r.start == w.0 && r.length == w.1)
}

#[test]
fn the_lowest_run_that_fits_or_the_longest_are_chosen(rt: HostRuntime) -> Result<(), Fail> {
    let mut map = map_of(rt.alloc(), 100, 110, &TAKEN)?;
    for (need, want) in LONGEST_FIRST {
        assert!(rt;
            map.choose(need).is_ok_and(|runs| are_so(&runs, want)),
            "{need} sectors"
        );
    }
    assert_eq!(rt; map.choose(9), Err(NoPlace::NoSpace { need: 9, free: 8 }));
    if let Ok(runs) = map.choose(4) {
        assert!(rt; map.are_free(&runs));
        map.take(&runs);
        assert_eq!(rt; map.free_count(), 4);
        assert!(rt; map.are_taken(&runs));
        map.release(&runs);
    }
    assert_eq!(rt; map.free_count(), 8);
    Ok(())
}
