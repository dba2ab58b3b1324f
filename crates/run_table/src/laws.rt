//! Laws over the definitions: the functions do nothing, the contract of each is a law.
ghost use Rattle.std.specs.Prelude.{◌≡◌, ◌<◌, ◌≤◌, ◌↔◌, ℕ, List, Some, None, IfSome, IsTrue, nat_le, slice_index, length};
ghost use Rattle.std.specs.List.{AllByRecursion, flat_map, list_all};
ghost use Rattle.run_table.specs.declared.run.Run.{Run};
ghost use Rattle.run_table.specs.RunTable.{read_runs, run_bytes, FitsRun, total, sectors_of};
ghost use Rattle.run_table.specs.Space.{contains, pick, best};

/// The bytes of runs are read exactly where they are spelled.
pub fn runs_are_spelled()
    ensures found { (bytes : List ℕ) (runs : List Run) → ((i : ℕ) → slice_index bytes i < 256) → read_runs bytes ≡ Some runs → bytes ≡ flat_map run_bytes runs }
    ensures only { (runs : List Run) → length runs ≤ 8 → AllByRecursion FitsRun runs → IsTrue (list_all (λ r. nat_le 1 r.length) runs) →
        read_runs (flat_map run_bytes runs) ≡ Some runs }
{}

/// Sectors are chosen from the free ones, as many as are needed,
/// and none exactly where the eight longest runs are too short.
pub fn choice_of_sectors()
    ensures count { (runs : List Run) (need : ℕ) → IfSome (pick runs need) (λ out. total out ≡ need) }
    ensures free { (runs : List Run) (need : ℕ) → IfSome (pick runs need)
        (λ out. (s : ℕ) → IsTrue (contains (sectors_of out) s) → IsTrue (contains (sectors_of runs) s)) }
    ensures none { (runs : List Run) (need : ℕ) → (pick runs need ≡ None) ↔ (best runs < need) }
{}
