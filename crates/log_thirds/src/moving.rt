//! The thirds of the disk, round.
ghost use Rattle.std.specs.Prelude.{◌≡◌, ◌≤◌};
ghost use Rattle.fsd_log.specs.Moves.{next_third};

/// The third that follows.
pub(crate) fn next_third(third: u32) -> u32
    requires { third ≤ 2 }
    ensures { result ≡ next_third third }
{
    if third < 2 { third + 1 } else { 0 }
}
