//! The versions of a name.
ghost use Rattle.std.specs.Prelude.{◌≡◌, ◌-◌, ◌^◌, ◌↔◌, IsNone, IfSome, Some};
ghost use Rattle.std.specs.Option.{option_to_list};
ghost use Rattle.fsd_files.specs.Files.{next_version, keep_of, gone, moved_out};

use arrayvec::ArrayVec;

// What a name keeps where nothing else is said.
const DEFAULT_KEEP: u32 = 2;

// How many versions go at most when one comes.
const MOST_GONE: usize = 2;

/// The number of a new version, from the highest of its name. None where all numbers are used up.
pub fn next_version(highest: Option<u32>) -> Option<u32>
    ensures used_up { IsNone result ↔ (highest ≡ Some (2 ^ 32 - 1)) }
    ensures value { IfSome result (λ version. version ≡ next_version highest) }
{
    highest.unwrap_or(0).checked_add(1)
}

/// The keep of a new version, from the given one and that of the highest version of its name.
pub fn keep_of(given: Option<u32>, highest: Option<u32>) -> u32
    ensures { result ≡ keep_of given highest }
{
    given.or(highest).unwrap_or(DEFAULT_KEEP)
}

/// Which versions of a name go, the oldest first. They are given ascending, with the new one among them.
pub fn gone(versions: &[u32], keep: u32) -> ArrayVec<u32, 2>
    ensures { result.items ≡ gone keep versions.now }
{
    let mut out = ArrayVec::new();
    if keep == 0 {
        return out;
    }
    let beyond = versions.len().saturating_sub(keep as usize).min(MOST_GONE);
    for version in &versions[..beyond] {
        out.push(*version);
    }
    out
}

/// Which version of a name goes where one of them has come by a move. They are given as for `gone`.
pub fn moved_out(versions: &[u32], keep: u32) -> Option<u32>
    ensures { option_to_list result ≡ moved_out keep versions.now }
{
    gone(versions, keep).as_slice().first().copied()
}
