//! What making a version is to do.
ghost use Rattle.std.specs.Prelude.{◌≡◌, ◌<◌, ◌≤◌, ◌-◌, ◌^◌, ◌↔◌, IfOk, IfErr, IfSome, IsNone, Some, option_map};
ghost use Rattle.fsd_bytes.specs.Keys.{max_u32};
ghost use Rattle.fsd_files.specs.Files.{keep_of, next_version};
ghost use Rattle.name_btree.specs.Lookup.{found_entry};
ghost use Rattle.name_page.specs.declared.pages.TheConstants.{MOST_REACHED};
ghost use Rattle.name_page.specs.Looks.{OnlyWalks};
ghost use Rattle.version_table.specs.Fault.{outer_met, FailsToFindVersion, ShowsLook};
ghost use Rattle.version_table.specs.Plan.{IsFormedPlan, IsPlan, IsPlanReady};
ghost use Rattle.version_table.specs.Table.{OfTable};
ghost use Rattle.version_table.specs.Versions.{next_key};

use crate::fault::VersionFault;
use crate::oldest::{Leaving, meet_leaving};
use crate::version::{keep_of, next_version};
use arrayvec::ArrayVec;
use fsd_bytes::{FileName, Key};
use name_btree::{FoundEntry, highest};
use name_page::Pages;

/// What making a version is to do: its key, its keep, and the versions that go, the oldest first. Whoever frees what
/// goes can test it first: it is told as it was met, with its leaf.
#[derive(Drop)]
pub struct Plan {
    pub key: Key,
    pub keep: u32,
    pub gone: ArrayVec<Leaving, 2>,
}

// The number and the keep of a version behind the highest of its name. None where all numbers are used up.
fn next_of(highest: Option<FoundEntry>, given: Option<u32>) -> Option<(u32, u32)>
    ensures used_up { IsNone result ↔ (option_map (λ e. e.key.version) (found_entry highest) ≡ Some (2 ^ 32 - 1)) }
    ensures version { IfSome result (λ next. next.0 ≡ next_version (option_map (λ e. e.key.version) (found_entry highest))) }
    ensures keep { IfSome result (λ next. next.1 ≡ keep_of given (option_map (λ e. e.keep) (found_entry highest))) }
{
    let (last, keep) = match highest {
        Some(found) => (Some(found.entry.key.version), Some(found.entry.keep)),
        None => (None, None),
    };
    let version = next_version(last)?;
    Some((version, keep_of(given, keep)))
}

/// Plans the next version of a name, whose keep is at most 999. The table stays; each look-up is a step of its own.
pub fn plan_version<T: Pages>(
    t: &mut T,
    name: &FileName,
    given: Option<u32>,
) -> Result<Plan, VersionFault>
    requires more { MOST_REACHED ≤ (T.step t.old).most_reached }
    requires given { IfSome given (λ keep. keep ≤ 999) }
    ensures walks { OnlyWalks T.Pages (outer_met result) t.old t.new }
    ensures formed { IfOk result (IsFormedPlan T.Pages name.now t.old t.new) }
    ensures planned { IfOk result (λ plan. OfTable T.Pages t.old t.new (λ table. IsPlan name.now given table plan)) }
    ensures ready { IfOk result (λ plan. OfTable T.Pages t.old t.new (IsPlanReady plan)) }
    ensures failed { IfErr result (FailsToFindVersion T.Pages t.old t.new ⊥ (OfTable T.Pages t.old t.new (λ table. max_u32 < (next_key name.now table).version))) }
    ensures shown { IfErr result (ShowsLook (T.step t.new)) }
{
    t.rest();
    let highest = match highest(t, name) {
        Ok(highest) => highest,
        Err(fault) => return Err(VersionFault::Table(fault)),
    };
    let next = match next_of(highest, given) {
        Some(next) => next,
        None => return Err(VersionFault::VersionsUsedUp),
    };
    match meet_leaving(t, name, next.1) {
        Ok(gone) => Ok(Plan {
            key: Key {
                name: name.copied(),
                version: next.0,
            },
            keep: next.1,
            gone,
        }),
        Err(fault) => Err(VersionFault::Table(fault)),
    }
}
