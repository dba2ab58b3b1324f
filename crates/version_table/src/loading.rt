//! What loading a version is to do: its key and keep are given, and none goes.
ghost use Rattle.std.specs.Prelude.{◌≡◌, ◌≤◌, IfErr, IfOk, MatchOption, Some, is_some, true};
ghost use Rattle.fsd_files.specs.Answers.{entry_of};
ghost use Rattle.name_btree.specs.declared.lookup.FoundEntry.{FoundEntry};
ghost use Rattle.name_btree.specs.Lookup.{IsMetAs};
ghost use Rattle.name_page.specs.declared.pages.TheConstants.{MOST_REACHED};
ghost use Rattle.name_page.specs.Looks.{OnlyWalks};
ghost use Rattle.version_table.specs.Fault.{outer_met, FailsToFindVersion, ShowsLook};
ghost use Rattle.version_table.specs.Loading.{IsLoadPlan, IsThere};
ghost use Rattle.version_table.specs.Table.{OfTable};

use crate::fault::VersionFault;
use crate::finding::version_at;
use crate::planning::Plan;
use arrayvec::ArrayVec;
use fsd_bytes::Key;
use name_page::Pages;

/// Plans a version of this key and keep. None where a version has the key. The table stays; the look-up is a step of
/// its own.
pub fn plan_load<T: Pages>(t: &mut T, key: &Key, keep: u32) -> Result<Option<Plan>, VersionFault>
    requires { MOST_REACHED ≤ (T.step t.old).most_reached }
    ensures walks { OnlyWalks T.Pages (outer_met result) t.old t.new }
    ensures planned { IfOk result (λ found. MatchOption found (IsThere T.Pages key.now t.old t.new) (IsLoadPlan T.Pages key.now keep t.old t.new)) }
    ensures failed { IfErr result (FailsToFindVersion T.Pages t.old t.new ⊥ ⊥) }
    ensures shown { IfErr result (ShowsLook (T.step t.new)) }
{
    match version_at(t, key) {
        Ok(_) => Ok(None),
        Err(VersionFault::NoSuch) => Ok(Some(Plan {
            key: key.copied(),
            keep,
            gone: ArrayVec::new(),
        })),
        Err(fault) => Err(fault),
    }
}
