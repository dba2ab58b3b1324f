//! What moving a version to another name is to do.
ghost use Rattle.std.specs.Prelude.{◌≡◌, ◌<◌, ◌≤◌, ◌==◌, ◌∷◌, IfOk, IfErr, None, if◌then◌else◌};
ghost use Rattle.arrayvec.specs.ArrayVec.{array_vec_len};
ghost use Rattle.fsd_bytes.specs.Keys.{max_u32};
ghost use Rattle.fsd_files.specs.Answers.{entry_of};
ghost use Rattle.name_page.specs.declared.pages.TheConstants.{MOST_REACHED};
ghost use Rattle.name_page.specs.Looks.{OnlyWalks};
ghost use Rattle.version_table.specs.Fault.{outer_met, FailsToFindVersion, ShowsLook};
ghost use Rattle.version_table.specs.Moving.{IsFormedMove, IsMovePlan, leaving_beside, other_of};
ghost use Rattle.version_table.specs.Plan.{IsPlanReady};
ghost use Rattle.version_table.specs.Table.{OfTable};
ghost use Rattle.version_table.specs.Versions.{next_key};

use crate::fault::VersionFault;
use crate::finding::version_at;
use crate::oldest::Leaving;
use crate::planning::{Plan, plan_version};
use arrayvec::ArrayVec;
use fsd_bytes::{FileName, Key};
use name_page::Pages;

// Of two versions that go, the first but the one of this key.
fn other_of(mut oldest: ArrayVec<Leaving, 2>, key: &Key) -> ArrayVec<Leaving, 2>
    ensures other { result.items ≡ other_of key.now oldest.items }
    ensures one { array_vec_len result ≤ 1 }
{
    if oldest.len() < 2 {
        return ArrayVec::new();
    }
    if oldest.as_slice()[0].entry.key.cmp(key).is_eq() {
        oldest.remove(0);
        oldest.truncate(1);
        return oldest;
    }
    oldest.truncate(1);
    oldest
}

// Of the versions of a name that go once there is one more, the one that goes where the version of a key comes. Of its
// own name one goes only where two would: the name has none more then.
fn leaving_beside(
    mut oldest: ArrayVec<Leaving, 2>,
    key: &Key,
    name: &FileName,
) -> ArrayVec<Leaving, 2>
    ensures beside { result.items ≡ leaving_beside key.now name.now oldest.items }
    ensures one { array_vec_len result ≤ 1 }
{
    if key.name.cmp(name).is_eq() {
        return other_of(oldest, key);
    }
    oldest.truncate(1);
    oldest
}

// The plan of the next version of a name, as the one of a move: a version that was looked up goes first, and gives its
// keep where the name has none.
fn moved_by(plan: Plan, moved: Leaving, name: &FileName) -> Plan
    ensures key { result.key ≡ plan.key }
    ensures keep { result.keep ≡ (if plan.key.version == 1 then moved.entry.keep else plan.keep) }
    ensures gone { result.gone.items ≡ moved ∷ leaving_beside moved.entry.key name.now plan.gone.items }
{
    let mut gone = leaving_beside(plan.gone, &moved.entry.key, name);
    let keep = if plan.key.version == 1 {
        moved.entry.keep
    } else {
        plan.keep
    };
    gone.insert(0, moved);
    Plan {
        key: plan.key,
        keep,
        gone,
    }
}

/// Plans that the version of a key becomes the next one of a name: it goes under its key, and of the name's others one
/// at most goes by the keep. The table stays; each look-up is a step of its own.
pub fn plan_move<T: Pages>(t: &mut T, key: &Key, name: &FileName) -> Result<Plan, VersionFault>
    requires { MOST_REACHED ≤ (T.step t.old).most_reached }
    ensures walks { OnlyWalks T.Pages (outer_met result) t.old t.new }
    ensures formed { IfOk result (IsFormedMove T.Pages key.now name.now t.old t.new) }
    ensures planned { IfOk result (λ plan. OfTable T.Pages t.old t.new (λ table. IsMovePlan key.now name.now table plan)) }
    ensures ready { IfOk result (λ plan. OfTable T.Pages t.old t.new (IsPlanReady plan)) }
    ensures failed { IfErr result (FailsToFindVersion T.Pages t.old t.new (OfTable T.Pages t.old t.new (λ table. entry_of key.now table ≡ None)) (OfTable T.Pages t.old t.new (λ table. max_u32 < (next_key name.now table).version))) }
    ensures shown { IfErr result (ShowsLook (T.step t.new)) }
{
    let moved = version_at(t, key)?;
    let plan = plan_version(t, name, None)?;
    let gone = Leaving {
        entry: moved.entry,
        page: moved.page,
    };
    Ok(moved_by(plan, gone, name))
}
