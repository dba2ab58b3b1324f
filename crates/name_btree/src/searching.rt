//! The search for the page that breaks a table.
ghost use Rattle.std.specs.Prelude.{◌≡◌, ◌<◌, ◌≤◌, false, length};
ghost use Rattle.name_btree.specs.Fault.{outer_of, FailsTable, FailsTree, IsNoUsedTree, is_inner, IsAmong};
ghost use Rattle.name_page.specs.Looks.{NeedsNoMore, OnlyWalks};
ghost use Rattle.name_page.specs.Pages.{reaches};

use crate::fault::TreeFault;
use crate::walking::walk;
use fsd_bytes::Refusal;
use name_page::Pages;

// Walks over the pages of what is no tree, up to one that breaks the table or is spare. The step ends. Where no walk
// meets one, the pages were other ones before, and page 0 is named.
fn search<T: Pages>(t: &mut T) -> TreeFault
    requires more { 0 < (T.step t.old).most_reached }
    ensures calls { OnlyWalks T.Pages (outer_of result) t.old t.new }
    ensures memory { NeedsNoMore T.Pages (outer_of result) t.old t.new }
    ensures reaches { reaches (T.step t.old) ≤ reaches (T.step t.new) }
    ensures cause { (T.trusted t.old → IsNoUsedTree (T.step t.old)) → FailsTable T.Pages t.new result }
    ensures among { 0 < length (T.step t.old).images → IsAmong (length (T.step t.old).images) result }
{
    let mut reached = [false; 4096];
    let pages = t.count() as usize;
    match walk(t, &mut reached[..pages]) {
        Err(TreeFault::Pages(refusal)) => TreeFault::Pages(refusal),
        Err(TreeFault::Broken(page)) => {
            t.rest();
            TreeFault::Broken(page)
        }
        Ok(_) => {
            t.rest();
            TreeFault::Broken(0)
        }
    }
}

// Whether the pages have a fault, and not the outside.
fn is_inner(fault: TreeFault) -> bool
    ensures { result ≡ is_inner fault }
{
    matches!(
        fault,
        TreeFault::Broken(_) | TreeFault::Pages(Refusal::Unsound(_))
    )
}

/// Why a call fails. Where it has met what no tree has, or a page that is spare, a page that breaks the table or is
/// spare is searched for and named.
pub(crate) fn fault_of<T: Pages>(t: &mut T, fault: TreeFault) -> TreeFault
    requires more { 0 < (T.step t.old).most_reached }
    ensures calls { (first : T) → OnlyWalks T.Pages (outer_of fault) first t.old → OnlyWalks T.Pages (outer_of result) first t.new }
    ensures memory { (first : T) → NeedsNoMore T.Pages (outer_of fault) first t.old → NeedsNoMore T.Pages (outer_of result) first t.new }
    ensures reaches { reaches (T.step t.old) ≤ reaches (T.step t.new) }
    ensures outer { is_inner fault ≡ false → result ≡ fault }
    ensures cause { FailsTree T.Pages t.old fault → FailsTable T.Pages t.new result }
    ensures among { 0 < length (T.step t.old).images → IsAmong (length (T.step t.old).images) result }
{
    if is_inner(fault) { search(t) } else { fault }
}
