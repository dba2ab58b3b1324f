//! Pages that are reached.
ghost use Rattle.std.specs.Prelude.{◌≡◌, ◌+◌, ◌<◌, ◌≤◌, IfOk, IfErr, OnOk, length};
ghost use Rattle.name_page.specs.Node.{content_of};
ghost use Rattle.name_btree.specs.Still.{IsReadPage, IsReadChild, FailsPage, FailsChild};
ghost use Rattle.name_btree.specs.Fault.{outer_told};
ghost use Rattle.name_btree.specs.Path.{TakesNone};
ghost use Rattle.name_page.specs.Looks.{OnlyReaches};
ghost use Rattle.name_page.specs.Pages.{reaches};

use crate::fault::TreeFault;
use fsd_table::Child;
use name_page::{Node, Pages, node_fits, node_in};

// Reaches a page and reads it into a place of the caller.
fn read_at<T: Pages>(t: &mut T, page: u32, node: &mut Node) -> Result<(), TreeFault>
    requires more { 0 < reaches (T.step t.old) }
    requires within { page < length (T.step t.old).images }
    ensures calls { OnlyReaches T.Pages (outer_told result) t.old t.new }
    ensures reaches { reaches (T.step t.old) ≤ reaches (T.step t.new) + 1 }
    ensures read { OnOk result (IsReadPage (T.step t.old) (T.step t.new) page (content_of node.new)) }
    ensures memory { T.in_memory t.old page → TakesNone T.Pages (outer_told result) t.old t.new }
    ensures failed { IfErr result (FailsPage (T.step t.old) (T.step t.new) page) }
{
    match t.reach(page) {
        Ok(()) => {
            *node = node_in(t.look(page));
            Ok(())
        }
        Err(refusal) => Err(TreeFault::Pages(refusal)),
    }
}

/// Reaches a page and looks at it.
pub(crate) fn node_at<T: Pages>(t: &mut T, page: u32) -> Result<Node, TreeFault>
    requires more { 0 < reaches (T.step t.old) }
    requires within { page < length (T.step t.old).images }
    ensures calls { OnlyReaches T.Pages (outer_told result) t.old t.new }
    ensures reaches { reaches (T.step t.old) ≤ reaches (T.step t.new) + 1 }
    ensures read { IfOk result (λ node. IsReadPage (T.step t.old) (T.step t.new) page (content_of node)) }
    ensures memory { T.in_memory t.old page → TakesNone T.Pages (outer_told result) t.old t.new }
    ensures failed { IfErr result (FailsPage (T.step t.old) (T.step t.new) page) }
{
    let mut node = Node::Free;
    match read_at(t, page, &mut node) {
        Ok(()) => Ok(node),
        Err(fault) => Err(fault),
    }
}

/// Reaches a child, whose keys are to stand between its bounds, and reads it into a place of the caller,
/// which takes fewer copies than an answer.
pub(crate) fn read_child<T: Pages>(
    t: &mut T,
    child: &Child,
    node: &mut Node,
) -> Result<(), TreeFault>
    requires { 0 < reaches (T.step t.old) }
    ensures calls { OnlyReaches T.Pages (outer_told result) t.old t.new }
    ensures reaches { reaches (T.step t.old) ≤ reaches (T.step t.new) + 1 }
    ensures read { OnOk result (IsReadChild (T.step t.old) (T.step t.new) child.now (content_of node.new)) }
    ensures memory { T.in_memory t.old child.now.page → TakesNone T.Pages (outer_told result) t.old t.new }
    ensures failed { IfErr result (FailsChild (T.step t.old) (T.step t.new) child.now) }
{
    if child.page >= t.count() {
        return Err(TreeFault::Broken(child.page));
    }
    read_at(t, child.page, node)?;
    if !node_fits(child, node) {
        return Err(TreeFault::Broken(child.page));
    }
    Ok(())
}

/// Reaches a child, whose keys are to stand between its bounds.
pub(crate) fn child_node<T: Pages>(t: &mut T, child: &Child) -> Result<Node, TreeFault>
    requires { 0 < reaches (T.step t.old) }
    ensures calls { OnlyReaches T.Pages (outer_told result) t.old t.new }
    ensures reaches { reaches (T.step t.old) ≤ reaches (T.step t.new) + 1 }
    ensures read { IfOk result (λ node. IsReadChild (T.step t.old) (T.step t.new) child.now (content_of node)) }
    ensures memory { T.in_memory t.old child.now.page → TakesNone T.Pages (outer_told result) t.old t.new }
    ensures failed { IfErr result (FailsChild (T.step t.old) (T.step t.new) child.now) }
{
    let mut node = Node::Free;
    match read_child(t, child, &mut node) {
        Ok(()) => Ok(node),
        Err(fault) => Err(fault),
    }
}
