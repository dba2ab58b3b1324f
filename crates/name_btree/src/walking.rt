//! The walk over all pages that page 0 leads to.
ghost use Rattle.std.specs.List.{AllByRecursion};
ghost use Rattle.std.specs.Prelude.{◌≡◌, ◌<◌, ◌≤◌, IfOk, IfErr, [], ◌∷◌, Some, true, length, not, slice_get, slice_set, if◌then◌else◌};
ghost use Rattle.fsd_table.specs.Pages.{children};
ghost use Rattle.name_btree.specs.Fault.{outer_told, FailsAmong, IsAmong};
ghost use Rattle.name_btree.specs.Still.{HasRefusal};
ghost use Rattle.name_btree.specs.Walk.{AreMarksOf, KeepsMarks, MarksPage, is_marked, IsWalkedSubtree, AreWalked, FailsOver, IsTopLevel, IsCountedTree};
ghost use Rattle.name_page.specs.Looks.{NeedsNoMore, OnlyWalks};
ghost use Rattle.name_page.specs.Pages.{rested};

use crate::child::child_node;
use crate::descent::{copied, end_of};
use crate::fault::TreeFault;
use crate::lookup::top;
use fsd_table::Child;
use name_page::{Node, Pages, Ways};

// Child `i` of an interior page, counted from 0.
pub(crate) fn child_at(ways: &Ways, i: u32, above: &Child) -> Child
    requires { i ≤ length ways.now.1 }
    ensures { slice_get (children ways.now.0 above.now.low above.now.high ways.now.1) i ≡ Some result }
{
    let high = end_of(ways, i, &above.high);
    if i == 0 {
        return Child {
            page: ways.first(),
            low: copied(&above.low),
            high,
        };
    }
    let separator = ways.get(i - 1);
    Child {
        page: separator.child,
        low: Some(separator.key),
        high,
    }
}

// Marks a page, unless it is marked.
fn is_new(reached: &mut [bool], page: u32) -> bool
    ensures new { result ≡ not (is_marked reached.old page) }
    ensures marks { reached.new ≡ (if result then slice_set reached.old page true else reached.old) }
{
    let i = page as usize;
    if i >= reached.len() || reached[i] {
        return false;
    }
    reached[i] = true;
    true
}

// The level of page 0, down the first children.
pub(crate) fn top_level<T: Pages>(t: &mut T) -> Result<u32, TreeFault>
    requires { 0 < (T.step t.old).most_reached }
    ensures calls { OnlyWalks T.Pages (outer_told result) t.old t.new }
    ensures memory { NeedsNoMore T.Pages (outer_told result) t.old t.new }
    ensures low { IfOk result (λ level. level ≤ 5) }
    ensures level { IfOk result (λ level. T.trusted t.new → IsTopLevel (T.step t.old).images level) }
    ensures failed { IfErr result (FailsAmong T.Pages t.old t.new) }
    ensures refused { IfErr result (HasRefusal (rested (T.step t.new)) (T.step t.new)) }
{
    let mut child = top();
    for level in 0..6u32 {
        t.rest();
        match child_node(t, &child)? {
            Node::Free => return Err(TreeFault::Broken(child.page)),
            Node::Leaf(_) => return Ok(level),
            Node::Interior(ways) => child = child_at(&ways, 0, &child),
        }
    }
    Err(TreeFault::Broken(child.page))
}

// Marks the pages below a child of a level, and counts their entries. Each page has a step of its own.
#[cycle(walk)]
fn walk_below<T: Pages>(
    t: &mut T,
    child: &Child,
    level: u32,
    reached: &mut [bool],
) -> Result<u32, TreeFault>
    requires more { 0 < (T.step t.old).most_reached }
    requires level { level ≤ 5 }
    ensures calls { OnlyWalks T.Pages (outer_told result) t.old t.new }
    ensures memory { NeedsNoMore T.Pages (outer_told result) t.old t.new }
    ensures among { child.now.page < length (T.step t.old).images → IfErr result (IsAmong (length (T.step t.old).images)) }
    ensures marks { MarksPage child.now.page reached.old reached.new }
    ensures walked { IfOk result (λ count. T.trusted t.new → IsWalkedSubtree (T.step t.old).spares level (T.step t.old).images child.now reached.old reached.new count) }
    ensures failed { IfErr result (FailsOver T.Pages t.new level (child.now ∷ []) reached.old) }
{
    if !is_new(reached, child.page) {
        return Err(TreeFault::Broken(child.page));
    }
    t.rest();
    match child_node(t, child)? {
        Node::Leaf(entries) if level == 0 => Ok(entries.len()),
        Node::Interior(ways) if level > 0 => walk_children(t, child, &ways, level - 1, reached),
        _ => Err(TreeFault::Broken(child.page)),
    }
}

#[cycle(walk)]
fn walk_children<T: Pages>(
    t: &mut T,
    above: &Child,
    ways: &Ways,
    level: u32,
    reached: &mut [bool],
) -> Result<u32, TreeFault>
    requires more { 0 < (T.step t.old).most_reached }
    requires level { level ≤ 4 }
    requires few { length ways.now.1 ≤ 9 }
    ensures calls { OnlyWalks T.Pages (outer_told result) t.old t.new }
    ensures memory { NeedsNoMore T.Pages (outer_told result) t.old t.new }
    ensures among { AllByRecursion (λ c. c.page < length (T.step t.old).images) (children ways.now.0 above.now.low above.now.high ways.now.1) → IfErr result (IsAmong (length (T.step t.old).images)) }
    ensures kept { KeepsMarks reached.old reached.new }
    ensures walked { IfOk result (λ count. T.trusted t.new → AreWalked (T.step t.old).spares level (T.step t.old).images (children ways.now.0 above.now.low above.now.high ways.now.1) reached.old reached.new count) }
    ensures failed { IfErr result (FailsOver T.Pages t.new level (children ways.now.0 above.now.low above.now.high ways.now.1) reached.old) }
{
    let mut count = 0u32;
    for i in 0..ways.len() + 1 {
        let child = child_at(ways, i, above);
        let more = walk_below(t, &child, level, reached)?;
        // Pages of a tree have far fewer entries; others may be other ones each time that they are reached.
        count = count.saturating_add(more);
    }
    Ok(count)
}

/// Marks the pages that page 0 leads to, and counts the entries. It ends over any pages at all, and rests before each
/// that it reaches. After a fault some pages may be marked.
pub fn walk<T: Pages>(t: &mut T, reached: &mut [bool]) -> Result<u32, TreeFault>
    requires more { 0 < (T.step t.old).most_reached }
    requires whole { length reached.old ≡ length (T.step t.old).images }
    requires clear { AreMarksOf [] reached.old }
    ensures calls { OnlyWalks T.Pages (outer_told result) t.old t.new }
    ensures memory { NeedsNoMore T.Pages (outer_told result) t.old t.new }
    ensures root { IfOk result (λ count. is_marked reached.new 0 ≡ true) }
    ensures counted { IfOk result (λ count. T.trusted t.new → IsCountedTree (T.step t.old) reached.new count) }
    ensures failed { IfErr result (FailsAmong T.Pages t.old t.new) }
    ensures refused { IfErr result (HasRefusal (rested (T.step t.new)) (T.step t.new)) }
{
    let level = top_level(t)?;
    walk_below(t, &top(), level, reached)
}
