//! The way to a leaf.
ghost use Rattle.std.specs.List.{Contains};
ghost use Rattle.std.specs.Prelude.{◌≡◌, ◌+◌, ◌-◌, ◌<◌, ◌≤◌, ℕ, IfOk, IfErr, MatchResult, Option, Some, length, drop, slice_get, false};
ghost use Rattle.fsd_formats.specs.declared.entry.Entry.{Entry};
ghost use Rattle.fsd_table.specs.declared.child.Child.{Child};
ghost use Rattle.fsd_table.specs.Pages.{children};
ghost use Rattle.fsd_table.specs.Table.{max_height, top};
ghost use Rattle.fsd_forest.specs.Ways.{end_of};
ghost use Rattle.name_page.specs.Cut.{is_before};
ghost use Rattle.name_page.specs.declared.cut.Cut.TheVariants.{UpTo};
ghost use Rattle.name_btree.specs.Descent.{way_from, way_to, GoesDown};
ghost use Rattle.name_btree.specs.declared.descent.Neighbour.{Neighbour};
ghost use Rattle.name_btree.specs.declared.descent.Way.{Way};
ghost use Rattle.name_btree.specs.Fault.{outer_told, FailsDown, is_inner};
ghost use Rattle.name_btree.specs.Lookup.{FailsBelow, IsFoundLeaf};
ghost use Rattle.name_btree.specs.Along.{IsFoundAlong};
ghost use Rattle.name_btree.specs.Path.{HasMet, Leads, TakesNone};
ghost use Rattle.name_page.specs.Looks.{OnlyReaches};
ghost use Rattle.name_page.specs.Pages.{reaches};

use crate::child::read_child;
use crate::fault::TreeFault;
use crate::lookup::top;
use crate::walking::child_at;
use fsd_bytes::Key;
use fsd_table::Child;
use name_page::{Cut, Entries, Node, Pages, Ways, node_in, ways_before};

/// A child beside the way to a leaf, and how many pages stand above it.
#[derive(Drop)]
pub(crate) struct Neighbour {
    pub(crate) child: Child,
    pub(crate) above: u32,
}

/// A child, and the nearest ones on each side of it.
#[derive(Drop)]
pub(crate) struct Way {
    pub(crate) child: Child,
    pub(crate) previous: Option<Neighbour>,
    pub(crate) next: Option<Neighbour>,
}

/// The leaf at a place between keys, and how many levels below the start it stands.
#[derive(Drop)]
pub(crate) struct LeafBelow {
    pub(crate) page: u32,
    pub(crate) entries: Entries,
    pub(crate) levels: u32,
}

pub(crate) fn copied(key: &Option<Key>) -> Option<Key>
    ensures { result ≡ key.now }
{
    match key {
        Some(key) => Some(key.copied()),
        None => None,
    }
}

// Where child `i` ends, counted from 0.
pub(crate) fn end_of(ways: &Ways, i: u32, high: &Option<Key>) -> Option<Key>
    requires { i ≤ length ways.now.1 }
    ensures { result ≡ end_of high.now (drop i ways.now.1) }
{
    if i < ways.len() {
        Some(ways.get(i).key)
    } else {
        copied(high)
    }
}

// The child before child `i` of a page, below so many pages, or else the nearest one before the page.
fn previous_of(
    ways: &Ways,
    i: u32,
    page: &Child,
    above: u32,
    previous: Option<Neighbour>,
) -> Option<Neighbour>
    requires { i ≤ length ways.now.1 }
    ensures first { i ≡ 0 → result ≡ previous }
    ensures before { 0 < i → (c : Child) × (slice_get (children ways.now.0 page.now.low page.now.high ways.now.1) (i - 1) ≡ Some c) × (result ≡ Some (record { child = c; above = above })) }
{
    if i == 0 {
        return previous;
    }
    let child = child_at(ways, i - 1, page);
    Some(Neighbour { child, above })
}

// The child behind child `i` of a page, below so many pages, or else the nearest one behind the page.
fn next_of(
    ways: &Ways,
    i: u32,
    page: &Child,
    above: u32,
    next: Option<Neighbour>,
) -> Option<Neighbour>
    requires { i ≤ length ways.now.1 }
    ensures last { i ≡ length ways.now.1 → result ≡ next }
    ensures behind { i < length ways.now.1 → (c : Child) × (slice_get (children ways.now.0 page.now.low page.now.high ways.now.1) (i + 1) ≡ Some c) × (result ≡ Some (record { child = c; above = above })) }
{
    if i == ways.len() {
        return next;
    }
    let child = child_at(ways, i + 1, page);
    Some(Neighbour { child, above })
}

// The child at a place between keys, below so many pages.
fn way_to(ways: &Ways, way: Way, above: u32, cut: &Cut) -> Way
    ensures { result ≡ way_to (is_before cut.now) above way.previous way.next ways.now.0 way.child.low way.child.high ways.now.1 }
{
    let i = ways_before(ways, cut);
    let Way {
        child,
        previous,
        next,
    } = way;
    Way {
        previous: previous_of(ways, i, &child, above, previous),
        next: next_of(ways, i, &child, above, next),
        child: child_at(ways, i, &child),
    }
}

// The child at a place between keys.
fn child_to(ways: &Ways, child: &Child, cut: &Cut) -> Child
    ensures { (above : ℕ) → (previous next : Option Neighbour) → result ≡ (way_to (is_before cut.now) above previous next ways.now.0 child.now.low child.now.high ways.now.1).child }
{
    child_at(ways, ways_before(ways, cut), child)
}

/// The leaf at a place between keys, below a child that so many pages stand above. What stands beside the way is not made.
pub(crate) fn leaf_below<T: Pages>(
    t: &mut T,
    start: Child,
    above: u32,
    cut: &Cut,
) -> Result<LeafBelow, TreeFault>
    requires { 6 ≤ reaches (T.step t.old) }
    ensures calls { OnlyReaches T.Pages (outer_told result) t.old t.new }
    ensures reaches { reaches (T.step t.old) ≤ reaches (T.step t.new) + 6 }
    ensures found { IfOk result (IsFoundAlong T.Pages cut.now above start t.old t.new) }
    ensures memory { HasMet T.Pages above (is_before cut.now) start t.old → TakesNone T.Pages (outer_told result) t.old t.new }
    ensures again { (e : Entry) → cut.now ≡ UpTo e.key → Leads T.Pages (max_height - above) t.old e start → MatchResult result (λ found. Contains found.entries e) (λ fault. is_inner fault ≡ false) }
    ensures failed { IfErr result (FailsBelow (T.step t.new) above start) }
{
    let from = above;
    let mut child = start;
    for above in above..6 {
        let mut node = Node::Free;
        read_child(t, &child, &mut node)?;
        match node {
            Node::Free => return Err(TreeFault::Broken(child.page)),
            Node::Leaf(entries) => {
                return Ok(LeafBelow {
                    page: child.page,
                    entries,
                    levels: above - from,
                });
            }
            Node::Interior(ways) => child = child_to(&ways, &child, cut),
        }
    }
    Err(TreeFault::Broken(child.page))
}

/// The way from page 0 to a leaf so many levels below, with what stands beside it. It goes over pages that the step has
/// reached, and reaches none.
pub(crate) fn way_again<T: Pages>(t: &T, levels: u32, cut: &Cut) -> Way
    requires { (end : Way) × GoesDown (T.step t.now) (is_before cut.now) levels 0 (way_from top) end }
    ensures { (end : Way) → GoesDown (T.step t.now) (is_before cut.now) levels 0 (way_from top) end → result ≡ end }
{
    let mut way = Way {
        child: top(),
        previous: None,
        next: None,
    };
    for above in 0..levels {
        match node_in(t.look(way.child.page)) {
            Node::Interior(ways) => way = way_to(&ways, way, above + 1, cut),
            Node::Free => return way,
            Node::Leaf(_) => return way,
        }
    }
    way
}

/// A leaf, and its page.
#[derive(Drop)]
pub(crate) struct LeafAtKey {
    pub(crate) page: u32,
    pub(crate) entries: Entries,
}

/// The leaf that has the entry with a key, where one has it. What stands beside the way is not read.
pub(crate) fn leaf_at<T: Pages>(t: &mut T, key: &Key) -> Result<LeafAtKey, TreeFault>
    requires { 6 ≤ reaches (T.step t.old) }
    ensures calls { OnlyReaches T.Pages (outer_told result) t.old t.new }
    ensures reaches { reaches (T.step t.old) ≤ reaches (T.step t.new) + 6 }
    ensures found { IfOk result (IsFoundLeaf (T.step t.old) (T.step t.new) key.now) }
    ensures failed { IfErr result (FailsDown (T.step t.new)) }
{
    let cut = Cut::UpTo(key.copied());
    let mut child = top();
    for _ in 0..6u32 {
        let mut node = Node::Free;
        read_child(t, &child, &mut node)?;
        match node {
            Node::Free => return Err(TreeFault::Broken(child.page)),
            Node::Leaf(entries) => {
                return Ok(LeafAtKey {
                    page: child.page,
                    entries,
                });
            }
            Node::Interior(ways) => {
                let i = ways_before(&ways, &cut);
                child = child_at(&ways, i, &child);
            }
        }
    }
    Err(TreeFault::Broken(child.page))
}
