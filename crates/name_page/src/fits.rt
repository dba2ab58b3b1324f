//! Whether what a page has stands between the keys of a child.
ghost use Rattle.std.specs.Prelude.{◌≡◌, ◌<◌, Some, length, slice_get};
ghost use Rattle.fsd_formats.specs.declared.entry.Entry.{Entry};
ghost use Rattle.fsd_formats.specs.declared.page.Separator.{Separator};
ghost use Rattle.fsd_table.specs.Pages.{not_below, below, keys_fit, entry_keys, separator_keys, content_fits};
ghost use Rattle.name_page.specs.Node.{content_of};

use crate::node::{Entries, Node, Ways};
use fsd_table::Child;

// Whether the first key of a leaf is none below the child's.
fn entries_begin(child: &Child, entries: &Entries) -> bool
    requires { 0 < length entries.now }
    ensures { (first : Entry) × (slice_get entries.now 0 ≡ Some first) × (result ≡ not_below child.now.low first.key) }
{
    match &child.low {
        Some(low) => !entries.compare(0, low).is_lt(),
        None => true,
    }
}

// Whether the last key of a leaf is below the child's end.
fn entries_end(child: &Child, entries: &Entries, last: u32) -> bool
    requires { last < length entries.now }
    ensures { (end : Entry) × (slice_get entries.now last ≡ Some end) × (result ≡ below child.now.high end.key) }
{
    match &child.high {
        Some(high) => entries.compare(last, high).is_lt(),
        None => true,
    }
}

// Keys ascend, so the first and the last tell of all.
fn entries_fit(child: &Child, entries: &Entries) -> bool
    ensures { result ≡ keys_fit child.now.low child.now.high (entry_keys entries.now) }
{
    let count = entries.len();
    if count == 0 {
        return true;
    }
    if !entries_begin(child, entries) {
        return false;
    }
    entries_end(child, entries, count - 1)
}

// Whether the first key of an interior page is none below the child's.
fn ways_begin(child: &Child, ways: &Ways) -> bool
    requires { 0 < length ways.now.1 }
    ensures { (first : Separator) × (slice_get ways.now.1 0 ≡ Some first) × (result ≡ not_below child.now.low first.key) }
{
    match &child.low {
        Some(low) => !ways.compare(0, low).is_lt(),
        None => true,
    }
}

// Whether the last key of an interior page is below the child's end.
fn ways_end(child: &Child, ways: &Ways, last: u32) -> bool
    requires { last < length ways.now.1 }
    ensures { (end : Separator) × (slice_get ways.now.1 last ≡ Some end) × (result ≡ below child.now.high end.key) }
{
    match &child.high {
        Some(high) => ways.compare(last, high).is_lt(),
        None => true,
    }
}

fn ways_fit(child: &Child, ways: &Ways) -> bool
    ensures { result ≡ keys_fit child.now.low child.now.high (separator_keys ways.now.1) }
{
    let count = ways.len();
    if count == 0 {
        return true;
    }
    if !ways_begin(child, ways) {
        return false;
    }
    ways_end(child, ways, count - 1)
}

/// Whether the page's keys stand between the child's.
pub fn node_fits(child: &Child, node: &Node) -> bool
    ensures { result ≡ content_fits child.now.low child.now.high (Some (content_of node.now)) }
{
    match node {
        Node::Free => false,
        Node::Leaf(entries) => entries_fit(child, entries),
        Node::Interior(ways) => ways_fit(child, ways),
    }
}
