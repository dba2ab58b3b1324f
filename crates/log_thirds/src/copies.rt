//! The copies of a record's images and of its end, as they were read.
ghost use Rattle.std.specs.Prelude.{◌≡◌, ◌≤◌, ◌+◌, ◌*◌, length, OnOk};
ghost use Rattle.volume_layout.specs.Kinds.{gap_of};
ghost use Rattle.log_record.specs.Found.{serving_in};
ghost use Rattle.log_thirds.specs.Copies.{served_at, AreServed};

use log_record::Found;
use std::alloc::AllocError;
use volume_layout::Layout;

// The record's sector that serves as its `j`th image, and behind the images as its end.
fn served_at(gap: usize, found: &Found, j: usize) -> usize
    requires gap { gap ≤ 1 }
    requires each { length found.now.page_copy.items ≡ length found.now.pages.items }
    requires j { j ≤ length found.now.pages.items }
    ensures is { result ≡ served_at gap (serving_in found.now) j }
    ensures inside { result + 1 ≤ 2 * length found.now.pages.items + (5 + 2 * gap) }
{
    let n = found.pages.len();
    let page_copy = found.page_copy.as_slice();
    if j < n {
        if page_copy[j] {
            4 + 2 * gap + n + j
        } else {
            3 + gap + j
        }
    } else if found.end_copy {
        4 + 2 * gap + 2 * n
    } else {
        3 + gap + n
    }
}

// Takes the sectors of a record that serve as its images, and then its end.
fn copies_as(
    gap: usize,
    found: &Found,
    bytes: &[u8],
    copies: &mut Vec<u8>,
) -> Result<(), AllocError>
    requires gap { gap ≤ 1 }
    requires each { length found.now.page_copy.items ≡ length found.now.pages.items }
    requires room { 512 * (2 * length found.now.pages.items + (5 + 2 * gap)) ≤ length bytes.now }
    ensures { OnOk result (AreServed gap (serving_in found.now) bytes.now (length found.now.pages.items + 1) copies.new.items) }
{
    let count = found.pages.len() + 1;
    copies.clear();
    for j in 0..count {
        let k = served_at(gap, found, j);
        copies.extend_from_slice(&bytes[512 * k..512 * k + 512])?;
    }
    Ok(())
}

/// Takes the sectors of a record that serve as its images, and then its end, on a volume of this layout.
pub(crate) fn copies_in(
    layout: &Layout,
    found: &Found,
    bytes: &[u8],
    copies: &mut Vec<u8>,
) -> Result<(), AllocError>
    requires each { length found.now.page_copy.items ≡ length found.now.pages.items }
    requires room { 512 * (2 * length found.now.pages.items + (5 + 2 * gap_of layout.now)) ≤ length bytes.now }
    ensures { OnOk result (AreServed (gap_of layout.now) (serving_in found.now) bytes.now (length found.now.pages.items + 1) copies.new.items) }
{
    let gap = layout.kind().more() as usize;
    copies_as(gap, found, bytes, copies)
}
