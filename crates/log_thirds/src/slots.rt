//! Where each page's last image lies.
ghost use Rattle.std.specs.Prelude.{◌≡◌, ◌<◌, ◌+◌, ◌*◌, ◌^◌, Some, None, IfOk, IfSome, IfNone, is_some, length, map, slice_set, replicate};
ghost use Rattle.std.specs.List.{list_any};
ghost use Rattle.volume_layout.specs.Kinds.{gap_of};
ghost use Rattle.fsd_log.specs.Slots.{slot_outside, noted_slots, lies_in, IsLeastIn, NoneLiesIn};

use fsd_log::Slot;
use std::alloc::{AllocError, Global};
use volume_layout::Layout;

/// A table with no slot.
pub(crate) fn no_slots(alloc: Global, pages: u32) -> Result<Vec<Option<Slot>>, AllocError>
    ensures { IfOk result (λ slots. slots.items ≡ replicate pages None) }
{
    vec![in alloc; None; pages as usize]
}

/// Drops every slot.
pub(crate) fn clear(slots: &mut [Option<Slot>])
    ensures { slots.new ≡ replicate (length slots.old) None }
{
    slots.fill(None);
}

/// Drops the slots whose images lie in so many sectors from a start on.
pub(crate) fn drop_in(slots: &mut [Option<Slot>], start: u32, count: u32)
    requires { start + count < 2 ^ 32 }
    ensures { slots.new ≡ map (slot_outside start count) slots.old }
{
    for slot in slots.iter_mut() {
        if lies_in(slot, start, count) {
            *slot = None;
        }
    }
}

// Puts a page's slot, if the table has the page.
fn put(slots: &mut [Option<Slot>], page: u32, slot: Slot)
    ensures { slots.new ≡ slice_set slots.old page (Some slot) }
{
    if (page as usize) < slots.len() {
        slots[page as usize] = Some(slot);
    }
}

// Puts the slots of these pages, whose images begin at a place in a record of this number and with this gap.
fn note_at(slots: &mut [Option<Slot>], number: u32, place: u32, gap: u32, pages: &[u32])
    requires { place + (2 * length pages.now + 1 + gap) < 2 ^ 32 }
    ensures { slots.new ≡ noted_slots number place (place + length pages.now + 1 + gap) pages.now slots.old }
{
    let n = pages.len();
    for k in 0..n {
        let j = n - 1 - k;
        put(
            slots,
            pages[j],
            Slot {
                place: place + j as u32,
                copy: place + n as u32 + 1 + gap + j as u32,
                number,
            },
        );
    }
}

/// Puts the slots of the pages of a record of this number that begins at a place, on a volume of this layout.
pub(crate) fn note(
    slots: &mut [Option<Slot>],
    layout: &Layout,
    number: u32,
    place: u32,
    pages: &[u32],
)
    requires { place + (2 * length pages.now + (5 + 2 * gap_of layout.now)) < 2 ^ 32 }
    ensures { slots.new ≡ noted_slots number (place + 3 + gap_of layout.now) (place + 3 + gap_of layout.now + length pages.now + 1 + gap_of layout.now) pages.now slots.old }
{
    let gap = layout.kind().more();
    note_at(slots, number, place + 3 + gap, gap, pages);
}

// Whether a slot's image lies in so many sectors from a start on.
fn lies_in(slot: &Option<Slot>, start: u32, count: u32) -> bool
    requires { start + count < 2 ^ 32 }
    ensures { result ≡ lies_in start count slot.now }
{
    match slot {
        Some(slot) => start <= slot.place && slot.place < start + count,
        None => false,
    }
}

/// The least page from `first` on whose image lies in so many sectors from a start on.
pub(crate) fn least_in(slots: &[Option<Slot>], first: u32, start: u32, count: u32) -> Option<u32>
    requires small { length slots.now < 2 ^ 32 }
    requires ends { start + count < 2 ^ 32 }
    ensures least { IfSome result (IsLeastIn slots.now first start count) }
    ensures none { IfNone result (NoneLiesIn slots.now first start count) }
{
    let pages = slots.len() as u32;
    for page in first..pages {
        if lies_in(&slots[page as usize], start, count) {
            return Some(page);
        }
    }
    None
}

/// Whether some page has a slot.
pub(crate) fn has_some(slots: &[Option<Slot>]) -> bool
    ensures { result ≡ list_any is_some slots.now }
{
    slots.iter().any(|slot| slot.is_some())
}
