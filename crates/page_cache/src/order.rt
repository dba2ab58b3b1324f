//! The order of use.
ghost use Rattle.std.specs.Prelude.{◌≡◌, ◌≤◌, ◌+◌, ◌∷◌, IsSome, IfSome, Some, None, IfOk, OnErr, nat_eq, length, reverse, find, option_map};
ghost use Rattle.std.specs.Map.{lookup};
ghost use Rattle.std.specs.Option.{option_map_or};
ghost use Rattle.lru.specs.LruCache.{lru_cache, promoted};
ghost use Rattle.page_cache.specs.Cache.{may_leave, leaving, staying};

use crate::cache::Slot;
use lru::LruCache;
use std::alloc::AllocError;

// Where a page lies, if it is the most recently used one, which takes no search.
fn newest_slot(order: &LruCache<u32, Slot>, page: u32) -> Option<Slot>
    ensures { IfSome result (λ slot. lookup (nat_eq page) order.now.entries ≡ Some slot) }
{
    match order.peek_mru() {
        Some((first, slot)) => { if *first == page { Some(*slot) } else { None } }
        None => None,
    }
}

// Where a page lies that is in memory.
pub(crate) fn slot_of(order: &LruCache<u32, Slot>, page: u32) -> Slot
    requires { IsSome (lookup (nat_eq page) order.now.entries) }
    ensures { lookup (nat_eq page) order.now.entries ≡ Some result }
{
    match newest_slot(order, page) {
        Some(slot) => slot,
        None => *order.peek(&page).unwrap(),
    }
}

// Makes a page the most recently used, and answers its frame; nothing where it is not in memory.
pub(crate) fn touch(order: &mut LruCache<u32, Slot>, page: u32) -> Option<usize>
    ensures frame { result ≡ option_map (λ slot. slot.frame) (lookup (nat_eq page) order.old.entries) }
    ensures used { order.new ≡ lru_cache (promoted (nat_eq page) order.old.entries) order.old.cap }
{
    match order.get(&page) {
        Some(slot) => Some(slot.frame),
        None => None,
    }
}

// The least recently used page that is neither pinned nor dirty.
fn least_used_idle(order: &LruCache<u32, Slot>, dirty: &[u32]) -> Option<(u32, Slot)>
    ensures { result ≡ find (λ e. may_leave dirty.now e.0 e.1.pins) (reverse order.now.entries) }
{
    let mut rest = order.iter();
    while let Some((page, slot)) = rest.next_back() {
        if slot.pins == 0 && !dirty.contains(page) {
            return Some((*page, *slot));
        }
    }
    None
}

// Which page goes when one more comes.
fn leaver(order: &LruCache<u32, Slot>, dirty: &[u32], frames: usize) -> Option<(u32, Slot)>
    ensures { result ≡ leaving frames (λ e. may_leave dirty.now e.0 e.1.pins) order.now.entries }
{
    if order.len() == frames {
        least_used_idle(order, dirty)
    } else {
        None
    }
}

// Takes a page into the order, and lets another go where each frame is taken. It answers the frame.
pub(crate) fn take_in(
    order: &mut LruCache<u32, Slot>,
    dirty: &[u32],
    frames: usize,
    page: u32,
) -> Result<usize, AllocError>
    requires new { lookup (nat_eq page) order.old.entries ≡ None }
    requires fit { length order.old.entries ≤ frames }
    requires room { order.old.cap ≡ frames + 1 }
    ensures frame { let goes = leaving frames (λ e. may_leave dirty.now e.0 e.1.pins) order.old.entries in
        IfOk result (λ frame. frame ≡ option_map_or (λ e. e.1.frame) goes (length order.old.entries)) }
    ensures entries { let goes = leaving frames (λ e. may_leave dirty.now e.0 e.1.pins) order.old.entries in
        IfOk result (λ frame. order.new ≡ lru_cache ((page, record { frame = frame; pins = 0 }) ∷ staying goes order.old.entries) order.old.cap) }
    ensures kept { OnErr result (order.new ≡ order.old) }
{
    let goes = leaver(order, dirty, frames);
    let frame = match goes {
        Some((_, slot)) => slot.frame,
        None => order.len(),
    };
    order.put(page, Slot { frame, pins: 0 })?;
    if let Some((other, _)) = goes {
        order.pop(&other);
    }
    Ok(frame)
}
