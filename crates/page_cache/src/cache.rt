//! `Cache`.
ghost use Rattle.std.specs.Prelude.{◌≡◌};

use crate::fault::CacheFault;
use crate::order::{slot_of, take_in, touch};
use crate::source::PageSource;
use arrayvec::ArrayVec;
use frame_pool::{FramePool, Sector, two_of};
use lru::LruCache;
use name_page::read_page;
use sector_disk::Machine;
use std::alloc::{AllocError, Global};
use std::marker::Model;
use std::num::NonZeroUsize;

/// The index of a frame in the pool.
pub type Frame = usize;

// The most frames that a cache has.
const MOST_FRAMES: usize = 1024;

/// As many pages as may be dirty: those of one record.
pub const MOST_DIRTY: usize = 96;

// The frame of a page, and how often the page is pinned.
#[derive(Clone, Copy)]
pub struct Slot {
    pub(crate) frame: usize,
    pub(crate) pins: u32,
}

/// Pages in memory, each in a frame of its own.
#[derive(Drop)]
pub struct Cache {
    pool: FramePool,
    order: LruCache<u32, Slot>,
    dirty: ArrayVec<u32, MOST_DIRTY>,
    // For each frame the number of pages of a table in which the grammar accepts its page,
    // or 0 where that is not known.
    accepted: [u32; MOST_FRAMES],
}

impl Model for Cache {
    ghost use Rattle.page_cache.specs.Cache.{CacheValue};

    ghost Value = { CacheValue };

    ghost use Rattle.page_cache.specs.Inside.{value_of, IsInside};

    ghost view = { value_of };

    ghost invariant = { IsInside };
}

impl Cache {
    ghost use Rattle.std.specs.Prelude.{◌<◌, ◌≤◌, ◌≢◌, ◌⊎◌, ◌+◌, ◌-◌, ◌^◌, ℕ, List, Option, Ok, Some, None, IsTrue, slice_get, IfSome, IfOk, IfErr, OnOk, OnErr, length, option_map, is_some};
    ghost use Rattle.std.specs.Borrow.{sem};
    ghost use Rattle.sector_disk.specs.Calls.{OnlyReads, device_in};
    ghost use Rattle.page_cache.specs.Cache.{held, cached_bytes, pins_of, busy, frame_for, is_among, IsResident, IsCache, KeepsNewest, no_pages, used, entered_page, with_pins, with_dirty, cleaned};
    ghost use Rattle.page_cache.specs.Accepted.{cached_content};
    ghost use Rattle.page_cache.specs.Fetch.{fetch_failed_at};
    ghost use Rattle.page_cache.specs.Fetched.{KeepsFrames, TakesIn, FetchesNone};
    ghost use Rattle.page_cache.specs.Lends.{LendsBytes, LendsCacheFrames};
    ghost use Rattle.page_cache.specs.declared.cache.TheConstants.{MOST_DIRTY};

    /// A cache of so many frames, with no page in memory.
    pub fn new(alloc: Global, frames: usize) -> Result<Cache, AllocError>
        requires enough { 192 ≤ frames }
        requires few { frames ≤ 1024 }
        ensures ok { IfOk result (λ c. c ≡ no_pages frames) }
    {
        let pool = FramePool::new(alloc, frames)?;
        let order = LruCache::new(alloc, NonZeroUsize::new(frames + 1).unwrap())?;
        Ok(Cache {
            pool,
            order,
            dirty: ArrayVec::new(),
            accepted: [0; MOST_FRAMES],
        })
    }

    /// Brings a page into memory, if it is not there, and makes it the most recently used.
    pub fn fetch<M: Machine, S: PageSource>(
        &mut self,
        m: &mut M,
        page: u32,
        source: &S,
    ) -> Result<Frame, CacheFault>
        requires page { page < S.pages source.now }
        requires sectors { S.sectors source.now ≤ (M.report m.old).sectors }
        requires room { busy self.old < self.old.frames }

        // A page in memory is used. Nothing is asked of the disk.
        ensures hit { IfSome (held self.old page) (λ h. (result ≡ Ok h.frame) × (self.new ≡ used page self.old) × (m.new ≡ m.old)) }

        // Another enters, with what the source gave.
        ensures enters { held self.old page ≡ None → IfOk result (TakesIn M.Machine S.PageSource source.now page m.old m.new self.old self.new) }
        ensures newest { OnOk result (M.honest m.new → S.knows source.now (M.now m.old) →
            KeepsNewest (S.newest source.now (M.now m.old).image) self.old self.new) }

        ensures reads { OnlyReads M.Machine (device_in fetch_failed_at result) m.old m.new }
        ensures failed { IfErr result (FetchesNone M.Machine S.PageSource source.now page m.old m.new self.old self.new) }
        ensures frames { KeepsFrames self.old self.new }
    {
        match self.hit(page) {
            Some(frame) => Ok(frame),
            None => self.bring(m, page, source),
        }
    }

    // Makes a page the most recently used, if it is in memory.
    fn hit(&mut self, page: u32) -> Option<Frame>
        ensures frame { result ≡ option_map (λ h. h.frame) (held self.old page) }
        ensures used { self.new ≡ used page self.old }
        ensures absent { held self.old page ≡ None → self.new ≡ self.old }
        ensures newest { (source : ℕ → Option (List ℕ)) → KeepsNewest source self.old self.new }
        ensures busy { busy self.new ≡ busy self.old }
    {
        touch(&mut self.order, page)
    }

    // Brings a page into memory that is not there.
    fn bring<M: Machine, S: PageSource>(
        &mut self,
        m: &mut M,
        page: u32,
        source: &S,
    ) -> Result<Frame, CacheFault>
        requires new { held self.old page ≡ None }
        requires page { page < S.pages source.now }
        requires sectors { S.sectors source.now ≤ (M.report m.old).sectors }
        requires room { busy self.old < self.old.frames }

        ensures enters { IfOk result (TakesIn M.Machine S.PageSource source.now page m.old m.new self.old self.new) }
        ensures newest { OnOk result (M.honest m.new → S.knows source.now (M.now m.old) →
            KeepsNewest (S.newest source.now (M.now m.old).image) self.old self.new) }

        ensures reads { OnlyReads M.Machine (device_in fetch_failed_at result) m.old m.new }
        ensures failed { IfErr result (FetchesNone M.Machine S.PageSource source.now page m.old m.new self.old self.new) }
        ensures frames { KeepsFrames self.old self.new }
    {
        let mut bytes = [0; 512];
        source.load(m, page, &mut bytes)?;
        Ok(self.enter(page, &bytes)?)
    }

    // Gives a page that is not in memory a frame with these bytes.
    fn enter(&mut self, page: u32, bytes: &[u8; 512]) -> Result<Frame, AllocError>
        requires new { held self.old page ≡ None }
        requires room { busy self.old < self.old.frames }
        ensures frame { IfOk result (λ frame. frame ≡ frame_for self.old) }
        ensures entered { OnOk result (self.new ≡ entered_page page bytes.now self.old) }
        ensures newest { OnOk result ((source : ℕ → Option (List ℕ)) → source page ≡ Some bytes.now → KeepsNewest source self.old self.new) }
        ensures busy { busy self.new ≡ busy self.old }
        ensures kept { OnErr result (self.new ≡ self.old) }
    {
        let frames = self.pool.len();
        let frame = take_in(&mut self.order, self.dirty.as_slice(), frames, page)?;
        self.accepted[frame] = 0;
        *self.pool.get_mut(frame) = *bytes;
        Ok(frame)
    }

    /// Keeps a page in memory, until it is unpinned as often as it is pinned.
    pub fn pin(&mut self, page: u32)
        requires few { pins_of self.old page < 2 ^ 32 - 1 }
        requires resident { IsResident self.old page }
        ensures pins { self.new ≡ with_pins page (pins_of self.old page + 1) self.old }
        ensures busy { busy self.new ≤ busy self.old + 1 }
    {
        let slot = self.order.peek_mut(&page).unwrap();
        slot.pins += 1;
    }

    /// Takes back one `pin`.
    pub fn unpin(&mut self, page: u32)
        requires pinned { 0 < pins_of self.old page }
        requires resident { IsResident self.old page }
        ensures { self.new ≡ with_pins page (pins_of self.old page - 1) self.old }
    {
        let slot = self.order.peek_mut(&page).unwrap();
        slot.pins -= 1;
    }

    /// The bytes of a page in memory.
    pub fn bytes(&self, page: u32) -> &[u8; 512]
        requires { IsResident self.now page }
        ensures { cached_bytes self.now page ≡ Some result.now }
    {
        let slot = slot_of(&self.order, page);
        self.pool.get(slot.frame)
    }

    /// Whether the grammar accepts a page in memory, in a table of so many pages. A page that was accepted is read
    /// again only when its bytes came anew or were lent to be changed, or for another number of pages.
    pub fn is_accepted(&mut self, page: u32, pages: u32) -> bool
        requires { IsResident self.old page }
        ensures accepted { result ≡ is_some (cached_content self.old pages page) }
        ensures kept { self.new ≡ self.old }
    {
        let frame = slot_of(&self.order, page).frame;
        if pages != 0 && self.accepted[frame] == pages {
            return true;
        }
        let accepted = read_page(self.pool.get(frame), page, pages).is_ok();
        if accepted {
            self.accepted[frame] = pages;
        }
        accepted
    }

    /// The bytes of a page in memory, to be changed.
    pub fn bytes_mut(&mut self, page: u32) -> &mut [u8; 512]
        requires { IsResident self.old page }
        ensures* writes_back { sem 𝓛 (LendsBytes self.entry page result) }
        ensures value { cached_bytes self.old page ≡ Some result.now }
    {
        let slot = slot_of(&self.order, page);
        self.accepted[slot.frame] = 0;
        self.pool.get_mut(slot.frame)
    }

    /// All frames side by side, to be changed. Where a page lies `fetch` has answered.
    pub fn frames_mut(&mut self) -> &mut [Sector]
        ensures* writes_back { sem 𝓛 (LendsCacheFrames self.entry result) }
        ensures count { length result.now ≡ self.old.frames }
        ensures value { (page : ℕ) → IfSome (held self.old page) (λ h. slice_get result.now h.frame ≡ Some h.bytes) }
    {
        self.accepted = [0; MOST_FRAMES];
        self.pool.frames_mut()
    }

    /// The bytes of two pages in memory at once, to be changed. A caller that needs to know what the cache is
    /// afterwards takes `two_of` of `frames_mut`.
    pub fn two_mut(&mut self, p: u32, q: u32) -> (&mut [u8; 512], &mut [u8; 512])
        requires first { IsResident self.old p }
        requires second { IsResident self.old q }
        requires apart { p ≢ q }
        ensures first { cached_bytes self.old p ≡ Some result.0.now }
        ensures second { cached_bytes self.old q ≡ Some result.1.now }
    {
        let (i, j) = (slot_of(&self.order, p).frame, slot_of(&self.order, q).frame);
        two_of(self.frames_mut(), i, j)
    }

    /// The page differs from what the source has.
    pub fn dirty(&mut self, page: u32)
        requires resident { IsResident self.old page }
        requires room { IsTrue (is_among self.old.dirty page) ⊎ (length self.old.dirty < MOST_DIRTY) }
        ensures list { self.new ≡ with_dirty page self.old }
        ensures busy { busy self.new ≤ busy self.old + 1 }
    {
        if !self.dirty.as_slice().contains(&page) {
            self.dirty.push(page);
        }
    }

    /// For the proof alone: it gives what a cache keeps.
    pub fn attest(&self)
        ensures { IsCache self.now }
    {
        let _ = &self.dirty;
    }

    /// The pages that are dirty, in the order in which they became so.
    pub fn dirty_list(&self) -> &ArrayVec<u32, MOST_DIRTY>
        ensures value { result.now.items ≡ self.now.dirty }
        ensures valid { IsCache self.now }
    {
        &self.dirty
    }

    /// No page is dirty any more. The bytes stay.
    pub fn cleaned(&mut self)
        ensures { self.new ≡ cleaned self.old }
    {
        self.dirty.clear();
    }
}
