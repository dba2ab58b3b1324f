//! `FramePool`. A clause sees a pool as the list of its frames, each the list of its bytes.
ghost use Rattle.std.specs.Prelude.{◌≡◌, ◌≢◌, ◌<◌, length, replicate, slice_get, Some, IfOk};
ghost use Rattle.std.specs.Borrow.{sem};
ghost use Rattle.frame_pool.specs.RowLends.{LendsTwoOf};

use crate::cells::{Base, Cells, Deed, allocate, deallocate, empty, fill};
use std::alloc::{AllocError, Global};
use std::marker::Model;

/// The bytes of one frame, as many as a sector of the disk has.
pub type Sector = [u8; 512];

/// The most frames whose bytes can be counted: a block has fewer than 2^63 bytes.
const MOST_FRAMES: usize = isize::MAX as usize / 512;

/// Frames side by side in one block, which is taken once and given back when the pool is dropped.
pub struct FramePool {
    base: Base<Sector>,
    count: usize,
    cells: Cells<Sector>,
    deed: Deed<Sector, Global>,
    alloc: Global,
}

impl Model for FramePool {
    ghost use Rattle.std.specs.Prelude.{List, ℕ};

    ghost Value = { List (List ℕ) };

    ghost use Rattle.frame_pool.specs.FramePool.{frames_of, IsPool};

    ghost view = { frames_of };

    ghost invariant = { IsPool };
}

impl FramePool {
    ghost use Rattle.frame_pool.specs.FramePoolLends.{LendsFrame, LendsFrames, LendsTwo};

    /// A pool of `frames` frames of zeros. It fails for want of memory alone.
    pub fn new(alloc: Global, frames: usize) -> Result<FramePool, AllocError>
        ensures ok { IfOk result (λ p. p ≡ replicate frames (replicate 512 0)) }
    {
        if MOST_FRAMES < frames {
            return Err(AllocError);
        }
        let (base, mut cells, deed) = allocate(&alloc, frames)?;
        fill(&mut cells, base, frames);
        Ok(FramePool {
            base,
            count: frames,
            cells,
            deed,
            alloc,
        })
    }

    /// The number of frames.
    pub fn len(&self) -> usize
        ensures { result ≡ length self.now }
    {
        self.count
    }

    /// The frame at index `i`.
    pub fn get(&self, i: usize) -> &Sector
        requires { i < length self.now }
        ensures { slice_get self.now i ≡ Some result.now }
    {
        self.cells.get(self.base, i)
    }

    /// The frame at index `i`, to write to.
    pub fn get_mut(&mut self, i: usize) -> &mut Sector
        requires { i < length self.old }
        ensures* writes_back { sem 𝓛 (LendsFrame self.entry i result) }
        ensures value { slice_get self.old i ≡ Some result.now }
    {
        let base = self.base;
        self.cells.get_mut(base, i)
    }

    /// All frames side by side, to write to.
    pub fn frames_mut(&mut self) -> &mut [Sector]
        ensures* writes_back { sem 𝓛 (LendsFrames self.entry result) }
        ensures value { result.now ≡ self.old }
    {
        let (base, count) = (self.base, self.count);
        self.cells.slice_mut(base, count)
    }

    /// Two frames at once, to copy from one to the other.
    pub fn two_mut(&mut self, i: usize, j: usize) -> (&mut Sector, &mut Sector)
        requires first { i < length self.old }
        requires second { j < length self.old }
        requires apart { i ≢ j }
        ensures* writes_back { sem 𝓛 (LendsTwo self.entry i j result) }
        ensures first { slice_get self.old i ≡ Some result.0.now }
        ensures second { slice_get self.old j ≡ Some result.1.now }
    {
        let start = self.base.ptr;
        unsafe { (&mut *start.add(i), &mut *start.add(j)) }
    }
}

/// Two different frames of a row at once.
pub fn two_of(frames: &mut [Sector], i: usize, j: usize) -> (&mut Sector, &mut Sector)
    requires first { i < length frames.old }
    requires second { j < length frames.old }
    requires apart { i ≢ j }
    ensures* writes_back { sem 𝓛 (LendsTwoOf frames.entry i j result) }
    ensures first { slice_get frames.old i ≡ Some result.0.now }
    ensures second { slice_get frames.old j ≡ Some result.1.now }
{
    if i < j {
        let (front, back) = frames.split_at_mut(j);
        (&mut front[i], &mut back[0])
    } else {
        let (front, back) = frames.split_at_mut(i);
        (&mut back[0], &mut front[j])
    }
}

impl Drop for FramePool {
    fn drop(self) {
        let FramePool {
            base,
            count,
            mut cells,
            deed,
            alloc,
        } = self;
        empty(&mut cells, base, count);
        deallocate(&alloc, base, count, cells, deed);
    }
}
