//! Slots of an image file that were read before they were asked for.
ghost use Rattle.std.specs.Prelude.{◌≡◌, ℕ, ◌+◌, ◌≤◌, ◌<◌, ◌^◌, false, IsTrue};
ghost use Rattle.image_file.specs.Ahead.{AddsNone, AreApart, Gives, GivesIn, HasNone, IsOut, KeepsOut};

use crate::image::ImageFile;
use crate::slot::SLOT_BYTES;
use crate::stretch::{MOST_SLOTS, Stretch};
use lru::LruCache;
use std::alloc::Global;
use std::io;
use std::num::NonZeroUsize;

// How many blocks there may be.
const MOST_BLOCKS: usize = 80;

/// Blocks of slots as the file gave them: block b has those of the sectors from 64 * b on, 64 or as many as the image
/// has there. The least recently used one gives way to another.
#[derive(Drop)]
pub(crate) struct Ahead {
    alloc: Global,
    // None where memory for them was refused, or no image was attached yet.
    blocks: Option<LruCache<u32, Stretch>>,
}

impl Ahead {
    /// None was read ahead.
    pub(crate) fn new(alloc: Global) -> Ahead
        ensures { HasNone result }
    {
        Ahead {
            alloc,
            blocks: None,
        }
    }

    /// Takes memory to keep blocks in order, if it is given. There are none of them.
    pub(crate) fn begin(&mut self)
        ensures { HasNone self.new }
    {
        self.drop_all();
        if self.blocks.is_none() {
            self.blocks = LruCache::new(self.alloc, NonZeroUsize::new(MOST_BLOCKS).unwrap()).ok();
        }
    }

    /// Drops all of them.
    pub(crate) fn drop_all(&mut self)
        ensures { HasNone self.new }
    {
        if let Some(blocks) = &mut self.blocks {
            blocks.clear();
        }
    }

    /// Drops each block that has one of so many sectors; all of them where these lie in more than two.
    pub(crate) fn drop_at(&mut self, first: u32, count: usize)
        requires { first + count < 2 ^ 32 }
        ensures apart { AreApart first count self.new }
        ensures others { AddsNone self.old self.new }
    {
        if let Some(blocks) = &mut self.blocks
            && count > 0
        {
            let last = first + (count - 1) as u32;
            drop_between(blocks, first / MOST_SLOTS, last / MOST_SLOTS);
        }
    }

    /// Gives the slot of a sector, if it is there.
    pub(crate) fn give(&mut self, sector: u32, slot: &mut [u8; SLOT_BYTES]) -> bool
        ensures given { IsTrue result → Gives self.old sector slot.new }
        ensures kept { result ≡ false → slot.new ≡ slot.old }
        ensures others { AddsNone self.old self.new }
    {
        match &mut self.blocks {
            Some(blocks) => give_in(blocks, sector, slot),
            None => false,
        }
    }

    /// Reads the slot of a sector of an image with so many, and has the block that it is in, if there is memory and the
    /// file gives all of it. None may wait for the file meanwhile, so `_waiting` has no slot.
    pub(crate) fn read(
        &mut self,
        image: &ImageFile,
        _waiting: &Stretch,
        sectors: u32,
        sector: u32,
        slot: &mut [u8; SLOT_BYTES],
    ) -> io::Result<()>
        requires { _waiting.now.count ≡ 0 }
    {
        self.fetch(image, sectors, sector / MOST_SLOTS);
        if self.give(sector, slot) {
            return Ok(());
        }
        image.read(sector, slot)
    }

    // Reads a block of an image with so many sectors.
    fn fetch(&mut self, image: &ImageFile, sectors: u32, block: u32)
        requires { block < 2 ^ 26 }
    {
        let first = block * MOST_SLOTS;
        let count = sectors.saturating_sub(first).min(MOST_SLOTS);
        if let Some(blocks) = &mut self.blocks
            && let Some(slots) = Stretch::read(self.alloc, image, first, count)
        {
            let _ = blocks.put(block, slots);
        }
    }
}

// The slot of a sector, if a block has it, which is the one that was used last then.
fn give_in(blocks: &mut LruCache<u32, Stretch>, sector: u32, slot: &mut [u8; SLOT_BYTES]) -> bool
    ensures given { IsTrue result → GivesIn blocks.old.entries sector slot.new }
    ensures kept { result ≡ false → slot.new ≡ slot.old }
    ensures others { KeepsOut blocks.old.entries blocks.new.entries }
{
    let given = peek_in(blocks, sector, slot);
    blocks.promote(&(sector / MOST_SLOTS));
    given
}

// The same, and leaves the order of the blocks as it is.
fn peek_in(blocks: &LruCache<u32, Stretch>, sector: u32, slot: &mut [u8; SLOT_BYTES]) -> bool
    ensures given { IsTrue result → GivesIn blocks.now.entries sector slot.new }
    ensures kept { result ≡ false → slot.new ≡ slot.old }
{
    match blocks.peek(&(sector / MOST_SLOTS)) {
        Some(block) => block.give(sector, slot),
        None => false,
    }
}

// Drops the blocks from one to another, or all.
fn drop_between(blocks: &mut LruCache<u32, Stretch>, first: u32, last: u32)
    requires { first < 2 ^ 26 }
    ensures out { (block : ℕ) → first ≤ block → block ≤ last → IsOut blocks.new.entries block }
    ensures others { KeepsOut blocks.old.entries blocks.new.entries }
{
    if last > first + 1 {
        blocks.clear();
    } else {
        drop_one(blocks, first);
        drop_one(blocks, first + 1);
    }
}

// Drops one block.
fn drop_one(blocks: &mut LruCache<u32, Stretch>, block: u32)
    ensures out { IsOut blocks.new.entries block }
    ensures others { KeepsOut blocks.old.entries blocks.new.entries }
{
    if blocks.len() > 0 {
        blocks.pop(&block);
    }
}
