//! The slots of some adjacent sectors, in memory.
ghost use Rattle.std.specs.Prelude.{◌≡◌, ◌*◌, length};

use crate::image::ImageFile;
use crate::slot::SLOT_BYTES;
use std::alloc::Global;
use std::io;

/// The most slots that a stretch has.
pub(crate) const MOST_SLOTS: u32 = 64;

/// The slots of so many adjacent sectors, from `first` on.
#[derive(Drop)]
pub(crate) struct Stretch {
    first: u32,
    count: u32,
    slots: Vec<u8>,
    ghost whole: { length slots.items ≡ 520 * count },
}

impl Stretch {
    ghost use Rattle.std.specs.Prelude.{◌⊎◌, ◌+◌, ◌<◌, ◌≤◌, ◌++◌, ◌^◌, Some, false, IsTrue, IfSome, OnOk, OnErr};
    ghost use Rattle.image_file.specs.Stretch.{AddsOnly, HoldsSector, IsBehind, slot_at};

    /// None. It takes no memory.
    pub(crate) fn new(alloc: Global) -> Stretch
        ensures { result.count ≡ 0 }
    {
        Stretch {
            first: 0,
            count: 0,
            slots: Vec::new(alloc),
        }
    }

    /// The slots of so many sectors as the file gives them; none where it doesn't give them all, or memory is refused.
    pub(crate) fn read(alloc: Global, image: &ImageFile, first: u32, count: u32) -> Option<Stretch>
        requires { count ≤ 64 }
        ensures { IfSome result (λ s. (s.first ≡ first) × (s.count ≡ count)) }
    {
        let mut slots = vec![in alloc; 0; SLOT_BYTES * count as usize].ok()?;
        image.read(first, slots.as_mut_slice()).ok()?;
        Some(Stretch {
            first,
            count,
            slots,
        })
    }

    /// The slot of a sector, if it has it.
    pub(crate) fn give(&self, sector: u32, slot: &mut [u8; SLOT_BYTES]) -> bool
        ensures there { IsTrue result → HoldsSector self.now sector × (slot.new ≡ slot_at self.now sector) }
        ensures absent { result ≡ false → HoldsSector self.now sector → ⊥ }
        ensures kept { result ≡ false → slot.new ≡ slot.old }
    {
        if sector < self.first || sector - self.first >= self.count {
            return false;
        }
        let from = SLOT_BYTES * (sector - self.first) as usize;
        slot.copy_from_slice(&self.slots[from..from + SLOT_BYTES]);
        true
    }

    /// Takes memory for the most slots, if it is given.
    pub(crate) fn reserve(&mut self)
        ensures { (self.new.first ≡ self.old.first) × (self.new.count ≡ self.old.count) }
    {
        let _ = self.slots.reserve_exact(SLOT_BYTES * MOST_SLOTS as usize);
    }

    /// Has the slot of the sector behind it as well. Where it has the most, or memory is refused, it stays as it is.
    pub(crate) fn push(&mut self, sector: u32, slot: &[u8; SLOT_BYTES]) -> bool
        requires { IsBehind sector self.old }
        ensures there { IsTrue result → HoldsSector self.new sector × (slot_at self.new sector ≡ slot.now) }
        ensures behind { IsTrue result → IsBehind (sector + 1) self.new }
        ensures only { AddsOnly sector 1 self.old self.new }
        ensures kept { result ≡ false → (self.new.first ≡ self.old.first) × (self.new.count ≡ self.old.count) }
    {
        let first = self.first_before(sector);
        if self.count >= MOST_SLOTS || self.slots.extend_from_slice(slot).is_err() {
            return false;
        }
        self.first = first;
        self.count += 1;
        true
    }

    // Where it begins with a sector behind it as well.
    fn first_before(&self, sector: u32) -> u32
        requires { IsBehind sector self.now }
        ensures { result + self.now.count ≡ sector }
    {
        if self.count == 0 { sector } else { self.first }
    }

    /// Writes its slots to the file, by one call, and has none. Where that fails it stays as it is.
    pub(crate) fn write_out(&mut self, image: &ImageFile) -> io::Result<()>
        ensures none { OnOk result (self.new.count ≡ 0) }
        ensures kept { OnErr result (self.new ≡ self.old) }
    {
        if self.count > 0 {
            image.write(self.first, self.slots.as_slice())?;
            self.slots.clear();
            self.count = 0;
        }
        Ok(())
    }
}
