//! What a machine in memory keeps of its calls, so that it can tell what there was since an earlier moment.
ghost use Rattle.std.specs.Prelude.{◌≡◌, ◌+◌, ◌/◌, ◌^◌, ◌<◌, ◌≤◌, length, count_by, slice_set, IfOk};
ghost use Rattle.sector_disk.specs.Image.{lay, sector_at, slice_of, stand};
ghost use Rattle.memory_machine.specs.Past.{begins_at, due, heal_all, hurt_all, undone};

use crate::Event;
use sector_disk::{Attach, Sector, WeakRun};
use std::alloc::{AllocError, Global};

/// A sector that was hurt before a call, as it was before all those of that call.
#[derive(Clone, Copy)]
pub struct Hurt {
    pub sector: u32,
    pub was: Sector,
}

/// What a call was to do, with what it put other sectors in the place of.
#[derive(Drop)]
pub enum Work {
    Attaching {
        path: Vec<u8>,
        how: Attach,
        // the image that there was, where a new one is made
        kept: Vec<Sector>,
    },
    Writing {
        first: u32,
        bytes: Vec<u8>,
        old: Vec<Sector>,
        done: bool,
    },
    Extending {
        // how many sectors there were, and how many there are to be at least
        had: usize,
        count: u32,
    },
    Saying {
        bytes: Vec<u8>,
    },
    Syncing {
        done: bool,
    },
    Quiet,
}

/// A call, with the windows, the number of bytes said and the time of the last sync before it.
#[derive(Drop)]
pub struct Step {
    pub hurts: Vec<Hurt>,
    pub present: Option<WeakRun>,
    pub next: Option<WeakRun>,
    pub said: usize,
    pub synced: usize,
    pub work: Work,
}

impl Step {
    // It is a write that begins at this sector.
    pub(crate) fn begins_at(&self, sector: u32) -> bool
        ensures { result ≡ begins_at sector self.now }
    {
        match &self.work {
            Work::Writing {
                first,
                bytes: _,
                old: _,
                done: _,
            } => *first == sector,
            _ => false,
        }
    }

    // Makes of the image after the call the one before it.
    pub(crate) fn put_back(self, image: &mut Vec<Sector>)
        ensures { image.new.items ≡ heal_all self.hurts.items (undone self.work image.old.items) }
    {
        self.work.undo(image);
        heal_all(image, &self.hurts);
    }
}

impl Work {
    // Makes of the image after the work the one before it.
    fn undo(self, image: &mut Vec<Sector>)
        ensures { image.new.items ≡ undone self image.old.items }
    {
        match self {
            Work::Attaching {
                path: _,
                how: Attach::New(_),
                kept,
            } => *image = kept,
            Work::Writing {
                first,
                bytes: _,
                old,
                done: _,
            } => lay(image, first as usize, &old),
            Work::Extending { had, count: _ } => image.truncate(had),
            _ => {}
        }
    }
}

// How many writes of these began at this sector.
pub(crate) fn begun_at(past: &[Step], sector: u32) -> usize
    ensures { result ≡ count_by (begins_at sector) past.now }
{
    past.iter().filter(|step| step.begins_at(sector)).count()
}

// The hurts before a call that comes after so many.
pub(crate) fn due_hurts(
    alloc: Global,
    events: &[Event],
    image: &[Sector],
    calls: u64,
    settle: bool,
) -> Result<Vec<Hurt>, AllocError>
    ensures { IfOk result (λ hurts. hurts.items ≡ due image.now calls settle events.now) }
{
    let mut hurts = Vec::new(alloc);
    for event in events {
        if let Some(sector) = event.hurts(calls, settle) {
            let was = image
                .get(sector as usize)
                .copied()
                .unwrap_or(Sector::Damaged);
            hurts.push(Hurt { sector, was })?;
        }
    }
    Ok(hurts)
}

// Makes a sector another, if it is there.
#[tactic(auto, using(std::proofs::lemmas::List::set_past))]
fn replace(image: &mut [Sector], place: usize, sector: Sector)
    ensures { image.new ≡ slice_set image.old place sector }
{
    if place < image.len() {
        image[place] = sector;
    }
}

// Hurts these sectors.
pub(crate) fn hurt_all(image: &mut [Sector], hurts: &[Hurt])
    ensures { image.new ≡ hurt_all hurts.now image.old }
{
    for each in hurts {
        replace(image, each.sector as usize, Sector::Damaged);
    }
}

// Heals them, the last one first.
fn heal_all(image: &mut [Sector], hurts: &[Hurt])
    ensures { image.new ≡ heal_all hurts.now image.old }
{
    for k in (0..hurts.len()).rev() {
        replace(image, hurts[k].sector as usize, hurts[k].was);
    }
}

// Puts these sectors in their places from one on, those that are there.
fn lay(image: &mut [Sector], first: usize, sectors: &[Sector])
    requires { first < 2 ^ 32 }
    ensures { image.new ≡ lay image.old first (sector_at sectors.now) (length sectors.now) }
{
    for k in 0..sectors.len() {
        replace(image, first + k, sectors[k]);
    }
}

// Puts the first sectors of a write in their places.
pub(crate) fn stand(image: &mut [Sector], first: usize, bytes: &[u8], count: usize)
    requires room { first + count ≤ length image.old }
    requires some { count ≤ length bytes.now / 512 }
    ensures { image.new ≡ stand image.old first bytes.now count }
{
    for k in 0..count {
        image[first + k] = Sector::Whole(slice_of(bytes, k));
    }
}

// The bytes of one sector of a write.
fn slice_of(bytes: &[u8], k: usize) -> [u8; 512]
    requires { k < length bytes.now / 512 }
    ensures { result ≡ slice_of bytes.now k }
{
    let mut slice = [0; 512];
    let from = 512 * k;
    slice.copy_from_slice(&bytes[from..from + 512]);
    slice
}
