//! The image that is attached, with what was read ahead of it, and how what was written to it stands on the disk.
ghost use Rattle.std.specs.Prelude.{◌≡◌, ◌≤◌, ℕ};
ghost use Rattle.image_file.specs.Ahead.{IsApartFrom};
ghost use Rattle.image_file.specs.Standing.{first_of};
ghost use Rattle.image_file.specs.Stretch.{HoldsSector, IsBehind};
ghost use Rattle.image_file.specs.declared.standing.Standing.TheVariants.{Synced, Unsynced};

use crate::ahead::Ahead;
use crate::image::ImageFile;
use crate::pending::extend;
use crate::slot::{SLOT_BYTES, read_slot};
use crate::standing::Standing;
use crate::stretch::Stretch;
use sector_disk::{Attach, SECTOR_BYTES};
use std::alloc::Global;
use std::fs::File;
use std::io;
use std::io::ErrorKind;
use std::rt::Files;

/// The image that is attached, if one is, with what was read ahead of it.
///
/// At most one run of adjacent sectors, written upwards, is not yet on the disk, and its last slots may wait in memory: a
/// write that does not go on with it brings it there first. So what the disk has is always what stood at some earlier
/// moment, where the sectors of a run reach it in ascending order. Once the system has not taken or not synced a run, each
/// call fails. A disk that is dropped gives the system what waits.
pub(crate) struct Disk {
    image: Option<ImageFile>,
    standing: Standing,
    // The last slots of the run, which wait until the system is given them.
    pending: Stretch,
    ahead: Ahead,
    ghost synced: { standing ≡ Synced → pending.count ≡ 0 },
    ghost run: { (first next : ℕ) → standing ≡ Unsynced first next → (first ≤ next) × IsBehind next pending },
    ghost waiting: { (sector : ℕ) → HoldsSector pending sector → first_of standing ≤ sector },
    // What is read ahead of the file never has a sector that waits for it.
    ghost apart: { IsApartFrom pending ahead },
}

impl Drop for Disk {
    fn drop(mut self) {
        let _ = self.hand_over();
        let Disk {
            image: _,
            standing: _,
            pending: _,
            ahead: _,
        } = self;
    }
}

impl Disk {
    ghost use Rattle.std.specs.Prelude.{◌⊎◌, ◌+◌, ◌<◌, ◌≤◌, ◌/◌, ◌^◌, length, max, IfOk, OnOk, OnErr};
    ghost use Rattle.sector_disk.specs.Machine.{GivesAsked};
    ghost use Rattle.image_file.specs.Ahead.{AreApart, HasNone};
    ghost use Rattle.image_file.specs.Standing.{goes_on, run_from};
    ghost use Rattle.image_file.specs.Stretch.{HoldsSector, Spells, slot_at};
    ghost use Rattle.image_file.specs.Disk.{FailsOnDisk, HasCutAt, HasRun, IsBroken, IsGiven, IsOpenAt, IsSyncedDisk, Reads, TellsFirst, first_lost};

    /// With no image.
    pub(crate) fn new(alloc: Global) -> Disk
        ensures ahead { HasNone result.ahead }
        ensures synced { IsSyncedDisk result }
    {
        Disk {
            image: None,
            standing: Standing::Synced,
            pending: Stretch::new(alloc),
            ahead: Ahead::new(alloc),
        }
    }

    /// Attaches an image in the place of the one that there was, whose run is brought to the disk first, and tells its
    /// number of sectors. One that is found may have been written by a run of the program that was killed, so all that
    /// it has is brought to the disk as well.
    pub(crate) fn attach<R: Files<File = File>>(
        &mut self,
        rt: &R,
        path: &str,
        how: Attach,
    ) -> io::Result<u32>
        ensures made { IfOk result (GivesAsked how) }
        ensures ahead { HasNone self.new.ahead }
        ensures synced { OnOk result (IsSyncedDisk self.new) }
        ensures broken { FailsOnDisk self.old self.new result }
    {
        self.ahead.begin();
        if self.sync().is_err() {
            return Err(ErrorKind::Other.into());
        }
        self.detach();
        self.pending.reserve();
        let (image, sectors) = ImageFile::attach(rt, path, how)?;
        self.image = Some(image);
        if self.bring().is_err() {
            return Err(ErrorKind::Other.into());
        }
        Ok(sectors)
    }

    /// Reads a sector of an image with so many, where its slot is whole: the slot that waits, where one does.
    pub(crate) fn read(&mut self, sectors: u32, sector: u32) -> io::Result<Option<[u8; 512]>>
        ensures pending { HoldsSector self.old.pending sector → IfOk result (Reads sector (slot_at self.old.pending sector)) }
        ensures stands { OnOk result (self.new.standing ≡ self.old.standing) }
        ensures failed { OnErr result (IsBroken (first_lost self.old) self.new ⊎ (self.new.standing ≡ self.old.standing)) }
        ensures broken { FailsOnDisk self.old self.new result }
    {
        if matches!(self.standing, Standing::Broken(_)) {
            return Err(ErrorKind::Other.into());
        }
        let mut slot = [0; 520];
        if !self.pending.give(sector, &mut slot) {
            self.read_slot(sectors, sector, &mut slot)?;
        }
        Ok(read_slot(sector, &slot))
    }

    /// Writes the slots of sectors from one on, behind what was written before.
    pub(crate) fn write(&mut self, sector: u32, bytes: &[u8]) -> io::Result<()>
        requires { sector + length bytes.now / 512 < 2 ^ 32 }
        ensures ahead { AreApart sector (length bytes.now / 512) self.new.ahead }
        ensures there { OnOk result (Spells sector bytes.now (length bytes.now / 512) self.new.pending) }
        ensures run { OnOk result (HasRun (run_from sector self.old.standing) (sector + length bytes.now / 512) self.new) }
        ensures cut { OnErr result (HasCutAt sector self.old self.new) }
        ensures broken { FailsOnDisk self.old self.new result }
    {
        self.ahead.drop_at(sector, bytes.len() / SECTOR_BYTES);
        if self.end_others(sector).is_err() {
            return Err(ErrorKind::Other.into());
        }
        self.go_on(sector, bytes)
    }

    /// Gives an image with so many sectors as are told as many as are asked for, where these are more. Nothing that was
    /// read ahead is given then. All that was written is brought to the disk before the file grows, and its new slots are
    /// brought there behind that.
    pub(crate) fn extend(&mut self, told: u32, asked: u32) -> io::Result<()>
        ensures ahead { HasNone self.new.ahead }
        ensures synced { OnOk result (IsSyncedDisk self.new) }
        ensures broken { FailsOnDisk self.old self.new result }
    {
        if self.turn().is_err() {
            return Err(ErrorKind::Other.into());
        }
        self.widen(told, asked)?;
        if self.bring().is_err() {
            return Err(ErrorKind::Other.into());
        }
        Ok(())
    }

    /// A window begins or ends: all that was written is brought to the disk, and nothing that was read before is given
    /// in it.
    pub(crate) fn turn(&mut self) -> Result<(), u32>
        ensures ahead { HasNone self.new.ahead }
        ensures synced { OnOk result (IsSyncedDisk self.new) }
        ensures told { TellsFirst self.old self.new result }
        ensures broken { FailsOnDisk self.old self.new result }
    {
        self.ahead.drop_all();
        self.sync()
    }

    /// Has the system bring the run to the disk, if there is one. One that fails tells the run's first sector, what waits
    /// among it, and 0 where there is no run.
    pub(crate) fn sync(&mut self) -> Result<(), u32>
        ensures ahead { self.new.ahead ≡ self.old.ahead }
        ensures synced { OnOk result (IsSyncedDisk self.new) }
        ensures told { TellsFirst self.old self.new result }
        ensures broken { FailsOnDisk self.old self.new result }
    {
        match self.standing {
            Standing::Synced => Ok(()),
            Standing::Unsynced { .. } => self.bring(),
            Standing::Broken(first) => Err(first),
        }
    }

    // Has the system bring to the disk all that was written to the image that is attached, what waits among it. Nothing
    // else tells it as brought.
    fn bring(&mut self) -> Result<(), u32>
        ensures ahead { self.new.ahead ≡ self.old.ahead }
        ensures synced { OnOk result (IsSyncedDisk self.new) }
        ensures told { TellsFirst self.old self.new result }
    {
        let first = self.standing.first();
        if self.hand_over().is_err() {
            return Err(first);
        }
        if let Some(image) = &self.image
            && image.sync().is_err()
        {
            self.standing = Standing::Broken(first);
            return Err(first);
        }
        self.standing = Standing::Synced;
        Ok(())
    }

    // Gives the system what waits.
    fn hand_over(&mut self) -> io::Result<()>
        ensures ahead { self.new.ahead ≡ self.old.ahead }
        ensures given { OnOk result (IsGiven self.new) }
        ensures stands { OnOk result (self.new.standing ≡ self.old.standing) }
        ensures failed { OnErr result (IsBroken (first_lost self.old) self.new) }
    {
        let written = match &self.image {
            Some(image) => self.pending.write_out(image),
            None => Err(ErrorKind::NotConnected.into()),
        };
        if written.is_err() {
            self.standing = Standing::Broken(self.standing.first());
        }
        written
    }

    // Has the file grow behind its last slot. Its new slots are a run that is not on the disk then, also where it fails and
    // may have some of them.
    fn widen(&mut self, told: u32, asked: u32) -> io::Result<()>
        requires { IsSyncedDisk self.old }
        ensures ahead { self.new.ahead ≡ self.old.ahead }
        ensures run { OnOk result (HasRun told (max told asked) self.new) }
        ensures failed { OnErr result (IsSyncedDisk self.new ⊎ HasRun told (max told asked) self.new) }
    {
        let Some(image) = &self.image else {
            return Err(ErrorKind::NotConnected.into());
        };
        let next = u64::from(told.max(asked));
        self.standing = Standing::Unsynced { first: told, next };
        image.widen(&self.standing, told, asked)
    }

    // Lets go of the image, all of which is on the disk.
    fn detach(&mut self)
        requires { IsSyncedDisk self.old }
        ensures ahead { self.new.ahead ≡ self.old.ahead }
        ensures stands { IsSyncedDisk self.new }
    {
        self.image = None;
    }

    // Gives a slot that does not wait: one that was read ahead, or from the file behind all that was written.
    fn read_slot(
        &mut self,
        sectors: u32,
        sector: u32,
        slot: &mut [u8; SLOT_BYTES],
    ) -> io::Result<()>
        ensures stands { OnOk result (self.new.standing ≡ self.old.standing) }
        ensures failed { OnErr result (IsBroken (first_lost self.old) self.new ⊎ (self.new.standing ≡ self.old.standing)) }
    {
        if self.ahead.give(sector, slot) {
            return Ok(());
        }
        if self.image.is_none() {
            return Err(ErrorKind::NotConnected.into());
        }
        self.hand_over()?;
        self.ask_file(sectors, sector, slot)
    }

    // Gives a slot from the file, which has all that was written.
    fn ask_file(&mut self, sectors: u32, sector: u32, slot: &mut [u8; SLOT_BYTES]) -> io::Result<()>
        requires { IsGiven self.old }
        ensures { self.new.standing ≡ self.old.standing }
    {
        match &self.image {
            Some(image) => self.ahead.read(image, &self.pending, sectors, sector, slot),
            None => Err(ErrorKind::NotConnected.into()),
        }
    }

    // Brings the run to the disk, unless a write from a sector on goes on with it.
    fn end_others(&mut self, sector: u32) -> Result<(), u32>
        ensures ahead { self.new.ahead ≡ self.old.ahead }
        ensures open { OnOk result (IsOpenAt sector self.new) }
        ensures run { OnOk result (run_from sector self.new.standing ≡ run_from sector self.old.standing) }
        ensures told { TellsFirst self.old self.new result }
        ensures broken { FailsOnDisk self.old self.new result }
    {
        if self.standing.goes_on(sector) {
            return Ok(());
        }
        self.sync()
    }

    // Writes the slots of sectors from one on, which begin a run or go on with the one that there is.
    fn go_on(&mut self, sector: u32, bytes: &[u8]) -> io::Result<()>
        requires open { IsOpenAt sector self.old }
        requires fits { sector + length bytes.now / 512 < 2 ^ 32 }
        requires apart { AreApart sector (length bytes.now / 512) self.old.ahead }
        ensures ahead { self.new.ahead ≡ self.old.ahead }
        ensures there { OnOk result (Spells sector bytes.now (length bytes.now / 512) self.new.pending) }
        ensures run { OnOk result (HasRun (run_from sector self.old.standing) (sector + length bytes.now / 512) self.new) }
        ensures cut { OnErr result (IsBroken (run_from sector self.old.standing) self.new ⊎ IsOpenAt sector self.new) }
    {
        let Some(image) = &self.image else {
            return Err(ErrorKind::NotConnected.into());
        };
        let first = self.standing.run_from(sector);
        self.standing = Standing::Broken(first);
        extend(&mut self.pending, image, sector, bytes)?;
        let next = u64::from(sector) + (bytes.len() / SECTOR_BYTES) as u64;
        self.standing = Standing::Unsynced { first, next };
        Ok(())
    }
}
