//! The file of an image: found or made, locked, and never one of the standard three.
ghost use Rattle.std.specs.Prelude.{◌≡◌, ◌*◌, ◌/◌, ◌^◌, ◌-◌, min, max, pos, ◌<ℤ◌, IfOk};
ghost use Rattle.sector_disk.specs.Machine.{GivesAsked};
ghost use Rattle.std.specs.Fd.{file_raw_fd};
ghost use Rattle.image_file.specs.declared.standing.Standing.TheVariants.{Unsynced};

use crate::slot::SLOT_BYTES;
use crate::standing::Standing;
use sector_disk::Attach;
use std::fs::{File, OpenOptions};
use std::io;
use std::io::ErrorKind;
use std::os::fd::{AsRawFd, IntoRawFd};
use std::os::unix::fs::FileExt;
use std::rt::Files;

const NULL_DEVICE: &str = "/dev/null";

/// How many slots are given to the system at once.
pub(crate) const SLOTS_AT_ONCE: usize = 8;

// A format writes no more slots than these: 16 in front of the log, and both homes of 4096 pages.
const MOST_FORMATTED: u32 = 8208;

/// The open file of an image. It is locked for this opening alone, until it is dropped.
#[derive(Drop)]
pub(crate) struct ImageFile {
    file: File,
    // It is not standard input, output or error.
    ghost apart: { pos 2 <ℤ file_raw_fd file },
}

/// The byte at which a sector's slot begins.
pub(crate) fn start_of(sector: u32) -> u64
    ensures { result ≡ 520 * sector }
{
    SLOT_BYTES as u64 * u64::from(sector)
}

// How many whole slots so many bytes have, told as 2^32 - 1 where they are more.
fn slots_in(bytes: u64) -> u32
    ensures { result ≡ min (bytes / 520) (2 ^ 32 - 1) }
{
    u32::try_from(bytes / SLOT_BYTES as u64).unwrap_or(u32::MAX)
}

impl ImageFile {
    /// Finds the image at a path, or makes one of slots of zeros in the place of any file that is there, and tells its
    /// number of sectors. A file that another opening has locked is not read or changed. One that is there keeps its
    /// bytes where it may not grow past them and to those of the new image, or where its file system has no room for
    /// what a format writes beside them.
    pub(crate) fn attach<R: Files<File = File>>(
        rt: &R,
        path: &str,
        how: Attach,
    ) -> io::Result<(ImageFile, u32)>
        ensures made { IfOk result (λ found. GivesAsked how found.1) }
    {
        open_standard(rt)?;
        match how {
            Attach::Old => {
                let image = ImageFile::open(rt, path, false)?;
                let sectors = slots_in(image.file.metadata()?.len());
                Ok((image, sectors))
            }
            Attach::New(sectors) => {
                let image = ImageFile::open(rt, path, true)?;
                image.renew(sectors)?;
                Ok((image, sectors))
            }
        }
    }

    // Opens and locks a file as it is. Where none is there, it may be made, an empty one.
    fn open<R: Files<File = File>>(rt: &R, path: &str, makes: bool) -> io::Result<ImageFile> {
        let file = OpenOptions::new()
            .read(true)
            .write(true)
            .create(makes)
            .open(rt, path)?;
        if file.as_raw_fd() <= 2 {
            return Err(ErrorKind::Unsupported.into());
        }
        file.try_lock()?;
        Ok(ImageFile { file })
    }

    // Makes it a file of so many slots of zeros. Where that has no room it keeps its bytes.
    fn renew(&self, sectors: u32) -> io::Result<()> {
        let old = self.file.metadata()?.len();
        if let Err(error) = self.take_room(old, sectors) {
            let _ = self.file.set_len(old);
            return Err(error);
        }
        self.file.set_len(0)?;
        self.file.set_len(start_of(sectors))?;
        self.file.sync_all()
    }

    // Sees that a file of so many bytes may grow, and, where it has any, that there is room behind them for what a format
    // of so many sectors writes. The room is free again once the file is emptied.
    fn take_room(&self, old: u64, sectors: u32) -> io::Result<()> {
        self.file
            .set_len(start_of(sectors).max(old.saturating_add(1)))?;
        if old == 0 {
            return Ok(());
        }
        let zeros = [0; SLOT_BYTES * SLOTS_AT_ONCE];
        let mut end = old;
        for _ in 0..=sectors.min(MOST_FORMATTED) / SLOTS_AT_ONCE as u32 {
            self.file.write_all_at(&zeros, end)?;
            end = end.saturating_add(zeros.len() as u64);
        }
        self.sync()
    }

    /// Puts slots of zeros behind those that are told, up to as many as are asked for. What followed the last one is gone
    /// then. Where there are as many already, nothing is changed. They are told as a run that is not on the disk, which is
    /// `_run`.
    pub(crate) fn widen(&self, _run: &Standing, told: u32, asked: u32) -> io::Result<()>
        requires { _run.now ≡ Unsynced told (max told asked) }
    {
        if asked <= told {
            return Ok(());
        }
        self.file.set_len(start_of(told))?;
        self.file.set_len(start_of(asked))
    }

    /// Reads slots from that of a sector on.
    pub(crate) fn read(&self, sector: u32, slots: &mut [u8]) -> io::Result<()> {
        self.file.read_exact_at(slots, start_of(sector))
    }

    /// Writes slots from that of a sector on.
    pub(crate) fn write(&self, sector: u32, slots: &[u8]) -> io::Result<()> {
        self.file.write_all_at(slots, start_of(sector))
    }

    /// Has the system bring what was written to the disk.
    pub(crate) fn sync(&self) -> io::Result<()> {
        self.file.sync_data()
    }
}

// Sees that standard input, output and error are open, so that no file that is opened is one of them. One that was
// closed is on the null device from then on, the input for writing and the others for reading: so a read of it, or a
// write to it, fails as it did.
fn open_standard<R: Files<File = File>>(rt: &R) -> io::Result<()> {
    for _ in 0..3 {
        let lowest = File::open(rt, NULL_DEVICE)?.as_raw_fd();
        if lowest > 2 {
            return Ok(());
        }
        let is_input = lowest == 0;
        let device = OpenOptions::new()
            .read(!is_input)
            .write(is_input)
            .open(rt, NULL_DEVICE)?;
        let _ = device.into_raw_fd();
    }
    Ok(())
}
