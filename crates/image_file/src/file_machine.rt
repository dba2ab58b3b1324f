//! The machine over a file of slots, standard input and standard output.
ghost use Rattle.std.specs.Prelude.{◌≡◌, ◌*◌, ◌<◌, ◌≤◌, ◌^◌, length};
ghost use Rattle.sector_disk.specs.Machine.{DeviceFault, UsesDisk, nothing, no_ledger};

use crate::disk::Disk;
use sector_disk::{Attach, Failed, Machine, Seen};
use std::fs::File;
use std::io::Read;
use std::marker::Model;
use std::rt::Files;

/// The machine over a file of slots, standard input and standard output.
///
/// Contracts see what it reports and no more. It answers for no content: `healing` and `settle` only bring what was
/// written to the disk and forget what was read ahead, as no run of sectors is weak by anything that it does.
#[derive(Drop)]
pub struct FileMachine<R: Files<File = File> + Input + Print + AllocGlobal + Drop> {
    rt: R,
    disk: Disk,
    sectors: u32,
    fault_place: u32,
    disk_faults: u64,
    input_faults: u64,
    output_faults: u64,
    ghost small: { sectors < 2 ^ 32 },
}

impl<R: Files<File = File> + Input + Print + AllocGlobal + Drop> Model for FileMachine<R> {
    ghost use Rattle.image_file.specs.FileMachine.{Told};

    ghost Value = { Told };

    ghost view = { λ m. record {
      report = record { sectors = m.sectors; fault_place = m.fault_place; disk_faults = m.disk_faults; input_faults = m.input_faults; output_faults = m.output_faults };
      small = m.small;
    } };
}

impl<R: Files<File = File> + Input + Print + AllocGlobal + Drop> FileMachine<R> {
    /// A machine with no image attached yet, over the files, the input and the output of a runtime.
    pub fn new(rt: R) -> Self
        ensures { result.report ≡ record { sectors = 0; fault_place = 0; disk_faults = 0; input_faults = 0; output_faults = 0 } }
    {
        let disk = Disk::new(rt.alloc());
        FileMachine {
            rt,
            disk,
            sectors: 0,
            fault_place: 0,
            disk_faults: 0,
            input_faults: 0,
            output_faults: 0,
        }
    }

    // Counts a fault of the disk at this place.
    fn disk_fault(&mut self, place: u32) -> Failed
        ensures place { result.place ≡ place }
        ensures fault { DeviceFault self.old.report self.new.report place }
        ensures uses { UsesDisk self.old.report self.new.report }
    {
        self.fault_place = place;
        self.disk_faults = self.disk_faults.saturating_add(1);
        Failed { place }
    }
}

impl<R: Files<File = File> + Input + Print + AllocGlobal + Drop> Machine for FileMachine<R> {
    ghost report = { λ m. m.report };

    ghost tells = { λ _. ⊥ };

    ghost honest = { λ _. ⊥ };

    ghost now = { λ _. nothing };

    ghost ledger = { λ _. no_ledger };

    ghost moment = { λ _. 0 };

    ghost left_since = { λ _ _ _. ⊥ };

    ghost honest_tells = { λ m never. never };

    ghost counts_now = { λ m t never le. never };

    ghost dated = { λ m never. absurd never };

    ghost history = { λ m never. absurd never };

    ghost only_now = { λ m c never left. absurd never };

    ghost short = { λ m never. absurd never };

    ghost small = { λ m. m.small };

    ghost sized = { λ m never. absurd never };

    fn attach(&mut self, path: &str, how: Attach) -> Result<u32, Failed> {
        match self.disk.attach(&self.rt, path, how) {
            Ok(sectors) => {
                self.sectors = sectors;
                Ok(sectors)
            }
            Err(_) => Err(self.disk_fault(0)),
        }
    }

    fn read(&mut self, sector: u32, buf: &mut [u8; 512]) -> Result<Seen, Failed> {
        match self.disk.read(self.sectors, sector) {
            Ok(Some(b)) => {
                *buf = b;
                Ok(Seen::Whole)
            }
            Ok(None) => Ok(Seen::Damaged),
            Err(_) => Err(self.disk_fault(sector)),
        }
    }

    fn write(&mut self, sector: u32, bytes: &[u8]) -> Result<(), Failed> {
        match self.disk.write(sector, bytes) {
            Ok(()) => Ok(()),
            Err(_) => Err(self.disk_fault(sector)),
        }
    }

    fn extend(&mut self, sectors: u32) -> Result<(), Failed> {
        match self.disk.extend(self.sectors, sectors) {
            Ok(()) => {
                self.sectors = self.sectors.max(sectors);
                Ok(())
            }
            Err(_) => Err(self.disk_fault(0)),
        }
    }

    fn healing(&mut self, _longest: u32) -> Result<(), Failed> {
        match self.disk.turn() {
            Ok(()) => Ok(()),
            Err(_) => Err(self.disk_fault(0)),
        }
    }

    fn settle(&mut self) -> Result<(), Failed> {
        match self.disk.turn() {
            Ok(()) => Ok(()),
            Err(_) => Err(self.disk_fault(0)),
        }
    }

    fn sync(&mut self) -> Result<(), Failed> {
        match self.disk.sync() {
            Ok(()) => Ok(()),
            Err(place) => Err(self.disk_fault(place)),
        }
    }

    fn take(&mut self, buf: &mut [u8]) -> Result<usize, Failed> {
        match self.rt.reader().read(buf) {
            Ok(count) => Ok(count),
            Err(_) => {
                self.input_faults = self.input_faults.saturating_add(1);
                Err(Failed { place: 0 })
            }
        }
    }

    fn say(&mut self, bytes: &[u8]) -> Result<(), Failed> {
        match self.rt.write_all(bytes) {
            Ok(()) => Ok(()),
            Err(_) => {
                self.output_faults = self.output_faults.saturating_add(1);
                Err(Failed { place: 0 })
            }
        }
    }
}
