//! Runs on a real file, which say what they say to the output of the tests.
//! What the file holds is read by a machine in memory.
use crate::machines::{calm, run, words_of};
use cfs_program::run_words;
use image_file::{FileMachine, SLOT_BYTES, read_slot};
use sector_disk::Sector;
use std::alloc::{AllocError, Global};
use std::fs;
use std::test::Fail;
use table_volume::Volume;

const IMAGE: &str = "fsd_tests_image";

/// One line on real files, and its status.
pub(crate) fn run_on_files(rt: &HostRuntime, line: &str) -> Result<u8, AllocError> {
    let words = words_of(rt.alloc(), line)?;
    let mut m = FileMachine::new(rt);
    Ok(run_words::<FileMachine<&HostRuntime>, Volume, Volume>(rt.alloc(), words.as_slice(), &mut m))
}

// The sectors that the slots of a file hold.
fn sectors_of(alloc: Global, file: &[u8]) -> Result<Vec<Sector>, AllocError> {
    let mut image = Vec::new(alloc);
    let mut sector = 0u32;
    for bytes in file.chunks_exact(SLOT_BYTES) {
        let mut slot = [0; SLOT_BYTES];
        slot.copy_from_slice(bytes);
        image.push(match read_slot(sector, &slot) {
            Some(whole) => Sector::Whole(whole),
            None => Sector::Damaged,
        })?;
        sector = sector.saturating_add(1);
    }
    Ok(image)
}

// The bytes of the one put that a seed of 3 makes up first: they count up from 1.
fn first_bytes(alloc: Global) -> Result<Vec<u8>, AllocError> {
    let mut bytes = Vec::new(alloc);
    for place in 1..=838u32 {
        bytes.push((place % 256) as u8)?;
    }
    Ok(bytes)
}

#[test]
fn a_file_holds_what_was_put(rt: HostRuntime) -> Result<(), Fail> {
    let alloc = rt.alloc();
    let statuses = [
        run_on_files(&rt, "cfs format fsd_tests_image 2048 256 64")?,
        run_on_files(&rt, "cfs generate fsd_tests_image 3 1")?,
    ];
    let file = fs::read(&rt, IMAGE)?;
    fs::remove_file(&rt, IMAGE)?;
    assert_eq!(rt; (statuses, file.len()), ([0, 0], 1_064_960));
    let m = calm(alloc, sectors_of(alloc, file.as_slice())?);
    let (m, _) = run(alloc, m, &[], "cfs get v g0!1", b"")?;
    assert_eq!(rt; m.said(), first_bytes(alloc)?.as_slice());
    Ok(())
}
