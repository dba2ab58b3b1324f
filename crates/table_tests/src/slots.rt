//! Slots as they are spelled, and the machine over a real file.
ghost use Rattle.std.specs.Prelude.{◌≤◌};

use crate::machines::repeated;
use image_file::{FileMachine, SLOT_BYTES, read_slot, slot_of};
use sector_disk::{Attach, Failed, LONGEST_RUN, Machine, Seen};
use std::fs;
use std::process::Abort;
use std::test::Fail;

const IMAGE: &str = "image_file_test";

const SHARED: &str = "image_file_test_shared";

const RENEWED: &str = "image_file_test_renewed";

const GROWN: &str = "image_file_test_grown";

// The bytes of a sector: a first one, and then all others alike.
fn filled(first: u8, rest: u8) -> [u8; 512] {
    let mut bytes = [rest; 512];
    bytes[0] = first;
    bytes
}

// A slot of these bytes ends so, and reads back as its own sector's alone.
fn ends(rt: &impl Abort, bytes: &[u8; 512], sector: u32, end: &[u8]) {
    let slot = slot_of(sector, bytes);
    assert_eq!(rt; &slot[512..], end);
    assert_eq!(rt; read_slot(sector, &slot), Some(*bytes));
    assert_eq!(rt; read_slot(sector.wrapping_add(1), &slot), None);
}

#[test]
fn a_slot_ends_with_its_sector_and_check(rt: HostRuntime) {
    ends(&rt, &filled(0, 0), 5, &[0, 0, 0, 5, 0, 0, 0, 1]);
    ends(&rt, &filled(b'a', 0), 921, &[0, 0, 3, 0x99, 0, 0, 0, 0x62]);
    ends(
        &rt,
        &filled(255, 255),
        2047,
        &[0, 0, 7, 0xff, 1, 0xfe, 0xff, 1],
    );
    assert_eq!(rt; read_slot(0, &[0; SLOT_BYTES]), None);
}

// Sevens from sector 1 on, and eights in the last two.
fn fill<M: Machine>(m: &mut M) -> Result<(), Failed>
    requires { 12 ≤ (M.report m.old).sectors }
{
    m.write(1, &repeated::<4608>(7))?;
    m.write(10, &repeated::<1024>(8))
}

// Each other call succeeds.
fn call_others<M: Machine>(m: &mut M) -> Result<(), Failed> {
    m.healing(LONGEST_RUN)?;
    m.settle()?;
    m.say(b"")?;
    let _piece = m.take(&mut [0; 8]);
    Ok(())
}

// A new image of 12 sectors, which is filled.
fn make_image<M: Machine>(rt: &impl Abort, m: &mut M) -> Result<(), Failed> {
    assert_eq!(rt; m.attach(IMAGE, Attach::Old), Err(Failed { place: 0 }));
    let sectors = m.attach(IMAGE, Attach::New(12))?;
    assert!(rt; sectors >= 12);
    let mut buf = [3; 512];
    assert_eq!(rt; m.read(11, &mut buf), Ok(Seen::Damaged));
    assert_eq!(rt; buf, [3; 512]);
    fill(m)?;
    call_others(m)
}

// One byte of sector 2 is changed in the file, whose length is told.
fn spoil_image(rt: &HostRuntime) -> Result<usize, Fail> {
    let mut file = fs::read(rt, IMAGE)?;
    if let Some(byte) = file.get_mut(2 * SLOT_BYTES + 100) {
        *byte = 6;
    }
    let length = file.len();
    fs::write(rt, IMAGE, file)?;
    Ok(length)
}

// What a sector of the image that is there reads as.
fn read_of<M: Machine>(
    rt: &impl Abort,
    m: &mut M,
    path: &str,
    sector: u32,
) -> Result<(Seen, [u8; 512]), Failed> {
    let sectors = m.attach(path, Attach::Old)?;
    assert!(rt; sector < sectors);
    let mut buf = [0; 512];
    let seen = m.read(sector, &mut buf)?;
    Ok((seen, buf))
}

// A sector of that image, and what it reads as.
const READS: [(u32, Seen, u8); 7] = [
    (0, Seen::Damaged, 0),
    (1, Seen::Whole, 7),
    (2, Seen::Damaged, 0),
    (8, Seen::Whole, 7),
    (9, Seen::Whole, 7),
    (10, Seen::Whole, 8),
    (11, Seen::Whole, 8),
];

// How many sectors an attach finds in a file of so many bytes.
fn sectors_in<M: Machine>(rt: &HostRuntime, m: &mut M, length: usize) -> Result<u32, Fail> {
    fs::write(rt, IMAGE, vec![in rt.alloc(); 0u8; length]?)?;
    Ok(m.attach(IMAGE, Attach::Old)?)
}

// How many bytes a file has, and how many sectors an image in it.
const LENGTHS: [(usize, u32); 6] = [(0, 0), (519, 0), (520, 1), (521, 1), (1039, 1), (1040, 2)];

#[test]
fn a_real_file_keeps_its_sectors(rt: HostRuntime) -> Result<(), Fail> {
    let _ = fs::remove_file(&rt, IMAGE);
    make_image(&rt, &mut FileMachine::new(&rt))?;
    assert_eq!(rt; spoil_image(&rt)?, 12 * SLOT_BYTES);
    for (sector, seen, byte) in READS {
        let read = read_of(&rt, &mut FileMachine::new(&rt), IMAGE, sector)?;
        assert_eq!(rt; read, (seen, repeated(byte)));
    }
    let mut m = FileMachine::new(&rt);
    for (length, sectors) in LENGTHS {
        assert_eq!(rt; sectors_in(&rt, &mut m, length)?, sectors);
    }
    fs::remove_file(&rt, IMAGE)?;
    Ok(())
}

// An image that one machine has is not another's, and stays as it is.
fn share<M: Machine>(rt: &impl Abort, first: &mut M, second: &mut M) -> Result<(), Failed> {
    let sectors = first.attach(SHARED, Attach::New(4))?;
    assert!(rt; sectors > 1);
    first.write(1, &repeated::<512>(5))?;
    for how in [Attach::Old, Attach::New(9)] {
        assert_eq!(rt; second.attach(SHARED, how), Err(Failed { place: 0 }));
    }
    assert_eq!(rt; first.attach(SHARED, Attach::Old), Ok(4));
    Ok(())
}

#[test]
fn one_machine_at_a_time_has_an_image(rt: HostRuntime) -> Result<(), Fail> {
    let mut first = FileMachine::new(&rt);
    let mut second = FileMachine::new(&rt);
    share(&rt, &mut first, &mut second)?;
    assert_eq!(rt; fs::read(&rt, SHARED)?.len(), 4 * SLOT_BYTES);

    drop(first);
    let read = read_of(&rt, &mut second, SHARED, 1)?;
    assert_eq!(rt; read, (Seen::Whole, [5; 512]));
    fs::remove_file(&rt, SHARED)?;
    Ok(())
}

// A new image of so many sectors has nothing yet, and then what is written.
fn renew<M: Machine>(rt: &impl Abort, m: &mut M, sectors: u32) -> Result<(), Failed> {
    let made = m.attach(RENEWED, Attach::New(sectors))?;
    assert!(rt; made > 1);
    let mut buf = [0; 512];
    assert_eq!(rt; m.read(1, &mut buf), Ok(Seen::Damaged));
    m.write(1, &repeated::<512>(5))?;
    assert_eq!(rt; m.read(1, &mut buf), Ok(Seen::Whole));
    Ok(())
}

#[test]
fn a_new_image_has_nothing_of_the_old_one(rt: HostRuntime) -> Result<(), Fail> {
    let mut m = FileMachine::new(&rt);
    for sectors in [9, 4, 9] {
        renew(&rt, &mut m, sectors)?;
    }
    fs::remove_file(&rt, RENEWED)?;
    Ok(())
}

// An image of four sectors, one of which is written and two are read, and then of seven, the last of which is written too.
fn grow<M: Machine>(rt: &impl Abort, m: &mut M) -> Result<(), Failed> {
    let sectors = m.attach(GROWN, Attach::New(4))?;
    assert!(rt; sectors > 3);
    m.write(3, &repeated::<512>(5))?;
    let mut buf = [0; 512];
    assert_eq!(rt; m.read(2, &mut buf), Ok(Seen::Damaged));
    m.extend(2)?;
    m.extend(7)?;
    assert_eq!(rt; m.read(3, &mut buf), Ok(Seen::Whole));
    assert_eq!(rt; buf, [5; 512]);
    assert_eq!(rt; m.read(6, &mut buf), Ok(Seen::Damaged));
    m.write(6, &repeated::<512>(6))?;
    assert_eq!(rt; m.read(6, &mut buf), Ok(Seen::Whole));
    m.sync()
}

// A sector of that image, and what it reads as.
const GROWN_READS: [(u32, Seen, u8); 5] = [
    (2, Seen::Damaged, 0),
    (3, Seen::Whole, 5),
    (4, Seen::Damaged, 0),
    (5, Seen::Damaged, 0),
    (6, Seen::Whole, 6),
];

// The file has bytes behind its last slot, which are no part of an image with more sectors.
fn grow_behind<M: Machine>(rt: &impl Abort, m: &mut M) -> Result<(), Failed> {
    let sectors = m.attach(GROWN, Attach::Old)?;
    assert!(rt; sectors > 6);
    m.extend(8)?;
    let mut buf = [0; 512];
    assert_eq!(rt; m.read(7, &mut buf), Ok(Seen::Damaged));
    Ok(())
}

#[test]
fn an_image_grows(rt: HostRuntime) -> Result<(), Fail> {
    let _ = fs::remove_file(&rt, GROWN);
    grow(&rt, &mut FileMachine::new(&rt))?;
    let mut file = fs::read(&rt, GROWN)?;
    assert_eq!(rt; file.len(), 7 * SLOT_BYTES);
    for (sector, seen, byte) in GROWN_READS {
        let read = read_of(&rt, &mut FileMachine::new(&rt), GROWN, sector)?;
        assert_eq!(rt; read, (seen, repeated(byte)));
    }
    // all of the slot behind the last one but its last byte, which is a zero
    file.extend_from_slice(&slot_of(7, &filled(255, 0)))?;
    let _zero = file.pop();
    fs::write(&rt, GROWN, file)?;
    grow_behind(&rt, &mut FileMachine::new(&rt))?;
    assert_eq!(rt; fs::read(&rt, GROWN)?.len(), 8 * SLOT_BYTES);
    fs::remove_file(&rt, GROWN)?;
    Ok(())
}
