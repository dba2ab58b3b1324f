//! The saved map: what a run leaves of it, whether the next one believes it, and what a stop, a fault or wear in a close
//! leaves. Volumes of 2048 sectors have one sector of map, at 920; one of 12,000 has four, from there on.
use crate::images::{CLOSED, CLOSED_NEXT, Image, NO_PAGE, first_wrong_image, sector};
use crate::machines::{Met, Row, calm, first_wrong, first_wrong_met, formatted, run};
use memory_machine::{Event, MemoryMachine};
use sector_disk::Sector;
use std::alloc::{AllocError, Global};
use std::test::Fail;

const ONE: &str = "cfs format v 2048 256 64";

const TWO: &str = "cfs format v 2048 256 64 --layout 2";

const FOUR: &str = "cfs format v 12000 256 64";

const STAT: &str = "cfs stat v";

const LIST: &str = "cfs list v *";

const EMPTY: Row<'static> = ("cfs put v a", b"", 0, "made a!1 1\n");

const COUNTED: Row<'static> = (
    STAT,
    b"",
    0,
    "stat free 1126 waiting 0 pages 63 versions 1\n",
);

const COUNTED_OF_FOUR: Row<'static> = (
    STAT,
    b"",
    0,
    "stat free 11075 waiting 0 pages 63 versions 1\n",
);

const NONE: Row<'static> = (
    STAT,
    b"",
    0,
    "stat free 1127 waiting 0 pages 63 versions 0\n",
);

const UNSOUND: Row<'static> = (STAT, b"", 3, "fault unsound 784\n");

const UPGRADED: Row<'static> = ("cfs upgrade v", b"", 0, "upgraded 2\n");

const GROWN: Row<'static> = ("cfs grow v 2049", b"", 0, "grown 2049 free 1127\n");

const REFUSED: Row<'static> = ("cfs grow v 2049", b"", 1, "refused size 2049\n");

const LISTED_UNSOUND: Row<'static> = (LIST, b"", 3, "fault unsound 784\n");

// The map's sector of the epochs 2 and 3 begins so: one page is in use, and there is one version.
const MAP: &[u8] = b"CMAP\0\0\0\x02\0\0\0\x01\0\0\0\x01";

const MAP_NEXT: &[u8] = b"CMAP\0\0\0\x03\0\0\0\x01\0\0\0\x01";

const BELIEVED: [Image<'static>; 8] = [
    (
        ONE,
        &[EMPTY],
        (&[], b""),
        &[],
        &[(920, MAP), (8, CLOSED), (12, CLOSED)],
    ),
    (
        TWO,
        &[EMPTY],
        (&[920], b""),
        &[COUNTED],
        &[(920, MAP_NEXT), (8, CLOSED_NEXT), (12, CLOSED_NEXT)],
    ),
    // What is believed is not looked up, and what is looked up breaks.
    (
        ONE,
        &[EMPTY, COUNTED],
        (&[784, 852], NO_PAGE),
        &[COUNTED, LISTED_UNSOUND],
        &[],
    ),
    // An upgrade and a growth begin an epoch, and save no map in it.
    (
        ONE,
        &[EMPTY, UPGRADED],
        (&[784, 852], NO_PAGE),
        &[UNSOUND],
        &[],
    ),
    (
        ONE,
        &[EMPTY, UPGRADED, COUNTED],
        (&[784, 852], NO_PAGE),
        &[COUNTED, LISTED_UNSOUND],
        &[],
    ),
    // A map that came back from the epoch before is not believed, and none is where both anchors are of no closed volume.
    (
        ONE,
        &[EMPTY, COUNTED],
        (&[920], MAP),
        &[COUNTED],
        &[(920, b"CMAP\0\0\0\x04")],
    ),
    (
        ONE,
        &[EMPTY, GROWN, REFUSED],
        (&[784, 852], NO_PAGE),
        &[REFUSED, LISTED_UNSOUND],
        &[],
    ),
    // Four sectors are more than the one page in use.
    (
        FOUR,
        &[EMPTY, COUNTED_OF_FOUR],
        (&[784, 852], NO_PAGE),
        &[UNSOUND],
        &[(920, b"")],
    ),
];

#[test]
fn a_map_is_believed_where_it_is_whole_and_of_its_epoch(rt: HostRuntime) -> Result<(), Fail> {
    assert_eq!(rt; first_wrong_image(rt.alloc(), &BELIEVED)?, None);
    Ok(())
}

// How many bits of the map's sector are set, and its byte 131, which begins with the bit of the sector 920.
fn marks_of(image: &[Sector]) -> Option<(u32, u8)> {
    match image.get(920) {
        Some(Sector::Whole(bytes)) => {
            let mut set = 0u32;
            for byte in bytes[16..].iter() {
                set = set.saturating_add(byte.count_ones());
            }
            Some((set, bytes[131]))
        }
        _ => None,
    }
}

#[test]
fn free_sectors_and_free_pages_are_marked(rt: HostRuntime) -> Result<(), Fail> {
    let alloc = rt.alloc();
    let (m, wrong) = first_wrong(alloc, calm(alloc, formatted(alloc, ONE)?), &[EMPTY])?;
    assert_eq!(rt; wrong, None);
    assert_eq!(rt; marks_of(m.image()), Some((1189, 0x3f)));
    Ok(())
}

// A run ends between the two anchors of its epoch, or of its close.
const AFTER_FIRST_ANCHOR: Event = Event::StopIn {
    first: 12,
    nth: 1,
    stand: 0,
};

const BETWEEN_CLOSED: Event = Event::StopIn {
    first: 12,
    nth: 2,
    stand: 0,
};

const MAP_FAILS: Event = Event::FailIn {
    first: 920,
    nth: 1,
    stand: 0,
};

const CLOSE_FAILS: Event = Event::FailIn {
    first: 8,
    nth: 2,
    stand: 0,
};

const ENDS: [&[Met<'static>]; 3] = [
    &[
        (&[BETWEEN_CLOSED], ("cfs put v a", b"", 6, "")),
        (&[], COUNTED),
    ],
    &[
        (&[MAP_FAILS], ("cfs put v a", b"", 4, "fault device 920\n")),
        (&[], COUNTED),
    ],
    &[
        (&[CLOSE_FAILS], ("cfs put v a", b"", 4, "fault device 8\n")),
        (&[], COUNTED),
    ],
];

#[test]
fn a_close_that_is_cut_off_or_fails_is_forced(rt: HostRuntime) -> Result<(), Fail> {
    let image = formatted(rt.alloc(), ONE)?;
    for (i, rows) in ENDS.iter().enumerate() {
        let m = calm(rt.alloc(), image.to_vec(rt.alloc())?);
        assert_eq!(rt; first_wrong_met(rt.alloc(), m, rows)?, None, "{i}");
    }
    Ok(())
}

// The machine whose image reads so at these places.
fn reading(
    alloc: Global,
    m: &MemoryMachine,
    places: &[usize],
    front: &[u8],
) -> Result<MemoryMachine, AllocError> {
    let mut image = m.image().to_vec(alloc)?;
    for place in places {
        if let Some(there) = image.get_mut(*place) {
            *there = sector(front);
        }
    }
    Ok(calm(alloc, image))
}

// The anchor at 8 is of the epoch that was begun, and the one at 12 of the closed one before, whose map is there.
#[test]
fn an_older_anchor_is_taken_with_its_map(rt: HostRuntime) -> Result<(), Fail> {
    let alloc = rt.alloc();
    let (m, wrong) = first_wrong(alloc, calm(alloc, formatted(alloc, ONE)?), &[EMPTY])?;
    assert_eq!(rt; wrong, None);
    let (m, status) = run(alloc, m, &[AFTER_FIRST_ANCHOR], STAT, b"")?;
    assert_eq!(rt; status, 6);
    let m = reading(alloc, &m, &[784, 852], NO_PAGE)?;
    let older = reading(alloc, &m, &[8], b"")?;
    assert_eq!(rt; first_wrong(alloc, m, &[UNSOUND])?.1, None);
    assert_eq!(rt; first_wrong(alloc, older, &[COUNTED])?.1, None);
    Ok(())
}

// The first count of sectors behind which a stop leaves a put neither done nor undone, or undone where it was said.
fn wrong_stop(alloc: Global, format: &str) -> Result<Option<u64>, AllocError> {
    let image = formatted(alloc, format)?;
    for after in 0..40 {
        let m = calm(alloc, image.to_vec(alloc)?);
        let (m, status) = run(alloc, m, &[Event::Stop { after }], "cfs put v a", b"")?;
        let said = status == 6 && m.said().is_empty() || status == 0;
        let (m, end) = run(alloc, m, &[], STAT, b"")?;
        let made = m.said() == COUNTED.3.as_bytes();
        if !said || end != 0 || !made && (status == 0 || m.said() != NONE.3.as_bytes()) {
            return Ok(Some(after));
        }
    }
    Ok(None)
}

#[test]
fn a_stop_in_a_close_leaves_the_version_or_none(rt: HostRuntime) -> Result<(), Fail> {
    assert_eq!(rt; wrong_stop(rt.alloc(), ONE)?, None);
    assert_eq!(rt; wrong_stop(rt.alloc(), TWO)?, None);
    Ok(())
}

// Puts of 30 empty versions with names of 40 bytes, so that five leaves at least are in use.
fn puts(alloc: Global) -> Result<Vec<u8>, AllocError> {
    let mut script = Vec::new(alloc);
    for number in 0..30u32 {
        let put = format!(in alloc; "put nnnnnnnnnnnnnnnnnnnnnnnnnnnnnnnnnnnnnn{number:02} 0\n\n")?;
        script.extend_from_slice(put.as_bytes())?;
    }
    Ok(script)
}

// Each sector of the map of a volume that has four, alone and with its neighbour.
const HURT: [&[usize]; 8] = [
    &[920],
    &[921],
    &[922],
    &[923],
    &[920, 921],
    &[921, 922],
    &[922, 923],
    &[923, 924],
];

// Whether the table is walked, where these sectors are damaged: page 0, at home, is of no kind.
fn walks(alloc: Global, m: &MemoryMachine, damaged: &[usize]) -> Result<bool, AllocError> {
    let m = reading(alloc, m, &[784, 852], NO_PAGE)?;
    let m = reading(alloc, &m, damaged, b"")?;
    Ok(first_wrong(alloc, m, &[UNSOUND])?.1.is_none())
}

#[test]
fn each_sector_of_a_map_is_asked_for(rt: HostRuntime) -> Result<(), Fail> {
    let alloc = rt.alloc();
    let m = calm(alloc, formatted(alloc, FOUR)?);
    let (m, status) = run(alloc, m, &[], "cfs script v", puts(alloc)?.as_slice())?;
    assert_eq!(rt; status, 0);
    let (m, status) = run(alloc, m, &[], STAT, b"")?;
    assert_eq!(rt; status, 0);
    assert!(rt; !walks(alloc, &m, &[])?);
    for (i, damaged) in HURT.iter().enumerate() {
        assert!(rt; walks(alloc, &m, damaged)?, "{i}");
    }
    Ok(())
}
