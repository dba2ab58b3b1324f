//! Images whose sectors are damaged or hold other bytes before a run, and sectors that a run leaves, as the formats spell
//! them. The volumes of 2048 sectors have their roots at 0 and 4, anchors at 8 and 12, the log from 16 on, homes from 784
//! and from 852 on, and data from 921 on.
use crate::machines::{Row, calm, first_wrong, formatted};
use sector_disk::Sector;
use std::alloc::{AllocError, Global};
use std::test::Fail;

/// How a sector begins that goes on with zeros; of no bytes, that it is damaged.
pub(crate) type Front<'a> = &'a [u8];

/// A volume, the lines that are run on it, the sectors that read so from then on, the lines behind that, and how sectors
/// begin at the end.
pub(crate) type Image<'a> = (
    &'a str,
    &'a [Row<'a>],
    (&'a [usize], Front<'a>),
    &'a [Row<'a>],
    &'a [(usize, Front<'a>)],
);

const ONE: &str = "cfs format v 2048 256 64";

const TWO: &str = "cfs format v 2048 256 64 --layout 2";

const LIST: &str = "cfs list v *";

const SCRUB: &str = "cfs scrub v";

const GET: &str = "cfs get v a!1";

const PUT: Row<'static> = ("cfs put v a", b"x", 0, "made a!1 2\n");

const GOT: Row<'static> = (GET, b"", 0, "x");

const ROOT: &[u8] = b"CFSR\0\0\0\x01\0\0\x08\0\0\0\x01\0\0\0\0\x40";

// The anchors of volumes that were closed in the epochs 2 and 3, and the last one of all.
pub(crate) const CLOSED: &[u8] = b"CFSA\0\0\0\x02\0\x01\0\0\0\0\0\x01";

pub(crate) const CLOSED_NEXT: &[u8] = b"CFSA\0\0\0\x03\0\x01\0\0\0\0\0\x01";

const LAST_ANCHOR: &[u8] = b"CFSA\xff\xff\xff\xff\0\0\0\0\0\0\0\x01";

// Page 0 with the version a!1, of 27 bytes, as the record 1 of epoch 2 has it.
const PAGE: &[u8] = b"CNPG\x01\0\0\x01\0\x1b\0\0\0\0\0\0\0\0\0\x02\0\0\0\x01";

// A page of no kind, and one with a separator whose both children are page 0.
pub(crate) const NO_PAGE: &[u8] = b"CNPG\x07\0\0\0\0\0\0\0\0\0\0\0\0\0\0\x01";

const LEADING_BACK: &[u8] = b"CNPG\x02\0\0\x01\0\x35\0\0\0\0\0\0\0\0\0\x01\0\0\0\0\0\0\0\0\x01m\
    \0\0\0\0\0\0\0\0\0\0\0\0\0\0\0\0\0\0\0\0\0\0\0\0\0\0\0\0\0\0\0\0\0\0\0\0\0\0\0\0\0\0\x01";

const UNSOUND: &[Row<'static>] = &[
    (LIST, b"", 3, "fault unsound 784\n"),
    (SCRUB, b"", 3, "fault unsound 784\n"),
];

// What stands twice is lost where both are damaged, and a page that breaks the table is told.
const FAULTS: [Image<'static>; 7] = [
    (
        ONE,
        &[],
        (&[784, 852], b""),
        &[
            (LIST, b"", 3, "fault lost 784 852\n"),
            (SCRUB, b"", 3, "fault lost 784 852\n"),
        ],
        &[],
    ),
    (
        ONE,
        &[],
        (&[847, 915], b""),
        &[
            (LIST, b"", 3, "fault lost 847 915\n"),
            (SCRUB, b"", 3, "fault lost 847 915\n"),
        ],
        &[],
    ),
    (
        ONE,
        &[],
        (&[8, 12], b""),
        &[
            (LIST, b"", 3, "fault no-anchor 8 12\n"),
            (SCRUB, b"", 3, "fault no-anchor 8 12\n"),
        ],
        &[],
    ),
    (
        ONE,
        &[],
        (&[0, 4], b""),
        &[
            (LIST, b"", 3, "fault not-a-volume\n"),
            (SCRUB, b"", 3, "fault not-a-volume\n"),
        ],
        &[],
    ),
    (
        ONE,
        &[],
        (&[12], LAST_ANCHOR),
        &[(LIST, b"", 9, "fault worn out\n")],
        &[(12, LAST_ANCHOR)],
    ),
    (ONE, &[], (&[784, 852], NO_PAGE), UNSOUND, &[]),
    (ONE, &[], (&[784, 852], LEADING_BACK), UNSOUND, &[]),
];

// The record of a put stands at 16: header, blank, header, page, end, page, end; on layout 2 with two blanks, and one more
// behind the first end. The next mount brings its page home, and mends the roots and the anchors.
const RECORDS: [Image<'static>; 4] = [
    (
        ONE,
        &[PUT],
        (&[], b""),
        &[],
        &[
            (16, b"CLHD\0\0\0\x02\0\0\0\x01\0\x01"),
            (17, b"\0\0\0\0"),
            (18, b"CLHD"),
            (19, PAGE),
            (20, b"CLEN\0\0\0\x02\0\0\0\x01\0\x01"),
            (21, PAGE),
            (22, b"CLEN"),
            (23, b""),
            (784, b"CNPG\x01\0\0\0"),
        ],
    ),
    (
        TWO,
        &[PUT],
        (&[], b""),
        &[],
        &[
            (16, b"CLHD"),
            (17, b"\0\0\0\0"),
            (18, b"\0\0\0\0"),
            (19, b"CLHD"),
            (20, PAGE),
            (21, b"CLEN"),
            (22, b"\0\0\0\0"),
            (23, PAGE),
            (24, b"CLEN"),
            (25, b""),
        ],
    ),
    (
        ONE,
        &[PUT],
        (&[21, 22, 784], b""),
        &[GOT],
        &[
            (784, PAGE),
            (852, PAGE),
            (21, PAGE),
            (22, b"CLEN"),
            (783, b""),
            (8, CLOSED_NEXT),
            (12, CLOSED_NEXT),
        ],
    ),
    (
        ONE,
        &[],
        (&[0, 12], b""),
        &[(LIST, b"", 0, "listed 0\n")],
        &[(0, ROOT), (4, ROOT), (8, CLOSED), (12, CLOSED)],
    ),
];

// A record of layout 2 outlasts three damaged sectors.
const OF_THREE: [Image<'static>; 3] = [
    (TWO, &[PUT], (&[16, 17, 18], b""), &[GOT], &[]),
    (TWO, &[PUT], (&[19, 20, 21], b""), &[GOT], &[]),
    (TWO, &[PUT], (&[22, 23, 24], b""), &[GOT], &[]),
];

const LONG: Row<'static> = ("cfs put v g", &[7; 1200], 0, "made g!1 4\n");

// A damaged sector of data is told and stays, and a damaged leader is healed.
const SCRUBBED: [Image<'static>; 2] = [
    (
        ONE,
        &[LONG],
        (&[923], b""),
        &[
            ("cfs get v g!1", b"", 8, "damaged g!1 923\n"),
            (
                SCRUB,
                b"",
                8,
                "damaged g!1 923\nscrubbed healed 0 damaged 1\n",
            ),
            (
                SCRUB,
                b"",
                8,
                "damaged g!1 923\nscrubbed healed 0 damaged 1\n",
            ),
            ("cfs get v g!1", b"", 8, "damaged g!1 923\n"),
        ],
        &[(923, b"")],
    ),
    (
        ONE,
        &[PUT],
        (&[921], b""),
        &[
            (SCRUB, b"", 0, "scrubbed healed 1 damaged 0\n"),
            (SCRUB, b"", 0, "scrubbed healed 0 damaged 0\n"),
            GOT,
        ],
        &[],
    ),
];

// Seven entries of 66 bytes stand in one leaf. The eighth parts page 0, which leads to two pages from then on, by one
// separator of 53 bytes.
const SEVEN: Row<'static> = (
    "cfs script v",
    b"put nnnnnnnnnnnnnnnnnnnnnnnnnnnnnnnnnnnnnn01 0\n\nput nnnnnnnnnnnnnnnnnnnnnnnnnnnnnnnnnnnnnn02 0\n\nput nnnnnnnnnnnnnnnnnnnnnnnnnnnnnnnnnnnnnn03 0\n\nput nnnnnnnnnnnnnnnnnnnnnnnnnnnnnnnnnnnnnn04 0\n\nput nnnnnnnnnnnnnnnnnnnnnnnnnnnnnnnnnnnnnn05 0\n\nput nnnnnnnnnnnnnnnnnnnnnnnnnnnnnnnnnnnnnn06 0\n\nput nnnnnnnnnnnnnnnnnnnnnnnnnnnnnnnnnnnnnn07 0\n\n",
    0,
    "made nnnnnnnnnnnnnnnnnnnnnnnnnnnnnnnnnnnnnn01!1 1\nmade nnnnnnnnnnnnnnnnnnnnnnnnnnnnnnnnnnnnnn02!1 1\nmade nnnnnnnnnnnnnnnnnnnnnnnnnnnnnnnnnnnnnn03!1 1\nmade nnnnnnnnnnnnnnnnnnnnnnnnnnnnnnnnnnnnnn04!1 1\nmade nnnnnnnnnnnnnnnnnnnnnnnnnnnnnnnnnnnnnn05!1 1\nmade nnnnnnnnnnnnnnnnnnnnnnnnnnnnnnnnnnnnnn06!1 1\nmade nnnnnnnnnnnnnnnnnnnnnnnnnnnnnnnnnnnnnn07!1 1\nforced\n",
);

const EIGHTH: Row<'static> = (
    "cfs put v nnnnnnnnnnnnnnnnnnnnnnnnnnnnnnnnnnnnnn08",
    b"",
    0,
    "made nnnnnnnnnnnnnnnnnnnnnnnnnnnnnnnnnnnnnn08!1 1\n",
);

const PARTED: [Image<'static>; 2] = [
    (
        ONE,
        &[SEVEN],
        (&[], b""),
        &[(
            "cfs stat v",
            b"",
            0,
            "stat free 1120 waiting 0 pages 63 versions 7\n",
        )],
        &[
            (784, b"CNPG\x01\0\0\x07\x01\xce"),
            (852, b"CNPG\x01\0\0\x07\x01\xce"),
        ],
    ),
    (
        ONE,
        &[SEVEN, EIGHTH],
        (&[], b""),
        &[(
            "cfs stat v",
            b"",
            0,
            "stat free 1119 waiting 0 pages 61 versions 8\n",
        )],
        &[
            (784, b"CNPG\x02\0\0\x01\0\x35"),
            (785, b"CNPG\x01"),
            (786, b"CNPG\x01"),
        ],
    ),
];

/// The sector that begins so.
pub(crate) fn sector(front: Front) -> Sector {
    if front.is_empty() {
        return Sector::Damaged;
    }
    let mut bytes = [0; 512];
    for (byte, spelled) in bytes.iter_mut().zip(front) {
        *byte = *spelled;
    }
    Sector::Whole(bytes)
}

// Whether all of these sectors begin so.
fn begin_so(image: &[Sector], fronts: &[(usize, Front)]) -> bool {
    fronts.iter().all(|(place, front)| match image.get(*place) {
        Some(Sector::Whole(bytes)) => !front.is_empty() && bytes.starts_with(front),
        Some(Sector::Damaged) => front.is_empty(),
        None => false,
    })
}

/// The first image that does not go so.
pub(crate) fn first_wrong_image(
    alloc: Global,
    images: &[Image],
) -> Result<Option<usize>, AllocError> {
    for (i, (format, before, (places, front), behind, fronts)) in images.iter().enumerate() {
        let (m, early) = first_wrong(alloc, calm(alloc, formatted(alloc, format)?), before)?;
        let mut image = m.image().to_vec(alloc)?;
        for place in places.iter() {
            if let Some(there) = image.get_mut(*place) {
                *there = sector(front);
            }
        }
        let (m, late) = first_wrong(alloc, calm(alloc, image), behind)?;
        if early.or(late).is_some() || !begin_so(m.image(), fronts) {
            return Ok(Some(i));
        }
    }
    Ok(None)
}

#[test]
fn what_is_lost_or_unsound_is_told(rt: HostRuntime) -> Result<(), Fail> {
    assert_eq!(rt; first_wrong_image(rt.alloc(), &FAULTS)?, None);
    Ok(())
}

#[test]
fn records_lie_so_and_are_brought_home(rt: HostRuntime) -> Result<(), Fail> {
    assert_eq!(rt; first_wrong_image(rt.alloc(), &RECORDS)?, None);
    assert_eq!(rt; first_wrong_image(rt.alloc(), &OF_THREE)?, None);
    Ok(())
}

#[test]
fn scrubs_heal_and_the_eighth_name_parts_page_0(rt: HostRuntime) -> Result<(), Fail> {
    assert_eq!(rt; first_wrong_image(rt.alloc(), &SCRUBBED)?, None);
    assert_eq!(rt; first_wrong_image(rt.alloc(), &PARTED)?, None);
    Ok(())
}
