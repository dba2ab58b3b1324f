//! Texts, runs of sectors, and where everything lies, as the formats say.
ghost use Rattle.std.specs.Prelude.{◌≡◌, [], ◌∷◌};

use fsd_bytes::{FileName, Key, NameFault, Pattern, read_number};
use run_table::{Run, Runs};
use std::test::Fail;
use volume_layout::{Layout, LayoutFault, read_root, root_bytes};

// Names, and why they are none.
const NAMES: [(&[u8], Option<NameFault>); 4] = [
    (&[b'a'; 40], None),
    (&[b'a'; 41], Some(NameFault::TooLong(41))),
    (b"a b", Some(NameFault::BadByte { place: 1, byte: 32 })),
    (b"", Some(NameFault::Empty)),
];

const NUMBERS: [(&[u8], Option<u32>); 5] = [
    (b"0", Some(0)),
    (b"4294967295", Some(4_294_967_295)),
    (b"4294967296", None),
    (b"01", None),
    (b"", None),
];

const NO_KEYS: [&[u8]; 5] = [b"a!", b"a!0", b"a", b"!1", b"a!1!1"];

#[test]
fn texts_read_as_the_formats_say(rt: HostRuntime) {
    for (text, fault) in NAMES {
        assert_eq!(rt; FileName::parse(text).err(), fault);
    }
    for (text, number) in NUMBERS {
        assert_eq!(rt; read_number(text), number);
    }
    for text in NO_KEYS {
        assert!(rt; Key::parse(text).is_none());
    }
    let key = Key::parse(b"a!1").unwrap_or_default();
    assert_eq!(rt; (key.name.as_bytes(), key.version), (b"a".as_slice(), 1));
    let fits = Pattern::parse(b"a*").map(|pattern| pattern.fits(&key.name));
    assert_eq!(rt; fits, Some(true));
}

// Which sector a version has at each place.
const SECTORS: [(u32, Option<u32>); 4] = [
    (0, Some(921)),
    (1, Some(922)),
    (2, Some(930)),
    (3, None),
];

// Two runs.
fn two_runs(first: Run, second: Run) -> Runs
    ensures { result ≡ first ∷ second ∷ [] }
{
    let mut runs = Runs::new();
    runs.push(first);
    runs.push(second);
    runs
}

const FIRST: Run = Run {
    start: 921,
    length: 2,
};

const SECOND: Run = Run {
    start: 930,
    length: 1,
};

// The same runs as they are spelled.
const SPELLED: [u8; 12] = *b"\0\0\x03\x99\0\x02\0\0\x03\xa2\0\x01";

#[test]
fn runs_are_laid_end_to_end_and_spelled(rt: HostRuntime) {
    let runs = two_runs(FIRST, SECOND);
    assert_eq!(rt; (runs.total(), runs.is_full()), (3, false));
    for (i, sector) in SECTORS {
        assert_eq!(rt; runs.sector(i), sector);
    }
    let mut bytes = [0; 12];
    runs.put_bytes(&mut bytes);
    assert_eq!(rt; bytes, SPELLED);
    assert_eq!(rt; Runs::read_bytes(&SPELLED), Some(runs));
}

/// A volume of so many sectors, sectors of a third and pages, as it is planned.
pub(crate) fn planned(sectors: u32, third: u32, pages: u32) -> Result<Layout, LayoutFault> {
    Layout::plan(sectors, third, pages)
}

// Where a plan of 64 pages has its parts.
fn places(l: &Layout) -> [u32; 6]
    requires { l.now.pages ≡ 64 }
{
    [
        l.third_start(2),
        l.home_a(0),
        l.home_b(63),
        l.map_start(),
        l.map_sectors(),
        l.data_start(),
    ]
}

#[test]
fn a_plan_lies_as_the_format_says(rt: HostRuntime) -> Result<(), Fail> {
    let l = planned(2048, 256, 64)?;
    assert_eq!(rt; (l.sectors(), l.third(), l.pages()), (2048, 256, 64));
    assert!(rt; l.pages() == 64);
    assert_eq!(rt; places(&l), [528, 784, 915, 920, 1, 921]);
    let root = root_bytes(&l);
    let start = b"CFSR\0\0\0\x01\0\0\x08\0\0\0\x01\0\0\0\0\x40";
    assert!(rt; root.starts_with(start));
    assert_eq!(rt; read_root(&root), Some(l));
    Ok(())
}
