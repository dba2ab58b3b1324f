//! Growth of a volume: what it says, what a stop, a fault or wear in it leaves, and what is put and read where it has grown.
//! Each volume has its roots at 0 and 4, and, but for the one that says how far it may grow, one sector of map, which has
//! bits for 3968 sectors.
use crate::machines::{
    Met, Row, calm, first_wrong, first_wrong_met, formatted, goes, run, run_behind, weak,
};
use crate::stops::{SMALL, SMALL_TWO};
use memory_machine::{Event, MemoryMachine, When};
use sector_disk::Sector;
use std::alloc::{AllocError, Global};
use std::test::Fail;

const ONE: &str = "cfs format v 2048 256 64";

const TWO: &str = "cfs format v 2048 256 64 --layout 2";

const GROW: &str = "cfs grow v 3968";

const STAT: &str = "cfs stat v";

const UPGRADE: &str = "cfs upgrade v";

const GROWN: Row<'static> = (GROW, b"", 0, "grown 3968 free 3047\n");

const GREW: Row<'static> = (GROW, b"", 1, "refused size 3968\n");

const UPGRADED: Row<'static> = (UPGRADE, b"", 0, "upgraded 2\n");

const NARROW: Row<'static> = (
    STAT,
    b"",
    0,
    "stat free 1127 waiting 0 pages 63 versions 0\n",
);

const WIDE: Row<'static> = (
    STAT,
    b"",
    0,
    "stat free 3047 waiting 0 pages 63 versions 0\n",
);

const GROWTH: [Row<'static>; 8] = [
    ("cfs grow v 3969", b"", 1, "refused most 3968\n"),
    ("cfs grow v 2048", b"", 1, "refused size 2048\n"),
    ("cfs grow v 0", b"", 1, "refused size 0\n"),
    ("cfs grow v 2049", b"", 0, "grown 2049 free 1128\n"),
    ("cfs grow v 2048", b"", 1, "refused size 2048\n"),
    GROWN,
    WIDE,
    GREW,
];

#[test]
fn a_volume_grows_to_its_most(rt: HostRuntime) -> Result<(), Fail> {
    let alloc = rt.alloc();
    for format in [ONE, TWO] {
        let (m, wrong) = first_wrong(alloc, calm(alloc, formatted(alloc, format)?), &GROWTH)?;
        assert_eq!(rt; wrong, None, "{format}");
        assert_eq!(rt; m.image().len(), 3968);
    }
    Ok(())
}

// So many bytes take a sector more than a small volume has free.
const LENGTH: usize = 32_257;

// Whether a version is made that wants these sectors, and read.
fn takes_a_version(alloc: Global, m: MemoryMachine) -> Result<bool, AllocError> {
    let bytes = vec![in alloc; 7u8; LENGTH]?;
    let (m, status) = run(alloc, m, &[], "cfs put v a", bytes.as_slice())?;
    let made = status == 0 && m.said() == b"made a!1 65\n".as_slice();
    let (m, status) = run(alloc, m, &[], "cfs get v a!1", b"")?;
    Ok(made && status == 0 && m.said() == bytes.as_slice())
}

#[test]
fn what_has_come_is_given_out(rt: HostRuntime) -> Result<(), Fail> {
    let alloc = rt.alloc();
    let bytes = vec![in alloc; 7u8; LENGTH]?;
    for format in [SMALL, SMALL_TWO] {
        let m = calm(alloc, formatted(alloc, format)?);
        let (m, status) = run(alloc, m, &[], "cfs put v a", bytes.as_slice())?;
        assert_eq!(rt;
            (status, m.said()),
            (1, b"refused no-space 65 64\n".as_slice())
        );
        let (m, status) = run(alloc, m, &[], "cfs grow v 722", b"")?;
        assert_eq!(rt; (status, m.said()), (0, b"grown 722 free 65\n".as_slice()));
        assert_eq!(rt; takes_a_version(alloc, m)?, true, "{format}");
    }
    Ok(())
}

const MOST: [Row<'static>; 7] = [
    (
        "cfs format w 2048 256 64 --most 8000",
        b"",
        0,
        "formatted 2048 free 1125\n",
    ),
    ("cfs grow w 8001", b"", 1, "refused most 8000\n"),
    ("cfs grow w 8000", b"", 0, "grown 8000 free 7077\n"),
    (
        "cfs format w 2048 256 64 --most 2047",
        b"",
        1,
        "refused most 2047\n",
    ),
    (
        "cfs format w 2048 256 64 --most 16777217",
        b"",
        1,
        "refused most 16777217\n",
    ),
    (
        "cfs format w 920 256 64 --most 8000",
        b"",
        1,
        "refused too-small 987\n",
    ),
    (
        "cfs format w 2048 256 64 --most x",
        b"",
        2,
        "bad line 0: bad number\n",
    ),
];

#[test]
fn a_format_says_how_far_a_volume_may_grow(rt: HostRuntime) -> Result<(), Fail> {
    let alloc = rt.alloc();
    let (_, wrong) = first_wrong(alloc, calm(alloc, Vec::new(alloc)), &MOST)?;
    assert_eq!(rt; wrong, None);
    Ok(())
}

const FIRST_ROOT: Event = Event::StopIn {
    first: 0,
    nth: 1,
    stand: 0,
};

const SECOND_ROOT: Event = Event::StopIn {
    first: 4,
    nth: 1,
    stand: 0,
};

const ROOT_FAILS: Event = Event::FailIn {
    first: 4,
    nth: 1,
    stand: 0,
};

// What is said behind a stop or a fault.
const STOPS: [&[Met<'static>]; 3] = [
    &[
        (&[FIRST_ROOT], (GROW, b"", 6, "")),
        (&[], NARROW),
        (&[], GROWN),
    ],
    &[
        (&[SECOND_ROOT], (GROW, b"", 6, "")),
        (&[], WIDE),
        (&[], GREW),
    ],
    &[
        (&[ROOT_FAILS], (GROW, b"", 4, "fault device 4\n")),
        (&[], WIDE),
    ],
];

#[test]
fn the_next_run_finds_a_volume_that_grew(rt: HostRuntime) -> Result<(), Fail> {
    let image = formatted(rt.alloc(), ONE)?;
    for (i, rows) in STOPS.iter().enumerate() {
        let m = calm(rt.alloc(), image.to_vec(rt.alloc())?);
        assert_eq!(rt; first_wrong_met(rt.alloc(), m, rows)?, None, "{i}");
    }
    Ok(())
}

const GROWN_SMALL: Row<'static> = (GROW, b"", 0, "grown 3968 free 3311\n");

// Where a small volume has grown and was upgraded, or either was cut off.
const UPGRADES: [&[Met<'static>]; 4] = [
    &[(&[], GROWN_SMALL), (&[], UPGRADED)],
    &[(&[], UPGRADED), (&[], GROWN_SMALL)],
    &[
        (&[SECOND_ROOT], (GROW, b"", 6, "")),
        (&[], UPGRADED),
        (&[], GREW),
    ],
    &[
        (&[SECOND_ROOT], (UPGRADE, b"", 6, "")),
        (&[], GROWN_SMALL),
        (&[], (UPGRADE, b"", 1, "refused layout 2\n")),
    ],
];

// The machine behind these runs, where each goes well.
fn behind(
    alloc: Global,
    m: MemoryMachine,
    rows: &[Met],
) -> Result<Option<MemoryMachine>, AllocError> {
    let mut m = m;
    for (events, row) in rows {
        let (next, so) = goes(alloc, m, events, row)?;
        if !so {
            return Ok(None);
        }
        m = next;
    }
    Ok(Some(m))
}

#[test]
fn a_growth_goes_on_beside_an_upgrade(rt: HostRuntime) -> Result<(), Fail> {
    let alloc = rt.alloc();
    let image = formatted(alloc, SMALL)?;
    for (i, rows) in UPGRADES.iter().enumerate() {
        let m = behind(alloc, calm(alloc, image.to_vec(alloc)?), rows)?;
        let taken = match m {
            Some(m) => takes_a_version(alloc, m)?,
            None => false,
        };
        assert_eq!(rt; taken, true, "{i}");
    }
    Ok(())
}

// Of a small volume with a version of one byte.
const FEW: &[u8] = b"stat free 62 waiting 0 pages 15 versions 1\n";

const MANY: &[u8] = b"stat free 3309 waiting 0 pages 15 versions 1\n";

// Behind a put of one more.
const READ: [Row<'static>; 3] = [
    (
        STAT,
        b"",
        0,
        "stat free 3307 waiting 0 pages 15 versions 2\n",
    ),
    ("cfs get v a!1", b"", 0, "x"),
    ("cfs get v b!1", b"", 0, "y"),
];

/// Whether a growth with these events has said its reply, or a fault, or nothing, and the next run finds that it was done or
/// not; and that it is said then only where it was done, and is done where it was not. What is put then is read.
pub(crate) fn is_done_or_not(
    alloc: Global,
    m: MemoryMachine,
    held: usize,
    events: [&[Event]; 2],
) -> Result<bool, AllocError> {
    let [growing, counting] = events;
    let (m, status) = run(alloc, m, growing, GROW, b"")?;
    let said = match status {
        0 => m.said() == b"grown 3968 free 3309\n".as_slice(),
        4 => m.said().starts_with(b"fault device "),
        _ => status == 6 && m.said().is_empty(),
    };
    let (m, end) = run_behind(alloc, m, held, counting, STAT, b"")?;
    let many = m.said() == MANY;
    let found = end == 0 && (many || status != 0 && m.said() == FEW);
    let (m, again) = run(alloc, m, &[], GROW, b"")?;
    let grown = if many {
        again == 1 && m.said() == b"refused size 3968\n".as_slice()
    } else {
        again == 0 && m.said() == b"grown 3968 free 3309\n".as_slice()
    };
    let (m, put) = run(alloc, m, &[], "cfs put v b", b"y")?;
    let (m, wrong) = first_wrong(alloc, m, &READ)?;
    Ok(said && found && grown && put == 0 && m.honest() && wrong.is_none())
}

/// A volume with a version.
pub(crate) fn with_version(alloc: Global, format: &str) -> Result<Vec<Sector>, AllocError> {
    let m = calm(alloc, formatted(alloc, format)?);
    let (m, _) = run(alloc, m, &[], "cfs put v a", b"x")?;
    m.image().to_vec(alloc)
}

// What may end a growth: it stops behind so many sectors, or so many calls have gone well before one fails.
fn event_of(stops: bool, count: u64) -> Event {
    if stops {
        Event::Stop { after: count }
    } else {
        Event::FailCall {
            call: count.saturating_add(1),
            stand: 0,
        }
    }
}

// The first count below this of which a growth leaves anything else, where so many calls are lost that were held back.
fn wrong_event(
    alloc: Global,
    format: &str,
    held: usize,
    stops: bool,
    counts: u64,
) -> Result<Option<u64>, AllocError> {
    let image = with_version(alloc, format)?;
    for count in 0..counts {
        let m = calm(alloc, image.to_vec(alloc)?);
        if !is_done_or_not(alloc, m, held, [&[event_of(stops, count)], &[]])? {
            return Ok(Some(count));
        }
    }
    Ok(None)
}

// Where nothing wears such a growth writes eight sectors, and its reply is said by the 65th call.
#[test]
fn a_stopped_growth_is_done_or_not(rt: HostRuntime) -> Result<(), Fail> {
    for (format, held) in [(SMALL, 0), (SMALL_TWO, 0), (SMALL, 1000)] {
        assert_eq!(rt;
            wrong_event(rt.alloc(), format, held, true, 9)?,
            None,
            "{format} {held}"
        );
    }
    Ok(())
}

#[test]
fn a_growth_that_fails_is_done_or_not(rt: HostRuntime) -> Result<(), Fail> {
    assert_eq!(rt; wrong_event(rt.alloc(), SMALL, 0, false, 66)?, None);
    Ok(())
}

const BEHIND_ROOTS: Event = Event::StopIn {
    first: 4,
    nth: 1,
    stand: 1,
};

// A sector is damaged once the run has attached the image.
fn hurt(sector: u32) -> Event {
    Event::HurtAt {
        sector,
        when: When::Call(2),
    }
}

// The first sector of a weak run of so many, of which a growth that stops at a root, or behind both, leaves anything else
// where these sectors of the run are damaged as it begins and again before the next one.
fn wrong_run(alloc: Global, format: &str, count: u32) -> Result<Option<u32>, AllocError> {
    let image = with_version(alloc, format)?;
    for first in [0u32, 4, 8, 12, 16, 616, 636, 655, 720] {
        let last = first.saturating_add(count.saturating_sub(1));
        let [a, b, c] = [hurt(first), hurt(first.saturating_add(1)), hurt(last)];
        for stop in [FIRST_ROOT, SECOND_ROOT, BEHIND_ROOTS] {
            let m = weak(alloc, image.as_slice(), count, [first; 3])?;
            if !is_done_or_not(alloc, m, 0, [&[a, b, c, stop], &[a, b, c]])? {
                return Ok(Some(first));
            }
        }
    }
    Ok(None)
}

#[test]
fn a_stopped_growth_may_wear(rt: HostRuntime) -> Result<(), Fail> {
    assert_eq!(rt; wrong_run(rt.alloc(), SMALL, 2)?, None);
    assert_eq!(rt; wrong_run(rt.alloc(), SMALL_TWO, 3)?, None);
    Ok(())
}

/// How many sectors a small volume gains.
pub(crate) const MORE: u32 = 3247;

/// The ends of a run are damaged just before this call, or never where it is 0.
pub(crate) fn worn(first: u32, count: u32, call: u64) -> [Event; 2] {
    let last = first.saturating_add(count.saturating_sub(1));
    let when = When::Call(call);
    [
        Event::HurtAt {
            sector: first,
            when,
        },
        Event::HurtAt { sector: last, when },
    ]
}

// The call of a growth that gives the image its sectors, where these are damaged once it has attached it.
fn extend_call(alloc: Global, image: &[Sector], count: u32, first: u32) -> Result<u64, AllocError> {
    let [a, b] = worn(first, count, 2);
    for call in 1..200u64 {
        let stop = Event::StopCall { call, stand: MORE };
        let m = weak(alloc, image, count, [first; 3])?;
        let (m, _) = run(alloc, m, &[a, b, stop], GROW, b"")?;
        if image.len() < m.image().len() {
            return Ok(call);
        }
    }
    Ok(0)
}

// Whether a growth that ends in this call, where so many of its sectors may stand, has given them to the image or none of
// them, and is done behind that.
fn ends_well(
    alloc: Global,
    image: &[Sector],
    run_of: (u32, u32, u64),
    end: Event,
    comes: bool,
) -> Result<bool, AllocError> {
    let (first, count, hurt) = run_of;
    let [a, b] = worn(first, count, 2);
    let [c, d] = worn(first, count, hurt);
    let m = weak(alloc, image, count, [first; 3])?;
    let (m, _) = run(alloc, m, &[a, b, c, d, end], GROW, b"")?;
    let came = image.len() < m.image().len();
    let m = weak(alloc, image, count, [first; 3])?;
    let done = is_done_or_not(alloc, m, 0, [&[a, b, c, d, end], &[a, b]])?;
    Ok(came == comes && done)
}

// How many may stand, and whether the sectors come: together.
const STANDS: [(u32, bool); 2] = [(3246, false), (MORE, true)];

// The first sector of a weak run of so many, and how many may stand, where a growth that ends in its `extend` leaves
// anything else.
fn wrong_extend(alloc: Global, format: &str, count: u32) -> Result<Option<(u32, u32)>, AllocError> {
    let image = with_version(alloc, format)?;
    for first in [0u32, 720] {
        let call = extend_call(alloc, image.as_slice(), count, first)?;
        for (stand, comes) in STANDS {
            let fail = Event::FailCall { call, stand };
            let stop = Event::StopCall { call, stand };
            for end in [fail, stop] {
                let run_of = (first, count, call);
                if !ends_well(alloc, image.as_slice(), run_of, end, comes)? {
                    return Ok(Some((first, stand)));
                }
            }
        }
    }
    Ok(None)
}

#[test]
fn an_image_grows_at_once_or_not(rt: HostRuntime) -> Result<(), Fail> {
    assert_eq!(rt; wrong_extend(rt.alloc(), SMALL, 2)?, None);
    assert_eq!(rt; wrong_extend(rt.alloc(), SMALL_TWO, 3)?, None);
    Ok(())
}
