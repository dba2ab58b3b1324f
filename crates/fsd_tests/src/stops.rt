//! Runs that are stopped, or in which a call of the outside fails or sectors wear, and what the next ones say. The volumes
//! of 2048 sectors have their log from 16 on, their homes from 784 and from 852 on, and their data from 921 on.
use crate::machines::{Met, calm, first_wrong_met, formatted, run, weak};
use memory_machine::{Event, When};
use std::alloc::{AllocError, Global};
use std::test::Fail;

const ONE: &str = "cfs format v 2048 256 64";

const TWO: &str = "cfs format v 2048 256 64 --layout 2";

const LIST: &str = "cfs list v *";

const PUT: &str = "cfs put v a";

const GET: &str = "cfs get v a!1";

const SCRIPT: &str = "cfs script v";

const UPGRADE: &str = "cfs upgrade v";

const LISTED: &str = "a!1 1 2 2\nlisted 1\n";

// The first record stands at 16..23: a header, a blank, the header's copy, the page and the end, and the copies of both.
// It is cut off behind so many sectors.
const CUT_0: Event = Event::StopIn {
    first: 16,
    nth: 1,
    stand: 0,
};

const CUT_4: Event = Event::StopIn {
    first: 16,
    nth: 1,
    stand: 4,
};

const CUT_5: Event = Event::StopIn {
    first: 16,
    nth: 1,
    stand: 5,
};

const CUT_6: Event = Event::StopIn {
    first: 16,
    nth: 1,
    stand: 6,
};

const SECOND_CUT: Event = Event::StopIn {
    first: 23,
    nth: 1,
    stand: 0,
};

const RECORD_FAILS: Event = Event::FailIn {
    first: 16,
    nth: 1,
    stand: 2,
};

const BETWEEN_HOMES: Event = Event::StopIn {
    first: 852,
    nth: 1,
    stand: 0,
};

const BETWEEN_ROOTS: Event = Event::StopIn {
    first: 4,
    nth: 1,
    stand: 0,
};

const ROOT_FAILS: Event = Event::FailIn {
    first: 0,
    nth: 1,
    stand: 0,
};

// A sector is damaged once the run has attached the image, which drops a window that was named and not settled.
const ROOT_HURT: Event = Event::HurtAt {
    sector: 0,
    when: When::Call(2),
};

const PAGE_HURT: Event = Event::HurtAt {
    sector: 19,
    when: When::Call(2),
};

const END_HURT: Event = Event::HurtAt {
    sector: 20,
    when: When::Call(2),
};

const HOME_HURT: Event = Event::HurtAt {
    sector: 784,
    when: When::Call(2),
};

// It is damaged just before the mount settles.
const HOME_HURT_LATE: Event = Event::HurtAt {
    sector: 784,
    when: When::Settle,
};

// A volume of these lines with a record that is cut off, or whose write fails; and inputs that come in pieces.
const STOPS: [(&str, &[Met<'static>]); 8] = [
    (
        ONE,
        &[
            (&[CUT_4], (PUT, b"x", 6, "")),
            (&[], (LIST, b"", 0, "listed 0\n")),
        ],
    ),
    (
        ONE,
        &[
            (&[CUT_5], (PUT, b"x", 6, "")),
            (&[], (LIST, b"", 0, LISTED)),
            (&[], (GET, b"", 0, "x")),
        ],
    ),
    (
        TWO,
        &[
            (&[CUT_5], (PUT, b"x", 6, "")),
            (&[], (GET, b"", 1, "refused no-such\n")),
        ],
    ),
    (
        TWO,
        &[(&[CUT_6], (PUT, b"x", 6, "")), (&[], (GET, b"", 0, "x"))],
    ),
    (
        ONE,
        &[
            (&[RECORD_FAILS], (PUT, b"x", 4, "fault device 16\n")),
            (&[], (LIST, b"", 0, "listed 0\n")),
        ],
    ),
    // The sectors of what was deleted are not free before the force.
    (
        ONE,
        &[
            (
                &[SECOND_CUT],
                (
                    SCRIPT,
                    b"put d 1\nx\nforce\ndelete d!1\nput e 1\ny\n",
                    6,
                    "made d!1 2\nforced\ndeleted d!1\nmade e!1 2\n",
                ),
            ),
            (&[], (LIST, b"", 0, "d!1 1 2 2\nlisted 1\n")),
            (&[], ("cfs get v d!1", b"", 0, "x")),
        ],
    ),
    // Nothing is left of a version that is half written.
    (
        ONE,
        &[
            (
                &[CUT_0],
                (
                    SCRIPT,
                    b"begin 1 h 9\npiece 1 6\nhhhhhh\nstat\nput z 0\n\nforce\n",
                    6,
                    "begun 1\ntook 1 6\nstat free 1125 waiting 2 pages 63 versions 0\nmade z!1 1\n",
                ),
            ),
            (
                &[],
                (
                    "cfs stat v",
                    b"",
                    0,
                    "stat free 1127 waiting 0 pages 63 versions 0\n",
                ),
            ),
        ],
    ),
    (
        ONE,
        &[
            (
                &[Event::Pieces { most: 1 }],
                (
                    SCRIPT,
                    b"put a 1\nx\nput b 1\ny\nput c 1\nz\n",
                    0,
                    "made a!1 2\nmade b!1 2\nmade c!1 2\nforced\n",
                ),
            ),
            (
                &[],
                (LIST, b"", 0, "a!1 1 2 2\nb!1 1 2 2\nc!1 1 2 2\nlisted 3\n"),
            ),
        ],
    ),
];

const UPGRADES: [(&str, &[Met<'static>]); 3] = [
    (
        ONE,
        &[
            (&[], (UPGRADE, b"", 0, "upgraded 2\n")),
            (&[], (UPGRADE, b"", 1, "refused layout 2\n")),
            (&[], (PUT, b"x", 0, "made a!1 2\n")),
            (&[], (GET, b"", 0, "x")),
        ],
    ),
    (
        ONE,
        &[
            (&[ROOT_FAILS], (UPGRADE, b"", 4, "fault device 0\n")),
            (&[], (UPGRADE, b"", 0, "upgraded 2\n")),
            (&[], (PUT, b"x", 0, "made a!1 2\n")),
        ],
    ),
    (
        ONE,
        &[
            (&[BETWEEN_ROOTS], (UPGRADE, b"", 6, "")),
            (&[], (UPGRADE, b"", 1, "refused layout 2\n")),
            (&[], (PUT, b"x", 0, "made a!1 2\n")),
            (&[], (GET, b"", 0, "x")),
        ],
    ),
];

// Whether each of these goes as it should, on a fresh volume on which nothing wears.
fn wrong_of(alloc: Global, stories: &[(&str, &[Met])]) -> Result<Option<usize>, AllocError> {
    for (i, (format, rows)) in stories.iter().enumerate() {
        if first_wrong_met(alloc, calm(alloc, formatted(alloc, format)?), rows)?.is_some() {
            return Ok(Some(i));
        }
    }
    Ok(None)
}

#[test]
fn the_next_run_says_what_stands(rt: HostRuntime) -> Result<(), Fail> {
    assert_eq!(rt; wrong_of(rt.alloc(), &STOPS)?, None);
    assert_eq!(rt; wrong_of(rt.alloc(), &UPGRADES)?, None);
    Ok(())
}

// The pairs that may wear, and four runs.
const WORN: [([u32; 3], [Met<'static>; 4]); 5] = [
    // Behind the end of the record that is cut off, the page is that of the record before.
    (
        [19; 3],
        [
            (&[], (PUT, b"x", 0, "made a!1 2\n")),
            (&[CUT_5], ("cfs put v b", b"y", 6, "")),
            (&[PAGE_HURT], ("cfs get v b!1", b"", 1, "refused no-such\n")),
            (&[], (LIST, b"", 0, LISTED)),
        ],
    ),
    // The first get completes the record and stops between the two homes. What the second one says from there, the
    // third one says from the second home.
    (
        [19, 19, 784],
        [
            (&[CUT_5], (PUT, b"x", 6, "")),
            (&[BETWEEN_HOMES], (GET, b"", 6, "")),
            (&[PAGE_HURT], (GET, b"", 0, "x")),
            (&[HOME_HURT], (GET, b"", 0, "x")),
        ],
    ),
    // A page of the record and the end behind it; the first home of a page that is in the log; a root.
    (
        [19; 3],
        [
            (&[], (PUT, b"x", 0, "made a!1 2\n")),
            (&[PAGE_HURT, END_HURT], (LIST, b"", 0, LISTED)),
            (&[], (LIST, b"", 0, LISTED)),
            (&[], (GET, b"", 0, "x")),
        ],
    ),
    (
        [784; 3],
        [
            (&[], (PUT, b"x", 0, "made a!1 2\n")),
            (&[HOME_HURT, HOME_HURT_LATE], (LIST, b"", 0, LISTED)),
            (&[], (LIST, b"", 0, LISTED)),
            (&[], (GET, b"", 0, "x")),
        ],
    ),
    (
        [0; 3],
        [
            (&[], (PUT, b"x", 0, "made a!1 2\n")),
            (&[ROOT_HURT], (LIST, b"", 0, LISTED)),
            (&[ROOT_HURT], (LIST, b"", 0, LISTED)),
            (&[], (GET, b"", 0, "x")),
        ],
    ),
];

#[test]
fn a_worn_pair_loses_nothing(rt: HostRuntime) -> Result<(), Fail> {
    let alloc = rt.alloc();
    let image = formatted(alloc, ONE)?;
    for (i, (pairs, rows)) in WORN.iter().enumerate() {
        let m = weak(alloc, image.as_slice(), 2, *pairs)?;
        assert_eq!(rt; first_wrong_met(alloc, m, rows)?, None, "{i}");
    }
    Ok(())
}

// The script puts a version and sets its keep 84 times, each with a force.
fn keeps(alloc: Global) -> Result<Vec<u8>, AllocError> {
    let mut script = Vec::new(alloc);
    script.extend_from_slice(b"put x 0\n\nforce\n")?;
    for keep in 1..85u32 {
        let lines = format!(in alloc; "keep x {keep}\nforce\n")?;
        script.extend_from_slice(lines.as_bytes())?;
    }
    Ok(script)
}

pub(crate) const SMALL: &str = "cfs format w 721 200 16";

pub(crate) const SMALL_TWO: &str = "cfs format w 721 200 16 --layout 2";

/// A volume, the first sector of a write, which of the writes there is stopped, how many of its sectors stand then, and
/// what is listed.
pub(crate) type Round<'a> = (&'a str, u32, u32, u32, &'a str);

const ROUNDS: [Round<'static>; 6] = [
    (SMALL, 216, 1, 5, "x!1 0 1 28\nlisted 1\n"),
    (SMALL, 8, 2, 0, "x!1 0 1 83\nlisted 1\n"),
    (SMALL, 16, 2, 4, "x!1 0 1 83\nlisted 1\n"),
    (SMALL, 16, 2, 5, "x!1 0 1 84\nlisted 1\n"),
    (SMALL_TWO, 12, 2, 0, "x!1 0 1 65\nlisted 1\n"),
    (SMALL_TWO, 16, 2, 6, "x!1 0 1 66\nlisted 1\n"),
];

/// The first of these of which something else is listed.
pub(crate) fn wrong_round(alloc: Global, rounds: &[Round]) -> Result<Option<usize>, AllocError> {
    let script = keeps(alloc)?;
    for (i, (format, first, nth, stand, listed)) in rounds.iter().enumerate() {
        let m = calm(alloc, formatted(alloc, format)?);
        let event = Event::StopIn {
            first: *first,
            nth: *nth,
            stand: *stand,
        };
        let (m, _) = run(alloc, m, &[event], "cfs script w", script.as_slice())?;
        let (m, status) = run(alloc, m, &[], "cfs list w *", b"")?;
        if status != 0 || m.said() != listed.as_bytes() {
            return Ok(Some(i));
        }
    }
    Ok(None)
}

// A third of 200 sectors has 28 records of one page, or 22 on layout 2.
// The 85th, or the 67th, enters the first third again: the anchor goes to 8 and 12 before it.
#[test]
fn the_log_comes_round(rt: HostRuntime) -> Result<(), Fail> {
    assert_eq!(rt; wrong_round(rt.alloc(), &ROUNDS)?, None);
    Ok(())
}
