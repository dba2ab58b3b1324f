//! A script of three forces that is stopped behind each sector that it writes, and a list that is stopped too and made
//! again: it tells of a prefix of the changes, with each one that was forced. So it does where the disk has held back what
//! was written since the last sync, and lost some of it.
use crate::machines::{formatted, run, run_behind, weak};
use memory_machine::{Event, MemoryMachine, When};
use sector_disk::Sector;
use std::alloc::{AllocError, Global};
use std::test::Fail;

pub(crate) const FORMAT: &str = "cfs format w 721 200 16";

const LIST: &str = "cfs list w *";

const REPLIES: &[u8] = b"made a!1 2\nforced\nmade b!1 2\ndeleted a!1\nforced\nkept b!1 1\nforced\n";

// What is listed before the first change, and behind each of the four.
const LISTS: [&str; 5] = [
    "listed 0\n",
    "a!1 1 2 2\nlisted 1\n",
    "a!1 1 2 2\nb!1 3 2 2\nlisted 2\n",
    "b!1 3 2 2\nlisted 1\n",
    "b!1 3 2 1\nlisted 1\n",
];

// By the number of replies that were said: the changes that are forced, and all with the one under way.
const CHANGES: [(usize, usize); 8] = [
    (0, 1),
    (0, 1),
    (1, 2),
    (1, 3),
    (1, 3),
    (3, 4),
    (3, 4),
    (4, 4),
];

const CHANGING: &[u8] = b"put a 1\nx\nforce\nput b 3\nxyz\ndelete a!1\nforce\nkeep b 1\n";

// Whether a run with this status has said all replies, or stopped behind some.
fn are_first(said: &[u8], status: u8) -> bool {
    REPLIES.starts_with(said) && (status == 6 || status == 0 && said == REPLIES)
}

// Whether this list may be found where so much was said.
fn may_stand(said: &[u8], listed: &[u8]) -> bool {
    let replies = said.iter().filter(|byte| **byte == b'\n').count();
    let changes = LISTS.iter().position(|list| list.as_bytes() == listed);
    match (CHANGES.get(replies), changes) {
        (Some((forced, most)), Some(changes)) => *forced <= changes && changes <= *most,
        _ => false,
    }
}

// Whether the script, a list and one more go well with these events, where each stop loses so many calls.
fn goes_well(
    alloc: Global,
    m: MemoryMachine,
    held: usize,
    events: [&[Event]; 3],
) -> Result<bool, AllocError> {
    let [changing, listing, last] = events;
    let (m, status) = run(alloc, m, changing, "cfs script w", CHANGING)?;
    let first = are_first(m.said(), status);
    let said = m.said().to_vec(alloc)?;
    let (m, status) = run_behind(alloc, m, held, listing, LIST, b"")?;
    let early = m.said().to_vec(alloc)?;
    let (m, end) = run_behind(alloc, m, held, last, LIST, b"")?;
    let same = early.as_slice() == m.said() || early.is_empty() && status == 6;
    Ok(m.honest() && first && same && end == 0 && may_stand(said.as_slice(), m.said()))
}

/// After how many sectors the script stops, any number of them, and the list, one of these numbers, where it goes wrong. Where
/// nothing wears the script writes 27 sectors, and a list 10 at most.
pub(crate) fn wrong_stops(
    alloc: Global,
    image: &[Sector],
    pair: u32,
    held: usize,
    worn: [Event; 2],
    listings: &[u64],
) -> Result<Option<(u64, u64)>, AllocError> {
    let [a, b] = worn;
    for changing in 0..30 {
        for listing in listings {
            let m = weak(alloc, image, 2, [pair; 3])?;
            let first = [a, b, Event::Stop { after: changing }];
            let second = [a, b, Event::Stop { after: *listing }];
            if !goes_well(alloc, m, held, [&first, &second, &worn])? {
                return Ok(Some((changing, *listing)));
            }
        }
    }
    Ok(None)
}

// The first home of page 0 is damaged as a run begins, and again before the mount settles.
const WORN: [Event; 2] = [
    Event::HurtAt {
        sector: 616,
        when: When::Call(2),
    },
    Event::HurtAt {
        sector: 616,
        when: When::Settle,
    },
];

#[test]
fn a_stop_leaves_a_prefix(rt: HostRuntime) -> Result<(), Fail> {
    let alloc = rt.alloc();
    let image = formatted(alloc, FORMAT)?;
    let wrong = wrong_stops(alloc, image.as_slice(), 616, 1000, WORN, &[2, 9])?;
    assert_eq!(rt; wrong, None);
    Ok(())
}
