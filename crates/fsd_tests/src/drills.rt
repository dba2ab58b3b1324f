//! The drill: what it says of the six lives, and an output that fails.
use crate::machines::{Met, calm, first_wrong_met};
use memory_machine::Event;
use std::test::Fail;

// What each life lists. A put that stops in its record is there where the record's page and end stand (life 3), and not
// where its end doesn't (life 2), nor where the page is damaged then, and its copy is of the record before (life 4).
pub(crate) const LIVES: &str = "life 1
a!1 1 2 2
b!1 1 2 2
listed 2
life 2
a!1 1 2 2
listed 1
life 3
a!1 1 2 2
b!1 1 2 2
listed 2
life 4
a!1 1 2 2
listed 1
life 5
a!1 1 2 2
b!1 1 2 2
listed 2
life 6
a!1 1 2 2
b!1 1 2 2
listed 2
";

// The third call says the number of the second life.
const FAILS: Event = Event::FailCall { call: 3, stand: 0 };

const ROWS: [Met<'static>; 3] = [
    (&[], ("cfs drill", b"", 0, LIVES)),
    (
        &[],
        ("cfs drill v", b"", 2, "usage: cfs COMMAND IMAGE WORDS\n"),
    ),
    (
        &[FAILS],
        (
            "cfs drill",
            b"",
            6,
            "life 1\na!1 1 2 2\nb!1 1 2 2\nlisted 2\n",
        ),
    ),
];

#[test]
fn a_drill_says_six_lives(rt: HostRuntime) -> Result<(), Fail> {
    let alloc = rt.alloc();
    let m = calm(alloc, Vec::new(alloc));
    assert_eq!(rt; first_wrong_met(alloc, m, &ROWS)?, None);
    Ok(())
}
