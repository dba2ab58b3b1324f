//! Dumps of a volume, and restores of them.
use crate::machines::{Row, calm, first_wrong, formatted};
use std::alloc::{AllocError, Global};
use std::test::Fail;

// The volume of two tests.
const FORMAT: &str = "cfs format v 2048 256 64";

// The dump of the version a!1 with the byte x, which the first mount has made.
const ONE: &str =
    "CFSD\0\0\0\x01\0\0\0\x02\0\0\0\x01\x01a\0\0\0\x01\0\x02\0\0\0\0\x01xCFSE\0\0\0\x01";

// The same without its last byte.
const CUT: &[u8] =
    b"CFSD\0\0\0\x01\0\0\0\x02\0\0\0\x01\x01a\0\0\0\x01\0\x02\0\0\0\0\x01xCFSE\0\0\0";

// Behind its serial there is nothing.
const BEHIND: &str = "CFSD\0\0\0\0\0\0\0\x02\0\0\0\x01CFSE\0\0\0\0";

// That of a volume without versions.
const NONE: &str = "CFSD\0\0\0\0\0\0\0\0\0\0\0\0CFSE\0\0\0\0";

// The dump of a!1 and b!1.
const TWO: &[u8] = b"CFSD\0\0\0\x02\0\0\0\x02\0\0\0\x02\
    \x01a\0\0\0\x01\0\x02\0\0\0\0\x01x\x01b\0\0\0\x01\0\x02\0\0\0\0\x01yCFSE\0\0\0\x02";

// Of a volume in whose epoch 4 b!1 was made, and a!1 in epoch 5, the dump of b!1 alone.
const FIRST: &str =
    "CFSD\0\0\0\x01\0\0\0\x04\0\0\0\x01\x01b\0\0\0\x01\0\x02\0\0\0\0\x01yCFSE\0\0\0\x01";

// That of a!1 alone.
const SECOND: &str =
    "CFSD\0\0\0\x01\0\0\0\x05\0\0\0\x01\x01a\0\0\0\x01\0\x02\0\0\0\0\x01xCFSE\0\0\0\x01";

// That of both.
const BOTH: &str = "CFSD\0\0\0\x02\0\0\0\x05\0\0\0\x01\
    \x01a\0\0\0\x01\0\x02\0\0\0\0\x01x\x01b\0\0\0\x01\0\x02\0\0\0\0\x01yCFSE\0\0\0\x02";

// Behind both there is nothing.
const END: &str = "CFSD\0\0\0\0\0\0\0\x05\0\0\0\x01CFSE\0\0\0\0";

// Of two versions the second finds no place, and the one before it stands.
const FULL: [Row<'static>; 4] = [
    ("cfs put v c", &[7; 31_232], 0, "made c!1 62\n"),
    (
        "cfs stat v",
        b"",
        0,
        "stat free 2 waiting 0 pages 15 versions 1\n",
    ),
    ("cfs restore v", TWO, 1, "refused no-space 2 0\n"),
    (
        "cfs list v *",
        b"",
        0,
        "a!1 1 2 2\nc!1 31232 62 2\nlisted 2\n",
    ),
];

// The first of these that says or answers otherwise on a volume that this line formats.
fn wrong_on(alloc: Global, format: &str, rows: &[Row]) -> Result<Option<usize>, AllocError> {
    let image = formatted(alloc, format)?;
    let (_, wrong) = first_wrong(alloc, calm(alloc, image), rows)?;
    Ok(wrong)
}

#[test]
fn a_version_is_said_and_made_again_once_it_is_gone(rt: HostRuntime) -> Result<(), Fail> {
    let rows: [Row; 14] = [
        ("cfs put v a", b"x", 0, "made a!1 2\n"),
        ("cfs dump v 0 0", b"", 0, ONE),
        ("cfs dump v 2 0", b"", 0, ONE),
        ("cfs dump v 2 1", b"", 0, BEHIND),
        ("cfs restore v", ONE.as_bytes(), 1, "refused exists a!1\n"),
        ("cfs delete v a!1", b"", 0, "deleted a!1\n"),
        ("cfs dump v 0 0", b"", 0, NONE),
        ("cfs restore v", NONE.as_bytes(), 0, "restored 0\n"),
        ("cfs restore v", b"", 1, "refused dump 0\n"),
        ("cfs restore v", CUT, 1, "refused dump 37\n"),
        ("cfs restore v", ONE.as_bytes(), 0, "restored 1\n"),
        ("cfs get v a!1", b"", 0, "x"),
        ("cfs list v *", b"", 0, "a!1 1 2 2\nlisted 1\n"),
        ("cfs dump v 0 z", b"", 2, "bad line 0: bad number\n"),
    ];
    assert_eq!(rt; wrong_on(rt.alloc(), FORMAT, &rows)?, None);
    Ok(())
}

// The first mount of all says a dump, and the second makes one again.
#[test]
fn a_fresh_volume_is_dumped_and_restored(rt: HostRuntime) -> Result<(), Fail> {
    let rows: [Row; 2] = [
        ("cfs dump v 0 0", b"", 0, NONE),
        ("cfs restore v", ONE.as_bytes(), 0, "restored 1\n"),
    ];
    assert_eq!(rt; wrong_on(rt.alloc(), FORMAT, &rows)?, None);
    Ok(())
}

// The one that was made first is the second by its key.
#[test]
fn a_dump_has_as_many_of_the_first_versions_as_so_many_bytes_hold(
    rt: HostRuntime,
) -> Result<(), Fail> {
    let rows: [Row; 11] = [
        ("cfs dump v 0 0 --bytes 23", b"", 1, "refused too-long 24\n"),
        ("cfs dump v 0 0 --bytes 24", b"", 0, NONE),
        ("cfs put v b", b"y", 0, "made b!1 2\n"),
        ("cfs put v a", b"x", 0, "made a!1 2\n"),
        ("cfs dump v 0 0 --bytes 37", b"", 1, "refused too-long 38\n"),
        ("cfs dump v 0 0 --bytes 38", b"", 0, FIRST),
        ("cfs dump v 0 0 --bytes 51", b"", 0, FIRST),
        ("cfs dump v 0 0 --bytes 52", b"", 0, BOTH),
        ("cfs dump v 4 1 --bytes 38", b"", 0, SECOND),
        ("cfs dump v 5 1 --bytes 24", b"", 0, END),
        (
            "cfs dump v 0 0 --bytes z",
            b"",
            2,
            "bad line 0: bad number\n",
        ),
    ];
    assert_eq!(rt; wrong_on(rt.alloc(), FORMAT, &rows)?, None);
    Ok(())
}

#[test]
fn a_restore_keeps_what_comes_before_a_refusal(rt: HostRuntime) -> Result<(), Fail> {
    assert_eq!(rt;
        wrong_on(rt.alloc(), "cfs format v 721 200 16", &FULL)?,
        None
    );
    Ok(())
}
