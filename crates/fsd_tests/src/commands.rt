//! Commands and scripts, each list of them on a volume that is empty at first.
use crate::machines::{Row, calm, first_wrong, formatted, run};
use std::alloc::{AllocError, Global};
use std::test::Fail;

// The first of these runs on a fresh volume that says or answers otherwise.
fn wrong_on(alloc: Global, rows: &[Row]) -> Result<Option<usize>, AllocError> {
    let image = formatted(alloc, "cfs format v 2048 256 64")?;
    let (_, wrong) = first_wrong(alloc, calm(alloc, image), rows)?;
    Ok(wrong)
}

// Versions of a few names, and the sectors that they leave.
const VERSIONS: [Row<'static>; 21] = [
    (
        "cfs stat v",
        b"",
        0,
        "stat free 1127 waiting 0 pages 63 versions 0\n",
    ),
    ("cfs put v a", b"", 0, "made a!1 1\n"),
    (
        "cfs stat v",
        b"",
        0,
        "stat free 1126 waiting 0 pages 63 versions 1\n",
    ),
    ("cfs put v b", &[7; 512], 0, "made b!1 2\n"),
    ("cfs put v b", &[7; 513], 0, "made b!2 3\n"),
    (
        "cfs list v *",
        b"",
        0,
        "a!1 0 1 2\nb!1 512 2 2\nb!2 513 3 2\nlisted 3\n",
    ),
    (
        "cfs list v b*",
        b"",
        0,
        "b!1 512 2 2\nb!2 513 3 2\nlisted 2\n",
    ),
    ("cfs list v a", b"", 0, "a!1 0 1 2\nlisted 1\n"),
    ("cfs keep v b 1", b"", 0, "kept b!2 1\n"),
    ("cfs put v b", b"hi", 0, "made b!3 2\n"),
    ("cfs list v *", b"", 0, "a!1 0 1 2\nb!3 2 2 1\nlisted 2\n"),
    ("cfs get v b!2", b"", 1, "refused no-such\n"),
    ("cfs get v b!3", b"", 0, "hi"),
    ("cfs delete v b!3", b"", 0, "deleted b!3\n"),
    ("cfs delete v b!3", b"", 1, "refused no-such\n"),
    (
        "cfs stat v",
        b"",
        0,
        "stat free 1126 waiting 0 pages 63 versions 1\n",
    ),
    ("cfs keep v a 1000", b"", 1, "refused keep 1000\n"),
    ("cfs keep v z 999", b"", 1, "refused no-such\n"),
    ("cfs put v a --keep 0", b"", 0, "made a!2 1\n"),
    ("cfs put v a", b"", 0, "made a!3 1\n"),
    (
        "cfs list v a",
        b"",
        0,
        "a!1 0 1 2\na!2 0 1 0\na!3 0 1 0\nlisted 3\n",
    ),
];

// Scripts, and what each of them says.
const SCRIPTS: [Row<'static>; 5] = [
    ("cfs script v", b"", 0, "forced\n"),
    (
        "cfs script v",
        b"put c 0\n\nput c 0\n\nput c 0\n\nget c!1\nstat\nforce\nstat\n",
        0,
        "made c!1 1\nmade c!2 1\nmade c!3 1\nrefused no-such\n\
        stat free 1124 waiting 1 pages 63 versions 2\nforced\n\
        stat free 1125 waiting 0 pages 63 versions 2\nforced\n",
    ),
    (
        "cfs script v",
        b"put a 3\nxyz\nput b 10\n12",
        2,
        "made a!1 2\nforced\nbad line 2: short bytes\n",
    ),
    ("cfs get v a!1", b"", 0, "xyz"),
    (
        "cfs script v",
        b"get a!1\nlist a*\nget a!2\ntick\nfrob\n",
        2,
        "bytes a!1 3\nxyz\na!1 3 2 2\nlisted 1\nrefused no-such\nforced\nforced\nbad line 5: unknown word\n",
    ),
];

// Scripts whose first command is none, and why.
const BAD: [Row<'static>; 12] = [
    (
        "cfs script v",
        b" stat\n",
        2,
        "forced\nbad line 1: unknown word\n",
    ),
    (
        "cfs script v",
        b"stat x\n",
        2,
        "forced\nbad line 1: word count\n",
    ),
    (
        "cfs script v",
        b"put  a 1\n",
        2,
        "forced\nbad line 1: bad name\n",
    ),
    (
        "cfs script v",
        b"put a 01\n",
        2,
        "forced\nbad line 1: bad number\n",
    ),
    (
        "cfs script v",
        b"get a!0\n",
        2,
        "forced\nbad line 1: bad key\n",
    ),
    (
        "cfs script v",
        b"list *a\n",
        2,
        "forced\nbad line 1: bad pattern\n",
    ),
    (
        "cfs script v",
        &[b'a'; 129],
        2,
        "forced\nbad line 1: long line\n",
    ),
    ("cfs script v", b"\n", 2, "forced\nbad line 1: empty line\n"),
    (
        "cfs script v",
        b"stat",
        2,
        "forced\nbad line 1: no newline\n",
    ),
    (
        "cfs script v",
        b"scrub\n",
        2,
        "forced\nbad line 1: unknown word\n",
    ),
    (
        "cfs script v",
        b"scrub v\n",
        2,
        "forced\nbad line 1: unknown word\n",
    ),
    (
        "cfs script v",
        b"upgrade\n",
        2,
        "forced\nbad line 1: unknown word\n",
    ),
];

// The commands that the generator makes up of a seed are worked out by hand.
const MADE_UP: [Row<'static>; 4] = [
    (
        "cfs generate v 1 1",
        b"",
        0,
        "forced\ngenerated 1 made 0 deleted 0 kept 0 read 0 bytes 0 refused 1\n",
    ),
    (
        "cfs generate v 2 1",
        b"",
        0,
        "forced\ngenerated 1 made 0 deleted 0 kept 0 read 0 bytes 0 refused 1\n",
    ),
    (
        "cfs generate v 3 1",
        b"",
        0,
        "forced\ngenerated 1 made 1 deleted 0 kept 0 read 0 bytes 838 refused 0\n",
    ),
    ("cfs list v *", b"", 0, "g0!1 838 3 2\nlisted 1\n"),
];

// A volume that is made again twice, and what is put and read there.
const MADE_AGAIN: [Row<'static>; 11] = [
    ("cfs get v a!1", b"", 1, "refused no-such\n"),
    (
        "cfs format v 2048 256 64",
        b"",
        0,
        "formatted 2048 free 1127\n",
    ),
    ("cfs put v a", b"hi", 0, "made a!1 2\n"),
    ("cfs get v a!1", b"", 0, "hi"),
    ("cfs get v a!2", b"", 1, "refused no-such\n"),
    ("cfs put v a", b"hi", 0, "made a!2 2\n"),
    (
        "cfs format v 2048 256 64",
        b"",
        0,
        "formatted 2048 free 1127\n",
    ),
    ("cfs put v a", b"", 0, "made a!1 1\n"),
    ("cfs put v b", &[7; 512], 0, "made b!1 2\n"),
    ("cfs get v a!1", b"", 0, ""),
    ("cfs upgrade v", b"", 0, "upgraded 2\n"),
];

// A version is read to its end by a client that opened it, whatever became of it since.
const READ: Row<'static> = (
    "cfs script v",
    b"put f 6\nffffff\nopen 1 f!1\ndelete f!1\nforce\nopen 1 f!1\nstat\nnext 1 600\ndone 1\nstat\n",
    0,
    "made f!1 2\nopened 1 6\ndeleted f!1\nforced\nrefused busy 1\n\
    stat free 1125 waiting 2 pages 63 versions 0\nnext 1 6\nffffff\ndone 1\n\
    stat free 1127 waiting 0 pages 63 versions 0\nforced\n",
);

// Five bytes in pieces, with refusals on the way, and a version that is given up.
const PIECES: [Row<'static>; 3] = [
    READ,
    (
        "cfs script v",
        b"begin 1 h 5\npiece 1 3\nabc\nclose 1\npiece 1 3\nabc\npiece 1 2\nde\nclose 1\nclose 1\n\
        begin 9 h 0\nbegin 2 d 3\npiece 2 3\nxyz\ndrop 2\n",
        0,
        "begun 1\ntook 1 3\nrefused short 5 3\nrefused long 5 6\ntook 1 5\nmade h!1 2\nrefused idle 1\n\
        refused client 9\nbegun 2\ntook 2 3\ndropped 2\nforced\n",
    ),
    ("cfs get v h!1", b"", 0, "abcde"),
];

// Versions that have another key then, and their bytes, serials and sectors still: the keep of the name lets go as many
// as come. One that is open is read to its end under whatever key.
const MOVES: [Row<'static>; 12] = [
    ("cfs put v m", b"x", 0, "made m!1 2\n"),
    ("cfs move v m!1 n", b"", 0, "moved m!1 n!1\n"),
    ("cfs move v m!1 n", b"", 1, "refused no-such\n"),
    ("cfs get v n!1", b"", 0, "x"),
    ("cfs delete v n!1", b"", 0, "deleted n!1\n"),
    (
        "cfs script v",
        b"put m 1\nx\nmove m!1 n\nlist *\nmove m!1 n\n",
        0,
        "made m!1 2\nmoved m!1 n!1\nn!1 1 2 2\nlisted 1\nrefused no-such\nforced\n",
    ),
    (
        "cfs script v",
        b"put n 1\ny\nput m 2 7\nzz\nmove m!1 n\nlist *\n",
        0,
        "made n!2 2\nmade m!1 2\nmoved m!1 n!3\nn!2 1 2 2\nn!3 2 2 2\nlisted 2\nforced\n",
    ),
    (
        "cfs script v",
        b"put a 0 7\n\nmove a!1 a\nlist a\nmove a!2 m\nlist m\nkeep a 1\n",
        0,
        "made a!1 1\nmoved a!1 a!2\na!2 0 1 7\nlisted 1\nmoved a!2 m!1\nm!1 0 1 7\nlisted 1\nrefused no-such\nforced\n",
    ),
    (
        "cfs script v",
        b"open 1 n!3\nmove n!3 m\nnext 1 1\ndelete m!2\nforce\nput b 1\nw\nnext 1 9\ndone 1\n",
        0,
        "opened 1 2\nmoved n!3 m!2\nnext 1 1\nz\ndeleted m!2\nforced\nmade b!1 2\nnext 1 1\nz\ndone 1\nforced\n",
    ),
    ("cfs move v n!2 b", b"", 0, "moved n!2 b!2\n"),
    ("cfs scrub v", b"", 0, "scrubbed healed 0 damaged 0\n"),
    (
        "cfs script v",
        b"move a!1\n",
        2,
        "forced\nbad line 1: word count\n",
    ),
];

const LISTS: [&[Row<'static>]; 7] = [
    &VERSIONS,
    &SCRIPTS,
    &BAD,
    &MADE_UP,
    &MADE_AGAIN,
    &PIECES,
    &MOVES,
];

#[test]
fn commands_and_scripts_say_each_reply(rt: HostRuntime) -> Result<(), Fail> {
    for (i, rows) in LISTS.iter().enumerate() {
        assert_eq!(rt; wrong_on(rt.alloc(), rows)?, None, "{i}");
    }
    Ok(())
}

// A put that no version has room for, or the disk.
#[test]
fn puts_are_refused(rt: HostRuntime) -> Result<(), Fail> {
    let alloc = rt.alloc();
    let too_long = vec![in alloc; 5u8; 4_193_793]?;
    let too_much = vec![in alloc; 5u8; 577_024]?;
    let rows: [Row; 3] = [
        (
            "cfs put v a",
            too_long.as_slice(),
            1,
            "refused too-long 4193793\n",
        ),
        (
            "cfs put v a",
            too_much.as_slice(),
            1,
            "refused no-space 1128 1127\n",
        ),
        ("cfs list v *", b"", 0, "listed 0\n"),
    ];
    assert_eq!(rt; wrong_on(alloc, &rows)?, None);
    Ok(())
}

// 64 versions of a sector each, of which every odd one goes: what is free lies in parts.
fn in_parts(alloc: Global) -> Result<Vec<u8>, AllocError> {
    let mut script = Vec::new(alloc);
    for number in 0..64u32 {
        let put = format!(in alloc; "put q{number:02} 0\n\n")?;
        script.extend_from_slice(put.as_bytes())?;
    }
    for half in 0..32u32 {
        let odd = 2 * half + 1;
        let delete = format!(in alloc; "delete q{odd:02}!1\n")?;
        script.extend_from_slice(delete.as_bytes())?;
    }
    Ok(script)
}

// Versions of nine sectors and of eight.
const OF_PARTS: [Row<'static>; 3] = [
    ("cfs put w r", &[5; 4096], 1, "refused fragmented 9 8\n"),
    ("cfs put w r", &[5; 3584], 0, "made r!1 8\n"),
    ("cfs list w r*", b"", 0, "r!1 3584 8 2\nlisted 1\n"),
];

// Data at 753..817. The sectors of the versions that went are free behind the force that the first put makes by itself.
#[test]
fn what_is_free_may_lie_in_parts(rt: HostRuntime) -> Result<(), Fail> {
    let alloc = rt.alloc();
    let m = calm(alloc, formatted(alloc, "cfs format w 817 200 64")?);
    let (m, status) = run(alloc, m, &[], "cfs script w", in_parts(alloc)?.as_slice())?;
    let (_, wrong) = first_wrong(alloc, m, &OF_PARTS)?;
    assert_eq!(rt; (status, wrong), (0, None));
    Ok(())
}
