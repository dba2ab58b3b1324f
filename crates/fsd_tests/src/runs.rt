//! The lines that make a volume or are none, each on what the one before has left.
use crate::machines::{calm, run};
use std::test::Fail;

// A line, and the status, the sectors and the text with which it ends.
const LINES: [(&str, u8, usize, &str); 25] = [
    ("cfs stat v", 3, 0, "fault not-a-volume\n"),
    (
        "cfs format v 2048 256 64",
        0,
        2048,
        "formatted 2048 free 1127\n",
    ),
    (
        "cfs format w 720 200 16",
        1,
        2048,
        "refused too-small 721\n",
    ),
    ("cfs format w 721 200 16", 0, 721, "formatted 721 free 64\n"),
    (
        "cfs format w 720 4096 4096",
        1,
        721,
        "refused too-small 20574\n",
    ),
    ("cfs format w 720 199 16", 1, 721, "refused third 199\n"),
    ("cfs format w 720 200 4097", 1, 721, "refused pages 4097\n"),
    (
        "cfs format w 16777217 200 16",
        1,
        721,
        "refused too-large 16777217\n",
    ),
    (
        "cfs format w 0721 200 16",
        2,
        721,
        "bad line 0: bad number\n",
    ),
    (
        "cfs format w 721 200 4294967296",
        2,
        721,
        "bad line 0: bad number\n",
    ),
    (
        "cfs format w 721 200 16 --layout 3",
        2,
        721,
        "bad line 0: bad number\n",
    ),
    (
        "cfs format w 721 200 16 --layout x",
        2,
        721,
        "bad line 0: bad number\n",
    ),
    (
        "cfs format w 721 200 16 --layout",
        2,
        721,
        "usage: cfs COMMAND IMAGE WORDS\n",
    ),
    (
        "cfs format w 722 200 16 --layout 2",
        0,
        722,
        "formatted 722 free 65\n",
    ),
    (
        "cfs format w 721 200 16 --layout 1",
        0,
        721,
        "formatted 721 free 64\n",
    ),
    (
        "cfs upgrade w x",
        2,
        721,
        "usage: cfs COMMAND IMAGE WORDS\n",
    ),
    ("cfs frob v", 2, 721, "usage: cfs COMMAND IMAGE WORDS\n"),
    (
        "cfs format -v 721 200 16",
        2,
        721,
        "usage: cfs COMMAND IMAGE WORDS\n",
    ),
    ("cfs put w a b", 2, 721, "usage: cfs COMMAND IMAGE WORDS\n"),
    ("cfs get w a!0", 2, 721, "bad line 0: bad key\n"),
    ("cfs put w a*b", 2, 721, "bad line 0: bad name\n"),
    (
        "cfs put w 12345678901234567890123456789012345678901",
        2,
        721,
        "bad line 0: bad name\n",
    ),
    ("cfs put w ", 2, 721, "bad line 0: bad name\n"),
    (
        "cfs put w 1234567890123456789012345678901234567890",
        0,
        721,
        "made 1234567890123456789012345678901234567890!1 1\n",
    ),
    ("cfs", 2, 721, "usage: cfs COMMAND IMAGE WORDS\n"),
];

#[test]
fn says_each_line(rt: HostRuntime) -> Result<(), Fail> {
    let alloc = rt.alloc();
    let mut m = calm(alloc, Vec::new(alloc));
    for (line, status, sectors, said) in LINES {
        let (next, ended) = run(alloc, m, &[], line, b"")?;
        assert_eq!(rt; ended, status, "{line}");
        assert_eq!(rt; next.said(), said.as_bytes(), "{line}");
        assert_eq!(rt; next.image().len(), sectors, "{line}");
        m = next;
    }
    Ok(())
}
