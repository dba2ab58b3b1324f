//! A dump as it is spelled and read.
use dump_text::{DumpRead, end_of, front_of, head_of, read_dump};
use fsd_bytes::{Key, Serial};
use std::test::Fail;

/// The dump of a volume with the version a!1, whose byte is an x.
pub(crate) const ONE: [u8; 38] =
    *b"CFSD\0\0\0\x01\0\0\0\x02\0\0\0\x01\x01a\0\0\0\x01\0\x02\0\0\0\0\x01xCFSE\0\0\0\x01";

#[test]
fn a_dump_of_one_version_is_spelled_and_read(rt: HostRuntime) -> Result<(), Fail> {
    let key = Key::parse(b"a!1").unwrap_or_default();
    let mut out = Vec::new(rt.alloc());
    out.extend_from_slice(&head_of(1, Serial { epoch: 2, count: 1 }))?;
    out.extend_from_slice(front_of(&key, 2, 1).as_slice())?;
    out.extend_from_slice(b"x")?;
    out.extend_from_slice(&end_of(1))?;
    assert_eq!(rt; out.as_slice(), ONE.as_slice());
    let items = read_dump(rt.alloc(), &ONE)?;
    let found = items
        .first()
        .map(|item| (item.key.version, item.start, item.length));
    assert_eq!(rt; (items.len(), found), (1, Some((1, 29, 1))));
    let cut = read_dump(rt.alloc(), &ONE[..37]).err();
    assert_eq!(rt; cut, Some(DumpRead::Bad(37)));
    Ok(())
}
