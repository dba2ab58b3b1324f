//! A put in which each call of the outside fails in turn, and what the next run lists.
use crate::machines::{calm, formatted, run};
use memory_machine::Event;
use sector_disk::Sector;
use std::alloc::{AllocError, Global};
use std::test::Fail;

const FORMAT: &str = "cfs format v 721 200 16";

const LIST: &str = "cfs list v *";

// Where this call of a put fails: its status, and whether the version is there.
// None where it says something else than it should.
fn put_with_fault(
    alloc: Global,
    image: &[Sector],
    call: u64,
) -> Result<Option<(u8, bool)>, AllocError> {
    let m = calm(alloc, image.to_vec(alloc)?);
    let fails = [Event::FailCall { call, stand: 0 }];
    let (m, status) = run(alloc, m, &fails, "cfs put v a", b"x")?;
    let said = match status {
        0 => m.said() == b"made a!1 2\n".as_slice(),
        4 => m.said().starts_with(b"fault device "),
        5 => m.said() == b"fault input\n".as_slice(),
        _ => m.said().is_empty(),
    };
    let (m, end) = run(alloc, m, &[], LIST, b"")?;
    let there = m.said() == b"a!1 1 2 2\nlisted 1\n".as_slice();
    let right = said && end == 0 && (there || m.said() == b"listed 0\n".as_slice());
    Ok(if right { Some((status, there)) } else { None })
}

// How many puts can't say their reply alone, and of how many a write of the map or of a closed anchor fails, or the sync
// behind them, where each call fails in turn. None where one says or leaves something else than it should: the calls before
// these are of the disk and of the input, and leave nothing.
fn unsaid_puts(alloc: Global, image: &[Sector]) -> Result<Option<(u32, u32)>, AllocError> {
    let mut unsaid = 0u32;
    let mut unclosed = 0u32;
    for call in 1..200 {
        match put_with_fault(alloc, image, call)? {
            Some((6, true)) => unsaid = unsaid.saturating_add(1),
            Some((4, true)) => unclosed = unclosed.saturating_add(1),
            Some((4 | 5, false) | (0, true)) => (),
            _ => return Ok(None),
        }
    }
    Ok(Some((unsaid, unclosed)))
}

#[test]
fn a_put_that_cannot_be_said_is_there(rt: HostRuntime) -> Result<(), Fail> {
    let alloc = rt.alloc();
    let image = formatted(alloc, FORMAT)?;
    assert_eq!(rt; unsaid_puts(alloc, image.as_slice())?, Some((1, 4)));
    Ok(())
}
