//! The example for programmers: filled and read, stopped behind each sector, and over a disk that fails.
use crate::machines::{calm, formatted};
use crate::mounted::Mounted;
use fsd_bytes::{FileName, Refusal};
use memory_machine::Event;
use std::alloc::Global;
use std::test::Fail;
use volume_example::ExampleFault;

const NAME: &[u8] = b"notes/a";

const BYTES: [u8; 5] = *b"hello";

/// A volume that is mounted, and empty, in a run with these events.
pub(crate) fn empty(alloc: Global, events: &[Event]) -> Result<Mounted, Fail> {
    let image = formatted(alloc, "cfs format w 721 200 16")?;
    Mounted::on(alloc, calm(alloc, image), events)
}

#[test]
fn what_is_put_is_read(rt: HostRuntime) -> Result<(), Fail> {
    let mut volume = empty(rt.alloc(), &[])?;
    let mut buf = [0; 5];
    let read = volume.put_and_read(&FileName::parse(NAME)?, &BYTES, &mut buf);
    assert!(rt; read.is_ok() && buf == BYTES && volume.count()? == 1);
    Ok(())
}

// Whether a version is said to be made and forced over a machine that stops behind so many sectors, and how many
// versions the next mount has.
fn stops_behind(alloc: Global, after: u64) -> Result<(bool, u32), Fail> {
    let mut volume = empty(alloc, &[Event::Stop { after }])?;
    let done = volume
        .put_and_force(&FileName::parse(NAME)?, &BYTES)
        .is_ok();
    let mut next = Mounted::on(alloc, volume.stopped(), &[])?;
    Ok((done, next.count()?))
}

// The mount writes the two anchors, the leader and the data are two sectors, and the record of one page is seven, of
// which the first five are enough.
#[test]
fn a_stop_leaves_none_or_the_one(rt: HostRuntime) -> Result<(), Fail> {
    for after in [2, 8, 9, 10, 11u64] {
        let left = stops_behind(rt.alloc(), after)?;
        assert_eq!(rt; left, (after >= 11, u32::from(after >= 9)), "{after}");
    }
    Ok(())
}

const RECORD_FAILS: Event = Event::FailIn {
    first: 16,
    nth: 1,
    stand: 2,
};

// The force fails that the version waits for, and the volume is down since then.
#[test]
fn a_force_that_fails_ends_the_volume(rt: HostRuntime) -> Result<(), Fail> {
    let mut volume = empty(rt.alloc(), &[RECORD_FAILS])?;
    let name = FileName::parse(NAME)?;
    let failed = volume.put_and_force(&name, &BYTES);
    let down = volume.put_and_force(&name, &BYTES);
    assert!(rt;
        matches!(
            failed,
            Err(ExampleFault::Behind {
                why: Refusal::Device(16),
                ..
            })
        )
    );
    assert!(rt; matches!(down, Err(ExampleFault::Put(Refusal::Down(16)))));
    Ok(())
}
