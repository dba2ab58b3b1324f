//! The machine in memory: each kind of event, once.
ghost use Rattle.std.specs.Prelude.{◌≤◌};

use memory_machine::{Event, MemoryMachine, When};
use sector_disk::{Attach, Failed, Machine, Sector, Seen};
use std::alloc::{AllocError, Global};
use std::test::Fail;

const OLD: Sector = Sector::Whole([7; 512]);

const NEW: Sector = Sector::Whole([8; 512]);

const HURT: Sector = Sector::Damaged;

/// The same byte so many times.
pub(crate) fn repeated<const N: usize>(byte: u8) -> [u8; N] {
    [byte; N]
}

// Two sectors are written twice, and a window is closed: whether the second write and then a `take` answer Ok.
fn tried<M: Machine>(m: &mut M) -> Result<(bool, bool), Failed>
    requires { 2 ≤ (M.report m.old).sectors }
{
    m.write(0, &repeated::<1024>(7))?;
    let writes = m.write(0, &repeated::<1024>(8)).is_ok();
    let _settled = m.settle();
    let takes = m.take(&mut [0; 8]).is_ok();
    Ok((writes, takes))
}

const INPUT: [u8; 3] = [1, 2, 3];

// A machine of two sectors that may wear and three bytes of input, to which this happens.
fn with_event(alloc: Global, event: Event) -> Result<MemoryMachine, AllocError> {
    let image = vec![in alloc; HURT; 2]?;
    let pairs = vec![in alloc; 1]?;
    let events = vec![in alloc; event]?;
    prove!(pairs.len() == 1);
    MemoryMachine::new(alloc, image, pairs, events, INPUT.to_vec(alloc)?)
}

// What is to happen; whether the second write and then the `take` answer Ok, honesty, and what stands at the end.
const EVENTS: [(Event, bool, bool, bool, [Sector; 2]); 9] = [
    (Event::Pieces { most: 2 }, true, true, true, [NEW, NEW]),
    (
        Event::FailCall { call: 3, stand: 1 },
        false,
        true,
        true,
        [NEW, OLD],
    ),
    (
        Event::FailCall { call: 5, stand: 0 },
        true,
        false,
        true,
        [NEW, NEW],
    ),
    (
        Event::FailIn {
            first: 0,
            nth: 2,
            stand: 1,
        },
        false,
        true,
        true,
        [NEW, OLD],
    ),
    (Event::Stop { after: 3 }, false, false, true, [NEW, OLD]),
    (
        Event::StopIn {
            first: 0,
            nth: 2,
            stand: 0,
        },
        false,
        false,
        true,
        [OLD, OLD],
    ),
    (
        Event::HurtAt {
            sector: 1,
            when: When::Call(3),
        },
        true,
        true,
        true,
        [NEW, NEW],
    ),
    (
        Event::HurtAt {
            sector: 1,
            when: When::Settle,
        },
        true,
        true,
        true,
        [NEW, HURT],
    ),
    (
        Event::HurtAt {
            sector: 0,
            when: When::Call(5),
        },
        true,
        true,
        false,
        [HURT, NEW],
    ),
];

#[test]
fn events_come_where_they_say(rt: HostRuntime) -> Result<(), Fail> {
    for (event, writes, takes, honest, end) in EVENTS {
        let mut m = with_event(rt.alloc(), event)?;
        let sectors = m.attach("v", Attach::Old)?;
        assert!(rt; sectors >= 2);
        assert_eq!(rt; tried(&mut m)?, (writes, takes));
        assert_eq!(rt; m.honest(), honest);
        assert_eq!(rt; m.image(), end.as_slice());
    }
    Ok(())
}

// Both sectors are written, the image grows to four, and the last one is read and written: what the read sees, and whether
// the last write answers Ok.
fn grown<M: Machine>(m: &mut M) -> Result<(Seen, bool), Failed>
    requires { 2 ≤ (M.report m.old).sectors }
{
    let _writes = m.write(0, &repeated::<1024>(7));
    m.extend(1)?;
    m.extend(4)?;
    let seen = m.read(3, &mut [0; 512])?;
    let writes = m.write(3, &repeated::<512>(8)).is_ok();
    Ok((seen, writes))
}

const FAILED: Result<(Seen, bool), Failed> = Err(Failed { place: 0 });

// What is to happen; what of the growth comes then, what stands at the end, and what a stop leaves there that loses all
// that it may.
const GROWTHS: [(
    Event,
    Result<(Seen, bool), Failed>,
    &'static [Sector],
    &'static [Sector],
); 6] = [
    (
        Event::Pieces { most: 2 },
        Ok((Seen::Damaged, true)),
        &[OLD, OLD, HURT, NEW],
        &[OLD, OLD, HURT, HURT],
    ),
    (
        Event::FailCall { call: 3, stand: 1 },
        FAILED,
        &[OLD, OLD],
        &[HURT, HURT],
    ),
    (
        Event::FailCall { call: 4, stand: 1 },
        FAILED,
        &[OLD, OLD],
        &[OLD, OLD],
    ),
    (
        Event::Stop { after: 1 },
        FAILED,
        &[OLD, HURT],
        &[HURT, HURT],
    ),
    (
        Event::Stop { after: 2 },
        Ok((Seen::Damaged, false)),
        &[OLD, OLD, HURT, HURT],
        &[OLD, OLD, HURT, HURT],
    ),
    (
        Event::HurtAt {
            sector: 1,
            when: When::Call(4),
        },
        Ok((Seen::Damaged, true)),
        &[OLD, HURT, HURT, NEW],
        &[OLD, HURT, HURT, HURT],
    ),
];

#[test]
fn an_image_grows_or_stays(rt: HostRuntime) -> Result<(), Fail> {
    for (event, answer, end, left) in GROWTHS {
        let mut m = with_event(rt.alloc(), event)?;
        let sectors = m.attach("v", Attach::Old)?;
        assert!(rt; sectors >= 2);
        assert_eq!(rt; grown(&mut m), answer);
        assert!(rt; m.honest());
        assert_eq!(rt; m.image(), end);
        let after = m.left_behind(9, Vec::new(rt.alloc()), Vec::new(rt.alloc()));
        assert_eq!(rt; after.image(), left);
    }
    Ok(())
}
