//! The lives of a drill: each is a volume in memory that is formatted, put to twice and listed.
ghost use Rattle.std.specs.Prelude.{◌≡◌, ◌+◌, ◌++◌, ◌∷◌, [], List, ℕ, None, length, is_some, if◌then◌else◌, IfOk};
ghost use Rattle.memory_machine.specs.Memory.{IsHonest, memory_now};
ghost use Rattle.fsd_files.specs.Files.{Change};
ghost use Rattle.cfs_program.specs.Drill.{KeepsIfHonest, IsListOf, ListsPrefix, is_stopped, puts};

use crate::formatting::run_format;
use crate::opening::run_command;
use crate::putting::run_input;
use fsd_bytes::{FileName, Pattern};
use fsd_texts::Command;
use memory_machine::{Event, MemoryMachine, When};
use std::alloc::{AllocError, Global};
use volume_contract::Files;
use volume_layout::Kind;

// A path: a machine in memory holds its image under each.
const PATH: &str = "v";

// Where the first record of a mount begins.
const RECORD: u32 = 16;

// What happens in a life.
#[derive(Clone, Copy)]
struct Life {
    // the second put stops in its record, with so many sectors of this standing
    stood: Option<u32>,
    // the sectors that are damaged as the list begins
    hurts: &'static [u32],
    // the first sector of the weak pair in the window that the mount of the second put opens
    pair: u32,
}

// The lives, numbered from 1. The record of a put has its header at 16, and behind a blank and the header's copy its
// page at 19 and its end at 20; sector 783 is the last one of the log, and 784 the first home of page 0.
fn life_of(number: u32) -> Life
    ensures { is_some result.stood ≡ is_stopped number }
{
    let calm = Life {
        stood: None,
        hurts: &[],
        pair: 1,
    };
    match number {
        2 => Life {
            stood: Some(4),
            ..calm
        },
        3 => Life {
            stood: Some(5),
            ..calm
        },
        4 => Life {
            stood: Some(5),
            hurts: &[19],
            pair: 19,
        },
        5 => Life {
            stood: None,
            hurts: &[19, 20],
            pair: 19,
        },
        6 => Life {
            stood: None,
            hurts: &[783, 784],
            pair: 783,
        },
        _ => calm,
    }
}

/// Plays the life of this number. The machine that it gives has said the life's list and nothing else; there is none
/// where memory was refused, in a run or in the machine.
pub(crate) fn play<W: Files<MemoryMachine> + Drop>(
    alloc: Global,
    number: u32,
) -> Result<MemoryMachine, AllocError>
    ensures { IfOk result (λ m. IsListOf number (memory_now m).said) }
{
    let life = life_of(number);
    let m = put_both::<W>(alloc, &life)?;
    let m = list_all::<W>(alloc, m, life.hurts)?;
    if m.honest() { Ok(m) } else { Err(AllocError) }
}

// A volume that is put to twice, where the second put may be stopped.
fn put_both<W: Files<MemoryMachine> + Drop>(
    alloc: Global,
    life: &Life,
) -> Result<MemoryMachine, AllocError>
    ensures { IfOk result (λ m. KeepsIfHonest puts (if is_some life.now.stood then 1 else 2) m) }
{
    let m = made(alloc, life.pair)?;
    let m = put_done::<W>(alloc, m, &FileName::parse(b"a").unwrap(), b'x')?;
    let name = FileName::parse(b"b").unwrap();
    match life.stood {
        None => put_done::<W>(alloc, m, &name, b'y'),
        Some(stood) => put_stopped::<W>(alloc, m, &name, b'y', stood),
    }
}

// An empty volume. Each weak pair begins at sector 1, but that of the window which the second mount behind it opens.
fn made(alloc: Global, pair: u32) -> Result<MemoryMachine, AllocError>
    ensures { IfOk result (λ m. KeepsIfHonest [] 0 m) }
{
    let pairs = [1, 1, 1, pair, 1].to_vec(alloc)?;
    let image = Vec::new(alloc);
    let mut m = MemoryMachine::new(alloc, image, pairs, Vec::new(alloc), Vec::new(alloc))?;
    match run_format(&mut m, PATH, 2048, 256, 64, Kind::Two, 0) {
        0 => Ok(m),
        _ => Err(AllocError),
    }
}

// A put of one byte with nothing in its way.
fn put_done<W: Files<MemoryMachine> + Drop>(
    alloc: Global,
    m: MemoryMachine,
    name: &FileName,
    byte: u8,
) -> Result<MemoryMachine, AllocError>
    ensures { IfOk result (λ new. (h : List Change) → KeepsIfHonest h (length h) m → KeepsIfHonest (h ++ Change.Put name.now None (byte ∷ []) ∷ []) (length h + 1) new) }
{
    let (m, status) = put_by::<W>(alloc, m, name, byte, Vec::new(alloc))?;
    if status == 0 { Ok(m) } else { Err(AllocError) }
}

// A put of one byte that stops in its record, with so many sectors of this standing.
fn put_stopped<W: Files<MemoryMachine> + Drop>(
    alloc: Global,
    m: MemoryMachine,
    name: &FileName,
    byte: u8,
    stood: u32,
) -> Result<MemoryMachine, AllocError>
    ensures { IfOk result (λ new. (h : List Change) → KeepsIfHonest h (length h) m → KeepsIfHonest (h ++ Change.Put name.now None (byte ∷ []) ∷ []) (length h) new) }
{
    let stop = Event::StopIn {
        first: RECORD,
        nth: 1,
        stand: stood,
    };
    let (m, status) = put_by::<W>(alloc, m, name, byte, [stop].to_vec(alloc)?)?;
    if status == 7 || m.starved() > 0 {
        Err(AllocError)
    } else {
        Ok(m)
    }
}

// A put of one byte by a run of its own, and the run's status.
fn put_by<W: Files<MemoryMachine> + Drop>(
    alloc: Global,
    m: MemoryMachine,
    name: &FileName,
    byte: u8,
    events: Vec<Event>,
) -> Result<(MemoryMachine, u8), AllocError>
    ensures done { IfOk result (λ ran. ran.1 ≡ 0 → (h : List Change) → KeepsIfHonest h (length h) m → KeepsIfHonest (h ++ Change.Put name.now None (byte ∷ []) ∷ []) (length h + 1) ran.0) }
    ensures left { IfOk result (λ ran. (h : List Change) → KeepsIfHonest h (length h) m → KeepsIfHonest (h ++ Change.Put name.now None (byte ∷ []) ∷ []) (length h) ran.0) }
{
    let input = [byte].to_vec(alloc)?;
    let mut m = m.again(events, input);
    let status = run_input::<MemoryMachine, W>(alloc, &mut m, PATH, name, None);
    Ok((m, status))
}

// A list of all versions by a run of its own, as these sectors are damaged.
fn list_all<W: Files<MemoryMachine> + Drop>(
    alloc: Global,
    m: MemoryMachine,
    hurts: &[u32],
) -> Result<MemoryMachine, AllocError>
    ensures { IfOk result (λ new. IsHonest new → (h : List Change) (f : ℕ) → KeepsIfHonest h f m → ListsPrefix h f (memory_now new).said) }
{
    let events = hurt_at_once(alloc, hurts)?;
    list_by::<W>(alloc, m, events)
}

// These sectors are damaged just before the first call.
fn hurt_at_once(alloc: Global, hurts: &[u32]) -> Result<Vec<Event>, AllocError> {
    let mut events = Vec::new(alloc);
    for sector in hurts {
        events.push(Event::HurtAt {
            sector: *sector,
            when: When::Call(1),
        })?;
    }
    Ok(events)
}

// A list of all versions by a run of its own, as these events happen.
fn list_by<W: Files<MemoryMachine> + Drop>(
    alloc: Global,
    m: MemoryMachine,
    events: Vec<Event>,
) -> Result<MemoryMachine, AllocError>
    ensures { IfOk result (λ new. IsHonest new → (h : List Change) (f : ℕ) → KeepsIfHonest h f m → ListsPrefix h f (memory_now new).said) }
{
    let mut m = m.again(events, Vec::new(alloc));
    let all = Pattern::parse(b"*").unwrap();
    match run_command::<MemoryMachine, W>(alloc, &mut m, PATH, &Command::List(all)) {
        0 => Ok(m),
        _ => Err(AllocError),
    }
}
