//! The command `drill`.
ghost use Rattle.std.specs.Prelude.{is_err, ◌++◌};
ghost use Rattle.fsd_texts.specs.Text.{text};
ghost use Rattle.fsd_texts.specs.declared.line.Line.TheVariants as Says;
ghost use Rattle.cfs_program.specs.Drill.{Drills, SpeaksBytes};

use crate::lives::play;
use fsd_texts::{Fault, Line};
use memory_machine::MemoryMachine;
use script_text::lay_line;
use sector_disk::{Failed, Machine};
use std::alloc::Global;
use volume_contract::Files;
use volume_turns::last_line;

// How many lives there are.
const LIVES: u32 = 6;

/// Plays six lives on machines in memory, and says of each what its list said. A life that refused memory has kept from
/// its list ends the drill before its lines. It gives the status.
pub fn run_drill<M: Machine, W: Files<MemoryMachine> + Drop>(alloc: Global, m: &mut M) -> u8
    ensures { Drills M.Machine m.old m.new result }
{
    for life in 0..LIVES {
        let Ok(played) = play::<W>(alloc, life + 1) else {
            return last_line(m, &Line::Ended(Fault::Memory), 7);
        };
        if say_life(m, life + 1, played.said()).is_err() {
            return 6;
        }
    }
    0
}

// Says the lines of a life.
fn say_life<M: Machine>(m: &mut M, number: u32, list: &[u8]) -> Result<(), Failed>
    ensures { SpeaksBytes M.Machine (text (Says.Life number) ++ list.now) (is_err result) m.old m.new }
{
    let line = lay_line(&Line::Life(number));
    match say(m, line.as_slice()) {
        Ok(()) => say(m, list),
        Err(failed) => Err(failed),
    }
}

// Says bytes.
fn say<M: Machine>(m: &mut M, bytes: &[u8]) -> Result<(), Failed>
    ensures { SpeaksBytes M.Machine bytes.now (is_err result) m.old m.new }
{
    match m.say(bytes) {
        Ok(()) => Ok(()),
        Err(failed) => Err(failed),
    }
}
