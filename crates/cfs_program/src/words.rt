//! What the words of a command line ask for, done.
ghost use Rattle.std.specs.Prelude.{map};
ghost use Rattle.std.specs.String.{string_bytes};
ghost use Rattle.fsd_runs.specs.Words.{path_of, request_of};
ghost use Rattle.cfs_program.specs.Program.{Ran};

use crate::run::{run_out_of_memory, run_request};
use command_words::read_words;
use memory_machine::MemoryMachine;
use sector_disk::Machine;
use std::alloc::Global;
use volume_contract::Files;

/// Does what the words ask for, of the image that they name, says the reply, and gives the exit status.
/// The first word is the program's name. A drill plays its lives with volumes of the second type.
pub fn run_words<M: Machine, V: Files<M> + Drop, W: Files<MemoryMachine> + Drop>(
    alloc: Global,
    words: &[String],
    m: &mut M,
) -> u8
    ensures { Ran M.Machine (request_of (map string_bytes words.now)) (path_of (map string_bytes words.now)) m.old m.new result }
{
    match read_words(alloc, words) {
        Ok(asked) => run_request::<M, V, W>(alloc, m, &asked.request, asked.image),
        Err(_) => run_out_of_memory(m),
    }
}
