//! What the program does for a request.
ghost use Rattle.std.specs.Prelude.{◌≡◌, ℕ, List};
ghost use Rattle.fsd_runs.specs.declared.request.Request.{Request as Asked};
ghost use Rattle.fsd_runs.specs.declared.request.Request.TheVariants.{NoCommand};
ghost use Rattle.cfs_program.specs.Program.{Ran, field_line};

use crate::drilling::run_drill;
use crate::dumping::{run_dump_of, run_restore_of};
use crate::formatting::run_format;
use crate::making::run_made_up;
use crate::opening::run_command;
use crate::putting::run_input;
use crate::scripting::run_commands;
use fsd_runs::Request;
use fsd_texts::{BadLine, Cause, Fault, Line};
use memory_machine::MemoryMachine;
use sector_disk::Machine;
use std::alloc::Global;
use volume_contract::Files;
use volume_turns::last_line;

/// Does what is asked for of the image at a path, says the reply, and gives the exit status. A drill plays its lives
/// with volumes of the second type.
pub fn run_request<M: Machine, V: Files<M> + Drop, W: Files<MemoryMachine> + Drop>(
    alloc: Global,
    m: &mut M,
    request: &Request,
    path: &str,
) -> u8
    ensures { Ran M.Machine request.now path.now m.old m.new result }
{
    match request {
        Request::NoCommand => say_usage(m),
        Request::BadField(cause) => last_line(m, &field_line(*cause), 2),
        Request::Format {
            sectors,
            third,
            pages,
            kind,
            most,
        } => run_format(m, path, *sectors, *third, *pages, *kind, *most),
        Request::One(c) => run_command::<M, V>(alloc, m, path, c),
        Request::Put { name, keep } => run_input::<M, V>(alloc, m, path, name, *keep),
        Request::Script => run_commands::<M, V>(alloc, m, path),
        Request::Generate { seed, count } => run_made_up::<M, V>(alloc, m, path, *seed, *count),
        Request::Dump { since, most } => run_dump_of::<M, V>(alloc, m, path, *since, *most),
        Request::Restore => run_restore_of::<M, V>(alloc, m, path),
        Request::Drill => run_drill::<M, W>(alloc, m),
    }
}

/// Says how it is used, where the words are outside the command set.
pub fn say_usage<M: Machine>(m: &mut M) -> u8
    ensures { (path : List ℕ) → Ran M.Machine NoCommand path m.old m.new result }
{
    last_line(m, &Line::Usage, 2)
}

/// Says that memory was refused, before anything is done for a request, and gives the status.
pub fn run_out_of_memory<M: Machine>(m: &mut M) -> u8
    ensures { (request : Asked) (path : List ℕ) → Ran M.Machine request path m.old m.new result }
{
    last_line(m, &Line::Ended(Fault::Memory), 7)
}

// The line of the first field that is refused.
fn field_line(cause: Cause) -> Line
    ensures { result ≡ field_line cause }
{
    Line::Bad(BadLine { line: 0, cause })
}
