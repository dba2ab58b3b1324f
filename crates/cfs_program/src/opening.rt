//! A command over the image that it names.
ghost use Rattle.std.specs.Prelude.{◌≡◌, IfErr, IfOk};
ghost use Rattle.fsd_runs.specs.declared.request.Request.{Request as Asked};
ghost use Rattle.fsd_runs.specs.declared.request.Request.TheVariants.{One};
ghost use Rattle.fsd_runs.specs.Errands.{IfMounts};
ghost use Rattle.cfs_program.specs.Opening.{FindsImage};
ghost use Rattle.cfs_program.specs.Program.{Ran};

use crate::replies::Alone;
use fsd_texts::{Command, Fault, Line};
use sector_disk::{Attach, Machine};
use std::alloc::Global;
use volume_contract::Files;
use volume_turns::{last_line, run_one};

/// Attaches the image of a path, and gives the number of its sectors; where that fails, it says so and gives the status
/// that ends the run, whichever request is to mount the image.
pub(crate) fn attached<M: Machine>(m: &mut M, path: &str) -> Result<u32, u8>
    ensures sectors { IfOk result (λ sectors. sectors ≡ (M.report m.new).sectors) }
    ensures found { IfOk result (λ sectors. FindsImage M.Machine path.now sectors m.old m.new) }
    ensures ran { IfErr result (λ status. (request : Asked) → IfMounts request (Ran M.Machine request path.now m.old m.new status)) }
{
    match m.attach(path, Attach::Old) {
        Ok(sectors) => Ok(sectors),
        Err(failed) => Err(last_line(m, &Line::Ended(Fault::Device(failed.place)), 4)),
    }
}

/// Does one command over the volume of an image: its change is forced before its reply is said.
/// A fault is said in its place. It gives the status.
pub fn run_command<M: Machine, V: Files<M> + Drop>(
    alloc: Global,
    m: &mut M,
    path: &str,
    c: &Command,
) -> u8
    ensures { Ran M.Machine (One c.now) path.now m.old m.new result }
{
    match attached(m, path) {
        Ok(sectors) => run_one::<M, V, Alone>(alloc, m, sectors, c),
        Err(status) => status,
    }
}
