//! A put of the input over the image that it names.
ghost use Rattle.fsd_runs.specs.declared.request.Request.TheVariants.{Put};
ghost use Rattle.cfs_program.specs.Program.{Ran};

use crate::opening::attached;
use crate::replies::Alone;
use fsd_bytes::FileName;
use sector_disk::Machine;
use std::alloc::Global;
use volume_contract::Files;
use volume_turns::run_put;

/// Makes a version of the input over the volume of an image: the version is forced before it is said. A fault is said
/// in its place. It gives the status.
pub fn run_input<M: Machine, V: Files<M> + Drop>(
    alloc: Global,
    m: &mut M,
    path: &str,
    name: &FileName,
    keep: Option<u32>,
) -> u8
    ensures { Ran M.Machine (Put name.now keep) path.now m.old m.new result }
{
    match attached(m, path) {
        Ok(sectors) => run_put::<M, V, Alone>(alloc, m, sectors, name.copied(), keep),
        Err(status) => status,
    }
}
