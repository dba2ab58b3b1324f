//! Commands that are made up, over the image that they are for.
ghost use Rattle.fsd_runs.specs.declared.request.Request.TheVariants.{Generate};
ghost use Rattle.cfs_program.specs.Program.{Ran};

use crate::opening::attached;
use sector_disk::Machine;
use std::alloc::Global;
use volume_contract::Files;
use volume_turns::run_generate;

/// Makes up so many commands from a seed and does them over the volume of an image; at the end all is forced, and what
/// came of them is said. It gives the status.
pub fn run_made_up<M: Machine, V: Files<M> + Drop>(
    alloc: Global,
    m: &mut M,
    path: &str,
    seed: u64,
    count: u32,
) -> u8
    ensures { Ran M.Machine (Generate seed count) path.now m.old m.new result }
{
    match attached(m, path) {
        Ok(sectors) => run_generate::<M, V>(alloc, m, sectors, seed, count),
        Err(status) => status,
    }
}
