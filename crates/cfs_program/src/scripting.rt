//! A script over the image that it names.
ghost use Rattle.fsd_runs.specs.declared.request.Request.TheVariants.{Script};
ghost use Rattle.cfs_program.specs.Program.{Ran};

use crate::opening::attached;
use crate::replies::Scripted;
use sector_disk::Machine;
use std::alloc::Global;
use volume_contract::Files;
use volume_turns::run_script;

/// Does the commands of the input over the volume of an image, and says the reply of each; at the end all is forced. A
/// fault is said where it comes. It gives the status.
pub fn run_commands<M: Machine, V: Files<M> + Drop>(alloc: Global, m: &mut M, path: &str) -> u8
    ensures { Ran M.Machine Script path.now m.old m.new result }
{
    match attached(m, path) {
        Ok(sectors) => run_script::<M, V, Scripted>(alloc, m, sectors),
        Err(status) => status,
    }
}
