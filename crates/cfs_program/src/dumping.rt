//! Dumps and restores, over the image that they are for.
ghost use Rattle.fsd_runs.specs.declared.request.Request.TheVariants.{Dump, Restore};
ghost use Rattle.cfs_program.specs.Program.{Ran};

use crate::opening::attached;
use fsd_bytes::Serial;
use sector_disk::Machine;
use std::alloc::Global;
use volume_contract::Files;
use volume_turns::{run_dump, run_restore};

/// Says a dump of the versions of an image's volume whose serial is greater, or of as many of those that were made first as
/// so many bytes hold; or their damaged data sectors alone. A refusal or a fault is said in its place, or a fault behind
/// the versions that were said. It gives the status.
pub fn run_dump_of<M: Machine, V: Files<M> + Drop>(
    alloc: Global,
    m: &mut M,
    path: &str,
    since: Serial,
    most: Option<u32>,
) -> u8
    ensures { Ran M.Machine (Dump since most) path.now m.old m.new result }
{
    match attached(m, path) {
        Ok(sectors) => run_dump::<M, V>(alloc, m, sectors, since, most),
        Err(status) => status,
    }
}

/// Makes the versions of the dump that the input is again over the volume of an image: all are forced before it is said
/// how many. A fault is said in its place. It gives the status.
pub fn run_restore_of<M: Machine, V: Files<M> + Drop>(alloc: Global, m: &mut M, path: &str) -> u8
    ensures { Ran M.Machine Restore path.now m.old m.new result }
{
    match attached(m, path) {
        Ok(sectors) => run_restore::<M, V>(alloc, m, sectors),
        Err(status) => status,
    }
}
