//! The lines that are said, but for those that a reply alone says.
use crate::bad_line::BadLine;
use crate::counts::Counts;
use crate::fault::Fault;
use fsd_bytes::{Key, Refusal};
use volume_layout::LayoutFault;

/// A line that a run says. One that a reply alone says is no variant: it is said by its parts.
#[derive(Drop)]
pub enum Line {
    /// The words are outside the command set.
    Usage,
    Bad(BadLine),
    Formatted { sectors: u32, free: u32 },
    /// A volume of these numbers can't be.
    Unplanned(LayoutFault),
    /// A reply says it, and so does the end of a group of commands.
    Forced,
    /// So many commands were made up, and what came of them.
    Generated(Counts),
    /// What is said behind it is of this life of a drill.
    Life(u32),
    Refused(Refusal),
    /// The input is no dump from this place on.
    NoDump(u32),
    /// A version of a dump is there already.
    Exists(Key),
    /// So many versions of a dump were made again.
    Restored(u32),
    /// A data sector of a version is damaged.
    Damaged { key: Key, sector: u32 },
    Ended(Fault),
}
