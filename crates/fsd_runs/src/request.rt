//! What the words of the command line ask for.
use fsd_bytes::{FileName, Serial};
use fsd_texts::{Cause, Command};
use volume_layout::Kind;

/// What the words ask for, of the image that they name.
#[derive(Drop)]
pub enum Request {
    /// The words are outside the command set.
    NoCommand,
    /// The first field from the left that is refused.
    BadField(Cause),
    Format {
        sectors: u32,
        third: u32,
        pages: u32,
        kind: Kind,
        /// How many sectors it may grow to, or 0 where nothing is said of that.
        most: u32,
    },
    /// The whole input is to be a version of this name.
    Put {
        name: FileName,
        keep: Option<u32>,
    },
    /// One command that takes no input.
    One(Command),
    /// The input is a script.
    Script,
    Generate {
        seed: u64,
        count: u32,
    },
    /// The versions whose serial is greater are to be said as one text; or as many of those that were made first as a
    /// text of so many bytes holds.
    Dump {
        since: Serial,
        most: Option<u32>,
    },
    /// The input is such a text, whose versions are to be made again.
    Restore,
    /// Lives of volumes in memory. It names no image.
    Drill,
}
