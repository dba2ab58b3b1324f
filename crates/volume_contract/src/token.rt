//! What a client of a volume has open: a token has no `Drop`, so it has to go back to its volume.

use fsd_bytes::Serial;
use fsd_formats::Entry;
use run_table::Runs;

/// A creation that was begun: so many bytes, in these runs, the leader's sector first.
#[must_use]
pub struct Draft {
    pub length: u32,
    pub serial: Serial,
    pub runs: Runs,
}

/// A version that a reader holds, with its entry as it was then, and the place by which it is given up.
#[must_use]
pub struct Held {
    pub entry: Entry,
    pub place: u32,
}
