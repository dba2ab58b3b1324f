//! The replies of a volume.
use crate::items::Items;
use fsd_bytes::{Key, Refusal};
use fsd_formats::Entry;

/// What a volume answers.
#[derive(Drop)]
pub enum Reply {
    Refused(Refusal),
    Made {
        key: Key,
        sectors: u32,
    },
    Loaded(Key),
    Deleted(Key),
    /// The key of the name's highest version, whose keep it is now.
    Kept {
        key: Key,
        keep: u32,
    },
    /// A version has another key now.
    Moved {
        from: Key,
        to: Key,
    },
    Listed(Items<Entry>),
    Bytes {
        key: Key,
        bytes: Items<u8>,
    },
    DamagedAt {
        key: Key,
        sector: u32,
    },
    Forced,
    Counts {
        free: u32,
        waiting: u32,
        pages: u32,
        versions: u32,
    },
    /// The data sectors that read damaged, each with its version's key, and how many others were healed.
    Scrubbed {
        found: Items<(Key, u32)>,
        healed: u32,
    },
    /// The volume is one of layout 2 now.
    Upgraded,
    /// The volume has so many sectors now, so many of them free.
    Grown {
        sectors: u32,
        free: u32,
    },
    /// A client has begun a version.
    Begun(u32),
    /// It has so many bytes of it.
    Took {
        client: u32,
        sum: u32,
    },
    /// It has given it up.
    Dropped(u32),
    /// It has opened a version of so many bytes.
    Opened {
        client: u32,
        length: u32,
    },
    /// It has these next bytes of it.
    Given {
        client: u32,
        bytes: Items<u8>,
    },
    /// It is done with it.
    Done(u32),
    /// One version's entry, or that no later one is there. No command is answered so.
    Found(Option<Entry>),
}
