use thiserror::Error;

/// Why a call is refused: the refusals of all layers, so that each is told on unchanged.
/// docs/SEMANTICS.md says when each one comes.
#[derive(Clone, Copy, Debug, PartialEq, Error)]
pub enum Refusal {
    /// The key is no version, or the name has none.
    #[error("no such version")]
    NoSuch,
    /// More bytes than a version may have: so many. Of a dump: so many does it need at least, and it may not have them.
    #[error("{0} bytes are too many for a version")]
    TooLong(u64),
    /// The key is a version already.
    #[error("there is such a version")]
    Exists,
    /// Fewer sectors are free than are needed.
    #[error("{need} sectors are needed and {free} are free")]
    NoSpace { need: u32, free: u32 },
    /// Enough sectors are free, but the eight longest free runs have only `best` of them.
    #[error("{need} sectors are needed and the eight longest runs have {best}")]
    TooFragmented { need: u32, best: u32 },
    /// So few name pages are free.
    #[error("the name table is full, with {free} pages free")]
    NameTableFull { free: u32 },
    /// The highest version of the name is the last that can be.
    #[error("the name has used up its versions")]
    VersionsUsedUp,
    /// A keep above 999.
    #[error("{0} versions are too many to keep")]
    KeepTooLarge(u32),
    /// The first sector of the range that reads damaged.
    #[error("sector {0} is damaged")]
    Damaged(u32),
    /// The place of a call of the disk that failed.
    #[error("the device failed at {0}")]
    Device(u32),
    /// An earlier force, upgrade or growth failed at this place.
    #[error("the volume is down since the device failed at {0}")]
    Down(u32),
    /// Both copies of what stands twice are damaged.
    #[error("sectors {a} and {b} are both damaged")]
    Lost { a: u32, b: u32 },
    /// The first home of a page that breaks the name table.
    #[error("the page at sector {0} breaks the name table")]
    Unsound(u32),
    /// This mount has used up its record numbers or serials.
    #[error("this mount is worn out")]
    WornOut,
    /// Memory was refused.
    #[error("memory was refused")]
    Memory,
    /// No client has this number.
    #[error("there is no client {0}")]
    BadClient(u32),
    /// The client has something open already.
    #[error("client {0} is busy")]
    Busy(u32),
    /// The client has nothing of the kind open.
    #[error("client {0} is idle")]
    Idle(u32),
    /// Fewer bytes came than were declared.
    #[error("{declared} bytes were declared and {got} came")]
    Short { declared: u32, got: u32 },
    /// More bytes came than were declared.
    #[error("{declared} bytes were declared and {got} came")]
    Long { declared: u32, got: u64 },
    /// The volume has layout 2 already.
    #[error("the volume has layout {0} already")]
    LayoutIs(u32),
    /// The volume has so many sectors already, or more.
    #[error("the volume has {0} sectors or more already")]
    NotLarger(u32),
    /// The most sectors that the volume may grow to.
    #[error("the volume may grow to {0} sectors at most")]
    PastMost(u32),
}
