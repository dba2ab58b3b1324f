//! What ends a run.

/// What ends a run.
#[derive(Clone, Copy)]
pub enum Fault {
    /// No root sector is there.
    NotVolume,
    /// Both copies of what stands twice are damaged.
    Lost { a: u32, b: u32 },
    /// No anchor is there.
    NoAnchor,
    /// The first home of a page that breaks the name table.
    Unsound(u32),
    /// The place of a call of the disk that failed.
    Device(u32),
    /// A call of the input failed.
    Input,
    /// The input goes on past 2^24 bytes.
    InputTooLong,
    /// Memory was refused.
    Memory,
    /// The volume has used up its epochs, or this mount its serials.
    WornOut,
}
