//! How a stream of frames ends.

/// How a stream of frames ends.
#[derive(Clone, Copy)]
pub enum StreamEnd {
    /// All bytes are frames.
    Whole,
    /// It ends inside the frame that begins at this byte.
    Inside(u64),
    /// What begins at this byte is no frame.
    Bad(u64),
}
