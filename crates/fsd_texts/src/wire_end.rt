//! How a stream of framed commands ends.

/// How a stream of framed commands ends.
#[derive(Clone, Copy)]
pub enum WireEnd {
    /// All bytes are frames.
    Done,
    /// What begins at this byte is no frame, or not a whole one.
    BadFrame(u64),
    /// A byte past the most is needed, and there.
    TooLong,
}
