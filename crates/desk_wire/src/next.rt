//! What comes next of a wire.

/// What comes next.
#[derive(Clone, Copy)]
pub enum Next<'a> {
    /// A frame.
    Frame { tag: u32, body: &'a [u8] },
    /// The bytes that wait begin a frame and hold none whole, or there are none.
    NotYet,
    /// The frame that begins at this byte of all that were fed has a length or a tag out of range.
    Bad(u64),
}
