//! Which versions a dump has, by their serials, and what they take of it.
use fsd_bytes::Serial;

/// The serials behind one and, where there is another, in front of it.
#[derive(Clone, Copy)]
pub struct Span {
    pub since: Serial,
    pub before: Option<Serial>,
}

/// How many bytes a version takes of a dump.
#[derive(Clone, Copy)]
pub struct Weight {
    pub serial: Serial,
    pub bytes: u64,
}
