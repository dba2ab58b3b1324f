//! Why a log can't be found.
use crate::reading::ReadFault;

/// Why the log of a volume can't be found.
#[derive(Clone, Copy, Debug, PartialEq)]
pub enum LogFault {
    /// Its sectors can't be read.
    Read(ReadFault),
    /// Neither copy of the anchor stands.
    NoAnchor,
    /// The anchor's epoch is the last one, 2^32 - 1.
    WornOut,
}
