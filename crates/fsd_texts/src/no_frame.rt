//! Why bytes begin with no frame.

/// Why bytes begin with no frame.
#[derive(Clone, Copy)]
pub enum NoFrame {
    /// More bytes may make one.
    Short,
    /// Its length or its tag is out of range, whatever follows.
    Bad,
}
