//! What came of commands that were made up.

/// How many commands were done, how many were answered in each way, and the bytes of the versions made or read.
#[derive(Clone, Copy)]
pub struct Counts {
    pub count: u32,
    pub made: u32,
    pub deleted: u32,
    pub kept: u32,
    pub read: u32,
    pub bytes: u64,
    pub refused: u32,
}
