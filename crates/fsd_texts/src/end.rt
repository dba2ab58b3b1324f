//! How a script ends.
use crate::bad_line::BadLine;

/// How a script ends.
#[derive(Clone, Copy)]
pub enum End {
    /// All bytes are commands.
    Done,
    /// What stands behind the commands is none.
    Bad(BadLine),
    /// A byte past the most is needed, and there.
    TooLong,
}
