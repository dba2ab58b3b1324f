//! Why the body of a frame is no command.
use crate::bad_line::Cause;

/// Why the body of a frame is no command.
#[derive(Clone, Copy, Debug)]
pub enum BodyCause {
    /// It begins with none.
    NoCommand(Cause),
    /// Something stands behind its command.
    ExtraBytes,
}
