//! Why no command is given.
ghost use Rattle.std.specs.Prelude.{◌≡◌};
ghost use Rattle.script_text.specs.declared.fault.BodyFault.TheVariants as Body;

use fsd_texts::{BadLine, Cause};
use std::alloc::AllocError;

/// Why a reader gives no command.
#[derive(Clone, Copy, Debug, PartialEq)]
pub enum ScriptFault {
    /// What comes next is no command.
    Bad(BadLine),
    /// A call of the input failed.
    Input,
    /// A byte past the first 2^24 is needed, and there.
    TooLong,
    /// Memory was refused.
    Memory,
}

/// Why bytes begin with no command.
#[derive(Clone, Copy)]
pub enum BodyFault {
    /// No first bytes of them are one: the first cause.
    Bad(Cause),
    /// Memory was refused.
    Memory,
}

impl From<AllocError> for BodyFault {
    ghost from_gives = { λ _ fault. fault ≡ Body.Memory };

    fn from(_error: AllocError) -> BodyFault {
        BodyFault::Memory
    }
}

impl From<Cause> for BodyFault {
    ghost from_gives = { λ cause fault. fault ≡ Body.Bad cause };

    fn from(cause: Cause) -> BodyFault {
        BodyFault::Bad(cause)
    }
}
