//! What one line of a script asks for.
use crate::call::Call;
use crate::command::Command;
use fsd_bytes::FileName;

/// What a line asks for: a command that stands in it whole, or one that so many bytes follow.
#[derive(Drop)]
pub enum Asking {
    Plainly(Command),
    Put {
        name: FileName,
        length: u32,
        keep: Option<u32>,
    },
    OfClient {
        client: u32,
        call: Call,
    },
    Piece {
        client: u32,
        length: u32,
    },
}
