//! The commands of a script.
use crate::call::Call;
use crate::command::Command;

/// One command of a script: of the volume alone, or of a client.
#[derive(Drop)]
pub enum ScriptCommand {
    Plain(Command),
    OfClient { client: u32, call: Call },
}
