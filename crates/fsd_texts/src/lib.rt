//! Definitions: commands, the grammar of scripts, commands that are made up, and the lines that are said.
#![tactic(auto)]

mod asking;
mod bad_line;
mod body_cause;
mod bytes;
mod call;
mod command;
mod counts;
mod end;
mod fault;
mod line;
mod no_frame;
mod numbered_key;
mod part;
mod script_command;
mod stream_end;
mod wire_end;

pub use asking::Asking;
pub use bad_line::{BadLine, Cause};
pub use body_cause::BodyCause;
pub use bytes::Bytes;
pub use call::Call;
pub use command::Command;
pub use counts::Counts;
pub use end::End;
pub use fault::Fault;
pub use line::Line;
pub use no_frame::NoFrame;
pub use numbered_key::NumberedKey;
pub use part::Part;
pub use script_command::ScriptCommand;
pub use stream_end::StreamEnd;
pub use wire_end::WireEnd;
