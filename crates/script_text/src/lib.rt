//! The text of scripts: commands read from the input, and the lines that are said.
#![tactic(auto)]

mod client;
mod command;
mod fault;
mod field;
mod laws;
mod laying;
mod line;
mod maker;
mod parts;
mod reader;
mod say;

pub use command::command_of;
pub use fault::{BodyFault, ScriptFault};
pub use laws::scripts_are_read_whole;
pub use laying::LineText;
pub use maker::Maker;
pub use parts::say_parts;
pub use reader::Reader;
pub use say::{lay_line, say_line};
