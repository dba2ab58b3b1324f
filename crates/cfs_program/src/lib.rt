//! All that the program does, over any volume and a machine that is handed in.
#![tactic(auto)]

mod drilling;
mod dumping;
mod formatting;
mod lives;
mod making;
mod opening;
mod putting;
mod replies;
mod run;
mod scripting;
mod words;

pub use drilling::run_drill;
pub use dumping::{run_dump_of, run_restore_of};
pub use formatting::run_format;
pub use making::run_made_up;
pub use opening::run_command;
pub use putting::run_input;
pub use replies::{Alone, Scripted};
pub use run::{run_out_of_memory, run_request, say_usage};
pub use scripting::run_commands;
pub use words::run_words;
