//! Programs over the contract of a volume that know nothing else of it: one command, a put of the input, a script, a
//! dump, a restore, and commands that are made up, each from the mount to the last line.
#![tactic(auto)]

mod answer;
mod calls;
mod commands;
mod dumping;
mod generate;
mod grow;
mod input;
mod line;
mod listing;
mod loading;
mod once;
mod restoring;
mod script;
mod session;
mod taking;
mod tally;
mod turns;
mod upgrade;
mod whole;

pub use dumping::run_dump;
pub use generate::run_generate;
pub use input::run_put;
pub use line::last_line;
pub use once::alone;
pub use restoring::run_restore;
pub use script::run_script;
pub use turns::{Halt, Says};
pub use whole::run_one;
