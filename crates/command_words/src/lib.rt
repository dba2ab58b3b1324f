//! Reads the words of a command line into what they ask for.
#![tactic(auto)]

mod command_set;
mod field;
mod words;

pub use words::{Asked, read_words};
