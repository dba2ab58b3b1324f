//! Definitions: dumps, versions of files with their bytes as one text.
#![tactic(auto)]

mod laws;

pub use laws::{dumps_are_read_one_way, dumps_are_said_in_parts};
