//! Sectors that wait: removed ones until the next force and until no reader holds them, those of unfinished creations
//! until these end.
#![tactic(auto)]

mod readers;
mod shadow;

pub use shadow::{Shadow, Waiting};
