//! Definitions: what the sectors of the log tell of its records, after a stop and after a loss.
#![tactic(auto)]

mod slot;

pub use slot::Slot;
