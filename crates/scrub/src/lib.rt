//! Scrubs over the contract of a volume alone: what stands twice is healed, leaders are written where they are damaged
//! or differ from their entries, and damaged data sectors are told.
#![tactic(auto)]

mod data;
mod leaders;
mod walk;
mod whole;

pub use data::look_through;
pub use walk::next_one;
pub use whole::{Healed, scrub};
