//! The contract of a volume, as its callers see it: the trait `Files`.
#![tactic(auto)]

mod files;
mod token;

pub use files::{Files, Forced, Stat};
pub use token::{Draft, Held};
