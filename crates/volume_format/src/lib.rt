//! How a volume is made.
#![tactic(auto)]

mod formatting;
mod pages;

pub use formatting::format;
