//! Eight clients of a volume, each of which makes one version in pieces or reads one.
#![tactic(auto)]

mod client;
mod desk;
mod pieces;

pub use desk::Desk;
