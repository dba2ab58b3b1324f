//! The mount of a volume up to its name table: the root, the log brought home, and the anchors of a new epoch.
#![tactic(auto)]

mod completing;
mod epoch;
mod finding;
mod mending;
mod mounting;
mod root;

pub use mounting::{SettledVolume, recover};
