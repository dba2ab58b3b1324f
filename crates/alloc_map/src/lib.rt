//! The allocation map: which sectors are free, and where a new version goes.
#![tactic(auto)]

mod longest;
mod map;
mod no_place;

pub use map::Map;
pub use no_place::NoPlace;
