//! The saved map: which sectors and name pages are free, as bits of the sectors of the map area.
#![tactic(auto)]

mod believing;
mod bits;
mod closed;
mod heads;
mod marks;
mod saving;
mod taking;
mod writing;

pub use believing::{MapFault, SavedMap, read_saved};
pub use saving::save_sector;
pub use writing::save_map;
