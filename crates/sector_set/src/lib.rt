//! Sets of sectors, a bit for each sector.
#![tactic(auto)]

mod area;
mod bits;
mod meet;
mod set;

pub use area::SectorArea;
pub use meet::{differ, overlap};
pub use set::SectorSet;
