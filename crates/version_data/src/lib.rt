//! The sectors of a version, its leader and its data, spelled, written and read (Hagmann 1987).
#![tactic(auto)]

mod fault;
mod leader;
mod reading;
mod single;
mod slices;
mod writing;

pub use fault::DataFault;
pub use fsd_formats::Leader;
pub use leader::{leader_bytes, read_leader};
pub use reading::read_range;
pub use single::{heal_leader, read_slice};
pub use slices::{write_leader, write_slices};
pub use writing::write_version;
