//! A name table over a cache: looked up, edited, surveyed, and opened as it stands at home or by its saved map.
#![tactic(auto)]

mod changing;
mod entering;
mod homes;
mod loading;
mod looking;
mod moving;
mod opening;
mod surveying;
mod table;

pub use entering::are_taken;
pub use looking::told;
pub use opening::{Opened, open_saved, open_table};
pub use table::CachedTable;
