//! The pages of a name table over the cache.
#![tactic(auto)]

mod bringing;
mod free;
mod sparing;
mod table;

pub use free::FreePages;
pub use table::Table;
