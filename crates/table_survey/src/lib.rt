//! What a mount learns of a name table: how many pages and versions it has, and which sectors they leave free.
#![tactic(auto)]

mod claiming;
mod marks;
mod surveying;

pub use surveying::{TableCounts, survey};
