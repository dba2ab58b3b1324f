//! Definitions: what becomes of a name table's pages and entries, as pages are changed, parted and joined.
#![tactic(auto)]

mod laws;

pub use laws::{forests_follow, pages_part_and_join, pages_step_up, trees_follow, ways_lead};
