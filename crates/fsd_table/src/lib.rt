//! Definitions: what a list of page images is as a name table, by the pages that paths reach and level by level.
#![tactic(auto)]

mod child;
mod laws;

pub use child::Child;
pub use laws::{
    leaves_are_told, tables_are_told_or_broken, tables_have_few_pages, trees_are_told,
    trees_are_unbroken, what_is_told_is_a_tree,
};
