//! Definitions: what a volume that reads its name table through a cache has and tells, and what look-ups in its table
//! and edits of it make of it; laws of one that stands over a disk.
#![tactic(auto)]

mod laws;

pub use laws::{
    entries_are_taken, pages_are_known, pages_are_read, resident_pages_are_shown,
    tables_are_looked_up, taken_entries_are_told, untaken_entries_break, volumes_wear,
};
