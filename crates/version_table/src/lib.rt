//! The versions of a name table: their numbers and keeps, and what making one, taking one out and changing a keep do to it.
#![tactic(auto)]

mod editing;
mod fault;
mod finding;
mod laws;
mod loading;
mod moving;
mod oldest;
mod planning;
mod version;

pub use editing::{enter, set_keep, take_out};
pub use fault::VersionFault;
pub use finding::{newest, version_at};
pub use laws::{
    moves_are_those_of_files, next_versions_are_those_of_puts, tables_are_files_entries,
};
pub use loading::plan_load;
pub use moving::plan_move;
pub use oldest::Leaving;
pub use planning::{Plan, plan_version};
pub use version::{gone, keep_of, moved_out, next_version};
