//! Definitions: the files as an ordered map from name and version to bytes, where they lie, and what a volume answers.
#![tactic(auto)]

mod items;
mod laws;
mod reply;

pub use items::Items;
pub use laws::{
    changes_keep_what_stays, changes_let_nothing_go, entries_list_the_files, files_after_changes,
    wear,
};
pub use reply::Reply;
