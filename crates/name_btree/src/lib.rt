//! The name table: a B-tree of name pages that is an ordered map from keys to entries.
#![tactic(auto)]

mod calls;
mod child;
mod descent;
mod draft;
mod fault;
mod growing;
mod inserting;
mod lookup;
mod removing;
mod renewing;
mod replacing;
mod searching;
mod sheets;
mod trimming;
mod walking;
mod writing;

pub use calls::{TableCall, run};
pub use fault::TreeFault;
pub use inserting::insert;
pub use lookup::{FoundEntry, find, highest, named, next_after};
pub use removing::remove;
pub use renewing::RenewedPages;
pub use replacing::replace_same_size;
pub use walking::walk;
