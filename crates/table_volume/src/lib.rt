//! A volume whose files stand in a name table of many pages, which are read through a cache.
#![tactic(auto)]

mod closing;
mod completing;
mod deleting;
mod entries;
mod files;
mod finding;
mod forcing;
mod freeing;
mod growing;
mod holding;
mod keeping;
mod loading;
mod making;
mod mounting;
mod moving;
mod next;
mod pieces;
mod placing;
mod putting;
mod reading;
mod storing;
mod volume;

pub use volume::Volume;
