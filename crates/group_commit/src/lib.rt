//! The force: one record of the log commits all pages of the name table that were changed since the last.
//! Of each page the newest image is read from the log, or from home.
#![tactic(auto)]

mod cached;
mod entering;
mod force;
mod frames;
mod laws;
mod newest;
mod record;
mod room;
mod waiting;

pub use entering::make_room;
pub use force::{ForcedPages, Group};
pub use laws::{clean_frames_are_newest, pages_are_newest};
pub use newest::Newest;
pub use room::RecordRoom;
