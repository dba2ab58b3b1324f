//! Dumps, read into where the bytes of each version lie.
#![tactic(auto)]

mod begin;
mod field;
mod item;
mod reading;
mod spelling;

pub use item::{DumpRead, Item};
pub use reading::read_dump;
pub use spelling::{end_of, front_of, head_of};
