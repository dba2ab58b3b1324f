//! Pages of the name table in memory, and where those come from that are not.
#![tactic(auto)]

mod cache;
mod fault;
mod order;
mod source;

pub use cache::{Cache, Frame, MOST_DIRTY};
pub use fault::CacheFault;
pub use source::PageSource;
