//! Dumps over the contract of a volume alone: its versions with their bytes, said as one text.
#![tactic(auto)]

mod fault;
mod saying;
mod serials;
mod span;
mod survey;
mod weights;
mod whole;

pub use dump_text::{DumpRead, Item, read_dump};
pub use fault::DumpFault;
pub use span::span_in;
pub use whole::dump;
