//! A machine in memory that meets the trait `Machine`: it tells everything, and does exactly what a list of events says.
//!
//! Calls fail, writes are cut, the machine stops, sectors are hurt, input comes in pieces. A test can so bring about each
//! moment that the contracts over any machine speak of.
#![tactic(auto)]

mod event;
mod memory;
mod past;
mod windows;

pub use event::{Event, When};
pub use memory::MemoryMachine;
