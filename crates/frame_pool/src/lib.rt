//! A pool of frames of 512 bytes in one raw block of memory.
#![tactic(auto)]

mod cells;
mod pool;

pub use pool::{FramePool, Sector, two_of};
