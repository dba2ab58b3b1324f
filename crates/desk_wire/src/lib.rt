//! A stream of frames: bytes are fed as they come, and frames are given; and a frame is laid out.
#![tactic(auto)]

mod laws;
mod laying;
mod next;
mod reading;
mod wire;

pub use laws::frames_are_given_whole;
pub use laying::frame;
pub use next::Next;
pub use wire::Wire;
