//! Definitions: the words of the command line, the runs that they ask for,
//! and what a stop at any moment of a run leaves.
#![tactic(auto)]

mod laws;
mod request;
mod span;

pub use laws::{
    a_volume_answers_alone, each_command_has_an_answer, forced_lines_tell_what_is_forced,
    replies_tell_the_changes, stops_leave_sound_disks, without_faults_memory_alone_is_refused,
};
pub use request::Request;
pub use span::{Span, Weight};
