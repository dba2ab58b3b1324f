//! Laws over the runs of the program: what the runs of a volume say one after another, in words of files alone.
#![tactic(auto)]

mod laws;

pub use laws::{
    a_stopped_put_is_listed_or_not, dumps_have_so_many_bytes_at_most, full_dumps_restore_the_files,
    gets_say_the_version, lists_say_the_files, parts_of_a_dump_go_on,
    parts_of_a_dump_have_each_version_once, puts_are_found_whole_or_not,
    puts_gets_and_lists_tell_files, runs_tell_files, synced_machines_hold_nothing_back,
};
