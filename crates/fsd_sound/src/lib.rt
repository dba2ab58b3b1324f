//! Definitions: what stands on the disk of a volume.
#![tactic(auto)]

mod fault;
mod home_laws;
mod laws;
mod log_laws;
mod mount_laws;

pub use fault::MountFault;
pub use home_laws::{
    homes_may_be_mended, logged_homes_may_be_written, roots_may_be_beside, roots_may_be_mended,
    shown_pages_stand,
};
pub use laws::{
    changes_wait_for_a_force, disks_are_sound_by_each_root, drafts_may_be_written,
    forces_commit_all_changes, formatted_disks_are_empty, formatted_disks_are_sound,
    free_sectors_may_be_written, fresh_mounts_hold, mounted_volumes_are_sound,
    mounted_volumes_have_few_pages, mounted_volumes_stand_where_nothing_waits,
    mounted_volumes_wear, open_windows_wear_soundly, serials_may_be_drawn, sound_disks_show_pages,
    sound_disks_wear, sound_from_pages, still_disks_tell_a_prefix,
    two_changes_wait_where_many_pages_do,
};
pub use log_laws::{
    completed_pages_are_logged, completing_may_be_stopped, copies_may_be_laid,
    empty_logs_may_be_turned, laid_images_are_given, own_logs_wear,
};
pub use mount_laws::{anchors_may_be_renewed, begun_disks_show, mounts_settle};
