//! Where the log has a page's last image.
/// The sectors of a page's image in a record and of its copy there, and the record's number.
#[derive(Clone, Copy)]
pub struct Slot {
    pub place: u32,
    pub copy: u32,
    pub number: u32,
}
