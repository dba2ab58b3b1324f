//! Why no version is found or planned.
use name_btree::TreeFault;

/// Why no version is found, or none planned. The table stays.
#[derive(Clone, Copy)]
pub enum VersionFault {
    /// A look-up failed.
    Table(TreeFault),
    /// There is no such version.
    NoSuch,
    /// The highest version of the name has the greatest number.
    VersionsUsedUp,
}
