//! Children of interior pages.
use fsd_bytes::Key;

/// A page that another leads to, and the keys between which it stands: from `low` on, and below `high`.
#[derive(Drop)]
pub struct Child {
    pub page: u32,
    pub low: Option<Key>,
    pub high: Option<Key>,
}
