//! What a force gives.

/// What a force has written.
#[derive(Clone, Copy, Debug, PartialEq)]
pub struct ForcedPages {
    /// Name pages.
    pub pages: u32,
}

/// The commit of many changes at once (Hagmann 1987, group commit).
#[derive(Clone, Copy)]
pub struct Group;
