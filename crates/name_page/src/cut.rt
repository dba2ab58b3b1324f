//! Places between keys.
ghost use Rattle.std.specs.Prelude.{◌≡◌};
ghost use Rattle.name_page.specs.Cut.{is_before};

use fsd_bytes::{FileName, Key};

/// A place between keys, by the keys that stand before it.
#[derive(Drop)]
pub enum Cut {
    /// None of them.
    Start,
    /// Those up to this one.
    UpTo(Key),
    /// Those of this name and of lesser ones.
    Named(FileName),
    /// All of them.
    End,
}

impl Cut {
    /// Whether the key stands before this place.
    pub fn is_before(&self, key: &Key) -> bool
        ensures { result ≡ is_before self.now key.now }
    {
        match self {
            Cut::Start => false,
            Cut::UpTo(last) => !key.cmp(last).is_gt(),
            Cut::Named(name) => !key.name.cmp(name).is_gt(),
            Cut::End => true,
        }
    }
}
