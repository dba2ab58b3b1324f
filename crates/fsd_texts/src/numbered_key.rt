//! Keys that a version may have.
ghost use Rattle.std.specs.Prelude.{◌≡◌, ◌==◌, None, Some, IsTrue, if◌then◌else◌};
ghost use Rattle.fsd_bytes.specs.Keys.{is_key};

use fsd_bytes::Key;
use std::marker::Model;

/// A key whose version is 1 at least.
#[derive(Drop)]
pub struct NumberedKey {
    key: Key,
}

impl Model for NumberedKey {
    ghost use Rattle.std.specs.Prelude.{IsTrue};
    ghost use Rattle.fsd_bytes.specs.declared.key.Key.{Key};
    ghost use Rattle.fsd_bytes.specs.Keys.{is_key};

    ghost Value = { Key };

    ghost view = { λ n. n.key };

    ghost invariant = { λ n. IsTrue (is_key n.key) };

    ghost inverse = { λ key. record { key = key } };
}

impl NumberedKey {
    /// This key, where its version is one.
    pub fn of(key: Key) -> Option<NumberedKey>
        ensures { result ≡ (if key.version == 0 then None else Some key) }
    {
        key.name.as_bytes();
        if key.version == 0 {
            return None;
        }
        Some(NumberedKey { key })
    }

    /// The key itself.
    pub fn as_key(&self) -> &Key
        ensures same { result.now ≡ self.now }
        ensures one { IsTrue (is_key self.now) }
    {
        &self.key
    }
}
