//! The fields of a line.
ghost use Rattle.std.specs.Prelude.{◌≡◌};
ghost use Rattle.fsd_texts.specs.Script.{key_in, name_in, number_in, pattern_in};

use fsd_bytes::{FileName, Key, Pattern, read_number};
use fsd_texts::Cause;

pub(crate) fn number_of(word: &[u8]) -> Result<u32, Cause>
    ensures { result ≡ number_in word.now }
{
    read_number(word).ok_or(Cause::BadNumber)
}

pub(crate) fn name_of(word: &[u8]) -> Result<FileName, Cause>
    ensures { result ≡ name_in word.now }
{
    match FileName::parse(word) {
        Ok(name) => Ok(name),
        Err(_) => Err(Cause::BadName),
    }
}

pub(crate) fn key_of(word: &[u8]) -> Result<Key, Cause>
    ensures { result ≡ key_in word.now }
{
    Key::parse(word).ok_or(Cause::BadKey)
}

pub(crate) fn pattern_of(word: &[u8]) -> Result<Pattern, Cause>
    ensures { result ≡ pattern_in word.now }
{
    Pattern::parse(word).ok_or(Cause::BadPattern)
}
