//! The fields of a command: each is read or refused.
ghost use Rattle.std.specs.Prelude.{◌≡◌, ◌&&◌, codes, option_map};
ghost use Rattle.std.specs.Char.{is_ascii_digit};
ghost use Rattle.std.specs.List.{list_all};
ghost use Rattle.clap.specs.Matches.{found_of};
ghost use Rattle.clap.specs.Walk.{first_of, rows_of};
ghost use Rattle.fsd_bytes.specs.Keys.{is_plain};
ghost use Rattle.fsd_texts.specs.Script.{key_in, name_in, number_in, pattern_in};
ghost use Rattle.fsd_runs.specs.Words.{field, if_given, kind_numbered, layout_in, seed_in};

use clap::ArgMatches;
use fsd_bytes::{FileName, Key, Pattern, read_number};
use fsd_texts::Cause;
use volume_layout::Kind;

/// The word of a positional.
pub(crate) fn field<'a>(fields: &ArgMatches<'a>, id: &str) -> &'a str
    ensures { result.now ≡ field id.now (rows_of (found_of fields.now)) }
{
    fields.get_str(id).unwrap_or("")
}

/// The number that a positional spells.
pub(crate) fn number_at(fields: &ArgMatches<'_>, id: &str) -> Result<u32, Cause>
    ensures { result ≡ number_in (field id.now (rows_of (found_of fields.now))) }
{
    number_of(field(fields, id))
}

fn number_of(word: &str) -> Result<u32, Cause>
    ensures { result ≡ number_in word.now }
{
    read_number(word.as_bytes()).ok_or(Cause::BadNumber)
}

pub(crate) fn name_of(word: &str) -> Result<FileName, Cause>
    ensures { result ≡ name_in word.now }
{
    match FileName::parse(word.as_bytes()) {
        Ok(name) => Ok(name),
        Err(_) => Err(Cause::BadName),
    }
}

pub(crate) fn key_of(word: &str) -> Result<Key, Cause>
    ensures { result ≡ key_in word.now }
{
    Key::parse(word.as_bytes()).ok_or(Cause::BadKey)
}

pub(crate) fn pattern_of(word: &str) -> Result<Pattern, Cause>
    ensures { result ≡ pattern_in word.now }
{
    Pattern::parse(word.as_bytes()).ok_or(Cause::BadPattern)
}

/// The number that an option spells, where it is given.
pub(crate) fn number_if_given(fields: &ArgMatches<'_>, id: &str) -> Result<Option<u32>, Cause>
    ensures { result ≡ if_given (first_of id.now (rows_of (found_of fields.now))) }
{
    option_of(fields.get_str(id))
}

fn option_of(word: Option<&str>) -> Result<Option<u32>, Cause>
    ensures { result ≡ if_given (option_map (λ w. w.now) word.entry) }
{
    match word {
        Some(word) => Ok(Some(number_of(word)?)),
        None => Ok(None),
    }
}

/// The kind of the layout that the option of a format names: that of layout 1 where it has none.
pub(crate) fn layout_of(fields: &ArgMatches<'_>) -> Result<Kind, Cause>
    ensures { result ≡ layout_in (first_of (codes "layout") (rows_of (found_of fields.now))) }
{
    kind_of(fields.get_str("layout"))
}

fn kind_of(word: Option<&str>) -> Result<Kind, Cause>
    ensures { result ≡ layout_in (option_map (λ w. w.now) word.entry) }
{
    match word {
        Some(word) => kind_numbered(number_of(word)?),
        None => Ok(Kind::Two),
    }
}

fn kind_numbered(number: u32) -> Result<Kind, Cause>
    ensures { result ≡ kind_numbered number }
{
    match number {
        1 => Ok(Kind::Two),
        2 => Ok(Kind::Three),
        _ => Err(Cause::BadNumber),
    }
}

/// A number of 64 bits.
pub(crate) fn seed_of(word: &str) -> Result<u64, Cause>
    ensures { result ≡ seed_in word.now }
{
    if !is_decimal(word.as_bytes()) {
        return Err(Cause::BadNumber);
    }
    match word.parse::<u64>() {
        Ok(seed) => Ok(seed),
        Err(_) => Err(Cause::BadNumber),
    }
}

// Digits alone, with no zero in front of others.
fn is_decimal(digits: &[u8]) -> bool
    ensures { result ≡ (is_plain digits.now && list_all is_ascii_digit digits.now) }
{
    is_plain(digits) && are_digits(digits)
}

fn is_plain(digits: &[u8]) -> bool
    ensures { result ≡ is_plain digits.now }
{
    match digits {
        [first, rest @ ..] => *first != b'0' || rest.is_empty(),
        [] => false,
    }
}

fn are_digits(digits: &[u8]) -> bool
    ensures { result ≡ list_all is_ascii_digit digits.now }
{
    digits.iter().all(|digit| digit.is_ascii_digit())
}
