//! Reading what a page has.
ghost use Rattle.std.specs.Prelude.{◌≡◌, ◌≤◌, ◌<◌, ◌+◌, ◌*◌, Some, IsSome, length, drop, slice_get, true};
ghost use Rattle.fsd_bytes.specs.Bytes.{u8_at};
ghost use Rattle.fsd_bytes.specs.Keys.{key_cmp};
ghost use Rattle.fsd_bytes.specs.Names.{is_name};
ghost use Rattle.run_table.specs.RunTable.{runs_from};
ghost use Rattle.fsd_formats.specs.NamePage.{entry_bytes, is_entry};
ghost use Rattle.fsd_formats.specs.declared.page.Separator.{Separator};
ghost use Rattle.name_page.specs.Fault.{entry_end, key_at, separator_key_at};
ghost use Rattle.name_page.specs.Reading.{ArePlaces, entry_at, entries_read, separator_at, first_in, separators_in};

use fsd_bytes::{FileName, Key, Serial, u8_at, u16_at, u32_at};
use fsd_formats::{Entry, Separator};
use run_table::{Run, Runs};
use std::cmp::Ordering;

/// Entry `i` of a leaf, counted from 0.
pub fn leaf_entry(b: &[u8; 512], i: u32) -> Entry
    requires { i < length (entries_read b.now) }
    ensures { slice_get (entries_read b.now) i ≡ Some result }
{
    let mut place = 24;
    for _ in 0..i {
        place = entry_end(b, place);
    }
    entry_at(b, place)
}

/// Where each entry of a leaf begins.
pub(crate) fn places_in(b: &[u8; 512], count: u32) -> [u16; 18]
    requires { count ≡ length (entries_read b.now) }
    ensures { ArePlaces b.now result }
{
    let mut places = [0; 18];
    let mut place = 24;
    for i in 0..count as usize {
        places[i] = place as u16;
        place = entry_end(b, place);
    }
    places
}

// Where the entry at a place ends.
fn entry_end(b: &[u8; 512], place: usize) -> usize
    requires { place + 20 + u8_at place b.now ≤ 512 }
    ensures { result ≡ entry_end place b.now }
{
    let runs = place + 19 + usize::from(u8_at(b, place));
    runs + 1 + 6 * usize::from(u8_at(b, runs))
}

/// The entry at a place.
pub(crate) fn entry_at(b: &[u8; 512], place: usize) -> Entry
    requires entry { is_entry (entry_at place b.now) ≡ true }
    requires within { entry_end place b.now ≤ 512 }
    ensures { result ≡ entry_at place b.now }
{
    let at = place + 1 + usize::from(u8_at(b, place));
    let key = Key {
        name: FileName::of(&b[place + 1..at]),
        version: u32_at(b, at),
    };
    let serial = Serial {
        epoch: u32_at(b, at + 6),
        count: u32_at(b, at + 10),
    };
    Entry {
        key,
        keep: u32::from(u16_at(b, at + 4)),
        serial,
        length: u32_at(b, at + 14),
        runs: runs_at(b, at + 18),
    }
}

/// The bytes of the entry at a place.
pub(crate) fn text_at(b: &[u8; 512], place: usize) -> &[u8]
    requires entry { is_entry (entry_at place b.now) ≡ true }
    requires within { entry_end place b.now ≤ 512 }
    ensures { result.now ≡ entry_bytes (entry_at place b.now) }
{
    &b[place..entry_end(b, place)]
}

/// How the key of the entry at a place compares with another.
pub(crate) fn compare_entry(b: &[u8; 512], place: usize, key: &Key) -> Ordering
    requires { place + 5 + u8_at place b.now ≤ 512 }
    ensures { result ≡ key_cmp (key_at place b.now) key.now }
{
    let at = place + 1 + usize::from(u8_at(b, place));
    let name = b[place + 1..at].cmp(key.name.as_bytes());
    name.then(u32_at(b, at).cmp(&key.version))
}

/// How the key of separator `i` of an interior page compares with another.
pub(crate) fn compare_separator(b: &[u8; 512], i: u32, key: &Key) -> Ordering
    requires { i < length (separators_in b.now) }
    ensures { (s : Separator) × (slice_get (separators_in b.now) i ≡ Some s) × (result ≡ key_cmp s.key key.now) }
{
    compare_separator_at(b, 28 + 49 * i as usize, key)
}

// How the key of the separator at a place compares with another.
fn compare_separator_at(b: &[u8; 512], place: usize, key: &Key) -> Ordering
    requires within { place + 49 ≤ 512 }
    requires room { u8_at place b.now ≤ 40 }
    ensures { result ≡ key_cmp (separator_key_at place b.now) key.now }
{
    let end = place + 1 + usize::from(u8_at(b, place));
    let name = b[place + 1..end].cmp(key.name.as_bytes());
    name.then(u32_at(b, place + 41).cmp(&key.version))
}

// The runs at a place, behind their number.
fn runs_at(b: &[u8; 512], place: usize) -> Runs
    requires count { u8_at place b.now ≤ 8 }
    requires within { place + 1 + 6 * u8_at place b.now ≤ 512 }
    ensures { result ≡ runs_from (u8_at place b.now) (drop (place + 1) b.now) }
{
    let mut runs = Runs::new();
    let count = usize::from(u8_at(b, place));
    for i in 0..count {
        let at = place + 1 + 6 * i;
        runs.push(Run {
            start: u32_at(b, at),
            length: u32::from(u16_at(b, at + 4)),
        });
    }
    runs
}

/// The child of an interior page whose keys are below the first separator.
pub fn first_child(b: &[u8; 512]) -> u32
    requires { IsSome (first_in b.now) }
    ensures { first_in b.now ≡ Some result }
{
    u32_at(b, 24)
}

/// Separator `i` of an interior page, counted from 0.
pub fn separator(b: &[u8; 512], i: u32) -> Separator
    requires { i < length (separators_in b.now) }
    ensures { slice_get (separators_in b.now) i ≡ Some result }
{
    separator_at(b, 28 + 49 * i as usize)
}

// The separator at a place.
fn separator_at(b: &[u8; 512], place: usize) -> Separator
    requires name { is_name (separator_key_at place b.now).name ≡ true }
    requires within { place + 49 ≤ 512 }
    requires room { u8_at place b.now ≤ 40 }
    ensures { result ≡ separator_at place b.now }
{
    let n = usize::from(u8_at(b, place));
    let key = Key {
        name: FileName::of(&b[place + 1..place + 1 + n]),
        version: u32_at(b, place + 41),
    };
    Separator {
        key,
        child: u32_at(b, place + 45),
    }
}
