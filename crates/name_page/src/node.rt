//! Pages as values.
ghost use Rattle.std.specs.Prelude.{◌≡◌, ◌<◌, IsSome, Some, length, slice_get, true};
ghost use Rattle.std.specs.List.{AllByRecursion};
ghost use Rattle.fsd_bytes.specs.Keys.{key_cmp};
ghost use Rattle.fsd_formats.specs.NamePage.{are_ascending, entry_bytes, FitsEntry, FitsSeparator};
ghost use Rattle.fsd_formats.specs.declared.entry.Entry.{Entry};
ghost use Rattle.fsd_formats.specs.declared.page.Separator.{Separator};
ghost use Rattle.fsd_table.specs.Pages.{entry_keys, separator_keys};
ghost use Rattle.name_page.specs.Reading.{content_in};
ghost use Rattle.name_page.specs.Node.{content_of};

use crate::reading::{compare_entry, compare_separator, entry_at, places_in, separator, text_at};
use fsd_bytes::{Key, u8_at, u16_at, u32_at};
use fsd_formats::{Entry, Separator};
use std::cmp::Ordering;
use std::marker::Model;

/// The entries of a leaf.
#[derive(Drop)]
pub struct Entries {
    image: [u8; 512],
    count: u32,
    places: [u16; 18],
}

impl Model for Entries {
    ghost use Rattle.std.specs.Prelude.{List, ◌≡◌, length};
    ghost use Rattle.std.specs.List.{AllByRecursion};
    ghost use Rattle.fsd_formats.specs.declared.entry.Entry.{Entry};
    ghost use Rattle.fsd_formats.specs.NamePage.{FitsEntry};
    ghost use Rattle.name_page.specs.Reading.{ArePlaces, entries_read};

    ghost Value = { List Entry };

    ghost view = { λ s. entries_read s.image };

    ghost invariant = { λ s. (s.count ≡ length (entries_read s.image)) × AllByRecursion FitsEntry (entries_read s.image) × ArePlaces s.image s.places };
}

impl Entries {
    /// How many entries there are. Their keys ascend.
    pub fn len(&self) -> u32
        ensures value { result ≡ length self.now }
        ensures order { are_ascending (entry_keys self.now) ≡ true }
        ensures fits { AllByRecursion FitsEntry self.now }
    {
        self.count
    }

    /// How the key of entry `i` compares with another.
    pub fn compare(&self, i: u32, key: &Key) -> Ordering
        requires { i < length self.now }
        ensures { (entry : Entry) × (slice_get self.now i ≡ Some entry) × (result ≡ key_cmp entry.key key.now) }
    {
        compare_entry(&self.image, usize::from(self.places[i as usize]), key)
    }

    /// Entry `i`, counted from 0.
    pub fn get(&self, i: u32) -> Entry
        requires { i < length self.now }
        ensures there { slice_get self.now i ≡ Some result }
        ensures fits { FitsEntry result }
    {
        entry_at(&self.image, usize::from(self.places[i as usize]))
    }

    /// The bytes of entry `i`, as they stand in the leaf.
    pub(crate) fn text(&self, i: u32) -> &[u8]
        requires { i < length self.now }
        ensures { (entry : Entry) × (slice_get self.now i ≡ Some entry) × (result.now ≡ entry_bytes entry) }
    {
        text_at(&self.image, usize::from(self.places[i as usize]))
    }
}

/// The first child of an interior page, and its separators.
#[derive(Drop)]
pub struct Ways {
    image: [u8; 512],
    first: u32,
    count: u32,
}

impl Model for Ways {
    ghost use Rattle.std.specs.Prelude.{ℕ, List, ◌≡◌, length};
    ghost use Rattle.std.specs.List.{AllByRecursion};
    ghost use Rattle.fsd_formats.specs.declared.page.Separator.{Separator};
    ghost use Rattle.fsd_formats.specs.NamePage.{FitsSeparator};
    ghost use Rattle.name_page.specs.Reading.{separators_in};

    ghost Value = { ℕ × List Separator };

    ghost view = { λ s. (s.first, separators_in s.image) };

    ghost invariant = { λ s. (s.count ≡ length (separators_in s.image)) × AllByRecursion FitsSeparator (separators_in s.image) };
}

impl Ways {
    pub fn first(&self) -> u32
        ensures { result ≡ self.now.0 }
    {
        self.first
    }

    /// How many separators there are. Their keys ascend.
    pub fn len(&self) -> u32
        ensures value { result ≡ length self.now.1 }
        ensures order { are_ascending (separator_keys self.now.1) ≡ true }
    {
        self.count
    }

    /// How the key of separator `i` compares with another.
    pub fn compare(&self, i: u32, key: &Key) -> Ordering
        requires { i < length self.now.1 }
        ensures { (s : Separator) × (slice_get self.now.1 i ≡ Some s) × (result ≡ key_cmp s.key key.now) }
    {
        compare_separator(&self.image, i, key)
    }

    /// Separator `i`, counted from 0.
    pub fn get(&self, i: u32) -> Separator
        requires { i < length self.now.1 }
        ensures there { slice_get self.now.1 i ≡ Some result }
        ensures fits { FitsSeparator result }
    {
        separator(&self.image, i)
    }
}

/// What a page has.
#[derive(Drop)]
pub enum Node {
    Free,
    Leaf(Entries),
    Interior(Ways),
}

/// What the bytes of a page have.
pub fn node_in(b: &[u8; 512]) -> Node
    requires { IsSome (content_in b.now) }
    ensures { content_in b.now ≡ Some (content_of result) }
{
    let count = u32::from(u16_at(b, 6));
    match u8_at(b, 4) {
        0 => Node::Free,
        1 => Node::Leaf(Entries {
            image: *b,
            count,
            places: places_in(b, count),
        }),
        _ => Node::Interior(Ways {
            image: *b,
            first: u32_at(b, 24),
            count,
        }),
    }
}
