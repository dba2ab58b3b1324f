//! Dumps, read from the front.
ghost use Rattle.std.specs.Prelude.{◌≡◌, ◌≤◌, ◌<◌, ◌∷◌, IfOk, IfErr, MatchResult, Ok, None, [], true, length, drop, map};
ghost use Rattle.fsd_bytes.specs.Bytes.{u8_at};
ghost use Rattle.fsd_bytes.specs.Names.{is_name};
ghost use Rattle.fsd_bytes.specs.Keys.{key_of};
ghost use Rattle.fsd_dumps.specs.Dump.{IsDumpOf};
ghost use Rattle.fsd_dumps.specs.Front.{dumped_in, head_len, item_at, number_16, number_32, only_end, rest_of, with_front};
ghost use Rattle.dump_text.specs.Items.{IsBad, IsBadAt, IsBadBehind, IsUnread, ReadsItem, dumped};

use crate::begin::{may_begin, most_begun};
use crate::field::{byte_or, common, first_16, first_32, from};
use crate::item::{DumpRead, Item};
use crate::spelling::end_of;
use fsd_bytes::{FileName, Key};
use std::alloc::Global;

/// The bytes in front of the versions.
const HEAD: usize = 16;

/// The bytes that a version has behind its name and in front of its own bytes.
const FIELDS: usize = 11;

/// The versions of a dump.
pub fn read_dump(alloc: Global, bytes: &[u8]) -> Result<Vec<Item>, DumpRead>
    ensures read { IfOk result (λ items. IsDumpOf (map (dumped bytes.now) items.items) bytes.now) }
    ensures unread { IfErr result (λ why. IsUnread bytes.now why) }
{
    read_items(alloc, bytes)
}

fn read_items(alloc: Global, bytes: &[u8]) -> Result<Vec<Item>, DumpRead>
    ensures { MatchResult result (λ items. dumped_in bytes.now ≡ Ok (map (dumped bytes.now) items.items)) (λ why. IsBad why (dumped_in bytes.now)) }
{
    let count = count_of(bytes)?;
    let mut items = Vec::new(alloc);
    let mut place = HEAD;
    let mut last = None;
    for done in 0..count {
        let item = next_item(&last, count - done - 1, bytes, place)?;
        place = item.start + item.length as usize;
        last = Some(item.key.copied());
        items.push(item)?;
    }
    end_at(count, bytes, place)?;
    Ok(items)
}

// How many versions the dump has.
fn count_of(bytes: &[u8]) -> Result<u32, DumpRead>
    ensures within { IfOk result (λ count. head_len ≤ length bytes.now) }
    ensures count { MatchResult result (λ count. dumped_in bytes.now ≡ with_front [] head_len (rest_of count count None (drop head_len bytes.now))) (λ why. IsBad why (dumped_in bytes.now)) }
{
    let same = common(b"CFSD".as_slice(), bytes);
    if same < 4 {
        return Err(DumpRead::Bad(same));
    }
    if bytes.len() < HEAD {
        return Err(DumpRead::Bad(bytes.len()));
    }
    Ok(first_32(from(bytes, 4), 0))
}

// The end of a dump of so many versions.
fn end_at(count: u32, bytes: &[u8], place: usize) -> Result<(), DumpRead>
    requires { place ≤ length bytes.now }
    ensures { MatchResult result (λ done. only_end count (drop place bytes.now) ≡ Ok []) (λ why. IsBadBehind place bytes.now why (only_end count (drop place bytes.now))) }
{
    let text = end_of(count);
    let rest = from(bytes, place);
    if rest == text.as_slice() {
        Ok(())
    } else {
        Err(DumpRead::Bad(place + common(text.as_slice(), rest)))
    }
}

// The version at a place, behind the last one and in front of so many more.
fn next_item(last: &Option<Key>, behind: u32, bytes: &[u8], place: usize) -> Result<Item, DumpRead>
    requires { place ≤ length bytes.now }
    ensures { MatchResult result (λ item. ReadsItem item place bytes.now (item_at last.now behind (drop place bytes.now))) (λ why. IsBadBehind place bytes.now why (item_at last.now behind (drop place bytes.now))) }
{
    match first_item(last, behind, from(bytes, place)) {
        Ok(item) => Ok(Item {
            key: item.key,
            keep: item.keep,
            kind: item.kind,
            start: place + item.start,
            length: item.length,
        }),
        Err(n) => Err(DumpRead::Bad(place + n)),
    }
}

// The version at the front.
fn first_item(last: &Option<Key>, behind: u32, front: &[u8]) -> Result<Item, usize>
    ensures { MatchResult result (λ item. ReadsItem item 0 front.now (item_at last.now behind front.now)) (λ n. IsBadAt 0 n front.now (item_at last.now behind front.now)) }
{
    match front {
        [] => Err(0),
        [n, rest @ ..] => sized_item(last, behind, front, usize::from(*n), rest),
    }
}

// The same, of a name of n bytes.
fn sized_item(
    last: &Option<Key>,
    behind: u32,
    front: &[u8],
    n: usize,
    rest: &[u8],
) -> Result<Item, usize>
    requires front { front.now ≡ n ∷ rest.now }
    requires size { n < 256 }
    ensures { MatchResult result (λ item. ReadsItem item 0 front.now (item_at last.now behind front.now)) (λ m. IsBadAt 0 m front.now (item_at last.now behind front.now)) }
{
    let head = &front[..front.len().min(1 + n + FIELDS)];
    if !may_begin(last, behind, head) {
        return Err(most_begun(last, behind, head));
    }
    let named = from(rest, n);
    let length = first_32(from(named, 7), 0);
    if named.len() < FIELDS + length as usize {
        return Err(front.len());
    }
    Ok(named_item(&rest[..n], named, 1 + n + FIELDS, length))
}

// The version of this name.
fn named_item(name: &[u8], named: &[u8], start: usize, length: u32) -> Item
    requires { is_name name.now ≡ true }
    ensures key { result.key ≡ key_of name.now (number_32 named.now) }
    ensures keep { result.keep ≡ number_16 (drop 4 named.now) }
    ensures kind { result.kind ≡ u8_at 6 named.now }
    ensures place { (result.start ≡ start) × (result.length ≡ length) }
{
    Item {
        key: Key {
            name: FileName::parse(name).unwrap(),
            version: first_32(named, 0),
        },
        keep: u32::from(first_16(from(named, 4), 0)),
        kind: byte_or(named, 6, 0),
        start,
        length,
    }
}
