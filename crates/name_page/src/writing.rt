//! Writing pages.
ghost use Rattle.std.specs.Prelude.{◌≡◌, ◌≤◌, ◌<◌, ◌+◌, ◌*◌, ◌^◌, ◌++◌, ℕ, true, IsTrue, Some, length, replicate};
ghost use Rattle.std.specs.List.{AllByRecursion, flat_map, list_all};
ghost use Rattle.fsd_bytes.specs.Bytes.{u32, with_bytes};
ghost use Rattle.fsd_bytes.specs.Keys.{is_key};
ghost use Rattle.run_table.specs.RunTable.{run_bytes, are_runs};
ghost use Rattle.fsd_formats.specs.NamePage.{Free, Leaf, Interior, separator_bytes, entry_bytes, is_entry, is_page, page_bytes, read_page, stamp_at, room, FitsEntry, FitsSeparator};
ghost use Rattle.fsd_formats.specs.Record.{stamp_bytes};
ghost use Rattle.name_page.specs.Spelling.{head, numbers};

use arrayvec::ArrayVec;
use fsd_bytes::{put_bytes, put_u8, put_u16, put_u32, u32_at};
use fsd_formats::{Entry, Separator};
use run_table::Runs;

/// As many bytes as a page has behind its head.
pub const PAGE_ROOM: usize = 488;

/// As few bytes as the entries of a leaf other than the root take.
pub const LEAST_USED: usize = 190;

/// How many bytes the entry takes in a leaf: 27 to 108.
pub fn entry_len(e: &Entry) -> usize
    ensures value { result ≡ length (entry_bytes e.now) }
    ensures most { result ≤ 108 }
{
    20 + e.key.name.as_bytes().len() + 6 * e.runs.as_slice().len()
}

/// Writes a leaf of these entries.
pub fn write_leaf(page: u32, entries: &[Entry], out: &mut [u8; 512])
    requires entries { IsTrue (list_all is_entry entries.now) }
    requires room { length (flat_map entry_bytes entries.now) ≤ room }
    ensures { out.new ≡ page_bytes page (stamp_at 16 out.old) (Leaf entries.now) }
{
    let contents = contents_of(entries);
    put_head(out, 1, entries.len() as u16, contents.len() as u16, page);
    put_bytes(out, 24, contents.as_slice());
}

/// Writes an interior page: its first child, and at most nine separators.
pub fn write_interior(page: u32, first: u32, separators: &[Separator], out: &mut [u8; 512])
    requires keys { IsTrue (list_all (λ s. is_key s.key) separators.now) }
    requires room { length separators.now ≤ 9 }
    ensures { out.new ≡ page_bytes page (stamp_at 16 out.old) (Interior first separators.now) }
{
    let contents = ways_of(first, separators);
    put_head(out, 2, separators.len() as u16, contents.len() as u16, page);
    put_bytes(out, 24, contents.as_slice());
}

/// Writes a free page.
pub fn write_free(page: u32, out: &mut [u8; 512])
    ensures { out.new ≡ page_bytes page (stamp_at 16 out.old) Free }
{
    put_head(out, 0, 0, 0, page);
}

/// Writes the record's stamp into a page: the epoch at 16 and the number at 20.
pub fn stamp_page(out: &mut [u8; 512], epoch: u32, number: u32)
    ensures { out.new ≡ with_bytes 16 (stamp_bytes (record { epoch = epoch; number = number })) out.old }
{
    put_u32(out, 16, epoch);
    put_u32(out, 20, number);
}

// The head of a page, and zeros.
pub(crate) fn put_head(out: &mut [u8; 512], kind: u8, count: u16, used: u16, page: u32)
    ensures { out.new ≡ head kind count used page (stamp_at 16 out.old) ++ replicate room 0 }
{
    let (epoch, number) = (u32_at(out, 16), u32_at(out, 20));
    let mut b = [0; 512];
    put_bytes(&mut b, 0, b"CNPG");
    put_u8(&mut b, 4, kind);
    put_u16(&mut b, 6, count);
    put_u16(&mut b, 8, used);
    put_u32(&mut b, 12, page);
    put_u32(&mut b, 16, epoch);
    put_u32(&mut b, 20, number);
    *out = b;
}

// The bytes of entries, one after another.
fn contents_of(entries: &[Entry]) -> ArrayVec<u8, PAGE_ROOM>
    requires entries { IsTrue (list_all is_entry entries.now) }
    requires room { length (flat_map entry_bytes entries.now) ≤ room }
    ensures { result.items ≡ flat_map entry_bytes entries.now }
{
    let mut contents = ArrayVec::new();
    for e in entries {
        contents
            .try_extend_from_slice(entry_text(e).as_slice())
            .unwrap();
    }
    contents
}

// The bytes of a first child and of separators.
fn ways_of(first: u32, separators: &[Separator]) -> ArrayVec<u8, PAGE_ROOM>
    requires keys { IsTrue (list_all (λ s. is_key s.key) separators.now) }
    requires room { length separators.now ≤ 9 }
    ensures { result.items ≡ u32 first ++ flat_map separator_bytes separators.now }
{
    let mut contents = ArrayVec::new();
    contents
        .try_extend_from_slice(&first.to_be_bytes())
        .unwrap();
    for s in separators {
        contents
            .try_extend_from_slice(separator_text(s).as_slice())
            .unwrap();
    }
    contents
}

// The bytes of a separator.
fn separator_text(s: &Separator) -> ArrayVec<u8, 49>
    ensures text { result.items ≡ separator_bytes s.now }
    ensures length { length result.items ≡ 49 }
{
    let name = s.key.name.as_bytes();
    let zeros = [0; 40];
    let mut text = ArrayVec::new();
    text.push(name.len() as u8);
    text.try_extend_from_slice(name).unwrap();
    text.try_extend_from_slice(&zeros[..40 - name.len()])
        .unwrap();
    text.try_extend_from_slice(&s.key.version.to_be_bytes())
        .unwrap();
    text.try_extend_from_slice(&s.child.to_be_bytes()).unwrap();
    text
}

// The bytes of an entry.
pub(crate) fn entry_text(e: &Entry) -> ArrayVec<u8, 108>
    requires { IsTrue (is_entry e.now) }
    ensures { result.items ≡ entry_bytes e.now }
{
    let name = e.key.name.as_bytes();
    let mut text = ArrayVec::new();
    text.push(name.len() as u8);
    text.try_extend_from_slice(name).unwrap();
    text.try_extend_from_slice(&numbers_of(e)).unwrap();
    text.push(e.runs.as_slice().len() as u8);
    text.try_extend_from_slice(runs_text(&e.runs).as_slice())
        .unwrap();
    text
}

// The bytes of an entry's numbers, from the version to the length.
fn numbers_of(e: &Entry) -> [u8; 18]
    requires { e.now.keep < 2 ^ 16 }
    ensures { result ≡ numbers e.now }
{
    let v = e.key.version.to_be_bytes();
    let k = (e.keep as u16).to_be_bytes();
    let s = e.serial.epoch.to_be_bytes();
    let c = e.serial.count.to_be_bytes();
    let l = e.length.to_be_bytes();
    [
        v[0], v[1], v[2], v[3], k[0], k[1], s[0], s[1], s[2], s[3], c[0], c[1], c[2], c[3], l[0],
        l[1], l[2], l[3],
    ]
}

// The bytes of runs.
fn runs_text(runs: &Runs) -> ArrayVec<u8, 48>
    requires { IsTrue (are_runs runs.now) }
    ensures { result.items ≡ flat_map run_bytes runs.now }
{
    let mut bytes = [0; 48];
    runs.put_bytes(&mut bytes);
    let mut text = ArrayVec::new();
    text.try_extend_from_slice(&bytes[..6 * runs.as_slice().len()])
        .unwrap();
    text
}

/// Writes a leaf that reads as these entries.
pub fn write_entries(page: u32, entries: &[Entry], out: &mut [u8; 512])
    requires accepted { is_page page 0 (Leaf entries.now) ≡ true }
    requires fits { AllByRecursion FitsEntry entries.now }
    ensures { (p : ℕ) → read_page page p out.new ≡ Some (Leaf entries.now) }
{
    write_leaf(page, entries, out);
}

/// Writes an interior page that reads as these ways, in a table of as many pages as they need.
pub fn write_ways(page: u32, first: u32, separators: &[Separator], out: &mut [u8; 512])
    requires keys { list_all (λ s. is_key s.key) separators.now ≡ true }
    requires few { length separators.now ≤ 9 }
    requires fits { AllByRecursion FitsSeparator separators.now }
    ensures { (p : ℕ) → is_page page p (Interior first separators.now) ≡ true → read_page page p out.new ≡ Some (Interior first separators.now) }
{
    write_interior(page, first, separators, out);
}
