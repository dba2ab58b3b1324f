//! The header and the end of a record.
ghost use Rattle.std.specs.Prelude.{◌≡◌, ◌≤◌, nat_lt, option_map, length, drop};
ghost use Rattle.std.specs.List.{list_all};
ghost use Rattle.fsd_bytes.specs.Names.{is_between};
ghost use Rattle.fsd_formats.specs.Record.{max_pages, header_bytes, end_bytes, read_header, are_pages, ascending, numbers_from};

use arrayvec::ArrayVec;
use fsd_bytes::{put_bytes, put_u16, put_u32, u16_at, u32_at};

/// As many pages as a record may have.
pub const MOST_PAGES: usize = 96;

// The header of a record.
pub(crate) fn header_bytes(epoch: u32, number: u32, pages: &[u32]) -> [u8; 512]
    requires { length pages.now ≤ max_pages }
    ensures { result ≡ header_bytes (record { epoch = epoch; number = number }) pages.now }
{
    let mut b = [0u8; 512];
    put_bytes(&mut b, 0, b"CLHD");
    put_u32(&mut b, 4, epoch);
    put_u32(&mut b, 8, number);
    put_u16(&mut b, 12, pages.len() as u16);
    let mut place = 32;
    for &page in pages {
        put_u32(&mut b, place, page);
        place += 4;
    }
    b
}

// The end of a record of so many pages.
pub(crate) fn end_bytes(epoch: u32, number: u32, n: u16) -> [u8; 512]
    ensures { result ≡ end_bytes (record { epoch = epoch; number = number }) n }
{
    let mut b = [0u8; 512];
    put_bytes(&mut b, 0, b"CLEN");
    put_u32(&mut b, 4, epoch);
    put_u32(&mut b, 8, number);
    put_u16(&mut b, 12, n);
    b
}

// Whether numbers ascend strictly.
fn is_ascending(pages: &[u32]) -> bool
    ensures { result ≡ ascending pages.now }
{
    for k in 1..pages.len() {
        if pages[k - 1] >= pages[k] {
            return false;
        }
    }
    true
}

// Whether a record may have so many pages.
fn is_count(n: usize) -> bool
    ensures { result ≡ is_between 1 max_pages n }
{
    n >= 1 && n <= MOST_PAGES
}

// Whether each page is one of p.
fn are_below(p: u32, pages: &[u32]) -> bool
    ensures { result ≡ list_all (λ page. nat_lt page p) pages.now }
{
    pages.iter().all(|page| *page < p)
}

// Whether a header may name these pages.
fn are_pages(p: u32, pages: &[u32]) -> bool
    ensures { result ≡ are_pages p pages.now }
{
    is_count(pages.len()) && is_ascending(pages) && are_below(p, pages)
}

// The first page numbers of a header.
fn numbers(b: &[u8; 512], n: u16) -> ArrayVec<u32, MOST_PAGES>
    requires { n ≤ max_pages }
    ensures { result.items ≡ numbers_from n (drop 32 b.now) }
{
    let mut pages = ArrayVec::new();
    for k in 0..usize::from(n) {
        pages.push(u32_at(b, 32 + 4 * k));
    }
    pages
}

// The pages of the record whose header this is.
pub(crate) fn read_header(
    p: u32,
    epoch: u32,
    number: u32,
    b: &[u8; 512],
) -> Option<ArrayVec<u32, MOST_PAGES>>
    ensures { option_map (λ v. v.items) result ≡ read_header p (record { epoch = epoch; number = number }) b.now }
{
    let n = u16_at(b, 12);
    if usize::from(n) > MOST_PAGES {
        return None;
    }
    let pages = numbers(b, n);
    if !are_pages(p, pages.as_slice()) {
        return None;
    }
    if header_bytes(epoch, number, pages.as_slice()) == *b {
        Some(pages)
    } else {
        None
    }
}
