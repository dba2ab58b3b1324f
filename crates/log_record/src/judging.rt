//! Which record stands in some sectors.
ghost use Rattle.std.specs.Prelude.{◌≡◌, ◌≤◌, ◌+◌, ◌*◌, true, false, IfSome, if◌then◌else◌, option_map, length};
ghost use Rattle.fsd_formats.specs.Record.{max_pages, is_end, bears};
ghost use Rattle.fsd_log.specs.Judged.{judged, judged_by, judged_with, page_copies, passes};
ghost use Rattle.fsd_log.specs.Reach.{headers_len, len_by, reach};
ghost use Rattle.volume_layout.specs.Kinds.{more};
ghost use Rattle.log_record.specs.Found.{read_of, serving_in, found_in, IsCounted};

use crate::header::{MOST_PAGES, end_bytes, read_header};
use arrayvec::ArrayVec;
use fsd_bytes::u32_at;
use volume_layout::Kind;

/// The header, blank sectors and the header's copy begin a record: so many sectors.
pub fn headers(kind: Kind) -> u32
    ensures len { result ≡ headers_len (more kind) }
    ensures most { result ≤ 4 }
{
    3 + kind.more()
}

/// As many sectors as a record may have: one of [`MOST_PAGES`] on a volume that bears three damaged sectors.
pub const RECORD_SECTORS: u32 = 2 * MOST_PAGES as u32 + 7;

/// Their bytes.
pub const RECORD_BYTES: usize = 512 * RECORD_SECTORS as usize;

/// A record: its `n` pages as its header names them, and for the header, the end and each page whether the copy serves
/// in place of the first.
#[derive(Drop)]
pub struct Found {
    pub n: u32,
    pub pages: ArrayVec<u32, MOST_PAGES>,
    pub header_copy: bool,
    pub end_copy: bool,
    pub page_copy: ArrayVec<bool, MOST_PAGES>,
}

/// Whether the record is there.
#[derive(Drop)]
pub enum Judged {
    Good(Found),
    NotThere,
}

// The sector at a place, if it is whole.
fn sector_of(whole: &[bool], bytes: &[u8], k: usize) -> Option<[u8; 512]>
    requires { length bytes.now ≡ 512 * length whole.now }
    ensures { result ≡ read_of whole.now bytes.now k }
{
    if k < whole.len() && whole[k] {
        let mut sector = [0; 512];
        sector.copy_from_slice(&bytes[512 * k..512 * k + 512]);
        Some(sector)
    } else {
        None
    }
}

// Whether the page's image stands there.
fn bears(sector: &Option<[u8; 512]>, page: u32, epoch: u32, number: u32) -> bool
    ensures { result ≡ passes (bears page (record { epoch = epoch; number = number })) sector.now }
{
    match sector {
        Some(b) => {
            [b[0], b[1], b[2], b[3]] == *b"CNPG"
                && u32_at(b, 12) == page
                && (u32_at(b, 16) == epoch && u32_at(b, 20) == number)
        }
        None => false,
    }
}

// Whether the end stands there.
fn is_end(sector: &Option<[u8; 512]>, epoch: u32, number: u32, n: u16) -> bool
    ensures { result ≡ passes (is_end (record { epoch = epoch; number = number }) n) sector.now }
{
    match sector {
        Some(b) => end_bytes(epoch, number, n) == *b,
        None => false,
    }
}

// Which of two serves: the first (false), else the copy (true).
fn which(first: bool, copy: bool) -> Option<bool>
    ensures { result ≡ (if first then Some false else (if copy then Some true else None)) }
{
    if first {
        Some(false)
    } else if copy {
        Some(true)
    } else {
        None
    }
}

// For each page, whether its copy serves.
fn page_copies(
    gap: usize,
    whole: &[bool],
    bytes: &[u8],
    epoch: u32,
    number: u32,
    pages: &[u32],
) -> Option<ArrayVec<bool, MOST_PAGES>>
    requires gap { gap ≤ 1 }
    requires bytes { length bytes.now ≡ 512 * length whole.now }
    requires few { length pages.now ≤ max_pages }
    ensures { option_map (λ v. v.items) result
        ≡ page_copies (record { epoch = epoch; number = number }) (read_of whole.now bytes.now) (3 + gap) (4 + 2 * gap + length pages.now) pages.now }
{
    let mut copies = ArrayVec::new();
    let n = pages.len();
    for (k, &page) in pages.iter().enumerate() {
        let first = sector_of(whole, bytes, 3 + gap + k);
        let copy = sector_of(whole, bytes, 4 + 2 * gap + n + k);
        let serving = which(
            bears(&first, page, epoch, number),
            bears(&copy, page, epoch, number),
        )?;
        copies.push(serving);
    }
    Some(copies)
}

// The record with these pages.
fn judge_with(
    kind: Kind,
    whole: &[bool],
    bytes: &[u8],
    epoch: u32,
    number: u32,
    header_copy: bool,
    pages: ArrayVec<u32, MOST_PAGES>,
) -> Option<Found>
    requires bytes { length bytes.now ≡ 512 * length whole.now }
    requires few { length pages.items ≤ max_pages }
    ensures judged { option_map serving_in result
        ≡ judged_with (more kind) (record { epoch = epoch; number = number }) (length whole.now) (read_of whole.now bytes.now) header_copy pages.items }
    ensures count { IfSome result (λ f. f.n ≡ length f.pages.items) }
{
    let n = pages.len();
    let gap = kind.more() as usize;
    if whole.len() < 2 * n + 5 + 2 * gap {
        return None;
    }
    let first = sector_of(whole, bytes, 3 + gap + n);
    let copy = sector_of(whole, bytes, 4 + 2 * gap + 2 * n);
    let end_copy = which(
        is_end(&first, epoch, number, n as u16),
        is_end(&copy, epoch, number, n as u16),
    )?;
    let page_copy = page_copies(gap, whole, bytes, epoch, number, pages.as_slice())?;
    Some(Found {
        n: n as u32,
        pages,
        header_copy,
        end_copy,
        page_copy,
    })
}

// The record by the header at a place.
fn judge_by(
    kind: Kind,
    whole: &[bool],
    bytes: &[u8],
    p: u32,
    epoch: u32,
    number: u32,
    header_copy: bool,
    place: usize,
) -> Option<Found>
    requires { length bytes.now ≡ 512 * length whole.now }
    ensures judged { option_map serving_in result
        ≡ judged_by (more kind) p (record { epoch = epoch; number = number }) (length whole.now) (read_of whole.now bytes.now) header_copy (read_of whole.now bytes.now place) }
    ensures count { IfSome result (λ f. f.n ≡ length f.pages.items) }
{
    let header = sector_of(whole, bytes, place)?;
    let pages = read_header(p, epoch, number, &header)?;
    judge_with(kind, whole, bytes, epoch, number, header_copy, pages)
}

// The sectors of the record that the header at a place names, where it has room.
fn len_by(
    kind: Kind,
    whole: &[bool],
    bytes: &[u8],
    p: u32,
    epoch: u32,
    number: u32,
    room: u32,
    place: usize,
) -> u32
    requires { length bytes.now ≡ 512 * length whole.now }
    ensures len { result ≡ len_by (more kind) p (record { epoch = epoch; number = number }) room (read_of whole.now bytes.now place) }
    ensures within { result ≤ room }
{
    let Some(header) = sector_of(whole, bytes, place) else {
        return 0;
    };
    let Some(pages) = read_header(p, epoch, number, &header) else {
        return 0;
    };
    let len = 2 * pages.len() as u32 + 5 + 2 * kind.more();
    if len <= room { len } else { 0 }
}

/// How far sectors are to be read, from the first on, to judge them: the headers, and the record that they name where
/// it has room, the longer one of two. What lies beyond has no part in it.
/// `whole` and `bytes` have the headers, or all that there is room for.
pub fn reach(
    kind: Kind,
    whole: &[bool],
    bytes: &[u8],
    p: u32,
    epoch: u32,
    number: u32,
    room: u32,
) -> u32
    requires { length bytes.now ≡ 512 * length whole.now }
    ensures reach { result ≡ reach (more kind) p (record { epoch = epoch; number = number }) room (read_of whole.now bytes.now) }
    ensures within { result ≤ room }
{
    let header = len_by(kind, whole, bytes, p, epoch, number, room, 0);
    let copy = len_by(
        kind,
        whole,
        bytes,
        p,
        epoch,
        number,
        room,
        2 + kind.more() as usize,
    );
    headers(kind).min(room).max(header.max(copy))
}

/// The record of this epoch and number that begins these sectors, by its header or else by the header's copy. `whole`
/// tells of each sector whether it could be read, `bytes` has 512 bytes for each, and `p` is the number of name pages.
/// A header serves only if its record fits in these sectors.
#[tactic(auto, unfolding(fsd_log::specs::Judged::judged))]
pub fn judge(kind: Kind, whole: &[bool], bytes: &[u8], p: u32, epoch: u32, number: u32) -> Judged
    requires { length bytes.now ≡ 512 * length whole.now }
    ensures judged { found_in result ≡ judged (more kind) p (record { epoch = epoch; number = number }) (length whole.now) (read_of whole.now bytes.now) }
    ensures count { IsCounted result }
{
    match judge_by(kind, whole, bytes, p, epoch, number, false, 0) {
        Some(found) => Judged::Good(found),
        None => {
            let place = 2 + kind.more() as usize;
            match judge_by(kind, whole, bytes, p, epoch, number, true, place) {
                Some(found) => Judged::Good(found),
                None => Judged::NotThere,
            }
        }
    }
}
