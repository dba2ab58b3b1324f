//! Where a page is refused.
ghost use Rattle.std.specs.Prelude.{◌≡◌, ◌≤◌, ◌<◌, ◌+◌, ◌-◌, ◌*◌, ◌^◌, ◌↔◌, ◌&&◌, ◌||◌, ◌==◌, not, nat_le, if◌then◌else◌, IfOk, IfErr, MatchResult, length, Some, None, option_map, slice_range};
ghost use Rattle.fsd_bytes.specs.Bytes.{u8_at, u16_at};
ghost use Rattle.fsd_bytes.specs.Names.{is_between, is_name, max_name_len};
ghost use Rattle.run_table.specs.RunTable.{max_runs};
ghost use Rattle.name_page.specs.Fault.{unless, zeros_fault, lengths_fault, runs_fault, key_at, name_fault_at, numbers_fault, entry_fault, entry_end, entries_fault, separator_key_at, separator_fault, separators_fault, count_fits, used_fits, contents_fault, head_fault, head_at, kind_at, fault_of};
ghost use Rattle.name_page.specs.Lookups.{is_after};
ghost use Rattle.fsd_formats.specs.NamePage.{room, read_page};
ghost use Rattle.name_page.specs.Reading.{head_of};

use crate::writing::{LEAST_USED, PAGE_ROOM};
use fsd_bytes::{FileName, Key, u8_at, u16_at, u32_at};
use fsd_formats::{MOST_KEEP, MOST_LENGTH, Page, PageKind};

/// The place of the first field that the grammar refuses.
#[derive(Clone, Copy, Debug, PartialEq)]
pub struct PageFault {
    pub place: u32,
}

// The fault at a field's place, unless the field is good.
fn check(place: usize, good: bool) -> Result<(), PageFault>
    requires { place ≤ 512 }
    ensures { MatchResult result (λ done. unless place good ≡ None) (λ fault. unless place good ≡ Some fault.place) }
{
    if good {
        Ok(())
    } else {
        Err(PageFault {
            place: place as u32,
        })
    }
}

// So many bytes from a place on are zero.
fn check_zeros(b: &[u8; 512], n: usize, place: usize) -> Result<(), PageFault>
    requires { place + n ≤ 512 }
    ensures { MatchResult result (λ done. zeros_fault n place b.now ≡ None) (λ fault. zeros_fault n place b.now ≡ Some fault.place) }
{
    for i in place..place + n {
        check(i, u8_at(b, i) == 0)?;
    }
    Ok(())
}

// The runs at a place, which end at the limit or before it. The answer is where they end.
fn check_runs(
    b: &[u8; 512],
    place: usize,
    limit: usize,
    last: bool,
    need: u32,
) -> Result<usize, PageFault>
    requires place { place < 512 }
    requires limit { limit ≤ 512 }
    requires need { need < 2 ^ 31 }
    ensures { MatchResult result
        (λ end. (runs_fault place limit last need b.now ≡ None) × (end ≡ place + 1 + 6 * u8_at place b.now) × (end ≤ limit))
        (λ fault. runs_fault place limit last need b.now ≡ Some fault.place) }
{
    let count = usize::from(u8_at(b, place));
    let end = place + 1 + 6 * count;
    check(place, is_run_count(count) && ends(end, limit, last))?;
    check_lengths(b, count, place + 1, need)?;
    Ok(end)
}

fn is_run_count(count: usize) -> bool
    ensures { result ≡ is_between 1 max_runs count }
{
    1 <= count && count <= 8
}

fn ends(end: usize, limit: usize, last: bool) -> bool
    ensures { result ≡ (if last then end == limit else nat_le end limit) }
{
    if last { end == limit } else { end <= limit }
}

// The lengths of so many runs.
fn check_lengths(b: &[u8; 512], count: usize, place: usize, need: u32) -> Result<(), PageFault>
    requires count { count ≤ 8 }
    requires room { place + 6 * count ≤ 512 }
    ensures { MatchResult result (λ done. lengths_fault count place 0 need b.now ≡ None) (λ fault. lengths_fault count place 0 need b.now ≡ Some fault.place) }
{
    let mut sum = 0;
    for i in 0..count {
        let at = place + 6 * i;
        let length = u32::from(u16_at(b, at + 4));
        check(at + 4, is_length(length, count - 1 - i, sum, need))?;
        sum += length;
    }
    Ok(())
}

fn is_length(length: u32, left: usize, sum: u32, need: u32) -> bool
    requires { sum + length < 2 ^ 32 }
    ensures { result ≡ (nat_le 1 length && (not (left == 0) || sum + length == need)) }
{
    1 <= length && (left != 0 || sum + length == need)
}

// The name of so many bytes behind a place.
fn parse_name(b: &[u8; 512], place: usize, n: usize) -> Result<FileName, PageFault>
    requires { place + 1 + n ≤ 512 }
    ensures { let bytes = slice_range b.now (place + 1) (place + 1 + n) in MatchResult result
        (λ name. (unless (place + 1) (is_name bytes) ≡ None) × (name ≡ bytes))
        (λ fault. unless (place + 1) (is_name bytes) ≡ Some fault.place) }
{
    match FileName::parse(&b[place + 1..place + 1 + n]) {
        Ok(name) => Ok(name),
        Err(_) => Err(PageFault {
            place: (place + 1) as u32,
        }),
    }
}

// The name at a place, behind which an entry has room.
fn check_name(b: &[u8; 512], place: usize, limit: usize) -> Result<FileName, PageFault>
    requires place { place ≤ 512 }
    requires limit { limit ≤ 512 }
    ensures { MatchResult result
        (λ name. (name_fault_at place limit b.now ≡ None) × (name ≡ slice_range b.now (place + 1) (place + 1 + u8_at place b.now))
        × (length name ≡ u8_at place b.now) × (place + u8_at place b.now + 26 ≤ limit))
        (λ fault. name_fault_at place limit b.now ≡ Some fault.place) }
{
    if limit < place + 27 {
        return Err(PageFault {
            place: place as u32,
        });
    }
    let n = usize::from(u8_at(b, place));
    check(place, has_room(n, place, limit))?;
    parse_name(b, place, n)
}

fn has_room(n: usize, place: usize, limit: usize) -> bool
    requires { place + n < 2 ^ 32 }
    ensures { result ≡ (is_between 1 max_name_len n && nat_le (place + n + 26) limit) }
{
    1 <= n && n <= 40 && place + n + 26 <= limit
}

// The key is behind the one before it.
fn follows(before: &Option<Key>, key: &Key) -> bool
    ensures { result ≡ is_after before.now key.now }
{
    match before {
        Some(before) => before.cmp(key).is_lt(),
        None => true,
    }
}

fn is_version(before: &Option<Key>, key: &Key) -> bool
    ensures { result ≡ (nat_le 1 key.now.version && is_after before.now key.now) }
{
    1 <= key.version && follows(before, key)
}

// The entry at a place. The answer is its key, and where it ends.
fn check_entry(
    b: &[u8; 512],
    place: usize,
    limit: usize,
    last: bool,
    before: &Option<Key>,
) -> Result<(Key, usize), PageFault>
    requires place { place ≤ 512 }
    requires limit { limit ≤ 512 }
    ensures { MatchResult result
        (λ entry. (entry_fault place limit last before.now b.now ≡ None) × (entry.0 ≡ key_at place b.now) × (entry.1 ≡ entry_end place b.now) × (entry.1 ≤ limit))
        (λ fault. entry_fault place limit last before.now b.now ≡ Some fault.place) }
{
    let name = check_name(b, place, limit)?;
    let at = place + 1 + name.as_bytes().len();
    let key = Key {
        name,
        version: u32_at(b, at),
    };
    check(at, is_version(before, &key))?;
    let end = check_numbers(b, at, limit, last)?;
    Ok((key, end))
}

// The numbers of an entry from its version on, and its runs. The answer is where they end.
fn check_numbers(b: &[u8; 512], place: usize, limit: usize, last: bool) -> Result<usize, PageFault>
    requires place { place + 25 ≤ limit }
    requires limit { limit ≤ 512 }
    ensures { MatchResult result
        (λ end. (numbers_fault place limit last b.now ≡ None) × (end ≡ place + 19 + 6 * u8_at (place + 18) b.now) × (end ≤ limit))
        (λ fault. numbers_fault place limit last b.now ≡ Some fault.place) }
{
    check(place + 4, u32::from(u16_at(b, place + 4)) <= MOST_KEEP)?;
    let length = u32_at(b, place + 14);
    check(place + 14, length <= MOST_LENGTH)?;
    check_runs(b, place + 18, limit, last, 1 + length.div_ceil(512))
}

// The entries of a leaf, which end at the limit.
pub(crate) fn check_entries(b: &[u8; 512], count: usize, limit: usize) -> Result<(), PageFault>
    requires low { 24 ≤ limit }
    requires high { limit ≤ 512 }
    ensures { MatchResult result (λ done. entries_fault count 24 limit None b.now ≡ None) (λ fault. entries_fault count 24 limit None b.now ≡ Some fault.place) }
{
    let mut place = 24;
    let mut before = None;
    for i in 0..count {
        let (key, end) = check_entry(b, place, limit, i + 1 == count, &before)?;
        place = end;
        before = Some(key);
    }
    Ok(())
}

// The separator at a place. The answer is its key.
fn check_separator(
    b: &[u8; 512],
    place: usize,
    p: u32,
    before: &Option<Key>,
) -> Result<Key, PageFault>
    requires { place + 49 ≤ 512 }
    ensures { MatchResult result
        (λ key. (separator_fault place p before.now b.now ≡ None) × (key ≡ separator_key_at place b.now))
        (λ fault. separator_fault place p before.now b.now ≡ Some fault.place) }
{
    let n = usize::from(u8_at(b, place));
    check(place, is_name_len(n))?;
    let name = parse_name(b, place, n)?;
    check_zeros(b, 40 - n, place + 1 + n)?;
    let key = Key {
        name,
        version: u32_at(b, place + 41),
    };
    check(place + 41, is_version(before, &key))?;
    check(place + 45, u32_at(b, place + 45) < p)?;
    Ok(key)
}

fn is_name_len(n: usize) -> bool
    ensures { result ≡ is_between 1 max_name_len n }
{
    1 <= n && n <= 40
}

// The separators of an interior page.
fn check_separators(b: &[u8; 512], count: usize, p: u32) -> Result<(), PageFault>
    requires { count ≤ 9 }
    ensures { MatchResult result (λ done. separators_fault count 28 p None b.now ≡ None) (λ fault. separators_fault count 28 p None b.now ≡ Some fault.place) }
{
    let mut before = None;
    for i in 0..count {
        let key = check_separator(b, 28 + 49 * i, p, &before)?;
        before = Some(key);
    }
    Ok(())
}

// The head of a page.
pub(crate) fn check_head(b: &[u8; 512], page: u32) -> Result<Page, PageFault>
    ensures { MatchResult result
        (λ head. (head_fault page b.now ≡ None) × (head ≡ head_at b.now) × (head.used ≤ room) × (head.kind ≡ PageKind.Interior → head.count ≤ 9))
        (λ fault. head_fault page b.now ≡ Some fault.place) }
{
    check(0, b.starts_with(b"CNPG"))?;
    let kind = u8_at(b, 4);
    check(4, kind <= 2)?;
    check(5, u8_at(b, 5) == 0)?;
    let count = u16_at(b, 6);
    check(6, count_fits(page, kind, count))?;
    let used = u16_at(b, 8);
    check(8, used_fits(page, kind, count, used))?;
    check_zeros(b, 2, 10)?;
    check(12, u32_at(b, 12) == page)?;
    let kind = kind_at(kind);
    Ok(Page { kind, count, used })
}

fn kind_at(kind: u8) -> PageKind
    ensures { result ≡ kind_at kind }
{
    match kind {
        0 => PageKind::Free,
        1 => PageKind::Leaf,
        _ => PageKind::Interior,
    }
}

fn count_fits(page: u32, kind: u8, count: u16) -> bool
    ensures { result ≡ count_fits page kind count }
{
    match kind {
        0 => count == 0,
        1 => true,
        _ => {
            let least = if page == 0 { 1 } else { 4 };
            least <= count && count <= 9
        }
    }
}

fn used_fits(page: u32, kind: u8, count: u16, used: u16) -> bool
    ensures { result ≡ used_fits page kind count used }
{
    match kind {
        0 => used == 0,
        1 => {
            let least = if page == 0 { 0 } else { LEAST_USED as u16 };
            (least <= used && used <= PAGE_ROOM as u16) && (count != 0 || used == 0)
        }
        _ => u32::from(used) == 4 + 49 * u32::from(count),
    }
}

// What stands behind the head.
pub(crate) fn check_contents(b: &[u8; 512], head: Page, p: u32) -> Result<(), PageFault>
    requires head { head ≡ head_at b.now }
    requires used { head.used ≤ room }
    requires count { head.kind ≡ PageKind.Interior → head.count ≤ 9 }
    ensures { let fault_at = contents_fault p (u8_at 4 b.now) (u16_at 6 b.now) (u16_at 8 b.now) b.now in
        MatchResult result (λ done. fault_at ≡ None) (λ fault. fault_at ≡ Some fault.place) }
{
    let count = usize::from(head.count);
    match head.kind {
        PageKind::Free => Ok(()),
        PageKind::Leaf => check_entries(b, count, 24 + usize::from(head.used)),
        PageKind::Interior => {
            check(24, u32_at(b, 24) < p)?;
            check_separators(b, count, p)
        }
    }
}

/// Reads a page of a table of `p` pages: what its head says, or the first place that is refused.
pub fn read_page(b: &[u8; 512], page: u32, p: u32) -> Result<Page, PageFault>
    ensures accepted { IfOk result (λ head. option_map head_of (read_page page p b.now) ≡ Some head) }
    ensures refused { IfErr result (λ fault. read_page page p b.now ≡ None) }
    ensures place { IfErr result (λ fault. fault_of page p b.now ≡ Some fault.place) }
{
    check_page(b, page, p)
}

// The first place of a page that is refused.
#[tactic(auto, unfolding(crate::specs::Fault::fault_of))]
fn check_page(b: &[u8; 512], page: u32, p: u32) -> Result<Page, PageFault>
    ensures { MatchResult result (λ head. (fault_of page p b.now ≡ None) × (head ≡ head_at b.now)) (λ fault. fault_of page p b.now ≡ Some fault.place) }
{
    let head = check_head(b, page)?;
    check_contents(b, head, p)?;
    let used = usize::from(head.used);
    check_zeros(b, PAGE_ROOM - used, 24 + used)?;
    Ok(head)
}
