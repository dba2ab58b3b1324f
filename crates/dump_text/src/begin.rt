//! Whether some bytes begin a version.
ghost use Rattle.std.specs.Prelude.{◌≡◌, ◌≤◌, length};
ghost use Rattle.fsd_bytes.specs.Bytes.{with_bytes};
ghost use Rattle.fsd_bytes.specs.Keys.{read_name};
ghost use Rattle.fsd_dumps.specs.Dump.{is_behind};
ghost use Rattle.fsd_dumps.specs.Front.{greatest_name, may_begin, may_follow, most_begun, most_version};

use crate::field::{byte_or, first_16, first_32, from};
use fsd_bytes::{FileName, Key};
use fsd_formats::{MOST_KEEP, MOST_LENGTH};

/// How many first bytes begin a version, at most.
pub(crate) fn most_begun(last: &Option<Key>, behind: u32, bytes: &[u8]) -> usize
    ensures count { result ≡ most_begun last.now behind bytes.now (length bytes.now) }
    ensures within { result ≤ length bytes.now }
{
    let mut most = bytes.len();
    while most > 0 {
        if may_begin(last, behind, &bytes[..most]) {
            return most;
        }
        most -= 1;
    }
    0
}

/// Whether the bytes, the fields of a version or some first bytes of them, may stand behind the last version and in front
/// of so many more.
pub(crate) fn may_begin(last: &Option<Key>, behind: u32, bytes: &[u8]) -> bool
    ensures { result ≡ may_begin last.now behind bytes.now }
{
    match bytes {
        [] => true,
        [n, rest @ ..] => match greatest_name(usize::from(*n), rest) {
            Some(name) => may_follow(last, behind, name, from(rest, usize::from(*n))),
            None => false,
        },
    }
}

// The greatest name of n bytes that begins so, if one does.
fn greatest_name(n: usize, bytes: &[u8]) -> Option<FileName>
    ensures { result ≡ read_name (greatest_name n bytes.now) }
{
    if n > 40 {
        return None;
    }
    let mut name = [b'z'; 40];
    let given = n.min(bytes.len());
    lay_front(&mut name, &bytes[..given]);
    name_if(&name[..n])
}

fn lay_front(name: &mut [u8; 40], bytes: &[u8])
    requires { length bytes.now ≤ 40 }
    ensures { name.new ≡ with_bytes 0 bytes.now name.old }
{
    name[..bytes.len()].copy_from_slice(bytes);
}

fn name_if(bytes: &[u8]) -> Option<FileName>
    ensures { result ≡ read_name bytes.now }
{
    match FileName::parse(bytes) {
        Ok(name) => Some(name),
        Err(_) => None,
    }
}

fn may_follow(last: &Option<Key>, behind: u32, name: FileName, more: &[u8]) -> bool
    ensures { result ≡ may_follow last.now behind name more.now }
{
    let number = first_32(more, 0);
    let top = first_32(more, 255).min(most_version(behind, &name));
    let key = Key { name, version: top };
    top >= 1
        && number <= top
        && is_behind(last, &key)
        && u32::from(first_16(from(more, 4), 0)) <= MOST_KEEP
        && byte_or(more, 6, 0) == 0
        && first_32(from(more, 7), 0) <= MOST_LENGTH
}

// The greatest version of a name behind which there are so many keys more.
fn most_version(behind: u32, name: &FileName) -> u32
    ensures { result ≡ most_version behind name.now }
{
    if name.as_bytes() == [b'z'; 40].as_slice() {
        u32::MAX - behind
    } else {
        u32::MAX
    }
}

fn is_behind(last: &Option<Key>, key: &Key) -> bool
    ensures { result ≡ is_behind last.now key.now }
{
    match last {
        Some(last) => last.cmp(key).is_lt(),
        None => true,
    }
}
