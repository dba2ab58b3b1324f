//! The sector of an anchor (docs/FORMAT.md).
ghost use Rattle.std.specs.Prelude.{◌≡◌, ◌≤◌};
ghost use Rattle.fsd_formats.specs.Anchors.{anchor_bytes, closed_bytes, spells_anchor, read_anchor, read_closed, is_anchor};

use fsd_bytes::{put_bytes, put_u8, put_u32, u8_at, u32_at};
use fsd_formats::Anchor;

/// The sector of an anchor.
pub fn anchor_bytes(a: &Anchor) -> [u8; 512]
    requires epoch { 1 ≤ a.now.epoch }
    requires third { a.now.third ≤ 2 }
    requires first { 1 ≤ a.now.first }
    ensures bytes { result ≡ anchor_bytes a.now }
{
    let mut b = [0u8; 512];
    put_bytes(&mut b, 0, b"CFSA");
    put_u32(&mut b, 4, a.epoch);
    put_u8(&mut b, 8, a.third as u8);
    put_u32(&mut b, 12, a.first);
    b
}

/// The sector of the same anchor, of a volume that was closed.
pub fn closed_bytes(a: &Anchor) -> [u8; 512]
    requires epoch { 1 ≤ a.now.epoch }
    requires third { a.now.third ≤ 2 }
    requires first { 1 ≤ a.now.first }
    ensures bytes { result ≡ closed_bytes a.now }
{
    let mut b = [0u8; 512];
    put_bytes(&mut b, 0, b"CFSA");
    put_u32(&mut b, 4, a.epoch);
    put_u8(&mut b, 8, a.third as u8);
    put_u8(&mut b, 9, 1);
    put_u32(&mut b, 12, a.first);
    b
}

// Whether this is a sector of an anchor, of a volume that was closed or not.
fn spells_anchor(a: &Anchor, b: &[u8; 512]) -> bool
    requires epoch { 1 ≤ a.now.epoch }
    requires third { a.now.third ≤ 2 }
    requires first { 1 ≤ a.now.first }
    ensures { result ≡ spells_anchor a.now b.now }
{
    anchor_bytes(a) == *b || closed_bytes(a) == *b
}

// Whether an anchor may have these numbers.
fn is_anchor(a: &Anchor) -> bool
    ensures { result ≡ is_anchor a.now }
{
    a.epoch >= 1 && a.third <= 2 && a.first >= 1
}

/// The anchor whose sector this is, if it is one's.
pub fn read_anchor(b: &[u8; 512]) -> Option<Anchor>
    ensures read { result ≡ read_anchor b.now }
{
    let a = Anchor {
        epoch: u32_at(b, 4),
        third: u32::from(u8_at(b, 8)),
        first: u32_at(b, 12),
    };
    if !is_anchor(&a) {
        return None;
    }
    if spells_anchor(&a, b) { Some(a) } else { None }
}

/// The anchor whose sector this is, if it is one's whose volume was closed.
pub fn read_closed(b: &[u8; 512]) -> Option<Anchor>
    ensures read { result ≡ read_closed b.now }
{
    if u8_at(b, 9) == 1 {
        read_anchor(b)
    } else {
        None
    }
}
