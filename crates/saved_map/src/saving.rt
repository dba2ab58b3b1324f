//! A sector of the map as it is saved.
ghost use Rattle.std.specs.Prelude.{◌≡◌, ◌+◌, ◌*◌, ◌<◌, ◌≤◌, ◌^◌, IfSome, if◌then◌else◌};
ghost use Rattle.volume_layout.specs.Layout.{map_bits};
ghost use Rattle.run_table.specs.Space.{contains};
ghost use Rattle.fsd_bytes.specs.Bytes.{sector};
ghost use Rattle.fsd_formats.specs.MapSector.{bits_value, map_head, map_sector};
ghost use Rattle.saved_map.specs.Marks.{is_marked, AreOf};

use crate::marks::is_marked;
use alloc_map::Map;
use fsd_bytes::{put_bytes, put_u16, put_u32};
use fsd_formats::MapHead;
use volume_layout::Layout;

/// A sector with this head, and no bit.
pub(crate) fn head_alone(head: &MapHead) -> [u8; 512]
    requires index { head.now.index < 2 ^ 16 }
    requires pages { head.now.pages < 2 ^ 16 }
    ensures bytes { result ≡ sector (map_head head.now) }
{
    let mut b = [0u8; 512];
    put_bytes(&mut b, 0, b"CMAP");
    put_u32(&mut b, 4, head.epoch);
    put_u16(&mut b, 8, head.index as u16);
    put_u16(&mut b, 10, head.pages as u16);
    put_u32(&mut b, 12, head.versions);
    b
}

// One where a sector is marked.
fn bit_at(l: &Layout, map: &Map, free_pages: &[bool], s: u32) -> u8
    requires of { AreOf l.now map.now free_pages.now }
    ensures { result ≡ (if is_marked l.now map.now.sectors free_pages.now s then 1 else 0) }
{
    if is_marked(l, map, free_pages, s) {
        1
    } else {
        0
    }
}

// Eight bits from a sector on, one by one, the first on the left.
fn mixed_byte(l: &Layout, map: &Map, free_pages: &[bool], s: u32) -> u8
    requires of { AreOf l.now map.now free_pages.now }
    requires room { s + 8 < 2 ^ 32 }
    ensures { result ≡ bits_value (is_marked l.now map.now.sectors free_pages.now) s 8 }
{
    let mut byte = 0u8;
    for i in 0..8 {
        byte = 2 * byte + bit_at(l, map, free_pages, s + i);
    }
    byte
}

// The bits of eight sectors of the data area, where all of these are free or none is.
fn even_byte(map: &Map, s: u32) -> Option<u8>
    requires from { map.now.from ≤ s }
    requires to { s + 8 ≤ map.now.to }
    requires room { s + 8 < 2 ^ 32 }
    ensures { IfSome result (λ byte. byte ≡ bits_value (contains map.now.sectors) s 8) }
{
    let stop = s + 8;
    if map.first(s, stop, false) == stop {
        Some(255)
    } else if map.first(s, stop, true) == stop {
        Some(0)
    } else {
        None
    }
}

// Eight bits from a sector on, the first on the left.
fn byte_at(l: &Layout, map: &Map, free_pages: &[bool], s: u32) -> u8
    requires of { AreOf l.now map.now free_pages.now }
    requires room { s + 8 < 2 ^ 32 }
    ensures { result ≡ bits_value (is_marked l.now map.now.sectors free_pages.now) s 8 }
{
    if l.data_start() <= s && s + 8 <= l.sectors() {
        if let Some(byte) = even_byte(map, s) {
            return byte;
        }
    }
    mixed_byte(l, map, free_pages, s)
}

/// The map's sector with this head: a bit for each of its sectors, set where that is free, or the first home of a free
/// page. It takes no memory.
pub fn save_sector(l: &Layout, map: &Map, free_pages: &[bool], head: &MapHead) -> [u8; 512]
    requires of { AreOf l.now map.now free_pages.now }
    requires index { head.now.index < 2 ^ 16 }
    requires pages { head.now.pages < 2 ^ 16 }
    ensures bytes { result ≡ map_sector head.now (is_marked l.now map.now.sectors free_pages.now) (map_bits * head.now.index) }
{
    let mut b = head_alone(head);
    for q in 0..496 {
        b[16 + q] = byte_at(l, map, free_pages, 3968 * head.index + 8 * q as u32);
    }
    b
}
