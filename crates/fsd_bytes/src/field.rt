//! Big-endian fields of a sector of 512 bytes (docs/FORMAT.md).
ghost use Rattle.std.specs.Prelude.{◌≡◌, ◌+◌, ◌≤◌, ◌<◌, length};
ghost use Rattle.fsd_bytes.specs.Bytes.{u8, u16, u32, u8_at, u16_at, u32_at, with_bytes};

use byteorder::{BigEndian, ByteOrder};

/// The byte at a place.
pub fn u8_at(b: &[u8; 512], place: usize) -> u8
    requires { place < 512 }
    ensures { result ≡ u8_at place b.now }
{
    b[place]
}

/// The number of two bytes at a place.
pub fn u16_at(b: &[u8; 512], place: usize) -> u16
    requires { place + 2 ≤ 512 }
    ensures { result ≡ u16_at place b.now }
{
    u16::from_be_bytes([b[place], b[place + 1]])
}

/// The number of four bytes at a place.
pub fn u32_at(b: &[u8; 512], place: usize) -> u32
    requires { place + 4 ≤ 512 }
    ensures { result ≡ u32_at place b.now }
{
    u32::from_be_bytes([b[place], b[place + 1], b[place + 2], b[place + 3]])
}

/// Writes a byte at a place.
pub fn put_u8(b: &mut [u8; 512], place: usize, x: u8)
    requires { place < 512 }
    ensures { b.new ≡ with_bytes place (u8 x) b.old }
{
    put_bytes(b, place, &[x]);
}

/// Writes a number of two bytes at a place.
pub fn put_u16(b: &mut [u8; 512], place: usize, x: u16)
    requires { place + 2 ≤ 512 }
    ensures { b.new ≡ with_bytes place (u16 x) b.old }
{
    let mut field = [0; 2];
    BigEndian::write_u16(&mut field, x);
    put_bytes(b, place, &field);
}

/// Writes a number of four bytes at a place.
pub fn put_u32(b: &mut [u8; 512], place: usize, x: u32)
    requires { place + 4 ≤ 512 }
    ensures { b.new ≡ with_bytes place (u32 x) b.old }
{
    let mut field = [0; 4];
    BigEndian::write_u32(&mut field, x);
    put_bytes(b, place, &field);
}

/// Writes bytes from a place on.
pub fn put_bytes(b: &mut [u8; 512], place: usize, bytes: &[u8])
    requires { place + length bytes.now ≤ 512 }
    ensures { b.new ≡ with_bytes place bytes.now b.old }
{
    b[place..place + bytes.len()].copy_from_slice(bytes);
}
