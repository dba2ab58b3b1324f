//! The parts of a dump as bytes, but for the own bytes of its versions.
ghost use Rattle.std.specs.Prelude.{◌≡◌, ◌<◌, ◌^◌, ◌++◌, ℕ, List, length};
ghost use Rattle.fsd_bytes.specs.Bytes.{u8, u16, u32};
ghost use Rattle.fsd_dumps.specs.Dump.{end_bytes, front_bytes, head_bytes};

use arrayvec::ArrayVec;
use fsd_bytes::{Key, Serial};

/// The head of a dump of so many versions; the serial is the greatest of the volume.
pub fn head_of(count: u32, latest: Serial) -> [u8; 16]
    ensures { result ≡ head_bytes count latest }
{
    let [a, b, c, d] = count.to_be_bytes();
    let [e, f, g, h] = latest.epoch.to_be_bytes();
    let [i, j, k, l] = latest.count.to_be_bytes();
    [b'C', b'F', b'S', b'D', a, b, c, d, e, f, g, h, i, j, k, l]
}

/// The end of a dump of so many versions.
pub fn end_of(count: u32) -> [u8; 8]
    ensures { result ≡ end_bytes count }
{
    let [a, b, c, d] = count.to_be_bytes();
    [b'C', b'F', b'S', b'E', a, b, c, d]
}

/// What stands in front of the bytes of a version that was put, so many of them.
pub fn front_of(key: &Key, keep: u16, long: u32) -> ArrayVec<u8, 52>
    ensures { (bytes : List ℕ) → length bytes ≡ long → result.items ≡ front_bytes (record { key = key.now; keep = keep; kind = 0; bytes = bytes }) }
{
    let name = key.name.as_bytes();
    let mut front = ArrayVec::new();
    front.push(name.len() as u8);
    front.try_extend_from_slice(name).unwrap();
    front
        .try_extend_from_slice(&fields_of(key.version, keep, long))
        .unwrap();
    front
}

// The fields of a version behind its name.
fn fields_of(version: u32, keep: u16, long: u32) -> [u8; 11]
    ensures { result ≡ u32 version ++ (u16 keep ++ (u8 0 ++ u32 long)) }
{
    let [a, b, c, d] = version.to_be_bytes();
    let [e, f] = keep.to_be_bytes();
    let [g, h, i, j] = long.to_be_bytes();
    [a, b, c, d, e, f, 0, g, h, i, j]
}
