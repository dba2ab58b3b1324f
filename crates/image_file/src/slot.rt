//! The slot of a sector: its bytes, its number and a check.
ghost use Rattle.std.specs.Prelude.{◌≡◌, ◌+◌, ◌++◌, ◌≤◌, IfSome, ℕ, List, length, Some};
ghost use Rattle.fsd_bytes.specs.Bytes.{sector_len, u32};
ghost use Rattle.fsd_formats.specs.Slot.{check_of, slot_of, weighted_sum};
ghost use Rattle.fsd_bytes.specs.Bytes.{with_bytes};

/// Bytes in a slot.
pub const SLOT_BYTES: usize = 520;

// Bytes of a sector that are summed in one loop of a known length, which takes about half the time of one over all.
const PART: usize = 64;

// The sum of each of these bytes times its place, where so many stand before the first.
fn weights_behind(before: u32, bytes: &[u8]) -> u32
    requires { before + length bytes.now ≤ 512 }
    ensures { result ≡ weighted_sum (before + 1) bytes.now }
{
    let mut total = 0u32;
    let mut weights = 0u32;
    for (i, x) in bytes.iter().enumerate() {
        total += u32::from(*x);
        weights += (i as u32 + 1) * u32::from(*x);
    }
    before * total + weights
}

// The check of a sector's bytes: one more than the sum of each byte times its place, counted from 1. It is at most
// 33488641, and that of zeros is 1, so a slot of zeros is none.
fn check_of(b: &[u8; 512]) -> u32
    ensures { result ≡ check_of b.now }
{
    let mut sum = 1u32;
    for k in 0..8usize {
        let before = PART * k;
        sum += weights_behind(before as u32, &b[before..before + PART]);
    }
    sum
}

// Puts bytes in their place.
fn put(slot: &mut [u8], place: usize, bytes: &[u8])
    requires { place + length bytes.now ≤ length slot.old }
    ensures { slot.new ≡ with_bytes place bytes.now slot.old }
{
    slot[place..place + bytes.len()].copy_from_slice(bytes);
}

// What stands behind the bytes of sector `s` in its slot: its number, and the check of the bytes.
fn end_of(s: u32, b: &[u8; 512]) -> [u8; 8]
    ensures { result ≡ u32 s ++ u32 (check_of b.now) }
{
    let mut end = [0; 8];
    put(&mut end, 0, &s.to_be_bytes());
    put(&mut end, 4, &check_of(b).to_be_bytes());
    end
}

/// The slot of sector `s` with the bytes `b`: the bytes at 0, the sector's number at 512 and the check at 516.
pub fn slot_of(s: u32, b: &[u8; 512]) -> [u8; 520]
    ensures { result ≡ slot_of s b.now }
{
    let mut slot = [0; 520];
    put(&mut slot, 0, b);
    put(&mut slot, 512, &end_of(s, b));
    slot
}

/// The bytes of sector `s`, where `x` is its slot. Of any other 520 bytes, those of another sector's slot too, there
/// are none: the sector is damaged.
pub fn read_slot(s: u32, x: &[u8; 520]) -> Option<[u8; 512]>
    ensures found { IfSome result (λ b. x.now ≡ slot_of s b) }
    ensures only { (b : List ℕ) → length b ≡ sector_len → x.now ≡ slot_of s b → result ≡ Some b }
{
    let mut b = [0; 512];
    b.copy_from_slice(&x[..512]);
    let end = end_of(s, &b);
    if x[512..] == end[..] { Some(b) } else { None }
}
