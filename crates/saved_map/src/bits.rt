//! The bits of a map's sector as they are read.
ghost use Rattle.std.specs.Prelude.{◌≡◌, ◌+◌, ◌<◌, ◌≤◌, ℕ, not, if◌then◌else◌};
ghost use Rattle.fsd_formats.specs.MapSector.{has_map_bit};
ghost use Rattle.sector_set.specs.SectorSet.{IsFirst};

// Whether a bit is set.
fn has_bit(b: &[u8; 512], n: u32) -> bool
    requires { n < 3968 }
    ensures { result ≡ has_map_bit b.now n }
{
    (b[16 + n as usize / 8] >> (7 - n % 8)) & 1 == 1
}

// The byte of which no bit is as is wanted.
fn byte_of_others(wanted: bool) -> u8
    ensures { result ≡ (if wanted then 0 else 255) }
{
    if wanted { 0 } else { 255 }
}

// How many bits from a place on are passed over: all eight of a byte that has none of those wanted, else the one there,
// or none, if it is as is wanted.
fn others_at(b: &[u8; 512], n: u32, wanted: bool) -> u32
    requires { n < 3968 }
    ensures within { n + result ≤ 3968 }
    ensures others { (s : ℕ) → n ≤ s → s < n + result → has_map_bit b.now s ≡ not wanted }
    ensures found { result ≡ 0 → has_map_bit b.now n ≡ wanted }
{
    if n % 8 == 0 && b[16 + n as usize / 8] == byte_of_others(wanted) {
        8
    } else if has_bit(b, n) == wanted {
        0
    } else {
        1
    }
}

/// The first bit from a place on that is set, or that is not where `wanted` is false; else the number of all bits.
pub(crate) fn first_bit(b: &[u8; 512], at: u32, wanted: bool) -> u32
    requires { at ≤ 3968 }
    ensures { IsFirst 3968 (has_map_bit b.now) at wanted result }
{
    let mut n = at;
    while n < 3968 {
        let others = others_at(b, n, wanted);
        if others == 0 {
            return n;
        }
        n += others;
    }
    n
}
