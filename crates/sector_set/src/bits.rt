//! Ranges of bits in words of 64.
ghost use Rattle.std.specs.Prelude.{◌≡◌, ◌+◌, ◌*◌, ◌^◌, ◌<◌, ◌≤◌, ◌||◌, ◌&&◌, ℕ, not, length};
ghost use Rattle.sector_set.specs.Bits.{has_bit, is_set, in_range, agrees};

/// The word with the bits from `lo` up to `hi` set.
fn mask(lo: u32, hi: u32) -> u64
    requires within { hi ≤ 64 }
    requires some { lo < 64 × 1 ≤ hi }
    ensures { (i : ℕ) → i < 64 → has_bit result i ≡ in_range lo hi i }
{
    (u64::MAX << lo) & (u64::MAX >> (64 - hi))
}

/// The part of `start..stop` in word `w`.
fn part(w: usize, start: usize, stop: usize) -> u64
    requires room { 64 * w + 64 < 2 ^ 64 }
    requires first { start < 64 * w + 64 }
    requires last { 64 * w < stop }
    ensures { (i : ℕ) → i < 64 → has_bit result i ≡ in_range start stop (64 * w + i) }
{
    let lo = start.max(64 * w) - 64 * w;
    let hi = stop.min(64 * w + 64) - 64 * w;
    mask(lo as u32, hi as u32)
}

/// Sets the bits from `start` up to `stop`.
pub(crate) fn insert(words: &mut [u64], start: usize, stop: usize)
    requires room { length words.old < 2 ^ 32 }
    requires within { stop ≤ 64 * length words.old }
    ensures { (s : ℕ) → is_set words.new s ≡ (is_set words.old s || in_range start stop s) }
{
    for w in start / 64..stop.div_ceil(64) {
        words[w] |= part(w, start, stop);
    }
}

/// Clears the bits from `start` up to `stop`.
pub(crate) fn remove(words: &mut [u64], start: usize, stop: usize)
    requires room { length words.old < 2 ^ 32 }
    requires within { stop ≤ 64 * length words.old }
    ensures { (s : ℕ) → is_set words.new s ≡ (is_set words.old s && not (in_range start stop s)) }
{
    for w in start / 64..stop.div_ceil(64) {
        words[w] &= !part(w, start, stop);
    }
}

/// The word as it is, or with each bit the other way.
fn facing(word: u64, wanted: bool) -> u64
    ensures { (i : ℕ) → i < 64 → has_bit result i ≡ agrees wanted (has_bit word i) }
{
    if wanted { word } else { !word }
}

/// The first bit from `at` on that is set, or that is not set where `wanted` is false; else the number of all bits.
/// A word that has none is passed over as a whole.
pub(crate) fn first(words: &[u64], at: usize, wanted: bool) -> usize
    requires room { length words.now < 2 ^ 32 }
    requires within { at < 64 * length words.now }
    ensures bounds { at ≤ result × result ≤ 64 * length words.now }
    ensures before { (s : ℕ) → at ≤ s → s < result → is_set words.now s ≡ not wanted }
    ensures found { result < 64 * length words.now → is_set words.now result ≡ wanted }
{
    let mut w = at / 64;
    let mut word = facing(words[w], wanted) & (u64::MAX << (at % 64));
    while word == 0 {
        w += 1;
        if w == words.len() {
            return 64 * w;
        }
        word = facing(words[w], wanted);
    }
    64 * w + word.trailing_zeros() as usize
}
