//! Fields at the front of some bytes, which may end inside them.
ghost use Rattle.std.specs.Prelude.{◌≡◌, ◌≤◌, drop, length, slice_index_or};
ghost use Rattle.fsd_dumps.specs.Front.{common, first_16, first_32};

/// The byte at a place, or another where none is.
pub(crate) fn byte_or(bytes: &[u8], place: usize, lacking: u8) -> u8
    ensures { result ≡ slice_index_or bytes.now place lacking }
{
    match bytes.get(place) {
        Some(byte) => *byte,
        None => lacking,
    }
}

/// The bytes from a place on, if it is not past the end.
pub(crate) fn from(bytes: &[u8], place: usize) -> &[u8]
    ensures { result.now ≡ drop place bytes.now }
{
    &bytes[place.min(bytes.len())..]
}

/// The number of two bytes.
pub(crate) fn first_16(bytes: &[u8], lacking: u8) -> u16
    ensures { result ≡ first_16 lacking bytes.now }
{
    u16::from_be_bytes([byte_or(bytes, 0, lacking), byte_or(bytes, 1, lacking)])
}

/// The number of four bytes.
pub(crate) fn first_32(bytes: &[u8], lacking: u8) -> u32
    ensures { result ≡ first_32 lacking bytes.now }
{
    u32::from_be_bytes([
        byte_or(bytes, 0, lacking),
        byte_or(bytes, 1, lacking),
        byte_or(bytes, 2, lacking),
        byte_or(bytes, 3, lacking),
    ])
}

/// How many bytes two lists have in common from the front.
pub(crate) fn common(text: &[u8], bytes: &[u8]) -> usize
    ensures count { result ≡ common text.now bytes.now }
    ensures within { result ≤ length bytes.now }
{
    let most = text.len().min(bytes.len());
    for place in 0..most {
        if text[place] != bytes[place] {
            return place;
        }
    }
    most
}
