//! The frame that bytes begin with.
ghost use Rattle.std.specs.Prelude.{◌≡◌, ◌+◌, ◌≤◌, MatchResult, IfOk, Ok, Err, drop, length};
ghost use Rattle.fsd_texts.specs.Frames.{field_at, frame_at};
ghost use Rattle.desk_wire.specs.Wired.{BeginsWithFrame};

use fsd_texts::NoFrame;

/// The most bytes that a body has.
const MOST_BODY: u32 = 1 << 20;

/// The frame that the bytes begin with, or why they begin with none.
pub(crate) fn first_frame(bytes: &[u8]) -> Result<(u32, &[u8]), NoFrame>
    ensures frame { MatchResult result (λ x. BeginsWithFrame bytes.now x.0 x.1.now) (λ why. frame_at bytes.now ≡ Err why) }
{
    let length = field_of(bytes, MOST_BODY)? as usize;
    let tag = field_of(&bytes[4..], u32::MAX)?;
    let behind = &bytes[8..];
    if behind.len() < length {
        return Err(NoFrame::Short);
    }
    Ok((tag, &behind[..length]))
}

// The number from 1 on that the bytes begin with, at most so great.
fn field_of(bytes: &[u8], most: u32) -> Result<u32, NoFrame>
    ensures field { MatchResult result (λ n. field_at most bytes.now ≡ Ok (n, drop 4 bytes.now)) (λ why. field_at most bytes.now ≡ Err why) }
    ensures there { IfOk result (λ _. 4 ≤ length bytes.now) }
{
    if bytes.len() < 4 {
        return Err(NoFrame::Short);
    }
    let number = u32::from_be_bytes([bytes[0], bytes[1], bytes[2], bytes[3]]);
    if number < 1 || number > most {
        return Err(NoFrame::Bad);
    }
    Ok(number)
}
