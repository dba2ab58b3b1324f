//! A frame as bytes.
ghost use Rattle.std.specs.Prelude.{◌≡◌, ◌<◌, ◌^◌, ◌++◌, length, is_ok, if◌then◌else◌};
ghost use Rattle.fsd_texts.specs.Frames.{frame_text};
ghost use Rattle.desk_wire.specs.Wired.{LaysFrame};

use std::alloc::AllocError;

/// Puts a frame behind the others, all of it or nothing.
pub fn frame(tag: u32, text: &[u8], out: &mut Vec<u8>) -> Result<(), AllocError>
    requires { length text.now < 2 ^ 32 }
    ensures { out.new.items ≡ (if is_ok result then out.old.items ++ frame_text tag text.now else out.old.items) }
{
    let held = out.len();
    let laid = lay(tag, text, out);
    if laid.is_err() {
        out.truncate(held);
    }
    laid
}

// Puts a frame behind the others, or some of it.
fn lay(tag: u32, text: &[u8], out: &mut Vec<u8>) -> Result<(), AllocError>
    requires { length text.now < 2 ^ 32 }
    ensures { LaysFrame tag text.now result out.old.items out.new.items }
{
    let length = text.len() as u32;
    out.extend_from_slice(&length.to_be_bytes())?;
    out.extend_from_slice(&tag.to_be_bytes())?;
    out.extend_from_slice(text)
}
