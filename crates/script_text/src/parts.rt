//! Lines that are said by their parts.
ghost use Rattle.std.specs.Prelude.{◌≡◌, ◌++◌, IfOk, map};
ghost use Rattle.fsd_texts.specs.Text.{line, part_text};

use crate::laying::{key_text, number_text};
use fsd_texts::{Bytes, Part};
use std::alloc::AllocError;

/// Puts the line of these parts behind the others. Where memory is refused, some of its bytes may stand there.
pub fn say_parts(parts: &[Part<'_>], out: &mut Bytes) -> Result<(), AllocError>
    ensures { IfOk result (λ done. out.new ≡ out.old ++ line (map part_text parts.now)) }
{
    let [first, rest @ ..] = parts else {
        return out.append(b"\n");
    };
    say_part(first, out)?;
    for part in rest {
        out.append(b" ")?;
        say_part(part, out)?;
    }
    out.append(b"\n")
}

fn say_part(part: &Part<'_>, out: &mut Bytes) -> Result<(), AllocError>
    ensures { IfOk result (λ done. out.new ≡ out.old ++ part_text part.now) }
{
    match part {
        Part::Word(word) => out.append(word.as_bytes()),
        Part::Key(key) => out.append(key_text(key).as_slice()),
        Part::Number(number) => out.append(number_text(*number).as_slice()),
    }
}
