//! The lines that are said.
ghost use Rattle.std.specs.Prelude.{◌≡◌, ◌≤◌, ◌++◌, length, is_ok, if◌then◌else◌, codes, decimal};
ghost use Rattle.arrayvec.specs.ArrayVec.{array_vec_len};
ghost use Rattle.fsd_texts.specs.declared.line.Line.TheVariants as Says;
ghost use Rattle.fsd_texts.specs.Text.{bad_line_text, cause_text, fault_text, layout_words, newline, refusal_words, refused_line, text};

use crate::laying::{LineText, numbered, paired, put, put_counted, put_key, words};
use fsd_bytes::{Key, Refusal};
use fsd_texts::{Bytes, Cause, Counts, Fault, Line};
use std::alloc::AllocError;
use volume_layout::LayoutFault;

/// Puts the text of a line behind the others, all of it or nothing.
pub fn say_line(line: &Line, out: &mut Bytes) -> Result<(), AllocError>
    ensures { out.new ≡ (if is_ok result then out.old ++ text line.now else out.old) }
{
    let text = lay_line(line);
    out.append(text.as_slice())
}

/// The text of a line, a newline at its end. It wants no memory.
pub fn lay_line(line: &Line) -> LineText
    ensures { result.items ≡ text line.now }
{
    match line {
        Line::Usage => words("usage: cfs COMMAND IMAGE WORDS\n"),
        Line::Bad(bad) => bad_text(bad.line, bad.cause),
        Line::Formatted { sectors, free } => formatted_text(*sectors, *free),
        Line::Unplanned(fault) => unplanned_text(*fault),
        Line::Forced => words("forced\n"),
        Line::Generated(counts) => generated_text(counts),
        Line::Life(life) => numbered("life ", u64::from(*life)),
        Line::Refused(why) => refused_text(*why),
        Line::NoDump(place) => numbered("refused dump ", u64::from(*place)),
        Line::Exists(key) => exists_text(key),
        Line::Restored(count) => numbered("restored ", u64::from(*count)),
        Line::Damaged { key, sector } => damaged_text(key, *sector),
        Line::Ended(fault) => ended_text(*fault),
    }
}

fn formatted_text(sectors: u32, free: u32) -> LineText
    ensures { result.items ≡ text (Says.Formatted sectors free) }
{
    let mut text = words("formatted ");
    put_counted(&mut text, "", u64::from(sectors));
    put_counted(&mut text, " free ", u64::from(free));
    put(&mut text, b"\n");
    text
}

// The line of a generator.
fn generated_text(counts: &Counts) -> LineText
    ensures { result.items ≡ text (Says.Generated counts.now) }
{
    let mut text = changed_text(counts);
    put_others(&mut text, counts);
    text
}

fn changed_text(c: &Counts) -> LineText
    ensures changed { result.items ≡ codes "generated " ++ decimal c.now.count ++ codes " made " ++ decimal c.now.made ++ codes " deleted " ++ decimal c.now.deleted ++ codes " kept " ++ decimal c.now.kept }
    ensures short { array_vec_len result ≤ 111 }
{
    let mut text = words("generated ");
    put_counted(&mut text, "", u64::from(c.count));
    put_counted(&mut text, " made ", u64::from(c.made));
    put_counted(&mut text, " deleted ", u64::from(c.deleted));
    put_counted(&mut text, " kept ", u64::from(c.kept));
    text
}

fn put_others(text: &mut LineText, c: &Counts)
    requires { array_vec_len text.old ≤ 111 }
    ensures { text.new.items ≡ text.old.items ++ (codes " read " ++ decimal c.now.read ++ codes " bytes " ++ decimal c.now.bytes ++ codes " refused " ++ decimal c.now.refused ++ newline) }
{
    put_counted(text, " read ", u64::from(c.read));
    put_counted(text, " bytes ", c.bytes);
    put_counted(text, " refused ", u64::from(c.refused));
    put(text, b"\n");
}

fn bad_text(ordinal: u32, cause: Cause) -> LineText
    ensures { result.items ≡ bad_line_text (record { line = ordinal; cause = cause }) }
{
    let mut text = words("bad line ");
    put_counted(&mut text, "", u64::from(ordinal));
    put(&mut text, b": ");
    put(&mut text, cause_text(cause).as_bytes());
    put(&mut text, b"\n");
    text
}

fn cause_text(cause: Cause) -> &'static str
    ensures cause { result.now ≡ cause_text cause }
    ensures short { length result.now ≤ 22 }
{
    match cause {
        Cause::LongLine => "long line",
        Cause::NoNewline => "no newline",
        Cause::EmptyLine => "empty line",
        Cause::UnknownWord => "unknown word",
        Cause::WordCount => "word count",
        Cause::BadNumber => "bad number",
        Cause::BadName => "bad name",
        Cause::BadKey => "bad key",
        Cause::BadPattern => "bad pattern",
        Cause::ShortBytes => "short bytes",
        Cause::NoNewlineAfterBytes => "no newline after bytes",
    }
}

fn unplanned_text(fault: LayoutFault) -> LineText
    ensures { result.items ≡ refused_line (layout_words fault) }
{
    match fault {
        LayoutFault::BadThird(third) => numbered("refused third ", u64::from(third)),
        LayoutFault::BadPages(pages) => numbered("refused pages ", u64::from(pages)),
        LayoutFault::TooLarge(sectors) => numbered("refused too-large ", u64::from(sectors)),
        LayoutFault::BadMost(most) => numbered("refused most ", u64::from(most)),
        LayoutFault::TooSmall(need) => numbered("refused too-small ", u64::from(need)),
    }
}

fn refused_text(why: Refusal) -> LineText
    ensures { result.items ≡ refused_line (refusal_words why) }
{
    match why {
        Refusal::NoSuch => words("refused no-such\n"),
        Refusal::Exists => words("refused exists\n"),
        Refusal::TooLong(length) => numbered("refused too-long ", length),
        Refusal::NoSpace { need, free } => {
            paired("refused no-space ", u64::from(need), u64::from(free))
        }
        Refusal::TooFragmented { need, best } => {
            paired("refused fragmented ", u64::from(need), u64::from(best))
        }
        Refusal::NameTableFull { free } => numbered("refused table-full ", u64::from(free)),
        Refusal::VersionsUsedUp => words("refused versions-used\n"),
        Refusal::KeepTooLarge(keep) => numbered("refused keep ", u64::from(keep)),
        Refusal::BadClient(client) => numbered("refused client ", u64::from(client)),
        Refusal::Busy(client) => numbered("refused busy ", u64::from(client)),
        Refusal::Idle(client) => numbered("refused idle ", u64::from(client)),
        Refusal::Short { declared, got } => {
            paired("refused short ", u64::from(declared), u64::from(got))
        }
        Refusal::Long { declared, got } => paired("refused long ", u64::from(declared), got),
        Refusal::LayoutIs(number) => numbered("refused layout ", u64::from(number)),
        Refusal::NotLarger(sectors) => numbered("refused size ", u64::from(sectors)),
        Refusal::PastMost(most) => numbered("refused most ", u64::from(most)),
        Refusal::Damaged(_)
        | Refusal::Device(_)
        | Refusal::Down(_)
        | Refusal::Lost { .. }
        | Refusal::Unsound(_)
        | Refusal::WornOut
        | Refusal::Memory => words("refused\n"),
    }
}

fn exists_text(key: &Key) -> LineText
    ensures { result.items ≡ text (Says.Exists key.now) }
{
    let mut text = words("refused exists ");
    put_key(&mut text, key);
    put(&mut text, b"\n");
    text
}

fn damaged_text(key: &Key, sector: u32) -> LineText
    ensures { result.items ≡ text (Says.Damaged key.now sector) }
{
    let mut text = words("damaged ");
    put_key(&mut text, key);
    put_counted(&mut text, " ", u64::from(sector));
    put(&mut text, b"\n");
    text
}

fn ended_text(fault: Fault) -> LineText
    ensures { result.items ≡ fault_text fault }
{
    match fault {
        Fault::NotVolume => words("fault not-a-volume\n"),
        Fault::Lost { a, b } => paired("fault lost ", u64::from(a), u64::from(b)),
        Fault::NoAnchor => words("fault no-anchor 8 12\n"),
        Fault::Unsound(sector) => numbered("fault unsound ", u64::from(sector)),
        Fault::Device(sector) => numbered("fault device ", u64::from(sector)),
        Fault::Input => words("fault input\n"),
        Fault::InputTooLong => words("fault input too long\n"),
        Fault::Memory => words("fault memory\n"),
        Fault::WornOut => words("fault worn out\n"),
    }
}
