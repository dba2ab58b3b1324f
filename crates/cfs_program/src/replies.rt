//! How replies are said.
ghost use Rattle.std.specs.Prelude.{◌≡◌, ◌++◌, IfOk, map};
ghost use Rattle.std.specs.List.{flat_map};
ghost use Rattle.fsd_files.specs.declared.reply.Reply.TheVariants as Said;
ghost use Rattle.fsd_runs.specs.Commands.{found_text, reply_text, version_text};
ghost use Rattle.fsd_texts.specs.Text.{line, newline, part_text, text};
ghost use Rattle.cfs_program.specs.Replies.{alone_replies, script_replies};

use fsd_bytes::Key;
use fsd_files::Reply;
use fsd_formats::Entry;
use fsd_texts::Part::{Number, Word};
use fsd_texts::{Bytes, Line, Part};
use script_text::{say_line, say_parts};
use std::alloc::{AllocError, Global};
use volume_turns::Says;

/// The replies of one command by itself: a get says the bytes alone.
pub struct Alone;

impl Says for Alone {
    ghost errand = { alone_replies };

    // All is forced before a reply is said.
    fn forces(_answer: &Reply) -> bool {
        true
    }

    fn text(alloc: Global, answer: &Reply) -> Result<Vec<u8>, AllocError> {
        match answer {
            Reply::Bytes { bytes, .. } => Vec::from_slice(alloc, bytes.as_slice()),
            _ => text_of(alloc, answer),
        }
    }
}

/// The replies of a script.
pub struct Scripted;

impl Says for Scripted {
    ghost errand = { script_replies };

    fn forces(answer: &Reply) -> bool {
        matches!(answer, Reply::Forced)
    }

    fn text(alloc: Global, answer: &Reply) -> Result<Vec<u8>, AllocError> {
        text_of(alloc, answer)
    }
}

// What a script says of an answer.
fn text_of(alloc: Global, answer: &Reply) -> Result<Vec<u8>, AllocError>
    ensures { IfOk result (λ said. said.items ≡ reply_text answer.now) }
{
    match answer {
        Reply::Refused(why) => line_text(alloc, &Line::Refused(*why)),
        Reply::Made { key, sectors } => parts_text(
            alloc,
            &[Word("made"), Part::Key(key), Number(u64::from(*sectors))],
        ),
        Reply::Loaded(key) => parts_text(alloc, &[Word("loaded"), Part::Key(key)]),
        Reply::Deleted(key) => parts_text(alloc, &[Word("deleted"), Part::Key(key)]),
        Reply::Kept { key, keep } => parts_text(
            alloc,
            &[Word("kept"), Part::Key(key), Number(u64::from(*keep))],
        ),
        Reply::Moved { from, to } => {
            parts_text(alloc, &[Word("moved"), Part::Key(from), Part::Key(to)])
        }
        Reply::Listed(entries) => list_text(alloc, entries.as_slice()),
        Reply::Bytes { key, bytes } => bytes_text(alloc, key, bytes.as_slice()),
        Reply::DamagedAt { key, sector } => parts_text(
            alloc,
            &[Word("damaged"), Part::Key(key), Number(u64::from(*sector))],
        ),
        Reply::Forced => line_text(alloc, &Line::Forced),
        Reply::Counts {
            free,
            waiting,
            pages,
            versions,
        } => parts_text(
            alloc,
            &[
                Word("stat"),
                Word("free"),
                Number(u64::from(*free)),
                Word("waiting"),
                Number(u64::from(*waiting)),
                Word("pages"),
                Number(u64::from(*pages)),
                Word("versions"),
                Number(u64::from(*versions)),
            ],
        ),
        Reply::Scrubbed { found, healed } => scrub_text(alloc, found.as_slice(), *healed),
        Reply::Grown { sectors, free } => parts_text(
            alloc,
            &[
                Word("grown"),
                Number(u64::from(*sectors)),
                Word("free"),
                Number(u64::from(*free)),
            ],
        ),
        Reply::Upgraded => parts_text(alloc, &[Word("upgraded"), Word("2")]),
        Reply::Begun(client) => parts_text(alloc, &[Word("begun"), Number(u64::from(*client))]),
        Reply::Took { client, sum } => parts_text(
            alloc,
            &[
                Word("took"),
                Number(u64::from(*client)),
                Number(u64::from(*sum)),
            ],
        ),
        Reply::Dropped(client) => parts_text(alloc, &[Word("dropped"), Number(u64::from(*client))]),
        Reply::Opened { client, length } => parts_text(
            alloc,
            &[
                Word("opened"),
                Number(u64::from(*client)),
                Number(u64::from(*length)),
            ],
        ),
        Reply::Given { client, bytes } => given_text(alloc, *client, bytes.as_slice()),
        Reply::Done(client) => parts_text(alloc, &[Word("done"), Number(u64::from(*client))]),
        Reply::Found(_) => Ok(Vec::new(alloc)),
    }
}

// The text of one line.
fn line_text(alloc: Global, line: &Line) -> Result<Vec<u8>, AllocError>
    ensures { IfOk result (λ said. said.items ≡ text line.now) }
{
    let mut said = Bytes::new(alloc);
    say_line(line, &mut said)?;
    Vec::from_slice(alloc, said.as_slice())
}

// The text of the line of these parts.
fn parts_text(alloc: Global, parts: &[Part<'_>]) -> Result<Vec<u8>, AllocError>
    ensures { IfOk result (λ said. said.items ≡ line (map part_text parts.now)) }
{
    let mut said = Bytes::new(alloc);
    say_parts(parts, &mut said)?;
    Vec::from_slice(alloc, said.as_slice())
}

// The damaged data sectors, a line for each, and the numbers of those healed and of these.
fn scrub_text(alloc: Global, found: &[(Key, u32)], healed: u32) -> Result<Vec<u8>, AllocError>
    ensures { IfOk result (λ said. said.items ≡ reply_text (Said.Scrubbed found.now healed)) }
{
    let mut said = damage_text(alloc, found)?;
    say_parts(
        &[
            Word("scrubbed"),
            Word("healed"),
            Number(u64::from(healed)),
            Word("damaged"),
            Number(found.len() as u64),
        ],
        &mut said,
    )?;
    Vec::from_slice(alloc, said.as_slice())
}

fn damage_text(alloc: Global, found: &[(Key, u32)]) -> Result<Bytes, AllocError>
    ensures { IfOk result (λ said. said ≡ found_text found.now) }
{
    let mut said = Bytes::new(alloc);
    for x in found {
        say_parts(
            &[Word("damaged"), Part::Key(&x.0), Number(u64::from(x.1))],
            &mut said,
        )?;
    }
    Ok(said)
}

// The versions, a line for each, and their number.
fn list_text(alloc: Global, entries: &[Entry]) -> Result<Vec<u8>, AllocError>
    ensures { IfOk result (λ said. said.items ≡ reply_text (Said.Listed entries.now)) }
{
    let mut said = versions_text(alloc, entries)?;
    say_parts(&[Word("listed"), Number(entries.len() as u64)], &mut said)?;
    Vec::from_slice(alloc, said.as_slice())
}

fn versions_text(alloc: Global, entries: &[Entry]) -> Result<Bytes, AllocError>
    ensures { IfOk result (λ said. said ≡ flat_map (λ e. version_text e.key e.length e.keep) entries.now) }
{
    let mut said = Bytes::new(alloc);
    for e in entries {
        say_version(e, &mut said)?;
    }
    Ok(said)
}

// One version of a list.
fn say_version(e: &Entry, said: &mut Bytes) -> Result<(), AllocError>
    ensures { IfOk result (λ done. said.new ≡ said.old ++ version_text e.now.key e.now.length e.now.keep) }
{
    let sectors = 1 + e.length.div_ceil(512);
    say_parts(
        &[
            Part::Key(&e.key),
            Number(u64::from(e.length)),
            Number(u64::from(sectors)),
            Number(u64::from(e.keep)),
        ],
        said,
    )
}

// The bytes of a version behind the line that tells their number.
fn bytes_text(alloc: Global, key: &Key, bytes: &[u8]) -> Result<Vec<u8>, AllocError>
    ensures { IfOk result (λ said. said.items ≡ reply_text (Said.Bytes key.now bytes.now)) }
{
    text_before(
        alloc,
        &[Word("bytes"), Part::Key(key), Number(bytes.len() as u64)],
        bytes,
    )
}

// So it is of the next bytes that a client has.
fn given_text(alloc: Global, client: u32, bytes: &[u8]) -> Result<Vec<u8>, AllocError>
    ensures { IfOk result (λ said. said.items ≡ reply_text (Said.Given client bytes.now)) }
{
    text_before(
        alloc,
        &[
            Word("next"),
            Number(u64::from(client)),
            Number(bytes.len() as u64),
        ],
        bytes,
    )
}

// A line, and behind it bytes and a newline.
fn text_before(alloc: Global, parts: &[Part<'_>], bytes: &[u8]) -> Result<Vec<u8>, AllocError>
    ensures { IfOk result (λ said. said.items ≡ line (map part_text parts.now) ++ bytes.now ++ newline) }
{
    let mut said = Bytes::new(alloc);
    say_parts(parts, &mut said)?;
    said.append(bytes)?;
    said.append(b"\n")?;
    Vec::from_slice(alloc, said.as_slice())
}
