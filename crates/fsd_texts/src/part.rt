//! The parts of lines that are said.
use fsd_bytes::Key;

/// A part of a line: a space stands between each two.
#[derive(Drop)]
pub enum Part<'a> {
    Word(&'a str),
    Key(&'a Key),
    Number(u64),
}
