//! Lines that are no commands.

/// Why no command stands there: the first cause, in the order of the variants;
/// of fields, that of the first bad one from the left.
#[derive(Clone, Copy, Debug, PartialEq)]
pub enum Cause {
    /// More than 128 bytes without a newline.
    LongLine,
    /// The input ends inside the line.
    NoNewline,
    /// No byte stands in front of the newline.
    EmptyLine,
    /// The first word is no command.
    UnknownWord,
    /// The command takes more words, or fewer.
    WordCount,
    /// A field is no plain decimal below 2^32, or has a zero in front of other digits.
    BadNumber,
    /// A field is not 1 to 40 letters, digits and `. - _ + /`.
    BadName,
    /// A field is no name with `!` and a version from 1 on behind it.
    BadKey,
    /// A field is neither a name nor up to 40 of its bytes and a `*`.
    BadPattern,
    /// The input ends inside the bytes behind the line, or right behind them.
    ShortBytes,
    /// A byte that is no newline stands right behind them.
    NoNewlineAfterBytes,
}

/// What is no command, by its ordinal among the commands from 1 on, and why. Ordinal 0 is the words of the program.
#[derive(Clone, Copy, Debug, PartialEq)]
pub struct BadLine {
    pub line: u32,
    pub cause: Cause,
}
