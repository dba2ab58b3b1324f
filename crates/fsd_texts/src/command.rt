//! The commands of a volume.
ghost use Rattle.std.specs.Prelude.{◌≡◌};
ghost use Rattle.fsd_texts.specs.Script.{lone_in, lone_words};

use crate::bytes::Bytes;
use crate::numbered_key::NumberedKey;
use fsd_bytes::{FileName, Key, Pattern};

/// What may be asked of a volume.
#[derive(Drop)]
pub enum Command {
    /// A new version of these bytes.
    Put {
        name: FileName,
        bytes: Bytes,
        keep: Option<u32>,
    },
    Delete(Key),
    /// The keep of the name's highest version.
    Keep {
        name: FileName,
        keep: u32,
    },
    /// The version of this key becomes the name's next one.
    Move {
        key: Key,
        name: FileName,
    },
    /// A version of this key, where there is none. No line of a script asks for it.
    Load {
        key: NumberedKey,
        keep: u32,
        bytes: Bytes,
    },
    List(Pattern),
    Get(Key),
    Force,
    Tick,
    Stat,
    /// No line of a script asks for it.
    Scrub,
    /// The volume is one of layout 2 then. No line of a script asks for it.
    Upgrade,
    /// The volume has so many sectors then. No line of a script asks for it.
    Grow(u32),
}

impl Command {
    /// What this word of a script asks for, where it is one that stands alone.
    pub fn lone(word: &[u8]) -> Option<Command>
        ensures { result ≡ lone_in lone_words word.now }
    {
        if word == b"force".as_slice() {
            Some(Command::Force)
        } else if word == b"tick".as_slice() {
            Some(Command::Tick)
        } else if word == b"stat".as_slice() {
            Some(Command::Stat)
        } else {
            None
        }
    }
}
