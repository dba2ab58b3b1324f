//! Frames of bytes that come piece by piece.
ghost use Rattle.std.specs.Prelude.{◌≡◌, ◌<◌, ◌≤◌, ◌+◌, ◌^◌, [], drop, length, is_ok, vec_len};
ghost use Rattle.fsd_texts.specs.Frames.{frame_at};
ghost use Rattle.desk_wire.specs.Wired.{ComesNext, fed_so, made_of, passed};

use crate::next::Next;
use crate::reading::first_frame;
use fsd_texts::NoFrame;
use std::alloc::{AllocError, Global};
use std::marker::Model;

/// Bytes as they come, and the frames that they are.
#[derive(Debug, Drop)]
pub struct Wire {
    // What was fed and is kept. The bytes before `start` are given.
    bytes: Vec<u8>,
    start: usize,
    // How many bytes were given in all.
    place: u64,
}

impl Model for Wire {
    ghost use Rattle.std.specs.Prelude.{drop, vec_len};
    ghost use Rattle.desk_wire.specs.Wired.{IsWired, Wired, wired};

    ghost Value = { Wired };

    ghost view = { λ w. wired (drop w.start w.bytes.items) w.place (vec_len w.bytes) };

    ghost invariant = { λ w. IsWired w.bytes.items w.start w.place };
}

impl Wire {
    /// Nothing is fed yet.
    pub fn new(alloc: Global) -> Wire
        ensures { result ≡ made_of [] 0 }
    {
        Wire {
            bytes: Vec::new(alloc),
            start: 0,
            place: 0,
        }
    }

    /// Takes a piece behind the bytes that wait, all of it or nothing. The bytes that were given are let go.
    pub fn feed(&mut self, piece: &[u8]) -> Result<(), AllocError>
        requires { self.old.place + length self.old.waiting + length piece.now < 2 ^ 64 }
        ensures { self.new ≡ fed_so (is_ok result) piece.now self.old }
    {
        close_up(&mut self.bytes, self.start);
        self.start = 0;
        self.bytes.extend_from_slice(piece)
    }

    /// What the bytes that wait begin with. It takes no memory: a body is lent.
    pub fn next(&self) -> Next<'_>
        ensures { ComesNext result self.now }
    {
        match first_frame(&self.bytes[self.start..]) {
            Ok((tag, body)) => Next::Frame { tag, body },
            Err(NoFrame::Short) => Next::NotYet,
            Err(NoFrame::Bad) => Next::Bad(self.place),
        }
    }

    /// The frame that comes next is given, if one is there.
    pub fn pass(&mut self)
        ensures { self.new ≡ passed (frame_at self.old.waiting) self.old }
    {
        if let Ok((_, body)) = first_frame(&self.bytes[self.start..]) {
            let length = 8 + body.len();
            self.start += length;
            self.place += length as u64;
        }
    }
}

// Drops so many first bytes.
fn close_up(bytes: &mut Vec<u8>, start: usize)
    requires { start ≤ vec_len bytes.old }
    ensures { bytes.new.items ≡ drop start bytes.old.items }
{
    if start > 0 {
        let left = bytes.len() - start;
        bytes.copy_within(start.., 0);
        bytes.truncate(left);
    }
}
