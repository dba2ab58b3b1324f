//! What a client is to do.
use crate::bytes::Bytes;
use fsd_bytes::{FileName, Key};

/// What a client is to do, which makes one version in pieces or reads one.
#[derive(Drop)]
pub enum Call {
    /// It begins a version of so many bytes.
    Begin { name: FileName, length: u32 },
    /// These bytes come behind those that it has of it.
    Piece(Bytes),
    /// It has all of them.
    Close,
    /// It gives the version up.
    Drop,
    /// It opens a version.
    Open(Key),
    /// It reads so many next bytes of it.
    Next(u32),
    /// It is done with it.
    Done,
}
