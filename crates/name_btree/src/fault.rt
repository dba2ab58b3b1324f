//! Why a call of the table fails.
use fsd_bytes::Refusal;

/// Why a call of the table fails. It has then changed nothing.
#[derive(Clone, Copy, Debug, PartialEq)]
pub enum TreeFault {
    /// The pages refused one.
    Pages(Refusal),
    /// This page breaks the order or the shape of the table.
    Broken(u32),
}
