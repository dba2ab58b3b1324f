//! Records of the log and the anchor: how they are laid, and which record stands where.
#![tactic(auto)]

mod anchor;
mod header;
mod judging;
mod laws;
mod laying;

pub use anchor::{anchor_bytes, closed_bytes, read_anchor, read_closed};
pub use fsd_formats::Anchor;
pub use header::MOST_PAGES;
pub use judging::{Found, Judged, RECORD_BYTES, RECORD_SECTORS, headers, judge, reach};
pub use laws::{
    laid_records_are_good, records_are_good_where_copies_serve, records_read_plainly, records_stay,
    sectors_beyond_a_record_have_no_part, torn_records_are_whole_or_absent,
};
pub use laying::lay;
