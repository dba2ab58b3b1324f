//! How a record lies on a volume of some layout.
ghost use Rattle.std.specs.Prelude.{◌≡◌, ◌≤◌, ◌<◌, ◌+◌, ◌*◌, ◌^◌, length};
ghost use Rattle.volume_layout.specs.Kinds.{gap_of};
ghost use Rattle.fsd_log.specs.Judged.{judged};
ghost use Rattle.log_record.specs.Found.{IsCounted, found_in, read_of};

use log_record::Judged;
use volume_layout::Layout;

/// The sectors of a record of so many pages.
pub(crate) fn record_sectors(layout: &Layout, n: u32) -> u32
    requires { 2 * n + (5 + 2 * gap_of layout.now) < 2 ^ 32 }
    ensures { result ≡ 2 * n + (5 + 2 * gap_of layout.now) }
{
    2 * n + (5 + 2 * layout.kind().more())
}

/// Where the copies of the pages begin in a record at a place.
pub(crate) fn copies_place(layout: &Layout, place: u32, n: u32) -> u32
    requires { place + (2 * n + (5 + 2 * gap_of layout.now)) < 2 ^ 32 }
    ensures { result ≡ place + (4 + 2 * gap_of layout.now + n) }
{
    place + (4 + 2 * layout.kind().more() + n)
}

/// The record of this epoch and number that begins these sectors.
pub(crate) fn judge(
    layout: &Layout,
    whole: &[bool],
    bytes: &[u8],
    p: u32,
    epoch: u32,
    number: u32,
) -> Judged
    requires { length bytes.now ≡ 512 * length whole.now }
    ensures judged { found_in result ≡ judged (gap_of layout.now) p (record { epoch = epoch; number = number }) (length whole.now) (read_of whole.now bytes.now) }
    ensures count { IsCounted result }
{
    log_record::judge(layout.kind(), whole, bytes, p, epoch, number)
}
