//! Laying a record (docs/FORMAT.md).
ghost use Rattle.std.specs.Prelude.{◌≡◌, ◌+◌, ◌*◌, ◌≤◌, ◌++◌, length, take, drop};
ghost use Rattle.fsd_bytes.specs.Bytes.{zeros};
ghost use Rattle.volume_layout.specs.Kinds.{more};
ghost use Rattle.fsd_formats.specs.Record.{max_pages, record_len};
ghost use Rattle.fsd_log.specs.Laid.{laid_bytes};

use crate::header::{end_bytes, header_bytes};
use volume_layout::Kind;

// Writes bytes from a place on.
fn write_at(out: &mut [u8], place: usize, bytes: &[u8])
    requires { place + length bytes.now ≤ length out.old }
    ensures { out.new ≡ take place out.old ++ (bytes.now ++ drop (place + length bytes.now) out.old) }
{
    out[place..place + bytes.len()].copy_from_slice(bytes);
}

// Writes so many blank sectors from a place on.
fn write_blanks(out: &mut [u8], place: usize, count: usize)
    requires { place + 512 * count ≤ length out.old }
    ensures { out.new ≡ take place out.old ++ (zeros (512 * count) ++ drop (place + 512 * count) out.old) }
{
    out[place..place + 512 * count].fill(0);
}

/// Lays a record in the front of `out`, in `2 * pages.len() + 5` sectors of 512 bytes, two more for a volume that bears
/// three damaged ones. `images` has 512 bytes for each
/// page. It judges good where the pages ascend strictly and each image bears its page, the epoch and the number.
pub fn lay(kind: Kind, epoch: u32, number: u32, pages: &[u32], images: &[u8], out: &mut [u8])
    requires few { length pages.now ≤ max_pages }
    requires images { length images.now ≡ 512 * length pages.now }
    requires room { 512 * record_len (more kind) (length pages.now) ≤ length out.old }
    ensures laid { take (512 * record_len (more kind) (length pages.now)) out.new ≡ laid_bytes (more kind) (record { epoch = epoch; number = number }) pages.now images.now }
    ensures rest { drop (512 * record_len (more kind) (length pages.now)) out.new ≡ drop (512 * record_len (more kind) (length pages.now)) out.old }
{
    let header = header_bytes(epoch, number, pages);
    let end = end_bytes(epoch, number, pages.len() as u16);
    let gap = kind.more() as usize;
    let first = 1536 + 512 * gap;
    let behind = first + images.len();
    let copies = behind + 512 + 512 * gap;
    write_at(out, 0, &header);
    write_blanks(out, 512, 1 + gap);
    write_at(out, 1024 + 512 * gap, &header);
    write_at(out, first, images);
    write_at(out, behind, &end);
    write_blanks(out, behind + 512, gap);
    write_at(out, copies, images);
    write_at(out, copies + images.len(), &end);
}
