//! The frames of a cache in a record: they are stamped, and their images laid.
ghost use Rattle.std.specs.Prelude.{◌≡◌, ◌≤◌, ◌+◌, ◌*◌, IsTrue, length, take, slice_index, EachIndex};
ghost use Rattle.std.specs.List.{flat_map};
ghost use Rattle.fsd_bytes.specs.Bytes.{with_bytes};
ghost use Rattle.fsd_formats.specs.Record.{ascending};
ghost use Rattle.page_cache.specs.Cache.{IsResident, IsCache};
ghost use Rattle.group_commit.specs.Cached.{stamped_frames, frame_bytes};

use name_page::stamp_page;
use page_cache::Cache;

/// Stamps the frames of these pages.
pub(crate) fn stamp_frames(cache: &mut Cache, pages: &[u32], epoch: u32, number: u32)
    requires valid { IsCache cache.old }
    requires inside { EachIndex pages.now (λ k. IsResident cache.old (slice_index pages.now k)) }
    requires ascends { IsTrue (ascending pages.now) }
    ensures { cache.new ≡ stamped_frames (record { epoch = epoch; number = number }) pages.now cache.old }
{
    for page in pages {
        stamp_page(cache.bytes_mut(*page), epoch, number);
    }
}

// Writes an image at a place.
fn put_image(room: &mut [u8], place: usize, image: &[u8; 512])
    requires { place + 512 ≤ length room.old }
    ensures laid { room.new ≡ with_bytes place image.now room.old }
    ensures whole { length image.now ≡ 512 }
{
    room[place..place + 512].copy_from_slice(image);
}

/// Lays the images in the frames of these pages one after another.
pub(crate) fn lay_frames(cache: &Cache, pages: &[u32], room: &mut [u8])
    requires inside { EachIndex pages.now (λ k. IsResident cache.now (slice_index pages.now k)) }
    requires fits { 512 * length pages.now ≤ length room.old }
    ensures laid { take (512 * length pages.now) room.new ≡ flat_map (frame_bytes cache.now) pages.now }
    ensures whole { EachIndex pages.now (λ k. length (frame_bytes cache.now (slice_index pages.now k)) ≡ 512) }
{
    for (k, page) in pages.iter().enumerate() {
        put_image(room, 512 * k, cache.bytes(*page));
    }
}
