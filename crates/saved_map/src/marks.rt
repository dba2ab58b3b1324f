//! What a saved map marks.
ghost use Rattle.std.specs.Prelude.{◌≡◌, ◌-◌, ◌&&◌, false, length, nat_le, nat_lt, slice_index_or};
ghost use Rattle.volume_layout.specs.Layout.{home_a};
ghost use Rattle.fsd_formats.specs.SavedMap.{is_first_home};
ghost use Rattle.saved_map.specs.Marks.{is_marked, AreOf};

use alloc_map::Map;
use volume_layout::Layout;

/// Whether a sector lies in an interval.
pub(crate) fn lies_in(from: u32, to: u32, s: u32) -> bool
    ensures { result ≡ (nat_le from s && nat_lt s to) }
{
    from <= s && s < to
}

/// The first home of page 0.
pub(crate) fn first_home(l: &Layout) -> u32
    ensures { result ≡ home_a l.now 0 }
{
    l.third_start(2) + l.third()
}

// Whether a sector is the first home of a free page.
fn is_free_page(l: &Layout, free_pages: &[bool], s: u32) -> bool
    requires pages { length free_pages.now ≡ l.now.pages }
    ensures { result ≡ (is_first_home l.now s && slice_index_or free_pages.now (s - home_a l.now 0) false) }
{
    let home = first_home(l);
    lies_in(home, home + l.pages(), s) && free_pages[(s - home) as usize]
}

/// Whether a sector is marked: it is free, or the first home of a free page.
pub(crate) fn is_marked(l: &Layout, map: &Map, free_pages: &[bool], s: u32) -> bool
    requires of { AreOf l.now map.now free_pages.now }
    ensures { result ≡ is_marked l.now map.now.sectors free_pages.now s }
{
    if lies_in(l.data_start(), l.sectors(), s) {
        map.is_free(s)
    } else {
        is_free_page(l, free_pages, s)
    }
}
