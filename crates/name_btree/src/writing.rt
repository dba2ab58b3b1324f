//! Changing a page.
ghost use Rattle.std.specs.Prelude.{◌≡◌, None, true};
ghost use Rattle.std.specs.List.{AllByRecursion};
ghost use Rattle.fsd_formats.specs.NamePage.{Leaf, is_page, FitsEntry};
ghost use Rattle.name_btree.specs.Replace.{IsWritten};
ghost use Rattle.name_page.specs.Pages.{IsReached, MayChange};

use fsd_formats::Entry;
use name_page::{Pages, write_entries};

/// Makes a page a leaf of these entries.
pub(crate) fn put_leaf<T: Pages>(t: &mut T, page: u32, entries: &[Entry])
    requires reached { IsReached (T.step t.old) page }
    requires more { MayChange (T.step t.old) page }
    requires accepted { is_page page 0 (Leaf entries.now) ≡ true }
    requires fits { AllByRecursion FitsEntry entries.now }
    ensures outside { T.outside None t.old t.new }
    ensures written { IsWritten (T.step t.old) (T.step t.new) page (Leaf entries.now) }
{
    write_entries(page, entries, t.change(page));
}
