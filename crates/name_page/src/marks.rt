//! Which pages are marked: one flag for each, or a list of those that are.
ghost use Rattle.std.specs.Prelude.{◌≡◌, ◌<◌, Some, false, length, count_by, position};
ghost use Rattle.name_page.specs.Pages.{is_one_of, with_one};

use crate::pages::MOST_CHANGED;
use arrayvec::ArrayVec;

// How many are true.
pub(crate) fn count_true(flags: &[bool]) -> usize
    ensures { result ≡ count_by (λ flag. flag) flags.now }
{
    flags.iter().filter(|flag| **flag).count()
}

// The place of the first that is true.
pub(crate) fn first_true(flags: &[bool]) -> usize
    requires { 0 < count_by (λ flag. flag) flags.now }
    ensures { position (λ flag. flag) flags.now ≡ Some result }
{
    find_true(flags).unwrap()
}

fn find_true(flags: &[bool]) -> Option<usize>
    ensures { result ≡ position (λ flag. flag) flags.now }
{
    flags.iter().position(|flag| *flag)
}

// Appends a page that is not there yet.
pub(crate) fn put_one(pages: &mut ArrayVec<u32, MOST_CHANGED>, page: u32)
    requires { is_one_of pages.old.items page ≡ false → length pages.old.items < MOST_CHANGED }
    ensures { pages.new.items ≡ with_one pages.old.items page }
{
    if !pages.as_slice().contains(&page) {
        pages.push(page);
    }
}
