//! Lists of separators, to be written into an interior page.
ghost use Rattle.std.specs.Prelude.{◌≡◌, ◌≤◌, ◌<◌, ◌+◌, ◌-◌, ◌++◌, ◌∷◌, Some, length, take, drop, slice_get, true, false};
ghost use Rattle.fsd_formats.specs.declared.page.Separator.{Separator};
ghost use Rattle.std.specs.List.{AllByRecursion};
ghost use Rattle.fsd_formats.specs.NamePage.{FitsSeparator};
ghost use Rattle.name_page.specs.Cut.{is_before};

use crate::cut::Cut;
use crate::node::Ways;
use arrayvec::ArrayVec;
use fsd_bytes::Key;
use fsd_formats::Separator;

/// One separator more than an interior page has room for.
pub type SeparatorList = ArrayVec<Separator, 10>;

// Appends the first separators of a page.
fn put_front(list: &mut SeparatorList, ways: &Ways, count: u32)
    requires within { count ≤ length ways.now.1 }
    requires room { length list.old.items + count ≤ 10 }
    requires fits { AllByRecursion FitsSeparator list.old.items }
    ensures separators { list.new.items ≡ list.old.items ++ take count ways.now.1 }
    ensures fits { AllByRecursion FitsSeparator list.new.items }
{
    for i in 0..count {
        list.push(ways.get(i));
    }
}

// Appends the separators of a page behind the first ones.
fn put_behind(list: &mut SeparatorList, ways: &Ways, count: u32)
    requires within { count ≤ length ways.now.1 }
    requires room { length list.old.items + (length ways.now.1 - count) ≤ 10 }
    requires fits { AllByRecursion FitsSeparator list.old.items }
    ensures separators { list.new.items ≡ list.old.items ++ drop count ways.now.1 }
    ensures fits { AllByRecursion FitsSeparator list.new.items }
{
    for i in count..ways.len() {
        list.push(ways.get(i));
    }
}

/// The separators of a page with one more, behind the first ones.
pub fn ways_with(ways: &Ways, count: u32, separator: Separator) -> SeparatorList
    requires within { count ≤ length ways.now.1 }
    requires room { length ways.now.1 ≤ 9 }
    requires fits { FitsSeparator separator }
    ensures separators { result.items ≡ take count ways.now.1 ++ separator ∷ drop count ways.now.1 }
    ensures fits { AllByRecursion FitsSeparator result.items }
{
    let mut list = ArrayVec::new();
    put_front(&mut list, ways, count);
    list.push(separator);
    put_behind(&mut list, ways, count);
    list
}

/// The separators of a page without one of them.
pub fn ways_without(ways: &Ways, i: u32) -> SeparatorList
    requires within { i < length ways.now.1 }
    requires room { length ways.now.1 ≤ 9 }
    ensures separators { result.items ≡ take i ways.now.1 ++ drop (i + 1) ways.now.1 }
    ensures fits { AllByRecursion FitsSeparator result.items }
{
    let mut list = ArrayVec::new();
    put_front(&mut list, ways, i);
    put_behind(&mut list, ways, i + 1);
    list
}

/// The separators of a page with another in the place of one.
pub fn ways_replaced(ways: &Ways, i: u32, separator: Separator) -> SeparatorList
    requires within { i < length ways.now.1 }
    requires room { length ways.now.1 ≤ 9 }
    requires fits { FitsSeparator separator }
    ensures separators { result.items ≡ take i ways.now.1 ++ separator ∷ drop (i + 1) ways.now.1 }
    ensures fits { AllByRecursion FitsSeparator result.items }
{
    let mut list = ArrayVec::new();
    put_front(&mut list, ways, i);
    list.push(separator);
    put_behind(&mut list, ways, i + 1);
    list
}

// Whether separator `i` stands before a place.
fn is_before(ways: &Ways, i: u32, cut: &Cut) -> bool
    requires { i < length ways.now.1 }
    ensures { (s : Separator) × (slice_get ways.now.1 i ≡ Some s) × (result ≡ is_before cut.now s.key) }
{
    match cut {
        Cut::UpTo(last) => !ways.compare(i, last).is_gt(),
        other => other.is_before(&ways.get(i).key),
    }
}

/// How many separators of a page stand before a place.
pub fn ways_before(ways: &Ways, cut: &Cut) -> u32
    ensures within { result ≤ length ways.now.1 }
    ensures before { AllByRecursion (λ s. is_before cut.now s.key ≡ true) (take result ways.now.1) }
    ensures behind { AllByRecursion (λ s. is_before cut.now s.key ≡ false) (drop result ways.now.1) }
{
    for i in 0..ways.len() {
        if !is_before(ways, i, cut) {
            return i;
        }
    }
    ways.len()
}

/// The separators of a page, as a list.
pub fn listed_ways(ways: &Ways) -> SeparatorList
    requires { length ways.now.1 ≤ 9 }
    ensures separators { result.items ≡ ways.now.1 }
    ensures fits { AllByRecursion FitsSeparator result.items }
{
    let mut list = ArrayVec::new();
    put_behind(&mut list, ways, 0);
    list
}

/// The separators of a page of few, of a neighbour, and the one between them.
pub type WideList = ArrayVec<Separator, 13>;

// Appends separators.
fn put_all(list: &mut WideList, separators: &[Separator])
    requires room { length list.old.items + length separators.now ≤ 13 }
    requires old { AllByRecursion FitsSeparator list.old.items }
    requires fits { AllByRecursion FitsSeparator separators.now }
    ensures separators { list.new.items ≡ list.old.items ++ separators.now }
    ensures fits { AllByRecursion FitsSeparator list.new.items }
{
    for separator in separators {
        list.push(Separator {
            key: separator.key.copied(),
            child: separator.child,
        });
    }
}

/// The separators of two pages side by side, and between them the one that leads to the first child of the second.
pub fn joined_ways(left: &[Separator], key: Key, first: u32, right: &[Separator]) -> WideList
    requires room { length left.now + length right.now ≤ 12 }
    requires left { AllByRecursion FitsSeparator left.now }
    requires between { FitsSeparator (record { key = key; child = first }) }
    requires right { AllByRecursion FitsSeparator right.now }
    ensures separators { result.items ≡ left.now ++ record { key = key; child = first } ∷ right.now }
    ensures fits { AllByRecursion FitsSeparator result.items }
{
    let mut list = ArrayVec::new();
    put_all(&mut list, left);
    list.push(Separator { key, child: first });
    put_all(&mut list, right);
    list
}
