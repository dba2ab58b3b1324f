//! What is left in a page, which joins a neighbour or shares with it where it is too little for one.
ghost use Rattle.std.specs.Prelude.{◌≡◌, ◌≢◌, ◌+◌, ◌-◌, ◌==◌, ◌<◌, ◌≤◌, ℕ, List, ◌∷◌, ◌++◌, OnOk, IfOk, IfErr, IfSome, Some, None, length, true, false, if◌then◌else◌};
ghost use Rattle.std.specs.List.{AllByRecursion};
ghost use Rattle.fsd_bytes.specs.Keys.{is_key};
ghost use Rattle.fsd_formats.specs.NamePage.{is_page, room, FitsEntry, FitsSeparator};
ghost use Rattle.fsd_formats.specs.NamePage as grammar;
ghost use Rattle.fsd_table.specs.Pages.{page_at, children, entry_keys, separator_keys};
ghost use Rattle.name_btree.specs.declared.trimming.Trimmed.TheVariants.{Whole};
ghost use Rattle.name_btree.specs.Draft.{drafted, IsTreeDraft, IsDrafted, with_freed};
ghost use Rattle.name_btree.specs.Fault.{outer_told, FailsBy};
ghost use Rattle.name_btree.specs.Remove.{IsRootLeft};
ghost use Rattle.name_btree.specs.Trim.{IsFreeOrNone, child_of, AreEntries, AreWays, MayHave, IsOpenedPage, AreFewEntries, AreFewWays, IsLeafPut, AreWaysPut, IsPair, pair_fits, IsBetween, separators_joined, separators_shared, AreLeavesMended, AreWaysMended, both_entries, ways_at, first_at, right_at, is_behind, LeafIsMended, WayIsMended, HasNoLeaf, HasNoWays, IsLeft, IsTrimmedAbove, IsUnlike, IsTakenOver};
ghost use Rattle.name_page.specs.declared.node.Node.TheVariants.{Free};
ghost use Rattle.name_page.specs.Node.{content_of};
ghost use Rattle.name_page.specs.declared.pages.TheConstants.{MOST_CHANGED};
ghost use Rattle.name_page.specs.declared.writing.TheConstants.{LEAST_USED};
ghost use Rattle.name_page.specs.Looks.{OnlyReaches, ShowsEach};
ghost use Rattle.name_page.specs.Pages.{reaches, with_images, IsReached};
ghost use Rattle.name_page.specs.Parting.{used_by};

use crate::draft::Draft;
use crate::fault::TreeFault;
use crate::walking::child_at;
use fsd_bytes::Key;
use fsd_formats::{Entry, Separator};
use fsd_table::Child;
use name_page::{
    EntryList, Fuller, JoinedList, LEAST_USED, Node, PAGE_ROOM, Pages, SeparatorList, Ways,
    WideList, joined, joined_ways, leaf_cut, listed, listed_ways, used, ways_replaced,
    ways_without,
};

/// What is left of a page: it has all of it, or it is too little for a page.
#[derive(Drop)]
pub(crate) enum Trimmed {
    Whole,
    Leaf(EntryList),
    Interior(u32, SeparatorList),
}

/// Two children side by side, by the place of the separator between them.
#[derive(Clone, Copy)]
pub(crate) struct Pair {
    place: u32,
    left: u32,
    right: u32,
}

// The first child and the separators of two pages side by side.
#[derive(Drop)]
struct JoinedWays {
    first: u32,
    list: WideList,
}

/// The page is to be a leaf of these entries, if they are enough.
pub(crate) fn trim_leaf<T: Pages>(
    t: &T,
    draft: &mut Draft,
    page: u32,
    entries: EntryList,
) -> Trimmed
    requires room { length draft.old.sheets.items < MOST_CHANGED }
    requires draft { IsTreeDraft (T.step t.now) draft.old }
    requires page { MayHave (T.step t.now) page }
    requires entries { AreEntries entries.items }
    requires most { used_by entries.items ≤ room }
    ensures draft { IsTreeDraft (T.step t.now) draft.new }
    ensures freed { draft.new.freed.items ≡ draft.old.freed.items }
    ensures put { IsLeafPut (T.step t.now) draft.old.sheets.items draft.new.sheets.items page entries.items result }
    ensures root { IsRootLeft page result }
{
    if page != 0 && used(entries.as_slice()) < LEAST_USED {
        return Trimmed::Leaf(entries);
    }
    draft.put_leaf(t, page, entries.as_slice());
    Trimmed::Whole
}

// The page is to have these ways, if they are enough.
fn trim_ways<T: Pages>(
    t: &T,
    draft: &mut Draft,
    page: u32,
    first: u32,
    separators: SeparatorList,
) -> Trimmed
    requires room { length draft.old.sheets.items < MOST_CHANGED }
    requires draft { IsTreeDraft (T.step t.now) draft.old }
    requires page { MayHave (T.step t.now) page }
    requires ways { AreWays (length (T.step t.now).images) first separators.items }
    requires fits { AllByRecursion FitsSeparator separators.items }
    requires most { length separators.items ≤ 9 }
    ensures draft { IsTreeDraft (T.step t.now) draft.new }
    ensures freed { draft.new.freed.items ≡ draft.old.freed.items }
    ensures put { AreWaysPut (T.step t.now) draft.old.sheets.items draft.new.sheets.items page first separators.items result }
{
    let least = if page == 0 { 1 } else { 4 };
    if separators.len() < least {
        return Trimmed::Interior(first, separators);
    }
    draft.put_ways(t, page, first, separators.as_slice());
    Trimmed::Whole
}

// The place of the neighbour of child `i`: the one before it, if there is one.
fn neighbour_of(i: u32) -> u32
    ensures { result ≡ (if i == 0 then 1 else i - 1) }
{
    if i == 0 { 1 } else { i - 1 }
}

// Child `i` and its neighbour.
fn pair_with(ways: &Ways, i: u32, above: &Child) -> Pair
    requires some { 1 ≤ length ways.now.1 }
    requires within { i ≤ length ways.now.1 }
    ensures place { result.place ≡ i - 1 }
    ensures pair { IsPair above.now ways.now.0 ways.now.1 result }
{
    let place = i.saturating_sub(1);
    Pair {
        place,
        left: child_at(ways, place, above).page,
        right: child_at(ways, place + 1, above).page,
    }
}

// The second of a pair goes, and the separator between them.
fn join_pair<T: Pages>(t: &T, draft: &mut Draft, above: &Child, ways: &Ways, pair: Pair) -> Trimmed
    requires room { length draft.old.sheets.items < MOST_CHANGED }
    requires freed { length draft.old.freed.items < 20 }
    requires draft { IsTreeDraft (T.step t.now) draft.old }
    requires page { MayHave (T.step t.now) above.now.page }
    requires right { MayHave (T.step t.now) pair.right }
    requires ways { IsOpenedPage (length (T.step t.now).images) above.now ways.now.0 ways.now.1 }
    requires pair { IsPair above.now ways.now.0 ways.now.1 pair }
    ensures draft { IsTreeDraft (T.step t.now) draft.new }
    ensures freed { draft.new.freed.items ≡ with_freed pair.right draft.old.freed.items }
    ensures put { AreWaysPut (T.step t.now) draft.old.sheets.items draft.new.sheets.items above.now.page ways.now.0 (separators_joined ways.now.1 pair) result }
{
    draft.free(t, pair.right);
    trim_ways(
        t,
        draft,
        above.page,
        ways.first(),
        ways_without(ways, pair.place),
    )
}

// Another separator stands between a pair.
fn share_pair<T: Pages>(
    t: &T,
    draft: &mut Draft,
    above: &Child,
    ways: &Ways,
    pair: Pair,
    key: Key,
) -> Trimmed
    requires room { length draft.old.sheets.items < MOST_CHANGED }
    requires draft { IsTreeDraft (T.step t.now) draft.old }
    requires page { MayHave (T.step t.now) above.now.page }
    requires right { IsReached (T.step t.now) pair.right }
    requires ways { IsOpenedPage (length (T.step t.now).images) above.now ways.now.0 ways.now.1 }
    requires pair { IsPair above.now ways.now.0 ways.now.1 pair }
    requires key { is_key key ≡ true }
    requires fits { FitsSeparator (record { key = key; child = pair.right }) }
    requires between { IsBetween above.now ways.now.0 ways.now.1 pair key }
    ensures draft { IsTreeDraft (T.step t.now) draft.new }
    ensures freed { draft.new.freed.items ≡ draft.old.freed.items }
    ensures put { IsDrafted (T.step t.now) draft.old.sheets.items draft.new.sheets.items above.now.page (grammar.Interior ways.now.0 (separators_shared ways.now.1 pair key)) }
    ensures whole { result ≡ Whole }
{
    let separator = Separator {
        key,
        child: pair.right,
    };
    let separators = ways_replaced(ways, pair.place, separator);
    draft.put_ways(t, above.page, ways.first(), separators.as_slice());
    Trimmed::Whole
}

// Two leaves have these entries, or one of them has.
fn put_leaves<T: Pages>(
    t: &T,
    draft: &mut Draft,
    above: &Child,
    ways: &Ways,
    pair: Pair,
    list: &[Entry],
) -> Trimmed
    requires room { length draft.old.sheets.items ≤ 37 }
    requires freed { length draft.old.freed.items < 20 }
    requires draft { IsTreeDraft (T.step t.now) draft.old }
    requires page { MayHave (T.step t.now) above.now.page }
    requires left { MayHave (T.step t.now) pair.left }
    requires right { MayHave (T.step t.now) pair.right }
    requires ways { IsOpenedPage (length (T.step t.now).images) above.now ways.now.0 ways.now.1 }
    requires pair { IsPair above.now ways.now.0 ways.now.1 pair }
    requires few { length list.now ≤ 38 }
    requires entries { AreEntries list.now }
    requires least { LEAST_USED ≤ used_by list.now }
    requires most { used_by list.now ≤ room + LEAST_USED }
    requires within { pair_fits above.now ways.now.0 ways.now.1 pair (entry_keys list.now) ≡ true }
    ensures draft { IsTreeDraft (T.step t.now) draft.new }
    ensures put { AreLeavesMended (T.step t.now) draft.old draft.new above.now.page ways.now.0 ways.now.1 pair list.now result }
{
    let whole = used(list);
    if whole <= PAGE_ROOM {
        draft.put_leaf(t, pair.left, list);
        return join_pair(t, draft, above, ways, pair);
    }
    let (front, behind) = list.split_at(leaf_cut(list, whole, Fuller::Neither));
    draft.put_leaf(t, pair.left, front);
    draft.put_leaf(t, pair.right, behind);
    share_pair(t, draft, above, ways, pair, behind[0].key.copied())
}

// Two interior pages have these ways, or one of them has.
fn put_interiors<T: Pages>(
    t: &T,
    draft: &mut Draft,
    above: &Child,
    ways: &Ways,
    pair: Pair,
    joined: &JoinedWays,
    cut: usize,
) -> Trimmed
    requires room { length draft.old.sheets.items ≤ 37 }
    requires freed { length draft.old.freed.items < 20 }
    requires draft { IsTreeDraft (T.step t.now) draft.old }
    requires page { MayHave (T.step t.now) above.now.page }
    requires left { MayHave (T.step t.now) pair.left }
    requires right { MayHave (T.step t.now) pair.right }
    requires ways { IsOpenedPage (length (T.step t.now).images) above.now ways.now.0 ways.now.1 }
    requires pair { IsPair above.now ways.now.0 ways.now.1 pair }
    requires list { AreWays (length (T.step t.now).images) joined.now.first joined.now.list.items }
    requires fits { AllByRecursion FitsSeparator joined.now.list.items }
    requires least { 4 ≤ length joined.now.list.items }
    requires front { 8 < length joined.now.list.items → 4 ≤ cut }
    requires short { 8 < length joined.now.list.items → cut ≤ 9 }
    requires behind { 8 < length joined.now.list.items → cut + 5 ≤ length joined.now.list.items }
    requires most { 8 < length joined.now.list.items → length joined.now.list.items ≤ cut + 10 }
    requires within { pair_fits above.now ways.now.0 ways.now.1 pair (separator_keys joined.now.list.items) ≡ true }
    ensures draft { IsTreeDraft (T.step t.now) draft.new }
    ensures put { AreWaysMended (T.step t.now) draft.old draft.new above.now.page ways.now.0 ways.now.1 pair joined.now.first joined.now.list.items result }
{
    let list = joined.list.as_slice();
    if list.len() <= 8 {
        draft.put_ways(t, pair.left, joined.first, list);
        return join_pair(t, draft, above, ways, pair);
    }
    let (front, _) = list.split_at(cut);
    let (_, behind) = list.split_at(cut + 1);
    let middle = &list[cut];
    draft.put_ways(t, pair.left, joined.first, front);
    draft.put_ways(t, pair.right, middle.child, behind);
    share_pair(t, draft, above, ways, pair, middle.key.copied())
}

// The entries of child `i` and of its neighbour, in order.
fn leaves_joined(i: u32, few: &[Entry], others: &[Entry]) -> JoinedList
    requires room { length few.now + length others.now ≤ 38 }
    requires few { AllByRecursion FitsEntry few.now }
    requires others { AllByRecursion FitsEntry others.now }
    ensures { result.items ≡ both_entries i few.now others.now }
{
    if i == 0 {
        joined(few, others)
    } else {
        joined(others, few)
    }
}

/// What is left of a page one of whose children, child `i`, is a leaf of too few entries:
/// it joins its neighbour, or shares with it.
pub(crate) fn mend_leaf<T: Pages>(
    t: &mut T,
    draft: &mut Draft,
    above: &Child,
    ways: &Ways,
    i: u32,
    few: &EntryList,
) -> Result<Trimmed, TreeFault>
    requires more { 0 < reaches (T.step t.old) }
    requires room { length draft.old.sheets.items ≤ 37 }
    requires free { length draft.old.freed.items < 20 }
    requires draft { IsTreeDraft (T.step t.old) draft.old }
    requires page { MayHave (T.step t.old) above.now.page }
    requires ways { IsOpenedPage (length (T.step t.old).images) above.now ways.now.0 ways.now.1 }
    requires within { i ≤ length ways.now.1 }
    requires below { MayHave (T.step t.old) (child_of above.now ways.now.0 ways.now.1 i).page }
    requires few { AreFewEntries (child_of above.now ways.now.0 ways.now.1 i) few.now.items }
    ensures calls { OnlyReaches T.Pages (outer_told result) t.old t.new }
    ensures reaches { reaches (T.step t.old) ≤ reaches (T.step t.new) + 1 }
    ensures draft { OnOk result (IsTreeDraft (T.step t.new) draft.new) }
    ensures mended { IfOk result (λ left. ShowsEach (T.step t.new) (λ pages. LeafIsMended (with_images pages (T.step t.new)) draft.old draft.new above.now ways.now.0 ways.now.1 i few.now.items left)) }
    ensures fault { IfErr result (FailsBy (T.step t.new) (λ pages. HasNoLeaf (drafted draft.old.sheets.items pages) (children ways.now.0 above.now.low above.now.high ways.now.1) i)) }
{
    let neighbour = child_at(ways, neighbour_of(i), above);
    match draft.child_node(t, &neighbour)? {
        Node::Leaf(others) if neighbour.page != 0 => {
            let list = leaves_joined(i, few.as_slice(), listed(&others).as_slice());
            let pair = pair_with(ways, i, above);
            Ok(put_leaves(t, draft, above, ways, pair, list.as_slice()))
        }
        _ => Err(TreeFault::Broken(neighbour.page)),
    }
}

// Whether the first of the separators, if there is one, stands behind a key.
fn is_behind(key: &Key, separators: &[Separator]) -> bool
    ensures { result ≡ is_behind key.now separators.now }
{
    match separators.first() {
        Some(separator) => key.cmp(&separator.key).is_lt(),
        None => true,
    }
}

// The ways of two pages side by side, if their keys ascend.
fn joined_behind(
    first: u32,
    left: &[Separator],
    key: Key,
    second: u32,
    right: &[Separator],
) -> Option<JoinedWays>
    requires room { length left.now + length right.now ≤ 12 }
    requires left { AllByRecursion FitsSeparator left.now }
    requires between { FitsSeparator (record { key = key; child = second }) }
    requires right { AllByRecursion FitsSeparator right.now }
    ensures some { IfSome result (λ x. (x.first ≡ first) × (x.list.items ≡ left.now ++ record { key = key; child = second } ∷ right.now) × AllByRecursion FitsSeparator x.list.items) }
    ensures behind { IfSome result (λ x. is_behind key right.now ≡ true) }
    ensures none { result ≡ None → is_behind key right.now ≡ false }
{
    if !is_behind(&key, right) {
        return None;
    }
    let list = joined_ways(left, key, second, right);
    Some(JoinedWays { first, list })
}

// The ways of child `i` and of its neighbour, in order, if their keys ascend.
fn ways_joined(
    i: u32,
    key: Key,
    first: u32,
    few: &SeparatorList,
    others: &Ways,
) -> Option<JoinedWays>
    requires room { length few.now.items ≤ 3 }
    requires few { AllByRecursion FitsSeparator few.now.items }
    requires first { FitsSeparator (record { key = key; child = first }) }
    requires others { length others.now.1 ≤ 9 }
    requires second { FitsSeparator (record { key = key; child = others.now.0 }) }
    ensures first { IfSome result (λ x. x.first ≡ first_at i first others.now.0) }
    ensures list { IfSome result (λ x. x.list.items ≡ ways_at i key first few.now.items others.now.0 others.now.1) }
    ensures fits { IfSome result (λ x. AllByRecursion FitsSeparator x.list.items) }
    ensures behind { IfSome result (λ x. is_behind key (right_at i few.now.items others.now.1) ≡ true) }
    ensures none { result ≡ None → is_behind key (right_at i few.now.items others.now.1) ≡ false }
{
    let listed = listed_ways(others);
    if i == 0 {
        joined_behind(
            first,
            few.as_slice(),
            key,
            others.first(),
            listed.as_slice(),
        )
    } else {
        joined_behind(
            others.first(),
            listed.as_slice(),
            key,
            first,
            few.as_slice(),
        )
    }
}

// Where the ways of child `i` and of its neighbour are parted, if they are too many for one page.
fn ways_cut(i: u32, list: &[Separator]) -> usize
    requires { 5 ≤ length list.now }
    ensures { result ≡ (if i == 0 then 4 else length list.now - 5) }
{
    if i == 0 { 4 } else { list.len() - 5 }
}

/// What is left of a page one of whose children, child `i`, has too few ways:
/// it joins its neighbour, or takes one of it.
pub(crate) fn mend_ways<T: Pages>(
    t: &mut T,
    draft: &mut Draft,
    above: &Child,
    ways: &Ways,
    i: u32,
    first: u32,
    few: &SeparatorList,
) -> Result<Trimmed, TreeFault>
    requires more { 0 < reaches (T.step t.old) }
    requires room { length draft.old.sheets.items ≤ 37 }
    requires free { length draft.old.freed.items < 20 }
    requires draft { IsTreeDraft (T.step t.old) draft.old }
    requires page { MayHave (T.step t.old) above.now.page }
    requires ways { IsOpenedPage (length (T.step t.old).images) above.now ways.now.0 ways.now.1 }
    requires within { i ≤ length ways.now.1 }
    requires below { MayHave (T.step t.old) (child_of above.now ways.now.0 ways.now.1 i).page }
    requires few { AreFewWays (length (T.step t.old).images) (child_of above.now ways.now.0 ways.now.1 i) first few.now.items }
    ensures calls { OnlyReaches T.Pages (outer_told result) t.old t.new }
    ensures reaches { reaches (T.step t.old) ≤ reaches (T.step t.new) + 1 }
    ensures draft { OnOk result (IsTreeDraft (T.step t.new) draft.new) }
    ensures mended { IfOk result (λ left. ShowsEach (T.step t.new) (λ pages. WayIsMended (with_images pages (T.step t.new)) draft.old draft.new above.now ways.now.0 ways.now.1 i first few.now.items left)) }
    ensures fault { IfErr result (FailsBy (T.step t.new) (λ pages. HasNoWays (drafted draft.old.sheets.items pages) above.now ways.now.0 ways.now.1 i few.now.items)) }
{
    let neighbour = child_at(ways, neighbour_of(i), above);
    let pair = pair_with(ways, i, above);
    match draft.child_node(t, &neighbour)? {
        Node::Interior(others) if neighbour.page != 0 => {
            let Some(joined) = ways_joined(i, ways.get(pair.place).key, first, few, &others) else {
                return Err(TreeFault::Broken(pair.right));
            };
            let cut = ways_cut(i, joined.list.as_slice());
            Ok(put_interiors(t, draft, above, ways, pair, &joined, cut))
        }
        _ => Err(TreeFault::Broken(neighbour.page)),
    }
}

/// What is left of a page one of whose children, child `i`, was trimmed.
pub(crate) fn trim_above<T: Pages>(
    t: &mut T,
    draft: &mut Draft,
    above: &Child,
    ways: &Ways,
    i: u32,
    below: Trimmed,
) -> Result<Trimmed, TreeFault>
    requires more { 0 < reaches (T.step t.old) }
    requires room { below ≢ Whole → length draft.old.sheets.items ≤ 37 }
    requires free { length draft.old.freed.items < 20 }
    requires draft { IsTreeDraft (T.step t.old) draft.old }
    requires page { MayHave (T.step t.old) above.now.page }
    requires ways { IsOpenedPage (length (T.step t.old).images) above.now ways.now.0 ways.now.1 }
    requires within { i ≤ length ways.now.1 }
    requires below { MayHave (T.step t.old) (child_of above.now ways.now.0 ways.now.1 i).page }
    requires left { IsLeft (length (T.step t.old).images) (child_of above.now ways.now.0 ways.now.1 i) below }
    ensures calls { OnlyReaches T.Pages (outer_told result) t.old t.new }
    ensures reaches { reaches (T.step t.old) ≤ reaches (T.step t.new) + 1 }
    ensures draft { OnOk result (IsTreeDraft (T.step t.new) draft.new) }
    ensures mended { IfOk result (λ left. ShowsEach (T.step t.new) (λ pages. IsTrimmedAbove (with_images pages (T.step t.new)) draft.old draft.new above.now ways.now.0 ways.now.1 i below left)) }
    ensures fault { IfErr result (FailsBy (T.step t.new) (λ pages. IsUnlike (drafted draft.old.sheets.items pages) above.now ways.now.0 ways.now.1 i below)) }
{
    match below {
        Trimmed::Whole => Ok(Trimmed::Whole),
        Trimmed::Leaf(few) => mend_leaf(t, draft, above, ways, i, &few),
        Trimmed::Interior(first, few) => mend_ways(t, draft, above, ways, i, first, &few),
    }
}

// Page 0 has what another page has.
fn put_on_top<T: Pages>(t: &T, draft: &mut Draft, node: &Node)
    requires room { length draft.old.sheets.items < MOST_CHANGED }
    requires draft { IsTreeDraft (T.step t.now) draft.old }
    requires top { MayHave (T.step t.now) 0 }
    requires some { node.now ≢ Free }
    requires page { (page : ℕ) × (is_page page (length (T.step t.now).images) (content_of node.now) ≡ true) }
    requires there { (pages : List (List ℕ)) × (page : ℕ) × (page_at pages page ≡ Some (content_of node.now)) }
    ensures draft { IsTreeDraft (T.step t.now) draft.new }
    ensures freed { draft.new.freed.items ≡ draft.old.freed.items }
    ensures put { IsDrafted (T.step t.now) draft.old.sheets.items draft.new.sheets.items 0 (content_of node.now) }
{
    match node {
        Node::Free => {}
        Node::Leaf(entries) => draft.put_leaf(t, 0, listed(entries).as_slice()),
        Node::Interior(ways) => {
            draft.put_ways(t, 0, ways.first(), listed_ways(ways).as_slice());
        }
    }
}

/// Page 0 takes over what its only child has.
pub(crate) fn take_over<T: Pages>(t: &mut T, draft: &mut Draft, child: u32) -> Result<(), TreeFault>
    requires more { 0 < reaches (T.step t.old) }
    requires room { length draft.old.sheets.items < MOST_CHANGED }
    requires free { length draft.old.freed.items < 20 }
    requires draft { IsTreeDraft (T.step t.old) draft.old }
    requires top { MayHave (T.step t.old) 0 }
    requires within { child < length (T.step t.old).images }
    ensures calls { OnlyReaches T.Pages (outer_told result) t.old t.new }
    ensures reaches { reaches (T.step t.old) ≤ reaches (T.step t.new) + 1 }
    ensures draft { OnOk result (IsTreeDraft (T.step t.new) draft.new) }
    ensures taken { OnOk result (ShowsEach (T.step t.new) (λ pages. IsTakenOver (with_images pages (T.step t.new)) draft.old draft.new child)) }
    ensures fault { IfErr result (FailsBy (T.step t.new) (λ pages page. IsFreeOrNone (page_at (drafted draft.old.sheets.items pages) child))) }
{
    let node = draft.node_at(t, child)?;
    if let Node::Free = node {
        return Err(TreeFault::Broken(child));
    }
    put_on_top(t, draft, &node);
    draft.free(t, child);
    Ok(())
}
