//! The oldest versions of a name.
ghost use Rattle.std.specs.Prelude.{◌≡◌, ◌+◌, ◌-◌, ◌^◌, ◌<◌, ◌≤◌, IfOk, IfErr, IfSome, Some, None, min, take, length, ◌++◌, ◌∷◌, []};
ghost use Rattle.std.specs.List.{AllByRecursion};
ghost use Rattle.fsd_table.specs.Table.{BreaksTable};
ghost use Rattle.name_btree.specs.Fault.{outer_told, FailsLookup, HasTreeCause, BarsTable, IsAmong, IsOnWay, ShowsCause};
ghost use Rattle.name_page.specs.declared.pages.TheConstants.{MOST_REACHED};
ghost use Rattle.name_page.specs.Looks.{OnlyWalks};
ghost use Rattle.version_table.specs.Table.{OfTable};
ghost use Rattle.version_table.specs.Met.{IsMetBetween, entries_left, leaving_of};
ghost use Rattle.version_table.specs.Versions.{IsFirstBehind, oldest_beyond, versions_of};

use arrayvec::ArrayVec;
use fsd_bytes::{FileName, Key};
use fsd_formats::Entry;
use name_btree::{FoundEntry, TreeFault, named, next_after};
use name_page::Pages;

/// A version that is to go, and the leaf that it was met in.
#[derive(Default, Drop)]
pub struct Leaving {
    pub entry: Entry,
    pub page: u32,
}

// The first versions of a name, two at most, and how many were met.
#[derive(Drop)]
struct Oldest {
    first: ArrayVec<Leaving, 2>,
    count: u32,
}

// The next version of a key's name, in a step of its own.
fn next_version<T: Pages>(t: &mut T, key: &Key) -> Result<Option<FoundEntry>, TreeFault>
    requires { MOST_REACHED ≤ (T.step t.old).most_reached }
    ensures walks { OnlyWalks T.Pages (outer_told result) t.old t.new }
    ensures among { 0 < length (T.step t.old).images → IfErr result (IsAmong (length (T.step t.old).images)) }
    ensures met { IfOk result (λ found. IfSome found (λ f. IsMetBetween T.Pages key.now.name t.old t.new (record { entry = f.entry; page = f.page }))) }
    ensures found { IfOk result (λ found. OfTable T.Pages t.old t.new (λ table. IsFirstBehind key.now table found)) }
    ensures fault { IfErr result (HasTreeCause (T.step t.new) (BreaksTable (T.step t.new).images) (BarsTable (T.step t.new))) }
    ensures shown { IfErr result (ShowsCause (T.step t.new) BreaksTable IsOnWay) }
{
    t.rest();
    match next_after(t, Some(key))? {
        Some(found) => Ok(named(found, &key.name)),
        None => Ok(None),
    }
}

impl Oldest {
    // One more is met.
    fn add(&mut self, found: FoundEntry)
        requires { self.old.count < 2 ^ 32 - 1 }
        ensures count { self.new.count ≡ self.old.count + 1 }
        ensures first { self.new.first.items ≡ take 2 (self.old.first.items ++ leaving_of found ∷ []) }
    {
        self.count += 1;
        if self.first.len() < 2 {
            self.first.push(Leaving {
                entry: found.entry,
                page: found.page,
            });
        }
    }
}

// Meets so many versions of a name at most, the oldest first.
fn meet_oldest<T: Pages>(t: &mut T, name: &FileName, most: u32) -> Result<Oldest, TreeFault>
    requires { MOST_REACHED ≤ (T.step t.old).most_reached }
    ensures walks { OnlyWalks T.Pages (outer_told result) t.old t.new }
    ensures met { IfOk result (λ oldest. AllByRecursion (IsMetBetween T.Pages name.now t.old t.new) oldest.first.items) }
    ensures count { IfOk result (λ oldest. oldest.count ≤ most) }
    ensures counted { IfOk result (λ oldest. OfTable T.Pages t.old t.new (λ table. oldest.count ≡ min most (length (versions_of name.now table)))) }
    ensures first { IfOk result (λ oldest. OfTable T.Pages t.old t.new (λ table. entries_left oldest.first.items ≡ take (min 2 oldest.count) (versions_of name.now table))) }
    ensures failed { IfErr result (FailsLookup T.Pages t.old t.new) }
{
    let mut oldest = Oldest {
        first: ArrayVec::new(),
        count: 0,
    };
    let mut last = Key {
        name: name.copied(),
        version: 0,
    };
    for _ in 0..most {
        match next_version(t, &last)? {
            Some(found) => {
                last = found.entry.key.copied();
                oldest.add(found);
            }
            None => return Ok(oldest),
        }
    }
    Ok(oldest)
}

/// The versions of a name that go once there is one more, the oldest first: those beyond the keep, two at most.
/// Where the keep is 0 none goes.
pub(crate) fn meet_leaving<T: Pages>(
    t: &mut T,
    name: &FileName,
    keep: u32,
) -> Result<ArrayVec<Leaving, 2>, TreeFault>
    requires more { MOST_REACHED ≤ (T.step t.old).most_reached }
    requires keep { keep ≤ 999 }
    ensures walks { OnlyWalks T.Pages (outer_told result) t.old t.new }
    ensures among { 0 < length (T.step t.old).images → IfErr result (IsAmong (length (T.step t.old).images)) }
    ensures met { IfOk result (λ gone. AllByRecursion (IsMetBetween T.Pages name.now t.old t.new) gone.items) }
    ensures gone { IfOk result (λ gone. OfTable T.Pages t.old t.new (λ table. entries_left gone.items ≡ oldest_beyond keep (versions_of name.now table))) }
    ensures fault { IfErr result (HasTreeCause (T.step t.new) (BreaksTable (T.step t.new).images) (BarsTable (T.step t.new))) }
    ensures shown { IfErr result (ShowsCause (T.step t.new) BreaksTable IsOnWay) }
{
    if keep == 0 {
        return Ok(ArrayVec::new());
    }
    let mut oldest = meet_oldest(t, name, keep + 1)?;
    let beyond = (oldest.count + 1).saturating_sub(keep);
    oldest.first.truncate(beyond as usize);
    Ok(oldest.first)
}
