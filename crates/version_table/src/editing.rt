//! Versions that come, go, and get another keep.
ghost use Rattle.std.specs.Prelude.{◌≡◌, ◌+◌, ◌<◌, ◌≤◌, ◌∷◌, [], ℕ, ◌↔◌, IsTrue, IfErr, OnOk, Err, Some, true};
ghost use Rattle.fsd_bytes.specs.declared.refusal.Refusal.TheVariants.{Memory, NameTableFull};
ghost use Rattle.fsd_files.specs.Answers.{entries_with_keep, entry_of};
ghost use Rattle.fsd_files.specs.Volume.{entries_without};
ghost use Rattle.fsd_formats.specs.NamePage.{is_entry, FitsEntry};
ghost use Rattle.name_btree.specs.Change.{ChangesTable, FailsInsert};
ghost use Rattle.name_btree.specs.Fault.{outer_told, FailsAmong};
ghost use Rattle.name_btree.specs.Grown.{TakesAtMost};
ghost use Rattle.name_btree.specs.Path.{HasWayTo};
ghost use Rattle.name_btree.specs.Replace.{WritesPage};
ghost use Rattle.name_page.specs.declared.pages.TheConstants.{MOST_CHANGED, MOST_REACHED};
ghost use Rattle.name_page.specs.Looks.{HasAllIn};
ghost use Rattle.name_page.specs.Pages.{changes, spare_count, is_spare};
ghost use Rattle.version_table.specs.Plan.{IsPlanReady, keys_left, planned_entry, with_planned};
ghost use Rattle.version_table.specs.Table.{MakesTable, OfTable};

use crate::planning::Plan;
use arrayvec::ArrayVec;
use fsd_bytes::{Key, Serial};
use fsd_formats::Entry;
use name_btree::{TreeFault, insert, remove, replace_same_size};
use name_page::Pages;
use run_table::Runs;

// The keys of the versions that go.
fn keys_left(plan: &Plan) -> ArrayVec<Key, 2>
    ensures { result.items ≡ keys_left plan.now }
{
    let mut keys = ArrayVec::new();
    for gone in plan.gone.as_slice() {
        keys.push(gone.entry.key.copied());
    }
    keys
}

// The entry of the planned version.
fn planned_entry(plan: &Plan, serial: Serial, length: u32, runs: Runs) -> Entry
    ensures { result ≡ planned_entry plan.now serial length runs }
{
    Entry {
        key: plan.key.copied(),
        keep: plan.keep,
        serial,
        length,
        runs,
    }
}

/// Enters the planned version, of so many bytes in these runs, in a step of its own: it comes, and what is to go goes.
/// It takes 7 pages at most, and asks for 8.
pub fn enter<T: Pages>(
    t: &mut T,
    plan: &Plan,
    serial: Serial,
    bytes: u32,
    runs: Runs,
) -> Result<(), TreeFault>
    requires more { MOST_REACHED ≤ (T.step t.old).most_reached }
    requires changes { MOST_CHANGED ≤ changes (T.step t.old) }
    requires entry { IsTrue (is_entry (planned_entry plan.now serial bytes runs)) }
    requires fits { FitsEntry (planned_entry plan.now serial bytes runs) }
    requires ready { OfTable T.Pages t.old t.old (IsPlanReady plan.now) }
    ensures edits { ChangesTable T.Pages t.old t.new result }
    ensures changes { changes (T.step t.old) ≤ changes (T.step t.new) + 36 }
    ensures taken { TakesAtMost 7 (T.step t.old).spares (T.step t.new).spares }
    ensures entered { OnOk result (MakesTable T.Pages t.old t.new (with_planned plan.now (planned_entry plan.now serial bytes runs))) }
    ensures full { let free = spare_count (T.step t.old) in (result ≡ Err (TreeFault.Pages (NameTableFull free))) ↔ (free < 8) }
    ensures failed { IfErr result (FailsInsert T.Pages t.old t.new) }
{
    let entry = planned_entry(plan, serial, bytes, runs);
    let gone = keys_left(plan);
    t.rest();
    insert(t, &entry, &gone)
}

/// Takes the version with a key out, in a step of its own. Where there is none the table stays.
pub fn take_out<T: Pages>(t: &mut T, key: &Key) -> Result<(), TreeFault>
    requires more { MOST_REACHED ≤ (T.step t.old).most_reached }
    requires changes { MOST_CHANGED ≤ changes (T.step t.old) }
    ensures edits { ChangesTable T.Pages t.old t.new result }
    ensures changes { changes (T.step t.old) ≤ changes (T.step t.new) + 8 }
    ensures taken { (page : ℕ) → is_spare (T.step t.old).spares page ≡ true → is_spare (T.step t.new).spares page ≡ true }
    ensures taken_out { OnOk result (MakesTable T.Pages t.old t.new (entries_without (key.now ∷ []))) }
    ensures failed { IfErr result (FailsAmong T.Pages t.old t.new) }
{
    t.rest();
    remove(t, key)
}

/// Gives a version, which is in the table as it is given here, another keep of at most 999, in a step of its own.
pub fn set_keep<T: Pages>(t: &mut T, version: &Entry, keep: u32) -> Result<(), TreeFault>
    requires more { MOST_REACHED ≤ (T.step t.old).most_reached }
    requires changes { MOST_CHANGED ≤ changes (T.step t.old) }
    requires keep { keep ≤ 999 }
    requires entry { is_entry version.now ≡ true }
    requires fits { FitsEntry version.now }
    requires there { OfTable T.Pages t.old t.old (λ table. entry_of version.now.key table ≡ Some version.now) }
    ensures edits { ChangesTable T.Pages t.old t.new result }
    ensures memory { HasWayTo T.Pages version.now t.old → outer_told result ≡ Some Memory → ⊥ }
    ensures full { HasAllIn T.Pages t.old → outer_told result ≡ Some Memory → ⊥ }
    ensures written { OnOk result (WritesPage T.Pages t.old t.new) }
    ensures set { OnOk result (MakesTable T.Pages t.old t.new (entries_with_keep version.now.key keep)) }
    ensures failed { IfErr result (FailsAmong T.Pages t.old t.new) }
{
    let mut entry = version.copied();
    entry.keep = keep;
    t.rest();
    replace_same_size(t, &entry)
}
