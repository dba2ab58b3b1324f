//! Calls of the table, one after another.
ghost use Rattle.std.specs.Prelude.{◌≡◌, ◌≤◌, ℕ, length};
ghost use Rattle.std.specs.List.{AllByRecursion};
ghost use Rattle.fsd_table.specs.Tree.{IsTree, table_of};
ghost use Rattle.name_btree.specs.Calls.{Allows, CarriesOut, IsFormed, Permits, RunsTo, without_answer, without_page};
ghost use Rattle.name_btree.specs.Fault.{outer_told};
ghost use Rattle.name_btree.specs.Map.{IsTable};
ghost use Rattle.name_page.specs.declared.pages.TheConstants.{MOST_CHANGED, MOST_REACHED};
ghost use Rattle.name_page.specs.Looks.{OnlyEdits};

use crate::fault::TreeFault;
use crate::inserting::insert;
use crate::lookup::{FoundEntry, find, highest, next_after};
use crate::removing::remove;
use crate::renewing::RenewedPages;
use crate::replacing::replace_same_size;
use arrayvec::ArrayVec;
use fsd_bytes::{FileName, Key};
use fsd_formats::Entry;

/// A call of the table.
#[derive(Drop)]
pub enum TableCall {
    /// The entry with this key.
    Find(Key),
    /// The entry with the highest version of this name.
    Highest(FileName),
    /// The entry with the least key that is later than this one.
    NextAfter(Option<Key>),
    /// This entry comes, and those with these keys go.
    Insert(Entry, ArrayVec<Key, 2>),
    /// The entry with this key goes.
    Remove(Key),
    /// This entry takes the place of the one with its key.
    Replace(Entry),
}

// A change answers no entry.
fn without_answer(done: Result<(), TreeFault>) -> Result<Option<Entry>, TreeFault>
    ensures { result ≡ without_answer done }
{
    match done {
        Ok(()) => Ok(None),
        Err(fault) => Err(fault),
    }
}

// The entry that was found.
fn without_page(found: Result<Option<FoundEntry>, TreeFault>) -> Result<Option<Entry>, TreeFault>
    ensures { result ≡ without_page found }
{
    match found {
        Ok(Some(found)) => Ok(Some(found.entry)),
        Ok(None) => Ok(None),
        Err(fault) => Err(fault),
    }
}

// Makes one call, in a step of its own, with the whole leave to change.
fn carry_out<T: RenewedPages>(t: &mut T, call: &TableCall) -> Result<Option<Entry>, TreeFault>
    requires reached { MOST_REACHED ≤ (T.step t.old).most_reached }
    requires changed { MOST_CHANGED ≤ (T.step t.old).most_changed }
    requires formed { IsFormed call.now }
    requires allowed { T.trusted t.old → (height : ℕ) → IsTree (T.step t.old).images height → Allows (table_of (T.step t.old).images height) call.now }
    ensures calls { OnlyEdits T.Pages (outer_told result) t.old t.new }
    ensures carried { T.trusted t.new → (height : ℕ) → IsTable (T.step t.old) height → CarriesOut (table_of (T.step t.old).images height) call.now result (T.step t.new) }
{
    if let Err(refusal) = t.begin() {
        return Err(TreeFault::Pages(refusal));
    }
    match call {
        TableCall::Find(key) => without_page(find(t, key)),
        TableCall::Highest(name) => without_page(highest(t, name)),
        TableCall::NextAfter(key) => without_page(next_after(t, key.as_ref())),
        TableCall::Insert(entry, gone) => without_answer(insert(t, entry, gone)),
        TableCall::Remove(key) => without_answer(remove(t, key)),
        TableCall::Replace(entry) => without_answer(replace_same_size(t, entry)),
    }
}

/// Makes calls one after another, up to the first that fails, each in a step of its own that begins with the whole
/// leave to change. Of a table the answers are the map's, and only the disk, want of memory and too few spare pages
/// fail. A call that fails leaves the table.
pub fn run<T: RenewedPages>(
    t: &mut T,
    calls: &[TableCall],
    answers: &mut [Option<Entry>],
) -> Result<(), TreeFault>
    requires whole { length answers.old ≡ length calls.now }
    requires reached { MOST_REACHED ≤ (T.step t.old).most_reached }
    requires changed { MOST_CHANGED ≤ (T.step t.old).most_changed }
    requires formed { AllByRecursion IsFormed calls.now }
    requires table { T.trusted t.old → Permits (T.step t.old) calls.now }
    ensures calls { OnlyEdits T.Pages (outer_told result) t.old t.new }
    ensures run { T.trusted t.new → (height : ℕ) → IsTable (T.step t.old) height → RunsTo (table_of (T.step t.old).images height) calls.now answers.new result (T.step t.new) }
{
    for (i, call) in calls.iter().enumerate() {
        answers[i] = carry_out(t, call)?;
    }
    Ok(())
}
