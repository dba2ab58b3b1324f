//! Replacing an entry.
ghost use Rattle.std.specs.Prelude.{◌≡◌, ◌≤◌, ◌+◌, ℕ, IsTrue, IfErr, OnOk, true, false};
ghost use Rattle.fsd_formats.specs.NamePage.{is_entry, FitsEntry};
ghost use Rattle.fsd_table.specs.Tree.{IsTree, table_of};
ghost use Rattle.name_btree.specs.Change.{ChangesTable};
ghost use Rattle.name_btree.specs.Fault.{outer_told, FailsAmong};
ghost use Rattle.name_btree.specs.Replace.{HasAsLong, NeedsNoneFor, ReplacesEntry, WritesPage};
ghost use Rattle.name_page.specs.declared.pages.TheConstants.{MOST_CHANGED, MOST_REACHED};
ghost use Rattle.name_page.specs.Pages.{reaches, changes};

use crate::descent::leaf_below;
use crate::fault::TreeFault;
use crate::lookup::{entry_in, top};
use crate::searching::fault_of;
use crate::writing::put_leaf;
use fsd_formats::Entry;
use name_page::{Cut, Entries, Pages, entry_len, put_among};

// Whether an entry with the key is there, and takes as many bytes.
fn has_as_long(entries: &Entries, entry: &Entry) -> bool
    ensures long { result ≡ true → HasAsLong entry.now entries.now }
    ensures not { result ≡ false → HasAsLong entry.now entries.now → ⊥ }
{
    match entry_in(entries, &entry.key) {
        Some(old) => entry_len(&old) == entry_len(entry),
        None => false,
    }
}

/// Puts an entry in place of the one with its key, which takes as many bytes. Where it answers Broken it has walked all
/// pages up to that one, and the step has ended.
pub fn replace_same_size<T: Pages>(t: &mut T, entry: &Entry) -> Result<(), TreeFault>
    requires more { MOST_REACHED ≤ reaches (T.step t.old) }
    requires changes { MOST_CHANGED ≤ changes (T.step t.old) }
    requires entry { IsTrue (is_entry entry.now) }
    requires fits { FitsEntry entry.now }
    requires present { T.trusted t.old → (height : ℕ) → IsTree (T.step t.old).images height → HasAsLong entry.now (table_of (T.step t.old).images height) }
    ensures edits { ChangesTable T.Pages t.old t.new result }
    ensures memory { NeedsNoneFor T.Pages entry.now (outer_told result) t.old }
    ensures written { OnOk result (WritesPage T.Pages t.old t.new) }
    ensures reaches { reaches (T.step t.old) ≤ reaches (T.step t.new) + 6 }
    ensures replaced { OnOk result (ReplacesEntry T.Pages entry.now t.old t.new) }
    ensures failed { IfErr result (FailsAmong T.Pages t.old t.new) }
{
    let found = match leaf_below(t, top(), 0, &Cut::UpTo(entry.key.copied())) {
        Ok(found) => found,
        Err(fault) => return Err(fault_of(t, fault)),
    };
    if !has_as_long(&found.entries, entry) {
        return Err(fault_of(t, TreeFault::Broken(found.page)));
    }
    let list = put_among(&found.entries, entry);
    put_leaf(t, found.page, list.as_slice());
    Ok(())
}
