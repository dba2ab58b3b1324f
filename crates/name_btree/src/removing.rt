//! Taking entries out.
ghost use Rattle.std.specs.Prelude.{◌≡◌, ◌+◌, ◌*◌, ◌≤◌, ℕ, OnOk, IfOk, IfErr, length, true};
ghost use Rattle.fsd_table.specs.Tree.{table_of};
ghost use Rattle.name_btree.specs.Draft.{drafted, IsTreeDraft, RemovesFrom};
ghost use Rattle.name_btree.specs.Change.{ChangesTable, SpendsAtMost};
ghost use Rattle.name_btree.specs.Fault.{outer_told, FailsAmong, FailsBy, IsNoTree};
ghost use Rattle.name_btree.specs.Map.{IsTable, HasTable};
ghost use Rattle.name_btree.specs.Remove.{IsTrimmedBelow, BreaksAround, MayBeLeft, TrimsDraft};
ghost use Rattle.name_btree.specs.Trim.{sheets_below};
ghost use Rattle.name_page.specs.Edits.{without};
ghost use Rattle.name_page.specs.declared.pages.TheConstants.{MOST_CHANGED, MOST_REACHED};
ghost use Rattle.name_page.specs.Looks.{OnlyReaches, ShowsEach};
ghost use Rattle.name_page.specs.Pages.{reaches, changes, is_spare};

use crate::draft::Draft;
use crate::fault::TreeFault;
use crate::lookup::top;
use crate::searching::fault_of;
use crate::trimming::{Trimmed, take_over, trim_above, trim_leaf};
use crate::walking::child_at;
use fsd_bytes::Key;
use fsd_table::Child;
use name_page::{Cut, Node, Pages, entries_without, ways_before};

/// Takes the entry with a key out. Where no entry has the key, the table stays. It takes no page. Where it answers
/// Broken it has walked all pages up to that one, and the step has ended.
pub fn remove<T: Pages>(t: &mut T, key: &Key) -> Result<(), TreeFault>
    requires more { MOST_REACHED ≤ reaches (T.step t.old) }
    requires changes { MOST_CHANGED ≤ changes (T.step t.old) }
    ensures edits { ChangesTable T.Pages t.old t.new result }
    ensures spent { SpendsAtMost 12 8 (T.step t.old) (T.step t.new) }
    ensures taken { (page : ℕ) → is_spare (T.step t.old).spares page ≡ true → is_spare (T.step t.new).spares page ≡ true }
    ensures removed { OnOk result (T.trusted t.new → (height : ℕ) → IsTable (T.step t.old) height → HasTable (T.step t.new) (without key.now (table_of (T.step t.old).images height))) }
    ensures failed { IfErr result (FailsAmong T.Pages t.old t.new) }
{
    let mut draft = Draft::new();
    if let Err(fault) = remove_in(t, &mut draft, key) {
        return Err(fault_of(t, fault));
    }
    draft.commit(t);
    Ok(())
}

// Takes the entry with a key out of the drafted pages.
pub(crate) fn remove_in<T: Pages>(t: &mut T, draft: &mut Draft, key: &Key) -> Result<(), TreeFault>
    requires more { 12 ≤ reaches (T.step t.old) }
    requires draft { IsTreeDraft (T.step t.old) draft.old }
    requires room { length draft.old.sheets.items ≤ 32 }
    requires free { length draft.old.freed.items ≤ 14 }
    ensures calls { OnlyReaches T.Pages (outer_told result) t.old t.new }
    ensures reaches { reaches (T.step t.old) ≤ reaches (T.step t.new) + 12 }
    ensures drafted { OnOk result (TrimsDraft (T.step t.new) draft.old draft.new 8 6) }
    ensures removed { OnOk result (ShowsEach (T.step t.new) (λ pages. RemovesFrom pages draft.old draft.new key.now)) }
    ensures fault { IfErr result (FailsBy (T.step t.new) (λ pages page. IsNoTree (drafted draft.old.sheets.items pages))) }
{
    match remove_below(t, draft, &top(), key, 5)? {
        Trimmed::Whole => Ok(()),
        Trimmed::Leaf(_) => Ok(()),
        Trimmed::Interior(only, _) => take_over(t, draft, only),
    }
}

// Takes the entry with a key out of what stands below a child, so many levels at most above the leaves.
fn remove_below<T: Pages>(
    t: &mut T,
    draft: &mut Draft,
    child: &Child,
    key: &Key,
    levels: u32,
) -> Result<Trimmed, TreeFault>
    requires levels { levels ≤ 5 }
    requires more { 2 * levels + 1 ≤ reaches (T.step t.old) }
    requires draft { IsTreeDraft (T.step t.old) draft.old }
    requires room { length draft.old.sheets.items + levels ≤ 38 }
    requires free { length draft.old.freed.items + levels ≤ 20 }
    ensures calls { OnlyReaches T.Pages (outer_told result) t.old t.new }
    ensures reaches { reaches (T.step t.old) ≤ reaches (T.step t.new) + (2 * levels + 1) }
    ensures drafted { IfOk result (λ left. TrimsDraft (T.step t.new) draft.old draft.new (sheets_below levels left) levels) }
    ensures left { IfOk result (MayBeLeft (T.step t.new) (length (T.step t.old).images) child.now) }
    ensures trimmed { IfOk result (λ left. ShowsEach (T.step t.new) (λ pages. IsTrimmedBelow key.now (drafted draft.old.sheets.items pages) (drafted draft.new.sheets.items pages) draft.old.freed.items draft.new.freed.items levels child.now left)) }
    ensures fault { IfErr result (FailsBy (T.step t.new) (λ pages. BreaksAround key.now (drafted draft.old.sheets.items pages) levels child.now)) }
{
    match draft.child_node(t, child)? {
        Node::Leaf(entries) => {
            let left = entries_without(&entries, key);
            Ok(trim_leaf(t, draft, child.page, left))
        }
        Node::Interior(ways) if levels > 0 => {
            let i = ways_before(&ways, &Cut::UpTo(key.copied()));
            let below = child_at(&ways, i, child);
            let trimmed = remove_below(t, draft, &below, key, levels - 1)?;
            trim_above(t, draft, child, &ways, i, trimmed)
        }
        _ => Err(TreeFault::Broken(child.page)),
    }
}
