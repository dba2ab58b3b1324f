//! Taking the sectors of all entries out of a map.
ghost use Rattle.std.specs.Prelude.{◌≡◌, ◌≤◌, ◌<◌, ℕ, IfOk, IfErr, OnOk, length};
ghost use Rattle.fsd_table.specs.Tree.{IsTree, table_of};
ghost use Rattle.name_page.specs.Looks.{OnlyWalks};
ghost use Rattle.name_page.specs.declared.pages.TheConstants.{MOST_REACHED};
ghost use Rattle.name_btree.specs.Fault.{outer_told, IsAmong};
ghost use Rattle.sector_set.specs.Area.{AreIn, IsOwn, without_sectors};
ghost use Rattle.table_survey.specs.Claims.{IsClaimed, IsLeftOf, FailsClaims, IsClaimRefused};

use alloc_map::Map;
use fsd_bytes::Key;
use name_btree::{FoundEntry, TreeFault, next_after};
use name_page::Pages;

// Takes the sectors of one entry out of the map, where all are free and each is named once.
fn claim(map: &mut Map, found: &FoundEntry) -> Result<(), TreeFault>
    ensures free { OnOk result (AreIn map.old found.now.entry.runs) }
    ensures taken { OnOk result (map.new ≡ without_sectors map.old found.now.entry.runs) }
    ensures fault { IfErr result (IsClaimRefused map.old found.now) }
{
    if !map.are_free(&found.entry.runs) {
        return Err(TreeFault::Broken(found.page));
    }
    map.take(&found.entry.runs);
    Ok(())
}

// Takes the sectors of all entries out of the map, in the order of their keys.
// It ends over any pages at all, since each entry has a sector.
pub(crate) fn claim_all<T: Pages>(t: &mut T, map: &mut Map) -> Result<(), TreeFault>
    requires more { MOST_REACHED ≤ (T.step t.old).most_reached }
    requires own { IsOwn map.old }
    ensures calls { OnlyWalks T.Pages (outer_told result) t.old t.new }
    ensures among { 0 < length (T.step t.old).images → IfErr result (IsAmong (length (T.step t.old).images)) }
    ensures claimed { IfOk result (λ done. T.trusted t.new → (height : ℕ) → IsTree (T.step t.old).images height → IsClaimed map.old (table_of (T.step t.old).images height) map.new) }
    ensures left { IfOk result (λ done. IsLeftOf map.old map.new) }
    ensures fault { IfErr result (FailsClaims T.Pages map.old t.new) }
{
    let mut after: Option<Key> = None;
    loop {
        t.rest();
        let Some(found) = next_after(t, after.as_ref())? else {
            return Ok(());
        };
        claim(map, &found)?;
        after = Some(found.entry.key);
    }
}
