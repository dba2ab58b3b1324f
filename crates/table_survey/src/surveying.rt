//! The survey of a whole table.
ghost use Rattle.std.specs.Prelude.{◌≡◌, ◌≤◌, ◌<◌, IfOk, IfErr, [], length};
ghost use Rattle.volume_layout.specs.Layout.{IsPlanned};
ghost use Rattle.name_page.specs.Looks.{OnlyWalks};
ghost use Rattle.name_page.specs.declared.pages.TheConstants.{MOST_REACHED};
ghost use Rattle.name_btree.specs.Fault.{outer_told, IsAmong};
ghost use Rattle.name_btree.specs.Walk.{AreMarksOf};
ghost use Rattle.table_survey.specs.Claims.{whole_area};
ghost use Rattle.table_survey.specs.Survey.{FailsSurvey, SurveysWhole};

use crate::claiming::claim_all;
use crate::marks::marked_count;
use alloc_map::Map;
use name_btree::{TreeFault, walk};
use name_page::Pages;
use volume_layout::Layout;

/// How much a whole table tells.
#[derive(Clone, Copy)]
pub struct TableCounts {
    /// The pages that page 0 leads to, itself among them.
    pub pages: u32,
    pub versions: u32,
}

/// Walks the whole table, marks the pages that it reaches, and takes the sectors of its entries out of the map. It ends
/// over any pages at all. After a fault some pages may be marked, and the sectors of some entries taken.
pub fn survey<T: Pages>(
    t: &mut T,
    l: &Layout,
    map: &mut Map,
    reached: &mut [bool],
) -> Result<TableCounts, TreeFault>
    requires more { MOST_REACHED ≤ (T.step t.old).most_reached }
    requires whole { length reached.old ≡ length (T.step t.old).images }
    requires clear { AreMarksOf [] reached.old }
    requires planned { IsPlanned l.now }
    requires map { map.old ≡ whole_area l.now }
    ensures calls { OnlyWalks T.Pages (outer_told result) t.old t.new }
    ensures among { 0 < length (T.step t.old).images → IfErr result (IsAmong (length (T.step t.old).images)) }
    ensures surveys { IfOk result (SurveysWhole (T.trusted t.new) l.now (T.step t.old) map.new reached.new) }
    ensures fault { IfErr result (FailsSurvey l.now T.Pages t.new) }
{
    let versions = walk(t, reached)?;
    claim_all(t, map)?;
    let pages = marked_count(reached);
    Ok(TableCounts { pages, versions })
}
