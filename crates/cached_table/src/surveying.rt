//! The survey of a table over a cache.
ghost use Rattle.std.specs.Prelude.{◌≡◌, ◌<◌, IfOk, IfErr, [], length};
ghost use Rattle.volume_layout.specs.Layout.{IsPlanned};
ghost use Rattle.name_btree.specs.Fault.{outer_told};
ghost use Rattle.name_btree.specs.Walk.{AreMarksOf};
ghost use Rattle.table_pages.specs.Kept.{IsReady};
ghost use Rattle.table_survey.specs.Claims.{whole_area};
ghost use Rattle.cached_table.specs.Surveying.{SurveyFails, SurveysOnly, SurveysTable, mount_fault_for, mount_fault_in};

use crate::looking::table_refusal;
use alloc_map::Map;
use fsd_bytes::Refusal;
use fsd_sound::MountFault;
use name_btree::TreeFault;
use name_page::Pages;
use page_cache::{Cache, PageSource};
use sector_disk::Machine;
use table_pages::{FreePages, Table};
use table_survey::{TableCounts, survey};
use volume_layout::Layout;

/// Surveys the table of these pages: those that it reaches are marked, and the sectors of its entries taken out of the
/// map. `home_a` is the first sector of the homes A.
pub(crate) fn survey_in<M: Machine, S: PageSource>(
    m: &mut M,
    cache: &mut Cache,
    source: &S,
    home_a: u32,
    free: &mut FreePages,
    l: &Layout,
    map: &mut Map,
    marks: &mut [bool],
) -> Result<TableCounts, TreeFault>
    requires ready { IsReady M.Machine S.PageSource m.old cache.old source.now free.old }
    requires whole { length marks.old ≡ length free.old }
    requires some { 0 < length free.old }
    requires clear { AreMarksOf [] marks.old }
    requires planned { IsPlanned l.now }
    requires map { map.old ≡ whole_area l.now }
    ensures only { SurveysOnly M.Machine S.PageSource source.now (outer_told result) m.old m.new cache.old cache.new (length free.old) }
    ensures free { free.new ≡ free.old }
    ensures long { length marks.new ≡ length marks.old }
    ensures told { IfOk result (SurveysTable M.Machine S.PageSource source.now l.now m.old m.new cache.old free.old home_a map.new marks.new) }
    ensures fault { IfErr result (SurveyFails M.Machine S.PageSource source.now l.now m.old m.new cache.old free.old home_a) }
{
    let mut table = Table::new(m, cache, source, home_a, free);
    let counts = survey(&mut table, l, map, marks);
    table.rest();
    counts
}

fn refusal_fault(refusal: Refusal) -> MountFault
    ensures { result ≡ mount_fault_for refusal }
{
    match refusal {
        Refusal::Device(place) => MountFault::Device(place),
        Refusal::Lost { a, b } => MountFault::Lost { a, b },
        Refusal::Unsound(place) => MountFault::Unsound(place),
        _ => MountFault::Memory,
    }
}

/// The fault of a mount that a fault of its survey is.
pub(crate) fn survey_fault(fault: TreeFault, home_a: u32) -> MountFault
    ensures { result ≡ mount_fault_in home_a fault }
{
    refusal_fault(table_refusal(fault, home_a))
}
