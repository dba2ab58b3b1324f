//! Growth: why a volume doesn't grow, the roots with more sectors, and the volume behind that.
ghost use Rattle.std.specs.Prelude.{◌≡◌, ◌≤◌, ◌<◌, max, length, IfErr, OnOk, IsTrue};
ghost use Rattle.volume_layout.specs.Layout.{IsSized, most_of};
ghost use Rattle.volume_layout.specs.Root.{root_bytes};
ghost use Rattle.sector_disk.specs.Calls.{GrowsDisk, device_in, failed_at};
ghost use Rattle.fsd_files.specs.Answers.{grow_fault};
ghost use Rattle.volume_contract.specs.Order.{Follows, is_root};
ghost use Rattle.volume_contract.specs.State.{Counted};
ghost use Rattle.volume_laws.specs.Grown.{value_grown};
ghost use Rattle.volume_laws.specs.State.{state};
ghost use Rattle.table_volume.specs.Growing.{GrowsRoots, HasGrownRoots, grow_tests};

use crate::Volume;
use crate::freeing::release_between;
use fsd_bytes::Refusal;
use sector_disk::{Failed, Machine, extend_image};
use twin_home::write_roots;
use volume_layout::Layout;

// Why a volume of this layout doesn't grow to so many sectors.
fn grow_fault(l: &Layout, sectors: u32) -> Option<Refusal>
    ensures { result ≡ grow_fault l.now sectors }
{
    let most = l.most_sectors();
    if sectors <= l.sectors() {
        Some(Refusal::NotLarger(sectors))
    } else if sectors > most {
        Some(Refusal::PastMost(most))
    } else {
        None
    }
}

/// Gives the image the sectors of a layout where it has fewer, and writes both roots with that, root 0 first.
pub(crate) fn write_grown<M: Machine>(m: &mut M, l: &Layout) -> Result<(), Failed>
    requires room { 4 < (M.report m.old).sectors }
    ensures grows { GrowsDisk M.Machine (device_in failed_at result) (GrowsRoots l.now.sectors (root_bytes l.now)) m.old m.new }
    ensures place { IfErr result (λ failed. IsTrue (is_root failed.place)) }
    ensures sectors { OnOk result ((M.report m.new).sectors ≡ max (M.report m.old).sectors l.now.sectors) }
    ensures counted { M.tells m.new → Counted result 2 (M.ledger m.old) (M.ledger m.new) }
    ensures done { OnOk result (M.honest m.new → HasGrownRoots l.now.sectors (root_bytes l.now) (M.now m.old) (M.now m.new)) }
{
    extend_image(m, l.sectors())?;
    write_roots(m, l)
}

impl Volume {
    /// That it may grow to so many sectors.
    pub(crate) fn may_grow(&self, sectors: u32) -> Result<(), Refusal>
        ensures { Follows (grow_tests (state self.now) sectors) result }
    {
        self.is_up()?;
        match grow_fault(&self.layout, sectors) {
            Some(why) => Err(why),
            None => Ok(()),
        }
    }

    /// Gives it this layout, which has more sectors: those behind the old ones are free. It answers how many are.
    pub(crate) fn grown(&mut self, l: Layout) -> u32
        requires sized { IsSized self.old.layout l }
        requires more { self.old.layout.sectors < l.sectors }
        requires most { l.sectors ≤ most_of self.old.layout }
        ensures value { self.new ≡ value_grown l.sectors self.old }
        ensures free { result ≡ length self.new.map.sectors }
    {
        let had = self.layout.sectors();
        self.log.set_layout(l);
        self.layout = l;
        release_between(&mut self.map, had, l.sectors());
        self.map.free_count()
    }
}
