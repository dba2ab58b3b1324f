//! The end of a volume's use: its force, and the saved map behind it.
ghost use Rattle.std.specs.Prelude.{◌≡◌, ◌+◌, ◌≤◌, List, [], IfErr, IsTrue, MatchResult, OnOk};
ghost use Rattle.volume_layout.specs.Layout.{map_sectors};
ghost use Rattle.sector_disk.specs.Calls.{WritesDisk, device_in, failed_at};
ghost use Rattle.fsd_files.specs.Disk.{Touches};
ghost use Rattle.fsd_sound.specs.Writes.{saving_writes};
ghost use Rattle.volume_contract.specs.Causes.{Causes};
ghost use Rattle.volume_contract.specs.Closing.{HasSaved, LeavesClosing, WritesClosing, close_steps, saves};
ghost use Rattle.volume_contract.specs.Ends.{Closes, device_of};
ghost use Rattle.volume_contract.specs.Order.{InOrder, IsDeviceRefusal};
ghost use Rattle.volume_contract.specs.State.{Counted, Known, Stands, volume_of};
ghost use Rattle.volume_laws.specs.Saving.{HasMapClosed, LeavesSaved, saves_now};
ghost use Rattle.volume_laws.specs.State.{IsMemoryOf, resident, state};

use crate::Volume;
use fsd_bytes::Refusal;
use saved_map::save_map;
use sector_disk::{Failed, Machine};

impl Volume {
    // Whether a map that is saved now is believed by a mount: nothing waits, and no fewer pages are in use than the map has
    // sectors.
    fn saves(&self) -> bool
        ensures { result ≡ saves_now (state self.now) }
    {
        self.shadow.waiting().all == 0
            && self.layout.map_sectors() <= self.layout.pages() - self.table.free_pages.count()
    }

    // Saves the map of a volume that has nothing to force, and then says in both copies of its anchor that it was closed.
    fn save<M: Machine>(&self, m: &mut M) -> Result<(), Failed>
        requires idle { (state self.now).waiting ≡ [] }
        requires room { (state self.now).layout.sectors ≤ (M.report m.old).sectors }
        ensures disk { WritesDisk M.Machine (device_in failed_at result) (LeavesSaved self.now) m.old m.new }
        ensures rest { M.honest m.new → Touches (saving_writes self.now.layout) (M.now m.old) (M.now m.new) }
        ensures place { IfErr result (λ failed. IsTrue (saving_writes self.now.layout failed.place)) }
        ensures counted { M.tells m.new → Counted result (map_sectors self.now.layout + 2) (M.ledger m.old) (M.ledger m.new) }
        ensures saved { OnOk result (M.honest m.new → HasMapClosed (state self.now) (M.now m.new)) }
        ensures closes { OnOk result (M.honest m.new → (k : Known) → Stands state IsMemoryOf self.now k (M.now m.old) → (volume_of k).unforced ≡ 0 → Closes k (M.now m.new).image) }
    {
        let free_pages = self.table.free_pages.as_slice();
        save_map(
            m,
            &self.layout,
            &self.map,
            free_pages,
            self.log.epoch(),
            self.versions,
        )?;
        self.log.close_anchor(m)
    }

    /// Commits all changes, and saves the map where nothing waits on and the next mount will believe it.
    pub(crate) fn close_all<M: Machine>(&mut self, m: &mut M) -> Result<(), Refusal>
        requires { (state self.old).layout.sectors ≤ (M.report m.old).sectors }
        ensures order { InOrder (close_steps (state self.old)) m.old m.new result }
        ensures disk { WritesDisk M.Machine (device_in device_of result) (LeavesClosing state IsMemoryOf self.old) m.old m.new }
        ensures writes { WritesClosing M.Machine (state self.old) m.old m.new result }
        ensures causes { Causes M.Machine (resident self.old) (state self.old) (state self.old) m.old m.new result }
        ensures saves { IsTrue (saves (state self.old)) → OnOk result (M.honest m.new → HasSaved (state self.old) (M.now m.new)) }
        ensures done { M.honest m.new → (k : Known) → Stands state IsMemoryOf self.old k (M.now m.old) → MatchResult result (λ x. Closes k (M.now m.new).image) (λ why. IsDeviceRefusal why) }
    {
        self.attest();
        self.force_all(m)?;
        self.attest();
        if !self.saves() {
            return Ok(());
        }
        match self.save(m) {
            Ok(()) => Ok(()),
            Err(failed) => Err(Refusal::Device(failed.place)),
        }
    }
}
