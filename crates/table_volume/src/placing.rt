//! Where new versions go.
ghost use Rattle.std.specs.Prelude.{◌≡◌, ◌≤◌, IfOk, None};
ghost use Rattle.sector_disk.specs.Calls.{WritesDisk, device_in};
ghost use Rattle.fsd_sound.specs.Writes.{force_writes};
ghost use Rattle.volume_contract.specs.Ends.{device_of};
ghost use Rattle.volume_contract.specs.State.{Known, Leaves, Stands, WritesWithin};
ghost use Rattle.volume_laws.specs.Placing.{EndsPlace, IsPlace, place_len, place_now, place_steps};
ghost use Rattle.volume_laws.specs.State.{IsMemoryOf, state};
ghost use Rattle.table_volume.specs.Forces.{TellsBehind};
ghost use Rattle.table_volume.specs.Puts.{FindsPlace};

use crate::Volume;
use alloc_map::NoPlace;
use fsd_bytes::Refusal;
use run_table::Runs;
use sector_disk::Machine;

impl Volume {
    // Where so many sectors go now.
    fn chosen(&self, need: u32) -> Result<Runs, Refusal>
        requires { 1 ≤ need }
        ensures place { result ≡ place_now (state self.now) need }
        ensures free { IfOk result (IsPlace self.now.map need) }
    {
        match self.map.choose(need) {
            Ok(runs) => Ok(runs),
            Err(NoPlace::NoSpace { need, free }) => Err(Refusal::NoSpace { need, free }),
            Err(NoPlace::TooFragmented { need, best }) => {
                Err(Refusal::TooFragmented { need, best })
            }
        }
    }

    // Whether a sector waits for a force.
    fn waits(&self) -> bool
        ensures { result ≡ (state self.now).waits }
    {
        self.shadow.waiting().removed > 0
    }

    /// Where so many sectors go: behind a force, where there is no place and a sector waits for one. They stay free.
    pub(crate) fn placed<M: Machine>(&mut self, m: &mut M, need: u32) -> Result<Runs, Refusal>
        requires room { (state self.old).layout.sectors ≤ (M.report m.old).sectors }
        requires some { 1 ≤ need }
        requires up { self.old.down ≡ None }
        ensures keeps { FindsPlace need self.old self.new result }
        ensures disk { WritesDisk M.Machine (device_in device_of result) (Leaves state IsMemoryOf self.old (force_writes (state self.old).layout)) m.old m.new }
        ensures writes { WritesWithin M.Machine (force_writes (state self.old).layout) (place_len (state self.old) need) m.old m.new result }
        ensures tells { TellsBehind M.Machine (place_steps (state self.old) need) self.old self.new m.old m.new result }
        ensures done { M.honest m.new → (k : Known) → Stands state IsMemoryOf self.old k (M.now m.old) → EndsPlace need k self.new (M.now m.new) result }
    {
        self.attest();
        let place = self.chosen(need);
        if place.is_ok() || !self.waits() {
            return place;
        }
        self.force_all(m)?;
        self.chosen(need)
    }
}
