//! The force of a volume.
ghost use Rattle.std.specs.Prelude.{◌≡◌, ◌≤◌};
ghost use Rattle.sector_disk.specs.Calls.{WritesDisk, device_in};
ghost use Rattle.fsd_files.specs.Answers.{force_outcome};
ghost use Rattle.fsd_files.specs.declared.reply.Reply.TheVariants.{Forced as IsForced};
ghost use Rattle.fsd_sound.specs.Writes.{force_writes};
ghost use Rattle.volume_contract.specs.Ends.{device_of, EndsForce};
ghost use Rattle.volume_contract.specs.Order.{InOrder, force_steps};
ghost use Rattle.volume_contract.specs.State.{Known, Leaves, Stands, WritesWithin, force_len, volume_of};
ghost use Rattle.volume_contract.specs.Telling.{TellsForce};
ghost use Rattle.volume_laws.specs.Forcing.{force_refusal, down_place};
ghost use Rattle.volume_laws.specs.Saving.{LeavesOpen};
ghost use Rattle.volume_laws.specs.State.{IsMemoryOf, resident, state};
ghost use Rattle.table_volume.specs.Forces.{KeepsOverForce};

use crate::Volume;
use crate::freeing::free_committed;
use fsd_bytes::Refusal;
use group_commit::Group;
use sector_disk::{LoadFault, Machine};
use volume_contract::Forced;

// What is said of a force's fault.
pub(crate) fn force_refusal(fault: LoadFault) -> Refusal
    ensures { result ≡ force_refusal fault }
{
    match fault {
        LoadFault::Device(place) => Refusal::Device(place),
        LoadFault::Lost { a, b } => Refusal::Lost { a, b },
    }
}

// Where a volume is down by it.
fn place_of(fault: LoadFault) -> u32
    ensures { result ≡ down_place fault }
{
    match fault {
        LoadFault::Device(place) => place,
        LoadFault::Lost { a, b: _ } => a,
    }
}

impl Volume {
    /// Commits all changes since the last force, where there were any. It takes no memory.
    pub(crate) fn force_all<M: Machine>(&mut self, m: &mut M) -> Result<Forced, Refusal>
        requires { (state self.old).layout.sectors ≤ (M.report m.old).sectors }
        ensures order { InOrder (force_steps (state self.old)) m.old m.new result }
        ensures disk { WritesDisk M.Machine (device_in device_of result) (Leaves state IsMemoryOf self.old (force_writes (state self.old).layout)) m.old m.new }
        ensures opened { WritesDisk M.Machine (device_in device_of result) (LeavesOpen self.old) m.old m.new }
        ensures writes { WritesWithin M.Machine (force_writes (state self.old).layout) (force_len (state self.old)) m.old m.new result }
        ensures keeps { KeepsOverForce self.old self.new result }
        ensures tells { TellsForce M.Machine (resident self.old) (state self.old) (state self.new) m.old m.new (resident self.new) result }
        ensures done { M.honest m.new → (k : Known) → Stands state IsMemoryOf self.old k (M.now m.old) →
            EndsForce state IsMemoryOf (λ met. force_outcome (volume_of k)) IsForced k self.new (M.now m.new) result }
    {
        self.is_up()?;
        if self.table.cache.dirty_list().len() == 0 {
            return Ok(Forced { pages: 0 });
        }
        self.log.attest();
        match Group::force_cached(m, &mut self.log, &mut self.table.cache, &mut self.room) {
            Ok(forced) => {
                self.log.attest();
                free_committed(&mut self.map, &mut self.shadow);
                Ok(Forced {
                    pages: forced.pages,
                })
            }
            Err(fault) => {
                self.down = Some(place_of(fault));
                Err(force_refusal(fault))
            }
        }
    }
}
