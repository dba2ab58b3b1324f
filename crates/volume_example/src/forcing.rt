//! A version that is there for good.
ghost use Rattle.std.specs.Prelude.{◌≡◌, ◌≤◌, ℕ, None, Some, OnOk};
ghost use Rattle.fsd_files.specs.Files.{Change};
ghost use Rattle.sector_disk.specs.Calls.{device_in, failed_at as sync_failed_at};
ghost use Rattle.sector_disk.specs.Machine.{IsSynced};
ghost use Rattle.volume_contract.specs.State.{Known, Stands};
ghost use Rattle.volume_example.specs.Forcing.{EndsForGood, IsRefusedDown};
ghost use Rattle.volume_example.specs.Stops.{LeavesOneMore, stopped_at};
ghost use Rattle.volume_example.specs.Syncs.{SyncsDisk, WritesForGood};

use crate::fault::ExampleFault;
use fsd_bytes::{FileName, Key};
use sector_disk::{Failed, Machine};
use volume_contract::Files;

/// Makes a version with these bytes, commits it with all that waited, and brings it to the disk: at Ok each stop leaves it.
pub fn put_and_force<M: Machine, V: Files<M>>(
    v: &mut V,
    m: &mut M,
    name: &FileName,
    bytes: &[u8],
) -> Result<Key, ExampleFault>
    requires { (V.state v.old).layout.sectors ≤ (M.report m.old).sectors }
    ensures layout { (V.state v.new).layout ≡ (V.state v.old).layout }
    ensures disk { WritesForGood M.Machine (device_in stopped_at result) (LeavesOneMore V.state V.holds v.old (Change.Put name.now None bytes.now)) m.old m.new }
    ensures down { (place : ℕ) → (V.state v.old).down ≡ Some place → IsRefusedDown place result }
    ensures done { M.honest m.new → (k : Known) → Stands V.state V.holds v.old k (M.now m.old) → EndsForGood V.state V.holds name.now bytes.now k v.new (M.now m.new) result }
{
    match v.put(m, name, None, bytes) {
        Ok(key) => match v.force(m) {
            Ok(_) => match sync(m) {
                Ok(()) => Ok(key),
                Err(failed) => Err(ExampleFault::Unsynced {
                    key,
                    place: failed.place,
                }),
            },
            Err(why) => Err(ExampleFault::Behind { key, why }),
        },
        Err(why) => Err(ExampleFault::Put(why)),
    }
}

// Brings all that was written to the disk.
fn sync<M: Machine>(m: &mut M) -> Result<(), Failed>
    ensures syncs { SyncsDisk M.Machine (device_in sync_failed_at result) m.old m.new }
    ensures synced { OnOk result (M.honest m.new → IsSynced (M.now m.new)) }
{
    m.sync()
}
