//! A version that is made and read back.
ghost use Rattle.std.specs.Prelude.{◌≡◌, ◌≤◌, length, None};
ghost use Rattle.fsd_files.specs.Files.{Change};
ghost use Rattle.sector_disk.specs.Calls.{WritesDisk, device_in};
ghost use Rattle.volume_contract.specs.State.{Known, Stands};
ghost use Rattle.volume_example.specs.Filling.{EndsRead};
ghost use Rattle.volume_example.specs.Stops.{LeavesOneMore, stopped_at};

use crate::fault::ExampleFault;
use fsd_bytes::{FileName, Key};
use sector_disk::Machine;
use volume_contract::Files;

/// Makes a version with these bytes, and reads it back into a buffer of as many.
pub fn put_and_read<M: Machine, V: Files<M>>(
    v: &mut V,
    m: &mut M,
    name: &FileName,
    bytes: &[u8],
    buf: &mut [u8],
) -> Result<Key, ExampleFault>
    requires room { (V.state v.old).layout.sectors ≤ (M.report m.old).sectors }
    requires fits { length buf.old ≡ length bytes.now }
    ensures layout { (V.state v.new).layout ≡ (V.state v.old).layout }
    ensures disk { WritesDisk M.Machine (device_in stopped_at result) (LeavesOneMore V.state V.holds v.old (Change.Put name.now None bytes.now)) m.old m.new }
    ensures done { M.honest m.new → (k : Known) → Stands V.state V.holds v.old k (M.now m.old) → EndsRead V.state V.holds name.now bytes.now k v.new (M.now m.new) buf.new result }
{
    match v.put(m, name, None, bytes) {
        Ok(key) => match v.read(m, &key, 0, buf) {
            Ok(_) => Ok(key),
            Err(why) => Err(ExampleFault::Behind { key, why }),
        },
        Err(why) => Err(ExampleFault::Put(why)),
    }
}
