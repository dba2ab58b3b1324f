//! A mounted volume together with the machine under it, and the calls of the example.
ghost use Rattle.std.specs.Prelude.{◌≡◌, ◌≤◌, IfOk, length};
ghost use Rattle.memory_machine.specs.Memory.{memory_report};
ghost use Rattle.volume_laws.specs.State.{state};

use fsd_bytes::{FileName, Key, Refusal};
use memory_machine::{Event, MemoryMachine};
use sector_disk::{Attach, Machine};
use std::alloc::Global;
use std::marker::Model;
use std::test::Fail;
use table_volume::Volume;
use volume_contract::Files;
use volume_example::ExampleFault;

/// A mounted volume, and the machine in memory that has its image.
#[derive(Drop)]
pub struct Mounted {
    pub(crate) m: MemoryMachine,
    pub(crate) v: Volume,
}

impl Model for Mounted {
    ghost use Rattle.std.specs.Prelude.{ℕ, ◌≤◌};
    ghost use Rattle.memory_machine.specs.Memory.{memory_report};
    ghost use Rattle.volume_laws.specs.State.{state};

    ghost Value = { ℕ };

    ghost view = { λ r. (state r.v).layout.sectors };

    ghost invariant = { λ r. (state r.v).layout.sectors ≤ (memory_report r.m).sectors };
}

/// What the machine has, with these events to come, attached, and its sectors.
pub(crate) fn attached(
    alloc: Global,
    m: MemoryMachine,
    events: &[Event],
) -> Result<(MemoryMachine, u32), Fail>
    ensures { IfOk result (λ attached. attached.1 ≡ (memory_report attached.0).sectors) }
{
    let mut m = m.again(events.to_vec(alloc)?, Vec::new(alloc));
    let sectors = m.attach("w", Attach::Old)?;
    Ok((m, sectors))
}

impl Mounted {
    /// Mounts what the machine has, with these events to come, which count the attach as the first call.
    pub(crate) fn on(alloc: Global, m: MemoryMachine, events: &[Event]) -> Result<Mounted, Fail> {
        let (mut m, sectors) = attached(alloc, m, events)?;
        let v = Volume::mount(alloc, &mut m, sectors)?;
        Ok(Mounted { m, v })
    }

    /// The machine, as a stop leaves it.
    pub(crate) fn stopped(self) -> MemoryMachine {
        let Mounted { m, v: _ } = self;
        m
    }

    /// Makes a version with these bytes, and reads it back into a buffer of as many.
    pub(crate) fn put_and_read(
        &mut self,
        name: &FileName,
        bytes: &[u8],
        buf: &mut [u8],
    ) -> Result<Key, ExampleFault>
        requires { length buf.old ≡ length bytes.now }
    {
        volume_example::put_and_read(&mut self.v, &mut self.m, name, bytes, buf)
    }

    /// Makes a version with these bytes, and forces it.
    pub(crate) fn put_and_force(
        &mut self,
        name: &FileName,
        bytes: &[u8],
    ) -> Result<Key, ExampleFault> {
        volume_example::put_and_force(&mut self.v, &mut self.m, name, bytes)
    }

    /// How many versions a walk meets.
    pub(crate) fn count(&mut self) -> Result<u32, Refusal> {
        volume_example::count(&mut self.v, &mut self.m)
    }
}
