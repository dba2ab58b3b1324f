//! A volume as its callers see it.
use crate::Volume;
use crate::forcing::force_refusal;
use crate::growing::write_grown;
use crate::mounting::open_settled;
use crate::pieces::{sectors_of, small};
use crate::reading::read_version;
use fsd_bytes::{FileName, Key, Refusal};
use fsd_formats::Entry;
use fsd_sound::MountFault;
use mount_recover::recover;
use sector_disk::{Machine, Seen};
use std::alloc::Global;
use twin_home::{heal_twins, write_roots};
use version_data::{heal_leader, read_slice, write_slices};
use volume_contract::{Draft, Files, Forced, Held, Stat};
use volume_layout::Kind;

impl<M: Machine> Files<M> for Volume {
    ghost use Rattle.volume_laws.specs.State.{IsMemoryOf, resident, state};
    ghost use Rattle.volume_laws.specs.WearLaws.{stands_worn};

    ghost state = { state };

    ghost resident = { resident };

    ghost holds = { IsMemoryOf };

    ghost wears = { stands_worn };

    ghost shows = { λ v mounted records page bytes has there. has.pages page bytes there };

    fn mount(alloc: Global, m: &mut M, sectors: u32) -> Result<Self, MountFault> {
        let settled = recover(alloc, m, sectors)?;
        open_settled(alloc, m, settled)
    }

    fn put(
        &mut self,
        m: &mut M,
        name: &FileName,
        keep: Option<u32>,
        bytes: &[u8],
    ) -> Result<Key, Refusal> {
        self.may_put(keep, bytes.len())?;
        let draft = self.prepared(m, name, bytes)?;
        self.entered(m, name, keep, draft)
    }

    fn load(&mut self, m: &mut M, key: &Key, keep: u32, bytes: &[u8]) -> Result<(), Refusal> {
        self.may_put(Some(keep), bytes.len())?;
        let draft = self.prepared(m, &key.name, bytes)?;
        self.loaded(m, key, keep, draft)
    }

    fn delete(&mut self, m: &mut M, key: &Key) -> Result<(), Refusal> {
        self.may_change()?;
        self.force_first(m)?;
        self.delete_now(m, key)
    }

    fn set_keep(&mut self, m: &mut M, name: &FileName, keep: u32) -> Result<Key, Refusal> {
        self.may_keep(keep)?;
        self.force_first(m)?;
        self.keep_now(m, name, keep)
    }

    fn move_to(&mut self, m: &mut M, key: &Key, name: &FileName) -> Result<Key, Refusal> {
        self.may_change()?;
        self.force_first(m)?;
        self.move_now(m, key, name)
    }

    fn entry(&mut self, m: &mut M, key: &Key) -> Result<Entry, Refusal> {
        self.version(m, key)
    }

    fn next_after(&mut self, m: &mut M, after: Option<&Key>) -> Result<Option<Entry>, Refusal> {
        self.attest();
        self.is_up()?;
        let found = self.find_next(m, after)?;
        self.met_found(found)
    }

    fn read(&mut self, m: &mut M, key: &Key, from: u32, buf: &mut [u8]) -> Result<u32, Refusal> {
        let e = self.version(m, key)?;
        read_version(m, &e, from, buf)
    }

    fn reserve(&mut self, m: &mut M, length: u64) -> Result<Draft, Refusal> {
        self.may_put(None, length as usize)?;
        let size = small(length);
        let runs = self.placed(m, sectors_of(size))?;
        Ok(self.begun(size, runs))
    }

    fn write_slices(
        &mut self,
        m: &mut M,
        draft: &Draft,
        first: u32,
        bytes: &[u8],
    ) -> Result<(), Refusal> {
        self.attest();
        self.is_up()?;
        match write_slices(m, &draft.runs, first, bytes) {
            Ok(()) => Ok(()),
            Err(failed) => Err(Refusal::Device(failed.place)),
        }
    }

    fn enter(
        &mut self,
        m: &mut M,
        name: &FileName,
        keep: Option<u32>,
        draft: Draft,
    ) -> Result<Key, (Draft, Refusal)> {
        let entry = self.creation(name, &draft);
        match self.finished(m, name, keep, entry) {
            Ok(key) => {
                let Draft {
                    length: _,
                    serial: _,
                    runs: _,
                } = draft;
                Ok(key)
            }
            Err(refusal) => Err((draft, refusal)),
        }
    }

    fn abandon(&mut self, draft: Draft) {
        let Draft {
            length: _,
            serial: _,
            runs,
        } = draft;
        self.shadow.ended(&runs);
        self.map.release(&runs);
    }

    fn hold(&mut self, m: &mut M, key: &Key) -> Result<Held, Refusal> {
        let entry = self.version(m, key)?;
        let place = self.held_at(&entry);
        Ok(Held { entry, place })
    }

    fn read_held(
        &mut self,
        m: &mut M,
        held: &Held,
        from: u32,
        buf: &mut [u8],
    ) -> Result<u32, Refusal> {
        self.attest();
        self.is_up()?;
        read_version(m, &held.entry, from, buf)
    }

    fn unhold(&mut self, held: Held) {
        let Held { entry: _, place } = held;
        if let Some(runs) = self.shadow.unhold(place) {
            self.map.release(&runs);
        }
    }

    fn force(&mut self, m: &mut M) -> Result<Forced, Refusal> {
        self.force_all(m)
    }

    fn heal(&mut self, m: &mut M) -> Result<u32, Refusal> {
        self.is_up()?;
        match heal_twins(m, &self.layout) {
            Ok(count) => Ok(count),
            Err(fault) => Err(force_refusal(fault)),
        }
    }

    fn heal_leader(&mut self, m: &mut M, e: &Entry) -> Result<bool, Refusal> {
        self.is_up()?;
        match heal_leader(m, e) {
            Ok(written) => Ok(written),
            Err(failed) => Err(Refusal::Device(failed.place)),
        }
    }

    fn probe(&mut self, m: &mut M, e: &Entry, slice: u32) -> Result<Seen, Refusal> {
        self.is_up()?;
        match read_slice(m, e, slice) {
            Ok(seen) => Ok(seen),
            Err(failed) => Err(Refusal::Device(failed.place)),
        }
    }

    fn read_entry(
        &mut self,
        m: &mut M,
        e: &Entry,
        from: u32,
        buf: &mut [u8],
    ) -> Result<u32, Refusal> {
        self.attest();
        self.is_up()?;
        read_version(m, e, from, buf)
    }

    fn stat(&self) -> Stat {
        Stat {
            sectors: self.layout.sectors(),
            free: self.map.free_count(),
            waiting: self.shadow.waiting().all,
            pages_free: self.table.free_pages.count(),
            versions: self.versions,
        }
    }

    fn fresh(&self) -> bool {
        self.log.next_number() == 1
            && !self.log.has_pages()
            && self.table.cache.dirty_list().len() == 0
    }

    fn upgrade(&mut self, m: &mut M) -> Result<(), Refusal> {
        self.is_up()?;
        match self.layout.kind() {
            Kind::Two => {}
            Kind::Three => return Err(Refusal::LayoutIs(2)),
        }
        let layout = self.layout.with_kind(Kind::Three);
        match write_roots(m, &layout) {
            Ok(()) => {
                self.log.set_kind(Kind::Three);
                self.layout = layout;
                Ok(())
            }
            Err(failed) => {
                self.down = Some(failed.place);
                Err(Refusal::Device(failed.place))
            }
        }
    }

    fn grow(&mut self, m: &mut M, sectors: u32) -> Result<u32, Refusal> {
        self.may_grow(sectors)?;
        let layout = self.layout.with_sectors(sectors);
        match write_grown(m, &layout) {
            Ok(()) => Ok(self.grown(layout)),
            Err(failed) => {
                self.down = Some(failed.place);
                Err(Refusal::Device(failed.place))
            }
        }
    }

    fn close(mut self, m: &mut M) -> Result<(), Refusal> {
        self.close_all(m)
    }
}
