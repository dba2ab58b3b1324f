//! `Table`.
ghost use Rattle.std.specs.Prelude.{◌≡◌, ◌<◌, ◌≤◌, ◌^◌, []};
ghost use Rattle.table_pages.specs.Kept.{IsKeptSince};

use crate::bringing::{bring_used, keep, release};
use crate::free::FreePages;
use crate::sparing::{MOST_SPARE, spare_pages, take_spare};
use arrayvec::ArrayVec;
use fsd_bytes::Refusal;
use name_page::{MOST_REACHED, Pages};
use page_cache::{Cache, PageSource};
use sector_disk::Machine;
use std::snapshot::Snapshot;

/// The pages of a name table over a cache of at least 192 frames. A page that is changed waits in the cache until a
/// force has written it: at most [`MOST_DIRTY`](page_cache::MOST_DIRTY) do,
/// and what is left of them is the leave to change.
pub struct Table<'a, M: Machine, S: PageSource> {
    m: &'a mut M,
    cache: &'a mut Cache,
    source: &'a S,
    home_a: u32,
    free: &'a mut FreePages,
    reached: ArrayVec<u32, MOST_REACHED>,
    // Free pages that are pinned, so that they can be taken: the promised ones, and maybe more.
    spares: ArrayVec<u32, MOST_SPARE>,
    promised: u32,
    refusal: Option<Refusal>,
    // The machine and the cache as they were when the table was made.
    made_over: Snapshot<M>,
    made_with: Snapshot<Cache>,
    ghost kept: { IsKeptSince M.Machine S.PageSource made_over.value made_with.value m.now cache.now source.now free.now reached.items spares.items promised },
}

impl<'a, M: Machine, S: PageSource> Table<'a, M, S> {
    ghost use Rattle.table_pages.specs.Bringing.{given_by};
    ghost use Rattle.table_pages.specs.Kept.{IsReady};
    ghost use Rattle.table_pages.specs.Table.{step_of, fresh_step, IsOver};

    /// A table over these. `home_a` is the first sector of the homes A.
    pub fn new(
        m: &'a mut M,
        cache: &'a mut Cache,
        source: &'a S,
        home_a: u32,
        free: &'a mut FreePages,
    ) -> Table<'a, M, S>
        requires { IsReady M.Machine S.PageSource m.old cache.old source.now free.old }
        ensures over { IsOver m.entry cache.entry source.now free.entry result }
        ensures step { step_of result ≡ fresh_step (given_by M.Machine S.PageSource source.now m.old) cache.old free.old home_a }
    {
        cache.attest();
        let made_over = Snapshot::of(&*m);
        let made_with = Snapshot::of(&*cache);
        Table {
            m,
            cache,
            source,
            home_a,
            free,
            reached: ArrayVec::new(),
            spares: ArrayVec::new(),
            promised: 0,
            refusal: None,
            made_over,
            made_with,
        }
    }
}

impl<'a, M: Machine, S: PageSource> Drop for Table<'a, M, S> {
    fn drop(self)
        ensures machine { self.exit.0.now ≡ self.entry.m.now }
        ensures cache { self.exit.1.0.now ≡ self.entry.cache.now }
        ensures free { self.exit.1.1.1.1.0.now ≡ self.entry.free.now }
    {
        let Table {
            m: _,
            cache: _,
            source: _,
            home_a: _,
            free: _,
            reached: _,
            spares: _,
            promised: _,
            refusal: _,
            made_over: _,
            made_with: _,
        } = self;
    }
}

impl<'a, M: Machine, S: PageSource> Pages for Table<'a, M, S> {
    ghost use Rattle.std.specs.Prelude.{None};
    ghost use Rattle.name_page.specs.Pages.{NeedsNoMemory, rested};
    ghost use Rattle.table_pages.specs.Table.{cache_of, free_of, machine_of, step_of, table_written, HasPage, LeavesTable, ReadsOnly, Trusted};
    ghost use Rattle.table_pages.specs.TableLaws.{step_written, reads_written, reads_still, reads_then, trusted_earlier, few_images, as_many};

    ghost step = { step_of };

    ghost written = { table_written };

    ghost trusted = { Trusted };

    ghost in_memory = { HasPage };

    ghost outside = { ReadsOnly };

    ghost changed = { step_written };

    ghost quiet = { reads_written M.only_now };

    ghost still = { reads_still M.only_now };

    ghost then = { reads_then };

    ghost trust = { trusted_earlier };

    ghost small = { few_images };

    ghost flags = { as_many };

    fn count(&self) -> u32 {
        self.free.pages()
    }

    fn reach(&mut self, page: u32) -> Result<(), Refusal> {
        match bring_used(
            self.m,
            self.cache,
            self.source,
            self.free,
            self.home_a,
            page,
        ) {
            Ok(()) => {
                keep(self.cache, &mut self.reached, page);
                Ok(())
            }
            Err(refusal) => {
                self.refusal = Some(refusal);
                Err(refusal)
            }
        }
    }

    fn spare(&mut self, n: u32) -> Result<(), Refusal> {
        match spare_pages(
            self.m,
            self.cache,
            self.source,
            self.free,
            &mut self.spares,
            n,
        ) {
            Ok(()) => {
                self.promised = n;
                Ok(())
            }
            Err(refusal) => {
                self.refusal = Some(refusal);
                Err(refusal)
            }
        }
    }

    fn look(&self, page: u32) -> &[u8; 512] {
        self.cache.bytes(page)
    }

    fn change(&mut self, page: u32) -> &mut [u8; 512] {
        self.cache.dirty(page);
        self.cache.bytes_mut(page)
    }

    fn take(&mut self) -> u32 {
        self.promised -= 1;
        take_spare(self.cache, self.free, &mut self.spares)
    }

    fn give_back(&mut self, page: u32) {
        self.free.add(page);
    }

    fn rest(&mut self)
        ensures outside { ReadsOnly None self.old self.new }
        ensures memory { NeedsNoMemory step_of HasPage None self.old self.new }
        ensures step { step_of self.new ≡ rested (step_of self.old) }
        ensures left { LeavesTable self.old (machine_of self.new) (cache_of self.new) (free_of self.new) }
    {
        self.promised = 0;
        self.refusal = None;
        release(self.cache, &mut self.reached);
        release(self.cache, &mut self.spares);
    }
}
