//! Free pages that are kept in the cache, so that they can be taken.
ghost use Rattle.std.specs.Prelude.{◌≡◌, ◌⊎◌, ℕ, ◌+◌, ◌-◌, ◌^◌, ◌<◌, ◌≤◌, ◌↔◌, ◌++◌, ◌∷◌, [], Err, true, false, IfSome, IfNone, IfErr, OnOk, length, count_by, nat_eq, slice_index_or, slice_set};
ghost use Rattle.fsd_bytes.specs.declared.refusal.Refusal.TheVariants.{NameTableFull};
ghost use Rattle.name_page.specs.Pages.{IsOuter, outer_in};
ghost use Rattle.page_cache.specs.Cache.{pins_of, is_among, with_pins, with_dirty};
ghost use Rattle.page_cache.specs.declared.cache.TheConstants.{MOST_DIRTY};
ghost use Rattle.table_pages.specs.Bringing.{HasRoomFor};
ghost use Rattle.table_pages.specs.Sparing.{AreSpare, SparesOnly};

use crate::bringing::{bring, keep};
use crate::free::FreePages;
use arrayvec::ArrayVec;
use fsd_bytes::Refusal;
use page_cache::{Cache, PageSource};
use sector_disk::Machine;

/// How many free pages a table keeps in the cache at most, so that they can be taken.
pub const MOST_SPARE: usize = 16;

// The first free page that is not among these.
fn spare_beside(free: &FreePages, taken: &[u32]) -> Option<u32>
    ensures found { IfSome result (λ page. (slice_index_or free.now page false ≡ true) × (is_among taken.now page ≡ false)) }
    ensures none { IfNone result (count_by (λ free. free) free.now ≤ length taken.now) }
{
    for page in 0..free.pages() {
        if free.has(page) && !taken.contains(&page) {
            return Some(page);
        }
    }
    None
}

// Brings one free page more into the cache and keeps it.
fn add_spare<M: Machine, S: PageSource>(
    m: &mut M,
    cache: &mut Cache,
    source: &S,
    free: &FreePages,
    spares: &mut ArrayVec<u32, MOST_SPARE>,
) -> Result<(), Refusal>
    requires pages { S.pages source.now ≡ length free.now }
    requires sectors { S.sectors source.now ≤ (M.report m.old).sectors }
    requires room { HasRoomFor (16 - length spares.old.items) cache.old }
    requires spares { AreSpare free.now spares.old.items }
    requires few { length spares.old.items < 16 }
    requires more { length spares.old.items < count_by (λ free. free) free.now }
    ensures only { SparesOnly M.Machine S.PageSource source.now free.now (outer_in result) m.old m.new cache.old cache.new spares.old.items spares.new.items }
    ensures room { HasRoomFor (16 - length spares.new.items) cache.new }
    ensures added { OnOk result (length spares.new.items ≡ length spares.old.items + 1) }
    ensures few { length spares.new.items ≤ 16 }
    ensures more { length spares.old.items ≤ length spares.new.items }
    ensures cause { IfErr result IsOuter }
{
    let page = spare_beside(free, spares.as_slice()).unwrap();
    bring(m, cache, source, page)?;
    keep(cache, spares, page);
    Ok(())
}

// Brings free pages into the cache, until so many are kept.
fn add_spares<M: Machine, S: PageSource>(
    m: &mut M,
    cache: &mut Cache,
    source: &S,
    free: &FreePages,
    spares: &mut ArrayVec<u32, MOST_SPARE>,
    n: u32,
) -> Result<(), Refusal>
    requires pages { S.pages source.now ≡ length free.now }
    requires sectors { S.sectors source.now ≤ (M.report m.old).sectors }
    requires room { HasRoomFor (16 - length spares.old.items) cache.old }
    requires spares { AreSpare free.now spares.old.items }
    requires few { length spares.old.items ≤ 16 }
    requires most { n ≤ 16 }
    requires enough { n ≤ count_by (λ free. free) free.now }
    ensures only { SparesOnly M.Machine S.PageSource source.now free.now (outer_in result) m.old m.new cache.old cache.new spares.old.items spares.new.items }
    ensures few { length spares.new.items ≤ 16 }
    ensures more { length spares.old.items ≤ length spares.new.items }
    ensures kept { OnOk result (n ≤ length spares.new.items) }
    ensures cause { IfErr result IsOuter }
{
    for _ in spares.len() as u32..n {
        add_spare(m, cache, source, free, spares)?;
    }
    Ok(())
}

/// Sees that so many free pages are kept in the cache. More than [`MOST_SPARE`] have no room there.
pub fn spare_pages<M: Machine, S: PageSource>(
    m: &mut M,
    cache: &mut Cache,
    source: &S,
    free: &FreePages,
    spares: &mut ArrayVec<u32, MOST_SPARE>,
    n: u32,
) -> Result<(), Refusal>
    requires pages { S.pages source.now ≡ length free.now }
    requires sectors { S.sectors source.now ≤ (M.report m.old).sectors }
    requires room { HasRoomFor (16 - length spares.old.items) cache.old }
    requires spares { AreSpare free.now spares.old.items }
    requires few { length spares.old.items ≤ 16 }
    ensures only { SparesOnly M.Machine S.PageSource source.now free.now (outer_in result) m.old m.new cache.old cache.new spares.old.items spares.new.items }
    ensures few { length spares.new.items ≤ 16 }
    ensures more { length spares.old.items ≤ length spares.new.items }
    ensures kept { OnOk result (n ≤ length spares.new.items) }
    ensures full { let count = count_by (λ free. free) free.now in (result ≡ Err (NameTableFull count)) ↔ (count < n) }
    ensures cause { IfErr result (λ refusal. IsOuter refusal ⊎ (let count = count_by (λ free. free) free.now in (refusal ≡ NameTableFull count) × (count < n))) }
{
    let count = free.count();
    if count < n {
        return Err(Refusal::NameTableFull { free: count });
    }
    if n > MOST_SPARE as u32 {
        return Err(Refusal::Memory);
    }
    add_spares(m, cache, source, free, spares, n)
}

/// Takes the first free page that is kept. It is dirty now, which keeps it in the cache in place of the pin.
pub fn take_spare(
    cache: &mut Cache,
    free: &mut FreePages,
    spares: &mut ArrayVec<u32, MOST_SPARE>,
) -> u32
    requires some { 0 < length spares.old.items }
    requires pinned { (q : ℕ) → count_by (nat_eq q) spares.old.items ≤ pins_of cache.old q }
    requires spares { AreSpare free.old spares.old.items }
    requires room { length cache.old.dirty < MOST_DIRTY }
    ensures first { spares.old.items ≡ result ∷ spares.new.items }
    ensures cache { cache.new ≡ with_dirty result (with_pins result (pins_of cache.old result - 1) cache.old) }
    ensures free { free.new ≡ slice_set free.old result false }
{
    let page = spares.remove(0);
    cache.unpin(page);
    cache.dirty(page);
    free.remove(page);
    page
}
