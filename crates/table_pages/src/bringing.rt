//! Pages of the table that are brought into the cache and kept there.
ghost use Rattle.std.specs.Prelude.{◌≡◌, ◌⊎◌, ℕ, ◌+◌, ◌-◌, ◌^◌, ◌<◌, ◌≤◌, ◌++◌, ◌∷◌, [], Err, true, false, IfErr, MatchResult, OnOk, length, count_by, nat_eq, slice_index_or};
ghost use Rattle.arrayvec.specs.ArrayVec.{array_vec_len};
ghost use Rattle.fsd_bytes.specs.declared.refusal.Refusal.TheVariants.{Unsound};
ghost use Rattle.name_page.specs.Pages.{IsOuter, outer_in};
ghost use Rattle.page_cache.specs.Cache.{IsResident, pins_of, with_pins};
ghost use Rattle.table_pages.specs.Bringing.{FetchesOnly, HasRoomFor, IsAtHand, IsBrought, IsHit, IsPageRefused, OnlyPins, FindsAtHand, home_in, refusal_for};

use crate::free::FreePages;
use arrayvec::ArrayVec;
use fsd_bytes::Refusal;
use page_cache::{Cache, CacheFault, PageSource};
use sector_disk::{LoadFault, Machine};

fn refusal_of(fault: CacheFault) -> Refusal
    ensures { result ≡ refusal_for fault }
{
    match fault {
        CacheFault::Load(LoadFault::Device(place)) => Refusal::Device(place),
        CacheFault::Load(LoadFault::Lost { a, b }) => Refusal::Lost { a, b },
        CacheFault::Memory => Refusal::Memory,
    }
}

/// Brings a page into the cache.
pub fn bring<M: Machine, S: PageSource>(
    m: &mut M,
    cache: &mut Cache,
    source: &S,
    page: u32,
) -> Result<(), Refusal>
    requires page { page < S.pages source.now }
    requires sectors { S.sectors source.now ≤ (M.report m.old).sectors }
    requires room { HasRoomFor 1 cache.old }
    ensures fetches { FetchesOnly M.Machine S.PageSource source.now (outer_in result) m.old m.new cache.old cache.new }
    ensures pins { (q : ℕ) → pins_of cache.new q ≡ pins_of cache.old q }
    ensures there { OnOk result (IsResident cache.new page) }
    ensures hit { IsResident cache.old page → MatchResult result (λ x. IsHit m.old m.new cache.old cache.new) (λ refusal. ⊥) }
    ensures cause { IfErr result IsOuter }
{
    cache.attest();
    match cache.fetch(m, page, source) {
        Ok(_) => Ok(()),
        Err(fault) => Err(refusal_of(fault)),
    }
}

/// Brings a page that is in use into the cache, if the grammar accepts it. `home_a` is the first sector of the homes A.
pub fn bring_used<M: Machine, S: PageSource>(
    m: &mut M,
    cache: &mut Cache,
    source: &S,
    free: &FreePages,
    home_a: u32,
    page: u32,
) -> Result<(), Refusal>
    requires pages { S.pages source.now ≡ length free.now }
    requires page { page < S.pages source.now }
    requires sectors { S.sectors source.now ≤ (M.report m.old).sectors }
    requires room { HasRoomFor 1 cache.old }
    ensures fetches { FetchesOnly M.Machine S.PageSource source.now (outer_in result) m.old m.new cache.old cache.new }
    ensures pins { (q : ℕ) → pins_of cache.new q ≡ pins_of cache.old q }
    ensures at_hand { IsAtHand free.now cache.old page → FindsAtHand (outer_in result) m.old m.new cache.old cache.new }
    ensures done { OnOk result (IsBrought free.now cache.new page) }
    ensures spare { slice_index_or free.now page false ≡ true → result ≡ Err (Unsound (home_in home_a page)) }
    ensures cause { IfErr result (λ refusal. IsOuter refusal ⊎ ((refusal ≡ Unsound (home_in home_a page)) × IsPageRefused free.now cache.new page)) }
{
    if free.has(page) {
        return Err(Refusal::Unsound(home_a.wrapping_add(page)));
    }
    bring(m, cache, source, page)?;
    if cache.is_accepted(page, free.pages()) {
        Ok(())
    } else {
        Err(Refusal::Unsound(home_a.wrapping_add(page)))
    }
}

/// Pins a page, and notes that in a list.
pub fn keep<const N: usize>(cache: &mut Cache, list: &mut ArrayVec<u32, N>, page: u32)
    requires resident { IsResident cache.old page }
    requires few { pins_of cache.old page < 2 ^ 32 - 1 }
    requires room { array_vec_len list.old < N }
    ensures noted { list.new.items ≡ list.old.items ++ page ∷ [] }
    ensures pinned { cache.new ≡ with_pins page (pins_of cache.old page + 1) cache.old }
{
    cache.pin(page);
    list.push(page);
}

// Unpins each page of a list as often as it stands there.
fn unpin_all(cache: &mut Cache, pages: &[u32])
    requires { (q : ℕ) → count_by (nat_eq q) pages.now ≤ pins_of cache.old q }
    ensures pins { (q : ℕ) → pins_of cache.new q + count_by (nat_eq q) pages.now ≡ pins_of cache.old q }
    ensures only { OnlyPins cache.old cache.new }
{
    for page in pages {
        cache.unpin(*page);
    }
}

/// Unpins each page of a list, and empties the list.
pub fn release<const N: usize>(cache: &mut Cache, list: &mut ArrayVec<u32, N>)
    requires { (q : ℕ) → count_by (nat_eq q) list.old.items ≤ pins_of cache.old q }
    ensures none { list.new.items ≡ [] }
    ensures pins { (q : ℕ) → pins_of cache.new q + count_by (nat_eq q) list.old.items ≡ pins_of cache.old q }
    ensures only { OnlyPins cache.old cache.new }
{
    unpin_all(cache, list.as_slice());
    list.clear();
}
