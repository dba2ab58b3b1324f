//! Look-ups in a table over a cache.
ghost use Rattle.std.specs.Prelude.{◌≡◌, ℕ, IfOk, IfErr, length};
ghost use Rattle.std.specs.Option.{option_copied};
ghost use Rattle.table_pages.specs.Bringing.{IsTrusted};
ghost use Rattle.table_pages.specs.Kept.{IsReady};
ghost use Rattle.fsd_table.specs.Tree.{IsTree, table_of};
ghost use Rattle.name_page.specs.Lookups.{first_after, entry_with, highest_of};
ghost use Rattle.name_btree.specs.Fault.{outer_told};
ghost use Rattle.name_btree.specs.Lookup.{found_entry};
ghost use Rattle.cached_table.specs.Finding.{FailsToFind, FindsKey, FindsLater, FindsNewest, SparesMemory};
ghost use Rattle.cached_table.specs.Looking.{LooksOnly, images_by, refusal_in, told_from};

use crate::CachedTable;
use fsd_bytes::{FileName, Key, Refusal};
use name_btree::{FoundEntry, TreeFault, find, highest, next_after};
use name_page::Pages;
use page_cache::PageSource;
use sector_disk::Machine;
use table_pages::Table;

impl CachedTable {
    /// The entry with this key, with the page of its leaf. `home_a` is the first sector of the homes A.
    pub fn find<M: Machine, S: PageSource>(
        &mut self,
        m: &mut M,
        source: &S,
        home_a: u32,
        key: &Key,
    ) -> Result<Option<FoundEntry>, TreeFault>
        requires { IsReady M.Machine S.PageSource m.old self.old.cache source.now self.old.free_pages }
        ensures looks { LooksOnly M.Machine S.PageSource source.now (outer_told result) m.old m.new self.old.cache self.new.cache self.old.free_pages }
        ensures free { self.new.free_pages ≡ self.old.free_pages }
        ensures told { IfOk result (FindsKey self.new.cache (length self.old.free_pages) key.now) }
        ensures found { IfOk result (λ found. IsTrusted M.Machine S.PageSource source.now m.old self.old.cache m.new → (height : ℕ) →
            let pages = images_by M.Machine S.PageSource source.now m.old self.old.cache (length self.old.free_pages) in IsTree pages height → found_entry found ≡ entry_with key.now (table_of pages height)) }
        ensures failed { IfErr result (FailsToFind M.Machine S.PageSource source.now m.old m.new self.old.cache self.new.cache self.old.free_pages home_a) }
    {
        let mut table = Table::new(m, &mut self.cache, source, home_a, &mut self.free_pages);
        let found = find(&mut table, key);
        table.rest();
        found
    }

    /// The entry with the least later key, with the page of its leaf. `home_a` is the first sector of the homes A.
    pub fn next_after<M: Machine, S: PageSource>(
        &mut self,
        m: &mut M,
        source: &S,
        home_a: u32,
        after: Option<&Key>,
    ) -> Result<Option<FoundEntry>, TreeFault>
        requires { IsReady M.Machine S.PageSource m.old self.old.cache source.now self.old.free_pages }
        ensures looks { LooksOnly M.Machine S.PageSource source.now (outer_told result) m.old m.new self.old.cache self.new.cache self.old.free_pages }
        ensures free { self.new.free_pages ≡ self.old.free_pages }
        ensures told { IfOk result (FindsLater self.new.cache (length self.old.free_pages) (option_copied after.entry)) }
        ensures found { IfOk result (λ found. IsTrusted M.Machine S.PageSource source.now m.old self.old.cache m.new → (height : ℕ) →
            let pages = images_by M.Machine S.PageSource source.now m.old self.old.cache (length self.old.free_pages) in IsTree pages height → found_entry found ≡ first_after (option_copied after.entry) (table_of pages height)) }
        ensures failed { IfErr result (FailsToFind M.Machine S.PageSource source.now m.old m.new self.old.cache self.new.cache self.old.free_pages home_a) }
    {
        let mut table = Table::new(m, &mut self.cache, source, home_a, &mut self.free_pages);
        let found = next_after(&mut table, after);
        table.rest();
        found
    }

    /// The entry with the highest version of a name, with the page of its leaf.
    /// `home_a` is the first sector of the homes A.
    pub fn highest<M: Machine, S: PageSource>(
        &mut self,
        m: &mut M,
        source: &S,
        home_a: u32,
        name: &FileName,
    ) -> Result<Option<FoundEntry>, TreeFault>
        requires { IsReady M.Machine S.PageSource m.old self.old.cache source.now self.old.free_pages }
        ensures looks { LooksOnly M.Machine S.PageSource source.now (outer_told result) m.old m.new self.old.cache self.new.cache self.old.free_pages }
        ensures free { self.new.free_pages ≡ self.old.free_pages }
        ensures memory { SparesMemory self.old.free_pages name.now (outer_told result) self.old.cache self.new.cache }
        ensures told { IfOk result (FindsNewest self.new.cache (length self.old.free_pages) name.now) }
        ensures found { IfOk result (λ found. IsTrusted M.Machine S.PageSource source.now m.old self.old.cache m.new → (height : ℕ) →
            let pages = images_by M.Machine S.PageSource source.now m.old self.old.cache (length self.old.free_pages) in IsTree pages height → found_entry found ≡ highest_of name.now (table_of pages height)) }
        ensures failed { IfErr result (FailsToFind M.Machine S.PageSource source.now m.old m.new self.old.cache self.new.cache self.old.free_pages home_a) }
    {
        let mut table = Table::new(m, &mut self.cache, source, home_a, &mut self.free_pages);
        let found = highest(&mut table, name);
        table.rest();
        found
    }
}

/// What was found, or the refusal that a fault is.
pub fn told(
    found: Result<Option<FoundEntry>, TreeFault>,
    home_a: u32,
) -> Result<Option<FoundEntry>, Refusal>
    ensures { result ≡ told_from home_a found }
{
    match found {
        Ok(found) => Ok(found),
        Err(fault) => Err(table_refusal(fault, home_a)),
    }
}

/// The refusal that a fault of the table is.
pub(crate) fn table_refusal(fault: TreeFault, home_a: u32) -> Refusal
    ensures { result ≡ refusal_in home_a fault }
{
    match fault {
        TreeFault::Pages(refusal) => refusal,
        TreeFault::Broken(page) => Refusal::Unsound(home_a.wrapping_add(page)),
    }
}
