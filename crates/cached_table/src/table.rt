//! `CachedTable`.
use page_cache::Cache;
use table_pages::FreePages;

/// A name table in memory: those of its pages that are in the cache, and which of them are free.
#[derive(Drop)]
pub struct CachedTable {
    pub cache: Cache,
    pub free_pages: FreePages,
}
