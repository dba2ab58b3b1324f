//! Laws of a volume that stands over a disk: the functions do nothing, the contract of each is a law.
ghost use Rattle.std.specs.Prelude.{◌≡◌, ◌⊎◌, ◌<◌, ℕ, false, List, Option, Some, Contains, IsTrue, IsFalse, length, slice_index_or};
ghost use Rattle.fsd_bytes.specs.declared.key.Key.{Key};
ghost use Rattle.sector_disk.specs.declared.sector.Sector.TheVariants.{Damaged};
ghost use Rattle.sector_disk.specs.Image.{AreShort, sector_at};
ghost use Rattle.sector_disk.specs.Machine.{Moment};
ghost use Rattle.page_cache.specs.Cache.{AreNewest, CacheValue, IsCache, cached_bytes, is_among, newest_bytes};
ghost use Rattle.fsd_formats.specs.declared.entry.Entry.{Entry};
ghost use Rattle.fsd_log.specs.Scan.{Placed};
ghost use Rattle.fsd_table.specs.Breaks.{Breaks};
ghost use Rattle.fsd_table.specs.Pages.{entries_of};
ghost use Rattle.fsd_table.specs.Table.{BreaksTable, Visit, visits};
ghost use Rattle.fsd_table.specs.Tree.{IsTree, table_of};
ghost use Rattle.fsd_files.specs.Answers.{entry_of, entry_after as entry_behind};
ghost use Rattle.name_page.specs.Lookups.{entry_with, first_after};
ghost use Rattle.table_pages.specs.Kept.{images_given};
ghost use Rattle.fsd_sound.specs.Mounted.{Mounted, image_at};
ghost use Rattle.group_commit.specs.Newest.{AreCopiesIn, KnowsPages, newest_by};
ghost use Rattle.volume_contract.specs.Causes.{HasUntaken, IsTaken};
ghost use Rattle.volume_contract.specs.State.{Known, Ages, Stands};
ghost use Rattle.volume_laws.specs.State.{IsMemoryOf, resident, state};
ghost use Rattle.volume_laws.specs.Taken.{are_taken};
ghost use Rattle.volume_laws.specs.Volume.{IsWholeVolume, VolumeValue};

/// A volume that stands over a disk stands over it as it is worn by any call of the machine.
pub fn volumes_wear()
    ensures { (v : VolumeValue) (k : Known) (old new : Moment) → AreShort old.windows → Ages old new → Stands state IsMemoryOf v k old → Stands state IsMemoryOf v k new }
{}

/// The pages in memory are those of what it has there.
pub fn resident_pages_are_shown()
    ensures { (v : VolumeValue) (mounted : Mounted) (records : List Placed) (page : ℕ) (bytes : List ℕ) → IsMemoryOf v mounted records → resident v page ≡ Some bytes → image_at mounted.pages page ≡ bytes }
{}

/// Over its disk each page is read as it is in the volume's table, from memory, from the log or from home; and its two
/// copies are never both damaged.
pub fn pages_are_read()
    ensures newest { (v : VolumeValue) (k : Known) (now : Moment) (page : ℕ) → IsWholeVolume v → IsCache v.cache → Stands state IsMemoryOf v k now → page < v.layout.pages →
        newest_bytes v.cache (newest_by v.log now.image) page ≡ Some (image_at k.mounted.pages page) }
    ensures all { (v : VolumeValue) (k : Known) (now : Moment) → IsWholeVolume v → IsCache v.cache → Stands state IsMemoryOf v k now →
        images_given (newest_bytes v.cache (newest_by v.log now.image)) (length v.free_pages) ≡ k.mounted.pages }
    ensures never_lost { (v : VolumeValue) (k : Known) (now : Moment) (page a b : ℕ) → IsWholeVolume v → Stands state IsMemoryOf v k now → page < v.layout.pages → AreCopiesIn v.log page a b →
        sector_at now.image a ≡ Damaged → sector_at now.image b ≡ Damaged → ⊥ }
{}

/// Over its disk it knows its pages, however the disk wears;
/// and it stands there with each page that is brought into its cache.
pub fn pages_are_known()
    ensures knows { (v : VolumeValue) (k : Known) (now : Moment) → IsWholeVolume v → AreShort now.windows → Stands state IsMemoryOf v k now → KnowsPages v.log now }
    ensures filled { (v : VolumeValue) (k : Known) (now : Moment) (c : CacheValue) → IsWholeVolume v → Stands state IsMemoryOf v k now →
        c.dirty ≡ v.cache.dirty → ((page : ℕ) → IsTrue (is_among c.dirty page) → cached_bytes c page ≡ cached_bytes v.cache page) → AreNewest (newest_by v.log now.image) c →
        Stands state IsMemoryOf (record v { cache = c }) k now }
{}

/// The sectors of each entry of its table are taken: an entry that is met is none of its table where they aren't.
pub fn entries_are_taken()
    ensures { (v : VolumeValue) (k : Known) (now : Moment) (e : Entry) → IsWholeVolume v → Stands state IsMemoryOf v k now → Contains k.mounted.volume.entries e → IsTrue (are_taken v e.runs) }
{}

/// An entry whose sectors are all taken has none that is free, that waits, or that is another version's which is held.
pub fn taken_entries_are_told()
    ensures { (v : VolumeValue) (e : Entry) → IsWholeVolume v → IsTrue (are_taken v e.runs) → IsTaken (state v) e }
{}

/// An entry of a leaf that is reached, and whose sectors aren't all taken, breaks the table,
/// or has a sector that no entry may have.
pub fn untaken_entries_break()
    ensures { (v : VolumeValue) (pages : List (List ℕ)) (visit : Visit) (e : Entry) → IsWholeVolume v → Contains (visits pages) visit → Contains (entries_of visit.content) e → IsFalse (are_taken v e.runs) →
        Breaks v.layout pages visit.page ⊎ HasUntaken (state v) e }
{}

/// Its pages are a tree, in which look-ups find what the volume's definitions answer;
/// no page breaks it, and none that a path reaches is free.
pub fn tables_are_looked_up()
    ensures entry { (v : VolumeValue) (k : Known) (now : Moment) (key : Key) → IsWholeVolume v → Stands state IsMemoryOf v k now →
        (height : ℕ) × IsTree k.mounted.pages height × (entry_with key (table_of k.mounted.pages height) ≡ entry_of key k.mounted.volume.entries) }
    ensures next { (v : VolumeValue) (k : Known) (now : Moment) (after : Option Key) → IsWholeVolume v → Stands state IsMemoryOf v k now →
        (height : ℕ) × IsTree k.mounted.pages height × (first_after after (table_of k.mounted.pages height) ≡ entry_behind after k.mounted.volume.entries) }
    ensures unbroken { (v : VolumeValue) (k : Known) (now : Moment) (page : ℕ) → IsWholeVolume v → Stands state IsMemoryOf v k now → BreaksTable k.mounted.pages page → ⊥ }
    ensures used { (v : VolumeValue) (k : Known) (now : Moment) (visit : Visit) → IsWholeVolume v → Stands state IsMemoryOf v k now → Contains (visits k.mounted.pages) visit → slice_index_or v.free_pages visit.page false ≡ false }
{}
