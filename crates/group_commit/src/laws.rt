//! A law over the definitions: the function does nothing, its contract is the law.
ghost use Rattle.std.specs.Prelude.{◌≡◌, ◌<◌, ◌↔◌, ℕ, List, [], Some, IsFalse};
ghost use Rattle.run_table.specs.Space.{contains};
ghost use Rattle.sector_disk.specs.declared.sector.WeakRun.{WeakRun};
ghost use Rattle.sector_disk.specs.Image.{AreShort};
ghost use Rattle.sector_disk.specs.Machine.{Moment};
ghost use Rattle.fsd_log.specs.Scan.{Placed};
ghost use Rattle.fsd_files.specs.Disk.{Image};
ghost use Rattle.fsd_sound.specs.Mounted.{image_at};
ghost use Rattle.fsd_sound.specs.Sound.{EndIn};
ghost use Rattle.log_thirds.specs.Append.{IsIndexed};
ghost use Rattle.log_thirds.specs.LogValue.{LogValue, FitsLayout};
ghost use Rattle.page_cache.specs.Cache.{AreNewest, CacheValue, IsCache, IsResident, cleaned};
ghost use Rattle.group_commit.specs.Cached.{AgreesWith, AreWaiting, ascending_of, stamped_for, with_waiting};
ghost use Rattle.group_commit.specs.Force.{Committed, StandsOverDisk, stamped_by};
ghost use Rattle.group_commit.specs.Newest.{newest_by, KnowsImages, KnowsPages};
ghost use Rattle.group_commit.specs.Resident.{ResidentValue};

/// On the disk below the pages in memory each page has a newest image, which is the one that the disk shows; of a page
/// that does not wait it is the one in memory. A log knows that disk's images exactly where it is indexed by the disk's
/// records, and then it knows the pages too, in a window of the machine.
pub fn pages_are_newest()
    ensures knows { (log : LogValue) (records : List Placed) (disk : List (List ℕ)) (s : ResidentValue) (windows : List WeakRun) (i : Image) →
        StandsOverDisk log records disk s windows i → KnowsImages log i ↔ IsIndexed log records }
    ensures pages { (log : LogValue) (records : List Placed) (disk : List (List ℕ)) (s : ResidentValue) (windows : List WeakRun) (at : Moment) →
        FitsLayout log → AreShort at.windows → EndIn at.windows windows → StandsOverDisk log records disk s windows at.image → IsIndexed log records → KnowsPages log at }
    ensures shown { (log : LogValue) (records : List Placed) (disk : List (List ℕ)) (s : ResidentValue) (windows : List WeakRun) (i : Image) (page : ℕ) →
        StandsOverDisk log records disk s windows i → page < log.layout.pages → newest_by log i page ≡ Some (image_at disk page) }
    ensures in_memory { (log : LogValue) (records : List Placed) (disk : List (List ℕ)) (s : ResidentValue) (windows : List WeakRun) (i : Image) (page : ℕ) →
        StandsOverDisk log records disk s windows i → page < log.layout.pages → IsFalse (contains s.dirty page) → newest_by log i page ≡ Some (image_at s.pages page) }
{}

/// Behind a force of a cache the stamped pages agree with its stamped frames, and each frame of a clean page has the
/// newest image by the log that is then. In what order the pages wait makes no difference to what stands below them.
pub fn clean_frames_are_newest()
    ensures order { (log : LogValue) (records : List Placed) (disk : List (List ℕ)) (pages : List (List ℕ)) (dirty : List ℕ) (windows : List WeakRun) (i : Image) →
        StandsOverDisk log records disk (record { pages = pages; dirty = dirty }) windows i → StandsOverDisk log records disk (record { pages = pages; dirty = ascending_of dirty }) windows i }
    ensures agrees { (log : LogValue) (c : CacheValue) (pages : List (List ℕ)) → AgreesWith log.layout c pages → IsCache c → AreWaiting log.layout.pages c →
        AgreesWith log.layout (cleaned (stamped_for log c)) (stamped_by log (with_waiting c pages)) }
    ensures newest { (log : LogValue) (c : CacheValue) (pages : List (List ℕ)) (windows : List WeakRun) (i : Image) → AgreesWith log.layout c pages →
        Committed log (record { pages = pages; dirty = [] }) windows i → ((page : ℕ) → IsResident c page → page < log.layout.pages) → AreNewest (newest_by log i) c }
{}
