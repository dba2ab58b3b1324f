//! Laws over the definitions: the functions do nothing, the contract of each is a law.
ghost use Rattle.std.specs.Prelude.{◌≡◌, ◌≤◌, ◌^◌, ℕ, List, [], ◌∷◌, ◌++◌, length, Option, Some, None, IfSome, IsTrue, Contains};
ghost use Rattle.fsd_formats.specs.declared.anchor.Anchor.{Anchor};
ghost use Rattle.std.specs.List.{last_or};
ghost use Rattle.volume_layout.specs.declared.layout.Layout.{Layout};
ghost use Rattle.volume_layout.specs.Layout.{map_start, IsFormOf};
ghost use Rattle.sector_disk.specs.declared.sector.WeakRun.{WeakRun};
ghost use Rattle.sector_disk.specs.Image.{Windows, open_damage, IsWorn};
ghost use Rattle.fsd_files.specs.Disk.{Image, in_runs};
ghost use Rattle.fsd_files.specs.Files.{Change};
ghost use Rattle.fsd_files.specs.Volume.{HasReach, drawn};
ghost use Rattle.fsd_sound.specs.Format.{IsFormatted, IsFormattedIn};
ghost use Rattle.fsd_log.specs.Scan.{Placed, Head};
ghost use Rattle.fsd_sound.specs.Mounted.{Mounted, StandsOver, HasOpen, IsMounted, SameStays, SameTaken, SameData, ChangesTo, IsFreshlyMounted, IsSameEpoch, forces_by_itself, telling_of, with_forced};
ghost use Rattle.fsd_table.specs.Table.{one_leaf, told_in};
ghost use Rattle.fsd_sound.specs.Saved.{IsOpen, SavesPages};
ghost use Rattle.fsd_sound.specs.Shown.{told};
ghost use Rattle.fsd_sound.specs.Sound.{AllLieIn, BearsLast, EndIn, weak_of, IsSaid, IsSound, IsStill, ShowsPages, Tells, TellsPrefix};
ghost use Rattle.fsd_sound.specs.Choices.{TellsChoices};
ghost use Rattle.fsd_sound.specs.Windows.{IsApart};
ghost use Rattle.volume_layout.specs.Kinds.{gap_of, longest_of};

/// A formatted disk is sound, with no changes, in a window whose weak run it bears, also as its own window has worn it.
pub fn formatted_disks_are_sound()
    ensures written { (l : Layout) (windows : List WeakRun) (i : Image) → BearsLast l windows →
        IsFormatted l i → IsSound l windows [] 0 i }
    ensures worn { (l : Layout) (next : WeakRun) (i : Image) → next.count ≤ longest_of l.kind →
        IsFormattedIn l next i → IsSound l (next ∷ []) [] 0 i }
{}

/// It tells an empty table of one leaf, however its weak run wears.
pub fn formatted_disks_are_empty()
    ensures { (l : Layout) (windows : List WeakRun) (i j : Image) → BearsLast l windows → IsWorn (weak_of windows) i j →
        IsFormatted l i → told l j ≡ Some (one_leaf []) }
{}

/// A sound disk stays sound however its weak run of at most three sectors wears.
pub fn sound_disks_wear()
    ensures sound { (l : Layout) (windows : List WeakRun) (h : List Change) (f : ℕ) (i j : Image) →
        IfSome (last_or None windows) (λ r. r.count ≤ 3) →
        IsWorn (weak_of windows) i j → IsSound l windows h f i → IsSound l windows h f j }
    ensures pages { (l : Layout) (windows : List WeakRun) (choices : List (List (List ℕ))) (i j : Image) →
        IfSome (last_or None windows) (λ r. r.count ≤ 3) →
        IsWorn (weak_of windows) i j → ShowsPages l windows choices i → ShowsPages l windows choices j }
{}

/// What is sound by a layout is so by each that its roots say: by it, or by one beside it.
pub fn disks_are_sound_by_each_root()
    ensures form { (l : Layout) (i : Image) (layout : Layout) → IsSaid l i layout → IsFormOf l layout }
    ensures sound { (l : Layout) (windows : List WeakRun) (h : List Change) (f : ℕ) (i : Image) (layout : Layout) → IsSaid l i layout →
        IsSound l windows h f i → IsSound layout windows h f i }
    ensures pages { (l : Layout) (windows : List WeakRun) (choices : List (List (List ℕ))) (i : Image) (layout : Layout) → IsSaid l i layout →
        AllLieIn l choices → ShowsPages l windows choices i → ShowsPages layout windows choices i }
{}

/// What the machine's open windows wear, the last window wears:
/// so a sound disk stays sound through the machine's calls.
pub fn open_windows_wear_soundly()
    ensures { (l : Layout) (windows : List WeakRun) (now : Windows) (h : List Change) (f : ℕ) (i j : Image) →
        IfSome (last_or None windows) (λ r. r.count ≤ 3) → EndIn now windows →
        IsWorn (open_damage now) i j → IsSound l windows h f i → IsSound l windows h f j }
{}

/// A disk is sound where each list of pages that it may show tells a prefix of the changes, and what its saved map says.
pub fn sound_from_pages()
    ensures { (l : Layout) (windows : List WeakRun) (h : List Change) (f : ℕ) (choices : List (List (List ℕ))) (i : Image) →
        ShowsPages l windows choices i →
        ((pages : List (List ℕ)) → Contains choices pages → Tells l (in_runs windows) i h f (told_in pages)) →
        ((pages : List (List ℕ)) → Contains choices pages → SavesPages l i pages) →
        IsSound l windows h f i }
{}

/// However its weak run wears, a sound disk shows one of some page lists, each of which tells a prefix of the changes.
pub fn sound_disks_show_pages()
    ensures { (l : Layout) (windows : List WeakRun) (h : List Change) (f : ℕ) (i : Image) → map_start l ≤ l.sectors → IsSound l windows h f i → TellsChoices l windows h f i }
{}

/// The disk below a mounted volume is sound, for all its changes and those that were forced.
pub fn mounted_volumes_are_sound()
    ensures { (m : Mounted) (windows : List WeakRun) (h : List Change) (f : ℕ) (i : Image) → IsMounted m windows h f i → IsSound m.volume.layout windows h f i }
{}

/// A mounted volume stays mounted however a narrow run wears.
pub fn mounted_volumes_wear()
    ensures { (m : Mounted) (windows : List WeakRun) (h : List Change) (f : ℕ) (i j : Image) → m.volume.layout.pages ≤ 2 ^ 32 → IsApart (gap_of m.volume.layout) (weak_of windows) → IsWorn (weak_of windows) i j →
        IsMounted m windows h f i → IsMounted m windows h f j }
{}

/// A mounted volume has no more pages than it may have.
pub fn mounted_volumes_have_few_pages()
    ensures { (m : Mounted) (windows : List WeakRun) (h : List Change) (f : ℕ) (i : Image) → IsMounted m windows h f i → HasReach m.volume }
{}

/// Where no change waits for a force, the disk's own table is the volume's.
pub fn mounted_volumes_stand_where_nothing_waits()
    ensures { (m : Mounted) (windows : List WeakRun) (h : List Change) (f : ℕ) (i : Image) → IsMounted m windows h f i → m.volume.unforced ≡ 0 →
        told m.volume.layout i ≡ Some (telling_of m.volume) }
{}

/// A volume whose pages are so many that it forces by itself has two changes at least that wait for a force.
pub fn two_changes_wait_where_many_pages_do()
    ensures { (m : Mounted) (windows : List WeakRun) (h : List Change) (f : ℕ) (i : Image) → IsMounted m windows h f i → IsTrue (forces_by_itself m) → 2 ≤ m.volume.unforced }
{}

/// What is written to free sectors leaves a volume mounted.
pub fn free_sectors_may_be_written()
    ensures { (m : Mounted) (windows : List WeakRun) (h : List Change) (f : ℕ) (i j : Image) → length j ≡ length i → SameTaken m.volume i j →
        IsMounted m windows h f i → IsMounted m windows h f j }
{}

/// So does what is written to any sector that the forced changes have let go,
/// where what drafts and readers have stands then.
pub fn drafts_may_be_written()
    ensures { (m : Mounted) (slices : List (List (Option (List ℕ)))) (windows : List WeakRun) (h : List Change) (f : ℕ) (i j : Image) → length j ≡ length i → SameStays m.volume i j →
        HasOpen (in_runs windows) j (record m { slices = slices }) → IsMounted m windows h f i → IsMounted (record m { slices = slices }) windows h f j }
{}

/// A volume whose next serial is drawn stays mounted.
pub fn serials_may_be_drawn()
    ensures { (m : Mounted) (windows : List WeakRun) (h : List Change) (f : ℕ) (i : Image) → IsMounted m windows h f i →
        IsMounted (record m { volume = drawn m.volume }) windows h f i }
{}

/// A change in memory leaves a volume mounted, after one change more, which waits for a force.
pub fn changes_wait_for_a_force()
    ensures { (m n : Mounted) (windows : List WeakRun) (h : List Change) (f : ℕ) (i : Image) (c : Change) → IsMounted m windows h f i →
        ChangesTo (h ++ c ∷ []) windows i m n → IsMounted n windows (h ++ c ∷ []) f i }
{}

/// While the disk shows what was forced before or what is in memory now, it is sound; and once it shows that, all
/// changes are forced. The anchor of the log may have moved on.
pub fn forces_commit_all_changes()
    ensures during { (m : Mounted) (windows : List WeakRun) (h : List Change) (f : ℕ) (i j : Image) (now : List (List ℕ)) → (is : IsMounted m windows h f i) → SameData m.volume.layout (in_runs windows) i j →
        IsOpen j → told_in now ≡ Some (telling_of m.volume) → ShowsPages m.volume.layout windows (is.disk ∷ now ∷ []) j → IsSound m.volume.layout windows h f j }
    ensures done { (m : Mounted) (windows : List WeakRun) (h : List Change) (f : ℕ) (i j : Image) (now : List (List ℕ)) (anchor : Anchor) (head : Head) (records : List Placed) → IsMounted m windows h f i → SameData m.volume.layout (in_runs windows) i j →
        told_in now ≡ Some (telling_of m.volume) → IsSameEpoch m.anchor anchor →
        StandsOver m.volume.layout anchor head records now now [] windows j → IsMounted (with_forced m now anchor head) windows h (length h) j }
{}

/// A volume is mounted where the pages that the disk shows tell its files,
/// and its log has no record that it doesn't know.
pub fn fresh_mounts_hold()
    ensures { (m : Mounted) (windows : List WeakRun) (h : List Change) (i : Image) → IsFreshlyMounted h windows i m → IsMounted m windows h (length h) i }
{}

/// Where nothing wears, a disk is sound exactly where it shows one list of pages that tells the files after a prefix of
/// the changes with every forced one.
pub fn still_disks_tell_a_prefix()
    ensures sound { (l : Layout) (windows : List WeakRun) (h : List Change) (f : ℕ) (i : Image) → IsStill windows → IsSound l windows h f i → TellsPrefix l windows h f i }
    ensures prefix { (l : Layout) (windows : List WeakRun) (h : List Change) (f : ℕ) (i : Image) → TellsPrefix l windows h f i → IsSound l windows h f i }
{}
