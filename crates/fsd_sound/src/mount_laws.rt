//! Laws of a new epoch: the functions do nothing, the contract of each is a law.
ghost use Rattle.std.specs.Prelude.{◌≡◌, ◌⊎◌, ◌<◌, ◌+◌, ℕ, List, [], ◌∷◌, ◌++◌, length, Contains, Some};
ghost use Rattle.volume_layout.specs.declared.layout.Layout.{Layout};
ghost use Rattle.sector_disk.specs.declared.sector.WeakRun.{WeakRun};
ghost use Rattle.sector_disk.specs.Image.{with_sector};
ghost use Rattle.fsd_formats.specs.Anchors.{anchor_bytes};
ghost use Rattle.sector_disk.specs.Machine.{Moment, Holds, Settles};
ghost use Rattle.fsd_log.specs.Scan.{start};
ghost use Rattle.fsd_files.specs.Disk.{Image};
ghost use Rattle.fsd_sound.specs.Anchors.{fresh_anchor};
ghost use Rattle.fsd_sound.specs.Laid.{HasOwnLog};
ghost use Rattle.fsd_sound.specs.Sound.{BearsLast, weak_of, ShowsPages};
ghost use Rattle.fsd_sound.specs.Begun.{IsHomed, IsBegun, AreOlder, IsMountedIn};
ghost use Rattle.fsd_sound.specs.Windows.{IsNarrow};

/// Once the homes are whole and alike and the new anchors stand, the pages are shown in each window, which ever it is.
pub fn begun_disks_show()
    ensures shows { (l : Layout) (windows : List WeakRun) (epoch : ℕ) (pages : List (List ℕ)) (i : Image) → BearsLast l windows → IsBegun l epoch pages i → ShowsPages l windows (pages ∷ []) i }
    ensures own { (l : Layout) (windows : List WeakRun) (epoch : ℕ) (pages : List (List ℕ)) (i : Image) → IsBegun l epoch pages i → HasOwnLog l (fresh_anchor epoch) [] (start l 1) (weak_of windows) i }
{}

/// Once the homes are whole and alike, either anchor may be written as that of the next epoch.
pub fn anchors_may_be_renewed()
    ensures { (l : Layout) (windows : List WeakRun) (choices : List (List (List ℕ))) (epoch : ℕ) (pages : List (List ℕ)) (s : ℕ) (i : Image) → IsNarrow (weak_of windows) → (s ≡ 8) ⊎ (s ≡ 12) → s < length i →
        IsHomed l epoch pages i → AreOlder epoch i → Contains choices pages → ShowsPages l windows choices i → ShowsPages l windows choices (with_sector i s (anchor_bytes (fresh_anchor epoch))) }
{}

/// What the clean image has become behind `healing` shows its pages in the named window, once the mount settles.
pub fn mounts_settle()
    ensures { (l : Layout) (windows : List WeakRun) (run : WeakRun) (epoch : ℕ) (pages : List (List ℕ)) (first now new : Moment) (e : Image) → BearsLast l (windows ++ run ∷ []) → first.windows.next ≡ Some run →
        IsBegun l epoch pages e → Holds first e now → Settles now new → IsMountedIn l windows run pages new }
{}
