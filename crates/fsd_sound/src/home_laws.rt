//! Laws of roots and homes whose sectors wear: the functions do nothing, the contract of each is a law.
ghost use Rattle.std.specs.Prelude.{◌≡◌, ◌⊎◌, ◌<◌, get_or, ℕ, List, [], length, Some, None};
ghost use Rattle.volume_layout.specs.declared.layout.Layout.{Layout};
ghost use Rattle.volume_layout.specs.Root.{root_bytes};
ghost use Rattle.volume_layout.specs.Layout.{home_a, home_b, IsBeside};
ghost use Rattle.sector_disk.specs.declared.sector.WeakRun.{WeakRun};
ghost use Rattle.sector_disk.specs.declared.sector.Sector.TheVariants.{Whole};
ghost use Rattle.sector_disk.specs.Image.{sector_at, with_sector};
ghost use Rattle.fsd_formats.specs.declared.anchor.Anchor.{Anchor};
ghost use Rattle.fsd_files.specs.Disk.{Image};
ghost use Rattle.fsd_sound.specs.Anchors.{anchor_of};
ghost use Rattle.fsd_sound.specs.Laid.{HasOwnRoots};
ghost use Rattle.fsd_sound.specs.Shown.{records_by, shown};
ghost use Rattle.fsd_log.specs.Images.{last_image};
ghost use Rattle.fsd_sound.specs.Sound.{weak_of, AllLieIn, IsEither, IsRootOf, ShowsPages};
ghost use Rattle.fsd_sound.specs.Homes.{AreTwins};
ghost use Rattle.fsd_sound.specs.Logged.{IsLogged};
ghost use Rattle.fsd_sound.specs.Windows.{IsNarrow};

/// A home may be written with the bytes of its whole twin.
pub fn homes_may_be_mended()
    ensures { (l : Layout) (windows : List WeakRun) (choices : List (List (List ℕ))) (page s t : ℕ) (bytes : List ℕ) (i : Image) → IsNarrow (weak_of windows) → page < l.pages → s < length i → t < length i →
        AreTwins l page s t → sector_at i t ≡ Whole bytes → ShowsPages l windows choices i → ShowsPages l windows choices (with_sector i s bytes) }
{}

/// A home of a page that each anchor's log has may be written with any bytes.
pub fn logged_homes_may_be_written()
    ensures { (l : Layout) (windows : List WeakRun) (choices : List (List (List ℕ))) (page s : ℕ) (bytes : List ℕ) (i : Image) → IsNarrow (weak_of windows) → page < l.pages → s < length i →
        (s ≡ home_a l page) ⊎ (s ≡ home_b l page) → IsLogged l (weak_of windows) page i → ShowsPages l windows choices i → ShowsPages l windows choices (with_sector i s bytes) }
{}

/// A root may be written with the layout's bytes.
pub fn roots_may_be_mended()
    ensures { (l : Layout) (windows : List WeakRun) (choices : List (List (List ℕ))) (s : ℕ) (i : Image) → IsNarrow (weak_of windows) → (s ≡ 0) ⊎ (s ≡ 4) → s < length i →
        ShowsPages l windows choices i → ShowsPages l windows choices (with_sector i s (root_bytes l)) }
{}

/// So may it with those of a layout beside it, where the image may be mounted with that as well, no root
/// says a third, and what the lists tell lies in its data area.
pub fn roots_may_be_beside()
    ensures shows { (l k : Layout) (windows : List WeakRun) (choices : List (List (List ℕ))) (s : ℕ) (i : Image) → IsNarrow (weak_of windows) → (shows : ShowsPages l windows choices i) → IsBeside l k → IsRootOf l shows.readable.roots.other (root_bytes k) →
        IsEither l k windows i → AllLieIn k choices → (s ≡ 0) ⊎ (s ≡ 4) → s < length i → ShowsPages l windows choices (with_sector i s (root_bytes k)) }
    ensures own { (l k : Layout) (windows : List WeakRun) (choices : List (List (List ℕ))) (i : Image) → HasOwnRoots l (weak_of windows) i → IsBeside l k → ShowsPages l windows choices i →
        (shows : ShowsPages l windows choices i) × (shows.readable.roots.other ≡ k) }
{}

/// A page's last image in the log is what is shown of it, and where it has none, what stands whole at either home.
pub fn shown_pages_stand()
    ensures logged { (l : Layout) (i : Image) (t : Anchor) (pages : List (List ℕ)) (page : ℕ) (x : List ℕ) → anchor_of i ≡ Some t → shown l i ≡ Some pages → page < l.pages → last_image page (records_by l i t) ≡ Some x → x ≡ get_or pages page [] }
    ensures home { (l : Layout) (windows : List WeakRun) (choices : List (List (List ℕ))) (i : Image) (t : Anchor) (pages : List (List ℕ)) (page : ℕ) (x : List ℕ) → ShowsPages l windows choices i → anchor_of i ≡ Some t → shown l i ≡ Some pages → page < l.pages →
        last_image page (records_by l i t) ≡ None → (sector_at i (home_a l page) ≡ Whole x) ⊎ (sector_at i (home_b l page) ≡ Whole x) → x ≡ get_or pages page [] }
{}
