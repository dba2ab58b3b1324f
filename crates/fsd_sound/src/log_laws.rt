//! Laws of a log whose sectors wear: the functions do nothing, the contract of each is a law.
ghost use Rattle.std.specs.Prelude.{◌≡◌, ◌⊎◌, ◌<◌, ◌≤◌, ◌+◌, ◌*◌, ◌^◌, get_or, ℕ, List, [], ◌∷◌, ◌++◌, length, Contains, Some, None};
ghost use Rattle.volume_layout.specs.declared.layout.Layout.{Layout};
ghost use Rattle.sector_disk.specs.declared.sector.WeakRun.{WeakRun};
ghost use Rattle.sector_disk.specs.declared.sector.Sector.TheVariants.{Whole, Damaged};
ghost use Rattle.sector_disk.specs.Image.{sector_at, with_sector, IsWorn, open_damage, stand};
ghost use Rattle.sector_disk.specs.Machine.{Moment, Holds};
ghost use Rattle.fsd_formats.specs.declared.anchor.Anchor.{Anchor};
ghost use Rattle.fsd_log.specs.Scan.{Head, Placed, place_of};
ghost use Rattle.fsd_log.specs.Copies.{Copies, copies_count, AreLastCopies};
ghost use Rattle.fsd_files.specs.Disk.{Image, Sectors};
ghost use Rattle.fsd_sound.specs.Anchors.{anchor_of};
ghost use Rattle.fsd_sound.specs.Laid.{HasCopies, AllLaid, StandsTwice, HasOwnLog, HasOwnRoots};
ghost use Rattle.fsd_sound.specs.Shown.{records_by};
ghost use Rattle.fsd_log.specs.Images.{last_image};
ghost use Rattle.fsd_sound.specs.Sound.{weak_of, BearsLast, EndIn, IsEither, ShowsPages};
ghost use Rattle.fsd_sound.specs.Logged.{IsLogged, KeepsLogged, copies_of};
ghost use Rattle.fsd_sound.specs.Windows.{IsApart};
ghost use Rattle.volume_layout.specs.Kinds.{gap_of};
ghost use Rattle.volume_layout.specs.Layout.{turned};

/// A volume's own log stays its own, by the same records, however a narrow run wears.
pub fn own_logs_wear()
    ensures { (l : Layout) (a : Anchor) (weak : Sectors) (rs : List Placed) (h : Head) (i j : Image) → l.pages ≤ 2 ^ 32 → a.epoch < 2 ^ 32 → a.third ≤ 2 → IsApart (gap_of l) weak → IsWorn weak i j →
        HasOwnLog l a rs h weak i → HasOwnLog l a rs h weak j }
{}

/// A volume's own log without a record is empty in the other form too, however a run wears that both layouts bear: so
/// the image may be mounted with the layout turned as well, and once the roots are turned the log is that layout's own.
pub fn empty_logs_may_be_turned()
    ensures either { (l : Layout) (a : Anchor) (h : Head) (windows : List WeakRun) (i : Image) → l.pages ≤ 2 ^ 32 → l.sectors ≤ length i → BearsLast l windows → BearsLast (turned l) windows →
        HasOwnLog l a [] h (weak_of windows) i → IsEither l (turned l) windows i }
    ensures own { (l : Layout) (a : Anchor) (h : Head) (weak : Sectors) (i j : Image) → a.epoch < 2 ^ 32 → a.first < 2 ^ 32 → a.third ≤ 2 → ((s : ℕ) → 8 ≤ s → s < 16 + 3 * l.third → sector_at j s ≡ sector_at i s) →
        HasOwnRoots (turned l) weak j → HasOwnLog l a [] h weak i → HasOwnLog (turned l) a [] h weak j }
{}

/// Once the last record's copies stand, each page that the newer anchor's log has is in the log of each anchor,
/// however a narrow run wears.
pub fn completed_pages_are_logged()
    ensures { (l : Layout) (windows : List WeakRun) (choices : List (List (List ℕ))) (i : Image) (t : Anchor) (front : List Placed) (r : Placed) (page : ℕ) → l.pages ≤ 2 ^ 32 → IsApart (gap_of l) (weak_of windows) →
        ShowsPages l windows choices i → anchor_of i ≡ Some t → records_by l i t ≡ front ++ r ∷ [] → HasCopies l t (weak_of windows) i r →
        (last_image page (records_by l i t) ≡ None → ⊥) → IsLogged l (weak_of windows) page i }
{}

/// While the last record's copies are laid again, sector by sector, the image shows the same pages, by the same
/// records, however a narrow run wears.
pub fn copies_may_be_laid()
    ensures { (l : Layout) (windows : List WeakRun) (choices : List (List (List ℕ))) (i : Image) (t : Anchor) (front : List Placed) (r : Placed) (k : ℕ) → l.pages ≤ 2 ^ 32 → IsApart (gap_of l) (weak_of windows) →
        16 + 3 * l.third ≤ length i → ShowsPages l windows choices i → anchor_of i ≡ Some t → records_by l i t ≡ front ++ r ∷ [] → k ≤ length r.entry.pages →
        KeepsLogged l windows choices t i (with_sector i (place_of l t.third r.at + (4 + 2 * gap_of l + length r.entry.pages + k)) (get_or (copies_of t r) k [])) }
{}

/// A mount up to `healing`: while the last record is completed over an image that was seen, a stop at any moment leaves
/// an image that shows one of the page lists.
pub fn completing_may_be_stopped()
    ensures { (l : Layout) (windows : List WeakRun) (choices : List (List (List ℕ))) (i : Image) (t : Anchor) (copies : Copies) (stood : ℕ) (now left : Moment) → l.pages ≤ 2 ^ 32 → IsApart (gap_of l) (weak_of windows) → 16 + 3 * l.third ≤ length i →
        EndIn now.windows windows → IsWorn (open_damage now.windows) i now.image → ShowsPages l windows choices i → anchor_of i ≡ Some t → AreLastCopies l t.epoch t.third (records_by l i t) copies →
        stood ≤ copies_count copies → Holds now (stand now.image copies.place copies.bytes stood) left → ShowsPages l windows choices left.image }
{}

/// Where a log's records were laid whole, each of their images stands in two sectors; however a narrow run wears, what
/// stands whole in one of them is the image, and they are not both damaged.
pub fn laid_images_are_given()
    ensures twice { (l : Layout) (a : Anchor) (weak : Sectors) (i : Image) (r : Placed) (k : ℕ) → a.third ≤ 2 → AllLaid l a weak i (records_by l i a) → Contains (records_by l i a) r → k < length r.entry.pages →
        StandsTwice (gap_of l) weak i (get_or r.entry.images k []) (place_of l a.third r.at + 3 + gap_of l + k) (place_of l a.third r.at + (4 + 2 * gap_of l + length r.entry.pages) + k) }
    ensures image { (gap : ℕ) (weak : Sectors) (i j : Image) (image bytes : List ℕ) (place copy : ℕ) → IsApart gap weak → IsWorn weak i j → StandsTwice gap weak i image place copy →
        (sector_at j place ≡ Whole bytes) ⊎ (sector_at j copy ≡ Whole bytes) → bytes ≡ image }
    ensures never_lost { (gap : ℕ) (weak : Sectors) (i j : Image) (image : List ℕ) (place copy : ℕ) → IsApart gap weak → IsWorn weak i j → StandsTwice gap weak i image place copy →
        sector_at j place ≡ Damaged → sector_at j copy ≡ Damaged → ⊥ }
{}
