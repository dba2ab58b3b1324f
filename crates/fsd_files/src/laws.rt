//! Laws over the definitions: the functions do nothing, the contract of each is a law.
ghost use Rattle.std.specs.Prelude.{◌≡◌, ◌≤◌, Bool, List, [], ◌∷◌, ◌++◌, Option, None, Some, T, IsFalse, length, ℕ};
ghost use Rattle.std.specs.FinMap.{find, is_sorted};
ghost use Rattle.fsd_bytes.specs.Keys.{key_cmp};
ghost use Rattle.fsd_formats.specs.declared.entry.Entry.{Entry};
ghost use Rattle.fsd_files.specs.Disk.{Image, Sectors, Within};
ghost use Rattle.sector_disk.specs.Image.{IsWorn};
ghost use Rattle.fsd_files.specs.Files.{File, Files, Change, step, after, gone_by_move, moved_keep, new_key, loads_of};
ghost use Rattle.fsd_files.specs.Kept.{Kept, KeptIn, Lists};
ghost use Rattle.fsd_bytes.specs.declared.key.Key.{Key};
ghost use Rattle.fsd_bytes.specs.declared.key.Serial.{Serial};
ghost use Rattle.run_table.specs.declared.run.Run.{Run};
ghost use Rattle.fsd_files.specs.Answers.{Met, put_outcome, delete_outcome, keep_outcome, move_outcome, deleted, entry_of, highest_entry, keep_set, with_version, with_version_moved, load_outcome, with_loaded};
ghost use Rattle.fsd_files.specs.Volume.{Volume, drawn, entries_without, forced, forced_if, place_for};
ghost use Rattle.fsd_files.specs.Waiting.{Changes, IsSpaced};

/// One change more is one step more, and the files always stand in the order of their keys. Files that stand so are made
/// of none by loading their versions in order.
pub fn files_after_changes()
    ensures steps { (h : List Change) (c : Change) → after (h ++ c ∷ []) ≡ step (after h) c }
    ensures order { (h : List Change) → T (is_sorted key_cmp (after h)) }
    ensures loads { (s : Files) → T (is_sorted key_cmp s) → after (loads_of s) ≡ s }
{}

/// Wear may be nothing, and is nothing where no sector is weak. It adds up, and it leaves what is kept where damage may
/// have come already.
pub fn wear()
    ensures strong { (weak : Sectors) (i j : Image) → ((s : ℕ) → IsFalse (weak s)) → IsWorn weak i j → j ≡ i }
    ensures nothing { (weak : Sectors) (i : Image) → IsWorn weak i i }
    ensures twice { (weak : Sectors) (i j k : Image) → IsWorn weak i j → IsWorn weak j k → IsWorn weak i k }
    ensures kept { (weak hurt : Sectors) (i j : Image) (s : Files) (entries : List Entry) →
        Within weak hurt → IsWorn weak i j → Kept i s entries hurt → Kept j s entries hurt }
{}

/// Whatever a volume answers, its entries are those of its files, in order.
pub fn entries_list_the_files()
    ensures puts { (met : Met) (v : Volume) (name bytes : List ℕ) (given : Option ℕ) → Lists v.files v.entries →
        Lists (put_outcome met v name bytes given).1.files (put_outcome met v name bytes given).1.entries }
    ensures loads { (met : Met) (v : Volume) (key : Key) (keep : ℕ) (bytes : List ℕ) → Lists v.files v.entries →
        Lists (load_outcome met v key keep bytes).1.files (load_outcome met v key keep bytes).1.entries }
    ensures deletes { (met : Met) (v : Volume) (key : Key) → Lists v.files v.entries →
        Lists (delete_outcome met v key).1.files (delete_outcome met v key).1.entries }
    ensures keeps { (met : Met) (v : Volume) (name : List ℕ) (keep : ℕ) → Lists v.files v.entries →
        Lists (keep_outcome met v name keep).1.files (keep_outcome met v name keep).1.entries }
    ensures moves { (met : Met) (v : Volume) (key : Key) (name : List ℕ) → Lists v.files v.entries →
        Lists (move_outcome met v key name).1.files (move_outcome met v key name).1.entries }
{}

/// A version that moves has its bytes under its new key and is gone under its old one. One other version goes at most, and
/// there are as many as there would be if that one alone had gone.
pub fn a_move_keeps_the_version()
    ensures there { (key : Key) (name : List ℕ) (x : File) (s : Files) → T (is_sorted key_cmp s) → find key_cmp key s ≡ Some x →
        find key_cmp (new_key name s) (step s (Change.Move key name)) ≡ Some (record { bytes = x.bytes; keep = moved_keep name x.keep s }) }
    ensures away { (key : Key) (name : List ℕ) (x : File) (s : Files) → T (is_sorted key_cmp s) → find key_cmp key s ≡ Some x → find key_cmp key (step s (Change.Move key name)) ≡ None }
    ensures few { (key : Key) (name : List ℕ) (x : File) (s : Files) → length (gone_by_move key name x s) ≤ 1 }
    ensures count { (v : Volume) (key : Key) (name : List ℕ) (x : File) (e : Entry) (r : ℕ) → T (is_sorted key_cmp v.files) → Lists v.files v.entries → entry_of key v.entries ≡ Some e →
        length (with_version_moved v key name x e r).entries ≡ length (entries_without (gone_by_move key name x v.files) v.entries) }
{}

/// A change keeps versions, drafts and what waits apart, and lets nothing go that the volume had.
/// A force keeps them so too.
pub fn changes_let_nothing_go()
    ensures puts { (chosen : Bool) (v : Volume) (name bytes : List ℕ) (given : Option ℕ) (need : ℕ) (runs : List Run) (serial : Serial) (r : ℕ) →
        IsSpaced v → Lists v.files v.entries → T (is_sorted key_cmp v.files) → place_for v need ≡ Some runs →
        Changes (forced_if chosen (drawn v)) (with_version (forced_if chosen (drawn v)) name bytes given runs serial r) }
    ensures loads { (chosen : Bool) (v : Volume) (key : Key) (keep : ℕ) (bytes : List ℕ) (need : ℕ) (runs : List Run) (serial : Serial) (r : ℕ) →
        IsSpaced v → entry_of key v.entries ≡ None → place_for v need ≡ Some runs →
        Changes (forced_if chosen (drawn v)) (with_loaded (forced_if chosen (drawn v)) key keep bytes runs serial r) }
    ensures deletes { (v : Volume) (key : Key) (r : ℕ) (e : Entry) → IsSpaced v → Changes v (deleted v key r (Some e)).1 }
    ensures keeps { (v : Volume) (name : List ℕ) (keep r : ℕ) (e : Entry) → IsSpaced v → Changes v (keep_set v name keep r (Some e)).1 }
    ensures moves { (v : Volume) (key : Key) (name : List ℕ) (x : File) (e : Entry) (r : ℕ) →
        IsSpaced v → Lists v.files v.entries → T (is_sorted key_cmp v.files) → entry_of key v.entries ≡ Some e → Changes v (with_version_moved v key name x e r) }
    ensures forces { (v : Volume) → IsSpaced v → IsSpaced (forced v) }
{}

/// A change keeps the bytes of all versions that stay, and of the new one where they stand.
pub fn changes_keep_what_stays()
    ensures puts { (hurt : Sectors) (i : Image) (v : Volume) (name bytes : List ℕ) (given : Option ℕ) (runs : List Run) (serial : Serial) (r : ℕ) →
        Lists v.files v.entries → Kept i v.files v.entries hurt → KeptIn i hurt bytes runs →
        Kept i (with_version v name bytes given runs serial r).files (with_version v name bytes given runs serial r).entries hurt }
    ensures loads { (hurt : Sectors) (i : Image) (v : Volume) (key : Key) (keep : ℕ) (bytes : List ℕ) (runs : List Run) (serial : Serial) (r : ℕ) →
        Lists v.files v.entries → Kept i v.files v.entries hurt → KeptIn i hurt bytes runs →
        Kept i (with_loaded v key keep bytes runs serial r).files (with_loaded v key keep bytes runs serial r).entries hurt }
    ensures deletes { (hurt : Sectors) (i : Image) (v : Volume) (key : Key) (r : ℕ) (e : Entry) → Lists v.files v.entries → Kept i v.files v.entries hurt →
        Kept i (deleted v key r (Some e)).1.files (deleted v key r (Some e)).1.entries hurt }
    ensures keeps { (hurt : Sectors) (i : Image) (v : Volume) (name : List ℕ) (keep r : ℕ) (e : Entry) → Lists v.files v.entries → highest_entry name v.entries ≡ Some e →
        Kept i v.files v.entries hurt → Kept i (keep_set v name keep r (Some e)).1.files (keep_set v name keep r (Some e)).1.entries hurt }
    ensures moves { (hurt : Sectors) (i : Image) (v : Volume) (key : Key) (name : List ℕ) (x : File) (e : Entry) (r : ℕ) →
        Lists v.files v.entries → find key_cmp key v.files ≡ Some x → entry_of key v.entries ≡ Some e → Kept i v.files v.entries hurt →
        Kept i (with_version_moved v key name x e r).files (with_version_moved v key name x e r).entries hurt }
{}
