//! Laws over the definitions: the functions do nothing, the contract of each is a law.
ghost use Rattle.std.specs.Prelude.{◌≡◌, ◌⊎◌, ◌≤◌, ◌++◌, ◌∷◌, ◌&&◌, ◌||◌, if◌then◌else◌, ℕ, Contains, List, [], filter, length, Ok, Option, None, Some, T, false};
ghost use Rattle.sector_disk.specs.Calls.{IsHeld};
ghost use Rattle.sector_disk.specs.Machine.{IsSynced, Moment};
ghost use Rattle.volume_layout.specs.declared.kind.Kind.{Kind};
ghost use Rattle.std.specs.FinMap.{find, is_sorted};
ghost use Rattle.fsd_bytes.specs.Keys.{key_cmp};
ghost use Rattle.fsd_bytes.specs.declared.key.Key.{Key};
ghost use Rattle.fsd_bytes.specs.declared.key.Serial.{Serial};
ghost use Rattle.fsd_bytes.specs.declared.pattern.Pattern.TheVariants.{Prefix};
ghost use Rattle.fsd_files.specs.Files.{Change, Files, step};
ghost use Rattle.fsd_formats.specs.declared.entry.Entry.{Entry};
ghost use Rattle.fsd_texts.specs.declared.command.Command.TheVariants.{Get, List as ListAll};
ghost use Rattle.fsd_runs.specs.declared.request.Request.TheVariants.{Dump, Format, One, Put, Restore};
ghost use Rattle.fsd_runs.specs.declared.span.Span.{Span};
ghost use Rattle.fsd_runs.specs.Dumps.{all_since, chosen, is_in_span, span_of};
ghost use Rattle.cfs_program.specs.Drill.{list_text};
ghost use Rattle.cfs_program.specs.Program.{Ran, input_for};
ghost use Rattle.fsd_history.specs.History.{AreLives, AreParts, Ends, HasShown, IsFull, IsLeft, Life, SaysVersion, Stops, Tells, TellsPlainly, next_since};

use sector_disk::Machine;

/// Runs one after another over a volume that was formatted, each to its end or stopped at any moment, are told by files
/// alone, from none on.
pub fn runs_tell_files<M: Machine>()
    ensures { (n t p q : ℕ) (kind : Kind) (path : List ℕ) (a b : M) (left : Moment) (lives : List (Life M)) →
        M.honest b → Ran M.Machine (Format n t p kind q) path a b 0 → M.left_since b (M.now b).synced left →
        AreLives M.Machine (IsLeft M.Machine left) lives → Tells M.Machine [] lives }
{}

/// So of puts, gets and lists, of upgrades, growths and dumps, which leave the files, and of restores, which load some
/// first versions of a dump, and all where they end with 0; whatever other runs are between, in fewer words.
pub fn puts_gets_and_lists_tell_files<M: Machine>()
    ensures { (s : Files) (lives : List (Life M)) → Tells M.Machine s lives → TellsPlainly M.Machine s lives }
{}

/// A machine whose writes are all on its disk holds nothing back, as it is asked of one that is put on.
pub fn synced_machines_hold_nothing_back<M: Machine>()
    ensures { (m : M) → M.honest m → IsSynced (M.now m) → IsHeld M.Machine m (λ c. c ≡ M.now m) }
{}

/// A list that ends says just the files, and leaves them.
pub fn lists_say_the_files<M: Machine>()
    ensures { (m : M) (input said : List ℕ) (s next : Files) (status : ℕ) → Ends (HasShown M.Machine m) (One (ListAll (Prefix []))) input s said status next →
        (said ≡ list_text s) × (next ≡ s) }
{}

/// A get that ends says the version's bytes, or a damaged sector of it, or that there is none, and leaves the files.
pub fn gets_say_the_version<M: Machine>()
    ensures { (m : M) (key : Key) (input said : List ℕ) (s next : Files) (status : ℕ) → Ends (HasShown M.Machine m) (One (Get key)) input s said status next →
        SaysVersion key (find key_cmp key s) said status × (next ≡ s) }
{}

/// A put that ends with 0 is found by the next run, and one that was stopped is found whole or not at all.
pub fn puts_are_found_whole_or_not<M: Machine>()
    ensures ended { (m : M) (name : List ℕ) (keep : Option ℕ) (input said : List ℕ) (s next : Files) → Ends (HasShown M.Machine m) (Put name keep) input s said 0 next →
        next ≡ step s (Change.Put name keep input) }
    ensures stopped { (m : M) (name : List ℕ) (keep : Option ℕ) (input said : List ℕ) (s next : Files) → Stops (HasShown M.Machine m) (Put name keep) input s said next →
        (next ≡ s) ⊎ (next ≡ step s (Change.Put name keep input)) }
{}

/// A dump of all versions that has ended with 0, restored where there are no files to an end with 0, gives the files that
/// it was made of.
pub fn full_dumps_restore_the_files<M: Machine>()
    ensures { (m other : M) (since : Serial) (most : Option ℕ) (said more : List ℕ) (s between next : Files) → T (is_sorted key_cmp s) →
        (x : Ends (HasShown M.Machine m) (Dump since most) [] s said 0 between) → IsFull since most x.plays.volume →
        Ends (HasShown M.Machine other) Restore said [] more 0 next → next ≡ s }
{}

/// A dump that may have so many bytes at most has no more, where it ends with 0.
pub fn dumps_have_so_many_bytes_at_most<M: Machine>()
    ensures { (m : M) (since : Serial) (most : ℕ) (said : List ℕ) (s next : Files) → T (is_sorted key_cmp s) →
        Ends (HasShown M.Machine m) (Dump since (Some most)) [] s said 0 next → length said ≤ most }
{}

/// A dump goes on from part to part: each version behind the serial of a part, and no other, is in it or behind its head,
/// where the next part begins, and none is both; and a part has no version only where none is behind its serial.
pub fn parts_of_a_dump_go_on()
    ensures each { (since : Serial) (most : ℕ) (entries : List Entry) (span : Span) → span_of since (Some most) entries ≡ Ok span → (e : Entry) → Contains entries e →
        is_in_span (all_since since) e.serial ≡ (is_in_span span e.serial || is_in_span (all_since (next_since span entries)) e.serial) }
    ensures once { (since : Serial) (most : ℕ) (entries : List Entry) (span : Span) → span_of since (Some most) entries ≡ Ok span → (e : Entry) → Contains entries e →
        (is_in_span span e.serial && is_in_span (all_since (next_since span entries)) e.serial) ≡ false }
    ensures last { (since : Serial) (most : ℕ) (entries : List Entry) (span : Span) → span_of since (Some most) entries ≡ Ok span →
        chosen span entries ≡ [] → chosen (all_since since) entries ≡ [] }
{}

/// So the parts of a dump, up to where no version is left, have each version behind its serial once, and no other.
pub fn parts_of_a_dump_have_each_version_once()
    ensures { (since : Serial) (most : ℕ) (entries : List Entry) (spans : List Span) → AreParts since most entries spans → (e : Entry) → Contains entries e →
        length (filter (λ span. is_in_span span e.serial) spans) ≡ (if is_in_span (all_since since) e.serial then 1 else 0) }
{}

/// A worked history: a put that was stopped at any moment, and a list that ended, over a volume that was formatted.
pub fn a_stopped_put_is_listed_or_not<M: Machine>()
    ensures { (name : List ℕ) (keep : Option ℕ) (x y : Life M) (left : Moment) → x.request ≡ Put name keep → x.stop ≡ Some left →
        y.request ≡ One (ListAll (Prefix [])) → y.stop ≡ None → Tells M.Machine [] (x ∷ y ∷ []) →
        ((M.now y.to).said ≡ (M.now y.from).said ++ list_text [])
        ⊎ ((M.now y.to).said ≡ (M.now y.from).said ++ list_text (step [] (Change.Put name keep (M.ledger x.from).input))) }
{}
