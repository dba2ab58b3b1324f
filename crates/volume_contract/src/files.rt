//! A volume as its callers see it.
ghost use Rattle.std.specs.Prelude.{◌≡◌, ◌≤◌, ◌<◌, ◌+◌, ◌==◌, ◌||◌, ℕ, List, Option, Contains, length, true, false, Some, IfOk, OnOk, IsTrue, MatchResult, is_none, option_map, slice_index_or};
ghost use Rattle.std.specs.List.{list_any};
ghost use Rattle.volume_layout.specs.declared.layout.Layout.{Layout as Plan};
ghost use Rattle.sector_disk.specs.declared.sector.WeakRun.{WeakRun};
ghost use Rattle.sector_disk.specs.Image.{AreShort, IsCalm};
ghost use Rattle.sector_disk.specs.Calls.{HealsDisk, OnlyReads, GrowsDisk, WritesDisk, device_in};
ghost use Rattle.sector_disk.specs.Machine.{Moment, LeavesOnly, wrote};
ghost use Rattle.std.specs.FinMap.{find as file_of};
ghost use Rattle.run_table.specs.RunTable.{total};
ghost use Rattle.fsd_bytes.specs.Keys.{is_key, key_cmp};
ghost use Rattle.fsd_formats.specs.NamePage.{sectors_for};
ghost use Rattle.fsd_log.specs.Scan.{Placed};
ghost use Rattle.fsd_files.specs.Files.{Change};
ghost use Rattle.fsd_files.specs.declared.reply.Reply.TheVariants.{Forced as IsForced, Deleted, Moved};
ghost use Rattle.fsd_files.specs.Answers.{entry_of, entry_reply, next_reply, put_outcome, delete_outcome, keep_outcome, move_outcome, force_outcome, load_outcome};
ghost use Rattle.fsd_files.specs.Kept.{data_sectors};
ghost use Rattle.fsd_files.specs.Scrub.{leader_place, Sees, leader_count, slice_place};
ghost use Rattle.fsd_sound.specs.Sound.{is_twin};
ghost use Rattle.fsd_sound.specs.Mounted.{Mounted, image_at};
ghost use Rattle.volume_contract.specs.State.{State, Known, Ages, WritesTold, WritesWithin, volume_of, Stands, HasCounted, IsForced as HasForced, HeldVersion, Leaves, put_writes, force_len, change_len, put_len, forces_first, forces_for_place};
ghost use Rattle.fsd_sound.specs.Writes.{force_writes};
ghost use Rattle.volume_contract.specs.Closing.{HasSaved, LeavesClosing, WritesClosing, close_steps, saves};
ghost use Rattle.volume_contract.specs.Order.{InOrder, IsDeviceRefusal, KeepsRefused, KeepsBy, put_steps, delete_steps, keep_steps, move_steps, entry_steps, next_steps, read_steps, reserve_steps, slices_steps, enter_steps, held_steps, force_steps, heal_steps, single_steps, upgrade_steps, grow_steps, is_root, with_three, load_steps};
ghost use Rattle.volume_contract.specs.Pieces.{IsDraft, IsHeldVersion, KeepsEnter, KeepsReserve, GivesBack, HoldsAt, Unholds, FitsDraft, reserve_len, slice_count, in_slices, in_leader, slices_in, slices_if, read_at, ended, with_opened, refusal_told, EndsReserve, EndsSlices, EndsEnter, EndsHold, ReadsHeld};
ghost use Rattle.volume_contract.specs.Ends.{Ends, EndsLoad, EndsPut, EndsForce, Closes, LooksUp, found_one, ReadsRange, kept_key, device_of};
ghost use Rattle.volume_contract.specs.Causes.{Causes};
ghost use Rattle.volume_contract.specs.Healing.{IsMet, LeavesWith, StandsStill};
ghost use Rattle.volume_contract.specs.Telling.{TellsEntry, TellsForce, TellsGone, TellsBytes, TellsHeld, TellsKept, TellsKey, TellsMoved, TellsLeader, TellsNext, TellsRange, TellsTwins, TellsLoad};
ghost use Rattle.volume_contract.specs.Upgrade.{EndsUpgrade, LeavesUpgraded, RootsStand, is_fresh};
ghost use Rattle.volume_contract.specs.Growth.{EndsGrow, HasGrown, LeavesGrown, WritesLonger};
ghost use Rattle.volume_contract.specs.Mount.{MountOpens, MountTells, MountHeals, MountsCalm, IsSoundAt, MountsSound};
ghost use Rattle.fsd_sound.specs.Mounting.{device_of_mount};

use crate::token::{Draft, Held};
use fsd_bytes::{FileName, Key, Refusal};
use fsd_formats::Entry;
use fsd_sound::MountFault;
use sector_disk::{Machine, Seen};
use std::alloc::Global;

/// How many pages a force has committed.
#[derive(Clone, Copy, Debug, PartialEq)]
pub struct Forced {
    pub pages: u32,
}

/// What a volume counts.
#[derive(Clone, Copy, Debug, PartialEq)]
pub struct Stat {
    pub sectors: u32,
    pub free: u32,
    pub waiting: u32,
    pub pages_free: u32,
    pub versions: u32,
}

/// A mounted volume. A call of a volume that is down does nothing: it answers Down.
///
/// What is committed, by a force or by a call that needs one, is on the disk for certain behind a `sync` of the machine:
/// up to there a stop may take back the last writes, in their order, and with them the last forces. A mount syncs.
///
/// One that is let go without a close keeps what was forced. Where a `?` may let it go, a caller over any volume asks for
/// `V: Files<M> + Drop`. docs/LIBRARY.md has a whole program.
pub trait Files<M: Machine>: Sized {
    /// What it tells over any machine.
    ghost state: { Self → State };

    /// The pages that are in memory.
    ghost resident: { Self → ℕ → Option (List ℕ) };

    /// What it has in memory is of this one, whose log has these records.
    ghost holds: { Self → Mounted → List Placed → Type 0 };

    /// Mounts the volume of an image with so many sectors.
    fn mount(alloc: Global, m: &mut M, sectors: u32) -> Result<Self, MountFault>
        requires { sectors ≡ (M.report m.old).sectors }

        ensures disk { HealsDisk M.Machine (device_in device_of_mount result) m.old m.new }
        ensures opens { IfOk result (λ volume. MountOpens M.Machine sectors (state volume) m.old m.new) }
        ensures tells { M.honest m.new → MountTells state sectors (M.now m.old) (M.now m.new) result }
        ensures heals { M.honest m.new → MountHeals state sectors (M.now m.old) (M.now m.new) result }

        // Where nothing wears, an image is mounted by its saved map, if that is believed. Else it is mounted as it shows
        // its table, and refused for it exactly where a page breaks.
        ensures calm { M.honest m.new → IsCalm (M.now m.old).windows → IsCalm (M.now m.new).windows → MountsCalm state resident holds sectors (M.now m.old).image result }

        // A sound disk stays sound at each moment, and its files after a prefix of the changes,
        // with every forced one, are mounted.
        ensures sound { M.honest m.new → (l : Plan) (windows : List WeakRun) (h : List Change) (f : ℕ) → IsSoundAt sectors l windows h f (M.now m.old) →
            MountsSound state holds l windows h f (M.left_since m.new) (M.moment m.old) (LeavesOnly M.moment M.left_since m.old m.new) (M.now m.old) (M.now m.new) result };

    /// Makes a version with these bytes.
    fn put(
        &mut self,
        m: &mut M,
        name: &FileName,
        keep: Option<u32>,
        bytes: &[u8],
    ) -> Result<Key, Refusal>
        requires { (state self.old).layout.sectors ≤ (M.report m.old).sectors }
        ensures order { InOrder (put_steps (state self.old) keep (length bytes.now)) m.old m.new result }
        ensures disk { let may = put_writes (state self.old) (sectors_for (length bytes.now)) in
            WritesDisk M.Machine (device_in device_of result) (Leaves state holds self.old may) m.old m.new }
        ensures writes { WritesWithin M.Machine (put_writes (state self.old) (sectors_for (length bytes.now))) (put_len (state self.old) (sectors_for (length bytes.now))) m.old m.new result }
        ensures keeps { let s = state self.old in
            KeepsBy (put_steps s keep (length bytes.now)) (HasCounted true (forces_for_place s (sectors_for (length bytes.now)) || forces_first s)) s (state self.new) result }
        ensures tells { TellsKey M.Machine (resident self.old) (state self.old) (state self.new) m.old m.new name.now result }
        ensures done { M.honest m.new → (k : Known) → Stands state holds self.old k (M.now m.old) →
            EndsPut state holds (λ met. put_outcome met (volume_of k) name.now bytes.now keep) bytes.now (Change.Put name.now keep bytes.now) k self.new (M.now m.new) result };

    /// Makes a version with this key, this keep and these bytes, where there is none of the key. No version goes by the
    /// keep. Versions are numbered from 1 on. On a volume that stands it answers VersionsUsedUp never: that tells pages
    /// that break the table.
    fn load(&mut self, m: &mut M, key: &Key, keep: u32, bytes: &[u8]) -> Result<(), Refusal>
        requires room { (state self.old).layout.sectors ≤ (M.report m.old).sectors }
        requires key { IsTrue (is_key key.now) }
        ensures order { InOrder (load_steps (state self.old) keep (length bytes.now)) m.old m.new result }
        ensures disk { let may = put_writes (state self.old) (sectors_for (length bytes.now)) in
            WritesDisk M.Machine (device_in device_of result) (Leaves state holds self.old may) m.old m.new }
        ensures writes { WritesWithin M.Machine (put_writes (state self.old) (sectors_for (length bytes.now))) (put_len (state self.old) (sectors_for (length bytes.now))) m.old m.new result }
        ensures keeps { let s = state self.old in
            KeepsBy (load_steps s keep (length bytes.now)) (HasCounted true (forces_for_place s (sectors_for (length bytes.now)) || forces_first s)) s (state self.new) result }
        ensures tells { TellsLoad M.Machine (resident self.old) (state self.old) (state self.new) m.old m.new key.now result }
        ensures done { M.honest m.new → (k : Known) → Stands state holds self.old k (M.now m.old) →
            EndsLoad state holds (λ met. load_outcome met (volume_of k) key.now keep bytes.now) bytes.now (Change.Load key.now keep bytes.now) key.now k self.new (M.now m.new) result };

    /// Takes a version out.
    fn delete(&mut self, m: &mut M, key: &Key) -> Result<(), Refusal>
        requires { (state self.old).layout.sectors ≤ (M.report m.old).sectors }
        ensures order { InOrder (delete_steps (state self.old)) m.old m.new result }
        ensures disk { WritesDisk M.Machine (device_in device_of result) (Leaves state holds self.old (force_writes (state self.old).layout)) m.old m.new }
        ensures writes { WritesWithin M.Machine (force_writes (state self.old).layout) (change_len (state self.old)) m.old m.new result }
        ensures keeps { let s = state self.old in KeepsBy (delete_steps s) (HasCounted false (forces_first s)) s (state self.new) result }
        ensures tells { TellsGone M.Machine (resident self.old) (state self.old) (state self.new) m.old m.new key.now result }
        ensures done { M.honest m.new → (k : Known) → Stands state holds self.old k (M.now m.old) →
            Ends state holds (λ met. delete_outcome met (volume_of k) key.now) (λ x. Deleted key.now) (Change.Delete key.now) k self.new (M.now m.new) result };

    /// Sets the keep of a name's highest version, and answers its key. It takes no memory where the pages are there
    /// that the search for it meets, or all that are in use.
    fn set_keep(&mut self, m: &mut M, name: &FileName, keep: u32) -> Result<Key, Refusal>
        requires { (state self.old).layout.sectors ≤ (M.report m.old).sectors }
        ensures order { InOrder (keep_steps (state self.old) keep) m.old m.new result }
        ensures disk { WritesDisk M.Machine (device_in device_of result) (Leaves state holds self.old (force_writes (state self.old).layout)) m.old m.new }
        ensures writes { WritesWithin M.Machine (force_writes (state self.old).layout) (change_len (state self.old)) m.old m.new result }
        ensures keeps { let s = state self.old in KeepsBy (keep_steps s keep) (HasCounted false (forces_first s)) s (state self.new) result }
        ensures tells { TellsKept M.Machine (resident self.old) (state self.old) (state self.new) m.old m.new name.now result }
        ensures done { M.honest m.new → (k : Known) → Stands state holds self.old k (M.now m.old) →
            Ends state holds (λ met. keep_outcome met (volume_of k) name.now keep) (kept_key keep) (Change.SetKeep name.now keep) k self.new (M.now m.new) result };

    /// Makes a version the next one of a name, and answers its new key. Its bytes, its sectors and its serial stay, and no
    /// data sector is written. Whoever holds the version reads on. Its keep is that of the name's highest version, where
    /// there is one, or stays. Where that is not 0 and the name has more versions then, the oldest goes, one at most.
    fn move_to(&mut self, m: &mut M, key: &Key, name: &FileName) -> Result<Key, Refusal>
        requires { (state self.old).layout.sectors ≤ (M.report m.old).sectors }
        ensures order { InOrder (move_steps (state self.old)) m.old m.new result }
        ensures disk { WritesDisk M.Machine (device_in device_of result) (Leaves state holds self.old (force_writes (state self.old).layout)) m.old m.new }
        ensures writes { WritesWithin M.Machine (force_writes (state self.old).layout) (change_len (state self.old)) m.old m.new result }
        ensures keeps { let s = state self.old in KeepsBy (move_steps s) (HasCounted false (forces_first s)) s (state self.new) result }
        ensures tells { TellsMoved M.Machine (resident self.old) (state self.old) (state self.new) m.old m.new key.now name.now result }
        ensures done { M.honest m.new → (k : Known) → Stands state holds self.old k (M.now m.old) →
            Ends state holds (λ met. move_outcome met (volume_of k) key.now name.now) (Moved key.now) (Change.Move key.now name.now) k self.new (M.now m.new) result };

    /// The entry of a version.
    fn entry(&mut self, m: &mut M, key: &Key) -> Result<Entry, Refusal>
        requires { (state self.old).layout.sectors ≤ (M.report m.old).sectors }
        ensures order { InOrder (entry_steps (state self.old)) m.old m.new result }
        ensures disk { OnlyReads M.Machine (device_in device_of result) m.old m.new }
        ensures state { state self.new ≡ state self.old }
        ensures stands { M.honest m.new → (k : Known) → Stands state holds self.old k (M.now m.old) → Stands state holds self.new k (M.now m.new) }
        ensures tells { TellsEntry M.Machine (resident self.old) (state self.old) (state self.new) m.old m.new key.now (λ e. e) result }
        ensures done { M.honest m.new → (k : Known) → Stands state holds self.old k (M.now m.old) → LooksUp (entry_reply (volume_of k) key.now) (found_one result) };

    /// The entry of the version with the least later key, if there is one. A walk is a `for` over
    /// `0..stat().versions`; one that begins at a name asks for what comes after its version 0, which no version is.
    fn next_after(&mut self, m: &mut M, after: Option<&Key>) -> Result<Option<Entry>, Refusal>
        requires { (state self.old).layout.sectors ≤ (M.report m.old).sectors }
        ensures order { InOrder (next_steps (state self.old)) m.old m.new result }
        ensures disk { OnlyReads M.Machine (device_in device_of result) m.old m.new }
        ensures state { state self.new ≡ state self.old }
        ensures stands { M.honest m.new → (k : Known) → Stands state holds self.old k (M.now m.old) → Stands state holds self.new k (M.now m.new) }
        ensures tells { TellsNext M.Machine (resident self.old) (state self.old) (state self.new) m.old m.new (option_map (λ key. key.now) after.entry) result }
        ensures done { M.honest m.new → (k : Known) → Stands state holds self.old k (M.now m.old) → LooksUp (next_reply (volume_of k) (option_map (λ key. key.now) after.entry)) result };

    /// Reads bytes of a version from a place on, as many as there are and the buffer has room for.
    fn read(&mut self, m: &mut M, key: &Key, from: u32, buf: &mut [u8]) -> Result<u32, Refusal>
        requires { (state self.old).layout.sectors ≤ (M.report m.old).sectors }
        ensures order { InOrder (read_steps (state self.old)) m.old m.new result }
        ensures disk { OnlyReads M.Machine (device_in device_of result) m.old m.new }
        ensures state { state self.new ≡ state self.old }
        ensures stands { M.honest m.new → (k : Known) → Stands state holds self.old k (M.now m.old) → Stands state holds self.new k (M.now m.new) }
        ensures tells { TellsRange M.Machine (resident self.old) (state self.old) (state self.new) m.old m.new key.now from buf.old buf.new result }
        ensures done { M.honest m.new → (k : Known) → Stands state holds self.old k (M.now m.old) →
            ReadsRange (M.now m.old).image (M.now m.new).image (file_of key_cmp key.now (volume_of k).files) (entry_of key.now (volume_of k).entries) from buf.old buf.new result };

    /// Begins a version of so many bytes: its sectors are taken and its serial is drawn. It takes no memory.
    fn reserve(&mut self, m: &mut M, length: u64) -> Result<Draft, Refusal>
        requires { (state self.old).layout.sectors ≤ (M.report m.old).sectors }
        ensures order { InOrder (reserve_steps (state self.old) length) m.old m.new result }
        ensures disk { WritesDisk M.Machine (device_in device_of result) (Leaves state holds self.old (force_writes (state self.old).layout)) m.old m.new }
        ensures writes { WritesWithin M.Machine (force_writes (state self.old).layout) (reserve_len (state self.old) (sectors_for length)) m.old m.new result }
        ensures keeps { KeepsReserve length (state self.old) (state self.new) result }
        ensures causes { Causes M.Machine (resident self.old) (state self.old) (state self.new) m.old m.new result }
        ensures done { M.honest m.new → (k : Known) → Stands state holds self.old k (M.now m.old) → EndsReserve state holds length k self.new (M.now m.new) result };

    /// Writes bytes of a version that was begun, from one of its slices on: whole slices, or up to its end. It takes no
    /// memory. Where the disk fails, what the slices have is not known.
    fn write_slices(
        &mut self,
        m: &mut M,
        draft: &Draft,
        first: u32,
        bytes: &[u8],
    ) -> Result<(), Refusal>
        requires room { (state self.old).layout.sectors ≤ (M.report m.old).sectors }
        requires draft { IsDraft (state self.old) draft.now }
        requires fits { FitsDraft draft.now.length first (length bytes.now) }
        ensures order { InOrder (slices_steps (state self.old) (in_slices draft.now.runs first (length bytes.now))) m.old m.new result }
        ensures disk { WritesDisk M.Machine (device_in device_of result) (Leaves state holds self.old (in_slices draft.now.runs first (length bytes.now))) m.old m.new }
        ensures writes { WritesWithin M.Machine (in_slices draft.now.runs first (length bytes.now)) (slice_count (length bytes.now)) m.old m.new result }
        ensures state { state self.new ≡ state self.old }
        ensures done { M.honest m.new → (k : Known) → Stands state holds self.old k (M.now m.old) →
            (before : List (Option (List ℕ))) → slices_in k.opened.drafts draft.now.runs ≡ Some before →
            EndsSlices state holds draft.now first bytes.now before k self.new (M.now m.new) result };

    /// Makes a version of a creation whose slices are all written, its leader first; or hands it back.
    fn enter(
        &mut self,
        m: &mut M,
        name: &FileName,
        keep: Option<u32>,
        draft: Draft,
    ) -> Result<Key, (Draft, Refusal)>
        requires room { (state self.old).layout.sectors ≤ (M.report m.old).sectors }
        requires draft { IsDraft (state self.old) draft }
        ensures order { InOrder (enter_steps (state self.old) keep (in_leader draft.runs)) m.old m.new (refusal_told result) }
        ensures disk { WritesDisk M.Machine (device_in device_of (refusal_told result)) (Leaves state holds self.old (λ t. force_writes (state self.old).layout t || in_leader draft.runs t)) m.old m.new }
        ensures writes { WritesWithin M.Machine (λ t. force_writes (state self.old).layout t || in_leader draft.runs t) (1 + change_len (state self.old)) m.old m.new (refusal_told result) }
        ensures keeps { KeepsEnter draft keep (state self.old) (state self.new) result }
        ensures tells { TellsKey M.Machine (resident self.old) (state self.old) (state self.new) m.old m.new name.now (refusal_told result) }
        ensures done { M.honest m.new → (k : Known) → Stands state holds self.old k (M.now m.old) →
            (bytes : List ℕ) → length bytes ≡ draft.length → slices_in k.opened.drafts draft.runs ≡ Some (slices_if true bytes) →
            EndsEnter state holds draft name.now bytes keep k self.new (M.now m.new) (refusal_told result) };

    /// Gives a creation up: its sectors are free at once. It takes no memory, and a volume that is down does it too.
    fn abandon(&mut self, draft: Draft)
        requires { IsDraft (state self.old) draft }
        ensures state { GivesBack draft.runs (state self.old) (state self.new) }
        ensures done { (k : Known) (now : Moment) (before : List (Option (List ℕ))) → slices_in k.opened.drafts draft.runs ≡ Some before →
            Stands state holds self.old k now → Stands state holds self.new (with_opened k (ended k.opened draft.runs)) now };

    /// Holds a version for a reader, who gets its bytes whatever becomes of it. Fewer than eight are held.
    fn hold(&mut self, m: &mut M, key: &Key) -> Result<Held, Refusal>
        requires room { (state self.old).layout.sectors ≤ (M.report m.old).sectors }
        requires place { IsTrue (list_any is_none (state self.old).readers) }
        ensures order { InOrder (entry_steps (state self.old)) m.old m.new result }
        ensures disk { OnlyReads M.Machine (device_in device_of result) m.old m.new }
        ensures state { MatchResult result (λ h. HoldsAt h (state self.old) (state self.new)) (λ why. state self.new ≡ state self.old) }
        ensures held { IfOk result (IsHeldVersion (state self.new)) }
        ensures tells { TellsEntry M.Machine (resident self.old) (state self.old) (state self.new) m.old m.new key.now (λ h. h.entry) result }
        ensures done { M.honest m.new → (k : Known) → Stands state holds self.old k (M.now m.old) → EndsHold state holds key.now k self.new (M.now m.new) result };

    /// Reads bytes of a version that is held, from a place on, as many as there are and the buffer has room for. It takes
    /// no memory.
    fn read_held(
        &mut self,
        m: &mut M,
        held: &Held,
        from: u32,
        buf: &mut [u8],
    ) -> Result<u32, Refusal>
        requires room { (state self.old).layout.sectors ≤ (M.report m.old).sectors }
        requires held { IsHeldVersion (state self.old) held.now }
        ensures order { InOrder (held_steps (state self.old)) m.old m.new result }
        ensures disk { OnlyReads M.Machine (device_in device_of result) m.old m.new }
        ensures state { state self.new ≡ state self.old }
        ensures tells { TellsHeld M.Machine (state self.old).layout held.now.entry.length from (length buf.old) m.new result }
        ensures stands { M.honest m.new → (k : Known) → Stands state holds self.old k (M.now m.old) → Stands state holds self.new k (M.now m.new) }
        ensures done { M.honest m.new → (k : Known) → Stands state holds self.old k (M.now m.old) →
            (reading : HeldVersion) → slice_index_or k.opened.readers held.now.place None ≡ Some reading → held.now.entry.length ≡ length reading.bytes →
            ReadsHeld (M.now m.old).image (M.now m.new).image held.now reading.bytes from buf.old buf.new result };

    /// A reader gives its version up: sectors that it alone kept are free. It takes no memory, and a volume that is down does
    /// it too.
    fn unhold(&mut self, held: Held)
        requires { IsHeldVersion (state self.old) held }
        ensures state { Unholds held.place (state self.old) (state self.new) }
        ensures done { (k : Known) (now : Moment) → Stands state holds self.old k now → Stands state holds self.new (with_opened k (read_at k.opened held.place None)) now };

    /// Commits all changes since the last force, where there were any. They are on the disk for certain behind a `sync` of
    /// the machine. It takes no memory.
    fn force(&mut self, m: &mut M) -> Result<Forced, Refusal>
        requires { (state self.old).layout.sectors ≤ (M.report m.old).sectors }
        ensures order { InOrder (force_steps (state self.old)) m.old m.new result }
        ensures disk { WritesDisk M.Machine (device_in device_of result) (Leaves state holds self.old (force_writes (state self.old).layout)) m.old m.new }
        ensures writes { WritesWithin M.Machine (force_writes (state self.old).layout) (force_len (state self.old)) m.old m.new result }
        ensures keeps { KeepsBy (force_steps (state self.old)) HasForced (state self.old) (state self.new) result }
        ensures tells { TellsForce M.Machine (resident self.old) (state self.old) (state self.new) m.old m.new (resident self.new) result }
        ensures done { M.honest m.new → (k : Known) → Stands state holds self.old k (M.now m.old) →
            EndsForce state holds (λ met. force_outcome (volume_of k)) IsForced k self.new (M.now m.new) result };

    /// A force, as time goes on. What it commits is on the disk for certain behind a `sync` of the machine.
    fn tick(&mut self, m: &mut M) -> Result<Forced, Refusal>
        requires { (state self.old).layout.sectors ≤ (M.report m.old).sectors }
        ensures order { InOrder (force_steps (state self.old)) m.old m.new result }
        ensures disk { WritesDisk M.Machine (device_in device_of result) (Leaves state holds self.old (force_writes (state self.old).layout)) m.old m.new }
        ensures writes { WritesWithin M.Machine (force_writes (state self.old).layout) (force_len (state self.old)) m.old m.new result }
        ensures keeps { KeepsBy (force_steps (state self.old)) HasForced (state self.old) (state self.new) result }
        ensures tells { TellsForce M.Machine (resident self.old) (state self.old) (state self.new) m.old m.new (resident self.new) result }
        ensures done { M.honest m.new → (k : Known) → Stands state holds self.old k (M.now m.old) →
            EndsForce state holds (λ met. force_outcome (volume_of k)) IsForced k self.new (M.now m.new) result }
    {
        self.force(m)
    }

    /// Writes each copy of the root, of the anchor and of the pages at home that alone is damaged, from its twin, and
    /// answers how many sectors it wrote.
    fn heal(&mut self, m: &mut M) -> Result<u32, Refusal>
        requires { (state self.old).layout.sectors ≤ (M.report m.old).sectors }
        ensures order { InOrder (heal_steps (state self.old)) m.old m.new result }
        ensures disk { WritesDisk M.Machine (device_in device_of result) (Leaves state holds self.old (is_twin (state self.old).layout)) m.old m.new }
        ensures writes { WritesTold M.Machine (is_twin (state self.old).layout) (λ count. count) m.old m.new result }
        ensures state { state self.new ≡ state self.old }
        ensures tells { M.honest m.new → TellsTwins (state self.old).layout (M.now m.old) (M.now m.new) result }
        ensures done { M.honest m.new → (k : Known) → Stands state holds self.old k (M.now m.old) → StandsStill state holds k self.new (M.now m.new) result };

    /// Writes the leader of a version, where it is damaged or differs from the version's entry, and answers whether it did.
    fn heal_leader(&mut self, m: &mut M, e: &Entry) -> Result<bool, Refusal>
        requires room { (state self.old).layout.sectors ≤ (M.report m.old).sectors }
        requires met { IsMet (state self.old) e.now }
        ensures order { InOrder (single_steps (state self.old)) m.old m.new result }
        ensures disk { WritesDisk M.Machine (device_in device_of result) (LeavesWith state holds self.old e.now (λ s. s == leader_place e.now)) m.old m.new }
        ensures writes { WritesTold M.Machine (λ s. s == leader_place e.now) leader_count m.old m.new result }
        ensures state { state self.new ≡ state self.old }
        ensures tells { M.honest m.new → TellsLeader e.now (M.now m.old) (M.now m.new) result }
        ensures done { M.honest m.new → (k : Known) → Stands state holds self.old k (M.now m.old) → Contains (volume_of k).entries e.now → StandsStill state holds k self.new (M.now m.new) result };

    /// How one of the data sectors of a version reads.
    fn probe(&mut self, m: &mut M, e: &Entry, slice: u32) -> Result<Seen, Refusal>
        requires room { (state self.old).layout.sectors ≤ (M.report m.old).sectors }
        requires met { IsMet (state self.old) e.now }
        requires slice { slice < length (data_sectors e.now.runs) }
        ensures order { InOrder (single_steps (state self.old)) m.old m.new result }
        ensures disk { OnlyReads M.Machine (device_in device_of result) m.old m.new }
        ensures state { state self.new ≡ state self.old }
        ensures stands { M.honest m.new → (k : Known) → Stands state holds self.old k (M.now m.old) → Stands state holds self.new k (M.now m.new) }
        ensures sees { IfOk result (λ seen. M.honest m.new → Sees (slice_place e.now slice) (M.now m.old).image (M.now m.new).image seen) };

    /// Reads bytes of a version by its entry, from a place on, as many as there are and the buffer has room for. Nothing is
    /// looked up, and it takes no memory.
    fn read_entry(
        &mut self,
        m: &mut M,
        e: &Entry,
        from: u32,
        buf: &mut [u8],
    ) -> Result<u32, Refusal>
        requires room { (state self.old).layout.sectors ≤ (M.report m.old).sectors }
        requires met { IsMet (state self.old) e.now }
        ensures order { InOrder (held_steps (state self.old)) m.old m.new result }
        ensures disk { OnlyReads M.Machine (device_in device_of result) m.old m.new }
        ensures state { state self.new ≡ state self.old }
        ensures stands { M.honest m.new → (k : Known) → Stands state holds self.old k (M.now m.old) → Stands state holds self.new k (M.now m.new) }
        ensures tells { TellsBytes M.Machine e.now from buf.old buf.new m.old m.new result }
        ensures done { M.honest m.new → (k : Known) → Stands state holds self.old k (M.now m.old) → entry_of e.now.key (volume_of k).entries ≡ Some e.now →
            ReadsRange (M.now m.old).image (M.now m.new).image (file_of key_cmp e.now.key (volume_of k).files) (Some e.now) from buf.old buf.new result };

    /// What it counts; a volume that is down counts too.
    fn stat(&self) -> Stat
        ensures size { result.sectors ≡ (state self.now).layout.sectors }
        ensures free { result.free ≡ total (state self.now).free }
        ensures waiting { result.waiting ≡ length (state self.now).waiting }
        ensures pages_free { result.pages_free ≡ length (state self.now).free_pages }
        ensures versions { result.versions ≡ (state self.now).versions };

    /// Whether no record was written in this mount, and no page waits; of a volume that is down too.
    fn fresh(&self) -> bool
        ensures { result ≡ is_fresh (state self.now) };

    /// Writes both roots with layout 2, root 0 first, so that the volume bears runs of three adjacent sectors. Layout 2 is
    /// `LayoutIs(2)`; where the disk fails, the volume is down, and sound by both layouts. The roots are on the disk for
    /// certain behind a `sync` of the machine.
    fn upgrade(&mut self, m: &mut M) -> Result<(), Refusal>
        requires room { (state self.old).layout.sectors ≤ (M.report m.old).sectors }
        requires fresh { IsTrue (is_fresh (state self.old)) }
        ensures order { InOrder (upgrade_steps (state self.old)) m.old m.new result }
        ensures disk { WritesDisk M.Machine (device_in device_of result) (LeavesUpgraded state holds self.old is_root) m.old m.new }
        ensures writes { WritesWithin M.Machine is_root 2 m.old m.new result }
        ensures state { MatchResult result (λ x. state self.new ≡ with_three (state self.old)) (λ why. KeepsRefused (upgrade_steps (state self.old)) why (state self.old) (state self.new)) }
        ensures roots { OnOk result (M.honest m.new → RootsStand (state self.new) (M.now m.new)) }
        ensures done { M.honest m.new → (k : Known) → Stands state holds self.old k (M.now m.old) → EndsUpgrade state holds k self.new (M.now m.new) result };

    /// Gives the volume so many sectors in all, and answers how many of them are free then. The image has them first, damaged
    /// ones behind the others; then root 0 says so, and root 4. No more than it has is `NotLarger`, and more than it may
    /// have `PastMost`, with the most; where the disk fails the volume is down, and sound by the old number, and by this one
    /// where a root says it. It takes no memory. The roots are on the disk for certain behind a `sync` of the machine.
    fn grow(&mut self, m: &mut M, sectors: u32) -> Result<u32, Refusal>
        requires { (state self.old).layout.sectors ≤ (M.report m.old).sectors }
        ensures order { InOrder (grow_steps (state self.old) sectors) m.old m.new result }
        ensures disk { GrowsDisk M.Machine (device_in device_of result) (LeavesGrown state holds sectors self.old is_root) m.old m.new }
        ensures writes { WritesLonger M.Machine sectors is_root 2 m.old m.new result }
        ensures state { MatchResult result (λ free. HasGrown M.Machine sectors free (state self.old) (state self.new) m.old m.new) (λ why. KeepsRefused (grow_steps (state self.old) sectors) why (state self.old) (state self.new)) }
        ensures roots { OnOk result (M.honest m.new → RootsStand (state self.new) (M.now m.new)) }
        ensures done { M.honest m.new → (k : Known) → Stands state holds self.old k (M.now m.old) → EndsGrow state holds sectors k self.new (M.now m.new) result };

    /// Ends the use of a volume by a force, and saves the map of what is free, where nothing waits on and the table has as
    /// many pages in use as the map has sectors: the next mount may open the volume by it, without a walk. All is on the disk
    /// for certain behind a `sync` of the machine. It takes no memory.
    fn close(self, m: &mut M) -> Result<(), Refusal>
        requires { (state self).layout.sectors ≤ (M.report m.old).sectors }
        ensures order { InOrder (close_steps (state self)) m.old m.new result }
        ensures disk { WritesDisk M.Machine (device_in device_of result) (LeavesClosing state holds self) m.old m.new }
        ensures writes { WritesClosing M.Machine (state self) m.old m.new result }
        ensures causes { Causes M.Machine (resident self) (state self) (state self) m.old m.new result }
        ensures saves { IsTrue (saves (state self)) → OnOk result (M.honest m.new → HasSaved (state self) (M.now m.new)) }
        ensures done { M.honest m.new → (k : Known) → Stands state holds self k (M.now m.old) → MatchResult result (λ x. Closes k (M.now m.new).image) (λ why. IsDeviceRefusal why) };

    /// A volume that stands over a disk stands over it as it is worn by any call of the machine.
    ghost wears: { (s : Self) (k : Known) (old new : Moment) → AreShort old.windows → Ages old new → Stands state holds s k old → Stands state holds s k new };

    /// The pages in memory are those of what it has there.
    ghost shows: { (s : Self) (mounted : Mounted) (records : List Placed) (page : ℕ) (bytes : List ℕ) → holds s mounted records → resident s page ≡ Some bytes → image_at mounted.pages page ≡ bytes };
}
