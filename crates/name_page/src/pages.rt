//! The pages of a name table, which are reached and changed in steps.
ghost use Rattle.std.specs.Prelude.{◌≡◌, ◌≢◌, ◌⊎◌, ◌↔◌, ◌<◌, ◌≤◌, ℕ, List, Option, Some, None, Err, true, false, OnOk, IfErr, slice_get, length};
ghost use Rattle.std.specs.Borrow.{sem};
ghost use Rattle.fsd_bytes.specs.declared.refusal.Refusal.{Refusal};
ghost use Rattle.name_page.specs.Lends.{LendsPage};
ghost use Rattle.name_page.specs.Pages.{is_spare, spare_count, home_sector, reaches, changes, Step, IsReached, MayChange, NeedsNoMemory, outer_in, with_images, with_promise, with_page, with_taken, with_spare, rested};
ghost use Rattle.name_page.specs.Reaching.{SeesPages, HasReached, RefusesReach, RefusesSpare};

use fsd_bytes::Refusal;

/// How many pages a call of the table may reach in its step.
pub const MOST_REACHED: usize = 80;

/// How many pages a call of the table may change.
pub const MOST_CHANGED: usize = 40;

/// Pages of a name table. Work over them goes in steps: a step first reaches the pages that it needs, and the spare
/// ones that it may take, which may be refused; after that the other calls cannot fail.
///
/// A step begins with the whole leave to reach pages. The leave to change them goes over all steps, and a page that is
/// changed again takes no more of it. Whoever gives the pages renews it, by a call of its own.
///
/// What a step has reached stays as it was seen. Of the other pages the images are what the outside would give, so they
/// stay only where it is trusted.
pub trait Pages {
    /// The pages, and what this step has done with them.
    ghost step: { Self → Step };

    /// The pages with the bytes of one of them written.
    ghost written: { Self → ℕ → List ℕ → Self };

    /// The outside gave pages as it is to, so far.
    ghost trusted: { Self → Type 0 };

    /// A page is in memory, so that it can be reached where no memory is left.
    ghost in_memory: { Self → ℕ → Type 0 };

    /// What has happened outside between an old state and a new one,
    /// of which the last call was refused so by the outside, or none was.
    ghost outside: { Option Refusal → Self → Self → Type 0 };

    /// The number of pages of the table.
    fn count(&self) -> u32
        ensures { result ≡ length (step self.now).images };

    /// Makes a page of the table ready to be looked at and changed.
    fn reach(&mut self, page: u32) -> Result<(), Refusal>
        requires more { 0 < reaches (step self.old) }
        requires within { page < length (step self.old).images }
        ensures outside { outside (outer_in result) self.old self.new }
        ensures memory { (is_spare (step self.old).spares page ≡ true) ⊎ in_memory self.old page → NeedsNoMemory step in_memory (outer_in result) self.old self.new }
        ensures images { SeesPages (trusted self.new) (step self.old) (step self.new) }
        ensures done { OnOk result (HasReached page (step self.old) (step self.new)) }
        ensures spare { is_spare (step self.old).spares page ≡ true → result ≡ Err (Refusal.Unsound (home_sector (step self.old) page)) }
        ensures refused { IfErr result (RefusesReach page (step self.old) (step self.new)) };

    /// Promises so many pages that may be taken, in place of what was promised before.
    fn spare(&mut self, n: u32) -> Result<(), Refusal>
        ensures outside { outside (outer_in result) self.old self.new }
        ensures images { SeesPages (trusted self.new) (step self.old) (step self.new) }
        ensures step { OnOk result (step self.new ≡ with_promise n (with_images (step self.new).images (step self.old))) }
        ensures full { let free = spare_count (step self.old) in (result ≡ Err (Refusal.NameTableFull free)) ↔ (free < n) }
        ensures refused { IfErr result (RefusesSpare n (step self.old) (step self.new)) };

    /// The bytes of a page that was reached.
    fn look(&self, page: u32) -> &[u8; 512]
        requires { IsReached (step self.now) page }
        ensures { slice_get (step self.now).images page ≡ Some result.now };

    /// The bytes of a page that was reached, to be changed.
    fn change(&mut self, page: u32) -> &mut [u8; 512]
        requires reached { IsReached (step self.old) page }
        requires more { MayChange (step self.old) page }
        ensures* writes_back { sem 𝓛 (LendsPage Self.row self.entry (written self.old page) result) }
        ensures value { slice_get (step self.old).images page ≡ Some result.now };

    /// A page that was promised, whose bytes are what they were.
    fn take(&mut self) -> u32
        requires promised { 0 < (step self.old).promised }
        requires more { 0 < changes (step self.old) }
        ensures outside { outside None self.old self.new }
        ensures spare { is_spare (step self.old).spares result ≡ true }
        ensures step { step self.new ≡ with_taken result (step self.old) }
        ensures reached { IsReached (step self.new) result };

    /// Makes a page spare.
    fn give_back(&mut self, page: u32)
        requires reached { IsReached (step self.old) page }
        requires used { is_spare (step self.old).spares page ≡ false }
        requires root { page ≢ 0 }
        ensures outside { outside None self.old self.new }
        ensures step { step self.new ≡ with_spare page (step self.old) };

    /// Ends the step. The next one may reach as many pages again.
    fn rest(&mut self)
        ensures outside { outside None self.old self.new }
        ensures memory { NeedsNoMemory step in_memory None self.old self.new }
        ensures step { step self.new ≡ rested (step self.old) };

    /// What the step knows once the bytes that were lent have come back.
    ghost changed: { (s : Self) (page : ℕ) (bytes : List ℕ) → step (written s page bytes) ≡ with_page page bytes (step s) };

    /// Where bytes are written nothing is called.
    ghost quiet: { (s : Self) (page : ℕ) (bytes : List ℕ) → outside None s (written s page bytes) };

    /// Where nothing is called nothing happens.
    ghost still: { (s : Self) → outside None s s };

    /// What happens one after the other happens in all, and the outside refuses last.
    ghost then: { (a b c : Self) (refusal : Option Refusal) → outside None a b → outside refusal b c → outside refusal a c };

    /// Trust that is lost does not come back.
    ghost trust: { (a b : Self) (refusal : Option Refusal) → outside refusal a b → trusted b → trusted a };

    /// A table has at most 4096 pages.
    ghost small: { (s : Self) → length (step s).images ≤ 4096 };

    /// Each page is spare or not.
    ghost flags: { (s : Self) → length (step s).spares ≡ length (step s).images };
}
