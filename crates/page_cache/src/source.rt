//! Where pages come from.
ghost use Rattle.std.specs.Prelude.{◌≡◌, ◌<◌, ◌≤◌, ℕ, List, Option, Some, IfErr, OnOk};
ghost use Rattle.sector_disk.specs.declared.sector.Sector.{Sector};
ghost use Rattle.sector_disk.specs.Calls.{OnlyReads, device_in, load_failed_at};
ghost use Rattle.sector_disk.specs.Damage.{IsDevice, LostCause};
ghost use Rattle.sector_disk.specs.Image.{IsWorn, open_damage};
ghost use Rattle.sector_disk.specs.Machine.{Moment};

use sector_disk::{LoadFault, Machine};

/// Where pages come from that are not in memory. Each stands twice on the disk.
pub trait PageSource {
    /// The number of its pages.
    ghost pages: { Self → ℕ };

    /// The number of sectors of the disk that it needs.
    ghost sectors: { Self → ℕ };

    /// The newest image of a page that this image of a disk has, if it has one.
    ghost newest: { Self → List Sector → (page : ℕ) → Option (List ℕ) };

    /// What it knows of its pages is so on the disk of this moment, however its windows wear it.
    ghost knows: { Self → Moment → Type 0 };

    /// The sectors `a` and `b` are the two copies of a page.
    ghost copies: { Self → (page a b : ℕ) → Type 0 };

    /// These bytes stand whole in one of the two copies of a page.
    ghost stands: { Self → (page : ℕ) → List Sector → List ℕ → Type 0 };

    /// Reads a page. Where the call fails nothing is said of `buf`.
    fn load<M: Machine>(&self, m: &mut M, page: u32, buf: &mut [u8; 512]) -> Result<(), LoadFault>
        requires page { page < pages self.now }
        requires sectors { sectors self.now ≤ (M.report m.old).sectors }

        ensures reads { OnlyReads M.Machine (device_in load_failed_at result) m.old m.new }

        // What it gives stood in one of the copies, and a page is lost only where both are damaged.
        ensures whole { OnOk result (M.honest m.new → stands self.now page (M.now m.old).image buf.new) }
        ensures lost { IfErr result (λ fault. M.honest m.new → LostCause (copies self.now page) (M.now m.new).image fault) }

        // From a disk of which it knows it gives the newest image, and no page is lost.
        ensures newest { OnOk result (M.honest m.new → knows self.now (M.now m.old) → newest self.now (M.now m.old).image page ≡ Some buf.new) }
        ensures never_lost { IfErr result (λ fault. M.honest m.new → knows self.now (M.now m.old) → IsDevice fault) };

    /// What it knows stays so where the disk wears.
    ghost wears: { (s : Self) (old new : Moment) → IsWorn (open_damage old.windows) old.image new.image → new.windows ≡ old.windows → knows s old → knows s new };

    /// So does the newest image of each page.
    ghost stays: { (s : Self) (old new : Moment) (page : ℕ) → IsWorn (open_damage old.windows) old.image new.image → new.windows ≡ old.windows → knows s old →
        newest s new.image page ≡ newest s old.image page };
}
