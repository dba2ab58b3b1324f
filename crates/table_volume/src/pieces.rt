//! Creations in pieces.
ghost use Rattle.std.specs.Prelude.{◌≡◌, ◌≤◌, ◌<◌, ◌+◌, ◌^◌, length};
ghost use Rattle.sector_disk.specs.Machine.{Moment};
ghost use Rattle.fsd_formats.specs.NamePage.{max_length, sectors_for};
ghost use Rattle.volume_contract.specs.Order.{with_drawn};
ghost use Rattle.volume_contract.specs.Pieces.{IsDraft, TakesPlace, draft_begun, with_opened};
ghost use Rattle.volume_contract.specs.State.{Known, Stands};
ghost use Rattle.volume_laws.specs.Placing.{IsPlace, drawn_known};
ghost use Rattle.volume_laws.specs.State.{IsMemoryOf, state};

use crate::Volume;
use run_table::Runs;
use volume_contract::Draft;

/// A length that fits its field.
pub(crate) fn small(length: u64) -> u32
    requires { length ≤ max_length }
    ensures { result ≡ length }
{
    length as u32
}

/// The sectors of a version of so many bytes: its leader's and its data's.
pub(crate) fn sectors_of(length: u32) -> u32
    requires { length ≤ max_length }
    ensures { result ≡ sectors_for length }
{
    1 + length.div_ceil(512)
}

impl Volume {
    /// Free sectors are a new creation's, which has the next serial.
    pub(crate) fn begun(&mut self, length: u32, runs: Runs) -> Draft
        requires most { length ≤ max_length }
        requires place { IsPlace self.old.map (sectors_for length) runs }
        requires serials { self.old.serial.count + 1 < 2 ^ 32 }
        ensures draft { IsDraft (state self.new) result }
        ensures length { result.length ≡ length }
        ensures serial { result.serial ≡ self.old.serial }
        ensures runs { result.runs ≡ runs }
        ensures takes { TakesPlace runs (with_drawn (state self.old)) (state self.new) }
        ensures stands { (k : Known) (now : Moment) → Stands state IsMemoryOf self.old k now → Stands state IsMemoryOf self.new (with_opened (drawn_known k) (draft_begun k.opened runs length)) now }
    {
        let serial = self.serial;
        self.map.take(&runs);
        self.shadow.unfinished(&runs);
        self.draw();
        Draft {
            length,
            serial,
            runs,
        }
    }
}
