//! Versions that readers hold.
ghost use Rattle.std.specs.Prelude.{◌≡◌, ◌<◌, ℕ, Contains, IsTrue, List, None, Some, is_none, length, set, slice_index_or};
ghost use Rattle.std.specs.List.{list_any};
ghost use Rattle.fsd_files.specs.Disk.{in_runs};
ghost use Rattle.fsd_files.specs.Kept.{KeptIn};
ghost use Rattle.sector_disk.specs.Machine.{Moment};
ghost use Rattle.volume_contract.specs.Pieces.{read_at, with_opened};
ghost use Rattle.volume_contract.specs.State.{Known, Stands, volume_of};
ghost use Rattle.volume_laws.specs.State.{IsMemoryOf, state};
ghost use Rattle.volume_laws.specs.Taken.{are_taken};

use crate::Volume;
use fsd_formats::Entry;

impl Volume {
    /// A reader holds a version of the table: the place.
    pub(crate) fn held_at(&mut self, entry: &Entry) -> u32
        requires taken { IsTrue (are_taken self.old entry.now.runs) }
        requires place { IsTrue (list_any is_none (state self.old).readers) }
        ensures inside { result < length (state self.new).readers }
        ensures empty { slice_index_or (state self.old).readers result None ≡ None }
        ensures there { slice_index_or (state self.new).readers result None ≡ Some entry.now.runs }
        ensures state { state self.new ≡ record (state self.old) { readers = set (state self.old).readers result (Some entry.now.runs) } }
        ensures stands { (k : Known) (now : Moment) (bytes : List ℕ) → Contains (volume_of k).entries entry.now → KeptIn now.image (in_runs k.windows) bytes entry.now.runs →
            Stands state IsMemoryOf self.old k now → Stands state IsMemoryOf self.new (with_opened k (read_at k.opened result (Some (record { runs = entry.now.runs; bytes = bytes })))) now }
    {
        self.shadow.hold(&entry.runs)
    }
}
