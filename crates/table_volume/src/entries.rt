//! Entries that are met in the table, and whether anything is done.
ghost use Rattle.std.specs.Prelude.{◌≡◌, ◌<◌};
ghost use Rattle.volume_laws.specs.Taken.{are_taken, down_fault, met_entry};

use crate::Volume;
use cached_table::are_taken;
use fsd_bytes::Refusal;
use fsd_formats::Entry;
use run_table::Runs;

impl Volume {
    /// That it is not down.
    pub(crate) fn is_up(&self) -> Result<(), Refusal>
        ensures { result ≡ down_fault self.now.down }
    {
        match self.down {
            Some(place) => Err(Refusal::Down(place)),
            None => Ok(()),
        }
    }

    // Whether the sectors of runs are of the data area, each named once, and neither free nor waiting, and each reader
    // holds these very runs, or none of their sectors.
    fn are_taken(&self, runs: &Runs) -> bool
        ensures { result ≡ are_taken self.now runs.now }
    {
        are_taken(&self.map, &self.layout, &self.shadow, runs)
    }

    /// An entry that was met in a leaf, which is the table's only where its sectors are taken.
    pub(crate) fn met_entry(&self, entry: Entry, page: u32) -> Result<Entry, Refusal>
        requires { page < self.now.layout.pages }
        ensures { result ≡ met_entry self.now page entry }
    {
        if self.are_taken(&entry.runs) {
            Ok(entry)
        } else {
            Err(Refusal::Unsound(self.layout.home_a(page)))
        }
    }
}
