//! A mounted volume.
ghost use Rattle.std.specs.Prelude.{◌≡◌};

use alloc_map::Map;
use cached_table::CachedTable;
use fsd_bytes::Serial;
use group_commit::RecordRoom;
use log_thirds::Log;
use shadow_frees::Shadow;
use std::marker::Model;
use volume_layout::Layout;

/// A mounted volume. The pages of its name table are read through a cache, and those that are changed wait there for a
/// force. No more of its table is in memory than the cache has:
/// an entry that is met is tested against the map and the shadow.
#[derive(Drop)]
pub struct Volume {
    pub(crate) layout: Layout,
    pub(crate) map: Map,
    pub(crate) shadow: Shadow,
    pub(crate) log: Log,
    pub(crate) table: CachedTable,
    // The images of the next record.
    pub(crate) room: RecordRoom,
    pub(crate) serial: Serial,
    pub(crate) versions: u32,
    // Where a force has failed.
    pub(crate) down: Option<u32>,
}

impl Model for Volume {
    ghost use Rattle.volume_laws.specs.Volume.{VolumeValue, IsWholeVolume};

    ghost Value = { VolumeValue };

    ghost view = { λ v. record { layout = v.layout; map = v.map; shadow = v.shadow; log = v.log; cache = v.table.cache; free_pages = v.table.free_pages; serial = v.serial; versions = v.versions; down = v.down } };

    ghost invariant = { λ v. IsWholeVolume (record { layout = v.layout; map = v.map; shadow = v.shadow; log = v.log; cache = v.table.cache; free_pages = v.table.free_pages; serial = v.serial; versions = v.versions; down = v.down }) };
}

impl Volume {
    ghost use Rattle.volume_laws.specs.Volume.{IsWholeVolume};

    /// For the proof alone: it gives what a volume keeps.
    pub(crate) fn attest(&self)
        ensures { IsWholeVolume self.now }
    {
        let _ = &self.layout;
    }
}
