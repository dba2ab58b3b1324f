//! How what was written stands on the disk.
ghost use Rattle.std.specs.Prelude.{◌≡◌};

/// How what was written stands on the disk.
#[derive(Drop)]
pub(crate) enum Standing {
    /// All of it is there, and none waits in memory.
    Synced,
    /// But for one run of adjacent sectors, which was written upwards behind the last sync: it begins with `first` and
    /// ends in front of `next`.
    Unsynced { first: u32, next: u64 },
    /// The system did not take some of it, or did not sync it, so some of it may be lost: of the run that begins with
    /// this sector.
    Broken(u32),
}

impl Standing {
    ghost use Rattle.image_file.specs.Standing.{first_of, goes_on, run_from};

    /// The first sector that may not be on the disk, and 0 where all is.
    pub(crate) fn first(&self) -> u32
        ensures { result ≡ first_of self.now }
    {
        match self {
            Standing::Synced => 0,
            Standing::Unsynced { first, .. } => *first,
            Standing::Broken(first) => *first,
        }
    }

    /// Whether a write from a sector on goes on with the run.
    pub(crate) fn goes_on(&self, sector: u32) -> bool
        ensures { result ≡ goes_on sector self.now }
    {
        match self {
            Standing::Unsynced { next, .. } => *next == u64::from(sector),
            Standing::Synced => false,
            Standing::Broken(_) => false,
        }
    }

    /// The first sector of the run that has a write from a sector on.
    pub(crate) fn run_from(&self, sector: u32) -> u32
        ensures { result ≡ run_from sector self.now }
    {
        if self.goes_on(sector) {
            self.first()
        } else {
            sector
        }
    }
}
