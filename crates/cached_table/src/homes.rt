//! The pages at home, as a source.
use page_cache::PageSource;
use sector_disk::{LoadFault, Machine, Seen};
use std::marker::Model;
use twin_home::read_home;
use volume_layout::Layout;

/// The pages of a name table, each from its first home that is whole.
#[derive(Drop)]
pub(crate) struct Homes {
    layout: Layout,
}

impl Model for Homes {
    ghost use Rattle.volume_layout.specs.declared.layout.Layout.{Layout as Plan};

    ghost Value = { Plan };

    ghost view = { λ s. s.layout };
}

impl Homes {
    ghost use Rattle.std.specs.Prelude.{◌≡◌};

    /// By this layout.
    pub(crate) fn by(layout: &Layout) -> Homes
        ensures { result ≡ layout.now }
    {
        Homes { layout: *layout }
    }
}

impl PageSource for Homes {
    ghost use Rattle.fsd_sound.specs.Homes.{AreHomesOf};
    ghost use Rattle.group_commit.specs.Newest.{StandsAtHome};
    ghost use Rattle.cached_table.specs.Homes.{KnowsHomes, home_by};
    ghost use Rattle.cached_table.specs.HomeLaws.{home_stays, homes_worn};

    ghost pages = { λ l. l.pages };

    ghost sectors = { λ l. l.sectors };

    ghost newest = { home_by };

    ghost knows = { KnowsHomes };

    ghost copies = { AreHomesOf };

    ghost stands = { StandsAtHome };

    ghost wears = { homes_worn };

    ghost stays = { λ l old new page worn same knows. home_stays l old new worn same knows page };

    fn load<M: Machine>(&self, m: &mut M, page: u32, buf: &mut [u8; 512]) -> Result<(), LoadFault> {
        match read_home(m, &self.layout, page, buf)? {
            Seen::Whole => Ok(()),
            Seen::Damaged => Err(LoadFault::Lost {
                a: self.layout.home_a(page),
                b: self.layout.home_b(page),
            }),
        }
    }
}
