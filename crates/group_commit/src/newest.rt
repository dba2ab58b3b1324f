//! The newest image of each page.
ghost use Rattle.std.specs.Prelude.{◌≡◌, ◌<◌, ◌≤◌, Some, IfErr, OnOk};
ghost use Rattle.sector_disk.specs.Damage.{LostCause};
ghost use Rattle.sector_disk.specs.Calls.{OnlyReads, device_in, load_failed_at};
ghost use Rattle.fsd_sound.specs.Homes.{home_of, AreHomesOf};

use log_thirds::Log;
use page_cache::PageSource;
use sector_disk::{LoadFault, Machine, Seen};
use std::marker::Model;
use twin_home::read_home;
use volume_layout::Layout;

/// The pages of a name table, each from its last image in the log, and from home where the log has none.
#[derive(Drop)]
pub struct Newest<'a> {
    log: &'a Log,
    layout: Layout,
}

impl<'a> Model for Newest<'a> {
    ghost use Rattle.std.specs.Prelude.{◌≡◌};
    ghost use Rattle.log_thirds.specs.LogValue.{LogValue};

    ghost Value = { LogValue };

    ghost view = { λ s. s.log.now };

    ghost invariant = { λ s. s.log.now.layout ≡ s.layout };
}

impl<'a> Newest<'a> {
    /// Over this log, and the homes by its layout.
    pub fn over(log: &'a Log, layout: &Layout) -> Newest<'a>
        requires { log.now.layout ≡ layout.now }
        ensures { result ≡ log.now }
    {
        Newest {
            log,
            layout: *layout,
        }
    }
}

// Reads a page from its first home that is whole.
fn load_home<M: Machine>(
    m: &mut M,
    l: &Layout,
    page: u32,
    buf: &mut [u8; 512],
) -> Result<(), LoadFault>
    requires page { page < l.now.pages }
    requires sectors { l.now.sectors ≤ (M.report m.old).sectors }

    ensures reads { OnlyReads M.Machine (device_in load_failed_at result) m.old m.new }
    ensures shown { OnOk result (M.honest m.new → home_of l.now (M.now m.new).image page ≡ Some buf.new) }
    ensures lost { IfErr result (λ fault. M.honest m.new → LostCause (AreHomesOf l.now page) (M.now m.new).image fault) }
{
    match read_home(m, l, page, buf)? {
        Seen::Whole => Ok(()),
        Seen::Damaged => Err(LoadFault::Lost {
            a: l.home_a(page),
            b: l.home_b(page),
        }),
    }
}

impl<'a> PageSource for Newest<'a> {
    ghost use Rattle.group_commit.specs.Newest.{newest_by, KnowsPages, AreCopiesIn, StandsByLog};
    ghost use Rattle.group_commit.specs.KnownLaws.{knows_worn, newest_worn};

    ghost pages = { λ log. log.layout.pages };

    ghost sectors = { λ log. log.layout.sectors };

    ghost newest = { newest_by };

    ghost knows = { KnowsPages };

    ghost copies = { AreCopiesIn };

    ghost stands = { StandsByLog };

    ghost wears = { knows_worn };

    ghost stays = { newest_worn };

    fn load<M: Machine>(&self, m: &mut M, page: u32, buf: &mut [u8; 512]) -> Result<(), LoadFault> {
        if self.log.image_of(m, page, buf)? {
            return Ok(());
        }
        load_home(m, &self.layout, page, buf)
    }
}
