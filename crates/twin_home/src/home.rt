//! Name pages at home.
ghost use Rattle.std.specs.Prelude.{◌≡◌, ◌<◌, ◌≤◌, ◌+◌, Ok, IfOk, OnOk, OnErr};
ghost use Rattle.sector_disk.specs.Image.{stand};
ghost use Rattle.sector_disk.specs.Calls.{OnlyReads, WritesDisk, device_in, failed_at};
ghost use Rattle.volume_layout.specs.Layout.{home_a, home_b};
ghost use Rattle.sector_disk.specs.Machine.{Writes, Tears, Holds, wrote};
ghost use Rattle.fsd_sound.specs.Homes.{home_of};
ghost use Rattle.twin_home.specs.Home.{ShowsHome, with_homes, HomesIn};

use sector_disk::{Failed, Machine, Seen, read_into, write_sectors};
use volume_layout::Layout;

/// Reads a page from its first home, and where that is damaged from the second.
/// `Damaged` says that both are; `buf` then stays as it was.
pub fn read_home<M: Machine>(
    m: &mut M,
    l: &Layout,
    page: u32,
    buf: &mut [u8; 512],
) -> Result<Seen, Failed>
    requires page { page < l.now.pages }
    requires room { l.now.sectors ≤ (M.report m.old).sectors }

    ensures reads { OnlyReads M.Machine (device_in failed_at result) m.old m.new }

    // The answer is what the image shows as the call ends.
    ensures shown { IfOk result (λ seen. M.honest m.new → ShowsHome seen (home_of l.now (M.now m.new).image page) buf.new) }
    ensures kept { result ≡ Ok Seen.Damaged → buf.new ≡ buf.old }
{
    match read_into(m, l.home_a(page), buf)? {
        Seen::Whole => Ok(Seen::Whole),
        Seen::Damaged => read_into(m, l.home_b(page), buf),
    }
}

/// Writes the first home of a page, and nothing else. A call that fails may have written it.
pub fn write_a<M: Machine>(m: &mut M, l: &Layout, page: u32, b: &[u8; 512]) -> Result<(), Failed>
    requires page { page < l.now.pages }
    requires room { l.now.sectors ≤ (M.report m.old).sectors }

    ensures writes { WritesDisk M.Machine (device_in failed_at result) (Tears (home_a l.now page) b.now) m.old m.new }
    ensures counted { OnOk result (M.tells m.new → M.ledger m.new ≡ wrote (M.ledger m.old) 1) }
    ensures counted_err { OnErr result (M.tells m.new → M.ledger m.new ≡ M.ledger m.old) }
    ensures written { OnOk result (M.honest m.new → Writes (home_a l.now page) b.now (M.now m.old) (M.now m.new)) }
    ensures done { OnOk result (M.honest m.new → Holds (M.now m.old) (stand (M.now m.old).image (home_a l.now page) b.now 1) (M.now m.new)) }
{
    write_sectors(m, l.home_a(page), b)
}

/// Writes the second home of a page, and nothing else. A call that fails may have written it.
pub fn write_b<M: Machine>(m: &mut M, l: &Layout, page: u32, b: &[u8; 512]) -> Result<(), Failed>
    requires page { page < l.now.pages }
    requires room { l.now.sectors ≤ (M.report m.old).sectors }

    ensures writes { WritesDisk M.Machine (device_in failed_at result) (Tears (home_b l.now page) b.now) m.old m.new }
    ensures counted { OnOk result (M.tells m.new → M.ledger m.new ≡ wrote (M.ledger m.old) 1) }
    ensures counted_err { OnErr result (M.tells m.new → M.ledger m.new ≡ M.ledger m.old) }
    ensures written { OnOk result (M.honest m.new → Writes (home_b l.now page) b.now (M.now m.old) (M.now m.new)) }
    ensures done { OnOk result (M.honest m.new → Holds (M.now m.old) (stand (M.now m.old).image (home_b l.now page) b.now 1) (M.now m.new)) }
{
    write_sectors(m, l.home_b(page), b)
}

/// Writes a page to its first home, and then to its second.
pub fn write_home<M: Machine>(m: &mut M, l: &Layout, page: u32, b: &[u8; 512]) -> Result<(), Failed>
    requires page { page < l.now.pages }
    requires room { l.now.sectors ≤ (M.report m.old).sectors }

    ensures writes { WritesDisk M.Machine (device_in failed_at result) (HomesIn l.now page b.now) m.old m.new }
    ensures counted { OnOk result (M.tells m.new → M.ledger m.new ≡ wrote (M.ledger m.old) 2) }
    ensures least { M.tells m.new → (M.ledger m.old).written ≤ (M.ledger m.new).written }
    ensures most { M.tells m.new → (M.ledger m.new).written ≤ (M.ledger m.old).written + 2 }
    ensures done { OnOk result (M.honest m.new → Holds (M.now m.old) (with_homes l.now page b.now (M.now m.old).image 1 1) (M.now m.new)) }
{
    write_a(m, l, page, b)?;
    write_b(m, l, page, b)
}
