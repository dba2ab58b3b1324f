//! The roots of an image.
ghost use Rattle.std.specs.Prelude.{◌≡◌, ◌≤◌, Ok, IfOk, IfSome, option_and_then};
ghost use Rattle.volume_layout.specs.Layout.{IsPlanned};
ghost use Rattle.volume_layout.specs.Root.{read_root};
ghost use Rattle.sector_disk.specs.Calls.{OnlyReads, device_in, failed_at};
ghost use Rattle.volume_layout.specs.Kinds.{longest_of};
ghost use Rattle.fsd_files.specs.Disk.{first_whole};
ghost use Rattle.fsd_sound.specs.Roots.{counted_root, root_at};
ghost use Rattle.mount_recover.specs.Finding.{SeesRoots};

use sector_disk::{Failed, LONGEST_RUN, Machine, read_sector};
use volume_layout::{Layout, read_root};

// The layout of a root, if the root counts.
fn counted(b: &[u8; 512], sectors: u32) -> Option<Layout>
    ensures value { result ≡ option_and_then (counted_root sectors) (read_root b.now) }
    ensures fits { IfSome result (λ l. l.sectors ≤ sectors) }
    ensures planned { IfSome result (λ l. IsPlanned l) }
{
    let l = read_root(b)?;
    if l.sectors() <= sectors {
        Some(l)
    } else {
        None
    }
}

// The root in this sector, if it counts.
fn root_at<M: Machine>(m: &mut M, sectors: u32, place: u32) -> Result<Option<Layout>, Failed>
    requires sectors { sectors ≡ (M.report m.old).sectors }
    requires place { place ≤ 4 }

    ensures reads { OnlyReads M.Machine (device_in failed_at result) m.old m.new }
    ensures found { IfOk result (λ found. M.honest m.new → found ≡ root_at sectors (M.now m.new).image place) }
    ensures fits { IfOk result (λ found. IfSome found (λ l. l.sectors ≤ sectors)) }
    ensures planned { IfOk result (λ found. IfSome found (λ l. IsPlanned l)) }
{
    if place >= sectors {
        return Ok(None);
    }
    match read_sector(m, place)? {
        Some(b) => Ok(counted(&b, sectors)),
        None => Ok(None),
    }
}

// The roots of an image, the one at 0 and the one at 4, where they count.
#[derive(Drop)]
pub(crate) struct Roots {
    first: Option<Layout>,
    second: Option<Layout>,
}

// The sectors that a run may have for this root; where it doesn't count, as many as any run.
fn borne(root: Option<Layout>) -> u32
    ensures bears { IfSome root (λ l. result ≤ longest_of l.kind) }
    ensures least { 2 ≤ result }
    ensures most { result ≤ 3 }
{
    match root {
        Some(l) => l.kind().longest(),
        None => LONGEST_RUN,
    }
}

impl Roots {
    // The first, else the second.
    pub(crate) fn taken(&self) -> Option<Layout>
        ensures { result ≡ first_whole self.now.first self.now.second }
    {
        match self.first {
            Some(l) => Some(l),
            None => self.second,
        }
    }

    // The sectors that a run may have for each of them.
    pub(crate) fn longest(&self) -> u32
        ensures first { IfSome self.now.first (λ l. result ≤ longest_of l.kind) }
        ensures second { IfSome self.now.second (λ l. result ≤ longest_of l.kind) }
        ensures least { 2 ≤ result }
        ensures most { result ≤ 3 }
    {
        borne(self.first).min(borne(self.second))
    }
}

// Reads both roots.
pub(crate) fn find_roots<M: Machine>(m: &mut M, sectors: u32) -> Result<Roots, Failed>
    requires { sectors ≡ (M.report m.old).sectors }

    ensures reads { OnlyReads M.Machine (device_in failed_at result) m.old m.new }
    ensures seen { IfOk result (λ roots. M.honest m.new → SeesRoots sectors roots.first roots.second (M.now m.old) (M.now m.new)) }
    ensures fits { IfOk result (λ roots. IfSome roots.first (λ l. l.sectors ≤ sectors) × IfSome roots.second (λ l. l.sectors ≤ sectors)) }
    ensures planned { IfOk result (λ roots. IfSome roots.first (λ l. IsPlanned l) × IfSome roots.second (λ l. IsPlanned l)) }
{
    let first = root_at(m, sectors, 0)?;
    let second = root_at(m, sectors, 4)?;
    Ok(Roots { first, second })
}
