//! The command `format`.
ghost use Rattle.std.specs.Prelude.{◌≡◌, Ok, OnOk};
ghost use Rattle.sector_disk.specs.Calls.{device_in, failed_at};
ghost use Rattle.sector_disk.specs.Machine.{Trusts};
ghost use Rattle.volume_layout.specs.Layout.{plan_most};
ghost use Rattle.cfs_program.specs.Formatting.{AsksAll, AsksAtMost, MakesVolume, RunsFormat, UsesAttach, plan_asks};

use fsd_texts::{Fault, Line};
use sector_disk::{Attach, Failed, Machine};
use volume_format::format;
use volume_layout::{Kind, Layout, LayoutFault};
use volume_turns::last_line;

/// Makes an empty volume of these numbers of sectors, of sectors a third, and of name pages, which bears so much
/// adjacent damage, says so or why not, and gives the status.
pub fn run_format<M: Machine>(
    m: &mut M,
    path: &str,
    sectors: u32,
    third: u32,
    pages: u32,
    kind: Kind,
    most: u32,
) -> u8
    ensures { RunsFormat M.Machine (plan_most kind sectors third pages most) path.now m.old m.new result }
{
    match plan_of(sectors, third, pages, kind, most) {
        Ok(l) => make(m, path, &l),
        Err(fault) => last_line(m, &Line::Unplanned(fault), 1),
    }
}

// The layout of these numbers, of this kind, or the first fault.
fn plan_of(
    sectors: u32,
    third: u32,
    pages: u32,
    kind: Kind,
    most: u32,
) -> Result<Layout, LayoutFault>
    ensures { result ≡ plan_most kind sectors third pages most }
{
    Ok(Layout::plan_most(sectors, third, pages, most)?.with_kind(kind))
}

// Makes a volume of this layout, and says so.
fn make<M: Machine>(m: &mut M, path: &str, l: &Layout) -> u8
    ensures { RunsFormat M.Machine (Ok l.now) path.now m.old m.new result }
{
    let sectors = l.sectors();
    let free = sectors - l.data_start();
    match make_volume(m, path, l) {
        Ok(()) => last_line(m, &Line::Formatted { sectors, free }, 0),
        Err(failed) => last_line(m, &Line::Ended(Fault::Device(failed.place)), 4),
    }
}

// Makes a new image, and an empty volume on it.
fn make_volume<M: Machine>(m: &mut M, path: &str, l: &Layout) -> Result<(), Failed>
    ensures uses { UsesAttach (device_in failed_at result) (M.report m.old) (M.report m.new) }
    ensures trust { Trusts (M.tells m.old) (M.tells m.new) (M.honest m.old) (M.honest m.new) }
    ensures asks { M.tells m.new → AsksAtMost (plan_asks (Ok l.now) path.now) (M.ledger m.old) (M.ledger m.new) }
    ensures asked { OnOk result (M.tells m.new → AsksAll (plan_asks (Ok l.now) path.now) (M.ledger m.old) (M.ledger m.new)) }
    ensures quiet { M.honest m.new → (M.now m.new).said ≡ (M.now m.old).said }
    ensures made { OnOk result (M.honest m.new → MakesVolume l.now (M.now m.old) (M.now m.new)) }
{
    match m.attach(path, Attach::New(l.sectors())) {
        Ok(_) => format(m, l),
        Err(failed) => Err(failed),
    }
}
