//! Entering the log's first third again: its pages are written home, and then the anchor moves on.
ghost use Rattle.std.specs.Prelude.{◌≡◌, ◌≢◌, true, ◌<◌, ◌≤◌, ◌+◌, ◌*◌, ℕ, List, None, slice_index_or, IfErr, OnOk};
ghost use Rattle.sector_disk.specs.declared.sector.WeakRun.{WeakRun};
ghost use Rattle.sector_disk.specs.Calls.{WritesDisk, device_in, load_failed_at};
ghost use Rattle.sector_disk.specs.Machine.{Moment, wrote};
ghost use Rattle.fsd_formats.specs.Record.{max_pages};
ghost use Rattle.fsd_log.specs.Scan.{Placed};
ghost use Rattle.log_thirds.specs.Append.{LastLiesIn};
ghost use Rattle.log_thirds.specs.Moving.{EndsInLastThird};
ghost use Rattle.group_commit.specs.Room.{goes_before, pages_in_first};
ghost use Rattle.group_commit.specs.Force.{KeepsOutside};
ghost use Rattle.group_commit.specs.Entering.{EntersThird, EntersNot, HomesInPart, HomesNoPage, IsHoming, KeepsForm, MakesNoRoom, MakesRoom, MayHome, OwnsLog, ShowsHoming, ShowsStill};

use log_thirds::{Log, Place};
use sector_disk::{LoadFault, Machine};
use twin_home::write_home;

// Writes a page home from its last image in the log.
fn home_page<M: Machine>(m: &mut M, log: &Log, page: u32) -> Result<(), LoadFault>
    requires page { page < log.now.layout.pages }
    requires slot { slice_index_or log.now.slots page None ≢ None }
    requires sectors { log.now.layout.sectors ≤ (M.report m.old).sectors }
    ensures disk { WritesDisk M.Machine (device_in load_failed_at result) (ShowsHoming log.now page) m.old m.new }
    ensures rest { M.honest m.new → KeepsOutside log.now.layout (M.now m.old) (M.now m.new) }
    ensures counted { OnOk result (M.tells m.new → M.ledger m.new ≡ wrote (M.ledger m.old) 2) }
    ensures done { OnOk result ((records : List Placed) (disk : List (List ℕ)) (windows : List WeakRun) (old : Moment) (n : ℕ) → M.honest m.new → MayHome log.now windows old →
        LastLiesIn log.now records log.now.anchor.third page → ((q : ℕ) → n ≤ q → q < page → LastLiesIn log.now records log.now.anchor.third q → ⊥) →
        IsHoming log.now records disk windows old n (M.now m.old) → IsHoming log.now records disk windows old (page + 1) (M.now m.new)) }
    ensures failed { IfErr result (HomesNoPage M.Machine log.now m.old m.new) }
{
    let mut image = [0; 512];
    if !log.image_of(m, page, &mut image)? {
        return Ok(());
    }
    write_home(m, log.layout(), page, &image)?;
    Ok(())
}

// Writes each page home whose last image lies in the log's first third, in ascending order.
fn home_third<M: Machine>(m: &mut M, log: &Log, third: u32) -> Result<(), LoadFault>
    requires first { third ≡ log.now.anchor.third }
    requires low { third < 3 }
    requires sectors { log.now.layout.sectors ≤ (M.report m.old).sectors }
    ensures disk { WritesDisk M.Machine (device_in load_failed_at result) (ShowsStill log.now) m.old m.new }
    ensures rest { M.honest m.new → KeepsOutside log.now.layout (M.now m.old) (M.now m.new) }
    ensures counted { OnOk result (M.tells m.new → M.ledger m.new ≡ wrote (M.ledger m.old) (2 * pages_in_first log.now)) }
    ensures done { OnOk result ((records : List Placed) (disk : List (List ℕ)) (windows : List WeakRun) → M.honest m.new → MayHome log.now windows (M.now m.old) →
        OwnsLog log.now records disk windows (M.now m.old).image → IsHoming log.now records disk windows (M.now m.old) log.now.layout.pages (M.now m.new)) }
    ensures failed { IfErr result (HomesInPart M.Machine log.now (2 * pages_in_first log.now) m.old m.new) }
{
    log.attest();
    let mut from = 0;
    loop {
        match log.pages_of_third(third, from) {
            Some(page) => {
                home_page(m, log, page)?;
                from = page + 1;
            }
            None => return Ok(()),
        }
    }
}

/// Writes each page home whose last image lies in the log's first third, and then moves the anchor on.
pub(crate) fn enter_third<M: Machine>(m: &mut M, log: &mut Log, third: u32) -> Result<(), LoadFault>
    requires first { third ≡ log.old.anchor.third }
    requires ends { EndsInLastThird log.old }
    requires sectors { log.old.layout.sectors ≤ (M.report m.old).sectors }
    ensures disk { WritesDisk M.Machine (device_in load_failed_at result) (ShowsStill log.old) m.old m.new }
    ensures rest { M.honest m.new → KeepsOutside log.old.layout (M.now m.old) (M.now m.new) }
    ensures done { OnOk result (EntersThird M.Machine log.old log.new m.old m.new) }
    ensures failed { IfErr result (EntersNot M.Machine log.old log.new m.old m.new) }
{
    log.attest();
    home_third(m, log, third)?;
    log.move_anchor(m)?;
    Ok(())
}

/// Makes room for a record of so many pages: where it would enter the log's first third, the pages of that third are
/// written home, and the anchor moves on; else nothing is done.
pub fn make_room<M: Machine>(m: &mut M, log: &mut Log, count: u32) -> Result<(), LoadFault>
    requires few { count ≤ max_pages }
    requires sectors { log.old.layout.sectors ≤ (M.report m.old).sectors }
    ensures disk { WritesDisk M.Machine (device_in load_failed_at result) (ShowsStill log.old) m.old m.new }
    ensures rest { M.honest m.new → KeepsOutside log.old.layout (M.now m.old) (M.now m.new) }
    ensures idle { goes_before log.old count ≡ true → m.new ≡ m.old }
    ensures form { KeepsForm log.old log.new }
    ensures done { OnOk result (MakesRoom M.Machine log.old log.new count m.old m.new) }
    ensures failed { IfErr result (MakesNoRoom M.Machine log.old log.new count m.old m.new) }
{
    log.attest();
    match log.room(count) {
        Place::FirstThird(third) => enter_third(m, log, third),
        Place::Here => Ok(()),
        Place::NextThird => Ok(()),
    }
}
