//! A dump, from the mount to its last byte or to the line of the fault that ended it.
ghost use Rattle.std.specs.Prelude.{◌≡◌, ◌≤◌, ℕ, List, [], None, false, IsTrue};
ghost use Rattle.fsd_runs.specs.declared.request.Request.TheVariants.{Dump};
ghost use Rattle.fsd_texts.specs.Text.{text};
ghost use Rattle.scrub.specs.Telling.{StandTwice};
ghost use Rattle.volume_contract.specs.State.{Known, Stands, forced_of, none_open, volume_of};
ghost use Rattle.volume_turns.specs.Causes.{Parts, TellsImage};
ghost use Rattle.volume_turns.specs.Dumping.{DumpsAndEnds, DumpsAsked, FindsSpan, SaysAtEnd, damages_text, refusal_line, refusal_status};
ghost use Rattle.volume_turns.specs.Running.{EndsMounted, EndsRun, LeavesOver, TakesNothing, TellsMounted};
ghost use Rattle.volume_turns.specs.Status.{IsDumpStatus};
ghost use Rattle.volume_turns.specs.Steps.{ended_by};
ghost use Rattle.volume_turns.specs.Turns.{OnDisk};
ghost use Rattle.volume_turns.specs.Whole.{RunsOut};

use crate::answer::ended_by;
use crate::line::{end_with, last_line};
use crate::once::fault_of;
use fsd_bytes::{Key, Refusal, Serial};
use fsd_runs::Span;
use fsd_texts::{Fault, Line};
use sector_disk::Machine;
use std::alloc::Global;
use volume_contract::Files;
use volume_dump::{DumpFault, dump, span_in};

// Says each damaged sector by a line.
fn say_found<M: Machine>(m: &mut M, found: &[(Key, u32)]) -> u8
    ensures { SaysAtEnd M.Machine (damages_text found.now) 8 m.old m.new result }
{
    for x in found {
        let line = Line::Damaged {
            key: x.0.copied(),
            sector: x.1,
        };
        if last_line(m, &line, 8) == 6 {
            return 6;
        }
    }
    8
}

// Says a refusal, or the fault that it is.
fn end_refused<M: Machine>(m: &mut M, why: Refusal) -> u8
    ensures { SaysAtEnd M.Machine (text (refusal_line why (ended_by why))) (refusal_status (ended_by why)) m.old m.new result }
{
    match ended_by(why) {
        Ok(_) => last_line(m, &Line::Refused(why), 1),
        Err(fault) => end_with(m, fault),
    }
}

// Says a dump of a span, and what stands behind it.
fn dump_and_end<M: Machine, V: Files<M> + Drop>(alloc: Global, v: V, m: &mut M, span: Span) -> u8
    requires room { (V.state v).layout.sectors ≤ (M.report m.old).sectors }
    ensures { DumpsAndEnds V.state V.holds M.Machine span v m.old m.new result }
{
    let mut v = v;
    match dump(alloc, &mut v, m, span) {
        Ok(_) => 0,
        Err(DumpFault::Cut(_)) => 8,
        Err(DumpFault::Output) => 6,
        Err(DumpFault::Found(found)) => say_found(m, found.as_slice()),
        Err(DumpFault::Refused(why)) => end_refused(m, why),
        Err(DumpFault::Memory) => end_with(m, Fault::Memory),
    }
}

// The span that is asked for: all behind a serial, or as far as so many bytes go.
fn span_for<M: Machine, V: Files<M>>(
    alloc: Global,
    v: &mut V,
    m: &mut M,
    since: Serial,
    most: Option<u32>,
) -> Result<Span, Refusal>
    requires room { (V.state v.old).layout.sectors ≤ (M.report m.old).sectors }
    requires up { (V.state v.old).down ≡ None }
    ensures { FindsSpan V.state V.holds M.Machine since most v.old v.new m.old m.new result }
{
    match most {
        None => Ok(Span {
            since,
            before: None,
        }),
        Some(most) => span_in(alloc, v, m, since, most),
    }
}

// Says the dump that is asked for, or why there is none.
fn dump_asked<M: Machine, V: Files<M> + Drop>(
    alloc: Global,
    v: V,
    m: &mut M,
    since: Serial,
    most: Option<u32>,
) -> u8
    requires room { (V.state v).layout.sectors ≤ (M.report m.old).sectors }
    requires up { (V.state v).down ≡ None }
    ensures { DumpsAsked V.state V.holds M.Machine since most v m.old m.new result }
{
    let mut v = v;
    match span_for(alloc, &mut v, m, since, most) {
        Ok(span) => dump_and_end(alloc, v, m, span),
        Err(why) => end_refused(m, why),
    }
}

// Says it over a volume that was just mounted, to the last line. What the mount wrote is brought to the disk first, and
// nothing is written behind that.
fn dump_on<M: Machine, V: Files<M> + Drop>(
    alloc: Global,
    v: V,
    m: &mut M,
    since: Serial,
    most: Option<u32>,
) -> u8
    requires room { (V.state v).layout.sectors ≤ (M.report m.old).sectors }
    requires up { (V.state v).down ≡ None }
    ensures ends { EndsMounted M.Machine IsDumpStatus m.old m.new result }
    ensures takes { TakesNothing M.Machine m.old m.new result }
    ensures tells { M.honest m.new → TellsMounted Parts StandTwice (V.state v).layout ⊥ (M.now m.old) (M.now m.new) result }
    ensures runs { M.honest m.new → (input rest : List ℕ) (k : Known) → (volume_of k).unforced ≡ 0 → Stands V.state V.holds v k (M.now m.old) → OnDisk M.Machine k (forced_of k) m.old → RunsOut M.Machine (Dump since most) input rest (M.report m.old) k m.old m.new result }
{
    match m.sync() {
        Ok(()) => dump_asked(alloc, v, m, since, most),
        Err(failed) => end_with(m, Fault::Device(failed.place)),
    }
}

/// Mounts a volume and says a dump of the versions whose serial is greater, or of as many of those that were made first as
/// so many bytes hold; or the damaged data sectors of these alone; or the refusal or the fault that has ended it. It gives
/// the status.
pub fn run_dump<M: Machine, V: Files<M> + Drop>(
    alloc: Global,
    m: &mut M,
    sectors: u32,
    since: Serial,
    most: Option<u32>,
) -> u8
    requires sectors { sectors ≡ (M.report m.old).sectors }
    ensures ends { EndsRun M.Machine IsDumpStatus m.old m.new result }
    ensures takes { TakesNothing M.Machine m.old m.new result }
    ensures image { M.honest m.new → TellsImage Parts StandTwice None sectors (M.now m.old) (M.now m.new) result }
    ensures leaves { M.honest m.new → (input rest : List ℕ) → LeavesOver M.Machine (Dump since most) input rest sectors m.old m.new result }
{
    match V::mount(alloc, m, sectors) {
        Ok(v) => dump_on::<M, V>(alloc, v, m, since, most),
        Err(fault) => end_with(m, fault_of(fault)),
    }
}
