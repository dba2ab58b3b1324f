//! The last line of a run, such as that of the fault that ends it.
ghost use Rattle.std.specs.Prelude.{◌≡◌, ◌⊎◌, ◌≤◌, false, true, IfErr, OnOk};
ghost use Rattle.sector_disk.specs.Calls.{LeavesDisk};
ghost use Rattle.sector_disk.specs.Machine.{LeavesOnly, Utters};
ghost use Rattle.fsd_texts.specs.Text.{fault_text, text};
ghost use Rattle.fsd_runs.specs.Errands.{fault_status};
ghost use Rattle.volume_turns.specs.Line.{EndsLast, EndsWith, IsStatusAs, IsStatusFor, is_unsaid};
ghost use Rattle.volume_turns.specs.Turns.{SaysAll, SaysText, Unsaid, UttersBehind, WantsNone};
ghost use Rattle.volume_turns.specs.declared.turns.Halt.TheVariants.{Output};

use crate::turns::Halt;
use fsd_texts::{Fault, Line};
use script_text::lay_line;
use sector_disk::Machine;

// The status of a fault.
pub(crate) fn fault_status(fault: Fault) -> u8
    ensures status { result ≡ fault_status fault }
    ensures said { is_unsaid result ≡ false }
{
    match fault {
        Fault::NotVolume | Fault::Lost { .. } | Fault::NoAnchor | Fault::Unsound(_) => 3,
        Fault::Device(_) => 4,
        Fault::Input | Fault::InputTooLong => 5,
        Fault::Memory => 7,
        Fault::WornOut => 9,
    }
}

/// Says the line of a fault, which wants no memory, and gives its status; 6 where the output fails.
pub(crate) fn end_with<M: Machine>(m: &mut M, why: Fault) -> u8
    ensures says { LeavesDisk M.Machine false (is_unsaid result) (Utters (fault_text why)) m.old m.new }
    ensures ledger { M.tells m.new → M.ledger m.new ≡ M.ledger m.old }
    ensures status { IsStatusFor why result }
    ensures ends { M.honest m.new → EndsWith why (M.now m.old) (M.now m.new) result }
{
    last_line(m, &Line::Ended(why), fault_status(why))
}

/// Says a last line, which wants no memory, and gives its status; 6 where the output fails.
pub fn last_line<M: Machine>(m: &mut M, line: &Line, gives: u8) -> u8
    requires { is_unsaid gives ≡ false }
    ensures says { LeavesDisk M.Machine false (is_unsaid result) (Utters (text line.now)) m.old m.new }
    ensures ends { M.honest m.new → EndsLast line.now gives (M.now m.old) (M.now m.new) result }
    ensures ledger { M.tells m.new → M.ledger m.new ≡ M.ledger m.old }
    ensures status { IsStatusAs gives result }
{
    let said = lay_line(line);
    say_text(m, said.as_slice(), gives)
}

// Says a text and gives this status; 6 where the output fails.
fn say_text<M: Machine>(m: &mut M, text: &[u8], gives: u8) -> u8
    requires { is_unsaid gives ≡ false }
    ensures says { LeavesDisk M.Machine false (is_unsaid result) (Utters text.now) m.old m.new }
    ensures ends { M.honest m.new → (result ≡ 6) ⊎ ((result ≡ gives) × SaysAll text.now (M.now m.old) (M.now m.new)) }
    ensures ledger { M.tells m.new → M.ledger m.new ≡ M.ledger m.old }
    ensures status { (result ≡ gives) ⊎ (result ≡ 6) }
{
    match m.say(text) {
        Ok(()) => gives,
        Err(_) => 6,
    }
}

/// Says a text that tells something as forced: all that was written is brought to the disk first.
pub(crate) fn say_forced<M: Machine>(m: &mut M, text: &[u8]) -> Result<(), Halt>
    ensures says { SaysText M.Machine true m.old m.new result }
    ensures wants { IfErr result WantsNone }
    ensures moments { M.honest m.new → LeavesOnly M.moment M.left_since m.old m.new (UttersBehind true text.now (M.now m.old)) }
    ensures synced { OnOk result (M.honest m.new → (M.now m.old).time ≤ (M.now m.new).synced) }
    ensures said { OnOk result (M.honest m.new → SaysAll text.now (M.now m.old) (M.now m.new)) }
    ensures unsaid { IfErr result (λ end. M.honest m.new → Unsaid (M.now m.old) (M.now m.new) end) }
{
    match m.sync() {
        Ok(()) => say_bytes(m, text),
        Err(failed) => Err(Halt::Fault(Fault::Device(failed.place))),
    }
}

/// Says a text.
pub(crate) fn say_bytes<M: Machine>(m: &mut M, text: &[u8]) -> Result<(), Halt>
    ensures says { SaysText M.Machine false m.old m.new result }
    ensures output { IfErr result (λ end. end ≡ Output) }
    ensures moments { M.honest m.new → LeavesOnly M.moment M.left_since m.old m.new (Utters text.now (M.now m.old)) }
    ensures said { OnOk result (M.honest m.new → SaysAll text.now (M.now m.old) (M.now m.new)) }
{
    match m.say(text) {
        Ok(()) => Ok(()),
        Err(_) => Err(Halt::Output),
    }
}
