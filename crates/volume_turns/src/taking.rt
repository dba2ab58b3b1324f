//! The input, taken to its end.
ghost use Rattle.std.specs.Prelude.{◌≡◌, ◌+◌, ◌<◌, ◌≤◌, [], length, IfErr, IfOk, Err, false};
ghost use Rattle.sector_disk.specs.Calls.{LeavesDisk};
ghost use Rattle.sector_disk.specs.Machine.{Wears};
ghost use Rattle.fsd_texts.specs.Script.{max_input};
ghost use Rattle.script_text.specs.Taking.{ComesIn};
ghost use Rattle.volume_turns.specs.declared.taking.InputFault.TheVariants.{TooLong as Long};
ghost use Rattle.volume_turns.specs.Syncs.{OnlyTakes};
ghost use Rattle.volume_turns.specs.Taking.{taking_failed};

use fsd_texts::Bytes;
use sector_disk::Machine;
use std::alloc::Global;

/// The most bytes of an input: 2^24.
const MOST_INPUT: usize = 1 << 24;

/// Why the input was not taken to its end.
#[derive(Clone, Copy)]
pub(crate) enum InputFault {
    /// A call of the input failed.
    Failed,
    /// There is a byte past the first 2^24.
    TooLong,
    /// Memory was refused.
    Memory,
}

// Takes a piece of the input behind the others, and answers how many bytes; none only at its end.
fn take_piece<M: Machine>(m: &mut M, bytes: &mut Bytes) -> Result<usize, InputFault>
    ensures calls { LeavesDisk M.Machine (taking_failed result) false Wears m.old m.new }
    ensures comes { IfOk result (λ count. M.tells m.new → ComesIn bytes.old bytes.new count (M.ledger m.old) (M.ledger m.new)) }
    ensures more { IfOk result (λ count. length bytes.new ≡ length bytes.old + count) }
    ensures takes { M.tells m.new → OnlyTakes (M.ledger m.old) (M.ledger m.new) }
    ensures some { IfErr result (λ fault. fault ≡ Long → ⊥) }
{
    let mut piece = [0u8; 4096];
    let Ok(count) = m.take(&mut piece) else {
        return Err(InputFault::Failed);
    };
    if bytes.append(&piece[..count]).is_err() {
        return Err(InputFault::Memory);
    }
    Ok(count)
}

/// All bytes of the input. A byte past the most is taken, if it is there.
pub(crate) fn read_input<M: Machine>(alloc: Global, m: &mut M) -> Result<Bytes, InputFault>
    ensures calls { LeavesDisk M.Machine (taking_failed result) false Wears m.old m.new }
    ensures whole { IfOk result (λ bytes. M.tells m.new → bytes ≡ (M.ledger m.old).input) }
    ensures end { IfOk result (λ bytes. M.tells m.new → (M.ledger m.new).input ≡ []) }
    ensures few { IfOk result (λ bytes. length bytes ≤ max_input) }
    ensures long { result ≡ Err Long → M.tells m.new → max_input < length (M.ledger m.old).input }
    ensures takes { M.tells m.new → OnlyTakes (M.ledger m.old) (M.ledger m.new) }
{
    let mut bytes = Bytes::new(alloc);
    for _ in 0..MOST_INPUT + 1 {
        let count = match take_piece(m, &mut bytes) {
            Ok(count) => count,
            Err(fault) => return Err(fault),
        };
        if count == 0 {
            return Ok(bytes);
        }
        if bytes.as_slice().len() > MOST_INPUT {
            return Err(InputFault::TooLong);
        }
    }
    Err(InputFault::TooLong)
}
