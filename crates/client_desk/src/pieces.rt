//! The bytes of a creation, as they come.
ghost use Rattle.std.specs.Prelude.{◌≡◌, ◌⊎◌, ◌+◌, ◌≤◌, ◌%◌, ℕ, List, take, drop, ◌++◌, length, IfOk, IfErr};
ghost use Rattle.std.specs.Result.{result_unwrap_or};
ghost use Rattle.sector_disk.specs.Calls.{WritesDisk, device_in};
ghost use Rattle.run_table.specs.declared.run.Run.{Run};
ghost use Rattle.fsd_bytes.specs.declared.key.Serial.{Serial};
ghost use Rattle.volume_contract.specs.Ends.{device_of};
ghost use Rattle.volume_contract.specs.Order.{Comes, Follows, slices_steps};
ghost use Rattle.volume_contract.specs.Pieces.{IsDraft};
ghost use Rattle.volume_contract.specs.State.{Known, Stands, WritesWithin};
ghost use Rattle.client_desk.specs.declared.client.Client.TheVariants.{Writing};
ghost use Rattle.client_desk.specs.Clients.{FillsSlice, GrowsBy, draft_sectors, is_due, piece_len, whole_part};
ghost use Rattle.client_desk.specs.Ends.{EndsAdd, IsWritingDraft, LeavesFor};

use crate::client::Creation;
use fsd_bytes::Refusal;
use sector_disk::Machine;
use volume_contract::Files;

/// The bytes of a slice.
const SLICE: usize = 512;

// Puts bytes into a slice, from a place on.
fn put_at(slice: &mut [u8; 512], at: usize, bytes: &[u8])
    requires { at + length bytes.now ≤ 512 }
    ensures front { take (at + length bytes.now) slice.new ≡ take at slice.old ++ bytes.now }
    ensures rest { drop (at + length bytes.now) slice.new ≡ drop (at + length bytes.now) slice.old }
    ensures size { length slice.new ≡ 512 }
{
    slice[at..at + bytes.len()].copy_from_slice(bytes);
}

// Whether so many bytes in a slice are written.
fn is_due(length: u32, filled: usize, got: u32) -> bool
    ensures { result ≡ is_due length filled got }
{
    filled == SLICE || got == length
}

// How many of so many bytes fill slices, or all of them.
fn whole_part(count: usize, all: bool) -> usize
    ensures { result ≡ whole_part count all }
{
    if all { count } else { count / SLICE * SLICE }
}

// Puts bytes behind those that fill no slice, up to a whole slice or the end, and then writes it. It answers how many.
fn fill<M: Machine, V: Files<M>>(
    w: &mut Creation,
    v: &mut V,
    m: &mut M,
    bytes: &[u8],
) -> Result<usize, Refusal>
    requires room { (V.state v.old).layout.sectors ≤ (M.report m.old).sectors }
    requires draft { IsDraft (V.state v.old) w.old.draft }
    requires fits { w.old.got + length bytes.now ≤ w.old.draft.length }
    ensures order { IfErr result (λ why. Comes (slices_steps (V.state v.old) (draft_sectors w.old)) why) }
    ensures disk { WritesDisk M.Machine (device_in device_of result) (LeavesFor V.state V.holds v.old (Writing w.old) (draft_sectors w.old)) m.old m.new }
    ensures writes { WritesWithin M.Machine (draft_sectors w.old) (piece_len (Writing w.old) (result_unwrap_or result (length bytes.now))) m.old m.new result }
    ensures state { V.state v.new ≡ V.state v.old }
    ensures fills { IfOk result (FillsSlice (length bytes.now) w.old w.new) }
    ensures draft { w.new.draft ≡ w.old.draft }
    ensures done { M.honest m.new → (k : Known) → Stands V.state V.holds v.old k (M.now m.old) →
        (name : List ℕ) (len : ℕ) (runs : List Run) (serial : Serial) (before : List ℕ) → IsWritingDraft k.opened w.old name len runs serial before →
        EndsAdd V.state V.holds (λ n. take n bytes.now) k w.new name len runs serial before v.new (M.now m.new) result }
{
    let at = (w.got % 512) as usize;
    if at == 0 {
        return Ok(0);
    }
    if w.got == w.draft.length {
        return Ok(0);
    }
    let count = bytes.len().min(SLICE - at);
    put_at(&mut w.slice, at, &bytes[..count]);
    let first = w.got / 512;
    let got = w.got + count as u32;
    if !is_due(w.draft.length, at + count, got) {
        w.got = got;
        return Ok(count);
    }
    match v.write_slices(m, &w.draft, first, &w.slice[..at + count]) {
        Ok(()) => {
            w.got = got;
            Ok(count)
        }
        Err(why) => Err(why),
    }
}

// Writes the whole slices of bytes, or all of them where they are the last, and keeps those that fill no slice.
fn lay<M: Machine, V: Files<M>>(
    w: &mut Creation,
    v: &mut V,
    m: &mut M,
    bytes: &[u8],
) -> Result<(), Refusal>
    requires room { (V.state v.old).layout.sectors ≤ (M.report m.old).sectors }
    requires draft { IsDraft (V.state v.old) w.old.draft }
    requires fits { w.old.got + length bytes.now ≤ w.old.draft.length }
    requires seam { (w.old.got % 512 ≡ 0) ⊎ (length bytes.now ≡ 0) }
    ensures order { Follows (slices_steps (V.state v.old) (draft_sectors w.old)) result }
    ensures disk { WritesDisk M.Machine (device_in device_of result) (LeavesFor V.state V.holds v.old (Writing w.old) (draft_sectors w.old)) m.old m.new }
    ensures writes { WritesWithin M.Machine (draft_sectors w.old) (piece_len (Writing w.old) (length bytes.now)) m.old m.new result }
    ensures state { V.state v.new ≡ V.state v.old }
    ensures grows { IfOk result (λ x. GrowsBy (length bytes.now) w.old w.new) }
    ensures draft { w.new.draft ≡ w.old.draft }
    ensures done { M.honest m.new → (k : Known) → Stands V.state V.holds v.old k (M.now m.old) →
        (name : List ℕ) (len : ℕ) (runs : List Run) (serial : Serial) (before : List ℕ) → IsWritingDraft k.opened w.old name len runs serial before →
        EndsAdd V.state V.holds (λ x. bytes.now) k w.new name len runs serial before v.new (M.now m.new) result }
{
    let got = w.got + bytes.len() as u32;
    let count = whole_part(bytes.len(), got == w.draft.length);
    let first = w.got / 512;
    match v.write_slices(m, &w.draft, first, &bytes[..count]) {
        Ok(()) => {
            put_at(&mut w.slice, 0, &bytes[count..]);
            w.got = got;
            Ok(())
        }
        Err(why) => Err(why),
    }
}

/// Puts bytes behind those that came so far, and writes what fills slices or ends the version.
pub fn add<M: Machine, V: Files<M>>(
    w: &mut Creation,
    v: &mut V,
    m: &mut M,
    bytes: &[u8],
) -> Result<(), Refusal>
    requires room { (V.state v.old).layout.sectors ≤ (M.report m.old).sectors }
    requires draft { IsDraft (V.state v.old) w.old.draft }
    requires fits { w.old.got + length bytes.now ≤ w.old.draft.length }
    ensures order { Follows (slices_steps (V.state v.old) (draft_sectors w.old)) result }
    ensures disk { WritesDisk M.Machine (device_in device_of result) (LeavesFor V.state V.holds v.old (Writing w.old) (draft_sectors w.old)) m.old m.new }
    ensures writes { WritesWithin M.Machine (draft_sectors w.old) (piece_len (Writing w.old) (length bytes.now)) m.old m.new result }
    ensures state { V.state v.new ≡ V.state v.old }
    ensures grows { IfOk result (λ x. GrowsBy (length bytes.now) w.old w.new) }
    ensures draft { w.new.draft ≡ w.old.draft }
    ensures done { M.honest m.new → (k : Known) → Stands V.state V.holds v.old k (M.now m.old) →
        (name : List ℕ) (len : ℕ) (runs : List Run) (serial : Serial) (before : List ℕ) → IsWritingDraft k.opened w.old name len runs serial before →
        EndsAdd V.state V.holds (λ x. bytes.now) k w.new name len runs serial before v.new (M.now m.new) result }
{
    match fill(w, v, m, bytes) {
        Ok(count) => match lay(w, v, m, &bytes[count..]) {
            Ok(()) => Ok(()),
            Err(why) => Err(why),
        },
        Err(why) => Err(why),
    }
}
