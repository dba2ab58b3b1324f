//! The versions of a dump, made again one after another.
ghost use Rattle.std.specs.Prelude.{◌≡◌, ◌≤◌, None, Err, IsTrue, OnOk, All, length};
ghost use Rattle.fsd_bytes.specs.Keys.{is_key};
ghost use Rattle.fsd_texts.specs.declared.fault.Fault.TheVariants as Ends;
ghost use Rattle.fsd_runs.specs.Errands.{load_of, refusal_of};
ghost use Rattle.client_desk.specs.Clients.{IsDesk, no_desk};
ghost use Rattle.dump_text.specs.Items.{dumped};
ghost use Rattle.scrub.specs.Telling.{AreOfPage};
ghost use Rattle.volume_turns.specs.declared.turns.Halt.TheVariants.{Fault as Stopped};
ghost use Rattle.volume_turns.specs.Generate.{SaysNothing};
ghost use Rattle.volume_turns.specs.Loading.{LoadsAll, LoadsOne, loads_of};
ghost use Rattle.volume_turns.specs.Numbers.{MayWear, UsesNumbers};
ghost use Rattle.volume_turns.specs.Seats.{KeepsSeat};
ghost use Rattle.volume_turns.specs.Turns.{Speaks};

use crate::commands;
use crate::turns::Halt;
use dump_text::Item;
use fsd_bytes::Refusal;
use fsd_files::Reply;
use sector_disk::Machine;
use volume_contract::Files;

// The bytes of a version that the input has.
fn bytes_of<'a>(input: &'a [u8], item: &Item) -> &'a [u8]
    ensures { result.now ≡ (dumped input.now item.now).bytes }
{
    let rest = &input[item.start.min(input.len())..];
    &rest[..(item.length as usize).min(rest.len())]
}

// Why it was refused, if it was.
fn refusal_of(answer: Reply) -> Option<Refusal>
    ensures { result ≡ refusal_of answer }
{
    match answer {
        Reply::Refused(why) => Some(why),
        _ => None,
    }
}

// Makes one version again, or tells why it is refused.
fn load_one<M: Machine, V: Files<M>>(
    v: &mut V,
    m: &mut M,
    input: &[u8],
    item: &Item,
) -> Result<Option<Refusal>, Halt>
    requires room { (V.state v.old).layout.sectors ≤ (M.report m.old).sectors }
    requires up { (V.state v.old).down ≡ None }
    requires idle { IsDesk (V.state v.old) no_desk }
    requires key { IsTrue (is_key item.now.key) }
    ensures keeps { KeepsSeat (V.state v.old) (V.state v.new) no_desk result }
    ensures speaks { Speaks M.Machine 0 m.old m.new result }
    ensures says { SaysNothing M.Machine AreOfPage (V.state v.old).layout m.old m.new result }
    ensures numbers { UsesNumbers M.Machine 1 (V.state v.old) (V.state v.new) m.new result }
    ensures loads { LoadsOne V.state V.holds M.Machine (load_of (dumped input.now item.now)) v.old m.old v.new m.new result }
{
    match commands::load(v, m, &item.key, item.keep, bytes_of(input, item)) {
        Ok(answer) => Ok(refusal_of(answer)),
        Err(fault) => Err(Halt::Fault(fault)),
    }
}

// Makes the versions again, up to the first that is refused, and tells why that is.
pub(crate) fn load_all<M: Machine, V: Files<M>>(
    v: &mut V,
    m: &mut M,
    input: &[u8],
    items: &[Item],
) -> Result<Option<Refusal>, Halt>
    requires room { (V.state v.old).layout.sectors ≤ (M.report m.old).sectors }
    requires up { (V.state v.old).down ≡ None }
    requires idle { IsDesk (V.state v.old) no_desk }
    requires keys { All (λ x. IsTrue (is_key x.key)) items.now }
    ensures layout { (V.state v.new).layout ≡ (V.state v.old).layout }
    ensures up { OnOk result ((V.state v.new).down ≡ None) }
    ensures speaks { Speaks M.Machine 0 m.old m.new result }
    ensures says { SaysNothing M.Machine AreOfPage (V.state v.old).layout m.old m.new result }
    ensures used { result ≡ Err (Stopped Ends.WornOut) → M.honest m.new → MayWear (length items.now) (V.state v.old) }
    ensures loads { LoadsAll V.state V.holds M.Machine (loads_of input.now items.now) v.old m.old v.new m.new result }
{
    for place in 0..items.len() {
        match load_one(v, m, input, &items[place]) {
            Ok(None) => {}
            Ok(Some(why)) => return Ok(Some(why)),
            Err(end) => return Err(end),
        }
    }
    Ok(None)
}
