//! Laws of the log: the functions do nothing, the contract of each is a law.
ghost use Rattle.std.specs.Prelude.{◌≡◌, ◌+◌, ◌<◌, ◌≤◌, ◌^◌, ℕ, List, [], Some, None, length, slice_index_or, IfSome};
ghost use Rattle.sector_disk.specs.Machine.{Moment};
ghost use Rattle.log_thirds.specs.Append.{IsCalmNow, IsApartNow, IsIndexed, IsLogIn};
ghost use Rattle.log_thirds.specs.Disk.{reads};
ghost use Rattle.log_thirds.specs.Images.{GivesSlot};
ghost use Rattle.fsd_log.specs.declared.slot.Slot.{Slot};
ghost use Rattle.fsd_log.specs.Images.{last_image};
ghost use Rattle.log_thirds.specs.LogValue.{LogValue};
ghost use Rattle.volume_layout.specs.Shape.{Shape};
ghost use Rattle.volume_layout.specs.Layout.{with_kind};
ghost use Rattle.volume_layout.specs.declared.kind.Kind.{Kind};
ghost use Rattle.fsd_log.specs.Judged.{Reader};
ghost use Rattle.fsd_log.specs.Borne.{Foreign};
ghost use Rattle.fsd_log.specs.Scan.{Head, Placed, IsLog, start, tape};
ghost use Rattle.fsd_log.specs.Moves.{IsNextThird, MovesOn};

/// By an anchor that names the third behind the first one, the log is what lay behind the first third,
/// and goes on where it did.
pub fn logs_move_on()
    ensures { (l : Shape) (epoch first third next : ℕ) (disk : Reader) (records : List Placed) (h : Head) → epoch < 2 ^ 32 → 0 < l.third → IsNextThird third next →
        IsLog l epoch first (tape l third disk) records h → h.number < 2 ^ 32 → l.third < h.at → MovesOn l epoch first (tape l next disk) records h }
{}

/// An epoch of which nothing bears anything has an empty log.
pub fn new_epochs_are_empty()
    ensures { (l : Shape) (epoch third : ℕ) (disk : Reader) → epoch < 2 ^ 32 →
        ((at number : ℕ) → Foreign (record { epoch = epoch; number = number }) (tape l third disk at)) → IsLog l epoch 1 (tape l third disk) [] (start l 1) }
{}

/// An empty log is empty in the form of either kind: nothing on the disk bears a stamp that its records may have.
pub fn empty_logs_have_either_form()
    ensures { (l : Shape) (kind : Kind) (epoch third : ℕ) (disk : Reader) (h : Head) → epoch < 2 ^ 32 → IsLog l epoch 1 (tape l third disk) [] h →
        IsLog (with_kind kind l) epoch 1 (tape l third disk) [] (start l 1) }
{}

/// Runs of no sector damage nothing, and runs of at most two sectors and a gap have no two that lie so far apart.
pub fn short_runs()
    ensures calm { (at : Moment) → IfSome at.windows.present (λ run. run.count ≡ 0) → IfSome at.windows.next (λ run. run.count ≡ 0) → IsCalmNow at }
    ensures narrow { (gap : ℕ) (at : Moment) → IfSome at.windows.present (λ run. run.count ≤ 2 + gap) → IfSome at.windows.next (λ run. run.count ≤ 2 + gap) → IsApartNow gap at }
{}

/// Where a page has a slot, its last image stands in the sector that the slot names, or else in the copy; where it has
/// none, no record of the log has the page.
pub fn last_images_stand_in_slots()
    ensures some { (log : LogValue) (records : List Placed) (at : Moment) (page : ℕ) (slot : Slot) → log.anchor.third ≤ 2 → IsIndexed log records → page < length log.slots →
        IsLogIn log records at → slice_index_or log.slots page None ≡ Some slot → GivesSlot page log.anchor.epoch (reads at.image) slot (last_image page records) }
    ensures none { (log : LogValue) (records : List Placed) (page : ℕ) → IsIndexed log records → page < length log.slots → slice_index_or log.slots page None ≡ None → last_image page records ≡ None }
{}
