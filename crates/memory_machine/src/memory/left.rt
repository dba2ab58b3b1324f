//! What a stop has left that lost calls.
ghost use Rattle.std.specs.Prelude.{◌≡◌, ◌≤◌, ℕ, drop, reverse};
ghost use Rattle.sector_disk.specs.Machine.{StopSince};
ghost use Rattle.memory_machine.specs.Memory.{memory_calls, memory_left, memory_line, memory_honest, IsMade};
ghost use Rattle.memory_machine.specs.Left.{left_by, undo_all};

use super::MemoryMachine;
use crate::Event;
use crate::past::Step;
use sector_disk::Sector;

impl MemoryMachine {
    /// Another run over what a stop has left that lost the last `held` calls, or those since the last sync where these
    /// are fewer: the image is that of the moment before them, the windows and the weak runs are as they are.
    pub fn left_behind(mut self, held: usize, events: Vec<Event>, input: Vec<u8>) -> Self
        ensures made { IsMade (left_by held self).image (left_by held self).windows (memory_line self) events.items input.items result }
        ensures stop { (t : ℕ) → t ≤ memory_calls self → StopSince (memory_left self) t (left_by held self) }
        ensures honest { memory_honest result ≡ memory_honest self }
    {
        let calls = self.past.len();
        let time = self.synced.min(calls).max(calls.saturating_sub(held));
        take_back(&mut self.image, &mut self.past, time);
        self.again(events, input)
    }
}

// Makes of the image the one before the steps after so many.
fn take_back(image: &mut Vec<Sector>, past: &mut Vec<Step>, time: usize)
    ensures { image.new.items ≡ undo_all (reverse (drop time past.old.items)) image.old.items }
{
    while past.len() > time {
        if let Some(step) = past.pop() {
            step.put_back(image);
        }
    }
}
