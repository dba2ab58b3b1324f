//! What is to happen to a machine in memory.
ghost use Rattle.std.specs.Prelude.{if◌then◌else◌, ◌≡◌, ◌+◌, ◌<◌, ◌≤◌, ◌==◌, nat_lt, true};
ghost use Rattle.std.specs.List.{list_any};
ghost use Rattle.memory_machine.specs.Events.{call_verdict_at, call_verdict_of, comes_by, is_nth_at, verdict_at, verdict_of, counts_at, hurt_by, piece_of, stood_by, is_going, is_stop};

/// When a sector is hurt.
#[derive(Clone, Copy)]
pub enum When {
    /// Just before this call, counted from 1: call 0 never comes.
    Call(u64),
    /// Just before each `settle`.
    Settle,
}

/// What is to happen to a machine in memory.
///
/// Everything is counted from 1, and from the start of the run: the first call is call 1, whichever of the nine it is,
/// and the first write at a sector is the first of all writes that begin there, whatever became of it. Calls that are
/// refused memory or come after a stop are not counted. Just before a call its hurts come, then the first event of the
/// list that says something of the call decides. An event whose number is 0 never comes.
#[derive(Clone, Copy)]
pub enum Event {
    /// This call of all fails. If it is a write, its first `stand` sectors stand, or all where it has no more. If it is
    /// an `extend` that puts no more than `stand` sectors behind the image, they are there, damaged and untold; one that
    /// puts more puts none, since they come together. Any other call does nothing: nothing is taken or said.
    FailCall { call: u64, stand: u32 },
    /// The machine stops in this call of all, which leaves what a `FailCall` of it leaves.
    StopCall { call: u64, stand: u32 },
    /// The nth write that begins at the sector `first` fails, with its first `stand` sectors standing.
    FailIn { first: u32, nth: u32, stand: u32 },
    /// The machine stops in the write that would put more than `after` sectors, those of all writes of the run
    /// together, with so many standing that there are `after`. Sectors of failed writes that stand are counted too.
    Stop { after: u64 },
    /// The machine stops in the nth write that begins at the sector `first`, with its first `stand` sectors standing.
    StopIn { first: u32, nth: u32, stand: u32 },
    /// The sector becomes damaged. A sector past the end of the image can't, but is judged like any other.
    HurtAt { sector: u32, when: When },
    /// Each `take` gives at most so many bytes, or one where this is 0. Of several the least counts.
    Pieces { most: usize },
}

/// What becomes of a call.
#[derive(Clone, Copy, PartialEq)]
pub enum Verdict {
    Goes,
    Fails(u64),
    Stops(u64),
}

/// A write as the events see it: the calls before it, the sectors written before it, where it begins, the writes
/// before it that began there, and its sectors.
#[derive(Clone, Copy)]
pub struct Write {
    pub calls: u64,
    pub written: u64,
    pub first: u32,
    pub begun: u64,
    pub count: u64,
}

// Whether the one of this number comes next after so many. Number 0 never comes.
fn is_next(number: u64, count: u64) -> bool
    ensures { result ≡ (number == count + 1) }
{
    number != 0 && number - 1 == count
}

impl Write {
    // Whether it is the nth of the writes that begin at this sector.
    fn is_nth_at(&self, first: u32, nth: u32) -> bool
        ensures { result ≡ is_nth_at first nth self.now }
    {
        first == self.first && is_next(u64::from(nth), self.begun)
    }

    // Whether it would put more than so many sectors, those of the writes before it counted.
    fn goes_past(&self, after: u64) -> bool
        ensures { result ≡ nat_lt after (self.now.written + self.now.count) }
    {
        after < self.written || after - self.written < self.count
    }
}

impl Verdict {
    pub(crate) fn goes(&self) -> bool
        ensures { result ≡ is_going self.now }
    {
        matches!(self, Verdict::Goes)
    }

    pub(crate) fn stops(&self) -> bool
        ensures { result ≡ is_stop self.now }
    {
        matches!(self, Verdict::Stops(_))
    }

    // How many of so many new sectors of an extend come.
    pub(crate) fn coming(&self, more: usize) -> usize
        ensures exact { result ≡ (if comes_by self.now more then more else 0) }
        ensures some { result ≤ more }
    {
        match self {
            Verdict::Fails(stand) | Verdict::Stops(stand) if more as u64 > *stand => 0,
            _ => more,
        }
    }
}

impl Event {
    // What it says of the call that comes after so many, whichever it is.
    fn call_verdict(&self, calls: u64) -> Verdict
        ensures { result ≡ call_verdict_at self.now calls }
    {
        match self {
            Event::FailCall { call, stand } if is_next(*call, calls) => {
                Verdict::Fails(u64::from(*stand))
            }
            Event::StopCall { call, stand } if is_next(*call, calls) => {
                Verdict::Stops(u64::from(*stand))
            }
            _ => Verdict::Goes,
        }
    }

    pub(crate) fn verdict(&self, write: Write) -> Verdict
        ensures { result ≡ verdict_at self.now write }
    {
        match self {
            Event::FailIn { first, nth, stand } if write.is_nth_at(*first, *nth) => {
                Verdict::Fails(u64::from(*stand))
            }
            Event::Stop { after } if write.goes_past(*after) => {
                Verdict::Stops(after.saturating_sub(write.written))
            }
            Event::StopIn { first, nth, stand } if write.is_nth_at(*first, *nth) => {
                Verdict::Stops(u64::from(*stand))
            }
            _ => self.call_verdict(write.calls),
        }
    }

    // Whether it counts the writes that begin at this sector.
    pub(crate) fn counts_at(&self, sector: u32) -> bool
        ensures { result ≡ counts_at sector self.now }
    {
        match self {
            Event::FailIn {
                first,
                nth: _,
                stand: _,
            }
            | Event::StopIn {
                first,
                nth: _,
                stand: _,
            } => *first == sector,
            _ => false,
        }
    }

    // Whether it hurts a sector just before a call that comes after so many.
    pub(crate) fn hurts(&self, calls: u64, settle: bool) -> Option<u32>
        ensures { result ≡ hurt_by self.now calls settle }
    {
        match self {
            Event::HurtAt { sector, when } => {
                let due = match when {
                    When::Call(call) => is_next(*call, calls),
                    When::Settle => settle,
                };
                if due { Some(*sector) } else { None }
            }
            _ => None,
        }
    }
}

// The first event that says something of a write decides.
pub(crate) fn verdict_of(events: &[Event], write: Write) -> Verdict
    ensures { result ≡ verdict_of events.now write }
{
    for event in events {
        let verdict = event.verdict(write);
        if verdict != Verdict::Goes {
            return verdict;
        }
    }
    Verdict::Goes
}

// How many sectors of a write stand.
pub(crate) fn stood_of(verdict: Verdict, count: usize) -> usize
    ensures exact { result ≡ stood_by verdict count }
    ensures some { result ≤ count }
    ensures all { is_going verdict ≡ true → result ≡ count }
{
    match verdict {
        Verdict::Goes => count,
        Verdict::Fails(stand) | Verdict::Stops(stand) => count.min(stand as usize),
    }
}

// So it is of a call that isn't a write, which comes after so many.
pub(crate) fn call_verdict_of(events: &[Event], calls: u64) -> Verdict
    ensures { result ≡ call_verdict_of events.now calls }
{
    for event in events {
        let verdict = event.call_verdict(calls);
        if verdict != Verdict::Goes {
            return verdict;
        }
    }
    Verdict::Goes
}

// Some event counts the writes that begin at this sector.
pub(crate) fn counts_at(events: &[Event], sector: u32) -> bool
    ensures { result ≡ list_any (counts_at sector) events.now }
{
    events.iter().any(|event| event.counts_at(sector))
}

// At most so many bytes are taken at once, where there is room for so many.
pub(crate) fn piece_of(events: &[Event], room: usize) -> usize
    requires { 0 < room }
    ensures piece { result ≡ piece_of room events.now }
    ensures some { 0 < result }
    ensures room { result ≤ room }
{
    let mut most = room;
    for event in events {
        if let Event::Pieces { most: piece } = event {
            most = most.min((*piece).max(1));
        }
    }
    most
}
