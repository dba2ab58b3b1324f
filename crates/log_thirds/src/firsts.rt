//! Which numbers the thirds of the log begin with.
ghost use Rattle.std.specs.Prelude.{◌≡◌, ◌<◌, ◌+◌, ◌*◌, ◌^◌};
ghost use Rattle.log_thirds.specs.Firsts.{firsts_of, firsts_with};

/// The numbers of the first records in the second third of the tape and in the last one;
/// where there is none yet, that of the next record.
#[derive(Clone, Copy)]
pub(crate) struct Firsts {
    pub second: u32,
    pub last: u32,
}

impl Firsts {
    /// Of an empty log, whose first record bears this number.
    pub(crate) fn of(number: u32) -> Firsts
        ensures { result ≡ firsts_of number }
    {
        Firsts {
            second: number,
            last: number,
        }
    }

    /// With a record more, which begins at a place on the tape.
    pub(crate) fn with(self, third: u32, at: u32) -> Firsts
        requires second { self.second + 1 < 2 ^ 32 }
        requires last { self.last + 1 < 2 ^ 32 }
        requires third { 2 * third < 2 ^ 32 }
        ensures { result ≡ firsts_with third at self }
    {
        Firsts {
            second: if at < third {
                self.second + 1
            } else {
                self.second
            },
            last: if at < 2 * third {
                self.last + 1
            } else {
                self.last
            },
        }
    }
}
