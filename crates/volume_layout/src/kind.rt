//! How much adjacent damage a volume bears.
ghost use Rattle.std.specs.Prelude.{◌≡◌, ◌≤◌};
ghost use Rattle.volume_layout.specs.Kinds.{layout_number, longest_of, more};

/// How many adjacent sectors may be damaged in one window without a loss: two, or three on a volume of layout 2.
#[derive(Clone, Copy, Debug, PartialEq)]
pub enum Kind {
    /// Layout 1.
    Two,
    /// Layout 2.
    Three,
}

impl Kind {
    /// How many more than two.
    pub fn more(self) -> u32
        ensures value { result ≡ more self }
        ensures most { result ≤ 1 }
    {
        match self {
            Kind::Two => 0,
            Kind::Three => 1,
        }
    }

    /// How many.
    pub fn longest(self) -> u32
        ensures value { result ≡ longest_of self }
        ensures least { 2 ≤ result }
        ensures most { result ≤ 3 }
    {
        2 + self.more()
    }

    /// The number of the layout, as the root has it.
    pub fn number(self) -> u32
        ensures { result ≡ layout_number self }
    {
        1 + self.more()
    }
}
