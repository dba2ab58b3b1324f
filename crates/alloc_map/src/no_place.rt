/// Why so many sectors find no place.
#[derive(Clone, Copy, Debug, PartialEq)]
pub enum NoPlace {
    /// Fewer sectors are free.
    NoSpace { need: u32, free: u32 },
    /// Enough are free, but the eight longest runs of them have no more than `best`.
    TooFragmented { need: u32, best: u32 },
}
