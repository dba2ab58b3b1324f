//! How many pages are marked.
ghost use Rattle.std.specs.Prelude.{◌≡◌, ◌^◌, ◌<◌, length, count_by};

// How many pages are marked.
pub(crate) fn marked_count(marks: &[bool]) -> u32
    requires { length marks.now < 2 ^ 32 }
    ensures { result ≡ count_by (λ mark. mark) marks.now }
{
    marks.iter().filter(|mark| **mark).count() as u32
}
