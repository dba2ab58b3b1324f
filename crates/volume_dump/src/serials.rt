//! Serials in the order in which they were drawn.
ghost use Rattle.std.specs.Prelude.{◌≡◌};
ghost use Rattle.fsd_runs.specs.Dumps.{is_before, is_in_span, later_of, serial_lt};

use fsd_bytes::Serial;
use fsd_runs::Span;

/// Whether a serial comes before another.
pub(crate) fn serial_lt(a: Serial, b: Serial) -> bool
    ensures { result ≡ serial_lt a b }
{
    a.epoch < b.epoch || (a.epoch == b.epoch && a.count < b.count)
}

pub(crate) fn later_of(a: Serial, b: Serial) -> Serial
    ensures { result ≡ later_of a b }
{
    if serial_lt(a, b) { b } else { a }
}

/// Whether it comes before the end of a span, where that has one.
pub(crate) fn is_before(end: Option<Serial>, s: Serial) -> bool
    ensures { result ≡ is_before end s }
{
    match end {
        Some(end) => serial_lt(s, end),
        None => true,
    }
}

pub(crate) fn is_in_span(span: Span, s: Serial) -> bool
    ensures { result ≡ is_in_span span s }
{
    serial_lt(span.since, s) && is_before(span.before, s)
}
