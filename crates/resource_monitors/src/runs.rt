//! The times of a meet.

ghost use Rattle.std.specs.Prelude.{◌≡◌, ◌<◌, ◌+◌, ◌^◌, Some};
ghost use Rattle.khe_base.specs.declared.numbers.TimeId.{TimeId};
ghost use Rattle.khe_told.specs.declared.slots.Span.{Span};
ghost use Rattle.resource_monitors.specs.Cells.{limit_for};
ghost use Rattle.resource_monitors.specs.Runs.{run_of};

use khe_told::Span;

/// Times from a start on and below an end, at which cells are emptied or filled.
#[derive(Clone, Copy, PartialEq)]
pub struct Run {
    pub start: u32,
    pub end: u32,
}

/// The times of a meet, where it has a start.
pub(crate) fn run_of(span: Option<Span>) -> Option<Run>
    requires { (y : Span) (t : TimeId) → span ≡ Some y → y.start ≡ Some t → t.0 + y.duration < 2 ^ 32 }
    ensures { result ≡ run_of span }
{
    let span = span?;
    let start = span.start?;
    Some(Run {
        start: start.0,
        end: start.0 + span.duration,
    })
}

/// A count above this was and is above 0, when it rises for one place or falls.
pub(crate) fn limit_for(rises: bool) -> u32
    ensures { result ≡ limit_for rises }
{
    if rises { 1 } else { 0 }
}
