//! Monitors that are known to be stuck, as spans of their numbers.

ghost use Rattle.std.specs.Prelude.{◌<◌, IfSome, length};
ghost use Rattle.khe_instance.specs.declared.parts.Parts.{Parts};
ghost use Rattle.repair_moves.specs.Stuck.{IsStuck};
ghost use Rattle.ejection_repair.specs.Stuck.{AreStuckFrom, AreStuckSpans, IsStuckSpan};

use khe_base::MonitorId;
use khe_instance::Instance;
use repair_moves::is_stuck;

/// How many spans are kept.
const SPANS: usize = 64;

/// The numbers from `start` to the one before `end`.
#[derive(Clone, Copy)]
pub(crate) struct Span {
    pub(crate) start: u32,
    pub(crate) end: u32,
}

/// The longest spans of stuck monitors that were come to. They take no memory but their own, and what they say stays
/// true whatever is edited.
#[derive(Clone, Copy)]
pub(crate) struct Spans {
    pub(crate) spans: [Span; SPANS],
}

/// How many numbers a span has.
fn length_of(span: Span) -> u32 {
    span.end.saturating_sub(span.start)
}

impl Spans {
    /// No spans.
    pub(crate) fn new() -> Spans
        ensures { (p : Parts) → AreStuckSpans p result }
    {
        Spans {
            spans: [Span { start: 0, end: 0 }; SPANS],
        }
    }

    /// The end of a kept span that has this number.
    fn end_of(&self, number: u32) -> Option<u32>
        ensures onward { IfSome result (λ end. number < end) }
        ensures stuck { (p : Parts) → AreStuckSpans p self.now → IfSome result (AreStuckFrom p number) }
    {
        for span in &self.spans {
            if span.start <= number && number < span.end {
                return Some(span.end);
            }
        }
        None
    }

    /// Keeps a span in the place of the shortest one, if that is shorter.
    fn keep(&mut self, span: Span)
        ensures { (p : Parts) → AreStuckSpans p self.old → IsStuckSpan p span → AreStuckSpans p self.new }
    {
        let mut place = 0;
        for other in 1..SPANS {
            if length_of(self.spans[other]) < length_of(self.spans[place]) {
                place = other;
            }
        }
        if length_of(self.spans[place]) < length_of(span) {
            self.spans[place] = span;
        }
    }

    /// A number up to which all monitors from a stuck one on are stuck, too. It takes constant time where the monitor
    /// is in a span that is kept, and else time in proportion to how far the number is.
    pub(crate) fn end_from(&mut self, inst: &Instance, monitor: MonitorId) -> u32
        requires known { monitor.0 < length inst.now.monitors }
        requires stuck { IsStuck inst.now monitor.0 }
        requires spans { AreStuckSpans inst.now self.old }
        ensures onward { monitor.0 < result }
        ensures stuck { AreStuckFrom inst.now monitor.0 result }
        ensures spans { AreStuckSpans inst.now self.new }
    {
        inst.facts();
        if let Some(end) = self.end_of(monitor.0) {
            return end;
        }
        let mut end = monitor.0 + 1;
        while end < inst.monitors() && is_stuck(inst, MonitorId(end)) {
            end += 1;
        }
        self.keep(Span {
            start: monitor.0,
            end,
        });
        end
    }
}
