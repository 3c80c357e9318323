//! The batches of solutions that workers share.

ghost use Rattle.std.specs.Prelude.{◌+◌, ◌≤◌, IfSome};

use std::sync::atomic::{AtomicUsize, Ordering};

/// The solutions that workers share: those from a first one up to an end, in batches of one length, but that the
/// last one may be shorter.
#[derive(Clone, Copy)]
pub(crate) struct Span {
    pub(crate) first: usize,
    /// Those before this one are made in any case.
    pub(crate) sure: usize,
    pub(crate) end: usize,
    pub(crate) batch: usize,
    /// Once what was made has this size together, no more is drawn.
    pub(crate) most: usize,
    ghost ordered: { (first ≤ sure) × (sure ≤ end) },
    ghost some: { 1 ≤ batch },
}

impl Span {
    /// How many of the workers are needed: not many more than there are batches.
    pub(crate) fn needed(self, workers: u32) -> u32 {
        let others = (self.end - self.first) / self.batch;
        others.min(workers as usize) as u32
    }

    /// The batch at a place, counted from 0: its first solution, and how many it has.
    fn batch_at(self, place: usize) -> Option<(usize, usize)>
        ensures { IfSome result (λ batch. batch.0 + batch.1 ≤ self.end) }
    {
        let skipped = place.saturating_mul(self.batch);
        if skipped >= self.end - self.first {
            return None;
        }
        let first = self.first + skipped;
        Some((first, self.batch.min(self.end - first)))
    }
}

/// How far the workers have come: what they share and change. No clause needs to know it.
#[derive(Drop)]
pub(crate) struct Progress {
    /// How many batches were drawn.
    drawn: AtomicUsize,
    /// The size of what was made.
    size: AtomicUsize,
}

impl Progress {
    /// Nothing is drawn or made.
    pub(crate) fn new() -> Progress {
        Progress {
            drawn: AtomicUsize::new(0),
            size: AtomicUsize::new(0),
        }
    }

    /// The next batch: nobody else draws it. There is none once all are drawn, or what was made is large enough.
    pub(crate) fn draw(&self, span: Span) -> Option<(usize, usize)>
        ensures { IfSome result (λ batch. batch.0 + batch.1 ≤ span.end) }
    {
        if self.size.load(Ordering::Relaxed) >= span.most {
            return None;
        }
        span.batch_at(self.drawn.fetch_add(1, Ordering::Relaxed))
    }

    /// Something of this size was made.
    pub(crate) fn add(&self, size: usize) {
        self.size.fetch_add(size, Ordering::Relaxed);
    }
}
