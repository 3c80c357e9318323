//! When the meets of each event start and end.

ghost use Rattle.std.specs.Prelude.{◌≡◌, ◌<◌, ◌-◌, ◌==◌, fold, min, if◌then◌else◌, Some, None, length, replicate, slice_set, IfOk};
ghost use Rattle.set_monitors.specs.MeetEdges.{end_key, start_key, IsShort};
ghost use Rattle.set_monitors.specs.declared.least_trees.TheConstants.{NOTHING};

use crate::least_trees::{Least, NOTHING};
use khe_base::{NoMemory, both};
use khe_told::Span;
use std::alloc::Global;

/// When the meets of an event start and end, by the event's meet slots.
#[derive(Drop)]
pub(crate) struct Edges {
    /// The start of each slot's meet.
    pub(crate) starts: Least,
    /// How far before `NOTHING` each slot's meet ends, so that the least is of the last end.
    pub(crate) ends: Least,
}

impl Edges {
    /// The edges of an event with the given number of slots, while there are no meets.
    pub(crate) fn open(alloc: Global, slots: u32) -> Result<Edges, NoMemory>
        ensures starts { IfOk result (λ a. a.starts ≡ replicate slots NOTHING) }
        ensures ends { IfOk result (λ a. a.ends ≡ replicate slots NOTHING) }
    {
        let starts = Least::open(alloc, slots);
        let ends = Least::open(alloc, slots);
        let (starts, ends) = both(starts, ends)?;
        Ok(Edges { starts, ends })
    }

    /// Gives a slot this meet, in time in proportion to the logarithm of the slots.
    pub(crate) fn set(&mut self, place: usize, span: Option<Span>)
        requires start { place < length self.old.starts }
        requires end { place < length self.old.ends }
        requires short { IsShort span }
        ensures starts { self.new.starts ≡ slice_set self.old.starts place (start_key span) }
        ensures ends { self.new.ends ≡ slice_set self.old.ends place (end_key span) }
    {
        self.starts.set(place, start_of(span));
        self.ends.set(place, end_of(span));
    }

    /// The first start, or `None` where no meet has a start. It takes constant time.
    pub(crate) fn first_start(&self) -> Option<u32>
        ensures { result ≡ (if fold min NOTHING self.now.starts == NOTHING then None else Some (fold min NOTHING self.now.starts)) }
    {
        let least = self.starts.least();
        if least == NOTHING { None } else { Some(least) }
    }

    /// The number after the last time of the meets, or `None` where no meet has a start. It takes
    /// constant time.
    pub(crate) fn last_end(&self) -> Option<u32>
        ensures { result ≡ (if fold min NOTHING self.now.ends == NOTHING then None else Some (NOTHING - fold min NOTHING self.now.ends)) }
    {
        let least = self.ends.least();
        if least == NOTHING {
            None
        } else {
            Some(NOTHING - least)
        }
    }
}

/// What is kept of a meet's start.
fn start_of(span: Option<Span>) -> u32
    ensures { result ≡ start_key span }
{
    match span {
        Some(
            Span {
                start: Some(start),
                ..
            },
        ) => start.0,
        _ => NOTHING,
    }
}

/// What is kept of a meet's end.
fn end_of(span: Option<Span>) -> u32
    requires { IsShort span }
    ensures { result ≡ end_key span }
{
    match span {
        Some(
            Span {
                start: Some(start),
                duration,
            },
        ) => NOTHING - (start.0 + duration),
        _ => NOTHING,
    }
}
