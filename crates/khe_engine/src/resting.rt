//! An engine that has let go of its instance, and wakes on it again.

ghost use Rattle.std.specs.Prelude.{◌≡◌};
ghost use Rattle.khe_engine.specs.Resting.{FitsIn, world_of};
ghost use Rattle.khe_engine.specs.Values.{ServesAll};

use crate::engine::Engine;
use crate::listeners::Listeners;
use khe_instance::Instance;
use khe_solution::RestingSolution;
use khe_told::{Back, Change, Family};
use std::marker::Model;
use undo_paths::Journal;

/// What an engine keeps while its instance is elsewhere: all but the instance. So a value can own both: it lets the
/// engine rest between two calls, and wakes it on its instance for each.
pub struct Resting<F: Family> {
    pub(crate) solution: RestingSolution,
    pub(crate) listeners: Listeners<F>,
    pub(crate) journal: Journal<Back>,
    pub(crate) list: Vec<Change>,
    pub(crate) defers: bool,
}

// By hand: an exit of a caller then has one call to prove, and not a drop for each field.
impl<F: Family + Drop> Drop for Resting<F> {
    fn drop(self) {
        let Resting {
            solution: _solution,
            listeners: _listeners,
            journal: _journal,
            list: _list,
            defers: _defers,
        } = self;
    }
}

impl<F: Family> Model for Resting<F> {
    ghost use Rattle.std.specs.Prelude.{vec_capacity};
    ghost use Rattle.khe_engine.specs.Resting.{Rested};

    ghost Value = { Rested F };

    ghost view = { λ r. record {
      timetable = r.solution;
      families = r.listeners.families;
      board = r.listeners.graph;
      waiting = r.listeners.waiting;
      journal = r.journal;
      room = vec_capacity r.list;
    } };
}

impl<F: Family> Resting<F> {
    /// The engine again, on an instance equal to the one that it was opened on. It takes constant time and no
    /// memory.
    pub fn wake<'i>(self, inst: &'i Instance) -> Engine<'i, F>
        requires serves { ServesAll F.serves_kind }
        requires fits { FitsIn F.IsOf F.told inst.now self }
        ensures { result ≡ world_of inst.now self }
    {
        let Resting {
            solution,
            listeners,
            journal,
            list,
            defers,
        } = self;
        Engine {
            inst,
            solution: solution.wake(inst),
            listeners,
            journal,
            list,
            defers,
        }
    }
}
