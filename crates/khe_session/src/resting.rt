//! A session over any families: an engine at rest beside its instance and its archive.

ghost use Rattle.std.specs.Prelude.{◌≡◌, [], None, IfSome, IsErrOf, OnErr, OnOk};
ghost use Rattle.khe_session.specs.States.{IsLined, IsSpent, cost_of, totals_of};

use crate::faults::SessionFault;
use crate::waking::{cost_on, line_on, totals_on};
use khe_base::Totals;
use khe_engine::Resting;
use khe_instance::Instance;
use khe_told::Family;
use script_run::Shortages;
use std::alloc::Global;
use std::marker::Model;
use xhstt_shape::Archive;

/// What a session keeps while it has memory: its archive, and its engine at rest.
#[derive(Drop)]
pub struct Kept<F: Family> {
    pub(crate) archive: Archive,
    pub(crate) rest: Resting<F>,
}

/// A session over some families. It owns its instance, and wakes its engine on it for each call.
pub struct SessionOn<F: Family> {
    pub(crate) instance: Instance,
    /// The number of the solution, over all groups.
    pub(crate) solution: u32,
    /// How many lines were answered.
    pub(crate) lines: u64,
    /// `None` once memory was refused to a line.
    pub(crate) kept: Option<Kept<F>>,
}

// By hand: an exit of a caller then has one call to prove, and not a drop for each field.
impl<F: Family + Drop> Drop for SessionOn<F> {
    fn drop(self) {
        let SessionOn {
            instance: _instance,
            solution: _solution,
            lines: _lines,
            kept: _kept,
        } = self;
    }
}

impl<F: Family> Model for SessionOn<F> {
    ghost use Rattle.std.specs.Prelude.{Option};
    ghost use Rattle.khe_engine.specs.Values.{ServesAll};
    ghost use Rattle.khe_session.specs.States.{IsAtRest, SessionState, state_in};
    ghost use Rattle.std.specs.Coded.{codes};
    ghost use Rattle.xhstt_shape.specs.contracts.records.Archive as archive;

    ghost Value = { Option SessionState };

    // How the logic stores a value. It is written down because the check finds none for a value with an archive in it.
    ghost coded = { Prim.hlevel (codes, archive.the_row.coded) };

    ghost view = { λ s. state_in s.instance s.solution s.lines s.kept };

    ghost invariant = { λ s. ServesAll F.serves_kind × IsAtRest F.IsOf F.told s.instance s.kept };
}

impl<F: Shortages + Drop> SessionOn<F> {
    /// Carries out a line, and puts its answer in place of what a list had.
    pub(crate) fn line(
        &mut self,
        alloc: Global,
        line: &[u8],
        answer: &mut Vec<u8>,
    ) -> Result<(), SessionFault>
        ensures lined { OnOk result (IsLined line.now self.old self.new answer.new.items) }
        ensures starved { IsErrOf result SessionFault.NoMemory → self.new ≡ None }
        ensures spent { IsErrOf result SessionFault.Spent → IsSpent self.old × (self.new ≡ self.old) }
        ensures empty { OnErr result (answer.new.items ≡ []) }
    {
        line_on(
            alloc,
            &self.instance,
            self.solution,
            &mut self.lines,
            &mut self.kept,
            line,
            answer,
        )
    }

    /// The totals of the timetable; `None` where the session is spent.
    pub(crate) fn totals(&mut self) -> Option<Totals>
        ensures told { result ≡ totals_of self.old }
        ensures same { self.new ≡ self.old }
    {
        totals_on(&self.instance, &mut self.kept)
    }

    /// What the monitor with a number costs; `None` where there is none, or the session is spent.
    pub(crate) fn cost(&mut self, monitor: u32) -> Option<u128>
        ensures told { result ≡ cost_of self.old monitor }
        ensures same { self.new ≡ self.old }
    {
        cost_on(&self.instance, &mut self.kept, monitor)
    }

    /// How many lines were answered.
    pub(crate) fn lines(&self) -> u64
        ensures { IfSome self.now (λ s. result ≡ s.lines) }
    {
        self.lines
    }
}
