//! A session over all sixteen families.

ghost use Rattle.std.specs.Prelude.{◌≡◌, ◌≤◌, [], None, length, IfErr, IfOk, IfSome, IsErrOf, OnErr, OnOk};
ghost use Rattle.khe_base.specs.declared.limits.TheConstants.{ARCHIVE_BYTES};
ghost use Rattle.khe_session.specs.Openings.{HasOpened, IsBarredBy};
ghost use Rattle.khe_session.specs.States.{IsLined, IsSpent, cost_of, totals_of};

use crate::faults::{SessionFault, Unopened};
use crate::opening::open_on;
use crate::resting::SessionOn;
use khe_base::Totals;
use sixteen_families::Families;
use std::alloc::Global;
use std::marker::Model;

/// A solution of an archive in an engine of its own. It owns both. Contracts see its state: how the archive is written
/// with a timetable in place of the solution, the instance, the timetable with the marks, and how many lines were
/// answered; or `None` where it is spent, as memory was refused to a line.
pub struct Session {
    on: SessionOn<Families>,
}

// By hand: an exit of a caller then has one call to prove, and not a drop for each type that a session is made of.
impl Drop for Session {
    fn drop(self) {
        let Session { on: _on } = self;
    }
}

impl Model for Session {
    ghost use Rattle.std.specs.Prelude.{Option};
    ghost use Rattle.khe_session.specs.States.{SessionState};
    ghost use Rattle.std.specs.Coded.{codes};
    ghost use Rattle.xhstt_shape.specs.contracts.records.Archive as archive;

    ghost Value = { Option SessionState };

    // How the logic stores a value. It is written down because the check finds none for a value with an archive in it.
    ghost coded = { Prim.hlevel (codes, archive.the_row.coded) };

    ghost view = { λ s. s.on };
}

/// A session on the solution with this number, over all groups, of the archive that these bytes spell.
///
/// `Refused` has the line that `khe-talk` writes in place of answers: where the bytes are no archive, or it has no such
/// solution, or that one is invalid. The bytes are read in this call and not kept. It takes the time and the memory of
/// reading the archive, and those of opening an engine.
pub fn open(alloc: Global, bytes: &[u8], solution: u32) -> Result<Session, Unopened>
    requires { length bytes.now ≤ ARCHIVE_BYTES }
    ensures opened { IfOk result (HasOpened bytes.now solution) }
    ensures barred { IfErr result (IsBarredBy bytes.now solution) }
{
    match open_on::<Families>(alloc, bytes, solution) {
        Ok(on) => Ok(Session { on }),
        Err(unopened) => Err(unopened),
    }
}

impl Session {
    /// Carries out a line, without its line feed, and puts its answer in place of what a list had: that of
    /// `khe-talk` to the line, without the full stop that ends it. A line that is refused or has no reading is
    /// answered too.
    ///
    /// After `NoMemory` the session is spent, and with `Spent` it is as it was. After either the list is empty. It
    /// takes the time of the answer, and memory for it.
    pub fn line(
        &mut self,
        alloc: Global,
        line: &[u8],
        answer: &mut Vec<u8>,
    ) -> Result<(), SessionFault>
        ensures lined { OnOk result (IsLined line.now self.old self.new answer.new.items) }
        ensures starved { IsErrOf result SessionFault.NoMemory → self.new ≡ None }
        ensures spent { IsErrOf result SessionFault.Spent → IsSpent self.old × (self.new ≡ self.old) }
        ensures empty { OnErr result (answer.new.items ≡ []) }
    {
        self.on.line(alloc, line, answer)
    }

    /// The hard and the soft total of the timetable; `None` where the session is spent. It takes constant time and no
    /// memory.
    pub fn totals(&mut self) -> Option<Totals>
        ensures told { result ≡ totals_of self.old }
        ensures same { self.new ≡ self.old }
    {
        self.on.totals()
    }

    /// What the monitor with this number costs; `None` where there is none, or the session is spent. It takes constant
    /// time and no memory.
    pub fn cost(&mut self, monitor: u32) -> Option<u128>
        ensures told { result ≡ cost_of self.old monitor }
        ensures same { self.new ≡ self.old }
    {
        self.on.cost(monitor)
    }

    /// How many lines were answered, in constant time.
    pub fn lines(&self) -> u64
        ensures { IfSome self.now (λ s. result ≡ s.lines) }
    {
        self.on.lines()
    }
}
