//! What stands behind an open handle.

ghost use Rattle.std.specs.Prelude.{◌≡◌, ◌⊎◌, ◌↔◌, true, IfOk, OnOk, Some, None, IsErrOf};
ghost use Rattle.khe_c.specs.Calls.{IsOpenedOn, IsRefusedOn, IsTurnedBy, IsSpentAfter, too_large, totals_in};

use archive_reading::{Refusal, refusal_line};
use khe_base::{NoMemory, Totals, limits};
use khe_session::{Session, Unopened};
use std::alloc::Global;
use std::marker::Model;

/// What an open handle holds: a session, or none where it was refused; and the last answer.
pub struct Held {
    session: Option<Session>,
    answer: Vec<u8>,
}

// By hand: an exit of a caller then has one call to prove, and not a drop for each field.
impl Drop for Held {
    fn drop(self) {
        let Held {
            session: _session,
            answer: _answer,
        } = self;
    }
}

impl Model for Held {
    ghost use Rattle.khe_c.specs.Kept.{Kept};

    ghost Value = { Kept };

    ghost view = { λ h. record { session = h.session; answer = h.answer.items } };
}

/// Why there is no answer.
#[derive(Clone, Copy, PartialEq, Eq)]
pub(crate) enum Unanswered {
    /// The archive or the solution was refused.
    Refused,
    /// The session is spent: memory was refused to this line or to one before it.
    Spent,
}

impl Held {
    /// Opens a session on the solution with this number, or keeps the line that refuses it. It fails only where
    /// memory is refused. It takes the time of reading the archive and of evaluating the solution.
    pub(crate) fn open(alloc: Global, archive: &[u8], solution: u32) -> Result<Held, NoMemory>
        ensures { IfOk result (λ k. IsOpenedOn archive.now solution k ⊎ IsRefusedOn archive.now solution k) }
    {
        if archive.len() as u64 > limits::ARCHIVE_BYTES {
            return Held::too_large(alloc);
        }
        match khe_session::open(alloc, archive, solution) {
            Ok(session) => Ok(Held {
                session: Some(session),
                answer: Vec::new(alloc),
            }),
            Err(Unopened::Refused(line)) => Ok(Held {
                session: None,
                answer: line,
            }),
            Err(Unopened::NoMemory) => Err(NoMemory),
        }
    }

    /// Keeps the line that refuses an archive above the greatest size.
    fn too_large(alloc: Global) -> Result<Held, NoMemory>
        ensures { IfOk result (λ k. (k.session ≡ None) × (k.answer ≡ too_large)) }
    {
        let line = refusal_line(alloc, Refusal::TooLarge)?;
        let mut answer = Vec::new(alloc);
        answer.extend_from_slice(line.as_bytes())?;
        Ok(Held {
            session: None,
            answer,
        })
    }

    /// Whether there is no session, as the archive or the solution was refused.
    pub(crate) fn is_refused(&self) -> bool
        ensures { (result ≡ true) ↔ (self.now.session ≡ None) }
    {
        self.session.is_none()
    }

    /// Gives the session a line without a line feed, and keeps the answer in place of the last one. Where it is
    /// refused nothing changes; where memory is refused the session is spent, and there is no answer any more.
    pub(crate) fn line(&mut self, alloc: Global, line: &[u8]) -> Result<(), Unanswered>
        ensures turned { OnOk result (IsTurnedBy self.old.session line.now self.new.session self.new.answer) }
        ensures refused { IsErrOf result Unanswered.Refused → (self.old.session ≡ None) × (self.new ≡ self.old) }
        ensures spent { IsErrOf result Unanswered.Spent → IsSpentAfter self.old.session self.new }
    {
        let Some(session) = &mut self.session else {
            return Err(Unanswered::Refused);
        };
        match session.line(alloc, line, &mut self.answer) {
            Ok(()) => Ok(()),
            Err(_) => Err(Unanswered::Spent),
        }
    }

    /// Both totals of the timetable as it stands.
    pub(crate) fn totals(&mut self) -> Result<Totals, Unanswered>
        ensures told { IfOk result (λ t. Some t ≡ totals_in self.old.session) }
        ensures same { self.new ≡ self.old }
        ensures refused { IsErrOf result Unanswered.Refused → self.old.session ≡ None }
        ensures spent { IsErrOf result Unanswered.Spent → self.old.session ≡ Some None }
    {
        let Some(session) = &mut self.session else {
            return Err(Unanswered::Refused);
        };
        match session.totals() {
            Some(totals) => Ok(totals),
            None => Err(Unanswered::Spent),
        }
    }

    /// The last answer.
    pub(crate) fn answer(&self) -> &[u8]
        ensures { result.now ≡ self.now.answer }
    {
        self.answer.as_slice()
    }
}
