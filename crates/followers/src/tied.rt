//! A timetable with ties.

ghost use Rattle.std.specs.Prelude.{◌≡◌, ◌↔◌, ◌≤◌, ◌<◌, ◌+◌, ◌^◌, ◌⊎◌, ◌∷◌, [], Err, None, List, drop, length, replicate, IfErr, IfOk, IfSome, OnErr, OnOk};
ghost use Rattle.khe_base.specs.declared.limits.TheConstants.{MARKS};
ghost use Rattle.khe_told.specs.declared.refusals.Refusal.TheVariants.{NoMark, MarksFull};
ghost use Rattle.followers.specs.Rows.{IsNextTie};
ghost use Rattle.followers.specs.Ties.{IsTied, TiedState, tie_at};
ghost use Rattle.khe_instance.specs.States.{IsValid};
ghost use Rattle.khe_engine.specs.Openings.{IsStateOf};
ghost use Rattle.khe_engine.specs.Values.{ServesAll};
ghost use Rattle.followers.specs.Tables.{edited, made, refusal};
ghost use Rattle.followers.specs.Worlds.{IsFaultOf, from_mark, last_saved};

use crate::editing::edit_any;
use crate::records::Before;
use crate::table::Ties;
use crate::undoing::{close, open_mark, unwind, unwind_to};
use crate::{Tie, TiedEdit, TiedFault};
use khe_base::{MeetId, NoMemory, both};
use khe_engine::Engine;
use khe_instance::{Instance, Plain};
use khe_told::{Family, Refusal, Steps};
use std::alloc::Global;
use std::marker::Model;
use std::sync::ledger::Ledger;
use undo_paths::Journal;

/// A timetable that is edited, whose meets may be tied to others. Contracts see its world: the state with
/// its ties, and the whole states with theirs that were saved at the open marks.
///
/// No call but `open` and `edit` takes memory.
pub struct Tied<'i, F: Family> {
    engine: Engine<'i, F>,
    ties: Ties,
    /// A record for each Tie and Untie since the outermost mark.
    journal: Journal<Before>,
}

// By hand: an exit of a caller then has one call to prove, and not a drop for each field.
impl<'i, F: Family + Drop> Drop for Tied<'i, F> {
    fn drop(self) {
        let Tied {
            engine: _engine,
            ties: _ties,
            journal: _journal,
        } = self;
    }
}

impl<'i, F: Family> Model for Tied<'i, F> {
    ghost use Rattle.followers.specs.Records.{IsKept, saved_of, states_of, with_ties};
    ghost use Rattle.followers.specs.Worlds.{TiedWorld};

    ghost Value = { TiedWorld };

    ghost view = { λ e. record {
      parts = e.engine.parts;
      now = with_ties e.engine.state e.ties;
      saved = saved_of e.ties (states_of e.engine.saved) e.journal.since;
    } };

    ghost invariant = { λ e. IsKept e.engine.parts e.engine.state e.ties (states_of e.engine.saved) e.journal.since };
}

impl<'i, F: Family> Tied<'i, F> {
    /// What is true of every timetable with ties.
    pub fn facts(&self)
        ensures { IsTied self.now.parts self.now.now }
    {
        let _ = &self.engine;
    }

    /// The timetable without its ties, with the values of its monitors.
    pub fn engine(&self) -> &Engine<'i, F>
        ensures parts { result.now.parts ≡ self.now.parts }
        ensures state { result.now.state ≡ self.now.now.state }
    {
        &self.engine
    }

    /// The tie of a meet, or `None` where it follows none.
    pub fn tie(&self, meet: MeetId) -> Option<Tie>
        ensures { result ≡ tie_at self.now.now.ties meet.0 }
    {
        self.ties.get(meet)
    }

    /// The ties of all meet slots, in order. It takes constant time.
    pub fn ties(&self) -> &[Option<Tie>]
        ensures { result.now ≡ self.now.now.ties }
    {
        self.ties.as_slice()
    }

    /// The first meet from a number on that has a tie, or `None` where there is none. It looks at a word for each 64
    /// meets up to there.
    pub fn next_tie(&self, from: MeetId) -> Option<MeetId>
        ensures next { IsNextTie self.now.now.ties from.0 result }
        ensures there { IfSome result (λ m. m.0 < length self.now.now.ties) }
        ensures small { IfSome result (λ m. m.0 + 1 < 2 ^ 32) }
    {
        self.ties.next(from)
    }

    /// Opens a mark inside all open ones. It is refused where as many are open as may be.
    #[tactic(auto, using(crate::proofs::MarkLaws::kept_fresh, crate::proofs::MarkLaws::long_saved, crate::proofs::MarkLaws::long_states))]
    pub fn begin(&mut self) -> Result<(), Refusal>
        ensures parts { self.new.parts ≡ self.old.parts }
        ensures now { self.new.now ≡ self.old.now }
        ensures refused { (result ≡ Err MarksFull) ↔ (length self.old.saved ≡ MARKS) }
        ensures only { IfErr result (λ r. r ≡ MarksFull) }
        ensures ok { OnOk result (self.new.saved ≡ self.old.now ∷ self.old.saved) }
        ensures err { OnErr result (self.new.saved ≡ self.old.saved) }
    {
        self.engine.begin()?;
        open_mark(&mut self.journal);
        Ok(())
    }

    /// Closes the innermost mark, and keeps the edits since then. It is refused where no mark is open.
    #[tactic(auto, using(crate::proofs::MarkLaws::kept_end, crate::proofs::MarkLaws::saved_closed, crate::proofs::MarkLaws::none_saved, crate::proofs::MarkLaws::some_saved))]
    pub fn end(&mut self) -> Result<(), Refusal>
        ensures parts { self.new.parts ≡ self.old.parts }
        ensures now { self.new.now ≡ self.old.now }
        ensures refused { (result ≡ Err NoMark) ↔ (self.old.saved ≡ []) }
        ensures only { IfErr result (λ r. r ≡ NoMark) }
        ensures saved { self.new.saved ≡ drop 1 self.old.saved }
    {
        self.engine.end()?;
        close(&mut self.journal);
        Ok(())
    }

    /// Undoes all edits since the innermost mark, which stays open. It is refused where no mark is open, and
    /// nothing changes.
    #[tactic(auto, using(crate::proofs::MarkLaws::none_saved, crate::proofs::MarkLaws::some_saved))]
    pub fn undo<L: Ledger>(&mut self, steps: &mut Steps<L>) -> Result<(), Refusal>
        ensures parts { self.new.parts ≡ self.old.parts }
        ensures refused { (result ≡ Err NoMark) ↔ (self.old.saved ≡ []) }
        ensures only { IfErr result (λ r. r ≡ NoMark) }
        ensures ok { OnOk result ((x : TiedState) (xs : List TiedState) → self.old.saved ≡ x ∷ xs → (self.new.now ≡ x) × (self.new.saved ≡ self.old.saved)) }
        ensures err { OnErr result (self.new ≡ self.old) }
    {
        self.engine.undo(steps)?;
        unwind(&mut self.ties, &mut self.journal);
        Ok(())
    }

    /// Undoes all edits since a mark, counted from 1 at the outermost, which stays open, and closes the marks
    /// inside it. It is refused where no mark has this number, and nothing changes.
    #[tactic(auto, using(crate::proofs::MarkLaws::long_saved, crate::proofs::MarkLaws::long_states, crate::proofs::UndoLaws::kept_to, crate::proofs::UndoLaws::now_to, crate::proofs::UndoLaws::saved_to))]
    pub fn undo_to<L: Ledger>(&mut self, k: u32, steps: &mut Steps<L>) -> Result<(), Refusal>
        ensures parts { self.new.parts ≡ self.old.parts }
        ensures accepted { OnOk result ((1 ≤ k) × (k ≤ length self.old.saved)) }
        ensures refused { IfErr result (λ r. (r ≡ NoMark) × (k < 1 ⊎ length self.old.saved < k)) }
        ensures now { OnOk result (self.new.now ≡ last_saved self.old.now (from_mark k self.old.saved)) }
        ensures saved { OnOk result (self.new.saved ≡ from_mark k self.old.saved) }
        ensures err { OnErr result (self.new ≡ self.old) }
    {
        self.engine.undo_to(k, steps)?;
        unwind_to(&mut self.ties, &mut self.journal, k);
        Ok(())
    }

    /// Makes an edit. It answers the number of the meet or the group that it makes, if any. The followers of a meet
    /// that gets another start go with it.
    ///
    /// It is refused by its first refusal, and otherwise fails only where there is no memory for the records of the
    /// edits that it consists of, of which each open mark wants them, or for the child that it adds. After a fault
    /// all stays as it was. It takes the time of the engine's edits of its meets and of their followers, whatever other ties there are; a tie
    /// is made or taken in constant time but for the edit of the follower's start.
    pub fn edit<L: Ledger>(
        &mut self,
        edit: TiedEdit,
        steps: &mut Steps<L>,
    ) -> Result<Option<u32>, TiedFault>
        ensures parts { self.new.parts ≡ self.old.parts }
        ensures accepted { OnOk result (refusal self.old.parts self.old.now edit ≡ None) }
        ensures fault { IfErr result (IsFaultOf (refusal self.old.parts self.old.now edit)) }
        ensures made { IfOk result (λ n. n ≡ made self.old.now edit) }
        ensures now { OnOk result (self.new.now ≡ edited self.old.now edit) }
        ensures saved { self.new.saved ≡ self.old.saved }
        ensures err { OnErr result (self.new.now ≡ self.old.now) }
    {
        edit_any(
            &mut self.engine,
            &mut self.ties,
            &mut self.journal,
            edit,
            steps,
        )
    }
}

impl<'i, F: Family + Drop> Tied<'i, F> {
    /// A valid timetable without ties and without marks. It takes time and memory in proportion to what an engine
    /// of it takes and to the meet slots: there is room for a tie of each meet.
    #[tactic(auto, using(crate::proofs::OpenLaws::as_many, crate::proofs::OpenLaws::open_kept))]
    pub fn open(alloc: Global, inst: &'i Instance, plain: &Plain) -> Result<Tied<'i, F>, NoMemory>
        requires joined { F.IsWellJoined }
        requires serves { ServesAll F.serves_kind }
        requires valid { IsValid inst.now plain.now }
        ensures parts { IfOk result (λ t. t.parts ≡ inst.now) }
        ensures state { IfOk result (λ t. IsStateOf inst.now plain.now t.now.state) }
        ensures ties { IfOk result (λ t. t.now.ties ≡ replicate (length t.now.state.slots) None) }
        ensures saved { IfOk result (λ t. t.saved ≡ []) }
    {
        inst.facts();
        let slots = inst.meet_slots();
        let engine = Engine::open(alloc, inst, plain);
        let ties = Ties::open(alloc, slots);
        let journal = Journal::open(alloc);
        let ((engine, ties), journal) = both(both(engine, ties), journal)?;
        engine.solution().facts();
        Ok(Tied {
            engine,
            ties,
            journal,
        })
    }
}
