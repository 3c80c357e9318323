//! The records of edits, by marks, newest first.

ghost use Rattle.std.specs.Prelude.{◌≡◌, ◌≢◌, ◌↔◌, ◌≤◌, ◌+◌, ◌∷◌, [], length, Err, IfErr, IfOk, IsOk, OnOk, OnErr, MatchOption};
ghost use Rattle.khe_base.specs.declared.limits.TheConstants.{MARKS};
ghost use Rattle.khe_told.specs.declared.refusals.Refusal.TheVariants.{NoMark, MarksFull};
ghost use Rattle.undo_paths.specs.Stack.{with_record, without_mark, dropped, inner, outer};

use khe_base::NoMemory;
use khe_base::limits::MARKS;
use khe_told::Refusal;
use std::alloc::Global;
use std::marker::Model;

/// A stack of records with marks. Contracts see the records since each open mark, and how many
/// pushes take no memory.
///
/// Only `open` and `reserve` take memory, and each call takes constant time, but for `reserve` and
/// for the `unmark` that closes the last mark.
#[derive(Drop)]
pub struct Journal<E> {
    /// Oldest first.
    records: Vec<E>,
    /// How many of the records came since each open mark and before the next, outermost first.
    counts: Vec<usize>,
    /// How many more records there is room for.
    spare: usize,
}

impl<E> Model for Journal<E> {
    ghost use Rattle.std.specs.List.{sum};
    ghost use Rattle.std.specs.Prelude.{◌≡◌, ◌+◌, ◌≤◌, vec_capacity, vec_len};
    ghost use Rattle.khe_base.specs.declared.limits.TheConstants.{MARKS};
    ghost use Rattle.undo_paths.specs.Stack.{Stack, stack_of};

    ghost Value = { Stack E };

    ghost view = { λ j. record { since = stack_of j.records.items j.counts.items; spare = j.spare } };

    ghost invariant = { λ j. (sum j.counts.items ≡ vec_len j.records) × (vec_len j.records + j.spare ≤ vec_capacity j.records)
        × (vec_len j.counts ≤ MARKS) × (MARKS ≤ vec_capacity j.counts) };
}

impl<E: Copy + Drop> Journal<E> {
    /// The journal without records and without marks. It has room for all marks that may be open,
    /// and for no record.
    pub fn open(alloc: Global) -> Result<Journal<E>, NoMemory>
        ensures since { IfOk result (λ j. j.since ≡ []) }
        ensures spare { IfOk result (λ j. j.spare ≡ 0) }
    {
        Ok(Journal {
            records: Vec::new(alloc),
            counts: Vec::with_capacity(alloc, MARKS as usize)?,
            spare: 0,
        })
    }

    /// Makes room for this many pushes from now on. Where memory is refused, the journal stays as
    /// it was. It takes time in proportion to the records where they move.
    pub fn reserve(&mut self, n: u32) -> Result<(), NoMemory>
        ensures since { self.new.since ≡ self.old.since }
        ensures kept { self.old.spare ≤ self.new.spare }
        ensures ok { OnOk result (n ≤ self.new.spare) }
        ensures err { OnErr result (self.new ≡ self.old) }
        ensures there { n ≤ self.old.spare → IsOk result }
    {
        let wanted = n as usize;
        if self.spare < wanted {
            self.records.reserve(wanted)?;
            self.spare = wanted;
        }
        Ok(())
    }

    /// Adds a record since the innermost mark.
    #[tactic(auto, using(crate::proofs::StackLemmas::stack_record))]
    pub fn push(&mut self, entry: E)
        requires spare { self.old.spare ≢ 0 }
        requires marked { self.old.since ≢ [] }
        ensures since { self.new.since ≡ with_record entry self.old.since }
        ensures spare { self.new.spare + 1 ≡ self.old.spare }
    {
        let Ok(()) = self.records.push(entry) else {
            unreachable!()
        };
        let Some(count) = self.counts.pop() else {
            unreachable!()
        };
        let Ok(()) = self.counts.push(count + 1) else {
            unreachable!()
        };
        self.spare -= 1;
    }

    /// Opens a mark inside all open ones. It is refused where as many are open as may be, and
    /// the journal stays as it was.
    #[tactic(auto, using(crate::proofs::StackLemmas::stack_mark, crate::proofs::StackLemmas::length_stack))]
    pub fn mark(&mut self) -> Result<(), Refusal>
        ensures refused { (result ≡ Err MarksFull) ↔ (length self.old.since ≡ MARKS) }
        ensures only { IfErr result (λ r. r ≡ MarksFull) }
        ensures ok { OnOk result (self.new.since ≡ [] ∷ self.old.since) }
        ensures err { OnErr result (self.new.since ≡ self.old.since) }
        ensures spare { self.new.spare ≡ self.old.spare }
    {
        if self.counts.len() == MARKS as usize {
            return Err(Refusal::MarksFull);
        }
        let Ok(()) = self.counts.push(0) else {
            unreachable!()
        };
        Ok(())
    }

    /// Closes the innermost mark. Its records count for the mark around it; with the last mark all
    /// records go, and there is room for as many more. It is refused where no mark is open.
    #[tactic(auto, using(crate::proofs::StackLemmas::stack_merged, crate::proofs::StackLemmas::stack_last, crate::proofs::StackLemmas::length_stack))]
    pub fn unmark(&mut self) -> Result<(), Refusal>
        ensures refused { (result ≡ Err NoMark) ↔ (self.old.since ≡ []) }
        ensures only { IfErr result (λ r. r ≡ NoMark) }
        ensures since { self.new.since ≡ without_mark self.old.since }
        ensures spare { self.new.spare ≡ self.old.spare + dropped self.old.since }
    {
        let Some(count) = self.counts.pop() else {
            return Err(Refusal::NoMark);
        };
        if let Some(around) = self.counts.pop() {
            let Ok(()) = self.counts.push(around + count) else {
                unreachable!()
            };
        } else {
            self.records.clear();
            self.spare += count;
        }
        Ok(())
    }

    /// Takes the newest record since the innermost mark; `None` where there is none, and the
    /// journal stays as it was.
    #[tactic(auto, using(crate::proofs::StackLemmas::stack_popped, crate::proofs::StackLemmas::stack_split, crate::proofs::StackLemmas::stack_none))]
    pub fn pop(&mut self) -> Option<E>
        ensures { MatchOption result
            ((inner self.old.since ≡ []) × (self.new ≡ self.old))
            (λ e. (self.old.since ≡ (e ∷ inner self.new.since) ∷ outer self.new.since) × (self.new.since ≡ inner self.new.since ∷ outer self.new.since) × (self.new.spare ≡ self.old.spare + 1)) }
    {
        let Some(count) = self.counts.pop() else {
            return None;
        };
        if count == 0 {
            let Ok(()) = self.counts.push(0) else {
                unreachable!()
            };
            return None;
        }
        let Some(entry) = self.records.pop() else {
            unreachable!()
        };
        let Ok(()) = self.counts.push(count - 1) else {
            unreachable!()
        };
        self.spare += 1;
        Some(entry)
    }

    /// How many marks are open.
    #[tactic(auto, using(crate::proofs::StackLemmas::length_stack))]
    pub fn marks(&self) -> u32
        ensures { result ≡ length self.now.since }
    {
        self.counts.len() as u32
    }
}
