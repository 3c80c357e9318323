//! A timetable beside a watcher that keeps what it was notified of.

ghost use Rattle.std.specs.Prelude.{◌≡◌, true, IfOk};
ghost use Rattle.khe_instance.specs.States.{IsValid};
ghost use Rattle.khe_told.specs.Changes.{after};
ghost use Rattle.khe_told.specs.Fits.{Fits};
ghost use Rattle.khe_solution.specs.Backs.{LeadsBack};
ghost use Rattle.khe_solution.specs.Refusing.{is_of_meets};

use khe_base::{MeetId, NoMemory, ResourceId, TaskId, both};
use khe_instance::{Instance, Meet, Plain};
use khe_solution::Solution;
use khe_told::{Back, Change, Edit, Refusal, Steps, Told, Watcher};
use std::alloc::Global;
use std::marker::Model;
use std::sync::ledger::Ledger;

/// Keeps the changes that it was notified of, in order. A change for which there is no memory is left
/// out, and then the list is not what a test wants.
#[derive(Drop)]
struct Listener {
    told: Told,
    list: Vec<Change>,
}

impl Listener {
    /// Follows one change, and keeps it.
    fn hear(&mut self, inst: &Instance, change: Change)
        requires { Fits inst.now self.old.told change }
        ensures { self.new.told ≡ after self.old.told change }
    {
        self.told.note(inst, change);
        let _ = self.list.push(change);
    }
}

impl Watcher for Listener {
    ghost use Rattle.std.specs.Prelude.{true, None};

    ghost told = { λ x. x.told };

    ghost IsOf = { λ x p. Unit {0} };

    ghost noted = { λ x. None };

    ghost is_silent = { true };

    ghost HasSameRest = { λ x y. Unit {0} };

    fn note<L: Ledger>(&mut self, inst: &Instance, change: Change, steps: &mut Steps<L>) {
        let _ = steps;
        self.hear(inst, change);
    }

    fn note_all<L: Ledger>(&mut self, inst: &Instance, changes: &[Change], steps: &mut Steps<L>) {
        let _ = steps;
        for change in changes {
            self.hear(inst, *change);
        }
    }

    ghost same_rest_refl = { λ x. tt };

    ghost same_rest_trans = { λ x y z a b. tt };
}

/// A timetable with its listener. Contracts see the timetable.
#[derive(Drop)]
pub(crate) struct Hand<'i> {
    solution: Solution<'i>,
    listener: Listener,
}

impl<'i> Model for Hand<'i> {
    ghost use Rattle.std.specs.Prelude.{◌≡◌};
    ghost use Rattle.khe_solution.specs.Timetables.{Timetable};

    ghost Value = { Timetable };

    ghost view = { λ h. h.solution };

    ghost invariant = { λ h. h.listener.told ≡ h.solution.slots };
}

impl<'i> Hand<'i> {
    /// The timetable of a valid state, of which the listener was told.
    pub(crate) fn open(
        alloc: Global,
        inst: &'i Instance,
        plain: &Plain,
    ) -> Result<Hand<'i>, NoMemory>
        requires { IsValid inst.now plain.now }
    {
        inst.facts();
        let solution = Solution::open(alloc, inst, plain);
        let told = Told::from_plain(alloc, inst, plain);
        let (solution, told) = both(solution, told)?;
        solution.facts();
        let listener = Listener {
            told,
            list: Vec::new(alloc),
        };
        Ok(Hand { solution, listener })
    }

    pub(crate) fn instance(&self) -> &'i Instance {
        self.solution.instance()
    }

    pub(crate) fn meet(&self, number: u32) -> Option<Meet> {
        self.solution.meet(MeetId(number))
    }

    /// What a place of a live meet is given, if the meet is live and has the place.
    pub(crate) fn given(&self, task: TaskId) -> Option<Option<ResourceId>> {
        let meet = self.solution.meet(task.meet)?;
        self.solution.facts();
        let event = self.solution.instance().event(meet.event);
        if (task.place as usize) < event.places.len() {
            Some(self.solution.resource(task))
        } else {
            None
        }
    }

    /// The first task from this one on that has this resource, or has none where none is wanted.
    pub(crate) fn next_task(&self, wanted: Option<ResourceId>, from: TaskId) -> Option<TaskId> {
        match wanted {
            Some(resource) => self.solution.next_task_of(resource, from),
            None => self.solution.next_task_without(from),
        }
    }

    /// What the listener was notified of by the last edit or by what undid it.
    pub(crate) fn heard(&self) -> &[Change] {
        self.listener.list.as_slice()
    }

    /// What a check answers.
    pub(crate) fn check(&self, edit: Edit) -> Result<(), Refusal>
        requires { is_of_meets edit ≡ true }
    {
        self.solution.check(&edit)
    }

    /// Makes an edit, without a look before.
    pub(crate) fn edit<L: Ledger>(
        &mut self,
        edit: Edit,
        steps: &mut Steps<L>,
    ) -> Result<Option<u32>, Refusal>
        requires { is_of_meets edit ≡ true }
    {
        self.listener.list.clear();
        self.solution.edit(edit, &mut self.listener, steps)
    }

    /// Makes an edit, and gives beside its answer the record that leads back.
    pub(crate) fn edit_to_undo<L: Ledger>(
        &mut self,
        edit: Edit,
        steps: &mut Steps<L>,
    ) -> Result<(Option<u32>, Back), Refusal>
        requires { is_of_meets edit ≡ true }
        ensures { IfOk result (λ b. LeadsBack self.new.parts self.new.slots b.1) }
    {
        self.listener.list.clear();
        self.solution.check(&edit)?;
        let back = self.solution.back(&edit);
        let made = self.solution.edit(edit, &mut self.listener, steps)?;
        Ok((made, back))
    }

    /// Undoes the edit of a record that leads back.
    pub(crate) fn undo<L: Ledger>(&mut self, back: Back, steps: &mut Steps<L>)
        requires { LeadsBack self.old.parts self.old.slots back }
    {
        self.listener.list.clear();
        self.solution.undo(back, &mut self.listener, steps);
    }
}
