//! The demands of a timetable, kept as it changes.

ghost use Rattle.std.specs.Prelude.{◌≡◌, ◌==◌, ◌+◌, ◌*◌, ◌++◌, ◌<◌, ◌≤◌, ◌^◌, All, IfOk, OnOk, length, map};
ghost use Rattle.std.specs.List.{filter};
ghost use Rattle.khe_base.specs.IdSet.{has_member};
ghost use Rattle.hall_report.specs.Listing.{is_marked};
ghost use Rattle.khe_instance.specs.declared.parts.Parts.{Parts};
ghost use Rattle.khe_told.specs.Slots.{no_meets, slot_at, length_of};
ghost use Rattle.khe_told.specs.Changes.{after, after_all};
ghost use Rattle.khe_told.specs.Fits.{AllFit, Fits};
ghost use Rattle.khe_told.specs.declared.changes.Change.TheVariants.{Add, Drop};
ghost use Rattle.hall_report.specs.Kept.{AreOf, AreOfSome, cell_demand};
ghost use Rattle.hall_report.specs.Opening.{AreWanted};
ghost use Rattle.hall_report.specs.Renewing.{IsTurn};
ghost use Rattle.hall_report.specs.Demands.{IsDeficitOf, IsHallOf, chosen, task_demands};

use crate::Demand;
use crate::cells::free_cells;
use crate::listing::{list_cells, list_tasks};
use crate::renewing::{Choices, Picks, renew};
use crate::resource_sets::resource_sets;
use crate::start_sets::start_sets;
use crate::units::Units;
use demand_matching::{Domain, Matching, Pick};
use khe_base::{IdSet, MeetId, NoMemory, Seq, both};
use khe_instance::Instance;
use khe_told::{Change, Steps, Told, Watcher};
use std::alloc::Global;
use std::sync::ledger::Ledger;

/// The demands of a timetable that is told change by change, each with the supplies that it may have,
/// and a maximum matching of them.
///
/// It takes memory in proportion to the task slots of the instance, its cells, and its sets.
pub struct Demands {
    told: Told,
    units: Units,
    picks: Picks,
    matching: Matching,
    /// The cells that are to be free: their demands have the numbers after the task slots.
    cells: Seq<u32>,
    /// How many task slots and times there are.
    tasks: u32,
    times: u32,
    alloc: Global,
    ghost opened: { AreOfSome told units picks matching cells tasks times },
}

// By hand: an exit of a caller then has one call to prove, and not a drop for each field.
impl Drop for Demands {
    fn drop(self) {
        let Demands {
            told: _told,
            units: _units,
            picks: _picks,
            matching: _matching,
            cells: _cells,
            tasks: _tasks,
            times: _times,
            alloc: _alloc,
        } = self;
    }
}

impl Demands {
    /// The demands of an instance without meets: those for unavailable times.
    pub fn open(alloc: Global, inst: &Instance) -> Result<Demands, NoMemory>
        ensures of { IfOk result (λ d. AreOf inst.now d.told d.units d.picks d.matching d.cells d.tasks d.times) }
        ensures told { IfOk result (λ d. d.told ≡ no_meets inst.now) }
    {
        inst.facts();
        let tasks = inst.task_slots();
        let times = inst.times();
        let starts = start_sets(alloc, inst);
        let resources = resource_sets(alloc, inst);
        let parts = both(both(starts, resources), free_cells(alloc, inst));
        let rest = both(Told::open(alloc, inst), Units::open(alloc, inst));
        let (((starts, resources), cells), (told, units)) = both(parts, rest)?;
        let count = tasks + cells.len() as u32;
        let mut matching = Matching::new(
            alloc,
            count,
            starts.sets,
            resources.sets,
            times,
            inst.resources(),
        )?;
        want_cells(&mut matching, cells.as_slice(), tasks, times);
        let picks = Picks {
            starts: starts.entries,
            resources: resources.entries,
        };
        Ok(Demands {
            tasks,
            times,
            alloc,
            told,
            units,
            picks,
            matching,
            cells,
        })
    }

    /// How many demands no assignment can serve: the greatest excess of a set of demands over the
    /// supplies that they may have. It takes constant time and no memory.
    pub fn deficit(&self) -> u32
        ensures { (p : Parts) → AreOf p self.now.told self.now.units self.now.picks self.now.matching self.now.cells
            self.now.tasks self.now.times → IsDeficitOf p self.now.told result }
    {
        self.matching.deficit()
    }

    /// The least set of demands whose excess is the deficit, in their order.
    ///
    /// Where the deficit is 0 it is empty, and is answered in constant time and without memory. Else it
    /// takes memory for a mark for each demand and each supply, and time in proportion to the demands and
    /// to the resources that those of the set may have, and their times by words of 64.
    pub fn hall(&self) -> Result<Seq<Demand>, NoMemory>
        ensures { (p : Parts) → AreOf p self.now.told self.now.units self.now.picks self.now.matching self.now.cells
            self.now.tasks self.now.times → IfOk result (λ hall. IsHallOf p self.now.told hall) }
    {
        let mut hall = Seq::new(self.alloc);
        if self.matching.deficit() == 0 {
            return Ok(hall);
        }
        let marks = self.matching.hall_marks()?;
        self.list(&mut hall, &marks)?;
        Ok(hall)
    }

    // Adds the marked demands.
    fn list(&self, hall: &mut Seq<Demand>, marks: &IdSet) -> Result<(), NoMemory>
        ensures { OnOk result (hall.new ≡ (hall.old ++ filter (is_marked self.now.units marks.now)
            (task_demands self.now.told)) ++ chosen (λ i. has_member marks.now (self.now.tasks + i)) 0
            (map (cell_demand self.now.times) self.now.cells)) }
    {
        list_tasks(hall, &self.told, &self.units, marks)?;
        list_cells(hall, self.cells.as_slice(), self.times, self.tasks, marks)?;
        Ok(())
    }
}

impl Demands {
    // How many places the event of a meet slot has.
    fn places(&self, meet: MeetId) -> u32
        requires { meet.0 < length self.now.told }
        ensures { result ≡ length (slot_at self.now.told meet.0).given }
    {
        self.told.given(meet).len() as u32
    }

    // Follows a meet that comes into a free slot.
    fn come(&mut self, inst: &Instance, meet: MeetId, duration: u32)
        requires of { AreOf inst.now self.old.told self.old.units self.old.picks self.old.matching self.old.cells
            self.old.tasks self.old.times }
        requires fits { Fits inst.now self.old.told (Add meet duration) }
        ensures of { AreOf inst.now self.new.told self.new.units self.new.picks self.new.matching self.new.cells
            self.new.tasks self.new.times }
        ensures told { self.new.told ≡ after self.old.told (Add meet duration) }
    {
        let event = self.told.event(meet);
        let places = self.told.given(meet).len() as u32;
        self.units.hold(event, meet, duration);
        self.told.note(inst, Change::Add { meet, duration });
        let choices = Choices {
            inst,
            told: &self.told,
            picks: &self.picks,
        };
        renew(
            &choices,
            &self.units,
            &mut self.matching,
            meet,
            duration,
            0,
            places,
        );
    }

    // Follows a meet that leaves its slot free.
    fn go(&mut self, inst: &Instance, meet: MeetId, duration: u32)
        requires of { AreOf inst.now self.old.told self.old.units self.old.picks self.old.matching self.old.cells
            self.old.tasks self.old.times }
        requires fits { Fits inst.now self.old.told (Drop meet duration) }
        ensures of { AreOf inst.now self.new.told self.new.units self.new.picks self.new.matching self.new.cells
            self.new.tasks self.new.times }
        ensures told { self.new.told ≡ after self.old.told (Drop meet duration) }
    {
        let event = self.told.event(meet);
        let places = self.told.given(meet).len() as u32;
        self.told.note(inst, Change::Drop { meet, duration });
        let choices = Choices {
            inst,
            told: &self.told,
            picks: &self.picks,
        };
        renew(
            &choices,
            &self.units,
            &mut self.matching,
            meet,
            duration,
            0,
            places,
        );
        self.units.release(event, meet, duration);
    }

    // Follows a change of a meet that stays, which alters the demands at these places alone.
    fn turn(&mut self, inst: &Instance, change: Change, from: u32, end: u32)
        requires of { AreOf inst.now self.old.told self.old.units self.old.picks self.old.matching self.old.cells
            self.old.tasks self.old.times }
        requires fits { Fits inst.now self.old.told change }
        requires turns { IsTurn inst.now self.old.told change from end }
        ensures of { AreOf inst.now self.new.told self.new.units self.new.picks self.new.matching self.new.cells
            self.new.tasks self.new.times }
        ensures told { self.new.told ≡ after self.old.told change }
    {
        let meet = change.meet();
        let duration = span_length(&self.told, meet);
        self.told.note(inst, change);
        let choices = Choices {
            inst,
            told: &self.told,
            picks: &self.picks,
        };
        renew(
            &choices,
            &self.units,
            &mut self.matching,
            meet,
            duration,
            from,
            end,
        );
    }
}

// How long a slot's meet lasts, and 0 where it has none.
fn span_length(told: &Told, meet: MeetId) -> u32
    ensures { result ≡ length_of (slot_at told.now meet.0) }
{
    match told.span(meet) {
        Some(span) => span.duration,
        None => 0,
    }
}

// Gives each cell's demand that cell alone.
#[tactic(auto, using(crate::proofs::DemandsOpened::wanted_none, crate::proofs::DemandsOpened::wanted_more))]
fn want_cells(matching: &mut Matching, cells: &[u32], first: u32, times: u32)
    requires room { first + length cells.now ≤ length matching.old.demands }
    requires few { length matching.old.demands < 2 ^ 32 }
    requires last { matching.old.last ≡ times }
    requires below { All (λ c. c < matching.old.width * times) cells.now }
    ensures { AreWanted times first cells.now matching.old matching.new }
{
    for (more, cell) in cells.iter().enumerate() {
        let domain = Domain {
            times: Pick::One(*cell % times),
            shift: 0,
            resources: Pick::One(*cell / times),
        };
        matching.set_domain(first + more as u32, Some(domain));
    }
}

impl Watcher for Demands {
    ghost use Rattle.std.specs.Prelude.{true, None};
    ghost use Rattle.hall_report.specs.Kept.{AreOf};

    ghost told = { λ d. d.told };

    ghost IsOf = { λ d p. AreOf p d.told d.units d.picks d.matching d.cells d.tasks d.times };

    ghost noted = { λ d. None };

    ghost is_silent = { true };

    ghost HasSameRest = { λ x y. Unit {0} };

    fn note<L: Ledger>(&mut self, inst: &Instance, change: Change, steps: &mut Steps<L>) {
        let _ = steps;
        self.tell(inst, change);
    }

    fn note_all<L: Ledger>(&mut self, inst: &Instance, changes: &[Change], steps: &mut Steps<L>) {
        let _ = steps;
        self.tell_all(inst, changes);
    }

    ghost same_rest_refl = { λ x. tt };

    ghost same_rest_trans = { λ x y z a b. tt };
}

impl Demands {
    /// Follows changes that fit one after the other, and the matching stays a maximum. It takes no memory.
    pub fn tell_all(&mut self, inst: &Instance, changes: &[Change])
        requires of { AreOf inst.now self.old.told self.old.units self.old.picks self.old.matching self.old.cells
            self.old.tasks self.old.times }
        requires fit { AllFit inst.now self.old.told changes.now }
        ensures of { AreOf inst.now self.new.told self.new.units self.new.picks self.new.matching self.new.cells
            self.new.tasks self.new.times }
        ensures told { self.new.told ≡ after_all self.old.told changes.now }
    {
        for change in changes {
            self.tell(inst, *change);
        }
    }

    /// Follows a change that fits what was told, and the matching stays a maximum. It takes no memory.
    pub fn tell(&mut self, inst: &Instance, change: Change)
        requires of { AreOf inst.now self.old.told self.old.units self.old.picks self.old.matching self.old.cells
            self.old.tasks self.old.times }
        requires fits { Fits inst.now self.old.told change }
        ensures of { AreOf inst.now self.new.told self.new.units self.new.picks self.new.matching self.new.cells
            self.new.tasks self.new.times }
        ensures told { self.new.told ≡ after self.old.told change }
    {
        match change {
            Change::Add { meet, duration } => self.come(inst, meet, duration),
            Change::Drop { meet, duration } => self.go(inst, meet, duration),
            Change::Place { meet, .. } => {
                let places = self.places(meet);
                self.turn(inst, change, 0, places);
            }
            Change::Lift { meet, .. } => {
                let places = self.places(meet);
                self.turn(inst, change, 0, places);
            }
            Change::Give { task, .. } => self.turn(inst, change, task.place, task.place + 1),
            Change::Take { task, .. } => self.turn(inst, change, task.place, task.place + 1),
        }
    }
}
