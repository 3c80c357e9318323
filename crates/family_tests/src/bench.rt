//! A family that turns by the changes that fit, and the deviations that it told.

ghost use Rattle.std.specs.Prelude.{◌≡◌, ◌<◌, ◌≤◌, ◌+◌, ◌-◌, ◌^◌, length, replicate, slice_index, slice_set, IfOk};
ghost use Rattle.khe_told.specs.Changes.{after};
ghost use Rattle.khe_told.specs.Fits.{AreTold, Fits};
ghost use Rattle.khe_told.specs.Slots.{no_meets};
ghost use Rattle.khe_told.specs.Agreement.{Agrees};
ghost use Rattle.khe_told.specs.Waits.{waits_in};
ghost use Rattle.family_tests.specs.Benches.{AreHeld, IsAwaited, IsBench, IsSetFor};

use crate::fitting::fits;
use crate::marks::{Marks, no_marks};
use khe_base::{EventId, MeetId, MonitorId, NoMemory, ResourceId, both};
use khe_instance::Instance;
use khe_told::{Change, Family, Span, Told, Waiting};
use std::alloc::Global;
use std::marker::Model;

/// A family with the deviations that it has told. It was opened on the instance, and at each moment
/// the deviations of the monitors that it serves are those of what was told. Contracts see the told
/// meets and tasks.
#[derive(Drop)]
pub struct Bench<'i, F: Family> {
    inst: &'i Instance,
    family: F,
    told: Told,
    /// How long the told meets of each event last together.
    held: Vec<u32>,
    waits: Waiting,
    marks: Marks,
}

impl<'i, F: Family> Model for Bench<'i, F> {
    ghost use Rattle.std.specs.Prelude.{◌≡◌, List, length};
    ghost use Rattle.khe_told.specs.declared.slots.Slot.{Slot};
    ghost use Rattle.family_tests.specs.Benches.{IsBench};

    ghost Value = { List Slot };

    ghost view = { λ b. b.told };

    ghost invariant = { λ b. F.IsOf b.family b.inst.now × (F.told b.family ≡ b.told) × (length b.waits.flags ≡ length b.inst.now.monitors) × IsBench b.inst.now F.serves_kind b.told b.held.items b.marks.values.items };
}

/// Lets a family turn by a change that fits, sets the deviations that wait then, and follows the
/// change in what is kept beside the family.
fn note_fitting<F: Family>(
    inst: &Instance,
    family: &mut F,
    told: &mut Told,
    held: &mut Vec<u32>,
    waits: &mut Waiting,
    marks: &mut Marks,
    change: Change,
)
    requires of { F.IsOf family.old inst.now }
    requires same { F.told family.old ≡ told.old }
    requires monitors { length waits.old.flags ≡ length inst.now.monitors }
    requires bench { IsBench inst.now F.serves_kind told.old held.old.items marks.old.values.items }
    requires fits { Fits inst.now told.old change }
    ensures of { F.IsOf family.new inst.now }
    ensures same { F.told family.new ≡ told.new }
    ensures told { told.new ≡ after told.old change }
    ensures monitors { length waits.new.flags ≡ length inst.now.monitors }
    ensures bench { IsBench inst.now F.serves_kind told.new held.new.items marks.new.values.items }
{
    family.turn_all(inst, &[change], waits);
    settle(inst, family, waits, marks);
    hold(inst, told, held, change);
    told.note(inst, change);
}

/// Sets the deviation of each monitor that waits, after which none does.
fn settle<F: Family>(inst: &Instance, family: &F, waits: &mut Waiting, marks: &mut Marks)
    requires of { F.IsOf family.now inst.now }
    requires waiting { length waits.old.flags ≡ length inst.now.monitors }
    requires monitors { length marks.old.values.items ≡ length inst.now.monitors }
    requires awaited { IsAwaited inst.now F.serves_kind (F.told family.now) (waits_in waits.old) marks.old.values.items }
    ensures waiting { length waits.new.flags ≡ length inst.now.monitors }
    ensures monitors { length marks.new.values.items ≡ length inst.now.monitors }
    ensures agrees { Agrees inst.now F.serves_kind (F.told family.now) marks.new.values.items }
{
    while let Some(number) = waits.pop() {
        set_one(inst, family, marks, number);
        marks.count();
    }
}

/// Keeps how long the told meets of each event last together.
fn hold(inst: &Instance, told: &Told, held: &mut Vec<u32>, change: Change)
    requires told { AreTold inst.now told.now }
    requires fits { Fits inst.now told.now change }
    requires held { AreHeld inst.now told.now held.old.items }
    ensures held { AreHeld inst.now (after told.now change) held.new.items }
{
    inst.facts();
    match change {
        Change::Add { meet, duration } => raise(held, told.event(meet), duration),
        Change::Drop { meet, duration } => lower(held, told.event(meet), duration),
        _ => {}
    }
}

fn raise(held: &mut Vec<u32>, event: EventId, more: u32)
    requires event { event.0 < length held.old.items }
    requires small { slice_index held.old.items event.0 + more < 2 ^ 32 }
    ensures { held.new.items ≡ slice_set held.old.items event.0 (slice_index held.old.items event.0 + more) }
{
    held[event.0 as usize] += more;
}

fn lower(held: &mut Vec<u32>, event: EventId, less: u32)
    requires event { event.0 < length held.old.items }
    requires enough { less ≤ slice_index held.old.items event.0 }
    ensures { held.new.items ≡ slice_set held.old.items event.0 (slice_index held.old.items event.0 - less) }
{
    held[event.0 as usize] -= less;
}

/// Sets the deviations of the monitors that a family serves.
fn set_all<F: Family>(inst: &Instance, family: &F, marks: &mut Marks)
    requires of { F.IsOf family.now inst.now }
    requires monitors { length marks.old.values.items ≡ length inst.now.monitors }
    ensures monitors { length marks.new.values.items ≡ length inst.now.monitors }
    ensures agrees { Agrees inst.now F.serves_kind (F.told family.now) marks.new.values.items }
{
    for k in 0..inst.monitors() {
        set_one(inst, family, marks, MonitorId(k));
    }
}

/// Sets the deviation of a monitor, if a family serves it.
fn set_one<F: Family>(inst: &Instance, family: &F, marks: &mut Marks, number: MonitorId)
    requires of { F.IsOf family.now inst.now }
    requires monitors { length marks.old.values.items ≡ length inst.now.monitors }
    requires known { number.0 < length inst.now.monitors }
    ensures { IsSetFor inst.now F.serves_kind (F.told family.now) number.0 marks.old.values.items marks.new.values.items }
{
    if family.serves(inst.monitor(number).kind) {
        marks.values[number.0 as usize] = family.deviation(inst, number);
    }
}

/// The given number of numbers of 0.
fn zeros(alloc: Global, count: u32) -> Result<Vec<u32>, NoMemory>
    ensures { IfOk result (λ v. v.items ≡ replicate count 0) }
{
    Ok(vec![in alloc; 0; count as usize]?)
}

impl<'i, F: Family + Drop> Bench<'i, F> {
    /// A family that was told of no meets.
    pub fn open(alloc: Global, inst: &'i Instance) -> Result<Bench<'i, F>, NoMemory>
        requires { F.IsWellJoined }
    {
        let family = both(F::open(alloc, inst), Told::open(alloc, inst));
        let slots = both(
            zeros(alloc, inst.events()),
            Waiting::open(alloc, inst.monitors()),
        );
        let marks = no_marks(alloc, inst.monitors());
        let ((family, told), ((held, waits), mut marks)) = both(family, both(slots, marks))?;
        set_all(inst, &family, &mut marks);
        Ok(Bench {
            inst,
            family,
            told,
            held,
            waits,
            marks,
        })
    }

    /// Notes a change, if it fits, and answers whether it does.
    pub fn note(&mut self, change: Change) -> bool {
        if !fits(self.inst, &self.told, self.held.as_slice(), change) {
            return false;
        }
        note_fitting(
            self.inst,
            &mut self.family,
            &mut self.told,
            &mut self.held,
            &mut self.waits,
            &mut self.marks,
            change,
        );
        true
    }

    /// The deviation of a monitor, as it was told, and 0 where the family does not serve it.
    pub fn deviation(&self, monitor: u32) -> Option<u64> {
        self.marks.values.get(monitor as usize).copied()
    }

    /// The deviation of a monitor, as the family itself tells it.
    pub fn asked(&self, monitor: u32) -> Option<u64> {
        if monitor >= self.inst.monitors() {
            return None;
        }
        let number = MonitorId(monitor);
        if self.family.serves(self.inst.monitor(number).kind) {
            Some(self.family.deviation(self.inst, number))
        } else {
            None
        }
    }

    /// The duration and the start of a meet, or `None` where no meet has the number.
    pub fn span(&self, meet: u32) -> Option<Span> {
        self.told.span(MeetId(meet))
    }

    /// What each place of a meet slot is given.
    pub fn given(&self, meet: u32) -> &[Option<ResourceId>] {
        self.told.given(MeetId(meet))
    }

    /// How often a deviation was set.
    pub fn calls(&self) -> u64 {
        self.marks.calls
    }
}
