//! What an edit would make of slots, said without a change of them.

ghost use Rattle.std.specs.Prelude.{◌≡◌, ◌<◌, true, None, length, IfSome};
ghost use Rattle.std.specs.Option.{option_map};
ghost use Rattle.khe_told.specs.Effects.{IsCut};
ghost use Rattle.khe_told.specs.Slots.{slot_at};
ghost use Rattle.khe_told.specs.Valid.{AreValid};
ghost use Rattle.khe_told.specs.declared.slots.Span.{Span};
ghost use Rattle.khe_solution.specs.Editing.{edited};
ghost use Rattle.khe_solution.specs.Effects.{LeadTo, cutting, receiving, restaffing, retiming, shortening};
ghost use Rattle.khe_solution.specs.Refusing.{is_of_meets, refusal};
ghost use Rattle.khe_solution.specs.Timetables.{StartsLater};

use crate::edits::later;
use crate::reads::{duration_of, resource_at, start_of};
use crate::slots::{Slots, new_meet};
use khe_base::{MeetId, ResourceId, TaskId, TimeId};
use khe_instance::Instance;
use khe_told::{Edit, Effect, Effects, Regiven, Span, Told};

/// A meet with another start.
fn at_start(span: Option<Span>, start: Option<TimeId>) -> Option<Span>
    ensures { result ≡ option_map (λ (y : Span). record y { start = start }) span }
{
    let span = span?;
    Some(Span {
        duration: span.duration,
        start,
    })
}

/// A meet would get this start.
fn retimed(told: &Told, meet: MeetId, start: Option<TimeId>) -> Effect<'_>
    requires { meet.0 < length told.now }
    ensures effect { result ≡ retiming told.now meet start }
    ensures number { (slot_at told.now meet.0).meet ≡ meet }
{
    let span = at_start(told.span(meet), start);
    told.effect(meet, span, told.given(meet), None)
}

/// A task would get this resource, or none.
fn restaffed(told: &Told, task: TaskId, resource: Option<ResourceId>) -> Effect<'_>
    requires { task.meet.0 < length told.now }
    ensures effect { result ≡ restaffing told.now task resource }
    ensures number { (slot_at told.now task.meet.0).meet ≡ task.meet }
{
    let regiven = Regiven {
        place: task.place,
        resource,
    };
    told.effect(
        task.meet,
        told.span(task.meet),
        told.given(task.meet),
        Some(regiven),
    )
}

/// A meet would be cut: it would get shorter, and then this slot would get the rest of it.
fn split<'a>(told: &'a Told, meet: MeetId, cut: u32, new: MeetId) -> Effects<'a>
    requires meet { meet.0 < length told.now }
    requires new { new.0 < length told.now }
    requires cut { IsCut (shortening told.now meet cut) (receiving told.now meet cut new) }
    requires later { StartsLater told.now meet cut }
    ensures effects { result ≡ cutting told.now meet cut new }
    ensures meet { (slot_at told.now meet.0).meet ≡ meet }
    ensures new { (slot_at told.now new.0).meet ≡ new }
{
    let given = told.given(meet);
    let start = start_of(told, meet);
    let shorter = Span {
        duration: cut,
        start,
    };
    let rest = Span {
        duration: duration_of(told, meet).saturating_sub(cut),
        start: later(cut, start),
    };
    Effects::of_cut(
        told.effect(meet, Some(shorter), given, None),
        told.effect(new, Some(rest), given, None),
    )
}

/// What an accepted edit would make of the slots, where that is said of one or two of them: not of a Merge and an
/// exchange of the resources of two tasks of one meet. It takes constant time, but that for a Split it looks for a
/// free slot by words of bits.
pub(crate) fn effects_of<'a>(inst: &Instance, slots: &'a Slots, edit: &Edit) -> Option<Effects<'a>>
    requires valid { AreValid inst.now slots.now }
    requires ours { is_of_meets edit.now ≡ true }
    requires accepted { refusal inst.now slots.now edit.now ≡ None }
    ensures { IfSome result (λ ts. LeadTo inst.now slots.now ts (edited slots.now edit.now)) }
{
    let told = slots.told();
    if let Edit::Split { meet, cut } = *edit {
        inst.facts();
        let new = new_meet(inst, slots, meet);
        return Some(split(told, meet, cut, new));
    }
    effects_in_place(inst, told, edit)
}

/// The same of an edit by which no slot gets a meet or loses it.
fn effects_in_place<'a>(inst: &Instance, told: &'a Told, edit: &Edit) -> Option<Effects<'a>>
    requires valid { AreValid inst.now told.now }
    requires ours { is_of_meets edit.now ≡ true }
    requires accepted { refusal inst.now told.now edit.now ≡ None }
    ensures { IfSome result (λ ts. LeadTo inst.now told.now ts (edited told.now edit.now)) }
{
    let _ = inst;
    match *edit {
        Edit::Assign { meet, time } => Some(Effects::of(retimed(told, meet, Some(time)), None)),
        Edit::Unassign { meet } => Some(Effects::of(retimed(told, meet, None), None)),
        Edit::MoveTo { meet, time } => Some(Effects::of(retimed(told, meet, Some(time)), None)),
        Edit::SwapMeets { a, b } => {
            let first = retimed(told, a, start_of(told, b));
            let second = retimed(told, b, start_of(told, a));
            Some(Effects::of(first, Some(second)))
        }
        Edit::Give { task, resource } => {
            Some(Effects::of(restaffed(told, task, Some(resource)), None))
        }
        Edit::Take { task } => Some(Effects::of(restaffed(told, task, None), None)),
        Edit::Regive { task, resource } => {
            Some(Effects::of(restaffed(told, task, Some(resource)), None))
        }
        Edit::SwapTasks { a, b } => {
            if a.meet.0 == b.meet.0 {
                return None;
            }
            let first = restaffed(told, a, resource_at(told, b));
            let second = restaffed(told, b, resource_at(told, a));
            Some(Effects::of(first, Some(second)))
        }
        _ => None,
    }
}
