//! Deviations at places of events.

ghost use Rattle.std.specs.Prelude.{◌≡◌, ◌≤◌, ◌<◌};
ghost use Rattle.std.specs.List.{sum_by};
ghost use Rattle.khe_base.specs.declared.limits.TheConstants.{NUMBER, GREATEST_DEVIATION};
ghost use Rattle.khe_instance.specs.Deviation.{place_deviation};
ghost use Rattle.khe_instance.specs.EventDeviation.{given_outside, unfilled_duration as unfilled, misfilled_duration as misfilled};
ghost use Rattle.khe_instance.specs.Lookups.{places_at};

use crate::index::Index;
use khe_base::{EventId, IdSet};
use khe_instance::{Duty, Rule};

/// The deviation of a rule at a place of an event; it takes the time of the place's duties.
pub(crate) fn at_place(index: &Index<'_>, rule: &Rule, event: EventId, place: u32) -> u64
    requires { place < places_at index.now.parts.events event.0 }
    ensures exact { result ≡ place_deviation index.now.duties rule.now event.0 place }
    ensures bound { result ≤ GREATEST_DEVIATION }
{
    let duties = index.duties(event, place as usize);
    match rule {
        Rule::AssignResource { .. } => unfilled_duration(duties),
        Rule::PreferResources { resources, .. } => misfilled_duration(duties, resources),
        _ => 0,
    }
}

/// The duration of the duties without a resource.
fn unfilled_duration(duties: &[Duty]) -> u64
    requires { sum_by (λ d. d.meet.duration) duties.now ≤ NUMBER }
    ensures exact { result ≡ sum_by (λ d. unfilled d.resource d.meet.duration) duties.now }
    ensures bound { result ≤ NUMBER }
{
    let mut total = 0;
    for duty in duties {
        if duty.resource.is_none() {
            total += u64::from(duty.meet.duration);
        }
    }
    total
}

/// The duration of the duties with a resource outside the set.
fn misfilled_duration(duties: &[Duty], resources: &IdSet) -> u64
    requires { sum_by (λ d. d.meet.duration) duties.now ≤ NUMBER }
    ensures exact { result ≡ sum_by (λ d. misfilled resources.now d.resource d.meet.duration) duties.now }
    ensures bound { result ≤ NUMBER }
{
    let mut total = 0;
    for duty in duties {
        if is_outside(duty, resources) {
            total += u64::from(duty.meet.duration);
        }
    }
    total
}

/// Whether a duty has a resource that isn't in the set.
fn is_outside(duty: &Duty, resources: &IdSet) -> bool
    ensures { result ≡ given_outside resources.now duty.now.resource }
{
    match duty.resource {
        None => false,
        Some(resource) => !resources.has(resource.0),
    }
}
