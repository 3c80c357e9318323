//! Making an archive.

ghost use Rattle.std.specs.Prelude.{◌≡◌, ◌∷◌, [], IfOk, OnOk};
ghost use Rattle.xhstt_shape.specs.WellFormed.{IsWellFormed};
ghost use Rattle.archive_generator.specs.Made as spec;

use crate::constraints::constraints;
use crate::drawing::{DrawnEntry, DrawnEvent, DrawnJob, draw_job};
use crate::draws::Draws;
use crate::events::{event_groups, events};
use crate::lists::one;
use crate::names::name;
use crate::resources::{resource_groups, resource_types, resources};
use crate::solutions::solutions;
use crate::times::{time_groups, times};
use khe_base::{NoMemory, Seq, both};
use std::alloc::Global;
use xhstt_shape::{Archive, RawInstance, SolutionGroup};

/// The instance of a job.
#[tactic(auto, unfolding(crate::specs::Made::instance))]
fn instance(alloc: Global, size: u32, drawn: &[DrawnEvent]) -> Result<RawInstance, NoMemory>
    ensures { IfOk result (λ i. i ≡ spec.instance size drawn.now) }
{
    let times = both(time_groups(alloc), times(alloc));
    let types = both(resource_types(alloc), resource_groups(alloc));
    let places = both(both(times, types), resources(alloc, size));
    let events = both(event_groups(alloc, size), events(alloc, size, drawn));
    let rest = both(both(events, constraints(alloc, size)), name(alloc, "made"));
    let (places, rest) = both(places, rest)?;
    let (((time_groups, times), (resource_types, resource_groups)), resources) = places;
    let (((event_groups, events), constraints), id) = rest;
    Ok(RawInstance {
        id,
        meta_data: None,
        time_groups,
        times,
        resource_types,
        resource_groups,
        resources,
        event_groups,
        events,
        constraints,
    })
}

/// The one instance.
fn instances(alloc: Global, size: u32, drawn: &[DrawnEvent]) -> Result<Seq<RawInstance>, NoMemory>
    ensures { IfOk result (λ list. list ≡ spec.instance size drawn.now ∷ []) }
{
    one(alloc, instance(alloc, size, drawn)?)
}

/// The group of the solutions of a job.
#[tactic(auto, unfolding(crate::specs::Made::solution_group))]
fn solution_group(alloc: Global, drawn: &[Seq<DrawnEntry>]) -> Result<SolutionGroup, NoMemory>
    ensures { IfOk result (λ g. g ≡ spec.solution_group drawn.now) }
{
    let (id, solutions) = both(name(alloc, "g"), solutions(alloc, drawn))?;
    Ok(SolutionGroup {
        id,
        meta_data: None,
        solutions,
    })
}

/// The one group of solutions.
fn solution_groups(alloc: Global, drawn: &[Seq<DrawnEntry>]) -> Result<Seq<SolutionGroup>, NoMemory>
    ensures { IfOk result (λ list. list ≡ spec.solution_group drawn.now ∷ []) }
{
    one(alloc, solution_group(alloc, drawn)?)
}

/// The archive of what was drawn.
#[tactic(auto, unfolding(crate::specs::Made::archive))]
fn archive(alloc: Global, size: u32, drawn: &DrawnJob) -> Result<Archive, NoMemory>
    ensures { IfOk result (λ a. a ≡ spec.archive size drawn.now) }
{
    let (instances, solution_groups) = both(
        instances(alloc, size, drawn.events.as_slice()),
        solution_groups(alloc, drawn.solutions.as_slice()),
    )?;
    Ok(Archive {
        id: None,
        meta_data: None,
        instances,
        solution_groups,
    })
}

/// An archive of one instance with the given number of events, a constraint of each kind and four solutions.
///
/// What varies is drawn: the durations of events and some preassigned times, and then, for each
/// solution, which events are cut in two, and most times, teachers and rooms. The draws of the archive
/// are the first ones from the state, and what is drawn next goes on after them. It takes time and
/// memory linear in the size.
#[tactic(auto, unfolding(crate::specs::Made::made, crate::specs::Made::state_after))]
pub fn generate(alloc: Global, draws: &mut Draws, size: u32) -> Result<Archive, NoMemory>
    ensures made { IfOk result (λ a. a ≡ spec.made draws.old.state size) }
    ensures well_formed { IfOk result IsWellFormed }
    ensures state { OnOk result (draws.new.state ≡ spec.state_after draws.old.state size) }
{
    let drawn = draw_job(alloc, draws, size)?;
    archive(alloc, size, &drawn)
}
