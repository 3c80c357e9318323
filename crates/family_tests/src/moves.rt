//! Changes in short, and benches that follow them.

use crate::archives::{Texts, resolved_of};
use crate::bench::Bench;
use khe_base::{MeetId, NoMemory, ResourceId, TaskId, TimeId};
use khe_instance::Instance;
use khe_told::{Change, Family};
use sixteen_families::Families;
use std::alloc::Global;
use xhstt_resolve::Resolved;

/// A change by its numbers: the meet, for a task also the place, and then the duration, the start or
/// the resource.
#[derive(Clone, Copy)]
pub(crate) enum Move {
    Add(u32, u32),
    Drop(u32, u32),
    Place(u32, u32),
    Lift(u32, u32),
    Give(u32, u32, u32),
    Take(u32, u32, u32),
}

fn task(meet: u32, place: u32) -> TaskId {
    TaskId {
        meet: MeetId(meet),
        place,
    }
}

impl Move {
    pub(crate) fn change(self) -> Change {
        match self {
            Move::Add(meet, duration) => Change::Add {
                meet: MeetId(meet),
                duration,
            },
            Move::Drop(meet, duration) => Change::Drop {
                meet: MeetId(meet),
                duration,
            },
            Move::Place(meet, start) => Change::Place {
                meet: MeetId(meet),
                start: TimeId(start),
            },
            Move::Lift(meet, start) => Change::Lift {
                meet: MeetId(meet),
                start: TimeId(start),
            },
            Move::Give(meet, place, resource) => Change::Give {
                task: task(meet, place),
                resource: ResourceId(resource),
            },
            Move::Take(meet, place, resource) => Change::Take {
                task: task(meet, place),
                resource: ResourceId(resource),
            },
        }
    }
}

/// A change, and the deviation of the only monitor after it.
pub(crate) type Step = (Move, u64);

/// The events and the constraint of an instance, and changes from no meets on.
pub(crate) type Row = (Texts, &'static [Step]);

/// Whether a monitor's deviation is this one, as it was told and as it is asked for.
pub(crate) fn stands_at<F: Family + Drop>(
    bench: &Bench<'_, F>,
    monitor: u32,
    deviation: u64,
) -> bool {
    bench.deviation(monitor) == Some(deviation) && bench.asked(monitor) == Some(deviation)
}

/// Whether all changes fit, and the deviation after each is as the list has it.
fn follows<F: Family + Drop>(bench: &mut Bench<'_, F>, steps: &[Step]) -> bool {
    for step in steps {
        let (each, deviation) = *step;
        if !bench.note(each.change()) || !stands_at(bench, 0, deviation) {
            return false;
        }
    }
    true
}

/// Whether they do so from no meets on.
fn follows_on<F: Family + Drop>(
    alloc: Global,
    inst: &Instance,
    steps: &[Step],
) -> Result<bool, NoMemory>
    requires { F.IsWellJoined }
{
    let mut bench = Bench::<F>::open(alloc, inst)?;
    Ok(follows(&mut bench, steps))
}

/// Whether they do so of a family, and of the sixteen as one.
fn both_follow<F: Family + Drop>(
    alloc: Global,
    resolved: &Resolved,
    steps: &[Step],
) -> Result<bool, NoMemory>
    requires { F.IsWellJoined }
{
    match resolved.instances.as_slice().first() {
        Some(inst) => {
            Ok(follows_on::<F>(alloc, inst, steps)? && follows_on::<Families>(alloc, inst, steps)?)
        }
        None => Ok(false),
    }
}

/// Whether a row holds of a family, and of the sixteen as one.
pub(crate) fn holds<F: Family + Drop>(alloc: Global, row: &Row) -> Result<bool, NoMemory>
    requires { F.IsWellJoined }
{
    let (texts, steps) = *row;
    match resolved_of(alloc, texts) {
        Some(resolved) => both_follow::<F>(alloc, &resolved, steps),
        None => Ok(false),
    }
}
