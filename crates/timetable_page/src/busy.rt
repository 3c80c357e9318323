//! What each resource does at each time, and what each meet is given, of one timetable.

ghost use Rattle.std.specs.Prelude.{◌≡◌, [], IfOk, OnOk, replicate};
ghost use Rattle.timetable_page.specs.Costs.{with_item};

use khe_base::{IdSet, MonitorId, NoMemory, ResourceId, Seq, TimeId, beside, both};
use khe_instance::{Instance, Kind, Meet, Plain, Point, Rule};
use std::alloc::Global;

/// A place of a meet's event and the resource that it is given.
#[derive(Clone, Copy)]
pub(crate) struct Given {
    pub place: u32,
    pub resource: Option<ResourceId>,
}

/// A time at which a resource is busy, and the place of the meet among all meets.
#[derive(Clone, Copy)]
pub(crate) struct Run {
    pub time: u32,
    pub meet: u32,
}

/// What is given to each meet, and when each resource is busy.
#[derive(Drop)]
pub(crate) struct Timetable {
    /// Of each meet, in the order of the meets.
    pub given: Seq<Seq<Given>>,
    /// Of each resource, in the order of the meets.
    pub runs: Seq<Seq<Run>>,
    /// The numbers of the monitors on each resource.
    pub watched: Seq<Seq<u32>>,
    /// The places of the meets of each event among all meets.
    pub parts: Seq<Seq<u32>>,
}

/// The given number of empty lists.
pub(crate) fn empty_lists<T: Drop>(alloc: Global, count: usize) -> Result<Seq<Seq<T>>, NoMemory>
    ensures { IfOk result (λ lists. lists ≡ replicate count []) }
{
    let mut lists = Seq::new(alloc);
    for _ in 0..count {
        lists.push(Seq::new(alloc))?;
    }
    Ok(lists)
}

/// Adds an item to the list with a number, where there is one.
pub(crate) fn add<T: Drop>(lists: &mut Seq<Seq<T>>, number: u32, item: T) -> Result<(), NoMemory>
    ensures { OnOk result (lists.new ≡ with_item lists.old number item) }
{
    let place = number as usize;
    if place >= lists.len() {
        return Ok(());
    }
    let list = &mut lists.items[place];
    list.push(item)?;
    Ok(())
}

/// The list with a number, and an empty one where there is none.
pub(crate) fn list_at<T>(lists: &Seq<Seq<T>>, number: u32) -> &[T] {
    match lists.as_slice().get(number as usize) {
        Some(list) => list.as_slice(),
        None => &[],
    }
}

/// The place of each meet among all meets, by its slot.
fn places_of(alloc: Global, slots: u32, meets: &[Meet]) -> Result<Vec<u32>, NoMemory> {
    let mut places = vec![in alloc; u32::MAX; slots as usize]?;
    let mut place = 0u32;
    for meet in meets {
        let slot = meet.meet.0 as usize;
        if slot < places.len() {
            places[slot] = place;
        }
        place = place.saturating_add(1);
    }
    Ok(places)
}

/// Adds the times of a meet to those of a resource.
fn add_runs(
    runs: &mut Seq<Seq<Run>>,
    resource: ResourceId,
    start: TimeId,
    duration: u32,
    meet: u32,
) -> Result<(), NoMemory> {
    for offset in 0..duration {
        let time = start.0.saturating_add(offset);
        add(runs, resource.0, Run { time, meet })?;
    }
    Ok(())
}

/// Adds what each task says: what its meet is given, and when its resource is busy.
fn take(
    given: &mut Seq<Seq<Given>>,
    runs: &mut Seq<Seq<Run>>,
    plain: &Plain,
    places: &[u32],
) -> Result<(), NoMemory> {
    let meets = plain.meets.as_slice();
    for task in plain.tasks.as_slice() {
        let meet = match places.get(task.task.meet.0 as usize) {
            Some(place) => *place,
            None => u32::MAX,
        };
        let Some(held) = meets.get(meet as usize) else {
            continue;
        };
        add(
            given,
            meet,
            Given {
                place: task.task.place,
                resource: task.resource,
            },
        )?;
        if let Some(resource) = task.resource {
            if let Some(start) = held.start {
                add_runs(runs, resource, start, held.duration, meet)?;
            }
        }
    }
    Ok(())
}

/// When each resource is busy, and what each meet is given, by the tasks of a timetable.
fn taken(
    alloc: Global,
    inst: &Instance,
    plain: &Plain,
) -> Result<(Seq<Seq<Given>>, Seq<Seq<Run>>), NoMemory> {
    let meets = plain.meets.as_slice();
    let places = places_of(alloc, inst.meet_slots(), meets)?;
    let given = empty_lists(alloc, meets.len());
    let runs = empty_lists(alloc, inst.resources() as usize);
    let (mut given, mut runs) = both(given, runs)?;
    let took = take(&mut given, &mut runs, plain, places.as_slice());
    took.and(Ok((given, runs)))
}

/// The numbers of the monitors on each resource.
fn watched_by(alloc: Global, inst: &Instance) -> Result<Seq<Seq<u32>>, NoMemory> {
    let mut watched = empty_lists(alloc, inst.resources() as usize)?;
    for number in 0..inst.monitors() {
        if let Point::Resource(resource) = inst.monitor(MonitorId(number)).point {
            add(&mut watched, resource.0, number)?;
        }
    }
    Ok(watched)
}

/// The places of the meets of each event.
fn parts_of(alloc: Global, inst: &Instance, meets: &[Meet]) -> Result<Seq<Seq<u32>>, NoMemory> {
    let mut parts = empty_lists(alloc, inst.events() as usize)?;
    let mut place = 0u32;
    for meet in meets {
        add(&mut parts, meet.event.0, place)?;
        place = place.saturating_add(1);
    }
    Ok(parts)
}

/// What a timetable says of each resource, each meet and each event. It takes time and memory in proportion to the
/// meet slots, the tasks and the times that they cover, the resources, the events and the monitors.
pub(crate) fn timetable_of(
    alloc: Global,
    inst: &Instance,
    plain: &Plain,
) -> Result<Timetable, NoMemory> {
    let watched = watched_by(alloc, inst);
    let parts = parts_of(alloc, inst, plain.meets.as_slice());
    let ((given, runs), (watched, parts)) = both(taken(alloc, inst, plain), both(watched, parts))?;
    Ok(Timetable {
        given,
        runs,
        watched,
        parts,
    })
}

/// The meets of a resource at each time, by their places.
#[derive(Drop)]
pub(crate) struct Cells {
    /// Of each time, where its meets end in the list.
    ends: Vec<usize>,
    meets: Vec<u32>,
}

impl Cells {
    /// How many times there are.
    fn times(&self) -> usize {
        self.ends.len()
    }

    /// The places of the meets at a time. It takes constant time.
    pub(crate) fn at(&self, time: u32) -> &[u32] {
        let time = time as usize;
        let end = self.ends.get(time).copied().unwrap_or(0);
        let start = if time == 0 {
            0
        } else {
            self.ends.get(time - 1).copied().unwrap_or(end)
        };
        if start > end || end > self.meets.len() {
            return &[];
        }
        &self.meets.as_slice()[start..end]
    }
}

/// How many times a resource is busy before each time: where the meets of that time begin.
fn beginnings(alloc: Global, times: u32, runs: &[Run]) -> Result<Vec<usize>, NoMemory> {
    let mut starts = vec![in alloc; 0usize; times as usize]?;
    for run in runs {
        let time = run.time as usize;
        if time < starts.len() {
            starts[time] = starts[time].saturating_add(1);
        }
    }
    let mut before = 0usize;
    for time in 0..starts.len() {
        let here = starts[time];
        starts[time] = before;
        before = before.saturating_add(here);
    }
    Ok(starts)
}

/// The meets of a resource at each time.
fn cells_of(alloc: Global, times: u32, runs: &[Run]) -> Result<Cells, NoMemory> {
    let mut ends = beginnings(alloc, times, runs)?;
    let mut meets = vec![in alloc; 0u32; runs.len()]?;
    for run in runs {
        let time = run.time as usize;
        if time < ends.len() {
            let place = ends[time];
            if place < meets.len() {
                meets[place] = run.meet;
                ends[time] = place + 1;
            }
        }
    }
    Ok(Cells { ends, meets })
}

/// What the monitors of one kind say of a time of their resource.
#[derive(Clone, Copy)]
pub(crate) struct Said {
    /// Whether a monitor is about the time, whether or not it deviates.
    pub any: bool,
    /// The first monitor about the time that deviates.
    pub defect: Option<u32>,
}

/// What the monitors of a resource say of its times.
#[derive(Drop)]
pub(crate) struct Marks {
    /// Of each time, whether the resource is to be free then.
    pub closed: Vec<Said>,
    /// Of each time, whether the resource is idle then.
    pub idle: Vec<Said>,
    /// The first monitor of clashes that deviates: it is about each time that has more than one meet.
    pub clash: Option<u32>,
}

/// Adds that a monitor is about a time, with its number where it deviates.
fn say(said: &mut Vec<Said>, time: usize, defect: Option<u32>) {
    if time < said.len() {
        let first = said[time].defect;
        said[time] = Said {
            any: true,
            defect: first.or(defect),
        };
    }
}

/// Marks the times that a resource is to be free at.
fn mark_closed(closed: &mut Vec<Said>, times: &IdSet, defect: Option<u32>) {
    for time in 0..closed.len() {
        if u32::try_from(time).is_ok_and(|time| times.has(time)) {
            say(closed, time, defect);
        }
    }
}

/// Marks the idle times of a resource in a time group: it is not busy then, but before and after in the group.
fn mark_idle(
    alloc: Global,
    idle: &mut Vec<Said>,
    group: &IdSet,
    cells: &Cells,
    defect: Option<u32>,
) -> Result<(), NoMemory> {
    let members = group.members(alloc)?;
    mark_between(idle, members.as_slice(), cells, defect);
    Ok(())
}

/// Marks those of some times that have no meets, between the first and the last that have.
fn mark_between(idle: &mut Vec<Said>, times: &[u32], cells: &Cells, defect: Option<u32>) {
    let busy = |time: &&u32| !cells.at(**time).is_empty();
    let Some(first) = times.iter().find(busy) else {
        return;
    };
    let Some(last) = times.iter().rev().find(busy) else {
        return;
    };
    for time in times {
        if first < time && time < last && cells.at(*time).is_empty() {
            say(idle, *time as usize, defect);
        }
    }
}

/// What the monitors of a resource say of its times, by their numbers.
fn marks_of(
    alloc: Global,
    inst: &Instance,
    monitors: &[u32],
    deviations: &[u64],
    cells: &Cells,
) -> Result<Marks, NoMemory> {
    let nothing = Said {
        any: false,
        defect: None,
    };
    let closed = vec![in alloc; nothing; cells.times()]?;
    let idle = vec![in alloc; nothing; cells.times()]?;
    let mut marks = Marks {
        closed,
        idle,
        clash: None,
    };
    let marked = mark(alloc, &mut marks, inst, monitors, deviations, cells);
    marked.and(Ok(marks))
}

/// Marks what these monitors say.
fn mark(
    alloc: Global,
    marks: &mut Marks,
    inst: &Instance,
    monitors: &[u32],
    deviations: &[u64],
    cells: &Cells,
) -> Result<(), NoMemory> {
    for number in monitors {
        if *number < inst.monitors() {
            let constraint = inst.monitor(MonitorId(*number)).constraint;
            let defect = defect_of(*number, deviations);
            mark_by(alloc, marks, inst, constraint, defect, cells)?;
        }
    }
    Ok(())
}

/// The number of a monitor, where it deviates.
fn defect_of(number: u32, deviations: &[u64]) -> Option<u32> {
    match deviations.get(number as usize) {
        Some(deviation) if *deviation > 0 => Some(number),
        _ => None,
    }
}

/// Marks what a monitor of one constraint says of a resource's times.
fn mark_by(
    alloc: Global,
    marks: &mut Marks,
    inst: &Instance,
    constraint: u32,
    defect: Option<u32>,
    cells: &Cells,
) -> Result<(), NoMemory> {
    if constraint >= inst.constraints() {
        return Ok(());
    }
    match &inst.constraint(constraint).rule {
        Rule::AvoidClashes => marks.clash = marks.clash.or(defect),
        Rule::AvoidUnavailableTimes { times } => mark_closed(&mut marks.closed, times, defect),
        Rule::LimitIdleTimes { groups, .. } => {
            for group in groups.as_slice() {
                mark_idle(alloc, &mut marks.idle, group, cells, defect)?;
            }
        }
        _ => {}
    }
    Ok(())
}

/// The meets of a resource at each time, by their places, and what these monitors say of its times. A monitor deviates
/// by its place among the deviations, and one without a place does not.
pub(crate) fn marked_cells(
    alloc: Global,
    inst: &Instance,
    runs: &[Run],
    monitors: &[u32],
    deviations: &[u64],
) -> Result<(Marks, Cells), NoMemory> {
    let cells = cells_of(alloc, inst.times(), runs)?;
    let marks = marks_of(alloc, inst, monitors, deviations, &cells);
    beside(marks, cells)
}

/// What monitors of one kind say of a time.
pub(crate) fn said_of(said: &[Said], time: u32) -> Said {
    match said.get(time as usize) {
        Some(said) => *said,
        None => Said {
            any: false,
            defect: None,
        },
    }
}

/// The kind of a monitor that cares for when a resource is busy: its cells are listed with it.
pub(crate) fn has_cells(kind: Kind) -> bool {
    matches!(
        kind,
        Kind::AvoidClashes | Kind::AvoidUnavailableTimes | Kind::LimitIdleTimes
    )
}
