//! What is drawn for a job, before it is written out as an archive.

ghost use Rattle.std.specs.Prelude.{◌≡◌, ◌≤◌, ◌++◌, All, IsTrue, OnOk, IfOk};
ghost use Rattle.archive_generator.specs.Job as spec;

use crate::draws::Draws;
use crate::lists::roomy;
use crate::sizes::{rooms, teachers};
use khe_base::{NoMemory, Seq, beside};
use std::alloc::Global;

/// How many times there are: five days of eight times each.
const TIMES: u32 = 40;

/// How many solutions there are.
const SOLUTIONS: u32 = 4;

/// An event.
#[derive(Clone, Copy)]
pub struct DrawnEvent {
    /// Its number, from 0 in order.
    pub number: u32,
    /// In times, from 1 to 3.
    pub duration: u32,
    /// The number of its preassigned time, if it has one: from 0 to 40 less its duration.
    pub time: Option<u32>,
}

/// What a solution says of a part of an event.
#[derive(Clone, Copy)]
pub struct DrawnEntry {
    /// The number of the event.
    pub event: u32,
    /// In times, from 1 to 3.
    pub duration: u32,
    /// The number of its time, if it has one: from 0 to 40 less its duration, and none where the event has a
    /// preassigned time.
    pub time: Option<u32>,
    /// The number of its teacher, if it has one, below the number of teachers.
    pub teacher: Option<u32>,
    /// The number of its room, if it has one, below the number of rooms.
    pub room: Option<u32>,
}

/// The events of a job, and the entries of its solutions.
#[derive(Drop)]
pub struct DrawnJob {
    /// In the order of their numbers.
    pub events: Seq<DrawnEvent>,
    /// The entries of each solution, event by event.
    pub solutions: Seq<Seq<DrawnEntry>>,
}

/// The preassigned time of an event of a duration: each twentieth event has one. It is early enough for the
/// event to end with the last time.
#[tactic(auto, unfolding(crate::specs::Job::fixed_time))]
fn draw_fixed_time(draws: &mut Draws, number: u32, duration: u32) -> Option<u32>
    requires { duration ≤ 3 }
    ensures value { result ≡ (spec.fixed_time number duration draws.old.state).0 }
    ensures state { draws.new.state ≡ (spec.fixed_time number duration draws.old.state).1 }
{
    if number % 20 != 19 {
        return None;
    }
    Some(draws.draw(TIMES + 1 - duration))
}

/// An event, which lasts 1 to 3 times.
#[tactic(auto, unfolding(crate::specs::Job::event))]
fn draw_event(draws: &mut Draws, number: u32) -> DrawnEvent
    ensures value { result ≡ (spec.event number draws.old.state).0 }
    ensures state { draws.new.state ≡ (spec.event number draws.old.state).1 }
    ensures short { result.duration ≤ 3 }
{
    let duration = 1 + draws.draw(3);
    let time = draw_fixed_time(draws, number, duration);
    DrawnEvent {
        number,
        duration,
        time,
    }
}

/// All events.
#[tactic(auto, unfolding(crate::specs::Job::events))]
fn draw_events(alloc: Global, draws: &mut Draws, size: u32) -> Result<Seq<DrawnEvent>, NoMemory>
    ensures value { IfOk result (λ events. events ≡ (spec.events size draws.old.state).0) }
    ensures state { OnOk result (draws.new.state ≡ (spec.events size draws.old.state).1) }
    ensures short { IfOk result (λ events. All (λ e. e.duration ≤ 3) events) }
{
    let mut events = roomy(alloc, size as usize)?;
    for number in 0..size {
        events.push(draw_event(draws, number))?;
    }
    Ok(events)
}

/// Whether a solution gives an event in two parts: a draw decides, for events of at least 2 times without a
/// preassigned time.
#[tactic(auto, unfolding(crate::specs::Job::is_cut))]
fn draw_cut(draws: &mut Draws, event: DrawnEvent) -> bool
    ensures value { result ≡ (spec.is_cut event draws.old.state).0 }
    ensures state { draws.new.state ≡ (spec.is_cut event draws.old.state).1 }
    ensures long { IsTrue result → 2 ≤ event.duration }
{
    if event.time.is_some() || event.duration < 2 {
        return false;
    }
    draws.draw(2) == 1
}

/// The time of a part of an event, of a duration, if it is given one: none where the event's is preassigned.
#[tactic(auto, unfolding(crate::specs::Job::start))]
fn draw_start(draws: &mut Draws, event: DrawnEvent, duration: u32) -> Option<u32>
    requires { duration ≤ 3 }
    ensures value { result ≡ (spec.start event duration draws.old.state).0 }
    ensures state { draws.new.state ≡ (spec.start event duration draws.old.state).1 }
{
    if event.time.is_some() {
        return None;
    }
    draws.perhaps(TIMES + 1 - duration)
}

/// An entry for a part of an event, of a duration.
#[tactic(auto, unfolding(crate::specs::Job::entry))]
fn draw_entry(draws: &mut Draws, size: u32, event: DrawnEvent, duration: u32) -> DrawnEntry
    requires { duration ≤ 3 }
    ensures value { result ≡ (spec.entry size event duration draws.old.state).0 }
    ensures state { draws.new.state ≡ (spec.entry size event duration draws.old.state).1 }
{
    let time = draw_start(draws, event, duration);
    let teacher = draws.perhaps(teachers(size));
    let room = draws.perhaps(rooms(size));
    DrawnEntry {
        event: event.number,
        duration,
        time,
        teacher,
        room,
    }
}

/// The entries for an event.
#[tactic(auto, unfolding(crate::specs::Job::entries, crate::specs::Job::cut_entries, crate::specs::Job::whole_entry))]
fn draw_entries(
    draws: &mut Draws,
    size: u32,
    event: DrawnEvent,
    entries: &mut Seq<DrawnEntry>,
) -> Result<(), NoMemory>
    requires { event.duration ≤ 3 }
    ensures value { OnOk result (entries.new ≡ entries.old ++ (spec.entries size event draws.old.state).0) }
    ensures state { OnOk result (draws.new.state ≡ (spec.entries size event draws.old.state).1) }
{
    if !draw_cut(draws, event) {
        return entries.push(draw_entry(draws, size, event, event.duration));
    }
    entries.push(draw_entry(draws, size, event, 1))?;
    entries.push(draw_entry(draws, size, event, event.duration - 1))
}

/// The entries of a solution.
#[tactic(auto, using(crate::proofs::ListLemmas::gathered_value, crate::proofs::ListLemmas::gathered_state), unfolding(crate::specs::Job::solution))]
fn draw_solution(
    alloc: Global,
    draws: &mut Draws,
    size: u32,
    events: &[DrawnEvent],
) -> Result<Seq<DrawnEntry>, NoMemory>
    requires { All (λ e. e.duration ≤ 3) events.now }
    ensures value { IfOk result (λ entries. entries ≡ (spec.solution size events.now draws.old.state).0) }
    ensures state { OnOk result (draws.new.state ≡ (spec.solution size events.now draws.old.state).1) }
{
    let mut entries = Seq::new(alloc);
    for event in events {
        draw_entries(draws, size, *event, &mut entries)?;
    }
    Ok(entries)
}

/// All solutions.
#[tactic(auto, unfolding(crate::specs::Job::solutions))]
fn draw_solutions(
    alloc: Global,
    draws: &mut Draws,
    size: u32,
    events: &[DrawnEvent],
) -> Result<Seq<Seq<DrawnEntry>>, NoMemory>
    requires { All (λ e. e.duration ≤ 3) events.now }
    ensures value { IfOk result (λ all. all ≡ (spec.solutions size events.now draws.old.state).0) }
    ensures state { OnOk result (draws.new.state ≡ (spec.solutions size events.now draws.old.state).1) }
{
    let mut solutions = roomy(alloc, SOLUTIONS as usize)?;
    for number in 0..SOLUTIONS {
        solutions.push(draw_solution(alloc, draws, size, events)?)?;
    }
    Ok(solutions)
}

/// All events, and then all solutions.
#[tactic(auto, unfolding(crate::specs::Job::job))]
pub(crate) fn draw_job(alloc: Global, draws: &mut Draws, size: u32) -> Result<DrawnJob, NoMemory>
    ensures value { IfOk result (λ job. job ≡ (spec.job size draws.old.state).0) }
    ensures state { OnOk result (draws.new.state ≡ (spec.job size draws.old.state).1) }
{
    let events = draw_events(alloc, draws, size)?;
    let solutions = draw_solutions(alloc, draws, size, events.as_slice());
    let (solutions, events) = beside(solutions, events)?;
    Ok(DrawnJob { events, solutions })
}
