//! Constructing a timetable of an instance.

ghost use Rattle.std.specs.Prelude.{◌≡◌, ◌<◌, All, IfOk, IfSome, [], length};
ghost use Rattle.std.specs.Option.{option_map_or};
ghost use Rattle.construct.specs.Choices.{IsMove};
ghost use Rattle.construct.specs.Constructed.{IsBuilt, constructed, staffed, timed};
ghost use Rattle.construct.specs.Orders.{order, tasks_of};
ghost use Rattle.khe_engine.specs.Openings.{IsStateOf};
ghost use Rattle.khe_engine.specs.States.{edited};
ghost use Rattle.khe_engine.specs.Values.{ServesAll, totals};
ghost use Rattle.khe_instance.specs.Slots.{slot_tasks};
ghost use Rattle.khe_instance.specs.States.{IsValid};
ghost use Rattle.khe_told.specs.Slots.{slot_at};

use crate::beginning::begin;
use crate::built::Built;
use crate::choosing::{best_resource, best_time};
use crate::ordering::order;
use khe_base::{MeetId, NoMemory, TaskId};
use khe_engine::Engine;
use khe_instance::Instance;
use khe_told::{Edit, Family, Steps};
use std::alloc::Global;
use std::sync::ledger::Ledger;

/// Constructs a timetable of an instance. Each event without a preassigned time is cut into the least number of
/// meets that all its Split Events constraints allow, as even as can be, and stays one meet where there is no
/// such number; all that is preassigned is there. Then each meet without a start, the longest first and then by
/// number, is assigned to the time that leaves the least totals, the first of several, if these are lower than
/// the totals without; and after that each task without a resource, in the same order of meets and then by
/// place, is given a resource of its type in the same way. All monitors are attached, and there are no groups.
///
/// It fails only where memory is refused. It opens an engine, and asks it for each meet and each time at which
/// the meet doesn't end too late what the assignment would leave, and for each task and each resource of its
/// type: so it takes at most twice the time of as many tries of repair. Besides, each meet takes a test for
/// each time, each task one for each resource, and the order of the meets takes time in proportion to the meet
/// slots for each duration that a meet has.
pub fn construct<F: Family + Drop, L: Ledger>(
    alloc: Global,
    inst: &Instance,
    steps: &mut Steps<L>,
) -> Result<Built, NoMemory>
    requires joined { F.IsWellJoined }
    requires serves { ServesAll F.serves_kind }
    ensures built { IfOk result (IsBuilt inst.now) }
    ensures valid { IfOk result (λ b. IsValid inst.now b.plain) }
{
    inst.facts();
    let plain = begin(alloc, inst)?;
    let mut engine = Engine::<F>::open(alloc, inst, &plain)?;
    build(alloc, &mut engine, steps)
}

/// Constructs a timetable on an engine of the one that it begins with.
fn build<F: Family, L: Ledger>(
    alloc: Global,
    engine: &mut Engine<'_, F>,
    steps: &mut Steps<L>,
) -> Result<Built, NoMemory>
    requires marks { engine.old.saved ≡ [] }
    ensures listed { IfOk result (λ b. IsStateOf engine.old.parts b.plain (constructed engine.old.parts engine.old.state)) }
    ensures totals { IfOk result (λ b. b.totals ≡ totals engine.old.parts (constructed engine.old.parts engine.old.state)) }
    ensures valid { IfOk result (λ b. IsValid engine.old.parts b.plain) }
{
    let meets = order(alloc, engine.instance(), engine.solution())?;
    settle(engine, meets.as_slice(), steps);
    Ok(Built {
        totals: engine.totals(),
        plain: engine.plain(alloc)?,
    })
}

/// All meets have their turn, and then all tasks.
fn settle<F: Family, L: Ledger>(engine: &mut Engine<'_, F>, meets: &[u32], steps: &mut Steps<L>)
    requires order { meets.now ≡ order engine.old.state.slots }
    requires marks { engine.old.saved ≡ [] }
    ensures state { engine.new.state ≡ constructed engine.old.parts engine.old.state }
    ensures parts { engine.new.parts ≡ engine.old.parts }
{
    engine.solution().facts();
    assign_all(engine, meets, steps);
    engine.solution().facts();
    give_all(engine, meets, steps);
}

/// Makes the edit that was found, if one was.
fn make<F: Family, L: Ledger>(engine: &mut Engine<'_, F>, found: Option<Edit>, steps: &mut Steps<L>)
    requires move_ { IfSome found (IsMove engine.old.parts engine.old.state) }
    requires marks { engine.old.saved ≡ [] }
    ensures state { engine.new.state ≡ option_map_or (edited engine.old.state) found engine.old.state }
    ensures parts { engine.new.parts ≡ engine.old.parts }
    ensures marks { engine.new.saved ≡ [] }
{
    let Some(edit) = found else {
        return;
    };
    let Ok(_) = engine.edit(edit, steps) else {
        unreachable!()
    };
}

/// Each meet in turn gets its best time.
fn assign_all<F: Family, L: Ledger>(engine: &mut Engine<'_, F>, meets: &[u32], steps: &mut Steps<L>)
    requires marks { engine.old.saved ≡ [] }
    ensures state { engine.new.state ≡ timed engine.old.parts engine.old.state meets.now }
    ensures parts { engine.new.parts ≡ engine.old.parts }
    ensures marks { engine.new.saved ≡ [] }
{
    for meet in meets {
        let found = best_time(engine, MeetId(*meet));
        make(engine, found, steps);
    }
}

/// Each task of the meets in turn gets its best resource.
fn give_all<F: Family, L: Ledger>(engine: &mut Engine<'_, F>, meets: &[u32], steps: &mut Steps<L>)
    requires marks { engine.old.saved ≡ [] }
    requires slots { All (λ m. m < length engine.old.state.slots) meets.now }
    ensures state { engine.new.state ≡ staffed engine.old.parts engine.old.state (tasks_of engine.old.state.slots meets.now) }
    ensures parts { engine.new.parts ≡ engine.old.parts }
{
    engine.solution().facts();
    for meet in meets {
        engine.solution().facts();
        give_meet(engine, MeetId(*meet), steps);
    }
}

/// Each task of a meet in turn gets its best resource.
fn give_meet<F: Family, L: Ledger>(engine: &mut Engine<'_, F>, meet: MeetId, steps: &mut Steps<L>)
    requires marks { engine.old.saved ≡ [] }
    requires slot { meet.0 < length engine.old.state.slots }
    ensures state { engine.new.state ≡ staffed engine.old.parts engine.old.state (slot_tasks meet.0 (length (slot_at engine.old.state.slots meet.0).given)) }
    ensures parts { engine.new.parts ≡ engine.old.parts }
    ensures marks { engine.new.saved ≡ [] }
{
    for place in 0..places_of(engine, meet) {
        let found = best_resource(engine, TaskId { meet, place });
        make(engine, found, steps);
    }
}

/// How many places the event of a slot has.
fn places_of<F: Family>(engine: &Engine<'_, F>, meet: MeetId) -> u32
    requires { meet.0 < length engine.now.state.slots }
    ensures { result ≡ length (slot_at engine.now.state.slots meet.0).given }
{
    let inst = engine.instance();
    inst.facts();
    engine.solution().facts();
    inst.event(inst.event_of(meet)).places.len() as u32
}
