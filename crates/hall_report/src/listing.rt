//! The demands whose numbers are marked, in order.

ghost use Rattle.std.specs.Prelude.{◌≡◌, ◌<◌, ◌+◌, ◌++◌, ◌^◌, ◌∷◌, [], if◌then◌else◌, length, map, OnOk};
ghost use Rattle.std.specs.List.{filter, flat_map, range_with_len};
ghost use Rattle.khe_base.specs.IdSet.{has_member};
ghost use Rattle.khe_told.specs.Slots.{slot_at, length_of};
ghost use Rattle.hall_report.specs.Demands.{chosen, task_demands, slot_demands};
ghost use Rattle.hall_report.specs.Kept.{cell_demand};
ghost use Rattle.hall_report.specs.Listing.{IsReadable, AreReadable, is_marked};
ghost use Rattle.hall_report.specs.declared.demand.Demand.TheVariants.{Task};

use crate::Demand;
use crate::units::Units;
use khe_base::{IdSet, MeetId, NoMemory, ResourceId, Seq, TimeId};
use khe_told::Told;

/// Adds the marked demands of tasks, by meet, place and offset. It takes time in proportion to the
/// demands of all tasks.
pub(crate) fn list_tasks(
    list: &mut Seq<Demand>,
    told: &Told,
    units: &Units,
    marks: &IdSet,
) -> Result<(), NoMemory>
    requires few { length told.now < 2 ^ 32 }
    requires readable { AreReadable units.now told.now }
    ensures { OnOk result (list.new ≡ list.old ++ filter (is_marked units.now marks.now) (task_demands told.now)) }
{
    for number in 0..told.len() as u32 {
        list_slot(list, told, units, marks, MeetId(number))?;
    }
    Ok(())
}

// Those of a slot.
fn list_slot(
    list: &mut Seq<Demand>,
    told: &Told,
    units: &Units,
    marks: &IdSet,
    meet: MeetId,
) -> Result<(), NoMemory>
    requires meet { (slot_at told.now meet.0).meet.0 ≡ meet.0 }
    requires readable { IsReadable units.now meet.0 (length (slot_at told.now meet.0).given) (length_of (slot_at told.now meet.0)) }
    ensures { OnOk result (list.new ≡ list.old ++ filter (is_marked units.now marks.now) (slot_demands (slot_at told.now meet.0))) }
{
    let Some(span) = told.span(meet) else {
        return Ok(());
    };
    let places = told.given(meet).len() as u32;
    list_meet(list, units, marks, meet, places, span.duration)
}

// Those of a meet.
fn list_meet(
    list: &mut Seq<Demand>,
    units: &Units,
    marks: &IdSet,
    meet: MeetId,
    places: u32,
    duration: u32,
) -> Result<(), NoMemory>
    requires { IsReadable units.now meet.0 places duration }
    ensures { OnOk result (list.new ≡ list.old ++ filter (is_marked units.now marks.now) (flat_map (λ k. map (λ o. Task meet k o) (range_with_len 0 duration)) (range_with_len 0 places))) }
{
    if duration == 1 {
        return list_single(list, units, marks, meet, places);
    }
    for place in 0..places {
        list_place(list, units, marks, meet, place, duration)?;
    }
    Ok(())
}

// Those of a meet that lasts one time: they are in a row, one for each place.
fn list_single(
    list: &mut Seq<Demand>,
    units: &Units,
    marks: &IdSet,
    meet: MeetId,
    places: u32,
) -> Result<(), NoMemory>
    requires { IsReadable units.now meet.0 places 1 }
    ensures { OnOk result (list.new ≡ list.old ++ filter (is_marked units.now marks.now)
        (flat_map (λ k. map (λ o. Task meet k o) (range_with_len 0 1)) (range_with_len 0 places))) }
{
    let first = units.first_demand(units.first(meet));
    for place in 0..places {
        if marks.has(first + place) {
            list.push(Demand::Task {
                meet,
                place,
                offset: 0,
            })?;
        }
    }
    Ok(())
}

// Those of a place of a meet.
fn list_place(
    list: &mut Seq<Demand>,
    units: &Units,
    marks: &IdSet,
    meet: MeetId,
    place: u32,
    duration: u32,
) -> Result<(), NoMemory>
    requires { IsReadable units.now meet.0 (place + 1) duration }
    ensures { OnOk result (list.new ≡ list.old ++ filter (is_marked units.now marks.now) (map (λ o. Task meet place o) (range_with_len 0 duration))) }
{
    let mut unit = units.first(meet);
    for offset in 0..duration {
        let is_marked = marks.has(units.first_demand(unit) + place);
        let demand = Demand::Task {
            meet,
            place,
            offset,
        };
        push_if(list, is_marked, demand)?;
        unit = units.next(unit);
    }
    Ok(())
}

/// Adds the marked demands for cells, of which the first has this number. A cell's number is that of
/// its resource times the number of all times, and that of its time. It takes time in proportion to
/// the cells.
pub(crate) fn list_cells(
    list: &mut Seq<Demand>,
    cells: &[u32],
    times: u32,
    first: u32,
    marks: &IdSet,
) -> Result<(), NoMemory>
    requires few { first + length cells.now < 2 ^ 32 }
    requires times { 0 < length cells.now → 0 < times }
    ensures { OnOk result (list.new ≡ list.old ++ chosen (λ i. has_member marks.now (first + i)) 0 (map (cell_demand times) cells.now)) }
{
    for (more, cell) in cells.iter().enumerate() {
        let is_marked = marks.has(first + more as u32);
        let demand = Demand::Unavailable {
            resource: ResourceId(*cell / times),
            time: TimeId(*cell % times),
        };
        push_if(list, is_marked, demand)?;
    }
    Ok(())
}

// Adds a demand, if it is wanted.
fn push_if(list: &mut Seq<Demand>, is_wanted: bool, demand: Demand) -> Result<(), NoMemory>
    ensures { OnOk result (list.new ≡ list.old ++ (if is_wanted then demand ∷ [] else [])) }
{
    if is_wanted {
        list.push(demand)?;
    }
    Ok(())
}
