//! What is seen of a timetable: its live meets and what their places are given.

use crate::moves::{Move, task};
use crate::watched_solutions::Hand;
use khe_base::{EventId, MeetId, ResourceId, TaskId, TimeId};
use khe_instance::Meet;
use khe_told::Change;

/// A live meet: its number, its event, its duration, its start, and what each of its places is
/// given.
pub(crate) type Sight = (u32, u32, u32, Option<u32>, &'static [Option<u32>]);

/// Whether these are the live meets, and their tasks, and the tasks that are found by what they are
/// given.
pub(crate) fn shows(hand: &Hand<'_>, sights: &[Sight]) -> bool {
    let inst = hand.instance();
    let slots = inst.meet_slots();
    let resources = inst.resources();
    shows_meets(hand, sights, slots)
        && shows_tasks(hand, sights)
        && finds_all(hand, sights, resources)
}

/// Whether these are the live meets, and no slot up to one after the last has another.
fn shows_meets(hand: &Hand<'_>, sights: &[Sight], slots: u32) -> bool {
    for number in 0..=slots {
        if hand.meet(number) != meet_in(sights, number) {
            return false;
        }
    }
    true
}

/// The meet with this number, if it is among these.
fn meet_in(sights: &[Sight], number: u32) -> Option<Meet> {
    for sight in sights {
        let (meet, event, duration, start, _) = *sight;
        if meet == number {
            return Some(Meet {
                meet: MeetId(meet),
                event: EventId(event),
                duration,
                start: start.map(TimeId),
            });
        }
    }
    None
}

/// Whether the places of these meets are given what stands here, and there are no more places.
fn shows_tasks(hand: &Hand<'_>, sights: &[Sight]) -> bool {
    for sight in sights {
        let (meet, _, _, _, given) = *sight;
        if !shows_given(hand, meet, given) {
            return false;
        }
    }
    true
}

fn shows_given(hand: &Hand<'_>, meet: u32, all: &[Option<u32>]) -> bool {
    let mut place = 0u32;
    for given in all {
        if hand.given(task(meet, place)) != Some(given.map(ResourceId)) {
            return false;
        }
        place = place.saturating_add(1);
    }
    hand.given(task(meet, place)).is_none()
}

/// Whether the tasks with each resource, and those without one, are found one after the other.
fn finds_all(hand: &Hand<'_>, sights: &[Sight], resources: u32) -> bool {
    for resource in 0..resources {
        if !finds(hand, sights, Some(resource)) {
            return false;
        }
    }
    finds(hand, sights, None)
}

/// Whether the tasks that are given this are found one after the other, and no others.
fn finds(hand: &Hand<'_>, sights: &[Sight], wanted: Option<u32>) -> bool {
    let mut from = Some(task(0, 0));
    for sight in sights {
        let (meet, _, _, _, given) = *sight;
        from = found(hand, (meet, given), wanted, from);
    }
    match from {
        Some(last) => hand.next_task(wanted.map(ResourceId), last).is_none(),
        None => false,
    }
}

/// The task after the last of a meet's that are given this, if each was the next one to be found;
/// and `from` itself where there are none.
fn found(
    hand: &Hand<'_>,
    (meet, all): (u32, &[Option<u32>]),
    wanted: Option<u32>,
    from: Option<TaskId>,
) -> Option<TaskId> {
    let mut from = from?;
    let mut place = 0u32;
    for given in all {
        let next = place.saturating_add(1);
        if *given == wanted {
            if hand.next_task(wanted.map(ResourceId), from) != Some(task(meet, place)) {
                return None;
            }
            from = task(meet, next);
        }
        place = next;
    }
    Some(from)
}

/// Whether these are the changes that were noted last, in this order.
pub(crate) fn heard(hand: &Hand<'_>, moves: &[Move]) -> bool {
    let heard = hand.heard();
    heard.len() == moves.len()
        && heard
            .iter()
            .zip(moves.iter())
            .all(|(change, each)| is_change(change, *each))
}

/// Whether their inverses were, the last one's first.
pub(crate) fn heard_back(hand: &Hand<'_>, moves: &[Move]) -> bool {
    let heard = hand.heard();
    heard.len() == moves.len()
        && heard
            .iter()
            .zip(moves.iter().rev())
            .all(|(change, each)| is_change(change, each.inverse()))
}

fn is_change(change: &Change, each: Move) -> bool {
    *change == each.change()
}
