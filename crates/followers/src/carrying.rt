//! Followers that go with their leader, edit by edit of the engine.

ghost use Rattle.std.specs.Prelude.{◌≡◌, ◌+◌, ◌<◌, ◌^◌, None, false, length, IfSome};
ghost use Rattle.khe_engine.specs.States.{edited, made, refusal};
ghost use Rattle.khe_solution.specs.Editing.{later, timed};
ghost use Rattle.monitor_graph.specs.Edits.{adds_child};
ghost use Rattle.followers.specs.Carrying.{AreCarried, MayCarry, MayPut};
ghost use Rattle.followers.specs.Links.{AreLinked, count_of};
ghost use Rattle.followers.specs.Records.{HasRoom, IsAfter};

use crate::table::{Links, Ties};
use khe_base::{MeetId, TimeId};
use khe_engine::Engine;
use khe_told::{Edit, Family, Steps};
use std::sync::ledger::Ledger;

/// Makes an accepted edit, for which there is room.
#[tactic(auto, using(crate::proofs::PutLaws::after_edit, crate::proofs::PutLaws::edit_goes))]
pub(crate) fn make<F: Family, L: Ledger>(
    engine: &mut Engine<'_, F>,
    edit: Edit,
    steps: &mut Steps<L>,
) -> Option<u32>
    requires accepted { refusal engine.old.parts engine.old.state edit ≡ None }
    requires sort { adds_child edit ≡ false }
    requires room { HasRoom 1 engine.old }
    ensures state { engine.new.state ≡ edited engine.old.state edit }
    ensures after { IsAfter 1 engine.old engine.new }
    ensures number { result ≡ made engine.old.state edit }
{
    let Ok(number) = engine.edit(edit, steps) else {
        unreachable!()
    };
    number
}

/// The start that is `offset` times later.
pub(crate) fn later(start: Option<TimeId>, offset: u32) -> Option<TimeId>
    requires { IfSome start (λ t. t.0 + offset < 2 ^ 32) }
    ensures { result ≡ later offset start }
{
    match start {
        Some(time) => Some(TimeId(time.0 + offset)),
        None => None,
    }
}

/// Gives a meet this start, or takes the one that it has, whichever it has now.
#[tactic(auto, using(crate::proofs::PutLaws::assign_ok, crate::proofs::PutLaws::unassign_ok, crate::proofs::PutLaws::move_ok, crate::proofs::PutLaws::assigned, crate::proofs::PutLaws::unassigned, crate::proofs::PutLaws::moved, crate::proofs::PutLaws::put_same, crate::proofs::PutLaws::after_none))]
pub(crate) fn put<F: Family, L: Ledger>(
    engine: &mut Engine<'_, F>,
    meet: MeetId,
    start: Option<TimeId>,
    steps: &mut Steps<L>,
)
    requires may { MayPut engine.old.parts engine.old.state.slots meet.0 start }
    requires room { HasRoom 1 engine.old }
    ensures slots { engine.new.state.slots ≡ timed engine.old.state.slots meet start }
    ensures grouping { engine.new.state.grouping ≡ engine.old.state.grouping }
    ensures after { IsAfter 1 engine.old engine.new }
{
    engine.solution().facts();
    let Some(own) = engine.solution().meet(meet) else {
        unreachable!()
    };
    match (own.start, start) {
        (None, Some(time)) => {
            make(engine, Edit::Assign { meet, time }, steps);
        }
        (Some(_), None) => {
            make(engine, Edit::Unassign { meet }, steps);
        }
        (Some(old), Some(time)) => {
            if old.0 != time.0 {
                make(engine, Edit::MoveTo { meet, time }, steps);
            }
        }
        (None, None) => {}
    }
}

/// Puts each follower of a leader at its place by this start of the leader. It takes the time of an edit of each.
#[tactic(auto, using(crate::proofs::CarryLaws::left_all, crate::proofs::CarryLaws::left_one, crate::proofs::CarryLaws::left_none, crate::proofs::CarryLaws::left_here, crate::proofs::CarryLaws::may_put, crate::proofs::PutLaws::room_here, crate::proofs::PutLaws::after_one, crate::proofs::PutLaws::after_more, crate::proofs::PutLaws::after_some))]
pub(crate) fn carry<F: Family, L: Ledger>(
    engine: &mut Engine<'_, F>,
    ties: &Ties,
    leader: MeetId,
    start: Option<TimeId>,
    steps: &mut Steps<L>,
)
    requires there { leader.0 < length ties.now }
    requires long { length engine.old.state.slots ≡ length ties.now }
    requires may { MayCarry engine.old.parts engine.old.state.slots ties.now leader.0 start }
    requires room { HasRoom (count_of ties.now leader.0) engine.old }
    ensures carried { AreCarried ties.now leader.0 start engine.old.state.slots engine.new.state.slots }
    ensures grouping { engine.new.state.grouping ≡ engine.old.state.grouping }
    ensures after { IsAfter (count_of ties.now leader.0) engine.old engine.new }
{
    let links = ties.links();
    carry_all(engine, links, leader, start, steps);
}

/// The same by the links of all followers.
#[tactic(auto, using(crate::proofs::CarryLaws::left_all, crate::proofs::CarryLaws::left_one, crate::proofs::CarryLaws::left_none, crate::proofs::CarryLaws::left_here, crate::proofs::CarryLaws::may_put, crate::proofs::PutLaws::room_here, crate::proofs::PutLaws::after_one, crate::proofs::PutLaws::after_more, crate::proofs::PutLaws::after_some))]
fn carry_all<F: Family, L: Ledger>(
    engine: &mut Engine<'_, F>,
    links: Links<'_>,
    leader: MeetId,
    start: Option<TimeId>,
    steps: &mut Steps<L>,
)
    requires linked { AreLinked links.ties.now links.first.now links.next.now links.prev.now links.counts.now }
    requires there { leader.0 < length links.ties.now }
    requires long { length engine.old.state.slots ≡ length links.ties.now }
    requires may { MayCarry engine.old.parts engine.old.state.slots links.ties.now leader.0 start }
    requires room { HasRoom (count_of links.ties.now leader.0) engine.old }
    ensures carried { AreCarried links.entry.ties.now leader.0 start engine.old.state.slots engine.new.state.slots }
    ensures grouping { engine.new.state.grouping ≡ engine.old.state.grouping }
    ensures after { IsAfter (count_of links.entry.ties.now leader.0) engine.old engine.new }
{
    engine.instance().facts();
    let mut left = links.counts[leader.0 as usize];
    let mut at = links.first[leader.0 as usize];
    while left > 0 {
        let Some(tie) = links.ties[at as usize] else {
            unreachable!()
        };
        put(engine, MeetId(at), later(start, tie.offset), steps);
        at = links.next[at as usize];
        left -= 1;
    }
}
