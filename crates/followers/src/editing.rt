//! Edits over the parts of a timetable with ties: refusals first, then memory, then edits of the engine that
//! cannot fail.

ghost use Rattle.std.specs.Prelude.{◌≡◌, ◌≢◌, ◌*◌, ◌+◌, [], true, false, Some, slice_set, IfSome, MatchOption, Option, IfOk, ◌<◌, ◌^◌, None, length, IfErr, OnErr, OnOk};
ghost use Rattle.khe_engine.specs.States.{edited as engine_edited, made as engine_made};
ghost use Rattle.followers.specs.Still.{is_still};
ghost use Rattle.khe_engine.specs.Worlds.{IsFaultOf as engine_fault};
ghost use Rattle.khe_told.specs.declared.refusals.Refusal.{Refusal};
ghost use Rattle.followers.specs.declared.edits.TiedRefusal.TheVariants.{Base};
ghost use Rattle.std.specs.Option.{option_map};
ghost use Rattle.monitor_graph.specs.Boards.{Grouping};
ghost use Rattle.followers.specs.Carrying.{MayPut};
ghost use Rattle.followers.specs.Links.{count_of};
ghost use Rattle.followers.specs.Records.{HasRoom, IsAfter, IsKept, saved_of, states_of, with_ties};
ghost use Rattle.followers.specs.Bars.{bar as spec_bar};
ghost use Rattle.followers.specs.Starts.{IsCheck, IsStart};
ghost use Rattle.followers.specs.Tables.{base_refusal, edited, made, refusal, settled};
ghost use Rattle.followers.specs.Ties.{IsTied, tie_at};
ghost use Rattle.khe_solution.specs.Reading.{Shows, is_fixed_event};
ghost use Rattle.undo_paths.specs.Stack.{with_record};
ghost use Rattle.khe_told.specs.Slots.{is_live, slot_at, start_of};
ghost use Rattle.khe_solution.specs.Editing.{later, timed};
ghost use Rattle.followers.specs.Worlds.{IsFaultOf};

use crate::bars::{bar, check};
use crate::carrying::{carry, later, make, put};
use crate::records::Before;
use crate::table::Ties;
use crate::{Tie, TiedEdit, TiedFault, TiedRefusal};
use khe_base::{EventId, MeetId, NoMemory, TimeId};
use khe_engine::{EditFault, Engine};
use khe_instance::{Instance, Meet};
use khe_solution::Solution;
use khe_told::{Edit, Family, Refusal, Steps};
use std::sync::ledger::Ledger;
use undo_paths::Journal;

/// Room for the given number of records, where a mark is open.
pub(crate) fn room_for<F: Family>(engine: &mut Engine<'_, F>, n: u32) -> Result<(), NoMemory>
    ensures parts { engine.new.parts ≡ engine.old.parts }
    ensures state { engine.new.state ≡ engine.old.state }
    ensures saved { engine.new.saved ≡ engine.old.saved }
    ensures room { OnOk result (HasRoom n engine.new) }
{
    if engine.marks() > 0 {
        engine.reserve(n)?;
    }
    Ok(())
}

/// Makes an edit of one start, and puts the meet's followers at their places; or says why not.
#[tactic(auto, using(crate::proofs::StartLaws::start_meets, crate::proofs::StartLaws::start_made))]
pub(crate) fn edit_start<F: Family, L: Ledger>(
    engine: &mut Engine<'_, F>,
    ties: &Ties,
    edit: Edit,
    meet: MeetId,
    start: Option<TimeId>,
    steps: &mut Steps<L>,
) -> Result<Option<u32>, TiedFault>
    requires sort { IsStart edit meet start }
    requires tied { IsTied engine.old.parts (with_ties engine.old.state ties.now) }
    ensures parts { engine.new.parts ≡ engine.old.parts }
    ensures states { states_of engine.new.saved ≡ states_of engine.old.saved }
    ensures tied { IsTied engine.new.parts (with_ties engine.new.state ties.now) }
    ensures accepted { OnOk result (base_refusal engine.old.parts (with_ties engine.old.state ties.now) edit ≡ None) }
    ensures state { OnOk result (with_ties engine.new.state ties.now ≡ settled (with_ties (engine_edited engine.old.state edit) ties.now)) }
    ensures number { IfOk result (λ n. n ≡ engine_made engine.old.state edit) }
    ensures fault { IfErr result (IsFaultOf (base_refusal engine.old.parts (with_ties engine.old.state ties.now) edit)) }
    ensures err { OnErr result (engine.new.state ≡ engine.old.state) }
{
    match check(engine.solution(), ties, &edit) {
        Ok(()) => {}
        Err(refusal) => return Err(TiedFault::Refused(refusal)),
    }
    match room_for(engine, ties.count(meet) + 1) {
        Ok(()) => {}
        Err(NoMemory) => return Err(TiedFault::NoMemory),
    }
    follow(engine, ties, edit, meet, start, steps);
    Ok(None)
}

/// Makes an accepted edit of one start, for which there is room, and puts the meet's followers at their places.
#[tactic(auto, using(crate::proofs::StartLaws::start_sort, crate::proofs::StartLaws::start_accepted, crate::proofs::PutLaws::room_less, crate::proofs::PutLaws::after_sum))]
fn follow<F: Family, L: Ledger>(
    engine: &mut Engine<'_, F>,
    ties: &Ties,
    edit: Edit,
    meet: MeetId,
    start: Option<TimeId>,
    steps: &mut Steps<L>,
)
    requires sort { IsStart edit meet start }
    requires tied { IsTied engine.old.parts (with_ties engine.old.state ties.now) }
    requires accepted { base_refusal engine.old.parts (with_ties engine.old.state ties.now) edit ≡ None }
    requires room { HasRoom (count_of ties.now meet.0 + 1) engine.old }
    ensures after { IsAfter (count_of ties.now meet.0 + 1) engine.old engine.new }
    ensures tied { IsTied engine.new.parts (with_ties engine.new.state ties.now) }
    ensures state { with_ties engine.new.state ties.now ≡ settled (with_ties (engine_edited engine.old.state edit) ties.now) }
{
    make(engine, edit, steps);
    engine.solution().facts();
    carry(engine, ties, meet, start, steps);
    engine.solution().facts();
}

/// Makes an edit that gives two meets each other's starts, and puts the followers of both at their places; or says
/// why not.
#[tactic(auto, using(crate::proofs::SwapLaws::swap_made))]
pub(crate) fn edit_swap<F: Family, L: Ledger>(
    engine: &mut Engine<'_, F>,
    ties: &Ties,
    a: MeetId,
    b: MeetId,
    steps: &mut Steps<L>,
) -> Result<Option<u32>, TiedFault>
    requires { IsTied engine.old.parts (with_ties engine.old.state ties.now) }
    ensures parts { engine.new.parts ≡ engine.old.parts }
    ensures states { states_of engine.new.saved ≡ states_of engine.old.saved }
    ensures tied { IsTied engine.new.parts (with_ties engine.new.state ties.now) }
    ensures accepted { OnOk result (base_refusal engine.old.parts (with_ties engine.old.state ties.now) (Edit.SwapMeets a b) ≡ None) }
    ensures state { OnOk result (with_ties engine.new.state ties.now ≡ settled (with_ties (engine_edited engine.old.state (Edit.SwapMeets a b)) ties.now)) }
    ensures number { IfOk result (λ n. n ≡ engine_made engine.old.state (Edit.SwapMeets a b)) }
    ensures fault { IfErr result (IsFaultOf (base_refusal engine.old.parts (with_ties engine.old.state ties.now) (Edit.SwapMeets a b))) }
    ensures err { OnErr result (engine.new.state ≡ engine.old.state) }
{
    match check(engine.solution(), ties, &Edit::SwapMeets { a, b }) {
        Ok(()) => {}
        Err(refusal) => return Err(TiedFault::Refused(refusal)),
    }
    match room_for(engine, ties.count(a) + ties.count(b) + 1) {
        Ok(()) => {}
        Err(NoMemory) => return Err(TiedFault::NoMemory),
    }
    swap(engine, ties, a, b, steps);
    Ok(None)
}

/// Makes an accepted edit that gives two meets each other's starts, for which there is room, and puts the followers
/// of both at their places.
#[tactic(auto, using(crate::proofs::SwapLaws::swap_accepted, crate::proofs::PutLaws::room_less, crate::proofs::PutLaws::after_sum))]
fn swap<F: Family, L: Ledger>(
    engine: &mut Engine<'_, F>,
    ties: &Ties,
    a: MeetId,
    b: MeetId,
    steps: &mut Steps<L>,
)
    requires tied { IsTied engine.old.parts (with_ties engine.old.state ties.now) }
    requires accepted { base_refusal engine.old.parts (with_ties engine.old.state ties.now) (Edit.SwapMeets a b) ≡ None }
    requires room { HasRoom (count_of ties.now a.0 + count_of ties.now b.0 + 1) engine.old }
    ensures after { IsAfter (count_of ties.now a.0 + count_of ties.now b.0 + 1) engine.old engine.new }
    ensures tied { IsTied engine.new.parts (with_ties engine.new.state ties.now) }
    ensures state { with_ties engine.new.state ties.now ≡ settled (with_ties (engine_edited engine.old.state (Edit.SwapMeets a b)) ties.now) }
{
    let first = start_of(engine.solution(), a);
    let second = start_of(engine.solution(), b);
    make(engine, Edit::SwapMeets { a, b }, steps);
    engine.solution().facts();
    carry(engine, ties, a, second, steps);
    engine.solution().facts();
    carry(engine, ties, b, first, steps);
    engine.solution().facts();
}

/// Room for one record of ties, where a mark is open.
fn room_for_record(journal: &mut Journal<Before>) -> Result<(), NoMemory>
    ensures since { journal.new.since ≡ journal.old.since }
    ensures ok { OnOk result (journal.new.since ≢ [] → journal.new.spare ≢ 0) }
{
    if journal.marks() > 0 {
        journal.reserve(1)?;
    }
    Ok(())
}

/// Gives a meet another tie, or none, and keeps the record of it, where a mark is open.
fn retie(ties: &mut Ties, journal: &mut Journal<Before>, meet: MeetId, tie: Option<Tie>)
    requires there { meet.0 < length ties.old }
    requires leader { IfSome tie (λ t. t.leader.0 < length ties.old) }
    requires room { journal.old.since ≢ [] → journal.old.spare ≢ 0 }
    ensures ties { ties.new ≡ slice_set ties.old meet.0 tie }
    ensures since { journal.new.since ≡ with_record (record { meet = meet; tie = tie_at ties.old meet.0 }) journal.old.since }
{
    let before = Before {
        meet,
        tie: ties.get(meet),
    };
    if journal.marks() > 0 {
        journal.push(before);
    }
    ties.set(meet, tie);
}

/// Why a Tie is refused, if it is.
#[tactic(auto, unfolding(crate::specs::Tables::refusal))]
fn check_tie(
    solution: &Solution<'_>,
    ties: &Ties,
    meet: MeetId,
    leader: MeetId,
    offset: u32,
) -> Result<(), TiedRefusal>
    ensures { (g : Grouping) → IsCheck (refusal solution.now.parts (with_ties (record { slots = solution.now.slots; grouping = g }) ties.now) (TiedEdit.Tie meet leader offset)) result }
{
    let Some(own) = live(solution, meet) else {
        return Err(TiedRefusal::Base(Refusal::NoSuchMeet));
    };
    let Some(above) = live(solution, leader) else {
        return Err(TiedRefusal::Base(Refusal::NoSuchMeet));
    };
    if meet.0 == leader.0 {
        return Err(TiedRefusal::Base(Refusal::Same));
    }
    if is_fixed_event(solution.instance(), own.event) {
        return Err(TiedRefusal::Base(Refusal::Fixed));
    }
    if ties.get(meet).is_some() {
        return Err(TiedRefusal::Follower);
    }
    if ties.get(leader).is_some() {
        return Err(TiedRefusal::Follower);
    }
    if ties.leads(meet) {
        return Err(TiedRefusal::Leader);
    }
    if u64::from(above.duration) < u64::from(offset) + u64::from(own.duration) {
        return Err(TiedRefusal::BadOffset);
    }
    Ok(())
}

/// The live meet of this number, if there is one.
fn live(solution: &Solution<'_>, meet: MeetId) -> Option<Meet>
    ensures { MatchOption result (is_live (slot_at solution.now.slots meet.0) ≡ false) (Shows (slot_at solution.now.slots meet.0)) }
{
    solution.meet(meet)
}

/// Whether an event's time is preassigned.
fn is_fixed_event(inst: &Instance, event: EventId) -> bool
    ensures { result ≡ is_fixed_event inst.now event.0 }
{
    event.0 < inst.events() && inst.event(event).fixed.is_some()
}

/// Puts a meet at its place by the start of its leader.
#[tactic(auto, using(crate::proofs::PutLaws::start_read))]
fn place<F: Family, L: Ledger>(
    engine: &mut Engine<'_, F>,
    meet: MeetId,
    leader: MeetId,
    offset: u32,
    steps: &mut Steps<L>,
)
    requires live { is_live (slot_at engine.old.state.slots leader.0) ≡ true }
    requires few { IfSome (start_of (slot_at engine.old.state.slots leader.0)) (λ t. t.0 + offset < 2 ^ 32) }
    requires may { MayPut engine.old.parts engine.old.state.slots meet.0 (later offset (start_of (slot_at engine.old.state.slots leader.0))) }
    requires room { HasRoom 1 engine.old }
    ensures slots { engine.new.state.slots ≡ timed engine.old.state.slots meet (later offset (start_of (slot_at engine.old.state.slots leader.0))) }
    ensures grouping { engine.new.state.grouping ≡ engine.old.state.grouping }
    ensures after { IsAfter 1 engine.old engine.new }
{
    let start = start_of(engine.solution(), leader);
    put(engine, meet, later(start, offset), steps);
}

/// The start of a meet, if it has one.
#[tactic(auto, using(crate::proofs::PutLaws::start_read, crate::proofs::PutLaws::start_none))]
fn start_of(solution: &Solution<'_>, meet: MeetId) -> Option<TimeId>
    ensures { result ≡ start_of (slot_at solution.now.slots meet.0) }
{
    match solution.meet(meet) {
        Some(own) => own.start,
        None => None,
    }
}

/// Ties a meet to another, and puts it at its place; or says why not.
#[tactic(auto, unfolding(crate::specs::Tables::made))]
pub(crate) fn tie<F: Family, L: Ledger>(
    engine: &mut Engine<'_, F>,
    ties: &mut Ties,
    journal: &mut Journal<Before>,
    meet: MeetId,
    tie: Tie,
    steps: &mut Steps<L>,
) -> Result<Option<u32>, TiedFault>
    requires kept { IsKept engine.old.parts engine.old.state ties.old (states_of engine.old.saved) journal.old.since }
    ensures parts { engine.new.parts ≡ engine.old.parts }
    ensures states { states_of engine.new.saved ≡ states_of engine.old.saved }
    ensures kept { IsKept engine.new.parts engine.new.state ties.new (states_of engine.new.saved) journal.new.since }
    ensures accepted { OnOk result (refusal engine.old.parts (with_ties engine.old.state ties.old) (TiedEdit.Tie meet tie.leader tie.offset) ≡ None) }
    ensures state { OnOk result (with_ties engine.new.state ties.new ≡ edited (with_ties engine.old.state ties.old) (TiedEdit.Tie meet tie.leader tie.offset)) }
    ensures number { IfOk result (λ n. n ≡ made (with_ties engine.old.state ties.old) (TiedEdit.Tie meet tie.leader tie.offset)) }
    ensures saved { saved_of ties.new (states_of engine.new.saved) journal.new.since ≡ saved_of ties.old (states_of engine.old.saved) journal.old.since }
    ensures fault { IfErr result (IsFaultOf (refusal engine.old.parts (with_ties engine.old.state ties.old) (TiedEdit.Tie meet tie.leader tie.offset))) }
    ensures err { OnErr result (with_ties engine.new.state ties.new ≡ with_ties engine.old.state ties.old) }
{
    match check_tie(engine.solution(), ties, meet, tie.leader, tie.offset) {
        Ok(()) => {}
        Err(refusal) => return Err(TiedFault::Refused(refusal)),
    }
    match room_for(engine, 1) {
        Ok(()) => {}
        Err(NoMemory) => return Err(TiedFault::NoMemory),
    }
    match room_for_record(journal) {
        Ok(()) => {}
        Err(NoMemory) => return Err(TiedFault::NoMemory),
    }
    join(engine, ties, journal, meet, tie, steps);
    Ok(None)
}

/// Makes an accepted tie, for which there is room.
#[tactic(auto, using(crate::proofs::TieLaws::can_tie, crate::proofs::TieLaws::tie_may, crate::proofs::TieLaws::tie_few))]
fn join<F: Family, L: Ledger>(
    engine: &mut Engine<'_, F>,
    ties: &mut Ties,
    journal: &mut Journal<Before>,
    meet: MeetId,
    tie: Tie,
    steps: &mut Steps<L>,
)
    requires kept { IsKept engine.old.parts engine.old.state ties.old (states_of engine.old.saved) journal.old.since }
    requires accepted { refusal engine.old.parts (with_ties engine.old.state ties.old) (TiedEdit.Tie meet tie.leader tie.offset) ≡ None }
    requires room { HasRoom 1 engine.old }
    requires record_room { journal.old.since ≢ [] → journal.old.spare ≢ 0 }
    ensures after { IsAfter 1 engine.old engine.new }
    ensures kept { IsKept engine.new.parts engine.new.state ties.new (states_of engine.new.saved) journal.new.since }
    ensures state { with_ties engine.new.state ties.new ≡ edited (with_ties engine.old.state ties.old) (TiedEdit.Tie meet tie.leader tie.offset) }
    ensures saved { saved_of ties.new (states_of engine.new.saved) journal.new.since ≡ saved_of ties.old (states_of engine.old.saved) journal.old.since }
{
    engine.instance().facts();
    engine.solution().facts();
    place(engine, meet, tie.leader, tie.offset, steps);
    engine.solution().facts();
    retie(ties, journal, meet, Some(tie));
}

/// Unties a meet; or says why not.
fn untie(
    solution: &Solution<'_>,
    ties: &mut Ties,
    journal: &mut Journal<Before>,
    meet: MeetId,
) -> Result<(), TiedFault>
    requires room { length ties.old ≡ length solution.now.slots }
    ensures there { OnOk result (meet.0 < length ties.old) }
    ensures accepted { OnOk result ((g : Grouping) → refusal solution.now.parts (with_ties (record { slots = solution.now.slots; grouping = g }) ties.old) (TiedEdit.Untie meet) ≡ None) }
    ensures ties { OnOk result (ties.new ≡ slice_set ties.old meet.0 None) }
    ensures since { OnOk result (journal.new.since ≡ with_record (record { meet = meet; tie = tie_at ties.old meet.0 }) journal.old.since) }
    ensures fault { (g : Grouping) → IfErr result (IsFaultOf (refusal solution.now.parts (with_ties (record { slots = solution.now.slots; grouping = g }) ties.old) (TiedEdit.Untie meet))) }
    ensures err { OnErr result ((ties.new ≡ ties.old) × (journal.new.since ≡ journal.old.since)) }
{
    match check_untie(solution, ties, meet) {
        Ok(()) => {}
        Err(refusal) => return Err(TiedFault::Refused(refusal)),
    }
    match room_for_record(journal) {
        Ok(()) => {}
        Err(NoMemory) => return Err(TiedFault::NoMemory),
    }
    retie(ties, journal, meet, None);
    Ok(())
}

/// Unties a meet of a timetable; or says why not.
#[tactic(auto, using(crate::proofs::UntieLaws::untied_kept, crate::proofs::UntieLaws::untied_state, crate::proofs::UntieLaws::untied_saved), unfolding(crate::specs::Tables::made))]
pub(crate) fn loosen<F: Family>(
    engine: &Engine<'_, F>,
    ties: &mut Ties,
    journal: &mut Journal<Before>,
    meet: MeetId,
) -> Result<Option<u32>, TiedFault>
    requires kept { IsKept engine.now.parts engine.now.state ties.old (states_of engine.now.saved) journal.old.since }
    ensures kept { IsKept engine.now.parts engine.now.state ties.new (states_of engine.now.saved) journal.new.since }
    ensures accepted { OnOk result (refusal engine.now.parts (with_ties engine.now.state ties.old) (TiedEdit.Untie meet) ≡ None) }
    ensures state { OnOk result (with_ties engine.now.state ties.new ≡ edited (with_ties engine.now.state ties.old) (TiedEdit.Untie meet)) }
    ensures number { IfOk result (λ n. n ≡ made (with_ties engine.now.state ties.old) (TiedEdit.Untie meet)) }
    ensures saved { saved_of ties.new (states_of engine.now.saved) journal.new.since ≡ saved_of ties.old (states_of engine.now.saved) journal.old.since }
    ensures fault { IfErr result (IsFaultOf (refusal engine.now.parts (with_ties engine.now.state ties.old) (TiedEdit.Untie meet))) }
    ensures err { OnErr result (ties.new ≡ ties.old) }
{
    match untie(engine.solution(), ties, journal, meet) {
        Ok(()) => Ok(None),
        Err(fault) => Err(fault),
    }
}

/// Why an Untie is refused, if it is.
#[tactic(auto, unfolding(crate::specs::Tables::refusal), using(crate::proofs::TieLaws::live_within))]
fn check_untie(solution: &Solution<'_>, ties: &Ties, meet: MeetId) -> Result<(), TiedRefusal>
    ensures check { (g : Grouping) → IsCheck (refusal solution.now.parts (with_ties (record { slots = solution.now.slots; grouping = g }) ties.now) (TiedEdit.Untie meet)) result }
    ensures there { OnOk result (meet.0 < length solution.now.slots) }
{
    if live(solution, meet).is_none() {
        return Err(TiedRefusal::Base(Refusal::NoSuchMeet));
    }
    if ties.get(meet).is_none() {
        return Err(TiedRefusal::NotFollower);
    }
    Ok(())
}

/// Makes an edit that moves no meet; or says why not.
#[tactic(auto, using(crate::proofs::StillLaws::still_tied, crate::proofs::StillLaws::still_state, crate::proofs::StillLaws::still_accepted, crate::proofs::StillLaws::still_fault, crate::proofs::StillLaws::same_states))]
pub(crate) fn edit_still<F: Family, L: Ledger>(
    engine: &mut Engine<'_, F>,
    ties: &Ties,
    edit: Edit,
    steps: &mut Steps<L>,
) -> Result<Option<u32>, TiedFault>
    requires sort { is_still edit ≡ true }
    requires tied { IsTied engine.old.parts (with_ties engine.old.state ties.now) }
    ensures parts { engine.new.parts ≡ engine.old.parts }
    ensures states { states_of engine.new.saved ≡ states_of engine.old.saved }
    ensures tied { IsTied engine.new.parts (with_ties engine.new.state ties.now) }
    ensures accepted { OnOk result (base_refusal engine.old.parts (with_ties engine.old.state ties.now) edit ≡ None) }
    ensures state { OnOk result (with_ties engine.new.state ties.now ≡ settled (with_ties (engine_edited engine.old.state edit) ties.now)) }
    ensures number { IfOk result (λ n. n ≡ engine_made engine.old.state edit) }
    ensures fault { IfErr result (IsFaultOf (base_refusal engine.old.parts (with_ties engine.old.state ties.now) edit)) }
    ensures err { OnErr result (engine.new.state ≡ engine.old.state) }
{
    if let Some(refusal) = bar(engine.solution(), ties, &edit) {
        return Err(TiedFault::Refused(refusal));
    }
    make_still(engine, ties, edit, steps)
}

/// Makes an edit that moves no meet and that ties do not refuse; or says why not.
#[tactic(auto, using(crate::proofs::StillLaws::still_tied, crate::proofs::StillLaws::still_state, crate::proofs::StillLaws::still_accepted, crate::proofs::StillLaws::still_fault, crate::proofs::StillLaws::same_states))]
fn make_still<F: Family, L: Ledger>(
    engine: &mut Engine<'_, F>,
    ties: &Ties,
    edit: Edit,
    steps: &mut Steps<L>,
) -> Result<Option<u32>, TiedFault>
    requires sort { is_still edit ≡ true }
    requires free { None ≡ spec_bar engine.old.state.slots ties.now edit }
    requires tied { IsTied engine.old.parts (with_ties engine.old.state ties.now) }
    ensures parts { engine.new.parts ≡ engine.old.parts }
    ensures states { states_of engine.new.saved ≡ states_of engine.old.saved }
    ensures tied { IsTied engine.new.parts (with_ties engine.new.state ties.now) }
    ensures accepted { OnOk result (base_refusal engine.old.parts (with_ties engine.old.state ties.now) edit ≡ None) }
    ensures state { OnOk result (with_ties engine.new.state ties.now ≡ settled (with_ties (engine_edited engine.old.state edit) ties.now)) }
    ensures number { IfOk result (λ n. n ≡ engine_made engine.old.state edit) }
    ensures fault { IfErr result (IsFaultOf (base_refusal engine.old.parts (with_ties engine.old.state ties.now) edit)) }
    ensures err { OnErr result (engine.new.state ≡ engine.old.state) }
{
    let _ = ties;
    let made = engine.edit(edit, steps);
    engine.solution().facts();
    match made {
        Ok(number) => Ok(number),
        Err(fault) => Err(fault_of(fault)),
    }
}

/// The fault of an edit that the engine did not make.
#[tactic(auto, using(crate::proofs::StillLaws::fault_refused, crate::proofs::StillLaws::fault_starved))]
fn fault_of(fault: EditFault) -> TiedFault
    ensures { (o : Option Refusal) → engine_fault o fault → IsFaultOf (option_map Base o) result }
{
    match fault {
        EditFault::Refused(refusal) => TiedFault::Refused(TiedRefusal::Base(refusal)),
        EditFault::NoMemory => TiedFault::NoMemory,
    }
}

/// Makes one of the engine's edits, and puts the followers of the meets that it moved at their places; or says why
/// not.
#[tactic(auto, using(crate::proofs::StartLaws::is_start))]
fn edit_base<F: Family, L: Ledger>(
    engine: &mut Engine<'_, F>,
    ties: &Ties,
    edit: Edit,
    steps: &mut Steps<L>,
) -> Result<Option<u32>, TiedFault>
    requires { IsTied engine.old.parts (with_ties engine.old.state ties.now) }
    ensures parts { engine.new.parts ≡ engine.old.parts }
    ensures states { states_of engine.new.saved ≡ states_of engine.old.saved }
    ensures tied { IsTied engine.new.parts (with_ties engine.new.state ties.now) }
    ensures accepted { OnOk result (base_refusal engine.old.parts (with_ties engine.old.state ties.now) edit ≡ None) }
    ensures state { OnOk result (with_ties engine.new.state ties.now ≡ settled (with_ties (engine_edited engine.old.state edit) ties.now)) }
    ensures number { IfOk result (λ n. n ≡ engine_made engine.old.state edit) }
    ensures fault { IfErr result (IsFaultOf (base_refusal engine.old.parts (with_ties engine.old.state ties.now) edit)) }
    ensures err { OnErr result (engine.new.state ≡ engine.old.state) }
{
    match edit {
        Edit::Assign { meet, time } => edit_start(engine, ties, edit, meet, Some(time), steps),
        Edit::Unassign { meet } => edit_start(engine, ties, edit, meet, None, steps),
        Edit::MoveTo { meet, time } => edit_start(engine, ties, edit, meet, Some(time), steps),
        Edit::SwapMeets { a, b } => edit_swap(engine, ties, a, b, steps),
        _ => edit_still(engine, ties, edit, steps),
    }
}

/// The same of a timetable with marks.
#[tactic(auto, unfolding(crate::specs::Tables::refusal, crate::specs::Tables::edited, crate::specs::Tables::made), using(crate::proofs::MarkLaws::kept_after, crate::proofs::MarkLaws::saved_same))]
fn edit_kept<F: Family, L: Ledger>(
    engine: &mut Engine<'_, F>,
    ties: &Ties,
    journal: &Journal<Before>,
    edit: Edit,
    steps: &mut Steps<L>,
) -> Result<Option<u32>, TiedFault>
    requires kept { IsKept engine.old.parts engine.old.state ties.now (states_of engine.old.saved) journal.now.since }
    ensures parts { engine.new.parts ≡ engine.old.parts }
    ensures kept { IsKept engine.new.parts engine.new.state ties.now (states_of engine.new.saved) journal.now.since }
    ensures accepted { OnOk result (refusal engine.old.parts (with_ties engine.old.state ties.now) (TiedEdit.Base edit) ≡ None) }
    ensures state { OnOk result (with_ties engine.new.state ties.now ≡ edited (with_ties engine.old.state ties.now) (TiedEdit.Base edit)) }
    ensures number { IfOk result (λ n. n ≡ made (with_ties engine.old.state ties.now) (TiedEdit.Base edit)) }
    ensures saved { saved_of ties.now (states_of engine.new.saved) journal.now.since ≡ saved_of ties.now (states_of engine.old.saved) journal.now.since }
    ensures fault { IfErr result (IsFaultOf (refusal engine.old.parts (with_ties engine.old.state ties.now) (TiedEdit.Base edit))) }
    ensures err { OnErr result (engine.new.state ≡ engine.old.state) }
{
    let _ = journal;
    edit_base(engine, ties, edit, steps)
}

/// Makes an edit of a timetable with ties and marks; or says why not, and then all stays as it was.
pub(crate) fn edit_any<F: Family, L: Ledger>(
    engine: &mut Engine<'_, F>,
    ties: &mut Ties,
    journal: &mut Journal<Before>,
    edit: TiedEdit,
    steps: &mut Steps<L>,
) -> Result<Option<u32>, TiedFault>
    requires kept { IsKept engine.old.parts engine.old.state ties.old (states_of engine.old.saved) journal.old.since }
    ensures parts { engine.new.parts ≡ engine.old.parts }
    ensures kept { IsKept engine.new.parts engine.new.state ties.new (states_of engine.new.saved) journal.new.since }
    ensures accepted { OnOk result (refusal engine.old.parts (with_ties engine.old.state ties.old) edit ≡ None) }
    ensures state { OnOk result (with_ties engine.new.state ties.new ≡ edited (with_ties engine.old.state ties.old) edit) }
    ensures number { IfOk result (λ n. n ≡ made (with_ties engine.old.state ties.old) edit) }
    ensures saved { saved_of ties.new (states_of engine.new.saved) journal.new.since ≡ saved_of ties.old (states_of engine.old.saved) journal.old.since }
    ensures fault { IfErr result (IsFaultOf (refusal engine.old.parts (with_ties engine.old.state ties.old) edit)) }
    ensures err { OnErr result (with_ties engine.new.state ties.new ≡ with_ties engine.old.state ties.old) }
{
    match edit {
        TiedEdit::Base(edit) => edit_kept(engine, ties, journal, edit, steps),
        TiedEdit::Tie {
            follower,
            leader,
            offset,
        } => tie(
            engine,
            ties,
            journal,
            follower,
            Tie { leader, offset },
            steps,
        ),
        TiedEdit::Untie { follower } => loosen(engine, ties, journal, follower),
    }
}
