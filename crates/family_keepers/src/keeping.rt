//! The family of a keeper.

ghost use Rattle.std.specs.Prelude.{ℕ, ◌≡◌, ◌<◌, ◌≤◌, ◌⊎◌, length, slice_set, true, None, Some};
ghost use Rattle.khe_told.specs.Changes.{after_all};
ghost use Rattle.khe_told.specs.Fits.{AllFit, AreTold};
ghost use Rattle.khe_told.specs.Naming.{AreSameBut};
ghost use Rattle.khe_told.specs.Slots.{emptied, length_of, slot_at};
ghost use Rattle.khe_told.specs.Turns.{AreWatchers, turn_to};
ghost use Rattle.khe_told.specs.Waits.{AreUnmoved, WaitOn};
ghost use Rattle.family_keepers.specs.Takes.{AreTaken, AreWatchersAt, IsMix, Mentions};

use crate::keepers::Keeper;
use khe_base::{MeetId, MonitorId, NoMemory};
use khe_instance::{Instance, Kind};
use khe_told::{Change, Effects, Family, Places, Told, Waits};
use std::alloc::Global;

/// The family of a keeper: what was told, in one place for all that the keeper is made of.
///
/// The changes of an edit are told to a second state first, which is then copied slot by slot: so the keeper
/// follows each slot once, whatever the number of changes of it. The slot of one change alone is copied at
/// once; of several changes the ones that make a meet shorter come first. It looks at the places that the
/// changes name, and at all places of the slot only where its meet changed.
pub struct Keeping<K> {
    /// What the keeper follows.
    told: Told,
    /// What was told; the same between calls.
    ahead: Told,
    keeper: K,
}

// By hand: an exit of a caller then has one call to prove, and not a drop for each field.
impl<K: Drop> Drop for Keeping<K> {
    fn drop(self) {
        let Keeping {
            told: _told,
            ahead: _ahead,
            keeper: _keeper,
        } = self;
    }
}

/// Copies a slot from the new state if it changed. At all places but these it is given the same.
fn take<K: Keeper, W: Waits>(
    inst: &Instance,
    keeper: &mut K,
    told: &mut Told,
    ahead: &Told,
    meet: MeetId,
    places: Places,
    waits: &mut W,
)
    requires keeps { K.Keeps keeper.old inst.now told.old }
    requires there { meet.0 < length told.old }
    requires told { AreTold inst.now told.old }
    requires same { emptied (slot_at ahead.now meet.0) ≡ emptied (slot_at told.old meet.0) }
    requires later { AreTold inst.now (slice_set told.old meet.0 (slot_at ahead.now meet.0)) }
    requires elsewhere { AreSameBut places (slot_at told.old meet.0).given (slot_at ahead.now meet.0).given }
    requires monitors { W.monitors waits.old ≡ length inst.now.monitors }
    ensures keeps { K.Keeps keeper.new inst.now told.new }
    ensures told { told.new ≡ slice_set told.old meet.0 (slot_at ahead.now meet.0) }
    ensures monitors { W.monitors waits.new ≡ W.monitors waits.old }
    ensures unmoved { W.hears ≡ true → AreUnmoved inst.now K.serves_kind (W.waits waits.new) told.old told.new }
    ensures kept { WaitOn (W.waits waits.old) (W.waits waits.new) }
    ensures watchers { AreWatchers inst.now (turn_to told.old ahead.now meet.0) (W.waits waits.old)
        (W.waits waits.new) }
{
    let turn = told.turn_to(ahead, meet, places);
    if turn.is_still() {
        return;
    }
    keeper.turn(inst, told, &turn, waits);
    told.follow(ahead, meet, places);
}

/// The last two meets whose slots were copied: of most edits, all.
#[derive(Clone, Copy)]
struct Taken {
    last: Option<MeetId>,
    earlier: Option<MeetId>,
}

impl Taken {
    /// None yet.
    fn none() -> Taken
        ensures { result ≡ record { last = None; earlier = None } }
    {
        Taken {
            last: None,
            earlier: None,
        }
    }

    /// Whether a meet is one of the two.
    fn has(&self, meet: MeetId) -> bool
        ensures { result ≡ true → (self.now.last ≡ Some meet) ⊎ (self.now.earlier ≡ Some meet) }
    {
        self.last == Some(meet) || self.earlier == Some(meet)
    }

    /// The two, once this meet is copied.
    fn with(self, meet: MeetId) -> Taken
        ensures { result ≡ record { last = Some meet; earlier = self.last } }
    {
        Taken {
            last: Some(meet),
            earlier: self.last,
        }
    }
}

/// A meet slot that may have changed, and its places that may be given another resource.
#[derive(Clone, Copy)]
struct Altered {
    meet: MeetId,
    places: Places,
}

/// Copies a slot as `take` does, unless it is one of the last two: these are the same in both states.
fn take_new<K: Keeper, W: Waits>(
    inst: &Instance,
    keeper: &mut K,
    told: &mut Told,
    ahead: &Told,
    altered: Altered,
    taken: &mut Taken,
    waits: &mut W,
)
    requires keeps { K.Keeps keeper.old inst.now told.old }
    requires there { altered.meet.0 < length told.old }
    requires told { AreTold inst.now told.old }
    requires same { emptied (slot_at ahead.now altered.meet.0) ≡ emptied (slot_at told.old altered.meet.0) }
    requires later { AreTold inst.now (slice_set told.old altered.meet.0 (slot_at ahead.now altered.meet.0)) }
    requires elsewhere { AreSameBut altered.places (slot_at told.old altered.meet.0).given
        (slot_at ahead.now altered.meet.0).given }
    requires monitors { W.monitors waits.old ≡ length inst.now.monitors }
    requires taken { AreTaken told.old ahead.now taken.old }
    ensures keeps { K.Keeps keeper.new inst.now told.new }
    ensures told { told.new ≡ slice_set told.old altered.meet.0 (slot_at ahead.now altered.meet.0) }
    ensures monitors { W.monitors waits.new ≡ W.monitors waits.old }
    ensures unmoved { W.hears ≡ true → AreUnmoved inst.now K.serves_kind (W.waits waits.new) told.old told.new }
    ensures kept { WaitOn (W.waits waits.old) (W.waits waits.new) }
    ensures watchers { AreWatchers inst.now (turn_to told.old ahead.now altered.meet.0) (W.waits waits.old)
        (W.waits waits.new) }
    ensures taken { AreTaken told.new ahead.now taken.new }
{
    let Altered { meet, places } = altered;
    if taken.has(meet) {
        return;
    }
    take(inst, keeper, told, ahead, meet, places, waits);
    *taken = taken.with(meet);
}

/// Takes over the slots of changes whose meets go or are shorter then: so no event's meets are ever longer
/// together than the event.
fn take_shorter<K: Keeper, W: Waits>(
    inst: &Instance,
    keeper: &mut K,
    told: &mut Told,
    ahead: &Told,
    changes: &[Change],
    places: Places,
    waits: &mut W,
)
    requires keeps { K.Keeps keeper.old inst.now told.old }
    requires told { AreTold inst.now told.old }
    requires ahead { AreTold inst.now ahead.now }
    requires there { (k : ℕ) → Mentions changes.now k → k < length told.old }
    requires elsewhere { (k : ℕ) → AreSameBut places (slot_at told.old k).given (slot_at ahead.now k).given }
    requires monitors { W.monitors waits.old ≡ length inst.now.monitors }
    ensures keeps { K.Keeps keeper.new inst.now told.new }
    ensures mix { IsMix inst.now told.old ahead.now told.new }
    ensures shorter { (k : ℕ) → Mentions changes.now k
        → length_of (slot_at told.new k) ≤ length_of (slot_at ahead.now k) }
    ensures monitors { W.monitors waits.new ≡ W.monitors waits.old }
    ensures unmoved { W.hears ≡ true → AreUnmoved inst.now K.serves_kind (W.waits waits.new) told.old told.new }
    ensures kept { WaitOn (W.waits waits.old) (W.waits waits.new) }
    ensures watchers { AreWatchersAt inst.now told.old ahead.now changes.now (W.waits waits.old) (W.waits waits.new) }
{
    for change in changes {
        let meet = change.meet();
        if ahead.duration(meet) < told.duration(meet) {
            take(inst, keeper, told, ahead, meet, places, waits);
        }
    }
}

/// Takes over the slots of changes, where none is shorter then.
fn take_all<K: Keeper, W: Waits>(
    inst: &Instance,
    keeper: &mut K,
    told: &mut Told,
    ahead: &Told,
    changes: &[Change],
    places: Places,
    waits: &mut W,
)
    requires keeps { K.Keeps keeper.old inst.now told.old }
    requires told { AreTold inst.now told.old }
    requires ahead { AreTold inst.now ahead.now }
    requires there { (k : ℕ) → Mentions changes.now k → k < length told.old }
    requires elsewhere { (k : ℕ) → AreSameBut places (slot_at told.old k).given (slot_at ahead.now k).given }
    requires shorter { (k : ℕ) → length_of (slot_at told.old k) ≤ length_of (slot_at ahead.now k) }
    requires monitors { W.monitors waits.old ≡ length inst.now.monitors }
    ensures keeps { K.Keeps keeper.new inst.now told.new }
    ensures mix { IsMix inst.now told.old ahead.now told.new }
    ensures taken { (k : ℕ) → Mentions changes.now k → slot_at told.new k ≡ slot_at ahead.now k }
    ensures monitors { W.monitors waits.new ≡ W.monitors waits.old }
    ensures unmoved { W.hears ≡ true → AreUnmoved inst.now K.serves_kind (W.waits waits.new) told.old told.new }
    ensures kept { WaitOn (W.waits waits.old) (W.waits waits.new) }
    ensures watchers { AreWatchersAt inst.now told.old ahead.now changes.now (W.waits waits.old) (W.waits waits.new) }
{
    let mut taken = Taken::none();
    for change in changes {
        let meet = change.meet();
        let altered = Altered { meet, places };
        take_new(inst, keeper, told, ahead, altered, &mut taken, waits);
    }
}

/// Follows changes that fit one after the other.
fn note_all(inst: &Instance, told: &mut Told, changes: &[Change])
    requires { AllFit inst.now told.old changes.now }
    ensures { told.new ≡ after_all told.old changes.now }
{
    for change in changes {
        told.note(inst, *change);
    }
}

impl<K: Keeper + Drop> Family for Keeping<K> {
    ghost use Rattle.std.specs.Prelude.{◌≡◌};
    ghost use Rattle.khe_told.specs.Fits.{AreTold};

    ghost serves_kind = { K.serves_kind };

    ghost IsWellJoined = { K.IsWellJoined };

    ghost told = { λ f. f.told };

    ghost IsOf = { λ f p. K.Keeps f.keeper p f.told × (f.ahead ≡ f.told) × AreTold p f.told };

    ghost Foresees = { λ f p ts. K.Foresees f.keeper p ts };

    fn open(alloc: Global, inst: &Instance) -> Result<Keeping<K>, NoMemory> {
        let told = Told::open(alloc, inst)?;
        let ahead = Told::open(alloc, inst)?;
        let keeper = K::open(alloc, inst)?;
        Ok(Keeping {
            told,
            ahead,
            keeper,
        })
    }

    fn serves(&self, kind: Kind) -> bool {
        self.keeper.serves(kind)
    }

    fn turn_all<W: Waits>(&mut self, inst: &Instance, changes: &[Change], waits: &mut W) {
        let places = Places::of(changes);
        note_all(inst, &mut self.ahead, changes);
        let keeper = &mut self.keeper;
        let told = &mut self.told;
        if changes.len() == 1 {
            take(
                inst,
                keeper,
                told,
                &self.ahead,
                changes[0].meet(),
                places,
                waits,
            );
            return;
        }
        take_shorter(inst, keeper, told, &self.ahead, changes, places, waits);
        take_all(inst, keeper, told, &self.ahead, changes, places, waits);
    }

    fn deviation(&self, inst: &Instance, monitor: MonitorId) -> u64 {
        self.keeper.deviation(inst, monitor)
    }

    fn foresees(&self, inst: &Instance, effects: &Effects<'_>) -> bool {
        self.keeper.foresees(inst, effects)
    }

    fn queue_affected<W: Waits>(&self, inst: &Instance, effects: &Effects<'_>, waits: &mut W) {
        self.keeper.queue_affected(inst, &self.told, effects, waits);
    }

    fn deviation_after(&self, inst: &Instance, effects: &Effects<'_>, monitor: MonitorId) -> u64 {
        self.keeper
            .deviation_after(inst, &self.told, effects, monitor)
    }
}
