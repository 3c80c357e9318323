//! What becomes of the cells of a resource where a place of a meet is given another.

ghost use Rattle.std.specs.Prelude.{◌≡◌, ◌≤◌, ◌+◌, ◌<◌, ◌∷◌, [], ℕ, true, false, length, slice_get, Some};
ghost use Rattle.khe_base.specs.declared.limits.TheConstants.{GREATEST_COUNT};
ghost use Rattle.khe_base.specs.declared.numbers.ResourceId.{ResourceId};
ghost use Rattle.khe_told.specs.Naming.{is_named};
ghost use Rattle.khe_told.specs.Waits.{WaitOn};
ghost use Rattle.timetables.specs.Counts.{count_at};
ghost use Rattle.resource_monitors.specs.Cells.{AreMeasuredSame, HasRows};
ghost use Rattle.resource_monitors.specs.Posts.{AreLists};
ghost use Rattle.resource_monitors.specs.Runs.{AreAtEither, AreAtMoved, AreAtRun, AreExchanged, CanExchange, CanTurn};
ghost use Rattle.resource_monitors.specs.Runs.{IsWithin, Turned, cells_of};
ghost use Rattle.resource_monitors.specs.Sets.{room_for};
ghost use Rattle.resource_monitors.specs.declared.runs.Run.{Run};

use crate::cell_turns::turn_place;
use crate::cell_waits::{Audience, add_place};
use crate::kinds::CellKinds;
use crate::regiven::Regiven;
use crate::runs::{Run, limit_for};
use crate::tables::CellTable;
use khe_base::ResourceId;
use khe_told::Waits;

/// Fills or empties the cells of the resource that a place is given, and queues its monitors that list one of the
/// times.
fn follow_place<K: CellKinds, W: Waits>(
    audience: &Audience<'_>,
    place: Option<ResourceId>,
    run: Option<Run>,
    rises: bool,
    table: &mut CellTable,
    waits: &mut W,
)
    requires sets { audience.now.sets.now ≡ room_for audience.now.inst.now }
    requires lists { AreLists K.serves_kind (length audience.now.inst.now.resources) audience.now.inst.now.monitors
        audience.now.lists.now }
    requires rows { HasRows audience.now.inst.now table.old }
    requires run { (y : Run) → run ≡ Some y → IsWithin audience.now.inst.now y }
    requires resource { (r : ResourceId) → place ≡ Some r → r.0 < length audience.now.inst.now.resources }
    requires counts { CanTurn rises place run (count_at table.old) }
    requires monitors { W.monitors waits.old ≡ length audience.now.inst.now.monitors }
    ensures rows { HasRows audience.now.inst.now table.new }
    ensures counts { Turned rises place run (count_at table.old) (count_at table.new) }
    ensures monitors { W.monitors waits.new ≡ W.monitors waits.old }
    ensures unmoved { W.hears ≡ true → AreMeasuredSame audience.now.inst.now K.serves_kind (W.waits waits.new) table.old
        table.new }
    ensures kept { WaitOn (W.waits waits.old) (W.waits waits.new) }
    ensures listed { AreAtRun audience.now.inst.now place run (W.waits waits.old) (W.waits waits.new) }
{
    audience.inst.facts();
    let Some(run) = run else {
        return;
    };
    turn_place(table, place, run, rises);
    if W::hears() {
        let limit = limit_for(rises);
        add_place::<K, W>(audience, table, run, limit, place, waits);
    }
}

/// Whether a place is given the same at the same times.
fn is_same(
    before: Option<ResourceId>,
    later: Option<ResourceId>,
    emptied: Option<Run>,
    filled: Option<Run>,
) -> bool
    ensures same { result ≡ true → (emptied ≡ filled) × (before ≡ later) }
    ensures differ { result ≡ false → before ≡ later → emptied ≡ filled → ⊥ }
{
    before == later && emptied == filled
}

/// Empties the cells of what a place is given before, and fills those of what it is given after. Where that is the
/// same at the same times there is nothing to do.
fn follow_both<K: CellKinds, W: Waits>(
    audience: &Audience<'_>,
    before: Option<ResourceId>,
    later: Option<ResourceId>,
    emptied: Option<Run>,
    filled: Option<Run>,
    table: &mut CellTable,
    waits: &mut W,
)
    requires sets { audience.now.sets.now ≡ room_for audience.now.inst.now }
    requires lists { AreLists K.serves_kind (length audience.now.inst.now.resources) audience.now.inst.now.monitors
        audience.now.lists.now }
    requires rows { HasRows audience.now.inst.now table.old }
    requires emptied { (y : Run) → emptied ≡ Some y → IsWithin audience.now.inst.now y }
    requires filled { (y : Run) → filled ≡ Some y → IsWithin audience.now.inst.now y }
    requires before { (r : ResourceId) → before ≡ Some r → r.0 < length audience.now.inst.now.resources }
    requires later { (r : ResourceId) → later ≡ Some r → r.0 < length audience.now.inst.now.resources }
    requires some { (q t : ℕ) → cells_of emptied (before ∷ []) q t ≤ count_at table.old q t }
    requires room { (q t : ℕ) → count_at table.old q t + cells_of filled (later ∷ []) q t ≤ GREATEST_COUNT + cells_of
        emptied (before ∷ []) q t }
    requires monitors { W.monitors waits.old ≡ length audience.now.inst.now.monitors }
    ensures rows { HasRows audience.now.inst.now table.new }
    ensures counts { AreExchanged emptied filled (before ∷ []) (later ∷ []) (count_at table.old) (count_at table.new) }
    ensures monitors { W.monitors waits.new ≡ W.monitors waits.old }
    ensures unmoved { W.hears ≡ true → AreMeasuredSame audience.now.inst.now K.serves_kind (W.waits waits.new) table.old
        table.new }
    ensures kept { WaitOn (W.waits waits.old) (W.waits waits.new) }
    ensures listed { AreAtEither audience.now.inst.now before later emptied filled (W.waits waits.old)
        (W.waits waits.new) }
{
    if is_same(before, later, emptied, filled) {
        return;
    }
    follow_place::<K, W>(audience, before, emptied, false, table, waits);
    follow_place::<K, W>(audience, later, filled, true, table, waits);
}

/// Empties the cells of what the places are given before, and fills those of what they are given after, and lets the
/// monitors at them wait that list one of the times. It looks at these places alone: any other is given the same at
/// the same times.
pub(crate) fn follow_all<K: CellKinds, W: Waits>(
    audience: &Audience<'_>,
    regiven: &Regiven<'_>,
    emptied: Option<Run>,
    filled: Option<Run>,
    table: &mut CellTable,
    waits: &mut W,
)
    requires sets { audience.now.sets.now ≡ room_for audience.now.inst.now }
    requires lists { AreLists K.serves_kind (length audience.now.inst.now.resources) audience.now.inst.now.monitors
        audience.now.lists.now }
    requires rows { HasRows audience.now.inst.now table.old }
    requires can { CanExchange audience.now.inst.now emptied filled regiven.now.before.now regiven.now.later.now
        (count_at table.old) }
    requires still { (j : ℕ) → is_named regiven.now.places j ≡ false
        → (slice_get regiven.now.before.now j ≡ slice_get regiven.now.later.now j) × (emptied ≡ filled) }
    requires monitors { W.monitors waits.old ≡ length audience.now.inst.now.monitors }
    ensures rows { HasRows audience.now.inst.now table.new }
    ensures counts { AreExchanged emptied filled regiven.now.before.now regiven.now.later.now (count_at table.old)
        (count_at table.new) }
    ensures monitors { W.monitors waits.new ≡ W.monitors waits.old }
    ensures unmoved { W.hears ≡ true → AreMeasuredSame audience.now.inst.now K.serves_kind (W.waits waits.new) table.old
        table.new }
    ensures kept { WaitOn (W.waits waits.old) (W.waits waits.new) }
    ensures listed { AreAtMoved audience.now.inst.now emptied filled regiven.now.before.now regiven.now.later.now
        (W.waits waits.old) (W.waits waits.new) }
{
    let mut place = regiven.places.next(0);
    while place < regiven.before.len() {
        let old = regiven.before[place];
        let new = regiven.later[place];
        follow_both::<K, W>(audience, old, new, emptied, filled, table, waits);
        place = regiven.places.next(place + 1);
    }
}
