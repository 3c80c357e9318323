//! A timetable that is edited: an engine on it, an edit inside a mark, its totals, and the way back.

ghost use Rattle.std.specs.Prelude.{◌≡◌, ◌<◌, false, true, length, IfOk, OnErr};
ghost use Rattle.calling_examples.specs.Editing.{HasJustBegun, IsNoDearer, IsTotalOf};
ghost use Rattle.khe_base.specs.Totals.{is_lower};
ghost use Rattle.khe_engine.specs.States.{edited};
ghost use Rattle.khe_engine.specs.Values.{ServesAll, totals};
ghost use Rattle.khe_instance.specs.States.{IsValid};

use khe_base::{MeetId, NoMemory, TimeId, Totals};
use khe_engine::{EditFault, Engine};
use khe_instance::{Instance, Plain};
use khe_told::{Blank, Edit, Family, Steps};
use std::alloc::Global;
use std::marker::Brand;
use std::sync::ledger::Ledger;

/// What a timetable costs, by an engine that is opened on it. It takes what opening an engine takes.
pub fn opened_totals<F: Family + Drop>(
    alloc: Global,
    inst: &Instance,
    plain: &Plain,
) -> Result<Totals, NoMemory>
    requires joined { F.IsWellJoined }
    requires serves { ServesAll F.serves_kind }
    requires valid { IsValid inst.now plain.now }
    ensures { IfOk result (IsTotalOf inst.now plain.now) }
{
    let engine = Engine::<F>::open(alloc, inst, plain)?;
    Ok(engine.totals())
}

/// What a timetable costs once a meet has a start, or what it costs without it where that is not less. `Refused`
/// where the meet can't have this start, as where it has one.
pub fn assigned_totals<F: Family + Drop>(
    alloc: Global,
    inst: &Instance,
    plain: &Plain,
    meet: MeetId,
    time: TimeId,
) -> Result<Totals, EditFault>
    requires joined { F.IsWellJoined }
    requires serves { ServesAll F.serves_kind }
    requires valid { IsValid inst.now plain.now }
    ensures { IfOk result (IsNoDearer inst.now plain.now) }
{
    let mut engine = Engine::<F>::open(alloc, inst, plain)?;
    assign_on::<F, Brand>(&mut engine, Edit::Assign { meet, time }, Blank::new(1))
}

/// The totals after an edit that is kept where it lowers them. Steps are counted in a ledger that takes no memory and
/// that nobody reads.
fn assign_on<F: Family, L: Ledger>(
    engine: &mut Engine<'_, F>,
    edit: Edit,
    blank: Blank,
) -> Result<Totals, EditFault>
    requires name { blank.name ≡ L.name }
    requires parts { blank.parts ≡ L.parts }
    requires some { 0 < blank.parts }
    ensures { IfOk result (λ t. is_lower (totals engine.old.parts engine.old.state) t ≡ false) }
{
    let mut steps = Steps::<L>::new(blank);
    lower_by(engine, edit, &mut steps)?;
    Ok(engine.totals())
}

/// Makes an edit where it lowers the totals, and says whether it did. Where it does not, or is refused, the state is
/// as it was. As many marks are open in the end as before, unless no further one may be opened.
pub fn lower_by<F: Family, L: Ledger>(
    engine: &mut Engine<'_, F>,
    edit: Edit,
    steps: &mut Steps<L>,
) -> Result<bool, EditFault>
    ensures parts { engine.new.parts ≡ engine.old.parts }
    ensures kept { IfOk result (λ lowers. lowers ≡ true → engine.new.state ≡ edited engine.old.state edit) }
    ensures lower { IfOk result (λ lowers. lowers ≡ true → is_lower (totals engine.old.parts engine.new.state) (totals engine.old.parts engine.old.state) ≡ true) }
    ensures left { IfOk result (λ lowers. lowers ≡ false → engine.new.state ≡ engine.old.state) }
    ensures err { OnErr result (engine.new.state ≡ engine.old.state) }
    ensures marks { length engine.new.saved ≡ length engine.old.saved }
{
    engine.begin()?;
    let lowers = lower_in_mark(engine, edit, steps);
    let _closed = engine.end();
    lowers
}

/// Makes an edit straight after a mark was opened, and undoes it where it does not lower the totals.
fn lower_in_mark<F: Family, L: Ledger>(
    engine: &mut Engine<'_, F>,
    edit: Edit,
    steps: &mut Steps<L>,
) -> Result<bool, EditFault>
    requires { HasJustBegun engine.old }
    ensures parts { engine.new.parts ≡ engine.old.parts }
    ensures kept { IfOk result (λ lowers. lowers ≡ true → engine.new.state ≡ edited engine.old.state edit) }
    ensures lower { IfOk result (λ lowers. lowers ≡ true → is_lower (totals engine.old.parts engine.new.state) (totals engine.old.parts engine.old.state) ≡ true) }
    ensures left { IfOk result (λ lowers. lowers ≡ false → engine.new.state ≡ engine.old.state) }
    ensures err { OnErr result (engine.new.state ≡ engine.old.state) }
    ensures marks { length engine.new.saved ≡ length engine.old.saved }
{
    let before = engine.totals();
    engine.edit(edit, steps)?;
    if engine.totals().is_lower(before) {
        return Ok(true);
    }
    let Ok(()) = engine.undo(steps) else {
        unreachable!()
    };
    Ok(false)
}
