//! The construction of a timetable.

ghost use Rattle.std.specs.Prelude.{◌≡◌, ◌<◌, IfOk};
ghost use Rattle.construct.specs.Constructed.{IsBuilt};
ghost use Rattle.khe_engine.specs.Values.{ServesAll};
ghost use Rattle.khe_instance.specs.States.{IsValid};

use construct::{Built, construct};
use khe_base::NoMemory;
use khe_instance::Instance;
use khe_told::{Blank, Family, Steps};
use std::alloc::Global;
use std::marker::Brand;
use std::sync::ledger::Ledger;

/// Constructs a timetable of an instance, without counting steps.
///
/// It fails only where memory is refused. It takes what `construct` takes.
pub fn build<F: Family + Drop>(alloc: Global, inst: &Instance) -> Result<Built, NoMemory>
    requires joined { F.IsWellJoined }
    requires serves { ServesAll F.serves_kind }
    ensures built { IfOk result (IsBuilt inst.now) }
    ensures valid { IfOk result (λ b. IsValid inst.now b.plain) }
{
    build_with::<F, Brand>(alloc, inst, Blank::new(1))
}

/// Constructs a timetable with a ledger of steps.
fn build_with<F: Family + Drop, L: Ledger>(
    alloc: Global,
    inst: &Instance,
    blank: Blank,
) -> Result<Built, NoMemory>
    requires joined { F.IsWellJoined }
    requires serves { ServesAll F.serves_kind }
    requires name { blank.name ≡ L.name }
    requires parts { blank.parts ≡ L.parts }
    requires some { 0 < blank.parts }
    ensures built { IfOk result (IsBuilt inst.now) }
    ensures valid { IfOk result (λ b. IsValid inst.now b.plain) }
{
    let mut steps = Steps::<L>::new(blank);
    construct::<F, L>(alloc, inst, &mut steps)
}
