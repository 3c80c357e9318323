//! Scripts: what is run, on what, and what is written.

ghost use Rattle.std.specs.Prelude.{◌≡◌, ◌≤◌, ◌⊎◌, ℕ, true, false, List, encode_utf8_all, length};
ghost use Rattle.khe_base.specs.declared.limits.TheConstants.{SCRIPT_BYTES};
ghost use Rattle.khe_engine.specs.Values.{ServesAll};
ghost use Rattle.khe_instance.specs.States.{IsValid};
ghost use Rattle.khe_app.specs.Ends.{status_after};
ghost use Rattle.reading_commands.specs.Ends.{Written};
ghost use Rattle.khe_app.specs.Outcome.{IsRunOf};

use followers::Tied;
use hall_report::WithDemands;
use khe_base::NoMemory;
use khe_engine::Engine;
use khe_instance::{Instance, Plain};
use khe_io::{Cut, Sink};
use reading_commands::Status;
use script_run::{PutOff, Shortages, asks_often, run};
use sixteen_families::Families;
use std::alloc::Global;
use tied_run::TiedPlayer;

/// Runs a script on a timetable, whose lines may speak of ties or not, and writes its answers. It takes what opening an engine takes, and then
/// what the script takes. Demands are kept only where the script asks for them more than once: then each
/// change is noted to them too, and else the one line finds them anew.
pub(crate) fn play_script<K: Sink>(
    alloc: Global,
    out: &mut K,
    inst: &Instance,
    plain: &Plain,
    script: &[u8],
    tied: bool,
) -> Status
    requires valid { IsValid inst.now plain.now }
    requires small { length script.now ≤ SCRIPT_BYTES }
    ensures written { ((result.0 ≡ 6) × (K.taken out.new ≡ K.taken out.old)) ⊎ ((status : ℕ) × (text : List ℕ) × IsRunOf tied inst.now plain.now script.now status text
        × Written (K.taken out.old) (K.taken out.new) (K.faults out.old) (K.faults out.new) (encode_utf8_all text) status result.0) }
    ensures write_fault_ends { (result.0 ≡ 5) ⊎ (K.faults out.new ≡ K.faults out.old) }
    ensures sink_faults { K.faults out.old ≤ K.faults out.new }
{
    if asks_often(script) {
        play_by::<K, WithDemands<Families>>(alloc, out, inst, plain, script, tied)
    } else {
        play_by::<K, Families>(alloc, out, inst, plain, script, tied)
    }
}

/// Runs a script by the table of lines that it is written in, with these families.
fn play_by<K: Sink, F: Shortages + Drop>(
    alloc: Global,
    out: &mut K,
    inst: &Instance,
    plain: &Plain,
    script: &[u8],
    tied: bool,
) -> Status
    requires joined { F.IsWellJoined }
    requires serves { ServesAll F.serves_kind }
    requires valid { IsValid inst.now plain.now }
    requires small { length script.now ≤ SCRIPT_BYTES }
    ensures written { ((result.0 ≡ 6) × (K.taken out.new ≡ K.taken out.old)) ⊎ ((status : ℕ) × (text : List ℕ) × IsRunOf tied inst.now plain.now script.now status text
        × Written (K.taken out.old) (K.taken out.new) (K.faults out.old) (K.faults out.new) (encode_utf8_all text) status result.0) }
    ensures write_fault_ends { (result.0 ≡ 5) ⊎ (K.faults out.new ≡ K.faults out.old) }
    ensures sink_faults { K.faults out.old ≤ K.faults out.new }
{
    if tied {
        play_tied::<K, F>(alloc, out, inst, plain, script)
    } else {
        play_on::<K, F>(alloc, out, inst, plain, script)
    }
}

/// Runs a script on an engine with these families.
fn play_on<K: Sink, F: Shortages + Drop>(
    alloc: Global,
    out: &mut K,
    inst: &Instance,
    plain: &Plain,
    script: &[u8],
) -> Status
    requires joined { F.IsWellJoined }
    requires serves { ServesAll F.serves_kind }
    requires valid { IsValid inst.now plain.now }
    requires small { length script.now ≤ SCRIPT_BYTES }
    ensures written { ((result.0 ≡ 6) × (K.taken out.new ≡ K.taken out.old)) ⊎ ((status : ℕ) × (text : List ℕ) × IsRunOf false inst.now plain.now script.now status text
        × Written (K.taken out.old) (K.taken out.new) (K.faults out.old) (K.faults out.new) (encode_utf8_all text) status result.0) }
    ensures write_fault_ends { (result.0 ≡ 5) ⊎ (K.faults out.new ≡ K.faults out.old) }
    ensures sink_faults { K.faults out.old ≤ K.faults out.new }
{
    match Engine::<F>::open(alloc, inst, plain) {
        Ok(engine) => {
            let mut player = PutOff::new(engine);
            let ended = run(alloc, &mut player, script, out);
            drop(player);
            status_after(ended)
        }
        Err(NoMemory) => Status(6),
    }
}

/// Runs a script with ties on a timetable with these families.
fn play_tied<K: Sink, F: Shortages + Drop>(
    alloc: Global,
    out: &mut K,
    inst: &Instance,
    plain: &Plain,
    script: &[u8],
) -> Status
    requires joined { F.IsWellJoined }
    requires serves { ServesAll F.serves_kind }
    requires valid { IsValid inst.now plain.now }
    requires small { length script.now ≤ SCRIPT_BYTES }
    ensures written { ((result.0 ≡ 6) × (K.taken out.new ≡ K.taken out.old)) ⊎ ((status : ℕ) × (text : List ℕ) × IsRunOf true inst.now plain.now script.now status text
        × Written (K.taken out.old) (K.taken out.new) (K.faults out.old) (K.faults out.new) (encode_utf8_all text) status result.0) }
    ensures write_fault_ends { (result.0 ≡ 5) ⊎ (K.faults out.new ≡ K.faults out.old) }
    ensures sink_faults { K.faults out.old ≤ K.faults out.new }
{
    match Tied::<F>::open(alloc, inst, plain) {
        Ok(tied) => {
            let mut player = TiedPlayer { tied };
            let ended = run(alloc, &mut player, script, out);
            drop(player);
            status_after(ended)
        }
        Err(NoMemory) => Status(6),
    }
}

/// The status after a run of a script, which was read to its end or not, or cut off.
fn status_after(ended: Result<bool, Cut>) -> Status
    ensures { result.0 ≡ status_after ended }
{
    match ended {
        Ok(true) => Status(0),
        Ok(false) => Status(7),
        Err(Cut::WriteFault) => Status(5),
        Err(Cut::NoMemory) => Status(6),
    }
}
