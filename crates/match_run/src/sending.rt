//! An archive with a timetable whose tasks of one time are matched, and the lines on it, to a sink.

ghost use Rattle.std.specs.Prelude.{◌≡◌, ◌≤◌, IfOk, OnOk, OnErr, IsErrOf};
ghost use Rattle.khe_instance.specs.States.{IsTold};
ghost use Rattle.khe_io.specs.Faults.{Rose, Took, TookFront};
ghost use Rattle.match_run.specs.Fitting.{FitsLists};
ghost use Rattle.match_run.specs.Texts.{match_bytes};
ghost use Rattle.match_run.specs.Lines as lines;
ghost use Rattle.repair_run.specs.Placed.{respelled};
ghost use Rattle.resource_match.specs.Choices.{IsCertified};
ghost use Rattle.resource_match.specs.declared.choices.Costs.{Costs};

use crate::finding::Found;
use crate::lines::match_lines;
use khe_base::{NoMemory, Text};
use khe_instance::Instance;
use khe_io::Sink;
use repair_run::{respell, send_with};
use std::alloc::Global;
use xhstt_shape::Archive;
use xhstt_writer::SendFault;

/// Puts the timetable that a matching leaves in place of the solution with this number of an archive, and gives a sink
/// the archive with the lines on the matching.
///
/// After `Ok` the sink took them whole. `WriteFault` comes only with a fault that the sink counted, and with any other
/// answer it counted none. After each error the sink took some first bytes of them, and the archive may have the old
/// solution or the new one. It takes what `respell`, `match_lines` and `send` take.
pub fn send_matched<K: Sink>(
    alloc: Global,
    archive: &mut Archive,
    number: u32,
    inst: &Instance,
    found: &Found,
    out: &mut K,
) -> Result<(), SendFault>
    requires told { IsTold inst.now found.now.plain.meets found.now.plain.tasks }
    requires certified { (costs : Costs) × FitsLists found.now.matched costs × IsCertified costs found.now.matched.cheapest }
    ensures whole { OnOk result (Took (K.taken out.old) (K.taken out.new) (match_bytes archive.old number inst.now found.now)) }
    ensures front { OnErr result (TookFront (K.taken out.old) (K.taken out.new) (match_bytes archive.old number inst.now found.now)) }
    ensures failed { IsErrOf result SendFault.WriteFault → Rose (K.faults out.old) (K.faults out.new) }
    ensures faultless { OnOk result (K.faults out.new ≡ K.faults out.old) }
    ensures faultless_starved { IsErrOf result SendFault.NoMemory → K.faults out.new ≡ K.faults out.old }
    ensures counted { K.faults out.old ≤ K.faults out.new }
{
    match prepare(alloc, archive, number, inst, found) {
        Ok(lines) => send_with(alloc, archive, &lines, out),
        Err(NoMemory) => Err(SendFault::NoMemory),
    }
}

/// Puts the timetable in place of the solution, and forms the lines on the matching.
fn prepare(
    alloc: Global,
    archive: &mut Archive,
    number: u32,
    inst: &Instance,
    found: &Found,
) -> Result<Text, NoMemory>
    requires told { IsTold inst.now found.now.plain.meets found.now.plain.tasks }
    requires certified { (costs : Costs) × FitsLists found.now.matched costs × IsCertified costs found.now.matched.cheapest }
    ensures archive { OnOk result (archive.new ≡ respelled archive.old number inst.now found.now.plain) }
    ensures lines { IfOk result (λ t. t ≡ lines.match_lines found.now.matched found.now.totals) }
{
    respell(alloc, archive, number, inst, &found.plain)?;
    match_lines(alloc, &found.matched, found.totals)
}
