//! An archive and a line after it, to a sink.

ghost use Rattle.std.specs.Prelude.{◌≡◌, ◌≤◌, ◌++◌, IfOk, OnOk, OnErr, IsErrOf, encode_utf8_all};
ghost use Rattle.khe_instance.specs.States.{IsTold};
ghost use Rattle.khe_io.specs.Faults.{Rose, Took, TookFront};
ghost use Rattle.repair_run.specs.Lines as lines;
ghost use Rattle.repair_run.specs.Placed.{respelled};
ghost use Rattle.repair_run.specs.Repairs.{repair_bytes};
ghost use Rattle.xhstt_writer.specs.Archives.{canonical};

use crate::lines::repair_line;
use crate::mending::Mended;
use crate::placing::respell;
use khe_base::{NoMemory, Text};
use khe_instance::Instance;
use khe_io::{Sink, put_all};
use std::alloc::Global;
use xhstt_shape::Archive;
use xhstt_writer::{SendFault, send};

/// Gives a sink the bytes of an archive in its canonical spelling, and then those of a line.
///
/// After `Ok` the sink took them all. `WriteFault` comes only with a fault that the sink counted, and
/// with any other answer it counted none. After each error the sink took some first bytes of them. It takes what `send` takes, and time in proportion
/// to the line.
pub fn send_with<K: Sink>(
    alloc: Global,
    archive: &Archive,
    line: &Text,
    out: &mut K,
) -> Result<(), SendFault>
    ensures whole { OnOk result (Took (K.taken out.old) (K.taken out.new) (canonical archive.now ++ encode_utf8_all line.now)) }
    ensures front { OnErr result (TookFront (K.taken out.old) (K.taken out.new) (canonical archive.now ++ encode_utf8_all line.now)) }
    ensures failed { IsErrOf result SendFault.WriteFault → Rose (K.faults out.old) (K.faults out.new) }
    ensures faultless { OnOk result (K.faults out.new ≡ K.faults out.old) }
    ensures faultless_starved { IsErrOf result SendFault.NoMemory → K.faults out.new ≡ K.faults out.old }
    ensures counted { K.faults out.old ≤ K.faults out.new }
{
    match send(alloc, archive, out) {
        Ok(()) => put_line(out, line),
        Err(fault) => Err(fault),
    }
}

/// Gives a sink the bytes of a line.
fn put_line<K: Sink>(out: &mut K, line: &Text) -> Result<(), SendFault>
    ensures whole { OnOk result (Took (K.taken out.old) (K.taken out.new) (encode_utf8_all line.now)) }
    ensures front { OnErr result (TookFront (K.taken out.old) (K.taken out.new) (encode_utf8_all line.now)) }
    ensures failed { OnErr result (Rose (K.faults out.old) (K.faults out.new)) }
    ensures faultless { OnOk result (K.faults out.new ≡ K.faults out.old) }
    ensures faultless_starved { IsErrOf result SendFault.NoMemory → K.faults out.new ≡ K.faults out.old }
    ensures counted { K.faults out.old ≤ K.faults out.new }
{
    match put_all(out, line.as_bytes()) {
        Ok(()) => Ok(()),
        Err(_) => Err(SendFault::WriteFault),
    }
}

/// Puts what a repair leaves in place of the solution with this number of an archive, and gives a sink
/// the archive with the line on the repair.
///
/// After `Ok` the sink took them whole. `WriteFault` comes only with a fault that the sink counted, and
/// with any other answer it counted none. After each error the sink took some first bytes of them, and the archive may have the old solution or the
/// new one. It takes what `respell` and `send` take.
pub fn send_repaired<K: Sink>(
    alloc: Global,
    archive: &mut Archive,
    number: u32,
    inst: &Instance,
    mended: &Mended,
    out: &mut K,
) -> Result<(), SendFault>
    requires { IsTold inst.now mended.now.plain.meets mended.now.plain.tasks }
    ensures whole { OnOk result (Took (K.taken out.old) (K.taken out.new) (repair_bytes archive.old number inst.now mended.now)) }
    ensures front { OnErr result (TookFront (K.taken out.old) (K.taken out.new) (repair_bytes archive.old number inst.now mended.now)) }
    ensures failed { IsErrOf result SendFault.WriteFault → Rose (K.faults out.old) (K.faults out.new) }
    ensures faultless { OnOk result (K.faults out.new ≡ K.faults out.old) }
    ensures faultless_starved { IsErrOf result SendFault.NoMemory → K.faults out.new ≡ K.faults out.old }
    ensures counted { K.faults out.old ≤ K.faults out.new }
{
    match prepare(alloc, archive, number, inst, mended) {
        Ok(line) => send_with(alloc, archive, &line, out),
        Err(NoMemory) => Err(SendFault::NoMemory),
    }
}

/// Puts what a repair leaves in place of a solution, and forms the line on it.
fn prepare(
    alloc: Global,
    archive: &mut Archive,
    number: u32,
    inst: &Instance,
    mended: &Mended,
) -> Result<Text, NoMemory>
    requires { IsTold inst.now mended.now.plain.meets mended.now.plain.tasks }
    ensures archive { OnOk result (archive.new ≡ respelled archive.old number inst.now mended.now.plain) }
    ensures line { IfOk result (λ t. t ≡ lines.repair_line mended.now.outcome mended.now.totals) }
{
    respell(alloc, archive, number, inst, &mended.plain)?;
    repair_line(alloc, mended.outcome, mended.totals)
}
