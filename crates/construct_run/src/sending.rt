//! An archive with a constructed timetable, and the lines on it, to a sink.

ghost use Rattle.std.specs.Prelude.{◌≡◌, ◌≤◌, ◌++◌, IfOk, OnOk, OnErr, IsErrOf};
ghost use Rattle.construct_run.specs.Constructs.{built_bytes, built_line, mended_bytes};
ghost use Rattle.construct_run.specs.Grouped.{grouped};
ghost use Rattle.khe_instance.specs.States.{IsTold};
ghost use Rattle.khe_io.specs.Faults.{Rose, Took, TookFront};
ghost use Rattle.repair_run.specs.Lines.{repair_line};

use crate::grouping::regroup;
use crate::lines::construct_line;
use construct::Built;
use khe_base::{NoMemory, Text};
use khe_instance::Instance;
use khe_io::Sink;
use repair_run::{Mended, repair_line, send_with};
use std::alloc::Global;
use xhstt_shape::Archive;
use xhstt_writer::SendFault;

/// Puts what was built in place of all solutions of an archive, and gives a sink the archive with the line on it.
///
/// After `Ok` the sink took them whole. `WriteFault` comes only with a fault that the sink counted, and with any
/// other answer it counted none. After each error the sink took some first bytes of them, and the archive may have
/// the old solutions or the new one. It takes what `regroup` and `send` take.
pub fn send_built<K: Sink>(
    alloc: Global,
    archive: &mut Archive,
    inst: &Instance,
    built: &Built,
    out: &mut K,
) -> Result<(), SendFault>
    requires { IsTold inst.now built.now.plain.meets built.now.plain.tasks }
    ensures whole { OnOk result (Took (K.taken out.old) (K.taken out.new) (built_bytes archive.old inst.now built.now)) }
    ensures front { OnErr result (TookFront (K.taken out.old) (K.taken out.new) (built_bytes archive.old inst.now built.now)) }
    ensures failed { IsErrOf result SendFault.WriteFault → Rose (K.faults out.old) (K.faults out.new) }
    ensures faultless { OnOk result (K.faults out.new ≡ K.faults out.old) }
    ensures faultless_starved { IsErrOf result SendFault.NoMemory → K.faults out.new ≡ K.faults out.old }
    ensures counted { K.faults out.old ≤ K.faults out.new }
{
    match prepare_built(alloc, archive, inst, built) {
        Ok(line) => send_with(alloc, archive, &line, out),
        Err(NoMemory) => Err(SendFault::NoMemory),
    }
}

/// Puts what a repair leaves of what was built in place of all solutions of an archive, and gives a sink the archive
/// with the line on what was built and the one on the repair.
///
/// Its errors, what stands after them, and what it takes are those of `send_built`.
pub fn send_mended<K: Sink>(
    alloc: Global,
    archive: &mut Archive,
    inst: &Instance,
    built: &Built,
    mended: &Mended,
    out: &mut K,
) -> Result<(), SendFault>
    requires { IsTold inst.now mended.now.plain.meets mended.now.plain.tasks }
    ensures whole { OnOk result (Took (K.taken out.old) (K.taken out.new) (mended_bytes archive.old inst.now built.now mended.now)) }
    ensures front { OnErr result (TookFront (K.taken out.old) (K.taken out.new) (mended_bytes archive.old inst.now built.now mended.now)) }
    ensures failed { IsErrOf result SendFault.WriteFault → Rose (K.faults out.old) (K.faults out.new) }
    ensures faultless { OnOk result (K.faults out.new ≡ K.faults out.old) }
    ensures faultless_starved { IsErrOf result SendFault.NoMemory → K.faults out.new ≡ K.faults out.old }
    ensures counted { K.faults out.old ≤ K.faults out.new }
{
    match prepare_mended(alloc, archive, inst, built, mended) {
        Ok(line) => send_with(alloc, archive, &line, out),
        Err(NoMemory) => Err(SendFault::NoMemory),
    }
}

/// The line on what was built.
fn built_line(alloc: Global, built: &Built) -> Result<Text, NoMemory>
    ensures { IfOk result (λ t. t ≡ built_line built.now) }
{
    construct_line(alloc, built.plain.meets.len() as u64, built.totals)
}

/// The line on what was built and the one on the repair of it.
fn both_lines(alloc: Global, built: &Built, mended: &Mended) -> Result<Text, NoMemory>
    ensures { IfOk result (λ t. t ≡ built_line built.now ++ repair_line mended.now.outcome mended.now.totals) }
{
    let mut line = built_line(alloc, built)?;
    let more = repair_line(alloc, mended.outcome, mended.totals)?;
    line.push_text(&more)?;
    Ok(line)
}

/// Puts what was built in place of all solutions, and forms the line on it.
fn prepare_built(
    alloc: Global,
    archive: &mut Archive,
    inst: &Instance,
    built: &Built,
) -> Result<Text, NoMemory>
    requires { IsTold inst.now built.now.plain.meets built.now.plain.tasks }
    ensures archive { OnOk result (archive.new ≡ grouped archive.old inst.now built.now.plain) }
    ensures line { IfOk result (λ t. t ≡ built_line built.now) }
{
    regroup(alloc, archive, inst, &built.plain)?;
    built_line(alloc, built)
}

/// Puts what a repair leaves in place of all solutions, and forms both lines.
fn prepare_mended(
    alloc: Global,
    archive: &mut Archive,
    inst: &Instance,
    built: &Built,
    mended: &Mended,
) -> Result<Text, NoMemory>
    requires { IsTold inst.now mended.now.plain.meets mended.now.plain.tasks }
    ensures archive { OnOk result (archive.new ≡ grouped archive.old inst.now mended.now.plain) }
    ensures line { IfOk result (λ t. t ≡ built_line built.now ++ repair_line mended.now.outcome mended.now.totals) }
{
    regroup(alloc, archive, inst, &mended.plain)?;
    both_lines(alloc, built, mended)
}
