//! An archive with the least result of many repairs, and the line on them, to a sink.

ghost use Rattle.std.specs.Prelude.{◌≡◌, ◌≤◌, IfOk, OnOk, OnErr, IsErrOf};
ghost use Rattle.khe_instance.specs.States.{IsTold};
ghost use Rattle.khe_io.specs.Faults.{Rose, Took, TookFront};
ghost use Rattle.repair_run.specs.Lines as lines;
ghost use Rattle.repair_run.specs.Placed.{respelled};
ghost use Rattle.repair_run.specs.Solves.{solve_bytes};

use crate::lines::solve_line;
use crate::placing::respell;
use crate::sending::send_with;
use khe_base::{NoMemory, Text};
use khe_instance::Instance;
use khe_io::Sink;
use parallel_repair::Solved;
use std::alloc::Global;
use xhstt_shape::Archive;
use xhstt_writer::SendFault;

/// Puts the least result of many repairs in place of the solution with this number of an archive, and
/// gives a sink the archive with the line on its job.
///
/// After `Ok` the sink took them whole. `WriteFault` comes only with a fault that the sink counted, and
/// with any other answer it counted none. After each error the sink took some first bytes of them, and the archive may have the old solution or the
/// new one. It takes what `respell` and `send` take.
pub fn send_solved<K: Sink>(
    alloc: Global,
    archive: &mut Archive,
    number: u32,
    inst: &Instance,
    solved: &Solved,
    out: &mut K,
) -> Result<(), SendFault>
    requires { IsTold inst.now solved.now.plain.meets solved.now.plain.tasks }
    ensures whole { OnOk result (Took (K.taken out.old) (K.taken out.new) (solve_bytes archive.old number inst.now solved.now)) }
    ensures front { OnErr result (TookFront (K.taken out.old) (K.taken out.new) (solve_bytes archive.old number inst.now solved.now)) }
    ensures failed { IsErrOf result SendFault.WriteFault → Rose (K.faults out.old) (K.faults out.new) }
    ensures faultless { OnOk result (K.faults out.new ≡ K.faults out.old) }
    ensures faultless_starved { IsErrOf result SendFault.NoMemory → K.faults out.new ≡ K.faults out.old }
    ensures counted { K.faults out.old ≤ K.faults out.new }
{
    match prepare_solved(alloc, archive, number, inst, solved) {
        Ok(line) => send_with(alloc, archive, &line, out),
        Err(NoMemory) => Err(SendFault::NoMemory),
    }
}

/// Puts the least result in place of a solution, and forms the line on its job.
fn prepare_solved(
    alloc: Global,
    archive: &mut Archive,
    number: u32,
    inst: &Instance,
    solved: &Solved,
) -> Result<Text, NoMemory>
    requires { IsTold inst.now solved.now.plain.meets solved.now.plain.tasks }
    ensures archive { OnOk result (archive.new ≡ respelled archive.old number inst.now solved.now.plain) }
    ensures line { IfOk result (λ t. t ≡ lines.solve_line solved.now.job solved.now.totals) }
{
    respell(alloc, archive, number, inst, &solved.plain)?;
    solve_line(alloc, solved.job, solved.totals)
}
