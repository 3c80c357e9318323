//! A talk on a solution of an archive that was read.

ghost use Rattle.std.specs.Prelude.{◌≡◌, ◌≤◌, ◌⊎◌};
ghost use Rattle.archive_reading.specs.Starting.{start_of};
ghost use Rattle.archive_reading.specs.Ready.{IsReady};
ghost use Rattle.khe_engine.specs.Values.{ServesAll};
ghost use Rattle.khe_io.specs.Faults.{Rose};
ghost use Rattle.khe_instance.specs.States.{IsValid};
ghost use Rattle.talk_app.specs.Ends.{IsEnd, status_after};
ghost use Rattle.talk_app.specs.Outcome.{IsTalkOf, IsTalkOn};

use archive_reading::{ReadArchive, Unread, begin, instance_numbered};
use hall_report::WithDemands;
use khe_app::{Status, put_refusal};
use khe_base::NoMemory;
use khe_engine::Engine;
use khe_instance::{Instance, Plain};
use khe_io::Sink;
use script_run::Shortages;
use sixteen_families::Families;
use std::alloc::Global;
use std::io::BufRead;
use talk_run::{Lines, Speaker, TalkFault, talk};
use xhstt_shape::Archive;

/// Talks on the solution with this number, or writes the line that refuses it, with demands that are kept or not.
pub(crate) fn talk_on<R: BufRead, K: Sink>(
    alloc: Global,
    lines: &mut Lines<R>,
    out: &mut K,
    read: ReadArchive,
    solution: u32,
    demands: bool,
) -> Status
    requires { IsReady read.archive read.resolved }
    ensures end { IsEnd (IsTalkOf read.archive solution (start_of read.archive read.resolved solution))
        (R.remaining lines.old.reader) (K.taken out.old) (K.taken out.new) (K.faults out.old) (K.faults out.new) result.0 }
    ensures write_fault_ends { (result.0 ≡ 5) ⊎ (K.faults out.new ≡ K.faults out.old) }
    ensures sink_faults { K.faults out.old ≤ K.faults out.new }
    ensures read_fault { result.0 ≡ 4 → Rose lines.old.faults lines.new.faults }
    ensures line_fault_ends { (result.0 ≡ 4) ⊎ (lines.new.faults ≡ lines.old.faults) }
{
    if demands {
        talk_with::<R, K, WithDemands<Families>>(alloc, lines, out, read, solution)
    } else {
        talk_with::<R, K, Families>(alloc, lines, out, read, solution)
    }
}

/// Talks on the solution with this number with these families, or writes the line that refuses it.
fn talk_with<R: BufRead, K: Sink, F: Shortages + Drop>(
    alloc: Global,
    lines: &mut Lines<R>,
    out: &mut K,
    read: ReadArchive,
    solution: u32,
) -> Status
    requires ready { IsReady read.archive read.resolved }
    requires joined { F.IsWellJoined }
    requires serves { ServesAll F.serves_kind }
    ensures end { IsEnd (IsTalkOf read.archive solution (start_of read.archive read.resolved solution))
        (R.remaining lines.old.reader) (K.taken out.old) (K.taken out.new) (K.faults out.old) (K.faults out.new) result.0 }
    ensures write_fault_ends { (result.0 ≡ 5) ⊎ (K.faults out.new ≡ K.faults out.old) }
    ensures sink_faults { K.faults out.old ≤ K.faults out.new }
    ensures read_fault { result.0 ≡ 4 → Rose lines.old.faults lines.new.faults }
    ensures line_fault_ends { (result.0 ≡ 4) ⊎ (lines.new.faults ≡ lines.old.faults) }
{
    match begin(alloc, &read.archive, &read.resolved, solution) {
        Ok((instance, plain)) => {
            let ReadArchive { archive, resolved } = read;
            let inst = instance_numbered(&resolved, instance);
            let status = talk_by::<R, K, F>(alloc, lines, out, inst, &plain, archive, solution);
            drop(resolved);
            drop(plain);
            status
        }
        Err(Unread::Refused(refusal)) => {
            let status = put_refusal(alloc, out, refusal);
            drop(read);
            status
        }
        Err(Unread::NoMemory) => {
            drop(read);
            Status(6)
        }
    }
}

/// Talks on a timetable with these families.
fn talk_by<R: BufRead, K: Sink, F: Shortages + Drop>(
    alloc: Global,
    lines: &mut Lines<R>,
    out: &mut K,
    inst: &Instance,
    plain: &Plain,
    archive: Archive,
    solution: u32,
) -> Status
    requires joined { F.IsWellJoined }
    requires serves { ServesAll F.serves_kind }
    requires valid { IsValid inst.now plain.now }
    ensures end { IsEnd (IsTalkOn archive solution inst.now plain.now) (R.remaining lines.old.reader) (K.taken out.old)
        (K.taken out.new) (K.faults out.old) (K.faults out.new) result.0 }
    ensures write_fault_ends { (result.0 ≡ 5) ⊎ (K.faults out.new ≡ K.faults out.old) }
    ensures sink_faults { K.faults out.old ≤ K.faults out.new }
    ensures read_fault { result.0 ≡ 4 → Rose lines.old.faults lines.new.faults }
    ensures line_fault_ends { (result.0 ≡ 4) ⊎ (lines.new.faults ≡ lines.old.faults) }
{
    match Engine::<F>::open(alloc, inst, plain) {
        Ok(engine) => {
            let mut speaker = Speaker {
                engine,
                archive,
                solution,
            };
            let ended = talk(alloc, &mut speaker, lines, out);
            drop(speaker);
            status_after(ended)
        }
        Err(NoMemory) => {
            drop(archive);
            Status(6)
        }
    }
}

/// The status after a talk.
fn status_after(ended: Result<(), TalkFault>) -> Status
    ensures { result.0 ≡ status_after ended }
{
    match ended {
        Ok(()) => Status(0),
        Err(TalkFault::ReadFault) => Status(4),
        Err(TalkFault::WriteFault) => Status(5),
        Err(TalkFault::NoMemory) => Status(6),
    }
}
