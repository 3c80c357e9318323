//! How a session is opened: the archive is read, its solution completed, and an engine opened on it.

ghost use Rattle.std.specs.Prelude.{◌≡◌, ◌≤◌, ◌<◌, Some, length, slice_get, encode_utf8_all, IfErr, IfOk};
ghost use Rattle.archive_reading.specs.Ready.{IsReady};
ghost use Rattle.archive_reading.specs.Refusals.{refusal_line};
ghost use Rattle.archive_reading.specs.Starting.{start_of};
ghost use Rattle.khe_base.specs.declared.limits.TheConstants.{ARCHIVE_BYTES};
ghost use Rattle.khe_engine.specs.Values.{ServesAll};
ghost use Rattle.khe_instance.specs.States.{IsValid};
ghost use Rattle.khe_session.specs.Openings.{HasBegun, HasOpened, HasStarted, IsBarredBy, IsLineOf, IsStoppedBy, IsTold};

use crate::faults::Unopened;
use crate::resting::{Kept, SessionOn};
use archive_reading::{ReadArchive, Refusal, Unread, begin, read_slice, refusal_line};
use khe_base::NoMemory;
use khe_engine::Engine;
use khe_instance::{Instance, Plain};
use script_run::Shortages;
use std::alloc::Global;
use xhstt_resolve::Resolved;
use xhstt_shape::Archive;

/// A session over these families on the solution with a number of the archive that these bytes spell.
pub(crate) fn open_on<F: Shortages + Drop>(
    alloc: Global,
    bytes: &[u8],
    solution: u32,
) -> Result<SessionOn<F>, Unopened>
    requires joined { F.IsWellJoined }
    requires serves { ServesAll F.serves_kind }
    requires small { length bytes.now ≤ ARCHIVE_BYTES }
    ensures opened { IfOk result (HasOpened bytes.now solution) }
    ensures barred { IfErr result (IsBarredBy bytes.now solution) }
{
    match read_slice(alloc, bytes) {
        Ok(read) => begin_on(alloc, read, solution),
        Err(unread) => Err(unopened(alloc, unread)),
    }
}

/// A session on the solution with a number of an archive that was read.
fn begin_on<F: Shortages + Drop>(
    alloc: Global,
    read: ReadArchive,
    solution: u32,
) -> Result<SessionOn<F>, Unopened>
    requires joined { F.IsWellJoined }
    requires serves { ServesAll F.serves_kind }
    requires ready { IsReady read.archive read.resolved }
    ensures begun { IfOk result (HasBegun read.archive read.resolved solution) }
    ensures barred { IfErr result (IsStoppedBy (start_of read.archive read.resolved solution)) }
{
    match begin(alloc, &read.archive, &read.resolved, solution) {
        Ok((instance, plain)) => {
            let ReadArchive { archive, resolved } = read;
            let instance = instance_of(resolved, instance);
            match start_on(alloc, instance, &plain, archive, solution) {
                Ok(session) => Ok(session),
                Err(NoMemory) => Err(Unopened::NoMemory),
            }
        }
        Err(unread) => Err(unopened(alloc, unread)),
    }
}

/// The instance with a number, by itself.
fn instance_of(resolved: Resolved, number: usize) -> Instance
    requires { number < length resolved.instances }
    ensures { slice_get resolved.instances number ≡ Some result }
{
    let Resolved {
        instances,
        of: _,
        followed: _,
    } = resolved;
    let mut items = instances.items;
    items.swap_remove(number)
}

/// A session on a timetable of an instance.
fn start_on<F: Shortages + Drop>(
    alloc: Global,
    instance: Instance,
    plain: &Plain,
    archive: Archive,
    solution: u32,
) -> Result<SessionOn<F>, NoMemory>
    requires joined { F.IsWellJoined }
    requires serves { ServesAll F.serves_kind }
    requires valid { IsValid instance plain.now }
    ensures { IfOk result (HasStarted archive solution instance plain.now) }
{
    let engine = Engine::<F>::open(alloc, &instance, plain)?;
    let rest = engine.rest();
    Ok(SessionOn {
        instance,
        solution,
        lines: 0,
        kept: Some(Kept { archive, rest }),
    })
}

/// Why no session is opened where an archive is not read, or its solution not begun with.
fn unopened(alloc: Global, unread: Unread) -> Unopened
    ensures { IsTold unread result }
{
    match unread {
        Unread::Refused(refusal) => refused(alloc, refusal),
        Unread::NoMemory => Unopened::NoMemory,
    }
}

/// The line that refuses an archive as a reason.
fn refused(alloc: Global, refusal: Refusal) -> Unopened
    ensures { IsLineOf refusal result }
{
    match line_of(alloc, refusal) {
        Ok(line) => Unopened::Refused(line),
        Err(NoMemory) => Unopened::NoMemory,
    }
}

/// The bytes of the line that refuses an archive.
fn line_of(alloc: Global, refusal: Refusal) -> Result<Vec<u8>, NoMemory>
    ensures { IfOk result (λ line. line.items ≡ encode_utf8_all (refusal_line refusal)) }
{
    let text = refusal_line(alloc, refusal)?;
    let mut line = Vec::new(alloc);
    line.extend_from_slice(text.as_bytes())?;
    Ok(line)
}
