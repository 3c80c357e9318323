//! What a script begins with: one solution of an archive, completed.

ghost use Rattle.std.specs.Prelude.{IfOk, IfErr};
ghost use Rattle.khe_app.specs.Answers.{IsBegun};
ghost use Rattle.archive_reading.specs.Starting.{IsBarredBy, start_of};
ghost use Rattle.archive_reading.specs.Ready.{IsReady};

use archive_reading::{ReadArchive, Unread, begin};
use khe_instance::Plain;
use std::alloc::Global;
use xhstt_resolve::Resolved;

/// A timetable of one of the instances of an archive.
#[derive(Drop)]
pub struct Begun {
    pub instance: usize,
    pub plain: Plain,
    pub resolved: Resolved,
}

/// The solution with this number, completed; or why there is none. It takes what reading the solution
/// takes, and keeps the instances without the archive.
pub(crate) fn start(alloc: Global, read: ReadArchive, number: u32) -> Result<Begun, Unread>
    requires { IsReady read.archive read.resolved }
    ensures begun { IfOk result (IsBegun (start_of read.archive read.resolved number)) }
    ensures barred { IfErr result (IsBarredBy (start_of read.archive read.resolved number)) }
{
    let ReadArchive { archive, resolved } = read;
    match begin(alloc, &archive, &resolved, number) {
        Ok((instance, plain)) => Ok(Begun {
            instance,
            plain,
            resolved,
        }),
        Err(unread) => Err(unread),
    }
}
