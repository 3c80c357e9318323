//! Reading an archive with its instances.

ghost use Rattle.std.specs.Prelude.{ℕ, ◌≡◌, ◌≤◌, length, Ok, IfOk, IfErr};
ghost use Rattle.khe_base.specs.declared.limits.TheConstants.{ARCHIVE_BYTES};
ghost use Rattle.archive_reading.specs.Reading.{Reading, evaluable, IsReadingOf};
ghost use Rattle.archive_reading.specs.Steps.{IsTree, IsStoppedTree, IsStopped, IsUnread, IsUnshaped, of_resolve};
ghost use Rattle.archive_reading.specs.Ready.{IsReady};
ghost use Rattle.xhstt_shape.specs.Shape.{shape_of};
ghost use Rattle.xhstt_shape.specs.WellFormed.{IsWellFormed};
ghost use Rattle.xhstt_text.specs.Document.{Spelled};
ghost use Rattle.xhstt_text.specs.FirstFault.{IsFirstFault};
ghost use Rattle.xhstt_text.specs.Forest.{Forest};

use crate::refusals::Refusal;
use khe_base::{NoMemory, Seq};
use std::alloc::Global;
use xhstt_resolve::{ResolveFault, Resolved, resolve};
use xhstt_shape::reading::archive;
use xhstt_shape::{Archive, ShapeFault};
use xhstt_text::{TextFault, elements};

/// An archive with its instances.
#[derive(Drop)]
pub struct ReadArchive {
    pub archive: Archive,
    pub resolved: Resolved,
}

/// Why an archive is not read.
#[derive(Clone, Copy, PartialEq, Eq)]
pub enum Unread {
    /// It is refused.
    Refused(Refusal),
    /// Memory was refused.
    NoMemory,
}

impl From<TextFault> for Unread {
    ghost use Rattle.std.specs.Prelude.{◌≡◌};
    ghost use Rattle.archive_reading.specs.Steps.{of_text};

    ghost from_gives = { λ fault unread. unread ≡ of_text fault };

    fn from(fault: TextFault) -> Unread {
        match fault {
            TextFault::Bad { kind, at } => Unread::Refused(Refusal::Fault { kind, at }),
            TextFault::NoMemory => Unread::NoMemory,
        }
    }
}

impl From<ShapeFault> for Unread {
    ghost use Rattle.std.specs.Prelude.{◌≡◌};
    ghost use Rattle.archive_reading.specs.Steps.{of_shape};

    ghost from_gives = { λ fault unread. unread ≡ of_shape fault };

    fn from(fault: ShapeFault) -> Unread {
        match fault {
            ShapeFault::Bad { kind, at } => Unread::Refused(Refusal::Fault { kind, at }),
            ShapeFault::NoMemory => Unread::NoMemory,
        }
    }
}

/// The archive that these bytes spell. The tree of the text is kept no longer than this call.
fn archive_of(alloc: Global, bytes: &[u8]) -> Result<Archive, Unread>
    requires { length bytes.now ≤ ARCHIVE_BYTES }
    ensures tree { IfOk result (IsTree bytes.now) }
    ensures stopped { IfErr result (IsStoppedTree bytes.now) }
    ensures only { IfOk result (λ a. (t : Forest) → Spelled bytes.now t → shape_of t ≡ Ok a) }
    ensures none { IfErr result (IsUnshaped bytes.now) }
    ensures sound { IfOk result (λ a. (kind at : ℕ) → IsFirstFault bytes.now kind at → ⊥) }
    ensures formed { IfOk result IsWellFormed }
{
    let tree = elements(alloc, bytes)?;
    Ok(archive(alloc, &tree)?)
}

/// What these bytes lead to, as an archive to evaluate. The bytes are kept no longer than it takes
/// to read the archive from them.
pub fn read(alloc: Global, bytes: Seq<u8>) -> Result<ReadArchive, Unread>
    requires { length bytes ≤ ARCHIVE_BYTES }
    ensures read { IfOk result (λ r. IsReadingOf bytes (evaluable r.archive r.resolved)) }
    ensures ready { IfOk result (λ r. IsReady r.archive r.resolved) }
    ensures only { IfOk result (λ r. (x : Reading) → IsReadingOf bytes x → x ≡ evaluable r.archive r.resolved) }
    ensures stopped { IfErr result (IsStopped bytes) }
    ensures none { IfErr result (IsUnread bytes) }
{
    let archive = archive_of(alloc, bytes.as_slice())?;
    drop(bytes);
    match resolve(alloc, &archive) {
        Ok(resolved) => Ok(ReadArchive { archive, resolved }),
        Err(fault) => Err(unresolved(fault)),
    }
}

/// What these bytes lead to, where they are kept: the same as by `read`.
pub fn read_slice(alloc: Global, bytes: &[u8]) -> Result<ReadArchive, Unread>
    requires { length bytes.now ≤ ARCHIVE_BYTES }
    ensures read { IfOk result (λ r. IsReadingOf bytes.now (evaluable r.archive r.resolved)) }
    ensures ready { IfOk result (λ r. IsReady r.archive r.resolved) }
    ensures only { IfOk result (λ r. (x : Reading) → IsReadingOf bytes.now x → x ≡ evaluable r.archive r.resolved) }
    ensures stopped { IfErr result (IsStopped bytes.now) }
    ensures none { IfErr result (IsUnread bytes.now) }
{
    let archive = archive_of(alloc, bytes)?;
    match resolve(alloc, &archive) {
        Ok(resolved) => Ok(ReadArchive { archive, resolved }),
        Err(fault) => Err(unresolved(fault)),
    }
}

/// A fault of resolving as a reason not to read.
pub fn unresolved(fault: ResolveFault) -> Unread
    ensures { result ≡ of_resolve fault }
{
    match fault {
        ResolveFault::Bad { kind, at } => Unread::Refused(Refusal::Fault { kind, at }),
        ResolveFault::Limit { which, value } => Unread::Refused(Refusal::Limit { which, value }),
        ResolveFault::NoMemory => Unread::NoMemory,
    }
}
