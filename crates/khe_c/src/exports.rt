//! What C calls, as `c/khe.h` says. Each call takes what the handle holds out of it, works on that, and puts it back;
//! its answer is a status.

ghost use Rattle.std.specs.Prelude.{◌≡◌, ◌<◌, ◌⊎◌, ◌↔◌, true, false, length, Some, None, IfOk, MatchOption};
ghost use Rattle.khe_c.specs.Calls.{IsOpenedOn, IsRefusedOn, IsDone, HasNoAnswer, status_of, HoldsSession, HoldsRefusal, HasTurned, session_of, answer_of, HasSpentAfter, totals_in, filled};
ghost use Rattle.khe_c.specs.Halves.{totals_of};

use crate::costs::{Costs, costs_of};
use crate::handles::{SessionHandle, closed, handle_of, held_by};
use crate::held::{Held, Unanswered};
use crate::statuses::{CLOSED, DONE, NO_MEMORY, NO_ROOM, REFUSED};
use khe_base::NoMemory;
use std::alloc::Global;
use std::mem::replace;

/// Takes what a handle holds out of it. The handle is closed then.
fn take_out(handle: &mut SessionHandle, alloc: Global) -> Option<Box<Held>>
    ensures held { MatchOption result (handle.old.is_open ≡ false) (λ b. (handle.old.is_open ≡ true) × (handle.old.value ≡ Some b.value)) }
    ensures closed { handle.new.is_open ≡ false }
{
    let whole = replace(handle, closed());
    held_by(whole, alloc)
}

/// The status of a call that has no answer.
fn status_of(unanswered: Unanswered) -> u32
    ensures { result ≡ status_of unanswered }
{
    match unanswered {
        Unanswered::Refused => REFUSED,
        Unanswered::Spent => NO_MEMORY,
    }
}

/// Tells how long an answer is, and copies it to the front of the room where that is long enough.
fn copy_out(answer: &[u8], room: &mut [u8], answer_length: &mut u64) -> u32
    ensures length { answer_length.new ≡ length answer.now }
    ensures copied { result ≡ 0 → room.new ≡ filled answer.now room.old }
    ensures no_room { result ≡ 9 → (length room.old < length answer.now) × (room.new ≡ room.old) }
    ensures status { (result ≡ 0) ⊎ (result ≡ 9) }
{
    *answer_length = answer.len() as u64;
    if answer.len() > room.len() {
        return NO_ROOM;
    }
    room[..answer.len()].copy_from_slice(answer);
    DONE
}

/// What an open handle on this archive is to hold: a session, or the line that refuses it. It fails only where
/// memory is refused.
fn opened(alloc: Global, archive: &[u8], solution: u32) -> Result<Box<Held>, NoMemory>
    ensures { IfOk result (λ b. IsOpenedOn archive.now solution b.value ⊎ IsRefusedOn archive.now solution b.value) }
{
    let held = Held::open(alloc, archive, solution)?;
    Ok(Box::new(alloc, held)?)
}

/// Opens a handle on this, and says by the status whether it is a session.
fn put_in(session: &mut SessionHandle, held: Box<Held>) -> u32
    ensures open { session.new.is_open ≡ true }
    ensures value { session.new.value ≡ Some held.value }
    ensures refused { (result ≡ 3) ↔ (held.value.session ≡ None) }
    ensures status { (result ≡ 0) ⊎ (result ≡ 3) }
{
    let status = if held.is_refused() { REFUSED } else { DONE };
    *session = handle_of(held);
    status
}

/// Opens a session on the solution of an archive with this number.
///
/// Status 0: the handle holds the session. 3: the archive or the solution is refused, and the handle holds the line
/// that says so. 6: memory was refused, and the handle is closed. 8: it was open, and holds what it held. It takes the
/// time of reading the archive and of evaluating the solution, and the bytes are not kept.
#[unsafe(no_mangle)]
pub extern "C" fn khe_open(
    alloc: Global,
    archive: &[u8],
    solution: u32,
    session: &mut SessionHandle,
) -> u32
    ensures opened { result ≡ 0 → (session.new.is_open ≡ true) × HoldsSession archive.now solution session.new.value }
    ensures refused { result ≡ 3 → (session.new.is_open ≡ true) × HoldsRefusal archive.now solution session.new.value }
    ensures no_memory { result ≡ 6 → session.new.is_open ≡ false }
    ensures was_open { (result ≡ 8) ↔ (session.old.is_open ≡ true) }
    ensures same { result ≡ 8 → (session.new.is_open ≡ true) × (session.new.value ≡ session.old.value) }
    ensures status { (result ≡ 0) ⊎ ((result ≡ 3) ⊎ ((result ≡ 6) ⊎ (result ≡ 8))) }
{
    if let Some(held) = take_out(session, alloc) {
        *session = handle_of(held);
        return CLOSED;
    }
    match opened(alloc, archive, solution) {
        Ok(held) => put_in(session, held),
        Err(NoMemory) => NO_MEMORY,
    }
}

/// Gives a session a line without a line feed, and copies the answer to the front of the room where that is long
/// enough.
///
/// Status 0: the answer stands in the room. 9: it is longer than the room, which is as it was. Both tell its length,
/// and the handle keeps it. 3: the handle holds a refusal. 6: memory was refused to this line or to one before it, and
/// the session is spent. 8: the handle is closed. It takes the time of the line, as a talk does.
#[unsafe(no_mangle)]
pub extern "C" fn khe_line(
    alloc: Global,
    session: &mut SessionHandle,
    line: &[u8],
    room: &mut [u8],
    answer_length: &mut u64,
) -> u32
    ensures turned { IsDone result → HasTurned session.old.value line.now session.new.value }
    ensures length { IsDone result → answer_length.new ≡ length (answer_of session.new.value) }
    ensures copied { result ≡ 0 → room.new ≡ filled (answer_of session.new.value) room.old }
    ensures no_room { result ≡ 9 → (length room.old < length (answer_of session.new.value)) × (room.new ≡ room.old) }
    ensures refused { result ≡ 3 → (session_of session.old.value ≡ None) × (session.new.value ≡ session.old.value) }
    ensures spent { result ≡ 6 → HasSpentAfter session.old.value session.new.value }
    ensures closed { (result ≡ 8) ↔ (session.old.is_open ≡ false) }
    ensures untouched { HasNoAnswer result → (room.new ≡ room.old) × (answer_length.new ≡ answer_length.old) }
    ensures open { session.new.is_open ≡ session.old.is_open }
    ensures status { IsDone result ⊎ HasNoAnswer result }
{
    let Some(mut held) = take_out(session, alloc) else {
        return CLOSED;
    };
    let status = match held.line(alloc, line) {
        Ok(()) => copy_out(held.answer(), room, answer_length),
        Err(unanswered) => status_of(unanswered),
    };
    *session = handle_of(held);
    status
}

/// Copies the last answer, or the line of refusal, to the front of the room where that is long enough.
///
/// Status 0: it stands in the room. 9: it is longer than the room, which is as it was. Both tell its length. 8: the
/// handle is closed. It takes the time of the copy, and no memory.
#[unsafe(no_mangle)]
pub extern "C" fn khe_answer(
    alloc: Global,
    session: &mut SessionHandle,
    room: &mut [u8],
    answer_length: &mut u64,
) -> u32
    ensures same { session.old.is_open ≡ true → session.new.value ≡ session.old.value }
    ensures length { IsDone result → answer_length.new ≡ length (answer_of session.old.value) }
    ensures copied { result ≡ 0 → room.new ≡ filled (answer_of session.old.value) room.old }
    ensures no_room { result ≡ 9 → (length room.old < length (answer_of session.old.value)) × (room.new ≡ room.old) }
    ensures closed { (result ≡ 8) ↔ (session.old.is_open ≡ false) }
    ensures untouched { result ≡ 8 → (room.new ≡ room.old) × (answer_length.new ≡ answer_length.old) }
    ensures open { session.new.is_open ≡ session.old.is_open }
    ensures status { IsDone result ⊎ (result ≡ 8) }
{
    let Some(held) = take_out(session, alloc) else {
        return CLOSED;
    };
    let status = copy_out(held.answer(), room, answer_length);
    *session = handle_of(held);
    status
}

/// Tells both totals of the timetable as it stands.
///
/// Status 0: they are told. 3: the handle holds a refusal. 6: the session is spent. 8: the handle is closed. It takes
/// constant time, and no memory.
#[unsafe(no_mangle)]
pub extern "C" fn khe_totals(alloc: Global, session: &mut SessionHandle, costs: &mut Costs) -> u32
    ensures told { result ≡ 0 → Some (totals_of costs.new) ≡ totals_in (session_of session.old.value) }
    ensures same { session.old.is_open ≡ true → session.new.value ≡ session.old.value }
    ensures refused { result ≡ 3 → session_of session.old.value ≡ None }
    ensures spent { result ≡ 6 → session_of session.old.value ≡ Some None }
    ensures closed { (result ≡ 8) ↔ (session.old.is_open ≡ false) }
    ensures untouched { HasNoAnswer result → costs.new ≡ costs.old }
    ensures open { session.new.is_open ≡ session.old.is_open }
    ensures status { (result ≡ 0) ⊎ HasNoAnswer result }
{
    let Some(mut held) = take_out(session, alloc) else {
        return CLOSED;
    };
    let told = held.totals();
    *session = handle_of(held);
    match told {
        Ok(totals) => {
            *costs = costs_of(totals);
            DONE
        }
        Err(unanswered) => status_of(unanswered),
    }
}

/// Frees what a handle holds, and closes it. Status 0: it was open. 8: it was closed. It takes the time of freeing
/// the session.
#[unsafe(no_mangle)]
pub extern "C" fn khe_close(alloc: Global, session: &mut SessionHandle) -> u32
    ensures closed { session.new.is_open ≡ false }
    ensures was_closed { (result ≡ 8) ↔ (session.old.is_open ≡ false) }
    ensures status { (result ≡ 0) ⊎ (result ≡ 8) }
{
    match take_out(session, alloc) {
        Some(held) => {
            drop(held);
            DONE
        }
        None => CLOSED,
    }
}
