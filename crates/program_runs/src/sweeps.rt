//! Devices of which each call fails in turn.

ghost use Rattle.std.specs.Prelude.{◌≤◌};

use crate::calls::{Call, End};
use crate::devices::Devices;
use crate::runs::run;
use khe_base::NoMemory;
use std::alloc::Global;
use std::thread::Threads;

/// More calls of a device than any run of a test makes.
const CALLS: u64 = 100_000;

/// How a run on devices that fail at a call ended.
#[derive(Clone, Copy)]
enum Ended {
    /// As where no call fails.
    Whole,
    /// For a fault of the shelf, with nothing written.
    Unread,
    /// For a fault of the sink, after this many first bytes of the text.
    CutAt(u64),
    /// Otherwise.
    Wrong,
}

/// How a run with this status ended, after which the sink has taken these bytes.
fn judged(end: End<'_>, status: u8, taken: &[u8]) -> Ended {
    if status == end.status && taken == end.text.as_bytes() {
        return Ended::Whole;
    }
    if status == 4 && taken.is_empty() {
        return Ended::Unread;
    }
    if status == 5 && end.text.as_bytes().starts_with(taken) {
        return Ended::CutAt(taken.len() as u64);
    }
    Ended::Wrong
}

/// How a run on these devices ends.
fn end_on<R: Threads + Sync>(
    rt: &R,
    alloc: Global,
    call: Call<'_>,
    end: End<'_>,
    devices: Devices,
) -> Result<Ended, NoMemory> {
    let (status, sink) = run(rt, alloc, call, devices, end.text.len() as u64 + 1_000)?;
    Ok(judged(end, status, sink.taken()))
}

/// The number of the first call of the shelf that a run on reads of at most `piece` bytes does not make, where each
/// call before it from `from` on, when it fails, ends the run with nothing written. `None` where a run ends
/// otherwise.
pub fn reads_made<R: Threads + Sync>(
    rt: &R,
    alloc: Global,
    call: Call<'_>,
    end: End<'_>,
    piece: u32,
    from: u64,
) -> Result<Option<u64>, NoMemory>
    requires piece { 1 ≤ piece }
    requires from { 1 ≤ from }
{
    for number in from..CALLS {
        let devices = Devices {
            read: piece,
            write: 1_000_000,
            room: 1_000_000_000,
            failing_read: number,
            failing_write: 0,
        };
        match end_on(rt, alloc, call, end, devices)? {
            Ended::Whole => return Ok(Some(number)),
            Ended::Unread => {}
            _ => return Ok(None),
        }
    }
    Ok(None)
}

/// The number of the first write that a run on writes of at most `piece` bytes does not make, where each write
/// before it from `from` on, when it fails, ends the run after what the earlier ones took. The text is given in one
/// piece. `None` where a run ends otherwise.
pub fn writes_made<R: Threads + Sync>(
    rt: &R,
    alloc: Global,
    call: Call<'_>,
    end: End<'_>,
    piece: u32,
    from: u64,
) -> Result<Option<u64>, NoMemory>
    requires piece { 1 ≤ piece }
    requires from { 1 ≤ from }
{
    for number in from..CALLS {
        let devices = Devices {
            read: 1_000_000,
            write: piece,
            room: 1_000_000_000,
            failing_read: 0,
            failing_write: number,
        };
        match end_on(rt, alloc, call, end, devices)? {
            Ended::Whole => return Ok(Some(number)),
            Ended::CutAt(bytes) => {
                if bytes != (number - 1) * u64::from(piece) {
                    return Ok(None);
                }
            }
            _ => return Ok(None),
        }
    }
    Ok(None)
}
