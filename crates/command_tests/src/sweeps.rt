//! Devices of which each call fails in turn: before the first call that a run does not make, each failing one ends
//! the run as a fault of its device must.

use crate::runs::{RENEWED, REPAIRED, Run, SPELLED, Sweep, TOLD};
use khe_base::NoMemory;
use program_runs::{End, reads_made, text_of, writes_made};
use std::alloc::Global;
use std::process::Abort;
use std::test::Fail;
use std::thread::Threads;

/// Which device fails.
#[derive(Clone, Copy, Debug)]
enum Device {
    Shelf,
    Sink,
}

/// A sweep whose first call that was not made is another than it should be.
#[derive(Clone, Copy, Debug)]
struct Wrong<'a> {
    words: &'a [&'a str],
    device: Device,
    piece: u32,
    /// The first call that was not made, or `None` where a run ended in no way that it may end in.
    made: Option<u64>,
}

/// The number of the first call of a device that a run does not make, or `None` where some run ended in no way
/// that it may end in.
fn made<R: Threads + Sync>(
    rt: &R,
    alloc: Global,
    run: &Run,
    text: &str,
    device: Device,
    (piece, from, _): Sweep,
) -> Result<Option<u64>, NoMemory> {
    let end = End {
        status: run.status,
        text,
    };
    match device {
        Device::Shelf => reads_made(rt, alloc, run.call, end, piece.max(1), from.max(1)),
        Device::Sink => writes_made(rt, alloc, run.call, end, piece.max(1), from.max(1)),
    }
}

/// The first of these sweeps of a run that does not come to the call that it names.
fn wrong_among<R: Threads + Sync>(
    rt: &R,
    alloc: Global,
    run: &Run,
    text: &str,
    device: Device,
    sweeps: &[Sweep],
) -> Result<Option<Wrong<'static>>, NoMemory> {
    for sweep in sweeps {
        let made = made(rt, alloc, run, text, device, *sweep)?;
        if made != Some(sweep.2) {
            return Ok(Some(Wrong {
                words: run.call.words,
                device,
                piece: sweep.0,
                made,
            }));
        }
    }
    Ok(None)
}

/// The first sweep of a run, over its shelf and then over its sink, that does not come to the call that it
/// names.
fn wrong_of<R: Threads + Sync>(
    rt: &R,
    alloc: Global,
    run: &Run,
) -> Result<Option<Wrong<'static>>, NoMemory> {
    let text = text_of(alloc, run.text)?;
    let text = text.as_str();
    let wrong = wrong_among(rt, alloc, run, text, Device::Shelf, run.reads)?;
    if wrong.is_some() {
        return Ok(wrong);
    }
    wrong_among(rt, alloc, run, text, Device::Sink, run.writes)
}

/// The test fails unless all sweeps of these runs come to the calls that they should.
fn must_fail_in_turn<R: Threads + Sync + Abort>(
    rt: &R,
    alloc: Global,
    runs: &[&Run],
) -> Result<(), Fail> {
    for run in runs {
        let wrong = wrong_of(rt, alloc, run)?;
        assert!(rt; wrong.is_none(), "{wrong:?}");
    }
    Ok(())
}

#[test]
fn each_call_of_a_run_that_tells_fails_in_turn(rt: HostRuntime) -> Result<(), Fail> {
    must_fail_in_turn(&rt, rt.alloc(), TOLD)
}

#[test]
fn each_call_of_a_run_that_repairs_fails_in_turn(rt: HostRuntime) -> Result<(), Fail> {
    must_fail_in_turn(&rt, rt.alloc(), REPAIRED)
}

#[test]
fn each_call_of_a_run_that_makes_a_timetable_fails_in_turn(rt: HostRuntime) -> Result<(), Fail> {
    must_fail_in_turn(&rt, rt.alloc(), RENEWED)
}

#[test]
fn each_call_of_a_run_that_writes_an_archive_fails_in_turn(rt: HostRuntime) -> Result<(), Fail> {
    must_fail_in_turn(&rt, rt.alloc(), SPELLED)
}
