//! An archive that is made, what it has, and several workers on it: what they write is the same for every number of
//! them, and two are at work at the same time.

use khe_base::NoMemory;
use khe_io::{Gate, MemorySink, OpenGate};
use program_runs::{Call, File, GOOD, run, run_at};
use std::alloc::Global;
use std::test::Fail;
use std::thread::Threads;
use test_gates::Meeting;

/// More bytes than any of these runs writes.
const ROOM: u64 = 2_000_000;

/// Makes an archive of 300 events with four solutions.
const MAKE: Call<'static> = Call {
    words: &["make", "7", "300"],
    files: &[],
};

/// Beginnings of elements, with how often the made archive has each.
const HAS: &[(&str, usize)] = &[
    ("<Time Id=", 40),
    ("<Resource Id=", 120),
    ("<Event Id=", 300),
    ("<Solution Reference=", 4),
    ("Constraint Id=", 16),
    ("<AssignResourceConstraint Id=", 1),
    ("<AssignTimeConstraint Id=", 1),
    ("<SplitEventsConstraint Id=", 1),
    ("<DistributeSplitEventsConstraint Id=", 1),
    ("<PreferResourcesConstraint Id=", 1),
    ("<PreferTimesConstraint Id=", 1),
    ("<AvoidSplitAssignmentsConstraint Id=", 1),
    ("<SpreadEventsConstraint Id=", 1),
    ("<LinkEventsConstraint Id=", 1),
    ("<OrderEventsConstraint Id=", 1),
    ("<AvoidClashesConstraint Id=", 1),
    ("<AvoidUnavailableTimesConstraint Id=", 1),
    ("<LimitIdleTimesConstraint Id=", 1),
    ("<ClusterBusyTimesConstraint Id=", 1),
    ("<LimitBusyTimesConstraint Id=", 1),
    ("<LimitWorkloadConstraint Id=", 1),
];

/// Whether a text has each of these parts as often as it should.
fn has_each(text: &str, parts: &[(&str, usize)]) -> bool {
    for (part, count) in parts {
        if text.split(*part).skip(1).count() != *count {
            return false;
        }
    }
    true
}

/// Whether the made archive has what it should.
fn is_made_so<R: Threads + Sync>(rt: &R, alloc: Global) -> Result<bool, NoMemory> {
    let (status, made) = run(rt, alloc, MAKE, GOOD, ROOM)?;
    let text = std::str::from_utf8(made.taken()).unwrap_or("");
    Ok(status == 0 && has_each(text, HAS))
}

/// The greater status of two runs, one that makes an archive and one of a command on it, and what the command writes.
fn written<R: Threads + Sync, G: Gate>(
    rt: &R,
    alloc: Global,
    words: &[&str],
    gate: &G,
) -> Result<(u8, MemorySink), NoMemory> {
    let (made_so, made) = run(rt, alloc, MAKE, GOOD, ROOM)?;
    let text = std::str::from_utf8(made.taken()).unwrap_or("");
    let (ended_so, sink) = written_on(rt, alloc, text, words, gate)?;
    Ok((made_so.max(ended_so), sink))
}

/// How a command ends on an archive of this text, and what it writes.
fn written_on<R: Threads + Sync, G: Gate>(
    rt: &R,
    alloc: Global,
    text: &str,
    words: &[&str],
    gate: &G,
) -> Result<(u8, MemorySink), NoMemory> {
    let files = [File {
        name: "archive",
        text,
    }];
    let call = Call {
        words,
        files: &files,
    };
    run_at(rt, alloc, call, GOOD, ROOM, gate)
}

/// Whether two commands both end well with the same text, one that begins with these bytes.
fn is_same<R: Threads + Sync>(
    rt: &R,
    alloc: Global,
    one: &[&str],
    other: &[&str],
    first: &[u8],
) -> Result<bool, NoMemory> {
    let (status, one) = written(rt, alloc, one, &OpenGate)?;
    let (other_status, other) = written(rt, alloc, other, &OpenGate)?;
    let bytes = one.taken();
    Ok(status.max(other_status) == 0 && bytes.starts_with(first) && bytes == other.taken())
}

/// Whether a command ends well, and two of its workers were at work at the same time: the gate holds the first
/// worker until another one comes.
fn two_come<R: Threads + Sync>(rt: &R, alloc: Global, words: &[&str]) -> Result<bool, NoMemory> {
    let gate = Meeting::of(1);
    let (status, sink) = written(rt, alloc, words, &gate)?;
    Ok(status == 0 && gate.came() && sink.taken().len() > 0)
}

#[test]
fn a_made_school_has_all_kinds(rt: HostRuntime) -> Result<(), Fail> {
    assert!(rt; is_made_so(&rt, rt.alloc())?);
    Ok(())
}

#[test]
fn four_workers_write_what_one_writes(rt: HostRuntime) -> Result<(), Fail> {
    let is_right = is_same(
        &rt,
        rt.alloc(),
        &["evaluate", "archive"],
        &["evaluate", "archive", "--workers", "4"],
        b"archive instances 1 solutions 4\n",
    )?;
    assert!(rt; is_right);
    Ok(())
}

#[test]
fn two_workers_solve_side_by_side(rt: HostRuntime) -> Result<(), Fail> {
    let words = [
        "solve",
        "archive",
        "0",
        "--depth",
        "1",
        "--budget",
        "100",
        "--jobs",
        "8",
        "--workers",
        "2",
    ];
    assert!(rt; two_come(&rt, rt.alloc(), &words)?);
    Ok(())
}

#[test]
fn two_workers_evaluate_side_by_side(rt: HostRuntime) -> Result<(), Fail> {
    let words = ["evaluate", "archive", "--workers", "2"];
    assert!(rt; two_come(&rt, rt.alloc(), &words)?);
    Ok(())
}
