//! Which jobs pass the gate that is handed to the program: each solution that is evaluated and each repair that is
//! run, once and by its own number.

use khe_base::NoMemory;
use program_runs::{Call, File, GOOD, TWO_EVENTS, run_at};
use std::alloc::Global;
use std::test::Fail;
use std::thread::Threads;
use test_gates::Record;

/// More bytes than any of these runs writes.
const ROOM: u64 = 10_000;

/// Words, and the number of jobs that they lead to.
type Row = (&'static [&'static str], usize);

/// No repair with one chain comes to a timetable without costs, so none is left out.
const ROWS: &[Row] = &[
    (&["evaluate", "archive"], 2),
    (&["evaluate", "archive", "--workers", "1"], 2),
    (&["evaluate", "archive", "--workers", "3"], 2),
    (
        &[
            "solve",
            "archive",
            "0",
            "--depth",
            "1",
            "--budget",
            "1",
            "--jobs",
            "8",
            "--workers",
            "3",
        ],
        8,
    ),
    (&["check", "archive"], 0),
    (
        &["repair", "archive", "0", "--depth", "1", "--budget", "1"],
        0,
    ),
];

/// Whether a run ends well, and each number below the given one passes its gate once, and no other does.
fn passes_first<R: Threads + Sync>(
    rt: &R,
    alloc: Global,
    words: &[&str],
    jobs: usize,
) -> Result<bool, NoMemory> {
    let files = [File {
        name: "archive",
        text: TWO_EVENTS,
    }];
    let call = Call {
        words,
        files: &files,
    };
    let gate = Record::new();
    let (status, _) = run_at(rt, alloc, call, GOOD, ROOM, &gate)?;
    Ok(status == 0 && gate.is_of_first(jobs))
}

#[test]
fn each_job_passes_by_its_number(rt: HostRuntime) -> Result<(), Fail> {
    for (words, jobs) in ROWS {
        assert!(rt; passes_first(&rt, rt.alloc(), words, *jobs)?);
    }
    Ok(())
}
