//! The command on small archives. What it should write was made by a reference program that was written
//! apart from this one.

use crate::archives::{CROSSED, FREE, TO_CUT, TO_JOIN};
use crate::ends::{must_answer, must_not_be_read};
use crate::texts::{CUT, FIFTH, JOINED, SPENT, SWAPPED, UNTRIED};
use khe_base::NoMemory;
use program_runs::Piece::Once;
use program_runs::{EMPTY, End, FRONT, GROUP, PLACED, Piece, REST, SECOND, TWO_EVENTS, text_of};
use std::alloc::Global;
use std::process::Abort;
use std::test::Fail;
use std::thread::Threads;

/// A repair, or a solve, of a solution of an archive, and how it should end.
#[derive(Clone, Copy)]
struct Row {
    archive: &'static str,
    words: &'static [&'static str],
    status: u8,
    /// All that should be written.
    text: &'static [Piece],
}

const REPAIRS: &[Row] = &[
    Row {
        archive: TWO_EVENTS,
        words: &["repair", "archive", "0", "--depth", "1", "--budget", "1000"],
        status: 0,
        text: &[
            Once(FRONT),
            Once(GROUP),
            Once(PLACED),
            Once(SECOND),
            Once(REST),
            Once("<!-- khe repair done accepted 4 tried 5 hard 0 soft 0 -->\n"),
        ],
    },
    Row {
        archive: TWO_EVENTS,
        words: &["repair", "archive", "0", "--budget", "1", "--depth", "1"],
        status: 0,
        text: &[
            Once(FRONT),
            Once(GROUP),
            Once(SPENT),
            Once(SECOND),
            Once(REST),
            Once("<!-- khe repair spent accepted 1 tried 1 settled 0 hard 6 soft 0 -->\n"),
        ],
    },
    Row {
        archive: TWO_EVENTS,
        words: &["repair", "archive", "1", "--depth", "01", "--budget", "10"],
        status: 0,
        text: &[
            Once(FRONT),
            Once(GROUP),
            Once(EMPTY),
            Once(PLACED),
            Once(REST),
            Once("<!-- khe repair done accepted 0 tried 0 hard 0 soft 0 -->\n"),
        ],
    },
    Row {
        archive: CROSSED,
        words: &["repair", "archive", "0", "--depth", "1", "--budget", "10"],
        status: 0,
        text: &[Once(SWAPPED)],
    },
    Row {
        archive: CROSSED,
        words: &["repair", "archive", "0", "--depth", "2", "--budget", "10"],
        status: 0,
        text: &[Once(SWAPPED)],
    },
    Row {
        archive: TO_CUT,
        words: &["repair", "archive", "0", "--depth", "1", "--budget", "10"],
        status: 0,
        text: &[Once(CUT)],
    },
    Row {
        archive: TO_JOIN,
        words: &["repair", "archive", "0", "--depth", "1", "--budget", "10"],
        status: 0,
        text: &[Once(JOINED)],
    },
    // A monitor that deviates and costs nothing is no defect.
    Row {
        archive: FREE,
        words: &["repair", "archive", "0", "--depth", "1", "--budget", "10"],
        status: 0,
        text: &[Once(UNTRIED)],
    },
    Row {
        archive: TWO_EVENTS,
        words: &["repair", "archive", "2", "--depth", "1", "--budget", "10"],
        status: 3,
        text: &[Once("khe: archive refused: 18 NoSuchSolution\n")],
    },
    Row {
        archive: "<",
        words: &["repair", "archive", "2", "--depth", "1", "--budget", "10"],
        status: 3,
        text: &[Once("khe: archive refused: 2 BadMarkup at 1\n")],
    },
];

/// A solve of a solution that the archive of two events does not have.
const LACKING: &[&str] = &[
    "solve",
    "archive",
    "2",
    "--depth",
    "1",
    "--budget",
    "1",
    "--jobs",
    "1",
    "--workers",
    "1",
];

const SOLVES: &[Row] = &[
    Row {
        archive: TWO_EVENTS,
        words: &[
            "solve",
            "archive",
            "0",
            "--workers",
            "2",
            "--jobs",
            "5",
            "--budget",
            "2",
            "--depth",
            "01",
        ],
        status: 0,
        text: &[
            Once(FRONT),
            Once(GROUP),
            Once(FIFTH),
            Once(SECOND),
            Once(REST),
            Once("<!-- khe solve job 4 hard 3 soft 0 -->\n"),
        ],
    },
    Row {
        archive: TWO_EVENTS,
        words: &[
            "solve",
            "archive",
            "0",
            "--depth",
            "1",
            "--budget",
            "1000",
            "--jobs",
            "2",
            "--workers",
            "2",
        ],
        status: 0,
        text: &[
            Once(FRONT),
            Once(GROUP),
            Once(PLACED),
            Once(SECOND),
            Once(REST),
            Once("<!-- khe solve job 0 hard 0 soft 0 -->\n"),
        ],
    },
    Row {
        archive: TWO_EVENTS,
        words: LACKING,
        status: 3,
        text: &[Once("khe: archive refused: 18 NoSuchSolution\n")],
    },
    Row {
        archive: "<",
        words: LACKING,
        status: 3,
        text: &[Once("khe: archive refused: 2 BadMarkup at 1\n")],
    },
];

/// The test fails unless the row ends as it should.
fn must_end_so<R: Threads + Sync + Abort>(
    rt: &R,
    alloc: Global,
    row: &Row,
) -> Result<(), NoMemory> {
    let text = text_of(alloc, row.text)?;
    let end = End {
        status: row.status,
        text: text.as_str(),
    };
    must_answer(rt, alloc, row.words, row.archive, end)
}

#[test]
fn repairs_are_written(rt: HostRuntime) -> Result<(), Fail> {
    for row in REPAIRS {
        must_end_so(&rt, rt.alloc(), row)?;
    }
    Ok(())
}

#[test]
fn solves_are_written(rt: HostRuntime) -> Result<(), Fail> {
    for row in SOLVES {
        must_end_so(&rt, rt.alloc(), row)?;
    }
    Ok(())
}

/// The test fails unless a solve by the given number of workers ends as it should.
fn must_solve_by<R: Threads + Sync + Abort>(
    rt: &R,
    alloc: Global,
    workers: &str,
) -> Result<(), NoMemory> {
    let words = [
        "solve",
        "archive",
        "0",
        "--depth",
        "1",
        "--budget",
        "1",
        "--jobs",
        "3",
        "--workers",
        workers,
    ];
    let text = text_of(alloc, THREE_JOBS)?;
    let end = End {
        status: 0,
        text: text.as_str(),
    };
    must_answer(rt, alloc, &words, TWO_EVENTS, end)
}

/// What three jobs with one chain each come to.
const THREE_JOBS: &[Piece] = &[
    Once(FRONT),
    Once(GROUP),
    Once(SPENT),
    Once(SECOND),
    Once(REST),
    Once("<!-- khe solve job 0 hard 6 soft 0 -->\n"),
];

#[test]
fn any_number_of_workers_writes_the_same(rt: HostRuntime) -> Result<(), Fail> {
    for workers in ["1", "2", "3", "4"] {
        must_solve_by(&rt, rt.alloc(), workers)?;
    }
    Ok(())
}

/// Words without a reading.
const UNREADABLE: &[&[&str]] = &[
    &["repair"],
    &["repair", "archive"],
    &["repair", "archive", "0"],
    &["repair", "archive", "0", "--depth", "1"],
    &["repair", "archive", "0", "--depth", "1", "--depth", "1"],
    &["repair", "archive", "0", "--depth", "0", "--budget", "1"],
    &["repair", "archive", "0", "--depth", "5", "--budget", "1"],
    &["repair", "archive", "0", "--depth", "1", "--budget", "0"],
    &[
        "repair",
        "archive",
        "0",
        "--depth",
        "1",
        "--budget",
        "1000000001",
    ],
    &[
        "repair", "archive", "0", "--depth", "1", "--budget", "1", "--depth", "1",
    ],
    &[
        "repair", "archive", "0", "--depth", "1", "--budget", "1", "--jobs", "1",
    ],
    &["repair", "archive", "0", "--depth", "--budget", "1", "1"],
    &["repair", "archive", "0", "1", "--depth", "1", "--budget"],
    &["repair", "archive", "--depth", "1", "--budget", "1", "0"],
    &[
        "repair",
        "archive",
        "4294967296",
        "--depth",
        "1",
        "--budget",
        "1",
    ],
    &["repair", "archive", "-1", "--depth", "1", "--budget", "1"],
    &["solve", "archive"],
    &["solve", "archive", "0"],
    &["solve", "archive", "0", "--depth", "1", "--budget", "1"],
    &[
        "solve", "archive", "0", "--depth", "1", "--budget", "1", "--jobs", "1",
    ],
    &[
        "solve", "archive", "0", "--depth", "1", "--budget", "1", "--jobs", "1", "--jobs", "1",
    ],
    &[
        "solve", "archive", "0", "--depth", "1", "--budget", "1", "--jobs", "1", "--worker", "1",
    ],
];

/// The values of depth, budget, jobs and workers with which a solve has no reading.
const UNFIT: &[[&str; 4]] = &[
    ["0", "1", "1", "1"],
    ["5", "1", "1", "1"],
    ["1", "0", "1", "1"],
    ["1", "1000000001", "1", "1"],
    ["1", "1", "0", "1"],
    ["1", "1", "10001", "1"],
    ["1", "1", "1", "0"],
    ["1", "1", "1", "65"],
    ["1", "1", "1", "--jobs"],
];

/// The test fails unless a solve by these values ends as words without a reading do.
fn must_not_be_solved<R: Threads + Sync + Abort>(
    rt: &R,
    alloc: Global,
    values: &[&str; 4],
) -> Result<(), NoMemory> {
    let [depth, budget, jobs, workers] = *values;
    let words = [
        "solve",
        "archive",
        "0",
        "--depth",
        depth,
        "--budget",
        budget,
        "--jobs",
        jobs,
        "--workers",
        workers,
    ];
    must_not_be_read(rt, alloc, &words)
}

#[test]
fn unfit_values_are_refused(rt: HostRuntime) -> Result<(), Fail> {
    for values in UNFIT {
        must_not_be_solved(&rt, rt.alloc(), values)?;
    }
    Ok(())
}

#[test]
fn words_are_refused(rt: HostRuntime) -> Result<(), Fail> {
    for words in UNREADABLE {
        must_not_be_read(&rt, rt.alloc(), words)?;
    }
    Ok(())
}
