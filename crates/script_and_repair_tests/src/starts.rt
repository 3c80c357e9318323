//! Runs that end before their script is played.

use crate::archives::{CUT_SHORT, OFF_END};
use crate::ends::{must_end, must_not_be_read};
use crate::plays::{Play, must_go};
use program_runs::Piece::Once;
use program_runs::{Call, End, File, GOOD, TWO_EVENTS};
use std::alloc::Global;
use std::process::Abort;
use std::test::Fail;
use std::thread::Threads;

/// The archive with this script beside it.
const FILES: &[File<'static>] = &[
    File {
        name: "archive",
        text: TWO_EVENTS,
    },
    File {
        name: "script",
        text: "total\n",
    },
];

/// The number of a solution may have zeros in front.
const ZEROS: Play = Play {
    archive: TWO_EVENTS,
    solution: "000000000000000001",
    script: &[Once("total\n")],
    status: 0,
    text: &[Once("total hard 0 soft 0\n")],
};

const NO_SUCH_SOLUTION: Play = Play {
    archive: TWO_EVENTS,
    solution: "2",
    script: &[Once("fly 3\n")],
    status: 3,
    text: &[Once("khe: archive refused: 18 NoSuchSolution\n")],
};

const GREATEST_NUMBER: Play = Play {
    archive: TWO_EVENTS,
    solution: "4294967295",
    script: &[Once("total\n")],
    status: 3,
    text: &[Once("khe: archive refused: 18 NoSuchSolution\n")],
};

const INVALID: Play = Play {
    archive: OFF_END,
    solution: "0",
    script: &[Once("total\n")],
    status: 3,
    text: &[Once("khe: archive refused: 19 Invalid 4 OffEnd entry 0\n")],
};

/// The invalid solution does not bar the other one.
const BESIDE_INVALID: Play = Play {
    archive: OFF_END,
    solution: "1",
    script: &[Once("total\n")],
    status: 0,
    text: &[Once("total hard 0 soft 0\n")],
};

const REFUSED: Play = Play {
    archive: CUT_SHORT,
    solution: "0",
    script: &[Once("total\n")],
    status: 3,
    text: &[Once("khe: archive refused: 2 BadMarkup at 37\n")],
};

const STARTS: &[&Play] = &[
    &ZEROS,
    &NO_SUCH_SOLUTION,
    &GREATEST_NUMBER,
    &INVALID,
    &BESIDE_INVALID,
    &REFUSED,
];

#[test]
fn a_script_begins_with_a_solution(rt: HostRuntime) -> Result<(), Fail> {
    must_go(&rt, rt.alloc(), STARTS)
}

/// Words without a reading.
const UNREADABLE: &[&[&str]] = &[
    &[],
    &["script"],
    &["script", "archive"],
    &["script", "archive", "0"],
    &["script", "archive", "0", "script", "script"],
    &["script", "archive", "0", "script", "--all"],
    &["script", "archive", "script", "0"],
    &["script", "archive", "", "script"],
    &["script", "archive", "-1", "script"],
    &["script", "archive", "+1", "script"],
    &["script", "archive", "1 ", "script"],
    &["script", "archive", "0x1", "script"],
    &["script", "archive", "4294967296", "script"],
    &["script", "archive", "0000000000000000001", "script"],
    &["Script", "archive", "0", "script"],
    &["scripts", "archive", "0", "script"],
    &["evaluate", "archive", "0", "script"],
];

#[test]
fn words_without_a_reading_read_nothing(rt: HostRuntime) -> Result<(), Fail> {
    for words in UNREADABLE {
        must_not_be_read(&rt, rt.alloc(), words)?;
    }
    Ok(())
}

/// Words with the status and the text that they lead to.
type Names = (&'static [&'static str], u8, &'static str);

/// Names that are missing, and names at other places. An archive or a solution is refused before
/// the script is missing.
const NAMES: &[&Names] = &[
    &(&["script", "archive", "0", "nothing"], 4, ""),
    &(&["script", "nothing", "0", "script"], 4, ""),
    &(&["script", "nothing", "2", "nothing"], 4, ""),
    &(
        &["script", "archive", "2", "nothing"],
        3,
        "khe: archive refused: 18 NoSuchSolution\n",
    ),
    &(
        &["script", "script", "0", "nothing"],
        3,
        "khe: archive refused: 2 BadMarkup at 0\n",
    ),
    &(
        &["script", "archive", "0", "archive"],
        7,
        "line 1 fault 1 UnknownCommand\n",
    ),
    &(&["script", "--all", "0", "script"], 4, ""),
];

/// The test fails unless words lead where they should.
fn must_lead<R: Threads + Sync + Abort>(
    rt: &R,
    alloc: Global,
    names: &[&Names],
) -> Result<(), Fail> {
    for (words, status, text) in names {
        let call = Call {
            words,
            files: FILES,
        };
        let end = End {
            status: *status,
            text,
        };
        must_end(rt, alloc, call, GOOD, end)?;
    }
    Ok(())
}

#[test]
fn names_lead_to_files(rt: HostRuntime) -> Result<(), Fail> {
    must_lead(&rt, rt.alloc(), NAMES)
}
