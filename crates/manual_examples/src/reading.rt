//! Reports on archives, beside those of a reference program, and what is written before other statuses.

use crate::comparing::{Tally, note_unrun};
use crate::ends::{End, note_run};
use crate::playing::{ROOM, run_in_room};
use std::alloc::Global;
use std::fs;
use std::rt::Files;
use std::thread::Threads;

/// Commands, the status that each is to end with, and the file with the report that is to come. The reports are those
/// of a reference program that was written apart from this one.
const REPORTS: &[(&str, u8, &str)] = &[
    (
        "khe evaluate examples/school_week.xml --all",
        0,
        "pages/school_week.report",
    ),
    (
        "khe evaluate pages/names.xml --all",
        0,
        "pages/names.report",
    ),
    (
        "khe evaluate examples/faults/02_bad_markup.xml --all",
        3,
        "pages/refused.report",
    ),
];

/// Words that ask for nothing.
const OTHER: &str = "khe repair examples/first.xml 0 --depth 1";

/// Commands, how many bytes can be written, the status that each is to end with, and what is to be written.
const LINES: &[(&str, u64, u8, &str)] = &[
    ("khe evaluate nothing", ROOM, 4, ""),
    (OTHER, ROOM, 2, "khe: words not understood\n"),
    (OTHER, 5, 5, "khe: "),
];

/// Compares the reports and lines that commands write with those that are to come.
pub(crate) fn compare_reports<R: Threads + Files + Print + Alloc + Sync>(
    rt: &R,
    alloc: Global,
    tally: &mut Tally,
) {
    for (command, status, file) in REPORTS {
        compare_report(rt, alloc, tally, command, *status, file);
    }
    for (command, room, status, text) in LINES {
        let wanted = End {
            status: *status,
            text,
        };
        let ran = run_in_room(rt, alloc, command, *room);
        note_run(rt, tally, command, &ran, wanted);
    }
}

/// Compares what comes of a command with a status and the report in a file.
fn compare_report<R: Threads + Files + Print + Alloc + Sync>(
    rt: &R,
    alloc: Global,
    tally: &mut Tally,
    command: &str,
    status: u8,
    file: &str,
) {
    match fs::read_to_string(rt, file) {
        Ok(text) => {
            let wanted = End {
                status,
                text: text.as_str(),
            };
            let ran = run_in_room(rt, alloc, command, ROOM);
            note_run(rt, tally, command, &ran, wanted);
        }
        Err(_) => note_unrun(rt, tally, file),
    }
}
