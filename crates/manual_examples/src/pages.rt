//! Pages beside the pages of a reference program, which was written apart from this one: `checks/page_reference.py`.

use crate::comparing::{Tally, note_unrun};
use crate::ends::{End, Ran, front_of, note_run};
use crate::playing::{ROOM, words_of};
use khe_base::Seq;
use khe_io::{FileShelf, MemorySink};
use std::alloc::Global;
use std::fs;
use std::rt::Files;
use std::thread::Threads;
use timetable_page::page;

/// Commands of `khe-page`, the status that each is to end with, how many bytes can be written then, and the file with
/// the page of which a number of first bytes is to come.
const MADE: &[(&str, u8, u64, &str)] = &[
    (
        "khe-page examples/school_week.xml",
        0,
        ROOM,
        "pages/school_week.html",
    ),
    ("khe-page pages/names.xml", 0, ROOM, "pages/names.html"),
    (
        "khe-page pages/names.xml --solutions 0",
        0,
        ROOM,
        "pages/names_0.html",
    ),
    (
        "khe-page pages/names.xml --workers 3 --solution 1 --solution 9",
        0,
        ROOM,
        "pages/names_1.html",
    ),
    (
        "khe-page pages/own_cells.xml",
        0,
        ROOM,
        "pages/own_cells.html",
    ),
    ("khe-page pages/weeks.xml", 0, ROOM, "pages/weeks.html"),
    (
        "khe-page examples/faults/02_bad_markup.xml",
        3,
        ROOM,
        "pages/refused.html",
    ),
    ("khe-page pages/names.xml", 5, 100, "pages/names.html"),
];

/// Commands before whose status nothing is written.
const NOTHING: &[(&str, u8)] = &[
    ("khe-page", 2),
    ("khe-page pages/names.xml --solutions", 2),
    ("khe-page pages/names.xml --solution 0 --solutions 1", 2),
    ("khe-page pages/names.xml --workers 65", 2),
    ("khe-page nothing", 4),
];

/// Compares what comes of commands of `khe-page` with what is to come.
pub(crate) fn compare_pages<R: Threads + Files + Print + Alloc + Sync>(
    rt: &R,
    alloc: Global,
    tally: &mut Tally,
) {
    for (command, status, room, file) in MADE {
        compare_made(rt, alloc, tally, command, *status, *room, file);
    }
    for (command, status) in NOTHING {
        let wanted = End {
            status: *status,
            text: "",
        };
        let ran = run(rt, alloc, command, ROOM);
        note_run(rt, tally, command, &ran, wanted);
    }
}

/// Compares what comes of a command, where a number of bytes can be written, with a status and the first bytes of the
/// page in a file.
fn compare_made<R: Threads + Files + Print + Alloc + Sync>(
    rt: &R,
    alloc: Global,
    tally: &mut Tally,
    command: &str,
    status: u8,
    room: u64,
    file: &str,
) {
    match fs::read_to_string(rt, file) {
        Ok(text) => {
            let wanted = End {
                status,
                text: front_of(text.as_str(), usize::try_from(room).unwrap_or(usize::MAX)),
            };
            let ran = run(rt, alloc, command, room);
            note_run(rt, tally, command, &ran, wanted);
        }
        Err(_) => note_unrun(rt, tally, file),
    }
}

/// Writes the page that a command asks for to a sink with room for the given number of bytes.
fn run<R: Threads + Files + Sync>(rt: &R, alloc: Global, command: &str, room: u64) -> Ran {
    let words = words_of(alloc, command)?;
    let mut sink = MemorySink::new(alloc, room, 1_000_000, Seq::new(alloc))?;
    let mut shelf = FileShelf::new(rt);
    let status = page(rt, alloc, words.as_slice(), &mut shelf, &mut sink);
    Ok((status.0, sink))
}
