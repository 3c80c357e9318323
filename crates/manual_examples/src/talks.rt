//! Talks beside what they are to come to.

use crate::comparing::{Tally, note_unrun};
use crate::ends::{End, Ran, note_run};
use crate::playing::{ROOM, words_of};
use khe_base::{NoMemory, Seq, Text};
use khe_io::{FileShelf, MemorySink};
use std::alloc::Global;
use std::fs;
use std::io::{BufRead, BufReader};
use std::rt::Files;
use talk_app::{Lines, talk_by_words};

/// The command of the talk that the manual shows.
const SHOWN: &str = "khe-talk examples/first.xml 0";

/// The same where demands are kept from the beginning.
const WITH_DEMANDS: &str = "khe-talk examples/first.xml 0 --demands";

/// What stands in the manual between the lines of that talk and its answers.
const BETWEEN: &str = "' | ./khe-talk examples/first.xml 0\n```\n\nwrites\n\n```\n";

/// Commands that are refused, with the status and what is written.
const REFUSED: &[(&str, u8, &str)] = &[
    (
        "khe-talk examples/first.xml",
        2,
        "khe-talk: words not understood\n",
    ),
    (
        "khe-talk examples/first.xml 99",
        3,
        "khe: archive refused: 18 NoSuchSolution\n",
    ),
    ("khe-talk nothing 0", 4, ""),
];

/// Compares what comes of talks with what is to come.
pub(crate) fn compare_talks<R: Files + Print + Alloc>(
    rt: &R,
    alloc: Global,
    tally: &mut Tally,
    manual: &str,
) {
    compare_shown(rt, alloc, tally, manual);
    compare_unread(rt, alloc, tally);
    for (command, status, text) in REFUSED {
        let wanted = End {
            status: *status,
            text,
        };
        compare(rt, alloc, tally, command, b"total", ROOM, wanted);
    }
}

/// Compares the talk that the manual shows, with demands that are kept and without, and cut off after five bytes.
fn compare_shown<R: Files + Print>(rt: &R, alloc: Global, tally: &mut Tally, manual: &str) {
    let (spelled, answers) = talk_in(manual).unwrap_or(("", ""));
    let mut lines = Text::new(alloc);
    match push_lines(&mut lines, spelled) {
        Ok(()) => {
            let lines = without_end(lines.as_str()).as_bytes();
            compare_lines(rt, alloc, tally, lines, answers);
        }
        Err(_) => note_unrun(rt, tally, SHOWN),
    }
}

/// Compares what comes of these lines with their answers.
fn compare_lines<R: Files + Print>(
    rt: &R,
    alloc: Global,
    tally: &mut Tally,
    lines: &[u8],
    answers: &str,
) {
    let whole = End {
        status: 0,
        text: answers,
    };
    let cut_off = End {
        status: 5,
        text: "total",
    };
    compare(rt, alloc, tally, SHOWN, lines, ROOM, whole);
    compare(rt, alloc, tally, WITH_DEMANDS, lines, ROOM, whole);
    compare(rt, alloc, tally, SHOWN, lines, 5, cut_off);
}

/// The lines of the talk that the manual shows, as they are spelled there, and its answers.
fn talk_in(manual: &str) -> Option<(&str, &str)> {
    let (before, after) = manual.split_once(BETWEEN)?;
    let (answers, _) = after.split_once("```")?;
    Some((before.split("\nprintf '").last()?, answers))
}

/// Adds lines that are spelled with `\n` between them, each with a line feed.
fn push_lines(lines: &mut Text, spelled: &str) -> Result<(), NoMemory> {
    for line in spelled.split("\\n") {
        lines.push_str(line)?;
        lines.push_literal("\n")?;
    }
    Ok(())
}

/// A text without the line feed at its end.
fn without_end(text: &str) -> &str {
    text.strip_suffix('\n').unwrap_or(text)
}

/// Compares what comes where a line cannot be read: a folder can be opened, but has no bytes.
fn compare_unread<R: Files + Print>(rt: &R, alloc: Global, tally: &mut Tally) {
    let wanted = End {
        status: 4,
        text: "",
    };
    let ran = run_unread(rt, alloc);
    note_run(rt, tally, SHOWN, &ran, wanted);
}

/// Talks with a reader that cannot be read.
fn run_unread<R: Files>(rt: &R, alloc: Global) -> Ran {
    let Ok(folder) = fs::open(rt, "examples") else {
        return Err(NoMemory);
    };
    match BufReader::new(alloc, folder) {
        Ok(reader) => run(rt, alloc, SHOWN, &mut Lines::new(reader), ROOM),
        Err(_) => Err(NoMemory),
    }
}

/// Compares what comes of a talk of these lines where a number of bytes can be written with what is to come.
fn compare<R: Files + Print>(
    rt: &R,
    alloc: Global,
    tally: &mut Tally,
    command: &str,
    lines: &[u8],
    room: u64,
    wanted: End<'_>,
) {
    let ran = run(rt, alloc, command, &mut Lines::new(lines), room);
    note_run(rt, tally, command, &ran, wanted);
}

/// Talks as a command asks for, with a sink that has room for the given number of bytes.
fn run<R: Files, B: BufRead>(
    rt: &R,
    alloc: Global,
    command: &str,
    lines: &mut Lines<B>,
    room: u64,
) -> Ran {
    let words = words_of(alloc, command)?;
    let mut sink = MemorySink::new(alloc, room, 1_000_000, Seq::new(alloc))?;
    let mut shelf = FileShelf::new(rt);
    let status = talk_by_words(alloc, words.as_slice(), &mut shelf, lines, &mut sink);
    Ok((status.0, sink))
}
