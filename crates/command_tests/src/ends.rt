//! Runs that must end as they should.

use khe_base::{NoMemory, both};
use program_runs::{Call, Devices, End, File, GOOD, Piece, compared, run, text_of};
use std::alloc::Global;
use std::process::Abort;
use std::test::Fail;
use std::thread::Threads;

/// A run on a script, and how it should end.
#[derive(Clone, Copy)]
pub(crate) struct Row {
    pub words: &'static [&'static str],
    /// What stands under `script`.
    pub script: &'static str,
    pub status: u8,
    /// All that should be written.
    pub text: &'static [Piece],
}

/// A run that should end well, of which several texts are right.
#[derive(Clone, Copy)]
pub(crate) struct Matched {
    pub words: &'static [&'static str],
    /// With one of these texts begins what should be written.
    pub fronts: &'static [&'static [Piece]],
    /// With these lines it ends.
    pub last: &'static str,
}

/// Runs the program. The test fails unless the run ends with this status after exactly this text; then it shows how the
/// run ended otherwise.
pub(crate) fn must_end<R: Threads + Sync + Abort>(
    rt: &R,
    alloc: Global,
    call: Call<'_>,
    devices: Devices,
    end: End<'_>,
) -> Result<(), NoMemory> {
    let found = compared(rt, alloc, call, devices, end)?;
    assert!(rt; found.is_none(), "{found:?}");
    Ok(())
}

/// The test fails unless each of these runs on an archive of these pieces ends as it should.
pub(crate) fn must_end_so<R: Threads + Sync + Abort>(
    rt: &R,
    alloc: Global,
    archive: &[Piece],
    rows: &[Row],
) -> Result<(), Fail> {
    for row in rows {
        must_end_well(rt, alloc, archive, row)?;
    }
    Ok(())
}

fn must_end_well<R: Threads + Sync + Abort>(
    rt: &R,
    alloc: Global,
    archive: &[Piece],
    row: &Row,
) -> Result<(), NoMemory> {
    let (archive, text) = both(text_of(alloc, archive), text_of(alloc, row.text))?;
    let files = [
        File {
            name: "archive",
            text: archive.as_str(),
        },
        File {
            name: "script",
            text: row.script,
        },
    ];
    let call = Call {
        words: row.words,
        files: &files,
    };
    let end = End {
        status: row.status,
        text: text.as_str(),
    };
    must_end(rt, alloc, call, GOOD, end)
}

/// The test fails unless each of these runs on an archive of these pieces ends well, with one of the texts that are
/// right.
pub(crate) fn must_match<R: Threads + Sync + Abort>(
    rt: &R,
    alloc: Global,
    archive: &[Piece],
    rows: &[Matched],
) -> Result<(), Fail> {
    for row in rows {
        assert!(rt; matches_so(rt, alloc, archive, row)?, "{:?}", row.last);
    }
    Ok(())
}

fn matches_so<R: Threads + Sync>(
    rt: &R,
    alloc: Global,
    archive: &[Piece],
    row: &Matched,
) -> Result<bool, NoMemory> {
    let archive = text_of(alloc, archive)?;
    matches_on(rt, alloc, archive.as_str(), row)
}

/// Whether a run on an archive of this text ends as it should.
fn matches_on<R: Threads + Sync>(
    rt: &R,
    alloc: Global,
    archive: &str,
    row: &Matched,
) -> Result<bool, NoMemory> {
    let files = [File {
        name: "archive",
        text: archive,
    }];
    let call = Call {
        words: row.words,
        files: &files,
    };
    ends_right(rt, alloc, call, row.fronts, row.last)
}

/// Whether a run ends well, with what begins with one of the texts and ends with the line.
fn ends_right<R: Threads + Sync>(
    rt: &R,
    alloc: Global,
    call: Call<'_>,
    fronts: &[&[Piece]],
    last: &str,
) -> Result<bool, NoMemory> {
    let (status, sink) = run(rt, alloc, call, GOOD, 1_000_000)?;
    let begun = begins_so(alloc, sink.taken(), fronts)?;
    Ok(begun && status == 0 && sink.taken().ends_with(last.as_bytes()))
}

/// Whether these bytes begin with one of the texts.
fn begins_so(alloc: Global, taken: &[u8], fronts: &[&[Piece]]) -> Result<bool, NoMemory> {
    for front in fronts {
        if begins_with(alloc, taken, front)? {
            return Ok(true);
        }
    }
    Ok(false)
}

fn begins_with(alloc: Global, taken: &[u8], front: &[Piece]) -> Result<bool, NoMemory> {
    let front = text_of(alloc, front)?;
    Ok(taken.starts_with(front.as_str().as_bytes()))
}
