//! Scripts on archives, and how they should end.

use crate::ends::must_end;
use khe_base::{NoMemory, both};
use program_runs::{Call, End, File, GOOD, Piece, text_of};
use std::alloc::Global;
use std::process::Abort;
use std::test::Fail;
use std::thread::Threads;

/// A script on a solution of an archive, and how it should end.
#[derive(Clone, Copy)]
pub(crate) struct Play {
    /// The archive's text.
    pub archive: &'static str,
    /// The word that numbers the solution.
    pub solution: &'static str,
    pub script: &'static [Piece],
    pub status: u8,
    /// All that should be written.
    pub text: &'static [Piece],
}

/// The test fails unless each play ends as it should.
pub(crate) fn must_go<R: Threads + Sync + Abort>(
    rt: &R,
    alloc: Global,
    plays: &[&Play],
) -> Result<(), Fail> {
    for play in plays {
        must_end_well(rt, alloc, play)?;
    }
    Ok(())
}

fn must_end_well<R: Threads + Sync + Abort>(
    rt: &R,
    alloc: Global,
    play: &Play,
) -> Result<(), NoMemory> {
    let (script, text) = both(text_of(alloc, play.script), text_of(alloc, play.text))?;
    let files = [
        File {
            name: "archive",
            text: play.archive,
        },
        File {
            name: "script",
            text: script.as_str(),
        },
    ];
    let words = ["script", "archive", play.solution, "script"];
    let call = Call {
        words: &words,
        files: &files,
    };
    let end = End {
        status: play.status,
        text: text.as_str(),
    };
    must_end(rt, alloc, call, GOOD, end)
}
