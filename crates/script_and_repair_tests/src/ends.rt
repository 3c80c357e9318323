//! Runs that must end as they should.

use khe_base::NoMemory;
use program_runs::{Call, Devices, End, File, GOOD, compared, failing};
use std::alloc::Global;
use std::process::Abort;
use std::thread::Threads;

/// Runs the program. The test fails unless the run ends with this status after exactly this text; then it shows how the
/// run ended otherwise.
pub(crate) fn must_end<R: Threads + Sync + Abort>(
    rt: &R,
    alloc: Global,
    call: Call<'_>,
    devices: Devices,
    end: End<'_>,
) -> Result<(), NoMemory> {
    let found = compared(rt, alloc, call, devices, end)?;
    assert!(rt; found.is_none(), "{found:?}");
    Ok(())
}

/// The same where this text stands under `archive` and nothing else does, and no device fails.
pub(crate) fn must_answer<R: Threads + Sync + Abort>(
    rt: &R,
    alloc: Global,
    words: &[&str],
    archive: &str,
    end: End<'_>,
) -> Result<(), NoMemory> {
    let files = [File {
        name: "archive",
        text: archive,
    }];
    let call = Call {
        words,
        files: &files,
    };
    must_end(rt, alloc, call, GOOD, end)
}

const NOT_UNDERSTOOD: End<'static> = End {
    status: 2,
    text: "khe: words not understood\n",
};

/// The test fails unless a run on these words ends as words without a reading do, and reads nothing: the
/// first call of the shelf would fail.
pub(crate) fn must_not_be_read<R: Threads + Sync + Abort>(
    rt: &R,
    alloc: Global,
    words: &[&str],
) -> Result<(), NoMemory> {
    let call = Call { words, files: &[] };
    must_end(rt, alloc, call, failing(1, 0), NOT_UNDERSTOOD)
}
