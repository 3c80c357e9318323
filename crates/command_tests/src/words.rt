//! Words without a reading.

use crate::ends::must_end;
use khe_base::NoMemory;
use program_runs::{Call, End, failing};
use std::alloc::Global;
use std::process::Abort;
use std::test::Fail;
use std::thread::Threads;

const UNREADABLE: &[&[&str]] = &[
    &["construct"],
    &["construct", "archive"],
    &["construct", "archive", "0", "0"],
    &["construct", "archive", "4294967296"],
    &["construct", "archive", "x"],
    &["construct", "0", "archive"],
    &["construct", "archive", "0", "--depth", "1"],
    &["construct", "archive", "0", "--budget", "1"],
    &["construct", "archive", "--depth", "1", "--budget", "1"],
    &["construct", "archive", "0", "--depth", "1", "--depth", "1"],
    &["construct", "archive", "0", "--depth", "0", "--budget", "1"],
    &["construct", "archive", "0", "--depth", "5", "--budget", "1"],
    &["construct", "archive", "0", "--depth", "1", "--budget", "0"],
    &[
        "construct",
        "archive",
        "0",
        "--depth",
        "1",
        "--budget",
        "1000000001",
    ],
    &[
        "construct",
        "archive",
        "0",
        "--depth",
        "1",
        "--budget",
        "1",
        "--jobs",
        "1",
    ],
    &["tied"],
    &["tied", "archive", "0"],
    &["tied", "archive", "0", "script", "script"],
    &["tied", "archive", "4294967296", "script"],
    &["tied", "archive", "script", "0"],
    &["match"],
    &["match", "archive"],
    &["match", "archive", "0", "0"],
    &["match", "archive", "0", "0", "0", "0"],
    &["match", "archive", "4294967296", "0", "0"],
    &["match", "archive", "0", "4294967296", "0"],
    &["match", "archive", "0", "0", "4294967296"],
    &["match", "archive", "0", "0", "-1"],
    &["match", "archive", "0", "0", "--all"],
];

const NOT_UNDERSTOOD: End<'static> = End {
    status: 2,
    text: "khe: words not understood\n",
};

/// The test fails unless runs on each of these lists of words end as words without a reading do, and read nothing: the
/// first call of the shelf would fail.
fn must_not_be_read<R: Threads + Sync + Abort>(
    rt: &R,
    alloc: Global,
    unreadable: &[&[&str]],
) -> Result<(), NoMemory> {
    for words in unreadable {
        let call = Call { words, files: &[] };
        must_end(rt, alloc, call, failing(1, 0), NOT_UNDERSTOOD)?;
    }
    Ok(())
}

#[test]
fn words_without_a_reading_read_nothing(rt: HostRuntime) -> Result<(), Fail> {
    must_not_be_read(&rt, rt.alloc(), UNREADABLE)?;
    Ok(())
}
