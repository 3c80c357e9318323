//! Archives that are made, and the runs of their jobs. The texts are as a program written apart from this one
//! gave.

use crate::ends::must_answer;
use program_runs::{End, MADE_ONE_EVENT};
use std::alloc::Global;
use std::process::Abort;
use std::test::Fail;
use std::thread::Threads;

/// Words, and how the run ends.
type Case = (&'static [&'static str], u8, &'static str);

const NOT_UNDERSTOOD: &str = "khe: words not understood\n";

const CASES: &[Case] = &[
    (&["make", "0", "1"], 0, MADE_ONE_EVENT),
    (&["make", "000", "0001"], 0, MADE_ONE_EVENT),
    (
        &["make", "0", "1", "--run"],
        0,
        "made seed 0 size 1 resources 3 monitors 17 accepted 0 refused 10 hard 0 soft 1 deficit 0\n",
    ),
    (
        &["make", "7", "03", "--run"],
        0,
        "made seed 7 size 3 resources 3 monitors 32 accepted 10 refused 20 hard 2 soft 12 deficit 0\n",
    ),
    (
        &["make", "999999999999999999", "2", "--run"],
        0,
        "made seed 999999999999999999 size 2 resources 3 monitors 24 accepted 2 refused 18 hard 0 soft 30 deficit 0\n",
    ),
    (&["make"], 2, NOT_UNDERSTOOD),
    (&["make", "7"], 2, NOT_UNDERSTOOD),
    (&["make", "7", "0"], 2, NOT_UNDERSTOOD),
    (&["make", "7", "2001"], 2, NOT_UNDERSTOOD),
    (&["make", "-7", "3"], 2, NOT_UNDERSTOOD),
    (&["make", "", "3"], 2, NOT_UNDERSTOOD),
    (&["make", "1000000000000000000", "3"], 2, NOT_UNDERSTOOD),
    (&["make", "7", "3", "--all"], 2, NOT_UNDERSTOOD),
    (&["make", "--run", "7", "3"], 2, NOT_UNDERSTOOD),
    (&["make", "7", "--run", "3"], 2, NOT_UNDERSTOOD),
    (&["make", "7", "3", "--run", "--run"], 2, NOT_UNDERSTOOD),
];

fn must_end_all<R: Threads + Sync + Abort>(
    rt: &R,
    alloc: Global,
    cases: &[Case],
) -> Result<(), Fail> {
    for case in cases {
        let (words, status, text) = *case;
        must_answer(rt, alloc, words, "", End { status, text: text })?;
    }
    Ok(())
}

#[test]
fn archives_are_made_and_jobs_run(rt: HostRuntime) -> Result<(), Fail> {
    must_end_all(&rt, rt.alloc(), CASES)
}
