//! Lines of every sort, and lines without a reading.

use crate::plays::{Play, must_go};
use program_runs::Piece::{Copies, Once};
use program_runs::{Piece, TWO_EVENTS};
use std::test::Fail;

/// The answer to `total` before any edit.
const TOTAL: Piece = Once("total hard 12 soft 0\n");

/// A script without lines.
const EMPTY: Play = Play {
    archive: TWO_EVENTS,
    solution: "0",
    script: &[],
    status: 0,
    text: &[],
};

/// A comment, an empty line, and a last line without a line feed.
const COMMENTED: Play = Play {
    archive: TWO_EVENTS,
    solution: "0",
    script: &[Once("  # note\n\ntotal")],
    status: 0,
    text: &[TOTAL],
};

/// Lines that end in the way of other systems, and words far apart.
const RETURNS: Play = Play {
    archive: TWO_EVENTS,
    solution: "0",
    script: &[Once("#total\r\n\r\n\tassign \t 0000000000  2 \r\nunassign 3\r\ntotal\r\n")],
    status: 0,
    text: &[Once("refused 8 OffEnd\nrefused 7 NotAssigned\n"), TOTAL],
};

/// The answers to the lines before a line without a reading are kept, and it is the last.
const UNKNOWN: Play = Play {
    archive: TWO_EVENTS,
    solution: "0",
    script: &[Once("total\nfly 3\ntotal\n")],
    status: 7,
    text: &[TOTAL, Once("line 2 fault 1 UnknownCommand\n")],
};

/// Lines without an answer are counted too.
const TOO_FEW: Play = Play {
    archive: TWO_EVENTS,
    solution: "0",
    script: &[Once("# note\n\n\nassign x\n")],
    status: 7,
    text: &[Once("line 4 fault 2 BadCount\n")],
};

const TOO_MANY: Play = Play {
    archive: TWO_EVENTS,
    solution: "0",
    script: &[Once("total\ntotal # now")],
    status: 7,
    text: &[TOTAL, Once("line 2 fault 2 BadCount\n")],
};

/// The greatest number there may be, and one more.
const TOO_GREAT: Play = Play {
    archive: TWO_EVENTS,
    solution: "0",
    script: &[Once("monitor 4294967295\nmonitor 4294967296\n")],
    status: 7,
    text: &[Once("refused 15 NoSuchMonitor\nline 2 fault 3 BadNumber\n")],
};

/// Questions of what is there and of what is not.
const QUESTIONS: Play = Play {
    archive: TWO_EVENTS,
    solution: "0",
    script: &[Once(
        "\
monitor 2
monitor 7
detach 2
monitor 2
monitors
groupcost 0
attach 2
group
add 0 6
add 0 2
assign 3 1
groupcost 0
",
    )],
    status: 0,
    text: &[Once(
        "\
monitor 2 AssignResource \"c1\" event \"E\" role \"R\" deviation 3 hard 3
refused 15 NoSuchMonitor
ok
monitor 2 AssignResource \"c1\" event \"E\" role \"R\" deviation 3 hard 0 detached
monitor 0 AssignTime \"c0\" event \"E\" deviation 3 hard 6
monitor 1 AssignTime \"c0\" event \"F\" deviation 1 hard 2
monitor 2 AssignResource \"c1\" event \"E\" role \"R\" deviation 3 hard 0 detached
monitor 3 AssignResource \"c1\" event \"F\" role \"R\" deviation 1 hard 1
monitor 4 AvoidClashes \"c2\" resource \"r0\" deviation 0 hard 0
monitor 5 AvoidClashes \"c2\" resource \"r1\" deviation 0 hard 0
monitor 6 PreferTimes \"c3\" event \"F\" deviation 0 soft 0
total hard 9 soft 0
refused 16 NoSuchGroup
ok
ok 0
ok
ok
ok
group 0 hard 3 soft 3
",
    )],
};

/// Answers that are too long to be written at once.
const LONG: Play = Play {
    archive: TWO_EVENTS,
    solution: "1",
    script: &[Copies(1_000, "monitors\n"), Once("fly")],
    status: 7,
    text: &[
        Copies(
            1_000,
            "\
monitor 0 AssignTime \"c0\" event \"E\" deviation 0 hard 0
monitor 1 AssignTime \"c0\" event \"F\" deviation 0 hard 0
monitor 2 AssignResource \"c1\" event \"E\" role \"R\" deviation 0 hard 0
monitor 3 AssignResource \"c1\" event \"F\" role \"R\" deviation 0 hard 0
monitor 4 AvoidClashes \"c2\" resource \"r0\" deviation 0 hard 0
monitor 5 AvoidClashes \"c2\" resource \"r1\" deviation 0 hard 0
monitor 6 PreferTimes \"c3\" event \"F\" deviation 0 soft 0
total hard 0 soft 0
",
        ),
        Once("line 1001 fault 1 UnknownCommand\n"),
    ],
};

const LINES: &[&Play] = &[
    &EMPTY, &COMMENTED, &RETURNS, &UNKNOWN, &TOO_FEW, &TOO_MANY, &TOO_GREAT, &QUESTIONS, &LONG,
];

#[test]
fn lines_are_read_and_answered(rt: HostRuntime) -> Result<(), Fail> {
    must_go(&rt, rt.alloc(), LINES)
}

/// The first lines of a script of 16 bytes, of which the second has no reading.
const FIRST_LINES: Piece = Once("total\nfly\ntotal\n");

/// 1,024 bytes of a long line.
const PART: &str = "\
................................................................\
................................................................\
................................................................\
................................................................\
................................................................\
................................................................\
................................................................\
................................................................\
................................................................\
................................................................\
................................................................\
................................................................\
................................................................\
................................................................\
................................................................\
................................................................";

/// The last 1,008 bytes of it.
const REST: &str = "\
...............................................................\
...............................................................\
...............................................................\
...............................................................\
...............................................................\
...............................................................\
...............................................................\
...............................................................\
...............................................................\
...............................................................\
...............................................................\
...............................................................\
...............................................................\
...............................................................\
...............................................................\
...............................................................";

/// A script of 16 MiB is run.
const GREATEST: Play = Play {
    archive: TWO_EVENTS,
    solution: "0",
    script: &[FIRST_LINES, Copies(16_383, PART), Once(REST)],
    status: 7,
    text: &[TOTAL, Once("line 2 fault 1 UnknownCommand\n")],
};

/// A script of one byte more is not.
const TOO_LARGE: Play = Play {
    archive: TWO_EVENTS,
    solution: "0",
    script: &[FIRST_LINES, Copies(16_383, PART), Once(REST), Once("\n")],
    status: 7,
    text: &[Once("script fault 4 TooLarge\n")],
};

#[test]
fn a_script_has_a_greatest_size(rt: HostRuntime) -> Result<(), Fail> {
    must_go(&rt, rt.alloc(), &[&GREATEST, &TOO_LARGE])
}
