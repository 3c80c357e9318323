//! A run for each command and some more, with how it ends, and how many calls of its devices it makes. What is
//! written was worked out by hand or made by a program that was written apart from this one; the calls are counted by
//! hand.

use program_runs::Piece::Once;
use program_runs::{
    Call, EMPTY, FRONT, File, GROUP, MADE_ONE_EVENT, NESTED_SCRIPT, NESTED_TEXT, PLACED, Piece,
    REST, SECOND, TWO_EVENTS,
};

/// The greatest number of bytes of a read or of a write, the number of the first call that fails, and the
/// number of the first call that a run then does not make. At one byte a call, the archive of 2,009 bytes takes
/// 2,011 calls of the shelf (one opens it, 2,009 read it, one sees its end), so that 2,012 is the first that is
/// not made. Where failing each of these calls would take minutes, only the last ones fail at one byte a call,
/// and each one does at more bytes a call.
pub(crate) type Sweep = (u32, u64, u64);

/// A run, and how it ends where no call fails.
#[derive(Clone, Copy)]
pub(crate) struct Run {
    pub call: Call<'static>,
    pub status: u8,
    /// All that it writes.
    pub text: &'static [Piece],
    /// Calls of the shelf: for each file one opens it, some read it, and one sees its end.
    pub reads: &'static [Sweep],
    /// Writes: an archive is given in one piece, what stands after it in another one, and any other text in one. So
    /// the bytes of a write divide an archive that something stands after.
    pub writes: &'static [Sweep],
}

/// The archive of two events, of 2,009 bytes.
const ARCHIVE: File<'static> = File {
    name: "archive",
    text: TWO_EVENTS,
};

const ARCHIVE_ALONE: &[File<'static>] = &[ARCHIVE];

/// The calls of a run that reads the archive of two events alone.
const READS_OF_ARCHIVE: &[Sweep] = &[(1, 2_000, 2_012), (3, 1, 673), (1_000_000, 1, 4)];

/// A report of 387 bytes.
const EVALUATE: Run = Run {
    call: Call {
        words: &["evaluate", "archive"],
        files: ARCHIVE_ALONE,
    },
    status: 0,
    text: &[Once(
        "\
archive instances 1 solutions 2
solution 0 group \"H\" instance \"J\"
monitor 0 AssignTime \"c0\" event \"E\" deviation 3 hard 6
monitor 1 AssignTime \"c0\" event \"F\" deviation 1 hard 2
monitor 2 AssignResource \"c1\" event \"E\" role \"R\" deviation 3 hard 3
monitor 3 AssignResource \"c1\" event \"F\" role \"R\" deviation 1 hard 1
total hard 12 soft 0
solution 1 group \"H\" instance \"J\"
total hard 0 soft 0
",
    )],
    reads: &[(1, 1, 2_012), (1_000_000, 1, 4)],
    writes: &[(1, 1, 388), (3, 1, 130), (1_000_000, 1, 2)],
};

/// A script of 130 bytes, and answers of 199.
const SCRIPT: Run = Run {
    call: Call {
        words: &["script", "archive", "0", "script"],
        files: &[
            ARCHIVE,
            File {
                name: "script",
                text: NESTED_SCRIPT,
            },
        ],
    },
    status: 0,
    text: &[Once(NESTED_TEXT)],
    reads: &[(1, 2_130, 2_144), (20, 1, 113), (1_000_000, 1, 7)],
    writes: &[(1, 1, 200), (7, 1, 30), (1_000_000, 1, 2)],
};

/// A script of 28 bytes with a line without a reading, and answers of 51.
const FAULTY_SCRIPT: Run = Run {
    call: Call {
        words: &["script", "archive", "0", "script"],
        files: &[
            ARCHIVE,
            File {
                name: "script",
                text: "total\n# and then:\nfly\ntotal\n",
            },
        ],
    },
    status: 7,
    text: &[Once("total hard 12 soft 0\nline 3 fault 1 UnknownCommand\n")],
    reads: &[(1, 2_030, 2_042), (100, 1, 27)],
    writes: &[(1, 1, 52), (3, 1, 18)],
};

/// A script on a solution that is not there: it is not read. The refusal has 40 bytes.
const REFUSED_SCRIPT: Run = Run {
    call: Call {
        words: &["script", "archive", "2", "script"],
        files: &[
            ARCHIVE,
            File {
                name: "script",
                text: "total\n",
            },
        ],
    },
    status: 3,
    text: &[Once("khe: archive refused: 18 NoSuchSolution\n")],
    reads: READS_OF_ARCHIVE,
    writes: &[(1, 1, 41), (3, 1, 15)],
};

/// A script with ties of 87 bytes, and answers of 221.
const TIED: Run = Run {
    call: Call {
        words: &["tied", "archive", "0", "script"],
        files: &[
            ARCHIVE,
            File {
                name: "script",
                text: "\
tie 3 0 2
assign 0 0
assign 3 0
split 0 1
ties
show
untie 3
move 3 0
tie 0 3 0
untie 3
",
            },
        ],
    },
    status: 0,
    text: &[Once(
        "\
ok
ok
refused 27 Follower
refused 28 Leader
ties 1
tie 3 0 2
meet 0 event \"E\" duration 3 time 0
task 0 0 resource -
meet 3 event \"F\" duration 1 time 2
task 3 0 resource -
ok
ok
refused 29 BadOffset
refused 30 NotFollower
",
    )],
    reads: &[(1, 2_090, 2_101), (20, 1, 111), (1_000_000, 1, 7)],
    writes: &[(1, 1, 222), (13, 1, 18), (1_000_000, 1, 2)],
};

/// An archive of 2,475 bytes, and a line of 58.
const REPAIR: Run = Run {
    call: Call {
        words: &["repair", "archive", "0", "--depth", "1", "--budget", "1000"],
        files: ARCHIVE_ALONE,
    },
    status: 0,
    text: &[
        Once(FRONT),
        Once(GROUP),
        Once(PLACED),
        Once(SECOND),
        Once(REST),
        Once("<!-- khe repair done accepted 4 tried 5 hard 0 soft 0 -->\n"),
    ],
    reads: READS_OF_ARCHIVE,
    writes: &[(1, 2_525, 2_534), (33, 1, 78), (2_475, 1, 3)],
};

/// An archive of 2,475 bytes, and a line of 39.
const SOLVE: Run = Run {
    call: Call {
        words: &[
            "solve",
            "archive",
            "0",
            "--depth",
            "1",
            "--budget",
            "1000",
            "--jobs",
            "2",
            "--workers",
            "2",
        ],
        files: ARCHIVE_ALONE,
    },
    status: 0,
    text: &[
        Once(FRONT),
        Once(GROUP),
        Once(PLACED),
        Once(SECOND),
        Once(REST),
        Once("<!-- khe solve job 0 hard 0 soft 0 -->\n"),
    ],
    reads: READS_OF_ARCHIVE,
    writes: &[(1, 2_505, 2_515), (33, 1, 78), (2_475, 1, 3)],
};

/// An archive of 2,165 bytes, and a line of 45.
const CONSTRUCT: Run = Run {
    call: Call {
        words: &["construct", "archive", "0"],
        files: ARCHIVE_ALONE,
    },
    status: 0,
    text: &[
        Once(FRONT),
        Once("<SolutionGroup Id=\"constructed\">\n"),
        Once(PLACED),
        Once(REST),
        Once("<!-- khe construct meets 2 hard 0 soft 0 -->\n"),
    ],
    reads: READS_OF_ARCHIVE,
    writes: &[(1, 2_200, 2_211), (5, 1, 443), (2_165, 1, 3)],
};

/// An archive of 2,181 bytes, and lines of 150.
const MATCH: Run = Run {
    call: Call {
        words: &["match", "archive", "1", "0", "0"],
        files: ARCHIVE_ALONE,
    },
    status: 0,
    text: &[
        Once(FRONT),
        Once(GROUP),
        Once(EMPTY),
        Once(PLACED),
        Once(REST),
        Once(
            "\
<!-- khe task 0 0 resource 0 price 1 0 -->
<!-- khe task 3 0 resource 1 price 3 0 -->
<!-- khe match tasks 2 sum hard 4 soft 0 kept hard 0 soft 0 -->
",
        ),
    ],
    reads: READS_OF_ARCHIVE,
    writes: &[(1, 2_320, 2_332), (3, 1, 778), (2_181, 1, 3)],
};

/// An archive of 2,135 bytes.
const CHECK: Run = Run {
    call: Call {
        words: &["check", "archive"],
        files: ARCHIVE_ALONE,
    },
    status: 0,
    text: &[
        Once(FRONT),
        Once(GROUP),
        Once(EMPTY),
        Once(SECOND),
        Once(REST),
    ],
    reads: READS_OF_ARCHIVE,
    writes: &[(1, 2_125, 2_136), (61, 1, 36), (1_000_000, 1, 2)],
};

/// An archive of 10,404 bytes. Nothing is read.
const MAKE: Run = Run {
    call: Call {
        words: &["make", "0", "1"],
        files: &[],
    },
    status: 0,
    text: &[Once(MADE_ONE_EVENT)],
    reads: &[(1, 1, 1)],
    writes: &[(1, 10_400, 10_405), (102, 1, 103), (1_000_000, 1, 2)],
};

/// A line of 89 bytes. Nothing is read.
const MAKE_AND_RUN: Run = Run {
    call: Call {
        words: &["make", "0", "1", "--run"],
        files: &[],
    },
    status: 0,
    text: &[Once(
        "made seed 0 size 1 resources 3 monitors 17 accepted 0 refused 10 hard 0 soft 1 deficit 0\n",
    )],
    reads: &[(1, 1, 1)],
    writes: &[(1, 1, 90), (1_000_000, 1, 2)],
};

/// Runs that write reports, answers and refusals.
pub(crate) const TOLD: &[&Run] = &[
    &EVALUATE,
    &SCRIPT,
    &FAULTY_SCRIPT,
    &REFUSED_SCRIPT,
    &TIED,
    &MAKE_AND_RUN,
];

/// Runs that write an archive with a repaired timetable.
pub(crate) const REPAIRED: &[&Run] = &[&REPAIR, &SOLVE];

/// Runs that write an archive with a new timetable.
pub(crate) const RENEWED: &[&Run] = &[&CONSTRUCT, &MATCH];

/// The runs that write an archive as it is read or drawn.
pub(crate) const SPELLED: &[&Run] = &[&CHECK, &MAKE];
