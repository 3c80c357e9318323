//! Marks, and what they lead back to.

use crate::plays::{Play, must_go};
use program_runs::Piece::{Copies, Once};
use program_runs::{NESTED_SCRIPT, NESTED_TEXT, TWO_EVENTS};
use std::test::Fail;

/// Each undo goes back to its own mark.
const NESTED: Play = Play {
    archive: TWO_EVENTS,
    solution: "0",
    script: &[Once(NESTED_SCRIPT)],
    status: 0,
    text: &[Once(NESTED_TEXT)],
};

/// Meets, resources, groups and detached monitors are all as they were.
const WHOLE: Play = Play {
    archive: TWO_EVENTS,
    solution: "0",
    script: &[Once(
        "\
group
add 0 3
add 0 1
begin
assign 0 0
give 0 0 0
split 0 1
detach 0
remove 0 3
add 0 2
group
undo
show
monitors
groupcost 0
groupcost 1
",
    )],
    status: 0,
    text: &[Once(
        "\
ok 0
ok
ok
ok
ok
ok
ok 1
ok
ok
ok
ok 1
ok
meet 0 event \"E\" duration 3 time -
task 0 0 resource -
meet 3 event \"F\" duration 1 time -
task 3 0 resource -
monitor 0 AssignTime \"c0\" event \"E\" deviation 3 hard 6
monitor 1 AssignTime \"c0\" event \"F\" deviation 1 hard 2
monitor 2 AssignResource \"c1\" event \"E\" role \"R\" deviation 3 hard 3
monitor 3 AssignResource \"c1\" event \"F\" role \"R\" deviation 1 hard 1
monitor 4 AvoidClashes \"c2\" resource \"r0\" deviation 0 hard 0
monitor 5 AvoidClashes \"c2\" resource \"r1\" deviation 0 hard 0
monitor 6 PreferTimes \"c3\" event \"F\" deviation 0 soft 0
total hard 12 soft 0
group 0 hard 3 soft 0
refused 16 NoSuchGroup
",
    )],
};

/// Marks are counted from one.
const NUMBERS: Play = Play {
    archive: TWO_EVENTS,
    solution: "0",
    script: &[Once("end\nundoto 1\nbegin\nundoto 0\nundoto 2\nundoto 1\n")],
    status: 0,
    text: &[Once(
        "refused 25 NoMark\nrefused 25 NoMark\nok\nrefused 25 NoMark\nrefused 25 NoMark\nok\n",
    )],
};

/// Going back to an outer mark closes those inside it.
const OUTER: Play = Play {
    archive: TWO_EVENTS,
    solution: "0",
    script: &[Once("begin\nbegin\nassign 0 0\nundoto 1\nend\nend\ntotal\n")],
    status: 0,
    text: &[Once("ok\nok\nok\nok\nok\nrefused 25 NoMark\ntotal hard 12 soft 0\n")],
};

/// What was done since a mark that is closed belongs to the mark around it.
const CLOSED: Play = Play {
    archive: TWO_EVENTS,
    solution: "0",
    script: &[Once("begin\nassign 0 0\nbegin\ngive 0 0 0\nend\ntotal\nundo\ntotal\n")],
    status: 0,
    text: &[Once("ok\nok\nok\nok\nok\ntotal hard 3 soft 0\nok\ntotal hard 12 soft 0\n")],
};

/// As many marks as may be open, and one more.
const ALL_MARKS: Play = Play {
    archive: TWO_EVENTS,
    solution: "0",
    script: &[
        Copies(1_000, "begin\n"),
        Once("begin\nassign 0 0\nundoto 1000\ntotal\nend\nbegin\nbegin\n"),
    ],
    status: 0,
    text: &[
        Copies(1_000, "ok\n"),
        Once("refused 26 MarksFull\nok\nok\ntotal hard 12 soft 0\nok\nok\nrefused 26 MarksFull\n"),
    ],
};

const MARKS: &[&Play] = &[&NESTED, &WHOLE, &NUMBERS, &OUTER, &CLOSED, &ALL_MARKS];

#[test]
fn marks_lead_back(rt: HostRuntime) -> Result<(), Fail> {
    must_go(&rt, rt.alloc(), MARKS)
}
