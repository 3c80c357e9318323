//! Edits that are accepted and edits that are refused.

use crate::plays::{Play, must_go};
use program_runs::Piece::{Copies, Numbered, Once};
use program_runs::TWO_EVENTS;
use std::test::Fail;

/// A meet is cut in two.
const CUTS: Play = Play {
    archive: TWO_EVENTS,
    solution: "0",
    script: &[Once(
        "\
assign 0 0
split 0 0
split 0 3
split 0 1
show
",
    )],
    status: 0,
    text: &[Once(
        "\
ok
refused 10 BadCut
refused 10 BadCut
ok 1
meet 0 event \"E\" duration 1 time 0
task 0 0 resource -
meet 1 event \"E\" duration 2 time 1
task 1 0 resource -
meet 3 event \"F\" duration 1 time -
task 3 0 resource -
",
    )],
};

/// And its parts are merged, once they have the same resources.
const MERGES: Play = Play {
    archive: TWO_EVENTS,
    solution: "0",
    script: &[Once(
        "\
assign 0 0
split 0 0
split 0 3
split 0 1
give 0 0 0
merge 0 1
total
give 1 0 0
merge 0 1
total
",
    )],
    status: 0,
    text: &[Once(
        "\
ok
refused 10 BadCut
refused 10 BadCut
ok 1
ok
refused 13 TasksDiffer
total hard 5 soft 0
ok
ok
total hard 3 soft 0
",
    )],
};

/// Edits that are refused, of meets, tasks and monitors.
const REFUSED: Play = Play {
    archive: TWO_EVENTS,
    solution: "0",
    script: &[Once(
        "\
assign 1 0
assign 0 3
assign 0 1
unassign 0
merge 0 3
merge 0 0
give 0 1 0
give 0 0 2
detach 0
detach 0
total
split 0 1
assign 0 1
merge 0 1
",
    )],
    status: 0,
    text: &[Once(
        "\
refused 1 NoSuchMeet
refused 3 NoSuchTime
refused 8 OffEnd
refused 7 NotAssigned
refused 11 OtherEvent
refused 14 Same
refused 2 NoSuchTask
refused 4 NoSuchResource
ok
refused 18 Detached
total hard 6 soft 0
ok 1
ok
refused 12 NotAdjacent
",
    )],
};

/// Monitors come into groups and leave them.
const GROUPS: Play = Play {
    archive: TWO_EVENTS,
    solution: "0",
    script: &[Once(
        "\
group
group
add 0 1
add 1 0
add 0 0
add 0 1
add 0 7
groupcost 0
drop 1
remove 1 0
drop 1
remove 0 2
add 1 2
group
",
    )],
    status: 0,
    text: &[Once(
        "\
ok 0
ok 1
ok
ok
ok
refused 19 IsChild
refused 15 NoSuchMonitor
group 0 hard 8 soft 0
refused 24 NotEmpty
ok
ok
refused 20 NotChild
refused 16 NoSuchGroup
ok 1
",
    )],
};

/// Two events run at once with one resource, then with two, and then one of them at its own time.
const CLASHES: Play = Play {
    archive: TWO_EVENTS,
    solution: "0",
    script: &[Once(
        "\
assign 0 0
give 0 0 0
assign 3 1
give 3 0 0
total
regive 3 0 1
total
move 3 0
total
",
    )],
    status: 0,
    text: &[Once(
        "\
ok
ok
ok
ok
total hard 5 soft 3
ok
total hard 0 soft 3
ok
total hard 0 soft 0
",
    )],
};

/// Starts and resources are exchanged, moved and taken, from the solution that meets all.
const EXCHANGES: Play = Play {
    archive: TWO_EVENTS,
    solution: "1",
    script: &[Once(
        "\
trade 0 0 3 0
trade 0 0 0 0
swap 0 3
show
take 3 0
total
trade 0 0 3 0
take 3 0
regive 3 0 1
move 3 2
total
move 3 2
move 3 3
move 0 1
swap 0 3
split 0 1
swap 0 3
total
merge 0 1
merge 1 0
unassign 1
unassign 0
merge 0 1
unassign 0
swap 0 3
give 0 0 0
detach 4
attach 4
attach 4
total
",
    )],
    status: 0,
    text: &[Once(
        "\
ok
refused 14 Same
refused 14 Same
meet 0 event \"E\" duration 3 time 0
task 0 0 resource 1
meet 3 event \"F\" duration 1 time 0
task 3 0 resource 0
ok
total hard 1 soft 0
refused 7 NotAssigned
refused 7 NotAssigned
refused 7 NotAssigned
ok
total hard 1 soft 3
refused 14 Same
refused 3 NoSuchTime
refused 8 OffEnd
refused 8 OffEnd
ok 1
ok
total hard 6 soft 0
refused 12 NotAdjacent
refused 12 NotAdjacent
ok
ok
ok
refused 7 NotAssigned
refused 7 NotAssigned
refused 6 AlreadyAssigned
ok
ok
refused 17 Attached
total hard 7 soft 0
",
    )],
};

/// As many groups as there may be, and one more; a dropped number is free again.
const ALL_GROUPS: Play = Play {
    archive: TWO_EVENTS,
    solution: "0",
    script: &[
        Copies(200, "group\n"),
        Once("group\ndrop 7\ngroup\ngroup\n"),
    ],
    status: 0,
    text: &[
        Numbered(200, "ok ", "\n"),
        Once("refused 23 GroupsFull\nok\nok 7\nrefused 23 GroupsFull\n"),
    ],
};

const EDITS: &[&Play] = &[
    &CUTS,
    &MERGES,
    &REFUSED,
    &GROUPS,
    &CLASHES,
    &EXCHANGES,
    &ALL_GROUPS,
];

#[test]
fn edits_are_accepted_or_refused(rt: HostRuntime) -> Result<(), Fail> {
    must_go(&rt, rt.alloc(), EDITS)
}
