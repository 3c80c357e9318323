//! The command that runs scripts with ties.

use crate::archives::{TIES, TWO};
use crate::ends::{Row, must_end_so};
use program_runs::Piece::Once;
use program_runs::TWO_EVENTS;
use std::test::Fail;

const TWO_EVENTS_ROWS: &[Row] = &[
    Row {
        words: &["tied", "archive", "0", "script"],
        script: r#"tie 3 0 2
assign 0 0
assign 3 0
split 0 1
ties
show
untie 3
move 3 0
tie 0 3 0
untie 3
"#,
        status: 0,
        text: &[Once(
            r#"ok
ok
refused 27 Follower
refused 28 Leader
ties 1
tie 3 0 2
meet 0 event "E" duration 3 time 0
task 0 0 resource -
meet 3 event "F" duration 1 time 2
task 3 0 resource -
ok
ok
refused 29 BadOffset
refused 30 NotFollower
"#,
        )],
    },
    Row {
        words: &["tied", "archive", "0", "script"],
        script: r#"begin
tie 3 0 1
assign 0 0
total
undo
ties
total
"#,
        status: 0,
        text: &[Once(
            r#"ok
ok
ok
total hard 4 soft 3
ok
ties 0
total hard 12 soft 0
"#,
        )],
    },
    Row {
        words: &["tied", "archive", "2", "script"],
        script: "ties\n",
        status: 3,
        text: &[Once("khe: archive refused: 18 NoSuchSolution\n")],
    },
];

#[test]
fn two_events_are_tied(rt: HostRuntime) -> Result<(), Fail> {
    must_end_so(&rt, rt.alloc(), &[Once(TWO_EVENTS)], TWO_EVENTS_ROWS)
}

const TIES_ROWS: &[Row] = &[
    // Each refusal, and which of several comes first.
    Row {
        words: &["tied", "archive", "0", "script"],
        script: r#"tie 9 0 0
tie 0 9 0
tie 1 0 0
tie 4 4 0
tie 6 0 0
tie 3 6 1
tie 3 0 0
tie 4 3 0
tie 4 0 1
tie 0 6 0
untie 3
tie 3 0 3
tie 3 0 2
untie 0
untie 9
ties
assign 3 0
unassign 3
move 3 0
move 9 0
split 4 1
split 0 1
merge 3 0
merge 0 6
merge 6 3
swap 3 0
swap 6 4
swap 0 6
move 8 0
assign 0 6
show
"#,
        status: 0,
        text: &[Once(
            r#"refused 1 NoSuchMeet
refused 1 NoSuchMeet
refused 1 NoSuchMeet
refused 14 Same
refused 5 Fixed
ok
refused 27 Follower
refused 27 Follower
ok
refused 28 Leader
ok
refused 29 BadOffset
ok
refused 30 NotFollower
refused 1 NoSuchMeet
ties 2
tie 3 0 2
tie 4 0 1
refused 27 Follower
refused 27 Follower
refused 27 Follower
refused 1 NoSuchMeet
refused 27 Follower
refused 28 Leader
refused 27 Follower
refused 28 Leader
refused 27 Follower
refused 27 Follower
refused 27 Follower
refused 5 Fixed
refused 7 NotAssigned
refused 8 OffEnd
meet 0 event "E" duration 3 time -
task 0 0 resource -
meet 3 event "F" duration 1 time -
task 3 0 resource -
meet 4 event "G" duration 2 time -
meet 6 event "H" duration 2 time 3
meet 8 event "K" duration 1 time -
"#,
        )],
    },
    // Followers go where the meets that a swap exchanges go, and a split or a merge of a leader or follower is refused.
    Row {
        words: &["tied", "archive", "0", "script"],
        script: r#"assign 0 0
assign 4 4
tie 3 0 2
tie 8 4 1
swap 0 4
show
give 0 0 1
give 0 0 0
give 3 0 0
total
move 0 3
total
unassign 0
show
split 4 1
untie 8
split 4 1
tie 5 0 0
merge 4 5
untie 5
merge 4 5
assign 0 6
assign 0 5
ties
show
"#,
        status: 0,
        text: &[Once(
            r#"ok
ok
ok
ok
ok
meet 0 event "E" duration 3 time 4
task 0 0 resource -
meet 3 event "F" duration 1 time 6
task 3 0 resource -
meet 4 event "G" duration 2 time 0
meet 6 event "H" duration 2 time 3
meet 8 event "K" duration 1 time 1
refused 4 NoSuchResource
ok
ok
total hard 5 soft 3
ok
total hard 5 soft 3
ok
meet 0 event "E" duration 3 time -
task 0 0 resource 0
meet 3 event "F" duration 1 time -
task 3 0 resource 0
meet 4 event "G" duration 2 time 0
meet 6 event "H" duration 2 time 3
meet 8 event "K" duration 1 time 1
refused 28 Leader
ok
ok 5
ok
refused 27 Follower
ok
refused 12 NotAdjacent
refused 8 OffEnd
ok
ties 1
tie 3 0 2
meet 0 event "E" duration 3 time 5
task 0 0 resource 0
meet 3 event "F" duration 1 time 7
task 3 0 resource 0
meet 4 event "G" duration 1 time 0
meet 5 event "G" duration 1 time -
meet 6 event "H" duration 2 time 3
meet 8 event "K" duration 1 time 1
"#,
        )],
    },
    // Ties inside marks come back and go as the meets do.
    Row {
        words: &["tied", "archive", "0", "script"],
        script: r#"assign 0 1
begin
tie 3 0 2
begin
untie 3
move 0 0
tie 8 0 0
ties
undo
ties
end
move 0 4
unassign 0
assign 0 2
show
undoto 1
undoto 0
ties
show
end
undo
tie 8 6 1
begin
untie 8
tie 8 0 0
undo
ties
end
show
"#,
        status: 0,
        text: &[Once(
            r#"ok
ok
ok
ok
ok
ok
ok
ties 1
tie 8 0 0
ok
ties 1
tie 3 0 2
ok
ok
ok
ok
meet 0 event "E" duration 3 time 2
task 0 0 resource -
meet 3 event "F" duration 1 time 4
task 3 0 resource -
meet 4 event "G" duration 2 time -
meet 6 event "H" duration 2 time 3
meet 8 event "K" duration 1 time -
ok
refused 25 NoMark
ties 0
meet 0 event "E" duration 3 time 1
task 0 0 resource -
meet 3 event "F" duration 1 time -
task 3 0 resource -
meet 4 event "G" duration 2 time -
meet 6 event "H" duration 2 time 3
meet 8 event "K" duration 1 time -
ok
refused 25 NoMark
ok
ok
ok
ok
ok
ties 1
tie 8 6 1
ok
meet 0 event "E" duration 3 time 1
task 0 0 resource -
meet 3 event "F" duration 1 time -
task 3 0 resource -
meet 4 event "G" duration 2 time -
meet 6 event "H" duration 2 time 3
meet 8 event "K" duration 1 time 4
"#,
        )],
    },
    // The lines of a script have the answers that they have there.
    Row {
        words: &["tied", "archive", "0", "script"],
        script: r#"# two
tie 3 0 2
ties
monitor 4
deficit
group
add 0 0
assign 0 0
groupcost 0
monitors
"#,
        status: 0,
        text: &[Once(
            r#"ok
ties 1
tie 3 0 2
monitor 4 AvoidClashes "apart" resource "r0" deviation 0 hard 0
deficit 0 demands 0
ok 0
ok
ok
group 0 hard 0 soft 0
monitor 0 AssignTime "placed" event "E" deviation 0 hard 0
monitor 1 AssignTime "placed" event "F" deviation 0 hard 0
monitor 2 AssignTime "placed" event "G" deviation 2 hard 4
monitor 3 AssignTime "placed" event "K" deviation 1 hard 2
monitor 4 AvoidClashes "apart" resource "r0" deviation 0 hard 0
monitor 5 PreferTimes "early" event "F" deviation 1 soft 3
monitor 6 PreferTimes "early" event "K" deviation 0 soft 0
total hard 6 soft 3
"#,
        )],
    },
    Row {
        words: &["tied", "archive", "0", "script"],
        script: r#"ties
tie 3 0
ties
"#,
        status: 7,
        text: &[Once(
            r#"ties 0
line 2 fault 2 BadCount
"#,
        )],
    },
    Row {
        words: &["tied", "archive", "0", "script"],
        script: "tie 3 0 x\n",
        status: 7,
        text: &[Once("line 1 fault 3 BadNumber\n")],
    },
    Row {
        words: &["tied", "archive", "0", "script"],
        script: "tie 3 4294967296 0\n",
        status: 7,
        text: &[Once("line 1 fault 3 BadNumber\n")],
    },
    Row {
        words: &["tied", "archive", "0", "script"],
        script: "untie\n",
        status: 7,
        text: &[Once("line 1 fault 2 BadCount\n")],
    },
    Row {
        words: &["tied", "archive", "0", "script"],
        script: "untie 3 0\n",
        status: 7,
        text: &[Once("line 1 fault 2 BadCount\n")],
    },
    Row {
        words: &["tied", "archive", "0", "script"],
        script: "\n ties 3\n",
        status: 7,
        text: &[Once("line 2 fault 2 BadCount\n")],
    },
    Row {
        words: &["tied", "archive", "0", "script"],
        script: "fasten 3 0 0\n",
        status: 7,
        text: &[Once("line 1 fault 1 UnknownCommand\n")],
    },
    Row {
        words: &["script", "archive", "0", "script"],
        script: "total\nties\n",
        status: 7,
        text: &[Once(
            r#"total hard 14 soft 0
line 2 fault 1 UnknownCommand
"#,
        )],
    },
    Row {
        words: &["tied", "archive", "0", "nothing"],
        script: "ties\n",
        status: 4,
        text: &[],
    },
];

#[test]
fn meets_are_tied_to_meets(rt: HostRuntime) -> Result<(), Fail> {
    must_end_so(&rt, rt.alloc(), &[Once(TIES)], TIES_ROWS)
}

const INVALID_ROWS: &[Row] = &[Row {
    words: &["tied", "archive", "0", "script"],
    script: "ties\n",
    status: 3,
    text: &[Once("khe: archive refused: 19 Invalid 4 OffEnd entry 0\n")],
}];

#[test]
fn an_invalid_solution_has_no_ties(rt: HostRuntime) -> Result<(), Fail> {
    must_end_so(&rt, rt.alloc(), &[Once(TWO)], INVALID_ROWS)
}
