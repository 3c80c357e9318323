//! The command that makes a timetable of an instance from nothing.

use crate::archives::{CUTS, TO_CUT, TWO};
use crate::ends::{Row, must_end_so};
use crate::texts::{CUTS_FRONT, TO_CUT_FRONT, TWO_FRONT};
use program_runs::Piece::Once;
use program_runs::{FRONT, PLACED, REST, TWO_EVENTS};
use std::test::Fail;

const TWO_EVENTS_ROWS: &[Row] = &[
    // Each meet and each task has the first time and the first resource that costs nothing.
    Row {
        words: &["construct", "archive", "0"],
        script: "",
        status: 0,
        text: &[
            Once(FRONT),
            Once("<SolutionGroup Id=\"constructed\">\n"),
            Once(PLACED),
            Once(REST),
            Once("<!-- khe construct meets 2 hard 0 soft 0 -->\n"),
        ],
    },
    Row {
        words: &[
            "construct",
            "archive",
            "0",
            "--depth",
            "1",
            "--budget",
            "10",
        ],
        script: "",
        status: 0,
        text: &[
            Once(FRONT),
            Once("<SolutionGroup Id=\"constructed\">\n"),
            Once(PLACED),
            Once(REST),
            Once(
                r#"<!-- khe construct meets 2 hard 0 soft 0 -->
<!-- khe repair done accepted 0 tried 0 hard 0 soft 0 -->
"#,
            ),
        ],
    },
    Row {
        words: &["construct", "archive", "4294967295"],
        script: "",
        status: 3,
        text: &[Once("khe: archive refused: 21 NoSuchInstance\n")],
    },
    Row {
        words: &["construct", "archive", "1"],
        script: "",
        status: 3,
        text: &[Once("khe: archive refused: 21 NoSuchInstance\n")],
    },
];

#[test]
fn a_timetable_of_two_events_is_constructed(rt: HostRuntime) -> Result<(), Fail> {
    must_end_so(&rt, rt.alloc(), &[Once(TWO_EVENTS)], TWO_EVENTS_ROWS)
}

const TO_CUT_ROWS: &[Row] = &[
    // No time lowers the totals, so no meet has one.
    Row {
        words: &["construct", "archive", "0"],
        script: "",
        status: 0,
        text: &[
            Once(TO_CUT_FRONT),
            Once(
                r#"<SolutionGroups>
<SolutionGroup Id="constructed">
<Solution Reference="I">
<Events>
<Event Reference="E">
<Duration>2</Duration>
</Event>
<Event Reference="E">
<Duration>1</Duration>
</Event>
</Events>
</Solution>
</SolutionGroup>
</SolutionGroups>
</HighSchoolTimetableArchive>
<!-- khe construct meets 2 hard 0 soft 0 -->
"#,
            ),
        ],
    },
];

#[test]
fn an_event_is_cut(rt: HostRuntime) -> Result<(), Fail> {
    must_end_so(&rt, rt.alloc(), &[Once(TO_CUT)], TO_CUT_ROWS)
}

const CUTS_ROWS: &[Row] = &[
    // Both parts of `Rest` and one of `Both` have no time: each time would cost as much as none.
    Row {
        words: &["construct", "archive", "0"],
        script: "",
        status: 0,
        text: &[
            Once(CUTS_FRONT),
            Once(
                r#"<SolutionGroups>
<SolutionGroup Id="constructed">
<Solution Reference="C">
<Events>
<Event Reference="Fixed">
<Duration>2</Duration>
<Time Reference="t1"/>
</Event>
<Event Reference="Both">
<Duration>2</Duration>
<Time Reference="t6"/>
</Event>
<Event Reference="Both">
<Duration>1</Duration>
<Time Reference="t0"/>
</Event>
<Event Reference="Both">
<Duration>1</Duration>
</Event>
<Event Reference="Rest">
<Duration>2</Duration>
<Resources>
<Resource Reference="r0">
<Role>R</Role>
</Resource>
</Resources>
</Event>
<Event Reference="Rest">
<Duration>2</Duration>
<Resources>
<Resource Reference="r0">
<Role>R</Role>
</Resource>
</Resources>
</Event>
<Event Reference="Rest">
<Duration>1</Duration>
<Resources>
<Resource Reference="r0">
<Role>R</Role>
</Resource>
</Resources>
</Event>
<Event Reference="Whole">
<Duration>3</Duration>
<Time Reference="t3"/>
<Resources>
<Resource Reference="r1">
<Role>R</Role>
</Resource>
</Resources>
</Event>
<Event Reference="Loose">
<Duration>1</Duration>
</Event>
</Events>
</Solution>
</SolutionGroup>
</SolutionGroups>
</HighSchoolTimetableArchive>
<!-- khe construct meets 9 hard 7 soft 0 -->
"#,
            ),
        ],
    },
];

#[test]
fn events_are_cut_by_their_constraints(rt: HostRuntime) -> Result<(), Fail> {
    must_end_so(&rt, rt.alloc(), &[Once(CUTS)], CUTS_ROWS)
}

const TWO_ROWS: &[Row] = &[
    // The invalid solution is not looked at, and both instances stay.
    Row {
        words: &["construct", "archive", "1"],
        script: "",
        status: 0,
        text: &[
            Once(TWO_FRONT),
            Once(
                r#"<SolutionGroups>
<SolutionGroup Id="constructed">
<Solution Reference="K">
<Events>
<Event Reference="E">
<Duration>2</Duration>
<Time Reference="t0"/>
</Event>
<Event Reference="F">
<Duration>1</Duration>
<Time Reference="t2"/>
</Event>
</Events>
</Solution>
</SolutionGroup>
</SolutionGroups>
</HighSchoolTimetableArchive>
<!-- khe construct meets 2 hard 3 soft 0 -->
"#,
            ),
        ],
    },
    // The line tells what was constructed, and the solution is what the repair leaves.
    Row {
        words: &[
            "construct",
            "archive",
            "1",
            "--budget",
            "10",
            "--depth",
            "1",
        ],
        script: "",
        status: 0,
        text: &[
            Once(TWO_FRONT),
            Once(
                r#"<SolutionGroups>
<SolutionGroup Id="constructed">
<Solution Reference="K">
<Events>
<Event Reference="E">
<Duration>2</Duration>
<Time Reference="t2"/>
</Event>
<Event Reference="F">
<Duration>1</Duration>
<Time Reference="t0"/>
</Event>
</Events>
</Solution>
</SolutionGroup>
</SolutionGroups>
</HighSchoolTimetableArchive>
<!-- khe construct meets 2 hard 3 soft 0 -->
<!-- khe repair done accepted 1 tried 4 hard 0 soft 0 -->
"#,
            ),
        ],
    },
    Row {
        words: &["construct", "archive", "2"],
        script: "",
        status: 3,
        text: &[Once("khe: archive refused: 21 NoSuchInstance\n")],
    },
];

#[test]
fn one_of_two_instances_is_constructed(rt: HostRuntime) -> Result<(), Fail> {
    must_end_so(&rt, rt.alloc(), &[Once(TWO)], TWO_ROWS)
}

const REFUSED_ROWS: &[Row] = &[Row {
    words: &["construct", "archive", "0"],
    script: "",
    status: 3,
    text: &[Once("khe: archive refused: 2 BadMarkup at 1\n")],
}];

#[test]
fn a_refused_archive_is_not_constructed(rt: HostRuntime) -> Result<(), Fail> {
    must_end_so(&rt, rt.alloc(), &[Once("<")], REFUSED_ROWS)
}
