//! The command that matches the tasks of one time.

use crate::archives::{CHOICE, CROWD, TIMED, TOO_LARGE_CROWD, TWO};
use crate::ends::{Matched, Row, must_end_so, must_match};
use crate::texts::CHOICE_FRONT;
use program_runs::Piece::{Numbered, Once};
use program_runs::{EMPTY, FRONT, GROUP, PLACED, Piece, REST, SECOND, TWO_EVENTS};
use std::test::Fail;

const NONE_ROWS: &[Row] = &[
    // No meet runs.
    Row {
        words: &["match", "archive", "0", "0", "0"],
        script: "",
        status: 0,
        text: &[
            Once(FRONT),
            Once(GROUP),
            Once(
                r#"<Solution Reference="J">
<Events>
<Event Reference="E">
<Duration>3</Duration>
</Event>
<Event Reference="F">
<Duration>1</Duration>
</Event>
</Events>
</Solution>
"#,
            ),
            Once(SECOND),
            Once(REST),
            Once("<!-- khe match tasks 0 sum hard 0 soft 0 kept hard 12 soft 0 -->\n"),
        ],
    },
];

#[test]
fn no_task_is_matched(rt: HostRuntime) -> Result<(), Fail> {
    must_end_so(&rt, rt.alloc(), &[Once(TWO_EVENTS)], NONE_ROWS)
}

const CHOICE_ROWS: &[Row] = &[
    // Where each resource costs more than none, the task goes without; the only price is then its cost.
    Row {
        words: &["match", "archive", "0", "2", "0"],
        script: "",
        status: 0,
        text: &[
            Once(CHOICE_FRONT),
            Once(
                r#"<SolutionGroups>
<SolutionGroup Id="H">
<Solution Reference="M">
<Events>
<Event Reference="E">
<Duration>2</Duration>
<Time Reference="t0"/>
<Resources>
<Resource Reference="r0">
<Role>R</Role>
</Resource>
</Resources>
</Event>
<Event Reference="F">
<Duration>1</Duration>
<Time Reference="t1"/>
<Resources>
<Resource Reference="r1">
<Role>R</Role>
</Resource>
</Resources>
</Event>
<Event Reference="G">
<Duration>1</Duration>
<Time Reference="t2"/>
</Event>
</Events>
</Solution>
<Solution Reference="M">
<Events>
<Event Reference="E">
<Time Reference="t0"/>
<Resources>
<Resource Reference="r1">
<Role>R</Role>
</Resource>
</Resources>
</Event>
<Event Reference="F">
<Time Reference="t1"/>
<Resources>
<Resource Reference="r0">
<Role>R</Role>
</Resource>
</Resources>
</Event>
<Event Reference="G">
<Time Reference="t2"/>
</Event>
</Events>
</Solution>
</SolutionGroup>
</SolutionGroups>
</HighSchoolTimetableArchive>
<!-- khe task 3 0 resource - price 13 0 -->
<!-- khe match tasks 1 sum hard 13 soft 0 taken hard 13 soft 0 -->
"#,
            ),
        ],
    },
];

#[test]
fn a_task_goes_without(rt: HostRuntime) -> Result<(), Fail> {
    must_end_so(&rt, rt.alloc(), &[Once(CHOICE)], CHOICE_ROWS)
}

const REFUSED_ROWS: &[Row] = &[
    Row {
        words: &["match", "archive", "0", "3", "0"],
        script: "",
        status: 3,
        text: &[Once("khe: archive refused: 22 NoSuchTime\n")],
    },
    Row {
        words: &["match", "archive", "0", "0", "1"],
        script: "",
        status: 3,
        text: &[Once("khe: archive refused: 23 NoSuchType\n")],
    },
    Row {
        words: &["match", "archive", "0", "4294967295", "1"],
        script: "",
        status: 3,
        text: &[Once("khe: archive refused: 22 NoSuchTime\n")],
    },
    Row {
        words: &["match", "archive", "2", "3", "1"],
        script: "",
        status: 3,
        text: &[Once("khe: archive refused: 18 NoSuchSolution\n")],
    },
];

#[test]
fn times_types_and_solutions_that_are_missing_are_refused(rt: HostRuntime) -> Result<(), Fail> {
    must_end_so(&rt, rt.alloc(), &[Once(TIMED)], REFUSED_ROWS)
}

const INVALID_ROWS: &[Row] = &[Row {
    words: &["match", "archive", "0", "9", "9"],
    script: "",
    status: 3,
    text: &[Once("khe: archive refused: 19 Invalid 4 OffEnd entry 0\n")],
}];

#[test]
fn an_invalid_solution_is_not_matched(rt: HostRuntime) -> Result<(), Fail> {
    must_end_so(&rt, rt.alloc(), &[Once(TWO)], INVALID_ROWS)
}

const CROWD_ROWS: &[Row] = &[
    Row {
        words: &["match", "archive", "0", "0", "0"],
        script: "",
        status: 3,
        text: &[Once("khe: archive refused: 24 TooManyTasks 201\n")],
    },
    Row {
        words: &["match", "archive", "0", "0", "1"],
        script: "",
        status: 3,
        text: &[Once("khe: archive refused: 23 NoSuchType\n")],
    },
];

#[test]
fn more_tasks_than_there_may_be_are_refused(rt: HostRuntime) -> Result<(), Fail> {
    must_end_so(&rt, rt.alloc(), TOO_LARGE_CROWD, CROWD_ROWS)
}

const KEPT: &[Matched] = &[
    // Both resources cost the same, so the old solution stays.
    Matched {
        words: &["match", "archive", "1", "0", "0"],
        fronts: &[&[
            Once(FRONT),
            Once(GROUP),
            Once(EMPTY),
            Once(PLACED),
            Once(REST),
        ]],
        last: "<!-- khe match tasks 2 sum hard 4 soft 0 kept hard 0 soft 0 -->\n",
    },
];

#[test]
fn a_solution_stays(rt: HostRuntime) -> Result<(), Fail> {
    must_match(&rt, rt.alloc(), &[Once(TWO_EVENTS)], KEPT)
}

const EITHER: &[Matched] = &[
    // Either task may have either resource.
    Matched {
        words: &["match", "archive", "0", "0", "0"],
        fronts: &[
            &[
                Once(FRONT),
                Once(GROUP),
                Once(PLACED),
                Once(SECOND),
                Once(REST),
            ],
            &[
                Once(FRONT),
                Once(GROUP),
                Once(
                    r#"<Solution Reference="J">
<Events>
<Event Reference="E">
<Duration>3</Duration>
<Time Reference="t0"/>
<Resources>
<Resource Reference="r1">
<Role>R</Role>
</Resource>
</Resources>
</Event>
<Event Reference="F">
<Duration>1</Duration>
<Time Reference="t0"/>
<Resources>
<Resource Reference="r0">
<Role>R</Role>
</Resource>
</Resources>
</Event>
</Events>
</Solution>
"#,
                ),
                Once(SECOND),
                Once(REST),
            ],
        ],
        last: "<!-- khe match tasks 2 sum hard 4 soft 0 taken hard 0 soft 0 -->\n",
    },
];

#[test]
fn two_tasks_have_a_resource_each(rt: HostRuntime) -> Result<(), Fail> {
    must_match(&rt, rt.alloc(), &[Once(TIMED)], EITHER)
}

const CHOSEN: &[Matched] = &[
    // Task by task, `E` would take the resource that `G` wants, so that one has a price below 0. Other prices would be
    // right as well: these are those of a program that was written apart from this one. The first time of `E` is an earlier one, and its own
    // resource and the place of another type are passed over.
    Matched {
        words: &["match", "archive", "0", "1", "0"],
        fronts: &[&[
            Once(CHOICE_FRONT),
            Once(
                r#"<SolutionGroups>
<SolutionGroup Id="H">
<Solution Reference="M">
<Events>
<Event Reference="E">
<Duration>2</Duration>
<Time Reference="t0"/>
<Resources>
<Resource Reference="r1">
<Role>R</Role>
</Resource>
</Resources>
</Event>
<Event Reference="F">
<Duration>1</Duration>
<Time Reference="t1"/>
<Resources>
<Resource Reference="r0">
<Role>R</Role>
</Resource>
</Resources>
</Event>
<Event Reference="G">
<Duration>1</Duration>
<Time Reference="t2"/>
<Resources>
<Resource Reference="r0">
<Role>R</Role>
</Resource>
</Resources>
</Event>
</Events>
</Solution>
<Solution Reference="M">
<Events>
<Event Reference="E">
<Time Reference="t0"/>
<Resources>
<Resource Reference="r1">
<Role>R</Role>
</Resource>
</Resources>
</Event>
<Event Reference="F">
<Time Reference="t1"/>
<Resources>
<Resource Reference="r0">
<Role>R</Role>
</Resource>
</Resources>
</Event>
<Event Reference="G">
<Time Reference="t2"/>
</Event>
</Events>
</Solution>
</SolutionGroup>
</SolutionGroups>
</HighSchoolTimetableArchive>
"#,
            ),
        ]],
        last: "\
<!-- khe task 0 1 resource 2 price 31 0 -->
<!-- khe task 2 0 resource 1 price 40 0 -->
<!-- khe resource 1 price -2 0 -->
<!-- khe match tasks 2 sum hard 69 soft 0 taken hard 22 soft 0 -->
",
    },
    // The same choice stands already.
    Matched {
        words: &["match", "archive", "1", "1", "0"],
        fronts: &[&[
            Once(CHOICE_FRONT),
            Once(
                r#"<SolutionGroups>
<SolutionGroup Id="H">
<Solution Reference="M">
<Events>
<Event Reference="E">
<Time Reference="t0"/>
<Resources>
<Resource Reference="r0">
<Role>R</Role>
</Resource>
</Resources>
</Event>
<Event Reference="F">
<Time Reference="t1"/>
<Resources>
<Resource Reference="r1">
<Role>R</Role>
</Resource>
</Resources>
</Event>
<Event Reference="G">
<Time Reference="t2"/>
<Resources>
<Resource Reference="r0">
<Role>R</Role>
</Resource>
</Resources>
</Event>
</Events>
</Solution>
<Solution Reference="M">
<Events>
<Event Reference="E">
<Duration>2</Duration>
<Time Reference="t0"/>
<Resources>
<Resource Reference="r1">
<Role>R</Role>
</Resource>
</Resources>
</Event>
<Event Reference="F">
<Duration>1</Duration>
<Time Reference="t1"/>
<Resources>
<Resource Reference="r0">
<Role>R</Role>
</Resource>
</Resources>
</Event>
<Event Reference="G">
<Duration>1</Duration>
<Time Reference="t2"/>
</Event>
</Events>
</Solution>
</SolutionGroup>
</SolutionGroups>
</HighSchoolTimetableArchive>
"#,
            ),
        ]],
        last: "\
<!-- khe task 0 1 resource 2 price 20 0 -->
<!-- khe task 2 0 resource 1 price 29 0 -->
<!-- khe resource 1 price -2 0 -->
<!-- khe match tasks 2 sum hard 47 soft 0 kept hard 11 soft 0 -->
",
    },
    // A resource that costs as much as none.
    Matched {
        words: &["match", "archive", "0", "1", "1"],
        fronts: &[&[Once(CHOICE_FRONT)]],
        last: "<!-- khe match tasks 1 sum hard 24 soft 0 kept hard 24 soft 0 -->\n",
    },
    Matched {
        words: &["match", "archive", "0", "0", "0"],
        fronts: &[&[Once(CHOICE_FRONT)]],
        last: "<!-- khe match tasks 1 sum hard 24 soft 0 kept hard 24 soft 0 -->\n",
    },
];

#[test]
fn a_task_leaves_a_resource_to_another(rt: HostRuntime) -> Result<(), Fail> {
    must_match(&rt, rt.alloc(), &[Once(CHOICE)], CHOSEN)
}

/// The place with the role `R7` gets the only resource. Several prices of that pair are right; each other place goes
/// without, at the cost of that.
const CROWD_MATCHED: &[Piece] = &[
    Once(
        r#"<?xml version="1.0" encoding="UTF-8"?>
<HighSchoolTimetableArchive>
<Instances>
<Instance Id="L">
<Times>
<Time Id="t"/>
</Times>
<Resources>
<ResourceTypes>
<ResourceType Id="X"/>
</ResourceTypes>
<Resource Id="r">
<ResourceType Reference="X"/>
</Resource>
</Resources>
<Events>
<Event Id="E">
<Duration>1</Duration>
<Time Reference="t"/>
<Resources>
"#,
    ),
    Numbered(
        200,
        "<Resource>\n<Role>R",
        "</Role>\n<ResourceType Reference=\"X\"/>\n</Resource>\n",
    ),
    Once(
        r#"</Resources>
</Event>
</Events>
<Constraints>
<AssignResourceConstraint Id="c">
<Required>true</Required>
<Weight>3</Weight>
<CostFunction>Linear</CostFunction>
<AppliesTo>
<Events>
<Event Reference="E"/>
</Events>
</AppliesTo>
<Role>R7</Role>
</AssignResourceConstraint>
</Constraints>
</Instance>
</Instances>
<SolutionGroups>
<SolutionGroup Id="H">
<Solution Reference="L">
<Events>
<Event Reference="E">
<Duration>1</Duration>
<Time Reference="t"/>
<Resources>
<Resource Reference="r">
<Role>R7</Role>
</Resource>
</Resources>
</Event>
</Events>
</Solution>
</SolutionGroup>
</SolutionGroups>
</HighSchoolTimetableArchive>
"#,
    ),
    Numbered(7, "<!-- khe task 0 ", " resource - price 3 0 -->\n"),
    Once("<!-- khe task 0 7 resource 0 price "),
];

const CROWDED: &[Matched] = &[
    // As many tasks as can be matched, and one resource.
    Matched {
        words: &["match", "archive", "0", "0", "0"],
        fronts: &[CROWD_MATCHED],
        last: "<!-- khe task 0 199 resource - price 3 0 -->\n<!-- khe match tasks 200 sum hard 597 soft 0 taken hard 0 soft 0 -->\n",
    },
];

#[test]
fn as_many_tasks_as_there_may_be_are_matched(rt: HostRuntime) -> Result<(), Fail> {
    must_match(&rt, rt.alloc(), CROWD, CROWDED)
}
