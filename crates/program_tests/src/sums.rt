//! The limits on sums.

use crate::limits::{COST, HEAD, Limit, NOTHING_DEVIATES, TAIL, TYPES, must_be_kept};
use program_runs::Piece;
use program_runs::Piece::{Copies, Numbered, Once};
use std::test::Fail;

/// The points of a constraint on the first event.
const ON_THE_EVENT: Piece = Once(
    r#"<AppliesTo><Events><Event Reference="e"/></Events></AppliesTo>"#,
);

/// The points of a constraint on the one resource.
const ON_THE_RESOURCE: Piece = Once(
    r#"<AppliesTo><Resources><Resource Reference="r"/></Resources></AppliesTo>"#,
);

/// The greatest weight on a square.
const SQUARED: Piece = Once(
    "<Required>true</Required><Weight>1000000</Weight><CostFunction>Quadratic</CostFunction>",
);

/// One event has the whole duration. It has no time, so its deviation is the duration.
const DURATION_OF_ONE: Limit = Limit {
    front: &[HEAD, Once(r#"<Events><Event Id="e"><Duration>"#)],
    met: &[Once("100000")],
    above: &[Once("100001")],
    rest: &[
        Once(r#"</Duration></Event></Events><Constraints><AssignTimeConstraint Id="c">"#),
        SQUARED,
        ON_THE_EVENT,
        Once("</AssignTimeConstraint></Constraints>"),
        TAIL,
    ],
    report: &[
        Once("archive instances 1 solutions 1\nsolution 0 group \"G\" instance \"I\"\n"),
        Once("monitor 0 AssignTime \"c\" event \"e\" deviation 100000 hard 10000000000000000\n"),
        Once("total hard 10000000000000000 soft 0\n"),
    ],
    refusal: "khe: archive refused: 16 Limit duration 100001\n",
};

/// The greatest number of events shares the whole duration.
const DURATION_OF_MANY: Limit = Limit {
    front: &[
        HEAD,
        Once("<Events>"),
        Numbered(
            9_999,
            r#"<Event Id="e"#,
            r#""><Duration>10</Duration></Event>"#,
        ),
        Once(r#"<Event Id="last"><Duration>"#),
    ],
    met: &[Once("10")],
    above: &[Once("11")],
    rest: &[Once("</Duration></Event></Events>"), TAIL],
    report: NOTHING_DEVIATES,
    refusal: "khe: archive refused: 16 Limit duration 100001\n",
};

/// Four roles in events that have the whole duration.
const TASKS_OF_ROLES: Limit = Limit {
    front: &[
        HEAD,
        Once("<Resources>"),
        TYPES,
        Once(r#"</Resources><Events><Event Id="e"><Duration>99999</Duration><Resources>"#),
        Numbered(
            4,
            "<Resource><Role>helper-",
            r#"</Role><ResourceType Reference="x"/></Resource>"#,
        ),
        Once(r#"</Resources></Event><Event Id="f"><Duration>1</Duration><Resources>"#),
        Numbered(
            4,
            "<Resource><Role>helper-",
            r#"</Role><ResourceType Reference="x"/></Resource>"#,
        ),
    ],
    met: &[],
    above: &[Once(r#"<Resource><Role>helper-4</Role><ResourceType Reference="x"/></Resource>"#)],
    rest: &[
        Once(r#"</Resources></Event></Events><Constraints><AssignResourceConstraint Id="c">"#),
        COST,
        ON_THE_EVENT,
        Once("<Role>helper-3</Role></AssignResourceConstraint></Constraints>"),
        TAIL,
    ],
    report: &[
        Once("archive instances 1 solutions 1\nsolution 0 group \"G\" instance \"I\"\n"),
        Once(
            "monitor 0 AssignResource \"c\" event \"e\" role \"helper-3\" deviation 99999 hard 99999\n",
        ),
        Once("total hard 99999 soft 0\n"),
    ],
    refusal: "khe: archive refused: 16 Limit tasks 400001\n",
};

/// The members of a group, four times over, are the resources of an event of duration 1,000.
const TASKS_OF_GROUPS: Limit = Limit {
    front: &[
        HEAD,
        Once("<Resources>"),
        TYPES,
        Once(
            r#"<ResourceGroups><ResourceGroup Id="g"><ResourceType Reference="x"/></ResourceGroup></ResourceGroups>"#,
        ),
        Numbered(
            100,
            r#"<Resource Id="r"#,
            r#""><ResourceType Reference="x"/><ResourceGroups><ResourceGroup Reference="g"/></ResourceGroups></Resource>"#,
        ),
        Once(r#"</Resources><Events><Event Id="e"><Duration>1000</Duration><ResourceGroups>"#),
        Copies(4, r#"<ResourceGroup Reference="g"/>"#),
        Once("</ResourceGroups><Resources>"),
    ],
    met: &[],
    above: &[Once(r#"<Resource Reference="r7"/>"#)],
    rest: &[Once("</Resources></Event></Events>"), TAIL],
    report: NOTHING_DEVIATES,
    refusal: "khe: archive refused: 16 Limit tasks 401000\n",
};

/// One resource has all tasks, at one time and each with the greatest workload. So its deviations
/// are the greatest that there are, and the cost of its workload is the greatest of a monitor.
const TASKS_OF_ONE: Limit = Limit {
    front: &[
        HEAD,
        Once(r#"<Times><Time Id="t"/></Times><Resources>"#),
        TYPES,
        Once(r#"<Resource Id="r"><ResourceType Reference="x"/></Resource></Resources>"#),
        Once(r#"<Events><Event Id="e"><Duration>1</Duration><Workload>1000000</Workload>"#),
        Once(r#"<Time Reference="t"/><Resources>"#),
        Copies(400_000, r#"<Resource Reference="r"/>"#),
    ],
    met: &[],
    above: &[Once(r#"<Resource Reference="r"/>"#)],
    rest: &[
        Once(r#"</Resources></Event></Events><Constraints><LimitWorkloadConstraint Id="c">"#),
        SQUARED,
        ON_THE_RESOURCE,
        Once(r#"<Maximum>0</Maximum></LimitWorkloadConstraint><AvoidClashesConstraint Id="d">"#),
        COST,
        ON_THE_RESOURCE,
        Once("</AvoidClashesConstraint></Constraints>"),
        TAIL,
    ],
    report: &[
        Once("archive instances 1 solutions 1\nsolution 0 group \"G\" instance \"I\"\n"),
        Once(
            "monitor 0 LimitWorkload \"c\" resource \"r\" deviation 400000000000 hard 160000000000000000000000000000\n",
        ),
        Once("monitor 1 AvoidClashes \"d\" resource \"r\" deviation 399999 hard 399999\n"),
        Once("total hard 160000000000000000000000399999 soft 0\n"),
    ],
    refusal: "khe: archive refused: 16 Limit tasks 400001\n",
};

/// One resource more is 500 cells more.
const CELLS_OF_MORE_RESOURCES: Limit = Limit {
    front: &[
        HEAD,
        Once("<Times>"),
        Numbered(500, r#"<Time Id="t"#, r#""/>"#),
        Once("</Times><Resources>"),
        TYPES,
        Numbered(
            8_000,
            r#"<Resource Id="r"#,
            r#""><ResourceType Reference="x"/></Resource>"#,
        ),
    ],
    met: &[],
    above: &[Once(r#"<Resource Id="r8000"><ResourceType Reference="x"/></Resource>"#)],
    rest: &[Once("</Resources>"), TAIL],
    report: NOTHING_DEVIATES,
    refusal: "khe: archive refused: 16 Limit cells 4000500\n",
};

/// As many cells as there may be, and 973 times 4,111, which are the fewest above that within the
/// limits of times and of resources.
const CELLS_OF_A_CLOSE_PRODUCT: Limit = Limit {
    front: &[HEAD, Once("<Resources>"), TYPES],
    met: &[
        Numbered(
            1_000,
            r#"<Resource Id="r"#,
            r#""><ResourceType Reference="x"/></Resource>"#,
        ),
        Once("</Resources><Times>"),
        Numbered(4_000, r#"<Time Id="t"#, r#""/>"#),
    ],
    above: &[
        Numbered(
            4_111,
            r#"<Resource Id="r"#,
            r#""><ResourceType Reference="x"/></Resource>"#,
        ),
        Once("</Resources><Times>"),
        Numbered(973, r#"<Time Id="t"#, r#""/>"#),
    ],
    rest: &[Once("</Times>"), TAIL],
    report: NOTHING_DEVIATES,
    refusal: "khe: archive refused: 16 Limit cells 4000003\n",
};

/// The limits on sums and products of counts.
const SUMS: &[&Limit] = &[
    &DURATION_OF_ONE,
    &DURATION_OF_MANY,
    &TASKS_OF_ROLES,
    &TASKS_OF_GROUPS,
    &CELLS_OF_MORE_RESOURCES,
    &CELLS_OF_A_CLOSE_PRODUCT,
];

#[test]
fn more_in_all_is_refused(rt: HostRuntime) -> Result<(), Fail> {
    must_be_kept(&rt, rt.alloc(), SUMS)
}

#[test]
fn the_greatest_deviation_and_cost_are_told(rt: HostRuntime) -> Result<(), Fail> {
    must_be_kept(&rt, rt.alloc(), &[&TASKS_OF_ONE])
}
