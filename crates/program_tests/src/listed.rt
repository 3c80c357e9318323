//! The limits on what groups and constraints list.

use crate::limits::{COST, HEAD, Limit, NOTHING_DEVIATES, TAIL, TYPES, must_be_kept};
use program_runs::Piece;
use program_runs::Piece::{Copies, Once};
use std::test::Fail;

/// A time in a time group.
const TIMES: Piece = Once(
    r#"<Times><TimeGroups><TimeGroup Id="late"/></TimeGroups><Time Id="t"><TimeGroups><TimeGroup Reference="late"/></TimeGroups></Time></Times><Resources>"#,
);

/// A resource without tasks, and an event without a time in a group of events.
const POINTS: Piece = Once(
    r#"<Resource Id="r"><ResourceType Reference="x"/></Resource></Resources><Events><EventGroups><EventGroup Id="g"/></EventGroups><Event Id="e"><Duration>1</Duration><EventGroups><EventGroup Reference="g"/></EventGroups></Event></Events><Constraints>"#,
);

const ON_AN_EVENT: Piece = Once(
    r#"<AppliesTo><Events><Event Reference="e"/></Events></AppliesTo><TimeGroups>"#,
);

const ON_A_GROUP: Piece = Once(
    r#"<AppliesTo><EventGroups><EventGroup Reference="g"/></EventGroups></AppliesTo><TimeGroups>"#,
);

const ON_A_RESOURCE: Piece = Once(
    r#"<AppliesTo><Resources><Resource Reference="r"/></Resources></AppliesTo><TimeGroups>"#,
);

/// As many time groups as a constraint may list: one of them, over and over.
const LISTED: Piece = Copies(10_000, r#"<TimeGroup Reference="late"/>"#);

const ONE_MORE: Piece = Once(r#"<TimeGroup Reference="late"/>"#);

/// The line that refuses one more.
const REFUSAL: &str = "khe: archive refused: 16 Limit listed 10001\n";

/// Single times are not counted.
const PREFER_TIMES: Limit = Limit {
    front: &[
        HEAD,
        TIMES,
        TYPES,
        POINTS,
        Once(r#"<PreferTimesConstraint Id="c">"#),
        COST,
        ON_AN_EVENT,
        LISTED,
    ],
    met: &[],
    above: &[ONE_MORE],
    rest: &[
        Once(
            r#"</TimeGroups><Times><Time Reference="t"/></Times></PreferTimesConstraint></Constraints>"#,
        ),
        TAIL,
    ],
    report: NOTHING_DEVIATES,
    refusal: REFUSAL,
};

const SPREAD_EVENTS: Limit = Limit {
    front: &[
        HEAD,
        TIMES,
        TYPES,
        POINTS,
        Once(r#"<SpreadEventsConstraint Id="c">"#),
        COST,
        ON_A_GROUP,
        LISTED,
    ],
    met: &[],
    above: &[ONE_MORE],
    rest: &[
        Once(r#"</TimeGroups></SpreadEventsConstraint></Constraints>"#),
        TAIL,
    ],
    report: NOTHING_DEVIATES,
    refusal: REFUSAL,
};

/// Single times are not counted.
const AVOID_UNAVAILABLE_TIMES: Limit = Limit {
    front: &[
        HEAD,
        TIMES,
        TYPES,
        POINTS,
        Once(r#"<AvoidUnavailableTimesConstraint Id="c">"#),
        COST,
        ON_A_RESOURCE,
        LISTED,
    ],
    met: &[],
    above: &[ONE_MORE],
    rest: &[
        Once(
            r#"</TimeGroups><Times><Time Reference="t"/></Times></AvoidUnavailableTimesConstraint></Constraints>"#,
        ),
        TAIL,
    ],
    report: NOTHING_DEVIATES,
    refusal: REFUSAL,
};

const LIMIT_IDLE_TIMES: Limit = Limit {
    front: &[
        HEAD,
        TIMES,
        TYPES,
        POINTS,
        Once(r#"<LimitIdleTimesConstraint Id="c">"#),
        COST,
        ON_A_RESOURCE,
        LISTED,
    ],
    met: &[],
    above: &[ONE_MORE],
    rest: &[
        Once(r#"</TimeGroups></LimitIdleTimesConstraint></Constraints>"#),
        TAIL,
    ],
    report: NOTHING_DEVIATES,
    refusal: REFUSAL,
};

const CLUSTER_BUSY_TIMES: Limit = Limit {
    front: &[
        HEAD,
        TIMES,
        TYPES,
        POINTS,
        Once(r#"<ClusterBusyTimesConstraint Id="c">"#),
        COST,
        ON_A_RESOURCE,
        LISTED,
    ],
    met: &[],
    above: &[ONE_MORE],
    rest: &[
        Once(r#"</TimeGroups></ClusterBusyTimesConstraint></Constraints>"#),
        TAIL,
    ],
    report: NOTHING_DEVIATES,
    refusal: REFUSAL,
};

const LIMIT_BUSY_TIMES: Limit = Limit {
    front: &[
        HEAD,
        TIMES,
        TYPES,
        POINTS,
        Once(r#"<LimitBusyTimesConstraint Id="c">"#),
        COST,
        ON_A_RESOURCE,
        LISTED,
    ],
    met: &[],
    above: &[ONE_MORE],
    rest: &[
        Once(r#"</TimeGroups></LimitBusyTimesConstraint></Constraints>"#),
        TAIL,
    ],
    report: NOTHING_DEVIATES,
    refusal: REFUSAL,
};

/// Of two constraints above the limit the first is told.
const THE_FIRST_OF_TWO: Limit = Limit {
    front: &[
        HEAD,
        TIMES,
        TYPES,
        POINTS,
        Once(r#"<LimitIdleTimesConstraint Id="c">"#),
        COST,
        ON_A_RESOURCE,
        LISTED,
    ],
    met: &[
        Once(r#"</TimeGroups></LimitIdleTimesConstraint><LimitBusyTimesConstraint Id="d">"#),
        COST,
        ON_A_RESOURCE,
        LISTED,
    ],
    above: &[
        ONE_MORE,
        Once(r#"</TimeGroups></LimitIdleTimesConstraint><LimitBusyTimesConstraint Id="d">"#),
        COST,
        ON_A_RESOURCE,
        LISTED,
        ONE_MORE,
        ONE_MORE,
    ],
    rest: &[
        Once("</TimeGroups></LimitBusyTimesConstraint></Constraints>"),
        TAIL,
    ],
    report: NOTHING_DEVIATES,
    refusal: REFUSAL,
};

/// The limit on what one constraint lists, for each kind that lists time groups.
const LISTS: &[&Limit] = &[
    &PREFER_TIMES,
    &SPREAD_EVENTS,
    &AVOID_UNAVAILABLE_TIMES,
    &LIMIT_IDLE_TIMES,
    &CLUSTER_BUSY_TIMES,
    &LIMIT_BUSY_TIMES,
    &THE_FIRST_OF_TWO,
];

#[test]
fn one_more_listed_is_refused(rt: HostRuntime) -> Result<(), Fail> {
    must_be_kept(&rt, rt.alloc(), LISTS)
}
