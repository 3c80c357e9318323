//! The limits on the parts of an instance.

use crate::limits::{HEAD, Limit, NOTHING_DEVIATES, TAIL, TYPES, must_be_kept};
use program_runs::Piece::{Numbered, Once};
use std::test::Fail;

const TIMES: Limit = Limit {
    front: &[
        HEAD,
        Once("<Times>"),
        Numbered(4_000, r#"<Time Id="t"#, r#""/>"#),
    ],
    met: &[],
    above: &[Once(r#"<Time Id="t4000"/>"#)],
    rest: &[Once("</Times>"), TAIL],
    report: NOTHING_DEVIATES,
    refusal: "khe: archive refused: 16 Limit times 4001\n",
};

/// Weeks and days are time groups too.
const TIME_GROUPS: Limit = Limit {
    front: &[
        HEAD,
        Once("<Times><TimeGroups>"),
        Numbered(3_333, r#"<Week Id="w"#, r#""/>"#),
        Numbered(3_333, r#"<Day Id="d"#, r#""/>"#),
        Numbered(3_334, r#"<TimeGroup Id="g"#, r#""/>"#),
    ],
    met: &[],
    above: &[Once(r#"<Day Id="d3333"/>"#)],
    rest: &[Once("</TimeGroups></Times>"), TAIL],
    report: NOTHING_DEVIATES,
    refusal: "khe: archive refused: 16 Limit time_groups 10001\n",
};

const RESOURCE_TYPES: Limit = Limit {
    front: &[
        HEAD,
        Once("<Resources><ResourceTypes>"),
        Numbered(1_000, r#"<ResourceType Id="x"#, r#""/>"#),
    ],
    met: &[],
    above: &[Once(r#"<ResourceType Id="x1000"/>"#)],
    rest: &[Once("</ResourceTypes></Resources>"), TAIL],
    report: NOTHING_DEVIATES,
    refusal: "khe: archive refused: 16 Limit resource_types 1001\n",
};

const RESOURCES: Limit = Limit {
    front: &[
        HEAD,
        Once("<Resources>"),
        TYPES,
        Numbered(
            10_000,
            r#"<Resource Id="r"#,
            r#""><ResourceType Reference="x"/></Resource>"#,
        ),
    ],
    met: &[],
    above: &[Once(r#"<Resource Id="r10000"><ResourceType Reference="x"/></Resource>"#)],
    rest: &[Once("</Resources>"), TAIL],
    report: NOTHING_DEVIATES,
    refusal: "khe: archive refused: 16 Limit resources 10001\n",
};

const RESOURCE_GROUPS: Limit = Limit {
    front: &[
        HEAD,
        Once("<Resources>"),
        TYPES,
        Once("<ResourceGroups>"),
        Numbered(
            10_000,
            r#"<ResourceGroup Id="g"#,
            r#""><ResourceType Reference="x"/></ResourceGroup>"#,
        ),
    ],
    met: &[],
    above: &[Once(r#"<ResourceGroup Id="g10000"><ResourceType Reference="x"/></ResourceGroup>"#)],
    rest: &[Once("</ResourceGroups></Resources>"), TAIL],
    report: NOTHING_DEVIATES,
    refusal: "khe: archive refused: 16 Limit resource_groups 10001\n",
};

const EVENTS: Limit = Limit {
    front: &[
        HEAD,
        Once("<Events>"),
        Numbered(
            10_000,
            r#"<Event Id="e"#,
            r#""><Duration>1</Duration></Event>"#,
        ),
    ],
    met: &[],
    above: &[Once(r#"<Event Id="e10000"><Duration>1</Duration></Event>"#)],
    rest: &[Once("</Events>"), TAIL],
    report: NOTHING_DEVIATES,
    refusal: "khe: archive refused: 16 Limit events 10001\n",
};

/// Courses are event groups too.
const EVENT_GROUPS: Limit = Limit {
    front: &[
        HEAD,
        Once("<Events><EventGroups>"),
        Numbered(5_000, r#"<Course Id="c"#, r#""/>"#),
        Numbered(5_000, r#"<EventGroup Id="g"#, r#""/>"#),
    ],
    met: &[],
    above: &[Once(r#"<Course Id="c5000"/>"#)],
    rest: &[Once("</EventGroups></Events>"), TAIL],
    report: NOTHING_DEVIATES,
    refusal: "khe: archive refused: 16 Limit event_groups 10001\n",
};

const CONSTRAINTS: Limit = Limit {
    front: &[
        HEAD,
        Once("<Constraints>"),
        Numbered(
            5_000,
            r#"<LinkEventsConstraint Id="l"#,
            r#""><Required>true</Required><Weight>1</Weight><CostFunction>Linear</CostFunction><AppliesTo/></LinkEventsConstraint>"#,
        ),
        Numbered(
            5_000,
            r#"<AvoidClashesConstraint Id="a"#,
            r#""><Required>true</Required><Weight>1</Weight><CostFunction>Linear</CostFunction><AppliesTo/></AvoidClashesConstraint>"#,
        ),
    ],
    met: &[],
    above: &[Once(
        r#"<LinkEventsConstraint Id="l5000"><Required>true</Required><Weight>1</Weight><CostFunction>Linear</CostFunction><AppliesTo/></LinkEventsConstraint>"#,
    )],
    rest: &[Once("</Constraints>"), TAIL],
    report: NOTHING_DEVIATES,
    refusal: "khe: archive refused: 16 Limit constraints 10001\n",
};

/// The limits on how many elements of one sort there are.
const COUNTS: &[&Limit] = &[
    &TIMES,
    &TIME_GROUPS,
    &RESOURCE_TYPES,
    &RESOURCES,
    &RESOURCE_GROUPS,
    &EVENTS,
    &EVENT_GROUPS,
    &CONSTRAINTS,
];

#[test]
fn one_element_more_is_refused(rt: HostRuntime) -> Result<(), Fail> {
    must_be_kept(&rt, rt.alloc(), COUNTS)
}
