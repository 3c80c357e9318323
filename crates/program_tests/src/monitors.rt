//! The limit on monitors.

use crate::limits::{COST, HEAD, Limit, NOTHING_DEVIATES, TAIL, TYPES, must_be_kept};
use program_runs::Piece;
use program_runs::Piece::{Copies, Numbered, Once};
use std::test::Fail;

/// One more monitor, which watches one event.
const ON_ONE_EVENT: &[Piece] = &[
    Once(r#"<SplitEventsConstraint Id="d">"#),
    COST,
    Once(
        r#"<AppliesTo><Events><Event Reference="e0"/></Events></AppliesTo></SplitEventsConstraint>"#,
    ),
];

/// A thousand constraints on a thousand events each.
const MONITORS: Limit = Limit {
    front: &[
        HEAD,
        Once(r#"<Events><EventGroups><EventGroup Id="g"/></EventGroups>"#),
        Numbered(
            1_000,
            r#"<Event Id="e"#,
            r#""><Duration>1</Duration><EventGroups><EventGroup Reference="g"/></EventGroups></Event>"#,
        ),
        Once("</Events><Constraints>"),
        Numbered(
            1_000,
            r#"<SplitEventsConstraint Id="c"#,
            r#""><Required>true</Required><Weight>1</Weight><CostFunction>Linear</CostFunction><AppliesTo><EventGroups><EventGroup Reference="g"/></EventGroups></AppliesTo></SplitEventsConstraint>"#,
        ),
    ],
    met: &[],
    above: ON_ONE_EVENT,
    rest: &[Once("</Constraints>"), TAIL],
    report: NOTHING_DEVIATES,
    refusal: "khe: archive refused: 16 Limit monitors 1000001\n",
};

/// Eight hundred monitors that watch ten thousand events each.
const WATCHES_OF_EVENTS: Limit = Limit {
    front: &[
        HEAD,
        Once(r#"<Events><EventGroups><EventGroup Id="g"/></EventGroups>"#),
        Numbered(
            10_000,
            r#"<Event Id="e"#,
            r#""><Duration>1</Duration><EventGroups><EventGroup Reference="g"/></EventGroups></Event>"#,
        ),
        Once("</Events><Constraints>"),
        Numbered(
            800,
            r#"<LinkEventsConstraint Id="c"#,
            r#""><Required>true</Required><Weight>1</Weight><CostFunction>Linear</CostFunction><AppliesTo><EventGroups><EventGroup Reference="g"/></EventGroups></AppliesTo></LinkEventsConstraint>"#,
        ),
    ],
    met: &[],
    above: ON_ONE_EVENT,
    rest: &[Once("</Constraints>"), TAIL],
    report: NOTHING_DEVIATES,
    refusal: "khe: archive refused: 16 Limit watches 8000001\n",
};

/// Two monitors of each of four thousand resources, which watch a thousand times each; and one more
/// monitor, of a workload.
const WATCHES_OF_ALL_TIMES: Limit = Limit {
    front: &[
        HEAD,
        Once("<Times>"),
        Numbered(1_000, r#"<Time Id="t"#, r#""/>"#),
        Once("</Times><Resources>"),
        TYPES,
        Once(
            r#"<ResourceGroups><ResourceGroup Id="g"><ResourceType Reference="x"/></ResourceGroup></ResourceGroups>"#,
        ),
        Numbered(
            4_000,
            r#"<Resource Id="r"#,
            r#""><ResourceType Reference="x"/><ResourceGroups><ResourceGroup Reference="g"/></ResourceGroups></Resource>"#,
        ),
        Once("</Resources><Constraints>"),
        Numbered(
            2,
            r#"<AvoidClashesConstraint Id="c"#,
            r#""><Required>true</Required><Weight>1</Weight><CostFunction>Linear</CostFunction><AppliesTo><ResourceGroups><ResourceGroup Reference="g"/></ResourceGroups></AppliesTo></AvoidClashesConstraint>"#,
        ),
    ],
    met: &[],
    above: &[
        Once(r#"<LimitWorkloadConstraint Id="d">"#),
        COST,
        Once(
            r#"<AppliesTo><Resources><Resource Reference="r0"/></Resources></AppliesTo></LimitWorkloadConstraint>"#,
        ),
    ],
    rest: &[Once("</Constraints>"), TAIL],
    report: NOTHING_DEVIATES,
    refusal: "khe: archive refused: 16 Limit watches 8000001\n",
};

/// One monitor that lists a group of all times two thousand times; and a single time.
const WATCHES_OF_LISTED_TIMES: Limit = Limit {
    front: &[
        HEAD,
        Once(r#"<Times><TimeGroups><TimeGroup Id="g"/></TimeGroups>"#),
        Numbered(
            4_000,
            r#"<Time Id="t"#,
            r#""><TimeGroups><TimeGroup Reference="g"/></TimeGroups></Time>"#,
        ),
        Once("</Times><Resources>"),
        TYPES,
        Once(
            r#"<Resource Id="r"><ResourceType Reference="x"/></Resource></Resources><Constraints><AvoidUnavailableTimesConstraint Id="c">"#,
        ),
        COST,
        Once(
            r#"<AppliesTo><Resources><Resource Reference="r"/></Resources></AppliesTo><TimeGroups>"#,
        ),
        Copies(2_000, r#"<TimeGroup Reference="g"/>"#),
        Once("</TimeGroups>"),
    ],
    met: &[],
    above: &[Once(r#"<Times><Time Reference="t7"/></Times>"#)],
    rest: &[
        Once("</AvoidUnavailableTimesConstraint></Constraints>"),
        TAIL,
    ],
    report: NOTHING_DEVIATES,
    refusal: "khe: archive refused: 16 Limit watches 8000001\n",
};

/// The limits on monitors, and on what they watch.
const MONITORS_AND_WATCHES: &[&Limit] = &[
    &MONITORS,
    &WATCHES_OF_EVENTS,
    &WATCHES_OF_ALL_TIMES,
    &WATCHES_OF_LISTED_TIMES,
];

#[test]
fn one_monitor_or_watch_more_is_refused(rt: HostRuntime) -> Result<(), Fail> {
    must_be_kept(&rt, rt.alloc(), MONITORS_AND_WATCHES)
}
