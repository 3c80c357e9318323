//! The limit on solutions.

use crate::limits::{HEAD, Limit, NOTHING_DEVIATES, TAIL, must_be_kept};
use program_runs::Piece::{Copies, Numbered, Once};
use std::test::Fail;

/// The solutions of all groups count together.
const SOLUTIONS: Limit = Limit {
    front: &[
        Once(r#"<HighSchoolTimetableArchive><Instances><Instance Id="I"/></Instances>"#),
        Once(r#"<SolutionGroups><SolutionGroup Id="G">"#),
        Copies(9_999, r#"<Solution Reference="I"/>"#),
        Once(r#"</SolutionGroup><SolutionGroup Id="H"><Solution Reference="I"/>"#),
    ],
    met: &[],
    above: &[Once(r#"<Solution Reference="I"/>"#)],
    rest: &[Once("</SolutionGroup></SolutionGroups></HighSchoolTimetableArchive>")],
    report: &[
        Once("archive instances 1 solutions 10000\n"),
        Numbered(
            9_999,
            "solution ",
            " group \"G\" instance \"I\"\ntotal hard 0 soft 0\n",
        ),
        Once("solution 9999 group \"H\" instance \"I\"\ntotal hard 0 soft 0\n"),
    ],
    refusal: "khe: archive refused: 16 Limit solutions 10001\n",
};

/// Too many solutions are told before a reference of theirs that names no instance.
const SOLUTIONS_BEFORE_REFERENCES: Limit = Limit {
    front: &[
        Once(r#"<HighSchoolTimetableArchive><Instances><Instance Id="I"/></Instances>"#),
        Once(r#"<SolutionGroups><SolutionGroup Id="G">"#),
    ],
    met: &[Once(r#"<Solution Reference="I"/>"#)],
    above: &[Copies(10_001, r#"<Solution Reference="K"/>"#)],
    rest: &[Once("</SolutionGroup></SolutionGroups></HighSchoolTimetableArchive>")],
    report: NOTHING_DEVIATES,
    refusal: "khe: archive refused: 16 Limit solutions 10001\n",
};

/// A limit of an instance is told before that of the solutions.
const INSTANCES_BEFORE_SOLUTIONS: Limit = Limit {
    front: &[
        HEAD,
        Once("<Resources><ResourceTypes>"),
        Numbered(1_000, r#"<ResourceType Id="x"#, r#""/>"#),
    ],
    met: &[
        Once("</ResourceTypes></Resources></Instance></Instances>"),
        Once(r#"<SolutionGroups><SolutionGroup Id="G"><Solution Reference="I"/>"#),
    ],
    above: &[
        Once(r#"<ResourceType Id="x1000"/></ResourceTypes></Resources></Instance></Instances>"#),
        Once(r#"<SolutionGroups><SolutionGroup Id="G">"#),
        Copies(10_001, r#"<Solution Reference="I"/>"#),
    ],
    rest: &[Once("</SolutionGroup></SolutionGroups></HighSchoolTimetableArchive>")],
    report: NOTHING_DEVIATES,
    refusal: "khe: archive refused: 16 Limit resource_types 1001\n",
};

/// Of two limits of one instance the one with the lower number is told, wherever it stands.
const THE_LOWER_NUMBER: Limit = Limit {
    front: &[
        HEAD,
        Once("<Times><TimeGroups>"),
        Numbered(10_000, r#"<TimeGroup Id="g"#, r#""/>"#),
    ],
    met: &[
        Once("</TimeGroups>"),
        Numbered(4_000, r#"<Time Id="t"#, r#""/>"#),
    ],
    above: &[
        Once(r#"<TimeGroup Id="g10000"/></TimeGroups>"#),
        Numbered(4_001, r#"<Time Id="t"#, r#""/>"#),
    ],
    rest: &[Once("</Times>"), TAIL],
    report: NOTHING_DEVIATES,
    refusal: "khe: archive refused: 16 Limit times 4001\n",
};

/// Of the limits of two instances that of the first one is told.
const THE_FIRST_INSTANCE: Limit = Limit {
    front: &[
        HEAD,
        Once("<Times><TimeGroups>"),
        Numbered(10_000, r#"<TimeGroup Id="g"#, r#""/>"#),
    ],
    met: &[
        Once(r#"</TimeGroups></Times></Instance><Instance Id="J"><Times>"#),
        Numbered(4_000, r#"<Time Id="t"#, r#""/>"#),
    ],
    above: &[
        Once(r#"<TimeGroup Id="g10000"/></TimeGroups></Times></Instance><Instance Id="J"><Times>"#),
        Numbered(4_001, r#"<Time Id="t"#, r#""/>"#),
    ],
    rest: &[Once("</Times>"), TAIL],
    report: &[
        Once("archive instances 2 solutions 1\nsolution 0 group \"G\" instance \"I\"\n"),
        Once("total hard 0 soft 0\n"),
    ],
    refusal: "khe: archive refused: 16 Limit time_groups 10001\n",
};

/// The limit on solutions, and which of two limits is told.
const LIMITS: &[&Limit] = &[
    &SOLUTIONS,
    &SOLUTIONS_BEFORE_REFERENCES,
    &INSTANCES_BEFORE_SOLUTIONS,
    &THE_LOWER_NUMBER,
    &THE_FIRST_INSTANCE,
];

#[test]
fn the_first_limit_is_told(rt: HostRuntime) -> Result<(), Fail> {
    must_be_kept(&rt, rt.alloc(), LIMITS)
}
