//! The limit on the unit of workloads.

use crate::limits::{HEAD, Limit, NOTHING_DEVIATES, TAIL, must_be_kept};
use program_runs::Piece;
use program_runs::Piece::Once;
use std::test::Fail;

/// Events whose durations have the least common multiple 2^62 - 4, which is 4 * (2^60 - 1).
///
/// No durations meet the limit of 2^62 itself: one of them would have to be 2^62. This multiple is
/// the greatest within the limit that durations have which add to no more than 100,000.
const MULTIPLE_WITHIN: &[Piece] = &[
    Once(r#"<Event Id="e4"><Duration>4</Duration></Event>"#),
    Once(r#"<Event Id="e7"><Duration>7</Duration></Event>"#),
    Once(r#"<Event Id="e9"><Duration>9</Duration></Event>"#),
    Once(r#"<Event Id="e11"><Duration>11</Duration></Event>"#),
    Once(r#"<Event Id="e13"><Duration>13</Duration></Event>"#),
    Once(r#"<Event Id="e25"><Duration>25</Duration></Event>"#),
    Once(r#"<Event Id="e31"><Duration>31</Duration></Event>"#),
    Once(r#"<Event Id="e41"><Duration>41</Duration></Event>"#),
    Once(r#"<Event Id="e61"><Duration>61</Duration></Event>"#),
    Once(r#"<Event Id="e151"><Duration>151</Duration></Event>"#),
    Once(r#"<Event Id="e331"><Duration>331</Duration></Event>"#),
    Once(r#"<Event Id="e1321"><Duration>1321</Duration></Event>"#),
];

/// Events whose durations have the least common multiple 2^62 + 172, the least above the limit that
/// durations have which add to no more than 100,000.
const MULTIPLE_ABOVE: &[Piece] = &[
    Once(r#"<Event Id="e4"><Duration>4</Duration></Event>"#),
    Once(r#"<Event Id="e11"><Duration>11</Duration></Event>"#),
    Once(r#"<Event Id="e193"><Duration>193</Duration></Event>"#),
    Once(r#"<Event Id="e487"><Duration>487</Duration></Event>"#),
    Once(r#"<Event Id="e563"><Duration>563</Duration></Event>"#),
    Once(r#"<Event Id="e28433"><Duration>28433</Duration></Event>"#),
    Once(r#"<Event Id="e69661"><Duration>69661</Duration></Event>"#),
];

const CLOSE_MULTIPLES: Limit = Limit {
    front: &[HEAD, Once("<Events>")],
    met: MULTIPLE_WITHIN,
    above: MULTIPLE_ABOVE,
    rest: &[Once("</Events>"), TAIL],
    report: NOTHING_DEVIATES,
    refusal: "khe: archive refused: 16 Limit unit 4611686018427388076\n",
};

/// Of the multiples from the first event on, the first above the limit is told. Here that is
/// 90,001 * (2^62 - 4), which takes more than 64 bits.
const A_LARGE_MULTIPLE: Limit = Limit {
    front: &[
        HEAD,
        Once("<Events>"),
        Once(r#"<Event Id="e4"><Duration>4</Duration></Event>"#),
        Once(r#"<Event Id="e7"><Duration>7</Duration></Event>"#),
        Once(r#"<Event Id="e9"><Duration>9</Duration></Event>"#),
        Once(r#"<Event Id="e11"><Duration>11</Duration></Event>"#),
        Once(r#"<Event Id="e13"><Duration>13</Duration></Event>"#),
        Once(r#"<Event Id="e25"><Duration>25</Duration></Event>"#),
        Once(r#"<Event Id="e31"><Duration>31</Duration></Event>"#),
        Once(r#"<Event Id="e41"><Duration>41</Duration></Event>"#),
        Once(r#"<Event Id="e61"><Duration>61</Duration></Event>"#),
        Once(r#"<Event Id="e151"><Duration>151</Duration></Event>"#),
        Once(r#"<Event Id="e331"><Duration>331</Duration></Event>"#),
        Once(r#"<Event Id="e1321"><Duration>1321</Duration></Event>"#),
    ],
    met: &[Once(r#"<Event Id="f"><Duration>1</Duration></Event>"#)],
    above: &[
        Once(r#"<Event Id="f"><Duration>90001</Duration></Event>"#),
        Once(r#"<Event Id="h"><Duration>1327</Duration></Event>"#),
    ],
    rest: &[Once("</Events>"), TAIL],
    report: NOTHING_DEVIATES,
    refusal: "khe: archive refused: 16 Limit unit 415056353344483338387900\n",
};

/// The limit on the least common multiple of the durations.
const UNITS: &[&Limit] = &[&CLOSE_MULTIPLES, &A_LARGE_MULTIPLE];

#[test]
fn a_greater_multiple_is_refused(rt: HostRuntime) -> Result<(), Fail> {
    must_be_kept(&rt, rt.alloc(), UNITS)
}
