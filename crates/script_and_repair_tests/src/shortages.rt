//! What is short of supplies.

use crate::archives::{NO_RESOURCE, RESERVED, STRICT, UNRESERVED};
use crate::plays::{Play, must_go};
use program_runs::Piece::Once;
use program_runs::TWO_EVENTS;
use std::test::Fail;

/// The lines of the demands for `r0` when both events are given it.
const FOUR: &str = "deficit 1 demands 4\ndemand 0 0 0\ndemand 0 0 1\ndemand 0 0 2\ndemand 3 0 0\n";

/// Four demands share the three supplies of one resource, until one of them gets another.
const SHARED: Play = Play {
    archive: TWO_EVENTS,
    solution: "0",
    script: &[Once("give 0 0 0\ngive 3 0 0\ndeficit\nregive 3 0 1\ndeficit\n")],
    status: 0,
    text: &[
        Once("ok\nok\n"),
        Once(FOUR),
        Once("ok\ndeficit 0 demands 0\n"),
    ],
};

/// What an undo leads back to is short again, also where meets were split and moved.
const UNDONE: Play = Play {
    archive: TWO_EVENTS,
    solution: "0",
    script: &[Once(
        "give 0 0 0\ngive 3 0 0\nbegin\nregive 3 0 1\ndeficit\nsplit 0 1\nassign 1 1\ntake 1 0\nundo\ndeficit\n",
    )],
    status: 0,
    text: &[
        Once("ok\nok\nok\nok\ndeficit 0 demands 0\nok 1\nok\nok\nok\n"),
        Once(FOUR),
    ],
};

/// A script that asks once.
const ONCE: Play = Play {
    archive: TWO_EVENTS,
    solution: "0",
    script: &[Once("give 0 0 0\ngive 3 0 0\nassign 0 0\ndeficit")],
    status: 0,
    text: &[Once("ok\nok\nok\n"), Once(FOUR)],
};

/// An event that no resource can attend.
const WITHOUT: Play = Play {
    archive: NO_RESOURCE,
    solution: "0",
    script: &[Once("deficit\ndeficit\n")],
    status: 0,
    text: &[Once("deficit 1 demands 1\ndemand 0 0 0\ndeficit 1 demands 1\ndemand 0 0 0\n")],
};

/// A time that a required constraint keeps free competes, and not where its weight is 0.
const KEPT_FREE: Play = Play {
    archive: RESERVED,
    solution: "0",
    script: &[Once("give 0 0 0\ndeficit\n")],
    status: 0,
    text: &[Once("ok\ndeficit 1 demands 2\ndemand 0 0 0\nunavailable 0 0\n")],
};

const NOT_KEPT_FREE: Play = Play {
    archive: UNRESERVED,
    solution: "0",
    script: &[Once("give 0 0 0\ndeficit\n")],
    status: 0,
    text: &[Once("ok\ndeficit 0 demands 0\n")],
};

/// An event that must start at a time competes for that time alone, also where the monitor is detached.
const ONE_START: Play = Play {
    archive: STRICT,
    solution: "0",
    script: &[Once("give 0 0 0\ngive 3 0 0\ndeficit\ndetach 6\ndeficit\n")],
    status: 0,
    text: &[Once(
        "ok\nok\ndeficit 1 demands 2\ndemand 0 0 0\ndemand 3 0 0\nok\ndeficit 1 demands 2\ndemand 0 0 0\ndemand 3 0 0\n",
    )],
};

const SHORTAGES: &[&Play] = &[
    &SHARED,
    &UNDONE,
    &ONCE,
    &WITHOUT,
    &KEPT_FREE,
    &NOT_KEPT_FREE,
    &ONE_START,
];

#[test]
fn shortages_are_named(rt: HostRuntime) -> Result<(), Fail> {
    must_go(&rt, rt.alloc(), SHORTAGES)
}
