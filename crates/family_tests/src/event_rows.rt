//! Rows of the kinds at events, event groups and pairs of events.

use crate::moves::{Move, Row, holds};
use event_monitors::SplitEvents;
use set_monitors::{LinkEvents, OrderEvents};
use std::test::Fail;

const FIVE_TIMES: &str = r#"<Event Id="E"><Duration>5</Duration></Event>"#;

/// Two events of a group.
const TWO_EVENTS: &str =
    r#"<Event Id="E"><Duration>2</Duration><EventGroups><EventGroup Reference="g"/></EventGroups></Event>
<Event Id="F"><Duration>2</Duration><EventGroups><EventGroup Reference="g"/></EventGroups></Event>"#;

/// The same, where the second event is shorter.
const LONG_AND_SHORT: &str =
    r#"<Event Id="E"><Duration>2</Duration><EventGroups><EventGroup Reference="g"/></EventGroups></Event>
<Event Id="F"><Duration>1</Duration><EventGroups><EventGroup Reference="g"/></EventGroups></Event>"#;

const SPLIT: &str =
    r#"<SplitEventsConstraint Id="c"><Required>true</Required><Weight>1</Weight><CostFunction>Linear</CostFunction>
<AppliesTo><Events><Event Reference="E"/></Events></AppliesTo>
<MinimumDuration>2</MinimumDuration><MaximumDuration>3</MaximumDuration><MinimumAmount>3</MinimumAmount><MaximumAmount>5</MaximumAmount></SplitEventsConstraint>"#;

const LINK: &str =
    r#"<LinkEventsConstraint Id="c"><Required>true</Required><Weight>1</Weight><CostFunction>Linear</CostFunction>
<AppliesTo><EventGroups><EventGroup Reference="g"/></EventGroups></AppliesTo></LinkEventsConstraint>"#;

const ORDER: &str =
    r#"<OrderEventsConstraint Id="c"><Required>true</Required><Weight>1</Weight><CostFunction>Linear</CostFunction>
<AppliesTo><EventPairs><EventPair><FirstEvent Reference="E"/><SecondEvent Reference="F"/><MinSeparation>0</MinSeparation><MaxSeparation>0</MaxSeparation></EventPair></EventPairs></AppliesTo></OrderEventsConstraint>"#;

/// A short and a long meet, where a third one is wanted.
const SPLITS: Row = (
    (FIVE_TIMES, SPLIT),
    &[(Move::Add(0, 1), 3), (Move::Add(1, 4), 3)],
);

/// Events that run together at one time of three, or at none.
const LINKS: Row = (
    (TWO_EVENTS, LINK),
    &[
        (Move::Add(0, 2), 0),
        (Move::Add(2, 2), 0),
        (Move::Place(0, 1), 2),
        (Move::Place(2, 2), 2),
        (Move::Lift(0, 1), 2),
        (Move::Lift(2, 2), 0),
    ],
);

/// An event with two meets at one time runs there until both are lifted.
const TWO_MEETS_LINKED: Row = (
    (LONG_AND_SHORT, LINK),
    &[
        (Move::Add(0, 1), 0),
        (Move::Add(1, 1), 0),
        (Move::Add(2, 1), 0),
        (Move::Place(0, 0), 1),
        (Move::Place(1, 0), 1),
        (Move::Place(2, 0), 0),
        (Move::Lift(0, 0), 0),
        (Move::Lift(1, 0), 1),
    ],
);

/// The second event is to start where the first one ends: it does, or it has no start, or it ends
/// where the first one starts.
const ORDERS: Row = (
    (TWO_EVENTS, ORDER),
    &[
        (Move::Add(0, 2), 0),
        (Move::Add(2, 2), 0),
        (Move::Place(0, 0), 0),
        (Move::Place(2, 2), 0),
        (Move::Lift(2, 2), 0),
        (Move::Lift(0, 0), 0),
        (Move::Place(0, 2), 0),
        (Move::Place(2, 0), 4),
        (Move::Lift(2, 0), 0),
    ],
);

#[test]
fn kinds_at_events(rt: HostRuntime) -> Result<(), Fail> {
    assert!(rt; holds::<SplitEvents>(rt.alloc(), &SPLITS)?);
    assert!(rt; holds::<LinkEvents>(rt.alloc(), &LINKS)?);
    assert!(rt; holds::<LinkEvents>(rt.alloc(), &TWO_MEETS_LINKED)?);
    assert!(rt; holds::<OrderEvents>(rt.alloc(), &ORDERS)?);
    Ok(())
}
