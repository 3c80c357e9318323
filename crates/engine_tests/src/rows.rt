//! Edits with what comes of each, worked out by hand from the tables of edits, refusals and changes.

use crate::archives::{MIXED, SMALL};
use crate::moves::{Act, Move};
use crate::plays::Outcome::{Made, Refused};
use crate::plays::{Play, Step, first_wrong};
use crate::sights::Sight;
use khe_told::Refusal;
use std::test::Fail;

/// The second event of the small archive, as it stands throughout.
const SHORT: Sight = (3, 1, 1, None, &[None]);

/// A meet without a start in the small archive.
const EMPTY: &[Sight] = &[(0, 0, 3, None, &[None]), SHORT];

/// A meet with a start is cut, and its parts are joined once they have the same resources.
const CUT_AND_JOINED: &Play = &Play {
    archive: SMALL,
    solution: 0,
    start: EMPTY,
    steps: &[
        (
            Act::Assign(0, 0),
            Made(
                None,
                &[Move::Place(0, 0)],
                &[(0, 0, 3, Some(0), &[None]), SHORT],
            ),
        ),
        (Act::Split(0, 0), Refused(Refusal::BadCut)),
        (Act::Split(0, 3), Refused(Refusal::BadCut)),
        (
            Act::Split(0, 1),
            Made(
                Some(1),
                &[
                    Move::Lift(0, 0),
                    Move::Drop(0, 3),
                    Move::Add(0, 1),
                    Move::Add(1, 2),
                    Move::Place(0, 0),
                    Move::Place(1, 1),
                ],
                &[
                    (0, 0, 1, Some(0), &[None]),
                    (1, 0, 2, Some(1), &[None]),
                    SHORT,
                ],
            ),
        ),
        (
            Act::Give(0, 0, 0),
            Made(
                None,
                &[Move::Give(0, 0, 0)],
                &[
                    (0, 0, 1, Some(0), &[Some(0)]),
                    (1, 0, 2, Some(1), &[None]),
                    SHORT,
                ],
            ),
        ),
        (Act::Merge(0, 1), Refused(Refusal::TasksDiffer)),
        (
            Act::Give(1, 0, 0),
            Made(
                None,
                &[Move::Give(1, 0, 0)],
                &[
                    (0, 0, 1, Some(0), &[Some(0)]),
                    (1, 0, 2, Some(1), &[Some(0)]),
                    SHORT,
                ],
            ),
        ),
        (
            Act::Merge(0, 1),
            Made(
                None,
                &[
                    Move::Lift(0, 0),
                    Move::Lift(1, 1),
                    Move::Take(0, 0, 0),
                    Move::Take(1, 0, 0),
                    Move::Drop(0, 1),
                    Move::Drop(1, 2),
                    Move::Add(0, 3),
                    Move::Give(0, 0, 0),
                    Move::Place(0, 0),
                ],
                &[(0, 0, 3, Some(0), &[Some(0)]), SHORT],
            ),
        ),
    ],
};

/// Refusals of many causes, and parts of which one alone has a start.
const REFUSED: &Play = &Play {
    archive: SMALL,
    solution: 0,
    start: EMPTY,
    steps: &[
        (Act::Assign(1, 0), Refused(Refusal::NoSuchMeet)),
        (Act::Assign(0, 3), Refused(Refusal::NoSuchTime)),
        (Act::Assign(0, 1), Refused(Refusal::OffEnd)),
        (Act::Unassign(0), Refused(Refusal::NotAssigned)),
        (Act::Merge(0, 3), Refused(Refusal::OtherEvent)),
        (Act::Merge(0, 0), Refused(Refusal::Same)),
        (Act::Give(0, 1, 0), Refused(Refusal::NoSuchTask)),
        (Act::Give(0, 0, 2), Refused(Refusal::NoSuchResource)),
        (
            Act::Split(0, 1),
            Made(
                Some(1),
                &[Move::Drop(0, 3), Move::Add(0, 1), Move::Add(1, 2)],
                &[(0, 0, 1, None, &[None]), (1, 0, 2, None, &[None]), SHORT],
            ),
        ),
        (
            Act::Assign(0, 1),
            Made(
                None,
                &[Move::Place(0, 1)],
                &[(0, 0, 1, Some(1), &[None]), (1, 0, 2, None, &[None]), SHORT],
            ),
        ),
        (Act::Merge(0, 1), Refused(Refusal::NotAdjacent)),
    ],
};

/// A state with starts and resources from the first on, of which meets of two events are not joined.
const FULL: &Play = &Play {
    archive: SMALL,
    solution: 1,
    start: &[
        (0, 0, 3, Some(0), &[Some(0)]),
        (3, 1, 1, Some(0), &[Some(1)]),
    ],
    steps: &[(Act::Merge(0, 3), Refused(Refusal::OtherEvent))],
};

/// A meet without a start and without resources is cut.
const CUT: &Play = &Play {
    archive: SMALL,
    solution: 0,
    start: EMPTY,
    steps: &[(
        Act::Split(0, 2),
        Made(
            Some(1),
            &[Move::Drop(0, 3), Move::Add(0, 2), Move::Add(1, 1)],
            &[(0, 0, 2, None, &[None]), (1, 0, 1, None, &[None]), SHORT],
        ),
    )],
};

/// The events `F`, `G` and `H` of the mixed archive, where nothing is done with them, and `H` with a
/// resource, and with a start beside it.
const F: Sight = (4, 1, 2, None, &[None, Some(2)]);

const G: Sight = (6, 2, 2, Some(1), &[None]);

const H: Sight = (8, 3, 1, None, &[None]);

const H_GIVEN: Sight = (8, 3, 1, None, &[Some(2)]);

const H_PLACED: Sight = (8, 3, 1, Some(4), &[Some(2)]);

const MIXED_EMPTY: &[Sight] = &[(0, 0, 4, None, &[None, None]), F, G, H];

/// Resources of one meet and of two: given, exchanged and taken.
const RESOURCES: &Play = &Play {
    archive: MIXED,
    solution: 0,
    start: MIXED_EMPTY,
    steps: &[
        (Act::Give(0, 0, 2), Refused(Refusal::WrongType)),
        (Act::Give(0, 0, 3), Refused(Refusal::NoSuchResource)),
        (Act::Give(0, 2, 3), Refused(Refusal::NoSuchTask)),
        (Act::Give(1, 0, 0), Refused(Refusal::NoSuchTask)),
        (Act::Give(4, 1, 2), Refused(Refusal::Fixed)),
        (Act::Take(0, 2), Refused(Refusal::NoSuchTask)),
        (Act::Take(4, 1), Refused(Refusal::Fixed)),
        (Act::Take(0, 0), Refused(Refusal::NotAssigned)),
        (Act::Regive(9, 0, 0), Refused(Refusal::NoSuchTask)),
        (Act::Regive(0, 0, 3), Refused(Refusal::NoSuchResource)),
        (Act::Regive(4, 1, 0), Refused(Refusal::Fixed)),
        (Act::Regive(0, 0, 0), Refused(Refusal::NotAssigned)),
        (Act::SwapTasks(0, 0, 0, 2), Refused(Refusal::NoSuchTask)),
        (Act::SwapTasks(0, 0, 4, 1), Refused(Refusal::Fixed)),
        (Act::SwapTasks(0, 0, 0, 1), Refused(Refusal::NotAssigned)),
        (
            Act::Give(0, 0, 0),
            Made(
                None,
                &[Move::Give(0, 0, 0)],
                &[(0, 0, 4, None, &[Some(0), None]), F, G, H],
            ),
        ),
        (Act::Give(0, 0, 2), Refused(Refusal::AlreadyAssigned)),
        (Act::SwapTasks(0, 0, 0, 1), Refused(Refusal::NotAssigned)),
        (
            Act::Give(0, 1, 1),
            Made(
                None,
                &[Move::Give(0, 1, 1)],
                &[(0, 0, 4, None, &[Some(0), Some(1)]), F, G, H],
            ),
        ),
        (Act::Regive(0, 0, 0), Refused(Refusal::Same)),
        (Act::Regive(0, 0, 2), Refused(Refusal::WrongType)),
        (
            Act::Regive(0, 0, 1),
            Made(
                None,
                &[Move::Take(0, 0, 0), Move::Give(0, 0, 1)],
                &[(0, 0, 4, None, &[Some(1), Some(1)]), F, G, H],
            ),
        ),
        (Act::SwapTasks(0, 0, 0, 0), Refused(Refusal::Same)),
        (Act::SwapTasks(0, 0, 0, 1), Refused(Refusal::Same)),
        (
            Act::Regive(0, 1, 0),
            Made(
                None,
                &[Move::Take(0, 1, 1), Move::Give(0, 1, 0)],
                &[(0, 0, 4, None, &[Some(1), Some(0)]), F, G, H],
            ),
        ),
        (
            Act::Give(8, 0, 2),
            Made(
                None,
                &[Move::Give(8, 0, 2)],
                &[(0, 0, 4, None, &[Some(1), Some(0)]), F, G, H_GIVEN],
            ),
        ),
        (Act::SwapTasks(0, 0, 8, 0), Refused(Refusal::WrongType)),
        (Act::SwapTasks(8, 0, 0, 0), Refused(Refusal::WrongType)),
        (
            Act::SwapTasks(0, 1, 0, 0),
            Made(
                None,
                &[
                    Move::Take(0, 1, 0),
                    Move::Take(0, 0, 1),
                    Move::Give(0, 1, 1),
                    Move::Give(0, 0, 0),
                ],
                &[(0, 0, 4, None, &[Some(0), Some(1)]), F, G, H_GIVEN],
            ),
        ),
        (
            Act::Take(0, 1),
            Made(
                None,
                &[Move::Take(0, 1, 1)],
                &[(0, 0, 4, None, &[Some(0), None]), F, G, H_GIVEN],
            ),
        ),
    ],
};

/// Starts of meets, of which one is cut and joined again while the order of its parts changes.
const STARTS: &Play = &Play {
    archive: MIXED,
    solution: 0,
    start: MIXED_EMPTY,
    steps: &[
        (Act::Assign(6, 0), Refused(Refusal::Fixed)),
        (Act::Unassign(6), Refused(Refusal::Fixed)),
        (Act::MoveTo(6, 0), Refused(Refusal::Fixed)),
        (Act::Split(6, 1), Refused(Refusal::Fixed)),
        (Act::Split(1, 1), Refused(Refusal::NoSuchMeet)),
        (Act::Split(8, 1), Refused(Refusal::BadCut)),
        (Act::Unassign(9), Refused(Refusal::NoSuchMeet)),
        (Act::MoveTo(1, 0), Refused(Refusal::NoSuchMeet)),
        (Act::MoveTo(0, 5), Refused(Refusal::NoSuchTime)),
        (Act::MoveTo(0, 1), Refused(Refusal::NotAssigned)),
        (Act::SwapMeets(0, 9), Refused(Refusal::NoSuchMeet)),
        (Act::SwapMeets(0, 6), Refused(Refusal::Fixed)),
        (Act::SwapMeets(0, 4), Refused(Refusal::NotAssigned)),
        (
            Act::Give(0, 1, 1),
            Made(
                None,
                &[Move::Give(0, 1, 1)],
                &[(0, 0, 4, None, &[None, Some(1)]), F, G, H],
            ),
        ),
        (
            Act::Give(0, 0, 0),
            Made(
                None,
                &[Move::Give(0, 0, 0)],
                &[(0, 0, 4, None, &[Some(0), Some(1)]), F, G, H],
            ),
        ),
        (Act::Assign(0, 2), Refused(Refusal::OffEnd)),
        (
            Act::Assign(0, 1),
            Made(
                None,
                &[Move::Place(0, 1)],
                &[(0, 0, 4, Some(1), &[Some(0), Some(1)]), F, G, H],
            ),
        ),
        (Act::Assign(0, 2), Refused(Refusal::AlreadyAssigned)),
        (Act::MoveTo(0, 1), Refused(Refusal::Same)),
        (Act::MoveTo(0, 2), Refused(Refusal::OffEnd)),
        (
            Act::MoveTo(0, 0),
            Made(
                None,
                &[Move::Lift(0, 1), Move::Place(0, 0)],
                &[(0, 0, 4, Some(0), &[Some(0), Some(1)]), F, G, H],
            ),
        ),
        (Act::SwapMeets(0, 4), Refused(Refusal::NotAssigned)),
        (Act::SwapMeets(4, 0), Refused(Refusal::NotAssigned)),
        (Act::SwapMeets(0, 0), Refused(Refusal::Same)),
        (Act::Merge(0, 1), Refused(Refusal::NoSuchMeet)),
        (
            Act::Split(0, 3),
            Made(
                Some(1),
                &[
                    Move::Lift(0, 0),
                    Move::Take(0, 0, 0),
                    Move::Take(0, 1, 1),
                    Move::Drop(0, 4),
                    Move::Add(0, 3),
                    Move::Add(1, 1),
                    Move::Give(0, 0, 0),
                    Move::Give(0, 1, 1),
                    Move::Give(1, 0, 0),
                    Move::Give(1, 1, 1),
                    Move::Place(0, 0),
                    Move::Place(1, 3),
                ],
                &[
                    (0, 0, 3, Some(0), &[Some(0), Some(1)]),
                    (1, 0, 1, Some(3), &[Some(0), Some(1)]),
                    F,
                    G,
                    H,
                ],
            ),
        ),
        (Act::SwapMeets(0, 1), Refused(Refusal::OffEnd)),
        (Act::SwapMeets(1, 0), Refused(Refusal::OffEnd)),
        (
            Act::Split(0, 1),
            Made(
                Some(2),
                &[
                    Move::Lift(0, 0),
                    Move::Take(0, 0, 0),
                    Move::Take(0, 1, 1),
                    Move::Drop(0, 3),
                    Move::Add(0, 1),
                    Move::Add(2, 2),
                    Move::Give(0, 0, 0),
                    Move::Give(0, 1, 1),
                    Move::Give(2, 0, 0),
                    Move::Give(2, 1, 1),
                    Move::Place(0, 0),
                    Move::Place(2, 1),
                ],
                &[
                    (0, 0, 1, Some(0), &[Some(0), Some(1)]),
                    (1, 0, 1, Some(3), &[Some(0), Some(1)]),
                    (2, 0, 2, Some(1), &[Some(0), Some(1)]),
                    F,
                    G,
                    H,
                ],
            ),
        ),
        (
            Act::SwapMeets(0, 2),
            Made(
                None,
                &[
                    Move::Lift(0, 0),
                    Move::Lift(2, 1),
                    Move::Place(0, 1),
                    Move::Place(2, 0),
                ],
                &[
                    (0, 0, 1, Some(1), &[Some(0), Some(1)]),
                    (1, 0, 1, Some(3), &[Some(0), Some(1)]),
                    (2, 0, 2, Some(0), &[Some(0), Some(1)]),
                    F,
                    G,
                    H,
                ],
            ),
        ),
        (Act::Merge(2, 0), Refused(Refusal::NotAdjacent)),
        (
            Act::MoveTo(0, 2),
            Made(
                None,
                &[Move::Lift(0, 1), Move::Place(0, 2)],
                &[
                    (0, 0, 1, Some(2), &[Some(0), Some(1)]),
                    (1, 0, 1, Some(3), &[Some(0), Some(1)]),
                    (2, 0, 2, Some(0), &[Some(0), Some(1)]),
                    F,
                    G,
                    H,
                ],
            ),
        ),
        (
            Act::Merge(2, 0),
            Made(
                None,
                &[
                    Move::Lift(2, 0),
                    Move::Lift(0, 2),
                    Move::Take(2, 0, 0),
                    Move::Take(2, 1, 1),
                    Move::Take(0, 0, 0),
                    Move::Take(0, 1, 1),
                    Move::Drop(2, 2),
                    Move::Drop(0, 1),
                    Move::Add(2, 3),
                    Move::Give(2, 0, 0),
                    Move::Give(2, 1, 1),
                    Move::Place(2, 0),
                ],
                &[
                    (1, 0, 1, Some(3), &[Some(0), Some(1)]),
                    (2, 0, 3, Some(0), &[Some(0), Some(1)]),
                    F,
                    G,
                    H,
                ],
            ),
        ),
        (Act::Assign(0, 0), Refused(Refusal::NoSuchMeet)),
        (Act::Give(0, 0, 0), Refused(Refusal::NoSuchTask)),
        (
            Act::Take(1, 0),
            Made(
                None,
                &[Move::Take(1, 0, 0)],
                &[
                    (1, 0, 1, Some(3), &[None, Some(1)]),
                    (2, 0, 3, Some(0), &[Some(0), Some(1)]),
                    F,
                    G,
                    H,
                ],
            ),
        ),
        (Act::Merge(2, 1), Refused(Refusal::TasksDiffer)),
        (
            Act::Take(2, 0),
            Made(
                None,
                &[Move::Take(2, 0, 0)],
                &[
                    (1, 0, 1, Some(3), &[None, Some(1)]),
                    (2, 0, 3, Some(0), &[None, Some(1)]),
                    F,
                    G,
                    H,
                ],
            ),
        ),
        (
            Act::Unassign(1),
            Made(
                None,
                &[Move::Lift(1, 3)],
                &[
                    (1, 0, 1, None, &[None, Some(1)]),
                    (2, 0, 3, Some(0), &[None, Some(1)]),
                    F,
                    G,
                    H,
                ],
            ),
        ),
        (Act::Merge(2, 1), Refused(Refusal::NotAdjacent)),
        (
            Act::Unassign(2),
            Made(
                None,
                &[Move::Lift(2, 0)],
                &[
                    (1, 0, 1, None, &[None, Some(1)]),
                    (2, 0, 3, None, &[None, Some(1)]),
                    F,
                    G,
                    H,
                ],
            ),
        ),
        (
            Act::Merge(2, 1),
            Made(
                None,
                &[
                    Move::Take(2, 1, 1),
                    Move::Take(1, 1, 1),
                    Move::Drop(2, 3),
                    Move::Drop(1, 1),
                    Move::Add(2, 4),
                    Move::Give(2, 1, 1),
                ],
                &[(2, 0, 4, None, &[None, Some(1)]), F, G, H],
            ),
        ),
        (
            Act::Split(2, 1),
            Made(
                Some(0),
                &[
                    Move::Take(2, 1, 1),
                    Move::Drop(2, 4),
                    Move::Add(2, 1),
                    Move::Add(0, 3),
                    Move::Give(2, 1, 1),
                    Move::Give(0, 1, 1),
                ],
                &[
                    (0, 0, 3, None, &[None, Some(1)]),
                    (2, 0, 1, None, &[None, Some(1)]),
                    F,
                    G,
                    H,
                ],
            ),
        ),
        (
            Act::Give(8, 0, 2),
            Made(
                None,
                &[Move::Give(8, 0, 2)],
                &[
                    (0, 0, 3, None, &[None, Some(1)]),
                    (2, 0, 1, None, &[None, Some(1)]),
                    F,
                    G,
                    H_GIVEN,
                ],
            ),
        ),
        (
            Act::Assign(8, 4),
            Made(
                None,
                &[Move::Place(8, 4)],
                &[
                    (0, 0, 3, None, &[None, Some(1)]),
                    (2, 0, 1, None, &[None, Some(1)]),
                    F,
                    G,
                    H_PLACED,
                ],
            ),
        ),
        (
            Act::Assign(2, 4),
            Made(
                None,
                &[Move::Place(2, 4)],
                &[
                    (0, 0, 3, None, &[None, Some(1)]),
                    (2, 0, 1, Some(4), &[None, Some(1)]),
                    F,
                    G,
                    H_PLACED,
                ],
            ),
        ),
        (Act::SwapMeets(2, 8), Refused(Refusal::Same)),
    ],
};

#[test]
fn meets_are_cut_and_joined(rt: HostRuntime) -> Result<(), Fail> {
    assert_eq!(rt; first_wrong(rt.alloc(), CUT_AND_JOINED)?, None);
    assert_eq!(rt; first_wrong(rt.alloc(), CUT)?, None);
    Ok(())
}

#[test]
fn edits_are_refused(rt: HostRuntime) -> Result<(), Fail> {
    assert_eq!(rt; first_wrong(rt.alloc(), REFUSED)?, None);
    assert_eq!(rt; first_wrong(rt.alloc(), FULL)?, None);
    Ok(())
}

#[test]
fn resources_are_given_and_taken(rt: HostRuntime) -> Result<(), Fail> {
    assert_eq!(rt; first_wrong(rt.alloc(), RESOURCES)?, None);
    Ok(())
}

#[test]
fn starts_are_given_and_taken(rt: HostRuntime) -> Result<(), Fail> {
    assert_eq!(rt; first_wrong(rt.alloc(), STARTS)?, None);
    Ok(())
}
