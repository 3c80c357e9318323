//! Lists of edits, and whether each of them goes as the list has it.

ghost use Rattle.std.specs.Prelude.{◌≡◌, ◌<◌, Ok, Some};
ghost use Rattle.xhstt_completion.specs.Numbered.{parts_at};
ghost use Rattle.xhstt_resolve.specs.Resolved as resolving;
ghost use Rattle.xhstt_shape.specs.WellFormed.{IsInForm};

use crate::moves::{Act, Move};
use crate::sights::{Sight, heard, heard_back, shows};
use crate::watched_solutions::Hand;
use crate::worked::{Worked, instance_of, read, state_of};
use khe_base::NoMemory;
use khe_instance::Instance;
use khe_told::{Blank, Refusal, Steps};
use std::alloc::Global;
use std::marker::Brand;
use std::sync::ledger::Ledger;

/// What comes of an edit.
#[derive(Clone, Copy)]
pub(crate) enum Outcome {
    /// It is refused.
    Refused(Refusal),
    /// It is made: the number of a new meet, the changes in their order, and the meets after it.
    Made(Option<u32>, &'static [Move], &'static [Sight]),
}

/// An edit, and what comes of it.
pub(crate) type Step = (Act, Outcome);

/// Edits of a solution of an archive, one after the other.
#[derive(Clone, Copy)]
pub(crate) struct Play {
    /// The archive's text.
    pub archive: &'static str,
    /// The number of the solution.
    pub solution: u32,
    /// The meets before the first edit.
    pub start: &'static [Sight],
    pub steps: &'static [Step],
}

/// The place in a play of the first step that goes otherwise than it should, or the number of steps
/// where its start is another; or nothing where all is as it should be.
pub(crate) fn first_wrong(alloc: Global, play: &Play) -> Result<Option<usize>, NoMemory> {
    let Some(worked) = read(alloc, play.archive) else {
        return Ok(Some(play.steps.len()));
    };
    let wrong = wrong_in(alloc, &worked, play);
    drop(worked);
    wrong
}

fn wrong_in(alloc: Global, worked: &Worked, play: &Play) -> Result<Option<usize>, NoMemory>
    requires formed { IsInForm worked.now.archive }
    requires resolved { resolving.resolved worked.now.archive ≡ Ok worked.now.resolved }
{
    match instance_of(&worked.resolved, play.solution) {
        Some(inst) => wrong_on(alloc, worked, inst, play),
        None => Ok(Some(play.steps.len())),
    }
}

fn wrong_on(
    alloc: Global,
    worked: &Worked,
    inst: &Instance,
    play: &Play,
) -> Result<Option<usize>, NoMemory>
    requires formed { IsInForm worked.now.archive }
    requires resolved { resolving.resolved worked.now.archive ≡ Ok worked.now.resolved }
    requires instance { parts_at worked.now.resolved play.now.solution ≡ Some inst.now }
{
    let Some(plain) = state_of(alloc, worked, inst, play.solution) else {
        return Ok(Some(play.steps.len()));
    };
    let hand = Hand::open(alloc, inst, &plain);
    drop(plain);
    let mut hand = hand?;
    Ok(wrong_of::<Brand>(&mut hand, play, Blank::new(1)))
}

fn wrong_of<L: Ledger>(hand: &mut Hand<'_>, play: &Play, blank: Blank) -> Option<usize>
    requires name { blank.name ≡ L.name }
    requires parts { blank.parts ≡ L.parts }
    requires some { 0 < blank.parts }
{
    let mut steps = Steps::<L>::new(blank);
    let mut before = play.start;
    if !shows(hand, before) {
        return Some(play.steps.len());
    }
    for (place, step) in play.steps.iter().enumerate() {
        let (act, outcome) = *step;
        match outcome {
            Outcome::Refused(refusal) => {
                if !is_refused(hand, act, refusal, &mut steps) || !shows(hand, before) {
                    return Some(place);
                }
            }
            Outcome::Made(made, moves, after) => {
                if !is_made(hand, act, (made, moves), (before, after), &mut steps) {
                    return Some(place);
                }
                before = after;
            }
        }
    }
    None
}

/// Whether an edit is refused so, by a check and when it is made, and no change is noted.
fn is_refused<L: Ledger>(
    hand: &mut Hand<'_>,
    act: Act,
    refusal: Refusal,
    steps: &mut Steps<L>,
) -> bool {
    hand.check(act.edit()) == Err(refusal)
        && hand.edit(act.edit(), steps) == Err(refusal)
        && hand.heard().is_empty()
}

/// Whether an edit makes this by these changes, leads from the one state to the other, and back by
/// the inverses when it is undone; and once more.
fn is_made<L: Ledger>(
    hand: &mut Hand<'_>,
    act: Act,
    (made, moves): (Option<u32>, &[Move]),
    (before, after): (&[Sight], &[Sight]),
    steps: &mut Steps<L>,
) -> bool {
    hand.check(act.edit()) == Ok(())
        && goes_back(hand, act, (made, moves), after, steps)
        && heard_back(hand, moves)
        && shows(hand, before)
        && hand.edit(act.edit(), steps) == Ok(made)
        && heard(hand, moves)
        && shows(hand, after)
}

/// Whether an edit makes this by these changes and leads to this state. Where it is made it is
/// undone.
fn goes_back<L: Ledger>(
    hand: &mut Hand<'_>,
    act: Act,
    (made, moves): (Option<u32>, &[Move]),
    after: &[Sight],
    steps: &mut Steps<L>,
) -> bool {
    let Ok((number, back)) = hand.edit_to_undo(act.edit(), steps) else {
        return false;
    };
    let is_so = number == made && heard(hand, moves) && shows(hand, after);
    hand.undo(back, steps);
    is_so
}
