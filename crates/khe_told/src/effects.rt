//! What an edit would make of slots, said without a change of the told state.

ghost use Rattle.std.specs.Prelude.{◌≡◌, false, true, Some};
ghost use Rattle.std.specs.Option.{option_map};
ghost use Rattle.khe_told.specs.Effects.{AreCut, IsCut, effects_of, given_with};
ghost use Rattle.khe_told.specs.Turns.{duration_of};

use crate::slots::Span;
use khe_base::{EventId, MeetId, ResourceId};
use std::marker::Model;

/// What a place of a meet would be given.
#[derive(Clone, Copy, PartialEq, Eq)]
pub struct Regiven {
    pub place: u32,
    /// `None` where it would lose what it is given.
    pub resource: Option<ResourceId>,
}

/// A meet slot and what it would become at an edit. Contracts see both slots. Each call takes constant time.
#[derive(Drop)]
pub struct Effect<'a> {
    pub(crate) meet: MeetId,
    pub(crate) event: EventId,
    pub(crate) before: Option<Span>,
    pub(crate) after: Option<Span>,
    pub(crate) given_before: &'a [Option<ResourceId>],
    /// What each place would be given, but for the one that is given something else.
    pub(crate) given_after: &'a [Option<ResourceId>],
    pub(crate) regiven: Option<Regiven>,
    /// Whether the meet would be another. This and the next are asked for each monitor, and so looked at once.
    pub(crate) moves: bool,
    /// Whether the meet would come or go, or last longer or shorter.
    pub(crate) resizes: bool,
}

impl<'a> Model for Effect<'a> {
    ghost use Rattle.std.specs.Prelude.{◌≡◌, false};
    ghost use Rattle.khe_told.specs.Effects.{given_with};
    ghost use Rattle.khe_told.specs.Turns.{SlotTurn, duration_in};

    ghost Value = { SlotTurn };

    ghost view = { λ t. record {
      before = record { meet = t.meet; event = t.event; span = t.before; given = t.given_before.now };
      after = record { meet = t.meet; event = t.event; span = t.after; given = given_with t.given_after.now t.regiven };
    } };

    ghost invariant = { λ t. (t.moves ≡ false → t.before ≡ t.after)
        × (t.resizes ≡ false → duration_in t.before ≡ duration_in t.after) };
}

impl<'a> Effect<'a> {
    /// The slot's number.
    pub fn meet(&self) -> MeetId
        ensures { result ≡ self.now.before.meet }
    {
        self.meet
    }

    /// The slot's event.
    pub fn event(&self) -> EventId
        ensures { result ≡ self.now.before.event }
    {
        self.event
    }

    /// The meet as it is.
    pub fn before(&self) -> Option<Span>
        ensures { result ≡ self.now.before.span }
    {
        self.before
    }

    /// The meet as it would be.
    pub fn after(&self) -> Option<Span>
        ensures { result ≡ self.now.after.span }
    {
        self.after
    }

    /// What each place is given.
    pub fn given_before(&self) -> &'a [Option<ResourceId>]
        ensures { result.now ≡ self.now.before.given }
    {
        self.given_before
    }

    /// What each place would be given: the first, but that the place of the second would be given what stands there.
    pub fn given_after(&self) -> (&'a [Option<ResourceId>], Option<Regiven>)
        ensures { given_with result.0.now result.1 ≡ self.now.after.given }
    {
        (self.given_after, self.regiven)
    }

    /// Whether the meet would come, go, last longer or shorter, or start at another time.
    pub fn moves(&self) -> bool
        ensures { result ≡ false → self.now.before.span ≡ self.now.after.span }
    {
        self.moves
    }

    /// Whether the meet would come or go, or last longer or shorter.
    pub fn resizes(&self) -> bool
        ensures { result ≡ false → duration_of self.now.before ≡ duration_of self.now.after }
    {
        self.resizes
    }
}

/// What an edit would make of one slot, or of two, one after the other. Contracts see the list of the turns.
#[derive(Drop)]
pub struct Effects<'a> {
    first: Effect<'a>,
    second: Option<Effect<'a>>,
    /// Whether it is known that a meet is cut: the first slot's meet gets shorter, and the second slot gets the rest.
    cut: bool,
}

impl<'a> Model for Effects<'a> {
    ghost use Rattle.std.specs.Prelude.{◌≡◌, true, List};
    ghost use Rattle.khe_told.specs.Effects.{AreCut, effects_of};
    ghost use Rattle.khe_told.specs.Turns.{SlotTurn};

    ghost Value = { List SlotTurn };

    ghost view = { λ e. effects_of e.first e.second };

    ghost invariant = { λ e. e.cut ≡ true → AreCut (effects_of e.first e.second) };
}

impl<'a> Effects<'a> {
    /// Those of these slots, the first before the second.
    pub fn of(first: Effect<'a>, second: Option<Effect<'a>>) -> Effects<'a>
        ensures { result ≡ effects_of first.entry second.entry }
    {
        Effects {
            first,
            second,
            cut: false,
        }
    }

    /// Those of a cut: a meet gets shorter, and a free slot of its event gets the rest.
    pub fn of_cut(first: Effect<'a>, second: Effect<'a>) -> Effects<'a>
        requires { IsCut first second }
        ensures { result ≡ effects_of first.entry (Some second.entry) }
    {
        Effects {
            first,
            second: Some(second),
            cut: true,
        }
    }

    /// The slot that becomes another first, and the one after it, where there are two.
    pub fn slots(&self) -> (&Effect<'a>, Option<&Effect<'a>>)
        ensures { effects_of result.0.now (option_map (λ e. e.now) result.1) ≡ self.now }
    {
        (&self.first, self.second.as_ref())
    }

    /// Whether a meet is cut: the first slot's meet gets shorter, and the second slot, which was free, gets the rest
    /// with the same resources.
    pub fn is_cut(&self) -> bool
        ensures { result ≡ true → AreCut self.now }
    {
        self.cut
    }
}
