//! What becomes of one meet slot at an edit, whatever changes lead there.

ghost use Rattle.std.specs.Prelude.{◌≡◌, ℕ, true, false, length, slice_get};
ghost use Rattle.khe_told.specs.Naming.{AreSameBut, is_named};
ghost use Rattle.khe_told.specs.Turns.{duration_in, duration_of};

use crate::naming::Places;
use crate::slots::Span;
use khe_base::{EventId, MeetId, ResourceId};
use std::marker::Model;

/// A meet slot before and after an edit, whatever changes lead there. Contracts see both slots. Each
/// call takes constant time.
#[derive(Drop)]
pub struct Turn<'a> {
    pub(crate) meet: MeetId,
    pub(crate) event: EventId,
    pub(crate) before: Option<Span>,
    pub(crate) after: Option<Span>,
    pub(crate) given_before: &'a [Option<ResourceId>],
    pub(crate) given_after: &'a [Option<ResourceId>],
    /// The places that may be given something else.
    pub(crate) places: Places,
    /// Whether a place is given something else.
    pub(crate) gives_other: bool,
    /// Whether the meet changed. This and the next are asked by each keeper, and so looked at once.
    pub(crate) moves: bool,
    /// Whether the meet comes or goes, or lasts longer or shorter.
    pub(crate) resizes: bool,
}

impl<'a> Model for Turn<'a> {
    ghost use Rattle.std.specs.Prelude.{◌≡◌, false};
    ghost use Rattle.khe_told.specs.Naming.{AreSameBut};
    ghost use Rattle.khe_told.specs.Turns.{SlotTurn, duration_in};

    ghost Value = { SlotTurn };

    ghost view = { λ t. record {
      before = record { meet = t.meet; event = t.event; span = t.before; given = t.given_before.now };
      after = record { meet = t.meet; event = t.event; span = t.after; given = t.given_after.now };
    } };

    ghost invariant = { λ t. (t.gives_other ≡ false → t.given_before.now ≡ t.given_after.now)
        × AreSameBut t.places t.given_before.now t.given_after.now × (t.moves ≡ false → t.before ≡ t.after)
        × (t.resizes ≡ false → duration_in t.before ≡ duration_in t.after) };
}

impl<'a> Turn<'a> {
    /// The slot's number.
    pub fn meet(&self) -> MeetId
        ensures { result ≡ self.now.before.meet }
    {
        self.meet
    }

    /// The slot's event.
    pub fn event(&self) -> EventId
        ensures { result ≡ self.now.before.event }
    {
        self.event
    }

    /// The meet before.
    pub fn before(&self) -> Option<Span>
        ensures { result ≡ self.now.before.span }
    {
        self.before
    }

    /// The meet after.
    pub fn after(&self) -> Option<Span>
        ensures { result ≡ self.now.after.span }
    {
        self.after
    }

    /// What each place is given before.
    pub fn given_before(&self) -> &'a [Option<ResourceId>]
        ensures { result.now ≡ self.now.before.given }
    {
        self.given_before
    }

    /// What each place is given after.
    pub fn given_after(&self) -> &'a [Option<ResourceId>]
        ensures { result.now ≡ self.now.after.given }
    {
        self.given_after
    }

    /// Whether the meet comes, goes, lasts longer or shorter, or starts at another time.
    pub fn moves(&self) -> bool
        ensures { result ≡ false → self.now.before.span ≡ self.now.after.span }
    {
        self.moves
    }

    /// Whether the meet comes or goes, or lasts longer or shorter.
    pub fn resizes(&self) -> bool
        ensures { result ≡ false → duration_of self.now.before ≡ duration_of self.now.after }
    {
        self.resizes
    }

    /// Whether a place is given something else.
    pub fn gives_other(&self) -> bool
        ensures { result ≡ false → self.now.before.given ≡ self.now.after.given }
    {
        self.gives_other
    }

    /// The places that changed: the ones that may be given another resource, and all where the meet changed.
    pub fn altered(&self) -> Places
        ensures { (j : ℕ) → is_named result j ≡ false → (slice_get self.now.before.given j ≡ slice_get self.now.after.given j) × (self.now.before.span ≡ self.now.after.span) }
    {
        if self.moves() {
            return Places::All;
        }
        self.places
    }

    /// Whether the slot changes at all.
    pub fn is_still(&self) -> bool
        ensures { result ≡ true → self.now.before ≡ self.now.after }
    {
        !self.gives_other && !self.moves()
    }
}

/// Whether a meet comes or goes, or lasts longer or shorter.
pub(crate) fn is_resized(before: Option<Span>, after: Option<Span>) -> bool
    ensures { result ≡ false → duration_in before ≡ duration_in after }
{
    match (before, after) {
        (Some(before), Some(after)) => before.duration != after.duration,
        (None, None) => false,
        _ => true,
    }
}

/// Whether a meet changed.
pub(crate) fn is_moved(before: Option<Span>, after: Option<Span>) -> bool
    ensures { result ≡ false → before ≡ after }
{
    before != after
}

/// Whether one of these places is given something else, where all others are given the same.
pub(crate) fn differ(old: &[Option<ResourceId>], new: &[Option<ResourceId>], places: Places) -> bool
    requires many { length new.now ≡ length old.now }
    requires elsewhere { AreSameBut places old.now new.now }
    ensures { result ≡ false → old.now ≡ new.now }
{
    let mut place = places.next(0);
    while place < old.len() {
        if is_other(old[place], new[place]) {
            return true;
        }
        place = places.next(place + 1);
    }
    false
}

/// Whether a place is given something else.
fn is_other(old: Option<ResourceId>, new: Option<ResourceId>) -> bool
    ensures { result ≡ false → old ≡ new }
{
    old != new
}
