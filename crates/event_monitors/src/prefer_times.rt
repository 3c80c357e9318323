//! Prefer Times.

ghost use Rattle.std.specs.Prelude.{◌≡◌};
ghost use Rattle.khe_instance.specs.EventDeviation.{misplaced_duration};

use crate::counted::Counted;
use crate::effects::alters_meet;
use crate::shares::{Share, moves_meet};
use crate::sums::{Sum, Summed};
use family_keepers::Keeping;
use khe_base::{IdSet, ResourceId};
use khe_instance::{Instance, Kind, Rule};
use khe_told::{Effect, Span, Turn};

/// The family of Prefer Times: a monitor's deviation is the duration of its event's meets with a
/// start outside the preferred times, or of those alone of one duration, where the rule has one.
pub type PreferTimes = Keeping<Counted<Sum<Misplaced>>>;

/// A slot counts for the duration of its meet where that starts outside the preferred times.
#[derive(Drop)]
pub struct Misplaced;

impl Share for Misplaced {
    ghost use Rattle.event_monitors.specs.PreferTimes.{misplaced, misplaced_bounded, misplaced_unheard};
    ghost use Rattle.event_monitors.specs.Shares.{KeepsMeet};

    ghost share = { misplaced };

    ghost IsUnheard = { KeepsMeet };

    fn hears(turn: &Turn<'_>) -> bool {
        moves_meet(turn)
    }

    fn observes(effect: &Effect<'_>) -> bool {
        alters_meet(effect)
    }

    fn observes_cuts() -> bool {
        true
    }

    ghost unheard = { misplaced_unheard };

    fn share(rule: &Rule, span: Option<Span>, given: Option<Option<ResourceId>>) -> u64 {
        let _ = given;
        match (rule, span) {
            (Rule::PreferTimes { times, duration }, Some(span)) => {
                duration_of(times, *duration, span)
            }
            _ => 0,
        }
    }

    ghost bounded = { misplaced_bounded };
}

impl Summed for Misplaced {
    ghost use Rattle.khe_instance.specs.KindLaws.{is_kind};
    ghost use Rattle.khe_instance.specs.declared.rules.Kind.TheVariants as kind;
    ghost use Rattle.event_monitors.specs.PreferTimes.{misplaced_exact};
    ghost use Rattle.event_monitors.specs.Shares.{itself};

    ghost serves_kind = { λ k. is_kind k kind.PreferTimes };

    ghost measured = { itself };

    fn serves(kind: Kind) -> bool {
        kind == Kind::PreferTimes
    }

    fn measured(inst: &Instance, rule: &Rule, total: u64) -> u64 {
        let _ = inst;
        let _ = rule;
        total
    }

    ghost exact = { misplaced_exact };
}

// The duration of a meet that starts outside the times, and lasts as long as `only` where that is
// given; 0 for any other.
fn duration_of(times: &IdSet, only: Option<u32>, span: Span) -> u64
    ensures { result ≡ misplaced_duration times.now only span.start span.duration }
{
    let Some(start) = span.start else {
        return 0;
    };
    let counts = match only {
        None => true,
        Some(duration) => span.duration == duration,
    };
    if !times.has(start.0) && counts {
        u64::from(span.duration)
    } else {
        0
    }
}
