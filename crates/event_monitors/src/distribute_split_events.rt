//! Distribute Split Events.

use crate::counted::Counted;
use crate::effects::alters_duration;
use crate::shares::{Share, resizes};
use crate::sums::{Sum, Summed};
use family_keepers::Keeping;
use khe_base::{ResourceId, count_out};
use khe_instance::{Instance, Kind, Rule};
use khe_told::{Effect, Span, Turn};

/// The family of Distribute Split Events: a monitor's deviation is by how many its event has too few
/// or too many meets of the rule's duration.
pub type DistributeSplitEvents = Keeping<Counted<Sum<OfDuration>>>;

/// A slot counts for 1 where it has a meet of the rule's duration.
#[derive(Drop)]
pub struct OfDuration;

impl Share for OfDuration {
    ghost use Rattle.event_monitors.specs.DistributeSplitEvents.{of_duration, of_duration_bounded, of_duration_unheard};
    ghost use Rattle.event_monitors.specs.Shares.{KeepsDuration};

    ghost share = { of_duration };

    ghost IsUnheard = { KeepsDuration };

    fn hears(turn: &Turn<'_>) -> bool {
        resizes(turn)
    }

    fn observes(effect: &Effect<'_>) -> bool {
        alters_duration(effect)
    }

    fn observes_cuts() -> bool {
        true
    }

    ghost unheard = { of_duration_unheard };

    fn share(rule: &Rule, span: Option<Span>, given: Option<Option<ResourceId>>) -> u64 {
        let _ = given;
        match (rule, span) {
            (Rule::DistributeSplitEvents { duration, .. }, Some(span)) => {
                u64::from(span.duration == *duration)
            }
            _ => 0,
        }
    }

    ghost bounded = { of_duration_bounded };
}

impl Summed for OfDuration {
    ghost use Rattle.khe_instance.specs.KindLaws.{is_kind};
    ghost use Rattle.khe_instance.specs.declared.rules.Kind.TheVariants as kind;
    ghost use Rattle.event_monitors.specs.DistributeSplitEvents.{amount_outside, of_duration_exact};

    ghost serves_kind = { λ k. is_kind k kind.DistributeSplitEvents };

    ghost measured = { amount_outside };

    fn serves(kind: Kind) -> bool {
        kind == Kind::DistributeSplitEvents
    }

    fn measured(inst: &Instance, rule: &Rule, total: u64) -> u64 {
        let _ = inst;
        match rule {
            Rule::DistributeSplitEvents { min, max, .. } => count_out(total, *min, *max),
            _ => 0,
        }
    }

    ghost exact = { of_duration_exact };
}
