//! Assign Resource.

use crate::counted::Counted;
use crate::effects::alters_tasks;
use crate::shares::{Share, moves_tasks};
use crate::sums::{Sum, Summed};
use family_keepers::Keeping;
use khe_base::ResourceId;
use khe_instance::{Instance, Kind, Rule};
use khe_told::{Effect, Span, Turn};

/// The family of Assign Resource: a monitor's deviation is the duration of the tasks at its place
/// without a resource.
pub type AssignResource = Keeping<Counted<Sum<Unfilled>>>;

/// A slot counts for the duration of its meet where the place is given nothing.
#[derive(Drop)]
pub struct Unfilled;

impl Share for Unfilled {
    ghost use Rattle.event_monitors.specs.AssignResource.{unfilled, unfilled_bounded, unfilled_unheard};
    ghost use Rattle.event_monitors.specs.Shares.{KeepsTasks};

    ghost share = { unfilled };

    ghost IsUnheard = { KeepsTasks };

    fn hears(turn: &Turn<'_>) -> bool {
        moves_tasks(turn)
    }

    fn observes(effect: &Effect<'_>) -> bool {
        alters_tasks(effect)
    }

    fn observes_cuts() -> bool {
        false
    }

    ghost unheard = { unfilled_unheard };

    fn share(rule: &Rule, span: Option<Span>, given: Option<Option<ResourceId>>) -> u64 {
        let _ = rule;
        match (span, given) {
            (Some(span), Some(None)) => u64::from(span.duration),
            _ => 0,
        }
    }

    ghost bounded = { unfilled_bounded };
}

impl Summed for Unfilled {
    ghost use Rattle.khe_instance.specs.KindLaws.{is_kind};
    ghost use Rattle.khe_instance.specs.declared.rules.Kind.TheVariants as kind;
    ghost use Rattle.event_monitors.specs.AssignResource.{unfilled_exact};
    ghost use Rattle.event_monitors.specs.Shares.{itself};

    ghost serves_kind = { λ k. is_kind k kind.AssignResource };

    ghost measured = { itself };

    fn serves(kind: Kind) -> bool {
        kind == Kind::AssignResource
    }

    fn measured(inst: &Instance, rule: &Rule, total: u64) -> u64 {
        let _ = inst;
        let _ = rule;
        total
    }

    ghost exact = { unfilled_exact };
}
