//! Prefer Resources.

ghost use Rattle.std.specs.Prelude.{◌≡◌};
ghost use Rattle.khe_instance.specs.EventDeviation.{misfilled_duration};

use crate::counted::Counted;
use crate::effects::alters_tasks;
use crate::shares::{Share, moves_tasks};
use crate::sums::{Sum, Summed};
use family_keepers::Keeping;
use khe_base::{IdSet, ResourceId};
use khe_instance::{Instance, Kind, Rule};
use khe_told::{Effect, Span, Turn};

/// The family of Prefer Resources: a monitor's deviation is the duration of the tasks at its place
/// with a resource outside the preferred ones.
pub type PreferResources = Keeping<Counted<Sum<Misfilled>>>;

/// A slot counts for the duration of its meet where the place is given a resource outside the
/// preferred ones.
#[derive(Drop)]
pub struct Misfilled;

impl Share for Misfilled {
    ghost use Rattle.event_monitors.specs.PreferResources.{misfilled, misfilled_bounded, misfilled_unheard};
    ghost use Rattle.event_monitors.specs.Shares.{KeepsTasks};

    ghost share = { misfilled };

    ghost IsUnheard = { KeepsTasks };

    fn hears(turn: &Turn<'_>) -> bool {
        moves_tasks(turn)
    }

    fn observes(effect: &Effect<'_>) -> bool {
        alters_tasks(effect)
    }

    fn observes_cuts() -> bool {
        false
    }

    ghost unheard = { misfilled_unheard };

    fn share(rule: &Rule, span: Option<Span>, given: Option<Option<ResourceId>>) -> u64 {
        let Rule::PreferResources { resources, .. } = rule else {
            return 0;
        };
        match (span, given) {
            (Some(span), Some(given)) => duration_of(resources, given, span.duration),
            _ => 0,
        }
    }

    ghost bounded = { misfilled_bounded };
}

impl Summed for Misfilled {
    ghost use Rattle.khe_instance.specs.KindLaws.{is_kind};
    ghost use Rattle.khe_instance.specs.declared.rules.Kind.TheVariants as kind;
    ghost use Rattle.event_monitors.specs.PreferResources.{misfilled_exact};
    ghost use Rattle.event_monitors.specs.Shares.{itself};

    ghost serves_kind = { λ k. is_kind k kind.PreferResources };

    ghost measured = { itself };

    fn serves(kind: Kind) -> bool {
        kind == Kind::PreferResources
    }

    fn measured(inst: &Instance, rule: &Rule, total: u64) -> u64 {
        let _ = inst;
        let _ = rule;
        total
    }

    ghost exact = { misfilled_exact };
}

// The duration of a task with a resource outside the set; 0 for any other.
fn duration_of(resources: &IdSet, given: Option<ResourceId>, duration: u32) -> u64
    ensures { result ≡ misfilled_duration resources.now given duration }
{
    match given {
        Some(resource) if !resources.has(resource.0) => u64::from(duration),
        _ => 0,
    }
}
