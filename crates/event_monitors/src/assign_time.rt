//! Assign Time.

use crate::counted::Counted;
use crate::effects::alters_meet;
use crate::shares::{Share, moves_meet};
use crate::sums::{Sum, Summed};
use family_keepers::Keeping;
use khe_base::ResourceId;
use khe_instance::{Instance, Kind, Rule};
use khe_told::{Effect, Span, Turn};

/// The family of Assign Time: a monitor's deviation is the duration of its event's meets without a
/// start.
pub type AssignTime = Keeping<Counted<Sum<Unplaced>>>;

/// A slot counts for the duration of its meet where that has no start.
#[derive(Drop)]
pub struct Unplaced;

impl Share for Unplaced {
    ghost use Rattle.event_monitors.specs.AssignTime.{unplaced, unplaced_bounded, unplaced_unheard};
    ghost use Rattle.event_monitors.specs.Shares.{KeepsMeet};

    ghost share = { unplaced };

    ghost IsUnheard = { KeepsMeet };

    fn hears(turn: &Turn<'_>) -> bool {
        moves_meet(turn)
    }

    fn observes(effect: &Effect<'_>) -> bool {
        alters_meet(effect)
    }

    fn observes_cuts() -> bool {
        false
    }

    ghost unheard = { unplaced_unheard };

    fn share(rule: &Rule, span: Option<Span>, given: Option<Option<ResourceId>>) -> u64 {
        let _ = rule;
        let _ = given;
        match span {
            Some(
                Span {
                    duration,
                    start: None,
                },
            ) => u64::from(duration),
            _ => 0,
        }
    }

    ghost bounded = { unplaced_bounded };
}

impl Summed for Unplaced {
    ghost use Rattle.khe_instance.specs.KindLaws.{is_kind};
    ghost use Rattle.khe_instance.specs.declared.rules.Kind.TheVariants as kind;
    ghost use Rattle.event_monitors.specs.AssignTime.{unplaced_exact};
    ghost use Rattle.event_monitors.specs.Shares.{itself};

    ghost serves_kind = { λ k. is_kind k kind.AssignTime };

    ghost measured = { itself };

    fn serves(kind: Kind) -> bool {
        kind == Kind::AssignTime
    }

    fn measured(inst: &Instance, rule: &Rule, total: u64) -> u64 {
        let _ = inst;
        let _ = rule;
        total
    }

    ghost exact = { unplaced_exact };
}
