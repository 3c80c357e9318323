//! The five kinds that are measured at cells.

ghost use Rattle.std.specs.Prelude.{◌≡◌, Bool, true};
ghost use Rattle.khe_instance.specs.declared.rules.Kind.{Kind};
ghost use Rattle.resource_monitors.specs.Cells.{is_at_cells, is_by_busy};

use crate::cells::Cells;
use family_keepers::Keeping;
use khe_instance::Kind;

/// Some of the five kinds that are measured by how many tasks of a resource run at each time.
pub trait CellKinds {
    /// The kinds that are served.
    ghost serves_kind: { Kind → Bool };

    /// Whether a kind is one of them. It takes constant time.
    fn serves(kind: Kind) -> bool
        ensures { result ≡ serves_kind kind };

    ghost at_cells: { (k : Kind) → serves_kind k ≡ true → is_at_cells k ≡ true };
}

/// Whether a kind is measured by whether tasks run, and not by how many.
pub(crate) fn is_by_busy(kind: Kind) -> bool
    ensures { result ≡ is_by_busy kind }
{
    match kind {
        Kind::AvoidUnavailableTimes => true,
        Kind::LimitIdleTimes => true,
        Kind::ClusterBusyTimes => true,
        Kind::LimitBusyTimes => true,
        _ => false,
    }
}

/// The keeper of all five kinds, which fill and empty the same cells.
pub type AtCells = Cells<FiveKinds>;

/// All five.
pub struct FiveKinds;

impl CellKinds for FiveKinds {
    ghost use Rattle.resource_monitors.specs.Cells.{is_at_cells};

    ghost serves_kind = { is_at_cells };

    fn serves(kind: Kind) -> bool {
        match kind {
            Kind::AvoidClashes => true,
            Kind::AvoidUnavailableTimes => true,
            Kind::LimitIdleTimes => true,
            Kind::ClusterBusyTimes => true,
            Kind::LimitBusyTimes => true,
            _ => false,
        }
    }

    ghost at_cells = { λ k e. e };
}

/// The family of Avoid Clashes: for each time, how many tasks of the resource run then beyond one.
pub type AvoidClashes = Keeping<Cells<Clashes>>;

/// Its kind alone.
pub struct Clashes;

impl CellKinds for Clashes {
    ghost use Rattle.khe_instance.specs.KindLaws.{is_kind};
    ghost use Rattle.khe_instance.specs.declared.rules.Kind.TheVariants as kind;
    ghost use Rattle.resource_monitors.specs.KindsAtCells.{avoid_clashes_at_cells};

    ghost serves_kind = { λ k. is_kind k kind.AvoidClashes };

    fn serves(kind: Kind) -> bool {
        kind == Kind::AvoidClashes
    }

    ghost at_cells = { avoid_clashes_at_cells };
}

/// The family of Avoid Unavailable Times: how many of the listed times the resource is busy at.
pub type AvoidUnavailableTimes = Keeping<Cells<UnavailableTimes>>;

/// Its kind alone.
pub struct UnavailableTimes;

impl CellKinds for UnavailableTimes {
    ghost use Rattle.khe_instance.specs.KindLaws.{is_kind};
    ghost use Rattle.khe_instance.specs.declared.rules.Kind.TheVariants as kind;
    ghost use Rattle.resource_monitors.specs.KindsAtCells.{avoid_unavailable_times_at_cells};

    ghost serves_kind = { λ k. is_kind k kind.AvoidUnavailableTimes };

    fn serves(kind: Kind) -> bool {
        kind == Kind::AvoidUnavailableTimes
    }

    ghost at_cells = { avoid_unavailable_times_at_cells };
}

/// The family of Limit Idle Times: how far the idle times of the listed groups together lie outside the bounds.
pub type LimitIdleTimes = Keeping<Cells<IdleTimes>>;

/// Its kind alone.
pub struct IdleTimes;

impl CellKinds for IdleTimes {
    ghost use Rattle.khe_instance.specs.KindLaws.{is_kind};
    ghost use Rattle.khe_instance.specs.declared.rules.Kind.TheVariants as kind;
    ghost use Rattle.resource_monitors.specs.KindsAtCells.{limit_idle_times_at_cells};

    ghost serves_kind = { λ k. is_kind k kind.LimitIdleTimes };

    fn serves(kind: Kind) -> bool {
        kind == Kind::LimitIdleTimes
    }

    ghost at_cells = { limit_idle_times_at_cells };
}

/// The family of Cluster Busy Times: how far the number of listed groups with a busy time lies outside the bounds.
pub type ClusterBusyTimes = Keeping<Cells<BusyGroups>>;

/// Its kind alone.
pub struct BusyGroups;

impl CellKinds for BusyGroups {
    ghost use Rattle.khe_instance.specs.KindLaws.{is_kind};
    ghost use Rattle.khe_instance.specs.declared.rules.Kind.TheVariants as kind;
    ghost use Rattle.resource_monitors.specs.KindsAtCells.{cluster_busy_times_at_cells};

    ghost serves_kind = { λ k. is_kind k kind.ClusterBusyTimes };

    fn serves(kind: Kind) -> bool {
        kind == Kind::ClusterBusyTimes
    }

    ghost at_cells = { cluster_busy_times_at_cells };
}

/// The family of Limit Busy Times: for each listed group with a busy time, how far the number of its busy times
/// lies outside the bounds.
pub type LimitBusyTimes = Keeping<Cells<BusyTimes>>;

/// Its kind alone.
pub struct BusyTimes;

impl CellKinds for BusyTimes {
    ghost use Rattle.khe_instance.specs.KindLaws.{is_kind};
    ghost use Rattle.khe_instance.specs.declared.rules.Kind.TheVariants as kind;
    ghost use Rattle.resource_monitors.specs.KindsAtCells.{limit_busy_times_at_cells};

    ghost serves_kind = { λ k. is_kind k kind.LimitBusyTimes };

    fn serves(kind: Kind) -> bool {
        kind == Kind::LimitBusyTimes
    }

    ghost at_cells = { limit_busy_times_at_cells };
}
