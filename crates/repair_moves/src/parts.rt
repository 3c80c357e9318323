//! The parts of a list of moves, and their order.

ghost use Rattle.std.specs.Prelude.{◌≡◌, ◌≤◌, length};
ghost use Rattle.repair_moves.specs.Table.{parts_of};

use khe_instance::Kind;

/// A part of a list of moves. Each is taken for all its meets or tasks in the order of their numbers,
/// each once, before the next part begins.
#[derive(Clone, Copy, PartialEq, Eq)]
pub enum Part {
    /// A meet goes to each time in order.
    TimeMoves,
    /// A meet exchanges its start with that of each meet in order.
    SwapMoves,
    /// A meet is cut at 1, 2, up to its duration less 1.
    Cuts,
    /// A meet is joined, as the first, with each meet in order.
    Joins,
    /// A task is given each resource in order.
    TaskMoves,
    /// A task exchanges its resource with that of each task in order.
    TradeMoves,
    /// A task without a resource is given the monitor's.
    Gives,
}

/// The parts of the lists of a kind, in their order. It takes constant time.
#[tactic(auto, unfolding(crate::specs::Table::parts_of))]
pub(crate) fn parts_of(kind: Kind) -> &'static [Part]
    ensures parts { result.now ≡ parts_of kind }
    ensures few { length result.now ≤ 5 }
{
    match kind {
        Kind::AssignTime => &[Part::TimeMoves],
        Kind::PreferTimes | Kind::SpreadEvents | Kind::LinkEvents | Kind::OrderEvents => {
            &[Part::TimeMoves, Part::SwapMoves]
        }
        Kind::SplitEvents | Kind::DistributeSplitEvents => &[Part::Cuts, Part::Joins],
        Kind::AssignResource => &[Part::TaskMoves],
        Kind::PreferResources | Kind::AvoidSplitAssignments => {
            &[Part::TaskMoves, Part::TradeMoves]
        }
        Kind::LimitWorkload => &[Part::TaskMoves, Part::TradeMoves, Part::Gives],
        Kind::AvoidClashes
        | Kind::AvoidUnavailableTimes
        | Kind::LimitIdleTimes
        | Kind::ClusterBusyTimes
        | Kind::LimitBusyTimes => &[
            Part::TimeMoves,
            Part::SwapMoves,
            Part::TaskMoves,
            Part::TradeMoves,
            Part::Gives,
        ],
    }
}
