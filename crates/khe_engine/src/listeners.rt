//! The listeners of each change: the families, and through them the graph.

use crate::regrouping::GraphWatcher;
use crate::settling::settle;
use khe_base::{GroupId, NoMemory};
use khe_instance::Instance;
use khe_told::{Back, Change, Edit, Family, Steps, Waiting, Watcher};
use monitor_graph::Graph;
use std::sync::ledger::Ledger;

/// The listeners of each change: the families, and through them the graph, which has the deviation
/// of every monitor in the state that was told.
#[derive(Drop)]
pub(crate) struct Listeners<F: Family> {
    pub(crate) families: F,
    pub(crate) graph: Graph,
    /// None between calls.
    pub(crate) waiting: Waiting,
}

impl<F: Family> Watcher for Listeners<F> {
    ghost use Rattle.std.specs.Prelude.{false, None};
    ghost use Rattle.std.proofs.Common.{◌∙◌, refl};
    ghost use Rattle.khe_engine.specs.Settled.{IsIdle};
    ghost use Rattle.khe_engine.specs.Values.{HasValues, ServesAll};
    ghost use Rattle.khe_engine.specs.States.{HaveSameGroups};

    ghost told = { λ x. F.told x.families };

    ghost IsOf = { λ x p. F.IsOf x.families p × ServesAll F.serves_kind × HasValues p (F.told x.families) x.graph × IsIdle p x.waiting };

    ghost noted = { λ x. None };

    ghost is_silent = { false };

    ghost HasSameRest = { λ x y. HaveSameGroups x.graph y.graph };

    fn note<L: Ledger>(&mut self, inst: &Instance, change: Change, steps: &mut Steps<L>) {
        self.note_all(inst, &[change], steps);
    }

    #[tactic(auto, using(crate::proofs::ValueLaws::same_groups))]
    fn note_all<L: Ledger>(&mut self, inst: &Instance, changes: &[Change], steps: &mut Steps<L>) {
        self.families.turn_all(inst, changes, &mut self.waiting);
        self.waiting.facts();
        settle(
            inst,
            &self.families,
            &mut self.graph,
            &mut self.waiting,
            steps,
        );
    }

    ghost same_rest_refl = { λ x. record { grouping = refl; marked = refl; seats = refl } };

    ghost same_rest_trans = { λ x y z a b. record { grouping = a.grouping ∙ b.grouping; marked = a.marked ∙ b.marked; seats = a.seats ∙ b.seats } };
}

impl<F: Family> GraphWatcher for Listeners<F> {
    ghost board = { λ x. x.graph };

    fn graph(&self) -> &Graph {
        &self.graph
    }

    fn room(&mut self, inst: &Instance, group: GroupId, n: u32) -> Result<(), NoMemory> {
        let _ = inst;
        self.graph.room(group, n)
    }

    fn regroup(&mut self, inst: &Instance, edit: Edit) -> Option<u32> {
        let _ = inst;
        let Ok(made) = self.graph.edit(edit) else {
            unreachable!()
        };
        made
    }

    fn undo_grouping(&mut self, inst: &Instance, back: Back) {
        let _ = inst;
        self.graph.undo(back);
    }

    ghost same_groups = { λ x y h. h };
}
