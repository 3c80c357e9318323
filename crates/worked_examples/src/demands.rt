//! What demands are, which constraints are strict, and the demands that compete. Each function's contract is an
//! example: it is proved, and nothing calls it.
#![allow(dead_code)]
#![tactic(auto, unfolding(hall_report::specs::Shortages::all_sets, hall_report::specs::Shortages::competes, hall_report::specs::Shortages::deficit_of, hall_report::specs::Shortages::greatest_excess, hall_report::specs::Shortages::hall_of, demand_matching::specs::Counts::any_below, demand_matching::specs::Counts::count_below, demand_matching::specs::Counts::sum_below))]

ghost use Rattle.std.specs.Prelude.{◌≡◌, None, true, false, [], ◌∷◌};
ghost use Rattle.hall_report.specs.Shortages.{deficit_of, hall_of, supplies_of};
ghost use Rattle.hall_report.specs.Demands.{demands, runs_at, takes};
ghost use Rattle.hall_report.specs.Strict.{is_unavailable, may_be_given, may_start};
ghost use Rattle.hall_report.specs.declared.demand.Demand.TheVariants.{Task, Unavailable};
ghost use Rattle.worked_examples.specs.School.{blank, free_school, has, meet, resource, school, strict_school, time, whole};

// There is a demand for each time of each task, and one for each time at which a resource has to be free.
fn demands_are_of_tasks_and_of_times()
    ensures tasks { demands school blank ≡ Task (meet 0) 0 0 ∷ Task (meet 0) 0 1 ∷ Task (meet 0) 0 2 ∷ Task (meet 3) 0 0 ∷ [] }
    ensures times { demands (free_school 1) blank ≡ Task (meet 0) 0 0 ∷ Task (meet 0) 0 1 ∷ Task (meet 0) 0 2 ∷ Task (meet 3) 0 0 ∷ Unavailable (resource 0) (time 0) ∷ [] }
    ensures second { runs_at school blank (Task (meet 0) 0 1) 1 ≡ true }
    ensures first { runs_at school blank (Task (meet 0) 0 1) 0 ≡ false }
    ensures any { takes school blank (Task (meet 3) 0 0) 1 ≡ true }
    ensures given { takes school (whole None None None (has 0)) (Task (meet 3) 0 0) 1 ≡ false }
{}

// A constraint is strict where it is required and has a weight.
fn strict_constraints_narrow()
    ensures soft { may_start school 1 1 2 ≡ true }
    ensures hard { may_start strict_school 1 1 2 ≡ false }
    ensures preferred { may_start strict_school 1 1 0 ≡ true }
    ensures free { is_unavailable (free_school 1) 0 0 ≡ true }
    ensures later { is_unavailable (free_school 1) 0 1 ≡ false }
    ensures weightless { is_unavailable (free_school 0) 0 0 ≡ false }
    ensures other { is_unavailable (free_school 1) 1 0 ≡ false }
    ensures open { may_be_given (free_school 1) 0 0 1 ≡ true }
{}

// Four demands share the three supplies of one resource; with another resource nothing is short.
fn four_demands_share_three_supplies()
    ensures deficit { deficit_of school (whole None (has 0) None (has 0)) ≡ 1 }
    ensures hall { hall_of school (whole None (has 0) None (has 0)) ≡ Task (meet 0) 0 0 ∷ Task (meet 0) 0 1 ∷ Task (meet 0) 0 2 ∷ Task (meet 3) 0 0 ∷ [] }
    ensures supplies { supplies_of school (whole None (has 0) None (has 0)) (hall_of school (whole None (has 0) None (has 0))) ≡ 3 }
    ensures enough { deficit_of school (whole None (has 0) None (has 1)) ≡ 0 }
    ensures none { hall_of school (whole None (has 0) None (has 1)) ≡ [] }
{}

// A time at which the resource has to be free competes with the task that wants it then, and no other demand does.
fn a_free_time_competes()
    ensures deficit { deficit_of (free_school 1) (whole None (has 0) None None) ≡ 1 }
    ensures hall { hall_of (free_school 1) (whole None (has 0) None None) ≡ Task (meet 0) 0 0 ∷ Unavailable (resource 0) (time 0) ∷ [] }
    ensures weightless { deficit_of (free_school 0) (whole None (has 0) None None) ≡ 0 }
{}

// So do two tasks of which one has to be at the first time.
fn a_strict_time_competes()
    ensures deficit { deficit_of strict_school (whole None (has 0) None (has 0)) ≡ 1 }
    ensures hall { hall_of strict_school (whole None (has 0) None (has 0)) ≡ Task (meet 0) 0 0 ∷ Task (meet 3) 0 0 ∷ [] }
{}
