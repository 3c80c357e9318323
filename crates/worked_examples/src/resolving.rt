//! The points of constraints, and the first limit that an instance is above. Each function's contract is an example: it is
//! proved, and nothing calls it.
#![allow(dead_code)]

ghost use Rattle.std.specs.Prelude.{◌≡◌, Some, None, [], ◌∷◌, codes};
ghost use Rattle.fault_tables.specs.declared.limits.TheConstants.{TOO_GREAT_UNIT, TOO_LONG_DURATION, TOO_MANY_LISTED, TOO_MANY_TASKS, TOO_MANY_TIMES};
ghost use Rattle.khe_instance.specs.declared.points.Point.TheVariants as point;
ghost use Rattle.khe_instance.specs.declared.rules.Kind.TheVariants as kind;
ghost use Rattle.worked_examples.specs.Archives.{at_event, at_place, at_resource, constraint, instance, name, pair, ref, small};
ghost use Rattle.xhstt_resolve.specs.Limits.{above, first_above, limit_fault, task_count, total_duration, units, watch_count};
ghost use Rattle.xhstt_resolve.specs.Points.{monitors_of, points_of};
ghost use Rattle.xhstt_resolve.specs.declared.faults.ResolveFault.TheVariants.{Limit};
ghost use Rattle.xhstt_shape.specs.declared.constraints.RawApplies.TheVariants as applied;
ghost use Rattle.xhstt_shape.specs.declared.constraints.RawRule.TheVariants as ruled;

// A group comes before what is listed singly, and each event is a point once; so are the event resources of the role.
fn points_stand_at_their_first_mention()
    ensures twice { points_of small (constraint (applied.Events [] (ref (codes "F") ∷ ref (codes "F") ∷ [])) ruled.AssignTime) ≡ at_event 1 ∷ [] }
    ensures single { points_of small (constraint (applied.Events [] (ref (codes "F") ∷ ref (codes "E") ∷ [])) ruled.AssignTime) ≡ at_event 1 ∷ at_event 0 ∷ [] }
    ensures grouped { points_of small (constraint (applied.Events (ref (codes "G") ∷ []) (ref (codes "F") ∷ [])) ruled.AssignTime) ≡ at_event 0 ∷ at_event 1 ∷ [] }
    ensures role { points_of small (constraint (applied.Events (ref (codes "G") ∷ []) []) (ruled.AssignResource (name (codes "R")))) ≡ at_place 0 1 ∷ at_place 1 0 ∷ [] }
    ensures no_role { points_of small (constraint (applied.Events (ref (codes "G") ∷ []) []) (ruled.AssignResource (name (codes "T")))) ≡ [] }
{}

// A group is one point, a pair is one each time that it is listed, and resources are points as events are.
fn other_points_are_listed()
    ensures group { points_of small (constraint (applied.Groups (ref (codes "G") ∷ ref (codes "G") ∷ [])) ruled.LinkEvents) ≡ point.EventGroup 0 ∷ [] }
    ensures pairs { points_of small (constraint (applied.Pairs (pair (codes "E") (codes "F") ∷ pair (codes "E") (codes "F") ∷ [])) ruled.OrderEvents) ≡ point.EventPair 0 ∷ point.EventPair 1 ∷ [] }
    ensures resources { points_of small (constraint (applied.Resources (ref (codes "Y") ∷ []) (ref (codes "r0") ∷ [])) ruled.AvoidClashes) ≡ at_resource 1 ∷ at_resource 0 ∷ [] }
{}

// Monitors are numbered by constraint and then by point.
fn monitors_follow_their_constraints()
    ensures { monitors_of (instance 3 2 (constraint (applied.Events (ref (codes "G") ∷ []) []) ruled.AssignTime ∷ constraint (applied.Resources [] (ref (codes "r1") ∷ [])) ruled.AvoidClashes ∷ []))
        ≡ record { kind = kind.AssignTime; constraint = 0; point = at_event 0 } ∷ record { kind = kind.AssignTime; constraint = 0; point = at_event 1 } ∷ record { kind = kind.AvoidClashes; constraint = 1; point = at_resource 1 } ∷ [] }
{}

// A limit is kept by its greatest value, and told with the first value above it.
fn a_limit_has_a_greatest_value()
    ensures kept { above TOO_MANY_TIMES 4000 ≡ None }
    ensures above { above TOO_MANY_TIMES 4001 ≡ Some (Limit TOO_MANY_TIMES 4001) }
    ensures first { first_above TOO_MANY_LISTED (10000 ∷ 10001 ∷ 10002 ∷ []) ≡ Some (Limit TOO_MANY_LISTED 10001) }
    ensures unit { first_above TOO_GREAT_UNIT (4611686018427387904 ∷ []) ≡ None }
    ensures greater { first_above TOO_GREAT_UNIT (3 ∷ 4611686018427387905 ∷ []) ≡ Some (Limit TOO_GREAT_UNIT 4611686018427387905) }
{}

// What is counted: both durations, each event's for all its event resources, and the running multiples of the durations.
// A constraint on clashes watches all times at each resource, and one on events one thing at each.
fn an_instance_is_counted()
    ensures duration { total_duration small ≡ 5 }
    ensures tasks { task_count small ≡ 8 }
    ensures units { units small ≡ 3 ∷ 6 ∷ [] }
    ensures events { watch_count (instance 3 2 (constraint (applied.Events (ref (codes "G") ∷ []) []) ruled.AssignTime ∷ [])) ≡ 2 }
    ensures clashes { watch_count (instance 3 2 (constraint (applied.Resources (ref (codes "Y") ∷ []) (ref (codes "r0") ∷ [])) ruled.AvoidClashes ∷ [])) ≡ 4 }
{}

// Of the limits that an instance is above the first in their order is told: with an event of a million times it is that
// on the durations, and not that on the tasks.
fn the_first_limit_is_told()
    ensures kept { limit_fault small ≡ None }
    ensures tasks { above TOO_MANY_TASKS (task_count (instance 1000000 2 [])) ≡ Some (Limit TOO_MANY_TASKS 2000002) }
    ensures first { limit_fault (instance 1000000 2 []) ≡ Some (Limit TOO_LONG_DURATION 1000002) }
{}
