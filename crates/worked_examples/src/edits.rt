//! What each sort of edit is refused for, what an accepted one leaves, of which changes it consists, and who watches
//! these. Each function's contract is an example: it is proved, and nothing calls it.
#![allow(dead_code)]
#![tactic(auto, unfolding(khe_engine::specs::States::changes, khe_engine::specs::States::edited, khe_engine::specs::States::made, khe_engine::specs::States::refusal, khe_solution::specs::Changing::changes, khe_solution::specs::Editing::edited, khe_solution::specs::Editing::made, khe_solution::specs::Refusing::refusal, khe_told::specs::Watchers::watcher_count))]

ghost use Rattle.std.specs.Prelude.{◌≡◌, Some, None, [], ◌∷◌};
ghost use Rattle.khe_engine.specs.States.{changes, edited, made, refusal};
ghost use Rattle.khe_told.specs.Watchers.{watcher_count};
ghost use Rattle.khe_told.specs.declared.changes.Change.TheVariants as change;
ghost use Rattle.khe_told.specs.declared.edits.Edit.TheVariants as edit;
ghost use Rattle.khe_told.specs.declared.refusals.Refusal.TheVariants as why;
ghost use Rattle.worked_examples.specs.Clash.{clash, begun};
ghost use Rattle.worked_examples.specs.School.{at, blank, cut, detached, group, grouped, has, meet, monitor, resource, school, second_task, state, task, time, whole};

// A meet of duration 3 fits into three times at the first alone. It has one start.
fn a_meet_is_assigned()
    ensures accepted { refusal school (state blank) (edit.Assign (meet 0) (time 0)) ≡ None }
    ensures after { edited (state blank) (edit.Assign (meet 0) (time 0)) ≡ state (whole (at 0) None None None) }
    ensures changes { changes (state blank) (edit.Assign (meet 0) (time 0)) ≡ change.Place (meet 0) (time 0) ∷ [] }
    ensures no_meet { refusal school (state blank) (edit.Assign (meet 1) (time 0)) ≡ Some why.NoSuchMeet }
    ensures no_time { refusal school (state blank) (edit.Assign (meet 0) (time 3)) ≡ Some why.NoSuchTime }
    ensures off_end { refusal school (state blank) (edit.Assign (meet 0) (time 1)) ≡ Some why.OffEnd }
    ensures placed { refusal school (state (whole (at 0) None None None)) (edit.Assign (meet 0) (time 0)) ≡ Some why.AlreadyAssigned }
{}

fn a_meet_is_unassigned()
    ensures accepted { refusal school (state (whole (at 0) None None None)) (edit.Unassign (meet 0)) ≡ None }
    ensures after { edited (state (whole (at 0) None None None)) (edit.Unassign (meet 0)) ≡ state blank }
    ensures changes { changes (state (whole (at 0) None None None)) (edit.Unassign (meet 0)) ≡ change.Lift (meet 0) (time 0) ∷ [] }
    ensures unplaced { refusal school (state blank) (edit.Unassign (meet 0)) ≡ Some why.NotAssigned }
{}

fn a_meet_is_moved()
    ensures accepted { refusal school (state (whole None None (at 1) None)) (edit.MoveTo (meet 3) (time 0)) ≡ None }
    ensures after { edited (state (whole None None (at 1) None)) (edit.MoveTo (meet 3) (time 0)) ≡ state (whole None None (at 0) None) }
    ensures changes { changes (state (whole None None (at 1) None)) (edit.MoveTo (meet 3) (time 0)) ≡ change.Lift (meet 3) (time 1) ∷ change.Place (meet 3) (time 0) ∷ [] }
    ensures same { refusal school (state (whole None None (at 1) None)) (edit.MoveTo (meet 3) (time 1)) ≡ Some why.Same }
{}

// A cut is within the meet. What is cut off goes into the lowest free slot, straight after the rest, with the same
// resource; the old meet is taken off the timetable and both parts are put on it.
fn a_meet_is_cut()
    ensures accepted { refusal school (state (whole (at 0) (has 1) None None)) (edit.Split (meet 0) 1) ≡ None }
    ensures after { edited (state (whole (at 0) (has 1) None None)) (edit.Split (meet 0) 1) ≡ state (cut (at 0) (has 1) (at 1) (has 1) None) }
    ensures made { made (state (whole (at 0) (has 1) None None)) (edit.Split (meet 0) 1) ≡ Some 1 }
    ensures changes { changes (state (whole (at 0) (has 1) None None)) (edit.Split (meet 0) 1)
        ≡ change.Lift (meet 0) (time 0) ∷ change.Take (task 0) (resource 1) ∷ change.Drop (meet 0) 3
        ∷ change.Add (meet 0) 1 ∷ change.Add (meet 1) 2 ∷ change.Give (task 0) (resource 1)
        ∷ change.Give (task 1) (resource 1) ∷ change.Place (meet 0) (time 0) ∷ change.Place (meet 1) (time 1) ∷ [] }
    ensures bare { changes (state blank) (edit.Split (meet 0) 2) ≡ change.Drop (meet 0) 3 ∷ change.Add (meet 0) 2 ∷ change.Add (meet 1) 1 ∷ [] }
    ensures none { refusal school (state blank) (edit.Split (meet 0) 0) ≡ Some why.BadCut }
    ensures all { refusal school (state blank) (edit.Split (meet 0) 3) ≡ Some why.BadCut }
{}

// Two meets of one event that follow each other with the same resources are joined.
fn two_meets_are_joined()
    ensures accepted { refusal school (state (cut (at 0) (has 0) (at 1) (has 0) None)) (edit.Merge (meet 0) (meet 1)) ≡ None }
    ensures after { edited (state (cut (at 0) (has 0) (at 1) (has 0) None)) (edit.Merge (meet 0) (meet 1)) ≡ state (whole (at 0) (has 0) None None) }
    ensures changes { changes (state (cut (at 0) None (at 1) None None)) (edit.Merge (meet 0) (meet 1))
        ≡ change.Lift (meet 0) (time 0) ∷ change.Lift (meet 1) (time 1) ∷ change.Drop (meet 0) 1
        ∷ change.Drop (meet 1) 2 ∷ change.Add (meet 0) 3 ∷ change.Place (meet 0) (time 0) ∷ [] }
    ensures differ { refusal school (state (cut (at 0) (has 0) (at 1) None None)) (edit.Merge (meet 0) (meet 1)) ≡ Some why.TasksDiffer }
    ensures apart { refusal school (state (cut (at 1) None None None None)) (edit.Merge (meet 0) (meet 1)) ≡ Some why.NotAdjacent }
    ensures other { refusal school (state blank) (edit.Merge (meet 0) (meet 3)) ≡ Some why.OtherEvent }
    ensures same { refusal school (state blank) (edit.Merge (meet 0) (meet 0)) ≡ Some why.Same }
{}

fn two_meets_exchange_their_starts()
    ensures accepted { refusal school (state (cut (at 2) None (at 0) None (at 0))) (edit.SwapMeets (meet 0) (meet 3)) ≡ None }
    ensures after { edited (state (cut (at 2) None (at 0) None (at 0))) (edit.SwapMeets (meet 0) (meet 3)) ≡ state (cut (at 0) None (at 0) None (at 2)) }
    ensures changes { changes (state (cut (at 2) None (at 0) None (at 0))) (edit.SwapMeets (meet 0) (meet 3))
        ≡ change.Lift (meet 0) (time 2) ∷ change.Lift (meet 3) (time 0) ∷ change.Place (meet 0) (time 0) ∷ change.Place (meet 3) (time 2) ∷ [] }
    ensures same { refusal school (state (cut (at 2) None (at 0) None (at 0))) (edit.SwapMeets (meet 1) (meet 3)) ≡ Some why.Same }
    ensures off_end { refusal school (state (cut (at 2) None (at 0) None None)) (edit.SwapMeets (meet 0) (meet 1)) ≡ Some why.OffEnd }
    ensures unplaced { refusal school (state (cut (at 2) None (at 0) None None)) (edit.SwapMeets (meet 0) (meet 3)) ≡ Some why.NotAssigned }
{}

fn a_task_is_given()
    ensures accepted { refusal school (state blank) (edit.Give (task 0) (resource 0)) ≡ None }
    ensures after { edited (state blank) (edit.Give (task 0) (resource 0)) ≡ state (whole None (has 0) None None) }
    ensures changes { changes (state blank) (edit.Give (task 0) (resource 0)) ≡ change.Give (task 0) (resource 0) ∷ [] }
    ensures no_task { refusal school (state blank) (edit.Give (second_task 0) (resource 0)) ≡ Some why.NoSuchTask }
    ensures no_resource { refusal school (state blank) (edit.Give (task 0) (resource 2)) ≡ Some why.NoSuchResource }
    ensures given { refusal school (state (whole None (has 0) None None)) (edit.Give (task 0) (resource 1)) ≡ Some why.AlreadyAssigned }
{}

// The place of each event of the other instance has its resource from the beginning.
fn a_task_is_taken()
    ensures accepted { refusal school (state (whole None (has 0) None None)) (edit.Take (task 0)) ≡ None }
    ensures after { edited (state (whole None (has 0) None None)) (edit.Take (task 0)) ≡ state blank }
    ensures changes { changes (state (whole None (has 0) None None)) (edit.Take (task 0)) ≡ change.Take (task 0) (resource 0) ∷ [] }
    ensures none { refusal school (state blank) (edit.Take (task 0)) ≡ Some why.NotAssigned }
    ensures fixed { refusal clash begun (edit.Take (task 0)) ≡ Some why.Fixed }
{}

fn a_task_is_given_another()
    ensures accepted { refusal school (state (whole None None None (has 0))) (edit.Regive (task 3) (resource 1)) ≡ None }
    ensures after { edited (state (whole None None None (has 0))) (edit.Regive (task 3) (resource 1)) ≡ state (whole None None None (has 1)) }
    ensures changes { changes (state (whole None None None (has 0))) (edit.Regive (task 3) (resource 1)) ≡ change.Take (task 3) (resource 0) ∷ change.Give (task 3) (resource 1) ∷ [] }
    ensures same { refusal school (state (whole None None None (has 0))) (edit.Regive (task 3) (resource 0)) ≡ Some why.Same }
{}

fn two_tasks_exchange_their_resources()
    ensures accepted { refusal school (state (whole None (has 0) None (has 1))) (edit.SwapTasks (task 0) (task 3)) ≡ None }
    ensures after { edited (state (whole None (has 0) None (has 1))) (edit.SwapTasks (task 0) (task 3)) ≡ state (whole None (has 1) None (has 0)) }
    ensures changes { changes (state (whole None (has 0) None (has 1))) (edit.SwapTasks (task 0) (task 3))
        ≡ change.Take (task 0) (resource 0) ∷ change.Take (task 3) (resource 1) ∷ change.Give (task 0) (resource 1) ∷ change.Give (task 3) (resource 0) ∷ [] }
    ensures same { refusal school (state (whole None (has 0) None (has 0))) (edit.SwapTasks (task 0) (task 3)) ≡ Some why.Same }
{}

// Edits of monitors consist of no changes.
fn a_monitor_is_detached_and_attached()
    ensures detach { refusal school (state blank) (edit.Detach (monitor 0)) ≡ None }
    ensures after { edited (state blank) (edit.Detach (monitor 0)) ≡ detached blank }
    ensures changes { changes (state blank) (edit.Detach (monitor 0)) ≡ [] }
    ensures twice { refusal school (detached blank) (edit.Detach (monitor 0)) ≡ Some why.Detached }
    ensures attach { refusal school (detached blank) (edit.Attach (monitor 0)) ≡ None }
    ensures back { edited (detached blank) (edit.Attach (monitor 0)) ≡ state blank }
    ensures attached { refusal school (state blank) (edit.Attach (monitor 0)) ≡ Some why.Attached }
    ensures unknown { refusal school (state blank) (edit.Attach (monitor 7)) ≡ Some why.NoSuchMonitor }
{}

// A group takes the lowest free number of two, and is dropped where it has no children.
fn a_group_is_made_and_dropped()
    ensures accepted { refusal school (grouped (Some []) None) edit.MakeGroup ≡ None }
    ensures after { edited (grouped (Some []) None) edit.MakeGroup ≡ grouped (Some []) (Some []) }
    ensures made { made (grouped (Some []) None) edit.MakeGroup ≡ Some 1 }
    ensures full { refusal school (grouped (Some []) (Some [])) edit.MakeGroup ≡ Some why.GroupsFull }
    ensures drop { refusal school (grouped (Some []) (Some [])) (edit.DropGroup (group 0)) ≡ None }
    ensures dropped { edited (grouped (Some []) (Some [])) (edit.DropGroup (group 0)) ≡ grouped None (Some []) }
    ensures again { made (grouped None (Some [])) edit.MakeGroup ≡ Some 0 }
    ensures children { refusal school (grouped (Some (monitor 1 ∷ [])) None) (edit.DropGroup (group 0)) ≡ Some why.NotEmpty }
    ensures none { refusal school (grouped None (Some [])) (edit.DropGroup (group 0)) ≡ Some why.NoSuchGroup }
{}

// Children stand in the order in which they were added.
fn a_child_is_added_and_removed()
    ensures add { refusal school (grouped (Some (monitor 1 ∷ [])) None) (edit.AddChild (group 0) (monitor 0)) ≡ None }
    ensures added { edited (grouped (Some (monitor 1 ∷ [])) None) (edit.AddChild (group 0) (monitor 0)) ≡ grouped (Some (monitor 1 ∷ monitor 0 ∷ [])) None }
    ensures child { refusal school (grouped (Some (monitor 1 ∷ [])) None) (edit.AddChild (group 0) (monitor 1)) ≡ Some why.IsChild }
    ensures unknown { refusal school (grouped (Some (monitor 1 ∷ [])) None) (edit.AddChild (group 0) (monitor 7)) ≡ Some why.NoSuchMonitor }
    ensures remove { refusal school (grouped (Some (monitor 1 ∷ monitor 0 ∷ [])) None) (edit.RemoveChild (group 0) (monitor 1)) ≡ None }
    ensures removed { edited (grouped (Some (monitor 1 ∷ monitor 0 ∷ [])) None) (edit.RemoveChild (group 0) (monitor 1)) ≡ grouped (Some (monitor 0 ∷ [])) None }
    ensures no_child { refusal school (grouped (Some (monitor 1 ∷ [])) None) (edit.RemoveChild (group 0) (monitor 2)) ≡ Some why.NotChild }
{}

// A Drop of the first event's meet is watched by the monitors on its time and its place. Its Lift, where it has a
// resource, also by that resource's clashes at each of three times.
fn changes_of_starts_are_watched()
    ensures drop { watcher_count school blank (change.Drop (meet 0) 3) ≡ 2 }
    ensures bare { watcher_count school (whole (at 0) None None None) (change.Lift (meet 0) (time 0)) ≡ 2 }
    ensures lift { watcher_count school (whole (at 0) (has 0) None None) (change.Lift (meet 0) (time 0)) ≡ 5 }
{}

// A Give to the second event's task is watched by the monitors on its time and its place, and, where its meet has a
// start, by the resource's clashes at that time.
fn changes_of_resources_are_watched()
    ensures unplaced { watcher_count school blank (change.Give (task 3) (resource 0)) ≡ 3 }
    ensures placed { watcher_count school (whole None None (at 1) None) (change.Give (task 3) (resource 0)) ≡ 4 }
    ensures take { watcher_count school (whole None None (at 1) (has 0)) (change.Take (task 3) (resource 0)) ≡ 4 }
{}
