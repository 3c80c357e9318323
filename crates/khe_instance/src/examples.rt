//! What the definitions give on small timetables, from worked examples of the format. Each
//! function's contract is an example: it is proved, and nothing calls it.
#![allow(dead_code)]

ghost use Rattle.std.specs.Prelude.{◌≡◌, Some, None, true, false, [], ◌∷◌, codes};
ghost use Rattle.khe_instance.specs.EventDeviation as event;
ghost use Rattle.khe_instance.specs.ResourceDeviation as resource;
ghost use Rattle.khe_instance.specs.Running.{running_tasks};
ghost use Rattle.khe_instance.specs.Examples.{meet, unplaced, task, free, given, day, two, lecture, spread};

// A meet of duration 3 without a start, and one that is placed.
fn assign_time_adds_durations()
    ensures { event.assign_time (unplaced 0 0 3 ∷ meet 3 1 2 0 ∷ []) 0 ≡ 3 }
{}

fn assign_resource_adds_durations()
    ensures { event.assign_resource (free (unplaced 0 0 3) ∷ task (meet 3 0 2 0) ∷ []) 0 0 ≡ 3 }
{}

// Meets of durations 1 and 4, where 2 to 3 are wanted, and two meets where 3 to 5 are wanted.
fn split_events_counts_meets_and_amounts()
    ensures { event.split_events (unplaced 0 0 1 ∷ unplaced 1 0 4 ∷ []) 0 2 3 3 5 ≡ 3 }
{}

// Three meets of duration 2, where at most one is wanted.
fn distribute_split_events_counts_one_duration()
    ensures { event.distribute_split_events (unplaced 0 0 2 ∷ unplaced 1 0 2 ∷ meet 2 0 2 0 ∷ unplaced 3 0 1 ∷ []) 0 2 0 1 ≡ 2 }
{}

// Of the times 0 to 4 all are preferred but 1: only the start counts, and only the duration given.
fn prefer_times_looks_at_starts()
    ensures outside { event.prefer_times (meet 0 0 3 1 ∷ meet 3 0 2 0 ∷ unplaced 5 0 2 ∷ []) 0 (true ∷ false ∷ true ∷ true ∷ true ∷ []) None ≡ 3 }
    ensures other { event.prefer_times (meet 0 0 3 1 ∷ []) 0 (true ∷ false ∷ []) (Some 2) ≡ 0 }
{}

// The first of two resources is preferred.
fn prefer_resources_adds_durations()
    ensures { event.prefer_resources (given 1 (meet 0 0 3 1) ∷ given 0 (meet 3 0 2 0) ∷ free (unplaced 5 0 2) ∷ []) 0 0 (true ∷ false ∷ []) ≡ 3 }
{}

// Two resources in the role, of which one has two tasks.
fn avoid_split_assignments_counts_resources()
    ensures two { event.avoid_split_assignments (lecture ∷ []) 3 (given 1 (meet 0 0 1 0) ∷ given 1 (meet 1 0 1 1) ∷ given 2 (unplaced 2 0 1) ∷ []) (true ∷ []) (codes "T") ≡ 1 }
    ensures role { event.avoid_split_assignments (lecture ∷ []) 3 (given 1 (meet 0 0 1 0) ∷ given 2 (unplaced 2 0 1) ∷ []) (true ∷ []) (codes "R") ≡ 0 }
{}

// Two meets start in a day in which at most one is to start. A day that is listed twice counts
// twice.
fn spread_events_counts_starts()
    ensures once { event.spread_events (meet 0 0 1 0 ∷ meet 1 1 1 4 ∷ unplaced 2 1 1 ∷ []) two (spread day 0 1 ∷ []) ≡ 1 }
    ensures twice { event.spread_events (meet 0 0 1 0 ∷ meet 1 1 1 4 ∷ unplaced 2 1 1 ∷ []) two (spread day 0 1 ∷ spread day 0 1 ∷ []) ≡ 2 }
{}

// The first event runs at 1 and 2, the second at 2 and 3.
fn link_events_counts_times()
    ensures apart { event.link_events (meet 0 0 2 1 ∷ meet 2 1 2 2 ∷ []) 5 two ≡ 2 }
    ensures unplaced { event.link_events (unplaced 0 0 2 ∷ unplaced 2 1 2 ∷ []) 5 two ≡ 0 }
    ensures once { event.link_events (meet 0 0 1 1 ∷ meet 1 0 1 1 ∷ unplaced 2 1 2 ∷ []) 5 two ≡ 1 }
{}

// Two events of duration 2 with no time between them.
fn order_events_measures_the_gap()
    ensures next { event.order_events (meet 0 0 2 0 ∷ meet 2 1 2 2 ∷ []) 0 1 0 0 ≡ 0 }
    ensures before { event.order_events (meet 0 0 2 2 ∷ meet 2 1 2 0 ∷ []) 0 1 0 0 ≡ 4 }
    ensures unplaced { event.order_events (meet 0 0 2 2 ∷ unplaced 2 1 2 ∷ []) 0 1 0 0 ≡ 0 }
{}

// Three tasks at one time, two of them of one meet.
fn avoid_clashes_counts_tasks()
    ensures { resource.avoid_clashes (running_tasks (task (meet 0 0 1 3) ∷ task (meet 0 0 1 3) ∷ task (meet 1 1 1 3) ∷ []) 0) 5 ≡ 2 }
{}

// A meet that covers two unavailable times.
fn avoid_unavailable_times_counts_times()
    ensures { resource.avoid_unavailable_times (running_tasks (task (meet 0 0 3 1) ∷ task (meet 3 1 1 2) ∷ []) 0) (false ∷ true ∷ true ∷ false ∷ []) ≡ 2 }
{}

// A day of five times, busy at the first, third and fifth. A day that is listed twice counts twice.
fn limit_idle_times_counts_times_between()
    ensures between { resource.limit_idle_times (running_tasks (task (meet 0 0 1 0) ∷ task (meet 1 1 1 2) ∷ task (meet 2 2 1 4) ∷ []) 0) (day ∷ []) 0 0 ≡ 2 }
    ensures one { resource.limit_idle_times (running_tasks (task (meet 0 0 1 2) ∷ []) 0) (day ∷ []) 0 0 ≡ 0 }
    ensures twice { resource.limit_idle_times (running_tasks (task (meet 0 0 1 2) ∷ []) 0) (day ∷ day ∷ []) 1 5 ≡ 1 }
{}

// A busy day and a free one, where none is to be busy.
fn cluster_busy_times_counts_groups()
    ensures { resource.cluster_busy_times (running_tasks (task (meet 0 0 1 2) ∷ []) 0) (day ∷ (true ∷ true ∷ []) ∷ []) 0 0 ≡ 1 }
{}

// A day without a busy time costs nothing, one with a busy time lacks one.
fn limit_busy_times_passes_over_free_groups()
    ensures none { resource.limit_busy_times (running_tasks [] 0) (day ∷ []) 2 3 ≡ 0 }
    ensures one { resource.limit_busy_times (running_tasks (task (meet 0 0 1 2) ∷ []) 0) (day ∷ []) 2 3 ≡ 1 }
{}

// An event of duration 3 and workload 4: one part of duration 1 is worth a third of 4.
fn limit_workload_rounds_once()
    ensures excess { resource.limit_workload 3 (resource.workload_in (lecture ∷ []) 3 (task (unplaced 0 0 1) ∷ []) 0) 0 1 ≡ 1 }
    ensures whole { resource.limit_workload 3 (resource.workload_in (lecture ∷ []) 3 (task (unplaced 0 0 1) ∷ task (unplaced 1 0 1) ∷ task (unplaced 2 0 1) ∷ []) 0) 0 4 ≡ 0 }
    ensures shortfall { resource.limit_workload 3 (resource.workload_in (lecture ∷ []) 3 (task (unplaced 0 0 1) ∷ []) 0) 2 3 ≡ 1 }
{}
