//! What the lines are on a small instance: the contract of each function is an example. Nothing
//! calls them, since it is the check that shows them.

ghost use Rattle.std.specs.Prelude.{◌≡◌, true, false, Some, None, codes};
ghost use Rattle.evaluation_report.specs.Answers.{group_line, meet_line, task_line, ok_line, refused_line};
ghost use Rattle.evaluation_report.specs.Demands.{deficit_line, demand_line};
ghost use Rattle.evaluation_report.specs.Examples.{two_events};
ghost use Rattle.evaluation_report.specs.Lines.{header_line, solution_line, monitor_line, total_line, invalid_line};

use hall_report::Demand;
use khe_told::Refusal;

// The lines of a report that speak of an archive and of its solutions.
fn lines_of_solutions()
    ensures archive { header_line 1 2 ≡ codes "archive instances 1 solutions 2\n" }
    ensures solution { solution_line 1 (codes "H") (codes "J") ≡ codes "solution 1 group \"H\" instance \"J\"\n" }
    ensures escaped { solution_line 0 (codes "a&b") (codes "\"") ≡ codes "solution 0 group \"a&amp;b\" instance \"&quot;\"\n" }
    ensures total { total_line (record { hard = 12; soft = 0 }) ≡ codes "total hard 12 soft 0\n" }
    ensures invalid { invalid_line 4 0 ≡ codes "invalid 4 OffEnd entry 0\n" }
{}

// Monitors at points of each form, one that costs no hard cost, and one that is detached.
fn lines_of_monitors()
    ensures first_event { monitor_line two_events 0 3 6 true ≡ codes "monitor 0 AssignTime \"c0\" event \"E\" deviation 3 hard 6\n" }
    ensures second_event { monitor_line two_events 1 1 2 true ≡ codes "monitor 1 AssignTime \"c0\" event \"F\" deviation 1 hard 2\n" }
    ensures first_place { monitor_line two_events 2 3 3 true ≡ codes "monitor 2 AssignResource \"c1\" event \"E\" role \"R\" deviation 3 hard 3\n" }
    ensures second_place { monitor_line two_events 3 1 1 true ≡ codes "monitor 3 AssignResource \"c1\" event \"F\" role \"R\" deviation 1 hard 1\n" }
    ensures first_resource { monitor_line two_events 4 0 0 true ≡ codes "monitor 4 AvoidClashes \"c2\" resource \"r0\" deviation 0 hard 0\n" }
    ensures second_resource { monitor_line two_events 5 0 0 true ≡ codes "monitor 5 AvoidClashes \"c2\" resource \"r1\" deviation 0 hard 0\n" }
    ensures soft { monitor_line two_events 6 0 0 true ≡ codes "monitor 6 PreferTimes \"c3\" event \"F\" deviation 0 soft 0\n" }
    ensures group { monitor_line two_events 7 2 2 true ≡ codes "monitor 7 LinkEvents \"c4\" group \"both\" deviation 2 hard 2\n" }
    ensures pair { monitor_line two_events 8 4 4 true ≡ codes "monitor 8 OrderEvents \"c5\" events \"E\" \"F\" deviation 4 soft 4\n" }
    ensures detached { monitor_line two_events 0 3 0 false ≡ codes "monitor 0 AssignTime \"c0\" event \"E\" deviation 3 hard 0 detached\n" }
{}

// The lines that answer a script: meets with a start and without one, tasks with a resource and
// without one, and edits that were done and refused.
fn lines_of_answers()
    ensures group { group_line 0 (record { hard = 2; soft = 0 }) ≡ codes "group 0 hard 2 soft 0\n" }
    ensures placed { meet_line two_events (record { meet = record { 0 = 1 }; event = record { 0 = 0 }; duration = 2; start = Some (record { 0 = 1 }) }) ≡ codes "meet 1 event \"E\" duration 2 time 1\n" }
    ensures lifted { meet_line two_events (record { meet = record { 0 = 3 }; event = record { 0 = 1 }; duration = 1; start = None }) ≡ codes "meet 3 event \"F\" duration 1 time -\n" }
    ensures given { task_line (record { task = record { meet = record { 0 = 3 }; place = 0 }; resource = Some (record { 0 = 1 }) }) ≡ codes "task 3 0 resource 1\n" }
    ensures free { task_line (record { task = record { meet = record { 0 = 1 }; place = 0 }; resource = None }) ≡ codes "task 1 0 resource -\n" }
    ensures done { ok_line None ≡ codes "ok\n" }
    ensures made { ok_line (Some 1) ≡ codes "ok 1\n" }
    ensures refused { refused_line Refusal.BadCut ≡ codes "refused 10 BadCut\n" }
{}

// The lines that say what is short: a task that competes with a time at which a resource is to be free.
fn lines_of_demands()
    ensures deficit { deficit_line 1 2 ≡ codes "deficit 1 demands 2\n" }
    ensures task { demand_line (Demand.Task (record { 0 = 3 }) 0 2) ≡ codes "demand 3 0 2\n" }
    ensures unavailable { demand_line (Demand.Unavailable (record { 0 = 1 }) (record { 0 = 4 })) ≡ codes "unavailable 1 4\n" }
{}
