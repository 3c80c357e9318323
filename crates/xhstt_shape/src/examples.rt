//! What elements written out by hand say, by the table of elements. Each function's contract is an
//! example: it is proved, and nothing calls it. All fields of one type have values of their own, so
//! that no two can stand for each other.
#![allow(dead_code)]
#![tactic(auto, unfolding(crate::specs::Examples::is_utf8, crate::specs::Examples::chars, crate::specs::Examples::encode_utf8, crate::specs::Contents::function_of, crate::specs::Contents::number_between, crate::specs::Contents::role_text, crate::specs::Contents::trimmed_text, crate::specs::Contents::truth_of, crate::specs::Values::all, crate::specs::Values::all_inside, crate::specs::Values::applies, crate::specs::Values::archive, crate::specs::Values::attribute_text, crate::specs::Values::constraint, crate::specs::Values::constraint_of, crate::specs::Values::cost_function, crate::specs::Values::duration, crate::specs::Values::entry, crate::specs::Values::event, crate::specs::Values::event_group, crate::specs::Values::event_resource, crate::specs::Values::every, crate::specs::Values::every_inside, crate::specs::Values::given, crate::specs::Values::group_sort_of, crate::specs::Values::id, crate::specs::Values::instance, crate::specs::Values::lower, crate::specs::Values::meta_data, crate::specs::Values::name, crate::specs::Values::number, crate::specs::Values::optional_duration, crate::specs::Values::optional_name, crate::specs::Values::optional_number, crate::specs::Values::optional_reference, crate::specs::Values::pair, crate::specs::Values::reference, crate::specs::Values::required, crate::specs::Values::resource, crate::specs::Values::resource_group, crate::specs::Values::resource_type, crate::specs::Values::role, crate::specs::Values::rule, crate::specs::Values::solution, crate::specs::Values::solution_group, crate::specs::Values::spread, crate::specs::Values::text, crate::specs::Values::the_reference, crate::specs::Values::the_role, crate::specs::Values::time, crate::specs::Values::time_group, crate::specs::Values::time_sort_of, crate::specs::Values::upper, crate::specs::Values::workload, crate::specs::Words::kind_word, crate::specs::Words::label_word, crate::specs::Words::word))]

ghost use Rattle.std.specs.Prelude.{◌≡◌, Some, None, true, false, [], ◌∷◌, codes};
ghost use Rattle.khe_base.specs.declared.costs.CostFn.TheVariants as cost;
ghost use Rattle.xhstt_shape.specs.Contents.{truth_of, function_of};
ghost use Rattle.xhstt_shape.specs.Values as value;
ghost use Rattle.xhstt_shape.specs.Examples.{text, element, around, with_id, refers, named, list, given, id, ref, refs, role, constraint, says, to_events, to_groups, to_resources, events, groups, resources, time_groups, times, bounds, meta, about, instance_times, instance_resources, instance_events, instance_constraints, solution};
ghost use Rattle.xhstt_shape.specs.declared.constraints.RawApplies.TheVariants as applied;
ghost use Rattle.xhstt_shape.specs.declared.constraints.RawRule.TheVariants as ruled;
ghost use Rattle.xhstt_shape.specs.declared.records.GroupSort.TheVariants as group_sort;
ghost use Rattle.xhstt_shape.specs.declared.records.TimeSort.TheVariants as time_sort;
ghost use Rattle.khe_instance.specs.declared.rules.Kind.TheVariants as kind;
ghost use Rattle.xhstt_shape.specs.declared.words.Tag.TheVariants as tag;

// Constraints.

fn assign_time()
    ensures { value.constraint (constraint (codes "AssignTimeConstraint") to_events []) ≡ says events ruled.AssignTime }
{}

fn assign_resource()
    ensures { value.constraint (constraint (codes "AssignResourceConstraint") to_events (text (codes "Role") (codes "T") ∷ [])) ≡ says events (ruled.AssignResource (role (codes "T"))) }
{}

fn split_events()
    ensures { value.constraint (constraint (codes "SplitEventsConstraint") to_events (text (codes "MinimumDuration") (codes "1") ∷ text (codes "MaximumDuration") (codes "2") ∷ text (codes "MinimumAmount") (codes "3") ∷ text (codes "MaximumAmount") (codes "4") ∷ [])) ≡ says events (ruled.SplitEvents 1 2 3 4) }
{}

fn distribute_split_events()
    ensures { value.constraint (constraint (codes "DistributeSplitEventsConstraint") to_events (text (codes "Duration") (codes "1") ∷ bounds)) ≡ says events (ruled.DistributeSplitEvents 1 2 5) }
{}

fn prefer_times()
    ensures { value.constraint (constraint (codes "PreferTimesConstraint") to_events (time_groups ∷ times ∷ text (codes "Duration") (codes "1") ∷ [])) ≡ says events (ruled.PreferTimes (refs (codes "monday")) (refs (codes "noon")) (Some 1)) }
{}

fn prefer_resources()
    ensures { value.constraint (constraint (codes "PreferResourcesConstraint") to_events (list (codes "ResourceGroups") (codes "ResourceGroup") (codes "rooms") ∷ list (codes "Resources") (codes "Resource") (codes "hall") ∷ text (codes "Role") (codes "R") ∷ [])) ≡ says events (ruled.PreferResources (refs (codes "rooms")) (refs (codes "hall")) (role (codes "R"))) }
{}

fn avoid_split_assignments()
    ensures { value.constraint (constraint (codes "AvoidSplitAssignmentsConstraint") to_groups (text (codes "Role") (codes "T") ∷ [])) ≡ says groups (ruled.AvoidSplitAssignments (role (codes "T"))) }
{}

fn spread_events()
    ensures { value.constraint (constraint (codes "SpreadEventsConstraint") to_groups (around (codes "TimeGroups") (refers (codes "TimeGroup") (codes "monday") bounds ∷ []) ∷ [])) ≡ says groups (ruled.SpreadEvents (record { reference = ref (codes "monday"); min = 2; max = 5 } ∷ [])) }
{}

fn link_events()
    ensures { value.constraint (constraint (codes "LinkEventsConstraint") to_groups []) ≡ says groups ruled.LinkEvents }
{}

fn order_events()
    ensures { value.constraint (constraint (codes "OrderEventsConstraint") (around (codes "EventPairs") (around (codes "EventPair") (refers (codes "FirstEvent") (codes "lecture") [] ∷ refers (codes "SecondEvent") (codes "exam") [] ∷ text (codes "MinSeparation") (codes "1") ∷ text (codes "MaxSeparation") (codes "4") ∷ []) ∷ []) ∷ []) [])
        ≡ says (applied.Pairs (record { first = ref (codes "lecture"); second = ref (codes "exam"); min = 1; max = 4 } ∷ [])) ruled.OrderEvents }
{}

fn avoid_clashes()
    ensures { value.constraint (constraint (codes "AvoidClashesConstraint") to_resources []) ≡ says resources ruled.AvoidClashes }
{}

fn avoid_unavailable_times()
    ensures { value.constraint (constraint (codes "AvoidUnavailableTimesConstraint") to_resources (time_groups ∷ times ∷ [])) ≡ says resources (ruled.AvoidUnavailableTimes (refs (codes "monday")) (refs (codes "noon"))) }
{}

fn limit_idle_times()
    ensures { value.constraint (constraint (codes "LimitIdleTimesConstraint") to_resources (time_groups ∷ bounds)) ≡ says resources (ruled.LimitIdleTimes (refs (codes "monday")) 2 5) }
{}

fn cluster_busy_times()
    ensures { value.constraint (constraint (codes "ClusterBusyTimesConstraint") to_resources (time_groups ∷ bounds)) ≡ says resources (ruled.ClusterBusyTimes (refs (codes "monday")) 2 5) }
{}

fn limit_busy_times()
    ensures { value.constraint (constraint (codes "LimitBusyTimesConstraint") to_resources (time_groups ∷ bounds)) ≡ says resources (ruled.LimitBusyTimes (refs (codes "monday")) 2 5) }
{}

fn limit_workload()
    ensures { value.constraint (constraint (codes "LimitWorkloadConstraint") to_resources bounds) ≡ says resources (ruled.LimitWorkload 2 5) }
{}

// What stands for a bound that is missing.
fn missing_bounds()
    ensures none { value.rule kind.LimitWorkload (around (codes "LimitWorkloadConstraint") []) ≡ ruled.LimitWorkload 0 2147483647 }
    ensures split { value.rule kind.SplitEvents (around (codes "SplitEventsConstraint") []) ≡ ruled.SplitEvents 0 2147483647 0 2147483647 }
    ensures pair { value.lower tag.MinSeparation (around (codes "EventPair") []) ≡ 0 }
    ensures pair_end { value.upper tag.MaxSeparation (around (codes "EventPair") []) ≡ 2147483647 }
{}

// The words for a cost.
fn costs_say()
    ensures hard { truth_of (codes "true") ≡ Some true }
    ensures soft { truth_of (codes "false") ≡ Some false }
    ensures linear { function_of (codes "Linear") ≡ Some cost.Linear }
    ensures quadratic { function_of (codes "Quadratic") ≡ Some cost.Quadratic }
    ensures step { function_of (codes "Step") ≡ Some cost.Step }
{}

// Instances.

fn times_say()
    ensures week { value.time_group (named (codes "Week") (codes "w1") (codes "First")) ≡ record { sort = time_sort.Week; id = id (codes "w1"); name = codes "First" } }
    ensures day { value.time_group (named (codes "Day") (codes "mo") (codes "Monday")) ≡ record { sort = time_sort.Day; id = id (codes "mo"); name = codes "Monday" } }
    ensures group { value.time_group (named (codes "TimeGroup") (codes "am") (codes "Mornings")) ≡ record { sort = time_sort.Group; id = id (codes "am"); name = codes "Mornings" } }
    ensures time { value.time (with_id (codes "Time") (codes "mo1") (text (codes "Name") (codes "Monday 1") ∷ refers (codes "Week") (codes "w1") [] ∷ refers (codes "Day") (codes "mo") [] ∷ time_groups ∷ [])) ≡ record { id = id (codes "mo1"); name = codes "Monday 1"; week = Some (ref (codes "w1")); day = Some (ref (codes "mo")); time_groups = refs (codes "monday") } }
{}

fn resources_say()
    ensures sort { value.resource_type (named (codes "ResourceType") (codes "t") (codes "Teachers")) ≡ record { id = id (codes "t"); name = codes "Teachers" } }
    ensures group { value.resource_group (with_id (codes "ResourceGroup") (codes "g") (text (codes "Name") (codes "Staff") ∷ refers (codes "ResourceType") (codes "t") [] ∷ [])) ≡ record { id = id (codes "g"); name = codes "Staff"; resource_type = ref (codes "t") } }
    ensures resource { value.resource (with_id (codes "Resource") (codes "r") (text (codes "Name") (codes "Smith") ∷ refers (codes "ResourceType") (codes "t") [] ∷ list (codes "ResourceGroups") (codes "ResourceGroup") (codes "g") ∷ [])) ≡ record { id = id (codes "r"); name = codes "Smith"; resource_type = ref (codes "t"); resource_groups = refs (codes "g") } }
{}

fn event_groups_say()
    ensures course { value.event_group (named (codes "Course") (codes "ma") (codes "Maths")) ≡ record { sort = group_sort.Course; id = id (codes "ma"); name = codes "Maths" } }
    ensures group { value.event_group (named (codes "EventGroup") (codes "ex") (codes "Exams")) ≡ record { sort = group_sort.Group; id = id (codes "ex"); name = codes "Exams" } }
{}

fn event_says()
    ensures { value.event (element (codes "Event") (given (codes "Id") (codes "e") ∷ given (codes "Color") (codes "red") ∷ []) (text (codes "Name") (codes "Maths") ∷ text (codes "Duration") (codes "2") ∷ text (codes "Workload") (codes "3") ∷ refers (codes "Course") (codes "ma") [] ∷ refers (codes "Time") (codes "mo1") [] ∷ around (codes "Resources") (refers (codes "Resource") (codes "r") [] ∷ []) ∷ list (codes "ResourceGroups") (codes "ResourceGroup") (codes "g") ∷ list (codes "EventGroups") (codes "EventGroup") (codes "ex") ∷ []))
        ≡ record { id = id (codes "e"); color = Some (codes "red"); name = codes "Maths"; duration = 2; workload = Some 3; course = Some (ref (codes "ma")); time = Some (ref (codes "mo1")); resources = record { reference = Some (ref (codes "r")); role = None; resource_type = None; workload = None } ∷ []; resource_groups = refs (codes "g"); event_groups = refs (codes "ex") } }
{}

fn event_resource_says()
    ensures preassigned { value.event_resource (refers (codes "Resource") (codes "r") (text (codes "Role") (codes "T") ∷ refers (codes "ResourceType") (codes "t") [] ∷ text (codes "Workload") (codes "4") ∷ [])) ≡ record { reference = Some (ref (codes "r")); role = Some (role (codes "T")); resource_type = Some (ref (codes "t")); workload = Some 4 } }
    ensures without { value.event_resource (around (codes "Resource") (text (codes "Role") (codes "T") ∷ refers (codes "ResourceType") (codes "t") [] ∷ [])) ≡ record { reference = None; role = Some (role (codes "T")); resource_type = Some (ref (codes "t")); workload = None } }
{}

fn meta_data_says()
    ensures { value.meta_data (around (codes "MetaData") (text (codes "Name") (codes "n") ∷ text (codes "Contributor") (codes "c") ∷ text (codes "Date") (codes "d") ∷ text (codes "Country") (codes "o") ∷ text (codes "Description") (codes "e") ∷ text (codes "Publication") (codes "p") ∷ text (codes "Remarks") (codes "r") ∷ []))
        ≡ record { name = codes "n"; contributor = Some (codes "c"); date = Some (codes "d"); country = Some (codes "o"); description = Some (codes "e"); publication = Some (codes "p"); remarks = Some (codes "r") } }
{}

fn instance_says()
    ensures { value.instance (with_id (codes "Instance") (codes "i") (meta ∷ instance_times ∷ instance_resources ∷ instance_events ∷ instance_constraints ∷ []))
        ≡ record { id = id (codes "i"); meta_data = Some about; time_groups = record { sort = time_sort.Day; id = id (codes "mo"); name = [] } ∷ []; times = record { id = id (codes "mo1"); name = []; week = None; day = None; time_groups = [] } ∷ []; resource_types = record { id = id (codes "t"); name = [] } ∷ []; resource_groups = record { id = id (codes "g"); name = []; resource_type = ref (codes "t") } ∷ []; resources = record { id = id (codes "r"); name = []; resource_type = ref (codes "t"); resource_groups = [] } ∷ []; event_groups = record { sort = group_sort.Course; id = id (codes "ma"); name = [] } ∷ []; events = record { id = id (codes "e"); color = None; name = []; duration = 2; workload = None; course = None; time = None; resources = []; resource_groups = []; event_groups = [] } ∷ []; constraints = record { id = id (codes "c"); name = codes "n"; required = true; weight = 9; cost = cost.Quadratic; applies = groups; rule = ruled.LinkEvents } ∷ [] } }
{}

// Solutions and archives.

fn entry_says()
    ensures entry { value.entry (refers (codes "Event") (codes "e") (text (codes "Duration") (codes "2") ∷ refers (codes "Time") (codes "mo1") [] ∷ around (codes "Resources") (refers (codes "Resource") (codes "r") [] ∷ []) ∷ [])) ≡ record { reference = ref (codes "e"); duration = Some 2; time = Some (ref (codes "mo1")); resources = record { reference = ref (codes "r"); role = None } ∷ [] } }
    ensures given { value.given (refers (codes "Resource") (codes "r") (text (codes "Role") (codes "T") ∷ [])) ≡ record { reference = ref (codes "r"); role = Some (role (codes "T")) } }
{}

fn solution_says()
    ensures solution { value.solution solution ≡ record { reference = ref (codes "i"); description = Some (codes "d"); running_time = Some (codes "t"); events = record { reference = ref (codes "e"); duration = None; time = None; resources = [] } ∷ [] } }
    ensures group { value.solution_group (with_id (codes "SolutionGroup") (codes "s") (meta ∷ refers (codes "Solution") (codes "i") [] ∷ [])) ≡ record { id = id (codes "s"); meta_data = Some about; solutions = record { reference = ref (codes "i"); description = None; running_time = None; events = [] } ∷ [] } }
{}

fn archive_says()
    ensures { value.archive (with_id (codes "HighSchoolTimetableArchive") (codes "a") (meta ∷ around (codes "Instances") (with_id (codes "Instance") (codes "i") [] ∷ []) ∷ around (codes "SolutionGroups") (with_id (codes "SolutionGroup") (codes "s") [] ∷ []) ∷ []))
        ≡ record { id = Some (id (codes "a")); meta_data = Some about; instances = record { id = id (codes "i"); meta_data = None; time_groups = []; times = []; resource_types = []; resource_groups = []; resources = []; event_groups = []; events = []; constraints = [] } ∷ []; solution_groups = record { id = id (codes "s"); meta_data = None; solutions = [] } ∷ [] } }
{}
