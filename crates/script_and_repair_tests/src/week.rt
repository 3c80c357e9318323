//! A script on the week of a school.

use crate::plays::{Play, must_go};
use program_runs::Piece;
use program_runs::Piece::Once;
use std::test::Fail;

/// The week of a small school, with a constraint of each of the sixteen kinds and a draft of its
/// timetable.
const WEEK: &str = r#"<?xml version="1.0" encoding="UTF-8"?>
<!-- The week of a small school, with a constraint of each of the sixteen kinds, and two drafts of its
     timetable. The second draft gives the sports lesson another time than its own. -->
<HighSchoolTimetableArchive Id="Schools">
<Instances>
<Instance Id="Week">
<MetaData><Name>A small school</Name></MetaData>
<Times>
<TimeGroups><Day Id="Mo"><Name>Monday</Name></Day><Day Id="Tu"><Name>Tuesday</Name></Day><TimeGroup Id="Early"/></TimeGroups>
<Time Id="Mo1"><Day Reference="Mo"/><TimeGroups><TimeGroup Reference="Early"/></TimeGroups></Time>
<Time Id="Mo2"><Day Reference="Mo"/></Time>
<Time Id="Mo3"><Day Reference="Mo"/></Time>
<Time Id="Mo4"><Day Reference="Mo"/></Time>
<Time Id="Tu1"><Day Reference="Tu"/><TimeGroups><TimeGroup Reference="Early"/></TimeGroups></Time>
<Time Id="Tu2"><Day Reference="Tu"/></Time>
<Time Id="Tu3"><Day Reference="Tu"/></Time>
<Time Id="Tu4"><Day Reference="Tu"/></Time>
</Times>
<Resources>
<ResourceTypes><ResourceType Id="Teacher"/><ResourceType Id="Class"/><ResourceType Id="Room"/></ResourceTypes>
<ResourceGroups>
<ResourceGroup Id="Staff"><ResourceType Reference="Teacher"/></ResourceGroup>
<ResourceGroup Id="Classes"><ResourceType Reference="Class"/></ResourceGroup>
</ResourceGroups>
<Resource Id="Ann"><ResourceType Reference="Teacher"/><ResourceGroups><ResourceGroup Reference="Staff"/></ResourceGroups></Resource>
<Resource Id="Ben"><ResourceType Reference="Teacher"/><ResourceGroups><ResourceGroup Reference="Staff"/></ResourceGroups></Resource>
<Resource Id="5a"><ResourceType Reference="Class"/><ResourceGroups><ResourceGroup Reference="Classes"/></ResourceGroups></Resource>
<Resource Id="5b"><ResourceType Reference="Class"/><ResourceGroups><ResourceGroup Reference="Classes"/></ResourceGroups></Resource>
<Resource Id="Hall"><ResourceType Reference="Room"/></Resource>
<Resource Id="Lab"><ResourceType Reference="Room"/></Resource>
</Resources>
<Events>
<EventGroups><Course Id="Maths"/><EventGroup Id="All"/><EventGroup Id="Together"/></EventGroups>
<Event Id="Maths 5a"><Duration>3</Duration><Course Reference="Maths"/>
<Resources>
<Resource Reference="5a"/>
<Resource><Role>Teacher</Role><ResourceType Reference="Teacher"/></Resource>
<Resource><Role>Room</Role><ResourceType Reference="Room"/><Workload>1</Workload></Resource>
</Resources>
<EventGroups><EventGroup Reference="All"/><EventGroup Reference="Together"/></EventGroups></Event>
<Event Id="Maths 5b"><Duration>2</Duration><Course Reference="Maths"/>
<Resources>
<Resource Reference="5b"/>
<Resource><Role>Teacher</Role><ResourceType Reference="Teacher"/></Resource>
</Resources>
<EventGroups><EventGroup Reference="All"/><EventGroup Reference="Together"/></EventGroups></Event>
<Event Id="Sports"><Duration>2</Duration><Time Reference="Tu3"/>
<Resources><Resource><Role>Teacher</Role><ResourceType Reference="Teacher"/></Resource><Resource Reference="Hall"/></Resources>
<ResourceGroups><ResourceGroup Reference="Classes"/></ResourceGroups>
<EventGroups><EventGroup Reference="All"/></EventGroups></Event>
</Events>
<Constraints>
<AssignTimeConstraint Id="Placed"><Name>Every lesson has a time</Name><Required>true</Required><Weight>10</Weight><CostFunction>Linear</CostFunction>
<AppliesTo><EventGroups><EventGroup Reference="All"/></EventGroups></AppliesTo></AssignTimeConstraint>
<AssignResourceConstraint Id="Taught"><Required>true</Required><Weight>5</Weight><CostFunction>Linear</CostFunction>
<AppliesTo><EventGroups><EventGroup Reference="All"/></EventGroups></AppliesTo><Role>Teacher</Role></AssignResourceConstraint>
<SplitEventsConstraint Id="Short"><Required>false</Required><Weight>1</Weight><CostFunction>Linear</CostFunction>
<AppliesTo><EventGroups><EventGroup Reference="Maths"/></EventGroups></AppliesTo><MaximumDuration>2</MaximumDuration><MinimumAmount>2</MinimumAmount></SplitEventsConstraint>
<DistributeSplitEventsConstraint Id="Doubles"><Required>false</Required><Weight>1</Weight><CostFunction>Step</CostFunction>
<AppliesTo><Events><Event Reference="Maths 5a"/></Events></AppliesTo><Duration>2</Duration><Minimum>1</Minimum><Maximum>1</Maximum></DistributeSplitEventsConstraint>
<PreferTimesConstraint Id="Fresh"><Required>false</Required><Weight>1</Weight><CostFunction>Linear</CostFunction>
<AppliesTo><EventGroups><EventGroup Reference="Maths"/></EventGroups></AppliesTo><TimeGroups><TimeGroup Reference="Early"/></TimeGroups></PreferTimesConstraint>
<PreferResourcesConstraint Id="Own lab"><Required>false</Required><Weight>2</Weight><CostFunction>Linear</CostFunction>
<AppliesTo><Events><Event Reference="Maths 5a"/></Events></AppliesTo><Resources><Resource Reference="Lab"/></Resources><Role>Room</Role></PreferResourcesConstraint>
<AvoidSplitAssignmentsConstraint Id="One teacher"><Required>false</Required><Weight>3</Weight><CostFunction>Linear</CostFunction>
<AppliesTo><EventGroups><EventGroup Reference="Maths"/></EventGroups></AppliesTo><Role>Teacher</Role></AvoidSplitAssignmentsConstraint>
<SpreadEventsConstraint Id="Both days"><Required>false</Required><Weight>2</Weight><CostFunction>Linear</CostFunction>
<AppliesTo><EventGroups><EventGroup Reference="Together"/></EventGroups></AppliesTo>
<TimeGroups><TimeGroup Reference="Mo"><Minimum>1</Minimum><Maximum>2</Maximum></TimeGroup><TimeGroup Reference="Tu"><Minimum>1</Minimum><Maximum>2</Maximum></TimeGroup></TimeGroups></SpreadEventsConstraint>
<LinkEventsConstraint Id="At once"><Required>false</Required><Weight>1</Weight><CostFunction>Linear</CostFunction>
<AppliesTo><EventGroups><EventGroup Reference="Together"/></EventGroups></AppliesTo></LinkEventsConstraint>
<OrderEventsConstraint Id="Maths first"><Required>false</Required><Weight>1</Weight><CostFunction>Linear</CostFunction>
<AppliesTo><EventPairs><EventPair><FirstEvent Reference="Maths 5a"/><SecondEvent Reference="Sports"/><MaxSeparation>1</MaxSeparation></EventPair></EventPairs></AppliesTo></OrderEventsConstraint>
<AvoidClashesConstraint Id="No clashes"><Required>true</Required><Weight>10</Weight><CostFunction>Linear</CostFunction>
<AppliesTo><ResourceGroups><ResourceGroup Reference="Staff"/><ResourceGroup Reference="Classes"/></ResourceGroups></AppliesTo></AvoidClashesConstraint>
<AvoidUnavailableTimesConstraint Id="Ben is away"><Required>true</Required><Weight>4</Weight><CostFunction>Linear</CostFunction>
<AppliesTo><Resources><Resource Reference="Ben"/></Resources></AppliesTo><TimeGroups><TimeGroup Reference="Mo"/></TimeGroups></AvoidUnavailableTimesConstraint>
<LimitIdleTimesConstraint Id="No gaps"><Required>false</Required><Weight>1</Weight><CostFunction>Quadratic</CostFunction>
<AppliesTo><ResourceGroups><ResourceGroup Reference="Staff"/></ResourceGroups></AppliesTo><TimeGroups><TimeGroup Reference="Mo"/><TimeGroup Reference="Tu"/></TimeGroups><Maximum>0</Maximum></LimitIdleTimesConstraint>
<ClusterBusyTimesConstraint Id="A free day"><Required>false</Required><Weight>1</Weight><CostFunction>Linear</CostFunction>
<AppliesTo><Resources><Resource Reference="Ann"/></Resources></AppliesTo><TimeGroups><TimeGroup Reference="Mo"/><TimeGroup Reference="Tu"/></TimeGroups><Maximum>1</Maximum></ClusterBusyTimesConstraint>
<LimitBusyTimesConstraint Id="Full days"><Required>false</Required><Weight>1</Weight><CostFunction>Linear</CostFunction>
<AppliesTo><ResourceGroups><ResourceGroup Reference="Classes"/></ResourceGroups></AppliesTo><TimeGroups><TimeGroup Reference="Mo"/><TimeGroup Reference="Tu"/></TimeGroups><Minimum>2</Minimum><Maximum>3</Maximum></LimitBusyTimesConstraint>
<LimitWorkloadConstraint Id="Part time"><Required>false</Required><Weight>1</Weight><CostFunction>Linear</CostFunction>
<AppliesTo><Resources><Resource Reference="Ben"/></Resources></AppliesTo><Maximum>2</Maximum></LimitWorkloadConstraint>
</Constraints>
</Instance>
</Instances>
<SolutionGroups>
<SolutionGroup Id="Drafts">
<Solution Reference="Week"><Description>Almost there</Description><Events>
<Event Reference="Maths 5a"><Duration>2</Duration><Time Reference="Mo1"/><Resources><Resource Reference="Ann"><Role>Teacher</Role></Resource><Resource Reference="Hall"><Role>Room</Role></Resource></Resources></Event>
<Event Reference="Maths 5a"><Duration>1</Duration><Time Reference="Tu1"/><Resources><Resource Reference="Ben"><Role>Teacher</Role></Resource><Resource Reference="Lab"><Role>Room</Role></Resource></Resources></Event>
<Event Reference="Maths 5b"><Duration>1</Duration><Time Reference="Mo2"/><Resources><Resource Reference="Ann"><Role>Teacher</Role></Resource></Resources></Event>
<Event Reference="Sports"><Resources><Resource Reference="Ben"><Role>Teacher</Role></Resource></Resources></Event>
</Events></Solution>
<Solution Reference="Week"><Description>Sports at a wrong time</Description><Events>
<Event Reference="Maths 5a"><Time Reference="Mo1"/></Event>
<Event Reference="Sports"><Time Reference="Tu1"/></Event>
</Events></Solution>
</SolutionGroup>
</SolutionGroups>
</HighSchoolTimetableArchive>
"#;

/// All monitors of the draft, and its totals.
const BEFORE: Piece = Once(
    "\
monitor 0 AssignTime \"Placed\" event \"Maths 5a\" deviation 0 hard 0
monitor 1 AssignTime \"Placed\" event \"Maths 5b\" deviation 1 hard 10
monitor 2 AssignTime \"Placed\" event \"Sports\" deviation 0 hard 0
monitor 3 AssignResource \"Taught\" event \"Maths 5a\" role \"Teacher\" deviation 0 hard 0
monitor 4 AssignResource \"Taught\" event \"Maths 5b\" role \"Teacher\" deviation 1 hard 5
monitor 5 AssignResource \"Taught\" event \"Sports\" role \"Teacher\" deviation 0 hard 0
monitor 6 SplitEvents \"Short\" event \"Maths 5a\" deviation 0 soft 0
monitor 7 SplitEvents \"Short\" event \"Maths 5b\" deviation 0 soft 0
monitor 8 DistributeSplitEvents \"Doubles\" event \"Maths 5a\" deviation 0 soft 0
monitor 9 PreferTimes \"Fresh\" event \"Maths 5a\" deviation 0 soft 0
monitor 10 PreferTimes \"Fresh\" event \"Maths 5b\" deviation 1 soft 1
monitor 11 PreferResources \"Own lab\" event \"Maths 5a\" role \"Room\" deviation 2 soft 4
monitor 12 AvoidSplitAssignments \"One teacher\" group \"Maths\" deviation 1 soft 3
monitor 13 SpreadEvents \"Both days\" group \"Together\" deviation 0 soft 0
monitor 14 LinkEvents \"At once\" group \"Together\" deviation 2 soft 2
monitor 15 OrderEvents \"Maths first\" events \"Maths 5a\" \"Sports\" deviation 0 soft 0
monitor 16 AvoidClashes \"No clashes\" resource \"Ann\" deviation 1 hard 10
monitor 17 AvoidClashes \"No clashes\" resource \"Ben\" deviation 0 hard 0
monitor 18 AvoidClashes \"No clashes\" resource \"5a\" deviation 0 hard 0
monitor 19 AvoidClashes \"No clashes\" resource \"5b\" deviation 0 hard 0
monitor 20 AvoidUnavailableTimes \"Ben is away\" resource \"Ben\" deviation 0 hard 0
monitor 21 LimitIdleTimes \"No gaps\" resource \"Ann\" deviation 0 soft 0
monitor 22 LimitIdleTimes \"No gaps\" resource \"Ben\" deviation 1 soft 1
monitor 23 ClusterBusyTimes \"A free day\" resource \"Ann\" deviation 0 soft 0
monitor 24 LimitBusyTimes \"Full days\" resource \"5a\" deviation 0 soft 0
monitor 25 LimitBusyTimes \"Full days\" resource \"5b\" deviation 1 soft 1
monitor 26 LimitWorkload \"Part time\" resource \"Ben\" deviation 1 soft 1
total hard 25 soft 13
",
);

/// All monitors after some edits.
const AFTER: Piece = Once(
    "\
monitor 0 AssignTime \"Placed\" event \"Maths 5a\" deviation 0 hard 0
monitor 1 AssignTime \"Placed\" event \"Maths 5b\" deviation 0 hard 0
monitor 2 AssignTime \"Placed\" event \"Sports\" deviation 0 hard 0
monitor 3 AssignResource \"Taught\" event \"Maths 5a\" role \"Teacher\" deviation 0 hard 0
monitor 4 AssignResource \"Taught\" event \"Maths 5b\" role \"Teacher\" deviation 0 hard 0
monitor 5 AssignResource \"Taught\" event \"Sports\" role \"Teacher\" deviation 0 hard 0
monitor 6 SplitEvents \"Short\" event \"Maths 5a\" deviation 0 soft 0
monitor 7 SplitEvents \"Short\" event \"Maths 5b\" deviation 0 soft 0
monitor 8 DistributeSplitEvents \"Doubles\" event \"Maths 5a\" deviation 1 soft 1
monitor 9 PreferTimes \"Fresh\" event \"Maths 5a\" deviation 1 soft 1
monitor 10 PreferTimes \"Fresh\" event \"Maths 5b\" deviation 1 soft 1
monitor 11 PreferResources \"Own lab\" event \"Maths 5a\" role \"Room\" deviation 1 soft 2
monitor 12 AvoidSplitAssignments \"One teacher\" group \"Maths\" deviation 1 soft 3
monitor 13 SpreadEvents \"Both days\" group \"Together\" deviation 2 soft 4
monitor 14 LinkEvents \"At once\" group \"Together\" deviation 3 soft 3
monitor 15 OrderEvents \"Maths first\" events \"Maths 5a\" \"Sports\" deviation 1 soft 1
monitor 16 AvoidClashes \"No clashes\" resource \"Ann\" deviation 0 hard 0
monitor 17 AvoidClashes \"No clashes\" resource \"Ben\" deviation 1 hard 10
monitor 18 AvoidClashes \"No clashes\" resource \"5a\" deviation 1 hard 10
monitor 19 AvoidClashes \"No clashes\" resource \"5b\" deviation 0 hard 0
monitor 20 AvoidUnavailableTimes \"Ben is away\" resource \"Ben\" deviation 0 hard 0
monitor 21 LimitIdleTimes \"No gaps\" resource \"Ann\" deviation 0 soft 0
monitor 22 LimitIdleTimes \"No gaps\" resource \"Ben\" deviation 0 soft 0
monitor 23 ClusterBusyTimes \"A free day\" resource \"Ann\" deviation 1 soft 1
monitor 24 LimitBusyTimes \"Full days\" resource \"5a\" deviation 1 soft 1
monitor 25 LimitBusyTimes \"Full days\" resource \"5b\" deviation 1 soft 1
monitor 26 LimitWorkload \"Part time\" resource \"Ben\" deviation 3 soft 3
total hard 20 soft 22
",
);

/// The meets of the draft and their tasks.
const MEETS: Piece = Once(
    "\
meet 0 event \"Maths 5a\" duration 2 time 0
task 0 0 resource 2
task 0 1 resource 0
task 0 2 resource 4
meet 1 event \"Maths 5a\" duration 1 time 4
task 1 0 resource 2
task 1 1 resource 1
task 1 2 resource 5
meet 3 event \"Maths 5b\" duration 1 time 1
task 3 0 resource 3
task 3 1 resource 0
meet 4 event \"Maths 5b\" duration 1 time -
task 4 0 resource 3
task 4 1 resource -
meet 5 event \"Sports\" duration 2 time 6
task 5 0 resource 1
task 5 1 resource 4
task 5 2 resource 2
task 5 3 resource 3
",
);

/// Lessons are moved, cut and merged, and resources are given and exchanged, so that most monitors
/// have another deviation; and all of it is undone.
const DRAFT: Play = Play {
    archive: WEEK,
    solution: "0",
    script: &[Once(
        "\
monitors
begin
unassign 5
give 4 1 4
regive 5 2 3
swap 0 5
move 3 4
assign 4 5
give 4 1 1
trade 3 1 1 1
trade 0 2 1 2
split 0 1
move 2 6
regive 2 1 1
monitors
unassign 1
merge 3 4
take 3 1
move 0 3
total
undo
end
monitors
show
",
    )],
    status: 0,
    text: &[
        BEFORE,
        Once(
            "\
ok
refused 5 Fixed
refused 9 WrongType
refused 5 Fixed
refused 5 Fixed
ok
ok
ok
ok
ok
ok 2
ok
ok
",
        ),
        AFTER,
        Once(
            "\
ok
ok
ok
ok
total hard 40 soft 17
ok
ok
",
        ),
        BEFORE,
        MEETS,
    ],
};

#[test]
fn a_draft_of_a_week_is_edited(rt: HostRuntime) -> Result<(), Fail> {
    must_go(&rt, rt.alloc(), &[&DRAFT])
}
