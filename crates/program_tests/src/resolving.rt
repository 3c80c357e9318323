//! Archives whose names and references are resolved.

use crate::archives::replaced;
use crate::ends::must_answer;
use program_runs::End;
use std::alloc::Global;
use std::process::Abort;
use std::test::Fail;
use std::thread::Threads;

const EVALUATE: [&str; 2] = ["evaluate", "archive"];

/// An archive with each sort of name, of reference and of constraint. Its second instance has some
/// names of its first and some of its own.
const ARCHIVE: &str = r#"<HighSchoolTimetableArchive>
<Instances><Instance Id="I">
<Times><TimeGroups><Week Id="week"/><Day Id="day"/><TimeGroup Id="late"/></TimeGroups>
<Time Id="t0"><Week Reference="week"/><Day Reference="day"/></Time>
<Time Id="t1"><TimeGroups><TimeGroup Reference="late"/></TimeGroups></Time>
</Times>
<Resources><ResourceTypes><ResourceType Id="staff"/><ResourceType Id="room"/></ResourceTypes>
<ResourceGroups><ResourceGroup Id="staff"><ResourceType Reference="staff"/></ResourceGroup><ResourceGroup Id="rooms"><ResourceType Reference="room"/></ResourceGroup></ResourceGroups>
<Resource Id="p0"><ResourceType Reference="staff"/><ResourceGroups><ResourceGroup Reference="staff"/></ResourceGroups></Resource>
<Resource Id="q0"><ResourceType Reference="room"/></Resource></Resources>
<Events><EventGroups><Course Id="course"/><EventGroup Id="all"/></EventGroups>
<Event Id="E"><Duration>1</Duration><Course Reference="course"/><Time Reference="t1"/>
<Resources><Resource Reference="q0"/><Resource Reference="q0"><Role>S</Role></Resource><Resource><Role>R</Role><ResourceType Reference="staff"/></Resource></Resources>
<ResourceGroups><ResourceGroup Reference="staff"/></ResourceGroups><EventGroups><EventGroup Reference="all"/></EventGroups></Event>
<Event Id="F"><Duration>2</Duration><Resources><Resource><Role>R</Role><ResourceType Reference="staff"/></Resource></Resources></Event></Events>
<Constraints>
<AssignTimeConstraint Id="c1"><AppliesTo><EventGroups><EventGroup Reference="all"/></EventGroups><Events><Event Reference="E"/></Events></AppliesTo><Required>true</Required><Weight>1</Weight><CostFunction>Linear</CostFunction></AssignTimeConstraint>
<AssignResourceConstraint Id="c2"><AppliesTo><EventGroups><EventGroup Reference="all"/></EventGroups><Events><Event Reference="E"/></Events></AppliesTo><Role>R</Role><Required>true</Required><Weight>1</Weight><CostFunction>Linear</CostFunction></AssignResourceConstraint>
<SplitEventsConstraint Id="c3"><AppliesTo><EventGroups><EventGroup Reference="all"/></EventGroups><Events><Event Reference="E"/></Events></AppliesTo><Required>true</Required><Weight>1</Weight><CostFunction>Linear</CostFunction></SplitEventsConstraint>
<DistributeSplitEventsConstraint Id="c4"><AppliesTo><EventGroups><EventGroup Reference="all"/></EventGroups><Events><Event Reference="E"/></Events></AppliesTo><Duration>1</Duration><Required>true</Required><Weight>1</Weight><CostFunction>Linear</CostFunction></DistributeSplitEventsConstraint>
<PreferTimesConstraint Id="c5"><AppliesTo><EventGroups><EventGroup Reference="all"/></EventGroups><Events><Event Reference="E"/></Events></AppliesTo><TimeGroups><TimeGroup Reference="late"/></TimeGroups><Times><Time Reference="t0"/></Times><Required>true</Required><Weight>1</Weight><CostFunction>Linear</CostFunction></PreferTimesConstraint>
<PreferResourcesConstraint Id="c6"><AppliesTo><EventGroups><EventGroup Reference="all"/></EventGroups><Events><Event Reference="E"/></Events></AppliesTo><ResourceGroups><ResourceGroup Reference="staff"/></ResourceGroups><Resources><Resource Reference="p0"/></Resources><Role>R</Role><Required>true</Required><Weight>1</Weight><CostFunction>Linear</CostFunction></PreferResourcesConstraint>
<AvoidSplitAssignmentsConstraint Id="c7"><AppliesTo><EventGroups><EventGroup Reference="course"/></EventGroups></AppliesTo><Role>R</Role><Required>true</Required><Weight>1</Weight><CostFunction>Linear</CostFunction></AvoidSplitAssignmentsConstraint>
<SpreadEventsConstraint Id="c8"><AppliesTo><EventGroups><EventGroup Reference="course"/></EventGroups></AppliesTo><TimeGroups><TimeGroup Reference="late"/></TimeGroups><Required>true</Required><Weight>1</Weight><CostFunction>Linear</CostFunction></SpreadEventsConstraint>
<LinkEventsConstraint Id="c9"><AppliesTo><EventGroups><EventGroup Reference="course"/></EventGroups></AppliesTo><Required>true</Required><Weight>1</Weight><CostFunction>Linear</CostFunction></LinkEventsConstraint>
<OrderEventsConstraint Id="c10"><AppliesTo><EventPairs><EventPair><FirstEvent Reference="E"/><SecondEvent Reference="F"/></EventPair></EventPairs></AppliesTo><Required>true</Required><Weight>1</Weight><CostFunction>Linear</CostFunction></OrderEventsConstraint>
<AvoidClashesConstraint Id="c11"><AppliesTo><ResourceGroups><ResourceGroup Reference="staff"/></ResourceGroups><Resources><Resource Reference="q0"/></Resources></AppliesTo><Required>true</Required><Weight>1</Weight><CostFunction>Linear</CostFunction></AvoidClashesConstraint>
<AvoidUnavailableTimesConstraint Id="c12"><AppliesTo><ResourceGroups><ResourceGroup Reference="staff"/></ResourceGroups><Resources><Resource Reference="q0"/></Resources></AppliesTo><TimeGroups><TimeGroup Reference="late"/></TimeGroups><Times><Time Reference="t0"/></Times><Required>true</Required><Weight>1</Weight><CostFunction>Linear</CostFunction></AvoidUnavailableTimesConstraint>
<LimitIdleTimesConstraint Id="c13"><AppliesTo><ResourceGroups><ResourceGroup Reference="staff"/></ResourceGroups><Resources><Resource Reference="q0"/></Resources></AppliesTo><TimeGroups><TimeGroup Reference="late"/></TimeGroups><Required>true</Required><Weight>1</Weight><CostFunction>Linear</CostFunction></LimitIdleTimesConstraint>
<ClusterBusyTimesConstraint Id="c14"><AppliesTo><ResourceGroups><ResourceGroup Reference="staff"/></ResourceGroups><Resources><Resource Reference="q0"/></Resources></AppliesTo><TimeGroups><TimeGroup Reference="late"/></TimeGroups><Required>true</Required><Weight>1</Weight><CostFunction>Linear</CostFunction></ClusterBusyTimesConstraint>
<LimitBusyTimesConstraint Id="c15"><AppliesTo><ResourceGroups><ResourceGroup Reference="staff"/></ResourceGroups><Resources><Resource Reference="q0"/></Resources></AppliesTo><TimeGroups><TimeGroup Reference="late"/></TimeGroups><Required>true</Required><Weight>1</Weight><CostFunction>Linear</CostFunction></LimitBusyTimesConstraint>
<LimitWorkloadConstraint Id="c16"><AppliesTo><ResourceGroups><ResourceGroup Reference="staff"/></ResourceGroups><Resources><Resource Reference="q0"/></Resources></AppliesTo><Required>true</Required><Weight>1</Weight><CostFunction>Linear</CostFunction></LimitWorkloadConstraint>
</Constraints>
</Instance>
<Instance Id="J"><Events><Event Id="E"><Duration>1</Duration></Event><Event Id="G"><Duration>1</Duration></Event></Events><Times><Time Id="t0"/><Time Id="t9"/></Times></Instance></Instances>
<SolutionGroups><SolutionGroup Id="I"><Solution Reference="I"><Events>
<Event Reference="F"><Time Reference="t0"/><Resources><Resource Reference="p0"><Role>R</Role></Resource></Resources></Event>
</Events></Solution></SolutionGroup><SolutionGroup Id="J"><Solution Reference="J"/></SolutionGroup></SolutionGroups>
</HighSchoolTimetableArchive>
"#;

/// Text behind which the archive is changed, the part of it that goes, what comes in its place, and the fault.
type Change = (&'static str, &'static str, &'static str, &'static str);

/// Text behind which a reference is looked for, how the reference begins, and the place of the fault where
/// its name has other letters in front.
type Unknown = (&'static str, &'static str, &'static str);

/// The test fails unless the archive is refused with this fault, where `other` stands in place of the first
/// `part` behind the first `after`.
fn must_refuse<R: Threads + Sync + Abort>(
    rt: &R,
    alloc: Global,
    (after, part, other, fault): (&str, &str, &str, &str),
) -> Result<(), Fail> {
    let archive = replaced(alloc, ARCHIVE, after, part, other)?.ok_or("no such part")?;
    let text = format!(in alloc; "khe: archive refused: {fault}\n")?;
    let end = End {
        status: 3,
        text: text.as_str(),
    };
    must_answer(rt, alloc, &EVALUATE, archive.as_str(), end)?;
    Ok(())
}

fn must_refuse_all<R: Threads + Sync + Abort>(
    rt: &R,
    alloc: Global,
    changes: &[Change],
) -> Result<(), Fail> {
    for change in changes {
        must_refuse(rt, alloc, *change)?;
    }
    Ok(())
}

/// The test fails unless the archive is refused for an unknown reference.
fn must_be_unknown<R: Threads + Sync + Abort>(
    rt: &R,
    alloc: Global,
    (after, part, place): Unknown,
) -> Result<(), Fail> {
    let other = format!(in alloc; "{part}un")?;
    let fault = format!(in alloc; "13 UnknownReference at {place}")?;
    must_refuse(rt, alloc, (after, part, other.as_str(), fault.as_str()))
}

fn must_be_unknown_all<R: Threads + Sync + Abort>(
    rt: &R,
    alloc: Global,
    references: &[Unknown],
) -> Result<(), Fail> {
    for reference in references {
        must_be_unknown(rt, alloc, *reference)?;
    }
    Ok(())
}

#[test]
fn accepts_the_archive(rt: HostRuntime) -> Result<(), Fail> {
    let text =
        "archive instances 2 solutions 2\nsolution 0 group \"I\" instance \"I\"\nmonitor 1 AssignResource \"c2\" event \"E\" role \"R\" deviation 1 hard 1\nmonitor 9 OrderEvents \"c10\" events \"E\" \"F\" deviation 2 hard 2\nmonitor 10 AvoidClashes \"c11\" resource \"p0\" deviation 1 hard 1\nmonitor 11 AvoidClashes \"c11\" resource \"q0\" deviation 1 hard 1\nmonitor 12 AvoidUnavailableTimes \"c12\" resource \"p0\" deviation 2 hard 2\nmonitor 13 AvoidUnavailableTimes \"c12\" resource \"q0\" deviation 1 hard 1\ntotal hard 8 soft 0\nsolution 1 group \"J\" instance \"J\"\ntotal hard 0 soft 0\n";
    let end = End {
        status: 0,
        text: text,
    };
    must_answer(&rt, rt.alloc(), &EVALUATE, ARCHIVE, end)?;
    Ok(())
}

/// Names that came before in their class.
const REPEATED_NAMES: &[Change] = &[
    (
        "",
        "Instance Id=\"J\"",
        "Instance Id=\"I\"",
        "12 DuplicateId at 6188",
    ),
    (
        "",
        "SolutionGroup Id=\"J\"",
        "SolutionGroup Id=\"I\"",
        "12 DuplicateId at 6616",
    ),
    (
        "",
        "Day Id=\"day\"",
        "Day Id=\"week\"",
        "12 DuplicateId at 103",
    ),
    (
        "",
        "TimeGroup Id=\"late\"",
        "TimeGroup Id=\"day\"",
        "12 DuplicateId at 124",
    ),
    (
        "",
        "TimeGroup Id=\"late\"",
        "TimeGroup Id=\"week\"",
        "12 DuplicateId at 124",
    ),
    (
        "",
        "Time Id=\"t1\"",
        "Time Id=\"t0\"",
        "12 DuplicateId at 223",
    ),
    (
        "",
        "ResourceType Id=\"room\"",
        "ResourceType Id=\"staff\"",
        "12 DuplicateId at 368",
    ),
    (
        "",
        "ResourceGroup Id=\"rooms\"",
        "ResourceGroup Id=\"staff\"",
        "12 DuplicateId at 502",
    ),
    (
        "",
        "Resource Id=\"q0\"",
        "Resource Id=\"p0\"",
        "12 DuplicateId at 719",
    ),
    (
        "",
        "EventGroup Id=\"all\"",
        "EventGroup Id=\"course\"",
        "12 DuplicateId at 837",
    ),
    (
        "",
        "Event Id=\"F\"",
        "Event Id=\"E\"",
        "12 DuplicateId at 1256",
    ),
    (
        "",
        "Event Id=\"F\"",
        "Event Id=\"&#69;\"",
        "12 DuplicateId at 1256",
    ),
    (
        "",
        "Constraint Id=\"c16\"",
        "Constraint Id=\"c1\"",
        "12 DuplicateId at 5898",
    ),
    (
        "Instance Id=\"J\"",
        "Event Id=\"G\"",
        "Event Id=\"E\"",
        "12 DuplicateId at 6254",
    ),
    (
        "Instance Id=\"J\"",
        "Time Id=\"t9\"",
        "Time Id=\"t0\"",
        "12 DuplicateId at 6328",
    ),
];

#[test]
fn refuses_repeated_names(rt: HostRuntime) -> Result<(), Fail> {
    must_refuse_all(&rt, rt.alloc(), REPEATED_NAMES)
}

/// References of times, resources and events.
const UNKNOWN_IN_THE_INSTANCE: &[Unknown] = &[
    ("<Time Id=\"t0\"", "Week Reference=\"", "176"),
    ("<Time Id=\"t0\"", "Day Reference=\"", "199"),
    ("<Time Id=\"t1\"", "TimeGroup Reference=\"", "261"),
    (
        "ResourceGroup Id=\"staff\"",
        "ResourceType Reference=\"",
        "459",
    ),
    ("Resource Id=\"p0\"", "ResourceType Reference=\"", "618"),
    ("Resource Id=\"p0\"", "ResourceGroup Reference=\"", "668"),
    ("Event Id=\"E\"", "Course Reference=\"", "913"),
    ("Event Id=\"E\"", "Time Reference=\"", "939"),
    ("Event Id=\"E\"", "Resource Reference=\"", "977"),
    ("Event Id=\"E\"", "ResourceType Reference=\"", "1081"),
    ("Event Id=\"E\"", "ResourceGroup Reference=\"", "1155"),
    ("Event Id=\"E\"", "EventGroup Reference=\"", "1216"),
];

#[test]
fn refuses_unknown_names_in_the_instance(rt: HostRuntime) -> Result<(), Fail> {
    must_be_unknown_all(&rt, rt.alloc(), UNKNOWN_IN_THE_INSTANCE)
}

/// References of what constraints of events apply to.
const UNKNOWN_AT_EVENTS: &[Unknown] = &[
    ("\"c1\"", "EventGroup Reference=\"", "1481"),
    ("\"c1\"", "Event Reference=\"", "1527"),
    ("\"c2\"", "EventGroup Reference=\"", "1735"),
    ("\"c2\"", "Event Reference=\"", "1781"),
    ("\"c3\"", "EventGroup Reference=\"", "2004"),
    ("\"c3\"", "Event Reference=\"", "2050"),
    ("\"c4\"", "EventGroup Reference=\"", "2266"),
    ("\"c4\"", "Event Reference=\"", "2312"),
    ("\"c5\"", "EventGroup Reference=\"", "2550"),
    ("\"c5\"", "Event Reference=\"", "2596"),
    ("\"c6\"", "EventGroup Reference=\"", "2897"),
    ("\"c6\"", "Event Reference=\"", "2943"),
    ("\"c7\"", "EventGroup Reference=\"", "3293"),
    ("\"c8\"", "EventGroup Reference=\"", "3534"),
    ("\"c9\"", "EventGroup Reference=\"", "3804"),
];

#[test]
fn refuses_unknown_names_in_constraints_of_events(rt: HostRuntime) -> Result<(), Fail> {
    must_be_unknown_all(&rt, rt.alloc(), UNKNOWN_AT_EVENTS)
}

/// References of what constraints of resources and of pairs of events apply to.
const UNKNOWN_AT_RESOURCES: &[Unknown] = &[
    ("\"c10\"", "FirstEvent Reference=\"", "4030"),
    ("\"c10\"", "SecondEvent Reference=\"", "4058"),
    ("\"c11\"", "ResourceGroup Reference=\"", "4288"),
    ("\"c11\"", "Resource Reference=\"", "4345"),
    ("\"c12\"", "ResourceGroup Reference=\"", "4573"),
    ("\"c12\"", "Resource Reference=\"", "4630"),
    ("\"c13\"", "ResourceGroup Reference=\"", "4951"),
    ("\"c13\"", "Resource Reference=\"", "5008"),
    ("\"c14\"", "ResourceGroup Reference=\"", "5287"),
    ("\"c14\"", "Resource Reference=\"", "5344"),
    ("\"c15\"", "ResourceGroup Reference=\"", "5623"),
    ("\"c15\"", "Resource Reference=\"", "5680"),
    ("\"c16\"", "ResourceGroup Reference=\"", "5956"),
    ("\"c16\"", "Resource Reference=\"", "6013"),
];

#[test]
fn refuses_unknown_names_in_constraints_of_resources(rt: HostRuntime) -> Result<(), Fail> {
    must_be_unknown_all(&rt, rt.alloc(), UNKNOWN_AT_RESOURCES)
}

/// References of what constraints are about, and of solutions.
const UNKNOWN_IN_RULES: &[Unknown] = &[
    ("\"c5\"", "TimeGroup Reference=\"", "2655"),
    ("\"c5\"", "Time Reference=\"", "2699"),
    ("\"c6\"", "ResourceGroup Reference=\"", "3010"),
    ("\"c6\"", "Resource Reference=\"", "3067"),
    ("\"c8\"", "TimeGroup Reference=\"", "3603"),
    ("\"c12\"", "TimeGroup Reference=\"", "4693"),
    ("\"c12\"", "Time Reference=\"", "4737"),
    ("\"c13\"", "TimeGroup Reference=\"", "5071"),
    ("\"c14\"", "TimeGroup Reference=\"", "5407"),
    ("\"c15\"", "TimeGroup Reference=\"", "5743"),
    ("<SolutionGroups>", "<Solution Reference=\"", "6424"),
    ("<SolutionGroups>", "Event Reference=\"", "6454"),
    ("<SolutionGroups>", "Time Reference=\"", "6474"),
    ("<SolutionGroups>", "Resource Reference=\"", "6511"),
];

#[test]
fn refuses_unknown_names_in_rules_and_solutions(rt: HostRuntime) -> Result<(), Fail> {
    must_be_unknown_all(&rt, rt.alloc(), UNKNOWN_IN_RULES)
}

/// References to names of another sort, or of another instance.
const OTHER_SORTS: &[Change] = &[
    (
        "<Time Id=\"t0\"",
        "Week Reference=\"week\"",
        "Week Reference=\"day\"",
        "13 UnknownReference at 176",
    ),
    (
        "<Time Id=\"t0\"",
        "Day Reference=\"day\"",
        "Day Reference=\"late\"",
        "13 UnknownReference at 199",
    ),
    (
        "",
        "Course Reference=\"course\"",
        "Course Reference=\"all\"",
        "13 UnknownReference at 913",
    ),
    (
        "Resource Id=\"p0\"",
        "ResourceType Reference=\"staff\"",
        "ResourceType Reference=\"rooms\"",
        "13 UnknownReference at 618",
    ),
    (
        "Event Id=\"E\"",
        "Time Reference=\"t1\"",
        "Time Reference=\"t9\"",
        "13 UnknownReference at 939",
    ),
    (
        "\"c1\"",
        "Event Reference=\"E\"",
        "Event Reference=\"G\"",
        "13 UnknownReference at 1527",
    ),
    (
        "\"c1\"",
        "Event Reference=\"E\"",
        "Event Reference=\"e\"",
        "13 UnknownReference at 1527",
    ),
    (
        "\"c1\"",
        "Event Reference=\"E\"",
        "Event Reference=\" E\"",
        "13 UnknownReference at 1527",
    ),
    (
        "\"c1\"",
        "Event Reference=\"E\"",
        "Event Reference=\"\"",
        "13 UnknownReference at 1527",
    ),
    (
        "<SolutionGroups>",
        "Event Reference=\"F\"",
        "Event Reference=\"G\"",
        "13 UnknownReference at 6454",
    ),
    (
        "<SolutionGroups>",
        "Time Reference=\"t0\"",
        "Time Reference=\"t9\"",
        "13 UnknownReference at 6474",
    ),
    (
        "<SolutionGroups>",
        "Resource Reference=\"p0\"",
        "Resource Reference=\"staff\"",
        "13 UnknownReference at 6511",
    ),
    (
        "<SolutionGroups>",
        "<Solution Reference=\"J\"/>",
        "<Solution Reference=\"J\"><Events><Event Reference=\"F\"/></Events></Solution>",
        "13 UnknownReference at 6669",
    ),
];

#[test]
fn refuses_names_of_other_sorts_and_instances(rt: HostRuntime) -> Result<(), Fail> {
    must_refuse_all(&rt, rt.alloc(), OTHER_SORTS)
}

/// Roles that came before in their event, and events that run past the last time.
const ROLES_AND_ENDS: &[Change] = &[
    (
        "",
        "<Role>S</Role>",
        "<Role>R</Role>",
        "14 DuplicateRole at 1048",
    ),
    (
        "",
        "<Role>S</Role>",
        "<Role> R\n</Role>",
        "14 DuplicateRole at 1050",
    ),
    (
        "",
        "<Role>S</Role>",
        "<Role>&#82;</Role>",
        "14 DuplicateRole at 1052",
    ),
    (
        "",
        "<Role>S</Role>",
        "<Role>&#32;R<!-- r --></Role>",
        "14 DuplicateRole at 1063",
    ),
    (
        "",
        "<Resource Reference=\"q0\"/>",
        "<Resource Reference=\"q0\"><Role>S</Role></Resource>",
        "14 DuplicateRole at 1037",
    ),
    (
        "Event Id=\"F\"",
        "<Role>R</Role>",
        "<Role>Q</Role><ResourceType Reference=\"staff\"/></Resource><Resource><Role>R</Role><ResourceType Reference=\"staff\"/></Resource><Resource><Role>Q</Role>",
        "14 DuplicateRole at 1444",
    ),
    (
        "Event Id=\"F\"",
        "</Resource>",
        "</Resource><Resource><Role>R</Role><ResourceType Reference=\"staff\"/></Resource><Resource><Role>R</Role><ResourceType Reference=\"staff\"/></Resource>",
        "14 DuplicateRole at 1376",
    ),
    (
        "Event Id=\"E\"",
        "<Duration>1<",
        "<Duration>2<",
        "15 EventOffEnd at 939",
    ),
    (
        "Event Id=\"F\"",
        "<Duration>2</Duration>",
        "<Duration>2</Duration><Time Reference=\"t1\"/>",
        "15 EventOffEnd at 1298",
    ),
    (
        "Event Id=\"F\"",
        "<Duration>2</Duration>",
        "<Time Reference=\"t0\"/><Duration>1000000</Duration>",
        "15 EventOffEnd at 1276",
    ),
];

#[test]
fn refuses_repeated_roles_and_late_events(rt: HostRuntime) -> Result<(), Fail> {
    must_refuse_all(&rt, rt.alloc(), ROLES_AND_ENDS)
}

/// Instances above a limit.
const TOO_MUCH: &[Change] = &[
    (
        "Event Id=\"F\"",
        "<Duration>2<",
        "<Duration>100000<",
        "16 Limit duration 100001",
    ),
    (
        "Event Id=\"F\"",
        "<Duration>2<",
        "<Duration>1000000<",
        "16 Limit duration 1000001",
    ),
    (
        "Event Id=\"F\"",
        "<Duration>2</Duration><Resources>",
        "<Duration>99999</Duration><Resources><Resource><Role>A</Role><ResourceType Reference=\"staff\"/></Resource><Resource><Role>B</Role><ResourceType Reference=\"staff\"/></Resource><Resource><Role>C</Role><ResourceType Reference=\"staff\"/></Resource><Resource><Role>D</Role><ResourceType Reference=\"staff\"/></Resource>",
        "16 Limit tasks 499999",
    ),
    (
        "Event Id=\"F\"",
        "<Duration>2</Duration><Resources>",
        "<Duration>99999</Duration><ResourceGroups><ResourceGroup Reference=\"staff\"/><ResourceGroup Reference=\"staff\"/><ResourceGroup Reference=\"staff\"/><ResourceGroup Reference=\"staff\"/></ResourceGroups><Resources>",
        "16 Limit tasks 499999",
    ),
    (
        "Event Id=\"F\"",
        "<Duration>2</Duration><Resources>",
        "<Duration>100000</Duration><Resources><Resource><Role>A</Role><ResourceType Reference=\"staff\"/></Resource><Resource><Role>B</Role><ResourceType Reference=\"staff\"/></Resource>",
        "16 Limit duration 100001",
    ),
    (
        "Instance Id=\"J\"",
        "<Duration>1<",
        "<Duration>100000<",
        "16 Limit duration 100001",
    ),
    (
        "<Instance Id=\"J\">",
        "<Events>",
        "<Events><Event Id=\"a\"><Duration>9973</Duration></Event><Event Id=\"b\"><Duration>9967</Duration></Event><Event Id=\"c\"><Duration>9949</Duration></Event><Event Id=\"d\"><Duration>9941</Duration></Event><Event Id=\"e\"><Duration>9931</Duration></Event>",
        "16 Limit unit 97632129913824699689",
    ),
];

#[test]
fn refuses_too_much(rt: HostRuntime) -> Result<(), Fail> {
    must_refuse_all(&rt, rt.alloc(), TOO_MUCH)
}

/// Archives of two faults, of which the first is told.
const FIRST_FAULTS: &[Change] = &[
    (
        "",
        "<Instances>",
        "<Instances><Instance Id=\"J\"><Times><Time Id=\"t\"/><Time Id=\"t\"/></Times></Instance>",
        "12 DuplicateId at 6259",
    ),
    (
        "Instance Id=\"J\"",
        "\"t9\"/></Times></Instance></Instances>\n<SolutionGroups>",
        "\"t0\"/></Times></Instance></Instances>\n<SolutionGroups><SolutionGroup Id=\"J\"/>",
        "12 DuplicateId at 6639",
    ),
    (
        "",
        "<Instances>",
        "<Instances><Instance Id=\"K\"><Events><Event Id=\"E\"><Duration>1000000</Duration></Event></Events></Instance><Instance Id=\"L\"><Times><Time Id=\"t\"/><Time Id=\"t\"/></Times></Instance>",
        "16 Limit duration 1000000",
    ),
    (
        "Instance Id=\"J\"",
        "\"t9\"/></Times></Instance></Instances>\n<SolutionGroups><SolutionGroup Id=\"I\"><Solution Reference=\"I\"",
        "\"t0\"/></Times></Instance></Instances>\n<SolutionGroups><SolutionGroup Id=\"I\"><Solution Reference=\"K\"",
        "12 DuplicateId at 6328",
    ),
    (
        "",
        "<Week Reference=\"week\"/><Day Reference=\"day\"/></Time>",
        "<Week Reference=\"no\"/></Time><Time Id=\"t0\"/>",
        "12 DuplicateId at 198",
    ),
    (
        "Instance Id=\"J\"",
        "\"G\"><Duration>1</Duration></Event></Events><Times><Time Id=\"t0\"/><Time Id=\"t9\"",
        "\"E\"><Duration>1</Duration></Event></Events><Times><Time Id=\"t0\"/><Time Id=\"t0\"",
        "12 DuplicateId at 6254",
    ),
    (
        "",
        "<Course Reference=\"course\"/><Time Reference=\"t1\"/>",
        "<Time Reference=\"no\"/><Course Reference=\"no\"/>",
        "13 UnknownReference at 911",
    ),
    (
        "<SolutionGroups>",
        "Event Reference=\"F\"><Time Reference=\"t0\"",
        "Event Reference=\"no\"><Time Reference=\"no\"",
        "13 UnknownReference at 6454",
    ),
    (
        "Event Id=\"F\"",
        "<Duration>2</Duration><Resources>",
        "<Duration>2</Duration><EventGroups><EventGroup Reference=\"no\"/></EventGroups><Resources><Resource><Role>R</Role><ResourceType Reference=\"staff\"/></Resource>",
        "13 UnknownReference at 1317",
    ),
    (
        "Event Id=\"F\"",
        "<Duration>2</Duration><Resources>",
        "<Duration>2</Duration><Time Reference=\"t1\"/><Resources><Resource><Role>R</Role><ResourceType Reference=\"staff\"/></Resource>",
        "14 DuplicateRole at 1398",
    ),
    (
        "Event Id=\"E\"",
        "<Duration>1</Duration>",
        "<Duration>1000000</Duration>",
        "15 EventOffEnd at 945",
    ),
    (
        "Event Id=\"F\"",
        "<Duration>2</Duration><Resources>",
        "<Duration>1000000</Duration><Resources><Resource><Role>R</Role><ResourceType Reference=\"staff\"/></Resource>",
        "14 DuplicateRole at 1382",
    ),
];

#[test]
fn tells_the_first_fault(rt: HostRuntime) -> Result<(), Fail> {
    must_refuse_all(&rt, rt.alloc(), FIRST_FAULTS)
}
