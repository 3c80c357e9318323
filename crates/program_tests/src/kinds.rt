//! Archives of each kind of constraint.

use crate::ends::must_answer;
use khe_base::NoMemory;
use program_runs::End;
use std::alloc::Global;
use std::process::Abort;
use std::test::Fail;
use std::thread::Threads;

/// The start of an archive with a day of five times, a resource and an event group.
const TIMES: &str = r#"<HighSchoolTimetableArchive>
<Instances><Instance Id="I">
<Times><TimeGroups><Day Id="day"/></TimeGroups>
<Time Id="t0"><Day Reference="day"/></Time><Time Id="t1"><Day Reference="day"/></Time><Time Id="t2"><Day Reference="day"/></Time>
<Time Id="t3"><Day Reference="day"/></Time><Time Id="t4"><Day Reference="day"/></Time></Times>
<Resources><ResourceTypes><ResourceType Id="X"/></ResourceTypes><Resource Id="r"><ResourceType Reference="X"/></Resource></Resources>
<Events><EventGroups><EventGroup Id="g"/></EventGroups>
"#;

/// The text between the events and the constraint.
const EVENTS_END: &str = "</Events>\n<Constraints>";

/// The first children of the constraint.
const COST: &str = "<Required>true</Required><Weight>1</Weight><CostFunction>Linear</CostFunction>";

/// The text between the constraint and the entries of the solution.
const CONSTRAINT_END: &str =
    "</Constraints>\n</Instance></Instances>\n<SolutionGroups><SolutionGroup Id=\"G\"><Solution Reference=\"I\"><Events>";

/// The text behind the entries.
const SOLUTION_END: &str =
    "</Events></Solution></SolutionGroup></SolutionGroups>\n</HighSchoolTimetableArchive>\n";

/// The events, the kind of the constraint, its further children, the entries of the solution, and of the only
/// monitor the point and the deviation.
type Measured = (
    &'static str,
    &'static str,
    &'static str,
    &'static str,
    &'static str,
    &'static str,
);

/// The test fails unless the only monitor's line has this point and this deviation, for an archive of these
/// events, one constraint of this kind, and one solution of these entries.
fn must_deviate<R: Threads + Sync + Abort>(
    rt: &R,
    alloc: Global,
    (events, kind, rule, entries, point, deviation): Measured,
) -> Result<(), NoMemory> {
    let start = format!(in alloc; "{TIMES}{events}{EVENTS_END}<{kind}Constraint Id=\"c\">{COST}")?;
    let end = format!(in alloc; "</{kind}Constraint>{CONSTRAINT_END}{entries}{SOLUTION_END}")?;
    let archive = format!(in alloc; "{start}{rule}{end}")?;
    let header = "archive instances 1 solutions 1\nsolution 0 group \"G\" instance \"I\"\n";
    let line = format!(in alloc;
        "monitor 0 {kind} \"c\" {point} deviation {deviation} hard {deviation}\n"
    )?;
    let text = format!(in alloc; "{header}{line}total hard {deviation} soft 0\n")?;
    let end = End {
        status: 0,
        text: text.as_str(),
    };
    must_answer(
        rt,
        alloc,
        &["evaluate", "archive", "--all"],
        archive.as_str(),
        end,
    )
}

fn must_deviate_all<R: Threads + Sync + Abort>(
    rt: &R,
    alloc: Global,
    rows: &[Measured],
) -> Result<(), Fail> {
    for row in rows {
        must_deviate(rt, alloc, *row)?;
    }
    Ok(())
}

/// Rows on kinds at events, groups and pairs of events.
const KINDS_OF_EVENTS: &[Measured] = &[
    (
        "<Event Id=\"E\"><Duration>5</Duration></Event>",
        "SplitEvents",
        "<AppliesTo><Events><Event Reference=\"E\"/></Events></AppliesTo><MinimumDuration>2</MinimumDuration><MaximumDuration>3</MaximumDuration><MinimumAmount>3</MinimumAmount><MaximumAmount>5</MaximumAmount>",
        "<Event Reference=\"E\"><Duration>1</Duration></Event><Event Reference=\"E\"><Duration>4</Duration></Event>",
        "event \"E\"",
        "3",
    ),
    (
        "<Event Id=\"E\"><Duration>2</Duration><EventGroups><EventGroup Reference=\"g\"/></EventGroups></Event><Event Id=\"F\"><Duration>2</Duration><EventGroups><EventGroup Reference=\"g\"/></EventGroups></Event>",
        "LinkEvents",
        "<AppliesTo><EventGroups><EventGroup Reference=\"g\"/></EventGroups></AppliesTo>",
        "<Event Reference=\"E\"><Time Reference=\"t1\"/></Event><Event Reference=\"F\"><Time Reference=\"t2\"/></Event>",
        "group \"g\"",
        "2",
    ),
    (
        "<Event Id=\"E\"><Duration>2</Duration><EventGroups><EventGroup Reference=\"g\"/></EventGroups></Event><Event Id=\"F\"><Duration>2</Duration><EventGroups><EventGroup Reference=\"g\"/></EventGroups></Event>",
        "LinkEvents",
        "<AppliesTo><EventGroups><EventGroup Reference=\"g\"/></EventGroups></AppliesTo>",
        "",
        "group \"g\"",
        "0",
    ),
    (
        "<Event Id=\"E\"><Duration>2</Duration><EventGroups><EventGroup Reference=\"g\"/></EventGroups></Event><Event Id=\"F\"><Duration>2</Duration><EventGroups><EventGroup Reference=\"g\"/></EventGroups></Event>",
        "OrderEvents",
        "<AppliesTo><EventPairs><EventPair><FirstEvent Reference=\"E\"/><SecondEvent Reference=\"F\"/><MinSeparation>0</MinSeparation><MaxSeparation>0</MaxSeparation></EventPair></EventPairs></AppliesTo>",
        "<Event Reference=\"E\"><Time Reference=\"t0\"/></Event><Event Reference=\"F\"><Time Reference=\"t2\"/></Event>",
        "events \"E\" \"F\"",
        "0",
    ),
    (
        "<Event Id=\"E\"><Duration>2</Duration><EventGroups><EventGroup Reference=\"g\"/></EventGroups></Event><Event Id=\"F\"><Duration>2</Duration><EventGroups><EventGroup Reference=\"g\"/></EventGroups></Event>",
        "OrderEvents",
        "<AppliesTo><EventPairs><EventPair><FirstEvent Reference=\"E\"/><SecondEvent Reference=\"F\"/><MinSeparation>0</MinSeparation><MaxSeparation>0</MaxSeparation></EventPair></EventPairs></AppliesTo>",
        "<Event Reference=\"E\"><Time Reference=\"t2\"/></Event><Event Reference=\"F\"><Time Reference=\"t0\"/></Event>",
        "events \"E\" \"F\"",
        "4",
    ),
    (
        "<Event Id=\"E\"><Duration>2</Duration><EventGroups><EventGroup Reference=\"g\"/></EventGroups></Event><Event Id=\"F\"><Duration>2</Duration><EventGroups><EventGroup Reference=\"g\"/></EventGroups></Event>",
        "OrderEvents",
        "<AppliesTo><EventPairs><EventPair><FirstEvent Reference=\"E\"/><SecondEvent Reference=\"F\"/><MinSeparation>0</MinSeparation><MaxSeparation>0</MaxSeparation></EventPair></EventPairs></AppliesTo>",
        "<Event Reference=\"E\"><Time Reference=\"t2\"/></Event>",
        "events \"E\" \"F\"",
        "0",
    ),
];

#[test]
fn measures_kinds_of_events(rt: HostRuntime) -> Result<(), Fail> {
    must_deviate_all(&rt, rt.alloc(), KINDS_OF_EVENTS)
}

/// Rows on kinds at resources.
const KINDS_OF_RESOURCES: &[Measured] = &[
    (
        "<Event Id=\"A\"><Duration>1</Duration><Time Reference=\"t0\"/><Resources><Resource Reference=\"r\"/></Resources></Event><Event Id=\"B\"><Duration>1</Duration><Time Reference=\"t2\"/><Resources><Resource Reference=\"r\"/></Resources></Event><Event Id=\"C\"><Duration>1</Duration><Time Reference=\"t4\"/><Resources><Resource Reference=\"r\"/></Resources></Event>",
        "LimitIdleTimes",
        "<AppliesTo><Resources><Resource Reference=\"r\"/></Resources></AppliesTo><TimeGroups><TimeGroup Reference=\"day\"/></TimeGroups><Minimum>0</Minimum><Maximum>0</Maximum>",
        "",
        "resource \"r\"",
        "2",
    ),
    (
        "<Event Id=\"A\"><Duration>1</Duration><Time Reference=\"t2\"/><Resources><Resource Reference=\"r\"/></Resources></Event>",
        "LimitIdleTimes",
        "<AppliesTo><Resources><Resource Reference=\"r\"/></Resources></AppliesTo><TimeGroups><TimeGroup Reference=\"day\"/></TimeGroups><Minimum>0</Minimum><Maximum>0</Maximum>",
        "",
        "resource \"r\"",
        "0",
    ),
    (
        "<Event Id=\"A\"><Duration>1</Duration><Time Reference=\"t2\"/><Resources><Resource Reference=\"r\"/></Resources></Event>",
        "LimitIdleTimes",
        "<AppliesTo><Resources><Resource Reference=\"r\"/></Resources></AppliesTo><TimeGroups><TimeGroup Reference=\"day\"/><TimeGroup Reference=\"day\"/></TimeGroups><Minimum>1</Minimum><Maximum>5</Maximum>",
        "",
        "resource \"r\"",
        "1",
    ),
    (
        "",
        "LimitBusyTimes",
        "<AppliesTo><Resources><Resource Reference=\"r\"/></Resources></AppliesTo><TimeGroups><TimeGroup Reference=\"day\"/></TimeGroups><Minimum>2</Minimum><Maximum>3</Maximum>",
        "",
        "resource \"r\"",
        "0",
    ),
    (
        "<Event Id=\"A\"><Duration>1</Duration><Time Reference=\"t2\"/><Resources><Resource Reference=\"r\"/></Resources></Event>",
        "LimitBusyTimes",
        "<AppliesTo><Resources><Resource Reference=\"r\"/></Resources></AppliesTo><TimeGroups><TimeGroup Reference=\"day\"/></TimeGroups><Minimum>2</Minimum><Maximum>3</Maximum>",
        "",
        "resource \"r\"",
        "1",
    ),
    (
        "<Event Id=\"E\"><Duration>3</Duration><Workload>4</Workload><Resources><Resource><Role>R</Role><ResourceType Reference=\"X\"/></Resource></Resources></Event>",
        "LimitWorkload",
        "<AppliesTo><Resources><Resource Reference=\"r\"/></Resources></AppliesTo><Minimum>0</Minimum><Maximum>1</Maximum>",
        "<Event Reference=\"E\"><Duration>1</Duration><Resources><Resource Reference=\"r\"><Role>R</Role></Resource></Resources></Event>",
        "resource \"r\"",
        "1",
    ),
    (
        "<Event Id=\"E\"><Duration>3</Duration><Workload>4</Workload><Resources><Resource><Role>R</Role><ResourceType Reference=\"X\"/></Resource></Resources></Event>",
        "LimitWorkload",
        "<AppliesTo><Resources><Resource Reference=\"r\"/></Resources></AppliesTo><Minimum>0</Minimum><Maximum>4</Maximum>",
        "<Event Reference=\"E\"><Duration>1</Duration><Resources><Resource Reference=\"r\"><Role>R</Role></Resource></Resources></Event><Event Reference=\"E\"><Duration>1</Duration><Resources><Resource Reference=\"r\"><Role>R</Role></Resource></Resources></Event><Event Reference=\"E\"><Duration>1</Duration><Resources><Resource Reference=\"r\"><Role>R</Role></Resource></Resources></Event>",
        "resource \"r\"",
        "0",
    ),
    (
        "<Event Id=\"E\"><Duration>3</Duration><Workload>4</Workload><Resources><Resource><Role>R</Role><ResourceType Reference=\"X\"/></Resource></Resources></Event>",
        "LimitWorkload",
        "<AppliesTo><Resources><Resource Reference=\"r\"/></Resources></AppliesTo><Minimum>2</Minimum><Maximum>3</Maximum>",
        "<Event Reference=\"E\"><Duration>1</Duration><Resources><Resource Reference=\"r\"><Role>R</Role></Resource></Resources></Event>",
        "resource \"r\"",
        "1",
    ),
    (
        "<Event Id=\"E\"><Duration>1</Duration><Time Reference=\"t1\"/><Resources><Resource Reference=\"r\"/><Resource Reference=\"r\"/></Resources></Event><Event Id=\"F\"><Duration>1</Duration><Time Reference=\"t1\"/><Resources><Resource Reference=\"r\"/></Resources></Event>",
        "AvoidClashes",
        "<AppliesTo><Resources><Resource Reference=\"r\"/></Resources></AppliesTo>",
        "",
        "resource \"r\"",
        "2",
    ),
];

#[test]
fn measures_kinds_of_resources(rt: HostRuntime) -> Result<(), Fail> {
    must_deviate_all(&rt, rt.alloc(), KINDS_OF_RESOURCES)
}
