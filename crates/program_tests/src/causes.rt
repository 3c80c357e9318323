//! Solutions that are invalid, each for its cause.

use crate::archives::replaced;
use crate::ends::must_answer;
use program_runs::{End, TWO_EVENTS};
use std::alloc::Global;
use std::process::Abort;
use std::test::Fail;
use std::thread::Threads;

/// An archive of an event with a time and resources of its own, of an event without them, and of two
/// empty solutions.
const OWN_AND_OPEN: &str = r#"<HighSchoolTimetableArchive>
<Instances><Instance Id="I">
<Times><Time Id="t0"/><Time Id="t1"/><Time Id="t2"/></Times>
<Resources><ResourceTypes><ResourceType Id="X"/><ResourceType Id="Y"/></ResourceTypes>
<Resource Id="x0"><ResourceType Reference="X"/></Resource>
<Resource Id="x1"><ResourceType Reference="X"/></Resource>
<Resource Id="y0"><ResourceType Reference="Y"/></Resource></Resources>
<Events>
<Event Id="E"><Duration>2</Duration><Time Reference="t1"/><Resources><Resource Reference="x0"/><Resource Reference="x1"><Role>P</Role></Resource>
<Resource><Role>R</Role><ResourceType Reference="X"/></Resource></Resources></Event>
<Event Id="F"><Duration>2</Duration><Resources><Resource><Role>R</Role><ResourceType Reference="X"/></Resource></Resources></Event>
</Events>
<Constraints>
<AssignTimeConstraint Id="time"><Required>true</Required><Weight>1</Weight><CostFunction>Linear</CostFunction>
<AppliesTo><Events><Event Reference="E"/><Event Reference="F"/></Events></AppliesTo></AssignTimeConstraint>
<AssignResourceConstraint Id="room"><Required>true</Required><Weight>10</Weight><CostFunction>Linear</CostFunction>
<AppliesTo><Events><Event Reference="E"/><Event Reference="F"/></Events></AppliesTo><Role>R</Role></AssignResourceConstraint>
</Constraints>
</Instance></Instances>
<SolutionGroups><SolutionGroup Id="G"><Solution Reference="I"/><Solution Reference="I"/></SolutionGroup></SolutionGroups>
</HighSchoolTimetableArchive>
"#;

/// What is told of an empty solution of that archive.
const EMPTY: &str =
    "monitor 1 AssignTime \"time\" event \"F\" deviation 2 hard 2\nmonitor 2 AssignResource \"room\" event \"E\" role \"R\" deviation 2 hard 20\nmonitor 3 AssignResource \"room\" event \"F\" role \"R\" deviation 2 hard 20\ntotal hard 42 soft 0\n";

/// The entries of a solution, and the lines that are told of it.
type Told = (&'static str, &'static str);

/// The test fails unless these lines are told of the first solution of that archive where it has these
/// entries, and of the second one what is told of an empty solution.
fn must_tell<R: Threads + Sync + Abort>(
    rt: &R,
    alloc: Global,
    (entries, lines): Told,
) -> Result<(), Fail> {
    let other = format!(in alloc;
        "<Solution Reference=\"I\"><Events>{entries}</Events></Solution>"
    )?;
    let part = "<Solution Reference=\"I\"/>";
    let archive = replaced(alloc, OWN_AND_OPEN, "", part, other.as_str())?.ok_or("no such part")?;
    let first = "archive instances 1 solutions 2\nsolution 0 group \"G\" instance \"I\"\n";
    let second = "solution 1 group \"G\" instance \"I\"\n";
    let text = format!(in alloc; "{first}{lines}{second}{EMPTY}")?;
    let end = End {
        status: 0,
        text: text.as_str(),
    };
    must_answer(rt, alloc, &["evaluate", "archive"], archive.as_str(), end)?;
    Ok(())
}

fn must_tell_all<R: Threads + Sync + Abort>(
    rt: &R,
    alloc: Global,
    rows: &[Told],
) -> Result<(), Fail> {
    for row in rows {
        must_tell(rt, alloc, *row)?;
    }
    Ok(())
}

/// Entries that are invalid for their times or durations.
const TIMES_AND_DURATIONS: &[Told] = &[
    (
        "<Event Reference=\"F\"><Duration>3</Duration></Event>",
        "invalid 1 TooLong entry 0\n",
    ),
    (
        "<Event Reference=\"F\"><Duration>1</Duration></Event><Event Reference=\"F\"><Duration>2</Duration></Event>",
        "invalid 1 TooLong entry 1\n",
    ),
    (
        "<Event Reference=\"F\"><Duration>1</Duration></Event><Event Reference=\"E\"/><Event Reference=\"F\"/>",
        "invalid 1 TooLong entry 2\n",
    ),
    (
        "<Event Reference=\"E\"><Duration>1</Duration></Event>",
        "invalid 2 SplitFixed entry 0\n",
    ),
    (
        "<Event Reference=\"F\"/><Event Reference=\"E\"><Duration>1</Duration></Event><Event Reference=\"E\"><Duration>1</Duration></Event>",
        "invalid 2 SplitFixed entry 1\n",
    ),
    (
        "<Event Reference=\"E\"/><Event Reference=\"E\"><Duration>1</Duration></Event>",
        "invalid 1 TooLong entry 1\n",
    ),
    (
        "<Event Reference=\"E\"><Time Reference=\"t0\"/></Event>",
        "invalid 3 FixedTime entry 0\n",
    ),
    (
        "<Event Reference=\"E\"><Duration>2</Duration><Time Reference=\"t2\"/></Event>",
        "invalid 3 FixedTime entry 0\n",
    ),
    (
        "<Event Reference=\"F\"><Duration>1</Duration><Time Reference=\"t2\"/></Event><Event Reference=\"F\"><Duration>1</Duration><Time Reference=\"t1\"/></Event><Event Reference=\"F\"><Duration>1</Duration><Time Reference=\"t1\"/></Event>",
        "invalid 1 TooLong entry 2\n",
    ),
    (
        "<Event Reference=\"F\"><Duration>2</Duration><Time Reference=\"t2\"/></Event>",
        "invalid 4 OffEnd entry 0\n",
    ),
    (
        "<Event Reference=\"E\"/><Event Reference=\"F\"><Time Reference=\"t2\"/><Resources><Resource Reference=\"y0\"><Role>R</Role></Resource></Resources></Event>",
        "invalid 4 OffEnd entry 1\n",
    ),
    (
        "<Event Reference=\"E\"><Duration>3</Duration><Time Reference=\"t0\"/></Event>",
        "invalid 1 TooLong entry 0\n",
    ),
    (
        "<Event Reference=\"E\"><Duration>1</Duration><Time Reference=\"t0\"/><Resources><Resource Reference=\"y0\"><Role>R</Role></Resource></Resources></Event>",
        "invalid 2 SplitFixed entry 0\n",
    ),
];

#[test]
fn names_the_causes_of_times_and_durations(rt: HostRuntime) -> Result<(), Fail> {
    must_tell_all(&rt, rt.alloc(), TIMES_AND_DURATIONS)
}

/// Entries that are invalid for their resources.
const RESOURCES: &[Told] = &[
    (
        "<Event Reference=\"F\"><Resources><Resource Reference=\"x0\"><Role>Q</Role></Resource></Resources></Event>",
        "invalid 5 BadRole entry 0\n",
    ),
    (
        "<Event Reference=\"F\"><Resources><Resource Reference=\"x0\"/></Resources></Event>",
        "invalid 5 BadRole entry 0\n",
    ),
    (
        "<Event Reference=\"E\"><Resources><Resource Reference=\"x1\"/></Resources></Event>",
        "invalid 5 BadRole entry 0\n",
    ),
    (
        "<Event Reference=\"F\"><Resources><Resource Reference=\"x0\"><Role>R</Role></Resource><Resource Reference=\"x1\"><Role>R</Role></Resource></Resources></Event>",
        "invalid 5 BadRole entry 0\n",
    ),
    (
        "<Event Reference=\"F\"><Duration>1</Duration></Event><Event Reference=\"F\"><Duration>1</Duration><Resources><Resource Reference=\"x0\"><Role>R</Role></Resource><Resource Reference=\"x0\"><Role>P</Role></Resource></Resources></Event>",
        "invalid 5 BadRole entry 1\n",
    ),
    (
        "<Event Reference=\"E\"><Resources><Resource Reference=\"x0\"><Role>P</Role></Resource></Resources></Event>",
        "invalid 6 FixedResource entry 0\n",
    ),
    (
        "<Event Reference=\"E\"><Resources><Resource Reference=\"y0\"><Role>P</Role></Resource></Resources></Event>",
        "invalid 6 FixedResource entry 0\n",
    ),
    (
        "<Event Reference=\"F\"/><Event Reference=\"E\"><Resources><Resource Reference=\"x0\"><Role>R</Role></Resource><Resource Reference=\"x0\"/><Resource Reference=\"y0\"><Role>P</Role></Resource><Resource Reference=\"x0\"><Role>R</Role></Resource></Resources></Event>",
        "invalid 6 FixedResource entry 1\n",
    ),
    (
        "<Event Reference=\"F\"><Resources><Resource Reference=\"y0\"><Role>R</Role></Resource></Resources></Event>",
        "invalid 7 WrongType entry 0\n",
    ),
    (
        "<Event Reference=\"E\"><Resources><Resource Reference=\"y0\"><Role>R</Role></Resource><Resource Reference=\"x0\"><Role>P</Role></Resource></Resources></Event>",
        "invalid 7 WrongType entry 0\n",
    ),
    (
        "<Event Reference=\"F\"><Duration>1</Duration></Event><Event Reference=\"F\"><Duration>1</Duration><Resources><Resource Reference=\"y0\"><Role>R</Role></Resource></Resources></Event><Event Reference=\"E\"><Duration>1</Duration></Event>",
        "invalid 7 WrongType entry 1\n",
    ),
];

#[test]
fn names_the_causes_of_resources(rt: HostRuntime) -> Result<(), Fail> {
    must_tell_all(&rt, rt.alloc(), RESOURCES)
}

/// Entries without a cause.
const VALID: &[Told] = &[
    (
        "",
        "monitor 1 AssignTime \"time\" event \"F\" deviation 2 hard 2\nmonitor 2 AssignResource \"room\" event \"E\" role \"R\" deviation 2 hard 20\nmonitor 3 AssignResource \"room\" event \"F\" role \"R\" deviation 2 hard 20\ntotal hard 42 soft 0\n",
    ),
    (
        "<Event Reference=\"E\"><Time Reference=\"t1\"/><Resources><Resource Reference=\"x0\"/><Resource Reference=\"x1\"><Role>P</Role></Resource><Resource Reference=\"x0\"><Role>R</Role></Resource></Resources></Event><Event Reference=\"F\"><Time Reference=\"t1\"/><Resources><Resource Reference=\"x0\"><Role>R</Role></Resource></Resources></Event>",
        "total hard 0 soft 0\n",
    ),
    (
        "<Event Reference=\"F\"><Duration>1</Duration><Time Reference=\"t2\"/><Resources><Resource Reference=\"x0\"><Role>R</Role></Resource></Resources></Event><Event Reference=\"F\"><Duration>1</Duration><Time Reference=\"t2\"/><Resources><Resource Reference=\"x1\"><Role>R</Role></Resource></Resources></Event>",
        "monitor 2 AssignResource \"room\" event \"E\" role \"R\" deviation 2 hard 20\ntotal hard 20 soft 0\n",
    ),
    (
        "<Event Reference=\"F\"><Duration>1</Duration><Time Reference=\"t2\"/><Resources><Resource Reference=\"x0\"><Role>R</Role></Resource></Resources></Event>",
        "monitor 1 AssignTime \"time\" event \"F\" deviation 1 hard 1\nmonitor 2 AssignResource \"room\" event \"E\" role \"R\" deviation 2 hard 20\nmonitor 3 AssignResource \"room\" event \"F\" role \"R\" deviation 1 hard 10\ntotal hard 31 soft 0\n",
    ),
    (
        "<Event Reference=\"E\"><Duration>2</Duration><Resources><Resource Reference=\"x1\"><Role>R</Role></Resource></Resources></Event>",
        "monitor 1 AssignTime \"time\" event \"F\" deviation 2 hard 2\nmonitor 3 AssignResource \"room\" event \"F\" role \"R\" deviation 2 hard 20\ntotal hard 22 soft 0\n",
    ),
    (
        "<Event Reference=\"F\"><Duration>1</Duration><Time Reference=\"t0\"/></Event><Event Reference=\"E\"/><Event Reference=\"F\"><Duration>1</Duration></Event>",
        "monitor 1 AssignTime \"time\" event \"F\" deviation 1 hard 1\nmonitor 2 AssignResource \"room\" event \"E\" role \"R\" deviation 2 hard 20\nmonitor 3 AssignResource \"room\" event \"F\" role \"R\" deviation 2 hard 20\ntotal hard 41 soft 0\n",
    ),
];

#[test]
fn evaluates_solutions_without_a_cause(rt: HostRuntime) -> Result<(), Fail> {
    must_tell_all(&rt, rt.alloc(), VALID)
}

#[test]
fn evaluates_behind_an_invalid_solution(rt: HostRuntime) -> Result<(), Fail> {
    let part = "<Solution Reference=\"J\"/>";
    let other =
        "<Solution Reference=\"J\"><Events><Event Reference=\"E\"><Time Reference=\"t1\"/></Event></Events></Solution>";
    let text =
        "archive instances 1 solutions 2\nsolution 0 group \"H\" instance \"J\"\ninvalid 4 OffEnd entry 0\nsolution 1 group \"H\" instance \"J\"\ntotal hard 0 soft 0\n";
    let archive = replaced(rt.alloc(), TWO_EVENTS, "", part, other)?.ok_or("no such part")?;
    let end = End {
        status: 0,
        text: text,
    };
    must_answer(
        &rt,
        rt.alloc(),
        &["evaluate", "archive"],
        archive.as_str(),
        end,
    )?;
    Ok(())
}
