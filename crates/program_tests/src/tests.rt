//! Reports, words and refusals.

use crate::archives::{FIRST, first_with};
use crate::ends::{must_answer, must_end};
use khe_base::NoMemory;
use program_runs::{Call, Devices, End, File, GOOD, TWO_EVENTS, failing};
use std::alloc::Global;
use std::process::Abort;
use std::test::Fail;
use std::thread::Threads;

const EVALUATE: [&str; 2] = ["evaluate", "archive"];

/// Words that ask for all monitors.
const EVALUATE_ALL: [&[&str]; 3] = [
    &["evaluate", "archive", "--all"],
    &["evaluate", "archive", "--all", "--workers", "3"],
    &["evaluate", "archive", "--workers", "3", "--all"],
];

/// Words that ask for some number of workers.
const BY_WORKERS: [&[&str]; 6] = [
    &["evaluate", "archive"],
    &["evaluate", "archive", "--workers", "1"],
    &["evaluate", "archive", "--workers", "2"],
    &["evaluate", "archive", "--workers", "003"],
    &["evaluate", "archive", "--workers", "4"],
    &["evaluate", "archive", "--workers", "64"],
];

/// Words without a reading.
const WITHOUT_READING: [&[&str]; 15] = [
    &[],
    &["evaluate"],
    &["archive", "evaluate"],
    &["Evaluate", "archive"],
    &["evaluate", "archive", "archive"],
    &["evaluate", "--all", "archive"],
    &["evaluate", "archive", "--all", "--all"],
    &["evaluate", "archive", "--workers"],
    &["evaluate", "archive", "--workers", "0"],
    &["evaluate", "archive", "--workers", "65"],
    &["evaluate", "archive", "--workers", "0000000000000000001"],
    &["evaluate", "archive", "--workers", "--all"],
    &["evaluate", "archive", "--all", "--workers"],
    &["evaluate", "archive", "--all", "3", "--workers"],
    &["evaluate", "archive", "--workers", "3", "--workers", "3"],
];

const HEADER: &str = "archive instances 1 solutions 1\nsolution 0 group \"G\" instance \"I\"\n";

const WHOLE: &str =
    "monitor 0 AssignTime \"c\" event \"E\" deviation 3 hard 6\ntotal hard 6 soft 0\n";

/// A solution in which the event has a start.
const TIMED: &str =
    "<Solution Reference=\"I\"><Events><Event Reference=\"E\"><Time Reference=\"t0\"/></Event></Events></Solution>";

/// A part of the first archive, what stands in its place, and the fault or the lines of the solution.
type Change = (&'static str, &'static str, &'static str);

/// The test fails unless the first archive with this change is refused with this fault.
fn must_refuse<R: Threads + Sync + Abort>(
    rt: &R,
    alloc: Global,
    (part, other, fault): Change,
) -> Result<(), Fail> {
    let archive = first_with(alloc, part, other)?.ok_or("no such part")?;
    let text = format!(in alloc; "khe: archive refused: {fault}\n")?;
    let end = End {
        status: 3,
        text: text.as_str(),
    };
    must_answer(rt, alloc, &EVALUATE, archive.as_str(), end)?;
    Ok(())
}

fn must_refuse_all<R: Threads + Sync + Abort>(
    rt: &R,
    alloc: Global,
    changes: &[Change],
) -> Result<(), Fail> {
    for change in changes {
        must_refuse(rt, alloc, *change)?;
    }
    Ok(())
}

/// The test fails unless these lines are told of the solution of the first archive with this change.
fn must_report<R: Threads + Sync + Abort>(
    rt: &R,
    alloc: Global,
    (part, other, lines): Change,
) -> Result<(), Fail> {
    let archive = first_with(alloc, part, other)?.ok_or("no such part")?;
    let text = format!(in alloc; "{HEADER}{lines}")?;
    let end = End {
        status: 0,
        text: text.as_str(),
    };
    must_answer(rt, alloc, &EVALUATE, archive.as_str(), end)?;
    Ok(())
}

fn must_report_all<R: Threads + Sync + Abort>(
    rt: &R,
    alloc: Global,
    changes: &[Change],
) -> Result<(), Fail> {
    for change in changes {
        must_report(rt, alloc, *change)?;
    }
    Ok(())
}

/// Changes of how the only constraint costs, and of the solution.
const FIRST_REPORTS: &[Change] = &[
    (
        "",
        "",
        "monitor 0 AssignTime \"c\" event \"E\" deviation 3 hard 6\ntotal hard 6 soft 0\n",
    ),
    (
        "Linear",
        "Quadratic",
        "monitor 0 AssignTime \"c\" event \"E\" deviation 3 hard 18\ntotal hard 18 soft 0\n",
    ),
    (
        "Linear",
        "Step",
        "monitor 0 AssignTime \"c\" event \"E\" deviation 3 hard 2\ntotal hard 2 soft 0\n",
    ),
    (
        ">2<",
        ">0<",
        "monitor 0 AssignTime \"c\" event \"E\" deviation 3 hard 0\ntotal hard 0 soft 0\n",
    ),
    (
        "true",
        "false",
        "monitor 0 AssignTime \"c\" event \"E\" deviation 3 soft 6\ntotal hard 0 soft 6\n",
    ),
    (
        "<Event Reference=\"E\"/>",
        "<Event Reference=\"E\"/><Event Reference=\"E\"/>",
        "monitor 0 AssignTime \"c\" event \"E\" deviation 3 hard 6\ntotal hard 6 soft 0\n",
    ),
    (
        "<Solution Reference=\"I\"/>",
        TIMED,
        "total hard 0 soft 0\n",
    ),
];

#[test]
fn evaluates_the_first_archive(rt: HostRuntime) -> Result<(), Fail> {
    must_report_all(&rt, rt.alloc(), FIRST_REPORTS)
}

/// Changes that make the archive one that is refused.
const REFUSED: &[Change] = &[
    (
        "</HighSchoolTimetableArchive>",
        "</HighSch",
        "2 BadMarkup at 533",
    ),
    ("</Instances>", "</Instance>", "3 MismatchedEnd at 413"),
    ("<Times>", "<!DOCTYPE a><Times>", "5 Unsupported at 58"),
    ("<Times>", "<Times>&nbsp;", "4 BadReference at 65"),
    (
        "<Weight>2</Weight>",
        "<Weight>2</Weight><Weight>2</Weight>",
        "9 RepeatedChild at 266",
    ),
    (
        "<Weight>2</Weight>",
        "<Weight>1000001</Weight>",
        "10 BadNumber at 256",
    ),
    ("<Weight>2</Weight>", "", "8 MissingChild at 194"),
    (
        "<Duration>3</Duration>",
        "<Duration>0</Duration>",
        "10 BadNumber at 151",
    ),
    ("Linear", "Cubic", "11 BadWord at 280"),
    ("<Times>", "<Times>loose", "11 BadWord at 65"),
    ("<Times>", "<Hours/><Times>", "7 UnknownElement at 58"),
    (
        "<Time Id=\"t1\"/>",
        "<Time Id=\"t0\"/>",
        "12 DuplicateId at 90",
    ),
    (
        "<Event Reference=\"E\"/>",
        "<Event Reference=\"F\"/>",
        "13 UnknownReference at 339",
    ),
    (
        "Solution Reference=\"I\"",
        "Solution Reference=\"J\"",
        "13 UnknownReference at 485",
    ),
    (
        "<Duration>3</Duration>",
        "<Duration>3</Duration><Time Reference=\"t1\"/>",
        "15 EventOffEnd at 180",
    ),
    (
        "<Duration>3</Duration>",
        "<Duration>200000</Duration>",
        "16 Limit duration 200000",
    ),
];

#[test]
fn refuses_archives(rt: HostRuntime) -> Result<(), Fail> {
    must_refuse_all(&rt, rt.alloc(), REFUSED)
}

/// Changes of how the same is written, and solutions that are invalid.
const OTHER_REPORTS: &[Change] = &[
    (
        "<HighSchoolTimetableArchive>",
        "\u{feff}<?xml version='1.0'?><!-- a comment --><HighSchoolTimetableArchive>",
        WHOLE,
    ),
    ("Id=\"E\"", "Id=\"&#69;\"", WHOLE),
    ("Instance Id=\"I\"", "Instance Id='I'", WHOLE),
    ("<Weight>2</Weight>", "<Weight> 2</Weight>", WHOLE),
    (
        "<Required>true</Required><Weight>2</Weight>",
        "<Weight>2</Weight><Required>true</Required>",
        WHOLE,
    ),
    (
        "<Solution Reference=\"I\"/>",
        "<Solution Reference=\"I\"><Events><Event Reference=\"E\"><Duration>1</Duration></Event><Event Reference=\"E\"><Duration>1</Duration></Event></Events></Solution>",
        WHOLE,
    ),
    (
        "<Solution Reference=\"I\"/>",
        "<Solution Reference=\"I\"><Events><Event Reference=\"E\"><Time Reference=\"t1\"/></Event></Events></Solution>",
        "invalid 4 OffEnd entry 0\n",
    ),
    (
        "<Solution Reference=\"I\"/>",
        "<Solution Reference=\"I\"><Events><Event Reference=\"E\"><Duration>2</Duration></Event><Event Reference=\"E\"><Duration>2</Duration></Event></Events></Solution>",
        "invalid 1 TooLong entry 1\n",
    ),
];

#[test]
fn evaluates_solutions_and_names_causes(rt: HostRuntime) -> Result<(), Fail> {
    must_report_all(&rt, rt.alloc(), OTHER_REPORTS)
}

#[test]
fn evaluates_resources(rt: HostRuntime) -> Result<(), Fail> {
    let first =
        "archive instances 1 solutions 2\nsolution 0 group \"H\" instance \"J\"\nmonitor 0 AssignTime \"c0\" event \"E\" deviation 3 hard 6\nmonitor 1 AssignTime \"c0\" event \"F\" deviation 1 hard 2\nmonitor 2 AssignResource \"c1\" event \"E\" role \"R\" deviation 3 hard 3\nmonitor 3 AssignResource \"c1\" event \"F\" role \"R\" deviation 1 hard 1\n";
    let second = "total hard 12 soft 0\nsolution 1 group \"H\" instance \"J\"\n";
    let rest =
        "monitor 4 AvoidClashes \"c2\" resource \"r0\" deviation 0 hard 0\nmonitor 5 AvoidClashes \"c2\" resource \"r1\" deviation 0 hard 0\nmonitor 6 PreferTimes \"c3\" event \"F\" deviation 0 soft 0\n";
    let met =
        "monitor 0 AssignTime \"c0\" event \"E\" deviation 0 hard 0\nmonitor 1 AssignTime \"c0\" event \"F\" deviation 0 hard 0\nmonitor 2 AssignResource \"c1\" event \"E\" role \"R\" deviation 0 hard 0\nmonitor 3 AssignResource \"c1\" event \"F\" role \"R\" deviation 0 hard 0\n";
    let last = "total hard 0 soft 0\n";
    let text = format!(in rt.alloc(); "{first}{second}{last}")?;
    must_answer_each(&rt, rt.alloc(), &BY_WORKERS, text.as_str())?;
    let text = format!(in rt.alloc(); "{first}{rest}{second}{met}{rest}{last}")?;
    must_answer_each(&rt, rt.alloc(), &EVALUATE_ALL, text.as_str())
}

/// The test fails unless a run on each of these lists of words, on the archive with resources, ends well after this
/// text.
fn must_answer_each<R: Threads + Sync + Abort>(
    rt: &R,
    alloc: Global,
    lists: &[&[&str]],
    text: &str,
) -> Result<(), Fail> {
    let end = End {
        status: 0,
        text: text,
    };
    for words in lists {
        must_answer(rt, alloc, words, TWO_EVENTS, end)?;
    }
    Ok(())
}

/// An archive, the text after which a run on it ends, and the status.
type Small = (&'static str, &'static str, u8);

fn must_end_all<R: Threads + Sync + Abort>(
    rt: &R,
    alloc: Global,
    rows: &[Small],
) -> Result<(), Fail> {
    for row in rows {
        let (archive, text, status) = *row;
        let end = End { status, text: text };
        must_answer(rt, alloc, &EVALUATE, archive, end)?;
    }
    Ok(())
}

/// The first archive with a mark of the byte order, a declaration, a comment, a character by its number, other quotes
/// and the children of its constraint in reverse order.
const SPELLED_OTHERWISE: &str =
    "\u{feff}<?xml version=\"1.0\" encoding=\"UTF-8\"?><!-- a comment -->
<HighSchoolTimetableArchive>
<Instances><Instance Id='I'>
<Times><Time Id=\"t0\"/><Time Id=\"t1\"/><Time Id=\"t2\"/></Times>
<Events><Event Id=\"&#69;\"><Duration>3</Duration></Event></Events>
<Constraints><AssignTimeConstraint Id=\"c\"><AppliesTo><Events><Event Reference=\"E\"/></Events></AppliesTo>
<CostFunction>Linear</CostFunction><Weight>2</Weight><Required>true</Required></AssignTimeConstraint></Constraints>
</Instance></Instances>
<SolutionGroups><SolutionGroup Id=\"G\"><Solution Reference=\"I\"/></SolutionGroup></SolutionGroups>
</HighSchoolTimetableArchive>
";

/// Whole archives.
const SMALL_ARCHIVES: &[Small] = &[
    // The first archive, spelled otherwise wherever that changes nothing.
    (
        SPELLED_OTHERWISE,
        "archive instances 1 solutions 1\nsolution 0 group \"G\" instance \"I\"\nmonitor 0 AssignTime \"c\" event \"E\" deviation 3 hard 6\ntotal hard 6 soft 0\n",
        0,
    ),
    (
        "<HighSchoolTimetableArchive/>",
        "archive instances 0 solutions 0\n",
        0,
    ),
    (
        "<HighSchoolTimetableArchive></HighSch",
        "khe: archive refused: 2 BadMarkup at 37\n",
        3,
    ),
    (
        "<HighSchoolTimetableArchive><SolutionGroups><SolutionGroup Id=\"G\"><Solution Reference=\"X\"/></SolutionGroup></SolutionGroups></HighSchoolTimetableArchive>",
        "khe: archive refused: 13 UnknownReference at 87\n",
        3,
    ),
    (
        "<HighSchoolTimetableArchive><X/></HighSchoolTimetableArchive>",
        "khe: archive refused: 7 UnknownElement at 28\n",
        3,
    ),
    (
        "<HighSchoolTimetableArchive>x</HighSchoolTimetableArchive>",
        "khe: archive refused: 11 BadWord at 28\n",
        3,
    ),
    (
        "<HighSchoolTimetableArchive><MetaData/><MetaData/></HighSchoolTimetableArchive>",
        "khe: archive refused: 9 RepeatedChild at 39\n",
        3,
    ),
    (
        "<HighSchoolTimetableArchive><Instances><Instance/></Instances></HighSchoolTimetableArchive>",
        "khe: archive refused: 8 MissingChild at 39\n",
        3,
    ),
    (
        "<HighSchoolTimetableArchive><Instances><Instance Id=\"I\"/><Instance Id=\"I\"/></Instances></HighSchoolTimetableArchive>",
        "khe: archive refused: 12 DuplicateId at 71\n",
        3,
    ),
];

#[test]
fn evaluates_small_archives(rt: HostRuntime) -> Result<(), Fail> {
    must_end_all(&rt, rt.alloc(), SMALL_ARCHIVES)
}

/// The first archive, and one of two events.
const FILES: &[File<'static>] = &[
    File {
        name: "archive",
        text: FIRST,
    },
    File {
        name: "two",
        text: TWO_EVENTS,
    },
];

const NOT_UNDERSTOOD: End<'static> = End {
    status: 2,
    text: "khe: words not understood\n",
};

/// The test fails unless runs on each of these lists of words read nothing, and end as words without a reading
/// do: the first call of the shelf would fail.
fn must_not_be_read<R: Threads + Sync + Abort>(
    rt: &R,
    alloc: Global,
    lists: &[&[&str]],
) -> Result<(), Fail> {
    for words in lists {
        let call = Call {
            words,
            files: FILES,
        };
        must_end(rt, alloc, call, failing(1, 0), NOT_UNDERSTOOD)?;
    }
    Ok(())
}

#[test]
fn reads_the_words(rt: HostRuntime) -> Result<(), Fail> {
    must_not_be_read(&rt, rt.alloc(), &WITHOUT_READING)
}

/// Devices that take and give a byte a call.
const BIT_BY_BIT: Devices = Devices {
    read: 1,
    write: 1,
    room: 10_000,
    failing_read: 0,
    failing_write: 0,
};

/// Devices of which the sink takes three bytes in all.
const SMALL: Devices = Devices {
    read: 100,
    write: 100,
    room: 3,
    failing_read: 0,
    failing_write: 0,
};

/// The test fails unless a run on the archive under a name ends so with these devices.
fn must_end_by<R: Threads + Sync + Abort>(
    rt: &R,
    alloc: Global,
    name: &str,
    devices: Devices,
    (status, text): (u8, &str),
) -> Result<(), NoMemory> {
    let words = ["evaluate", name];
    let call = Call {
        words: &words,
        files: FILES,
    };
    let end = End { status, text: text };
    must_end(rt, alloc, call, devices, end)
}

#[test]
fn answers_failing_devices(rt: HostRuntime) -> Result<(), Fail> {
    let whole = format!(in rt.alloc(); "{HEADER}{WHOLE}")?;
    must_end_by(&rt, rt.alloc(), "archive", BIT_BY_BIT, (0, whole.as_str()))?;
    must_end_by(&rt, rt.alloc(), "archive", SMALL, (5, "arc"))?;
    must_end_by(&rt, rt.alloc(), "two", SMALL, (5, "arc"))?;
    must_end_by(&rt, rt.alloc(), "archive", failing(0, 1), (5, ""))?;
    must_end_by(&rt, rt.alloc(), "archive", failing(1, 0), (4, ""))?;
    must_end_by(&rt, rt.alloc(), "archive", failing(2, 0), (4, ""))?;
    must_end_by(&rt, rt.alloc(), "nothing", GOOD, (4, ""))?;
    Ok(())
}
