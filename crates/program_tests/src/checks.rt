//! Archives in their canonical spelling.

use crate::archives::FIRST;
use crate::ends::{must_answer, must_end};
use program_runs::Piece::{Copies, Once};
use program_runs::{Call, End, File, failing, text_of};
use std::alloc::Global;
use std::process::Abort;
use std::test::Fail;
use std::thread::Threads;

const CHECK: [&str; 2] = ["check", "archive"];

/// The canonical spelling of the first archive, as a program written apart from this one gave it.
const FIRST_SPELLED: &str = r#"<?xml version="1.0" encoding="UTF-8"?>
<HighSchoolTimetableArchive>
<Instances>
<Instance Id="I">
<Times>
<Time Id="t0"/>
<Time Id="t1"/>
<Time Id="t2"/>
</Times>
<Events>
<Event Id="E">
<Duration>3</Duration>
</Event>
</Events>
<Constraints>
<AssignTimeConstraint Id="c">
<Required>true</Required>
<Weight>2</Weight>
<CostFunction>Linear</CostFunction>
<AppliesTo>
<Events>
<Event Reference="E"/>
</Events>
</AppliesTo>
</AssignTimeConstraint>
</Constraints>
</Instance>
</Instances>
<SolutionGroups>
<SolutionGroup Id="G">
<Solution Reference="I"/>
</SolutionGroup>
</SolutionGroups>
</HighSchoolTimetableArchive>
"#;

/// The smallest archive.
const SMALLEST: &str = "<HighSchoolTimetableArchive/>";

/// Its spelling of 69 bytes.
const SMALLEST_SPELLED: &str =
    "<?xml version=\"1.0\" encoding=\"UTF-8\"?>\n<HighSchoolTimetableArchive/>\n";

/// Words, what stands under the name, and how the run ends.
type Case = (&'static [&'static str], &'static str, u8, &'static str);

const CASES: &[Case] = &[
    (&CHECK, SMALLEST, 0, SMALLEST_SPELLED),
    (&CHECK, SMALLEST_SPELLED, 0, SMALLEST_SPELLED),
    (
        &CHECK,
        "<HighSchoolTimetableArchive Id=\"a&amp;&#9;b\"/>",
        0,
        "<?xml version=\"1.0\" encoding=\"UTF-8\"?>\n<HighSchoolTimetableArchive Id=\"a&amp;&#9;b\"/>\n",
    ),
    (&CHECK, FIRST, 0, FIRST_SPELLED),
    (&CHECK, FIRST_SPELLED, 0, FIRST_SPELLED),
    (
        &["evaluate", "archive"],
        FIRST_SPELLED,
        0,
        "archive instances 1 solutions 1\nsolution 0 group \"G\" instance \"I\"\nmonitor 0 AssignTime \"c\" event \"E\" deviation 3 hard 6\ntotal hard 6 soft 0\n",
    ),
    (
        &CHECK,
        "<HighSchoolTimetableArchive></HighSch",
        3,
        "khe: archive refused: 2 BadMarkup at 37\n",
    ),
    (
        &CHECK,
        "<HighSchoolTimetableArchive><SolutionGroups><SolutionGroup Id=\"G\"><Solution Reference=\"X\"/></SolutionGroup></SolutionGroups></HighSchoolTimetableArchive>",
        3,
        "khe: archive refused: 13 UnknownReference at 87\n",
    ),
    (&["check", "nothing"], SMALLEST, 4, ""),
    (&["check"], SMALLEST, 2, "khe: words not understood\n"),
    (
        &["check", "archive", "archive"],
        SMALLEST,
        2,
        "khe: words not understood\n",
    ),
    (
        &["Check", "archive"],
        SMALLEST,
        2,
        "khe: words not understood\n",
    ),
];

fn must_end_all<R: Threads + Sync + Abort>(
    rt: &R,
    alloc: Global,
    cases: &[Case],
) -> Result<(), Fail> {
    for case in cases {
        let (words, archive, status, text) = *case;
        let end = End { status, text: text };
        must_answer(rt, alloc, words, archive, end)?;
    }
    Ok(())
}

#[test]
fn archives_are_spelled_or_refused(rt: HostRuntime) -> Result<(), Fail> {
    must_end_all(&rt, rt.alloc(), CASES)
}

/// An archive with an Id of 70,000 letters is written in two pieces: the second call of the sink is
/// asked for what stands after the letters.
#[test]
fn a_long_text_is_written_in_pieces(rt: HostRuntime) -> Result<(), Fail> {
    let start = "<HighSchoolTimetableArchive Id=\"";
    let archive = text_of(
        rt.alloc(),
        &[Once(start), Copies(70_000, "a"), Once("\"/>")],
    )?;
    let declaration = "<?xml version=\"1.0\" encoding=\"UTF-8\"?>\n";
    let front = text_of(
        rt.alloc(),
        &[Once(declaration), Once(start), Copies(70_000, "a")],
    )?;
    let files = [File {
        name: "archive",
        text: archive.as_str(),
    }];
    let call = Call {
        words: &CHECK,
        files: &files,
    };
    let end = End {
        status: 5,
        text: front.as_str(),
    };
    must_end(&rt, rt.alloc(), call, failing(0, 2), end)?;
    Ok(())
}
