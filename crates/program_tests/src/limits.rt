//! Pairs of archives, one at a limit and one above it.

use crate::ends::must_answer;
use khe_base::{NoMemory, Text, both};
use program_runs::{End, Piece, push_all, text_of};
use std::alloc::Global;
use std::process::Abort;
use std::test::Fail;
use std::thread::Threads;

/// Two archives that differ in one place: one meets a limit, the other is above it.
#[derive(Clone, Copy)]
pub(crate) struct Limit {
    /// What stands in front of the place.
    pub front: &'static [Piece],
    /// What the place has where the limit is met.
    pub met: &'static [Piece],
    /// What the place has above the limit.
    pub above: &'static [Piece],
    /// What stands behind the place, up to the end of the archive.
    pub rest: &'static [Piece],
    /// The report of the archive that meets the limit.
    pub report: &'static [Piece],
    /// The line that refuses the archive above it.
    pub refusal: &'static str,
}

/// Runs the program on both archives of each of these limits; the test fails unless all that meet their limits are
/// evaluated to their reports, and all others refused by their lines.
pub(crate) fn must_be_kept<R: Threads + Sync + Abort>(
    rt: &R,
    alloc: Global,
    limits: &[&Limit],
) -> Result<(), Fail> {
    for limit in limits {
        must_be_met(rt, alloc, limit)?;
        must_be_refused(rt, alloc, limit)?;
    }
    Ok(())
}

/// The archive that meets the limit is evaluated to its report.
fn must_be_met<R: Threads + Sync + Abort>(
    rt: &R,
    alloc: Global,
    limit: &Limit,
) -> Result<(), NoMemory> {
    let archive = archive(alloc, limit, limit.met);
    let (archive, report) = both(archive, text_of(alloc, limit.report))?;
    let end = End {
        status: 0,
        text: report.as_str(),
    };
    must_answer(rt, alloc, &EVALUATE, archive.as_str(), end)
}

/// The archive above the limit is refused by its line.
fn must_be_refused<R: Threads + Sync + Abort>(
    rt: &R,
    alloc: Global,
    limit: &Limit,
) -> Result<(), NoMemory> {
    let archive = archive(alloc, limit, limit.above)?;
    let end = End {
        status: 3,
        text: limit.refusal,
    };
    must_answer(rt, alloc, &EVALUATE, archive.as_str(), end)
}

const EVALUATE: [&str; 2] = ["evaluate", "archive"];

/// An archive of a limit, with these pieces in its place.
fn archive(alloc: Global, limit: &Limit, place: &[Piece]) -> Result<Text, NoMemory> {
    let mut text = Text::new(alloc);
    let pushed = push_archive(&mut text, limit, place);
    pushed.and(Ok(text))
}

fn push_archive(text: &mut Text, limit: &Limit, place: &[Piece]) -> Result<(), NoMemory> {
    push_all(text, limit.front)?;
    push_all(text, place)?;
    push_all(text, limit.rest)
}

/// The front of an archive, up to the children of its one instance.
pub(crate) const HEAD: Piece = Piece::Once(
    r#"<HighSchoolTimetableArchive><Instances><Instance Id="I">"#,
);

/// The end of an archive, from the end of its instance on. It has one solution, without entries.
pub(crate) const TAIL: Piece = Piece::Once(
    r#"</Instance></Instances><SolutionGroups><SolutionGroup Id="G"><Solution Reference="I"/></SolutionGroup></SolutionGroups></HighSchoolTimetableArchive>"#,
);

/// What each constraint has beside its points and its kind's own elements.
pub(crate) const COST: Piece = Piece::Once(
    "<Required>true</Required><Weight>1</Weight><CostFunction>Linear</CostFunction>",
);

/// A type of resources.
pub(crate) const TYPES: Piece = Piece::Once(
    r#"<ResourceTypes><ResourceType Id="x"/></ResourceTypes>"#,
);

/// The report of the one solution, where no monitor deviates.
pub(crate) const NOTHING_DEVIATES: &[Piece] = &[Piece::Once(
    "archive instances 1 solutions 1\nsolution 0 group \"G\" instance \"I\"\ntotal hard 0 soft 0\n",
)];
