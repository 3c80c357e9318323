//! Archives that many tests change a part of.

use std::alloc::{AllocError, Global};

/// An archive of one event of three times, without a start.
pub(crate) const FIRST: &str = r#"<HighSchoolTimetableArchive>
<Instances><Instance Id="I">
<Times><Time Id="t0"/><Time Id="t1"/><Time Id="t2"/></Times>
<Events><Event Id="E"><Duration>3</Duration></Event></Events>
<Constraints><AssignTimeConstraint Id="c"><Required>true</Required><Weight>2</Weight><CostFunction>Linear</CostFunction>
<AppliesTo><Events><Event Reference="E"/></Events></AppliesTo></AssignTimeConstraint></Constraints>
</Instance></Instances>
<SolutionGroups><SolutionGroup Id="G"><Solution Reference="I"/></SolutionGroup></SolutionGroups>
</HighSchoolTimetableArchive>
"#;

/// This archive with `other` in place of the first `part` behind the first `after`, or `None` where
/// it has no such part.
pub(crate) fn replaced(
    alloc: Global,
    archive: &str,
    after: &str,
    part: &str,
    other: &str,
) -> Result<Option<String>, AllocError> {
    let Some((front, rest)) = archive.split_once(after) else {
        return Ok(None);
    };
    let Some((before, behind)) = rest.split_once(part) else {
        return Ok(None);
    };
    let text = format!(in alloc; "{front}{after}{before}{other}{behind}")?;
    Ok(Some(text))
}

/// The first archive with one part of its text in place of another, or `None` where it has no such
/// part.
pub(crate) fn first_with(
    alloc: Global,
    part: &str,
    other: &str,
) -> Result<Option<String>, AllocError> {
    let Some((before, after)) = FIRST.split_once(part) else {
        return Ok(None);
    };
    let text = format!(in alloc; "{before}{other}{after}")?;
    Ok(Some(text))
}
