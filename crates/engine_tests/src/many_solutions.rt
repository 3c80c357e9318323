//! An archive with as many solutions as a test asks for.

use std::alloc::{AllocError, Global};

/// An archive of one event of three times, up to its solutions.
const HEAD: &str = r#"<HighSchoolTimetableArchive>
<Instances><Instance Id="I">
<Times><Time Id="t0"/><Time Id="t1"/><Time Id="t2"/></Times>
<Events><Event Id="E"><Duration>3</Duration></Event></Events>
<Constraints><AssignTimeConstraint Id="c"><Required>true</Required><Weight>2</Weight><CostFunction>Linear</CostFunction>
<AppliesTo><Events><Event Reference="E"/></Events></AppliesTo></AssignTimeConstraint></Constraints>
</Instance></Instances>
<SolutionGroups><SolutionGroup Id="G">"#;

/// A solution that places nothing.
const EMPTY: &str = r#"<Solution Reference="I"/>"#;

/// A solution that places the event where it ends in time, and one where it does not.
const LAST: &str =
    r#"<Solution Reference="I"><Events><Event Reference="E"><Time Reference="t0"/></Event></Events></Solution>
<Solution Reference="I"><Events><Event Reference="E"><Time Reference="t1"/></Event></Events></Solution>"#;

const TAIL: &str = "</SolutionGroup></SolutionGroups>\n</HighSchoolTimetableArchive>\n";

/// The text of the archive with `empty` solutions that place nothing, then one that places the event,
/// and one that is invalid.
pub(crate) fn text_of(alloc: Global, empty: usize) -> Result<String, AllocError> {
    let mut text = String::new(alloc);
    text.push_str(HEAD)?;
    for _ in 0..empty {
        text.push_str(EMPTY)?;
    }
    text.push_str(LAST)?;
    text.push_str(TAIL)?;
    Ok(text)
}
